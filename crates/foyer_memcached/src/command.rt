//! The commands of a connection.
ghost use Rattle.std.specs.Prelude.{◌≡◌, ◌+◌, ◌<◌, ◌≤◌, ◌++◌, ℕ, List, Err, IfErr, IfOk, Ok, length, max};
ghost use Rattle.foyer_memcached.specs.declared.command.Fault.TheVariants.{Short, TooLong};
ghost use Rattle.foyer_memcached.specs.declared.command.Limits.{Limits};
ghost use Rattle.foyer_memcached.specs.Asked.{Asked, Data, asked, flagged_if, storing};
ghost use Rattle.foyer_memcached.specs.Bytes.{AreWords, Fits, command_bytes, line_bytes, line_text};
ghost use Rattle.foyer_memcached.specs.Lines.{said_at};
ghost use Rattle.foyer_memcached.specs.Command.{after_line, command_at, line_limit, line_of, stored_as};
ghost use Rattle.foyer_memcached.specs.Words.{line_at};
ghost use Rattle.foyer_memcached.specs.Steps.{Reads};

use crate::expiry::Expiry;
use crate::line::{read_get, read_line, refusal_for};
use crate::meta::Meta;
use crate::verb::Mode;
use crate::words::{Words, split_line, strip_return};

/// The most bytes of lines and of items.
#[derive(Clone, Copy, Debug, PartialEq, Eq)]
pub struct Limits {
    /// Of a line, without its line feed.
    pub line: u32,
    /// Of a line that begins with `get` or `gat`, which may list many keys.
    pub get_line: u32,
    /// Of an item: its value, its key, and 48 more, as memcached counts.
    pub item: u32,
}

/// Why no command can be read.
#[derive(Clone, Copy, Debug, PartialEq, Eq)]
pub enum Fault {
    /// The bytes are the beginning of a command.
    Short,
    /// The first line is too long.
    TooLong,
}

/// Why a line is no command, or its data are not stored.
#[derive(Clone, Copy, Debug, PartialEq, Eq)]
pub enum Refusal {
    /// There is no such verb, or it has other words.
    Unknown,
    /// A key that is too long, or a word that isn't a number.
    BadFormat,
    /// The expiry isn't a number.
    BadExpiry,
    /// What is to be added or subtracted isn't a number.
    BadDelta,
    /// Words behind the key of a delete.
    BadDelete,
    /// The value isn't followed by a carriage return and a line feed.
    BadChunk,
    /// Any of these but `Unknown`, in a line that asks for no reply: nothing is replied.
    Untold,
    /// A flag that isn't known here.
    BadFlag,
    /// Two flags with one letter.
    RepeatedFlag,
    /// What follows a flag's letter isn't a number.
    BadToken,
    /// More than 31 bytes that are to come back.
    OpaqueTooLong,
    /// A mode that isn't one byte.
    BadModeLength,
    /// There is no such mode of `ms`.
    BadStoreMode,
    /// There is no such mode of `ma`.
    BadCountMode,
    /// The number that a new item is to begin with isn't one.
    BadInitial,
    /// What a flag adds or subtracts isn't a number.
    BadStep,
    /// Flags of `md` or `ma` that aren't known, come twice or take another form.
    BadFlags,
    /// The key isn't base64.
    BadKey,
}

/// How a value is stored.
#[derive(Clone, Copy, Debug, PartialEq, Eq)]
pub struct Head<'a> {
    /// When it is stored, and where.
    pub mode: Mode,
    /// The key.
    pub key: &'a [u8],
    /// The client's own number.
    pub flags: u32,
    /// When it is no longer seen.
    pub expiry: Expiry,
    /// The length of the value in bytes.
    pub len: u32,
    /// The version that must be there, for `cas`. Else 0.
    pub cas: u64,
    /// Whether nothing is replied.
    pub is_quiet: bool,
}

/// What a client asks for. Keys and values are borrowed from the connection's bytes.
#[derive(Clone, Copy, Debug, PartialEq, Eq)]
pub enum Command<'a> {
    /// `get`, `gets`.
    Get {
        has_cas: bool,
        keys: Words<'a>,
    },
    /// `gat`, `gats`.
    GetTouch {
        has_cas: bool,
        expiry: Expiry,
        keys: Words<'a>,
    },
    /// `set`, `add`, `replace`, `append`, `prepend`, `cas`.
    Store {
        how: Head<'a>,
        value: &'a [u8],
    },
    /// The same with a value that is too large. The value and the two bytes behind it follow, and are passed over.
    TooLarge {
        how: Head<'a>,
    },
    /// `delete`.
    Delete {
        key: &'a [u8],
        is_quiet: bool,
    },
    /// `incr`, `decr`.
    Count {
        is_up: bool,
        key: &'a [u8],
        by: u64,
        is_quiet: bool,
    },
    /// `touch`.
    Touch {
        key: &'a [u8],
        expiry: Expiry,
        is_quiet: bool,
    },
    /// `flush_all`.
    Flush {
        delay: Expiry,
        is_quiet: bool,
    },
    /// `stats`.
    Stats {
        about: Words<'a>,
    },
    /// `version`.
    Version,
    /// `verbosity`.
    Verbosity {
        is_quiet: bool,
    },
    /// `quit`, or the first line of an HTTP request: the connection is closed.
    Quit,
    /// `mn`: a reply that means nothing.
    NoOperation,
    /// `mg`.
    MetaGet {
        key: &'a [u8],
        meta: Meta<'a>,
    },
    /// `ms`.
    MetaStore {
        how: Head<'a>,
        meta: Meta<'a>,
        value: &'a [u8],
    },
    /// `md`.
    MetaDelete {
        key: &'a [u8],
        meta: Meta<'a>,
    },
    /// `ma`.
    MetaCount {
        is_up: bool,
        key: &'a [u8],
        meta: Meta<'a>,
    },
    /// `me`. The key is written in base64 if it is binary.
    MetaShow {
        key: &'a [u8],
        is_binary: bool,
    },
    /// `ms` with flags that are refused. The value and the two bytes behind it follow, and are passed over. An error is replied.
    Skip {
        refusal: Refusal,
        len: u32,
    },
    /// No command. An error is replied.
    Bad {
        refusal: Refusal,
    },
}

// What a line says: a whole command, or one whose data follow, with flags if it is a meta command.
#[derive(Clone, Copy, Debug, PartialEq, Eq)]
pub(crate) enum Line<'a> {
    Whole(Command<'a>),
    Data(Head<'a>, Option<Meta<'a>>),
}

// The most bytes that a line may have.
fn line_most(line: &[u8], limits: Limits) -> u32
    ensures { result ≡ line_limit limits line.now }
{
    if line.starts_with(b"get") || line.starts_with(b"gat") {
        limits.get_line
    } else {
        limits.line
    }
}

// The first line, and what follows it.
fn first_line<'a>(bytes: &'a [u8], limits: Limits) -> Result<(&'a [u8], &'a [u8]), Fault>
    ensures { Reads (λ x. (x.0.now, x.1.now)) result (line_of limits bytes.now (line_at bytes.now)) }
{
    match split_line(bytes) {
        Some((line, rest)) => {
            if line.len() > line_most(line, limits) as usize {
                return Err(Fault::TooLong);
            }
            Ok((line, rest))
        }
        None => {
            if bytes.len() > line_most(bytes, limits) as usize {
                return Err(Fault::TooLong);
            }
            Err(Fault::Short)
        }
    }
}

// A command to store a value.
fn stored<'a>(how: Head<'a>, meta: Option<Meta<'a>>, value: &'a [u8]) -> Command<'a>
    ensures { asked result ≡ stored_as (storing how.entry) (flagged_if meta.entry) value.now }
{
    match meta {
        None => Command::Store { how, value },
        Some(meta) => Command::MetaStore { how, meta, value },
    }
}

// The value that follows a line, and what follows that.
fn value<'a>(
    how: Head<'a>,
    meta: Option<Meta<'a>>,
    rest: &'a [u8],
    limits: Limits,
) -> Result<(Command<'a>, &'a [u8]), Fault>
    ensures { Reads (λ x. (asked x.0, x.1.now)) result (after_line limits (Data (storing how.entry) (flagged_if meta.entry)) rest.now) }
{
    let len = how.len as usize;
    if len + how.key.len() + 48 > limits.item as usize {
        return Ok((Command::TooLarge { how }, rest));
    }
    if rest.len() < len + 2 {
        return Err(Fault::Short);
    }
    let (value, more) = rest.split_at(len);
    let (end, more) = more.split_at(2);
    if end == b"\r\n".as_slice() {
        Ok((stored(how, meta, value), more))
    } else {
        Ok((
            Command::Bad {
                refusal: refusal_for(how.is_quiet, Refusal::BadChunk),
            },
            more,
        ))
    }
}

// The command at the front of the bytes, and what follows it.
#[tactic(auto, unfolding(crate::specs::Command::command_at))]
fn read_command<'a>(bytes: &'a [u8], limits: Limits) -> Result<(Command<'a>, &'a [u8]), Fault>
    ensures { Reads (λ x. (asked x.0, x.1.now)) result (command_at limits bytes.now) }
{
    let (first, rest) = first_line(bytes, limits)?;
    let line = strip_return(first);
    if let Some((has_cas, keys)) = read_get(line) {
        return Ok((Command::Get { has_cas, keys }, rest));
    }
    match read_line(line) {
        Line::Whole(command) => Ok((command, rest)),
        Line::Data(how, meta) => value(how, meta, rest, limits),
    }
}

impl<'a> Command<'a> {
    /// Reads the command at the front of the bytes. Gives it and the bytes behind it. Errors: `Short` if more bytes are needed,
    /// `TooLong` if the first line is too long.
    pub fn decode(bytes: &'a [u8], limits: Limits) -> Result<(Command<'a>, &'a [u8]), Fault>
        // It is the one reading that the definition `command_at` gives.
        ensures exact { Reads (λ x. (asked x.0, x.1.now)) result (command_at limits bytes.now) }
        // A command has a byte at least.
        ensures progress { IfOk result (λ x. length x.1.now < length bytes.now) }
        // It is read whatever follows the bytes.
        ensures cuts { IfOk result (λ x. (more : List ℕ)
            → command_at limits (bytes.now ++ more) ≡ Ok (asked x.0, x.1.now ++ more)) }
        // Bytes that are less than a command are no more than these.
        ensures bound { IfErr result (λ e. e ≡ Short → length bytes.now ≤ max limits.line limits.get_line + limits.item + 2) }
    {
        read_command(bytes, limits)
    }
}

/// Does nothing; its contract is a law of commands. A command's bytes are read as that command, whatever follows. A command that is read stays the same whatever follows it, and bytes whose first line
/// is too long stay refused: how a stream is cut changes nothing.
pub fn one_reading()
    ensures again { (limits : Limits) (c : Asked) (rest : List ℕ) → Fits limits c
        → command_at limits (command_bytes c ++ rest) ≡ Ok (c, rest) }
    // Words that are joined by blanks to a line are read as these words, though they be no command.
    ensures words { (limits : Limits) (ws : List (List ℕ)) (rest : List ℕ) → AreWords ws → length (line_text ws) ≤ line_limit limits (line_text ws)
        → command_at limits (line_bytes ws ++ rest) ≡ after_line limits (said_at ws) rest }
    ensures cuts { (limits : Limits) (bytes more rest : List ℕ) (c : Asked) → command_at limits bytes ≡ Ok (c, rest)
        → command_at limits (bytes ++ more) ≡ Ok (c, rest ++ more) }
    ensures refused { (limits : Limits) (bytes more : List ℕ) → 2 ≤ limits.line → 2 ≤ limits.get_line
        → command_at limits bytes ≡ Err TooLong → command_at limits (bytes ++ more) ≡ Err TooLong }
    ensures progress { (limits : Limits) (bytes rest : List ℕ) (c : Asked) → command_at limits bytes ≡ Ok (c, rest)
        → length rest < length bytes }
    ensures bound { (limits : Limits) (bytes : List ℕ) → command_at limits bytes ≡ Err Short
        → length bytes ≤ max limits.line limits.get_line + limits.item + 2 }
{}
