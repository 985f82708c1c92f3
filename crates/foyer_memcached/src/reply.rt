//! What is replied.
ghost use Rattle.std.specs.Prelude.{◌≡◌, ◌++◌, OnErr, OnOk};
ghost use Rattle.std.specs.Fmt.{decimal};
ghost use Rattle.foyer_memcached.specs.Item.{kept};
ghost use Rattle.foyer_memcached.specs.Reply as Reply;
ghost use Rattle.foyer_memcached.specs.Reply.{notice_text, outcome_text, refusal_text, unless, value_text, version_field};
ghost use Rattle.foyer_memcached.specs.declared.turn.Outcome.TheVariants.{Counted};

use crate::command::Refusal;
use crate::item::Item;
use crate::turn::Outcome;
use itoa::Buffer;
use std::alloc::{AllocError, Allocator};

/// A line that is replied whatever the key.
#[derive(Clone, Copy, Debug, PartialEq, Eq)]
pub enum Notice {
    /// The end of items or of counts.
    End,
    /// The command was done.
    Done,
    /// The counts begin again.
    Reset,
    /// The reply to `mn`.
    NoOperation,
    /// The line is too long. The connection is closed behind it.
    LineTooLong,
    /// The store took no item.
    NoMemory,
    /// The store couldn't be read.
    Failed,
}

// Adds bytes.
pub(crate) fn add<A: Allocator>(out: &mut Vec<u8, A>, bytes: &[u8]) -> Result<(), AllocError>
    ensures ok { OnOk result (out.new.items ≡ out.old.items ++ bytes.now) }
    ensures err { OnErr result (out.new.items ≡ out.old.items) }
{
    out.extend_from_slice(bytes)
}

// Adds bytes, and then others.
pub(crate) fn add_two<A: Allocator>(
    out: &mut Vec<u8, A>,
    front: &[u8],
    back: &[u8],
) -> Result<(), AllocError>
    ensures { OnOk result (out.new.items ≡ out.old.items ++ (front.now ++ back.now)) }
{
    add(out, front)?;
    add(out, back)
}

// Adds bytes, and then others, and others.
pub(crate) fn add_three<A: Allocator>(
    out: &mut Vec<u8, A>,
    front: &[u8],
    middle: &[u8],
    back: &[u8],
) -> Result<(), AllocError>
    ensures { OnOk result (out.new.items ≡ out.old.items ++ (front.now ++ (middle.now ++ back.now))) }
{
    add_two(out, front, middle)?;
    add(out, back)
}

// Adds a number's digits.
fn add_number<A: Allocator>(out: &mut Vec<u8, A>, number: u64) -> Result<(), AllocError>
    ensures { OnOk result (out.new.items ≡ out.old.items ++ decimal number) }
{
    let mut buffer = Buffer::new();
    add(out, buffer.format(number).as_bytes())
}

// Adds a blank and a number.
pub(crate) fn add_field<A: Allocator>(out: &mut Vec<u8, A>, number: u64) -> Result<(), AllocError>
    ensures { OnOk result (out.new.items ≡ out.old.items ++ Reply.field number) }
{
    let mut buffer = Buffer::new();
    add_two(out, b" ", buffer.format(number).as_bytes())
}

// Adds an item's version, if it is asked for.
fn add_version<A: Allocator>(
    out: &mut Vec<u8, A>,
    has_cas: bool,
    cas: u64,
) -> Result<(), AllocError>
    ensures { OnOk result (out.new.items ≡ out.old.items ++ version_field has_cas cas) }
{
    if has_cas { add_field(out, cas) } else { Ok(()) }
}

// Adds a number and the end of its line.
fn add_count<A: Allocator>(out: &mut Vec<u8, A>, number: u64) -> Result<(), AllocError>
    ensures { OnOk result (out.new.items ≡ out.old.items ++ outcome_text (Counted number)) }
{
    let mut buffer = Buffer::new();
    add_two(out, buffer.format(number).as_bytes(), b"\r\n")
}

// Adds two numbers.
fn add_fields<A: Allocator>(out: &mut Vec<u8, A>, first: u64, second: u64) -> Result<(), AllocError>
    ensures { OnOk result (out.new.items ≡ out.old.items ++ (Reply.field first ++ Reply.field second)) }
{
    add_field(out, first)?;
    add_field(out, second)
}

impl Outcome {
    /// Writes what became of a command, if its client asked for a reply. Errors: `AllocError` if there is no memory for it. Then a part of it may be written.
    pub fn write<A: Allocator>(self, is_quiet: bool, out: &mut Vec<u8, A>) -> Result<(), AllocError>
        ensures { OnOk result (out.new.items ≡ out.old.items ++ unless is_quiet (outcome_text self)) }
    {
        if is_quiet {
            return Ok(());
        }
        match self {
            Outcome::Stored => add(out, b"STORED\r\n"),
            Outcome::NotStored => add(out, b"NOT_STORED\r\n"),
            Outcome::Exists => add(out, b"EXISTS\r\n"),
            Outcome::NotFound => add(out, b"NOT_FOUND\r\n"),
            Outcome::Deleted => add(out, b"DELETED\r\n"),
            Outcome::Touched => add(out, b"TOUCHED\r\n"),
            Outcome::NotNumber => {
                add(
                    out,
                    b"CLIENT_ERROR cannot increment or decrement non-numeric value\r\n",
                )
            }
            Outcome::TooLarge => add(out, b"SERVER_ERROR object too large for cache\r\n"),
            Outcome::Counted(number) => add_count(out, number),
        }
    }
}

impl Refusal {
    /// Writes why a line is no command. Errors: `AllocError` if there is no memory for it. Then nothing is written.
    pub fn write<A: Allocator>(self, out: &mut Vec<u8, A>) -> Result<(), AllocError>
        ensures ok { OnOk result (out.new.items ≡ out.old.items ++ refusal_text self) }
        ensures err { OnErr result (out.new.items ≡ out.old.items) }
    {
        match self {
            Refusal::Unknown => add(out, b"ERROR\r\n"),
            Refusal::BadFormat => add(out, b"CLIENT_ERROR bad command line format\r\n"),
            Refusal::BadExpiry => add(out, b"CLIENT_ERROR invalid exptime argument\r\n"),
            Refusal::BadDelta => add(out, b"CLIENT_ERROR invalid numeric delta argument\r\n"),
            Refusal::BadDelete => add(
                out,
                b"CLIENT_ERROR bad command line format.  Usage: delete <key> [noreply]\r\n",
            ),
            Refusal::BadChunk => add(out, b"CLIENT_ERROR bad data chunk\r\n"),
            Refusal::Untold => Ok(()),
            Refusal::BadFlag => add(out, b"CLIENT_ERROR invalid flag\r\n"),
            Refusal::RepeatedFlag => add(out, b"CLIENT_ERROR duplicate flag\r\n"),
            Refusal::BadToken => { add(out, b"CLIENT_ERROR bad token in command line format\r\n") }
            Refusal::OpaqueTooLong => add(out, b"CLIENT_ERROR opaque token too long\r\n"),
            Refusal::BadModeLength => { add(out, b"CLIENT_ERROR incorrect length for M token\r\n") }
            Refusal::BadStoreMode => add(out, b"CLIENT_ERROR invalid mode for ms M token\r\n"),
            Refusal::BadCountMode => add(out, b"CLIENT_ERROR invalid mode for ma M token\r\n"),
            Refusal::BadInitial => add(out, b"CLIENT_ERROR invalid numeric initial value\r\n"),
            Refusal::BadStep => add(out, b"CLIENT_ERROR invalid numeric delta value\r\n"),
            Refusal::BadFlags => add(out, b"CLIENT_ERROR invalid or duplicate flag\r\n"),
            Refusal::BadKey => add(out, b"CLIENT_ERROR error decoding key\r\n"),
        }
    }
}

impl Notice {
    /// Writes the line. Errors: `AllocError` if there is no memory for it. Then nothing is written.
    pub fn write<A: Allocator>(self, out: &mut Vec<u8, A>) -> Result<(), AllocError>
        ensures ok { OnOk result (out.new.items ≡ out.old.items ++ notice_text self) }
        ensures err { OnErr result (out.new.items ≡ out.old.items) }
    {
        match self {
            Notice::End => add(out, b"END\r\n"),
            Notice::Done => add(out, b"OK\r\n"),
            Notice::Reset => add(out, b"RESET\r\n"),
            Notice::NoOperation => add(out, b"MN\r\n"),
            Notice::LineTooLong => add(out, b"CLIENT_ERROR line too long\r\n"),
            Notice::NoMemory => add(out, b"SERVER_ERROR out of memory storing object\r\n"),
            Notice::Failed => add(out, b"SERVER_ERROR Io\r\n"),
        }
    }
}

/// Writes an item under its key, with its version if it was asked for. Errors: `AllocError` if there is no memory for it. Then a part of it may be
/// written.
pub fn write_value<A: Allocator>(
    has_cas: bool,
    key: &[u8],
    item: Item<'_>,
    out: &mut Vec<u8, A>,
) -> Result<(), AllocError>
    ensures { OnOk result (out.new.items ≡ out.old.items ++ value_text has_cas key.now (kept item.entry)) }
{
    add_two(out, b"VALUE ", key)?;
    add_fields(out, u64::from(item.flags), item.value.len() as u64)?;
    add_version(out, has_cas, item.cas)?;
    add_three(out, b"\r\n", item.value, b"\r\n")
}

/// Writes the server's name for itself. Errors: `AllocError` if there is no memory for it. Then a part of it may be written.
pub fn write_version<A: Allocator>(name: &[u8], out: &mut Vec<u8, A>) -> Result<(), AllocError>
    ensures { OnOk result (out.new.items ≡ out.old.items ++ Reply.version_text name.now) }
{
    add_three(out, b"VERSION ", name, b"\r\n")
}

/// Writes one of the server's counts. Errors: `AllocError` if there is no memory for it. Then a part of it may be written.
pub fn write_stat<A: Allocator>(
    name: &[u8],
    value: &[u8],
    out: &mut Vec<u8, A>,
) -> Result<(), AllocError>
    ensures { OnOk result (out.new.items ≡ out.old.items ++ Reply.stat_text name.now value.now) }
{
    add_two(out, b"STAT ", name)?;
    add_three(out, b" ", value, b"\r\n")
}
