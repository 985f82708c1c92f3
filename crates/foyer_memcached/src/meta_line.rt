// What the lines of meta commands say.
ghost use Rattle.std.specs.Prelude.{◌≡◌};
ghost use Rattle.foyer_memcached.specs.declared.command.Refusal.TheVariants.{BadFormat};
ghost use Rattle.foyer_memcached.specs.Asked.{Bad, Whole, asked, said};
ghost use Rattle.foyer_memcached.specs.Meta as Metas;
ghost use Rattle.foyer_memcached.specs.Meta.{begins_with_b, data_by, data_said, guarded, is_up_by, len_said, ma_at, md_at, me_at, mg_at, mode_by, ms_at, one_refusal, options_at, or_none, or_zero, short_key};
ghost use Rattle.foyer_memcached.specs.Steps.{Reads};
ghost use Rattle.foyer_memcached.specs.Words.{words};

use crate::command::{Command, Head, Line, Refusal};
use crate::expiry::Expiry;
use crate::meta::{Meta, Options, read_options};
use crate::verb::Mode;
use crate::words::{Words, number, split_word};

// The most bytes of a key.
const KEY_MOST: usize = 250;

// The most bytes of a value that a line may name.
const VALUE_MOST: u64 = 2147483645;

fn key_at(word: &[u8]) -> Result<&[u8], Refusal>
    ensures { Reads (λ k. k.now) result (short_key word.now) }
{
    if word.len() > KEY_MOST {
        return Err(Refusal::BadFormat);
    }
    Ok(word)
}

// What `mg` says.
pub(crate) fn get(args: &[u8]) -> Result<Command<'_>, Refusal>
    ensures { Reads asked result (mg_at (words args.now)) }
{
    let Some((word, more)) = split_word(args) else {
        return Err(Refusal::Unknown);
    };
    let key = key_at(word)?;
    let options = read_options(more)?;
    match options.creates {
        Some(_) => Err(Refusal::BadFlag),
        None => Ok(Command::MetaGet {
            key,
            meta: Meta {
                options,
                words: Words::new(more),
            },
        }),
    }
}

fn of_flags(refusal: Refusal) -> Refusal
    ensures { result ≡ Metas.of_flags refusal }
{
    match refusal {
        Refusal::OpaqueTooLong => Refusal::OpaqueTooLong,
        Refusal::Unknown
        | Refusal::BadFormat
        | Refusal::BadExpiry
        | Refusal::BadDelta
        | Refusal::BadDelete
        | Refusal::BadChunk
        | Refusal::Untold
        | Refusal::BadFlag
        | Refusal::RepeatedFlag
        | Refusal::BadToken
        | Refusal::BadModeLength
        | Refusal::BadStoreMode
        | Refusal::BadCountMode
        | Refusal::BadInitial
        | Refusal::BadStep
        | Refusal::BadFlags
        | Refusal::BadKey => Refusal::BadFlags,
    }
}

fn some_options(args: &[u8]) -> Result<Options, Refusal>
    ensures { result ≡ one_refusal (options_at (words args.now)) }
{
    match read_options(args) {
        Ok(options) => Ok(options),
        Err(refusal) => Err(of_flags(refusal)),
    }
}

// What `md` says.
pub(crate) fn delete(args: &[u8]) -> Result<Command<'_>, Refusal>
    ensures { Reads asked result (md_at (words args.now)) }
{
    let Some((word, more)) = split_word(args) else {
        return Err(Refusal::Unknown);
    };
    let key = key_at(word)?;
    let options = some_options(more)?;
    Ok(Command::MetaDelete {
        key,
        meta: Meta {
            options,
            words: Words::new(more),
        },
    })
}

fn is_up(mode: Option<u8>) -> Result<bool, Refusal>
    ensures { result ≡ is_up_by mode }
{
    match mode {
        None => Ok(true),
        Some(mode) => {
            if mode == b'I' || mode == b'+' {
                Ok(true)
            } else if mode == b'D' || mode == b'-' {
                Ok(false)
            } else {
                Err(Refusal::BadCountMode)
            }
        }
    }
}

// What `ma` says.
pub(crate) fn count(args: &[u8]) -> Result<Command<'_>, Refusal>
    ensures { Reads asked result (ma_at (words args.now)) }
{
    let Some((word, more)) = split_word(args) else {
        return Err(Refusal::Unknown);
    };
    let key = key_at(word)?;
    let options = some_options(more)?;
    let is_up = is_up(options.mode)?;
    Ok(Command::MetaCount {
        is_up,
        key,
        meta: Meta {
            options,
            words: Words::new(more),
        },
    })
}

fn is_b(args: &[u8]) -> bool
    ensures { result ≡ begins_with_b (words args.now) }
{
    match split_word(args) {
        None => false,
        Some((word, _)) => word == b"b".as_slice(),
    }
}

// What `me` says.
pub(crate) fn show(args: &[u8]) -> Result<Command<'_>, Refusal>
    ensures { Reads asked result (me_at (words args.now)) }
{
    let Some((word, more)) = split_word(args) else {
        return Err(Refusal::BadFormat);
    };
    let key = key_at(word)?;
    Ok(Command::MetaShow {
        key,
        is_binary: is_b(more),
    })
}

fn mode_of(mode: Option<u8>) -> Result<Mode, Refusal>
    ensures { result ≡ mode_by mode }
{
    match mode {
        None => Ok(Mode::Set),
        Some(mode) => {
            if mode == b'E' {
                Ok(Mode::Add)
            } else if mode == b'A' {
                Ok(Mode::Append)
            } else if mode == b'P' {
                Ok(Mode::Prepend)
            } else if mode == b'R' {
                Ok(Mode::Replace)
            } else if mode == b'S' {
                Ok(Mode::Set)
            } else {
                Err(Refusal::BadStoreMode)
            }
        }
    }
}

// A set or a replace of a version that must be there is a cas.
fn with_guard(mode: Mode, cas: Option<u64>) -> Mode
    ensures { result ≡ guarded mode cas }
{
    match (mode, cas) {
        (Mode::Set, Some(_)) | (Mode::Replace, Some(_)) => Mode::Cas,
        (mode, _) => mode,
    }
}

fn expiry_or_none(expiry: Option<Expiry>) -> Expiry
    ensures { result ≡ or_none expiry }
{
    match expiry {
        None => Expiry::After(0),
        Some(expiry) => expiry,
    }
}

fn cas_or_zero(cas: Option<u64>) -> u64
    ensures { result ≡ or_zero cas }
{
    match cas {
        None => 0,
        Some(cas) => cas,
    }
}

fn data_line<'a>(key: &'a [u8], len: u32, args: &'a [u8], options: Options) -> Line<'a>
    ensures { said result ≡ data_by key.now len (words args.now) options (mode_by options.mode) }
{
    match mode_of(options.mode) {
        Err(refusal) => Line::Whole(Command::Skip { refusal, len }),
        Ok(mode) => Line::Data(
            Head {
                mode: with_guard(mode, options.cas),
                key,
                flags: options.flags,
                expiry: expiry_or_none(options.expiry),
                len,
                cas: cas_or_zero(options.cas),
                is_quiet: false,
            },
            Some(Meta {
                options,
                words: Words::new(args),
            }),
        ),
    }
}

fn flags_line<'a>(key: &'a [u8], len: u32, args: &'a [u8]) -> Line<'a>
    ensures { said result ≡ data_said key.now len (words args.now) (options_at (words args.now)) }
{
    match read_options(args) {
        Err(refusal) => Line::Whole(Command::Skip { refusal, len }),
        Ok(options) => data_line(key, len, args, options),
    }
}

fn bad_format() -> Line<'static>
    ensures { said result ≡ Whole (Bad BadFormat) }
{
    Line::Whole(Command::Bad {
        refusal: Refusal::BadFormat,
    })
}

fn len_line<'a>(key: &'a [u8], len: Option<u64>, args: &'a [u8]) -> Line<'a>
    ensures { said result ≡ len_said key.now len (words args.now) }
{
    match len {
        None => bad_format(),
        Some(len) => {
            if len > VALUE_MOST {
                return bad_format();
            }
            flags_line(key, len as u32, args)
        }
    }
}

// What `ms` says.
pub(crate) fn store(args: &[u8]) -> Line<'_>
    ensures { said result ≡ ms_at (words args.now) }
{
    let Some((key, more)) = split_word(args) else {
        return Line::Whole(Command::Bad {
            refusal: Refusal::Unknown,
        });
    };
    let Some((len, more)) = split_word(more) else {
        return bad_format();
    };
    if key.len() > KEY_MOST {
        return bad_format();
    }
    len_line(key, number(len), more)
}
