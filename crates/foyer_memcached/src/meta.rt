//! The flags of meta commands.
ghost use Rattle.std.specs.Prelude.{◌≡◌, drop};
ghost use Rattle.foyer_memcached.specs.Meta as Flags;
ghost use Rattle.foyer_memcached.specs.Meta.{any_begins, no_options, option_by, option_of, options_at};
ghost use Rattle.foyer_memcached.specs.Words.{words};

use crate::command::Refusal;
use crate::expiry::Expiry;
use crate::words::{Words, number, split_word};

// The most bytes behind an `O` that come back.
const OPAQUE_MOST: usize = 31;

/// What the flags of a meta command say.
#[derive(Clone, Copy, Debug, PartialEq, Eq)]
pub struct Options {
    /// `q`: no reply to what went as it should.
    pub is_quiet: bool,
    /// `v`: the value is replied.
    pub has_value: bool,
    /// `b`: the key is written in base64.
    pub is_binary: bool,
    /// `T`: when the item is no longer seen.
    pub expiry: Option<Expiry>,
    /// `N`: an item is made where none is seen, and this is its expiry.
    pub creates: Option<Expiry>,
    /// `C`: the version that must be there.
    pub cas: Option<u64>,
    /// `F`: the client's own number.
    pub flags: u32,
    /// `M`: how a value is stored or counted.
    pub mode: Option<u8>,
    /// `J`: the number that a new item begins with.
    pub initial: u64,
    /// `D`: what is added or subtracted.
    pub step: u64,
}

/// The flags of a meta command: what they say, and their words, which a reply goes through in their order.
#[derive(Clone, Copy, Debug, PartialEq, Eq)]
pub struct Meta<'a> {
    /// What the flags say.
    pub options: Options,
    /// The flags.
    pub words: Words<'a>,
}

fn none() -> Options
    ensures { result ≡ no_options }
{
    Options {
        is_quiet: false,
        has_value: false,
        is_binary: false,
        expiry: None,
        creates: None,
        cas: None,
        flags: 0,
        mode: None,
        initial: 0,
        step: 1,
    }
}

// A word's letter. 0 if the word is empty.
pub(crate) fn letter(word: &[u8]) -> u8
    ensures { result ≡ Flags.letter word.now }
{
    if word.is_empty() { 0 } else { word[0] }
}

// What follows a word's letter.
fn behind_letter(word: &[u8]) -> &[u8]
    ensures { result.now ≡ drop 1 word.now }
{
    if word.is_empty() { word } else { &word[1..] }
}

fn with_expiry(options: Options, token: &[u8]) -> Result<Options, Refusal>
    ensures { result ≡ Flags.with_expiry options token.now }
{
    match Expiry::parse(token) {
        None => Err(Refusal::BadToken),
        Some(expiry) => Ok(Options {
            expiry: Some(expiry),
            ..options
        }),
    }
}

fn with_creates(options: Options, token: &[u8]) -> Result<Options, Refusal>
    ensures { result ≡ Flags.with_creates options token.now }
{
    match Expiry::parse(token) {
        None => Err(Refusal::BadToken),
        Some(expiry) => Ok(Options {
            creates: Some(expiry),
            ..options
        }),
    }
}

fn with_cas(options: Options, token: &[u8]) -> Result<Options, Refusal>
    ensures { result ≡ Flags.with_cas options token.now }
{
    match number(token) {
        None => Err(Refusal::BadToken),
        Some(cas) => Ok(Options {
            cas: Some(cas),
            ..options
        }),
    }
}

fn with_flags(options: Options, token: &[u8]) -> Result<Options, Refusal>
    ensures { result ≡ Flags.with_flags options token.now }
{
    match number(token) {
        None => Err(Refusal::BadFormat),
        Some(flags) => {
            if flags > u64::from(u32::MAX) {
                return Err(Refusal::BadFormat);
            }
            Ok(Options {
                flags: flags as u32,
                ..options
            })
        }
    }
}

fn with_mode(options: Options, token: &[u8]) -> Result<Options, Refusal>
    ensures { result ≡ Flags.with_mode options token.now }
{
    if token.len() == 1 {
        return Ok(Options {
            mode: Some(token[0]),
            ..options
        });
    }
    Err(Refusal::BadModeLength)
}

fn with_initial(options: Options, token: &[u8]) -> Result<Options, Refusal>
    ensures { result ≡ Flags.with_initial options token.now }
{
    match number(token) {
        None => Err(Refusal::BadInitial),
        Some(initial) => Ok(Options { initial, ..options }),
    }
}

fn with_step(options: Options, token: &[u8]) -> Result<Options, Refusal>
    ensures { result ≡ Flags.with_step options token.now }
{
    match number(token) {
        None => Err(Refusal::BadStep),
        Some(step) => Ok(Options { step, ..options }),
    }
}

fn with_opaque(options: Options, token: &[u8]) -> Result<Options, Refusal>
    ensures { result ≡ Flags.with_opaque options token.now }
{
    if token.len() > OPAQUE_MOST {
        return Err(Refusal::OpaqueTooLong);
    }
    Ok(options)
}

// Whether a flag takes nothing, and only the reply or nothing at all depends on it.
fn is_plain(letter: u8) -> bool
    ensures { result ≡ Flags.is_plain letter }
{
    letter == b'c'
        || letter == b'f'
        || letter == b'k'
        || letter == b's'
        || letter == b't'
        || letter == b'u'
        || letter == b'P'
        || letter == b'L'
}

fn with_option(options: Options, letter: u8, token: &[u8]) -> Result<Options, Refusal>
    ensures { result ≡ option_by options letter token.now }
{
    if letter == b'v' {
        Ok(Options {
            has_value: true,
            ..options
        })
    } else if letter == b'q' {
        Ok(Options {
            is_quiet: true,
            ..options
        })
    } else if letter == b'b' {
        Ok(Options {
            is_binary: true,
            ..options
        })
    } else if letter == b'T' {
        with_expiry(options, token)
    } else if letter == b'N' {
        with_creates(options, token)
    } else if letter == b'C' {
        with_cas(options, token)
    } else if letter == b'F' {
        with_flags(options, token)
    } else if letter == b'M' {
        with_mode(options, token)
    } else if letter == b'J' {
        with_initial(options, token)
    } else if letter == b'D' {
        with_step(options, token)
    } else if letter == b'O' {
        with_opaque(options, token)
    } else if is_plain(letter) {
        Ok(options)
    } else {
        Err(Refusal::BadFlag)
    }
}

// The options with one more flag.
fn option_at(options: Options, word: &[u8]) -> Result<Options, Refusal>
    ensures { result ≡ option_of options word.now }
{
    with_option(options, letter(word), behind_letter(word))
}

// Whether one of the words begins with a letter.
fn is_repeated(first: u8, args: &[u8]) -> bool
    ensures { result ≡ any_begins first (words args.now) }
{
    let mut rest = args;
    while let Some((word, more)) = split_word(rest) {
        if letter(word) == first {
            return true;
        }
        rest = more;
    }
    false
}

// What the flags say.
pub(crate) fn read_options(args: &[u8]) -> Result<Options, Refusal>
    ensures { result ≡ options_at (words args.now) }
{
    let mut options = none();
    let mut rest = args;
    while let Some((word, more)) = split_word(rest) {
        if is_repeated(letter(word), more) {
            return Err(Refusal::RepeatedFlag);
        }
        match option_at(options, word) {
            Ok(next) => options = next,
            Err(refusal) => return Err(refusal),
        }
        rest = more;
    }
    Ok(options)
}
