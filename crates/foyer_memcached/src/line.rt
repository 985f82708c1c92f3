// What a line says.
ghost use Rattle.std.specs.Prelude.{◌≡◌, ◌∷◌, [], IfSome, Result, Some};
ghost use Rattle.foyer_memcached.specs.declared.command.Refusal.{Refusal};
ghost use Rattle.foyer_memcached.specs.declared.verb.Verb.TheVariants as verbs;
ghost use Rattle.foyer_memcached.specs.Lines as Lines;
ghost use Rattle.foyer_memcached.specs.Asked.{Asked, Get, Storing, Whole, asked, said, storing};
ghost use Rattle.foyer_memcached.specs.Lines.{any_long, begins_http, count_at, count_of, delete_at, delete_of, delete_quiet, flush_at, flush_of, get_at, get_touch_at, keys_at, key_of, level_of, quiet_at, said_at, said_by, storing_at, storing_of, tail_at, touch_at, touch_of, unknown_at, verb_of, verbosity_at};
ghost use Rattle.foyer_memcached.specs.Steps.{Reads};
ghost use Rattle.foyer_memcached.specs.Words.{words};

use crate::command::{Command, Head, Line, Refusal};
use crate::expiry::Expiry;
use crate::meta_line;
use crate::verb::{Mode, Verb, verb_at};
use crate::words::{Words, number, split_word};

// The most bytes of a key.
const KEY_MOST: usize = 250;

// The most bytes of a value that a line may name.
const VALUE_MOST: u64 = 2147483645;

// Whether the last word is `noreply`. There may be none, or one that means nothing.
fn quiet(args: &[u8]) -> Result<bool, Refusal>
    ensures { result ≡ quiet_at (words args.now) }
{
    let Some((word, more)) = split_word(args) else {
        return Ok(false);
    };
    if split_word(more).is_some() {
        return Err(Refusal::Unknown);
    }
    Ok(word == b"noreply".as_slice())
}

// A refusal as it is told: not at all if the line ends with `noreply`.
pub(crate) fn refusal_for(is_quiet: bool, refusal: Refusal) -> Refusal
    ensures { result ≡ Lines.refusal_for is_quiet refusal }
{
    if is_quiet { Refusal::Untold } else { refusal }
}

// What was read, with its refusal as it is told.
fn hushed<'a>(is_quiet: bool, read: Result<Command<'a>, Refusal>) -> Result<Command<'a>, Refusal>
    ensures { (r : Result Asked Refusal) → Reads asked read.entry r → Reads asked result (Lines.hushed is_quiet r) }
{
    match read {
        Ok(command) => Ok(command),
        Err(refusal) => Err(refusal_for(is_quiet, refusal)),
    }
}

// A key.
fn key_at(word: &[u8]) -> Result<&[u8], Refusal>
    ensures { Reads (λ k. k.now) result (key_of word.now) }
{
    if word.len() > KEY_MOST {
        return Err(Refusal::BadFormat);
    }
    Ok(word)
}

// Whether a word is too long for a key.
fn has_long(args: &[u8]) -> bool
    ensures { result ≡ any_long (words args.now) }
{
    let mut rest = args;
    while let Some((word, more)) = split_word(rest) {
        if word.len() > KEY_MOST {
            return true;
        }
        rest = more;
    }
    false
}

// One key or more.
#[tactic(auto, unfolding(crate::specs::Lines::any_long))]
fn keys(args: &[u8]) -> Result<Words<'_>, Refusal>
    ensures { Reads (λ k. words k.rest.now) result (keys_at (words args.now)) }
{
    let Some((word, more)) = split_word(args) else {
        return Err(Refusal::Unknown);
    };
    if word.len() > KEY_MOST || has_long(more) {
        return Err(Refusal::BadFormat);
    }
    Ok(Words::new(args))
}

fn get(has_cas: bool, args: &[u8]) -> Result<Command<'_>, Refusal>
    ensures { Reads asked result (get_at has_cas (words args.now)) }
{
    let keys = keys(args)?;
    Ok(Command::Get { has_cas, keys })
}

fn get_touch(has_cas: bool, args: &[u8]) -> Result<Command<'_>, Refusal>
    ensures { Reads asked result (get_touch_at has_cas (words args.now)) }
{
    let Some((word, more)) = split_word(args) else {
        return Err(Refusal::Unknown);
    };
    let Some(expiry) = Expiry::parse(word) else {
        return Err(Refusal::BadExpiry);
    };
    let keys = keys(more)?;
    Ok(Command::GetTouch {
        has_cas,
        expiry,
        keys,
    })
}

// Whether a delete is quiet. A 0 may stand behind its key.
fn quiet_delete(args: &[u8]) -> Result<bool, Refusal>
    ensures { result ≡ delete_quiet (words args.now) }
{
    let Some((word, more)) = split_word(args) else {
        return Ok(false);
    };
    let is_zero = word == b"0".as_slice();
    let Some((last, more)) = split_word(more) else {
        if is_zero {
            return Ok(false);
        }
        if word == b"noreply".as_slice() {
            return Ok(true);
        }
        return Err(Refusal::BadDelete);
    };
    if split_word(more).is_some() {
        return Err(Refusal::Unknown);
    }
    if last == b"noreply".as_slice() {
        if is_zero {
            return Ok(true);
        }
        return Err(Refusal::Untold);
    }
    Err(Refusal::BadDelete)
}

fn delete_key(key: &[u8], is_quiet: bool) -> Result<Command<'_>, Refusal>
    ensures { Reads asked result (delete_of key.now is_quiet) }
{
    let key = key_at(key)?;
    Ok(Command::Delete { key, is_quiet })
}

fn delete(args: &[u8]) -> Result<Command<'_>, Refusal>
    ensures { Reads asked result (delete_at (words args.now)) }
{
    let Some((word, more)) = split_word(args) else {
        return Err(Refusal::Unknown);
    };
    let is_quiet = quiet_delete(more)?;
    hushed(is_quiet, delete_key(word, is_quiet))
}

fn count_key<'a>(
    is_up: bool,
    key: &'a [u8],
    by: &[u8],
    is_quiet: bool,
) -> Result<Command<'a>, Refusal>
    ensures { Reads asked result (count_of is_up key.now by.now is_quiet) }
{
    let key = key_at(key)?;
    let Some(by) = number(by) else {
        return Err(Refusal::BadDelta);
    };
    Ok(Command::Count {
        is_up,
        key,
        by,
        is_quiet,
    })
}

fn count(is_up: bool, args: &[u8]) -> Result<Command<'_>, Refusal>
    ensures { Reads asked result (count_at is_up (words args.now)) }
{
    let Some((word, more)) = split_word(args) else {
        return Err(Refusal::Unknown);
    };
    let Some((by, more)) = split_word(more) else {
        return Err(Refusal::Unknown);
    };
    let is_quiet = quiet(more)?;
    hushed(is_quiet, count_key(is_up, word, by, is_quiet))
}

fn touch_key<'a>(key: &'a [u8], expiry: &[u8], is_quiet: bool) -> Result<Command<'a>, Refusal>
    ensures { Reads asked result (touch_of key.now expiry.now is_quiet) }
{
    let key = key_at(key)?;
    let Some(expiry) = Expiry::parse(expiry) else {
        return Err(Refusal::BadExpiry);
    };
    Ok(Command::Touch {
        key,
        expiry,
        is_quiet,
    })
}

fn touch(args: &[u8]) -> Result<Command<'_>, Refusal>
    ensures { Reads asked result (touch_at (words args.now)) }
{
    let Some((word, more)) = split_word(args) else {
        return Err(Refusal::Unknown);
    };
    let Some((expiry, more)) = split_word(more) else {
        return Err(Refusal::Unknown);
    };
    let is_quiet = quiet(more)?;
    hushed(is_quiet, touch_key(word, expiry, is_quiet))
}

fn flush_after(delay: &[u8], is_quiet: bool) -> Result<Command<'static>, Refusal>
    ensures { Reads asked result (flush_of delay.now is_quiet) }
{
    let Some(delay) = Expiry::parse(delay) else {
        return Err(Refusal::BadExpiry);
    };
    Ok(Command::Flush { delay, is_quiet })
}

// `flush_all` with one word behind it.
fn flush_alone(word: &[u8]) -> Result<Command<'static>, Refusal>
    ensures { Reads asked result (flush_at (word.now ∷ [])) }
{
    if word == b"noreply".as_slice() {
        return Ok(Command::Flush {
            delay: Expiry::After(0),
            is_quiet: true,
        });
    }
    flush_after(word, false)
}

// `flush_all` with a word and more behind it.
fn flush_words(word: &[u8], more: &[u8]) -> Result<Command<'static>, Refusal>
    ensures { Reads asked result (flush_at (word.now ∷ words more.now)) }
{
    if split_word(more).is_none() {
        return flush_alone(word);
    }
    let is_quiet = quiet(more)?;
    hushed(is_quiet, flush_after(word, is_quiet))
}

fn flush(args: &[u8]) -> Result<Command<'static>, Refusal>
    ensures { Reads asked result (flush_at (words args.now)) }
{
    match split_word(args) {
        None => Ok(Command::Flush {
            delay: Expiry::After(0),
            is_quiet: false,
        }),
        Some((word, more)) => flush_words(word, more),
    }
}

fn level_at(level: &[u8], is_quiet: bool) -> Result<Command<'static>, Refusal>
    ensures { Reads asked result (level_of level.now is_quiet) }
{
    if number(level).is_none() {
        return Err(Refusal::BadFormat);
    }
    Ok(Command::Verbosity { is_quiet })
}

// `verbosity` with one word behind it.
fn level_alone(word: &[u8]) -> Result<Command<'static>, Refusal>
    ensures { Reads asked result (verbosity_at (word.now ∷ [])) }
{
    if word == b"noreply".as_slice() {
        return Ok(Command::Verbosity { is_quiet: true });
    }
    level_at(word, false)
}

// `verbosity` with a word and more behind it.
fn level_words(word: &[u8], more: &[u8]) -> Result<Command<'static>, Refusal>
    ensures { Reads asked result (verbosity_at (word.now ∷ words more.now)) }
{
    if split_word(more).is_none() {
        return level_alone(word);
    }
    let is_quiet = quiet(more)?;
    hushed(is_quiet, level_at(word, is_quiet))
}

fn verbosity(args: &[u8]) -> Result<Command<'static>, Refusal>
    ensures { Reads asked result (verbosity_at (words args.now)) }
{
    match split_word(args) {
        None => Err(Refusal::Unknown),
        Some((word, more)) => level_words(word, more),
    }
}

// What follows the length in the line of a storing command.
fn tail(mode: Mode, args: &[u8]) -> Result<(Option<u64>, bool), Refusal>
    ensures { result ≡ tail_at mode (words args.now) }
{
    match mode {
        Mode::Cas => {
            let Some((cas, more)) = split_word(args) else {
                return Err(Refusal::Unknown);
            };
            let is_quiet = quiet(more)?;
            Ok((number(cas), is_quiet))
        }
        Mode::Set | Mode::Add | Mode::Replace | Mode::Append | Mode::Prepend => {
            let is_quiet = quiet(args)?;
            Ok((Some(0), is_quiet))
        }
    }
}

// The head of these fields.
fn head_of<'a>(
    mode: Mode,
    key: &'a [u8],
    flags: Option<u64>,
    expiry: Option<Expiry>,
    len: Option<u64>,
    cas: Option<u64>,
    is_quiet: bool,
) -> Result<Head<'a>, Refusal>
    ensures { Reads storing result (storing_of mode key.now flags expiry len cas is_quiet) }
{
    let Some(flags) = flags else {
        return Err(Refusal::BadFormat);
    };
    let Some(expiry) = expiry else {
        return Err(Refusal::BadFormat);
    };
    let Some(len) = len else {
        return Err(Refusal::BadFormat);
    };
    let Some(cas) = cas else {
        return Err(Refusal::BadFormat);
    };
    if key.len() > KEY_MOST {
        return Err(Refusal::BadFormat);
    }
    if flags > u64::from(u32::MAX) {
        return Err(Refusal::BadFormat);
    }
    if len > VALUE_MOST {
        return Err(Refusal::BadFormat);
    }
    Ok(Head {
        mode,
        key,
        flags: flags as u32,
        expiry,
        len: len as u32,
        cas,
        is_quiet,
    })
}

fn head(mode: Mode, args: &[u8]) -> Result<Head<'_>, Refusal>
    ensures { Reads storing result (storing_at mode (words args.now)) }
{
    let Some((key, more)) = split_word(args) else {
        return Err(Refusal::Unknown);
    };
    let Some((flags, more)) = split_word(more) else {
        return Err(Refusal::Unknown);
    };
    let Some((expiry, more)) = split_word(more) else {
        return Err(Refusal::Unknown);
    };
    let Some((len, more)) = split_word(more) else {
        return Err(Refusal::Unknown);
    };
    let (cas, is_quiet) = tail(mode, more)?;
    let read = head_of(
        mode,
        key,
        number(flags),
        Expiry::parse(expiry),
        number(len),
        cas,
        is_quiet,
    );
    match read {
        Ok(head) => Ok(head),
        Err(refusal) => Err(refusal_for(is_quiet, refusal)),
    }
}

// A command, or the refusal of one.
fn whole<'a>(read: Result<Command<'a>, Refusal>) -> Line<'a>
    ensures { (r : Result Asked Refusal) → Reads asked read.entry r → said result ≡ Lines.whole r }
{
    match read {
        Ok(command) => Line::Whole(command),
        Err(refusal) => Line::Whole(Command::Bad { refusal }),
    }
}

// A command whose data follow, or the refusal of one.
fn data_follow<'a>(read: Result<Head<'a>, Refusal>) -> Line<'a>
    ensures { (r : Result Storing Refusal) → Reads storing read.entry r → said result ≡ Lines.data_follow r }
{
    match read {
        Ok(head) => Line::Data(head, None),
        Err(refusal) => Line::Whole(Command::Bad { refusal }),
    }
}

fn by_verb(verb: Verb, args: &[u8]) -> Line<'_>
    ensures { said result ≡ said_by verb (words args.now) }
{
    match verb {
        Verb::Get(has_cas) => whole(get(has_cas, args)),
        Verb::GetTouch(has_cas) => whole(get_touch(has_cas, args)),
        Verb::Store(mode) => data_follow(head(mode, args)),
        Verb::Delete => whole(delete(args)),
        Verb::Count(is_up) => whole(count(is_up, args)),
        Verb::Touch => whole(touch(args)),
        Verb::Flush => whole(flush(args)),
        Verb::Stats => Line::Whole(Command::Stats {
            about: Words::new(args),
        }),
        Verb::Version => Line::Whole(Command::Version),
        Verb::Verbosity => whole(verbosity(args)),
        Verb::Quit => Line::Whole(Command::Quit),
        Verb::NoOperation => Line::Whole(Command::NoOperation),
        Verb::MetaGet => whole(meta_line::get(args)),
        Verb::MetaStore => meta_line::store(args),
        Verb::MetaDelete => whole(meta_line::delete(args)),
        Verb::MetaCount => whole(meta_line::count(args)),
        Verb::MetaShow => whole(meta_line::show(args)),
    }
}

fn is_http(word: &[u8]) -> bool
    ensures { result ≡ begins_http word.now }
{
    word.starts_with(b"HTTP/")
}

// Whether the last word begins as the version of an HTTP request does. If there is none, the one before it says so.
fn ends_http(before: bool, args: &[u8]) -> bool
    ensures { result ≡ Lines.ends_http before (words args.now) }
{
    let mut is_last = before;
    let mut rest = args;
    while let Some((word, more)) = split_word(rest) {
        is_last = is_http(word);
        rest = more;
    }
    is_last
}

// What a line without a verb says.
fn unknown(word: &[u8], args: &[u8]) -> Line<'static>
    ensures { said result ≡ unknown_at word.now (words args.now) }
{
    if ends_http(is_http(word), args) {
        return Line::Whole(Command::Quit);
    }
    Line::Whole(Command::Bad {
        refusal: Refusal::Unknown,
    })
}

// Whether a word is `gets`. None if it isn't `get` either.
#[tactic(auto, unfolding(crate::specs::Lines::verb_of))]
fn get_verb(word: &[u8]) -> Option<bool>
    ensures { IfSome result (λ has_cas. verb_of word.now ≡ Some (verbs.Get has_cas)) }
{
    if word == b"get".as_slice() {
        Some(false)
    } else if word == b"set".as_slice() {
        None
    } else if word == b"gets".as_slice() {
        Some(true)
    } else {
        None
    }
}

// Whether a `get` asks for versions, and its keys. None if the line says something else. It saves `get` the copies that `read_line` makes of a command.
#[tactic(auto, unfolding(crate::specs::Lines::said_at))]
pub(crate) fn read_get(line: &[u8]) -> Option<(bool, Words<'_>)>
    ensures { IfSome result (λ x. said_at (words line.now) ≡ Whole (Get x.0 (words x.1.rest.now))) }
{
    let (word, args) = split_word(line)?;
    let has_cas = get_verb(word)?;
    match keys(args) {
        Ok(keys) => Some((has_cas, keys)),
        Err(_) => None,
    }
}

// What a line says.
#[tactic(auto, unfolding(crate::specs::Lines::said_at))]
pub(crate) fn read_line(line: &[u8]) -> Line<'_>
    ensures { said result ≡ said_at (words line.now) }
{
    let Some((word, args)) = split_word(line) else {
        return Line::Whole(Command::Bad {
            refusal: Refusal::Unknown,
        });
    };
    match verb_at(word) {
        Some(verb) => by_verb(verb, args),
        None => unknown(word, args),
    }
}
