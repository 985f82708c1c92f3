//! What is replied to meta commands.
ghost use Rattle.std.specs.Prelude.{◌≡◌, ◌++◌, OnOk, Some};
ghost use Rattle.std.specs.Fmt.{decimal};
ghost use Rattle.foyer_memcached.specs.Asked.{flagged};
ghost use Rattle.foyer_memcached.specs.Item.{kept};
ghost use Rattle.foyer_memcached.specs.MetaReply as Replies;
ghost use Rattle.foyer_memcached.specs.MetaReply.{code_of, count_facts, count_text, flag_text, flags_text, get_text, item_facts, left_text, no_facts, outcome_line, seconds_left, short_line, show_text, told_flags, value_line, version_facts};
ghost use Rattle.foyer_memcached.specs.Reply as Reply;
ghost use Rattle.foyer_memcached.specs.Turn.{kept_of};
ghost use Rattle.foyer_memcached.specs.Words.{words};

use crate::expiry::Expiry;
use crate::item::Item;
use crate::meta::{Meta, Options, letter};
use crate::reply::{add, add_field, add_three, add_two};
use crate::turn::Outcome;
use crate::words::{Words, split_word};
use itoa::Buffer;
use std::alloc::{AllocError, Allocator};

/// What there is to be told of an item: its client's number, its expiry, its version and the length of its value.
#[derive(Clone, Copy, Debug, PartialEq, Eq)]
pub struct Facts {
    pub flags: Option<u32>,
    pub expiry: Option<u32>,
    pub cas: Option<u64>,
    pub len: Option<u64>,
}

fn nothing() -> Facts
    ensures { result ≡ no_facts }
{
    Facts {
        flags: None,
        expiry: None,
        cas: None,
        len: None,
    }
}

fn facts_of(item: Item<'_>) -> Facts
    ensures { result ≡ item_facts (kept item.entry) }
{
    Facts {
        flags: Some(item.flags),
        expiry: Some(item.expiry),
        cas: Some(item.cas),
        len: Some(item.value.len() as u64),
    }
}

// Whether the command did what it was to do.
fn went_well(outcome: Outcome) -> bool
    ensures { result ≡ Replies.went_well outcome }
{
    match outcome {
        Outcome::Stored | Outcome::Deleted | Outcome::Touched | Outcome::Counted(_) => true,
        Outcome::NotStored
        | Outcome::Exists
        | Outcome::NotFound
        | Outcome::NotNumber
        | Outcome::TooLarge => false,
    }
}

fn version_of(cas: u64, outcome: Outcome) -> Facts
    ensures { result ≡ version_facts cas outcome }
{
    let told = if went_well(outcome) { cas } else { 0 };
    Facts {
        flags: None,
        expiry: None,
        cas: Some(told),
        len: None,
    }
}

// The expiry that an item has behind a `T`.
fn new_expiry(now: u32, expiry: Option<Expiry>, old: Option<u32>) -> Option<u32>
    ensures { result ≡ Replies.new_expiry now expiry old }
{
    match (expiry, old) {
        (Some(expiry), Some(_)) => Some(expiry.moment(now)),
        (_, old) => old,
    }
}

fn facts_of_count(now: u32, cas: u64, options: Options, found: Option<Item<'_>>) -> Facts
    ensures { result ≡ count_facts now cas options (kept_of found.entry) }
{
    let expiry = match found {
        Some(item) => Some(item.expiry),
        None => new_expiry(now, options.creates, Some(0)),
    };
    Facts {
        flags: None,
        expiry,
        cas: Some(cas),
        len: None,
    }
}

fn after_flag(now: u32, expiry: Option<Expiry>, letter: u8, facts: Facts) -> Facts
    ensures { result ≡ Replies.after_flag now expiry letter facts }
{
    if letter == b'T' {
        return Facts {
            expiry: new_expiry(now, expiry, facts.expiry),
            ..facts
        };
    }
    facts
}

// Adds a blank, a letter and a number, if it is known.
fn add_lettered<A: Allocator>(
    out: &mut Vec<u8, A>,
    letter: u8,
    number: Option<u64>,
) -> Result<(), AllocError>
    ensures { OnOk result (out.new.items ≡ out.old.items ++ Replies.lettered letter number) }
{
    match number {
        None => Ok(()),
        Some(number) => {
            let mut buffer = Buffer::new();
            add_two(out, &[b' ', letter], buffer.format(number).as_bytes())
        }
    }
}

fn add_seconds<A: Allocator>(
    out: &mut Vec<u8, A>,
    now: u32,
    expiry: Option<u32>,
) -> Result<(), AllocError>
    ensures { OnOk result (out.new.items ≡ out.old.items ++ seconds_left now expiry) }
{
    match expiry {
        None => Ok(()),
        Some(expiry) => {
            if expiry == 0 {
                return add(out, b" t-1");
            }
            let mut buffer = Buffer::new();
            let left = u64::from(expiry.saturating_sub(now));
            add_two(out, b" t", buffer.format(left).as_bytes())
        }
    }
}

fn wide(number: Option<u32>) -> Option<u64>
    ensures { result ≡ number }
{
    match number {
        None => None,
        Some(number) => Some(u64::from(number)),
    }
}

fn binary_mark(is_binary: bool) -> &'static [u8]
    ensures { result.now ≡ Replies.binary_mark is_binary }
{
    if is_binary { b" b" } else { b"" }
}

// Adds what a flag tells.
fn add_flag<A: Allocator>(
    letter: u8,
    now: u32,
    is_binary: bool,
    key: &[u8],
    facts: Facts,
    word: &[u8],
    out: &mut Vec<u8, A>,
) -> Result<(), AllocError>
    ensures { OnOk result (out.new.items ≡ out.old.items ++ flag_text letter now is_binary key.now facts word.now) }
{
    if letter == b'O' {
        add_two(out, b" ", word)
    } else if letter == b'k' {
        add_three(out, b" k", key, binary_mark(is_binary))
    } else if letter == b'c' {
        add_lettered(out, b'c', facts.cas)
    } else if letter == b's' {
        add_lettered(out, b's', facts.len)
    } else if letter == b'f' {
        add_lettered(out, b'f', wide(facts.flags))
    } else if letter == b't' {
        add_seconds(out, now, facts.expiry)
    } else {
        Ok(())
    }
}

// Adds what the flags tell, in their order.
fn add_flags<A: Allocator>(
    now: u32,
    options: Options,
    key: &[u8],
    facts: Facts,
    flags: Words<'_>,
    out: &mut Vec<u8, A>,
) -> Result<(), AllocError>
    ensures { OnOk result (out.new.items ≡ out.old.items ++ flags_text now options key.now facts (words flags.entry.rest.now)) }
{
    let mut told = facts;
    let mut rest = flags.rest();
    while let Some((word, more)) = split_word(rest) {
        let first = letter(word);
        add_flag(first, now, options.is_binary, key, told, word, out)?;
        told = after_flag(now, options.expiry, first, told);
        rest = more;
    }
    Ok(())
}

// Adds a code and what the flags tell.
fn add_line<A: Allocator>(
    code: &[u8],
    now: u32,
    key: &[u8],
    meta: Meta<'_>,
    facts: Facts,
    out: &mut Vec<u8, A>,
) -> Result<(), AllocError>
    ensures { OnOk result (out.new.items ≡ out.old.items ++ short_line code.now now key.now (flagged meta.entry) facts) }
{
    add(out, code)?;
    add_flags(now, meta.options, key, facts, meta.words, out)?;
    add(out, b"\r\n")
}

// Adds the value too, if it was asked for.
fn add_value<A: Allocator>(
    now: u32,
    key: &[u8],
    meta: Meta<'_>,
    facts: Facts,
    value: &[u8],
    out: &mut Vec<u8, A>,
) -> Result<(), AllocError>
    ensures { OnOk result (out.new.items ≡ out.old.items ++ value_line now key.now (flagged meta.entry) facts value.now) }
{
    if !meta.options.has_value {
        return add_line(b"HD", now, key, meta, facts, out);
    }
    add(out, b"VA")?;
    add_field(out, value.len() as u64)?;
    add_flags(now, meta.options, key, facts, meta.words, out)?;
    add_three(out, b"\r\n", value, b"\r\n")
}

fn code(outcome: Outcome) -> &'static [u8]
    ensures { result.now ≡ code_of outcome }
{
    match outcome {
        Outcome::Stored | Outcome::Deleted | Outcome::Touched | Outcome::Counted(_) => b"HD",
        Outcome::NotStored | Outcome::NotNumber | Outcome::TooLarge => b"NS",
        Outcome::Exists => b"EX",
        Outcome::NotFound => b"NF",
    }
}

/// Writes what `mg` finds under a key. Errors: `AllocError` if there is no memory for it. Then a part of it may be written.
pub fn write_get<A: Allocator>(
    now: u32,
    key: &[u8],
    meta: Meta<'_>,
    found: Option<Item<'_>>,
    out: &mut Vec<u8, A>,
) -> Result<(), AllocError>
    ensures { OnOk result (out.new.items ≡ out.old.items ++ get_text now key.now (flagged meta.entry) (kept_of found.entry)) }
{
    match found {
        None => {
            if meta.options.is_quiet {
                return Ok(());
            }
            add_line(b"EN", now, key, meta, nothing(), out)
        }
        Some(item) => add_value(now, key, meta, facts_of(item), item.value, out),
    }
}

fn add_left<A: Allocator>(out: &mut Vec<u8, A>, now: u32, expiry: u32) -> Result<(), AllocError>
    ensures { OnOk result (out.new.items ≡ out.old.items ++ left_text now expiry) }
{
    if expiry == 0 {
        return add(out, b"-1");
    }
    let mut buffer = Buffer::new();
    add(
        out,
        buffer
            .format(u64::from(expiry.saturating_sub(now)))
            .as_bytes(),
    )
}

fn add_named<A: Allocator>(out: &mut Vec<u8, A>, name: &[u8], number: u64) -> Result<(), AllocError>
    ensures { OnOk result (out.new.items ≡ out.old.items ++ (name.now ++ decimal number)) }
{
    let mut buffer = Buffer::new();
    add_two(out, name, buffer.format(number).as_bytes())
}

/// Writes what `me` tells of the item under a key. Errors: `AllocError` if there is no memory for it. Then a part of it may be written.
pub fn write_show<A: Allocator>(
    now: u32,
    key: &[u8],
    found: Option<Item<'_>>,
    out: &mut Vec<u8, A>,
) -> Result<(), AllocError>
    ensures { OnOk result (out.new.items ≡ out.old.items ++ show_text now key.now (kept_of found.entry)) }
{
    match found {
        None => add(out, b"EN\r\n"),
        Some(item) => {
            add_three(out, b"ME ", key, b" exp=")?;
            add_left(out, now, item.expiry)?;
            add_named(out, b" cas=", item.cas)?;
            add_named(out, b" size=", item.value.len() as u64)?;
            add(out, b"\r\n")
        }
    }
}

fn add_outcome<A: Allocator>(
    now: u32,
    key: &[u8],
    meta: Meta<'_>,
    facts: Facts,
    outcome: Outcome,
    out: &mut Vec<u8, A>,
) -> Result<(), AllocError>
    ensures { OnOk result (out.new.items ≡ out.old.items ++ outcome_line now key.now (flagged meta.entry) facts outcome) }
{
    if meta.options.is_quiet && went_well(outcome) {
        return Ok(());
    }
    add_line(code(outcome), now, key, meta, facts, out)
}

/// Writes what became of an `ms`; `cas` is the version of the new item. Errors: `AllocError` if there is no memory for it. Then a part of it may be
/// written.
pub fn write_store<A: Allocator>(
    now: u32,
    cas: u64,
    key: &[u8],
    meta: Meta<'_>,
    outcome: Outcome,
    out: &mut Vec<u8, A>,
) -> Result<(), AllocError>
    ensures { OnOk result (out.new.items ≡ out.old.items ++ outcome_line now key.now (flagged meta.entry) (version_facts cas outcome) outcome) }
{
    add_outcome(now, key, meta, version_of(cas, outcome), outcome, out)
}

/// Writes what became of an `md`. Errors: `AllocError` if there is no memory for it. Then a part of it may be written.
pub fn write_delete<A: Allocator>(
    now: u32,
    key: &[u8],
    meta: Meta<'_>,
    outcome: Outcome,
    out: &mut Vec<u8, A>,
) -> Result<(), AllocError>
    ensures { OnOk result (out.new.items ≡ out.old.items ++ outcome_line now key.now (flagged meta.entry) no_facts outcome) }
{
    add_outcome(now, key, meta, nothing(), outcome, out)
}

// Adds the number that an item is now.
fn add_counted<A: Allocator>(
    now: u32,
    key: &[u8],
    meta: Meta<'_>,
    facts: Facts,
    number: u64,
    out: &mut Vec<u8, A>,
) -> Result<(), AllocError>
    ensures { OnOk result (out.new.items ≡ out.old.items ++ Reply.unless (flagged meta.entry).options.is_quiet (value_line now key.now (flagged meta.entry) facts (decimal number))) }
{
    if meta.options.is_quiet {
        return Ok(());
    }
    let mut buffer = Buffer::new();
    add_value(now, key, meta, facts, buffer.format(number).as_bytes(), out)
}

// The flags as they tell of what was counted: a new item has the expiry of `N`, whatever `T` says.
fn counting<'a>(meta: Meta<'a>, found: Option<Item<'_>>) -> Meta<'a>
    ensures { flagged result ≡ Replies.counting (flagged meta.entry) (kept_of found.entry) }
{
    match found {
        Some(_) => meta,
        None => Meta {
            options: Options {
                expiry: None,
                ..meta.options
            },
            ..meta
        },
    }
}

/// Writes what became of an `ma`; `cas` is the version of the new item, and `found` is what was seen under the key. Errors: `AllocError` if there is
/// no memory for it. Then a part of it may be written.
pub fn write_count<A: Allocator>(
    now: u32,
    cas: u64,
    key: &[u8],
    meta: Meta<'_>,
    found: Option<Item<'_>>,
    outcome: Outcome,
    out: &mut Vec<u8, A>,
) -> Result<(), AllocError>
    ensures { OnOk result (out.new.items ≡ out.old.items ++ count_text now cas key.now (flagged meta.entry) (kept_of found.entry) outcome) }
{
    match outcome {
        Outcome::Counted(number) => {
            let facts = facts_of_count(now, cas, meta.options, found);
            add_counted(now, key, counting(meta, found), facts, number, out)
        }
        Outcome::NotNumber => outcome.write(false, out),
        other => add_outcome(now, key, meta, nothing(), other, out),
    }
}
