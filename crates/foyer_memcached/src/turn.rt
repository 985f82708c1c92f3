//! What one command does to one key.
ghost use Rattle.std.specs.Prelude.{◌≡◌, ◌++◌, ℕ, IfOk, List, Option, None, Some};
ghost use Rattle.foyer_memcached.specs.Asked.{Storing, storing};
ghost use Rattle.foyer_memcached.specs.Item.{Kept, item_bytes, kept, visible};
ghost use Rattle.foyer_memcached.specs.Turn as Turns;
ghost use Rattle.foyer_memcached.specs.declared.turn.Outcome.TheVariants.{Stored};
ghost use Rattle.foyer_memcached.specs.Turn.{count_turn, counted_put, delete_turn, kept_of, large_turn, padded, put, store_turn, touch_turn, turned, without_blanks};
ghost use Rattle.foyer_memcached.specs.declared.verb.Mode.TheVariants.{Add, Cas};

use crate::command::Head;
use crate::expiry::Expiry;
use crate::item::{HEAD_LEN, Item, head};
use crate::verb::Mode;
use crate::words::number;
use itoa::Buffer;
use std::alloc::{AllocError, Allocator};

/// What became of a command on one key.
#[derive(Clone, Copy, Debug, PartialEq, Eq)]
pub enum Outcome {
    /// The value was stored.
    Stored,
    /// Something is there, or nothing is.
    NotStored,
    /// Another version is there.
    Exists,
    /// Nothing is there.
    NotFound,
    /// The item was deleted.
    Deleted,
    /// The item has another expiry.
    Touched,
    /// The value is no number.
    NotNumber,
    /// The value is too large to be stored.
    TooLarge,
    /// The number that the value is now.
    Counted(u64),
}

/// An item to be kept. Its value is two slices in a row.
#[derive(Clone, Copy, Debug, PartialEq, Eq)]
pub struct Put<'a> {
    /// Whether it only says that the key was deleted.
    pub is_deleted: bool,
    /// The client's own number.
    pub flags: u32,
    /// The second of Unix time from which on the item isn't seen. 0: none.
    pub expiry: u32,
    /// The item's version.
    pub cas: u64,
    /// The first bytes of the value.
    pub front: &'a [u8],
    /// The other bytes of the value.
    pub back: &'a [u8],
}

/// An outcome, and the item that is kept from then on, if it is another one.
#[derive(Clone, Copy, Debug, PartialEq, Eq)]
pub struct Turn<'a> {
    /// What became of the command.
    pub outcome: Outcome,
    /// The item to be kept.
    pub put: Option<Put<'a>>,
}

// An outcome that changes nothing.
pub(crate) fn only<'a>(outcome: Outcome) -> Turn<'a>
    ensures { turned result ≡ (outcome, None) }
{
    Turn { outcome, put: None }
}

/// Gives what a client sees at a second of Unix time of the item that was found.
pub fn seen<'a>(now: u32, found: Option<Item<'a>>) -> Option<Item<'a>>
    ensures { kept_of result ≡ visible now (kept_of found.entry) }
{
    match found {
        Some(item) => {
            if item.is_visible(now) {
                Some(item)
            } else {
                None
            }
        }
        None => None,
    }
}

// A value stored as a command says.
fn stored<'a>(now: u32, cas: u64, how: Head<'a>, value: &'a [u8]) -> Turn<'a>
    ensures { turned result ≡ Turns.stored now cas (storing how.entry) value.now }
{
    Turn {
        outcome: Outcome::Stored,
        put: Some(Put {
            is_deleted: false,
            flags: how.flags,
            expiry: how.expiry.moment(now),
            cas,
            front: value,
            back: &[],
        }),
    }
}

// An item with another value.
fn changed<'a>(cas: u64, item: Item<'a>, front: &'a [u8], back: &'a [u8]) -> Turn<'a>
    ensures { turned result ≡ (Stored, Some (Turns.changed cas (kept item.entry) (front.now ++ back.now))) }
{
    Turn {
        outcome: Outcome::Stored,
        put: Some(Put {
            is_deleted: item.is_deleted,
            flags: item.flags,
            expiry: item.expiry,
            cas,
            front,
            back,
        }),
    }
}

/// Stores a value as a command says, at a second of Unix time and with a new version. `found` is what a client sees under the key.
pub fn store<'a>(
    now: u32,
    cas: u64,
    how: Head<'a>,
    value: &'a [u8],
    found: Option<Item<'a>>,
) -> Turn<'a>
    ensures { turned result ≡ store_turn now cas (storing how.entry) value.now (kept_of found.entry) }
{
    match (how.mode, found) {
        (Mode::Set, _) | (Mode::Add, None) | (Mode::Replace, Some(_)) => {
            stored(now, cas, how, value)
        }
        (Mode::Add, Some(_)) => only(Outcome::NotStored),
        (Mode::Replace, None) | (Mode::Append, None) | (Mode::Prepend, None) => {
            only(Outcome::NotStored)
        }
        (Mode::Append, Some(item)) => changed(cas, item, item.value, value),
        (Mode::Prepend, Some(item)) => changed(cas, item, value, item.value),
        (Mode::Cas, None) => only(Outcome::NotFound),
        (Mode::Cas, Some(item)) => {
            if item.cas == how.cas {
                stored(now, cas, how, value)
            } else {
                only(Outcome::Exists)
            }
        }
    }
}

/// Deletes what a client sees under a key: a mark is kept in its place.
pub fn delete<'a>(found: Option<Item<'_>>) -> Turn<'a>
    ensures { turned result ≡ delete_turn (kept_of found.entry) }
{
    match found {
        None => only(Outcome::NotFound),
        Some(_) => Turn {
            outcome: Outcome::Deleted,
            put: Some(Put {
                is_deleted: true,
                flags: 0,
                expiry: 0,
                cas: 0,
                front: &[],
                back: &[],
            }),
        },
    }
}

/// Answers a command whose value is too large. `set` drops what a client sees under the key.
pub fn too_large<'a>(how: Head<'_>, found: Option<Item<'_>>) -> Turn<'a>
    ensures { turned result ≡ large_turn (storing how.entry) (kept_of found.entry) }
{
    let put = match how.mode {
        Mode::Set => delete(found).put,
        Mode::Add | Mode::Replace | Mode::Append | Mode::Prepend | Mode::Cas => None,
    };
    Turn {
        outcome: Outcome::TooLarge,
        put,
    }
}

/// Gives what a client sees under a key another expiry.
pub fn touch<'a>(now: u32, expiry: Expiry, found: Option<Item<'a>>) -> Turn<'a>
    ensures { turned result ≡ touch_turn now expiry (kept_of found.entry) }
{
    match found {
        None => only(Outcome::NotFound),
        Some(item) => Turn {
            outcome: Outcome::Touched,
            put: Some(Put {
                is_deleted: item.is_deleted,
                flags: item.flags,
                expiry: expiry.moment(now),
                cas: item.cas,
                front: item.value,
                back: &[],
            }),
        },
    }
}

// A value without the blanks at its end.
fn trim(value: &[u8]) -> &[u8]
    ensures { result.now ≡ without_blanks value.now }
{
    let mut end = value.len();
    while end > 0 && value[end - 1] == b' ' {
        end -= 1;
    }
    &value[..end]
}

// A sum of 64 bits, or a difference that stops at 0.
fn counted(is_up: bool, old: u64, by: u64) -> u64
    ensures { result ≡ Turns.counted is_up old by }
{
    if is_up {
        old.wrapping_add(by)
    } else {
        old.saturating_sub(by)
    }
}

/// Adds to the number that a client sees under a key, or subtracts from it. If the outcome is `Counted`, the item that is kept is
/// `counted_item` of `number_text` of that number and of the old value's length. Else none is.
pub fn count(is_up: bool, by: u64, found: Option<Item<'_>>) -> Outcome
    ensures outcome { (cas : ℕ) → (count_turn cas is_up by (kept_of found.entry)).0 ≡ result }
    ensures kept { (cas : ℕ) → (count_turn cas is_up by (kept_of found.entry)).1 ≡ counted_put cas result (kept_of found.entry) }
{
    match found {
        None => Outcome::NotFound,
        Some(item) => match number(trim(item.value)) {
            None => Outcome::NotNumber,
            Some(old) => Outcome::Counted(counted(is_up, old, by)),
        },
    }
}

/// Gives a counted item: it has the new version and another text for its value, and else stays what it was.
pub fn counted_item<'a>(cas: u64, item: Item<'_>, text: &'a [u8]) -> Put<'a>
    ensures { put result ≡ Turns.changed cas (kept item.entry) text.now }
{
    Put {
        is_deleted: item.is_deleted,
        flags: item.flags,
        expiry: item.expiry,
        cas,
        front: text,
        back: &[],
    }
}

impl<'a> Put<'a> {
    /// Gives the bytes of the item that is kept. Errors: `AllocError` if there is no memory for them.
    pub fn encode<A: Allocator>(&self, alloc: A) -> Result<Vec<u8, A>, AllocError>
        ensures { IfOk result (λ v. v.items ≡ item_bytes (put self.now)) }
    {
        let len = self.front.len().saturating_add(self.back.len());
        let mut bytes = Vec::new(alloc);
        bytes.reserve_exact(HEAD_LEN.saturating_add(len))?;
        bytes.extend_from_slice(&head(self.is_deleted, self.flags, self.expiry, self.cas))?;
        bytes.extend_from_slice(self.front)?;
        bytes.extend_from_slice(self.back)?;
        Ok(bytes)
    }
}

/// Gives a number's text, with blanks behind it up to a length. Errors: `AllocError` if there is no memory for it.
pub fn number_text<A: Allocator>(
    alloc: A,
    number: u64,
    len: usize,
) -> Result<Vec<u8, A>, AllocError>
    ensures { IfOk result (λ v. v.items ≡ padded number len) }
{
    let mut buffer = Buffer::new();
    let digits = buffer.format(number).as_bytes();
    let mut text = Vec::from_slice(alloc, digits)?;
    if text.len() < len {
        text.resize(len, b' ')?;
    }
    Ok(text)
}

/// Does nothing; its contract is a law of storing. What is stored has the new version. `cas` stores only over the version that it names,
/// and `add` only where nothing is.
pub fn one_version()
    ensures fresh { (now cas : ℕ) (s : Storing) (value : List ℕ) (found : Option Kept) (p : Kept)
        → (store_turn now cas s value found).1 ≡ Some p → p.cas ≡ cas }
    ensures own { (now cas : ℕ) (s : Storing) (value : List ℕ) (found : Option Kept) (p : Kept)
        → s.mode ≡ Cas → (store_turn now cas s value found).1 ≡ Some p → (i : Kept) × (found ≡ Some i) × (i.cas ≡ s.cas) }
    ensures add { (now cas : ℕ) (s : Storing) (value : List ℕ) (found : Option Kept) (p : Kept)
        → s.mode ≡ Add → (store_turn now cas s value found).1 ≡ Some p → found ≡ None }
{}
