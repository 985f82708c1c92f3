//! What the store keeps under a key.
ghost use Rattle.std.specs.Prelude.{◌≡◌, ◌∷◌, ◌++◌, IfOk, IfSome, Some, None, if◌then◌else◌};
ghost use Rattle.foyer_memcached.specs.Item.{Fits, Kept, Reads, item_at, item_bytes, kept, mark_byte, mark_of, visible};
ghost use Rattle.foyer_memcached.specs.Numbers.{eight_bytes, four_bytes};

use crate::number::{eight, four};
use std::alloc::{AllocError, Allocator};

/// The bytes of an item before its value: a letter, the mark, the flags, the expiry, the cas.
pub const HEAD_LEN: usize = 18;

/// What is kept under a key. The value is borrowed from the item's bytes.
#[derive(Clone, Copy, Debug, PartialEq, Eq)]
pub struct Item<'a> {
    /// Whether this only says that the key was deleted.
    pub is_deleted: bool,
    /// The client's own number.
    pub flags: u32,
    /// The second of Unix time from which on the item isn't seen. 0: none.
    pub expiry: u32,
    /// The item's version.
    pub cas: u64,
    /// The value's bytes.
    pub value: &'a [u8],
}

// The second byte of an item.
fn mark(is_deleted: bool) -> u8
    ensures { result ≡ mark_byte is_deleted }
{
    if is_deleted { 4 } else { 0 }
}

// What the second byte says.
fn mark_at(byte: u8) -> Option<bool>
    ensures { result ≡ mark_of byte }
{
    match byte {
        4 => Some(true),
        0 => Some(false),
        _ => None,
    }
}

// The item that the bytes are.
#[tactic(auto, unfolding(crate::specs::Item::item_at))]
fn read_item<'a>(bytes: &'a [u8]) -> Option<Item<'a>>
    ensures { Reads kept result (item_at bytes.now) }
{
    if bytes.len() < HEAD_LEN {
        return None;
    }
    if bytes[0] != b'm' {
        return None;
    }
    let (_, value) = bytes.split_at(HEAD_LEN);
    match mark_at(bytes[1]) {
        None => None,
        Some(is_deleted) => Some(Item {
            is_deleted,
            flags: four(bytes, 2),
            expiry: four(bytes, 6),
            cas: eight(bytes, 10),
            value,
        }),
    }
}

// An item's bytes before its value.
pub(crate) fn head(is_deleted: bool, flags: u32, expiry: u32, cas: u64) -> [u8; HEAD_LEN]
    ensures { result ≡ 109 ∷ (mark_byte is_deleted ∷ (four_bytes flags ++ (four_bytes expiry ++ eight_bytes cas))) }
{
    let flags = flags.to_le_bytes();
    let expiry = expiry.to_le_bytes();
    let cas = cas.to_le_bytes();
    [
        b'm',
        mark(is_deleted),
        flags[0],
        flags[1],
        flags[2],
        flags[3],
        expiry[0],
        expiry[1],
        expiry[2],
        expiry[3],
        cas[0],
        cas[1],
        cas[2],
        cas[3],
        cas[4],
        cas[5],
        cas[6],
        cas[7],
    ]
}

impl<'a> Item<'a> {
    /// Reads an item from all of its bytes. `None` if they are no item.
    pub fn decode(bytes: &'a [u8]) -> Option<Item<'a>>
        // If an item is read, the bytes are its bytes.
        ensures found { IfSome result (λ i. Fits (kept i) × (bytes.now ≡ item_bytes (kept i))) }
        // It is the one that the definition `item_at` gives.
        ensures exact { Reads kept result (item_at bytes.now) }
    {
        read_item(bytes)
    }

    /// Gives the item's bytes. Errors: `AllocError` if there is no memory for them.
    pub fn encode<A: Allocator>(&self, alloc: A) -> Result<Vec<u8, A>, AllocError>
        ensures bytes { IfOk result (λ v. v.items ≡ item_bytes (kept self.now)) }
    {
        let mut bytes = Vec::new(alloc);
        bytes.reserve_exact(HEAD_LEN.saturating_add(self.value.len()))?;
        bytes.extend_from_slice(&head(self.is_deleted, self.flags, self.expiry, self.cas))?;
        bytes.extend_from_slice(self.value)?;
        Ok(bytes)
    }

    /// Whether a client sees the item at a second of Unix time: it isn't a deletion, and its expiry hasn't come.
    pub fn is_visible(&self, now: u32) -> bool
        ensures { visible now (Some (kept self.now)) ≡ (if result then Some (kept self.now) else None) }
    {
        !self.is_deleted && (self.expiry == 0 || self.expiry > now)
    }
}

/// Does nothing; its contract is a law of items. An item's bytes are read as that item. No two items have the same bytes.
pub fn one_reading()
    ensures again { (i : Kept) → Fits i → item_at (item_bytes i) ≡ Some i }
    ensures only { (i j : Kept) → Fits i → Fits j → item_bytes i ≡ item_bytes j → i ≡ j }
{}
