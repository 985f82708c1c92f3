//! Marks as bytes of a page.
ghost use Rattle.std.specs.Prelude.{◌≡◌, ◌≢◌, ◌⊎◌, ℕ, ◌+◌, ◌*◌, ◌%◌, ◌<◌, ◌≤◌, ◌^◌, List, length, slice_index, IfSome, IfNone, OnOk, IsOkUnless, take};
ghost use Rattle.foyer_block_index.specs.declared.tombstone.Tombstone.{Tombstone};
ghost use Rattle.foyer_device_page.specs.declared.error.Error.TheVariants.{Memory};
ghost use Rattle.foyer_block_tombstone.specs.Mark.{number, mark_at};
ghost use Rattle.foyer_block_tombstone.specs.Ring.{IsPutAt, IsRead};

use byteorder::{BigEndian, ByteOrder};
use foyer_block_index::tombstone::Tombstone;
use foyer_device_page::error::Result;
use std::alloc::Allocator;

// The bytes of a mark: its hash, then its sequence, each with its highest byte first.
const MARK_LEN: usize = 16;

// The bytes of each of its two numbers.
const NUMBER_LEN: usize = 8;

/// How many marks a page has room for.
pub(super) const SLOTS_PER_PAGE: usize = 256;

// The number in the 8 bytes from `at` on.
fn read_number(bytes: &[u8], at: usize) -> u64
    requires { at + 8 ≤ length bytes.now }
    ensures { result ≡ number (slice_index bytes.now) at 8 }
{
    BigEndian::read_u64(&bytes[at..])
}

// Writes the number over the 8 bytes from `at` on.
fn write_number(bytes: &mut [u8], at: usize, value: u64)
    requires { at + 8 ≤ length bytes.old }
    ensures put { number (slice_index bytes.new) at 8 ≡ value }
    ensures others { (o : ℕ) → (o < at) ⊎ (at + 8 ≤ o) → slice_index bytes.new o ≡ slice_index bytes.old o }
{
    bytes[at..at + NUMBER_LEN].copy_from_slice(&value.to_be_bytes());
}

// The mark in a slot of a page.
#[tactic(auto, unfolding(crate::specs::Mark::mark_at))]
pub(super) fn read_mark(bytes: &[u8], slot: usize) -> Tombstone
    requires { 16 * slot + 16 ≤ length bytes.now }
    ensures { result ≡ mark_at (slice_index bytes.now) (16 * slot) }
{
    let start = MARK_LEN * slot;
    Tombstone {
        hash: read_number(bytes, start),
        sequence: read_number(bytes, start + NUMBER_LEN),
    }
}

// Writes the mark over a slot of a page.
fn write_mark(bytes: &mut [u8], slot: usize, mark: &Tombstone)
    requires { 16 * slot + 16 ≤ length bytes.old }
    ensures put { mark_at (slice_index bytes.new) (16 * slot) ≡ mark.now }
    ensures others { (o : ℕ) → (o < 16 * slot) ⊎ (16 * slot + 16 ≤ o)
        → slice_index bytes.new o ≡ slice_index bytes.old o }
{
    let Tombstone { hash, sequence } = *mark;
    let start = MARK_LEN * slot;
    write_number(bytes, start, hash);
    write_number(bytes, start + NUMBER_LEN, sequence);
}

// How far it is to a slot from the slot `start` on.
fn distance(slot: u64, start: u64, slots: u64) -> u64
    requires { (slot < slots) × (start < slots) }
    ensures within { result < slots }
    ensures lands { (start + result) % slots ≡ slot }
{
    if slot >= start {
        slot - start
    } else {
        slots - start + slot
    }
}

// Which of `count` marks, put from the slot `start` on, is the last that is put at a slot.
fn last_index(slot: u64, start: u64, slots: u64, count: usize) -> Option<usize>
    requires { (slot < slots) × (start < slots) }
    ensures some { IfSome result (λ k. (k < count) × ((start + k) % slots ≡ slot) × (count ≤ k + slots)) }
    ensures none { IfNone result ((k : ℕ) → k < count → (start + k) % slots ≢ slot) }
{
    let first = distance(slot, start, slots);
    let count = count as u64;
    if first >= count {
        return None;
    }
    Some((first + (count - 1 - first) / slots * slots) as usize)
}

// Puts the last of the marks that comes to the slot `slot` of the log, if one does, into the slot j of its page.
fn put_mark(bytes: &mut [u8], j: usize, slot: u64, start: u64, slots: u64, marks: &[Tombstone])
    requires size { 16 * j + 16 ≤ length bytes.old }
    requires within { (slot < slots) × (start < slots) }
    ensures put { IsPutAt slots start marks.now slot
        (mark_at (slice_index bytes.old) (16 * j)) (mark_at (slice_index bytes.new) (16 * j)) }
    ensures others { (o : ℕ) → (o < 16 * j) ⊎ (16 * j + 16 ≤ o)
        → slice_index bytes.new o ≡ slice_index bytes.old o }
{
    if let Some(k) = last_index(slot, start, slots, marks.len()) {
        write_mark(bytes, j, &marks[k]);
    }
}

// Puts those of the marks, which begin at the slot `start` of the log, that come into this page.
pub(super) fn put_marks(bytes: &mut [u8], page: u64, start: u64, slots: u64, marks: &[Tombstone])
    requires size { length bytes.old ≡ 4096 }
    requires within { (256 * page + 256 ≤ slots) × (start < slots) }
    ensures { (j : ℕ) → j < 256 → IsPutAt slots start marks.now (256 * page + j)
        (mark_at (slice_index bytes.old) (16 * j)) (mark_at (slice_index bytes.new) (16 * j)) }
{
    let first = SLOTS_PER_PAGE as u64 * page;
    'slots: for j in 0..SLOTS_PER_PAGE {
        put_mark(bytes, j, first + j as u64, start, slots, marks);
    }
}

// What stands in an empty slot.
pub(super) const NO_MARK: Tombstone = Tombstone {
    hash: 0,
    sequence: 0,
};

/// The mark of the greatest sequence of those that were read, and the slot after it. If no mark was read, these are `NO_MARK` and 1.
#[derive(Clone, Copy, Debug)]
pub(super) struct Newest {
    pub(super) mark: Tombstone,
    pub(super) slot: u64,
}

// Takes the mark of a slot: an empty one isn't listed. Errors: `Memory`.
fn take_mark<A: Allocator>(
    mark: Tombstone,
    slot: u64,
    tombstones: &mut Vec<Tombstone, A>,
    newest: &mut Newest,
) -> Result<()>
    requires { slot + 1 < 2 ^ 64 }
    ensures read { OnOk result ((ring : ℕ → Tombstone) (base : List Tombstone) → ring slot ≡ mark
        → IsRead ring slot base tombstones.old.items newest.old.mark newest.old.slot
        → IsRead ring (slot + 1) base tombstones.new.items newest.new.mark newest.new.slot) }
    ensures before { (length tombstones.old.items ≤ length tombstones.new.items)
        × (take (length tombstones.old.items) tombstones.new.items ≡ tombstones.old.items) }
    ensures memory { IsOkUnless result Memory }
{
    if mark.sequence == 0 {
        return Ok(());
    }
    tombstones.push(mark)?;
    if mark.sequence >= newest.mark.sequence {
        *newest = Newest {
            mark,
            slot: slot + 1,
        };
    }
    Ok(())
}

// Takes the marks of a page, in order. Errors: `Memory`.
pub(super) fn take_marks<A: Allocator>(
    bytes: &[u8],
    page: u64,
    tombstones: &mut Vec<Tombstone, A>,
    newest: &mut Newest,
) -> Result<()>
    requires size { length bytes.now ≡ 4096 }
    requires few { 256 * page + 256 < 2 ^ 64 }
    ensures read { OnOk result ((ring : ℕ → Tombstone) (base : List Tombstone)
        → ((j : ℕ) → j < 256 → ring (256 * page + j) ≡ mark_at (slice_index bytes.now) (16 * j))
        → IsRead ring (256 * page) base tombstones.old.items newest.old.mark newest.old.slot
        → IsRead ring (256 * page + 256) base tombstones.new.items newest.new.mark newest.new.slot) }
    ensures before { (length tombstones.old.items ≤ length tombstones.new.items)
        × (take (length tombstones.old.items) tombstones.new.items ≡ tombstones.old.items) }
    ensures memory { IsOkUnless result Memory }
{
    let first = SLOTS_PER_PAGE as u64 * page;
    'slots: for j in 0..SLOTS_PER_PAGE {
        take_mark(read_mark(bytes, j), first + j as u64, tombstones, newest)?;
    }
    Ok(())
}
