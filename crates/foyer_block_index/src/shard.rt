//! A shard of the index: one vector of entries, ascending by hash.
ghost use Rattle.std.specs.Prelude.{◌≡◌, ℕ, ◌+◌, ◌<◌, ◌≤◌, ◌↔◌, ◌⊎◌, [], length, take, slice_get, Some, None, Option, IfOk, OnOk, OnErr, IsOk, IsSome, IsOkUnless, IsTrue, MatchOption, vec_len, vec_capacity};
ghost use Rattle.std.specs.Bool.{OnTrue, OnFalse};
ghost use Rattle.std.specs.List.{All, Contains};
ghost use Rattle.std.specs.List.Sorted.{IsStrictlyIncreasing};
ghost use Rattle.foyer_block_index.specs.Index.{sequence_of, address_of};
ghost use Rattle.foyer_block_index.specs.Insertion.{entered, displaced};
ghost use Rattle.foyer_block_index.specs.Entries.{held_by, is_vacant, hashes, pairs};
ghost use Rattle.foyer_block_index.specs.Probe.{Lacks, HasPlace};
ghost use Rattle.foyer_block_index.specs.Shards.{held_at, ChangesAt, HoldsSame, Has};

use crate::indexer::{EntryAddress, Index, Sequence};
use crate::probe::{Probe, search};
use foyer_device_page::error::{Error, Result};
use std::alloc::Allocator;
use std::marker::Model;

/// What an entry has.
#[derive(Clone, Copy)]
pub(crate) enum Slot {
    // Nothing: the place was made for what is about to enter, or is about to go.
    Vacant,
    // The record of the newest put.
    Address(EntryAddress),
    // The mark of a newer delete.
    Tombstone(Sequence),
}

impl Slot {
    fn of(held: Index) -> Slot
        ensures { held_by result ≡ Some held }
    {
        match held {
            Index::Address(address) => Slot::Address(address),
            Index::Tombstone(sequence) => Slot::Tombstone(sequence),
        }
    }

    fn is_vacant(&self) -> bool
        ensures { result ≡ is_vacant self.now }
    {
        matches!(self, Slot::Vacant)
    }

    fn held(&self) -> Option<Index>
        ensures { result ≡ held_by self.now }
    {
        match self {
            Slot::Vacant => None,
            Slot::Address(address) => Some(Index::Address(*address)),
            Slot::Tombstone(sequence) => Some(Index::Tombstone(*sequence)),
        }
    }
}

/// A hash with what it has.
#[derive(Clone, Copy)]
pub(crate) struct Entry {
    pub(crate) hash: u64,
    slot: Slot,
}

impl Index {
    fn sequence(&self) -> Sequence
        ensures { result ≡ sequence_of self.now }
    {
        match self {
            Index::Address(address) => address.sequence,
            Index::Tombstone(sequence) => *sequence,
        }
    }

    fn address(&self) -> Option<EntryAddress>
        ensures { result ≡ address_of self.now }
    {
        match self {
            Index::Address(address) => Some(*address),
            Index::Tombstone(_) => None,
        }
    }
}

/// The entries of the hashes that belong here, strictly ascending by hash.
pub(crate) struct Shard<A: Allocator> {
    entries: Vec<Entry, A>,
}

// Written out, so that it is proved once.
impl<A: Allocator> Drop for Shard<A> {
    fn drop(self) {
        let Shard { entries: _ } = self;
    }
}

impl<A: Allocator> Model for Shard<A> {
    ghost use Rattle.std.specs.Prelude.{◌-◌, vec_len, vec_capacity};
    ghost use Rattle.std.specs.List.Sorted.{IsStrictlyIncreasing};
    ghost use Rattle.foyer_block_index.specs.Entries.{ShardState, hashes};

    ghost Value = { ShardState };

    ghost view = { λ a. record { entries = a.entries.items; spare = vec_capacity a.entries - vec_len a.entries } };

    ghost invariant = { λ a. IsStrictlyIncreasing (hashes a.entries.items) };
}

impl<A: Allocator> Shard<A> {
    pub(crate) fn new(alloc: A) -> Shard<A>
        ensures { result.entries ≡ [] }
    {
        Shard {
            entries: Vec::new(alloc),
        }
    }

    pub(crate) fn probe(&self) -> Probe<'_>
        ensures hashes { result.hashes ≡ hashes self.now.entries }
        ensures turns { result.turns ≡ 0 }
    {
        Probe::over(&self.entries)
    }

    // The place of a hash, if it has one.
    pub(crate) fn place(&self, hash: u64) -> Option<usize>
        ensures { MatchOption result (Lacks (hashes self.now.entries) hash)
            (λ place. slice_get (hashes self.now.entries) place ≡ Some hash) }
    {
        search(&mut self.probe(), hash)
    }

    // What the hash of a place has.
    fn held(&self, hash: u64, place: usize) -> Option<Index>
        requires { slice_get (hashes self.now.entries) place ≡ Some hash }
        ensures { result ≡ held_at self.now hash }
    {
        self.entries[place].slot.held()
    }

    // Writes over what the hash of a place has.
    fn write(&mut self, hash: u64, place: usize, slot: Slot)
        requires { slice_get (hashes self.old.entries) place ≡ Some hash }
        ensures changes { ChangesAt self.old self.new hash (held_by slot) }
        ensures hashes { hashes self.new.entries ≡ hashes self.old.entries }
        ensures spare { self.new.spare ≡ self.old.spare }
    {
        self.entries[place] = Entry { hash, slot };
    }

    /// What a hash has.
    pub(crate) fn get(&self, hash: u64) -> Option<Index>
        ensures { result ≡ held_at self.now hash }
    {
        match self.place(hash) {
            Some(place) => self.held(hash, place),
            None => None,
        }
    }

    /// Makes room for `count` more entries. Errors: `Memory`.
    pub(crate) fn reserve(&mut self, count: usize) -> Result<()>
        ensures room { OnOk result (count ≤ self.new.spare) }
        ensures fits { count ≤ self.old.spare → IsOk result }
        ensures kept { self.old.spare ≤ self.new.spare }
        ensures same { self.new.entries ≡ self.old.entries }
        ensures refused { IsOkUnless result Error.Memory }
    {
        let len = self.entries.len();
        if self.entries.capacity() - len >= count {
            return Ok(());
        }
        Ok(self.entries.reserve_exact(count.max(len / 32 + 4))?)
    }

    /// Makes vacant places for ascending hashes that have none. There must be room for them.
    pub(crate) fn merge(&mut self, news: &[u64])
        requires ascend { IsStrictlyIncreasing news.now }
        requires absent { All (Lacks (hashes self.old.entries)) news.now }
        requires room { length news.now ≤ self.old.spare }
        ensures same { HoldsSame self.old self.new }
        ensures kept { (hash : ℕ) → Has self.old hash → Has self.new hash }
        ensures made { All (Has self.new) news.now }
        ensures only { (hash : ℕ) → Has self.new hash → Has self.old hash ⊎ Contains news.now hash }
        ensures spare { self.old.spare ≤ self.new.spare + length news.now }
    {
        let len = self.entries.len();
        lengthen(&mut self.entries, news.len());
        merge_places(&mut self.entries, len, news);
    }

    // Gives the place of a hash, and makes it if the hash has none.
    fn seat(&mut self, hash: u64) -> Result<usize>
        ensures place { IfOk result (λ place. slice_get (hashes self.new.entries) place ≡ Some hash) }
        ensures same { HoldsSame self.old self.new }
        ensures kept { (other : ℕ) → Has self.old other → Has self.new other }
        ensures only { (other : ℕ) → Has self.new other → Has self.old other ⊎ ((other ≡ hash) × IsOk result) }
        ensures refused { IsOkUnless result Error.Memory }
        ensures succeeds { 0 < self.old.spare → IsOk result }
        ensures held { Has self.old hash → IsOk result }
        ensures spare { self.old.spare ≤ self.new.spare + 1 }
    {
        if let Some(place) = self.place(hash) {
            return Ok(place);
        }
        self.reserve(1)?;
        self.merge(&[hash]);
        let place = self.place(hash);
        Ok(place.unwrap())
    }

    /// Inserts what a hash is to have, and gives the address that doesn't stay, if there is one. Errors: `Memory`.
    pub(crate) fn enter(&mut self, hash: u64, next: Index) -> Result<Option<EntryAddress>>
        ensures entered { OnOk result
            (ChangesAt self.old self.new hash (Some (entered (held_at self.old hash) next))) }
        ensures answer { IfOk result (λ answer. answer ≡ displaced (held_at self.old hash) next) }
        ensures err { OnErr result (HoldsSame self.old self.new) }
        ensures kept { (other : ℕ) → Has self.old other → Has self.new other }
        ensures only { (other : ℕ) → Has self.new other → Has self.old other ⊎ ((other ≡ hash) × IsOk result) }
        ensures refused { IsOkUnless result Error.Memory }
        ensures succeeds { 0 < self.old.spare → IsOk result }
        ensures held { Has self.old hash → IsOk result }
        ensures spare { self.old.spare ≤ self.new.spare + 1 }
    {
        let place = self.seat(hash)?;
        if let Some(held) = self.held(hash, place) {
            if next.sequence() < held.sequence() {
                return Ok(next.address());
            }
            self.write(hash, place, Slot::of(next));
            return Ok(held.address());
        }
        self.write(hash, place, Slot::of(next));
        Ok(None)
    }

    // Writes over what a hash has if that is `held`, and says whether it did.
    fn exchange(&mut self, hash: u64, held: Index, slot: Slot) -> bool
        ensures answer { IsTrue result ↔ (held_at self.old hash ≡ Some held) }
        ensures changes { OnTrue result (ChangesAt self.old self.new hash (held_by slot)) }
        ensures unchanged { OnFalse result (HoldsSame self.old self.new) }
        ensures hashes { hashes self.new.entries ≡ hashes self.old.entries }
    {
        match self.place(hash) {
            Some(place) => {
                let is_held = self.held(hash, place) == Some(held);
                if is_held {
                    self.write(hash, place, slot);
                }
                is_held
            }
            None => false,
        }
    }

    /// Writes over what a hash has if that is `old`, and says whether it did.
    pub(crate) fn replace(&mut self, hash: u64, old: Index, new: Index) -> bool
        ensures answer { IsTrue result ↔ (held_at self.old hash ≡ Some old) }
        ensures replaced { OnTrue result (ChangesAt self.old self.new hash (Some new)) }
        ensures unchanged { OnFalse result (HoldsSame self.old self.new) }
        ensures hashes { hashes self.new.entries ≡ hashes self.old.entries }
    {
        self.exchange(hash, old, Slot::of(new))
    }

    /// Leaves the place of a hash vacant if the hash has just `held`, and says whether it did.
    pub(crate) fn vacate(&mut self, hash: u64, held: Index) -> bool
        ensures answer { IsTrue result ↔ (held_at self.old hash ≡ Some held) }
        ensures vacated { OnTrue result (ChangesAt self.old self.new hash None) }
        ensures unchanged { OnFalse result (HoldsSame self.old self.new) }
        ensures hashes { hashes self.new.entries ≡ hashes self.old.entries }
    {
        self.exchange(hash, held, Slot::Vacant)
    }

    /// Removes the vacant places.
    pub(crate) fn sweep(&mut self)
        ensures same { HoldsSame self.old self.new }
        ensures only { (hash : ℕ) → Has self.new hash → Has self.old hash }
        ensures filled { (hash : ℕ) → Has self.new hash → IsSome (held_at self.new hash) }
    {
        self.entries.retain(|entry| !entry.slot.is_vacant());
    }

    pub(crate) fn clear(&mut self)
        ensures { self.new.entries ≡ [] }
    {
        self.entries.clear();
    }
}

// Adds `count` vacant entries, for which there is room.
fn lengthen<A: Allocator>(entries: &mut Vec<Entry, A>, count: usize)
    requires { vec_len entries.old + count ≤ vec_capacity entries.old }
    ensures front { take (vec_len entries.old) entries.new.items ≡ entries.old.items }
    ensures len { vec_len entries.new ≡ vec_len entries.old + count }
    ensures capacity { vec_capacity entries.old ≤ vec_capacity entries.new }
{
    for _ in 0..count {
        let _ = entries.push(Entry {
            hash: 0,
            slot: Slot::Vacant,
        });
    }
}

// Merges hashes into the first `len` entries, from the back: what stands behind these is written over.
fn merge_places(entries: &mut [Entry], len: usize, news: &[u64])
    requires room { length entries.old ≡ len + length news.now }
    requires ascends { IsStrictlyIncreasing (hashes (take len entries.old)) }
    requires ascend { IsStrictlyIncreasing news.now }
    requires absent { All (Lacks (hashes (take len entries.old))) news.now }
    ensures ascends { IsStrictlyIncreasing (hashes entries.new) }
    ensures same { pairs entries.new ≡ pairs (take len entries.old) }
    ensures kept { (hash : ℕ) → HasPlace (hashes (take len entries.old)) hash
        → HasPlace (hashes entries.new) hash }
    ensures made { All (HasPlace (hashes entries.new)) news.now }
    ensures only { (hash : ℕ) → HasPlace (hashes entries.new) hash
        → HasPlace (hashes (take len entries.old)) hash ⊎ Contains news.now hash }
{
    let mut old = len;
    let mut new = news.len();
    'from_the_back: while new > 0 {
        let hash = news[new - 1];
        let place = old + new - 1;
        if old > 0 && entries[old - 1].hash > hash {
            entries[place] = entries[old - 1];
            old -= 1;
        } else {
            entries[place] = Entry {
                hash,
                slot: Slot::Vacant,
            };
            new -= 1;
        }
    }
}
