//! A search of a shard by halving.
ghost use Rattle.std.specs.Prelude.{◌≡◌, ℕ, ◌+◌, ◌<◌, ◌≤◌, ◌^◌, min, length, slice_get, slice_index, Some, MatchOption};
ghost use Rattle.std.specs.List.Sorted.{IsStrictlyIncreasing};
ghost use Rattle.foyer_block_index.specs.Probe.{Lacks};

use crate::shard::Entry;
use std::marker::Model;

/// A look at the hashes of a shard, in ascending order, that counts how often it was asked for one.
#[derive(Drop)]
pub struct Probe<'a> {
    entries: &'a [Entry],
    turns: u64,
}

impl<'a> Model for Probe<'a> {
    ghost use Rattle.std.specs.List.Sorted.{IsStrictlyIncreasing};
    ghost use Rattle.foyer_block_index.specs.Entries.{hashes};
    ghost use Rattle.foyer_block_index.specs.Probe.{ProbeState};

    ghost Value = { ProbeState };

    ghost view = { λ a. record { hashes = hashes a.entries.now; turns = a.turns } };

    ghost invariant = { λ a. IsStrictlyIncreasing (hashes a.entries.now) };
}

impl<'a> Probe<'a> {
    ghost use Rattle.foyer_block_index.specs.Entries.{hashes};

    // Over entries that ascend.
    pub(crate) fn over(entries: &'a [Entry]) -> Probe<'a>
        requires { IsStrictlyIncreasing (hashes entries.now) }
        ensures hashes { result.hashes ≡ hashes entries.now }
        ensures turns { result.turns ≡ 0 }
    {
        Probe { entries, turns: 0 }
    }

    /// How many entries the shard has.
    pub fn len(&self) -> usize
        ensures len { result ≡ length self.now.hashes }
        ensures ascending { IsStrictlyIncreasing self.now.hashes }
    {
        self.entries.len()
    }

    /// How often it was asked for a hash, up to 2^64 - 1.
    pub fn turns(&self) -> u64
        ensures { result ≡ self.now.turns }
    {
        self.turns
    }

    /// The hash of the entry at a place, which must be below the length.
    pub fn at(&mut self, place: usize) -> u64
        requires { place < length self.old.hashes }
        ensures hash { result ≡ slice_index self.old.hashes place }
        ensures hashes { self.new.hashes ≡ self.old.hashes }
        ensures turns { self.new.turns ≡ min (self.old.turns + 1) u64.MAX }
    {
        self.turns = self.turns.saturating_add(1);
        self.entries[place].hash
    }
}

/// The place of a hash in the shard, if it has the hash. It asks for no more hashes than the shard's length has binary digits.
pub fn search(probe: &mut Probe<'_>, hash: u64) -> Option<usize>
    ensures place { MatchOption result (Lacks probe.old.hashes hash)
        (λ place. slice_get probe.old.hashes place ≡ Some hash) }
    ensures hashes { probe.new.hashes ≡ probe.old.hashes }
    ensures turns { (digits : ℕ) → length probe.old.hashes < 2 ^ digits
        → probe.new.turns ≤ probe.old.turns + digits }
{
    let mut low = 0;
    let mut size = probe.len();
    'halving: while size > 0 {
        let half = size / 2;
        let place = low + half;
        let there = probe.at(place);
        if there == hash {
            return Some(place);
        }
        if there < hash {
            low = place + 1;
            size = size - half - 1;
        } else {
            size = half;
        }
    }
    None
}
