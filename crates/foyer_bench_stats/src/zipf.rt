//! Ranks by a Zipf distribution: the n-th is drawn with a probability in proportion to 1 over n to the power of the skew.
ghost use Rattle.std.specs.Prelude.{ℕ, ◌^◌, ◌<◌, ◌≤◌, IfOk, length, slice_index};
ghost use Rattle.std.specs.List.Sorted.{IsNonDecreasing};
ghost use Rattle.foyer_bench_stats.specs.Zipf.{AreSums, IsRankOf};

use crate::weights::weight;
use std::alloc::{AllocError, Global};
use std::marker::Model;

/// The most ranks.
pub const MAX_KEYS: u64 = 1 << 26;

/// The sums of the ranks' weights, which are made once.
#[derive(Drop)]
pub struct Zipf {
    sums: Vec<u64>,
}

impl Model for Zipf {
    ghost use Rattle.std.specs.Prelude.{ℕ, List, ◌<◌, length};
    ghost use Rattle.std.specs.List.Sorted.{IsNonDecreasing};
    ghost use Rattle.foyer_bench_stats.specs.Zipf.{whole_of};

    ghost Value = { List ℕ };

    ghost view = { λ z. z.sums.items };

    ghost invariant = { λ z. (0 < length z.sums.items) × (0 < whole_of z.sums.items) × IsNonDecreasing z.sums.items };
}

// The index of the first sum above a point, or the number of sums if there is none.
fn first_above(sums: &[u64], point: u64) -> usize
    requires { IsNonDecreasing sums.now }
    ensures bound { result ≤ length sums.now }
    ensures below { (k : ℕ) → k < result → slice_index sums.now k ≤ point }
    ensures above { result < length sums.now → point < slice_index sums.now result }
{
    sums.partition_point(|sum| *sum <= point)
}

impl Zipf {
    /// Gives the distribution over `keys` ranks, at a skew in hundredths. At 0 all ranks are equally likely. There must be 1 to 2^26
    /// ranks, and the skew must be at most 1000. Errors: `AllocError`.
    pub fn new(alloc: Global, keys: u64, skew: u64) -> Result<Zipf, AllocError>
        requires some { 0 < keys }
        requires few { keys ≤ 2 ^ 26 }
        requires even { skew ≤ 1000 }
        ensures { IfOk result (AreSums keys skew) }
    {
        let mut sums = Vec::with_capacity(alloc, keys as usize)?;
        let mut sum = 0u64;
        for rank in 0..keys {
            sum += weight(rank, skew);
            sums.push(sum)?;
        }
        Ok(Zipf { sums })
    }

    /// Gives the rank for a random word. The word, as a part of 2^64, is a point in the sum of all weights. The rank is the first whose
    /// sum is above that point.
    pub fn rank(&self, word: u64) -> usize
        ensures { IsRankOf self.now word result }
    {
        let whole = self.sums[self.sums.len() - 1];
        let point = ((u128::from(word) * u128::from(whole)) >> 64) as u64;
        first_above(self.sums.as_slice(), point)
    }
}
