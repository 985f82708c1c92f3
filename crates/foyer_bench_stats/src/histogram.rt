//! A histogram: how many numbers lie in each bucket.
ghost use Rattle.std.specs.Prelude.{◌≡◌, ◌+◌, ◌-◌, ◌^◌, ◌<◌, ◌≤◌, ◌↔◌, IfOk, IsTrue, MatchBool, MatchOption, sum};
ghost use Rattle.foyer_bench_stats.specs.Histogram.{HasNothing, IsPercentile, NotesBoth, NotesOne};

use crate::buckets::{BUCKETS, bucket_of, highest};
use std::alloc::{AllocError, Global};
use std::marker::Model;

/// How many numbers were noted, by their buckets, and the greatest of them. Its memory is taken once.
#[derive(Drop)]
pub struct Histogram {
    counts: Vec<u64>,
    total: u64,
    greatest: u64,
}

impl Model for Histogram {
    ghost use Rattle.std.specs.Prelude.{◌≡◌, length, sum};
    ghost use Rattle.foyer_bench_stats.specs.Histogram.{Noted};

    ghost Value = { Noted };

    ghost view = { λ h. record { counts = h.counts.items; greatest = h.greatest } };

    ghost invariant = { λ h. (length h.counts.items ≡ 3776) × (sum h.counts.items ≡ h.total) };
}

impl Histogram {
    /// Gives a histogram without numbers. Errors: `AllocError`.
    pub fn new(alloc: Global) -> Result<Histogram, AllocError>
        ensures { IfOk result HasNothing }
    {
        let counts = vec![in alloc; 0u64; BUCKETS]?;
        Ok(Histogram {
            counts,
            total: 0,
            greatest: 0,
        })
    }

    /// Notes a number, unless 2^64 - 1 were noted before.
    pub fn note(&mut self, value: u64)
        ensures noted { sum self.old.counts < 2 ^ 64 - 1 → NotesOne value self.old self.new }
        ensures full { 2 ^ 64 - 1 ≤ sum self.old.counts → self.new ≡ self.old }
    {
        if self.total == u64::MAX {
            return;
        }
        let bucket = bucket_of(value);
        self.counts[bucket] += 1;
        self.total += 1;
        self.greatest = self.greatest.max(value);
    }

    /// Takes in what another histogram noted. Answers false if both together have more than 2^64 - 1 numbers. Then nothing changes.
    pub fn merge(&mut self, other: &Histogram) -> bool
        ensures fits { IsTrue result ↔ (sum self.old.counts + sum other.now.counts < 2 ^ 64) }
        ensures merged { MatchBool result (NotesBoth self.old other.now self.new) (self.new ≡ self.old) }
    {
        let Some(total) = self.total.checked_add(other.total) else {
            return false;
        };
        for bucket in 0..BUCKETS {
            self.counts[bucket] += other.counts[bucket];
        }
        self.total = total;
        self.greatest = self.greatest.max(other.greatest);
        true
    }

    /// How many numbers were noted.
    pub fn len(&self) -> u64
        ensures { result ≡ sum self.now.counts }
    {
        self.total
    }

    /// Whether nothing was noted.
    pub fn is_empty(&self) -> bool
        ensures { IsTrue result ↔ (sum self.now.counts ≡ 0) }
    {
        self.total == 0
    }

    /// Gives the greatest number that was noted, or 0 if nothing was noted.
    pub fn greatest(&self) -> u64
        ensures { result ≡ self.now.greatest }
    {
        self.greatest
    }

    /// Finds the least bucket up to which at least the given thousandths of all numbers lie. Gives the bucket's end, or the greatest
    /// number if that is less. Gives None if nothing was noted. `thousandths` must be from 1 to 1000.
    pub fn percentile(&self, thousandths: u64) -> Option<u64>
        requires { (0 < thousandths) × (thousandths ≤ 1000) }
        ensures { MatchOption result (sum self.now.counts ≡ 0) (IsPercentile self.now thousandths) }
    {
        if self.total == 0 {
            return None;
        }
        let wanted = u128::from(self.total) * u128::from(thousandths);
        let mut covered = 0u64;
        for (bucket, count) in self.counts.iter().enumerate() {
            covered += *count;
            if u128::from(covered) * 1000 >= wanted {
                return Some(highest(bucket).min(self.greatest));
            }
        }
        None
    }
}
