//! Conditions that are shipped.
ghost use Rattle.std.specs.Prelude.{◌≡◌};
ghost use Rattle.foyer_policy_filter.specs.Conditions.{Decides, IsThrottledBy, first_of, end_of};
ghost use Rattle.foyer_policy_filter.specs.Verdict.{IsAdmit, IsReject};

use crate::filter::StorageFilterCondition;
use crate::verdict::StorageFilterResult;
use foyer_device_statistics::IoState;
use std::marker::Model;
use std::ops::Bound;

/// Admits each entry.
#[derive(Clone, Copy, Debug, Default)]
pub struct AdmitAll;

impl StorageFilterCondition for AdmitAll {
    ghost may_answer = { λ _ _ _ _ a. IsAdmit a };

    fn filter(&self, _io: &IoState, _hash: u64, _size: usize) -> StorageFilterResult {
        StorageFilterResult::Admit
    }
}

/// Rejects each entry.
#[derive(Clone, Copy, Debug, Default)]
pub struct RejectAll;

impl StorageFilterCondition for RejectAll {
    ghost may_answer = { λ _ _ _ _ a. IsReject a };

    fn filter(&self, _io: &IoState, _hash: u64, _size: usize) -> StorageFilterResult {
        StorageFilterResult::Reject
    }
}

/// Throttles by the wait that the device asks for before the next write. It admits if that wait is zero.
#[derive(Clone, Copy, Debug, Default)]
pub struct IoThrottle;

impl StorageFilterCondition for IoThrottle {
    ghost may_answer = { λ _ io _ _ a. IsThrottledBy io.write_throttle a };

    fn filter(&self, io: &IoState, _hash: u64, _size: usize) -> StorageFilterResult {
        if io.write_throttle.is_zero() {
            StorageFilterResult::Admit
        } else {
            StorageFilterResult::Throttled(io.write_throttle)
        }
    }
}

/// Admits entries whose estimated size lies in a range, and rejects all others.
#[derive(Drop)]
pub struct EstimatedSize {
    first: usize,
    end: usize,
}

impl Model for EstimatedSize {
    ghost use Rattle.foyer_policy_filter.specs.Conditions.{Sizes};

    ghost Value = { Sizes };

    ghost view = { λ s. record { first = s.first; end = s.end } };
}

impl EstimatedSize {
    /// Admits the sizes within these bounds, except `usize::MAX`, which is never admitted.
    pub fn new(lower: Bound<usize>, upper: Bound<usize>) -> EstimatedSize
        ensures first { result.first ≡ first_of lower }
        ensures end { result.end ≡ end_of upper }
    {
        let first = match lower {
            Bound::Included(n) => n,
            Bound::Excluded(n) => n.saturating_add(1),
            Bound::Unbounded => 0,
        };
        let end = match upper {
            Bound::Included(n) => n.saturating_add(1),
            Bound::Excluded(n) => n,
            Bound::Unbounded => usize::MAX,
        };
        EstimatedSize { first, end }
    }
}

impl StorageFilterCondition for EstimatedSize {
    ghost may_answer = { λ s _ _ size a. Decides s size a };

    fn filter(&self, _io: &IoState, _hash: u64, size: usize) -> StorageFilterResult {
        if self.first <= size && size < self.end {
            StorageFilterResult::Admit
        } else {
            StorageFilterResult::Reject
        }
    }
}
