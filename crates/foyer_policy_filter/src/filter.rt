//! The filter and its conditions.
ghost use Rattle.std.specs.Prelude.{◌≡◌, ℕ, List, [], ◌∷◌, ◌++◌, ◌+◌, min, Err, IfOk, OnErr};
ghost use Rattle.std.specs.Duration.{as_nanos, max_nanos};
ghost use Rattle.foyer_device_page.specs.declared.error.Error.TheVariants.{Memory};
ghost use Rattle.foyer_policy_filter.specs.Listed.{listed};
ghost use Rattle.foyer_policy_filter.specs.Verdict.{AreAnswers, IsVerdict};

use crate::verdict::StorageFilterResult;
use foyer_device_page::error::Result;
use foyer_device_statistics::IoState;
use std::alloc::Allocator;
use std::fmt;
use std::fmt::{Debug, Formatter};
use std::marker::Model;
use std::time::Duration;

/// Decides about an entry. Callers write their own.
pub trait StorageFilterCondition: Drop {
    ghost use Rattle.std.specs.Prelude.{ℕ};
    ghost use Rattle.foyer_device_statistics.specs.declared.state.IoState.{IoState};
    ghost use Rattle.foyer_policy_filter.specs.declared.verdict.StorageFilterResult.{StorageFilterResult};

    // The answers that it may give, given what the device did, a hash and a size in bytes.
    ghost may_answer: { Self → IoState → ℕ → ℕ → StorageFilterResult → Type 0 };

    /// Its answer about an entry of that hash and estimated size, in bytes. It is given no handle to wait for a lock.
    fn filter(&self, io: &IoState, hash: u64, size: usize) -> StorageFilterResult
        ensures { may_answer self.now io.now hash size result };
}

/// Conditions that are asked one after the other. Contracts see them as a list.
pub struct StorageFilter<C, A: Allocator> {
    // None until the first condition is added, with an allocator.
    conditions: Option<Vec<C, A>>,
}

// Written out, so that it is proved once.
impl<C: Drop, A: Allocator> Drop for StorageFilter<C, A> {
    fn drop(self) {
        let StorageFilter { conditions: _ } = self;
    }
}

impl<C, A: Allocator> Model for StorageFilter<C, A> {
    ghost use Rattle.std.specs.Prelude.{List};
    ghost use Rattle.foyer_policy_filter.specs.Listed.{listed};

    ghost Value = { List C };

    ghost view = { λ f. listed f.conditions };
}

impl<C: StorageFilterCondition, A: Allocator> Default for StorageFilter<C, A> {
    ghost use Rattle.std.specs.Prelude.{◌≡◌, []};

    ghost is_default = { λ f. f ≡ [] };

    /// No conditions: each entry is admitted. It doesn't allocate.
    fn default() -> StorageFilter<C, A> {
        StorageFilter { conditions: None }
    }
}

/// The type's name.
impl<C: StorageFilterCondition, A: Allocator> Debug for StorageFilter<C, A> {
    fn fmt<W: fmt::Write>(&self, f: &mut Formatter<W>) -> fmt::Result {
        f.write_str("StorageFilter")
    }
}

// The list of conditions, or an empty one.
fn list_of<C, A: Allocator>(alloc: A, conditions: Option<Vec<C, A>>) -> Vec<C, A>
    ensures { result.items ≡ listed conditions }
{
    match conditions {
        Some(list) => list,
        None => Vec::new(alloc),
    }
}

impl<C: StorageFilterCondition, A: Allocator> StorageFilter<C, A> {
    /// No conditions: each entry is admitted. It doesn't allocate.
    pub fn new() -> StorageFilter<C, A>
        ensures { result ≡ [] }
    {
        StorageFilter { conditions: None }
    }

    /// Adds a condition, which is asked after the others. The filter keeps the allocator of the first such call. Error:
    /// Memory. Then the filter and the condition are dropped.
    pub fn with_condition(self, alloc: A, condition: C) -> Result<StorageFilter<C, A>>
        ensures added { IfOk result (λ f. f ≡ self ++ condition ∷ []) }
        ensures memory { OnErr result (result ≡ Err Memory) }
    {
        let StorageFilter { conditions } = self;
        let mut list = list_of(alloc, conditions);
        list.push(condition)?;
        Ok(StorageFilter {
            conditions: Some(list),
        })
    }

    // The conditions, in the order in which they are asked.
    fn conditions(&self) -> &[C]
        ensures { result.now ≡ self.now }
    {
        match &self.conditions {
            Some(list) => list.as_slice(),
            None => &[],
        }
    }

    /// Gives the joint answer of the conditions about an entry of that hash and estimated size, in bytes.
    pub fn filter(&self, io: &IoState, hash: u64, size: usize) -> StorageFilterResult
        ensures { (answers : List StorageFilterResult)
            × AreAnswers (λ c a. C.may_answer c io.now hash size a) self.now answers
            × IsVerdict answers result }
    {
        let mut wait = Duration::ZERO;
        for condition in self.conditions() {
            let answer = condition.filter(io, hash, size);
            match answer {
                StorageFilterResult::Throttled(more) => wait = add_waits(wait, more),
                StorageFilterResult::Admit => {}
                StorageFilterResult::Reject => return answer,
            }
        }
        if wait.is_zero() {
            StorageFilterResult::Admit
        } else {
            StorageFilterResult::Throttled(wait)
        }
    }
}

// The sum of both waits, at most the greatest duration.
fn add_waits(wait: Duration, more: Duration) -> Duration
    ensures { as_nanos result ≡ min (as_nanos wait + as_nanos more) max_nanos }
{
    wait.saturating_add(more)
}
