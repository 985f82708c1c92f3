//! The steps of a destroy.
ghost use Rattle.std.specs.Prelude.{◌≡◌, true, Result, Some, MatchOption};
ghost use Rattle.foyer_device_page.specs.declared.error.Error.{Error};
ghost use Rattle.foyer_core_steps.specs.Answered.{HandsBack, DescribesNothing};
ghost use Rattle.foyer_core_steps.specs.Destroying.{awaits, fault_kind, first_of, HasCleaned, HasEnded};
ghost use Rattle.foyer_core_steps.specs.Refines.{RefinesUncounted};
ghost use Rattle.foyer_core_steps.specs.declared.step.Step.TheVariants as step;
ghost use Rattle.foyer_core_flusher.specs.Content.{Meaning};
ghost use Rattle.foyer_core_steps.specs.Showing.{IsShown};

use crate::env::Env;
use crate::reply::Reply;
use crate::state::Core;
use crate::step::Step;
use foyer_block_index::manager::BlockId;
use foyer_block_index::tombstone::Tombstone;
use foyer_block_manager::block::eviction::EvictionPicker;
use foyer_block_manager::block::ids::IdSet;
use foyer_core_flusher::clearing::{are_idle, clear_all};
use foyer_core_flusher::flusher::Submission;
use foyer_device_page::error::{Error, ErrorKind, Result};
use foyer_policy_filter::StorageFilterCondition;
use std::alloc::Allocator;
use std::mem::replace;

/// How far a destroy is.
#[derive(Drop)]
pub enum Destroy<A: Allocator> {
    /// None runs.
    Absent,
    /// It waits until no flusher has anything queued, received or in a batch, and no reclaim runs.
    Begun,
    /// The blocks whose clean isn't reported yet, and the first fault of the cleans that were reported.
    Cleaning {
        left: IdSet<A>,
        first_fault: Option<ErrorKind>,
    },
}

// The fault of a clean, if it failed: memory was refused, or the device failed.
fn fault_kind(outcome: &Result<()>) -> Option<ErrorKind>
    ensures { result ≡ fault_kind outcome.now }
{
    match outcome {
        Ok(()) => None,
        Err(Error::Memory) => Some(ErrorKind::Memory),
        Err(_) => Some(ErrorKind::Io),
    }
}

// The fault of before, or else the new one.
fn first_of(before: Option<ErrorKind>, fault: Option<ErrorKind>) -> Option<ErrorKind>
    ensures { result ≡ first_of before fault }
{
    match before {
        Some(kind) => Some(kind),
        None => fault,
    }
}

impl<A: Allocator> Destroy<A> {
    // Whether the block's clean isn't reported yet.
    fn awaits(&self, block: BlockId) -> bool
        ensures { result ≡ awaits block self.now }
    {
        match self {
            Destroy::Cleaning {
                left,
                first_fault: _,
            } => left.contains(block),
            _ => false,
        }
    }

    // Notes that the block's clean was reported. After the last one the destroy is over, and its first fault is given.
    fn note_clean(&mut self, block: BlockId, fault: Option<ErrorKind>) -> Option<Option<ErrorKind>>
        requires { awaits block self.old ≡ true }
        ensures { MatchOption result (HasCleaned block fault self.old self.new)
            (λ first. HasEnded block fault first self.old self.new) }
    {
        let Destroy::Cleaning {
            mut left,
            first_fault,
        } = replace(self, Destroy::Absent)
        else {
            unreachable!()
        };
        left.remove(block);
        let first_fault = first_of(first_fault, fault);
        if left.as_slice().is_empty() {
            return Some(first_fault);
        }
        *self = Destroy::Cleaning { left, first_fault };
        None
    }
}

impl<K, V, P, A: Allocator + Clone> Core<K, V, P, A> {
    // A mark of hash 0 is queued, which takes a sequence; the index isn't touched.
    pub(crate) fn destroy_begin(&mut self) -> Reply<K, V, P, A>
        ensures back { HandsBack step.DestroyBegin result self.old self.new }
        ensures nothing { DescribesNothing result }
        ensures meets { (m : Meaning K V P) → RefinesUncounted m step.DestroyBegin result self.old self.new }
    {
        if self.closed {
            return Reply::Refused(ErrorKind::Closed, Step::DestroyBegin);
        }
        let Destroy::Absent = &self.destroy else {
            return Reply::NotNow(Step::DestroyBegin);
        };
        if self.next == u64::MAX {
            return Reply::Refused(ErrorKind::SequenceEnd, Step::DestroyBegin);
        }
        let flusher = self.flusher_of(0);
        let queue = &mut self.flushers[flusher].queue;
        if queue.reserve(1).is_err() {
            return Reply::Refused(ErrorKind::Memory, Step::DestroyBegin);
        }
        let sequence = self.next;
        queue.push_back_reserved(Submission::Tombstone {
            tombstone: Tombstone { hash: 0, sequence },
            stats: None,
        });
        self.next = sequence + 1;
        self.destroy = Destroy::Begun;
        Reply::Destroying(sequence)
    }

    // The index is cleared, each block begins a new filling and belongs to no flusher, and the splitters are fresh.
    pub(crate) fn destroy_clear<E: EvictionPicker, C: StorageFilterCondition>(
        &mut self,
        env: &mut Env<E, C>,
    ) -> Reply<K, V, P, A>
        ensures back { HandsBack step.DestroyClear result self.old self.new }
        ensures nothing { DescribesNothing result }
        ensures meets { (m : Meaning K V P) → RefinesUncounted m step.DestroyClear result self.old self.new }
        ensures shown { IsShown E.learns E.forgets step.DestroyClear result self.old self.new.manager env.old.pickers.items env.new.pickers.items }
        ensures lent { (env.new.reinsertion ≡ env.old.reinsertion) × (env.new.io ≡ env.old.io) }
    {
        let Destroy::Begun = &self.destroy else {
            return Reply::NotNow(Step::DestroyClear);
        };
        if !are_idle(&self.flushers) {
            return Reply::NotNow(Step::DestroyClear);
        }
        if !self.manager.wait_reclaim() {
            return Reply::NotNow(Step::DestroyClear);
        }
        let Ok(left) = IdSet::full(&self.alloc, self.settings.blocks) else {
            return Reply::Refused(ErrorKind::Memory, Step::DestroyClear);
        };
        self.index.clear();
        self.manager.clear(&mut env.pickers);
        clear_all(&mut self.flushers);
        self.destroy = Destroy::Cleaning {
            left,
            first_fault: None,
        };
        Reply::Cleared
    }

    // A failed clean is reported too, and counts. The call doesn't allocate.
    pub(crate) fn destroy_cleaned(
        &mut self,
        block: BlockId,
        outcome: Result<()>,
    ) -> Reply<K, V, P, A>
        ensures back { HandsBack (step.DestroyCleaned block outcome) result self.old self.new }
        ensures nothing { DescribesNothing result }
        ensures meets { (m : Meaning K V P) → RefinesUncounted m (step.DestroyCleaned block outcome) result self.old self.new }
    {
        if !self.destroy.awaits(block) {
            return Reply::NotNow(Step::DestroyCleaned {
                block,
                result: outcome,
            });
        }
        self.manager.on_clean_finish(block);
        match self.destroy.note_clean(block, fault_kind(&outcome)) {
            None => Reply::Done,
            Some(first_fault) => {
                self.manager.end_cleaning();
                Reply::Destroyed(first_fault)
            }
        }
    }
}
