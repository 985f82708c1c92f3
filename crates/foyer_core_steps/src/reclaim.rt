//! The steps of a reclaim.
ghost use Rattle.std.specs.Prelude.{◌≡◌, ◌<◌, ◌%◌, ℕ, Some, Ok, IfSome, vec_len};
ghost use Rattle.foyer_core_steps.specs.Reclaiming.{awaited, reclaim_at, requeue_count};
ghost use Rattle.foyer_core_steps.specs.Scanning.{HasNoVerdicts, IsJudged, scan_reply};
ghost use Rattle.foyer_core_steps.specs.Answered.{HandsBack, DescribesNothing, Idling, IsPicked};
ghost use Rattle.foyer_core_steps.specs.Refines.{RefinesUncounted};
ghost use Rattle.foyer_core_steps.specs.declared.step.Step.TheVariants as step;
ghost use Rattle.foyer_core_flusher.specs.Content.{Meaning};
ghost use Rattle.foyer_core_steps.specs.Showing.{IsShown};

use crate::block::reclaimer;
use crate::block::reclaimer::{Lists, Reclaimer, Wanted};
use crate::env::Env;
use crate::reply::Reply;
use crate::state::Core;
use crate::step::Step;
use foyer_block_index::indexer::HashedEntryAddress;
use foyer_block_index::manager::BlockId;
use foyer_block_manager::block::eviction::EvictionPicker;
use foyer_block_manager::block::manager::ReclaimingBlock;
use foyer_core_flusher::core_blocks::manager::filling_of;
use foyer_core_flusher::flusher::{Reinsertion, Submission};
use foyer_device_page::error::{ErrorKind, Result};
use foyer_policy_filter::StorageFilterCondition;
use std::alloc::Allocator;

// The step that brings what a reclaim read.
fn reclaim_read<K, V, P, A: Allocator>(
    block: BlockId,
    outcome: Result<Vec<u8, A>>,
) -> Step<K, V, P, A>
    ensures { result ≡ step.ReclaimRead block outcome }
{
    Step::ReclaimRead {
        block,
        result: outcome,
    }
}

impl<K, V, P, A: Allocator + Clone> Core<K, V, P, A> {
    // Begins the reclaim of a block. The pickers of `env` choose the block, or the generator does.
    pub(crate) fn reclaim_begin<E: EvictionPicker, C: StorageFilterCondition>(
        &mut self,
        env: &mut Env<E, C>,
    ) -> Reply<K, V, P, A>
        ensures back { HandsBack step.ReclaimBegin result self.old self.new }
        ensures nothing { DescribesNothing result }
        ensures meets { (m : Meaning K V P) → RefinesUncounted m step.ReclaimBegin result self.old self.new }
        ensures picks { IsPicked E.answer E.marks env.old.pickers.items result self.old self.new }
        ensures shown { IsShown E.learns E.forgets step.ReclaimBegin result self.old self.new.manager env.old.pickers.items env.new.pickers.items }
        ensures lent { (env.new.reinsertion ≡ env.old.reinsertion) × (env.new.io ≡ env.old.io) }
    {
        if !self.manager.may_reclaim() {
            return Reply::NotNow(Step::ReclaimBegin);
        }
        if self.reclaims.reserve(1).is_err() {
            return Reply::Refused(ErrorKind::Memory, Step::ReclaimBegin);
        }
        let Ok(lists) = Lists::new(&self.alloc) else {
            return Reply::Refused(ErrorKind::Memory, Step::ReclaimBegin);
        };
        match self.manager.reclaim_begin(
            &self.alloc,
            &mut env.pickers,
            &mut env.own,
            &mut env.generator,
        ) {
            Err(_) => Reply::Refused(ErrorKind::Memory, Step::ReclaimBegin),
            Ok(None) => Reply::NotNow(Step::ReclaimBegin),
            Ok(Some(reclaiming)) => {
                let ReclaimingBlock {
                    block,
                    answers,
                    probation,
                } = reclaiming;
                let begun = Reclaimer::new(
                    lists,
                    block,
                    filling_of(&self.manager, block),
                    self.settings.block_size,
                    self.settings.blob_index_size,
                );
                reclaimer::begin(&mut self.reclaims, block, begun);
                Reply::Picked {
                    block,
                    answers,
                    probation,
                }
            }
        }
    }

    // What the reclaim of a block reads next.
    fn next_read(&self, block: BlockId, verdicts: Option<Vec<bool, A>>) -> Reply<K, V, P, A>
        ensures { result ≡ scan_reply block self.now.settings.blob_index_size (awaited (reclaim_at self.now.reclaims block)) verdicts }
    {
        match reclaimer::awaited(&self.reclaims, block) {
            Some(Wanted::Index(offset)) => Reply::Scan {
                block,
                offset,
                len: self.settings.blob_index_size,
                verdicts,
            },
            Some(Wanted::Record(entry)) => Reply::Scan {
                block,
                offset: entry.address.offset as usize,
                len: entry.address.len as usize,
                verdicts,
            },
            None => Reply::Listed { verdicts },
        }
    }

    // The flusher that reinserts next. Record n of a reclaim, counted from 0, goes to flusher n modulo the number of flushers.
    fn turn_of(&self, block: BlockId) -> usize
        ensures number { IfSome (reclaim_at self.now.reclaims block) (λ r. result ≡ requeue_count r % vec_len self.now.flushers) }
        ensures within { result < vec_len self.now.flushers }
    {
        reclaimer::requeue_count(&self.reclaims, block) % self.flushers.len()
    }

    // An index is listed, and the filter is asked of each of its entries.
    fn read_index<E: EvictionPicker, C: StorageFilterCondition>(
        &mut self,
        env: &Env<E, C>,
        block: BlockId,
        bytes: Vec<u8, A>,
    ) -> Reply<K, V, P, A>
        requires { (place : ℕ) × (awaited (reclaim_at self.old.reclaims block) ≡ Some (Wanted.Index place)) }
        ensures back { HandsBack (step.ReclaimRead block (Ok bytes)) result self.old self.new }
        ensures nothing { DescribesNothing result }
        ensures meets { (m : Meaning K V P) → RefinesUncounted m (step.ReclaimRead block (Ok bytes)) result self.old self.new }
        ensures judged { IsJudged C.may_answer env.now.reinsertion env.now.io block (Ok bytes) result self.old }
    {
        if bytes.len() != self.settings.blob_index_size {
            return Reply::NotNow(reclaim_read(block, Ok(bytes)));
        }
        match reclaimer::read(
            &mut self.reclaims,
            &self.alloc,
            block,
            &bytes,
            &env.reinsertion,
            &env.io,
        ) {
            Err(_) => Reply::Refused(ErrorKind::Memory, reclaim_read(block, Ok(bytes))),
            Ok(verdicts) => self.next_read(block, verdicts),
        }
    }

    // A record is queued for reinsertion.
    fn read_record(
        &mut self,
        block: BlockId,
        entry: HashedEntryAddress,
        bytes: Vec<u8, A>,
    ) -> Reply<K, V, P, A>
        requires { awaited (reclaim_at self.old.reclaims block) ≡ Some (Wanted.Record entry) }
        ensures back { HandsBack (step.ReclaimRead block (Ok bytes)) result self.old self.new }
        ensures nothing { DescribesNothing result }
        ensures meets { (m : Meaning K V P) → RefinesUncounted m (step.ReclaimRead block (Ok bytes)) result self.old self.new }
        ensures unjudged { HasNoVerdicts result }
    {
        if bytes.len() != entry.address.len as usize {
            return Reply::NotNow(reclaim_read(block, Ok(bytes)));
        }
        let flusher = self.turn_of(block);
        let queue = &mut self.flushers[flusher].queue;
        if queue.reserve(1).is_err() {
            return Reply::Refused(ErrorKind::Memory, reclaim_read(block, Ok(bytes)));
        }
        match reclaimer::requeue(&mut self.reclaims, block) {
            Err(_) => Reply::Refused(ErrorKind::Memory, reclaim_read(block, Ok(bytes))),
            Ok(()) => {
                queue.push_back_reserved(Submission::Reinsertion {
                    reinsertion: Reinsertion {
                        hash: entry.hash,
                        address: entry.address,
                        slice: bytes,
                    },
                });
                self.next_read(block, None)
            }
        }
    }

    // A fault, and bytes that are no index, end the listing.
    pub(crate) fn reclaim_read<E: EvictionPicker, C: StorageFilterCondition>(
        &mut self,
        env: &Env<E, C>,
        block: BlockId,
        outcome: Result<Vec<u8, A>>,
    ) -> Reply<K, V, P, A>
        ensures back { HandsBack (step.ReclaimRead block outcome) result self.old self.new }
        ensures nothing { DescribesNothing result }
        ensures meets { (m : Meaning K V P) → RefinesUncounted m (step.ReclaimRead block outcome) result self.old self.new }
        ensures judged { IsJudged C.may_answer env.now.reinsertion env.now.io block outcome result self.old }
    {
        let Some(wanted) = reclaimer::awaited(&self.reclaims, block) else {
            return Reply::NotNow(reclaim_read(block, outcome));
        };
        match outcome {
            Err(_) => {
                reclaimer::fail(&mut self.reclaims, block);
                Reply::Listed { verdicts: None }
            }
            Ok(bytes) => match wanted {
                Wanted::Index(_) => self.read_index(env, block, bytes),
                Wanted::Record(entry) => self.read_record(block, entry, bytes),
            },
        }
    }

    // Takes no memory.
    pub(crate) fn reclaim_forget(&mut self, block: BlockId) -> Reply<K, V, P, A>
        ensures back { HandsBack (step.ReclaimForget block) result self.old self.new }
        ensures nothing { DescribesNothing result }
        ensures meets { (m : Meaning K V P) → RefinesUncounted m (step.ReclaimForget block) result self.old self.new }
    {
        if !reclaimer::may_forget(&self.reclaims, block) {
            return Reply::NotNow(Step::ReclaimForget { block });
        }
        reclaimer::forget(&mut self.reclaims, &mut self.index, block);
        Reply::Clean(block)
    }

    // A clean that failed counts too.
    pub(crate) fn reclaim_cleaned(
        &mut self,
        block: BlockId,
        outcome: Result<()>,
    ) -> Reply<K, V, P, A>
        ensures back { HandsBack (step.ReclaimCleaned block outcome) result self.old self.new }
        ensures nothing { DescribesNothing result }
        ensures meets { (m : Meaning K V P) → RefinesUncounted m (step.ReclaimCleaned block outcome) result self.old self.new }
    {
        if !reclaimer::may_clean(&self.reclaims, block) {
            return Reply::NotNow(Step::ReclaimCleaned {
                block,
                result: outcome,
            });
        }
        if !self.manager.is_reclaimed(block) {
            return Reply::NotNow(Step::ReclaimCleaned {
                block,
                result: outcome,
            });
        }
        let _ = reclaimer::cleaned(&mut self.reclaims, &mut self.manager, block);
        Reply::Done
    }

    pub(crate) fn reclaim_idle(&self) -> Reply<K, V, P, A>
        ensures back { HandsBack step.ReclaimIdle result self.now self.now }
        ensures idle { Idling step.ReclaimIdle result self.now }
        ensures meets { (m : Meaning K V P) → RefinesUncounted m step.ReclaimIdle result self.now self.now }
    {
        Reply::Answer(self.manager.wait_reclaim())
    }
}
