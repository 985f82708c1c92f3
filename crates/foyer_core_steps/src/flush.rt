//! The steps of a flush.
ghost use Rattle.std.specs.Prelude.{◌≡◌, ◌*◌, ◌<◌, ◌≤◌, ◌↔◌, IsTrue, Option, false, true, length, slice_index_or};
ghost use Rattle.foyer_format_buffer.specs.Entries.{left_of};
ghost use Rattle.foyer_core_flusher.specs.Seen.{is_still};
ghost use Rattle.foyer_core_flusher.specs.declared.flusher.Flusher.{Flusher};
ghost use Rattle.foyer_format_record.specs.declared.serde.ages.Age.{Age as age};
ghost use Rattle.foyer_core_steps.specs.Answered.{HandsBack, DescribesNothing, MayFail};
ghost use Rattle.foyer_core_flusher.specs.Content.{Meaning, meaning};
ghost use Rattle.foyer_core_steps.specs.Refines.{RefinesUncounted};
ghost use Rattle.foyer_core_steps.specs.declared.reply.Reply.TheVariants as reply;
ghost use Rattle.foyer_core_steps.specs.declared.step.Step.TheVariants as step;
ghost use Rattle.foyer_core_steps.specs.Showing.{IsShown};

use crate::env::Env;
use crate::reply::Reply;
use crate::state::Core;
use crate::step::Step;
use foyer_block_manager::block::eviction::EvictionPicker;
use foyer_core_flusher::batch::{Ended, Next, Wrote};
use foyer_core_flusher::receive::Taken;
use foyer_device_page::error::{ErrorKind, Result};
use foyer_format_record::serde::Code;
use foyer_policy_filter::StorageFilterCondition;
use std::alloc::Allocator;

impl<K, V, P, A: Allocator> Core<K, V, P, A> {
    /// Whether less than half of a flusher's buffer is left. Whoever drives the core begins a flush then. So no piece whose record takes at
    /// most half of a buffer is returned for want of room in the buffer. A flusher that isn't there wants none.
    pub fn wants_flush(&self, flusher: u32) -> bool
        ensures there { (found : Flusher K V P A) → flusher < length self.now.flushers.items
            → found ≡ slice_index_or self.now.flushers.items flusher found
            → IsTrue result ↔ (2 * left_of found.filled < found.filled.room) }
        ensures beyond { length self.now.flushers.items ≤ flusher → result ≡ false }
    {
        if flusher as usize >= self.flushers.len() {
            return false;
        }
        self.flushers[flusher as usize].wants_flush()
    }

    /// Gives how many records a flusher received since the batch before, and how many bytes of its buffer are left. A record takes whole
    /// pages of it. Gives `(0, 0)` for a flusher that isn't there.
    pub fn received(&self, flusher: u32) -> (usize, usize)
        ensures there { (found : Flusher K V P A) → flusher < length self.now.flushers.items
            → found ≡ slice_index_or self.now.flushers.items flusher found
            → result ≡ (length found.sources.items, left_of found.filled) }
        ensures beyond { length self.now.flushers.items ≤ flusher → result ≡ (0, 0) }
    {
        if flusher as usize >= self.flushers.len() {
            return (0, 0);
        }
        let found = &self.flushers[flusher as usize];
        (found.sources.len(), found.filled.left())
    }

    /// Whether nothing is queued, received or in a batch at a flusher. True for a flusher that isn't there.
    pub fn is_idle(&self, flusher: u32) -> bool
        ensures there { (found : Flusher K V P A) → flusher < length self.now.flushers.items
            → found ≡ slice_index_or self.now.flushers.items flusher found → result ≡ is_still found }
        ensures beyond { length self.now.flushers.items ≤ flusher → result ≡ true }
    {
        if flusher as usize >= self.flushers.len() {
            return true;
        }
        self.flushers[flusher as usize].is_idle()
    }
}

impl<K, V, P, A: Allocator + Clone> Core<K, V, P, A> {
    pub(crate) fn receive(&mut self, flusher: u32) -> Reply<K, V, P, A>
    where
        K: Code<A>,
        V: Code<A>,
        ensures back { HandsBack (step.Receive flusher) result self.old self.new }
        ensures nothing { DescribesNothing result }
        ensures meets { (age_of : P → Option age)
            → RefinesUncounted (meaning K.encoding V.encoding K.is_encodable V.is_encodable K.is_decodable V.is_decodable age_of)
            (step.Receive flusher) result self.old self.new }
    {
        if flusher as usize >= self.flushers.len() {
            return Reply::NotNow(Step::Receive { flusher });
        }
        let found = &mut self.flushers[flusher as usize];
        match found.receive(&self.alloc, &mut self.index) {
            Err(_) => Reply::Refused(ErrorKind::Memory, Step::Receive { flusher }),
            Ok(Taken::Nothing) => Reply::Empty,
            Ok(Taken::Other) => Reply::Received(None),
            Ok(Taken::Piece(size, back)) => {
                self.queued = self.queued.saturating_sub(size as u128);
                Reply::Received(back)
            }
        }
    }

    pub(crate) fn flush_begin(&mut self, flusher: u32) -> Reply<K, V, P, A>
        ensures back { HandsBack (step.FlushBegin flusher) result self.old self.new }
        ensures nothing { DescribesNothing result }
        ensures meets { (m : Meaning K V P) → RefinesUncounted m (step.FlushBegin flusher) result self.old self.new }
    {
        if flusher as usize >= self.flushers.len() {
            return Reply::NotNow(Step::FlushBegin { flusher });
        }
        let found = &mut self.flushers[flusher as usize];
        if !found.may_begin() {
            return Reply::NotNow(Step::FlushBegin { flusher });
        }
        match found.begin(&self.alloc) {
            Ok(marks) => Reply::Began {
                blocks: found.block_count(),
                marks,
            },
            Err(_) => Reply::Refused(ErrorKind::Memory, Step::FlushBegin { flusher }),
        }
    }

    pub(crate) fn flush_block<E: EvictionPicker, C: StorageFilterCondition>(
        &mut self,
        env: &mut Env<E, C>,
        flusher: u32,
    ) -> Reply<K, V, P, A>
        ensures back { HandsBack (step.FlushBlock flusher) result self.old self.new }
        ensures nothing { DescribesNothing result }
        ensures meets { (m : Meaning K V P) → RefinesUncounted m (step.FlushBlock flusher) result self.old self.new }
        ensures still { self.new.index ≡ self.old.index }
        ensures shown { IsShown E.learns E.forgets (step.FlushBlock flusher) result self.old self.new.manager env.old.pickers.items env.new.pickers.items }
        ensures lent { (env.new.reinsertion ≡ env.old.reinsertion) × (env.new.io ≡ env.old.io) }
    {
        if flusher as usize >= self.flushers.len() {
            return Reply::NotNow(Step::FlushBlock { flusher });
        }
        let found = &mut self.flushers[flusher as usize];
        if !found.has_block() {
            return Reply::NotNow(Step::FlushBlock { flusher });
        }
        match found.next(&self.alloc, flusher, &mut self.manager, &mut env.pickers) {
            Err(_) => Reply::Refused(ErrorKind::Memory, Step::FlushBlock { flusher }),
            Ok(Next::NoBlock) => Reply::NoBlock,
            Ok(Next::Block(block, writes)) => Reply::Write { block, writes },
        }
    }

    pub(crate) fn flush_wrote<E: EvictionPicker, C: StorageFilterCondition>(
        &mut self,
        env: &mut Env<E, C>,
        flusher: u32,
        outcome: Result<()>,
    ) -> Reply<K, V, P, A>
        ensures back { HandsBack (step.FlushWrote flusher outcome) result self.old self.new }
        ensures nothing { DescribesNothing result }
        ensures meets { (m : Meaning K V P) → RefinesUncounted m (step.FlushWrote flusher outcome) result self.old self.new }
        ensures shown { IsShown E.learns E.forgets (step.FlushWrote flusher outcome) result self.old self.new.manager env.old.pickers.items env.new.pickers.items }
        ensures lent { (env.new.reinsertion ≡ env.old.reinsertion) × (env.new.io ≡ env.old.io) }
        ensures failed { result ≡ reply.Failed → MayFail (step.FlushWrote flusher outcome) self.old }
        ensures still { result ≡ reply.Next → self.new.index ≡ self.old.index }
    {
        if flusher as usize >= self.flushers.len() {
            return Reply::NotNow(Step::FlushWrote {
                flusher,
                result: outcome,
            });
        }
        let found = &mut self.flushers[flusher as usize];
        if !found.is_writing() {
            return Reply::NotNow(Step::FlushWrote {
                flusher,
                result: outcome,
            });
        }
        match found.wrote(
            outcome.is_ok(),
            &mut self.index,
            &mut self.manager,
            &mut env.pickers,
        ) {
            Wrote::Next => Reply::Next,
            Wrote::Committed(count) => Reply::Committed(count),
            Wrote::Failed => Reply::Failed,
        }
    }

    pub(crate) fn log_wrote(&mut self, flusher: u32, outcome: Result<()>) -> Reply<K, V, P, A>
        ensures back { HandsBack (step.LogWrote flusher outcome) result self.old self.new }
        ensures nothing { DescribesNothing result }
        ensures meets { (m : Meaning K V P) → RefinesUncounted m (step.LogWrote flusher outcome) result self.old self.new }
    {
        if flusher as usize >= self.flushers.len() || !self.settings.tombstone_log {
            return Reply::NotNow(Step::LogWrote {
                flusher,
                result: outcome,
            });
        }
        let found = &mut self.flushers[flusher as usize];
        if !found.is_unlogged() {
            return Reply::NotNow(Step::LogWrote {
                flusher,
                result: outcome,
            });
        }
        found.log(outcome.is_ok());
        Reply::Done
    }

    // Takes no memory: the lists that are handed out were made by the steps before.
    pub(crate) fn flush_end(&mut self, flusher: u32) -> Reply<K, V, P, A>
        ensures back { HandsBack (step.FlushEnd flusher) result self.old self.new }
        ensures nothing { DescribesNothing result }
        ensures meets { (m : Meaning K V P) → RefinesUncounted m (step.FlushEnd flusher) result self.old self.new }
    {
        if flusher as usize >= self.flushers.len() {
            return Reply::NotNow(Step::FlushEnd { flusher });
        }
        let found = &mut self.flushers[flusher as usize];
        if !found.is_written(self.settings.tombstone_log) {
            return Reply::NotNow(Step::FlushEnd { flusher });
        }
        let Ended { pieces, waits } = found.end(&mut self.index, &mut self.manager);
        Reply::Ended { pieces, waits }
    }
}
