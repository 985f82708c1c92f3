//! What a wait and a close flush, and the reclaims that they need.
ghost use Rattle.std.specs.Prelude.{◌≡◌, ◌≤◌, ℕ, true, IfErr, IfOk};
ghost use Rattle.foyer_core_laws.specs.Content.{meaning};
ghost use Rattle.foyer_core_run.specs.AtRest.{ComesToRest, IsAtRest, KeepsIdle, KeepsOthers, KeepsOthersIdle, Leads, LeavesAllIdle, LeavesIdle, TakesQueueIf, Without};
ghost use Rattle.foyer_core_run.specs.Causes.{DrivesForCause, HasCome};
ghost use Rattle.foyer_core_run.specs.Waiting.{AllSteps, Closes, DrivesBy, IsClosing, IsWaiting, Waits};
ghost use Rattle.foyer_storage_local.specs.Closing.{HasClosed};
ghost use Rattle.foyer_storage_local.specs.EntryCalls.{KeepsLies, LeadsForCause};
ghost use Rattle.foyer_storage_local.specs.StepAnswers.{is_wait_error};

use crate::engine::{LocalEngine, MarkLog};
use crate::replies::{answer_block, answer_step};
use foyer_block_manager::block::eviction::EvictionPicker;
use foyer_core_run::accesses::{step, write_block};
use foyer_core_run::batches::begin_batch;
use foyer_core_run::reclaims::reclaim_block;
use foyer_core_steps::step::Step;
use foyer_device_page::error::{Error, Result};
use foyer_format_record::serde::{Code, Properties};
use foyer_io_disk::disk::Disk;
use foyer_policy_filter::StorageFilterCondition;
use std::alloc::Allocator;

impl<K, V, P, H, A, D, L, E, C> LocalEngine<K, V, P, H, A, D, L, E, C>
where
    K: Code<A> + Drop,
    V: Code<A> + Drop,
    P: Properties + Drop,
    H: Drop,
    A: Allocator + Clone,
    D: Disk + Drop,
    L: MarkLog + Drop,
    E: EvictionPicker,
    C: StorageFilterCondition,
{
    /// Flushes until no flusher has anything left to do. Then it reclaims blocks until enough are clean, as far as that goes, and flushes
    /// the records that reclaims read back. The first reclaims of a call, as many as there are blocks, have records written again if `env`
    /// has a filter. The later ones free their blocks, so that the call ends. It puts, deletes and loads nothing, and closes nothing. A
    /// failed write or clean is no error: the records of the failed batch are given up. Errors: `Io` if a flusher's batch can't be ended,
    /// since a write of it was never reported; `NoSpace` if no block can be reclaimed; `SequenceEnd` if the limit of steps is reached, or
    /// 2^64 - 1 turns weren't enough; `Memory` if a reclaim or a flush is refused it. A write or a clean is reported as failed only if the
    /// disk failed an access, or its bytes may lie outside the disk.
    pub fn wait(&mut self) -> Result<()>
        ensures rest { IfOk result (λ _. ComesToRest
            (meaning K.encoding V.encoding K.is_encodable V.is_encodable K.is_decodable V.is_decodable P.age)
            self.old.core self.new.core) }
        ensures waited { D.is_known self.old.disk → D.is_known self.new.disk × Waits
            (meaning K.encoding V.encoding K.is_encodable V.is_encodable K.is_decodable V.is_decodable P.age)
            self.old.core self.new.core (D.byte_at self.old.disk) (D.byte_at self.new.disk) }
        ensures honest { D.is_known self.old.disk → DrivesForCause (HasCome D.surely_lies D.faults self.old.disk self.new.disk) (AllSteps IsWaiting)
            (meaning K.encoding V.encoding K.is_encodable V.is_encodable K.is_decodable V.is_decodable P.age)
            self.old.core self.new.core (D.byte_at self.old.disk) (D.byte_at self.new.disk) }
        ensures lent { (self.new.env.reinsertion ≡ self.old.env.reinsertion) × (self.new.env.io ≡ self.old.env.io) }
        ensures hasher { self.new.hasher ≡ self.old.hasher }
        ensures refused { IfErr result (λ e. is_wait_error e ≡ true) }
        ensures lies { (b o n : ℕ) → D.surely_lies self.old.disk b o n → D.surely_lies self.new.disk b o n }
        ensures counted { D.faults self.old.disk ≤ D.faults self.new.disk }
    {
        self.rereads = self.core.settings().blocks;
        for _ in 0..u64::MAX {
            self.settle()?;
            self.keep_clean();
            if self.is_at_rest() {
                return Ok(());
            }
        }
        Err(Error::SequenceEnd)
    }

    // Flushes until no flusher has anything left to do.
    pub(super) fn flush_queued(&mut self) -> Result<()>
        ensures leads { IfOk result (λ _. Leads
            (meaning K.encoding V.encoding K.is_encodable V.is_encodable K.is_decodable V.is_decodable P.age)
            LeavesAllIdle self.old.core self.new.core) }
        ensures waited { LeadsForCause D.is_known D.byte_at D.surely_lies D.faults (AllSteps IsWaiting)
            (meaning K.encoding V.encoding K.is_encodable V.is_encodable K.is_decodable V.is_decodable P.age)
            self.old.core self.old.disk self.new.core self.new.disk }
        ensures lent { (self.new.env.reinsertion ≡ self.old.env.reinsertion) × (self.new.env.io ≡ self.old.env.io) }
        ensures hasher { self.new.hasher ≡ self.old.hasher }
        ensures refused { IfErr result (λ e. is_wait_error e ≡ true) }
        ensures counts { KeepsLies D.surely_lies D.faults self.old.disk self.new.disk }
    {
        self.rereads = self.core.settings().blocks;
        self.settle()
    }

    /// Refuses puts, deletes and destroys from now on, and flushes what is queued, as a wait does. It reclaims a block only if a flusher
    /// needs one. Errors: those of `wait`. Its accesses fail for the same causes as those of a wait.
    pub fn close(&mut self) -> Result<()>
        ensures rest { IfOk result (λ _. ComesToRest
            (meaning K.encoding V.encoding K.is_encodable V.is_encodable K.is_decodable V.is_decodable P.age)
            self.old.core self.new.core) }
        ensures closed { D.is_known self.old.disk → D.is_known self.new.disk × Closes
            (meaning K.encoding V.encoding K.is_encodable V.is_encodable K.is_decodable V.is_decodable P.age)
            self.old.core self.new.core (D.byte_at self.old.disk) (D.byte_at self.new.disk) }
        ensures accepted { IfOk result (λ _. D.is_known self.old.disk → DrivesBy HasClosed
            (meaning K.encoding V.encoding K.is_encodable V.is_encodable K.is_decodable V.is_decodable P.age)
            self.old.core self.new.core (D.byte_at self.old.disk) (D.byte_at self.new.disk)) }
        ensures honest { D.is_known self.old.disk → DrivesForCause (HasCome D.surely_lies D.faults self.old.disk self.new.disk) IsClosing
            (meaning K.encoding V.encoding K.is_encodable V.is_encodable K.is_decodable V.is_decodable P.age)
            self.old.core self.new.core (D.byte_at self.old.disk) (D.byte_at self.new.disk) }
        ensures lent { (self.new.env.reinsertion ≡ self.old.env.reinsertion) × (self.new.env.io ≡ self.old.env.io) }
        ensures hasher { self.new.hasher ≡ self.old.hasher }
        ensures refused { IfErr result (λ e. is_wait_error e ≡ true) }
        ensures lies { (b o n : ℕ) → D.surely_lies self.old.disk b o n → D.surely_lies self.new.disk b o n }
        ensures counted { D.faults self.old.disk ≤ D.faults self.new.disk }
    {
        let closed = step(&mut self.core, &mut self.env, Step::Close);
        answer_step(closed)?;
        self.flush_queued()
    }

    // Whether no flusher has anything left to do.
    fn is_at_rest(&self) -> bool
        ensures { result ≡ true → IsAtRest
            (meaning K.encoding V.encoding K.is_encodable V.is_encodable K.is_decodable V.is_decodable P.age)
            self.now.core }
    {
        for flusher in 0..self.core.settings().flushers {
            if !self.core.is_idle(flusher) {
                return false;
            }
        }
        true
    }

    // Flushes all flushers, and does so again if a reclaim had a record queued at a flusher that was idle by then.
    fn settle(&mut self) -> Result<()>
        ensures leads { IfOk result (λ _. Leads
            (meaning K.encoding V.encoding K.is_encodable V.is_encodable K.is_decodable V.is_decodable P.age)
            LeavesAllIdle self.old.core self.new.core) }
        ensures waited { LeadsForCause D.is_known D.byte_at D.surely_lies D.faults (AllSteps IsWaiting)
            (meaning K.encoding V.encoding K.is_encodable V.is_encodable K.is_decodable V.is_decodable P.age)
            self.old.core self.old.disk self.new.core self.new.disk }
        ensures lent { (self.new.env.reinsertion ≡ self.old.env.reinsertion) × (self.new.env.io ≡ self.old.env.io) }
        ensures hasher { self.new.hasher ≡ self.old.hasher }
        ensures refused { IfErr result (λ e. is_wait_error e ≡ true) }
        ensures counts { KeepsLies D.surely_lies D.faults self.old.disk self.new.disk }
    {
        for _ in 0..u64::MAX {
            self.flush_all()?;
            if self.is_at_rest() {
                return Ok(());
            }
        }
        Err(Error::SequenceEnd)
    }

    // Flushes each flusher that isn't idle, one after the other.
    fn flush_all(&mut self) -> Result<()>
        ensures leads { IfOk result (λ _. Leads
            (meaning K.encoding V.encoding K.is_encodable V.is_encodable K.is_decodable V.is_decodable P.age)
            (Without self.old.env.reinsertion LeavesAllIdle) self.old.core self.new.core) }
        ensures waited { LeadsForCause D.is_known D.byte_at D.surely_lies D.faults (AllSteps IsWaiting)
            (meaning K.encoding V.encoding K.is_encodable V.is_encodable K.is_decodable V.is_decodable P.age)
            self.old.core self.old.disk self.new.core self.new.disk }
        ensures lent { self.new.env.reinsertion ≡ self.old.env.reinsertion }
        ensures io { self.new.env.io ≡ self.old.env.io }
        ensures hasher { self.new.hasher ≡ self.old.hasher }
        ensures refused { IfErr result (λ e. is_wait_error e ≡ true) }
        ensures counts { KeepsLies D.surely_lies D.faults self.old.disk self.new.disk }
    {
        for flusher in 0..self.core.settings().flushers {
            if self.core.is_idle(flusher) {
                continue;
            }
            self.flush(flusher)?;
        }
        Ok(())
    }

    // Queues a wait at a flusher.
    fn queue_wait(&mut self, flusher: u32) -> Result<()>
        ensures leads { Leads
            (meaning K.encoding V.encoding K.is_encodable V.is_encodable K.is_decodable V.is_decodable P.age)
            (KeepsOthers flusher) self.old.core self.new.core }
        ensures waited { LeadsForCause D.is_known D.byte_at D.surely_lies D.faults (AllSteps IsWaiting)
            (meaning K.encoding V.encoding K.is_encodable V.is_encodable K.is_decodable V.is_decodable P.age)
            self.old.core self.old.disk self.new.core self.new.disk }
        ensures lent { self.new.env.reinsertion ≡ self.old.env.reinsertion }
        ensures io { self.new.env.io ≡ self.old.env.io }
        ensures hasher { self.new.hasher ≡ self.old.hasher }
        ensures refused { IfErr result (λ e. is_wait_error e ≡ true) }
        ensures counts { KeepsLies D.surely_lies D.faults self.old.disk self.new.disk }
    {
        let id = self.next_wait;
        let queued = step(&mut self.core, &mut self.env, Step::Wait { flusher, id });
        answer_step(queued)?;
        self.next_wait = id.wrapping_add(1);
        Ok(())
    }

    // Queues a wait at a flusher, and flushes the flusher. With the wait a batch begins even if all that is queued goes without a record.
    fn flush(&mut self, flusher: u32) -> Result<()>
        ensures leads { IfOk result (λ _. Leads
            (meaning K.encoding V.encoding K.is_encodable V.is_encodable K.is_decodable V.is_decodable P.age)
            (LeavesIdle self.old.env.reinsertion flusher) self.old.core self.new.core) }
        ensures waited { LeadsForCause D.is_known D.byte_at D.surely_lies D.faults (AllSteps IsWaiting)
            (meaning K.encoding V.encoding K.is_encodable V.is_encodable K.is_decodable V.is_decodable P.age)
            self.old.core self.old.disk self.new.core self.new.disk }
        ensures lent { self.new.env.reinsertion ≡ self.old.env.reinsertion }
        ensures io { self.new.env.io ≡ self.old.env.io }
        ensures hasher { self.new.hasher ≡ self.old.hasher }
        ensures refused { IfErr result (λ e. is_wait_error e ≡ true) }
        ensures counts { KeepsLies D.surely_lies D.faults self.old.disk self.new.disk }
    {
        self.queue_wait(flusher)?;
        self.flush_waiting(flusher)
    }

    // Flushes until nothing is queued or received at a flusher at which a wait is queued. So a batch is under way in each turn except the
    // last. A burst is written in several batches, and each batch's marks are appended to the log. A batch that isn't ended in its turn has a
    // write that was never reported.
    fn flush_waiting(&mut self, flusher: u32) -> Result<()>
        ensures leads { IfOk result (λ _. Leads
            (meaning K.encoding V.encoding K.is_encodable V.is_encodable K.is_decodable V.is_decodable P.age)
            (LeavesIdle self.old.env.reinsertion flusher) self.old.core self.new.core) }
        ensures waited { LeadsForCause D.is_known D.byte_at D.surely_lies D.faults (AllSteps IsWaiting)
            (meaning K.encoding V.encoding K.is_encodable V.is_encodable K.is_decodable V.is_decodable P.age)
            self.old.core self.old.disk self.new.core self.new.disk }
        ensures lent { self.new.env.reinsertion ≡ self.old.env.reinsertion }
        ensures io { self.new.env.io ≡ self.old.env.io }
        ensures hasher { self.new.hasher ≡ self.old.hasher }
        ensures refused { IfErr result (λ e. is_wait_error e ≡ true) }
        ensures counts { KeepsLies D.surely_lies D.faults self.old.disk self.new.disk }
    {
        let mut has_ended = false;
        for _ in 0..u64::MAX {
            let is_empty = self.receive_all(flusher)?;
            let begin = begin_batch(&mut self.core, &mut self.env, &mut self.log, flusher);
            let has_begun = answer_step(begin)?;
            if has_ended && is_empty && !has_begun {
                return Ok(());
            }
            self.write_all(flusher)?;
            let end = step(&mut self.core, &mut self.env, Step::FlushEnd { flusher });
            if !answer_step(end)? {
                return Err(Error::Io);
            }
            has_ended = true;
        }
        Err(Error::SequenceEnd)
    }

    // Takes what is queued until less than half of the buffer is left. Gives true if it found the queue empty. It drops each piece that the
    // step returns: one that has no room in the buffer, doesn't fit a block, or can't be encoded.
    fn receive_all(&mut self, flusher: u32) -> Result<bool>
        ensures leads { IfOk result (λ is_empty. Leads
            (meaning K.encoding V.encoding K.is_encodable V.is_encodable K.is_decodable V.is_decodable P.age)
            (TakesQueueIf is_empty flusher) self.old.core self.new.core) }
        ensures waited { LeadsForCause D.is_known D.byte_at D.surely_lies D.faults (AllSteps IsWaiting)
            (meaning K.encoding V.encoding K.is_encodable V.is_encodable K.is_decodable V.is_decodable P.age)
            self.old.core self.old.disk self.new.core self.new.disk }
        ensures lent { self.new.env.reinsertion ≡ self.old.env.reinsertion }
        ensures io { self.new.env.io ≡ self.old.env.io }
        ensures hasher { self.new.hasher ≡ self.old.hasher }
        ensures refused { IfErr result (λ e. is_wait_error e ≡ true) }
        ensures counts { KeepsLies D.surely_lies D.faults self.old.disk self.new.disk }
    {
        for _ in 0..u64::MAX {
            let received = step(&mut self.core, &mut self.env, Step::Receive { flusher });
            if !answer_step(received)? {
                return Ok(true);
            }
            if self.core.wants_flush(flusher) {
                return Ok(false);
            }
        }
        Err(Error::SequenceEnd)
    }

    // Writes the blocks of the batch.
    fn write_all(&mut self, flusher: u32) -> Result<()>
        ensures leads { IfOk result (λ _. Leads
            (meaning K.encoding V.encoding K.is_encodable V.is_encodable K.is_decodable V.is_decodable P.age)
            (KeepsOthersIdle self.old.env.reinsertion flusher) self.old.core self.new.core) }
        ensures waited { LeadsForCause D.is_known D.byte_at D.surely_lies D.faults (AllSteps IsWaiting)
            (meaning K.encoding V.encoding K.is_encodable V.is_encodable K.is_decodable V.is_decodable P.age)
            self.old.core self.old.disk self.new.core self.new.disk }
        ensures lent { self.new.env.reinsertion ≡ self.old.env.reinsertion }
        ensures io { self.new.env.io ≡ self.old.env.io }
        ensures hasher { self.new.hasher ≡ self.old.hasher }
        ensures refused { IfErr result (λ e. is_wait_error e ≡ true) }
        ensures counts { KeepsLies D.surely_lies D.faults self.old.disk self.new.disk }
    {
        for _ in 0..u64::MAX {
            if !self.write_next(flusher)? {
                return Ok(());
            }
        }
        Err(Error::SequenceEnd)
    }

    // Writes the next block of the batch, or reclaims one for it if none is clean. Gives false if none is left to write.
    fn write_next(&mut self, flusher: u32) -> Result<bool>
        ensures leads { Leads
            (meaning K.encoding V.encoding K.is_encodable V.is_encodable K.is_decodable V.is_decodable P.age)
            (KeepsOthersIdle self.old.env.reinsertion flusher) self.old.core self.new.core }
        ensures waited { LeadsForCause D.is_known D.byte_at D.surely_lies D.faults (AllSteps IsWaiting)
            (meaning K.encoding V.encoding K.is_encodable V.is_encodable K.is_decodable V.is_decodable P.age)
            self.old.core self.old.disk self.new.core self.new.disk }
        ensures lent { self.new.env.reinsertion ≡ self.old.env.reinsertion }
        ensures io { self.new.env.io ≡ self.old.env.io }
        ensures hasher { self.new.hasher ≡ self.old.hasher }
        ensures refused { IfErr result (λ e. is_wait_error e ≡ true) }
        ensures counts { KeepsLies D.surely_lies D.faults self.old.disk self.new.disk }
    {
        let wrote = write_block(&mut self.core, &mut self.env, &mut self.disk, flusher);
        match answer_block(wrote) {
            Err(Error::NoSpace) => self.make_room(),
            other => other,
        }
    }

    // Reclaims a block for a flusher that waits. It is refused with `NoSpace` if no block may be reclaimed.
    fn make_room(&mut self) -> Result<bool>
        ensures leads { Leads
            (meaning K.encoding V.encoding K.is_encodable V.is_encodable K.is_decodable V.is_decodable P.age)
            (Without self.old.env.reinsertion KeepsIdle) self.old.core self.new.core }
        ensures waited { LeadsForCause D.is_known D.byte_at D.surely_lies D.faults (AllSteps IsWaiting)
            (meaning K.encoding V.encoding K.is_encodable V.is_encodable K.is_decodable V.is_decodable P.age)
            self.old.core self.old.disk self.new.core self.new.disk }
        ensures lent { self.new.env.reinsertion ≡ self.old.env.reinsertion }
        ensures io { self.new.env.io ≡ self.old.env.io }
        ensures hasher { self.new.hasher ≡ self.old.hasher }
        ensures refused { IfErr result (λ e. is_wait_error e ≡ true) }
        ensures counts { KeepsLies D.surely_lies D.faults self.old.disk self.new.disk }
    {
        match self.reclaim() {
            Ok(false) => Err(Error::NoSpace),
            other => other,
        }
    }

    // Reclaims a block if one may be reclaimed, and says whether it did. Records of the block are written again while the call has reclaims
    // left for that.
    fn reclaim(&mut self) -> Result<bool>
        ensures leads { Leads
            (meaning K.encoding V.encoding K.is_encodable V.is_encodable K.is_decodable V.is_decodable P.age)
            (Without self.old.env.reinsertion KeepsIdle) self.old.core self.new.core }
        ensures waited { LeadsForCause D.is_known D.byte_at D.surely_lies D.faults (AllSteps IsWaiting)
            (meaning K.encoding V.encoding K.is_encodable V.is_encodable K.is_decodable V.is_decodable P.age)
            self.old.core self.old.disk self.new.core self.new.disk }
        ensures lent { self.new.env.reinsertion ≡ self.old.env.reinsertion }
        ensures io { self.new.env.io ≡ self.old.env.io }
        ensures hasher { self.new.hasher ≡ self.old.hasher }
        ensures refused { IfErr result (λ e. is_wait_error e ≡ true) }
        ensures counts { KeepsLies D.surely_lies D.faults self.old.disk self.new.disk }
    {
        if self.rereads > 0 {
            self.rereads -= 1;
            return self.reclaim_block();
        }
        let filter = self.env.replace_reinsertion(None);
        let reclaimed = self.reclaim_block();
        let _ = self.env.replace_reinsertion(filter);
        reclaimed
    }

    fn reclaim_block(&mut self) -> Result<bool>
        ensures leads { Leads
            (meaning K.encoding V.encoding K.is_encodable V.is_encodable K.is_decodable V.is_decodable P.age)
            (Without self.old.env.reinsertion KeepsIdle) self.old.core self.new.core }
        ensures waited { LeadsForCause D.is_known D.byte_at D.surely_lies D.faults (AllSteps IsWaiting)
            (meaning K.encoding V.encoding K.is_encodable V.is_encodable K.is_decodable V.is_decodable P.age)
            self.old.core self.old.disk self.new.core self.new.disk }
        ensures lent { self.new.env.reinsertion ≡ self.old.env.reinsertion }
        ensures io { self.new.env.io ≡ self.old.env.io }
        ensures hasher { self.new.hasher ≡ self.old.hasher }
        ensures refused { IfErr result (λ e. is_wait_error e ≡ true) }
        ensures counts { KeepsLies D.surely_lies D.faults self.old.disk self.new.disk }
    {
        answer_step(reclaim_block(&mut self.core, &mut self.env, &mut self.disk))
    }

    // Reclaims blocks until enough are clean, or one is refused.
    fn keep_clean(&mut self)
        ensures waited { LeadsForCause D.is_known D.byte_at D.surely_lies D.faults (AllSteps IsWaiting)
            (meaning K.encoding V.encoding K.is_encodable V.is_encodable K.is_decodable V.is_decodable P.age)
            self.old.core self.old.disk self.new.core self.new.disk }
        ensures lent { (self.new.env.reinsertion ≡ self.old.env.reinsertion) × (self.new.env.io ≡ self.old.env.io) }
        ensures hasher { self.new.hasher ≡ self.old.hasher }
        ensures counts { KeepsLies D.surely_lies D.faults self.old.disk self.new.disk }
    {
        for _ in 0..u64::MAX {
            match self.reclaim() {
                Ok(true) => {}
                _ => return,
            }
        }
    }
}
