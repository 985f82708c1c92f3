//! The destroy of all entries.
ghost use Rattle.std.specs.Prelude.{◌≡◌, ◌⊎◌, ◌≤◌, ℕ, true, Ok, IfErr, IfOk, IfSome, OnErr, OnOk};
ghost use Rattle.foyer_core_model.specs.Numbers.{page};
ghost use Rattle.foyer_core_laws.specs.Content.{meaning};
ghost use Rattle.foyer_core_run.specs.Causes.{DrivesForCause, HasCome};
ghost use Rattle.foyer_core_run.specs.Destroys.{Cleans, Destroys, DestroysForCause, HasDestroyed, IsClearing, IsDestroying, IsUncleared};
ghost use Rattle.foyer_core_run.specs.AccessReclaims.{IsCleaned};
ghost use Rattle.foyer_core_run.specs.Waiting.{AllSteps, DrivesBy, IsWaiting};
ghost use Rattle.foyer_io_disk.specs.Disk.{IsTorn};
ghost use Rattle.foyer_storage_local.specs.EntryCalls.{IsCleanFault, IsRefusedIfClosed, KeepsLies, LeadsForCause};
ghost use Rattle.foyer_storage_local.specs.StepAnswers.{first_of, is_destroy_error, is_wait_error};

use crate::engine::{LocalEngine, MarkLog};
use crate::replies::{answer_begun, answer_cleaned, answer_kept};
use foyer_block_index::manager::BlockId;
use foyer_block_manager::block::eviction::EvictionPicker;
use foyer_core_run::accesses::step;
use foyer_core_steps::reply::Reply;
use foyer_core_steps::step::Step;
use foyer_device_page::error::{Error, ErrorKind, Result};
use foyer_format_record::block::buffer::PAGE;
use foyer_format_record::serde::{Code, Properties};
use foyer_io_disk::disk::Disk;
use foyer_policy_filter::StorageFilterCondition;
use std::alloc::Allocator;

// Cleans a block: its first page becomes zeros. A clean that fails changes nothing but bytes of that page, and is answered by
// the disk's own error.
fn clean_page<D: Disk>(disk: &mut D, block: BlockId) -> Result<()>
    ensures cleaned { D.is_known disk.old → OnOk result (IsCleaned (D.byte_at disk.old) block (D.byte_at disk.new)) }
    ensures torn { D.is_known disk.old → OnErr result (IsTorn (D.byte_at disk.old) block 0 page (D.byte_at disk.new)) }
    ensures fails { OnErr result (HasCome D.surely_lies D.faults disk.old disk.new block 0 page → ⊥) }
    ensures fault { IfErr result (D.may_answer disk.old block 0 page) }
    ensures known { D.is_known disk.old → D.is_known disk.new }
    ensures counts { KeepsLies D.surely_lies D.faults disk.old disk.new }
{
    let zeros = [0u8; PAGE];
    disk.write(block, 0, &zeros)
}

// The error of the first clean that failed.
fn first_of(before: Option<Error>, outcome: &Result<()>) -> Option<Error>
    ensures { result ≡ first_of before outcome.now }
{
    match before {
        Some(error) => Some(error),
        None => match outcome {
            Ok(()) => None,
            Err(error) => Some(*error),
        },
    }
}

impl<K, V, P, H, A, D, L, E, C> LocalEngine<K, V, P, H, A, D, L, E, C>
where
    K: Code<A> + Drop,
    V: Code<A> + Drop,
    P: Properties + Drop,
    H: Drop,
    A: Allocator + Clone,
    D: Disk + Drop,
    L: MarkLog + Drop,
    E: EvictionPicker,
    C: StorageFilterCondition,
{
    /// Destroys all entries: it flushes as a wait does, clears the index, and cleans each block, so that an opening finds nothing of them
    /// again. If a destroy has begun and isn't over, the call continues it. Errors: `Closed` after a close; `SequenceEnd` and `Memory` if
    /// the destroy can't begin. Once it has begun, the call tries again what is refused memory. `Io`, `NoSpace` and `SequenceEnd` have the
    /// same causes as in a wait. If a clean failed, the error is the disk's own error of the first clean that failed. The later cleans were
    /// done all the same. The accesses fail for the same causes as those of a wait.
    pub fn destroy(&mut self) -> Result<()>
        ensures destroyed { D.is_known self.old.disk → D.is_known self.new.disk × Destroys (result ≡ Ok tt)
            (meaning K.encoding V.encoding K.is_encodable V.is_encodable K.is_decodable V.is_decodable P.age)
            self.old.core self.new.core (D.byte_at self.old.disk) (D.byte_at self.new.disk) }
        ensures honest { D.is_known self.old.disk → DestroysForCause (HasCome D.surely_lies D.faults self.old.disk self.new.disk) (result ≡ Ok tt)
            (meaning K.encoding V.encoding K.is_encodable V.is_encodable K.is_decodable V.is_decodable P.age)
            self.old.core self.new.core (D.byte_at self.old.disk) (D.byte_at self.new.disk) }
        ensures lent { (self.new.env.reinsertion ≡ self.old.env.reinsertion) × (self.new.env.io ≡ self.old.env.io) }
        ensures hasher { self.new.hasher ≡ self.old.hasher }
        ensures closed { IsRefusedIfClosed
            (meaning K.encoding V.encoding K.is_encodable V.is_encodable K.is_decodable V.is_decodable P.age)
            self.old.core result }
        ensures refused { IfErr result (λ e. (is_destroy_error e ≡ true)
            ⊎ IsCleanFault D.surely_lies D.faults D.may_answer self.old.disk e) }
        ensures lies { (b o n : ℕ) → D.surely_lies self.old.disk b o n → D.surely_lies self.new.disk b o n }
        ensures counted { D.faults self.old.disk ≤ D.faults self.new.disk }
    {
        let begun = step(&mut self.core, &mut self.env, Step::DestroyBegin);
        answer_begun(begun)?;
        self.flush_until_done()?;
        self.clear()
    }

    // Flushes what is queued, and does so again if memory is refused.
    fn flush_until_done(&mut self) -> Result<()>
        ensures waited { LeadsForCause D.is_known D.byte_at D.surely_lies D.faults (AllSteps IsWaiting)
            (meaning K.encoding V.encoding K.is_encodable V.is_encodable K.is_decodable V.is_decodable P.age)
            self.old.core self.old.disk self.new.core self.new.disk }
        ensures lent { (self.new.env.reinsertion ≡ self.old.env.reinsertion) × (self.new.env.io ≡ self.old.env.io) }
        ensures hasher { self.new.hasher ≡ self.old.hasher }
        ensures refused { IfErr result (λ e. is_wait_error e ≡ true) }
        ensures counts { KeepsLies D.surely_lies D.faults self.old.disk self.new.disk }
    {
        for _ in 0..u64::MAX {
            match self.flush_queued() {
                Err(Error::Memory) => {}
                answer => return answer,
            }
        }
        Err(Error::Memory)
    }

    // Cleans a block, and reports the outcome. Gives the reply, and the error of the first clean that failed.
    fn clean(&mut self, block: BlockId, first: Option<Error>) -> (Reply<K, V, P, A>, Option<Error>)
        ensures cleans { D.is_known self.old.disk → Cleans
            (meaning K.encoding V.encoding K.is_encodable V.is_encodable K.is_decodable V.is_decodable P.age)
            (HasCome D.surely_lies D.faults self.old.disk self.new.disk) block result.0 self.old.core self.new.core (D.byte_at self.old.disk) (D.byte_at self.new.disk) }
        ensures known { D.is_known self.old.disk → D.is_known self.new.disk }
        ensures fault { IfSome result.1 (λ e. (first ≡ Some e) ⊎ D.may_answer self.old.disk block 0 page e) }
        ensures lent { (self.new.env.reinsertion ≡ self.old.env.reinsertion) × (self.new.env.io ≡ self.old.env.io) }
        ensures hasher { self.new.hasher ≡ self.old.hasher }
        ensures counts { KeepsLies D.surely_lies D.faults self.old.disk self.new.disk }
    {
        let outcome = clean_page(&mut self.disk, block);
        let first = first_of(first, &outcome);
        let cleaned = Step::DestroyCleaned {
            block,
            result: outcome,
        };
        (self.core.apply(&mut self.env, cleaned), first)
    }

    // Clears the index, then cleans each block. Gives what was answered last, and the error of the first clean that failed. If the index
    // wasn't cleared, gives `Err` with the step that was out of turn or refused.
    fn clear_blocks(
        &mut self,
    ) -> std::result::Result<(Reply<K, V, P, A>, Option<Error>), Reply<K, V, P, A>>
        ensures clears { D.is_known self.old.disk → IfOk result (λ last. DrivesForCause (HasCome D.surely_lies D.faults self.old.disk self.new.disk) (IsClearing
            (meaning K.encoding V.encoding K.is_encodable V.is_encodable K.is_decodable V.is_decodable P.age)
            self.old.core.settings.blocks last.0)
            (meaning K.encoding V.encoding K.is_encodable V.is_encodable K.is_decodable V.is_decodable P.age)
            self.old.core self.new.core (D.byte_at self.old.disk) (D.byte_at self.new.disk)) }
        ensures kept { IfErr result (λ back. DrivesBy (IsUncleared
            (meaning K.encoding V.encoding K.is_encodable V.is_encodable K.is_decodable V.is_decodable P.age) back)
            (meaning K.encoding V.encoding K.is_encodable V.is_encodable K.is_decodable V.is_decodable P.age)
            self.old.core self.new.core (D.byte_at self.old.disk) (D.byte_at self.new.disk)) }
        ensures known { D.is_known self.old.disk → D.is_known self.new.disk }
        ensures fault { IfOk result (λ last. IfSome last.1 (IsCleanFault D.surely_lies D.faults D.may_answer self.old.disk)) }
        ensures lent { (self.new.env.reinsertion ≡ self.old.env.reinsertion) × (self.new.env.io ≡ self.old.env.io) }
        ensures hasher { self.new.hasher ≡ self.old.hasher }
        ensures counts { KeepsLies D.surely_lies D.faults self.old.disk self.new.disk }
    {
        let blocks = self.core.settings().blocks;
        match self.core.apply(&mut self.env, Step::DestroyClear) {
            Reply::Cleared => {}
            other => return Err(other),
        }
        let mut last = Reply::Cleared;
        let mut first = None;
        'each_block: for block in 0..blocks {
            let (reply, fault) = self.clean(block, first);
            last = reply;
            first = fault;
        }
        Ok((last, first))
    }

    // Clears the index and cleans the blocks, and does so again if memory is refused for it.
    fn clear(&mut self) -> Result<()>
        ensures destroyed { LeadsForCause D.is_known D.byte_at D.surely_lies D.faults (λ events. AllSteps IsDestroying events × (result ≡ Ok tt → HasDestroyed events))
            (meaning K.encoding V.encoding K.is_encodable V.is_encodable K.is_decodable V.is_decodable P.age)
            self.old.core self.old.disk self.new.core self.new.disk }
        ensures lent { (self.new.env.reinsertion ≡ self.old.env.reinsertion) × (self.new.env.io ≡ self.old.env.io) }
        ensures hasher { self.new.hasher ≡ self.old.hasher }
        ensures refused { IfErr result (λ e. (is_wait_error e ≡ true)
            ⊎ IsCleanFault D.surely_lies D.faults D.may_answer self.old.disk e) }
        ensures counts { KeepsLies D.surely_lies D.faults self.old.disk self.new.disk }
    {
        for _ in 0..u64::MAX {
            match self.clear_blocks() {
                Err(Reply::Refused(ErrorKind::Memory, _)) => {}
                Err(back) => return answer_kept(back),
                Ok((last, first)) => return answer_cleaned(last, first),
            }
        }
        Err(Error::Memory)
    }
}
