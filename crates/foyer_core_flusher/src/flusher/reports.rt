//! The reports of a batch's writes, and its end.
ghost use Rattle.std.specs.Prelude.{◌≡◌, ◌↔◌, ℕ, None, Some, IfSome, IsSomeAnd, IsTrue, true, false};
ghost use Rattle.foyer_core_model.specs.Flush.{released};
ghost use Rattle.foyer_core_model.specs.State as model_state;
ghost use Rattle.foyer_core_model.specs.State.{State};
ghost use Rattle.foyer_core_model.specs.Step as model_step;
ghost use Rattle.foyer_core_blocks.specs.Content.{Content, Meaning};
ghost use Rattle.foyer_core_blocks.specs.Sizes.{AreValid};
ghost use Rattle.foyer_core_blocks.specs.Settings.{Settings};
ghost use Rattle.foyer_block_manager.specs.BlockSets.{BlockSets, Stands, HasSameRules};
ghost use Rattle.foyer_block_manager.specs.Shown.{AreShownAll, written_of};

use super::Flusher;
use crate::batch::{Batch, Ended, Writing, Wrote};
use crate::committing::commit;
use crate::filled::keep_pages;
use crate::logged::invalidate_unless;
use foyer_block_index::indexer::Indexer;
use foyer_block_manager::block::eviction::EvictionPicker;
use foyer_block_manager::block::manager::BlockManager;
use foyer_core_blocks::manager::{filling_of, release};
use std::alloc::Allocator;

impl<K, V, P, A: Allocator + Clone> Flusher<K, V, P, A> {
    ghost use Rattle.foyer_core_flusher.specs.Failing.{MustGrowFor};
    ghost use Rattle.foyer_core_flusher.specs.FlushInTurn.{IsWriting, IsWritten};
    ghost use Rattle.foyer_core_flusher.specs.FlusherSteps.{StandsAt, FlusherStep, issued_wrote, HasEnded, failed_batch};
    ghost use Rattle.foyer_core_flusher.specs.Flushing.{IsFlusherAs};
    ghost use Rattle.foyer_core_flusher.specs.Leaving.{left_after};
    ghost use Rattle.foyer_core_flusher.specs.Seen.{seen};
    ghost use Rattle.foyer_core_flusher.specs.declared.batch.Wrote.TheVariants as wrote;

    /// Whether an issued write is to be reported.
    pub fn is_writing(&self) -> bool
        ensures { IsTrue result ↔ IsWriting self.now }
    {
        match &self.batch {
            Some(batch) => batch.writing.is_some(),
            None => false,
        }
    }

    /// Takes the result of the next issued write. After the block's last write the block's records enter the index. A batch fails after a fault,
    /// or if the index has to grow and can't. Then nothing of its rest is written, and its block isn't written again in this filling. The block
    /// is evictable then, and the pickers learn of it.
    pub fn wrote<E: EvictionPicker>(
        &mut self,
        is_done: bool,
        index: &mut Indexer<A>,
        manager: &mut BlockManager<A>,
        pickers: &mut [E],
    ) -> Wrote
        requires { IsWriting self.old }
        ensures same { HasSameRules manager.old manager.new }
        ensures done { (m : Meaning K V P) (s : Settings) (sound : AreValid s) (f : ℕ) (it : State Content)
            → StandsAt m s f it (seen self.old) index.old.slots manager.old
            → FlusherStep m s sound (model_step.FlushWrote f is_done) f it (issued_wrote result)
            (seen self.new) index.new.slots manager.new }
        ensures failed { is_done ≡ true → result ≡ wrote.Failed → MustGrowFor index.old self.old }
        ensures still { result ≡ wrote.Next → index.new ≡ index.old }
        ensures shown { AreShownAll E.learns (written_of manager.old.blocks (left_after result self.old.own)) pickers.old pickers.new }
    {
        let Some(batch) = &mut self.batch else {
            unreachable!()
        };
        let Some(writing) = batch.take_writing() else {
            unreachable!()
        };
        if !is_done {
            return self.fail(manager, pickers);
        }
        let Writing {
            block,
            left,
            records,
            sources,
        } = writing;
        if left > 1 {
            batch.put_writing(Writing {
                block,
                left: left - 1,
                records,
                sources,
            });
            return Wrote::Next;
        }
        match commit(records, &sources, block, filling_of(manager, block), index) {
            Some(count) => Wrote::Committed(count),
            None => self.fail(manager, pickers),
        }
    }

    // Nothing of the batch's rest is written, the block isn't written again in this filling, and the splitter is fresh.
    fn fail<E: EvictionPicker>(&mut self, manager: &mut BlockManager<A>, pickers: &mut [E]) -> Wrote
        requires { IsSomeAnd self.old.batch (λ batch. batch.writing ≡ None) }
        ensures failed { result ≡ wrote.Failed }
        ensures shown { AreShownAll E.learns (written_of manager.old.blocks self.old.own) pickers.old pickers.new }
        ensures left { (m : Meaning K V P) (s : Settings) (sound : AreValid s) (it : model_state.Flusher Content)
            (batch : model_state.Batch Content)
            → IsFlusherAs m s (seen self.old) it → it.batch ≡ Some batch
            → IsFlusherAs m s (seen self.new) (failed_batch m s sound it batch) }
        ensures same { HasSameRules manager.old manager.new }
        ensures released { (s : BlockSets) (f : ℕ) → Stands manager.old s
            → ((b : ℕ) → self.old.own ≡ Some b → s.block_set b ≡ model_state.Writes f)
            → Stands manager.new (record s { block_set = released self.old.own s.block_set }) }
    {
        let Some(batch) = &mut self.batch else {
            unreachable!()
        };
        batch.drop_rest();
        release(&mut self.own, manager, pickers);
        self.context.reset(); // nothing goes on in that block
        Wrote::Failed
    }

    /// Whether the batch has nothing left to write, and the log of deletes has answered if there is one.
    pub fn is_written(&self, has_log: bool) -> bool
        ensures { IsTrue result ↔ IsWritten has_log self.now }
    {
        match &self.batch {
            Some(batch) => {
                batch.writing.is_none()
                    && batch.blocks.is_empty()
                    && (!has_log || batch.logged.is_some())
            }
            None => false,
        }
    }

    /// Ends the batch, which must have nothing left to write, and gives its pieces and waits. Its marks leave the index. What they made
    /// invalid counts, unless the log of deletes failed. Its pages are kept, to be filled again, unless somebody still has a part of them.
    /// It doesn't allocate.
    pub fn end(
        &mut self,
        index: &mut Indexer<A>,
        manager: &mut BlockManager<A>,
    ) -> Ended<K, V, P, A>
        requires { IsWritten false self.old }
        ensures ended { self.new.batch ≡ None }
        ensures pieces { IfSome self.old.batch (λ batch. (result.pieces ≡ batch.pieces) × (result.waits ≡ batch.waits)) }
        ensures same { HasSameRules manager.old manager.new }
        ensures done { (m : Meaning K V P) (s : Settings) (sound : AreValid s) (f : ℕ) (it : State Content)
            → StandsAt m s f it (seen self.old) index.old.slots manager.old
            → HasEnded m s sound f it result.pieces.items result.waits.items
            (seen self.new) index.new.slots manager.new }
    {
        let Some(batch) = self.batch.take() else {
            unreachable!()
        };
        let Batch {
            blocks: _,
            pages,
            sources: _,
            continues_own_block: _,
            writing: _,
            marks,
            invalid,
            pieces,
            waits,
            logged,
        } = batch;
        index.remove_marks(marks.as_slice());
        invalidate_unless(logged, manager, invalid.as_slice());
        keep_pages(&mut self.spare, pages);
        Ended { pieces, waits }
    }
}
