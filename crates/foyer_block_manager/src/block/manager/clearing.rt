//! What a destroy does to the sets.
ghost use Rattle.std.specs.Prelude.{◌≡◌, ◌<◌, ◌^◌, ℕ, Bool, Option, None, length, map, slice_get, false};
ghost use Rattle.std.specs.VecDeque.{deque_capacity};
ghost use Rattle.foyer_core_model.specs.Flush.{usable_count};
ghost use Rattle.foyer_core_model.specs.Numbers.{plus};
ghost use Rattle.foyer_block_manager.specs.Clearing.{with_next_filling};
ghost use Rattle.foyer_block_manager.specs.Managed.{filling_in};

use crate::block::eviction::EvictionPicker;
use crate::block::manager::{BlockId, BlockManager, BlockState, filling_of, one_more};
use std::alloc::Allocator;
use std::collections::VecDeque;

// A count of fillings stays at its end.
fn next_filling(filling: u64) -> u64
    ensures { result ≡ plus filling 1 }
{
    if filling < u64::MAX {
        filling + 1
    } else {
        filling
    }
}

fn refill<A: Allocator>(blocks: &mut Vec<BlockState, A>)
    ensures { blocks.new.items ≡ map with_next_filling blocks.old.items }
{
    'each_block: for state in blocks.iter_mut() {
        state.filling = next_filling(state.filling);
    }
}

// How many of the clean blocks may still be handed out.
fn usable_of<A: Allocator>(clean: &VecDeque<BlockId, A>, blocks: &Vec<BlockState, A>) -> usize
    requires { length clean.now.items < 2 ^ 32 }
    ensures { result ≡ usable_count (filling_in blocks.now.items) clean.now.items }
{
    let mut usable = 0;
    'each_index: for index in 0..clean.len() {
        usable = one_more(usable, filling_of(blocks, clean[index]));
    }
    usable
}

// No flusher has a block that it was given while it waited.
fn forget<A: Allocator>(ready: &mut Vec<Option<BlockId>, A>)
    ensures { ready.new.items ≡ map (λ _. None) ready.old.items }
{
    'each_flusher: for given in ready.iter_mut() {
        *given = None;
    }
}

impl<A: Allocator> BlockManager<A> {
    ghost use Rattle.foyer_core_model.specs.Destroy.{vacated};
    ghost use Rattle.foyer_core_model.specs.Numbers.{put};
    ghost use Rattle.foyer_block_manager.specs.BlockSets.{BlockSets, Stands, HasSameRules};
    ghost use Rattle.foyer_block_manager.specs.Clearing.{cleared};
    ghost use Rattle.foyer_block_manager.specs.Shown.{AreShownAll, written_at, written_below};

    // A block is taken from its flusher, if one has it.
    fn vacate<P: EvictionPicker>(&mut self, pickers: &mut [P], block: BlockId)
        requires { block < length self.old.blocks }
        ensures same { HasSameRules self.old self.new }
        ensures vacated { (s : BlockSets) → Stands self.old s
            → Stands self.new (record s { block_set = put s.block_set block (vacated (s.block_set block)) }) }
        ensures others { (q : ℕ) → (q ≡ block → ⊥) → slice_get self.new.blocks q ≡ slice_get self.old.blocks q }
        ensures shown { AreShownAll P.learns (written_at self.old.blocks block) pickers.old pickers.new }
    {
        if !self.is_written(block) {
            return;
        }
        self.on_writing_finish(pickers, block);
    }

    fn vacate_all<P: EvictionPicker>(&mut self, pickers: &mut [P])
        ensures same { HasSameRules self.old self.new }
        ensures vacated { (s : BlockSets) → Stands self.old s → Stands self.new (record s { block_set = λ b. vacated (s.block_set b) }) }
        ensures shown { AreShownAll P.learns (written_below self.old.blocks (length self.old.blocks)) pickers.old pickers.new }
    {
        let count = self.blocks();
        'each_block: for index in 0..count {
            self.vacate(pickers, index as u32);
        }
    }

    /// Begins the cleaning of a destroy. Takes all blocks from their flushers, and begins a new filling of every block. Until
    /// `end_cleaning` no clean block is handed out and no reclaim begins. The pickers are notified of the blocks that became evictable.
    pub fn clear<P: EvictionPicker>(&mut self, pickers: &mut [P])
        ensures same { HasSameRules self.old self.new }
        ensures cleared { (s : BlockSets) → Stands self.old s → Stands self.new (cleared (length self.old.blocks) s) }
        ensures shown { AreShownAll P.learns (written_below self.old.blocks (length self.old.blocks)) pickers.old pickers.new }
    {
        self.vacate_all(pickers);
        refill(&mut self.blocks);
        self.usable = usable_of(&self.clean, &self.blocks);
        forget(&mut self.ready);
        self.is_cleaning = true;
    }

    /// Ends the cleaning of a destroy: blocks may be handed out again, and reclaims may begin.
    pub fn end_cleaning(&mut self)
        ensures same { HasSameRules self.old self.new }
        ensures quiet { (s : BlockSets) → Stands self.old s → Stands self.new (record s { is_cleaning = false }) }
    {
        self.is_cleaning = false;
    }
}
