//! What becomes known of a block while it is used.
ghost use Rattle.std.specs.Prelude.{◌≡◌, ℕ, slice_get};
ghost use Rattle.foyer_core_model.specs.Numbers.{plus};
ghost use Rattle.foyer_block_manager.specs.Statistics.{with_statistics_at, add_invalid, add_access, no_statistics};

use crate::block::manager::{BlockId, BlockManager, BlockState, NO_STATISTICS};
use std::alloc::Allocator;

// A sum that stays at the greatest number.
fn plus(a: usize, b: usize) -> usize
    ensures { result ≡ plus a b }
{
    if b <= usize::MAX - a {
        a + b
    } else {
        usize::MAX
    }
}

fn add_invalid<A: Allocator>(blocks: &mut Vec<BlockState, A>, block: BlockId, bytes: usize)
    ensures { blocks.new.items ≡ with_statistics_at (add_invalid bytes) (slice_get blocks.old.items block) block blocks.old.items }
{
    if let Some(state) = blocks.get_mut(block as usize) {
        state.statistics.invalid = plus(state.statistics.invalid, bytes);
    }
}

fn add_access<A: Allocator>(blocks: &mut Vec<BlockState, A>, block: BlockId)
    ensures { blocks.new.items ≡ with_statistics_at add_access (slice_get blocks.old.items block) block blocks.old.items }
{
    if let Some(state) = blocks.get_mut(block as usize) {
        state.statistics.access = plus(state.statistics.access, 1);
    }
}

fn reset<A: Allocator>(blocks: &mut Vec<BlockState, A>, block: BlockId)
    ensures { blocks.new.items ≡ with_statistics_at no_statistics (slice_get blocks.old.items block) block blocks.old.items }
{
    if let Some(state) = blocks.get_mut(block as usize) {
        state.statistics = NO_STATISTICS;
    }
}

impl<A: Allocator> BlockManager<A> {
    ghost use Rattle.foyer_block_manager.specs.BlockSets.{BlockSets, Stands, HasSameRules, without_stats};
    ghost use Rattle.foyer_block_manager.specs.Statistics.{with_invalid, with_access};

    /// Counts `bytes` more invalid bytes of a block. The count stays at the type's end.
    pub fn invalidate(&mut self, block: BlockId, bytes: usize)
        ensures same { HasSameRules self.old self.new }
        ensures invalid { (s : BlockSets) → Stands self.old s → Stands self.new (with_invalid s block bytes) }
    {
        add_invalid(&mut self.blocks, block, bytes);
    }

    /// Counts one more load that reads from a block. The count stays at the type's end.
    pub fn note_access(&mut self, block: BlockId)
        ensures same { HasSameRules self.old self.new }
        ensures access { (s : BlockSets) → Stands self.old s → Stands self.new (with_access s block) }
    {
        add_access(&mut self.blocks, block);
    }

    /// Resets the statistics of a block whose clean by a destroy has ended. The block stays in its set.
    pub fn on_clean_finish(&mut self, block: BlockId)
        ensures same { HasSameRules self.old self.new }
        ensures stats { (s : BlockSets) → Stands self.old s → Stands self.new (without_stats s block) }
    {
        reset(&mut self.blocks, block);
    }
}
