//! What flushers do to the blocks of a core.
ghost use Rattle.std.specs.Prelude.{◌≡◌, ℕ, map, None, Some, slice_get};
ghost use Rattle.foyer_core_model.specs.Flush.{released, one_invalidated, all_invalidated};
ghost use Rattle.foyer_core_model.specs.State as model_state;
ghost use Rattle.foyer_block_manager.specs.BlockSets.{BlockSets, Stands, HasSameRules};
ghost use Rattle.foyer_block_manager.specs.Managed.{filling_in};
ghost use Rattle.foyer_block_manager.specs.Shown.{AreShownAll, written_of};
ghost use Rattle.foyer_core_blocks.specs.Addresses.{invalid_of, state_has};

use foyer_block_index::tombstone::InvalidStats;
use foyer_block_manager::block::eviction::EvictionPicker;
use foyer_block_manager::block::manager::{BlockId, BlockManager};
use foyer_block_manager::block::states::BlockSet;
use std::alloc::Allocator;

/// Gives how often a block was handed out or destroyed. If the block isn't there, it gives 2^64 - 1.
pub fn filling_of<A: Allocator>(manager: &BlockManager<A>, block: BlockId) -> u64
    ensures { result ≡ filling_in manager.now.blocks block }
{
    match manager.known(block) {
        Some(state) => state.filling,
        None => u64::MAX,
    }
}

/// Takes a flusher's block from it, if it has one. The block may be reclaimed from now on. The pickers are notified of the block.
pub fn release<P: EvictionPicker, A: Allocator>(
    own: &mut Option<BlockId>,
    manager: &mut BlockManager<A>,
    pickers: &mut [P],
)
    ensures left { own.new ≡ None }
    ensures same { HasSameRules manager.old manager.new }
    ensures released { (s : BlockSets) (f : ℕ) → Stands manager.old s
        → ((b : ℕ) → own.old ≡ Some b → s.block_set b ≡ model_state.Writes f)
        → Stands manager.new (record s { block_set = released own.old s.block_set }) }
    ensures shown { AreShownAll P.learns (written_of manager.old.blocks own.old) pickers.old pickers.new }
{
    let Some(block) = own.take() else {
        return;
    };
    if !manager.is_written(block) {
        return;
    }
    manager.on_writing_finish(pickers, block);
}

/// Bytes of a block that became invalid, and the filling of the block that had them.
#[derive(Clone, Copy, Debug, PartialEq, Eq)]
pub struct Invalidated {
    /// The block and its bytes.
    pub stats: InvalidStats,
    /// How often the block had been handed out or destroyed when they were written.
    pub filling: u64,
}

// Whether the block still has this filling. One that was cleaned hasn't, nor has one that isn't there.
fn still_has<A: Allocator>(manager: &BlockManager<A>, block: BlockId, filling: u64) -> bool
    ensures { result ≡ state_has (slice_get manager.now.blocks block) filling }
{
    match manager.known(block) {
        Some(state) => state.filling == filling && !matches!(state.block_set, BlockSet::Clean),
        None => false,
    }
}

// These bytes of a block became invalid, if it still has the filling that had them.
fn invalidate<A: Allocator>(manager: &mut BlockManager<A>, invalid: &Invalidated)
    ensures same { HasSameRules manager.old manager.new }
    ensures invalidated { (s : BlockSets) → Stands manager.old s
        → Stands manager.new (record s { stats = one_invalidated s.block_set s.filling (invalid_of invalid.now) s.stats }) }
{
    let stats = invalid.stats;
    if still_has(manager, stats.block, invalid.filling) {
        manager.invalidate(stats.block, stats.size);
    }
}

/// Counts these bytes as invalid. Each counts only if its block still has the filling that had the bytes, and isn't clean.
pub fn invalidate_all<A: Allocator>(manager: &mut BlockManager<A>, invalid: &[Invalidated])
    ensures same { HasSameRules manager.old manager.new }
    ensures invalidated { (s : BlockSets) → Stands manager.old s
        → Stands manager.new (record s { stats = all_invalidated s.block_set s.filling (map invalid_of invalid.now) s.stats }) }
{
    'each_stats: for stats in invalid {
        invalidate(manager, stats);
    }
}
