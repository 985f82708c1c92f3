//! What the log of deletes answered for a batch's marks.
ghost use Rattle.std.specs.Prelude.{◌≡◌, ◌↔◌, ℕ, IsTrue, map};
ghost use Rattle.foyer_block_index.specs.Index.{IndexMap};
ghost use Rattle.foyer_core_model.specs.Flush.{invalidated_unless};
ghost use Rattle.foyer_core_model.specs.Reply as model_reply;
ghost use Rattle.foyer_core_model.specs.State.{State};
ghost use Rattle.foyer_core_model.specs.Step as model_step;
ghost use Rattle.foyer_core_blocks.specs.Content.{Content, Meaning};
ghost use Rattle.foyer_core_blocks.specs.Sizes.{AreValid};
ghost use Rattle.foyer_core_blocks.specs.Settings.{Settings};
ghost use Rattle.foyer_block_manager.specs.BlockSets.{BlockSets, Stands, HasSameRules};
ghost use Rattle.foyer_block_manager.specs.Managed.{Managed};
ghost use Rattle.foyer_core_blocks.specs.Addresses.{invalid_of};
ghost use Rattle.foyer_core_flusher.specs.FlushInTurn.{IsUnlogged};
ghost use Rattle.foyer_core_flusher.specs.FlusherSteps.{StandsAt, FlusherStep};
ghost use Rattle.foyer_core_flusher.specs.Seen.{seen};

use crate::flusher::Flusher;
use foyer_block_manager::block::manager::BlockManager;
use foyer_core_blocks::manager::{Invalidated, invalidate_all};
use std::alloc::Allocator;

// Counts what marks made invalid, unless the log failed to take the marks. In that case an opening may find again what they deleted.
pub(crate) fn invalidate_unless<A: Allocator>(
    logged: Option<bool>,
    manager: &mut BlockManager<A>,
    invalid: &[Invalidated],
)
    ensures same { HasSameRules manager.old manager.new }
    ensures invalidated { (s : BlockSets) → Stands manager.old s → Stands manager.new
        (record s { stats = invalidated_unless s.block_set s.filling logged (map invalid_of invalid.now) s.stats }) }
{
    match logged {
        None => invalidate_all(manager, invalid),
        Some(true) => invalidate_all(manager, invalid),
        Some(false) => {}
    }
}
