//! How the entries of a block that is reclaimed are forgotten, and what shows it.
ghost use Rattle.std.specs.Prelude.{◌≡◌, ◌<◌};
ghost use Rattle.foyer_storage_engine.specs.Ending.{HoldsNamed};
ghost use Rattle.foyer_storage_workers.specs.WorkerSteps.{AsksToForget};

use foyer_block_index::manager::BlockId;
use foyer_block_manager::block::eviction::EvictionPicker;
use foyer_core_tally::book::Kinds;
use foyer_format_record::serde::{Code, Properties};
use foyer_io_disk::disk::Disk;
use foyer_io_gate::gate::Gate;
use foyer_policy_filter::StorageFilterCondition;
use foyer_storage_engine::core_shared::notes::Noting;
use foyer_storage_engine::core_shared::session::Session;
use foyer_storage_engine::core_steps::apply::no_io;
use foyer_storage_engine::core_steps::step::Step;
use foyer_storage_engine::engine::BlockEngine;
use std::alloc::Allocator;
use std::sync::Wait;

/// Shows that the core was asked to forget a block's entries. Only `forget` gives one.
#[derive(Drop)]
pub(super) struct Forgotten {
    block: BlockId,
}

impl Forgotten {
    /// The block, which may be cleaned now.
    pub(super) fn block(&self) -> BlockId
        ensures { result ≡ self.now.block }
    {
        self.block
    }
}

/// Asks the core to forget the entries of a block that is reclaimed.
#[tactic(auto, using(foyer_storage_engine::proofs::HoldingLemmas::held_by_step))]
pub(super) fn forget<L, K, V, P, A, E, C, D, G, N>(
    rt: &impl Wait,
    engine: &BlockEngine<L, K, V, P, A, E, C, D, G, N>,
    session: &mut Session<L>,
    block: BlockId,
) -> Forgotten
where
    L: Kinds,
    K: Code<A> + Drop,
    V: Code<A> + Drop,
    P: Properties + Drop,
    A: Allocator + Clone,
    E: EvictionPicker,
    C: StorageFilterCondition,
    D: Disk + Drop,
    G: Gate,
    N: Noting,
    requires { 0 < session.old.shares.parts }
    ensures named { HoldsNamed session.old session.new }
    ensures parts { session.new.shares.parts ≡ session.old.shares.parts }
    ensures asks { AsksToForget block session.new }
    ensures own { result.block ≡ block }
{
    let _ = engine.step_again(rt, session, no_io(), Step::ReclaimForget { block });
    Forgotten { block }
}
