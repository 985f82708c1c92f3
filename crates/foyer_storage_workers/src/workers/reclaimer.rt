//! A reclaimer's worker: it reclaims blocks, one at a time.
ghost use Rattle.std.specs.Prelude.{◌≡◌, ◌<◌};
ghost use Rattle.foyer_core_model.specs.Numbers.{page};
ghost use Rattle.foyer_io_disk.specs.Disk.{SurelyCame};
ghost use Rattle.foyer_storage_engine.specs.Ending.{HoldsNamed};
ghost use Rattle.foyer_storage_engine.specs.Reporting.{ReportsClean};

use super::Worker;
use super::forgetting::{Forgotten, forget};
use super::reading::read_block;
use crate::clock::Clock;
use crate::hand::Hand;
use foyer_block_index::manager::BlockId;
use foyer_block_manager::block::eviction::EvictionPicker;
use foyer_core_tally::book::Kinds;
use foyer_device_statistics::Recorder;
use foyer_format_record::serde::{Code, Properties};
use foyer_io_disk::disk::Disk;
use foyer_io_gate::gate::{Gate, Point};
use foyer_policy_filter::StorageFilterCondition;
use foyer_storage_engine::bell::BellClosed;
use foyer_storage_engine::core_access::reclaims::BlockCleaner;
use foyer_storage_engine::core_shared::notes::Noting;
use foyer_storage_engine::core_shared::session::Session;
use foyer_storage_engine::core_steps::apply::no_io;
use foyer_storage_engine::core_steps::reply::Reply;
use foyer_storage_engine::core_steps::step::Step;
use foyer_storage_engine::engine::BlockEngine;
use std::alloc::{Allocator, Global};
use std::sync::{Arc, Wait};

/// What a reclaimer's worker has of its own, beside the engine.
#[derive(Drop)]
pub struct ReclaimerParts<A: Allocator, D: Disk + Drop, T: Clock> {
    /// The disk that it reads and cleans.
    pub disk: D,
    /// The recorder. It gives the reinsertion filter the device's counters, and how long the device's limits make callers wait.
    pub recorder: Recorder<A>,
    /// The clock of the moments at which the filter is asked.
    pub clock: T,
}

// Cleans a block whose entries were forgotten, and reports the outcome.
#[tactic(auto, using(foyer_storage_engine::proofs::HoldingLemmas::held_on, foyer_storage_engine::proofs::HoldingLemmas::held_by_step))]
fn clean<L, K, V, P, A, E, C, D, G, N, O>(
    rt: &impl Wait,
    engine: &BlockEngine<L, K, V, P, A, E, C, D, G, N>,
    disk: &mut O,
    session: &mut Session<L>,
    forgotten: Forgotten,
)
where
    L: Kinds,
    K: Code<A> + Drop,
    V: Code<A> + Drop,
    P: Properties + Drop,
    A: Allocator + Clone,
    E: EvictionPicker,
    C: StorageFilterCondition,
    D: Disk + Drop,
    G: Gate,
    N: Noting,
    O: Disk,
    requires { 0 < session.old.shares.parts }
    ensures named { HoldsNamed session.old session.new }
    ensures parts { session.new.shares.parts ≡ session.old.shares.parts }
    ensures reports { O.is_known disk.old → ReportsClean forgotten.block (O.byte_at disk.old) (O.byte_at disk.new)
        (SurelyCame (O.surely_has disk.old) (O.surely_lies disk.old) (O.faults disk.old) (O.faults disk.new) forgotten.block 0 page) session.new }
{
    let block = forgotten.block();
    let result = BlockCleaner::clean(disk, block);
    let cleaned = Step::ReclaimCleaned { block, result };
    let _ = engine.step_again(rt, session, no_io(), cleaned);
}

// Reads a block that is reclaimed, then has its entries forgotten, and cleans it.
#[tactic(auto, using(foyer_storage_engine::proofs::HoldingLemmas::held_on, foyer_storage_engine::proofs::HoldingLemmas::held_by_step))]
fn reclaim<L, K, V, P, A, E, C, D, G, N, O, T>(
    rt: &impl Wait,
    engine: &BlockEngine<L, K, V, P, A, E, C, D, G, N>,
    parts: &mut ReclaimerParts<A, O, T>,
    session: &mut Session<L>,
    block: BlockId,
)
where
    L: Kinds,
    K: Code<A> + Drop,
    V: Code<A> + Drop,
    P: Properties + Drop,
    A: Allocator + Clone,
    E: EvictionPicker,
    C: StorageFilterCondition,
    D: Disk + Drop,
    G: Gate,
    N: Noting,
    O: Disk + Drop,
    T: Clock,
    requires { 0 < session.old.shares.parts }
    ensures named { HoldsNamed session.old session.new }
    ensures parts { session.new.shares.parts ≡ session.old.shares.parts }
    ensures reports { O.is_known parts.old.disk → (before : O) × (O.byte_at before ≡ O.byte_at parts.old.disk)
        × ReportsClean block (O.byte_at before) (O.byte_at parts.new.disk)
        (SurelyCame (O.surely_has before) (O.surely_lies before) (O.faults before) (O.faults parts.new.disk) block 0 page) session.new }
{
    engine.gate().pass(Point::Reclaim);
    read_block(rt, engine, parts, session, block);
    engine.signals().queued.ring(rt);
    let forgotten = forget(rt, engine, session, block);
    clean(rt, engine, &mut parts.disk, session, forgotten);
    engine.signals().done.ring(rt);
}

// Reclaims until the bell of reclaims is closed, and none may begin.
#[tactic(auto, using(foyer_storage_engine::proofs::HoldingLemmas::held_on, foyer_storage_engine::proofs::HoldingLemmas::held_by_step))]
fn work<L, K, V, P, A, E, C, D, G, N, O, T>(
    rt: &impl Wait,
    engine: &BlockEngine<L, K, V, P, A, E, C, D, G, N>,
    mut parts: ReclaimerParts<A, O, T>,
    session: &mut Session<L>,
) -> BellClosed
where
    L: Kinds,
    K: Code<A> + Drop,
    V: Code<A> + Drop,
    P: Properties + Drop,
    A: Allocator + Clone,
    E: EvictionPicker,
    C: StorageFilterCondition,
    D: Disk + Drop,
    G: Gate,
    N: Noting,
    O: Disk + Drop,
    T: Clock,
    requires { 0 < session.old.shares.parts }
    ensures named { HoldsNamed session.old session.new }
    ensures parts { session.new.shares.parts ≡ session.old.shares.parts }
{
    for _ in rt.forever() {
        let seen = engine.signals().reclaims.count(rt);
        match engine.step_again(rt, session, no_io(), Step::ReclaimBegin) {
            Reply::Picked { block, .. } => {
                engine.signals().work.add_reclaim();
                reclaim(rt, engine, &mut parts, session, block);
            }
            _ => {
                if let Some(closed) = engine.signals().reclaims.closed_past(rt, seen) {
                    return closed;
                }
            }
        }
    }
    unreachable!()
}

/// A reclaimer's worker, before its thread is started.
pub struct ReclaimerWorker<L, K, V, P, E, C, D, G, N, O, T>
where
    L: Kinds,
    K: Code<Global>,
    V: Code<Global>,
    P: Properties + Drop,
    E: EvictionPicker,
    C: StorageFilterCondition,
    D: Disk + Drop,
    G: Gate,
    N: Noting,
    O: Disk + Drop,
    T: Clock,
{
    /// The engine.
    pub engine: Arc<BlockEngine<L, K, V, P, Global, E, C, D, G, N>, Global>,
    /// What the worker has of its own.
    pub parts: ReclaimerParts<Global, O, T>,
}

// Written out, so that it is proved once.
impl<L, K, V, P, E, C, D, G, N, O, T> Drop for ReclaimerWorker<L, K, V, P, E, C, D, G, N, O, T>
where
    L: Kinds,
    K: Code<Global> + Drop,
    V: Code<Global> + Drop,
    P: Properties + Drop,
    E: EvictionPicker,
    C: StorageFilterCondition,
    D: Disk + Drop,
    G: Gate,
    N: Noting,
    O: Disk + Drop,
    T: Clock,
{
    fn drop(self) {
        let ReclaimerWorker {
            engine: _,
            parts: _,
        } = self;
    }
}

impl<L, K, V, P, E, C, D, G, N, O, T> Worker<Hand<L>>
    for ReclaimerWorker<L, K, V, P, E, C, D, G, N, O, T>
where
    L: Kinds,
    K: Code<Global> + Drop,
    V: Code<Global> + Drop,
    P: Properties + Drop,
    E: EvictionPicker,
    C: StorageFilterCondition,
    D: Disk + Drop,
    G: Gate,
    N: Noting,
    O: Disk + Drop,
    T: Clock,
{
    #[tactic(auto, using(foyer_storage_engine::proofs::HoldingLemmas::unnamed_still))]
    fn work(self, rt: &impl Wait, hand: Hand<L>) -> Hand<L> {
        let ReclaimerWorker { engine, parts } = self;
        let mut session = hand.into_session();
        let _ = work(rt, &*engine, parts, &mut session);
        Hand::from_session(session)
    }
}
