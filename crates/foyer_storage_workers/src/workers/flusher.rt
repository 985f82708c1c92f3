//! A flusher's worker: it takes what is queued, writes it in batches, and releases the pieces from the keeper.
ghost use Rattle.std.specs.Prelude.{◌≡◌, ◌<◌};
ghost use Rattle.foyer_storage_engine.specs.Ending.{HoldsNamed};
ghost use Rattle.foyer_storage_workers.specs.Turning.{IsIdle};

use super::Worker;
use super::turn::{Drained, Turn, take_turn};
use crate::hand::Hand;
use foyer_block_manager::block::eviction::EvictionPicker;
use foyer_block_tombstone::block::tombstone::MarkLog;
use foyer_core_tally::book::Kinds;
use foyer_format_record::serde::{Code, Properties};
use foyer_io_disk::disk::Disk;
use foyer_io_gate::gate::Gate;
use foyer_policy_filter::StorageFilterCondition;
use foyer_policy_keeper::keeper::Keeper;
use foyer_storage_engine::core_shared::notes::Noting;
use foyer_storage_engine::core_shared::session::Session;
use foyer_storage_engine::engine::BlockEngine;
use std::alloc::{Allocator, Global};
use std::sync::{Arc, Mutex, Wait};

/// What a flusher's worker has beside the engine.
#[derive(Drop)]
pub struct FlusherParts<K: Eq, V, P, A: Allocator, D: Disk + Drop, M: MarkLog + Drop> {
    /// Its number.
    pub flusher: u32,
    /// The disk that it writes to.
    pub disk: D,
    /// The log of deletes, to which all flushers append marks.
    pub log: Arc<Mutex<M>, Global>,
    /// The keeper, from which the worker releases pieces.
    pub keeper: Arc<Keeper<K, V, P, A>, Global>,
}

// Flushes until the bell of what is queued is closed, and nothing is left.
#[tactic(auto, using(foyer_storage_engine::proofs::HoldingLemmas::held_on, foyer_storage_engine::proofs::HoldingLemmas::held_by_step))]
fn work<L, K, V, P, A, E, C, D, G, N, O, M>(
    rt: &impl Wait,
    engine: &BlockEngine<L, K, V, P, A, E, C, D, G, N>,
    mut parts: FlusherParts<K, V, P, A, O, M>,
    session: &mut Session<L>,
) -> Drained
where
    L: Kinds,
    K: Code<A> + Eq + Drop,
    V: Code<A> + Drop,
    P: Properties + Drop,
    A: Allocator + Clone,
    E: EvictionPicker,
    C: StorageFilterCondition,
    D: Disk + Drop,
    G: Gate,
    N: Noting,
    O: Disk + Drop,
    M: MarkLog + Drop,
    requires { 0 < session.old.shares.parts }
    ensures named { HoldsNamed session.old session.new }
    ensures parts { session.new.shares.parts ≡ session.old.shares.parts }
    ensures drained { IsIdle parts.flusher session.new }
{
    let mut closed = None;
    let mut own = None;
    for _ in rt.forever() {
        let seen = engine.signals().queued.count(rt);
        match take_turn(rt, engine, &mut parts, &mut own, session, closed) {
            Turn::Busy => {}
            Turn::Idle => closed = engine.signals().queued.closed_past(rt, seen),
            Turn::Drained(drained) => return drained,
        }
    }
    unreachable!()
}

/// A flusher's worker, before its thread is started.
pub struct FlusherWorker<L, K, V, P, E, C, D, G, N, O, M>
where
    L: Kinds,
    K: Code<Global> + Eq,
    V: Code<Global>,
    P: Properties + Drop,
    E: EvictionPicker,
    C: StorageFilterCondition,
    D: Disk + Drop,
    G: Gate,
    N: Noting,
    O: Disk + Drop,
    M: MarkLog + Drop,
{
    /// The engine.
    pub engine: Arc<BlockEngine<L, K, V, P, Global, E, C, D, G, N>, Global>,
    /// What the worker has beside the engine.
    pub parts: FlusherParts<K, V, P, Global, O, M>,
}

// Written out, so that it is proved once.
impl<L, K, V, P, E, C, D, G, N, O, M> Drop for FlusherWorker<L, K, V, P, E, C, D, G, N, O, M>
where
    L: Kinds,
    K: Code<Global> + Eq + Drop,
    V: Code<Global> + Drop,
    P: Properties + Drop,
    E: EvictionPicker,
    C: StorageFilterCondition,
    D: Disk + Drop,
    G: Gate,
    N: Noting,
    O: Disk + Drop,
    M: MarkLog + Drop,
{
    fn drop(self) {
        let FlusherWorker {
            engine: _,
            parts: _,
        } = self;
    }
}

impl<L, K, V, P, E, C, D, G, N, O, M> Worker<Hand<L>>
    for FlusherWorker<L, K, V, P, E, C, D, G, N, O, M>
where
    L: Kinds,
    K: Code<Global> + Eq + Drop,
    V: Code<Global> + Drop,
    P: Properties + Drop,
    E: EvictionPicker,
    C: StorageFilterCondition,
    D: Disk + Drop,
    G: Gate,
    N: Noting,
    O: Disk + Drop,
    M: MarkLog + Drop,
{
    #[tactic(auto, using(foyer_storage_engine::proofs::HoldingLemmas::unnamed_still))]
    fn work(self, rt: &impl Wait, hand: Hand<L>) -> Hand<L> {
        let FlusherWorker { engine, parts } = self;
        let mut session = hand.into_session();
        let _ = work(rt, &*engine, parts, &mut session);
        Hand::from_session(session)
    }
}
