//! A turn of a flusher, and what shows that nothing was left for it.
ghost use Rattle.std.specs.Prelude.{◌≡◌, ◌<◌, false};
ghost use Rattle.foyer_storage_engine.specs.Ending.{HoldsNamed};
ghost use Rattle.foyer_storage_workers.specs.Turning.{IsIdle, IsTurnOf, turn_as};

use super::batch::{Begun, do_begin, end_batch, write_batch};
use super::flusher::FlusherParts;
use super::receiving::receive_all;
use foyer_block_index::manager::BlockId;
use foyer_block_manager::block::eviction::EvictionPicker;
use foyer_block_tombstone::block::tombstone::MarkLog;
use foyer_core_tally::book::Kinds;
use foyer_format_record::serde::{Code, Properties};
use foyer_io_disk::disk::Disk;
use foyer_io_gate::gate::Gate;
use foyer_policy_filter::StorageFilterCondition;
use foyer_storage_engine::bell::{Bell, BellClosed};
use foyer_storage_engine::core_shared::notes::Noting;
use foyer_storage_engine::core_shared::session::Session;
use foyer_storage_engine::core_steps::apply::no_io;
use foyer_storage_engine::core_steps::step::Step;
use foyer_storage_engine::engine::BlockEngine;
use std::alloc::Allocator;
use std::sync::Wait;

// Rings a bell if that is due.
fn ring_if(rt: &impl Wait, bell: &Bell, is_due: bool) {
    if is_due {
        bell.ring(rt);
    }
}

// Takes what is queued, and writes it as one batch: whether there was anything to do.
#[tactic(auto, using(foyer_storage_engine::proofs::HoldingLemmas::held_on, foyer_storage_engine::proofs::HoldingLemmas::held_by_step))]
fn flush<L, K, V, P, A, E, C, D, G, N, O, M>(
    rt: &impl Wait,
    engine: &BlockEngine<L, K, V, P, A, E, C, D, G, N>,
    parts: &mut FlusherParts<K, V, P, A, O, M>,
    own: &mut Option<BlockId>,
    session: &mut Session<L>,
) -> bool
where
    L: Kinds,
    K: Code<A> + Eq + Drop,
    V: Code<A> + Drop,
    P: Properties + Drop,
    A: Allocator + Clone,
    E: EvictionPicker,
    C: StorageFilterCondition,
    D: Disk + Drop,
    G: Gate,
    N: Noting,
    O: Disk + Drop,
    M: MarkLog + Drop,
    requires { 0 < session.old.shares.parts }
    ensures named { HoldsNamed session.old session.new }
    ensures parts { session.new.shares.parts ≡ session.old.shares.parts }
    ensures idle { result ≡ false → IsIdle parts.old.flusher session.new }
    ensures own { parts.new.flusher ≡ parts.old.flusher }
{
    let flusher = parts.flusher;
    let has_taken = receive_all(rt, engine, &*parts.keeper, flusher, session);
    let begin = Step::FlushBegin { flusher };
    let reply = engine.step_again(rt, session, no_io(), begin);
    if let Begun::No = do_begin(rt, engine, &*parts.log, flusher, session, reply) {
        // All that it took was dropped. A destroy may wait for that, and no batch will end.
        ring_if(rt, &engine.signals().done, has_taken);
        return has_taken;
    }
    engine.signals().work.add_batch();
    let written = write_batch(rt, engine, &mut parts.disk, flusher, own, session);
    let _ = end_batch(rt, engine, &*parts.keeper, flusher, session, &written);
    true
}

/// Shows that a flusher found nothing to write after its bell was closed. Only a turn that began after the close gives one.
#[derive(Drop)]
pub(super) struct Drained {
    closed: BellClosed,
}

/// The outcome of a flusher's turn.
#[derive(Drop)]
pub(super) enum Turn {
    // There was something to do.
    Busy,
    // There was nothing to do.
    Idle,
    // There was nothing to do, and the bell had been closed before.
    Drained(Drained),
}

// The outcome of a turn, by whether there was anything to do and whether the bell had been closed before.
fn turn_of(is_busy: bool, closed: Option<BellClosed>) -> Turn
    ensures { result ≡ turn_as is_busy closed }
{
    if is_busy {
        return Turn::Busy;
    }
    match closed {
        Some(closed) => Turn::Drained(Drained { closed }),
        None => Turn::Idle,
    }
}

/// Takes a turn: it takes what is queued, and writes it as one batch. `closed` shows that the bell `queued` was closed before the turn.
#[tactic(auto, using(foyer_storage_engine::proofs::HoldingLemmas::held_on))]
pub(super) fn take_turn<L, K, V, P, A, E, C, D, G, N, O, M>(
    rt: &impl Wait,
    engine: &BlockEngine<L, K, V, P, A, E, C, D, G, N>,
    parts: &mut FlusherParts<K, V, P, A, O, M>,
    own: &mut Option<BlockId>,
    session: &mut Session<L>,
    closed: Option<BellClosed>,
) -> Turn
where
    L: Kinds,
    K: Code<A> + Eq + Drop,
    V: Code<A> + Drop,
    P: Properties + Drop,
    A: Allocator + Clone,
    E: EvictionPicker,
    C: StorageFilterCondition,
    D: Disk + Drop,
    G: Gate,
    N: Noting,
    O: Disk + Drop,
    M: MarkLog + Drop,
    requires { 0 < session.old.shares.parts }
    ensures named { HoldsNamed session.old session.new }
    ensures parts { session.new.shares.parts ≡ session.old.shares.parts }
    ensures was { IsTurnOf parts.old.flusher closed session.new result }
    ensures own { parts.new.flusher ≡ parts.old.flusher }
{
    let is_busy = flush(rt, engine, parts, own, session);
    turn_of(is_busy, closed)
}
