//! How a flusher's worker takes what is queued.
ghost use Rattle.std.specs.Prelude.{◌≡◌, ◌<◌};
ghost use Rattle.foyer_storage_engine.specs.Ending.{HoldsNamed};
ghost use Rattle.foyer_storage_workers.specs.Receiving.{IsHeldAs, IsHoldEnd, IsReceived, hold_end_of};

use foyer_block_manager::block::eviction::EvictionPicker;
use foyer_core_tally::book::Kinds;
use foyer_device_page::error::ErrorKind;
use foyer_format_record::serde::{Code, Properties};
use foyer_io_disk::disk::Disk;
use foyer_io_gate::gate::Gate;
use foyer_lock::lock_spinning;
use foyer_policy_filter::StorageFilterCondition;
use foyer_policy_keeper::keeper::Keeper;
use foyer_policy_piece::keeper::PieceRef;
use foyer_policy_release::release::release;
use foyer_policy_release::shown::Released;
use foyer_storage_engine::core_shared::locked::Locked;
use foyer_storage_engine::core_shared::notes::Noting;
use foyer_storage_engine::core_shared::session::Session;
use foyer_storage_engine::core_steps::apply::no_io;
use foyer_storage_engine::core_steps::reply::Reply;
use foyer_storage_engine::core_steps::step::Step;
use foyer_storage_engine::engine::BlockEngine;
use std::alloc::Allocator;
use std::sync::Wait;
use std::thread;

// Takes the front of the queue: the reply, and whether a flush is wanted then.
#[tactic(auto, using(foyer_storage_engine::proofs::HoldingLemmas::held_by, foyer_storage_engine::proofs::HoldingLemmas::held_same))]
fn receive<L, K, V, P, A, E, C, N>(
    locked: &mut Locked<L, K, V, P, A, E, C, N>,
    session: &mut Session<L>,
    flusher: u32,
) -> (Reply<K, V, P, A>, bool)
where
    L: Kinds,
    K: Code<A> + Drop,
    V: Code<A> + Drop,
    P: Properties + Drop,
    A: Allocator + Clone,
    E: EvictionPicker,
    C: StorageFilterCondition,
    N: Noting,
    requires { 0 < session.old.shares.parts }
    ensures named { HoldsNamed session.old session.new }
    ensures parts { session.new.shares.parts ≡ session.old.shares.parts }
    ensures asks { IsReceived N.keeps flusher session.old session.new result.0 }
{
    match locked.step(session, no_io(), Step::Receive { flusher }) {
        Ok(reply) => {
            let wants_flush = locked.core().wants_flush(flusher);
            (reply, wants_flush)
        }
        Err(step) => (Reply::Refused(ErrorKind::Memory, step), false),
    }
}

// How many records are taken for a batch at most, so that its pages are written while they are still in the processor's cache.
const MOST_OF_A_BATCH: usize = 64;

// How often the core's lock is taken for a batch at most. Marks and waits don't count as records, so `MOST_OF_A_BATCH` doesn't limit
// them.
const MOST_HOLDS: u32 = 64;

// A hold of the core's lock ends after this many submissions, or once this many bytes of records were taken.
const MOST_OF_A_HOLD: u32 = 64;

const MOST_BYTES_OF_A_HOLD: usize = 64 << 10;

// How a hold of the core's lock ended.
#[derive(Drop)]
enum HoldEnd<K, V, P, A: Allocator> {
    // A batch has enough, or less than half of the buffer is left.
    Enough,
    // So much was taken as one hold takes.
    More,
    // Memory was refused: it is to be tried again.
    Refused,
    // A piece was returned, and must be released; and whether a flush is wanted.
    Back(PieceRef<K, V, P, A>, bool),
    // Nothing more is queued; and whether anything was taken before.
    Drained(bool),
}

// The same once the core's lock is let go.
#[derive(Drop)]
enum Held {
    // A batch has enough, or less than half of the buffer is left.
    Enough,
    // So much was taken as one hold takes.
    More,
    // Memory was refused: it is to be tried again.
    Refused,
    // A piece was returned, and has been released; and whether a flush is wanted.
    Back(Released, bool),
    // Nothing more is queued; and whether anything was taken before.
    Drained(bool),
}

// Releases the piece with which a hold ended, if there is one.
fn held_of<K: Eq + Drop, V: Drop, P: Drop, A: Allocator + Clone>(
    rt: &impl Wait,
    keeper: &Keeper<K, V, P, A>,
    end: HoldEnd<K, V, P, A>,
) -> Held
    ensures { IsHeldAs end result }
{
    match end {
        HoldEnd::Enough => Held::Enough,
        HoldEnd::More => Held::More,
        HoldEnd::Refused => Held::Refused,
        HoldEnd::Back(piece, wants_flush) => Held::Back(release(rt, keeper, &piece), wants_flush),
        HoldEnd::Drained(took) => Held::Drained(took),
    }
}

// How the reply to a take ends a hold: not if something was taken.
fn end_of<K: Drop, V: Drop, P: Drop, A: Allocator>(
    reply: Reply<K, V, P, A>,
    wants_flush: bool,
    is_busy: bool,
) -> Option<HoldEnd<K, V, P, A>>
    ensures { result ≡ hold_end_of wants_flush is_busy reply }
{
    match reply {
        Reply::Received(None) => None,
        Reply::Received(Some(piece)) => Some(HoldEnd::Back(piece, wants_flush)),
        Reply::Refused(ErrorKind::Memory, _step) => Some(HoldEnd::Refused),
        _other => Some(HoldEnd::Drained(is_busy)),
    }
}

// Takes what is queued under one hold of the core's lock, until nothing is, a piece doesn't fit, memory is refused, or it is enough for
// a batch or for this hold.
#[tactic(auto, using(foyer_storage_engine::proofs::HoldingLemmas::held_on))]
fn receive_some<L, K, V, P, A, E, C, N>(
    locked: &mut Locked<L, K, V, P, A, E, C, N>,
    session: &mut Session<L>,
    flusher: u32,
) -> HoldEnd<K, V, P, A>
where
    L: Kinds,
    K: Code<A> + Drop,
    V: Code<A> + Drop,
    P: Properties + Drop,
    A: Allocator + Clone,
    E: EvictionPicker,
    C: StorageFilterCondition,
    N: Noting,
    requires { 0 < session.old.shares.parts }
    ensures named { HoldsNamed session.old session.new }
    ensures parts { session.new.shares.parts ≡ session.old.shares.parts }
    ensures ends { IsHoldEnd flusher session.new result }
{
    let (_, room) = locked.core().received(flusher);
    let mut is_busy = false;
    for taken in 0..MOST_OF_A_HOLD {
        let (reply, wants_flush) = receive(locked, session, flusher);
        if let Some(end) = end_of(reply, wants_flush, is_busy) {
            return end;
        }
        is_busy = true;
        let (records, left) = locked.core().received(flusher);
        if wants_flush || records >= MOST_OF_A_BATCH {
            return HoldEnd::Enough;
        }
        if room.saturating_sub(left) >= MOST_BYTES_OF_A_HOLD {
            return HoldEnd::More;
        }
    }
    HoldEnd::More
}

// Takes what is queued. It ends if nothing is queued any more, a batch has enough, less than half of the buffer is left, or `MOST_HOLDS` is
// reached. Gives whether anything was taken, or must be tried again after refused memory. A returned piece is released once the core's lock
// is let go.
#[tactic(auto, using(foyer_storage_engine::proofs::HoldingLemmas::held_on))]
pub(super) fn receive_all<L, K, V, P, A, E, C, D, G, N>(
    rt: &impl Wait,
    engine: &BlockEngine<L, K, V, P, A, E, C, D, G, N>,
    keeper: &Keeper<K, V, P, A>,
    flusher: u32,
    session: &mut Session<L>,
) -> bool
where
    L: Kinds,
    K: Code<A> + Eq + Drop,
    V: Code<A> + Drop,
    P: Properties + Drop,
    A: Allocator + Clone,
    E: EvictionPicker,
    C: StorageFilterCondition,
    D: Disk + Drop,
    G: Gate,
    N: Noting,
    requires { 0 < session.old.shares.parts }
    ensures named { HoldsNamed session.old session.new }
    ensures parts { session.new.shares.parts ≡ session.old.shares.parts }
{
    let mut is_busy = false;
    for _ in 0..MOST_HOLDS {
        let end = receive_some(
            &mut lock_spinning(engine.shared().locked(), rt),
            session,
            flusher,
        );
        match held_of(rt, keeper, end) {
            Held::Enough => return true,
            Held::More => is_busy = true,
            Held::Refused => {
                is_busy = true;
                thread::yield_now();
            }
            Held::Back(_, wants_flush) => {
                is_busy = true;
                engine.signals().work.add_returned_put();
                if wants_flush {
                    return true;
                }
            }
            Held::Drained(took) => return is_busy || took,
        }
    }
    is_busy
}
