//! The threads, from their start to their join.
ghost use Rattle.std.specs.Prelude.{◌≡◌, ◌+◌, ◌<◌, vec_len, OnOk};
ghost use Rattle.foyer_storage_engine.specs.Ending.{HoldsNamed};

mod answering;
mod answers;
mod appending;
mod batch;
mod flusher;
mod forgetting;
mod reading;
mod receiving;
mod reclaimer;
mod turn;

pub use self::flusher::{FlusherParts, FlusherWorker};
pub use self::reclaimer::{ReclaimerParts, ReclaimerWorker};
pub use crate::clock::{Clock, Moment, SystemClock};
use crate::hand::Hand;
use foyer_core_tally::book::Kinds;
use foyer_storage_engine::core_shared::session::Session;
use foyer_storage_engine::engine::signals::Signals;
use std::alloc::{AllocError, Global};
use std::sync::{Arc, Wait};
use std::thread;
use std::thread::{JoinHandle, Threads};

/// What a thread of an engine does. The thread takes a session along, in a `Hand`.
pub trait Worker<H: Drop>: Drop {
    /// Works until its bell is closed and nothing is left to do, and gives its session back.
    fn work(self, rt: &impl Wait, hand: H) -> H;
}

/// What an engine without threads has in place of workers.
#[derive(Clone, Copy, Debug, PartialEq, Eq)]
pub struct NoWorker;

impl<H: Drop> Worker<H> for NoWorker {
    fn work(self, _rt: &impl Wait, hand: H) -> H {
        hand
    }
}

// Starts a worker's thread. Errors: AllocError if no thread can be made. The worker's part is lost then.
fn start<L, W, R>(rt: R, worker: W, hand: Hand<L>) -> Result<JoinHandle<Hand<L>>, AllocError>
where
    L: Kinds + Send + Sync + 'static,
    W: Worker<Hand<L>> + Send + 'static,
    R: Threads + Wait + Copy + Send + 'static,
{
    let job = move || worker.work(&rt, hand);
    Ok(thread::spawn(&rt, job)?)
}

// Starts a thread for each worker, with a part of the session for each. If a thread can't be made, those that were made stay.
fn start_each<L, W, R>(
    rt: R,
    workers: Vec<W>,
    session: &mut Session<L>,
    running: &mut Vec<JoinHandle<Hand<L>>>,
) -> Result<(), AllocError>
where
    L: Kinds + Send + Sync + 'static,
    W: Worker<Hand<L>> + Send + 'static,
    R: Threads + Wait + Copy + Send + 'static,
    requires { vec_len workers < session.old.shares.parts }
    ensures started { OnOk result (session.new.shares.parts + vec_len running.new ≡ session.old.shares.parts + vec_len running.old) }
    ensures all { OnOk result (vec_len running.new ≡ vec_len running.old + vec_len workers) }
{
    running.reserve(workers.len())?;
    let mut left = workers;
    left.reverse();
    while let Some(worker) = left.pop() {
        let hand = Hand::of(session);
        running.push(start(rt, worker, hand)?)?;
    }
    Ok(())
}

/// The running threads of an engine, each of which has one part of the count of steps.
pub struct Workers<L: Kinds> {
    signals: Arc<Signals<Global>, Global>,
    flushers: Vec<JoinHandle<Hand<L>>>,
    reclaimers: Vec<JoinHandle<Hand<L>>>,
}

// Written out, so that it is proved once.
impl<L: Kinds> Drop for Workers<L> {
    fn drop(self) {
        let Workers {
            signals: _,
            flushers: _,
            reclaimers: _,
        } = self;
    }
}

// Joins the threads, and their sessions into this one.
#[tactic(auto, using(foyer_storage_engine::proofs::HoldingLemmas::held_on, foyer_storage_engine::proofs::HoldingLemmas::held_by_unnamed))]
fn join_all<L: Kinds>(
    rt: &impl Threads,
    mut threads: Vec<JoinHandle<Hand<L>>>,
    session: Session<L>,
) -> Session<L>
    ensures parts { result.shares.parts ≡ session.shares.parts + vec_len threads }
    ensures named { HoldsNamed session result }
    ensures briefs { (result.newest ≡ session.newest) × (result.before ≡ session.before) }
{
    let mut all = session;
    while let Some(thread) = threads.pop() {
        let hand = thread.join(rt);
        all.join(hand.into_session());
    }
    all
}

impl<L: Kinds> Workers<L> {
    /// Makes a value without threads. `start` adds them.
    pub fn none(signals: Arc<Signals<Global>, Global>, alloc: Global) -> Workers<L>
        ensures { (vec_len result.flushers ≡ 0) × (vec_len result.reclaimers ≡ 0) }
    {
        Workers {
            signals,
            flushers: Vec::new(alloc),
            reclaimers: Vec::new(alloc),
        }
    }

    /// Starts a thread for each flusher and each reclaimer, each with one part of the session. No thread may have been started before,
    /// and the session must have more parts than there are workers. Errors: AllocError if memory is refused or a thread can't be made.
    /// The threads that were made stay, and the part of the one that can't be made is lost.
    pub fn start<F, W, R>(
        &mut self,
        rt: R,
        flushers: Vec<F>,
        reclaimers: Vec<W>,
        session: &mut Session<L>,
    ) -> Result<(), AllocError>
    where
        L: Send + Sync + 'static,
        F: Worker<Hand<L>> + Send + 'static,
        W: Worker<Hand<L>> + Send + 'static,
        R: Threads + Wait + Copy + Send + 'static,
        requires parts { vec_len flushers + vec_len reclaimers < session.old.shares.parts }
        requires none { (vec_len self.old.flushers ≡ 0) × (vec_len self.old.reclaimers ≡ 0) }
        ensures parts { OnOk result (session.new.shares.parts + vec_len self.new.flushers + vec_len self.new.reclaimers ≡ session.old.shares.parts) }
        ensures all { OnOk result ((vec_len self.new.flushers ≡ vec_len flushers) × (vec_len self.new.reclaimers ≡ vec_len reclaimers)) }
    {
        start_each(rt, flushers, session, &mut self.flushers)?;
        start_each(rt, reclaimers, session, &mut self.reclaimers)
    }

    /// Lets the threads finish what is left to do, and joins them: the flushers first, since they may need a reclaim. Joins the threads'
    /// sessions into this one, which keeps its own briefs. The threads made no put, no delete and no load. Call the engine's `close`
    /// before: what is queued later may not be written, and later waits wait for nothing.
    #[tactic(auto, using(foyer_storage_engine::proofs::HoldingLemmas::held_on))]
    pub fn join<R: Threads + Wait>(self, rt: &R, session: Session<L>) -> Session<L>
        ensures parts { result.shares.parts ≡ session.shares.parts + vec_len self.flushers + vec_len self.reclaimers }
        ensures named { HoldsNamed session result }
        ensures briefs { (result.newest ≡ session.newest) × (result.before ≡ session.before) }
    {
        let Workers {
            signals,
            flushers,
            reclaimers,
        } = self;
        signals.queued.close(rt);
        let flushed = join_all(rt, flushers, session);
        signals.reclaims.close(rt);
        let all = join_all(rt, reclaimers, flushed);
        signals.close(rt);
        all
    }
}
