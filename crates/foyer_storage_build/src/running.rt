//! Engines that run: one with its workers, or several as one.
ghost use Rattle.std.specs.Arc.{arc_value};
ghost use Rattle.std.specs.Prelude.{◌≡◌, ◌⊎◌, ◌<◌, ◌||◌, ◌^◌, IfErr, IfOk, Err, min};
ghost use Rattle.foyer_device_page.specs.declared.error.Error.TheVariants as error;
ghost use Rattle.foyer_storage_build.specs.Building.{next_bit};

use foyer_core_tally::book::Kinds;
use foyer_device_page::error::Result;
use foyer_device_statistics::Statistics;
use foyer_device_throttle::Throttle;
use foyer_policy_keeper::keeper::Keeper;
use foyer_storage_cores::engines::TwoEngines;
use foyer_storage_cores::sessions::TwoSessions;
use foyer_storage_store::session::StoreSession;
use foyer_storage_store::store::Store;
use foyer_storage_workers::workers::Workers;
use std::alloc::Global;
use std::sync::{Arc, Wait};
use std::thread::Threads;

// The value of the bit that distinguishes two engines of one core each.
const FIRST_BIT: u64 = 1 << 63;

/// The threads of a store's engine. At the end they are joined, and their sessions are joined with the caller's.
pub trait JoinWorkers<S: Drop>: Drop {
    // What a session is with those of the threads.
    ghost may_join: { Self → S → S → Type 0 };

    /// Lets the threads finish what is left to do, and joins them. Joins their sessions into this one, which keeps its own briefs. Call
    /// the store's `close` before: what is queued later may not be written, and later waits wait for nothing.
    fn join<R: Threads + Wait>(self, rt: &R, session: S) -> S
        ensures { may_join self session result };
}

impl<L: Kinds> JoinWorkers<StoreSession<L>> for Workers<L> {
    ghost use Rattle.std.specs.Prelude.{◌≡◌, ◌+◌, vec_len};
    ghost use Rattle.foyer_storage_workers.specs.Ending.{HoldsNamed};

    ghost may_join = { λ workers old new. (new.steps.shares.parts ≡ old.steps.shares.parts + vec_len workers.flushers + vec_len workers.reclaimers)
        × HoldsNamed old.steps new.steps × (new.steps.newest ≡ old.steps.newest) × (new.steps.before ≡ old.steps.before) };

    fn join<R: Threads + Wait>(self, rt: &R, session: StoreSession<L>) -> StoreSession<L> {
        StoreSession::new(Workers::join(self, rt, session.into_steps()))
    }
}

/// The threads of two engines.
#[derive(Drop)]
pub struct TwoWorkers<W: Drop, X: Drop> {
    /// The threads of the first engine.
    pub low: W,
    /// The threads of the second engine.
    pub high: X,
}

impl<W: JoinWorkers<S>, X: JoinWorkers<T>, S: Drop, T: Drop> JoinWorkers<TwoSessions<S, T>>
    for TwoWorkers<W, X> {
    ghost may_join = { λ workers old new. W.may_join workers.low old.low new.low × X.may_join workers.high old.high new.high };

    fn join<R: Threads + Wait>(self, rt: &R, session: TwoSessions<S, T>) -> TwoSessions<S, T> {
        let TwoWorkers { low, high } = self;
        let sessions = session;
        TwoSessions {
            low: low.join(rt, sessions.low),
            high: high.join(rt, sessions.high),
        }
    }
}

/// An engine that runs: with its threads, and the session that has all parts that they don't have.
#[derive(Drop)]
pub struct RunningEngine<N: Drop, S: Drop, W: Drop> {
    pub(crate) engine: N,
    pub(crate) session: S,
    pub(crate) workers: W,
    pub(crate) is_enabled: bool,
    pub(crate) statistics: Arc<Statistics<Global>, Global>,
    pub(crate) throttle: Throttle,
    // The value of the bit that distinguishes it from another engine beside it.
    bit: u64,
    ghost some_bit: { 0 < bit },
}

impl<N: Drop, S: Drop, W: Drop> RunningEngine<N, S, W> {
    // An engine of one core.
    pub(crate) fn of_one(
        engine: N,
        session: S,
        workers: W,
        is_enabled: bool,
        statistics: Arc<Statistics<Global>, Global>,
        throttle: Throttle,
    ) -> RunningEngine<N, S, W>
        ensures given { (result.engine ≡ engine) × (result.session ≡ session) × (result.workers ≡ workers) × (result.is_enabled ≡ is_enabled)
            × (result.statistics ≡ statistics) × (result.throttle ≡ throttle) }
        ensures bit { result.bit ≡ 2 ^ 63 }
    {
        RunningEngine {
            engine,
            session,
            workers,
            is_enabled,
            statistics,
            throttle,
            bit: FIRST_BIT,
        }
    }

    /// Makes a store over it, with this name, this hasher of keys and this keeper. The keeper must be the one that the engine was opened
    /// with. Errors: `Memory`. Then the engine's threads are joined.
    pub fn into_store<R, K, V, P, H>(
        self,
        rt: &R,
        alloc: Global,
        name: &'static str,
        hasher: H,
        keeper: Arc<Keeper<K, V, P, Global>, Global>,
    ) -> Result<(Store<N, K, V, P, H>, S, W)>
    where
        R: Threads + Wait,
        K: Eq + Drop,
        V: Drop,
        P: Drop,
        H: Drop,
        W: JoinWorkers<S>,
        ensures given { IfOk result (λ r. ((arc_value r.0.shared).name.now ≡ name.now) × ((arc_value r.0.shared).hasher ≡ hasher)
            × ((arc_value r.0.shared).keeper ≡ keeper) × ((arc_value r.0.shared).is_enabled ≡ self.is_enabled)) }
        ensures engine { IfOk result (λ r. ((arc_value r.0.shared).engine ≡ self.engine) × ((arc_value r.0.shared).throttle ≡ self.throttle)
            × (r.1 ≡ self.session) × (r.2 ≡ self.workers)) }
        ensures refused { IfErr result (λ e. e ≡ error.Memory) }
    {
        let RunningEngine {
            engine,
            session,
            workers,
            is_enabled,
            statistics,
            throttle,
            bit: _,
        } = self;
        match Store::new(
            alloc, name, hasher, is_enabled, keeper, engine, statistics, throttle,
        ) {
            Ok(store) => Ok((store, session, workers)),
            Err(error) => {
                let _ = workers.join(rt, session);
                Err(error)
            }
        }
    }
}

/// Makes one engine of two, each of which has the hashes of one side. Errors: that of an engine that was refused, the first one's if both
/// were. Then the threads of an engine that runs are joined. A store's counters are those of both engines. Its `statistics` and
/// `throttle` are those of the first engine's device.
pub fn beside<R, N, S, W, M, T, X>(
    rt: &R,
    low: Result<RunningEngine<N, S, W>>,
    high: Result<RunningEngine<M, T, X>>,
) -> Result<RunningEngine<TwoEngines<N, M>, TwoSessions<S, T>, TwoWorkers<W, X>>>
where
    R: Threads + Wait,
    N: Drop,
    S: Drop,
    W: JoinWorkers<S>,
    M: Drop,
    T: Drop,
    X: JoinWorkers<T>,
    ensures both { IfOk result (λ both. IfOk low (λ l. IfOk high (λ h. (both.engine.low ≡ l.engine) × (both.engine.high ≡ h.engine)
        × (both.session.low ≡ l.session) × (both.session.high ≡ h.session)
        × (both.workers.low ≡ l.workers) × (both.workers.high ≡ h.workers)
        × (both.is_enabled ≡ (l.is_enabled || h.is_enabled))))) }
    ensures bits { IfOk result (λ both. IfOk low (λ l. IfOk high (λ h. (both.engine.bit ≡ min l.bit h.bit) × (both.bit ≡ next_bit (min l.bit h.bit))))) }
    ensures device { IfOk result (λ both. IfOk low (λ l. (both.statistics ≡ l.statistics) × (both.throttle ≡ l.throttle))) }
    ensures refused { IfErr result (λ e. (low ≡ Err e) ⊎ (high ≡ Err e)) }
{
    match (low, high) {
        (Ok(low), Ok(high)) => {
            let bit = low.bit.min(high.bit);
            Ok(RunningEngine {
                engine: TwoEngines::new(bit, low.engine, high.engine),
                session: TwoSessions {
                    low: low.session,
                    high: high.session,
                },
                workers: TwoWorkers {
                    low: low.workers,
                    high: high.workers,
                },
                is_enabled: low.is_enabled || high.is_enabled,
                statistics: low.statistics,
                throttle: low.throttle,
                bit: (bit / 2).max(1),
            })
        }
        (Ok(low), Err(error)) => {
            let _ = low.workers.join(rt, low.session);
            Err(error)
        }
        (Err(error), Ok(high)) => {
            let _ = high.workers.join(rt, high.session);
            Err(error)
        }
        (Err(error), Err(_)) => Err(error),
    }
}
