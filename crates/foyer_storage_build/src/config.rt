//! What an engine is built of.
ghost use Rattle.std.specs.Prelude.{◌≡◌, ◌+◌, ◌<◌, ◌^◌, IfErr, IfOk, vec_len};

mod block;
mod device_workers;
mod disks;
mod dividing;
mod making;
mod noop;
mod pickers;
mod recoverers;

pub use self::block::BlockEngineConfig;
pub use self::device_workers::{BlockFlusher, BlockReclaimer, DeviceLog};
pub use self::making::BlockOpening;
pub use self::noop::{NoopEngineConfig, NoopOpening};
pub use self::pickers::{DefaultPickers, GivenPickers, PickerSource};
pub use self::recoverers::{BlockListings, BlockRecoverer, RecoveredBlocks};
use foyer_core_tally::book::Blanks;
use foyer_device_page::error::Result;
use foyer_device_statistics::Statistics;
use foyer_device_throttle::Throttle;
use foyer_policy_keeper::keeper::Keeper;
pub use foyer_storage_store::built::{BuiltEngine, DeviceBlocks, DeviceEngine};
pub use foyer_storage_store::calls::{DeviceSummary, Engine, EngineWork};
use foyer_storage_store::engine::core_steps::open::RecoverMode;
use foyer_storage_store::engine::engine::signals::Signals;
pub use foyer_storage_store::noop::NoopEngine;
use foyer_storage_workers::workers::Clock;
use std::alloc::Global;
use std::sync::Arc;

/// What an engine is built with, beside its own config.
#[derive(Drop)]
pub struct EngineBuildContext<I: Drop, T: Clock> {
    /// What builds an I/O engine for each worker, for the log, and for each disk that loads read from.
    pub io_engine_config: I,
    /// What an opening does with what it finds.
    pub recover_mode: RecoverMode,
    /// The clock.
    pub clock: T,
    /// The seed of the generator that chooses a block if no picker picks one.
    pub generator: u64,
}

/// An engine whose workers aren't started, and a session.
#[derive(Drop)]
pub struct Built<N: Drop, F: Drop, W: Drop, S: Drop> {
    /// The engine.
    pub engine: N,
    /// The session.
    pub session: S,
    /// The bells and waits by which its workers and its callers wait for one another.
    pub signals: Arc<Signals<Global>, Global>,
    /// A worker for each flusher.
    pub flushers: Vec<F>,
    /// A worker for each reclaimer.
    pub reclaimers: Vec<W>,
    /// The counters of its device.
    pub statistics: Arc<Statistics<Global>, Global>,
    /// The limits of its device.
    pub throttle: Throttle,
}

/// An opening that has begun, and the workers of its recovery.
#[derive(Drop)]
pub struct Recovering<O: Drop, W: Drop> {
    /// What is left of the config and of what the engine is built with.
    pub opening: O,
    /// The workers. Whoever builds the engine reads the blocks of those that are missing.
    pub recoverers: Vec<W>,
}

/// Builds engines over a runtime R; `X` is what they are built with, an `EngineBuildContext`, and `S` the session that has all
/// parts.
pub trait EngineConfig<R: Copy, X: Drop, S: Drop, K: Eq, V, P>: Sized + Drop {
    ghost use Rattle.foyer_device_page.specs.declared.error.Error.{Error};
    ghost use Rattle.foyer_core_tally.specs.declared.blanks.Blanks.{Blanks};
    ghost use Rattle.foyer_device_throttle.specs.declared.throttle.Throttle.{Throttle};
    ghost use Rattle.std.specs.Prelude.{Bool, ℕ};

    // Which ledgers its steps may be counted in.
    ghost fits: { Blanks → Type 0 };

    // Whether the engine keeps nothing.
    ghost keeps_nothing: { Self → Bool };

    /// The engine.
    type Engine: Drop;

    /// A flusher's worker.
    type Flusher: Drop;

    /// A reclaimer's worker.
    type Reclaimer: Drop;

    /// What is left of a config and of what it is built with, once its device is divided.
    type Opening: Drop;

    /// A worker of the recovery.
    type Recoverer: Drop;

    /// What a worker of the recovery listed.
    type Listed: Drop;

    // Which opening it begins, of what it is built with.
    ghost may_begin: { Self → X → Self.Opening → Type 0 };

    // Why it may be refused, of what it is built with.
    ghost may_refuse: { Self → X → Error → Type 0 };

    // What it may build, with these limits of its device and so many flushers and reclaimers, of what it is built with.
    ghost may_build: { Self → X → Self.Engine → Throttle → ℕ → ℕ → Type 0 };

    /// Whether the engine keeps nothing.
    fn is_noop(&self) -> bool
        ensures { result ≡ keeps_nothing self.now };

    /// Divides the device, and gives the workers of its recovery. It doesn't start them: a trait's method can't start threads whose types are
    /// parameters. It gives no workers if one thread is enough. It is refused as the engine's own config says.
    fn begin(
        self,
        rt: R,
        alloc: Global,
        context: X,
    ) -> Result<Recovering<Self::Opening, Self::Recoverer>>
        ensures begun { IfOk result (λ r. may_begin self context r.opening) }
        ensures refused { IfErr result (λ e. may_refuse self context e) };

    /// Adds what a worker of the recovery listed to the opening. If a block has a listing already, that one stays.
    fn add(opening: Self::Opening, listed: Self::Listed) -> Self::Opening
        ensures kept { (config : Self) (context : X) → may_begin config context opening → may_begin config context result };

    /// Builds the engine of an opening, and doesn't start its workers either. It reads the blocks that no worker listed. The ledgers must
    /// fit the config. It is refused as the engine's own config says.
    fn build(
        opening: Self::Opening,
        rt: R,
        alloc: Global,
        blanks: Blanks,
        keeper: &Arc<Keeper<K, V, P, Global>, Global>,
    ) -> Result<Built<Self::Engine, Self::Flusher, Self::Reclaimer, S>>
        requires { fits blanks }
        ensures parts { IfOk result (λ b. vec_len b.flushers + vec_len b.reclaimers + 1 < 2 ^ 32) }
        ensures built { (config : Self) (context : X) → may_begin config context opening
            → IfOk result (λ b. may_build config context b.engine b.throttle (vec_len b.flushers) (vec_len b.reclaimers)) }
        ensures refused { (config : Self) (context : X) → may_begin config context opening → IfErr result (λ e. may_refuse config context e) };
}
