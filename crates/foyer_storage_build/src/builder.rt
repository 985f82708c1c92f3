//! What a store is built of.
ghost use Rattle.std.specs.Arc.{arc_value};
ghost use Rattle.std.specs.Prelude.{◌≡◌, ◌≢◌, ◌⊎◌, ◌↔◌, ◌+◌, ◌-◌, ◌<◌, ◌^◌, IfErr, IfOk, IsOk, Err, not, true, vec_len};
ghost use Rattle.foyer_device_partition.specs.Extent.{total_size};
ghost use Rattle.foyer_storage_build.specs.Building.{CanPlan, is_plan_error};
ghost use Rattle.foyer_block_recover.specs.declared.block.recover.RecoverMode.TheVariants as recover_mode;
ghost use Rattle.foyer_device_page.specs.declared.error.Error.TheVariants.{Config, Memory, Unsupported};
ghost use Rattle.foyer_format_record.specs.declared.compress.Compression.TheVariants as compression;

use crate::config::{
    BlockEngineConfig, Built, EngineBuildContext, EngineConfig, NoopEngineConfig, PickerSource,
    Recovering,
};
use crate::running::RunningEngine;
use crate::whole::WholeSession;
use foyer_core_tally::book::{Blanks, Kinds};
use foyer_device_page::error::{Error, Result};
use foyer_device_partition::io::device::Device;
use foyer_format_record::compress::Compression;
use foyer_io_engine::io::engine::PsyncIoEngineConfig;
use foyer_io_gate::gate::Gate;
use foyer_policy_filter::StorageFilterCondition;
use foyer_policy_keeper::keeper::Keeper;
use foyer_storage_store::engine::core_steps::open::RecoverMode;
use foyer_storage_store::engine::engine::signals::Signals;
use foyer_storage_store::session::StoreSession;
use foyer_storage_store::store::Store;
use foyer_storage_workers::hand::Hand;
use foyer_storage_workers::recover::{Recoverer, list_blocks};
use foyer_storage_workers::workers::{Clock, Worker, Workers};
use std::alloc::Global;
use std::fmt;
use std::fmt::{Debug, Formatter};
use std::sync::{Arc, Wait};
use std::thread::Threads;

/// Builds a store. Without an engine config it keeps nothing.
#[derive(Drop)]
pub struct StoreBuilder<H: Drop, N: Drop, I: Drop> {
    name: &'static str,
    hasher: H,
    shards: usize,
    engine: N,
    io_engine: I,
    compression: Compression,
    recover_mode: RecoverMode,
}

/// The type's name.
impl<H: Drop, N: Drop, I: Drop> Debug for StoreBuilder<H, N, I> {
    fn fmt<W: fmt::Write>(&self, f: &mut Formatter<W>) -> fmt::Result {
        f.write_str("StoreBuilder")
    }
}

impl<H: Drop> StoreBuilder<H, NoopEngineConfig, PsyncIoEngineConfig> {
    /// Begins a store with this name, this hasher of keys, and this many shards of its keeper. `build` gives `Config` for 0 shards. The
    /// store only keeps the name.
    pub fn new(
        name: &'static str,
        hasher: H,
        shards: usize,
    ) -> StoreBuilder<H, NoopEngineConfig, PsyncIoEngineConfig>
        ensures given { (result.name.now ≡ name.now) × (result.hasher ≡ hasher) × (result.shards ≡ shards) }
        ensures defaults { (result.compression ≡ compression.None) × (result.recover_mode ≡ recover_mode.Quiet) }
    {
        StoreBuilder {
            name,
            hasher,
            shards,
            engine: NoopEngineConfig,
            io_engine: PsyncIoEngineConfig::new(),
            compression: Compression::None,
            recover_mode: RecoverMode::Quiet,
        }
    }
}

// What an engine is built with. `Unsupported` with a compression.
fn context_of<I: Drop, T: Clock>(
    io_engine: I,
    codec: Compression,
    mode: RecoverMode,
    clock: T,
    generator: u64,
) -> Result<EngineBuildContext<I, T>>
    ensures given { IfOk result (λ c. c ≡ record { io_engine_config = io_engine; recover_mode = mode; clock = clock; generator = generator }) }
    ensures compressed { codec ≢ compression.None → result ≡ Err Unsupported }
    ensures plain { codec ≡ compression.None → IsOk result }
{
    if codec != Compression::None {
        return Err(Error::Unsupported);
    }
    Ok(EngineBuildContext {
        io_engine_config: io_engine,
        recover_mode: mode,
        clock,
        generator,
    })
}

// Begins an opening, and gives it what the workers of its recovery listed, whose threads have ended.
fn open<R, X, S, K, V, P, N>(rt: R, alloc: Global, engine: N, context: X) -> Result<N::Opening>
where
    R: Threads + Wait + Copy + Send + 'static,
    X: Drop,
    S: Drop,
    K: Eq + Drop,
    V: Drop,
    P: Drop,
    N: EngineConfig<R, X, S, K, V, P>,
    N::Recoverer: Recoverer<N::Listed> + Send + 'static,
    N::Listed: Send + 'static,
    ensures begun { IfOk result (λ opening. N.may_begin engine context opening) }
    ensures refused { IfErr result (λ e. N.may_refuse engine context e) }
{
    let Recovering {
        mut opening,
        recoverers,
    } = engine.begin(rt, alloc, context)?;
    'each_worker: for listed in list_blocks(rt, alloc, recoverers) {
        opening = N::add(opening, listed);
    }
    Ok(opening)
}

// Starts an engine's workers, with a part of the session's each. Memory, if one can't be started: then those that were are joined.
fn start<L, F, W, R>(
    rt: R,
    alloc: Global,
    signals: Arc<Signals<Global>, Global>,
    flushers: Vec<F>,
    reclaimers: Vec<W>,
    session: WholeSession<L>,
) -> Result<(StoreSession<L>, Workers<L>)>
where
    L: Kinds + Send + Sync + 'static,
    F: Worker<Hand<L>> + Send + 'static,
    W: Worker<Hand<L>> + Send + 'static,
    R: Threads + Wait + Copy + Send + 'static,
    requires { vec_len flushers + vec_len reclaimers + 1 < 2 ^ 32 }
    ensures parts { IfOk result (λ r. r.0.steps.shares.parts + vec_len r.1.flushers + vec_len r.1.reclaimers ≡ 2 ^ 32) }
    ensures all { IfOk result (λ r. (vec_len r.1.flushers ≡ vec_len flushers) × (vec_len r.1.reclaimers ≡ vec_len reclaimers)) }
    ensures refused { IfErr result (λ e. e ≡ Memory) }
{
    let mut session = session.into_steps();
    let mut workers = Workers::none(signals, alloc);
    if workers
        .start(rt, flushers, reclaimers, &mut session)
        .is_err()
    {
        let _ = workers.join(&rt, session);
        return Err(Error::Memory);
    }
    Ok((StoreSession::new(session), workers))
}

// Opens an engine, and starts its workers.
fn run<R, I, T, L, K, V, P, N>(
    rt: R,
    alloc: Global,
    engine: N,
    context: EngineBuildContext<I, T>,
    blanks: Blanks,
    keeper: &Arc<Keeper<K, V, P, Global>, Global>,
) -> Result<RunningEngine<N::Engine, StoreSession<L>, Workers<L>>>
where
    R: Threads + Wait + Copy + Send + 'static,
    I: Drop,
    T: Clock,
    L: Kinds + Send + Sync + 'static,
    K: Eq + Drop,
    V: Drop,
    P: Drop,
    N: EngineConfig<R, EngineBuildContext<I, T>, WholeSession<L>, K, V, P>,
    N::Flusher: Worker<Hand<L>> + Send + 'static,
    N::Reclaimer: Worker<Hand<L>> + Send + 'static,
    N::Recoverer: Recoverer<N::Listed> + Send + 'static,
    N::Listed: Send + 'static,
    requires { N.fits blanks }
    ensures parts { IfOk result (λ r. r.session.steps.shares.parts + vec_len r.workers.flushers + vec_len r.workers.reclaimers ≡ 2 ^ 32) }
    ensures more { IfOk result (λ r. 1 < r.session.steps.shares.parts) }
    ensures enabled { IfOk result (λ r. r.is_enabled ≡ not (N.keeps_nothing engine)) }
    ensures built { IfOk result (λ r. N.may_build engine context r.engine r.throttle (vec_len r.workers.flushers) (vec_len r.workers.reclaimers)) }
    ensures refused { IfErr result (λ e. (e ≡ Memory) ⊎ N.may_refuse engine context e) }
{
    let is_enabled = !engine.is_noop();
    let opening = open::<R, _, WholeSession<L>, K, V, P, N>(rt, alloc, engine, context)?;
    let Built {
        engine,
        session,
        signals,
        flushers,
        reclaimers,
        statistics,
        throttle,
    } = N::build(opening, rt, alloc, blanks, keeper)?;
    let (session, workers) = start(rt, alloc, signals, flushers, reclaimers, session)?;
    Ok(RunningEngine::of_one(engine, session, workers, is_enabled, statistics, throttle))
}

impl<H, I, D, S, C, G> StoreBuilder<H, BlockEngineConfig<D, S, C, G>, I>
where
    H: Drop,
    I: Drop,
    D: Device,
    S: PickerSource,
    C: StorageFilterCondition,
    G: Gate,
{
    /// Checks the compression, and the numbers of the engine's config against its device, and leaves the device as it is. `build` and
    /// `open_engine` do so before they touch the device. Errors: `Unsupported` with a compression; else those of `BlockEngineConfig::check`.
    pub fn check(&self) -> Result<()>
        ensures compressed { self.now.compression ≢ compression.None → result ≡ Err Unsupported }
        ensures sound { self.now.compression ≡ compression.None → (IsOk result ↔ CanPlan self.now.engine.sizes (D.room self.now.engine.device)
            (D.room self.now.engine.device - total_size (D.sizes self.now.engine.device))) }
        ensures refused { self.now.compression ≡ compression.None → IfErr result (λ e. is_plan_error e ≡ true) }
    {
        if self.compression != Compression::None {
            return Err(Error::Unsupported);
        }
        self.engine.check()
    }
}

impl<H: Drop, N: Drop, I: Drop> StoreBuilder<H, N, I> {
    /// With an engine of this config. Default: `NoopEngineConfig`.
    pub fn with_engine_config<M: Drop>(self, engine: M) -> StoreBuilder<H, M, I>
        ensures engine { result.engine ≡ engine }
        ensures rest { (result.name ≡ self.name) × (result.hasher ≡ self.hasher) × (result.shards ≡ self.shards)
            × (result.io_engine ≡ self.io_engine) × (result.compression ≡ self.compression) × (result.recover_mode ≡ self.recover_mode) }
    {
        let StoreBuilder {
            name,
            hasher,
            shards,
            engine: _,
            io_engine,
            compression,
            recover_mode,
        } = self;
        StoreBuilder {
            name,
            hasher,
            shards,
            engine,
            io_engine,
            compression,
            recover_mode,
        }
    }

    /// With I/O engines of this config. Default: `PsyncIoEngineConfig`.
    pub fn with_io_engine_config<J: Drop>(self, io_engine: J) -> StoreBuilder<H, N, J>
        ensures io_engine { result.io_engine ≡ io_engine }
        ensures rest { (result.name ≡ self.name) × (result.hasher ≡ self.hasher) × (result.shards ≡ self.shards)
            × (result.engine ≡ self.engine) × (result.compression ≡ self.compression) × (result.recover_mode ≡ self.recover_mode) }
    {
        let StoreBuilder {
            name,
            hasher,
            shards,
            engine,
            io_engine: _,
            compression,
            recover_mode,
        } = self;
        StoreBuilder {
            name,
            hasher,
            shards,
            engine,
            io_engine,
            compression,
            recover_mode,
        }
    }

    /// With this compression. Default: `None`, and another is `Unsupported` at `build`.
    pub fn with_compression(self, compression: Compression) -> StoreBuilder<H, N, I>
        ensures { result ≡ record self { compression = compression } }
    {
        StoreBuilder {
            compression,
            ..self
        }
    }

    /// What an opening does with what it finds. Default: `Quiet`.
    pub fn with_recover_mode(self, recover_mode: RecoverMode) -> StoreBuilder<H, N, I>
        ensures { result ≡ record self { recover_mode = recover_mode } }
    {
        StoreBuilder {
            recover_mode,
            ..self
        }
    }

    /// Whether the store keeps nothing, whatever keys and values it is built for.
    pub fn is_noop<R: Copy, T: Clock, L: Kinds, K: Eq, V, P>(&self) -> bool
    where
        N: EngineConfig<R, EngineBuildContext<I, T>, WholeSession<L>, K, V, P>,
        ensures { result ≡ N.keeps_nothing self.now.engine }
    {
        self.engine.is_noop()
    }

    /// Opens the store. Gives the store, a session with all parts that its workers don't have, and the workers, which run. The recovery's
    /// threads have ended. The ledgers must fit `L` and have 2^32 parts (`Blanks::new`). The clock gives the moments at which reclaims
    /// ask their filter. The moments of the device's builder and of each call must count from the same origin (`SystemClock`). Errors, in
    /// this order: `Config` without a shard; `Unsupported` with a compression; those of the engine's config. `Memory` may also mean that
    /// a worker's thread can't be started. Then those that were started are joined.
    pub fn build<
        R: Threads + Wait + Copy + Send + 'static,
        T: Clock,
        L: Kinds + Send + Sync + 'static,
        K: Eq + Drop,
        V: Drop,
        P: Drop,
    >(
        self,
        rt: R,
        alloc: Global,
        blanks: Blanks,
        clock: T,
        generator: u64,
    ) -> Result<(Store<N::Engine, K, V, P, H>, StoreSession<L>, Workers<L>)>
    where
        N: EngineConfig<R, EngineBuildContext<I, T>, WholeSession<L>, K, V, P>,
        N::Flusher: Worker<Hand<L>> + Send + 'static,
        N::Reclaimer: Worker<Hand<L>> + Send + 'static,
        N::Recoverer: Recoverer<N::Listed> + Send + 'static,
        N::Listed: Send + 'static,
        requires { N.fits blanks }
        ensures parts { IfOk result (λ r. r.1.steps.shares.parts + vec_len r.2.flushers + vec_len r.2.reclaimers ≡ 2 ^ 32) }
        ensures more { IfOk result (λ r. 1 < r.1.steps.shares.parts) }
        ensures given { IfOk result (λ r. ((arc_value r.0.shared).name.now ≡ self.name.now) × ((arc_value r.0.shared).hasher ≡ self.hasher)
            × (arc_value (arc_value r.0.shared).keeper ≡ self.shards)) }
        ensures enabled { IfOk result (λ r. (arc_value r.0.shared).is_enabled ≡ not (N.keeps_nothing self.engine)) }
        ensures built { IfOk result (λ r. N.may_build self.engine (record {
          io_engine_config = self.io_engine;
          recover_mode = self.recover_mode;
          clock = clock;
          generator = generator;
        }) (arc_value r.0.shared).engine (arc_value r.0.shared).throttle (vec_len r.2.flushers) (vec_len r.2.reclaimers)) }
        ensures shardless { self.shards ≡ 0 → result ≡ Err Config }
        ensures compressed { self.shards ≢ 0 → self.compression ≢ compression.None → result ≡ Err Unsupported }
        ensures refused { self.shards ≢ 0 → self.compression ≡ compression.None → IfErr result (λ e. (e ≡ Memory) ⊎ N.may_refuse self.engine (record {
          io_engine_config = self.io_engine;
          recover_mode = self.recover_mode;
          clock = clock;
          generator = generator;
        }) e) }
    {
        let StoreBuilder {
            name,
            hasher,
            shards,
            engine,
            io_engine,
            compression,
            recover_mode,
        } = self;
        if shards == 0 {
            return Err(Error::Config);
        }
        let context = context_of(io_engine, compression, recover_mode, clock, generator)?;
        let keeper = Arc::new(alloc, Keeper::new(alloc, shards)?)?;
        let running = run::<R, I, T, L, K, V, P, N>(rt, alloc, engine, context, blanks, &keeper)?;
        running.into_store(&rt, alloc, name, hasher, keeper)
    }

    /// Opens the engine of one core of a store of several cores. `beside` makes one engine of two, and `RunningEngine::into_store` makes
    /// the store. All engines and the store must have the same keeper. Each core must have a device and ledgers of its own. Of this
    /// builder it takes only the engine's and the I/O engines' configs, the compression and the recovery's mode. Errors: those of
    /// `build`, but it doesn't look at the number of shards.
    pub fn open_engine<
        R: Threads + Wait + Copy + Send + 'static,
        T: Clock,
        L: Kinds + Send + Sync + 'static,
        K: Eq + Drop,
        V: Drop,
        P: Drop,
    >(
        self,
        rt: R,
        alloc: Global,
        blanks: Blanks,
        clock: T,
        generator: u64,
        keeper: &Arc<Keeper<K, V, P, Global>, Global>,
    ) -> Result<RunningEngine<N::Engine, StoreSession<L>, Workers<L>>>
    where
        N: EngineConfig<R, EngineBuildContext<I, T>, WholeSession<L>, K, V, P>,
        N::Flusher: Worker<Hand<L>> + Send + 'static,
        N::Reclaimer: Worker<Hand<L>> + Send + 'static,
        N::Recoverer: Recoverer<N::Listed> + Send + 'static,
        N::Listed: Send + 'static,
        requires { N.fits blanks }
        ensures parts { IfOk result (λ r. r.session.steps.shares.parts + vec_len r.workers.flushers + vec_len r.workers.reclaimers ≡ 2 ^ 32) }
        ensures more { IfOk result (λ r. 1 < r.session.steps.shares.parts) }
        ensures enabled { IfOk result (λ r. r.is_enabled ≡ not (N.keeps_nothing self.engine)) }
        ensures built { IfOk result (λ r. N.may_build self.engine (record {
          io_engine_config = self.io_engine;
          recover_mode = self.recover_mode;
          clock = clock;
          generator = generator;
        }) r.engine r.throttle (vec_len r.workers.flushers) (vec_len r.workers.reclaimers)) }
        ensures compressed { self.compression ≢ compression.None → result ≡ Err Unsupported }
        ensures refused { self.compression ≡ compression.None → IfErr result (λ e. (e ≡ Memory) ⊎ N.may_refuse self.engine (record {
          io_engine_config = self.io_engine;
          recover_mode = self.recover_mode;
          clock = clock;
          generator = generator;
        }) e) }
    {
        let StoreBuilder {
            name: _,
            hasher: _,
            shards: _,
            engine,
            io_engine,
            compression,
            recover_mode,
        } = self;
        let context = context_of(io_engine, compression, recover_mode, clock, generator)?;
        run::<R, I, T, L, K, V, P, N>(rt, alloc, engine, context, blanks, keeper)
    }
}
