//! How an engine over the blocks of a device is made.
ghost use Rattle.std.specs.Arc.{arc_value};
ghost use Rattle.std.specs.Prelude.{◌≡◌, ◌+◌, ◌*◌, ◌<◌, ◌≤◌, ◌^◌, IfErr, IfOk, map, replicate, vec_len};
ghost use Rattle.std.specs.List.{range_with_len};
ghost use Rattle.foyer_device_page.specs.declared.error.Error.TheVariants as error;
ghost use Rattle.foyer_storage_build.specs.Building.{IsOpenError};
ghost use Rattle.foyer_core_tally.specs.Ledgers.{AreOf};
ghost use Rattle.foyer_storage_store.specs.Lent.{generator_of};

use super::block::BlockEngineConfig;
use super::device_workers::{BlockFlusher, BlockReclaimer};
use super::disks::{Disks, Opened};
use super::dividing::{Counted, count, divide};
use super::pickers::PickerSource;
use super::recoverers::{BlockListings, BlockRecoverer, RecoveredBlocks, room_for};
use super::{Built, BuiltEngine, EngineBuildContext, EngineConfig, Recovering};
use crate::whole::WholeSession;
use foyer_block_manager::block::eviction::EvictionPicker;
use foyer_block_recover::block::listing::Listings;
use foyer_core_tally::book::{Blanks, Kinds};
use foyer_device_page::error::Result;
use foyer_device_partition::io::device::{Device, Partition};
use foyer_format_record::serde::{Code, Properties};
use foyer_io_engine::io::engine::{IoEngine, IoEngineConfig};
use foyer_io_gate::gate::Gate;
use foyer_policy_filter::{StorageFilter, StorageFilterCondition};
use foyer_policy_keeper::keeper::Keeper;
use foyer_storage_store::engine::core_steps::apply::Env;
use foyer_storage_workers::recover::add_all;
use foyer_storage_workers::workers::Clock;
use std::alloc::Global;
use std::rt::Files;
use std::sync::{Arc, Wait};
use std::thread::Threads;

// Makes the `Env` of a core.
fn env_of<E: EvictionPicker, C: StorageFilterCondition>(
    alloc: Global,
    pickers: Vec<E>,
    reinsertion: Option<StorageFilter<C, Global>>,
    seed: u64,
) -> Env<E, C>
    ensures { (result.pickers ≡ pickers) × (result.reinsertion ≡ reinsertion) × (result.generator ≡ generator_of seed) }
{
    let mut env = Env::new(alloc, pickers, seed).with_reinsertion(StorageFilter::new());
    let _ = env.replace_reinsertion(reinsertion);
    env
}

/// An opening over the blocks of a device that was divided and has its counters. It is a type of its own, so that proofs about those who
/// pass it on needn't look inside.
#[derive(Drop)]
pub struct BlockOpening<I, T, E, C, N, Q, G>
where
    I: Drop,
    T: Clock,
    E: EvictionPicker,
    C: StorageFilterCondition,
    N: IoEngine + Drop,
    Q: Partition + Copy + Drop,
    G: Gate,
{
    counted: Counted<Q>,
    listings: Listings<Global, RecoveredBlocks<N, Q, G>>,
    env: Env<E, C>,
    admission: Option<StorageFilter<C, Global>>,
    gate: Arc<G, Global>,
    context: EngineBuildContext<I, T>,
    ghost seats: { counted.settings.flushers + 2 * counted.settings.reclaimers + counted.loads + 2 < counted.recorder.view.parts },
    ghost loads: { 0 < counted.loads },
    ghost few: { counted.settings.flushers + 2 * counted.settings.reclaimers + 2 < 2 ^ 32 },
}

// Begins an opening, and makes the workers of its recovery.
fn begin<R, I, T, E, C, Q, G>(
    rt: &R,
    alloc: Global,
    counted: Counted<Q>,
    env: Env<E, C>,
    admission: Option<StorageFilter<C, Global>>,
    gate: G,
    context: EngineBuildContext<I, T>,
) -> Result<Recovering<BlockOpening<I, T, E, C, I::Engine, Q, G>, BlockRecoverer<I::Engine, Q, G>>>
where
    I: IoEngineConfig<R> + Drop,
    T: Clock,
    E: EvictionPicker,
    C: StorageFilterCondition,
    Q: Partition + Copy + Drop,
    G: Gate,
    requires parts { counted.recorder.view.parts ≡ 2 ^ 32 }
    requires seats { counted.settings.flushers + 2 * counted.settings.reclaimers + counted.recoverers + counted.loads + 2 < 2 ^ 32 }
    requires loads { 0 < counted.loads }
    ensures counted { IfOk result (λ r. (r.opening.counted.settings ≡ counted.settings) × (r.opening.counted.throttle ≡ counted.throttle)
        × (r.opening.counted.summary ≡ counted.summary) × (r.opening.counted.log ≡ counted.log)
        × (r.opening.counted.blocks ≡ counted.blocks) × (r.opening.counted.loads ≡ counted.loads)
        × (r.opening.counted.patience ≡ counted.patience)) }
    ensures lent { IfOk result (λ r. (r.opening.env ≡ env) × (r.opening.admission ≡ admission) × (r.opening.context ≡ context)) }
    ensures few { IfOk result (λ r. vec_len r.recoverers ≤ counted.recoverers) }
    ensures read { IfOk result (λ r. map (λ w. w.recoverer.disk.disk.blocks.items) r.recoverers.items ≡ replicate (vec_len r.recoverers) counted.blocks.items) }
    ensures refused { IfErr result (λ e. e ≡ error.Memory) }
{
    let gate = Arc::new(alloc, gate)?;
    let mode = context.recover_mode;
    let Counted {
        log,
        blocks,
        settings,
        recoverers: count,
        loads,
        patience,
        summary,
        throttle,
        paths,
        mut recorder,
        statistics,
    } = counted;
    let disks = Disks {
        rt,
        config: &context.io_engine_config,
        paths: paths.as_slice(),
        blocks: blocks.as_slice(),
    };
    let recoverers = disks.recoverers(alloc, &mut recorder, settings, mode, &gate, count);
    let counted = Counted {
        log,
        blocks,
        settings,
        recoverers: count,
        loads,
        patience,
        summary,
        throttle,
        paths,
        recorder,
        statistics,
    };
    let listings = room_for(alloc, settings.blocks, recoverers.as_slice())?;
    let opening = BlockOpening {
        counted,
        listings,
        env,
        admission,
        gate,
        context,
    };
    Ok(Recovering {
        opening,
        recoverers,
    })
}

// Makes the engine and its workers from an opening that has what the recovery's workers listed.
fn finish<R, I, T, L, K, V, P, E, C, Q, G>(
    rt: &R,
    alloc: Global,
    opening: BlockOpening<I, T, E, C, I::Engine, Q, G>,
    blanks: Blanks,
    keeper: &Arc<Keeper<K, V, P, Global>, Global>,
) -> Result<
    Built<
        BuiltEngine<L, K, V, P, E, C, I::Engine, Q, G>,
        BlockFlusher<L, K, V, P, E, C, I::Engine, Q, G>,
        BlockReclaimer<L, K, V, P, E, C, I::Engine, Q, G, T>,
        WholeSession<L>,
    >,
>
where
    I: IoEngineConfig<R> + Drop,
    T: Clock + Copy,
    L: Kinds,
    K: Code<Global> + Eq + Drop,
    V: Code<Global> + Drop,
    P: Properties + Drop,
    E: EvictionPicker,
    C: StorageFilterCondition,
    Q: Partition + Copy + Drop,
    G: Gate,
    requires ledgers { AreOf L.name_of L.all blanks × (L.all ≡ 2 ^ 32) }
    ensures parts { IfOk result (λ b. vec_len b.flushers + vec_len b.reclaimers + 1 < 2 ^ 32) }
    ensures built { IfOk result (λ b. (b.engine.admission ≡ opening.admission) × (b.engine.throttle ≡ opening.counted.throttle)
        × (b.throttle ≡ opening.counted.throttle) × (b.engine.device ≡ opening.counted.summary) × (b.statistics ≡ opening.counted.statistics)) }
    ensures settings { IfOk result (λ b. (arc_value b.engine.engine).settings ≡ opening.counted.settings) }
    ensures mode { IfOk result (λ b. (arc_value b.engine.engine).shared.mode ≡ opening.context.recover_mode) }
    ensures workers { IfOk result (λ b. (vec_len b.flushers ≡ opening.counted.settings.flushers)
        × (vec_len b.reclaimers ≡ opening.counted.settings.reclaimers)) }
    ensures numbers { IfOk result (λ b. map (λ w. w.worker.parts.flusher) b.flushers.items ≡ range_with_len 0 opening.counted.settings.flushers) }
    ensures blocks { IfOk result (λ b.
        (map (λ w. w.worker.parts.disk.blocks.items) b.flushers.items ≡ replicate opening.counted.settings.flushers opening.counted.blocks.items)
        × (map (λ w. w.worker.parts.disk.blocks.items) b.reclaimers.items ≡ replicate opening.counted.settings.reclaimers opening.counted.blocks.items)) }
    ensures loads { IfOk result (λ b. (vec_len (arc_value b.engine.engine).others + 1 ≡ opening.counted.loads)
        × ((arc_value b.engine.engine).patience ≡ opening.counted.patience)) }
    ensures refused { IfErr result (λ e. IsOpenError opening.context.recover_mode e) }
{
    let BlockOpening {
        counted,
        listings,
        env,
        admission,
        gate,
        context,
    } = opening;
    let Counted {
        log,
        blocks,
        settings,
        recoverers: _,
        loads,
        patience,
        summary,
        throttle,
        paths,
        mut recorder,
        statistics,
    } = counted;
    let disks = Disks {
        rt,
        config: &context.io_engine_config,
        paths: paths.as_slice(),
        blocks: blocks.as_slice(),
    };
    let mode = context.recover_mode;
    let opened = disks.open(
        alloc,
        &mut recorder,
        settings,
        loads,
        patience,
        log,
        mode,
        listings,
        env,
        gate,
        blanks,
    )?;
    let Opened {
        engine,
        session,
        log,
    } = opened;
    let signals = Arc::try_clone(engine.signals())?;
    let count = settings.flushers;
    let flushers = disks.flushers(alloc, &mut recorder, &engine, keeper, log, count)?;
    let count = settings.reclaimers;
    let reclaimers = disks.reclaimers(alloc, &mut recorder, &engine, context.clock, count)?;
    let built = BuiltEngine::new(engine, admission, recorder, throttle, summary);
    Ok(Built {
        engine: built,
        session,
        signals,
        flushers,
        reclaimers,
        statistics,
        throttle,
    })
}

impl<R, I, T, L, K, V, P, D, S, C, G> EngineConfig<
    R,
    EngineBuildContext<I, T>,
    WholeSession<L>,
    K,
    V,
    P,
> for BlockEngineConfig<D, S, C, G>
where
    R: Threads + Wait + Files + Copy + Send + 'static,
    I: IoEngineConfig<R> + Drop,
    I::Engine: Send + 'static,
    T: Clock + Copy + Send + 'static,
    L: Kinds + Send + Sync + 'static,
    K: Code<Global> + Eq + Drop + Send + Sync + 'static,
    V: Code<Global> + Drop + Send + Sync + 'static,
    P: Properties + Drop + Send + Sync + 'static,
    D: Device,
    D::Partition: Drop + Send + 'static,
    S: PickerSource,
    S::Picker: Send + 'static,
    C: StorageFilterCondition + Send + Sync + 'static,
    G: Gate + Send + Sync + 'static,
{
    ghost use Rattle.std.specs.Arc.{arc_value};
    ghost use Rattle.std.specs.Prelude.{◌≡◌, ◌+◌, ◌^◌, false, vec_len};
    ghost use Rattle.foyer_storage_plan.specs.Plans.{settings_of};
    ghost use Rattle.foyer_core_tally.specs.Ledgers.{AreOf};
    ghost use Rattle.foyer_storage_store.specs.Lent.{generator_of};
    ghost use Rattle.foyer_storage_build.specs.Building.{IsOpenError};
    ghost use Rattle.foyer_storage_build.specs.declared.config.EngineBuildContext.{EngineBuildContext};
    ghost use Rattle.foyer_storage_build.specs.declared.config.block.BlockEngineConfig.{BlockEngineConfig};

    ghost fits = { λ blanks. AreOf L.name_of L.all blanks × (L.all ≡ 2 ^ 32) };

    ghost keeps_nothing = { λ _. false };

    type Engine = BuiltEngine<L, K, V, P, S::Picker, C, I::Engine, D::Partition, G>;

    type Flusher = BlockFlusher<L, K, V, P, S::Picker, C, I::Engine, D::Partition, G>;

    type Reclaimer = BlockReclaimer<L, K, V, P, S::Picker, C, I::Engine, D::Partition, G, T>;

    type Opening = BlockOpening<I, T, S::Picker, C, I::Engine, D::Partition, G>;

    type Recoverer = BlockRecoverer<I::Engine, D::Partition, G>;

    type Listed = BlockListings<I::Engine, D::Partition, G>;

    ghost may_begin = { λ config context opening. (opening.admission ≡ config.admission) × (opening.counted.throttle ≡ D.limits config.device)
        × (opening.counted.summary.capacity ≡ D.room config.device) × (opening.counted.settings
        ≡ settings_of config.sizes opening.counted.settings.blocks opening.counted.settings.indexer_shards)
        × (opening.counted.loads ≡ config.sizes.load_engines) × (opening.counted.patience ≡ config.sizes.enqueue_patience) × (opening.env.reinsertion ≡ config.reinsertion)
        × S.gives config.pickers opening.env.pickers.items × (opening.env.generator ≡ generator_of context.generator)
        × (opening.context ≡ context) };

    ghost may_refuse = { λ _ context e. IsOpenError context.recover_mode e };

    ghost may_build = { λ config context engine throttle flushers reclaimers. (engine.admission ≡ config.admission) × ((arc_value engine.engine).shared.mode ≡ context.recover_mode) × (engine.throttle ≡ throttle)
        × (throttle ≡ D.limits config.device) × (engine.device.capacity ≡ D.room config.device)
        × ((arc_value engine.engine).settings
        ≡ settings_of config.sizes (arc_value engine.engine).settings.blocks (arc_value engine.engine).settings.indexer_shards)
        × (vec_len (arc_value engine.engine).others + 1 ≡ config.sizes.load_engines) × ((arc_value engine.engine).patience ≡ config.sizes.enqueue_patience)
        × (flushers ≡ config.sizes.flushers) × (reclaimers ≡ config.sizes.reclaimers) };

    fn is_noop(&self) -> bool {
        false
    }

    fn begin(
        self,
        rt: R,
        alloc: Global,
        context: EngineBuildContext<I, T>,
    ) -> Result<
        Recovering<
            BlockOpening<I, T, S::Picker, C, I::Engine, D::Partition, G>,
            BlockRecoverer<I::Engine, D::Partition, G>,
        >,
    >
        ensures begun { IfOk result (λ r. (r.opening.admission ≡ self.admission) × (r.opening.counted.throttle ≡ D.limits self.device)
            × (r.opening.counted.summary.capacity ≡ D.room self.device) × (r.opening.counted.settings
            ≡ settings_of self.sizes r.opening.counted.settings.blocks r.opening.counted.settings.indexer_shards)
            × (r.opening.counted.loads ≡ self.sizes.load_engines) × (r.opening.counted.patience ≡ self.sizes.enqueue_patience) × (r.opening.env.reinsertion ≡ self.reinsertion)
            × S.gives self.pickers r.opening.env.pickers.items × (r.opening.env.generator ≡ generator_of context.generator)
            × (r.opening.context ≡ context)) }
        ensures refused { IfErr result (λ e. IsOpenError context.recover_mode e) }
    {
        let BlockEngineConfig {
            device,
            sizes,
            pickers,
            admission,
            reinsertion,
            gate,
        } = self;
        let divided = divide(&rt, alloc, device, &sizes)?;
        let counted = count(alloc, divided, context.clock.now())?;
        let pickers = pickers.into_pickers(alloc)?;
        let env = env_of(alloc, pickers, reinsertion, context.generator);
        begin(&rt, alloc, counted, env, admission, gate, context)
    }

    fn add(
        opening: BlockOpening<I, T, S::Picker, C, I::Engine, D::Partition, G>,
        listed: BlockListings<I::Engine, D::Partition, G>,
    ) -> BlockOpening<I, T, S::Picker, C, I::Engine, D::Partition, G>
        ensures kept { (config : BlockEngineConfig D S C G D.Partition S.Picker) (context : EngineBuildContext I T) → (opening.admission ≡ config.admission)
            × (opening.counted.throttle ≡ D.limits config.device) × (opening.counted.summary.capacity ≡ D.room config.device)
            × (opening.counted.settings
            ≡ settings_of config.sizes opening.counted.settings.blocks opening.counted.settings.indexer_shards)
            × (opening.counted.loads ≡ config.sizes.load_engines) × (opening.counted.patience ≡ config.sizes.enqueue_patience) × (opening.env.reinsertion ≡ config.reinsertion)
            × S.gives config.pickers opening.env.pickers.items × (opening.env.generator ≡ generator_of context.generator)
            × (opening.context ≡ context)
            → (result.admission ≡ config.admission)
            × (result.counted.throttle ≡ D.limits config.device) × (result.counted.summary.capacity ≡ D.room config.device)
            × (result.counted.settings
            ≡ settings_of config.sizes result.counted.settings.blocks result.counted.settings.indexer_shards)
            × (result.counted.loads ≡ config.sizes.load_engines) × (result.counted.patience ≡ config.sizes.enqueue_patience) × (result.env.reinsertion ≡ config.reinsertion)
            × S.gives config.pickers result.env.pickers.items × (result.env.generator ≡ generator_of context.generator)
            × (result.context ≡ context) }
    {
        let mut opening = opening;
        add_all(&mut opening.listings, listed.listings);
        opening
    }

    fn build(
        opening: BlockOpening<I, T, S::Picker, C, I::Engine, D::Partition, G>,
        rt: R,
        alloc: Global,
        blanks: Blanks,
        keeper: &Arc<Keeper<K, V, P, Global>, Global>,
    ) -> Result<
        Built<
            BuiltEngine<L, K, V, P, S::Picker, C, I::Engine, D::Partition, G>,
            BlockFlusher<L, K, V, P, S::Picker, C, I::Engine, D::Partition, G>,
            BlockReclaimer<L, K, V, P, S::Picker, C, I::Engine, D::Partition, G, T>,
            WholeSession<L>,
        >,
    >
        requires { AreOf L.name_of L.all blanks × (L.all ≡ 2 ^ 32) }
        ensures parts { IfOk result (λ b. vec_len b.flushers + vec_len b.reclaimers + 1 < 2 ^ 32) }
        ensures built { (config : BlockEngineConfig D S C G D.Partition S.Picker) (context : EngineBuildContext I T) → (opening.admission ≡ config.admission)
            × (opening.counted.throttle ≡ D.limits config.device) × (opening.counted.summary.capacity ≡ D.room config.device)
            × (opening.counted.settings
            ≡ settings_of config.sizes opening.counted.settings.blocks opening.counted.settings.indexer_shards)
            × (opening.counted.loads ≡ config.sizes.load_engines) × (opening.counted.patience ≡ config.sizes.enqueue_patience) × (opening.env.reinsertion ≡ config.reinsertion)
            × S.gives config.pickers opening.env.pickers.items × (opening.env.generator ≡ generator_of context.generator)
            × (opening.context ≡ context) → IfOk result (λ b. (b.engine.admission ≡ config.admission) × ((arc_value b.engine.engine).shared.mode ≡ context.recover_mode) × (b.engine.throttle ≡ b.throttle)
            × (b.throttle ≡ D.limits config.device) × (b.engine.device.capacity ≡ D.room config.device)
            × ((arc_value b.engine.engine).settings
            ≡ settings_of config.sizes (arc_value b.engine.engine).settings.blocks (arc_value b.engine.engine).settings.indexer_shards)
            × (vec_len (arc_value b.engine.engine).others + 1 ≡ config.sizes.load_engines) × ((arc_value b.engine.engine).patience ≡ config.sizes.enqueue_patience)
            × (vec_len b.flushers ≡ config.sizes.flushers) × (vec_len b.reclaimers ≡ config.sizes.reclaimers)) }
        ensures refused { (config : BlockEngineConfig D S C G D.Partition S.Picker) (context : EngineBuildContext I T) → (opening.admission ≡ config.admission)
            × (opening.counted.throttle ≡ D.limits config.device) × (opening.counted.summary.capacity ≡ D.room config.device)
            × (opening.counted.settings
            ≡ settings_of config.sizes opening.counted.settings.blocks opening.counted.settings.indexer_shards)
            × (opening.counted.loads ≡ config.sizes.load_engines) × (opening.counted.patience ≡ config.sizes.enqueue_patience) × (opening.env.reinsertion ≡ config.reinsertion)
            × S.gives config.pickers opening.env.pickers.items × (opening.env.generator ≡ generator_of context.generator)
            × (opening.context ≡ context) → IfErr result (λ e. IsOpenError context.recover_mode e) }
    {
        finish(&rt, alloc, opening, blanks, keeper)
    }
}
