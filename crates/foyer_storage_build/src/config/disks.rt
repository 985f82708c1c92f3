//! The disks over a device's blocks, and what is opened and made with each.
ghost use Rattle.std.specs.Arc.{arc_value};
ghost use Rattle.std.specs.Prelude.{◌≡◌, ◌⊎◌, ◌+◌, ◌*◌, ◌++◌, ◌<◌, ◌≤◌, ◌^◌, IfErr, IfOk, IfSome, OnOk, is_some, map, replicate, true, vec_len};
ghost use Rattle.std.specs.List.{range_with_len};
ghost use Rattle.foyer_device_page.specs.declared.error.Error.TheVariants as error;
ghost use Rattle.foyer_io_engine.specs.Disk.{IfKnown};
ghost use Rattle.foyer_block_tombstone.specs.PageBytes.{ring_on};
ghost use Rattle.foyer_block_tombstone.specs.Pages.{pages_of};
ghost use Rattle.foyer_block_tombstone.specs.Ring.{marks_of};
ghost use Rattle.foyer_storage_build.specs.Building.{IsOpenError, is_disk_error};
ghost use Rattle.foyer_core_tally.specs.Ledgers.{AreOf};

use super::device_workers::{BlockFlusher, BlockReclaimer, DeviceLog};
use super::recoverers::{BlockRecoverer, RecoveredBlocks};
use super::{DeviceBlocks, DeviceEngine};
use crate::whole::WholeSession;
use foyer_block_index::tombstone::Tombstone;
use foyer_block_manager::block::eviction::EvictionPicker;
use foyer_block_recover::block::listing::Listings;
use foyer_block_tombstone::block::tombstone::TombstoneLog;
use foyer_core_tally::book::{Blanks, Kinds};
use foyer_device_page::error::Result;
use foyer_device_partition::io::device::Partition;
use foyer_device_statistics::Recorder;
use foyer_format_record::serde::{Code, Properties};
use foyer_io_blocks::partitions::PartitionedDisk;
use foyer_io_engine::io::engine::{IoEngine, IoEngineBuildContext, IoEngineConfig};
use foyer_io_gate::gate::{Gate, GatedDisk};
use foyer_io_monitor::MonitoredIoEngine;
use foyer_policy_filter::StorageFilterCondition;
use foyer_policy_keeper::keeper::Keeper;
use foyer_storage_store::engine::core_shared::locked::Locked;
use foyer_storage_store::engine::core_shared::notes::NoNotes;
use foyer_storage_store::engine::core_shared::session::Session;
use foyer_storage_store::engine::core_shared::shared::Shared;
use foyer_storage_store::engine::core_steps::apply::Env;
use foyer_storage_store::engine::core_steps::open::RecoverMode;
use foyer_storage_store::engine::core_steps::settings::Settings;
use foyer_storage_store::engine::engine::BlockEngine;
use foyer_storage_workers::recover::DiskRecoverer;
use foyer_storage_workers::workers::{
    Clock, FlusherParts, FlusherWorker, ReclaimerParts, ReclaimerWorker,
};
use std::alloc::Global;
use std::sync::{Arc, Mutex};

// Disks over the same blocks, each with an I/O engine of its own.
#[derive(Drop)]
pub(super) struct Disks<'a, R, I, Q> {
    pub(super) rt: &'a R,
    pub(super) config: &'a I,
    pub(super) paths: &'a [String],
    pub(super) blocks: &'a [Q],
}

impl<R, I: IoEngineConfig<R>, Q: Partition + Copy> Disks<'_, R, I, Q> {
    fn engine(&self) -> Result<I::Engine>
        ensures refused { IfErr result (λ e. is_disk_error e ≡ true) }
    {
        self.config
            .build(self.rt, &IoEngineBuildContext { files: self.paths })
    }

    // A disk whose accesses are recorded with one of the recorder's parts.
    fn disk(
        &self,
        alloc: Global,
        recorder: &mut Recorder<Global>,
    ) -> Result<DeviceBlocks<I::Engine, Q>>
        requires { 1 < recorder.old.view.parts }
        ensures seats { OnOk result (recorder.new.view.parts + 1 ≡ recorder.old.view.parts) }
        ensures left { recorder.old.view.parts ≤ recorder.new.view.parts + 1 }
        ensures blocks { IfOk result (λ d. d.blocks.items ≡ self.now.blocks.now) }
        ensures refused { IfErr result (λ e. is_disk_error e ≡ true) }
    {
        let engine = MonitoredIoEngine::new(self.engine()?, recorder.split(1)?);
        let blocks = Vec::from_slice(alloc, self.blocks)?;
        Ok(PartitionedDisk::new(engine, blocks))
    }

    // So many disks.
    fn disks(
        &self,
        alloc: Global,
        recorder: &mut Recorder<Global>,
        count: u32,
    ) -> Result<Vec<DeviceBlocks<I::Engine, Q>>>
    where
        Q: Drop,
        requires { count < recorder.old.view.parts }
        ensures count { IfOk result (λ disks. vec_len disks ≡ count) }
        ensures seats { OnOk result (recorder.new.view.parts + count ≡ recorder.old.view.parts) }
        ensures refused { IfErr result (λ e. is_disk_error e ≡ true) }
    {
        let mut disks = Vec::with_capacity(alloc, count as usize)?;
        for made in 0..count {
            disks.push(self.disk(alloc, recorder)?)?;
        }
        Ok(disks)
    }

    // A worker of a recovery, by this number of so many.
    fn recoverer<G: Gate>(
        &self,
        alloc: Global,
        recorder: &mut Recorder<Global>,
        settings: Settings,
        mode: RecoverMode,
        gate: &Arc<G, Global>,
        worker: u32,
        workers: u32,
    ) -> Result<BlockRecoverer<I::Engine, Q, G>>
    where
        Q: Drop,
        requires { 1 < recorder.old.view.parts }
        ensures left { recorder.old.view.parts ≤ recorder.new.view.parts + 1 }
        ensures number { IfOk result (λ r. (r.recoverer.worker ≡ worker) × (r.recoverer.workers ≡ workers)) }
        ensures opens { IfOk result (λ r. (r.recoverer.settings ≡ settings) × (r.recoverer.mode ≡ mode)) }
        ensures blocks { IfOk result (λ r. r.recoverer.disk.disk.blocks.items ≡ self.now.blocks.now) }
    {
        let gate = Arc::try_clone(gate)?;
        let disk = self.disk(alloc, recorder)?;
        let recoverer = DiskRecoverer {
            settings,
            mode,
            disk: GatedDisk { disk, gate },
            worker,
            workers,
        };
        Ok(BlockRecoverer { recoverer, alloc })
    }

    // Makes this many workers of a recovery, or fewer if one can't be made. Whoever opens the core reads the blocks of a worker that wasn't
    // made. It makes none if nothing is read, or if one thread is enough.
    pub(super) fn recoverers<G: Gate>(
        &self,
        alloc: Global,
        recorder: &mut Recorder<Global>,
        settings: Settings,
        mode: RecoverMode,
        gate: &Arc<G, Global>,
        count: u32,
    ) -> Vec<BlockRecoverer<I::Engine, Q, G>>
    where
        Q: Drop,
        requires { count < recorder.old.view.parts }
        ensures left { recorder.old.view.parts ≤ recorder.new.view.parts + count }
        ensures few { vec_len result ≤ count }
        ensures blocks { map (λ r. r.recoverer.disk.disk.blocks.items) result.items ≡ replicate (vec_len result) self.now.blocks.now }
    {
        let mut recoverers = Vec::new(alloc);
        if mode == RecoverMode::None || count < 2 {
            return recoverers;
        }
        for worker in 0..count {
            let made = self.recoverer(alloc, recorder, settings, mode, gate, worker, count);
            let Ok(recoverer) = made else {
                return recoverers;
            };
            if recoverers.push(recoverer).is_err() {
                return recoverers;
            }
        }
        recoverers
    }

    // The log in its partition, if there is one. Its accesses are recorded with one of the recorder's parts. Appends the log's marks to
    // `marks`.
    fn log(
        &self,
        alloc: Global,
        recorder: &mut Recorder<Global>,
        partition: Option<Q>,
        marks: &mut Vec<Tombstone>,
    ) -> Result<DeviceLog<I::Engine, Q>>
    where
        Q: Drop,
        requires { 1 < recorder.old.view.parts }
        ensures left { recorder.old.view.parts ≤ recorder.new.view.parts + 1 }
        ensures made { IfOk result (λ log. is_some log ≡ is_some partition) }
        ensures marks { IfOk result (λ log. IfSome log (λ l. IfKnown (⟦<MonitoredIoEngine<I::Engine, Global> as IoEngine>⟧.disk l.engine)
            (λ d. marks.new.items ≡ marks.old.items ++ marks_of (ring_on d l.places) (256 * pages_of l.places)))) }
        ensures refused { IfErr result (λ e. (is_disk_error e ≡ true) ⊎ (e ≡ error.OutOfRange)) }
    {
        let Some(partition) = partition else {
            return Ok(None);
        };
        let mut partitions = Vec::new(alloc);
        partitions.push(partition)?;
        let engine = MonitoredIoEngine::new(self.engine()?, recorder.split(1)?);
        let log = TombstoneLog::open(alloc, partitions, engine, marks)?;
        Ok(Some(log))
    }

    // A flusher's worker.
    fn flusher<L, K, V, P, E, C, G>(
        &self,
        alloc: Global,
        recorder: &mut Recorder<Global>,
        engine: &Arc<DeviceEngine<L, K, V, P, E, C, I::Engine, Q, G>, Global>,
        keeper: &Arc<Keeper<K, V, P, Global>, Global>,
        log: &Arc<Mutex<DeviceLog<I::Engine, Q>>, Global>,
        flusher: u32,
    ) -> Result<BlockFlusher<L, K, V, P, E, C, I::Engine, Q, G>>
    where
        L: Kinds,
        K: Code<Global> + Eq + Drop,
        V: Code<Global> + Drop,
        P: Properties + Drop,
        E: EvictionPicker,
        C: StorageFilterCondition,
        G: Gate,
        Q: Drop,
        requires { 1 < recorder.old.view.parts }
        ensures seats { OnOk result (recorder.new.view.parts + 1 ≡ recorder.old.view.parts) }
        ensures number { IfOk result (λ w. w.worker.parts.flusher ≡ flusher) }
        ensures blocks { IfOk result (λ w. w.worker.parts.disk.blocks.items ≡ self.now.blocks.now) }
        ensures refused { IfErr result (λ e. is_disk_error e ≡ true) }
    {
        let engine = Arc::try_clone(engine)?;
        let log = Arc::try_clone(log)?;
        let keeper = Arc::try_clone(keeper)?;
        let disk = self.disk(alloc, recorder)?;
        let parts = FlusherParts {
            flusher,
            disk,
            log,
            keeper,
        };
        let worker = FlusherWorker { engine, parts };
        Ok(BlockFlusher { worker })
    }

    // A worker for each flusher.
    pub(super) fn flushers<L, K, V, P, E, C, G>(
        &self,
        alloc: Global,
        recorder: &mut Recorder<Global>,
        engine: &Arc<DeviceEngine<L, K, V, P, E, C, I::Engine, Q, G>, Global>,
        keeper: &Arc<Keeper<K, V, P, Global>, Global>,
        log: DeviceLog<I::Engine, Q>,
        count: u32,
    ) -> Result<Vec<BlockFlusher<L, K, V, P, E, C, I::Engine, Q, G>>>
    where
        L: Kinds,
        K: Code<Global> + Eq + Drop,
        V: Code<Global> + Drop,
        P: Properties + Drop,
        E: EvictionPicker,
        C: StorageFilterCondition,
        G: Gate,
        Q: Drop,
        requires { count < recorder.old.view.parts }
        ensures count { IfOk result (λ workers. vec_len workers ≡ count) }
        ensures numbers { IfOk result (λ workers. map (λ w. w.worker.parts.flusher) workers.items ≡ range_with_len 0 count) }
        ensures blocks { IfOk result (λ workers. map (λ w. w.worker.parts.disk.blocks.items) workers.items ≡ replicate count self.now.blocks.now) }
        ensures seats { OnOk result (recorder.new.view.parts + count ≡ recorder.old.view.parts) }
        ensures refused { IfErr result (λ e. is_disk_error e ≡ true) }
    {
        let log = Arc::new(alloc, Mutex::new(log))?;
        let mut workers = Vec::with_capacity(alloc, count as usize)?;
        for flusher in 0..count {
            workers.push(self.flusher(alloc, recorder, engine, keeper, &log, flusher)?)?;
        }
        Ok(workers)
    }

    // A reclaimer's worker.
    fn reclaimer<L, K, V, P, E, C, G, T>(
        &self,
        alloc: Global,
        recorder: &mut Recorder<Global>,
        engine: &Arc<DeviceEngine<L, K, V, P, E, C, I::Engine, Q, G>, Global>,
        clock: T,
    ) -> Result<BlockReclaimer<L, K, V, P, E, C, I::Engine, Q, G, T>>
    where
        L: Kinds,
        K: Code<Global> + Drop,
        V: Code<Global> + Drop,
        P: Properties + Drop,
        E: EvictionPicker,
        C: StorageFilterCondition,
        G: Gate,
        T: Clock + Copy,
        requires { 2 < recorder.old.view.parts }
        ensures seats { OnOk result (recorder.new.view.parts + 2 ≡ recorder.old.view.parts) }
        ensures blocks { IfOk result (λ w. w.worker.parts.disk.blocks.items ≡ self.now.blocks.now) }
        ensures refused { IfErr result (λ e. is_disk_error e ≡ true) }
    {
        let engine = Arc::try_clone(engine)?;
        let disk = self.disk(alloc, recorder)?;
        let recorder = recorder.split(1)?;
        let parts = ReclaimerParts {
            disk,
            recorder,
            clock,
        };
        let worker = ReclaimerWorker { engine, parts };
        Ok(BlockReclaimer { worker })
    }

    // A worker for each reclaimer.
    pub(super) fn reclaimers<L, K, V, P, E, C, G, T>(
        &self,
        alloc: Global,
        recorder: &mut Recorder<Global>,
        engine: &Arc<DeviceEngine<L, K, V, P, E, C, I::Engine, Q, G>, Global>,
        clock: T,
        count: u32,
    ) -> Result<Vec<BlockReclaimer<L, K, V, P, E, C, I::Engine, Q, G, T>>>
    where
        L: Kinds,
        K: Code<Global> + Drop,
        V: Code<Global> + Drop,
        P: Properties + Drop,
        E: EvictionPicker,
        C: StorageFilterCondition,
        G: Gate,
        T: Clock + Copy,
        requires { 2 * count < recorder.old.view.parts }
        ensures count { IfOk result (λ workers. vec_len workers ≡ count) }
        ensures blocks { IfOk result (λ workers. map (λ w. w.worker.parts.disk.blocks.items) workers.items ≡ replicate count self.now.blocks.now) }
        ensures seats { OnOk result (recorder.new.view.parts + 2 * count ≡ recorder.old.view.parts) }
        ensures refused { IfErr result (λ e. is_disk_error e ≡ true) }
    {
        let mut workers = Vec::with_capacity(alloc, count as usize)?;
        for _ in 0..count {
            workers.push(self.reclaimer(alloc, recorder, engine, clock)?)?;
        }
        Ok(workers)
    }

    // Opens the core and the engine over it. It reads the log's marks first, then the blocks of which there is no listing. It passes the
    // gate before it reads such a block.
    pub(super) fn open<L, K, V, P, E, C, G>(
        &self,
        alloc: Global,
        recorder: &mut Recorder<Global>,
        settings: Settings,
        loads: u32,
        patience: u32,
        log: Option<Q>,
        mode: RecoverMode,
        listings: Listings<Global, RecoveredBlocks<I::Engine, Q, G>>,
        env: Env<E, C>,
        gate: Arc<G, Global>,
        blanks: Blanks,
    ) -> Result<Opened<L, K, V, P, E, C, I::Engine, Q, G>>
    where
        L: Kinds,
        K: Code<Global> + Drop,
        V: Code<Global> + Drop,
        P: Properties + Drop,
        E: EvictionPicker,
        C: StorageFilterCondition,
        G: Gate,
        Q: Drop,
        requires seats { loads + 1 < recorder.old.view.parts }
        requires some { 0 < loads }
        requires ledgers { AreOf L.name_of L.all blanks × (L.all ≡ 2 ^ 32) }
        ensures seats { OnOk result (recorder.old.view.parts ≤ recorder.new.view.parts + loads + 1) }
        ensures settings { IfOk result (λ o. (arc_value o.engine).settings ≡ settings) }
        ensures mode { IfOk result (λ o. (arc_value o.engine).shared.mode ≡ mode) }
        ensures log { IfOk result (λ o. is_some o.log ≡ is_some log) }
        ensures loads { IfOk result (λ o. (vec_len (arc_value o.engine).others + 1 ≡ loads) × ((arc_value o.engine).patience ≡ patience)) }
        ensures refused { IfErr result (λ e. IsOpenError mode e) }
    {
        let mut marks = Vec::new(alloc);
        let log = self.log(alloc, recorder, log, &mut marks)?;
        let reader = self.disk(alloc, recorder)?;
        let others = self.disks(alloc, recorder, loads - 1)?;
        let (engine, session) = open_engine(
            alloc, settings, patience, reader, others, mode, &marks, listings, env, gate, blanks,
        )?;
        Ok(Opened {
            engine,
            session,
            log,
        })
    }
}

// An opened engine, with the session that has all parts, and the log of deletes.
#[derive(Drop)]
pub(super) struct Opened<L, K, V, P, E, C, N, Q, G>
where
    L: Kinds,
    K: Code<Global>,
    V: Code<Global>,
    P: Properties + Drop,
    E: EvictionPicker,
    C: StorageFilterCondition,
    N: IoEngine + Drop,
    Q: Partition + Copy + Drop,
    G: Gate,
{
    pub(super) engine: Arc<DeviceEngine<L, K, V, P, E, C, N, Q, G>, Global>,
    pub(super) session: WholeSession<L>,
    pub(super) log: DeviceLog<N, Q>,
}

// Opens a core over a disk, with what workers listed of its blocks, and gives the engine that reads from it and from others.
fn open_engine<L, K, V, P, E, C, N, Q, G>(
    alloc: Global,
    settings: Settings,
    patience: u32,
    reader: DeviceBlocks<N, Q>,
    others: Vec<DeviceBlocks<N, Q>>,
    mode: RecoverMode,
    marks: &[Tombstone],
    listings: Listings<Global, RecoveredBlocks<N, Q, G>>,
    env: Env<E, C>,
    gate: Arc<G, Global>,
    blanks: Blanks,
) -> Result<
    (
        Arc<DeviceEngine<L, K, V, P, E, C, N, Q, G>, Global>,
        WholeSession<L>,
    ),
>
where
    L: Kinds,
    K: Code<Global> + Drop,
    V: Code<Global> + Drop,
    P: Properties + Drop,
    E: EvictionPicker,
    C: StorageFilterCondition,
    N: IoEngine + Drop,
    Q: Partition + Copy,
    G: Gate,
    requires { AreOf L.name_of L.all blanks × (L.all ≡ 2 ^ 32) }
    ensures settings { IfOk result (λ r. (arc_value r.0).settings ≡ settings) }
    ensures mode { IfOk result (λ r. (arc_value r.0).shared.mode ≡ mode) }
    ensures others { IfOk result (λ r. vec_len (arc_value r.0).others ≡ vec_len others) }
    ensures patience { IfOk result (λ r. (arc_value r.0).patience ≡ patience) }
    ensures refused { IfErr result (λ e. IsOpenError mode e) }
{
    let mut gated = GatedDisk {
        disk: reader,
        gate: Arc::try_clone(&gate)?,
    };
    let (locked, session): (Locked<L, K, V, P, Global, E, C, NoNotes>, Session<L>) = Locked::open(
        alloc, env, settings, &mut gated, mode, marks, listings, blanks,
    )?;
    let GatedDisk { disk: reader, .. } = gated;
    let mut engine = BlockEngine::new(alloc, Shared::new(locked), settings, reader, gate)?;
    for other in others {
        engine = engine.with_load_disk(other)?;
    }
    let engine = Arc::new(alloc, engine.with_enqueue_patience(patience))?;
    Ok((engine, WholeSession::new(session)))
}
