//! How a device is divided, and gets its counters.
ghost use Rattle.std.specs.Arc.{arc_value};
ghost use Rattle.std.specs.Prelude.{◌≡◌, ◌⊎◌, ◌↔◌, ◌+◌, ◌-◌, ◌++◌, ◌*◌, ◌<◌, ◌≤◌, ◌^◌, IfErr, IfOk, IfSome, IsOk, IsTrue, OnErr, OnOk, is_some, length, map, min, replicate, true, vec_len};
ghost use Rattle.foyer_storage_build.specs.Building.{CanPlan, is_begin_error, is_plan_error, log_bytes};
ghost use Rattle.foyer_block_tombstone.specs.Pages.{log_pages};
ghost use Rattle.foyer_device_partition.specs.Extent.{AreDisjoint, total_size};
ghost use Rattle.foyer_storage_plan.specs.Plans.{settings_of};

use super::DeviceSummary;
use foyer_block_tombstone::block::tombstone::log_pages;
use foyer_device_page::error::{Error, Result};
use foyer_device_page::io::bytes::PAGE;
use foyer_device_partition::io::device::{Device, Partition};
use foyer_device_statistics::{Recorder, Statistics};
use foyer_device_throttle::Throttle;
use foyer_storage_plan::sizes::{EngineSizes, leaves_blocks};
use foyer_storage_store::engine::core_steps::settings::Settings;
use std::alloc::Global;
use std::rt::Files;
use std::sync::Arc;

// Gives the bytes of the log of deletes of a device of this many bytes, or 0 if there is to be no log.
fn log_size(capacity: usize, tombstone_log: bool) -> Result<usize>
    ensures refused { IfErr result (λ e. e ≡ Error.OutOfRange) }
    ensures size { IfOk result (λ size. size ≡ log_bytes tombstone_log capacity) }
    ensures large { OnErr result (2 ^ 64 ≤ log_bytes tombstone_log capacity) }
{
    if !tombstone_log {
        return Ok(0);
    }
    match log_pages(capacity).checked_mul(PAGE) {
        Some(size) => Ok(size),
        None => Err(Error::OutOfRange),
    }
}

// Makes the partition of the log of deletes, if there is to be one.
fn make_log<D: Device, R: Files>(
    rt: &R,
    device: &mut D,
    tombstone_log: bool,
    size: usize,
) -> Result<Option<D::Partition>>
    ensures made { IfOk result (λ log. is_some log ≡ tombstone_log) }
    ensures refused { IfErr result (λ e. is_begin_error e ≡ true) }
    ensures size { IfOk result (λ log. IfSome log (λ p. D.Partition.bytes p ≡ size)) }
    ensures same { (D.room device.new ≡ D.room device.old) × (D.limits device.new ≡ D.limits device.old) }
{
    if !tombstone_log {
        return Ok(None);
    }
    Ok(Some(device.create_partition(rt, size)?))
}

// Makes a partition of that many bytes for each block, as many as there is room for, but no more than were planned. No two share a byte.
#[tactic(auto, using(foyer_io_blocks::proofs::PartitionLemmas::disjoint_behind))]
fn make_blocks<D: Device, R: Files>(
    rt: &R,
    alloc: Global,
    device: &mut D,
    planned: &Settings,
) -> Result<Vec<D::Partition>>
    ensures sizes { IfOk result (λ blocks. map D.Partition.bytes blocks.items ≡ replicate (vec_len blocks) planned.now.block_size) }
    ensures few { IfOk result (λ blocks. vec_len blocks ≤ planned.now.blocks) }
    // There are fewer only if a device with these partitions has no room for one more.
    ensures full { IfOk result (λ blocks. (vec_len blocks ≡ planned.now.blocks)
        ⊎ ((left : D) × IsTrue (D.lacks_space left planned.now.block_size) × (D.sizes left ≡ D.sizes device.new))) }
    ensures made { IfOk result (λ blocks. D.extents device.new ≡ D.extents device.old ++ map D.Partition.extent blocks.items) }
    ensures apart { IfOk result (λ blocks. AreDisjoint (map D.Partition.extent blocks.items)) }
    ensures refused { IfErr result (λ e. is_begin_error e ≡ true) }
    ensures same { (D.room device.new ≡ D.room device.old) × (D.limits device.new ≡ D.limits device.old) }
{
    let mut blocks = Vec::with_capacity(alloc, planned.blocks as usize)?;
    for _ in 0..planned.blocks {
        match device.create_partition(rt, planned.block_size) {
            Ok(partition) => blocks.push(partition)?,
            Err(Error::NoSpace) => break,
            Err(error) => return Err(error),
        }
    }
    // So contracts see that the partitions of a device lie apart.
    let _ = device.file_count();
    Ok(blocks)
}

// A device that was divided: the partition of its log, if it has one, those of its blocks, and what the core is opened with.
#[derive(Drop)]
pub(super) struct Divided<D: Device> {
    pub(super) device: D,
    pub(super) log: Option<D::Partition>,
    pub(super) blocks: Vec<D::Partition>,
    pub(super) settings: Settings,
    // How many workers recover the blocks, through how many I/O engines loads read, and how often a put looks at a full queue again.
    pub(super) recoverers: u32,
    pub(super) loads: u32,
    pub(super) patience: u32,
}

// How many workers recover so many blocks: one a block at most.
fn recoverers_of(sizes: &EngineSizes, blocks: u32) -> u32
    ensures { result ≡ min sizes.now.recover_concurrency blocks }
{
    match u32::try_from(sizes.recover_concurrency) {
        Ok(workers) => workers.min(blocks),
        Err(_) => blocks,
    }
}

// What a core that has so many blocks is opened with. There may be fewer than were planned.
fn settings_of(planned: Settings, blocks: usize) -> Result<Settings>
    ensures settings { IfOk result (λ s. s ≡ record planned { blocks = blocks }) }
    ensures threshold { IfOk result (λ s. (s.clean_block_threshold ≤ 1) ⊎ (s.clean_block_threshold < s.blocks)) }
    ensures refused { IfErr result (λ e. e ≡ Error.Config) }
{
    let Ok(blocks) = u32::try_from(blocks) else {
        return Err(Error::Config);
    };
    let settings = Settings { blocks, ..planned };
    settings.check()?;
    if !leaves_blocks(settings.clean_block_threshold, settings.blocks) {
        return Err(Error::Config);
    }
    Ok(settings)
}

// Checks that there are seats at the counters for all. Each worker has one, but a reclaimer has two. Each I/O engine for loads, the log
// of deletes, and all callers together have one. Gives how many I/O engines for loads there are.
fn check_seats(settings: &Settings, recoverers: u32, load_engines: usize) -> Result<u32>
    ensures loads { IfOk result (λ loads. loads ≡ load_engines) }
    ensures seats { IfOk result (λ loads. settings.now.flushers + 2 * settings.now.reclaimers + recoverers + loads + 2 < 2 ^ 32) }
    ensures refused { IfErr result (λ e. e ≡ Error.Config) }
{
    let Ok(loads) = u32::try_from(load_engines) else {
        return Err(Error::Config);
    };
    let workers = settings.flushers as u64 + 2 * (settings.reclaimers as u64) + recoverers as u64;
    let seats = workers + loads as u64 + 2;
    if seats > u32::MAX as u64 {
        return Err(Error::Config);
    }
    Ok(loads)
}

// Gives the settings that are planned on a device, and the bytes of its log of deletes, 0 if there is to be none. Numbers alone decide, and
// the device stays as it is. Errors, in this order: `Config` as by `EngineSizes::check`; `OutOfRange` for a log of 2^64 bytes or more; those
// of `EngineSizes::plan`.
pub(super) fn plan<D: Device>(device: &D, sizes: &EngineSizes) -> Result<(Settings, usize)>
    ensures sound { IsOk result ↔ CanPlan sizes.now (D.room device.now) (D.room device.now - total_size (D.sizes device.now)) }
    ensures log { IfOk result (λ r. r.1 ≡ log_bytes sizes.now.tombstone_log (D.room device.now)) }
    ensures sizes { IfOk result (λ r. r.0 ≡ settings_of sizes.now r.0.blocks r.0.indexer_shards) }
    ensures refused { IfErr result (λ e. is_plan_error e ≡ true) }
{
    sizes.check()?;
    let log_size = log_size(device.capacity(), sizes.tombstone_log)?;
    let planned = sizes.plan(device.free(), log_size)?;
    Ok((planned, log_size))
}

// Divides a device: the log comes before the blocks. What follows from numbers is decided before the device is touched.
pub(super) fn divide<D: Device, R: Files>(
    rt: &R,
    alloc: Global,
    mut device: D,
    sizes: &EngineSizes,
) -> Result<Divided<D>>
    ensures seats { IfOk result (λ d. d.settings.flushers + 2 * d.settings.reclaimers + d.recoverers + d.loads + 2 < 2 ^ 32) }
    ensures recoverers { IfOk result (λ d. d.recoverers ≡ min sizes.now.recover_concurrency d.settings.blocks) }
    ensures loads { IfOk result (λ d. (d.loads ≡ sizes.now.load_engines) × (0 < d.loads)) }
    ensures patience { IfOk result (λ d. d.patience ≡ sizes.now.enqueue_patience) }
    ensures sizes { IfOk result (λ d. d.settings ≡ settings_of sizes.now d.settings.blocks d.settings.indexer_shards) }
    ensures blocks { IfOk result (λ d. (d.settings.blocks ≡ vec_len d.blocks)
        × (map D.Partition.bytes d.blocks.items ≡ replicate (vec_len d.blocks) d.settings.block_size)) }
    ensures apart { IfOk result (λ d. AreDisjoint (map D.Partition.extent d.blocks.items)) }
    ensures threshold { IfOk result (λ d. (d.settings.clean_block_threshold ≤ 1) ⊎ (d.settings.clean_block_threshold < d.settings.blocks)) }
    ensures log { IfOk result (λ d. is_some d.log ≡ sizes.now.tombstone_log) }
    ensures pages { IfOk result (λ d. IfSome d.log (λ p. D.Partition.bytes p ≡ log_pages (D.room device) * 4096)) }
    ensures device { IfOk result (λ d. (D.room d.device ≡ D.room device) × (D.limits d.device ≡ D.limits device)) }
    ensures planned { OnOk result (CanPlan sizes.now (D.room device) (D.room device - total_size (D.sizes device))) }
    ensures refused { IfErr result (λ e. is_begin_error e ≡ true) }
{
    let (planned, log_size) = plan(&device, sizes)?;
    let most = recoverers_of(sizes, planned.blocks);
    let loads = check_seats(&planned, most, sizes.load_engines)?;
    let log = make_log(rt, &mut device, sizes.tombstone_log, log_size)?;
    let blocks = make_blocks(rt, alloc, &mut device, &planned)?;
    let settings = settings_of(planned, blocks.len())?;
    let recoverers = recoverers_of(sizes, settings.blocks);
    Ok(Divided {
        device,
        log,
        blocks,
        settings,
        recoverers,
        loads,
        patience: sizes.enqueue_patience,
    })
}

// Counters of 0, and a recorder that has all their parts.
fn recorder_of(
    alloc: Global,
    throttle: Throttle,
    now: u64,
) -> Result<(Recorder<Global>, Arc<Statistics<Global>, Global>)>
    ensures parts { IfOk result (λ r. r.0.view.parts ≡ 2 ^ 32) }
    ensures limits { IfOk result (λ r. r.0.limits ≡ throttle) }
    ensures counters { IfOk result (λ r. r.0.table ≡ (arc_value r.1).table) }
    ensures refused { IfErr result (λ e. e ≡ Error.Memory) }
{
    let (statistics, seat) = Statistics::new(alloc, throttle, now)?;
    let statistics = Arc::new(alloc, statistics)?;
    let own = Arc::try_clone(&statistics)?;
    Ok((Recorder::new(seat, own), statistics))
}

// What is left of a divided device, with its counters.
#[derive(Drop)]
pub(super) struct Counted<Q: Drop> {
    pub(super) log: Option<Q>,
    pub(super) blocks: Vec<Q>,
    pub(super) settings: Settings,
    pub(super) recoverers: u32,
    pub(super) loads: u32,
    pub(super) patience: u32,
    pub(super) summary: DeviceSummary,
    pub(super) throttle: Throttle,
    pub(super) paths: Vec<String>,
    pub(super) recorder: Recorder<Global>,
    pub(super) statistics: Arc<Statistics<Global>, Global>,
}

// Gives a divided device counters.
pub(super) fn count<D: Device>(
    alloc: Global,
    divided: Divided<D>,
    now: u64,
) -> Result<Counted<D::Partition>>
where
    D::Partition: Drop,
    ensures settings { IfOk result (λ c. (c.settings ≡ divided.settings) × (c.recoverers ≡ divided.recoverers) × (c.loads ≡ divided.loads)
        × (c.patience ≡ divided.patience)) }
    ensures limits { IfOk result (λ c. (c.throttle ≡ D.limits divided.device) × (c.recorder.limits ≡ D.limits divided.device)) }
    ensures summary { IfOk result (λ c. (c.summary.capacity ≡ D.room divided.device) × (c.summary.allocated ≡ total_size (D.sizes divided.device))
        × (c.summary.partitions ≡ length (D.sizes divided.device))) }
    ensures counters { IfOk result (λ c. c.recorder.table ≡ (arc_value c.statistics).table) }
    ensures partitions { IfOk result (λ c. (c.log ≡ divided.log) × (c.blocks ≡ divided.blocks)) }
    ensures parts { IfOk result (λ c. c.recorder.view.parts ≡ 2 ^ 32) }
    ensures refused { IfErr result (λ e. e ≡ Error.Memory) }
{
    let paths = divided.device.files(alloc)?;
    let throttle = *divided.device.throttle();
    let (recorder, statistics) = recorder_of(alloc, throttle, now)?;
    let Divided {
        device,
        log,
        blocks,
        settings,
        recoverers,
        loads,
        patience,
    } = divided;
    let summary = DeviceSummary {
        capacity: device.capacity(),
        allocated: device.allocated(),
        partitions: device.partitions(),
    };
    Ok(Counted {
        log,
        blocks,
        settings,
        recoverers,
        loads,
        patience,
        summary,
        throttle,
        paths,
        recorder,
        statistics,
    })
}
