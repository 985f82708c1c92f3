//! Stores of one core, of two or of four, over memory or a directory.
ghost use Rattle.std.specs.Prelude.{◌≡◌, ◌^◌};
ghost use Rattle.foyer_bench_stats.specs.BenchPlans.{HasBounds};
ghost use Rattle.foyer_storage_cores_run.specs.CoreLedgers.{AreOfCores};

use crate::asked::{AskedAgain, AskedKeys};
use crate::report::Report;
use crate::task::{BenchTask, callers_of};
use foyer_bench_stats::plan::Plan;
use foyer_bench_stats::zipf::Zipf;
use foyer_cli::options::Options;
use foyer_core_tally::book::Kinds;
use foyer_device_page::error::Result;
use foyer_device_partition::io::device::{
    Device, DeviceBuilder, FsDeviceBuilder, MemoryDeviceBuilder,
};
use foyer_format_record::serde::{IdentityHashBuilder, NoProperties};
use foyer_io_engine::io::engine::{
    IoEngineConfig, MemoryIoEngine, PsyncIoEngineConfig, SharedMemoryIoEngineConfig,
};
use foyer_policy_filter::StorageFilter;
use foyer_storage_cores_run::build::builder::StoreBuilder;
use foyer_storage_cores_run::build::config::{BlockEngineConfig, DefaultPickers};
use foyer_storage_cores_run::build::cores::kinds::CoreBlanks;
use foyer_storage_cores_run::build::threads::workers::Moment;
use foyer_storage_cores_run::paths::core_path;
use foyer_storage_cores_run::run::run_over_cores;
use std::alloc::Global;
use std::fs::File;
use std::rt::{Clock, Files};
use std::sync::{Arc, Wait};
use std::thread::Threads;
use std::time::Instant;

// Into how many shards the keeper is divided.
const KEEPER_SHARDS: usize = 64;

// Makes the marks that gets set, if the plan has records written again.
fn asked_of(alloc: Global, plan: &Plan) -> Result<Option<Arc<AskedKeys, Global>>> {
    if plan.reinsert == 0 {
        return Ok(None);
    }
    let asked = AskedKeys::new(alloc, plan.keys)?;
    Ok(Some(Arc::new(alloc, asked)?))
}

// Makes the filter by which marked records are written again, if there are marks.
fn filter_of(
    alloc: Global,
    asked: &Option<Arc<AskedKeys, Global>>,
) -> Result<Option<StorageFilter<AskedAgain, Global>>> {
    let Some(asked) = asked else {
        return Ok(None);
    };
    let again = AskedAgain {
        asked: Arc::try_clone(asked)?,
    };
    let filter = StorageFilter::new().with_condition(alloc, again)?;
    Ok(Some(filter))
}

// The device and the I/O engines of a core.
#[derive(Drop)]
struct Place<D: Drop, I: Drop> {
    device: D,
    io_engine: I,
}

// Builds the engine of a core.
type CoreBuilder<D, I> = StoreBuilder<
    IdentityHashBuilder,
    BlockEngineConfig<D, DefaultPickers, AskedAgain>,
    I,
>;

fn builder_of<D: Device, I: Drop>(
    alloc: Global,
    place: Place<D, I>,
    block_size: usize,
    plan: &Plan,
    asked: &Option<Arc<AskedKeys, Global>>,
) -> Result<CoreBuilder<D, I>> {
    let Place { device, io_engine } = place;
    let config = BlockEngineConfig::new(device)
        .with_filters::<AskedAgain>(None, filter_of(alloc, asked)?)
        .with_block_size(block_size)
        .with_load_engines(plan.engines as usize)
        .with_flushers(u32::try_from(plan.flushers).unwrap_or(u32::MAX))
        .with_recover_concurrency(plan.recoverers as usize)
        .with_enqueue_patience(u32::try_from(plan.patience).unwrap_or(u32::MAX));
    Ok(
        StoreBuilder::new("foyerbench", IdentityHashBuilder, KEEPER_SHARDS)
            .with_engine_config(config)
            .with_io_engine_config(io_engine),
    )
}

fn builders_of<D: Device, I: Drop>(
    alloc: Global,
    places: Vec<Place<D, I>>,
    block_size: usize,
    plan: &Plan,
    asked: &Option<Arc<AskedKeys, Global>>,
) -> Result<Vec<CoreBuilder<D, I>>> {
    let mut builders = Vec::new(alloc);
    for place in places {
        builders.push(builder_of(alloc, place, block_size, plan, asked)?)?;
    }
    Ok(builders)
}

// Opens a store of these builders, one for each core, and calls it.
fn bench_with<L, T, I, D>(
    rt: T,
    alloc: Global,
    blanks: CoreBlanks,
    builders: Vec<CoreBuilder<D, I>>,
    plan: &Plan,
    zipf: &Zipf,
    filler: &[u8],
    asked: Option<&AskedKeys>,
) -> Result<Report>
where
    L: Kinds + Send + Sync + 'static,
    T: Threads + Wait + Clock + Files + Copy + Send + Sync + 'static,
    I: IoEngineConfig<T> + Drop,
    I::Engine: Send + 'static,
    D: Device,
    D::Partition: Drop + Send + Sync + 'static,
    requires { AreOfCores L.name_of L.all blanks × (L.all ≡ 2 ^ 32) }
{
    let callers = callers_of(alloc, plan)?;
    let begin = Instant::now(&rt)?;
    let task = BenchTask {
        alloc,
        plan,
        zipf,
        filler,
        asked,
        begin,
    };
    run_over_cores::<T, Moment, L, u64, Vec<u8>, NoProperties, _, _, D, _, _, _, I, _>(
        rt,
        alloc,
        blanks,
        "foyerbench",
        IdentityHashBuilder,
        KEEPER_SHARDS,
        builders,
        Moment(0),
        0,
        task,
        callers,
    )?
}

// Opens a store over these places, one for each core, and calls it.
fn bench_over<L, T, I, D>(
    rt: T,
    alloc: Global,
    blanks: CoreBlanks,
    places: Vec<Place<D, I>>,
    block_size: usize,
    plan: &Plan,
) -> Result<Report>
where
    L: Kinds + Send + Sync + 'static,
    T: Threads + Wait + Clock + Files + Copy + Send + Sync + 'static,
    I: IoEngineConfig<T> + Drop,
    I::Engine: Send + 'static,
    D: Device,
    D::Partition: Drop + Send + Sync + 'static,
    requires blanks { AreOfCores L.name_of L.all blanks × (L.all ≡ 2 ^ 32) }
    requires plan { HasBounds plan.now }
{
    let asked = asked_of(alloc, plan)?;
    let zipf = Zipf::new(alloc, plan.keys, plan.skew)?;
    let filler = vec![in alloc; 0xA5u8; plan.value_bytes as usize]?;
    let builders = builders_of(alloc, places, block_size, plan, &asked)?;
    let marks = match &asked {
        Some(asked) => Some(&**asked),
        None => None,
    };
    let bytes = filler.as_slice();
    bench_with::<L, T, I, D>(rt, alloc, blanks, builders, plan, &zipf, bytes, marks)
}

/// Runs a plan over a store in memory, and gives what was counted. Each core has an equal part of the capacity. The plan must have the
/// bounds that `Plan::parse` ensures. The ledgers must fit `L` and have 2^32 parts each.
pub fn bench_memory<L, T>(
    rt: T,
    alloc: Global,
    blanks: CoreBlanks,
    options: &Options<'_>,
    plan: &Plan,
) -> Result<Report>
where
    L: Kinds + Send + Sync + 'static,
    T: Threads + Wait + Clock + Files + Copy + Send + Sync + 'static,
    requires blanks { AreOfCores L.name_of L.all blanks × (L.all ≡ 2 ^ 32) }
    requires plan { HasBounds plan.now }
{
    let capacity = (options.capacity / plan.cores.max(1)) as usize;
    let mut places = Vec::new(alloc);
    for _ in 0..plan.cores {
        let mut engine = MemoryIoEngine::new(alloc);
        engine.add_file(alloc, capacity)?;
        let io_engine = SharedMemoryIoEngineConfig::new(alloc, engine)?;
        let device = MemoryDeviceBuilder::new(capacity).build(&rt, alloc, 0)?;
        places.push(Place { device, io_engine })?;
    }
    let block_size = options.block_size as usize;
    bench_over::<L, T, _, _>(rt, alloc, blanks, places, block_size, plan)
}

/// As `bench_memory`, over the files of a directory. If there are several cores, each has a directory in it.
pub fn bench_directory<L, T>(
    rt: T,
    alloc: Global,
    blanks: CoreBlanks,
    options: &Options<'_>,
    plan: &Plan,
) -> Result<Report>
where
    L: Kinds + Send + Sync + 'static,
    T: Threads + Wait + Clock + Files<File = File> + AllocGlobal + Copy + Send + Sync + 'static,
    requires blanks { AreOfCores L.name_of L.all blanks × (L.all ≡ 2 ^ 32) }
    requires plan { HasBounds plan.now }
{
    let capacity = (options.capacity / plan.cores.max(1)) as usize;
    let mut places = Vec::new(alloc);
    for core in 0..plan.cores {
        let path = core_path(alloc, options.directory, core, plan.cores)?;
        let builder = FsDeviceBuilder::new(path.as_str()).with_capacity(capacity);
        let device = builder.build(&rt, alloc, 0)?;
        places.push(Place {
            device,
            io_engine: PsyncIoEngineConfig::new(),
        })?;
    }
    let block_size = options.block_size as usize;
    bench_over::<L, T, _, _>(rt, alloc, blanks, places, block_size, plan)
}
