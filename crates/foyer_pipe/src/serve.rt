//! The whole program, over any reader and writers.
ghost use Rattle.std.specs.Prelude.{◌≡◌, ◌⊎◌, ◌^◌, IfErr, IfOk};
ghost use Rattle.foyer_device_page.specs.declared.error.Error.TheVariants as error;
ghost use Rattle.foyer_cli.specs.Arguments.{AskVersion};
ghost use Rattle.foyer_device_throttle.specs.Limits.{IsLimit};
ghost use Rattle.foyer_frames.specs.Stream.{limits_of};
ghost use Rattle.foyer_pipe.specs.Keys.{core_part};
ghost use Rattle.foyer_storage_cores_run.specs.CoreLedgers.{AreOfCores};

use crate::answers::{Bytes, BytesHashBuilder};
use crate::options::{PipeOptions, SETTINGS, USAGE, Words, parse_words};
use crate::replies::Replies;
use crate::task::{Job, PipeTask, Requests, STATUS_FAULT, greet};
use foyer_cli::faults::name_of;
use foyer_cli::options::{GENERATOR_SEED, Options, ask_version, print_version};
use foyer_cli::words::{BadWord, ask_help, print_help};
use foyer_core_tally::book::Kinds;
use foyer_device_page::error::{Error, Result};
use foyer_device_partition::io::device::{
    Device, DeviceBuilder, FileFault, FileFaults, FsDeviceBuilder, MemoryDeviceBuilder, Throttle,
    partition_path,
};
use foyer_directory::lock::{DirectoryLock, PROGRAM_TRIES};
use foyer_directory::shape::WantedShape;
use foyer_format_record::serde::NoProperties;
use foyer_frames::frames::Frames;
use foyer_io_engine::io::engine::{
    IoEngineConfig, MemoryIoEngine, NotingPsyncIoEngineConfig, SharedMemoryIoEngineConfig,
};
use foyer_storage_cores_run::build::builder::StoreBuilder;
use foyer_storage_cores_run::build::config::BlockEngineConfig;
use foyer_storage_cores_run::build::cores::kinds::CoreBlanks;
use foyer_storage_cores_run::build::threads::workers::{Clock, SystemClock};
use foyer_storage_cores_run::paths::core_path;
use foyer_storage_cores_run::run::run_over_cores;
use std::alloc::{AllocError, Allocator, Global};
use std::fs::File;
use std::io;
use std::io::{BufWriter, Read, Write};
use std::rt::Files;
use std::sync::{Arc, Wait};
use std::thread::Threads;

// The size of the output's buffer in bytes.
const OUTPUT_CAPACITY: usize = 64 * 1024;

// Into how many shards the keeper is divided.
const KEEPER_SHARDS: usize = 64;

// The arguments were bad.
const STATUS_USAGE: u8 = 2;

// The jobs of the threads that answer gets, and last that of the thread for requests. The others run until it ends. Errors: `Memory`.
fn jobs_of(alloc: Global, readers: u32) -> Result<Vec<Job>> {
    let mut jobs = Vec::new(alloc);
    for _ in 0..readers {
        jobs.push(Job::Gets)?;
    }
    jobs.push(Job::Requests)?;
    Ok(jobs)
}

// The device and the I/O engines of a core.
#[derive(Drop)]
struct Place<D: Drop, I: Drop> {
    device: D,
    io_engine: I,
}

// Builds the engine of a core.
type CoreBuilder<D, I> = StoreBuilder<BytesHashBuilder, BlockEngineConfig<D>, I>;

fn builders_of<D: Device, I: Drop>(
    alloc: Global,
    places: Vec<Place<D, I>>,
    block_size: usize,
    has_log: bool,
    options: &PipeOptions,
) -> Result<Vec<CoreBuilder<D, I>>> {
    let mut builders = Vec::new(alloc);
    for place in places {
        let Place { device, io_engine } = place;
        let config = BlockEngineConfig::new(device)
            .with_block_size(block_size)
            .with_flushers(options.flushers)
            .with_reclaimers(options.reclaimers)
            .with_load_engines(options.engines)
            .with_enqueue_patience(options.patience)
            .with_clean_block_threshold(options.clean)
            .with_tombstone_log(has_log);
        let builder = StoreBuilder::new("foyerpipe", BytesHashBuilder, KEEPER_SHARDS)
            .with_engine_config(config)
            .with_io_engine_config(io_engine)
            .with_recover_mode(options.mode);
        builders.push(builder)?;
    }
    Ok(builders)
}

// The requests of an input, within the limits that are set.
fn frames_of<R: Read + Drop>(
    alloc: Global,
    input: R,
    options: &PipeOptions,
) -> std::result::Result<Frames<R, Global>, AllocError>
    ensures { IfOk result (λ f. limits_of f ≡ options.now.limits) }
{
    Frames::new(alloc, input, options.limits)
}

// What a caller sends, and what it is answered through.
#[derive(Drop)]
struct Streams<R: Read + Drop, W: Write + Drop> {
    requests: Requests<R>,
    replies: Replies<BufWriter<W, Global>>,
}

// Takes the caller's first request, and answers it if it asks for the version: nothing is opened before that.
fn meet<R: Read + Drop, W: Write + Drop>(
    rt: &impl Wait,
    alloc: Global,
    options: &PipeOptions,
    input: R,
    output: W,
) -> Result<Streams<R, W>>
    ensures refused { IfErr result (λ e. e ≡ error.Memory) }
{
    let frames = frames_of(alloc, input, options)?;
    let Ok(output) = BufWriter::with_capacity(alloc, OUTPUT_CAPACITY, output) else {
        return Err(Error::Memory);
    };
    let replies = Replies::new(output);
    let requests = greet(rt, alloc, frames, &options.limits, &replies);
    Ok(Streams { requests, replies })
}

// Opens a cache over these places, one for each core, and answers the caller's requests.
fn serve_over<L, T, I, D, R, W>(
    rt: T,
    alloc: Global,
    blanks: CoreBlanks,
    clock: SystemClock<T>,
    places: Vec<Place<D, I>>,
    block_size: usize,
    has_log: bool,
    options: &PipeOptions,
    streams: Streams<R, W>,
) -> Result<u8>
where
    L: Kinds + Send + Sync + 'static,
    T: Threads + Wait + std::rt::Clock + Files + Copy + Send + Sync + 'static,
    I: IoEngineConfig<T> + Drop,
    I::Engine: Send + 'static,
    D: Device,
    D::Partition: Drop + Send + Sync + 'static,
    R: Read + Drop + Send,
    W: Write + Drop + Send,
    requires { AreOfCores L.name_of L.all blanks × (L.all ≡ 2 ^ 32) }
{
    let builders = builders_of(alloc, places, block_size, has_log, options)?;
    let jobs = jobs_of(alloc, options.readers)?;
    let Streams { requests, replies } = streams;
    let patience = u64::from(options.wait_ms) * 1_000_000;
    let task = PipeTask::new(
        alloc,
        clock,
        options.seed,
        options.limits,
        patience,
        requests,
        replies,
    );
    run_over_cores::<T, SystemClock<T>, L, Bytes, Bytes, NoProperties, _, _, D, _, _, _, I, _>(
        rt,
        alloc,
        blanks,
        "foyerpipe",
        BytesHashBuilder,
        KEEPER_SHARDS,
        builders,
        clock,
        GENERATOR_SEED,
        task,
        jobs,
    )
}

// A core's part of a limit, at least 1. It is 0 if there is no limit.
fn part_of(limit: usize, cores: u64) -> usize
    ensures { result ≡ core_part limit cores }
{
    if limit == 0 {
        return 0;
    }
    (limit / (cores as usize).max(1)).max(1)
}

// The limits of a core's device.
fn throttle_of(options: &PipeOptions) -> Throttle
    ensures reads { IsLimit result.read_throughput (core_part options.now.read_bytes options.now.cores) × IsLimit result.read_iops (core_part options.now.read_calls options.now.cores) }
    ensures writes { IsLimit result.write_throughput (core_part options.now.write_bytes options.now.cores) × IsLimit result.write_iops (core_part options.now.write_calls options.now.cores) }
{
    Throttle::new()
        .with_read_throughput(part_of(options.read_bytes, options.cores))
        .with_write_throughput(part_of(options.write_bytes, options.cores))
        .with_read_iops(part_of(options.read_calls, options.cores))
        .with_write_iops(part_of(options.write_calls, options.cores))
}

// Builds I/O engines over one memory of `capacity` bytes.
fn memory(alloc: Global, capacity: usize) -> Result<SharedMemoryIoEngineConfig<Global>> {
    let mut engine = MemoryIoEngine::new(alloc);
    engine.add_file(alloc, capacity)?;
    SharedMemoryIoEngineConfig::new(alloc, engine)
}

// As `serve_over`, over memory, of which each core has an equal part.
fn serve_memory<L, T, R, W>(
    rt: T,
    alloc: Global,
    blanks: CoreBlanks,
    words: &Options<'_>,
    options: &PipeOptions,
    streams: Streams<R, W>,
) -> Result<u8>
where
    L: Kinds + Send + Sync + 'static,
    T: Threads + Wait + std::rt::Clock + Files + Copy + Send + Sync + 'static,
    R: Read + Drop + Send,
    W: Write + Drop + Send,
    requires { AreOfCores L.name_of L.all blanks × (L.all ≡ 2 ^ 32) }
{
    let capacity = (words.capacity / options.cores.max(1)) as usize;
    let clock = SystemClock::start(rt)?;
    let mut places = Vec::new(alloc);
    for _ in 0..options.cores {
        let io_engine = memory(alloc, capacity)?;
        let builder = MemoryDeviceBuilder::new(capacity).with_throttle(throttle_of(options));
        let device = builder.build(&rt, alloc, clock.now())?;
        places.push(Place { device, io_engine })?;
    }
    let block_size = words.block_size as usize;
    let has_log = options.log.unwrap_or(false);
    serve_over::<L, T, _, _, R, W>(
        rt, alloc, blanks, clock, places, block_size, has_log, options, streams,
    )
}

// As `serve_over`, over the files of a directory: each of several cores has a directory in it, and an equal part of the capacity. What the
// system refused is noted for each core.
fn serve_directory<L, T, R, W>(
    rt: T,
    alloc: Global,
    blanks: CoreBlanks,
    words: &Options<'_>,
    has_log: bool,
    options: &PipeOptions,
    faults: &[Arc<FileFaults, Global>],
    streams: Streams<R, W>,
) -> Result<u8>
where
    L: Kinds + Send + Sync + 'static,
    T: Threads
        + Wait
        + std::rt::Clock
        + Files<File = File>
        + AllocGlobal
        + Copy
        + Send
        + Sync
        + 'static,
    R: Read + Drop + Send,
    W: Write + Drop + Send,
    requires { AreOfCores L.name_of L.all blanks × (L.all ≡ 2 ^ 32) }
{
    let capacity = (words.capacity / options.cores.max(1)) as usize;
    let clock = SystemClock::start(rt)?;
    let mut places = Vec::new(alloc);
    let mut core = 0u64;
    for noted in faults {
        let path = core_path(alloc, words.directory, core, options.cores)?;
        let builder = FsDeviceBuilder::new(path.as_str())
            .with_capacity(capacity)
            .with_throttle(throttle_of(options))
            .with_faults(noted);
        let device = builder.build(&rt, alloc, clock.now())?;
        places.push(Place {
            device,
            io_engine: NotingPsyncIoEngineConfig::new(&**noted),
        })?;
        core = core.saturating_add(1);
    }
    let block_size = words.block_size as usize;
    serve_over::<L, T, _, _, R, W>(
        rt, alloc, blanks, clock, places, block_size, has_log, options, streams,
    )
}

// Where the faults of each core's files are noted. Errors: `Memory`.
fn faults_of(alloc: Global, cores: u64) -> Result<Vec<Arc<FileFaults, Global>>> {
    let mut faults = Vec::new(alloc);
    for _ in 0..cores {
        faults.push(Arc::new(alloc, FileFaults::new())?)?;
    }
    Ok(faults)
}

// As `serve_directory`, over a directory that no other program has, and that was made for the same block size, cores and log. Gives the
// exit status. If the cache can't be opened, it first says why.
fn serve_locked<L, T, R, W, E>(
    rt: T,
    alloc: Global,
    blanks: CoreBlanks,
    words: &Options<'_>,
    options: &PipeOptions,
    streams: Streams<R, W>,
    errors: &mut E,
) -> u8
where
    L: Kinds + Send + Sync + 'static,
    T: Threads
        + Wait
        + std::rt::Clock
        + Files<File = File>
        + AllocGlobal
        + Copy
        + Send
        + Sync
        + 'static,
    R: Read + Drop + Send,
    W: Write + Drop + Send,
    E: Write,
    requires { AreOfCores L.name_of L.all blanks × (L.all ≡ 2 ^ 32) }
{
    let wanted = WantedShape {
        block_size: words.block_size,
        cores: options.cores,
        log: options.log,
    };
    let faults = match faults_of(alloc, options.cores) {
        Ok(faults) => faults,
        Err(error) => return status_of(errors, Err(error)),
    };
    match DirectoryLock::take_wanted_within(&rt, alloc, words.directory, &wanted, PROGRAM_TRIES) {
        Ok((lock, shape)) => {
            let served = serve_directory::<L, T, R, W>(
                rt,
                alloc,
                blanks,
                words,
                shape.has_log,
                options,
                &faults,
                streams,
            );
            if let Ok(status) = served {
                drop(lock);
                return status;
            }
            lock.forget();
            report_fault(alloc, errors, words.directory, options.cores, &faults);
            status_of(errors, served)
        }
        Err(refusal) => {
            let _ = refusal.print(errors, "foyerpipe", words.directory);
            STATUS_FAULT
        }
    }
}

// The path of a core's file whose opening failed, or of its directory.
fn path_of(
    alloc: Global,
    directory: &str,
    core: u64,
    cores: u64,
    fault: &FileFault,
) -> Result<String> {
    let path = core_path(alloc, directory, core, cores)?;
    match fault.file {
        Some(file) => Ok(partition_path(alloc, path.as_str(), file)?),
        None => Ok(path),
    }
}

// Prints a line for each file that the system refused to make or to open: its path, and the system's words with their number.
fn report_fault<W: Write>(
    alloc: Global,
    errors: &mut W,
    directory: &str,
    cores: u64,
    faults: &[Arc<FileFaults, Global>],
) {
    let mut core = 0u64;
    for noted in faults {
        if let Some(fault) = noted.last()
            && let Ok(path) = path_of(alloc, directory, core, cores, &fault)
        {
            let path = path.as_str();
            let error = io::Error::from_raw_os_error(fault.code);
            let _ = write!(errors, "foyerpipe: {path}: {error}\n");
        }
        core = core.saturating_add(1);
    }
}

// Prints a line that says why the cache couldn't be opened.
fn report<W: Write>(errors: &mut W, error: Error) -> io::Result<()> {
    errors.write_all(b"foyerpipe: the cache couldn't be opened: ")?;
    errors.write_all(name_of(error.kind()).as_bytes())?;
    errors.write_all(b"\n")
}

// The exit status. If the cache couldn't be opened, it first says why.
fn status_of<W: Write>(errors: &mut W, served: Result<u8>) -> u8 {
    match served {
        Ok(status) => status,
        Err(error) => {
            let _ = report(errors, error);
            STATUS_FAULT
        }
    }
}

// Says which word is bad, and prints the usage and the settings.
fn refuse<W: Write>(errors: &mut W, bad: &BadWord<'_>) -> io::Result<()> {
    bad.print(errors, "foyerpipe")?;
    errors.write_all(USAGE.as_bytes())?;
    errors.write_all(SETTINGS.as_bytes())
}

/// Runs the program over the words `DIR CAPACITY BLOCK` and settings, each `NAME=VALUE`, and gives its exit status, which is 0, 1 or 2.
/// The status is 1 if the cache couldn't be opened, bytes were no frame, the input ended within a frame, a stream failed, or the close
/// was refused. It is also 1 for a directory that another program has, or that was made for another block size, number of cores or log. It
/// is 2 for bad words. `--version` alone prints the version. The ledgers must fit `L` and have 2^32 parts each (`CoreBlanks::new`).
///
/// Each request of the input is answered by one reply with its number. Replies are in the order of their requests, except those to gets
/// that other threads answer. Replies of the thread that reads requests are written out before it asks for more input.
pub fn serve<L, T, B, R, W, E>(
    rt: T,
    alloc: Global,
    blanks: CoreBlanks,
    words: &[String<B>],
    input: R,
    output: W,
    mut errors: E,
) -> u8
where
    L: Kinds + Send + Sync + 'static,
    T: Threads
        + Wait
        + std::rt::Clock
        + Files<File = File>
        + AllocGlobal
        + Copy
        + Send
        + Sync
        + 'static,
    B: Allocator,
    R: Read + Drop + Send,
    W: Write + Drop + Send,
    E: Write + Drop,
    requires { AreOfCores L.name_of L.all blanks × (L.all ≡ 2 ^ 32) }
    ensures version { AskVersion words.now → (result ≡ 0) ⊎ (result ≡ 1) }
{
    if ask_version(words) {
        return print_version(output, "foyerpipe");
    }
    if ask_help(words) {
        return print_help(output, USAGE, SETTINGS);
    }
    let parsed = match parse_words(words) {
        Ok(parsed) => parsed,
        Err(bad) => {
            let _ = refuse(&mut errors, &bad);
            return STATUS_USAGE;
        }
    };
    let Words { sizes, settings } = parsed;
    let streams = match meet(&rt, alloc, &settings, input, output) {
        Ok(streams) => streams,
        Err(error) => return status_of(&mut errors, Err(error)),
    };
    if sizes.is_memory() {
        let served = serve_memory::<L, T, R, W>(rt, alloc, blanks, &sizes, &settings, streams);
        return status_of(&mut errors, served);
    }
    serve_locked::<L, T, R, W, E>(rt, alloc, blanks, &sizes, &settings, streams, &mut errors)
}
