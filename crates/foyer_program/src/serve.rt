//! The whole program, over any reader and writers.
ghost use Rattle.std.specs.Prelude.{◌≡◌, ◌⊎◌, ◌^◌};
ghost use Rattle.foyer_cli.specs.Arguments.{AreWords, AskVersion};
ghost use Rattle.foyer_cli.specs.declared.options.Options.{Options};
ghost use Rattle.foyer_core_tally.specs.Ledgers.{AreOf};

use crate::lines::{Texts, answer_all};
use foyer_cli::faults::{Failed, print_fault, report};
use foyer_cli::lines::Lines;
use foyer_cli::options::{GENERATOR_SEED, Options, USAGE, ask_version, print_version};
use foyer_core_tally::book::{Blanks, Kinds};
use foyer_device_page::error::{ErrorKind, Result};
use foyer_device_partition::io::device::{
    Device, DeviceBuilder, FsDeviceBuilder, MemoryDeviceBuilder,
};
use foyer_directory::lock::{DirectoryLock, PROGRAM_TRIES};
use foyer_directory::shape::DirectoryShape;
use foyer_format_record::serde::{IdentityHashBuilder, NoProperties};
use foyer_io_engine::io::engine::{
    IoEngineConfig, MemoryIoEngine, PsyncIoEngineConfig, SharedMemoryIoEngineConfig,
};
use foyer_storage_build::builder::StoreBuilder;
use foyer_storage_build::config::{BlockEngineConfig, Engine};
use foyer_storage_build::session::StoreSession;
use foyer_storage_build::threads::workers::{Clock, SystemClock, Workers};
use std::alloc::{Allocator, Global};
use std::fs::File;
use std::io::{BufWriter, Read, Write};
use std::rt::Files;
use std::sync::Wait;
use std::thread::Threads;

// The size of the output's buffer in bytes.
const OUTPUT_CAPACITY: usize = 64 * 1024;

// Into how many shards the keeper is divided.
const KEEPER_SHARDS: usize = 64;

// All went well; something was refused, or a line was bad; the arguments were bad.
const STATUS_OK: u8 = 0;

const STATUS_FAULT: u8 = 1;

const STATUS_USAGE: u8 = 2;

// Answers the input's lines, unless memory for their buffers is refused. Gives whether all went well.
fn answer_lines<S, N, R, W>(
    rt: &impl Wait,
    alloc: Global,
    store: &Texts<N>,
    session: &mut S,
    clock: &impl Clock,
    input: R,
    mut direct: W,
) -> bool
where
    S: Drop,
    N: Engine<S, u64, String, NoProperties>,
    R: Read + Drop,
    W: Write + Drop,
{
    let Ok(mut lines) = Lines::new(alloc, input) else {
        let _ = print_fault(&mut direct, ErrorKind::Memory);
        return false;
    };
    let Ok(mut output) = BufWriter::with_capacity(alloc, OUTPUT_CAPACITY, &mut direct) else {
        let _ = print_fault(&mut direct, ErrorKind::Memory);
        return false;
    };
    let answered = answer_all(rt, alloc, store, session, clock, &mut lines, &mut output);
    let is_flushed = output.flush().is_ok();
    answered.unwrap_or(false) && is_flushed
}

// Answers the input's lines, closes the store, and joins its workers.
fn answer_input<L, N, T, R, W>(
    rt: &T,
    alloc: Global,
    store: &Texts<N>,
    mut session: StoreSession<L>,
    workers: Workers<L>,
    clock: &impl Clock,
    input: R,
    output: W,
) -> u8
where
    L: Kinds,
    N: Engine<StoreSession<L>, u64, String, NoProperties>,
    T: Threads + Wait,
    R: Read + Drop,
    W: Write + Drop,
{
    let is_well = answer_lines(rt, alloc, store, &mut session, clock, input, output);
    let is_closed = store.close(rt, &mut session).is_ok();
    let _ = workers.join(rt, session.into_steps());
    if is_well && is_closed {
        STATUS_OK
    } else {
        STATUS_FAULT
    }
}

fn answer_fault<W: Write + Drop>(mut output: W, kind: ErrorKind) -> u8 {
    let _ = print_fault(&mut output, kind);
    STATUS_FAULT
}

// Builds a store over a device and I/O engines, and answers the input's lines. If the clock can't be started or the store can't be built,
// returns the fault, what failed, and the output.
fn serve_over<L, T, I, D, R, W>(
    rt: T,
    alloc: Global,
    blanks: Blanks,
    device: D,
    io_engine: I,
    block_size: usize,
    input: R,
    output: W,
) -> std::result::Result<u8, (Failed, W)>
where
    L: Kinds + Send + Sync + 'static,
    T: Threads + Wait + std::rt::Clock + Files + Copy + Send + 'static,
    I: IoEngineConfig<T> + Drop,
    I::Engine: Send + 'static,
    D: Device,
    D::Partition: Drop + Send + 'static,
    R: Read + Drop,
    W: Write + Drop,
    requires { AreOf L.name_of L.all blanks × (L.all ≡ 2 ^ 32) }
{
    let config = BlockEngineConfig::new(device).with_block_size(block_size);
    let builder = StoreBuilder::new("foyerdisk", IdentityHashBuilder, KEEPER_SHARDS)
        .with_engine_config(config)
        .with_io_engine_config(io_engine);
    let clock = match SystemClock::start(rt) {
        Ok(clock) => clock,
        Err(error) => {
            let failed = Failed {
                kind: error.kind(),
                what: "the clock",
            };
            return Err((failed, output));
        }
    };
    let built = builder.build::<T, SystemClock<T>, L, u64, String, NoProperties>(
        rt,
        alloc,
        blanks,
        clock,
        GENERATOR_SEED,
    );
    match built {
        Ok((store, session, workers)) => Ok(answer_input(
            &rt, alloc, &store, session, workers, &clock, input, output,
        )),
        Err(error) => {
            let failed = Failed {
                kind: error.kind(),
                what: "the store",
            };
            Err((failed, output))
        }
    }
}

// Builds I/O engines over one memory of `capacity` bytes.
fn memory(alloc: Global, capacity: usize) -> Result<SharedMemoryIoEngineConfig<Global>> {
    let mut engine = MemoryIoEngine::new(alloc);
    engine.add_file(alloc, capacity)?;
    SharedMemoryIoEngineConfig::new(alloc, engine)
}

/// Runs the program over the words `DIR CAPACITY BLOCK`, and gives its exit status, which is 0, 1 or 2. The status is 1 if a fault or a
/// bad line was printed, an input or output failed, or the close at the end was refused. It is 2 for bad words. `--version` alone prints
/// the version. The ledgers must fit `L` and have 2^32 parts each (`Blanks::new`).
///
/// Each line of the input is answered by one line. Answers are written out before more input is asked for. If a directory, or the clock
/// or the store over it, can't be opened, a line of `errors` names the directory and what failed. The fault is answered as well. A directory
/// that another program has is `Io`, and one that was made for another block size, number of cores or log is `Config`.
pub fn serve<L, T, B, R, W, E>(
    rt: T,
    alloc: Global,
    blanks: Blanks,
    words: &[String<B>],
    input: R,
    output: W,
    mut errors: E,
) -> u8
where
    L: Kinds + Send + Sync + 'static,
    T: Threads + Wait + std::rt::Clock + Files<File = File> + AllocGlobal + Copy + Send + 'static,
    B: Allocator,
    R: Read + Drop,
    W: Write + Drop,
    E: Write + Drop,
    requires { AreOf L.name_of L.all blanks × (L.all ≡ 2 ^ 32) }
    ensures usage { ¬ AskVersion words.now → ((o : Options) → ¬ AreWords words.now o) → result ≡ 2 }
    ensures version { AskVersion words.now → (result ≡ 0) ⊎ (result ≡ 1) }
{
    if ask_version(words) {
        return print_version(output, "foyerdisk");
    }
    let Some(options) = Options::parse(words) else {
        let _ = errors.write_all(USAGE.as_bytes());
        return STATUS_USAGE;
    };
    // `Config` is found before anything is touched.
    let settings = match options.settings() {
        Ok(settings) => settings,
        Err(error) => return answer_fault(output, error.kind()),
    };
    let block_size = settings.block_size;
    if options.is_memory() {
        return serve_memory::<L, T, R, W>(rt, alloc, blanks, &options, block_size, input, output);
    }
    serve_locked::<L, T, R, W, E>(
        rt,
        alloc,
        blanks,
        &options,
        block_size,
        input,
        output,
        &mut errors,
    )
}

// As `serve_over`, over memory. Gives the exit status.
fn serve_memory<L, T, R, W>(
    rt: T,
    alloc: Global,
    blanks: Blanks,
    options: &Options<'_>,
    block_size: usize,
    input: R,
    output: W,
) -> u8
where
    L: Kinds + Send + Sync + 'static,
    T: Threads + Wait + std::rt::Clock + Files + Copy + Send + 'static,
    R: Read + Drop,
    W: Write + Drop,
    requires { AreOf L.name_of L.all blanks × (L.all ≡ 2 ^ 32) }
{
    let capacity = options.capacity as usize;
    let io_engine = match memory(alloc, capacity) {
        Ok(config) => config,
        Err(error) => return answer_fault(output, error.kind()),
    };
    let device = match MemoryDeviceBuilder::new(capacity).build(&rt, alloc, 0) {
        Ok(device) => device,
        Err(error) => return answer_fault(output, error.kind()),
    };
    match serve_over::<L, T, _, _, R, W>(
        rt, alloc, blanks, device, io_engine, block_size, input, output,
    ) {
        Ok(status) => status,
        Err((failed, output)) => answer_fault(output, failed.kind),
    }
}

// As `serve_directory`, over a directory that no other program has, and that was made for blocks of this size, one core and no log. Gives
// the exit status. If something can't be opened, it first says and answers that.
fn serve_locked<L, T, R, W, E>(
    rt: T,
    alloc: Global,
    blanks: Blanks,
    options: &Options<'_>,
    block_size: usize,
    input: R,
    output: W,
    errors: &mut E,
) -> u8
where
    L: Kinds + Send + Sync + 'static,
    T: Threads + Wait + std::rt::Clock + Files<File = File> + AllocGlobal + Copy + Send + 'static,
    R: Read + Drop,
    W: Write + Drop,
    E: Write,
    requires { AreOf L.name_of L.all blanks × (L.all ≡ 2 ^ 32) }
{
    let shape = DirectoryShape::new(options.block_size, 1, false);
    let lock = match DirectoryLock::take_within(
        &rt,
        alloc,
        options.directory,
        &shape,
        PROGRAM_TRIES,
    ) {
        Ok(lock) => lock,
        Err(refusal) => {
            let refusal = refusal.without_number();
            let _ = refusal.print(errors, "foyerdisk", options.directory);
            return answer_fault(output, refusal.error().kind());
        }
    };
    let served = serve_directory::<L, T, R, W>(
        rt, alloc, blanks, options, block_size, input, output,
    );
    match served {
        Ok(status) => {
            drop(lock);
            status
        }
        Err((failed, output)) => {
            lock.forget();
            let _ = report(errors, options.directory, &failed);
            answer_fault(output, failed.kind)
        }
    }
}

// As `serve_over`, over the files of a directory.
fn serve_directory<L, T, R, W>(
    rt: T,
    alloc: Global,
    blanks: Blanks,
    options: &Options<'_>,
    block_size: usize,
    input: R,
    output: W,
) -> std::result::Result<u8, (Failed, W)>
where
    L: Kinds + Send + Sync + 'static,
    T: Threads + Wait + std::rt::Clock + Files<File = File> + AllocGlobal + Copy + Send + 'static,
    R: Read + Drop,
    W: Write + Drop,
    requires { AreOf L.name_of L.all blanks × (L.all ≡ 2 ^ 32) }
{
    let builder = FsDeviceBuilder::new(options.directory).with_capacity(options.capacity as usize);
    let device = match builder.build(&rt, alloc, 0) {
        Ok(device) => device,
        Err(error) => {
            let failed = Failed {
                kind: error.kind(),
                what: "the directory",
            };
            return Err((failed, output));
        }
    };
    let io_engine = PsyncIoEngineConfig::new();
    serve_over::<L, T, _, _, R, W>(
        rt, alloc, blanks, device, io_engine, block_size, input, output,
    )
}
