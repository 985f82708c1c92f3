//! `foyer_example SOURCE CACHE`: reads files of the directory SOURCE, whose names it is given on standard input, through a cache in the
//! directory CACHE. A file that was read before comes from the cache if the cache still has it, even if the program is run again.
#![tactic(auto)]

ghost use Rattle.foyer_storage.specs.Ledgers.{AreOf};
ghost use Rattle.std.specs.Prelude.{◌≡◌, ◌^◌};

use foyer_storage::error::Result;
use foyer_storage::{
    Blanks, BlockEngineConfig, BuiltInCondition, Clock, Device, DeviceBuilder, DirectoryLock,
    DirectoryShape, Engine, EstimatedSize, FsDevice, FsDeviceBuilder, IoEngineConfig, Kinds, Load,
    NoProperties, PsyncIoEngineConfig, StdHashBuilder, StorageFilter, Store, StoreBuilder,
    SystemClock, Throttle,
};
use std::alloc::Global;
use std::fs::File;
use std::hash::{BuildHasherDefault, FoldHasher};
use std::marker::Brand;
use std::ops::Bound;
use std::process::ExitCode;
use std::rt::Files;
use std::sync::Wait;
use std::thread::Threads;
use std::{env, fs};

// The size of a block in bytes.
const BLOCK_SIZE: usize = 64 << 10;

type Hashes = StdHashBuilder<BuildHasherDefault<FoldHasher>>;

// A cache of files by their names, over any engine.
type Shelf<N> = Store<N, String, Vec<u8>, NoProperties, Hashes>;

// A device of 1 MiB in files. A put isn't admitted while its limit of 64 MiB written a second is used up.
fn device<R: Files<File = File> + AllocGlobal>(
    rt: &R,
    alloc: Global,
    directory: &str,
    now: u64,
) -> Result<FsDevice<Global>> {
    FsDeviceBuilder::new(directory)
        .with_capacity(1 << 20)
        .with_throttle(Throttle::new().with_write_throughput(64 << 20))
        .build(rt, alloc, now)
}

// Two threads write into blocks of 64 KiB, deletes are logged, and files of 40,000 bytes and more aren't kept.
fn config(alloc: Global, device: FsDevice<Global>) -> Result<BlockEngineConfig<FsDevice<Global>>> {
    let small = EstimatedSize::new(Bound::Unbounded, Bound::Excluded(40_000));
    let admission = StorageFilter::new();
    let admission = admission.with_condition(alloc, BuiltInCondition::EstimatedSize(small))?;
    let config = BlockEngineConfig::new(device)
        .with_block_size(BLOCK_SIZE)
        .with_flushers(2)
        .with_tombstone_log(true)
        .with_admission_filter(admission);
    Ok(config)
}

// The path of a file of the directory.
fn path_of(alloc: Global, directory: &str, name: &str) -> Result<String> {
    let mut path = String::from_str(alloc, directory)?;
    path.push_str("/")?;
    path.push_str(name)?;
    Ok(path)
}

// Reads a file, from the cache if it is there. Gives how many bytes the file has, and a word for where they come from.
fn read_through<S: Drop, N: Engine<S, String, Vec<u8>, NoProperties>, R>(
    rt: &R,
    alloc: Global,
    shelf: &Shelf<N>,
    session: &mut S,
    source: &str,
    name: &str,
    now: u64,
) -> Result<(usize, &'static str)>
where
    R: Wait + Files<File = File> + AllocGlobal,
{
    let key = String::from_str(alloc, name)?;
    match shelf.load(rt, session, &key, now)? {
        Load::Entry { value, .. } => return Ok((value.len(), "cached")),
        Load::Piece { piece, .. } => return Ok((piece.value().len(), "cached")),
        Load::Throttled | Load::Miss => {}
    }
    let value = fs::read(rt, path_of(alloc, source, name)?.as_str())?;
    let len = value.len();
    let _ = shelf.put(rt, alloc, session, key, value, NoProperties, now)?;
    Ok((len, "read"))
}

// Answers each line of the input.
fn answer_lines<S: Drop, N: Engine<S, String, Vec<u8>, NoProperties>, R>(
    rt: &R,
    alloc: Global,
    shelf: &Shelf<N>,
    session: &mut S,
    clock: &impl Clock,
    source: &str,
) -> Result<()>
where
    R: Wait + Input + Print + Files<File = File> + AllocGlobal,
{
    for line in rt.lines(alloc) {
        let name = line?;
        match read_through(
            rt,
            alloc,
            shelf,
            session,
            source,
            name.as_str(),
            clock.now(),
        ) {
            Ok((len, whence)) => println!(rt; "{name}: {len} bytes, {whence}")?,
            Err(error) => println!(rt; "{name}: {error}")?,
        }
    }
    let counters = shelf.counters::<S>(rt, clock.now());
    println!(rt; "{} misses, {} put", counters.misses, counters.queued_puts)?;
    Ok(())
}

// Builds the cache, answers each line of the input, and closes the cache, which writes what is queued. It doesn't ask which device and I/O
// engines the cache is over, so that its proof needn't look into them.
fn build_and_answer<L, R, D, I>(
    rt: R,
    alloc: Global,
    blanks: Blanks,
    builder: StoreBuilder<Hashes, BlockEngineConfig<D>, I>,
    clock: SystemClock<R>,
    source: &str,
) -> Result<()>
where
    L: Kinds + Send + Sync + 'static,
    R: Threads
        + Wait
        + std::rt::Clock
        + Input
        + Print
        + Files<File = File>
        + AllocGlobal
        + Copy
        + Send
        + 'static,
    D: Device,
    D::Partition: Drop + Send + 'static,
    I: IoEngineConfig<R> + Drop,
    I::Engine: Send + 'static,
    requires { AreOf L.name_of L.all blanks × (L.all ≡ 2 ^ 32) }
{
    let (shelf, mut session, workers) = builder.build::<
        R,
        SystemClock<R>,
        L,
        String,
        Vec<u8>,
        NoProperties,
    >(rt, alloc, blanks, clock, 0)?;
    let answered = answer_lines(&rt, alloc, &shelf, &mut session, &clock, source);
    let closed = shelf.close(&rt, &mut session);
    let _ = workers.join(&rt, session.into_steps());
    answered?;
    closed
}

// Opens the directory of the cache, which no other program may have, and answers each line of the input.
fn open_and_answer<L, R>(
    rt: R,
    alloc: Global,
    blanks: Blanks,
    source: &str,
    cache: &str,
) -> Result<()>
where
    L: Kinds + Send + Sync + 'static,
    R: Threads
        + Wait
        + std::rt::Clock
        + Input
        + Print
        + Files<File = File>
        + AllocGlobal
        + Copy
        + Send
        + Sync
        + 'static,
    requires { AreOf L.name_of L.all blanks × (L.all ≡ 2 ^ 32) }
{
    let shape = DirectoryShape::new(BLOCK_SIZE as u64, 1, true);
    let _lock = match DirectoryLock::take(&rt, alloc, cache, &shape) {
        Ok(lock) => lock,
        Err(refusal) => return Err(refusal.error()),
    };
    let clock = SystemClock::start(rt)?;
    let device = device(&rt, alloc, cache, clock.now())?;
    let hashes = StdHashBuilder {
        build: BuildHasherDefault::<FoldHasher>::default(),
    };
    let builder = StoreBuilder::new("shelf", hashes, 16)
        .with_engine_config(config(alloc, device)?)
        .with_io_engine_config(PsyncIoEngineConfig::new());
    build_and_answer::<L, R, _, _>(rt, alloc, blanks, builder, clock, source)
}

// Does what the words of the command line say, and gives the exit status: 2 if they aren't a program and two directories, 1 if it failed.
fn answer_words<L, R>(rt: R, alloc: Global, blanks: Blanks, words: &[String]) -> u8
where
    L: Kinds + Send + Sync + 'static,
    R: Threads
        + Wait
        + std::rt::Clock
        + Input
        + Print
        + Files<File = File>
        + AllocGlobal
        + Copy
        + Send
        + Sync
        + 'static,
    requires { AreOf L.name_of L.all blanks × (L.all ≡ 2 ^ 32) }
{
    if words.len() != 3 {
        return 2;
    }
    match open_and_answer::<L, R>(rt, alloc, blanks, words[1].as_str(), words[2].as_str()) {
        Ok(()) => 0,
        Err(error) => {
            let _ = println!(rt; "{error}");
            1
        }
    }
}

fn main(rt: HostRuntime) -> ExitCode {
    let mut words = Vec::new(rt.alloc());
    if let Ok(all) = env::args(&rt) {
        for word in all {
            if words.push(word).is_err() {
                return ExitCode::from(1);
            }
        }
    }
    let blanks = Blanks::new(1 << 32);
    let status = answer_words::<Brand, HostRuntime>(rt, rt.alloc(), blanks, words.as_slice());
    ExitCode::from(status)
}
