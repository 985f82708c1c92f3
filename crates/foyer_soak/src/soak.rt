//! Threads that call a store at once, each for keys of its own, and judge each answer by what they put last.
ghost use Rattle.std.specs.Prelude.{◌≡◌, ◌≢◌, ◌^◌, length};
ghost use Rattle.foyer_storage_cores_run.specs.CoreLedgers.{AreOfCores};

mod asker;

use asker::{Asker, Plan, Values};
use foyer_cli::command::number;
use foyer_cli::options::Options;
use foyer_core_tally::book::Kinds;
use foyer_device_page::error::Result;
use foyer_device_partition::io::device::{
    Device, DeviceBuilder, FsDeviceBuilder, MemoryDeviceBuilder,
};
use foyer_format_record::serde::{IdentityHashBuilder, NoProperties};
use foyer_io_engine::io::engine::{
    IoEngineConfig, MemoryIoEngine, PsyncIoEngineConfig, SharedMemoryIoEngineConfig,
};
use foyer_storage_cores_run::build::builder::StoreBuilder;
use foyer_storage_cores_run::build::config::{BlockEngineConfig, Engine};
use foyer_storage_cores_run::build::cores::kinds::CoreBlanks;
use foyer_storage_cores_run::build::cores::sessions::CallerSession;
use foyer_storage_cores_run::build::threads::workers::Moment;
use foyer_storage_cores_run::paths::core_path;
use foyer_storage_cores_run::run::run_over_cores;
use foyer_storage_cores_run::task::StoreTask;
use std::alloc::{Allocator, Global};
use std::fs::File;
use std::io;
use std::io::Write;
use std::rt::Files;
use std::sync::Wait;
use std::thread::Threads;

// Into how many shards the keeper is divided.
const KEEPER_SHARDS: usize = 64;

// How many threads ask at most.
const MOST_THREADS: u64 = 1024;

/// The text that is printed if the arguments are bad.
pub const USAGE: &str = "usage: foyersoak DIR CAPACITY BLOCK THREADS CALLS SEED CORES\n";

/// What threads asked and found: how many calls they made, loads that were answered by a value, answers that can't be right, and
/// calls that were refused.
#[derive(Clone, Copy, Debug, PartialEq, Eq)]
pub struct Found {
    pub calls: u64,
    pub hits: u64,
    pub wrong: u64,
    pub faults: u64,
}

const NOTHING: Found = Found {
    calls: 0,
    hits: 0,
    wrong: 0,
    faults: 0,
};

impl Found {
    fn plus(self, other: Found) -> Found {
        Found {
            calls: self.calls.saturating_add(other.calls),
            hits: self.hits.saturating_add(other.hits),
            wrong: self.wrong.saturating_add(other.wrong),
            faults: self.faults.saturating_add(other.faults),
        }
    }
}

// A plan for each thread, for keys of its own, but for at most 1024 threads. Errors: `Memory`.
fn plans_of(alloc: Global, threads: u64, plan: Plan) -> Result<Vec<Plan>> {
    let mut plans = Vec::new(alloc);
    for number in 0..threads.min(MOST_THREADS) {
        plans.push(Plan {
            first: number.wrapping_shl(32),
            ..plan
        })?;
    }
    Ok(plans)
}

// Has a thread for each plan call a store.
#[derive(Clone, Copy)]
struct SoakTask {
    alloc: Global,
}

impl<R: Wait> StoreTask<R, u64, Vec<u8>, NoProperties, IdentityHashBuilder> for SoakTask {
    type Shared = ();

    type Job = Plan;

    type Report = Found;

    type Output = Result<Found>;

    ghost may_end = { λ _ _. Unit {0} };

    fn begin<S, N>(&self, _rt: &R, _store: &Values<N>, _session: &mut S) -> Result<()>
    where
        S: CallerSession,
        N: Engine<S, u64, Vec<u8>, NoProperties>,
    {
        Ok(())
    }

    fn call<S, N>(
        &self,
        rt: &R,
        store: &Values<N>,
        session: &mut S,
        _shared: &(),
        job: Plan,
    ) -> Found
    where
        S: CallerSession,
        N: Engine<S, u64, Vec<u8>, NoProperties>,
    {
        let mut asker = Asker::new(job.seed);
        asker.ask(rt, self.alloc, store, session, job);
        asker.found
    }

    fn end<S, N>(
        self,
        rt: &R,
        store: &Values<N>,
        session: &mut S,
        _shared: (),
        reports: &[Found],
    ) -> Result<Found>
    where
        S: CallerSession,
        N: Engine<S, u64, Vec<u8>, NoProperties>,
        ensures { Unit {0} }
    {
        store.close(rt, session)?;
        let mut found = NOTHING;
        for more in reports {
            found = found.plus(*more);
        }
        Ok(found)
    }
}

// The device and the I/O engines of a core.
#[derive(Drop)]
struct Place<D: Drop, I: Drop> {
    device: D,
    io_engine: I,
}

// Builds the engine of a core.
type CoreBuilder<D, I> = StoreBuilder<IdentityHashBuilder, BlockEngineConfig<D>, I>;

fn builders_of<D: Device, I: Drop>(
    alloc: Global,
    places: Vec<Place<D, I>>,
    block_size: usize,
) -> Result<Vec<CoreBuilder<D, I>>> {
    let mut builders = Vec::new(alloc);
    for place in places {
        let Place { device, io_engine } = place;
        let config = BlockEngineConfig::new(device).with_block_size(block_size);
        let builder = StoreBuilder::new("foyersoak", IdentityHashBuilder, KEEPER_SHARDS)
            .with_engine_config(config)
            .with_io_engine_config(io_engine);
        builders.push(builder)?;
    }
    Ok(builders)
}

// Opens a store over these places, one for each core, and calls it.
fn soak_over<L, T, I, D>(
    rt: T,
    alloc: Global,
    blanks: CoreBlanks,
    places: Vec<Place<D, I>>,
    block_size: usize,
    plans: Vec<Plan>,
) -> Result<Found>
where
    L: Kinds + Send + Sync + 'static,
    T: Threads + Wait + Files + Copy + Send + Sync + 'static,
    I: IoEngineConfig<T> + Drop,
    I::Engine: Send + 'static,
    D: Device,
    D::Partition: Drop + Send + Sync + 'static,
    requires { AreOfCores L.name_of L.all blanks × (L.all ≡ 2 ^ 32) }
{
    let builders = builders_of(alloc, places, block_size)?;
    run_over_cores::<T, Moment, L, u64, Vec<u8>, NoProperties, _, _, D, _, _, _, I, _>(
        rt,
        alloc,
        blanks,
        "foyersoak",
        IdentityHashBuilder,
        KEEPER_SHARDS,
        builders,
        Moment(0),
        0,
        SoakTask { alloc },
        plans,
    )?
}

// How many threads call a store, how, and over how many cores.
#[derive(Clone, Copy)]
struct Asked {
    threads: u64,
    plan: Plan,
    cores: u64,
}

// The last four words.
fn numbers<B: Allocator>(words: &[String<B>]) -> Option<Asked> {
    if words.len() != 4 {
        return None;
    }
    let threads = number(words[0].as_bytes())?;
    let plan = Plan {
        calls: number(words[1].as_bytes())?,
        seed: number(words[2].as_bytes())?,
        first: 0,
    };
    let cores = number(words[3].as_bytes())?;
    if cores != 1 && cores != 2 && cores != 4 {
        return None;
    }
    Some(Asked {
        threads,
        plan,
        cores,
    })
}

// Prints to the output whether all went well, and to `errors` the numbers, which depend on the schedule. Gives the exit status.
fn print_found<W: Write, E: Write>(output: &mut W, errors: &mut E, found: Found) -> io::Result<u8> {
    let Found {
        calls,
        hits,
        wrong,
        faults,
    } = found;
    write!(
        errors,
        "calls={calls} hits={hits} wrong={wrong} faults={faults}\n"
    )?;
    if wrong == 0 && faults == 0 {
        output.write_all(b"every answer may be right\n")?;
        return Ok(0);
    }
    output.write_all(b"answers are wrong, or calls were refused\n")?;
    Ok(1)
}

/// Runs the words `DIR CAPACITY BLOCK THREADS CALLS SEED CORES`. This many threads, but at most 1024, call one store of this many cores.
/// Each thread makes this many calls, for keys of its own, and judges each answer by what it put last. For a key that it hasn't put or
/// deleted yet, it accepts a value of an earlier run over the directory. It gives the exit status: 0, or 2 for bad words. The status is 1
/// if an answer was wrong, a call was refused, the output failed, or the store couldn't be built or closed. The ledgers must fit `L` and
/// have 2^32 parts each (`CoreBlanks::new`).
pub fn soak<L, T, B, W, E>(
    rt: T,
    alloc: Global,
    blanks: CoreBlanks,
    words: &[String<B>],
    mut output: W,
    mut errors: E,
) -> u8
where
    L: Kinds + Send + Sync + 'static,
    T: Threads + Wait + Files<File = File> + AllocGlobal + Copy + Send + Sync + 'static,
    B: Allocator,
    W: Write + Drop,
    E: Write + Drop,
    requires { AreOfCores L.name_of L.all blanks × (L.all ≡ 2 ^ 32) }
    ensures usage { length words.now ≢ 7 → result ≡ 2 }
{
    if words.len() != 7 {
        let _ = errors.write_all(USAGE.as_bytes());
        return 2;
    }
    let (options, asked) = match (Options::parse(&words[..3]), numbers(&words[3..])) {
        (Some(options), Some(asked)) => (options, asked),
        _ => {
            let _ = errors.write_all(USAGE.as_bytes());
            return 2;
        }
    };
    let found = if options.is_memory() {
        soak_memory::<L, T>(rt, alloc, blanks, &options, asked)
    } else {
        soak_directory::<L, T>(rt, alloc, blanks, &options, asked)
    };
    match found {
        Ok(found) => print_found(&mut output, &mut errors, found).unwrap_or(1),
        Err(error) => {
            let _ = write!(errors, "{error}\n");
            1
        }
    }
}

// As `soak_over`, over memory, of which each core has an equal part.
fn soak_memory<L, T>(
    rt: T,
    alloc: Global,
    blanks: CoreBlanks,
    options: &Options<'_>,
    asked: Asked,
) -> Result<Found>
where
    L: Kinds + Send + Sync + 'static,
    T: Threads + Wait + Files + Copy + Send + Sync + 'static,
    requires { AreOfCores L.name_of L.all blanks × (L.all ≡ 2 ^ 32) }
{
    let capacity = (options.capacity / asked.cores.max(1)) as usize;
    let plans = plans_of(alloc, asked.threads, asked.plan)?;
    let mut places = Vec::new(alloc);
    for _ in 0..asked.cores {
        let mut engine = MemoryIoEngine::new(alloc);
        engine.add_file(alloc, capacity)?;
        let io_engine = SharedMemoryIoEngineConfig::new(alloc, engine)?;
        let device = MemoryDeviceBuilder::new(capacity).build(&rt, alloc, 0)?;
        places.push(Place { device, io_engine })?;
    }
    let block_size = options.block_size as usize;
    soak_over::<L, T, _, _>(rt, alloc, blanks, places, block_size, plans)
}

// As `soak_over`, over the files of a directory for each core.
fn soak_directory<L, T>(
    rt: T,
    alloc: Global,
    blanks: CoreBlanks,
    options: &Options<'_>,
    asked: Asked,
) -> Result<Found>
where
    L: Kinds + Send + Sync + 'static,
    T: Threads + Wait + Files<File = File> + AllocGlobal + Copy + Send + Sync + 'static,
    requires { AreOfCores L.name_of L.all blanks × (L.all ≡ 2 ^ 32) }
{
    let capacity = (options.capacity / asked.cores.max(1)) as usize;
    let plans = plans_of(alloc, asked.threads, asked.plan)?;
    let mut places = Vec::new(alloc);
    for core in 0..asked.cores {
        let path = core_path(alloc, options.directory, core, asked.cores)?;
        let builder = FsDeviceBuilder::new(path.as_str()).with_capacity(capacity);
        let device = builder.build(&rt, alloc, 0)?;
        places.push(Place {
            device,
            io_engine: PsyncIoEngineConfig::new(),
        })?;
    }
    let block_size = options.block_size as usize;
    soak_over::<L, T, _, _>(rt, alloc, blanks, places, block_size, plans)
}
