//! Stores that are built, asked, closed and joined.
ghost use Rattle.std.specs.Prelude.{◌≡◌, ◌^◌};
ghost use Rattle.foyer_core_tally.specs.Ledgers.{AreOf};
ghost use Rattle.foyer_storage_cores.specs.CoreLedgers.{AreOfCores};

use crate::tests::asked::{Beside, LowBits, Texts, answers_to};
use crate::tests::dials::Dial;
use crate::tests::gates::HoldingGate;
use crate::tests::over::Over;
use foyer_core_tally::book::{Blanks, Kinds};
use foyer_device_page::error::{Error, Result};
use foyer_device_partition::io::device::Device;
use foyer_format_record::serde::NoProperties;
use foyer_io_engine::io::engine::IoEngineConfig;
use foyer_io_gate::gate::Gate;
use foyer_policy_filter::StorageFilterCondition;
use foyer_program::store::builder::StoreBuilder;
use foyer_program::store::config::{BlockEngineConfig, Engine, PickerSource};
use foyer_program::store::cores::kinds::CoreBlanks;
use foyer_program::store::cores::sessions::CallerSession;
use foyer_program::store::running::JoinWorkers;
use foyer_program::store::session::StoreSession;
use foyer_program::store::threads::workers::Workers;
use foyer_storage_cores_run::run::run_over_cores;
use foyer_storage_cores_run::task::StoreTask;
use foyer_testing::said::Said;
use std::alloc::Global;
use std::rt::Files;
use std::sync::Wait;
use std::thread;
use std::thread::Threads;

/// What a store is built over, what it is asked, and what stands beside it.
#[derive(Drop)]
pub(crate) struct Asked {
    pub(crate) over: Over,
    pub(crate) script: String,
    pub(crate) gate: HoldingGate,
    pub(crate) dial: Dial,
}

impl Asked {
    /// By a script, with a gate that holds as it is built over, and a dial that shows when it is built. Memory.
    pub(crate) fn new(alloc: Global, over: Over, script: &str) -> Result<Asked> {
        let script = String::from_str(alloc, script)?;
        let gate = HoldingGate::new(alloc, over.point, over.naps)?;
        let dial = Dial::new(alloc, over.start)?;
        Ok(Asked {
            over,
            script,
            gate,
            dial,
        })
    }

    fn beside(&self) -> Beside<'_> {
        Beside {
            gate: &self.gate,
            dial: self.dial,
        }
    }
}

// Takes in what was noted elsewhere.
fn take(said: &mut Said, other: Said) {
    match other.text() {
        Ok(text) => said.word(text.as_str()),
        Err(_) => said.miss(),
    }
}

// The answers to a script; behind an ampersand comes one that another thread asks meanwhile, and its answers. What stands behind `then:` is
// asked after both.
fn answers_of_both<S, N, R>(
    rt: &R,
    alloc: Global,
    store: &Texts<N>,
    beside: Beside<'_>,
    session: &mut S,
    script: &str,
) -> Said
where
    S: CallerSession + Send,
    N: Engine<S, u128, String, NoProperties> + Send + Sync,
    R: Threads + Wait + Sync,
{
    let (script, then) = script.split_once(" then: ").unwrap_or((script, ""));
    let (own, others) = script.split_once(" & ").unwrap_or((script, ""));
    if others.is_empty() || session.parts() < 2 {
        return answers_to(rt, alloc, store, beside, session, own);
    }
    let mut other = session.split(1);
    let ask = || answers_to(rt, alloc, store, beside, session, own);
    let ask_others = || answers_to(rt, alloc, store, beside, &mut other, others);
    let (mut said, more) = thread::join(rt, ask, ask_others);
    session.join(other);
    said.word(" & ");
    take(&mut said, more);
    if !then.is_empty() {
        said.word(" then: ");
        let more = answers_to(rt, alloc, store, beside, session, then);
        take(&mut said, more);
    }
    said
}

// Asks a store, closes it, and joins its workers. What stands behind `left:` is asked after the join of a store that isn't closed.
fn answers_of_store<S, W, N, R>(
    rt: &R,
    alloc: Global,
    store: &Texts<N>,
    mut session: S,
    workers: W,
    asked: &Asked,
) -> Said
where
    S: CallerSession + Send,
    W: JoinWorkers<S>,
    N: Engine<S, u128, String, NoProperties> + Send + Sync,
    R: Threads + Wait + Sync,
{
    let script = asked.script.as_str();
    let (script, left) = script.split_once(" left: ").unwrap_or((script, ""));
    let mut said = answers_of_both(rt, alloc, store, asked.beside(), &mut session, script);
    asked.gate.open();
    if left.is_empty() {
        let _ = store.close(rt, &mut session);
    }
    let mut session = workers.join(rt, session);
    if !left.is_empty() {
        said.word(" left: ");
        let more = answers_to(rt, alloc, store, asked.beside(), &mut session, left);
        take(&mut said, more);
    }
    said
}

fn with_noop(said: Said, is_noop: bool) -> Said {
    let mut said = said;
    if is_noop {
        said.word(", noop");
    }
    said
}

fn refusal(alloc: Global, error: Error) -> Said {
    let mut said = Said::new(alloc);
    said.word("refused ");
    said.word(error.kind().name());
    said
}

/// A store that was built, with its session and its workers, or why it wasn't.
type AnyBuilt<L, N> = Result<(Texts<N>, StoreSession<L>, Workers<L>)>;

// Asks a store that was built, or notes why it wasn't. Whoever builds it knows its config, and this function its engine, so that no proof
// looks into both.
fn answers_of_built<L, R, N>(
    rt: &R,
    alloc: Global,
    built: AnyBuilt<L, N>,
    is_noop: bool,
    asked: &Asked,
) -> Said
where
    L: Kinds + Send + Sync + 'static,
    R: Threads + Wait + Sync,
    N: Engine<StoreSession<L>, u128, String, NoProperties> + Send + Sync,
{
    match built {
        Ok((store, session, workers)) => {
            let said = answers_of_store(rt, alloc, &store, session, workers, asked);
            with_noop(said, is_noop)
        }
        Err(error) => refusal(alloc, error),
    }
}

/// Of a store without an engine.
pub(crate) fn answers_of_nothing<L, R>(rt: R, alloc: Global, blanks: Blanks, asked: &Asked) -> Said
where
    L: Kinds + Send + Sync + 'static,
    R: Threads + Wait + Copy + Send + Sync + 'static,
    requires { AreOf L.name_of L.all blanks × (L.all ≡ 2 ^ 32) }
{
    let builder = StoreBuilder::new("nothing", LowBits, asked.over.shards).with_compression(
        asked.over.compression,
    );
    let is_noop = builder.is_noop::<R, Dial, L, u128, String, NoProperties>();
    let (clock, seed) = (asked.dial, asked.over.seed);
    let built = builder.build::<R, Dial, L, u128, String, NoProperties>(
        rt, alloc, blanks, clock, seed,
    );
    answers_of_built(&rt, alloc, built, is_noop, asked)
}

/// The answers of a store whose engine has any device, I/O engines, pickers, conditions and gate. What is known of the whole engine is
/// proved for whatever types these are, and not again for those of these tests.
pub(crate) fn answers_over<L, R, I, D, S, C, G>(
    rt: R,
    alloc: Global,
    blanks: Blanks,
    builder: StoreBuilder<LowBits, BlockEngineConfig<D, S, C, G>, I>,
    asked: &Asked,
) -> Said
where
    L: Kinds + Send + Sync + 'static,
    R: Threads + Wait + Files + Copy + Send + Sync + 'static,
    I: IoEngineConfig<R> + Drop,
    I::Engine: Send + 'static,
    D: Device,
    D::Partition: Drop + Send + Sync + 'static,
    S: PickerSource,
    S::Picker: Send + 'static,
    C: StorageFilterCondition + Send + Sync + 'static,
    G: Gate + Send + Sync + 'static,
    requires { AreOf L.name_of L.all blanks × (L.all ≡ 2 ^ 32) }
{
    let is_noop = builder.is_noop::<R, Dial, L, u128, String, NoProperties>();
    let (clock, seed) = (asked.dial, asked.over.seed);
    let built = builder.build::<R, Dial, L, u128, String, NoProperties>(
        rt, alloc, blanks, clock, seed,
    );
    answers_of_built(&rt, alloc, built, is_noop, asked)
}

// What a store of several cores is asked.
#[derive(Drop)]
struct AskedTask<'a> {
    alloc: Global,
    asked: &'a Asked,
}

impl<'a, R: Wait> StoreTask<R, u128, String, NoProperties, LowBits> for AskedTask<'a> {
    type Shared = ();

    type Job = String;

    type Report = Result<String>;

    type Output = Said;

    ghost may_end = { λ _ _. Unit {0} };

    fn begin<S, N>(&self, _rt: &R, _store: &Texts<N>, _session: &mut S) -> Result<()>
    where
        S: CallerSession,
        N: Engine<S, u128, String, NoProperties>,
    {
        Ok(())
    }

    fn call<S, N>(
        &self,
        rt: &R,
        store: &Texts<N>,
        session: &mut S,
        _shared: &(),
        job: String,
    ) -> Result<String>
    where
        S: CallerSession,
        N: Engine<S, u128, String, NoProperties>,
    {
        let beside = self.asked.beside();
        answers_to(rt, self.alloc, store, beside, session, job.as_str()).text()
    }

    fn end<S, N>(
        self,
        rt: &R,
        store: &Texts<N>,
        session: &mut S,
        _shared: (),
        reports: &[Result<String>],
    ) -> Said
    where
        S: CallerSession,
        N: Engine<S, u128, String, NoProperties>,
        ensures { Unit {0} }
    {
        self.asked.gate.open();
        let _ = store.close(rt, session);
        let mut said = Said::new(self.alloc);
        let mut is_first = true;
        for more in reports {
            if !is_first {
                said.word(" & ");
            }
            is_first = false;
            match more {
                Ok(text) => said.word(text.as_str()),
                Err(_) => said.miss(),
            }
        }
        said
    }
}

// A script for each thread: behind an ampersand comes another one's.
fn scripts_of(alloc: Global, script: &str) -> Result<Vec<String>> {
    let mut scripts = Vec::new(alloc);
    for part in script.split(" & ") {
        scripts.push(String::from_str(alloc, part)?)?;
    }
    Ok(scripts)
}

/// Builds a store of as many cores as there are builders, and asks it, or notes why it isn't built.
pub(crate) fn answers_of_cores<L, R, I, D, S, C, G>(
    rt: R,
    alloc: Global,
    blanks: CoreBlanks,
    builders: Vec<StoreBuilder<LowBits, BlockEngineConfig<D, S, C, G>, I>>,
    asked: &Asked,
) -> Result<Said>
where
    L: Kinds + Send + Sync + 'static,
    R: Threads + Wait + Files + Copy + Send + Sync + 'static,
    I: IoEngineConfig<R> + Drop,
    I::Engine: Send + 'static,
    D: Device,
    D::Partition: Drop + Send + Sync + 'static,
    S: PickerSource,
    S::Picker: Send + 'static,
    C: StorageFilterCondition + Send + Sync + 'static,
    G: Gate + Send + Sync + 'static,
    requires { AreOfCores L.name_of L.all blanks × (L.all ≡ 2 ^ 32) }
{
    let task = AskedTask { alloc, asked };
    let scripts = scripts_of(alloc, asked.script.as_str())?;
    let answered = run_over_cores::<R, Dial, L, u128, String, NoProperties, _, _, D, S, C, G, I, _>(
        rt,
        alloc,
        blanks,
        "cores",
        LowBits,
        asked.over.shards,
        builders,
        asked.dial,
        asked.over.seed,
        task,
        scripts,
    );
    match answered {
        Ok(said) => Ok(said),
        Err(error) => Ok(refusal(alloc, error)),
    }
}
