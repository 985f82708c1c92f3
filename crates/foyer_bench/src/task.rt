//! What threads do with a store, and what they count together.

use crate::asked::AskedKeys;
use crate::caller::{Caller, Values, Work, piece_of};
use crate::report::Report;
use foyer_bench_stats::answers::Answers;
use foyer_bench_stats::histogram::Histogram;
use foyer_bench_stats::plan::Plan;
use foyer_bench_stats::values::key_of;
use foyer_bench_stats::zipf::Zipf;
use foyer_device_page::error::{Error, Result};
use foyer_format_record::serde::{IdentityHashBuilder, NoProperties};
use foyer_storage_cores_run::build::config::Engine;
use foyer_storage_cores_run::build::cores::sessions::CallerSession;
use foyer_storage_cores_run::build::engine::engine::Enqueued;
use foyer_storage_cores_run::task::StoreTask;
use std::alloc::Global;
use std::rt::Clock;
use std::sync::Wait;
use std::time::Instant;

// Puts a value. If it isn't taken, waits and puts it once more.
fn fill_one<S: Drop, N: Engine<S, u64, Vec<u8>, NoProperties>>(
    rt: &impl Wait,
    alloc: Global,
    store: &Values<N>,
    session: &mut S,
    key: u64,
    filler: &[u8],
) -> Result<()> {
    let piece = piece_of(alloc, key, filler)?;
    if store.enqueue(rt, session, &piece, false, 0)? == Enqueued::Queued {
        return Ok(());
    }
    store.wait(rt, session)?;
    let _ = store.enqueue(rt, session, &piece, false, 0)?;
    Ok(())
}

// Puts the first keys, the most frequent last, and waits until they are written.
fn fill<S: Drop, N: Engine<S, u64, Vec<u8>, NoProperties>>(
    rt: &impl Wait,
    alloc: Global,
    store: &Values<N>,
    session: &mut S,
    plan: &Plan,
    filler: &[u8],
) -> Result<()> {
    for rank in (0..plan.fill.min(plan.keys) as usize).rev() {
        fill_one(rt, alloc, store, session, key_of(rank), filler)?;
    }
    if plan.fill > 0 {
        store.wait(rt, session)?;
    }
    Ok(())
}

fn nanos_since(rt: &impl Clock, begin: Instant) -> Result<u64> {
    let nanos = begin.elapsed(rt)?.as_nanos();
    Ok(u64::try_from(nanos).unwrap_or(u64::MAX))
}

/// Makes a caller for each of the plan's threads. Errors: `Memory`.
pub fn callers_of(alloc: Global, plan: &Plan) -> Result<Vec<Caller>> {
    let mut callers = Vec::new(alloc);
    for number in 0..plan.threads {
        callers.push(Caller::new(alloc, plan.seed, number)?)?;
    }
    Ok(callers)
}

/// How long the store's opening took, in nanoseconds, and when its callers began.
#[derive(Clone, Copy)]
pub struct Moments {
    opening_nanos: u64,
    begin: Instant,
}

/// A caller that has ended, and whether its clock could be read.
#[derive(Drop)]
pub struct Called {
    caller: Caller,
    is_timed: bool,
}

// Adds up what the callers counted. Errors: `Io` if a clock failed.
fn report_of(
    alloc: Global,
    opening_nanos: u64,
    nanos: u64,
    steps: [u64; 8],
    called: &[Called],
) -> Result<Report> {
    let mut report = Report {
        answers: Answers::new(),
        puts: Histogram::new(alloc)?,
        gets: Histogram::new(alloc)?,
        opening_nanos,
        nanos,
        steps,
    };
    let mut is_timed = true;
    for one in called {
        let caller = &one.caller;
        report.answers = report.answers.plus(caller.answers);
        let _ = report.puts.merge(&caller.puts);
        let _ = report.gets.merge(&caller.gets);
        is_timed = is_timed && one.is_timed;
    }
    if is_timed { Ok(report) } else { Err(Error::Io) }
}

/// Fills a store, has the plan's threads call it, and closes it.
#[derive(Drop)]
pub struct BenchTask<'a> {
    pub alloc: Global,
    pub plan: &'a Plan,
    pub zipf: &'a Zipf,
    /// What a value is filled with.
    pub filler: &'a [u8],
    /// The marks in which a get that hits marks its key, if there are marks.
    pub asked: Option<&'a AskedKeys>,
    /// When the opening began.
    pub begin: Instant,
}

impl<'a, R: Wait + Clock> StoreTask<R, u64, Vec<u8>, NoProperties, IdentityHashBuilder>
    for BenchTask<'a> {
    type Shared = Moments;

    type Job = Caller;

    type Report = Called;

    type Output = Result<Report>;

    ghost may_end = { λ _ _. Unit {0} };

    fn begin<S, N>(&self, rt: &R, store: &Values<N>, session: &mut S) -> Result<Moments>
    where
        S: CallerSession,
        N: Engine<S, u64, Vec<u8>, NoProperties>,
    {
        let opening_nanos = nanos_since(rt, self.begin)?;
        fill(rt, self.alloc, store, session, self.plan, self.filler)?;
        Ok(Moments {
            opening_nanos,
            begin: Instant::now(rt)?,
        })
    }

    fn call<S, N>(
        &self,
        rt: &R,
        store: &Values<N>,
        session: &mut S,
        _shared: &Moments,
        job: Caller,
    ) -> Called
    where
        S: CallerSession,
        N: Engine<S, u64, Vec<u8>, NoProperties>,
    {
        let mut caller = job;
        let work = Work {
            plan: self.plan,
            zipf: self.zipf,
            filler: self.filler,
            asked: self.asked,
        };
        let ran = caller.run(rt, self.alloc, store, session, &work);
        Called {
            caller,
            is_timed: ran.is_ok(),
        }
    }

    fn end<S, N>(
        self,
        rt: &R,
        store: &Values<N>,
        session: &mut S,
        shared: Moments,
        reports: &[Called],
    ) -> Result<Report>
    where
        S: CallerSession,
        N: Engine<S, u64, Vec<u8>, NoProperties>,
        ensures { Unit {0} }
    {
        let nanos = nanos_since(rt, shared.begin);
        let steps = session.tally();
        store.close(rt, session)?;
        report_of(self.alloc, shared.opening_nanos, nanos?, steps, reports)
    }
}
