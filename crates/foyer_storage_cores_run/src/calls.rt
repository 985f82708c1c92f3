//! The threads that call a store.
ghost use Rattle.std.specs.Prelude.{IfOk};

use crate::task::StoreTask;
use foyer_device_page::error::{Error, Result};
use foyer_storage_build::config::Engine;
use foyer_storage_build::cores::sessions::CallerSession;
use foyer_storage_build::store::Store;
use std::alloc::Global;
use std::sync::Wait;
use std::thread;
use std::thread::Threads;

// A thread's session, its job until the thread begins it, and its report once the job is done.
#[derive(Drop)]
struct Seat<S: Drop, J: Drop, Y: Drop> {
    session: S,
    job: Option<J>,
    report: Option<Y>,
}

// So many parts of a session; None if it has no more than these, or these are none.
fn split<S: CallerSession>(session: &mut S, parts: u64) -> Option<S> {
    if parts == 0 || session.parts() <= parts {
        return None;
    }
    Some(session.split(parts))
}

// A seat for each job, each with an equal share of the session's parts. Memory, also if there are too few parts.
fn seats_of<S: CallerSession, J: Drop, Y: Drop>(
    alloc: Global,
    session: &mut S,
    jobs: Vec<J>,
) -> Result<Vec<Seat<S, J, Y>>> {
    let parts = session.parts() / (jobs.len() as u64).saturating_add(1);
    let mut seats = Vec::new(alloc);
    for job in jobs {
        let Some(part) = split(session, parts) else {
            return Err(Error::Memory);
        };
        seats.push(Seat {
            session: part,
            job: Some(job),
            report: None,
        })?;
    }
    Ok(seats)
}

// Gives the reports, and joins the seats' sessions into this one. Errors: `Memory`.
fn reports_of<S: CallerSession, J: Drop, Y: Drop>(
    alloc: Global,
    session: &mut S,
    seats: Vec<Seat<S, J, Y>>,
) -> Result<Vec<Y>> {
    let mut reports = Vec::new(alloc);
    for seat in seats {
        let Seat {
            session: part,
            job: _,
            report,
        } = seat;
        session.join(part);
        if let Some(report) = report {
            reports.push(report)?;
        }
    }
    Ok(reports)
}

// What one thread does.
fn call_one<R, K, V, P, H, U, N, S>(
    rt: &R,
    store: &Store<N, K, V, P, H>,
    task: &U,
    shared: &U::Shared,
    seat: &mut Seat<S, U::Job, U::Report>,
)
where
    K: Eq,
    H: Drop,
    U: StoreTask<R, K, V, P, H>,
    N: Engine<S, K, V, P>,
    S: CallerSession,
{
    if let Some(job) = seat.job.take() {
        let report = task.call(rt, store, &mut seat.session, shared, job);
        seat.report = Some(report);
    }
}

// Calls a store by a thread for each job. Memory. Once one job has begun all are called: nothing is allocated between.
fn call_all<R, K, V, P, H, U, N, S>(
    rt: &R,
    alloc: Global,
    store: &Store<N, K, V, P, H>,
    session: &mut S,
    task: &U,
    shared: &U::Shared,
    jobs: Vec<U::Job>,
) -> Result<Vec<U::Report>>
where
    R: Threads + Wait + Sync,
    K: Eq + Drop + Send + Sync,
    V: Drop + Send + Sync,
    P: Drop + Send + Sync,
    H: Drop + Send + Sync,
    U: StoreTask<R, K, V, P, H> + Sync,
    U::Shared: Sync,
    U::Job: Send,
    U::Report: Send,
    U::Output: Send,
    N: Engine<S, K, V, P> + Send + Sync,
    S: CallerSession + Send,
{
    let mut seats = seats_of(alloc, session, jobs)?;
    let threads = seats.len().max(1);
    let call = |_number: usize, seat: &mut Seat<S, U::Job, U::Report>| {
        call_one(rt, store, task, shared, seat)
    };
    thread::for_each_mut(rt, seats.as_mut_slice(), threads, &call);
    reports_of(alloc, session, seats)
}

// Begins a task, and has its threads call the store: what they share, and what they report.
fn begin_and_call<R, K, V, P, H, U, N, S>(
    rt: &R,
    alloc: Global,
    store: &Store<N, K, V, P, H>,
    session: &mut S,
    task: &U,
    jobs: Vec<U::Job>,
) -> Result<(U::Shared, Vec<U::Report>)>
where
    R: Threads + Wait + Sync,
    K: Eq + Drop + Send + Sync,
    V: Drop + Send + Sync,
    P: Drop + Send + Sync,
    H: Drop + Send + Sync,
    U: StoreTask<R, K, V, P, H> + Sync,
    U::Shared: Sync,
    U::Job: Send,
    U::Report: Send,
    U::Output: Send,
    N: Engine<S, K, V, P> + Send + Sync,
    S: CallerSession + Send,
{
    let shared = task.begin(rt, store, session)?;
    let reports = call_all(rt, alloc, store, session, task, &shared, jobs)?;
    Ok((shared, reports))
}

/// Does a task with a store. If the task can't begin, or memory is refused, its `end` isn't called, and the store is closed.
pub(crate) fn do_task<R, K, V, P, H, U, N, S>(
    rt: &R,
    alloc: Global,
    store: &Store<N, K, V, P, H>,
    session: &mut S,
    task: U,
    jobs: Vec<U::Job>,
) -> Result<U::Output>
where
    R: Threads + Wait + Sync,
    K: Eq + Drop + Send + Sync,
    V: Drop + Send + Sync,
    P: Drop + Send + Sync,
    H: Drop + Send + Sync,
    U: StoreTask<R, K, V, P, H> + Sync,
    U::Shared: Sync,
    U::Job: Send,
    U::Report: Send,
    U::Output: Send,
    N: Engine<S, K, V, P> + Send + Sync,
    S: CallerSession + Send,
    ensures ended { IfOk result (λ output. U.may_end task output) }
{
    match begin_and_call(rt, alloc, store, session, &task, jobs) {
        Ok((shared, reports)) => Ok(task.end(rt, store, session, shared, reports.as_slice())),
        Err(error) => {
            let _ = store.close(rt, session);
            Err(error)
        }
    }
}
