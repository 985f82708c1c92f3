//! What threads do with a store, whatever its number of cores.
use foyer_device_page::error::Result;
use foyer_storage_build::config::Engine;
use foyer_storage_build::cores::sessions::CallerSession;
use foyer_storage_build::store::Store;

/// What is done with a store. It is written for any engine, so that the number of cores is chosen when it runs. No method starts
/// threads: `run_over_cores` does.
pub trait StoreTask<R, K: Eq, V, P, H: Drop>: Sized + Drop {
    /// What its threads share, beside the store.
    type Shared: Drop;

    /// What a thread must do.
    type Job: Drop;

    /// What a thread gives back.
    type Report: Drop;

    /// What the whole task gives.
    type Output: Drop;

    // Which outputs the task may give.
    ghost may_end: { Self → Self.Output → Type 0 };

    /// What is done before the threads start, as soon as the store is open. After an error no thread starts, `end` isn't called, and the
    /// store is closed.
    fn begin<S, N>(
        &self,
        rt: &R,
        store: &Store<N, K, V, P, H>,
        session: &mut S,
    ) -> Result<Self::Shared>
    where
        S: CallerSession,
        N: Engine<S, K, V, P>;

    /// What a thread does, with a session of its own.
    fn call<S, N>(
        &self,
        rt: &R,
        store: &Store<N, K, V, P, H>,
        session: &mut S,
        shared: &Self::Shared,
        job: Self::Job,
    ) -> Self::Report
    where
        S: CallerSession,
        N: Engine<S, K, V, P>;

    /// What is done once the threads have ended, with the reports in the order of the jobs. It must close the store. The store's own
    /// threads are joined afterwards. The session has the threads' parts again, and counts their steps.
    fn end<S, N>(
        self,
        rt: &R,
        store: &Store<N, K, V, P, H>,
        session: &mut S,
        shared: Self::Shared,
        reports: &[Self::Report],
    ) -> Self::Output
    where
        S: CallerSession,
        N: Engine<S, K, V, P>,
        ensures { may_end self result };
}
