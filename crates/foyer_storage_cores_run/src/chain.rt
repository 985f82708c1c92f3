//! Cores that are opened one after the other, until all run.
//!
//! The prover needs minutes to see that a core's engine may be shared by threads. So each function here is general in the engines that
//! run, opens one more, and hands all of them to the next.
ghost use Rattle.std.specs.Prelude.{◌≡◌, ◌+◌, ◌*◌, ◌^◌, IfOk};
ghost use Rattle.foyer_core_tally.specs.Ledgers.{AreOf};

use crate::calls::do_task;
use crate::opening::{Later, open_one};
use crate::task::StoreTask;
use foyer_core_tally::book::{Blanks, Kinds};
use foyer_device_page::error::Result;
use foyer_device_partition::io::device::Device;
use foyer_format_record::serde::{Code, Properties};
use foyer_io_engine::io::engine::IoEngineConfig;
use foyer_io_gate::gate::Gate;
use foyer_policy_filter::StorageFilterCondition;
use foyer_policy_keeper::keeper::Keeper;
use foyer_storage_build::builder::StoreBuilder;
use foyer_storage_build::config::{BlockEngineConfig, Engine, PickerSource};
use foyer_storage_build::cores::kinds::CoreKinds;
use foyer_storage_build::cores::sessions::CallerSession;
use foyer_storage_build::running::{JoinWorkers, RunningEngine, beside};
use foyer_storage_build::threads::workers::Clock;
use std::alloc::Global;
use std::rt::Files;
use std::sync::{Arc, Wait};
use std::thread::Threads;

/// What a store is made of beside its cores, and what is done with it.
#[derive(Drop)]
pub(crate) struct Doing<K: Eq + Drop, V: Drop, P: Drop, H: Drop, U: Drop, J: Drop> {
    pub(crate) name: &'static str,
    pub(crate) hasher: H,
    pub(crate) keeper: Arc<Keeper<K, V, P, Global>, Global>,
    pub(crate) task: U,
    pub(crate) jobs: Vec<J>,
}

// Makes a store of what runs, does the task with it, and joins its threads.
fn run<R, K, V, P, H, U, N, X, W>(
    rt: &R,
    alloc: Global,
    running: RunningEngine<N, X, W>,
    doing: Doing<K, V, P, H, U, U::Job>,
) -> Result<U::Output>
where
    R: Threads + Wait + Sync,
    K: Eq + Drop + Send + Sync,
    V: Drop + Send + Sync,
    P: Drop + Send + Sync,
    H: Drop + Send + Sync,
    U: StoreTask<R, K, V, P, H> + Sync,
    U::Shared: Sync,
    U::Job: Send,
    U::Report: Send,
    U::Output: Send,
    N: Engine<X, K, V, P> + Send + Sync,
    X: CallerSession + Send,
    W: JoinWorkers<X>,
    ensures ended { IfOk result (λ output. U.may_end doing.task output) }
{
    let Doing {
        name,
        hasher,
        keeper,
        task,
        jobs,
    } = doing;
    let (store, mut session, workers) = running.into_store(rt, alloc, name, hasher, keeper)?;
    let output = do_task(rt, alloc, &store, &mut session, task, jobs);
    let _ = workers.join(rt, session);
    output
}

// With four cores that run, or a refusal of the third or the fourth.
fn run_four<R, K, V, P, H, U, N, X, W, M, Y, Z, A, B, E>(
    rt: &R,
    alloc: Global,
    both: RunningEngine<N, X, W>,
    third: Result<RunningEngine<M, Y, Z>>,
    fourth: Result<RunningEngine<A, B, E>>,
    doing: Doing<K, V, P, H, U, U::Job>,
) -> Result<U::Output>
where
    R: Threads + Wait + Sync,
    K: Eq + Drop + Send + Sync,
    V: Drop + Send + Sync,
    P: Drop + Send + Sync,
    H: Drop + Send + Sync,
    U: StoreTask<R, K, V, P, H> + Sync,
    U::Shared: Sync,
    U::Job: Send,
    U::Report: Send,
    U::Output: Send,
    N: Engine<X, K, V, P> + Send + Sync,
    X: CallerSession + Send,
    W: JoinWorkers<X>,
    M: Engine<Y, K, V, P> + Send + Sync,
    Y: CallerSession + Send,
    Z: JoinWorkers<Y>,
    A: Engine<B, K, V, P> + Send + Sync,
    B: CallerSession + Send,
    E: JoinWorkers<B>,
    ensures ended { IfOk result (λ output. U.may_end doing.task output) }
{
    let others = beside(rt, third, fourth);
    let all = beside(rt, Ok(both), others)?;
    run(rt, alloc, all, doing)
}

// With three cores that run, or a refusal of the third: opens the fourth.
fn with_three<R, T, L, K, V, P, H, O, D, S, C, G, I, U, N, X, W, M, Y, Z>(
    rt: R,
    fourth: Blanks,
    both: RunningEngine<N, X, W>,
    third: Result<RunningEngine<M, Y, Z>>,
    later: Later<K, V, P, StoreBuilder<O, BlockEngineConfig<D, S, C, G>, I>, T>,
    doing: Doing<K, V, P, H, U, U::Job>,
) -> Result<U::Output>
where
    R: Threads + Wait + Files + Copy + Send + Sync + 'static,
    T: Clock + Copy + Send + 'static,
    L: Kinds + Send + Sync + 'static,
    K: Code<Global> + Eq + Drop + Send + Sync + 'static,
    V: Code<Global> + Drop + Send + Sync + 'static,
    P: Properties + Drop + Send + Sync + 'static,
    H: Drop + Send + Sync,
    O: Drop,
    D: Device,
    D::Partition: Drop + Send + Sync + 'static,
    S: PickerSource,
    S::Picker: Send + 'static,
    C: StorageFilterCondition + Send + Sync + 'static,
    G: Gate + Send + Sync + 'static,
    I: IoEngineConfig<R> + Drop,
    I::Engine: Send + 'static,
    U: StoreTask<R, K, V, P, H> + Sync,
    U::Shared: Sync,
    U::Job: Send,
    U::Report: Send,
    U::Output: Send,
    N: Engine<X, K, V, P> + Send + Sync,
    X: CallerSession + Send,
    W: JoinWorkers<X>,
    M: Engine<Y, K, V, P> + Send + Sync,
    Y: CallerSession + Send,
    Z: JoinWorkers<Y>,
    requires fourth { AreOf (λ kind. L.name_of (8 * 3 + kind)) L.all fourth × (L.all ≡ 2 ^ 32) }
    ensures ended { IfOk result (λ output. U.may_end doing.task output) }
{
    let Later {
        alloc,
        mut builders,
        clock,
        generator,
        keeper,
    } = later;
    let fourth = open_one::<R, T, CoreKinds<L, 3>, K, V, P, O, D, S, C, G, I>(
        rt,
        alloc,
        fourth,
        builders.pop(),
        clock,
        generator,
        &keeper,
    );
    run_four(&rt, alloc, both, third, fourth, doing)
}

// With two cores that run, or a refusal of the second: does the task, or opens the third.
fn with_two<R, T, L, K, V, P, H, O, D, S, C, G, I, U, N, X, W, M, Y, Z>(
    rt: R,
    third: Blanks,
    fourth: Blanks,
    first: RunningEngine<N, X, W>,
    second: Result<RunningEngine<M, Y, Z>>,
    later: Later<K, V, P, StoreBuilder<O, BlockEngineConfig<D, S, C, G>, I>, T>,
    doing: Doing<K, V, P, H, U, U::Job>,
) -> Result<U::Output>
where
    R: Threads + Wait + Files + Copy + Send + Sync + 'static,
    T: Clock + Copy + Send + 'static,
    L: Kinds + Send + Sync + 'static,
    K: Code<Global> + Eq + Drop + Send + Sync + 'static,
    V: Code<Global> + Drop + Send + Sync + 'static,
    P: Properties + Drop + Send + Sync + 'static,
    H: Drop + Send + Sync,
    O: Drop,
    D: Device,
    D::Partition: Drop + Send + Sync + 'static,
    S: PickerSource,
    S::Picker: Send + 'static,
    C: StorageFilterCondition + Send + Sync + 'static,
    G: Gate + Send + Sync + 'static,
    I: IoEngineConfig<R> + Drop,
    I::Engine: Send + 'static,
    U: StoreTask<R, K, V, P, H> + Sync,
    U::Shared: Sync,
    U::Job: Send,
    U::Report: Send,
    U::Output: Send,
    N: Engine<X, K, V, P> + Send + Sync,
    X: CallerSession + Send,
    W: JoinWorkers<X>,
    M: Engine<Y, K, V, P> + Send + Sync,
    Y: CallerSession + Send,
    Z: JoinWorkers<Y>,
    requires third { AreOf (λ kind. L.name_of (8 * 2 + kind)) L.all third × (L.all ≡ 2 ^ 32) }
    requires fourth { AreOf (λ kind. L.name_of (8 * 3 + kind)) L.all fourth }
    ensures ended { IfOk result (λ output. U.may_end doing.task output) }
{
    let both = beside(&rt, Ok(first), second)?;
    let Later {
        alloc,
        mut builders,
        clock,
        generator,
        keeper,
    } = later;
    let Some(builder) = builders.pop() else {
        return run(&rt, alloc, both, doing);
    };
    let opened = open_one::<R, T, CoreKinds<L, 2>, K, V, P, O, D, S, C, G, I>(
        rt,
        alloc,
        third,
        Some(builder),
        clock,
        generator,
        &keeper,
    );
    let later = Later {
        alloc,
        builders,
        clock,
        generator,
        keeper,
    };
    with_three::<R, T, L, K, V, P, H, O, D, S, C, G, I, U, _, _, _, _, _, _>(
        rt, fourth, both, opened, later, doing,
    )
}

/// With one core that runs: does the task, or opens the second.
pub(crate) fn with_one<R, T, L, K, V, P, H, O, D, S, C, G, I, U, N, X, W>(
    rt: R,
    second: Blanks,
    third: Blanks,
    fourth: Blanks,
    first: RunningEngine<N, X, W>,
    later: Later<K, V, P, StoreBuilder<O, BlockEngineConfig<D, S, C, G>, I>, T>,
    doing: Doing<K, V, P, H, U, U::Job>,
) -> Result<U::Output>
where
    R: Threads + Wait + Files + Copy + Send + Sync + 'static,
    T: Clock + Copy + Send + 'static,
    L: Kinds + Send + Sync + 'static,
    K: Code<Global> + Eq + Drop + Send + Sync + 'static,
    V: Code<Global> + Drop + Send + Sync + 'static,
    P: Properties + Drop + Send + Sync + 'static,
    H: Drop + Send + Sync,
    O: Drop,
    D: Device,
    D::Partition: Drop + Send + Sync + 'static,
    S: PickerSource,
    S::Picker: Send + 'static,
    C: StorageFilterCondition + Send + Sync + 'static,
    G: Gate + Send + Sync + 'static,
    I: IoEngineConfig<R> + Drop,
    I::Engine: Send + 'static,
    U: StoreTask<R, K, V, P, H> + Sync,
    U::Shared: Sync,
    U::Job: Send,
    U::Report: Send,
    U::Output: Send,
    N: Engine<X, K, V, P> + Send + Sync,
    X: CallerSession + Send,
    W: JoinWorkers<X>,
    requires second { AreOf (λ kind. L.name_of (8 * 1 + kind)) L.all second × (L.all ≡ 2 ^ 32) }
    requires third { AreOf (λ kind. L.name_of (8 * 2 + kind)) L.all third }
    requires fourth { AreOf (λ kind. L.name_of (8 * 3 + kind)) L.all fourth }
    ensures ended { IfOk result (λ output. U.may_end doing.task output) }
{
    let Later {
        alloc,
        mut builders,
        clock,
        generator,
        keeper,
    } = later;
    let Some(builder) = builders.pop() else {
        return run(&rt, alloc, first, doing);
    };
    let opened = open_one::<R, T, CoreKinds<L, 1>, K, V, P, O, D, S, C, G, I>(
        rt,
        alloc,
        second,
        Some(builder),
        clock,
        generator,
        &keeper,
    );
    let later = Later {
        alloc,
        builders,
        clock,
        generator,
        keeper,
    };
    with_two::<R, T, L, K, V, P, H, O, D, S, C, G, I, U, _, _, _, _, _, _>(
        rt, third, fourth, first, opened, later, doing,
    )
}
