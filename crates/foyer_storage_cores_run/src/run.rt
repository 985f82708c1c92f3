//! A store of one core, of two or of four.
ghost use Rattle.std.specs.Prelude.{◌≡◌, ◌≢◌, ◌⊎◌, ◌^◌, Err, IfOk, MatchBool, vec_len};
ghost use Rattle.foyer_device_page.specs.declared.error.Error.TheVariants.{Config};
ghost use Rattle.foyer_storage_build.specs.CoreLedgers.{AreOfCores};

use crate::chain::{Doing, with_one};
use crate::opening::{Later, open_one};
use crate::task::StoreTask;
use foyer_core_tally::book::Kinds;
use foyer_device_page::error::{Error, Result};
use foyer_device_partition::io::device::Device;
use foyer_format_record::serde::{Code, Properties};
use foyer_io_engine::io::engine::IoEngineConfig;
use foyer_io_gate::gate::Gate;
use foyer_policy_filter::StorageFilterCondition;
use foyer_policy_keeper::keeper::Keeper;
use foyer_storage_build::builder::StoreBuilder;
use foyer_storage_build::config::{BlockEngineConfig, PickerSource};
use foyer_storage_build::cores::kinds::{CoreBlanks, CoreKinds};
use foyer_storage_build::threads::workers::Clock;
use std::alloc::Global;
use std::rt::Files;
use std::sync::{Arc, Wait};
use std::thread::Threads;

// One more owner of the same keeper. Errors: `Memory`.
fn shared<K: Eq + Drop, V: Drop, P: Drop>(
    keeper: &Arc<Keeper<K, V, P, Global>, Global>,
) -> Result<Arc<Keeper<K, V, P, Global>, Global>> {
    Ok(Arc::try_clone(keeper)?)
}

// Whether a store can have this many cores.
fn is_core_count(cores: usize) -> bool
    ensures { MatchBool result ((cores ≡ 1) ⊎ ((cores ≡ 2) ⊎ (cores ≡ 4))) ((cores ≢ 1) × ((cores ≢ 2) × (cores ≢ 4))) }
{
    cores == 1 || cores == 2 || cores == 4
}

// With no core that runs: opens the first.
fn with_none<R, T, L, K, V, P, H, O, D, S, C, G, I, U>(
    rt: R,
    alloc: Global,
    blanks: CoreBlanks,
    name: &'static str,
    hasher: H,
    shards: usize,
    builders: Vec<StoreBuilder<O, BlockEngineConfig<D, S, C, G>, I>>,
    clock: T,
    generator: u64,
    task: U,
    jobs: Vec<U::Job>,
) -> Result<U::Output>
where
    R: Threads + Wait + Files + Copy + Send + Sync + 'static,
    T: Clock + Copy + Send + 'static,
    L: Kinds + Send + Sync + 'static,
    K: Code<Global> + Eq + Drop + Send + Sync + 'static,
    V: Code<Global> + Drop + Send + Sync + 'static,
    P: Properties + Drop + Send + Sync + 'static,
    H: Drop + Send + Sync,
    O: Drop,
    D: Device,
    D::Partition: Drop + Send + Sync + 'static,
    S: PickerSource,
    S::Picker: Send + 'static,
    C: StorageFilterCondition + Send + Sync + 'static,
    G: Gate + Send + Sync + 'static,
    I: IoEngineConfig<R> + Drop,
    I::Engine: Send + 'static,
    U: StoreTask<R, K, V, P, H> + Sync,
    U::Shared: Sync,
    U::Job: Send,
    U::Report: Send,
    U::Output: Send,
    requires blanks { AreOfCores L.name_of L.all blanks × (L.all ≡ 2 ^ 32) }
    requires shards { shards ≢ 0 }
    ensures ended { IfOk result (λ output. U.may_end task output) }
{
    let keeper = Arc::new(alloc, Keeper::new(alloc, shards)?)?;
    let doing = Doing {
        name,
        hasher,
        keeper: shared(&keeper)?,
        task,
        jobs,
    };
    let (first, second, third, fourth) = blanks.into_parts();
    let mut builders = builders;
    builders.reverse();
    let opened = open_one::<R, T, CoreKinds<L, 0>, K, V, P, O, D, S, C, G, I>(
        rt,
        alloc,
        first,
        builders.pop(),
        clock,
        generator,
        &keeper,
    )?;
    let later = Later {
        alloc,
        builders,
        clock,
        generator,
        keeper,
    };
    with_one::<R, T, L, K, V, P, H, O, D, S, C, G, I, U, _, _, _>(
        rt, second, third, fourth, opened, later, doing,
    )
}

/// Opens a store over as many cores as there are builders: one, two or four. The store has this name and hasher, and a keeper of `shards`
/// shards. It does a task with the store, by a thread for each job, and joins the store's own threads. Of each builder it takes only the
/// engine's and the I/O engines' configs, the compression and the recovery's mode. The ledgers must fit `L` and have 2^32 parts each
/// (`CoreBlanks::new`).
///
/// Errors: `Config` for another number of builders, or without a shard; those of `StoreBuilder::check` of any builder, before any device is
/// touched; those of `StoreBuilder::open_engine`; that of the task's `begin`;
/// `Memory`, also if there are as many jobs as the session has parts, or more. After an error the task's `end` wasn't called.
///
/// The caller's own thread does the last job. If no thread can be made for another job, that job is done once the later ones have ended.
/// So a job may wait for the last one, and for no other.
pub fn run_over_cores<R, T, L, K, V, P, H, O, D, S, C, G, I, U>(
    rt: R,
    alloc: Global,
    blanks: CoreBlanks,
    name: &'static str,
    hasher: H,
    shards: usize,
    builders: Vec<StoreBuilder<O, BlockEngineConfig<D, S, C, G>, I>>,
    clock: T,
    generator: u64,
    task: U,
    jobs: Vec<U::Job>,
) -> Result<U::Output>
where
    R: Threads + Wait + Files + Copy + Send + Sync + 'static,
    T: Clock + Copy + Send + 'static,
    L: Kinds + Send + Sync + 'static,
    K: Code<Global> + Eq + Drop + Send + Sync + 'static,
    V: Code<Global> + Drop + Send + Sync + 'static,
    P: Properties + Drop + Send + Sync + 'static,
    H: Drop + Send + Sync,
    O: Drop,
    D: Device,
    D::Partition: Drop + Send + Sync + 'static,
    S: PickerSource,
    S::Picker: Send + 'static,
    C: StorageFilterCondition + Send + Sync + 'static,
    G: Gate + Send + Sync + 'static,
    I: IoEngineConfig<R> + Drop,
    I::Engine: Send + 'static,
    U: StoreTask<R, K, V, P, H> + Sync,
    U::Shared: Sync,
    U::Job: Send,
    U::Report: Send,
    U::Output: Send,
    requires { AreOfCores L.name_of L.all blanks × (L.all ≡ 2 ^ 32) }
    ensures cores { vec_len builders ≢ 1 → vec_len builders ≢ 2 → vec_len builders ≢ 4 → result ≡ Err Config }
    ensures shardless { shards ≡ 0 → result ≡ Err Config }
    ensures ended { IfOk result (λ output. U.may_end task output) }
{
    if !is_core_count(builders.len()) {
        return Err(Error::Config);
    }
    if shards == 0 {
        return Err(Error::Config);
    }
    for builder in builders.iter() {
        builder.check()?;
    }
    with_none::<R, T, L, K, V, P, H, O, D, S, C, G, I, U>(
        rt, alloc, blanks, name, hasher, shards, builders, clock, generator, task, jobs,
    )
}
