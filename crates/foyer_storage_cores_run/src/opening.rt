//! The engine of one core, and what those of the others are opened with.
ghost use Rattle.std.specs.Prelude.{◌≡◌, ◌^◌};
ghost use Rattle.foyer_core_tally.specs.Ledgers.{AreOf};

use foyer_core_tally::book::{Blanks, Kinds};
use foyer_device_page::error::{Error, Result};
use foyer_device_partition::io::device::Device;
use foyer_format_record::serde::{Code, Properties};
use foyer_io_engine::io::engine::IoEngineConfig;
use foyer_io_gate::gate::Gate;
use foyer_policy_filter::StorageFilterCondition;
use foyer_policy_keeper::keeper::Keeper;
use foyer_storage_build::builder::StoreBuilder;
use foyer_storage_build::config::{BlockEngineConfig, BuiltEngine, PickerSource};
use foyer_storage_build::running::RunningEngine;
use foyer_storage_build::session::StoreSession;
use foyer_storage_build::threads::workers::{Clock, Workers};
use std::alloc::Global;
use std::rt::Files;
use std::sync::{Arc, Wait};
use std::thread::Threads;

/// What the cores that aren't opened yet are opened with. The last builder is that of the next one.
#[derive(Drop)]
pub(crate) struct Later<K: Eq + Drop, V: Drop, P: Drop, B: Drop, T: Clock> {
    pub(crate) alloc: Global,
    pub(crate) builders: Vec<B>,
    pub(crate) clock: T,
    pub(crate) generator: u64,
    pub(crate) keeper: Arc<Keeper<K, V, P, Global>, Global>,
}

/// The engine of a builder. `Config` if there is none.
pub(crate) fn open_one<R, T, L, K, V, P, O, D, S, C, G, I>(
    rt: R,
    alloc: Global,
    blanks: Blanks,
    builder: Option<StoreBuilder<O, BlockEngineConfig<D, S, C, G>, I>>,
    clock: T,
    generator: u64,
    keeper: &Arc<Keeper<K, V, P, Global>, Global>,
) -> Result<
    RunningEngine<
        BuiltEngine<L, K, V, P, S::Picker, C, I::Engine, D::Partition, G>,
        StoreSession<L>,
        Workers<L>,
    >,
>
where
    R: Threads + Wait + Files + Copy + Send + Sync + 'static,
    T: Clock + Copy + Send + 'static,
    L: Kinds + Send + Sync + 'static,
    K: Code<Global> + Eq + Drop + Send + Sync + 'static,
    V: Code<Global> + Drop + Send + Sync + 'static,
    P: Properties + Drop + Send + Sync + 'static,
    O: Drop,
    D: Device,
    D::Partition: Drop + Send + Sync + 'static,
    S: PickerSource,
    S::Picker: Send + 'static,
    C: StorageFilterCondition + Send + Sync + 'static,
    G: Gate + Send + Sync + 'static,
    I: IoEngineConfig<R> + Drop,
    I::Engine: Send + 'static,
    requires { AreOf L.name_of L.all blanks × (L.all ≡ 2 ^ 32) }
{
    match builder {
        Some(builder) => builder.open_engine::<R, T, L, K, V, P>(
            rt, alloc, blanks, clock, generator, keeper,
        ),
        None => Err(Error::Config),
    }
}
