//! A store over a history.
ghost use Rattle.std.specs.Prelude.{◌≡◌, IfErr, IfOk};
ghost use Rattle.std.specs.Arc.{arc_value};
ghost use Rattle.foyer_device_page.specs.declared.error.Error.TheVariants.{Memory};

use crate::engine::HistoryEngine;
use foyer_block_manager::block::eviction::EvictionPicker;
use foyer_core_tally::book::Kinds;
use foyer_core_threads::io_told::disk::HistoryName;
use foyer_device_page::error::Result;
use foyer_device_statistics::Statistics;
use foyer_device_throttle::Throttle;
use foyer_format_record::serde::{Code, Properties};
use foyer_io_disk::disk::Disk;
use foyer_policy_filter::StorageFilterCondition;
use foyer_storage_store::store::Store;
use std::alloc::Global;
use std::sync::Arc;

/// A store whose loads are proved newest. Threads share it by reference, each with a session of its own.
pub type HistoryStore<J, L, K, V, P, E, C, D, H> = Store<
    HistoryEngine<J, L, K, V, P, E, C, D>,
    K,
    V,
    P,
    H,
>;

impl<J, L, K, V, P, E, C, D> HistoryEngine<J, L, K, V, P, E, C, D>
where
    J: HistoryName,
    L: Kinds,
    K: Code<Global> + Eq + Drop,
    V: Code<Global> + Drop,
    P: Properties + Drop,
    E: EvictionPicker,
    C: StorageFilterCondition,
    D: Disk + Drop,
{
    /// Makes a store over this engine. `now` is the present moment in nanoseconds. Split the callers' sessions before, since the engine
    /// goes into the store. Errors: `Memory` alone.
    pub fn into_store<H: Drop>(
        self,
        alloc: Global,
        name: &'static str,
        hasher: H,
        now: u64,
    ) -> Result<HistoryStore<J, L, K, V, P, E, C, D, H>>
        ensures given { IfOk result (λ store. ((arc_value store.shared).engine ≡ self) × ((arc_value store.shared).hasher ≡ hasher)) }
        ensures refused { IfErr result (λ e. e ≡ Memory) }
    {
        let (statistics, _) = Statistics::new(alloc, Throttle::new(), now)?;
        let statistics = Arc::new(alloc, statistics)?;
        let keeper = Arc::try_clone(&self.keeper)?;
        Store::new(
            alloc,
            name,
            hasher,
            true,
            keeper,
            self,
            statistics,
            Throttle::new(),
        )
    }
}
