//! The workers of an engine over the blocks of a device, and its log of deletes.
use crate::config::DeviceBlocks;
use foyer_block_manager::block::eviction::EvictionPicker;
use foyer_block_tombstone::block::tombstone::TombstoneLog;
use foyer_core_tally::book::Kinds;
use foyer_device_partition::io::device::Partition;
use foyer_format_record::serde::{Code, Properties};
use foyer_io_engine::io::engine::IoEngine;
use foyer_io_gate::gate::Gate;
use foyer_io_monitor::MonitoredIoEngine;
use foyer_policy_filter::StorageFilterCondition;
use foyer_storage_store::engine::core_shared::notes::NoNotes;
use foyer_storage_workers::hand::Hand;
use foyer_storage_workers::workers::{Clock, FlusherWorker, ReclaimerWorker, Worker};
use std::alloc::Global;
use std::sync::{Arc, Wait};

/// The log of deletes of a device, if there is one. Its reads and writes are recorded too.
pub type DeviceLog<N, Q> = Option<TombstoneLog<MonitoredIoEngine<N, Global>, Q, Global>>;

type WorkingFlusher<L, K, V, P, E, C, N, Q, G> = FlusherWorker<
    L,
    K,
    V,
    P,
    E,
    C,
    DeviceBlocks<N, Q>,
    Arc<G, Global>,
    NoNotes,
    DeviceBlocks<N, Q>,
    DeviceLog<N, Q>,
>;

type WorkingReclaimer<L, K, V, P, E, C, N, Q, G, T> = ReclaimerWorker<
    L,
    K,
    V,
    P,
    E,
    C,
    DeviceBlocks<N, Q>,
    Arc<G, Global>,
    NoNotes,
    DeviceBlocks<N, Q>,
    T,
>;

/// A flusher's worker over a device's blocks. It is a type of its own, so that proofs about those who pass it on needn't look inside.
pub struct BlockFlusher<L, K, V, P, E, C, N, Q, G>
where
    L: Kinds,
    K: Code<Global> + Eq,
    V: Code<Global>,
    P: Properties + Drop,
    E: EvictionPicker,
    C: StorageFilterCondition,
    N: IoEngine + Drop,
    Q: Partition + Copy + Drop,
    G: Gate,
{
    pub(super) worker: WorkingFlusher<L, K, V, P, E, C, N, Q, G>,
}

// Written out, so that it is proved once.
impl<L, K, V, P, E, C, N, Q, G> Drop for BlockFlusher<L, K, V, P, E, C, N, Q, G>
where
    L: Kinds,
    K: Code<Global> + Eq + Drop,
    V: Code<Global> + Drop,
    P: Properties + Drop,
    E: EvictionPicker,
    C: StorageFilterCondition,
    N: IoEngine + Drop,
    Q: Partition + Copy,
    G: Gate,
{
    fn drop(self) {
        let BlockFlusher { worker: _ } = self;
    }
}

impl<L, K, V, P, E, C, N, Q, G> Worker<Hand<L>> for BlockFlusher<L, K, V, P, E, C, N, Q, G>
where
    L: Kinds,
    K: Code<Global> + Eq + Drop,
    V: Code<Global> + Drop,
    P: Properties + Drop,
    E: EvictionPicker,
    C: StorageFilterCondition,
    N: IoEngine + Drop,
    Q: Partition + Copy + Drop,
    G: Gate,
{
    fn work(self, rt: &impl Wait, hand: Hand<L>) -> Hand<L> {
        let BlockFlusher { worker } = self;
        worker.work(rt, hand)
    }
}

/// A reclaimer's worker over a device's blocks, a type of its own for the same reason as `BlockFlusher`.
pub struct BlockReclaimer<L, K, V, P, E, C, N, Q, G, T>
where
    L: Kinds,
    K: Code<Global>,
    V: Code<Global>,
    P: Properties + Drop,
    E: EvictionPicker,
    C: StorageFilterCondition,
    N: IoEngine + Drop,
    Q: Partition + Copy,
    G: Gate,
    T: Clock,
{
    pub(super) worker: WorkingReclaimer<L, K, V, P, E, C, N, Q, G, T>,
}

// Written out, so that it is proved once.
impl<L, K, V, P, E, C, N, Q, G, T> Drop for BlockReclaimer<L, K, V, P, E, C, N, Q, G, T>
where
    L: Kinds,
    K: Code<Global> + Drop,
    V: Code<Global> + Drop,
    P: Properties + Drop,
    E: EvictionPicker,
    C: StorageFilterCondition,
    N: IoEngine + Drop,
    Q: Partition + Copy,
    G: Gate,
    T: Clock,
{
    fn drop(self) {
        let BlockReclaimer { worker: _ } = self;
    }
}

impl<L, K, V, P, E, C, N, Q, G, T> Worker<Hand<L>> for BlockReclaimer<L, K, V, P, E, C, N, Q, G, T>
where
    L: Kinds,
    K: Code<Global> + Drop,
    V: Code<Global> + Drop,
    P: Properties + Drop,
    E: EvictionPicker,
    C: StorageFilterCondition,
    N: IoEngine + Drop,
    Q: Partition + Copy,
    G: Gate,
    T: Clock,
{
    fn work(self, rt: &impl Wait, hand: Hand<L>) -> Hand<L> {
        let BlockReclaimer { worker } = self;
        worker.work(rt, hand)
    }
}
