//! How a put waits for room in the queue.
ghost use Rattle.std.specs.Prelude.{◌≡◌};

use super::BlockEngine;
use foyer_block_manager::block::eviction::EvictionPicker;
use foyer_core_shared::notes::Noting;
use foyer_core_tally::book::Kinds;
use foyer_format_record::serde::{Code, Properties};
use foyer_io_disk::disk::Disk;
use foyer_io_gate::gate::Gate;
use foyer_lock::lock_spinning;
use foyer_policy_filter::StorageFilterCondition;
use std::alloc::Allocator;
use std::sync::Wait;
use std::thread;

impl<L, K, V, P, A, E, C, D, G, N> BlockEngine<L, K, V, P, A, E, C, D, G, N>
where
    L: Kinds,
    K: Code<A> + Drop,
    V: Code<A> + Drop,
    P: Properties + Drop,
    A: Allocator + Clone,
    E: EvictionPicker,
    C: StorageFilterCondition,
    D: Disk + Drop,
    G: Gate,
    N: Noting,
{
    /// Sets how often at most a put that finds the queue full looks again, before it isn't taken and its key is deleted. Default: 0.
    pub fn with_enqueue_patience(self, looks: u32) -> BlockEngine<L, K, V, P, A, E, C, D, G, N>
        ensures { result ≡ record self { patience = looks } }
    {
        let mut engine = self;
        engine.patience = looks;
        engine
    }

    /// Whether a put would find room in the queue now. If it finds none, it isn't taken, and its key is deleted. It locks the core for a
    /// moment.
    pub fn has_room(&self, rt: &impl Wait) -> bool {
        !lock_spinning(self.shared.locked(), rt).core().is_full()
    }

    // Looks while the queue is full, `patience` times at most, and yields to other threads after each look. No lock is held between two
    // looks, so flushers can work. If they don't, the looks end nevertheless.
    pub(super) fn look_for_room(&self, rt: &impl Wait) {
        for _ in 0..self.patience {
            if self.has_room(rt) {
                return;
            }
            thread::yield_now();
        }
    }
}
