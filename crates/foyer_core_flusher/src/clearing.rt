//! What a destroy leaves of flushers.
ghost use Rattle.std.specs.Prelude.{◌≡◌, map};
ghost use Rattle.foyer_core_flusher.specs.Cleared.{are_still, cleared};
ghost use Rattle.foyer_core_flusher.specs.Seen.{seen};

use crate::flusher::Flusher;
use std::alloc::Allocator;

/// Whether nothing is queued, received or in a batch at any of these flushers.
pub fn are_idle<K, V, P, A: Allocator>(flushers: &[Flusher<K, V, P, A>]) -> bool
    ensures { result ≡ are_still flushers.now }
{
    'each_flusher: for flusher in flushers {
        if !flusher.is_idle() {
            return false;
        }
    }
    true
}

/// Leaves each flusher without a block and with a fresh splitter, for a destroy. It takes no block from the manager.
pub fn clear_all<K, V, P, A: Allocator>(flushers: &mut [Flusher<K, V, P, A>])
    ensures { map seen flushers.new ≡ map cleared (map seen flushers.old) }
{
    'each_flusher: for flusher in flushers.iter_mut() {
        flusher.clear();
    }
}
