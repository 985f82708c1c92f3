//! The state of the core.
ghost use Rattle.std.specs.Prelude.{◌≡◌, ◌<◌, ◌≤◌, ◌^◌, length, vec_len};

use crate::block::reclaimer::Reclaims;
use crate::destroy::Destroy;
use crate::settings::Settings;
use foyer_block_index::indexer::Indexer;
use foyer_block_manager::block::manager::BlockManager;
use foyer_core_flusher::flusher::Flusher;
use std::alloc::Allocator;

/// The engine's state. `Core::apply` changes it.
pub struct Core<K, V, P, A: Allocator> {
    pub(crate) alloc: A,
    pub(crate) settings: Settings,
    pub(crate) index: Indexer<A>,
    /// The sequence that is drawn next.
    pub(crate) next: u64,
    /// How many steps were applied. A returned step doesn't count.
    pub(crate) steps: u64,
    pub(crate) closed: bool,
    /// The sizes of all queued pieces together, in bytes.
    pub(crate) queued: u128,
    pub(crate) flushers: Vec<Flusher<K, V, P, A>, A>,
    /// The blocks, and the flushers that wait for one.
    pub(crate) manager: BlockManager<A>,
    /// The reclaims that run, by their blocks.
    pub(crate) reclaims: Reclaims<A>,
    pub(crate) destroy: Destroy<A>,
    ghost some_flusher: { 0 < vec_len flushers },
    ghost all_flushers: { length manager.ready ≡ vec_len flushers },
    ghost small_blocks: { settings.block_size ≤ 2 ^ 32 },
}

// Written out, so that it is proved once.
impl<K: Drop, V: Drop, P: Drop, A: Allocator> Drop for Core<K, V, P, A> {
    fn drop(self) {
        let Core {
            alloc: _,
            settings: _,
            index: _,
            next: _,
            steps: _,
            closed: _,
            queued: _,
            flushers: _,
            manager: _,
            reclaims: _,
            destroy: _,
        } = self;
    }
}

impl<K, V, P, A: Allocator> Core<K, V, P, A> {
    /// Gives the settings that the core was opened with.
    pub fn settings(&self) -> Settings
        ensures { result ≡ self.now.settings }
    {
        self.settings
    }

    /// Gives the allocator from which its memory comes.
    pub fn allocator(&self) -> &A
        ensures { result.now ≡ self.now.alloc }
    {
        &self.alloc
    }
}
