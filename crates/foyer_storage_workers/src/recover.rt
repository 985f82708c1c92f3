//! The workers of a recovery: each has a thread and a disk of its own, and lists some of the blocks.
ghost use Rattle.foyer_block_recover.specs.Sources.{listing_in};
ghost use Rattle.std.specs.Prelude.{◌≡◌, ◌<◌, ◌≤◌, ℕ, IsSome, slice_get, vec_len};

use foyer_block_recover::block::listing::{BlockListing, Listings};
use foyer_io_disk::disk::Disk;
use foyer_storage_engine::core_steps::open::{RecoverMode, runner_of};
use foyer_storage_engine::core_steps::settings::Settings;
use std::alloc::Global;
use std::sync::Wait;
use std::thread;
use std::thread::{JoinHandle, Threads};

/// What a thread of a recovery does; `T` is what it gives back.
pub trait Recoverer<T: Drop>: Drop {
    /// Reads its blocks, and gives what they list.
    fn list(self) -> T;
}

/// What an engine that recovers nothing has in place of recoverers.
#[derive(Clone, Copy, Debug, PartialEq, Eq)]
pub struct NoRecoverer;

impl Recoverer<NoRecoverer> for NoRecoverer {
    fn list(self) -> NoRecoverer {
        self
    }
}

/// A worker of a recovery, with a disk of its own. It lists the blocks whose id, modulo the count of workers, is the worker's number.
#[derive(Drop)]
pub struct DiskRecoverer<D: Disk + Drop> {
    /// What the core will be opened with.
    pub settings: Settings,
    /// What an opening does with what it finds.
    pub mode: RecoverMode,
    /// The blocks.
    pub disk: D,
    /// Its number, counted from 0.
    pub worker: u32,
    /// How many workers there are.
    pub workers: u32,
}

impl<D: Disk + Drop> DiskRecoverer<D> {
    /// Gives what its blocks list. If memory is refused, it gives only what was listed before. Whoever opens the core reads the other blocks.
    pub fn list(self, alloc: Global) -> Vec<BlockListing<Global, D>> {
        let DiskRecoverer {
            settings,
            mode,
            mut disk,
            worker,
            workers,
        } = self;
        let mut listings = Vec::new(alloc);
        let runner = match runner_of(&settings, mode) {
            Ok(runner) if workers > 0 => runner,
            _ => return listings,
        };
        let _ = runner.list(&alloc, &mut disk, worker, workers, &mut listings);
        listings
    }
}

/// Adds what a worker listed. If a block has a listing already, that one stays.
pub fn add_all<D: Disk>(listings: &mut Listings<Global, D>, more: Vec<BlockListing<Global, D>>)
    ensures stay { (b : ℕ) → IsSome (listing_in (slice_get listings.old.slots.items b))
        → slice_get listings.new.slots.items b ≡ slice_get listings.old.slots.items b }
    ensures room { vec_len listings.new.slots ≡ vec_len listings.old.slots }
{
    'each_listing: for listing in more {
        let _ = listings.add(listing);
    }
}

/// Starts a thread for each recoverer, joins the threads, and gives what they listed, in the recoverers' order. A recoverer whose thread
/// can't be started gives nothing. Whoever opens the core reads that recoverer's blocks.
pub fn list_blocks<R, W, T>(rt: R, alloc: Global, recoverers: Vec<W>) -> Vec<T>
where
    R: Threads + Wait + Copy + Send + 'static,
    W: Recoverer<T> + Send + 'static,
    T: Drop + Send + 'static,
    ensures few { vec_len result ≤ vec_len recoverers }
{
    let mut listed = Vec::new(alloc);
    let mut running: Vec<JoinHandle<T>> = Vec::new(alloc);
    if running.reserve(recoverers.len()).is_err() {
        return listed;
    }
    'each_recoverer: for recoverer in recoverers {
        let job = move || recoverer.list();
        if let Ok(thread) = thread::spawn(&rt, job) {
            let _ = running.push(thread);
        }
    }
    'each_thread: for thread in running {
        let _ = listed.push(thread.join(&rt));
    }
    listed
}
