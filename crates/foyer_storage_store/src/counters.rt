//! What a store did, as any caller may ask for it: counted without a lock, and no clause says what the numbers are.
ghost use Rattle.std.specs.Prelude.{◌≡◌, ◌≤◌, ◌-◌, ◌↔◌, IsOkUnless, IsTrue};
ghost use Rattle.foyer_device_page.specs.declared.error.Error.TheVariants as error;

use foyer_device_page::error::Result;
use foyer_device_statistics::IoState;
use foyer_storage_engine::engine::Enqueued;
use foyer_storage_engine::engine::counts::WorkCounts;
use foyer_storage_engine::load::Load;
use std::alloc::{Allocator, Global};
use std::sync::atomic::{AtomicU64, Ordering};

/// What a store did since it was built, by all its callers and threads. The numbers are read one after another. Each is right if nothing
/// is under way.
#[derive(Clone, Copy, Debug, Default, PartialEq, Eq)]
pub struct StoreCounters {
    /// The bytes of all writes to its device, failed ones too, with those of indices, cleans and the log of deletes.
    pub disk_write_bytes: u64,
    /// The bytes of all reads of its device, failed ones too, with those of the opening.
    pub disk_read_bytes: u64,
    /// The calls that wrote to its device, as the throttle's counter counts them.
    pub disk_write_ios: u64,
    /// The calls that read from its device, counted in the same way.
    pub disk_read_ios: u64,
    /// Puts that were queued.
    pub queued_puts: u64,
    /// Puts of young pieces, which aren't taken, and forced ones of a store that keeps nothing.
    pub ignored_puts: u64,
    /// Puts that found too much queued: their keys are deleted.
    pub dropped_puts: u64,
    /// Puts that the admission filter or a limit of writes turned away: their keys are deleted.
    pub rejected_puts: u64,
    /// Puts that were queued, and then had no room in a flusher's buffer or a block, or couldn't be encoded: their keys are deleted.
    pub returned_puts: u64,
    /// Puts that were queued and then abandoned, since a write of their batch failed: their keys keep older values.
    pub abandoned_by_writes: u64,
    /// Puts that were queued and then abandoned, since the index got no memory for a block of their batch.
    pub abandoned_by_memory: u64,
    /// Deletes that were accepted, except those made in place of a put.
    pub deletes: u64,
    /// Loads that the keeper answered, with a piece.
    pub memory_hits: u64,
    /// Loads that the device answered, with an entry of the key.
    pub device_hits: u64,
    /// Loads that found nothing, or another key's entry.
    pub misses: u64,
    /// Loads that a limit of reads turned away. Loads that end in an error are in no count.
    pub throttled_loads: u64,
    /// Batches that flushers began.
    pub batches: u64,
    /// Blocks of which a write failed, or whose records the index got no memory for. The puts of their batch that weren't written yet are
    /// gone: `abandoned_by_writes` and `abandoned_by_memory` count them.
    pub failed_blocks: u64,
    /// Reclaims that began.
    pub reclaims: u64,
    /// Records of reclaimed blocks that the reinsertion filter admitted.
    pub reinsertions: u64,
    /// Appends to the log of deletes that failed. A later opening may have forgotten the deletes of their batches.
    pub failed_appends: u64,
    /// The system's number of the last write that failed, or 0 if there was none or the system gave no number.
    pub last_write_error: i32,
    /// The same of the last read that failed.
    pub last_read_error: i32,
}

/// Puts that were queued and then abandoned since a store was built, by the cause. Their keys keep older values, or are deleted if there was
/// no room. If a caller keeps one of these and compares it with a later one, it knows whether a put was lost in between.
#[derive(Clone, Copy, Debug, Default, PartialEq, Eq)]
pub struct AbandonedPuts {
    /// A write of their batch failed. If the records of a reinsertion filter were in the batch, there may have been more of them, but at
    /// least one is counted.
    pub by_writes: u64,
    /// The index got no memory for a block of their batch. The same holds for a reinsertion filter.
    pub by_memory: u64,
    /// They had no room in a flusher's buffer or a block, or couldn't be encoded. Their keys are deleted.
    pub by_room: u64,
}

impl AbandonedPuts {
    /// How many were abandoned after an earlier moment, of which this is what the store said then. The numbers wrap at 2^64.
    pub fn since(&self, earlier: &AbandonedPuts) -> AbandonedPuts
        ensures writes { earlier.now.by_writes ≤ self.now.by_writes → result.by_writes ≡ self.now.by_writes - earlier.now.by_writes }
        ensures memory { earlier.now.by_memory ≤ self.now.by_memory → result.by_memory ≡ self.now.by_memory - earlier.now.by_memory }
        ensures room { earlier.now.by_room ≤ self.now.by_room → result.by_room ≡ self.now.by_room - earlier.now.by_room }
    {
        AbandonedPuts {
            by_writes: self.by_writes.wrapping_sub(earlier.by_writes),
            by_memory: self.by_memory.wrapping_sub(earlier.by_memory),
            by_room: self.by_room.wrapping_sub(earlier.by_room),
        }
    }

    /// Whether there are none.
    pub fn is_none(&self) -> bool
        ensures { IsTrue result ↔ ((self.now.by_writes ≡ 0) × (self.now.by_memory ≡ 0) × (self.now.by_room ≡ 0)) }
    {
        self.by_writes == 0 && self.by_memory == 0 && self.by_room == 0
    }
}

// Those of an engine's work.
pub(crate) fn abandoned_of(work: &WorkCounts) -> AbandonedPuts
    ensures { result ≡ record { by_writes = work.now.abandoned_by_writes; by_memory = work.now.abandoned_by_memory; by_room = work.now.returned_puts } }
{
    AbandonedPuts {
        by_writes: work.abandoned_by_writes,
        by_memory: work.abandoned_by_memory,
        by_room: work.returned_puts,
    }
}

// The counts of the calls of some hashes: some more than a line of the processor's cache.
struct Stripe {
    queued: AtomicU64,
    ignored: AtomicU64,
    dropped: AtomicU64,
    rejected: AtomicU64,
    deletes: AtomicU64,
    memory_hits: AtomicU64,
    device_hits: AtomicU64,
    misses: AtomicU64,
    throttled: AtomicU64,
}

impl Drop for Stripe {
    fn drop(self) {
        let Stripe {
            queued: _,
            ignored: _,
            dropped: _,
            rejected: _,
            deletes: _,
            memory_hits: _,
            device_hits: _,
            misses: _,
            throttled: _,
        } = self;
    }
}

impl Stripe {
    fn new() -> Stripe {
        Stripe {
            queued: AtomicU64::new(0),
            ignored: AtomicU64::new(0),
            dropped: AtomicU64::new(0),
            rejected: AtomicU64::new(0),
            deletes: AtomicU64::new(0),
            memory_hits: AtomicU64::new(0),
            device_hits: AtomicU64::new(0),
            misses: AtomicU64::new(0),
            throttled: AtomicU64::new(0),
        }
    }

    // The sums with this stripe's.
    fn added(&self, sums: StoreCounters) -> StoreCounters {
        StoreCounters {
            queued_puts: sums.queued_puts.wrapping_add(shown(&self.queued)),
            ignored_puts: sums.ignored_puts.wrapping_add(shown(&self.ignored)),
            dropped_puts: sums.dropped_puts.wrapping_add(shown(&self.dropped)),
            rejected_puts: sums.rejected_puts.wrapping_add(shown(&self.rejected)),
            deletes: sums.deletes.wrapping_add(shown(&self.deletes)),
            memory_hits: sums.memory_hits.wrapping_add(shown(&self.memory_hits)),
            device_hits: sums.device_hits.wrapping_add(shown(&self.device_hits)),
            misses: sums.misses.wrapping_add(shown(&self.misses)),
            throttled_loads: sums.throttled_loads.wrapping_add(shown(&self.throttled)),
            ..sums
        }
    }
}

fn shown(count: &AtomicU64) -> u64 {
    count.load(Ordering::Relaxed)
}

fn add(count: &AtomicU64) {
    let _ = count.fetch_add(1, Ordering::Relaxed);
}

// Into how many stripes calls are divided by their hash, so that threads seldom count in the same words.
const STRIPES: usize = 16;

// The counts of a store's calls.
pub(crate) struct CallCounters {
    stripes: Vec<Stripe>,
}

impl Drop for CallCounters {
    fn drop(self) {
        let CallCounters { stripes: _ } = self;
    }
}

impl CallCounters {
    // Makes counts of 0. Errors: `Memory`.
    pub(crate) fn new(alloc: Global) -> Result<CallCounters>
        ensures { IsOkUnless result error.Memory }
    {
        let mut stripes = Vec::with_capacity(alloc, STRIPES)?;
        for _ in 0..STRIPES {
            stripes.push(Stripe::new())?;
        }
        Ok(CallCounters { stripes })
    }

    fn stripe(&self, hash: u64) -> Option<&Stripe> {
        self.stripes.get((hash % STRIPES as u64) as usize)
    }

    // Counts a put that the engine answered.
    pub(crate) fn add_put(&self, hash: u64, enqueued: Enqueued) {
        if let Some(stripe) = self.stripe(hash) {
            match enqueued {
                Enqueued::Queued => add(&stripe.queued),
                Enqueued::Ignored => add(&stripe.ignored),
                Enqueued::Deleted => add(&stripe.dropped),
            }
        }
    }

    // Counts a put that wasn't admitted.
    pub(crate) fn add_rejected(&self, hash: u64) {
        if let Some(stripe) = self.stripe(hash) {
            add(&stripe.rejected);
        }
    }

    pub(crate) fn add_delete(&self, hash: u64) {
        if let Some(stripe) = self.stripe(hash) {
            add(&stripe.deletes);
        }
    }

    pub(crate) fn add_load<K, V, P, A: Allocator>(&self, hash: u64, answer: &Load<K, V, P, A>) {
        if let Some(stripe) = self.stripe(hash) {
            match answer {
                Load::Piece { .. } => add(&stripe.memory_hits),
                Load::Entry { .. } => add(&stripe.device_hits),
                Load::Miss => add(&stripe.misses),
                Load::Throttled => add(&stripe.throttled),
            }
        }
    }

    // All of them, beside what the device and the engine's threads did.
    pub(crate) fn with(&self, io: &IoState, work: WorkCounts) -> StoreCounters {
        let mut sums = StoreCounters {
            disk_write_bytes: io.disk_write_bytes,
            disk_read_bytes: io.disk_read_bytes,
            disk_write_ios: io.disk_write_ios,
            disk_read_ios: io.disk_read_ios,
            returned_puts: work.returned_puts,
            abandoned_by_writes: work.abandoned_by_writes,
            abandoned_by_memory: work.abandoned_by_memory,
            batches: work.batches,
            failed_blocks: work.failed_blocks,
            reclaims: work.reclaims,
            reinsertions: work.reinsertions,
            failed_appends: work.failed_appends,
            last_write_error: io.last_write_error,
            last_read_error: io.last_read_error,
            ..StoreCounters::default()
        };
        for stripe in self.stripes.iter() {
            sums = stripe.added(sums);
        }
        sums
    }
}
