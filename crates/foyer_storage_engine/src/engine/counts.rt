//! What an engine's threads did, counted without a lock.
use std::sync::atomic::{AtomicU64, Ordering};

/// What an engine's threads did since it was opened. No clause says what these numbers are. Each may lack what is being done at the
/// moment.
#[derive(Clone, Copy, Debug, Default, PartialEq, Eq)]
pub struct WorkCounts {
    /// Batches that flushers began.
    pub batches: u64,
    /// Blocks of which a write failed, or whose records the index got no memory for. The batch's records in such a block and in its later
    /// blocks aren't kept.
    pub failed_blocks: u64,
    /// Puts that were queued and then returned. They didn't fit into what was left of the flusher's buffer or into a block, or couldn't be
    /// encoded. Their keys are deleted.
    pub returned_puts: u64,
    /// Puts that were queued and then abandoned, since a write of their batch failed: their keys keep older values.
    pub abandoned_by_writes: u64,
    /// Puts that were queued and then abandoned, since the index got no memory for a block of their batch.
    pub abandoned_by_memory: u64,
    /// Reclaims that began.
    pub reclaims: u64,
    /// Records of reclaimed blocks that the reinsertion filter admitted.
    pub reinsertions: u64,
    /// Appends to the log of deletes that failed. A later opening may have forgotten the deletes of their batches.
    pub failed_appends: u64,
}

/// The counters of which a `WorkCounts` is a reading. Threads share them by reference.
pub struct WorkCounters {
    batches: AtomicU64,
    failed_blocks: AtomicU64,
    returned_puts: AtomicU64,
    abandoned_by_writes: AtomicU64,
    abandoned_by_memory: AtomicU64,
    reclaims: AtomicU64,
    reinsertions: AtomicU64,
    failed_appends: AtomicU64,
}

// Written out, so that it is proved once.
impl Drop for WorkCounters {
    fn drop(self) {
        let WorkCounters {
            batches: _,
            failed_blocks: _,
            returned_puts: _,
            abandoned_by_writes: _,
            abandoned_by_memory: _,
            reclaims: _,
            reinsertions: _,
            failed_appends: _,
        } = self;
    }
}

impl WorkCounters {
    /// Makes counters of 0.
    pub fn new() -> WorkCounters {
        WorkCounters {
            batches: AtomicU64::new(0),
            failed_blocks: AtomicU64::new(0),
            returned_puts: AtomicU64::new(0),
            abandoned_by_writes: AtomicU64::new(0),
            abandoned_by_memory: AtomicU64::new(0),
            reclaims: AtomicU64::new(0),
            reinsertions: AtomicU64::new(0),
            failed_appends: AtomicU64::new(0),
        }
    }

    /// A batch began.
    pub fn add_batch(&self) {
        let _ = self.batches.fetch_add(1, Ordering::Relaxed);
    }

    /// Counts a block of which a write failed, or whose records the index got no memory for.
    pub fn add_failed_block(&self) {
        let _ = self.failed_blocks.fetch_add(1, Ordering::Relaxed);
    }

    /// Counts a put that was queued and then returned.
    pub fn add_returned_put(&self) {
        let _ = self.returned_puts.fetch_add(1, Ordering::Relaxed);
    }

    /// Counts this many puts that were abandoned, since a write of their batch failed.
    pub fn add_abandoned_by_writes(&self, count: u64) {
        if count > 0 {
            let _ = self.abandoned_by_writes.fetch_add(count, Ordering::Relaxed);
        }
    }

    /// Counts this many puts that were abandoned, since the index got no memory for a block of their batch.
    pub fn add_abandoned_by_memory(&self, count: u64) {
        if count > 0 {
            let _ = self.abandoned_by_memory.fetch_add(count, Ordering::Relaxed);
        }
    }

    /// A reclaim began.
    pub fn add_reclaim(&self) {
        let _ = self.reclaims.fetch_add(1, Ordering::Relaxed);
    }

    /// Counts this many records that the reinsertion filter admitted.
    pub fn add_reinsertions(&self, count: u64) {
        if count > 0 {
            let _ = self.reinsertions.fetch_add(count, Ordering::Relaxed);
        }
    }

    /// Counts an append to the log of deletes that failed.
    pub fn add_failed_append(&self) {
        let _ = self.failed_appends.fetch_add(1, Ordering::Relaxed);
    }

    /// Gives the numbers. They are read one after another, so together they may be of no one moment.
    pub fn shown(&self) -> WorkCounts {
        WorkCounts {
            batches: self.batches.load(Ordering::Relaxed),
            failed_blocks: self.failed_blocks.load(Ordering::Relaxed),
            returned_puts: self.returned_puts.load(Ordering::Relaxed),
            abandoned_by_writes: self.abandoned_by_writes.load(Ordering::Relaxed),
            abandoned_by_memory: self.abandoned_by_memory.load(Ordering::Relaxed),
            reclaims: self.reclaims.load(Ordering::Relaxed),
            reinsertions: self.reinsertions.load(Ordering::Relaxed),
            failed_appends: self.failed_appends.load(Ordering::Relaxed),
        }
    }
}
