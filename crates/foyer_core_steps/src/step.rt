//! What may happen to the core.
ghost use Rattle.std.specs.Prelude.{◌≡◌};

use foyer_block_index::indexer::EntryAddress;
use foyer_block_index::manager::BlockId;
use foyer_device_page::error::Result;
use foyer_policy_piece::keeper::PieceRef;
use std::alloc::Allocator;

/// What a load reads: the `address.len` bytes of a record, at its address.
#[derive(Clone, Copy, Debug, PartialEq, Eq)]
pub struct Ticket {
    /// The hash that was looked up.
    pub hash: u64,
    /// Where the index had the record of the hash.
    pub address: EntryAddress,
}

impl Ticket {
    /// How many bytes are read: the record's, without its padding.
    pub fn read_len(&self) -> usize
        ensures { result ≡ self.now.address.len }
    {
        self.address.len as usize
    }
}

/// One event of the engine.
///
/// A step that reports an access has `Err` if the access failed. Which error it is matters only in a `DestroyCleaned`: `Memory` or another.
/// Flushers are counted from 0. `Core::apply` returns a step that is out of turn or refused.
#[derive(Drop)]
pub enum Step<K, V, P, A: Allocator> {
    /// Queues a piece; `size` is its estimated size in bytes.
    Enqueue {
        piece: PieceRef<K, V, P, A>,
        size: usize,
    },
    /// Accepts a delete.
    Delete {
        hash: u64,
    },
    /// Queues a wait. A later `Ended` answers it, once all that was queued before it at this flusher is written or given up.
    Wait {
        flusher: u32,
        id: u64,
    },
    /// Asks whether the index has an address for a hash. A mark doesn't count.
    MayContains {
        hash: u64,
    },
    /// Looks a hash up. The caller says whether the device is throttled.
    LoadBegin {
        hash: u64,
        throttled: bool,
    },
    /// Reports the read of a ticket.
    LoadEnd {
        ticket: Ticket,
        result: Result<Vec<u8, A>>,
    },
    /// Takes the front of a flusher's queue.
    Receive {
        flusher: u32,
    },
    /// Makes a batch of what was received.
    FlushBegin {
        flusher: u32,
    },
    /// Asks for the next block of the batch and its writes.
    FlushBlock {
        flusher: u32,
    },
    /// Reports the result of the next write that the reply to `FlushBlock` issued.
    FlushWrote {
        flusher: u32,
        result: Result<()>,
    },
    /// Reports whether the tombstone log took the batch's marks, once for each batch. Out of turn if there is no such log.
    LogWrote {
        flusher: u32,
        result: Result<()>,
    },
    /// Ends the batch, once each of its blocks is written or the batch has failed. If there is a tombstone log, `LogWrote` is needed first.
    FlushEnd {
        flusher: u32,
    },
    /// Begins to reclaim a block.
    ReclaimBegin,
    /// Reports what a reclaim read.
    ReclaimRead {
        block: BlockId,
        result: Result<Vec<u8, A>>,
    },
    /// Removes from the index what was listed of a reclaimed block, except what was queued for reinsertion.
    ReclaimForget {
        block: BlockId,
    },
    /// Reports the result of a reclaimed block's clean.
    ReclaimCleaned {
        block: BlockId,
        result: Result<()>,
    },
    /// Asks whether no reclaim runs.
    ReclaimIdle,
    /// Begins to destroy all entries.
    DestroyBegin,
    /// Clears the index, once no flusher has anything queued, received or in a batch, and no reclaim runs.
    DestroyClear,
    /// Reports the result of a block's clean to a destroy.
    DestroyCleaned {
        block: BlockId,
        result: Result<()>,
    },
    /// Closes the core: from now on it refuses `Enqueue`, `Delete` and `DestroyBegin`. A destroy that has begun may end.
    Close,
}
