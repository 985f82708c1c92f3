//! What the core answers.
use crate::step::{Step, Ticket};
use foyer_block_index::manager::BlockId;
use foyer_block_index::tombstone::Tombstone;
pub use foyer_core_flusher::flusher::{Write, WriteBytes};
use foyer_device_page::error::ErrorKind;
use foyer_format_record::block::serde::Sequence;
use foyer_format_record::serde::Age;
use foyer_policy_piece::keeper::PieceRef;
use std::alloc::Allocator;

/// The answer to a step.
#[derive(Drop)]
pub enum Reply<K, V, P, A: Allocator> {
    /// The step is out of turn: nothing changed.
    NotNow(Step<K, V, P, A>),
    /// The step is refused: nothing changed. The kind is `Closed`, `SequenceEnd` or `Memory`; of a `LoadEnd` it may also be `Io`, `Parse`
    /// or `Unsupported`.
    Refused(ErrorKind, Step<K, V, P, A>),
    /// The piece isn't taken: it is young.
    Ignored(PieceRef<K, V, P, A>),
    /// The piece is queued under this sequence.
    Queued(Sequence),
    /// The piece isn't taken, since too much is queued. Its hash is deleted under this sequence.
    Dropped(PieceRef<K, V, P, A>, Sequence),
    /// The delete is accepted under this sequence.
    Deleted(Sequence),
    /// A wait is queued, the log's outcome is noted, a clean is noted, or the core is closed.
    Done,
    /// Whether the index has an address for the hash (a mark doesn't count), or whether no reclaim runs.
    Answer(bool),
    /// There is no such entry: the index has no address for the hash, the address is of an earlier filling, or the bytes read aren't the
    /// record.
    Miss,
    /// The index has an address for the hash, but the caller said that the device is throttled.
    Throttled,
    /// Asks the caller to read what the ticket says, and to report the result by `LoadEnd`.
    Read(Ticket),
    /// The entry. Its age is `Old` if its block is on probation, else `Young`.
    Entry {
        key: K,
        value: V,
        age: Age,
    },
    /// Nothing is queued at this flusher.
    Empty,
    /// The front of the queue was taken. A piece that doesn't fit, or whose code fails, is returned, and its hash is deleted under its
    /// sequence.
    Received(Option<PieceRef<K, V, P, A>>),
    /// A batch of this many blocks began, with these marks, in order.
    Began {
        blocks: usize,
        marks: Vec<Tombstone, A>,
    },
    /// Asks the caller to do these writes of the block in order, and to report each by `FlushWrote`, up to the first that fails.
    Write {
        block: BlockId,
        writes: Vec<Write<A>, A>,
    },
    /// No block can be handed out: none is clean, or a destroy is cleaning. The flusher waits for one.
    NoBlock,
    /// The write is noted, and the block has another.
    Next,
    /// The block is written, and its records entered the index: each piece's record unless the index had something newer, each reinserted
    /// record if the index still had its old address. The number counts all pieces' records and these reinserted ones.
    Committed(usize),
    /// The write failed, or the index got no memory for the block's records. Nothing of this or a later block of the batch is indexed.
    Failed,
    /// The batch ended: its pieces in order, and the waits that it answers.
    Ended {
        pieces: Vec<PieceRef<K, V, P, A>, A>,
        waits: Vec<u64, A>,
    },
    /// The reclaim of this block began. The caller is to read the block's index at offset 0, and to report it by `ReclaimRead`. `answers`
    /// has the pickers' answers in their order, up to the first pick. `probation` has the blocks that these pickers put on probation.
    Picked {
        block: BlockId,
        answers: Vec<Option<BlockId>, A>,
        probation: Vec<BlockId, A>,
    },
    /// Asks the caller to read this part of a block that is reclaimed, and to report it by `ReclaimRead`. After an index, `verdicts` says
    /// for each of its entries whether it is admitted for reinsertion.
    Scan {
        block: BlockId,
        offset: usize,
        len: usize,
        verdicts: Option<Vec<bool, A>>,
    },
    /// The listing of a reclaimed block has ended. The verdicts are `None` if a record was read last, if the read failed, or if the bytes
    /// are no valid index.
    Listed {
        verdicts: Option<Vec<bool, A>>,
    },
    /// Asks the caller to clean this block, and to report the result by `ReclaimCleaned`.
    Clean(BlockId),
    /// A destroy began under this sequence.
    Destroying(Sequence),
    /// The index is clear. The caller is to clean every block, and to report each result by `DestroyCleaned`.
    Cleared,
    /// The clean of the last block was reported. If a clean failed, this is the kind of the first fault: `Io` or `Memory`.
    Destroyed(Option<ErrorKind>),
}
