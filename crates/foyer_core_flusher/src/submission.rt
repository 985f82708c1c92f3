//! What waits in a flusher's queue.
ghost use Rattle.std.specs.Prelude.{◌≡◌};

use foyer_block_index::indexer::EntryAddress;
use foyer_block_index::tombstone::Tombstone;
pub use foyer_core_blocks::manager::Invalidated;
use foyer_format_record::block::serde::Sequence;
use foyer_policy_piece::keeper::PieceRef;
use std::alloc::Allocator;
use std::fmt;
use std::fmt::{Debug, Formatter};

/// A mark, and what it made invalid.
#[derive(Clone, Copy, Debug)]
pub struct TombstoneInfo {
    /// The mark, as the log has it.
    pub tombstone: Tombstone,
    /// The bytes of a block that it made invalid, if it removed an address.
    pub stats: Option<Invalidated>,
}

/// A record that a reclaim read back, to be written again: the bytes of its address, `address.len` of them. It keeps the sequence
/// of its address.
#[derive(Drop)]
pub struct Reinsertion<A: Allocator> {
    /// The hash of its key.
    pub hash: u64,
    /// The address that it was read from.
    pub address: EntryAddress,
    /// Its bytes.
    pub slice: Vec<u8, A>,
}

impl<A: Allocator> Reinsertion<A> {
    /// Its length in bytes, that of its address.
    pub fn len(&self) -> u32
        ensures { result ≡ self.now.address.len }
    {
        self.address.len
    }

    /// Its sequence, that of its address.
    pub fn sequence(&self) -> Sequence
        ensures { result ≡ self.now.address.sequence }
    {
        self.address.sequence
    }
}

/// Prints the type's name, and the address that the record was read from.
impl<A: Allocator> Debug for Reinsertion<A> {
    fn fmt<W: fmt::Write>(&self, f: &mut Formatter<W>) -> fmt::Result {
        f.debug_struct("Reinsertion")
            .field("hash", &self.hash)
            .field("address", &self.address)
            .finish_non_exhaustive()
    }
}

/// What waits in a flusher's queue.
#[derive(Drop)]
pub enum Submission<K, V, P, A: Allocator> {
    /// A piece to be written, with its estimated size in bytes.
    CacheEntry {
        piece: PieceRef<K, V, P, A>,
        estimated_size: usize,
        sequence: Sequence,
    },
    /// A mark to be logged, and the bytes of a block that it made invalid.
    Tombstone {
        tombstone: Tombstone,
        stats: Option<Invalidated>,
    },
    /// A record to be written again.
    Reinsertion {
        reinsertion: Reinsertion<A>,
    },
    /// A wait to be answered.
    Wait {
        id: u64,
    },
}

/// The variant's name.
impl<K, V, P, A: Allocator> Debug for Submission<K, V, P, A> {
    fn fmt<W: fmt::Write>(&self, f: &mut Formatter<W>) -> fmt::Result {
        match self {
            Submission::CacheEntry {
                piece: _,
                estimated_size: _,
                sequence: _,
            } => f.write_str("CacheEntry"),
            Submission::Tombstone {
                tombstone: _,
                stats: _,
            } => f.write_str("Tombstone"),
            Submission::Reinsertion { reinsertion: _ } => f.write_str("Reinsertion"),
            Submission::Wait { id: _ } => f.write_str("Wait"),
        }
    }
}
