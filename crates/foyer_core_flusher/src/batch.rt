//! A flusher's batch, its writes, and what a flusher answers about them.
ghost use Rattle.std.specs.Prelude.{◌≡◌, [], Option, None, Some, true, false, length, MatchOption};
ghost use Rattle.foyer_core_flusher.specs.Issuing.{written_bytes};
ghost use Rattle.foyer_core_flusher.specs.Offsets.{BlockFits, blocks_fit_once};
ghost use Rattle.foyer_format_layout.specs.Each.{Each};

use foyer_block_index::indexer::{EntryAddress, HashedEntryAddress};
use foyer_block_index::manager::BlockId;
use foyer_block_index::tombstone::Tombstone;
use foyer_core_blocks::manager::Invalidated;
use foyer_device_page::io::bytes::{IoSlice, IoSliceMut};
use foyer_format_buffer::Block;
use foyer_format_record::block::buffer::PAGE;
use foyer_policy_piece::keeper::PieceRef;
use std::alloc::Allocator;
use std::collections::VecDeque;

// What a page of zeros is written from.
static ZEROS: [u8; PAGE] = [0; PAGE];

/// The bytes of a write: records, which share the pages of their batch, zeros behind them, or the index of a blob.
pub enum WriteBytes<A: Allocator> {
    /// The records of a part.
    Data(IoSlice<A>),
    /// A page of zeros behind the records of a part. A scan of the block ends there.
    Zeros,
    /// The index of a blob.
    Index(IoSliceMut<A>),
}

// Written out, so that it is proved once.
impl<A: Allocator> Drop for WriteBytes<A> {
    fn drop(self) {
        match self {
            WriteBytes::Data(_) => {}
            WriteBytes::Zeros => {}
            WriteBytes::Index(_) => {}
        }
    }
}

impl<A: Allocator> WriteBytes<A> {
    /// The bytes, whole pages.
    pub fn as_slice(&self) -> &[u8]
        ensures { result.now ≡ written_bytes self.now }
    {
        match self {
            WriteBytes::Data(bytes) => bytes.as_slice(),
            WriteBytes::Zeros => &ZEROS,
            WriteBytes::Index(bytes) => bytes.as_slice(),
        }
    }
}

/// A write that a reply issues: these bytes, whole pages, at this offset of the block.
pub struct Write<A: Allocator> {
    /// In bytes from the block's start.
    pub offset: usize,
    pub bytes: WriteBytes<A>,
}

// Written out, so that it is proved once.
impl<A: Allocator> Drop for Write<A> {
    fn drop(self) {
        let Write {
            offset: _,
            bytes: _,
        } = self;
    }
}

/// The block that a batch is writing.
#[derive(Drop)]
pub struct Writing<A: Allocator> {
    pub block: BlockId,
    /// How many issued writes have not been reported.
    pub left: usize,
    /// The records, each by its offset in the block.
    pub records: Vec<HashedEntryAddress, A>,
    /// For each record, the address that it was read from, or `None` if it is a piece's.
    pub sources: Vec<Option<EntryAddress>, A>,
    ghost paired: { length sources.items ≡ length records.items },
}

/// What a flusher is writing.
#[derive(Drop)]
pub struct Batch<K, V, P, A: Allocator> {
    /// The blocks that are not yet issued, in order.
    pub blocks: Vec<Block<A>, A>,
    /// The pages of all records, to be filled again once they are written.
    pub pages: IoSlice<A>,
    /// For each record of these blocks, in order, the address that it was read from, or `None` if it is a piece's.
    pub sources: VecDeque<Option<EntryAddress>, A>,
    /// Whether the first of the blocks is the flusher's own.
    pub continues_own_block: bool,
    pub writing: Option<Writing<A>>,
    pub marks: Vec<Tombstone, A>,
    pub invalid: Vec<Invalidated, A>,
    pub pieces: Vec<PieceRef<K, V, P, A>, A>,
    pub waits: Vec<u64, A>,
    /// Whether the log of deletes took the marks, once it has answered.
    pub logged: Option<bool>,
    ghost fits: { Each BlockFits blocks.items } by { blocks_fit_once blocks.items },
}

/// The next block of a batch.
#[derive(Drop)]
pub enum Next<A: Allocator> {
    /// No block may be handed out now. The flusher waits for one.
    NoBlock,
    /// This one, with its writes.
    Block(BlockId, Vec<Write<A>, A>),
}

/// What a write's result led to.
#[derive(Clone, Copy, Debug, PartialEq, Eq)]
pub enum Wrote {
    /// Another write of the block is still to be reported.
    Next,
    /// The block's records entered the index. The number is how many of them are puts.
    Committed(usize),
    /// The batch failed.
    Failed,
}

/// What a batch gives back.
#[derive(Drop)]
pub struct Ended<K, V, P, A: Allocator> {
    pub pieces: Vec<PieceRef<K, V, P, A>, A>,
    pub waits: Vec<u64, A>,
}

impl<K, V, P, A: Allocator> Batch<K, V, P, A> {
    // The flusher's own block, if the next block of the batch is that.
    pub(crate) fn goes_on_with(&self, own: Option<BlockId>) -> Option<BlockId>
        ensures { MatchOption result (self.now.continues_own_block ≡ true → own ≡ None)
            (λ b. (self.now.continues_own_block ≡ true) × (own ≡ Some b)) }
    {
        if self.continues_own_block { own } else { None }
    }

    // The block that is being written.
    pub(crate) fn take_writing(&mut self) -> Option<Writing<A>>
        ensures taken { result ≡ self.old.writing }
        ensures idle { self.new.writing ≡ None }
        ensures rest { self.new ≡ record self.old { writing = None } }
    {
        self.writing.take()
    }

    // This block is being written.
    pub(crate) fn put_writing(&mut self, writing: Writing<A>)
        requires { self.old.writing ≡ None }
        ensures put { self.new.writing ≡ Some writing }
        ensures rest { self.new ≡ record self.old { writing = Some writing } }
    {
        match self.writing.replace(writing) {
            None => {}
            Some(_) => unreachable!(),
        }
    }

    // What isn't issued yet will not be written.
    pub(crate) fn drop_rest(&mut self)
        ensures none { self.new.blocks.items ≡ [] }
        ensures no_sources { self.new.sources.items ≡ [] }
        ensures rest { self.new ≡ record self.old { blocks = self.new.blocks; sources = self.new.sources; continues_own_block = false; fits = self.new.fits } }
    {
        self.blocks.clear();
        self.sources.clear();
        self.continues_own_block = false;
    }
}
