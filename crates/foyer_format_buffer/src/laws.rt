//! What holds of every layout of records in blocks, for whoever writes blocks and reads them again.
ghost use Rattle.foyer_format_buffer.specs.BlobVectors.{EntryVector, CapacityVector, KeptVector};
ghost use Rattle.foyer_format_buffer.specs.LayoutLaws.{OneList, FinishedFits, BatchIsBlocks, BlockIsLaid, RecordsAreEntries, FreshHolds, WrittenHolds, HeldIsListed, WrittenEnds};

use std::alloc::Allocator;

/// A block's bytes, and which of its reads failed, determine what the block lists.
pub fn one_list()
    ensures { OneList }
{}

/// What a finished buffer gives can be split, if no entry is empty and a block has room for an index and the largest entry.
pub fn finished_fits()
    ensures { FinishedFits }
{}

/// A batch fills one block after the other, the first from where the context was.
pub fn batch_is_blocks<A: Allocator>()
    ensures { BatchIsBlocks A }
{}

/// In one filling of a block, no two parts' data overlap, and no data overlap an index. Every write
/// is after what is there, or in the present blob's index. After a block's writes, whatever its bytes
/// were, each record is at its offset. Later writes of the filling don't touch the record's pages.
pub fn block_is_laid<A: Allocator>()
    ensures { BlockIsLaid A }
{}

/// The records that a batch has in its blocks are the entries of the buffer from which the batch was split.
pub fn records_are_entries()
    ensures { RecordsAreEntries }
{}

/// A new filling of a block holds nothing, whatever the block's bytes are.
pub fn fresh_holds()
    ensures { FreshHolds }
{}

/// Once the parts of a block are written, the block holds their records after what it held.
pub fn written_holds<A: Allocator>()
    ensures { WrittenHolds A }
{}

/// A block lists first what it holds, in order, and then what stale bytes list.
pub fn held_is_listed()
    ensures { HeldIsListed }
{}

/// A block into which records were just written lists what its filling put, and nothing that older bytes list. A page of
/// zeros after the records, or the block's end, ends the list.
pub fn written_ends<A: Allocator>()
    ensures { WrittenEnds A }
{}

/// An entry of an index in bytes, how many an index has room for, and what is kept of a list.
#[tactic(auto, unfolding(foyer_format_blob::specs::Blob::entry_bytes))]
pub fn listing_vectors()
    ensures entry { EntryVector }
    ensures capacity { CapacityVector }
    ensures kept { KeptVector }
{}
