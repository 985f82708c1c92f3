//! What a flush writes: blocks, their parts, and where the next flush continues.
ghost use Rattle.std.specs.Prelude.{◌≡◌, ◌<◌, ◌≤◌, ◌%◌, ◌^◌, length, All, IfOk, IfErr, OnErr};
ghost use Rattle.foyer_device_page.specs.declared.error.Error.{Error as error};
ghost use Rattle.foyer_device_page.specs.Section.{bytes_of};
ghost use Rattle.foyer_format_buffer.specs.Position.{FitsBlock, fresh_context, taken};

use super::BufferEntryInfo;
use super::split_progress::SplitProgress;
use foyer_device_page::error::Result;
use foyer_device_page::io::bytes::{IoSlice, IoSliceMut};
use foyer_format_blob::{BlobEntryIndex, BlobIndex};
use std::alloc::Allocator;
use std::marker::Model;

/// Records that are written together, and the index that lists them with all that their blob has
/// already.
#[derive(Debug, PartialEq, Eq, Drop)]
pub struct BlobPart<A: Allocator> {
    /// Where the blob begins, in bytes from the block's start; the index is written there.
    pub blob_block_offset: usize,
    /// The index of its blob, as it is to be written.
    pub index: IoSliceMut<A>,
    /// Where the data begin, in bytes from the blob's start.
    pub part_blob_offset: usize,
    /// The records, each padded to whole pages.
    pub part_data: IoSlice<A>,
    /// The entries of the records.
    pub indices: Vec<BlobEntryIndex, A>,
}

/// What goes into one block, in the order in which it is written: for each part, the part's data
/// and then its index.
#[derive(Debug, PartialEq, Eq, Drop)]
pub struct Block<A: Allocator> {
    pub blob_parts: Vec<BlobPart<A>, A>,
}

/// What one flush writes.
#[derive(Debug, PartialEq, Eq, Drop)]
pub struct Batch<A: Allocator> {
    /// At least one. The first is the block in which the context was, and may have no part.
    pub blocks: Vec<Block<A>, A>,
    /// The bytes that were split, with those of all records.
    pub bytes: IoSlice<A>,
}

/// Where a splitter continues: in which blob of a block, after which data, with which index.
#[derive(Drop)]
pub struct SplitCtx<A: Allocator> {
    current_part_blob_offset: usize,
    current_blob_index: BlobIndex<A>,
    current_blob_block_offset: usize,
    block_size: usize,
    blob_index_size: usize,
}

impl<A: Allocator> Model for SplitCtx<A> {
    ghost use Rattle.std.specs.Prelude.{◌≡◌, ◌+◌, ◌<◌, ◌≤◌, ◌^◌, length};
    ghost use Rattle.foyer_format_blob.specs.Blob.{capacity_of};
    ghost use Rattle.foyer_format_blob.specs.OpenIndex.{entries_of};
    ghost use Rattle.foyer_format_buffer.specs.Position.{Context};

    ghost Value = { Context };

    ghost view = { λ c. record {
      sizes = record { block = c.block_size; index = c.blob_index_size };
      filling = record {
        blob = c.current_blob_block_offset;
        at = c.current_part_blob_offset;
        listed = entries_of c.current_blob_index;
      };
    } };

    ghost invariant = { λ c. (c.blob_index_size < c.block_size) × (36 ≤ c.blob_index_size)
        × (c.block_size ≤ 2 ^ 32) × (c.blob_index_size ≤ c.current_part_blob_offset)
        × (length c.current_blob_index.bytes ≡ c.blob_index_size)
        × (c.current_blob_block_offset + c.current_part_blob_offset
        ≤ c.block_size + c.blob_index_size)
        × (0 < c.current_blob_index.count
        → c.current_blob_block_offset + c.current_part_blob_offset ≤ c.block_size)
        × (c.current_blob_index.count < capacity_of c.blob_index_size) };
}

impl<A: Allocator> SplitCtx<A> {
    ghost use Rattle.foyer_format_blob.specs.Blob.{capacity_of};
    ghost use Rattle.foyer_format_buffer.specs.Splitting.{IsBegun, sizes_of, position_of};

    /// Begins at the start of a block, with an index without entries. Both sizes are whole pages. The
    /// index has a page or more and is smaller than the block, which has at most 2^32 bytes. Error:
    /// Memory if memory was refused.
    #[tactic(auto, using(foyer_format_layout::proofs::PageLaws::pages))]
    pub fn new(alloc: A, block_size: usize, blob_index_size: usize) -> Result<SplitCtx<A>>
        requires block_pages { block_size % 4096 ≡ 0 }
        requires index_pages { blob_index_size % 4096 ≡ 0 }
        requires some { 0 < blob_index_size }
        requires order { blob_index_size < block_size }
        requires small { block_size ≤ 2 ^ 32 }
        ensures fresh { IfOk result (λ c. c
            ≡ fresh_context (record { block = block_size; index = blob_index_size })) }
        ensures memory { IfErr result (λ e. e ≡ error.Memory) }
    {
        let bytes = IoSliceMut::new(alloc, blob_index_size)?;
        Ok(SplitCtx {
            current_part_blob_offset: blob_index_size,
            current_blob_index: BlobIndex::new(bytes),
            current_blob_block_offset: 0,
            block_size,
            blob_index_size,
        })
    }

    /// Goes to the start of a block, with an index without entries. It takes no memory.
    pub fn reset(&mut self)
        ensures { self.new ≡ fresh_context self.old.sizes }
    {
        self.current_blob_block_offset = 0;
        self.current_part_blob_offset = self.blob_index_size;
        self.current_blob_index.reset();
    }

    /// The size of a block, in bytes.
    pub fn block_size(&self) -> usize
        ensures { result ≡ self.now.sizes.block }
    {
        self.block_size
    }

    // A split that begins here.
    fn begin(&self, alloc: &A) -> Result<SplitProgress<A>>
    where
        A: Clone,
        ensures begun { IfOk result (IsBegun self.now) }
        ensures memory { IfErr result (λ e. e ≡ error.Memory) }
    {
        Ok(SplitProgress {
            block_size: self.block_size,
            index_size: self.blob_index_size,
            blob: self.current_blob_block_offset,
            at: self.current_part_blob_offset,
            index: self.current_blob_index.copy(alloc.clone()?)?,
            start: 0,
            size: 0,
            indices: Vec::new(alloc.clone()?),
            parts: Vec::new(alloc.clone()?),
            blocks: Vec::new(alloc.clone()?),
        })
    }

    // Moves the context to the position at which the split ended, and gives the split's blocks.
    fn commit(&mut self, split: SplitProgress<A>) -> Vec<Block<A>, A>
        requires sizes { sizes_of split ≡ self.old.sizes }
        requires open { split.index.count < capacity_of split.index_size }
        ensures sizes { self.new.sizes ≡ self.old.sizes }
        ensures filling { self.new.filling ≡ position_of split }
        ensures blocks { result ≡ split.blocks }
    {
        let SplitProgress {
            blob,
            at,
            index,
            blocks,
            ..
        } = split;
        self.current_blob_block_offset = blob;
        self.current_part_blob_offset = at;
        self.current_blob_index = index;
        blocks
    }
}

/// Splits batches.
pub struct Splitter;

impl Splitter {
    ghost use Rattle.foyer_format_buffer.specs.Layout.{IsLaidOut};

    /// Places the records of a batch, in their order, into parts of blobs and blocks. Begins where
    /// the context is, and moves the context to the end of the records. Each record must have bytes
    /// and fit an empty block. The parts share the batch's bytes, which begin with the first record.
    /// Error: Memory if an allocation was refused. Then the context stays as it was.
    pub fn split<A: Allocator + Clone>(
        alloc: &A,
        ctx: &mut SplitCtx<A>,
        bytes: IoSlice<A>,
        entry_infos: Vec<BufferEntryInfo, A>,
    ) -> Result<Batch<A>>
        requires each { All (FitsBlock ctx.old.sizes) entry_infos.items }
        requires within { taken entry_infos.items ≤ length (bytes_of bytes) }
        ensures placed { IfOk result (λ b.
            IsLaidOut ctx.old.sizes bytes entry_infos.items ctx.old.filling b ctx.new.filling) }
        ensures sizes { ctx.new.sizes ≡ ctx.old.sizes }
        ensures unchanged { OnErr result (ctx.new ≡ ctx.old) }
        ensures memory { IfErr result (λ e. e ≡ error.Memory) }
    {
        // A length fits its type, and so do the sums below it.
        let _ = bytes.len();
        let mut split = ctx.begin(alloc)?;
        'infos: for info in &entry_infos {
            split.place(alloc, &bytes, info)?;
        }
        split.finish(alloc, &bytes)?;
        let blocks = ctx.commit(split);
        Ok(Batch { blocks, bytes })
    }
}
