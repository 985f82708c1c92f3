//! The blocks of a batch, as they are issued.
ghost use Rattle.std.specs.Prelude.{◌≡◌, ◌≢◌, ◌<◌, None, MatchOption, true, false, nat_le, ◌+◌, ◌*◌, ◌≤◌, ◌++◌, ◌∷◌, [], map, drop, length, OnOk, IfOk, IfErr, vec_len, vec_capacity};
ghost use Rattle.foyer_device_page.specs.declared.error.Error.{Error as error};
ghost use Rattle.foyer_core_flusher.specs.Issuing.{entering, entering_of, writes_of};
ghost use Rattle.foyer_core_flusher.specs.Offsets.{BlockFits, EntryFits, PartFits};
ghost use Rattle.foyer_format_layout.specs.Each.{Each};
ghost use Rattle.foyer_core_flusher.specs.Issued.{IsReady, IssuesFirst, padded, source_in};

use crate::batch::{Batch, Write, WriteBytes, Writing};
use foyer_block_index::indexer::{EntryAddress, HashedEntryAddress};
use foyer_block_index::manager::BlockId;
use foyer_device_page::error::Result;
use foyer_format_buffer::{BlobEntryIndex, BlobPart, Block};
use foyer_format_record::block::buffer::PAGE;
use std::alloc::Allocator;
use std::collections::VecDeque;

// A record of a blob, by its offset in the block, whose number isn't known yet.
fn entering(blob: usize, entry: &BlobEntryIndex) -> HashedEntryAddress
    requires { EntryFits blob entry.now }
    ensures { result ≡ entering blob entry.now }
{
    let offset = blob + entry.offset as usize;
    HashedEntryAddress {
        hash: entry.hash,
        address: EntryAddress {
            block: 0,
            offset: offset as u32,
            len: entry.len,
            sequence: entry.sequence,
            filling: 0,
        },
    }
}

// Appends the records of a part.
fn enter_part<A: Allocator>(
    records: &mut Vec<HashedEntryAddress, A>,
    blob: usize,
    entries: &[BlobEntryIndex],
) -> Result<()>
    requires { Each (EntryFits blob) entries.now }
    ensures entered { OnOk result (records.new.items ≡ records.old.items ++ map (entering blob) entries.now) }
    ensures memory { IfErr result (λ e. e ≡ error.Memory) }
{
    for entry in entries {
        records.push(entering(blob, entry))?;
    }
    Ok(())
}

// The records of a block, as they are to be indexed.
fn records_of<A: Allocator + Clone>(
    alloc: &A,
    block: &Block<A>,
) -> Result<Vec<HashedEntryAddress, A>>
    requires { BlockFits block.now }
    ensures records { IfOk result (λ v. v.items ≡ entering_of block.now.blob_parts.items) }
    ensures memory { IfErr result (λ e. e ≡ error.Memory) }
{
    let mut records = Vec::new(alloc.clone()?);
    for part in &block.blob_parts {
        enter_part(
            &mut records,
            part.blob_block_offset,
            part.indices.as_slice(),
        )?;
    }
    Ok(records)
}

// The source at a place; none past the end.
fn source_at<A: Allocator>(
    sources: &VecDeque<Option<EntryAddress>, A>,
    place: usize,
) -> Option<EntryAddress>
    ensures { result ≡ source_in sources.now.items place }
{
    match sources.get(place) {
        Some(source) => *source,
        None => None,
    }
}

// Gives the first `count` sources. If there are fewer, the rest are None.
fn first_sources<A: Allocator>(
    alloc: A,
    sources: &VecDeque<Option<EntryAddress>, A>,
    count: usize,
) -> Result<Vec<Option<EntryAddress>, A>>
    ensures first { IfOk result (λ v. v.items ≡ padded count sources.now.items) }
    ensures memory { IfErr result (λ e. e ≡ error.Memory) }
{
    let mut first = Vec::with_capacity(alloc, count)?;
    'each_place: for place in 0..count {
        first.push_reserved(source_at(sources, place));
    }
    Ok(first)
}

// Removes the first `count` sources.
fn drop_sources<A: Allocator>(sources: &mut VecDeque<Option<EntryAddress>, A>, count: usize)
    ensures { sources.new.items ≡ drop count sources.old.items }
{
    'each_place: for _ in 0..count {
        let _ = sources.pop_front();
    }
}

// Gives the offset of a page of zeros behind data of so many bytes at an offset, if a block of this size has room for the page.
fn zeros_behind(block_size: usize, at: usize, len: usize) -> Option<usize>
    ensures { MatchOption result (nat_le (at + len + 4096) block_size ≡ false)
        (λ o. (o ≡ at + len) × (nat_le (at + len + 4096) block_size ≡ true)) }
{
    if block_size.saturating_sub(at).saturating_sub(len) < PAGE {
        return None;
    }
    Some(at + len)
}

// Appends the writes of a part of a block of so many bytes, in room that is there: its data, a page of zeros behind them
// if the block has room for it, and then its index.
fn issue_part<A: Allocator>(issued: &mut Vec<Write<A>, A>, part: BlobPart<A>, block_size: usize)
    requires fits { PartFits part }
    requires room { vec_len issued.old + 3 ≤ vec_capacity issued.old }
    ensures issued { issued.new.items ≡ issued.old.items ++ writes_of block_size (part ∷ []) }
    ensures len { vec_len issued.new ≤ vec_len issued.old + 3 }
    ensures room { vec_capacity issued.new ≡ vec_capacity issued.old }
{
    let BlobPart {
        blob_block_offset,
        index,
        part_blob_offset,
        part_data,
        ..
    } = part;
    let at = blob_block_offset + part_blob_offset;
    let data = Write {
        offset: at,
        bytes: WriteBytes::Data(part_data),
    };
    let listing = Write {
        offset: blob_block_offset,
        bytes: WriteBytes::Index(index),
    };
    match zeros_behind(block_size, at, data.bytes.as_slice().len()) {
        Some(end) => {
            issued.push_reserved(data);
            issued.push_reserved(Write {
                offset: end,
                bytes: WriteBytes::Zeros,
            });
            issued.push_reserved(listing);
        }
        None => {
            issued.push_reserved(data);
            issued.push_reserved(listing);
        }
    }
}

// The writes of a block of so many bytes, in room that was made for them; nothing is copied.
fn writes_of<A: Allocator>(
    writes: Vec<Write<A>, A>,
    block: Block<A>,
    block_size: usize,
) -> Vec<Write<A>, A>
    requires fits { BlockFits block }
    requires none { writes.items ≡ [] }
    requires room { vec_len writes + 3 * vec_len block.blob_parts ≤ vec_capacity writes }
    ensures { result.items ≡ writes_of block_size block.blob_parts.items }
{
    let mut issued = writes;
    for part in block.blob_parts {
        issue_part(&mut issued, part, block_size);
    }
    issued
}

// What is being written of a block, if it has writes.
fn begin_writing<A: Allocator>(
    block: BlockId,
    left: usize,
    records: Vec<HashedEntryAddress, A>,
    sources: Vec<Option<EntryAddress>, A>,
) -> Option<Writing<A>>
    requires { length sources.items ≡ length records.items }
    ensures { MatchOption result (left ≡ 0) (λ w. (w.block ≡ block) × (w.left ≡ left) × (0 < left)
        × (w.records ≡ records) × (w.sources ≡ sources)) }
{
    if left == 0 {
        return None;
    }
    Some(Writing {
        block,
        left,
        records,
        sources,
    })
}

/// What the next block of a batch is issued with: its records, as they are to be indexed, and room for its writes. For each record there is
/// the address that it was read from, or `None` if it is a piece's.
#[derive(Drop)]
pub struct Prepared<A: Allocator> {
    pub records: Vec<HashedEntryAddress, A>,
    pub sources: Vec<Option<EntryAddress>, A>,
    pub writes: Vec<Write<A>, A>,
}

impl<K, V, P, A: Allocator + Clone> Batch<K, V, P, A> {
    /// Makes what the next block is issued with. The batch must have a block left. Errors: `Memory` if an allocation was refused.
    pub fn prepare(&self, alloc: &A) -> Result<Prepared<A>>
        requires { self.now.blocks.items ≢ [] }
        ensures ready { IfOk result (λ p. IsReady self.now p.records p.sources p.writes) }
        ensures memory { IfErr result (λ e. e ≡ error.Memory) }
    {
        let Some(block) = self.blocks.first() else {
            unreachable!()
        };
        let records = records_of(alloc, block)?;
        let sources = first_sources(alloc.clone()?, &self.sources, records.len())?;
        let parts = block.blob_parts.len();
        let writes = Vec::with_capacity(alloc.clone()?, parts.saturating_mul(3))?;
        Ok(Prepared {
            records,
            sources,
            writes,
        })
    }

    /// Issues the next block of the batch into the block `block` of `block_size` bytes, and gives its writes. For each part these are its
    /// data, a page of zeros after them if the block has room, and then the index that lists them. `prepared` must be what `prepare` gave
    /// for this batch, and no block of the batch may be being written. Nothing is copied, and it doesn't allocate.
    pub fn issue(
        &mut self,
        block: BlockId,
        block_size: usize,
        prepared: Prepared<A>,
    ) -> Vec<Write<A>, A>
        requires idle { self.old.writing ≡ None }
        requires ready { IsReady self.old prepared.records prepared.sources prepared.writes }
        ensures { IssuesFirst block block_size self.old self.new result.items }
    {
        let Prepared {
            records,
            sources,
            writes,
        } = prepared;
        self.continues_own_block = false;
        drop_sources(&mut self.sources, records.len());
        let placed = self.blocks.remove(0);
        let issued = writes_of(writes, placed, block_size);
        self.writing = begin_writing(block, issued.len(), records, sources);
        issued
    }
}
