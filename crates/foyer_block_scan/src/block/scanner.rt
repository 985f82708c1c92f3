//! The scan of a block.
ghost use Rattle.std.specs.Prelude.{◌≡◌, ◌+◌, ◌<◌, ◌≤◌, ◌^◌, ◌%◌, ℕ, None, Some, length, vec_len, map, IfOk, OnOk, OnErr, IsOkUnless, IfSome, true};
ghost use Rattle.std.specs.Option.{option_map};
ghost use Rattle.foyer_device_page.specs.declared.error.Error.TheVariants.{Memory};
ghost use Rattle.foyer_format_layout.specs.Position.{Sizes};
ghost use Rattle.foyer_format_buffer.specs.Listing.{behind, placed};
ghost use Rattle.foyer_block_scan.specs.IndexBytes.{fits, all_fit};
ghost use Rattle.foyer_block_scan.specs.Scan.{next_blob, infos_of, scan_step, scan_end};

use foyer_block_index::indexer::EntryAddress;
use foyer_block_index::manager::BlockId;
use foyer_device_page::error::Result;
use foyer_format_buffer::format_blob::{BlobEntryIndex, BlobIndexReader};
use std::alloc::Allocator;
use std::marker::Model;

/// An entry that a block lists: its hash, and its record's address in the block.
#[derive(Clone, Copy, Debug, PartialEq, Eq)]
pub struct EntryInfo {
    /// The hash of its key.
    pub hash: u64,
    /// The address of its record.
    pub addr: EntryAddress,
}

/// The scan of a block in one of its fillings. It reads nothing: whoever drives it reads the index at its offset, and passes it the bytes,
/// or says that the read failed.
#[derive(Drop)]
pub struct BlockScanner {
    block: BlockId,
    filling: u64,
    block_size: usize,
    index_size: usize,
    blob_offset: Option<usize>,
}

impl Model for BlockScanner {
    ghost use Rattle.std.specs.Prelude.{◌≡◌, ◌+◌, ◌≤◌, ◌^◌, IfSome};
    ghost use Rattle.foyer_block_scan.specs.ScanState.{Scan};

    ghost Value = { Scan };

    ghost view = { λ s. record {
      block = s.block;
      filling = s.filling;
      sizes = record { block = s.block_size; index = s.index_size };
      blob_offset = s.blob_offset;
    } };

    ghost invariant = { λ s. (s.block_size ≤ 2 ^ 32) × IfSome s.blob_offset (λ p. p + s.index_size ≤ s.block_size) };
}

// Whether an entry of an index at the offset isn't empty, and lies behind the index, on a page, and within the block.
#[tactic(auto, using(foyer_format_layout::proofs::PageLaws::pages))]
fn fits(entry: &BlobEntryIndex, blob_offset: usize, block_size: usize, index_size: usize) -> bool
    requires { blob_offset ≤ 2 ^ 32 }
    ensures { result ≡ fits (record { block = block_size; index = index_size }) blob_offset entry.now }
{
    let offset = entry.offset as usize;
    let len = entry.aligned();
    entry.len > 0
        && offset >= index_size
        && offset % 4096 == 0
        && blob_offset + offset + len <= block_size
}

// Whether each entry of an index at the offset fits.
fn all_fit(
    entries: &[BlobEntryIndex],
    blob_offset: usize,
    block_size: usize,
    index_size: usize,
) -> bool
    requires { blob_offset ≤ 2 ^ 32 }
    ensures { result ≡ all_fit (record { block = block_size; index = index_size }) blob_offset entries.now }
{
    for entry in entries {
        if !fits(entry, blob_offset, block_size, index_size) {
            return false;
        }
    }
    true
}

// The entries of an index at the offset, as addresses in the block.
fn infos_of<A: Allocator>(
    alloc: A,
    entries: &[BlobEntryIndex],
    blob_offset: usize,
    block: BlockId,
    filling: u64,
    block_size: usize,
    index_size: usize,
) -> Result<Vec<EntryInfo, A>>
    requires small { block_size ≤ 2 ^ 32 }
    requires within { all_fit (record { block = block_size; index = index_size }) blob_offset entries.now ≡ true }
    ensures infos { IfOk result (λ v. v.items ≡ infos_of block filling (placed blob_offset entries.now)) }
    ensures memory { IsOkUnless result Memory }
{
    let mut infos = Vec::with_capacity(alloc, entries.len())?;
    'each_entry: for entry in entries {
        infos.push(EntryInfo {
            hash: entry.hash,
            addr: EntryAddress {
                block,
                offset: (blob_offset + entry.offset as usize) as u32,
                len: entry.len,
                sequence: entry.sequence,
                filling,
            },
        })?;
    }
    Ok(infos)
}

// Gives the offset at which an index and its records end. Without records the block ends with the index.
#[tactic(auto, using(foyer_format_layout::proofs::PageLaws::pages))]
fn blob_end(
    entries: &[BlobEntryIndex],
    blob_offset: usize,
    block_size: usize,
    index_size: usize,
) -> usize
    requires small { (block_size ≤ 2 ^ 32) × (blob_offset ≤ 2 ^ 32) }
    requires within { all_fit (record { block = block_size; index = index_size }) blob_offset entries.now ≡ true }
    ensures behind { result ≡ behind (record { block = block_size; index = index_size }) blob_offset entries.now }
    ensures small { result ≤ blob_offset + block_size }
{
    if entries.is_empty() {
        return blob_offset + block_size;
    }
    let last = &entries[entries.len() - 1];
    blob_offset + last.offset as usize + last.aligned()
}

impl BlockScanner {
    /// Gives a scan of a block in a filling, at the block's start. `block_size` must be at most 2^32. If a block has no room for an index,
    /// the scan has ended.
    pub fn new(block: BlockId, filling: u64, block_size: usize, index_size: usize) -> BlockScanner
        requires { block_size ≤ 2 ^ 32 }
        ensures sizes { (result.block ≡ block) × (result.filling ≡ filling)
            × (result.sizes ≡ record { block = block_size; index = index_size }) }
        ensures blob_offset { result.blob_offset ≡ next_blob (record { block = block_size; index = index_size }) 0 }
    {
        BlockScanner {
            block,
            filling,
            block_size,
            index_size,
            blob_offset: if index_size <= block_size {
                Some(0)
            } else {
                None
            },
        }
    }

    /// Copies the scan as it stands. A caller who tries a step on the copy can go back to the scan.
    pub fn copy(&self) -> BlockScanner
        ensures { result ≡ self.now }
    {
        BlockScanner {
            block: self.block,
            filling: self.filling,
            block_size: self.block_size,
            index_size: self.index_size,
            blob_offset: self.blob_offset,
        }
    }

    /// Gives the offset at which the next index is to be read, or `None` once the scan has ended. The read is as long as an index.
    pub fn blob_offset(&self) -> Option<usize>
        ensures blob_offset { result ≡ self.now.blob_offset }
        ensures within { IfSome result (λ p. p + self.now.sizes.index ≤ self.now.sizes.block) }
    {
        self.blob_offset
    }

    /// Takes the bytes that were read at the offset. Gives `Some` with the entries of their index, whose offsets count from the block's
    /// start. Gives `None` if the bytes are no index, or an index with an entry that doesn't fit, or if the scan had ended. Then the scan
    /// has ended. Errors: `Memory`, which leaves the scan as it was.
    pub fn next<A: Allocator + Clone>(
        &mut self,
        alloc: &A,
        bytes: &[u8],
    ) -> Result<Option<Vec<EntryInfo, A>>>
        ensures listed { IfOk result (λ r. option_map (λ v. v.items) r ≡ (scan_step self.old self.old.blob_offset bytes.now).listed) }
        ensures scan { OnOk result (self.new ≡ (scan_step self.old self.old.blob_offset bytes.now).scan) }
        ensures unchanged { OnErr result (self.new ≡ self.old) }
        ensures memory { IsOkUnless result Memory }
    {
        let Some(blob_offset) = self.blob_offset else {
            return Ok(None);
        };
        let Some(entries) = BlobIndexReader::read(alloc.clone()?, bytes)? else {
            self.blob_offset = None;
            return Ok(None);
        };
        if !all_fit(&entries, blob_offset, self.block_size, self.index_size) {
            self.blob_offset = None;
            return Ok(None);
        }
        let infos = infos_of(
            alloc.clone()?,
            &entries,
            blob_offset,
            self.block,
            self.filling,
            self.block_size,
            self.index_size,
        )?;
        let behind = blob_end(&entries, blob_offset, self.block_size, self.index_size);
        self.blob_offset = if behind + self.index_size <= self.block_size {
            Some(behind)
        } else {
            None
        };
        Ok(Some(infos))
    }

    /// Ends the scan, because the read at its offset failed.
    pub fn fail(&mut self)
        ensures { self.new ≡ (scan_end self.old).scan }
    {
        let _ = self.blob_offset.take();
    }
}
