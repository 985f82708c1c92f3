//! What a block lists, and why its chain of indices ends.
ghost use Rattle.std.specs.Prelude.{◌≡◌, ℕ, ◌≤◌, ◌^◌, vec_len, true, false, length, Some, IfOk, IsOkUnless};
ghost use Rattle.foyer_device_page.specs.declared.error.Error.TheVariants.{Memory};
ghost use Rattle.foyer_format_layout.specs.BlockBytes.{read};
ghost use Rattle.foyer_format_buffer.specs.Fills.{AreSizes};
ghost use Rattle.foyer_block_recover.specs.Kept.{rising_infos};
ghost use Rattle.foyer_list.specs.BlockListing.{IsListed, IsListing};

use foyer_block_index::manager::BlockId;
use foyer_block_scan::block::scanner::{BlockScanner, EntryInfo};
use foyer_device_page::error::Result;
use foyer_io_disk::disk::Disk;
use std::alloc::Allocator;

/// Why the chain of a block's indices ends.
#[derive(Clone, Copy, Debug, PartialEq, Eq)]
pub enum ChainEnd {
    /// The block has no room for another index. Or the last index has no entries, so the block ends with it.
    BlockEnd,
    /// The index at this offset couldn't be read.
    FailedRead { offset: usize },
    /// At this offset is no index, or an index with an entry that doesn't fit.
    NoIndex { offset: usize },
}

/// What a block lists.
#[derive(Drop)]
pub struct Listing<A: Allocator> {
    /// Its entries in order, with offsets from the block's start.
    pub entries: Vec<EntryInfo, A>,
    /// Why there are no more.
    pub end: ChainEnd,
    /// How many of the entries an opening keeps: those before the first whose sequence is below the one before it.
    pub kept: usize,
}

// A buffer of one index, and whether it was read.
#[derive(Drop)]
struct IndexRead<A: Allocator> {
    buffer: Vec<u8, A>,
    came: bool,
}

// The entries of a chain, and why it ends.
#[derive(Drop)]
struct ListedChain<A: Allocator> {
    entries: Vec<EntryInfo, A>,
    end: ChainEnd,
}

// Fills the buffer from an offset of a block.
fn read_index<A: Allocator, D: Disk>(
    disk: &mut D,
    block: BlockId,
    offset: usize,
    buffer: Vec<u8, A>,
) -> IndexRead<A>
    ensures len { vec_len result.buffer ≡ vec_len buffer }
    ensures bytes { D.is_known disk.old → result.came ≡ true
        → result.buffer.items ≡ read (D.byte_at disk.old block) offset (vec_len buffer) }
    ensures fault { result.came ≡ false → D.surely_has disk.old block offset (vec_len buffer) → ⊥ }
    ensures known { D.is_known disk.old → D.is_known disk.new }
    ensures same { D.byte_at disk.new ≡ D.byte_at disk.old }
    ensures has { (b o n : ℕ) → D.surely_has disk.old b o n → D.surely_has disk.new b o n }
{
    let (buffer, outcome) = disk.read(block, offset, buffer);
    let came = outcome.is_ok();
    IndexRead { buffer, came }
}

// How many infos are before the first whose sequence is below the one before it.
fn count_kept(infos: &[EntryInfo]) -> usize
    ensures { result ≡ length (rising_infos (Some 0) infos.now) }
{
    let mut least = 0;
    let mut count = 0;
    'each_info: for info in infos {
        if info.addr.sequence < least {
            return count;
        }
        least = info.addr.sequence;
        count += 1;
    }
    count
}

// Reads the chain of a block, index after index.
fn list_chain<A: Allocator + Clone, D: Disk>(
    alloc: &A,
    disk: &mut D,
    block: BlockId,
    block_size: usize,
    index_size: usize,
) -> Result<ListedChain<A>>
    requires sizes { AreSizes (record { block = block_size; index = index_size }) }
    requires small { block_size ≤ 2 ^ 32 }
    ensures listed { D.is_known disk.old → IfOk result (λ chain. IsListed
        (record { block = block_size; index = index_size }) (D.byte_at disk.old block)
        (λ p. D.surely_has disk.old block p index_size) block chain.entries.items chain.end) }
    ensures memory { IsOkUnless result Memory }
    ensures known { D.is_known disk.old → D.is_known disk.new }
    ensures same { D.byte_at disk.new ≡ D.byte_at disk.old }
    ensures has { (b o n : ℕ) → D.surely_has disk.old b o n → D.surely_has disk.new b o n }
{
    let mut scanner = BlockScanner::new(block, 0, block_size, index_size);
    let mut buffer = vec![in alloc.clone()?; 0u8; index_size]?;
    let mut entries = Vec::new(alloc.clone()?);
    'each_index: while let Some(offset) = scanner.blob_offset() {
        let IndexRead {
            buffer: bytes,
            came,
        } = read_index(disk, block, offset, buffer);
        buffer = bytes;
        if !came {
            let end = ChainEnd::FailedRead { offset };
            return Ok(ListedChain { entries, end });
        }
        let Some(infos) = scanner.next(alloc, &buffer)? else {
            let end = ChainEnd::NoIndex { offset };
            return Ok(ListedChain { entries, end });
        };
        entries.extend_from_slice(&infos)?;
    }
    let end = ChainEnd::BlockEnd;
    Ok(ListedChain { entries, end })
}

/// Reads the indices of a block's chain, one after the other, and nothing else of the block. A failed read ends the chain. The disk's
/// bytes stay as they are. An index must be whole pages, at least one, and smaller than the block. A block must have at most 2^32 bytes.
/// Errors: `Memory`.
pub fn list_block<A: Allocator + Clone, D: Disk>(
    alloc: &A,
    disk: &mut D,
    block: BlockId,
    block_size: usize,
    index_size: usize,
) -> Result<Listing<A>>
    requires sizes { AreSizes (record { block = block_size; index = index_size }) }
    requires small { block_size ≤ 2 ^ 32 }
    ensures listed { D.is_known disk.old → IfOk result (λ listing. IsListing
        (record { block = block_size; index = index_size }) (D.byte_at disk.old block)
        (λ p. D.surely_has disk.old block p index_size) block listing) }
    ensures memory { IsOkUnless result Memory }
    ensures known { D.is_known disk.old → D.is_known disk.new }
    ensures same { D.byte_at disk.new ≡ D.byte_at disk.old }
    ensures has { (b o n : ℕ) → D.surely_has disk.old b o n → D.surely_has disk.new b o n }
{
    let ListedChain { entries, end } = list_chain(alloc, disk, block, block_size, index_size)?;
    let kept = count_kept(&entries);
    Ok(Listing { entries, end, kept })
}
