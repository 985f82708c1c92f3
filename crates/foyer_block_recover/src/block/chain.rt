//! The chain of a block's indices, read and kept.
ghost use Rattle.std.specs.Prelude.{◌≡◌, ℕ, ◌≤◌, ◌^◌, vec_len, true, false, [], IfOk, IsOkUnless};
ghost use Rattle.foyer_device_page.specs.declared.error.Error.TheVariants.{Memory};
ghost use Rattle.foyer_format_layout.specs.BlockBytes.{read};
ghost use Rattle.foyer_block_scan.specs.Fills.{AreSizes};
ghost use Rattle.foyer_io_disk.specs.Disk.{SurelyCame};
ghost use Rattle.foyer_block_recover.specs.Chained.{IsKeptOf};
ghost use Rattle.foyer_block_recover.specs.Placed.{IsSomeKept};

use crate::block::kept::keep_listed;
use foyer_block_index::indexer::HashedEntryAddress;
use foyer_block_index::manager::BlockId;
use foyer_block_scan::block::scanner::BlockScanner;
use foyer_device_page::error::Result;
use foyer_io_disk::disk::Disk;
use std::alloc::Allocator;

// A buffer of one index, and whether it was read.
#[derive(Drop)]
pub(crate) struct IndexRead<A: Allocator> {
    pub(crate) buffer: Vec<u8, A>,
    pub(crate) came: bool,
}

// What a block's chain gave: the entries that are kept, and whether a failed read ended it. The buffer is the one that was passed in.
#[derive(Drop)]
pub(crate) struct Chain<A: Allocator> {
    pub(crate) buffer: Vec<u8, A>,
    pub(crate) kept: Vec<HashedEntryAddress, A>,
    pub(crate) is_cut: bool,
}

// Reads as many bytes as the buffer has from an offset of a block on.
fn read_index<A: Allocator, D: Disk>(
    disk: &mut D,
    block: BlockId,
    offset: usize,
    buffer: Vec<u8, A>,
) -> IndexRead<A>
    ensures len { vec_len result.buffer ≡ vec_len buffer }
    ensures bytes { D.is_known disk.old → result.came ≡ true
        → result.buffer.items ≡ read (D.byte_at disk.old block) offset (vec_len buffer) }
    ensures fault { result.came ≡ false → SurelyCame (D.surely_has disk.old) (D.surely_lies disk.old) (D.faults disk.old) (D.faults disk.new)
        block offset (vec_len buffer) → ⊥ }
    ensures known { D.is_known disk.old → D.is_known disk.new }
    ensures same { D.byte_at disk.new ≡ D.byte_at disk.old }
    ensures has { (b o n : ℕ) → D.surely_has disk.old b o n → D.surely_has disk.new b o n }
    ensures lies { (b o n : ℕ) → D.surely_lies disk.old b o n → D.surely_lies disk.new b o n }
    ensures counted { D.faults disk.old ≤ D.faults disk.new }
{
    let (buffer, outcome) = disk.read(block, offset, buffer);
    let came = outcome.is_ok();
    IndexRead { buffer, came }
}

// Reads the chain of a block, index after index into the buffer, which has the size of one, and appends what is kept of
// it.
pub(crate) fn read_chain<A: Allocator + Clone, D: Disk>(
    alloc: &A,
    disk: &mut D,
    block: BlockId,
    block_size: usize,
    buffer: Vec<u8, A>,
    kept: Vec<HashedEntryAddress, A>,
) -> Result<Chain<A>>
    requires sizes { AreSizes (record { block = block_size; index = vec_len buffer }) }
    requires small { block_size ≤ 2 ^ 32 }
    ensures len { IfOk result (λ chain. vec_len chain.buffer ≡ vec_len buffer) }
    ensures kept { D.is_known disk.old → IfOk result (λ chain. IsKeptOf
        (record { block = block_size; index = vec_len buffer }) (D.byte_at disk.old block)
        (λ p. SurelyCame (D.surely_has disk.old) (D.surely_lies disk.old) (D.faults disk.old) (D.faults disk.new)
        block p (vec_len buffer)) block kept.items chain.kept.items chain.is_cut) }
    ensures some { IfOk result (λ chain. IsSomeKept
        (record { block = block_size; index = vec_len buffer }) block kept.items chain.kept.items) }
    ensures memory { IsOkUnless result Memory }
    ensures known { D.is_known disk.old → D.is_known disk.new }
    ensures same { D.byte_at disk.new ≡ D.byte_at disk.old }
    ensures has { (b o n : ℕ) → D.surely_has disk.old b o n → D.surely_has disk.new b o n }
    ensures lies { (b o n : ℕ) → D.surely_lies disk.old b o n → D.surely_lies disk.new b o n }
    ensures counted { D.faults disk.old ≤ D.faults disk.new }
{
    let index_size = buffer.len();
    let mut scanner = BlockScanner::new(block, 0, block_size, index_size);
    let mut buffer = buffer;
    let mut kept = kept;
    let mut last = Some(0);
    'each_index: while let Some(offset) = scanner.blob_offset() {
        let IndexRead {
            buffer: bytes,
            came,
        } = read_index(disk, block, offset, buffer);
        buffer = bytes;
        if !came {
            return Ok(Chain {
                buffer,
                kept,
                is_cut: true,
            });
        }
        let listed = scanner.next(alloc, &buffer)?;
        last = keep_listed(&mut kept, last, listed)?;
    }
    Ok(Chain {
        buffer,
        kept,
        is_cut: false,
    })
}
