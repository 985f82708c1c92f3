//! What a reclaim reads of its block, and how a block is cleaned.
ghost use Rattle.std.specs.Prelude.{◌≡◌, ℕ, vec_len, IfOk, OnOk, OnErr, ◌≤◌, IfErr, ◌⊎◌};
ghost use Rattle.foyer_device_page.specs.declared.error.Error.TheVariants.{Memory};
ghost use Rattle.foyer_core_model.specs.Numbers.{page};
ghost use Rattle.foyer_io_disk.specs.Disk.{IsRead, IsTorn, SurelyCame};
ghost use Rattle.foyer_core_access.specs.Reclaims.{IsCleaned, part_in};

use foyer_block_index::manager::BlockId;
use foyer_core_steps::reply::Reply;
use foyer_device_page::error::Result;
use foyer_format_record::block::buffer::PAGE;
use foyer_io_disk::disk::Disk;
use std::alloc::Allocator;

/// What a reclaim reads of its block: `len` bytes from `offset` on.
#[derive(Clone, Copy, Debug, PartialEq, Eq)]
pub struct Part {
    /// Its first byte in the block.
    pub offset: usize,
    /// Its length in bytes.
    pub len: usize,
}

/// Gives the part that a `Scan` reply asks for, and `None` for any other reply.
pub fn next_part<K, V, P, A: Allocator>(reply: &Reply<K, V, P, A>) -> Option<Part>
    ensures { result ≡ part_in reply.now }
{
    match reply {
        Reply::Scan {
            block: _,
            offset,
            len,
            verdicts: _,
        } => Some(Part {
            offset: *offset,
            len: *len,
        }),
        _ => None,
    }
}

/// Reads a part of a block. Memory that is refused for it is a fault too.
pub fn read_bytes<A: Allocator + Clone, D: Disk>(
    alloc: &A,
    disk: &mut D,
    block: BlockId,
    part: Part,
) -> Result<Vec<u8, A>>
    ensures read { D.is_known disk.old → IfOk result (λ bytes. IsRead (D.byte_at disk.old) block part.offset bytes.items) }
    ensures len { IfOk result (λ bytes. vec_len bytes ≡ part.len) }
    ensures fails { IfErr result (λ e. (e ≡ Memory) ⊎ (SurelyCame (D.surely_has disk.old) (D.surely_lies disk.old) (D.faults disk.old) (D.faults disk.new)
        block part.offset part.len → ⊥)) }
    ensures known { D.is_known disk.old → D.is_known disk.new }
    ensures lies { (b o n : ℕ) → D.surely_lies disk.old b o n → D.surely_lies disk.new b o n }
    ensures counted { D.faults disk.old ≤ D.faults disk.new }
    ensures same { D.byte_at disk.new ≡ D.byte_at disk.old }
{
    let mut buffer = Vec::new(alloc.clone()?);
    buffer.resize(part.len, 0)?;
    let (buffer, outcome) = disk.read(block, part.offset, buffer);
    match outcome {
        Ok(()) => Ok(buffer),
        Err(error) => Err(error),
    }
}

/// Cleans blocks.
#[derive(Clone, Copy, Debug, Default)]
pub struct BlockCleaner;

impl BlockCleaner {
    /// Cleans a block: its first page becomes zeros. A clean that fails changes nothing but bytes of that page.
    pub fn clean<D: Disk>(disk: &mut D, block: BlockId) -> Result<()>
        ensures cleaned { D.is_known disk.old → OnOk result (IsCleaned (D.byte_at disk.old) block (D.byte_at disk.new)) }
        ensures torn { D.is_known disk.old → OnErr result (IsTorn (D.byte_at disk.old) block 0 page (D.byte_at disk.new)) }
        ensures fails { OnErr result (SurelyCame (D.surely_has disk.old) (D.surely_lies disk.old) (D.faults disk.old) (D.faults disk.new)
            block 0 page → ⊥) }
        ensures known { D.is_known disk.old → D.is_known disk.new }
        ensures lies { (b o n : ℕ) → D.surely_lies disk.old b o n → D.surely_lies disk.new b o n }
        ensures counted { D.faults disk.old ≤ D.faults disk.new }
    {
        let zeros = [0u8; PAGE];
        disk.write(block, 0, &zeros)
    }
}
