//! A disk in memory.
ghost use Rattle.std.specs.Prelude.{◌≡◌, ℕ, ◌+◌, ◌*◌, ◌^◌, ◌<◌, ◌≤◌, ◌⊎◌, ◌↔◌, length, vec_len, slice_index, nat_lt, if◌then◌else◌, Err, IfOk, IfErr, IsOk, IsSome, IfSome, OnOk, OnErr};
ghost use Rattle.foyer_io_disk.specs.Disk.{IsRead, IsWritten, IsTorn, IsWithin, HasFailed};
ghost use Rattle.foyer_device_page.specs.declared.error.Error.TheVariants.{Io, Memory, OutOfRange};

use foyer_block_index::manager::BlockId;
use foyer_device_page::error::{Error, Result};
use foyer_io_disk::disk::Disk;
use foyer_io_engine::io::engine::MemoryFile;
use std::alloc::Allocator;

/// The blocks of a device in one piece of memory. What was never written is zeros. An access gives Io if its range is not in the block.
pub struct MemoryDisk<A: Allocator> {
    // The blocks one after another.
    file: MemoryFile<A>,
    /// How many blocks there are.
    pub blocks: u32,
    /// The bytes of a block.
    pub block_size: usize,
    ghost room: { file.len ≡ blocks * block_size },
    ghost small: { blocks * block_size < 2 ^ 64 },
}

// Written out, so that it is proved once.
impl<A: Allocator> Drop for MemoryDisk<A> {
    fn drop(self) {
        let MemoryDisk {
            file: _,
            blocks: _,
            block_size: _,
        } = self;
    }
}

impl<A: Allocator> MemoryDisk<A> {
    /// Makes `blocks` blocks of `block_size` bytes, all zeros. Errors: `Memory`; `OutOfRange` if the product of
    /// `blocks` and `block_size` passes `usize::MAX`.
    pub fn new(alloc: A, blocks: u32, block_size: usize) -> Result<MemoryDisk<A>>
        ensures zeros { IfOk result (λ d. (b o : ℕ) → ⟦<MemoryDisk<A> as Disk>⟧.byte_at d b o ≡ 0) }
        ensures sizes { IfOk result (λ d. (d.blocks ≡ blocks) × (d.block_size ≡ block_size)) }
        ensures refused { IfErr result (λ e. (e ≡ Memory) ⊎ ((e ≡ OutOfRange) × (2 ^ 64 ≤ blocks * block_size))) }
        ensures beyond { 2 ^ 64 ≤ blocks * block_size → result ≡ Err OutOfRange }
    {
        let Some(capacity) = (blocks as usize).checked_mul(block_size) else {
            return Err(Error::OutOfRange);
        };
        Ok(MemoryDisk {
            file: MemoryFile::new(alloc, capacity)?,
            blocks,
            block_size,
        })
    }

    // Gives where a range of a block begins in the memory, and none if the range doesn't lie in the block.
    fn start_of(&self, block: BlockId, offset: usize, len: usize) -> Option<usize>
        ensures within { IsSome result ↔ IsWithin self.now.blocks self.now.block_size block offset len }
        ensures start { IfSome result (λ at. (at ≡ block * self.now.block_size + offset)
            × (at + len ≤ self.now.blocks * self.now.block_size)) }
    {
        if block >= self.blocks || offset > self.block_size || len > self.block_size - offset {
            return None;
        }
        Some(block as usize * self.block_size + offset)
    }
}

impl<A: Allocator> Disk for MemoryDisk<A> {
    ghost is_known = { λ _. Unit {0} };

    ghost byte_at = { λ d b o. if nat_lt o d.block_size then slice_index d.file.bytes (b * d.block_size + o) else 0 };

    ghost surely_has = { λ d. IsWithin d.blocks d.block_size };

    ghost faults = { λ _. 0 };

    ghost surely_lies = { λ d. IsWithin d.blocks d.block_size };

    ghost may_have = { λ d. IsWithin d.blocks d.block_size };

    ghost may_answer = { λ _ _ _ _ e. e ≡ Io };

    fn read<B: Allocator>(
        &mut self,
        block: BlockId,
        offset: usize,
        mut buffer: Vec<u8, B>,
    ) -> (Vec<u8, B>, Result<()>) {
        let Some(start) = self.start_of(block, offset, buffer.len()) else {
            return (buffer, Err(Error::Io));
        };
        self.file.read_at(start as u64, buffer.as_mut_slice());
        (buffer, Ok(()))
    }

    fn write(&mut self, block: BlockId, offset: usize, bytes: &[u8]) -> Result<()> {
        let Some(start) = self.start_of(block, offset, bytes.len()) else {
            return Err(Error::Io);
        };
        self.file.write_at(start as u64, bytes);
        Ok(())
    }
}
