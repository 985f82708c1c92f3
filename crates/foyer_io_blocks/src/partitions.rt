//! The blocks of a device: a partition for each, read and written by an engine.
ghost use Rattle.std.specs.Prelude.{◌≡◌, ℕ, ◌+◌, ◌*◌, ◌^◌, ◌<◌, ◌≤◌, ◌⊎◌, ◌++◌, length, map, replicate, vec_len, slice_get, Some, Err, IfOk, IfErr, IfSome, IfNone, OnOk, OnErr};
ghost use Rattle.foyer_device_partition.specs.Extent.{AreDisjoint, IsPartitionSize};
ghost use Rattle.foyer_io_disk.specs.Disk.{IsRead, IsWritten, IsTorn, HasFailed};
ghost use Rattle.foyer_io_blocks.specs.Partitions.{Shows, byte_in, lies_in, is_reached, may_fail, AreWhole};
ghost use Rattle.foyer_device_page.specs.declared.error.Error.TheVariants as error;

use foyer_block_index::manager::BlockId;
use foyer_device_page::error::{Error, Result};
use foyer_device_partition::io::device::{
    Device, DeviceBuilder, MemoryDeviceBuilder, MemoryPartition, Partition,
};
use foyer_io_disk::disk::Disk;
use foyer_io_engine::io::engine::{IoEngine, MemoryIoEngine, ReadBuffer, WriteBuffer};
use std::alloc::Allocator;
use std::rt::Files;

/// Blocks that are partitions of a device, and the engine that reads and writes them. An access gives OutOfRange if its range
/// isn't in the block's partition.
pub struct PartitionedDisk<E: IoEngine + Drop, P: Partition + Copy, A: Allocator> {
    engine: E,
    blocks: Vec<P, A>,
}

// Written out, so that it is proved once.
impl<E: IoEngine + Drop, P: Partition + Copy, A: Allocator> Drop for PartitionedDisk<E, P, A> {
    fn drop(self) {
        let PartitionedDisk {
            engine: _,
            blocks: _,
        } = self;
    }
}

impl<E: IoEngine + Drop, P: Partition + Copy, A: Allocator> PartitionedDisk<E, P, A> {
    /// Block b is the partition at place b.
    pub fn new(engine: E, blocks: Vec<P, A>) -> PartitionedDisk<E, P, A>
        ensures engine { result.engine ≡ engine }
        ensures blocks { result.blocks ≡ blocks }
    {
        PartitionedDisk { engine, blocks }
    }

    /// How many of its reads and writes the device failed, up to 2^64 - 1.
    pub fn failures(&self) -> u64
        ensures { result ≡ E.faults self.now.engine }
    {
        self.engine.failures()
    }

    /// Gives the engine, and drops the list of partitions.
    pub fn into_engine(self) -> E
        ensures { result ≡ self.engine }
    {
        let PartitionedDisk { engine, blocks: _ } = self;
        engine
    }

    // The partition of a block, if `len` bytes from the offset on lie in it.
    fn find(&self, block: BlockId, offset: usize, len: usize) -> Option<P>
        ensures found { IfSome result (λ p. (slice_get self.now.blocks.items block ≡ Some p)
            × (offset + len ≤ P.bytes p)) }
        ensures none { IfNone result (¬ lies_in P.bytes (slice_get self.now.blocks.items block) offset len) }
    {
        let partition = *self.blocks.get(block as usize)?;
        let size = partition.size();
        if offset > size || len > size - offset {
            return None;
        }
        Some(partition)
    }
}

/// Makes a partition of `size` bytes for each of `count` blocks, in order. Errors: those of `create_partition`, and `Memory`
/// for the list. After an error the partitions that were made stay in the device.
pub fn create_blocks<D: Device, R: Files, A: Allocator>(
    rt: &R,
    alloc: A,
    device: &mut D,
    count: u32,
    size: usize,
) -> Result<Vec<D::Partition, A>>
    ensures count { IfOk result (λ blocks. vec_len blocks ≡ count) }
    ensures sizes { IfOk result (λ blocks. map D.Partition.bytes blocks.items ≡ replicate count size) }
    ensures made { IfOk result (λ blocks. D.extents device.new
        ≡ D.extents device.old ++ map D.Partition.extent blocks.items) }
    ensures apart { IfOk result (λ blocks. AreDisjoint (map D.Partition.extent blocks.items)) }
    ensures refused { IfErr result (λ e. (e ≡ error.Config) ⊎ (e ≡ error.NoSpace) ⊎ (e ≡ error.Io)
        ⊎ (e ≡ error.Memory)) }
{
    let mut blocks = Vec::with_capacity(alloc, count as usize)?;
    'each_block: for _ in 0..count {
        blocks.push(device.create_partition(rt, size)?)?;
    }
    let _ = device.file_count();
    Ok(blocks)
}

/// Opens `count` blocks of `size` bytes in memory, all zeros. They are over a device and an engine, as the blocks of a
/// directory are. Errors: those of `create_blocks`, and `OutOfRange` if the product of `count` and `size` passes
/// `usize::MAX`.
pub fn open_in_memory<R: Files, A: Allocator + Clone>(
    rt: &R,
    alloc: &A,
    count: u32,
    size: usize,
) -> Result<PartitionedDisk<MemoryIoEngine<A>, MemoryPartition, A>>
    ensures known { IfOk result (λ d. ⟦<PartitionedDisk<MemoryIoEngine<A>, MemoryPartition, A> as Disk>⟧.is_known d) }
    ensures count { IfOk result (λ d. vec_len d.blocks ≡ count) }
    ensures sizes { IfOk result (λ d. map ⟦<MemoryPartition as Partition>⟧.bytes d.blocks.items ≡ replicate count size) }
    ensures zeros { IfOk result (λ d. (b o : ℕ) → ⟦<PartitionedDisk<MemoryIoEngine<A>, MemoryPartition, A> as Disk>⟧.byte_at d b o ≡ 0) }
    ensures beyond { 2 ^ 64 ≤ count * size → result ≡ Err error.OutOfRange }
    ensures refused { IfErr result (λ e. (e ≡ error.Config) ⊎ (e ≡ error.NoSpace) ⊎ (e ≡ error.Io)
        ⊎ (e ≡ error.Memory) ⊎ ((e ≡ error.OutOfRange) × (2 ^ 64 ≤ count * size))) }
{
    let Some(capacity) = (count as usize).checked_mul(size) else {
        return Err(Error::OutOfRange);
    };
    let builder = MemoryDeviceBuilder::new(capacity);
    let mut device = builder.build(rt, alloc.clone()?, 0)?;
    let blocks = create_blocks(rt, alloc.clone()?, &mut device, count, size)?;
    let mut engine = MemoryIoEngine::new(alloc.clone()?);
    engine.add_file(alloc.clone()?, capacity)?;
    Ok(PartitionedDisk::new(engine, blocks))
}

impl<E: IoEngine + Drop, P: Partition + Copy, A: Allocator> Disk for PartitionedDisk<E, P, A> {
    ghost is_known = { λ d. Shows (E.disk d.engine) × AreWhole P.bytes P.extent d.blocks.items
        × AreDisjoint (map P.extent d.blocks.items) };

    ghost byte_at = { λ d b o. byte_in P.bytes P.extent (E.disk d.engine) (slice_get d.blocks.items b) o };

    ghost surely_has = { λ _ _ _ _. ⊥ };

    ghost faults = { λ d. E.faults d.engine };

    ghost surely_lies = { λ d b. is_reached P.bytes P.extent (E.reaches d.engine) (slice_get d.blocks.items b) };

    ghost may_have = { λ d b o n. lies_in P.bytes (slice_get d.blocks.items b) o n };

    ghost may_answer = { λ d b o n e. may_fail P.bytes P.extent (E.disk d.engine) (slice_get d.blocks.items b) o n e };

    fn read<B: Allocator>(
        &mut self,
        block: BlockId,
        offset: usize,
        buffer: Vec<u8, B>,
    ) -> (Vec<u8, B>, Result<()>) {
        let Some(partition) = self.find(block, offset, buffer.len()) else {
            return (buffer, Err(Error::OutOfRange));
        };
        let handle = self
            .engine
            .read(ReadBuffer::new(buffer), &partition, offset as u64);
        let (buffer, outcome) = handle.into_inner();
        (buffer.into_vec(), outcome)
    }

    fn write(&mut self, block: BlockId, offset: usize, bytes: &[u8]) -> Result<()> {
        let Some(partition) = self.find(block, offset, bytes.len()) else {
            return Err(Error::OutOfRange);
        };
        let handle = self
            .engine
            .write(WriteBuffer(bytes), &partition, offset as u64);
        let (_, outcome) = handle.into_inner();
        outcome
    }
}
