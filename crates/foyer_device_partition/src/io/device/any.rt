//! A device of one of several kinds.
use super::file::{FileDevice, FilePartition};
use super::fs::{FsDevice, FsPartition};
use super::memory::{MemoryDevice, MemoryPartition};
use super::noop::{NoopDevice, NoopPartition};
use super::{Device, Partition, PartitionId, RawFile, Throttle};
use foyer_device_page::error::Result;
use std::alloc::Allocator;
use std::rt::Files;

/// A device of one of the kinds that have files or memory of their own, or none.
#[derive(Drop)]
pub enum AnyDevice<A: Allocator> {
    /// In one file.
    File(FileDevice<A>),
    /// A directory with a file for each partition.
    Fs(FsDevice<A>),
    /// In memory.
    Memory(MemoryDevice<A>),
    /// One that keeps nothing.
    Noop(NoopDevice<A>),
}

/// A partition of a device of one of several kinds.
#[derive(Clone, Copy, Debug)]
pub enum AnyPartition {
    /// Of a file.
    File(FilePartition),
    /// Of a directory.
    Fs(FsPartition),
    /// Of memory.
    Memory(MemoryPartition),
    /// Of a device that keeps nothing.
    Noop(NoopPartition),
}

impl Partition for AnyPartition {
    ghost use Rattle.foyer_device_partition.specs.declared.io.device.any.AnyPartition.TheVariants as partition;

    ghost number = { elim [
      | partition.File x ↦ ⟦<FilePartition as Partition>⟧.number x
      | partition.Fs x ↦ ⟦<FsPartition as Partition>⟧.number x
      | partition.Memory x ↦ ⟦<MemoryPartition as Partition>⟧.number x
      | partition.Noop x ↦ ⟦<NoopPartition as Partition>⟧.number x
    ] };

    ghost bytes = { elim [
      | partition.File x ↦ ⟦<FilePartition as Partition>⟧.bytes x
      | partition.Fs x ↦ ⟦<FsPartition as Partition>⟧.bytes x
      | partition.Memory x ↦ ⟦<MemoryPartition as Partition>⟧.bytes x
      | partition.Noop x ↦ ⟦<NoopPartition as Partition>⟧.bytes x
    ] };

    ghost extent = { elim [
      | partition.File x ↦ ⟦<FilePartition as Partition>⟧.extent x
      | partition.Fs x ↦ ⟦<FsPartition as Partition>⟧.extent x
      | partition.Memory x ↦ ⟦<MemoryPartition as Partition>⟧.extent x
      | partition.Noop x ↦ ⟦<NoopPartition as Partition>⟧.extent x
    ] };

    fn id(&self) -> PartitionId {
        match self {
            AnyPartition::File(x) => x.id(),
            AnyPartition::Fs(x) => x.id(),
            AnyPartition::Memory(x) => x.id(),
            AnyPartition::Noop(x) => x.id(),
        }
    }

    fn size(&self) -> usize {
        match self {
            AnyPartition::File(x) => x.size(),
            AnyPartition::Fs(x) => x.size(),
            AnyPartition::Memory(x) => x.size(),
            AnyPartition::Noop(x) => x.size(),
        }
    }

    fn translate(&self, offset: u64) -> (RawFile, u64) {
        match self {
            AnyPartition::File(x) => x.translate(offset),
            AnyPartition::Fs(x) => x.translate(offset),
            AnyPartition::Memory(x) => x.translate(offset),
            AnyPartition::Noop(x) => x.translate(offset),
        }
    }
}

impl<A: Allocator> Device for AnyDevice<A> {
    ghost use Rattle.foyer_device_partition.specs.declared.io.device.any.AnyDevice.TheVariants as device;

    type Partition = AnyPartition;

    ghost room = { elim [
      | device.File x ↦ ⟦<FileDevice<A> as Device>⟧.room x
      | device.Fs x ↦ ⟦<FsDevice<A> as Device>⟧.room x
      | device.Memory x ↦ ⟦<MemoryDevice<A> as Device>⟧.room x
      | device.Noop x ↦ ⟦<NoopDevice<A> as Device>⟧.room x
    ] };

    ghost sizes = { elim [
      | device.File x ↦ ⟦<FileDevice<A> as Device>⟧.sizes x
      | device.Fs x ↦ ⟦<FsDevice<A> as Device>⟧.sizes x
      | device.Memory x ↦ ⟦<MemoryDevice<A> as Device>⟧.sizes x
      | device.Noop x ↦ ⟦<NoopDevice<A> as Device>⟧.sizes x
    ] };

    ghost extents = { elim [
      | device.File x ↦ ⟦<FileDevice<A> as Device>⟧.extents x
      | device.Fs x ↦ ⟦<FsDevice<A> as Device>⟧.extents x
      | device.Memory x ↦ ⟦<MemoryDevice<A> as Device>⟧.extents x
      | device.Noop x ↦ ⟦<NoopDevice<A> as Device>⟧.extents x
    ] };

    ghost file_count = { elim [
      | device.File x ↦ ⟦<FileDevice<A> as Device>⟧.file_count x
      | device.Fs x ↦ ⟦<FsDevice<A> as Device>⟧.file_count x
      | device.Memory x ↦ ⟦<MemoryDevice<A> as Device>⟧.file_count x
      | device.Noop x ↦ ⟦<NoopDevice<A> as Device>⟧.file_count x
    ] };

    ghost lacks_space = { elim [
      | device.File x ↦ ⟦<FileDevice<A> as Device>⟧.lacks_space x
      | device.Fs x ↦ ⟦<FsDevice<A> as Device>⟧.lacks_space x
      | device.Memory x ↦ ⟦<MemoryDevice<A> as Device>⟧.lacks_space x
      | device.Noop x ↦ ⟦<NoopDevice<A> as Device>⟧.lacks_space x
    ] };

    ghost is_full = { elim [
      | device.File x ↦ ⟦<FileDevice<A> as Device>⟧.is_full x
      | device.Fs x ↦ ⟦<FsDevice<A> as Device>⟧.is_full x
      | device.Memory x ↦ ⟦<MemoryDevice<A> as Device>⟧.is_full x
      | device.Noop x ↦ ⟦<NoopDevice<A> as Device>⟧.is_full x
    ] };

    ghost limits = { elim [
      | device.File x ↦ ⟦<FileDevice<A> as Device>⟧.limits x
      | device.Fs x ↦ ⟦<FsDevice<A> as Device>⟧.limits x
      | device.Memory x ↦ ⟦<MemoryDevice<A> as Device>⟧.limits x
      | device.Noop x ↦ ⟦<NoopDevice<A> as Device>⟧.limits x
    ] };

    ghost built_at = { elim [
      | device.File x ↦ ⟦<FileDevice<A> as Device>⟧.built_at x
      | device.Fs x ↦ ⟦<FsDevice<A> as Device>⟧.built_at x
      | device.Memory x ↦ ⟦<MemoryDevice<A> as Device>⟧.built_at x
      | device.Noop x ↦ ⟦<NoopDevice<A> as Device>⟧.built_at x
    ] };

    fn capacity(&self) -> usize {
        match self {
            AnyDevice::File(x) => x.capacity(),
            AnyDevice::Fs(x) => x.capacity(),
            AnyDevice::Memory(x) => x.capacity(),
            AnyDevice::Noop(x) => x.capacity(),
        }
    }

    fn allocated(&self) -> usize {
        match self {
            AnyDevice::File(x) => x.allocated(),
            AnyDevice::Fs(x) => x.allocated(),
            AnyDevice::Memory(x) => x.allocated(),
            AnyDevice::Noop(x) => x.allocated(),
        }
    }

    fn partitions(&self) -> usize {
        match self {
            AnyDevice::File(x) => x.partitions(),
            AnyDevice::Fs(x) => x.partitions(),
            AnyDevice::Memory(x) => x.partitions(),
            AnyDevice::Noop(x) => x.partitions(),
        }
    }

    fn partition(&self, id: PartitionId) -> AnyPartition {
        match self {
            AnyDevice::File(x) => AnyPartition::File(x.partition(id)),
            AnyDevice::Fs(x) => AnyPartition::Fs(x.partition(id)),
            AnyDevice::Memory(x) => AnyPartition::Memory(x.partition(id)),
            AnyDevice::Noop(x) => AnyPartition::Noop(x.partition(id)),
        }
    }

    fn throttle(&self) -> &Throttle {
        match self {
            AnyDevice::File(x) => x.throttle(),
            AnyDevice::Fs(x) => x.throttle(),
            AnyDevice::Memory(x) => x.throttle(),
            AnyDevice::Noop(x) => x.throttle(),
        }
    }

    fn built_at(&self) -> u64 {
        match self {
            AnyDevice::File(x) => x.built_at(),
            AnyDevice::Fs(x) => x.built_at(),
            AnyDevice::Memory(x) => x.built_at(),
            AnyDevice::Noop(x) => x.built_at(),
        }
    }

    fn file_count(&self) -> usize {
        match self {
            AnyDevice::File(x) => x.file_count(),
            AnyDevice::Fs(x) => x.file_count(),
            AnyDevice::Memory(x) => x.file_count(),
            AnyDevice::Noop(x) => x.file_count(),
        }
    }

    fn files<B: Allocator + Clone>(&self, alloc: B) -> Result<Vec<String<B>, B>> {
        match self {
            AnyDevice::File(x) => x.files(alloc),
            AnyDevice::Fs(x) => x.files(alloc),
            AnyDevice::Memory(x) => x.files(alloc),
            AnyDevice::Noop(x) => x.files(alloc),
        }
    }

    fn is_out_of_space(&self, size: usize) -> bool {
        match self {
            AnyDevice::File(x) => x.is_out_of_space(size),
            AnyDevice::Fs(x) => x.is_out_of_space(size),
            AnyDevice::Memory(x) => x.is_out_of_space(size),
            AnyDevice::Noop(x) => x.is_out_of_space(size),
        }
    }

    fn create_partition<R: Files>(&mut self, rt: &R, size: usize) -> Result<AnyPartition> {
        match self {
            AnyDevice::File(x) => Ok(AnyPartition::File(x.create_partition(rt, size)?)),
            AnyDevice::Fs(x) => Ok(AnyPartition::Fs(x.create_partition(rt, size)?)),
            AnyDevice::Memory(x) => Ok(AnyPartition::Memory(x.create_partition(rt, size)?)),
            AnyDevice::Noop(x) => Ok(AnyPartition::Noop(x.create_partition(rt, size)?)),
        }
    }
}
