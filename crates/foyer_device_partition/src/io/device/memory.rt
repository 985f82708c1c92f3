//! A device in memory.
ghost use Rattle.std.specs.Prelude.{◌≡◌, ℕ, ◌/◌, ◌*◌, Some};
ghost use Rattle.foyer_device_partition.specs.Region.{Region, lacks_space, has_all_numbers};
ghost use Rattle.foyer_device_partition.specs.Extent.{laid_from};
ghost use Rattle.foyer_device_partition.specs.Slot.{extent_of};
ghost use Rattle.foyer_device_partition.specs.Unlimited.{unlimited};

use super::paths::one_path;
use super::region::Region;
use super::slot::Slot;
use super::{Device, DeviceBuilder, Partition, PartitionId, RawFile, Throttle};
use foyer_device_page::error::Result;
use std::alloc::Allocator;
use std::rt::Files;

/// Builds a device in memory.
#[derive(Clone, Copy, Debug)]
pub struct MemoryDeviceBuilder {
    capacity: usize,
    throttle: Throttle,
}

impl MemoryDeviceBuilder {
    /// A device of that many bytes, rounded down to whole pages.
    pub fn new(capacity: usize) -> MemoryDeviceBuilder
        ensures capacity { result.capacity ≡ capacity }
        ensures limits { result.throttle ≡ unlimited }
    {
        MemoryDeviceBuilder {
            capacity,
            throttle: Throttle::new(),
        }
    }

    /// The limits of its reads and writes.
    pub fn with_throttle(self, throttle: Throttle) -> MemoryDeviceBuilder
        ensures { result ≡ record self { throttle = throttle } }
    {
        MemoryDeviceBuilder { throttle, ..self }
    }
}

impl<A: Allocator> DeviceBuilder<A> for MemoryDeviceBuilder {
    type Device = MemoryDevice<A>;

    ghost capacity = { λ b. Some (b.capacity / 4096 * 4096) };

    ghost limits = { λ b. b.throttle };

    fn build<R: Files>(self, _rt: &R, alloc: A, now: u64) -> Result<MemoryDevice<A>> {
        Ok(MemoryDevice {
            region: Region::new(alloc, self.capacity),
            throttle: self.throttle,
            since: now,
        })
    }
}

/// Partitions one after another in the bytes of one file, which is in memory.
#[derive(Drop)]
pub struct MemoryDevice<A: Allocator> {
    region: Region<A>,
    throttle: Throttle,
    since: u64,
}

/// A partition of a device in memory.
#[derive(Clone, Copy, Debug)]
pub struct MemoryPartition {
    id: PartitionId,
    slot: Slot,
}

impl Partition for MemoryPartition {
    ghost number = { λ p. p.id };

    ghost bytes = { λ p. p.slot.size };

    ghost extent = { λ p. extent_of p.slot };

    fn id(&self) -> PartitionId {
        self.id
    }

    fn size(&self) -> usize {
        self.slot.size
    }

    fn translate(&self, offset: u64) -> (RawFile, u64) {
        (RawFile(0), self.slot.translate(offset))
    }
}

impl<A: Allocator> Device for MemoryDevice<A> {
    type Partition = MemoryPartition;

    ghost room = { λ d. d.region.room };

    ghost sizes = { λ d. d.region.sizes };

    ghost extents = { λ d. laid_from 0 d.region.sizes };

    ghost file_count = { λ _. 1 };

    ghost lacks_space = { λ d. lacks_space d.region };

    ghost is_full = { λ d. has_all_numbers d.region };

    ghost limits = { λ d. d.throttle };

    ghost built_at = { λ d. d.since };

    fn capacity(&self) -> usize {
        self.region.capacity()
    }

    fn allocated(&self) -> usize {
        self.region.allocated()
    }

    fn partitions(&self) -> usize {
        self.region.partitions()
    }

    fn partition(&self, id: PartitionId) -> MemoryPartition {
        MemoryPartition {
            id,
            slot: self.region.slot(id),
        }
    }

    fn throttle(&self) -> &Throttle {
        &self.throttle
    }

    fn built_at(&self) -> u64 {
        self.since
    }

    fn file_count(&self) -> usize {
        self.region.show();
        1
    }

    fn files<B: Allocator + Clone>(&self, alloc: B) -> Result<Vec<String<B>, B>> {
        one_path(alloc, "")
    }

    fn is_out_of_space(&self, size: usize) -> bool {
        self.region.is_out_of_space(size)
    }

    fn create_partition<R: Files>(&mut self, _rt: &R, size: usize) -> Result<MemoryPartition> {
        let id = self.region.partitions();
        let slot = self.region.create(size)?;
        Ok(MemoryPartition {
            id: id as PartitionId,
            slot,
        })
    }
}
