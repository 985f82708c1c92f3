//! A device over one file.
ghost use Rattle.std.specs.Prelude.{◌≡◌, ℕ, ◌/◌, ◌*◌, Option, Some, None};
ghost use Rattle.foyer_device_partition.specs.Region.{Region, lacks_space, has_all_numbers};
ghost use Rattle.foyer_device_partition.specs.Extent.{laid_from};
ghost use Rattle.foyer_device_partition.specs.Slot.{extent_of};
ghost use Rattle.foyer_device_partition.specs.Capacity.{rounded};
ghost use Rattle.foyer_device_partition.specs.Unlimited.{unlimited};

use super::paths::{lay_file, one_path};
use super::region::Region;
use super::slot::Slot;
use super::{Device, DeviceBuilder, Partition, PartitionId, RawFile, Throttle};
use foyer_device_page::error::{Error, Result};
use foyer_device_page::io::bytes::PAGE;
use std::alloc::Allocator;
use std::rt::Files;

/// Builds a device over one file.
#[derive(Clone, Copy, Debug)]
pub struct FileDeviceBuilder<'a> {
    path: &'a str,
    capacity: Option<usize>,
    throttle: Throttle,
}

impl<'a> FileDeviceBuilder<'a> {
    /// Begins a device over the file at a path. `build` makes the file if it is missing, and answers
    /// Config if no capacity was given.
    pub fn new(path: &'a str) -> FileDeviceBuilder<'a>
        ensures capacity { result.capacity ≡ None }
        ensures limits { result.throttle ≡ unlimited }
    {
        FileDeviceBuilder {
            path,
            capacity: None,
            throttle: Throttle::new(),
        }
    }

    /// That many bytes, rounded down to whole pages.
    pub fn with_capacity(self, capacity: usize) -> FileDeviceBuilder<'a>
        ensures capacity { result.capacity ≡ Some capacity }
        ensures limits { result.throttle ≡ self.entry.throttle }
    {
        FileDeviceBuilder {
            capacity: Some(capacity),
            ..self
        }
    }

    /// The limits of its reads and writes.
    pub fn with_throttle(self, throttle: Throttle) -> FileDeviceBuilder<'a>
        ensures capacity { result.capacity ≡ self.entry.capacity }
        ensures limits { result.throttle ≡ throttle }
    {
        FileDeviceBuilder { throttle, ..self }
    }
}

impl<A: Allocator + Clone> DeviceBuilder<A> for FileDeviceBuilder<'_> {
    type Device = FileDevice<A>;

    ghost capacity = { λ b. rounded b.capacity };

    ghost limits = { λ b. b.throttle };

    /// The file gets exactly the capacity's length: a shorter one is lengthened by zeros, a longer one cut.
    fn build<R: Files>(self, rt: &R, alloc: A, now: u64) -> Result<FileDevice<A>> {
        let Some(capacity) = self.capacity else {
            return Err(Error::Config);
        };
        let path = String::from_str(alloc.clone()?, self.path)?;
        if lay_file(rt, self.path, capacity / PAGE * PAGE).is_err() {
            return Err(Error::Io);
        }
        Ok(FileDevice {
            path,
            region: Region::new(alloc, capacity),
            throttle: self.throttle,
            since: now,
        })
    }
}

/// Partitions one after another in a file.
#[derive(Drop)]
pub struct FileDevice<A: Allocator> {
    path: String<A>,
    region: Region<A>,
    throttle: Throttle,
    since: u64,
}

/// A partition of a device over one file.
#[derive(Clone, Copy, Debug)]
pub struct FilePartition {
    id: PartitionId,
    slot: Slot,
}

impl Partition for FilePartition {
    ghost number = { λ p. p.id };

    ghost bytes = { λ p. p.slot.size };

    ghost extent = { λ p. extent_of p.slot };

    fn id(&self) -> PartitionId {
        self.id
    }

    fn size(&self) -> usize {
        self.slot.size
    }

    fn translate(&self, offset: u64) -> (RawFile, u64) {
        (RawFile(0), self.slot.translate(offset))
    }
}

impl<A: Allocator> Device for FileDevice<A> {
    type Partition = FilePartition;

    ghost room = { λ d. d.region.room };

    ghost sizes = { λ d. d.region.sizes };

    ghost extents = { λ d. laid_from 0 d.region.sizes };

    ghost file_count = { λ _. 1 };

    ghost lacks_space = { λ d. lacks_space d.region };

    ghost is_full = { λ d. has_all_numbers d.region };

    ghost limits = { λ d. d.throttle };

    ghost built_at = { λ d. d.since };

    fn capacity(&self) -> usize {
        self.region.capacity()
    }

    fn allocated(&self) -> usize {
        self.region.allocated()
    }

    fn partitions(&self) -> usize {
        self.region.partitions()
    }

    fn partition(&self, id: PartitionId) -> FilePartition {
        FilePartition {
            id,
            slot: self.region.slot(id),
        }
    }

    fn throttle(&self) -> &Throttle {
        &self.throttle
    }

    fn built_at(&self) -> u64 {
        self.since
    }

    fn file_count(&self) -> usize {
        self.region.show();
        1
    }

    fn files<B: Allocator + Clone>(&self, alloc: B) -> Result<Vec<String<B>, B>> {
        one_path(alloc, self.path.as_str())
    }

    fn is_out_of_space(&self, size: usize) -> bool {
        self.region.is_out_of_space(size)
    }

    fn create_partition<R: Files>(&mut self, _rt: &R, size: usize) -> Result<FilePartition> {
        let id = self.region.partitions();
        let slot = self.region.create(size)?;
        Ok(FilePartition {
            id: id as PartitionId,
            slot,
        })
    }
}
