//! A device of no bytes.
ghost use Rattle.std.specs.Prelude.{◌≡◌, ℕ, Some, false, length};
ghost use Rattle.foyer_device_partition.specs.Region.{has_all_numbers};
ghost use Rattle.foyer_device_partition.specs.Extent.{empty_extents};
ghost use Rattle.foyer_device_partition.specs.Unlimited.{unlimited};

use super::paths::one_path;
use super::sizes::Sizes;
use super::{Device, DeviceBuilder, MAX_PARTITIONS, Partition, PartitionId, RawFile, Throttle};
use foyer_device_page::error::{Error, Result};
use foyer_device_page::io::bytes::PAGE;
use std::alloc::Allocator;
use std::rt::Files;

/// Builds a device of no bytes.
#[derive(Clone, Copy, Debug, Default)]
pub struct NoopDeviceBuilder {
    capacity: usize,
}

impl NoopDeviceBuilder {
    /// A device that claims to have that many bytes.
    pub fn new(capacity: usize) -> NoopDeviceBuilder
        ensures { result.capacity ≡ capacity }
    {
        NoopDeviceBuilder { capacity }
    }
}

impl<A: Allocator> DeviceBuilder<A> for NoopDeviceBuilder {
    type Device = NoopDevice<A>;

    ghost capacity = { λ b. Some b.capacity };

    ghost limits = { λ _. unlimited };

    fn build<R: Files>(self, _rt: &R, alloc: A, now: u64) -> Result<NoopDevice<A>> {
        Ok(NoopDevice {
            capacity: self.capacity,
            sizes: Sizes::new(alloc),
            throttle: Throttle::new(),
            since: now,
        })
    }
}

/// Partitions of any size that have no bytes.
#[derive(Drop)]
pub struct NoopDevice<A: Allocator> {
    capacity: usize,
    sizes: Sizes<A>,
    throttle: Throttle,
    since: u64,
}

/// A partition that has no bytes, whatever its size.
#[derive(Clone, Copy, Debug)]
pub struct NoopPartition {
    id: PartitionId,
    size: usize,
}

impl Partition for NoopPartition {
    ghost number = { λ p. p.id };

    ghost bytes = { λ p. p.size };

    ghost extent = { λ _. record { file = 0; start = 0; len = 0 } };

    fn id(&self) -> PartitionId {
        self.id
    }

    fn size(&self) -> usize {
        self.size
    }

    fn translate(&self, _offset: u64) -> (RawFile, u64) {
        (RawFile(0), 0)
    }
}

impl<A: Allocator> Device for NoopDevice<A> {
    type Partition = NoopPartition;

    ghost room = { λ d. d.capacity };

    ghost sizes = { λ d. d.sizes };

    ghost extents = { λ d. empty_extents d.sizes };

    ghost file_count = { λ _. 1 };

    ghost lacks_space = { λ _ _. false };

    ghost is_full = { λ d. has_all_numbers (record { room = d.capacity; sizes = d.sizes }) };

    ghost limits = { λ d. d.throttle };

    ghost built_at = { λ d. d.since };

    fn capacity(&self) -> usize {
        self.capacity
    }

    fn allocated(&self) -> usize {
        self.sizes.total()
    }

    fn partitions(&self) -> usize {
        self.sizes.len()
    }

    #[tactic(auto, using(crate::proofs::EmptyLemmas::empty_get))]
    fn partition(&self, id: PartitionId) -> NoopPartition {
        NoopPartition {
            id,
            size: self.sizes.size(id),
        }
    }

    fn throttle(&self) -> &Throttle {
        &self.throttle
    }

    fn built_at(&self) -> u64 {
        self.since
    }

    #[tactic(auto, using(crate::proofs::EmptyLemmas::empties))]
    fn file_count(&self) -> usize {
        let _ = &self.capacity;
        1
    }

    fn files<B: Allocator + Clone>(&self, alloc: B) -> Result<Vec<String<B>, B>> {
        one_path(alloc, "")
    }

    fn is_out_of_space(&self, _size: usize) -> bool {
        false
    }

    /// Takes any size of whole pages except 0, whatever the capacity. It never answers NoSpace or Io.
    #[tactic(auto, using(crate::proofs::EmptyLemmas::empty_push))]
    fn create_partition<R: Files>(&mut self, _rt: &R, size: usize) -> Result<NoopPartition> {
        if size == 0 || size % PAGE != 0 || self.sizes.len() >= MAX_PARTITIONS {
            return Err(Error::Config);
        }
        let id = self.sizes.len() as PartitionId;
        self.sizes.push(size)?;
        Ok(NoopPartition { id, size })
    }
}
