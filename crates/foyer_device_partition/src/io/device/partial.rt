//! A part of a device.
ghost use Rattle.std.specs.Prelude.{◌≡◌, ◌≤◌, ◌<◌, ◌-◌, ◌^◌, ◌&&◌, ◌||◌, ℕ, Option, Some, None, length, drop, nat_lt, nat_le};
ghost use Rattle.foyer_device_partition.specs.Extent.{total_size};
ghost use Rattle.foyer_device_partition.specs.Capacity.{part};

use super::{Device, DeviceBuilder, MAX_PARTITIONS, Partition, PartitionId, RawFile, Throttle};
use foyer_device_page::error::{Error, Result};
use foyer_device_page::io::bytes::PAGE;
use std::alloc::Allocator;
use std::rt::Files;

/// Builds a part of a device.
#[derive(Drop)]
pub struct PartialDeviceBuilder<D: Device> {
    device: D,
    capacity: Option<usize>,
}

impl<D: Device> PartialDeviceBuilder<D> {
    /// A part of a device, or of a `&mut` to one. The part has the device's capacity.
    pub fn new(device: D) -> PartialDeviceBuilder<D>
        ensures { (result.device ≡ device) × (result.capacity ≡ None) }
    {
        PartialDeviceBuilder {
            device,
            capacity: None,
        }
    }

    /// That many bytes. `build` answers Config if the device's capacity is smaller.
    pub fn with_capacity(self, capacity: usize) -> PartialDeviceBuilder<D>
        ensures { (result.device ≡ self.device) × (result.capacity ≡ Some capacity) }
    {
        let PartialDeviceBuilder { device, .. } = self;
        PartialDeviceBuilder {
            device,
            capacity: Some(capacity),
        }
    }
}

impl<D: Device, A: Allocator> DeviceBuilder<A> for PartialDeviceBuilder<D> {
    type Device = PartialDevice<D>;

    ghost capacity = { λ b. part b.capacity (D.room b.device) };

    ghost limits = { λ b. D.limits b.device };

    ghost built_at = { λ b _. D.built_at b.device };

    fn build<R: Files>(self, _rt: &R, _alloc: A, _now: u64) -> Result<PartialDevice<D>> {
        let PartialDeviceBuilder { device, capacity } = self;
        let capacity = capacity.unwrap_or(device.capacity());
        if capacity > device.capacity() {
            return Err(Error::Config);
        }
        let first = device.partitions();
        Ok(PartialDevice {
            device,
            first,
            capacity,
            allocated: 0,
        })
    }
}

/// Partitions of a device, which together take no more bytes than the part's own capacity.
#[derive(Drop)]
pub struct PartialDevice<D: Device> {
    device: D,
    // How many partitions the device had before.
    first: usize,
    capacity: usize,
    allocated: usize,
    ghost later: { first ≤ length (D.sizes device) },
    ghost sum: { allocated ≡ total_size (drop first (D.sizes device)) },
}

/// A partition of a part of a device: one of the device, with a number of its own.
#[derive(Clone, Copy, Debug)]
pub struct PartialPartition<P: Partition> {
    id: PartitionId,
    partition: P,
}

impl<P: Partition> Partition for PartialPartition<P> {
    ghost number = { λ p. p.id };

    ghost bytes = { λ p. P.bytes p.partition };

    ghost extent = { λ p. P.extent p.partition };

    fn id(&self) -> PartitionId {
        self.id
    }

    fn size(&self) -> usize {
        self.partition.size()
    }

    fn translate(&self, offset: u64) -> (RawFile, u64) {
        self.partition.translate(offset)
    }
}

impl<D: Device> Device for PartialDevice<D> {
    type Partition = PartialPartition<D::Partition>;

    ghost room = { λ d. d.capacity };

    ghost sizes = { λ d. drop d.first (D.sizes d.device) };

    ghost extents = { λ d. drop d.first (D.extents d.device) };

    ghost file_count = { λ d. D.file_count d.device };

    ghost lacks_space = { λ d n. nat_lt (length (drop d.first (D.sizes d.device))) (2 ^ 32)
        && (nat_lt (d.capacity - total_size (drop d.first (D.sizes d.device))) n
        || D.lacks_space d.device n) };

    ghost is_full = { λ d. nat_le (2 ^ 32) (length (drop d.first (D.sizes d.device)))
        || D.is_full d.device };

    ghost limits = { λ d. D.limits d.device };

    ghost built_at = { λ d. D.built_at d.device };

    fn capacity(&self) -> usize {
        self.capacity
    }

    fn allocated(&self) -> usize {
        self.allocated
    }

    fn partitions(&self) -> usize {
        self.device.partitions() - self.first
    }

    #[tactic(auto, using(crate::proofs::DropLemmas::get_drop))]
    fn partition(&self, id: PartitionId) -> PartialPartition<D::Partition> {
        let _few = self.device.partitions();
        let inner = (self.first + id as usize) as PartitionId;
        PartialPartition {
            id,
            partition: self.device.partition(inner),
        }
    }

    fn throttle(&self) -> &Throttle {
        self.device.throttle()
    }

    fn built_at(&self) -> u64 {
        self.device.built_at()
    }

    #[tactic(auto, using(crate::proofs::DropLemmas::drops))]
    fn file_count(&self) -> usize {
        self.device.file_count()
    }

    fn files<B: Allocator + Clone>(&self, alloc: B) -> Result<Vec<String<B>, B>> {
        self.device.files(alloc)
    }

    fn is_out_of_space(&self, size: usize) -> bool {
        self.device.partitions() - self.first < MAX_PARTITIONS
            && (size > self.capacity.saturating_sub(self.allocated)
                || self.device.is_out_of_space(size))
    }

    fn create_partition<R: Files>(
        &mut self,
        rt: &R,
        size: usize,
    ) -> Result<PartialPartition<D::Partition>> {
        let count = self.device.partitions() - self.first;
        if size == 0 || size % PAGE != 0 || count >= MAX_PARTITIONS {
            return Err(Error::Config);
        }
        if size > self.capacity.saturating_sub(self.allocated) {
            return Err(Error::NoSpace);
        }
        // For the prover: as many extents as sizes.
        let _files = self.device.file_count();
        let partition = self.device.create_partition(rt, size)?;
        self.allocated = self.allocated.saturating_add(size);
        Ok(PartialPartition {
            id: count as PartitionId,
            partition,
        })
    }
}
