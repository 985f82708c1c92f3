//! Several devices as one.
ghost use Rattle.std.specs.Prelude.{◌≡◌, ◌⊎◌, ◌↔◌, ◌+◌, ◌-◌, ◌^◌, ◌<◌, ◌≤◌, ◌&&◌, ◌||◌, ℕ, List, [], ◌∷◌, ◌++◌, Option, Some, None, IsTrue, IfOk, IfErr, OnOk, OnErr, length, vec_len, nat_lt, nat_le, drop, slice_get, sum_by, min, not, false};
ghost use Rattle.std.specs.List.{list_all, list_any};
ghost use Rattle.foyer_device_partition.specs.Combined.{Combined, shift};
ghost use Rattle.foyer_device_partition.specs.Capacity.{combined_capacity};
ghost use Rattle.foyer_device_partition.specs.Extent.{IsPartitionSize};
ghost use Rattle.foyer_device_partition.specs.Unlimited.{unlimited};
ghost use Rattle.foyer_device_page.specs.declared.error.Error.TheVariants as error;

use super::{Device, DeviceBuilder, MAX_PARTITIONS, Partition, PartitionId, RawFile, Throttle};
use foyer_device_page::error::{Error, Result};
use foyer_device_page::io::bytes::PAGE;
use std::alloc::{AllocError, Allocator};
use std::fmt;
use std::fmt::{Debug, Formatter};
use std::marker::Model;
use std::rt::Files;

/// Builds a device over several of one type.
#[derive(Drop)]
pub struct CombinedDeviceBuilder<D: Device, A: Allocator> {
    devices: Vec<D, A>,
    throttle: Throttle,
}

/// The type's name.
impl<D: Device, A: Allocator> Debug for CombinedDeviceBuilder<D, A> {
    fn fmt<W: fmt::Write>(&self, f: &mut Formatter<W>) -> fmt::Result {
        f.write_str("CombinedDeviceBuilder")
    }
}

impl<D: Device, A: Allocator> CombinedDeviceBuilder<D, A> {
    /// No devices yet, and no limits.
    pub fn new(alloc: A) -> CombinedDeviceBuilder<D, A>
        ensures none { result.devices.items ≡ [] }
        ensures limits { result.throttle ≡ unlimited }
    {
        CombinedDeviceBuilder {
            devices: Vec::new(alloc),
            throttle: Throttle::new(),
        }
    }

    /// Adds a device after the others. Partitions that it has already don't belong to the combined device. Error:
    /// Memory. Then all the devices are dropped.
    pub fn with_device(self, device: D) -> Result<CombinedDeviceBuilder<D, A>>
        ensures added { IfOk result (λ b. b.devices.items ≡ self.devices.items ++ device ∷ []) }
        ensures limits { IfOk result (λ b. b.throttle ≡ self.throttle) }
        ensures memory { OnErr result (result ≡ Err error.Memory) }
    {
        let CombinedDeviceBuilder {
            mut devices,
            throttle,
        } = self;
        devices.push(device)?;
        Ok(CombinedDeviceBuilder { devices, throttle })
    }

    /// The limits of its reads and writes.
    pub fn with_throttle(self, throttle: Throttle) -> CombinedDeviceBuilder<D, A>
        ensures devices { result.devices.items ≡ self.devices.items }
        ensures limits { result.throttle ≡ throttle }
    {
        let CombinedDeviceBuilder { devices, .. } = self;
        CombinedDeviceBuilder { devices, throttle }
    }
}

// The sum of the devices' capacities, saturating.
fn capacity_of<D: Device>(devices: &[D]) -> usize
    ensures { result ≡ min (sum_by D.room devices.now) (2 ^ 64 - 1) }
{
    let mut sum = 0usize;
    for device in devices {
        sum = sum.saturating_add(device.capacity());
    }
    sum
}

// How many files the devices have, saturating.
fn files_of<D: Device>(devices: &[D]) -> usize
    ensures { result ≡ min (sum_by D.file_count devices.now) (2 ^ 64 - 1) }
{
    let mut sum = 0usize;
    for device in devices {
        sum = sum.saturating_add(device.file_count());
    }
    sum
}

// Whether none of the devices has space.
fn all_lack_space<D: Device>(devices: &[D], size: usize) -> bool
    ensures { result ≡ list_all (λ d. D.lacks_space d size) devices.now }
{
    devices.iter().all(|device| device.is_out_of_space(size))
}

// How many partitions the device at that place has, if there is one.
fn first_count<D: Device>(devices: &[D], at: usize) -> usize
    ensures { (d : D) → slice_get devices.now at ≡ Some d → result ≡ length (D.extents d) }
{
    match devices.get(at) {
        Some(device) => {
            // For the prover: as many extents as sizes.
            let _files = device.file_count();
            device.partitions()
        }
        None => 0,
    }
}

impl<D: Device, A: Allocator + Clone> DeviceBuilder<A> for CombinedDeviceBuilder<D, A> {
    type Device = CombinedDevice<D, A>;

    ghost capacity = { λ b. combined_capacity (sum_by D.room b.devices.items)
        (sum_by D.file_count b.devices.items) };

    ghost limits = { λ b. b.throttle };

    /// Builds the combined device. Error: Config if the devices have more files than there are numbers of files.
    fn build<R: Files>(self, _rt: &R, alloc: A, now: u64) -> Result<CombinedDevice<D, A>> {
        let CombinedDeviceBuilder { devices, throttle } = self;
        let capacity = capacity_of(devices.as_slice());
        let files = files_of(devices.as_slice());
        if files > MAX_PARTITIONS {
            return Err(Error::Config);
        }
        let first = first_count(devices.as_slice(), 0);
        Ok(CombinedDevice {
            devices,
            present: 0,
            base: 0,
            earlier: 0,
            first,
            partitions: Vec::new(alloc),
            files,
            allocated: 0,
            capacity,
            throttle,
            since: now,
        })
    }
}

/// Several devices. One of them is the present device, in which partitions are made. If it has no space for a size, the
/// next device becomes the present one. The combined device never returns to an earlier device, even if a smaller size
/// would fit there. So after one NoSpace it takes no more partitions.
#[derive(Drop)]
pub struct CombinedDevice<D: Device, A: Allocator> {
    devices: Vec<D, A>,
    // The number of the one that is asked.
    present: usize,
    // How many files those before it have.
    base: usize,
    // How many partitions there were when it became the present one, and how many it had itself.
    earlier: usize,
    first: usize,
    partitions: Vec<CombinedPartition<D::Partition>, A>,
    // How many files the devices have.
    files: usize,
    allocated: usize,
    capacity: usize,
    throttle: Throttle,
    since: u64,
}

impl<D: Device, A: Allocator> Model for CombinedDevice<D, A> {
    ghost use Rattle.std.specs.Prelude.{◌≡◌, ◌≤◌, ◌^◌, length, map};
    ghost use Rattle.foyer_device_partition.specs.Combined.{Combined, Combines, shift};
    ghost use Rattle.foyer_device_partition.specs.Extent.{total_size};

    ghost Value = { Combined D };

    ghost view = { λ c. record {
      devices = c.devices.items;
      present = c.present;
      room = c.capacity;
      sizes = map (λ p. D.Partition.bytes p.partition) c.partitions.items;
      extents = map (λ p. shift p.base (D.Partition.extent p.partition)) c.partitions.items;
      files = c.files;
      limits = c.throttle;
      since = c.since;
    } };

    ghost invariant = { λ c.
        Combines D.file_count D.extents c.devices.items c.present c.base c.earlier c.first c.files
        (map (λ p. shift p.base (D.Partition.extent p.partition)) c.partitions.items)
        × (c.files ≤ 2 ^ 32) × (length c.partitions.items ≤ 2 ^ 32)
        × (c.allocated ≡ total_size (map (λ p. D.Partition.bytes p.partition) c.partitions.items)) };
}

impl<D: Device, A: Allocator> CombinedDevice<D, A> {
    // Leaves the present device.
    fn advance(&mut self)
        requires { self.old.present < length self.old.devices }
        ensures { self.new ≡ record self.old { present = self.old.present + 1 } }
    {
        let count = self.devices[self.present].file_count();
        self.base += count;
        self.present += 1;
        self.earlier = self.partitions.len();
        self.first = first_count(self.devices.as_slice(), self.present);
    }

    // Leaves each device that has no space, up to one that has. Gives false if there is none.
    fn settle(&mut self, size: usize) -> bool
        ensures never_back { self.old.present ≤ self.new.present }
        ensures same { self.new ≡ record self.old { present = self.new.present } }
        ensures left { list_all (λ d. D.lacks_space d size) (drop self.new.present self.new.devices)
            ≡ list_all (λ d. D.lacks_space d size) (drop self.old.present self.old.devices) }
        ensures none { result ≡ not (list_all (λ d. D.lacks_space d size)
            (drop self.old.present self.old.devices)) }
        ensures found { IsTrue result → (self.new.present < length self.new.devices)
            × ((d : D) → slice_get self.new.devices self.new.present ≡ Some d
            → D.lacks_space d size ≡ false) }
    {
        while self.present < self.devices.len() {
            if !self.devices[self.present].is_out_of_space(size) {
                return true;
            }
            self.advance();
        }
        false
    }

    // Asks the present device.
    fn ask<R: Files>(&mut self, rt: &R, size: usize) -> Result<CombinedPartition<D::Partition>>
        requires here { self.old.present < length self.old.devices }
        requires numbers { length self.old.sizes < 2 ^ 32 }
        requires files { self.old.files < 2 ^ 32 }
        requires space { (d : D) → slice_get self.old.devices self.old.present ≡ Some d
            → D.lacks_space d size ≡ false }
        ensures made { IfOk result (λ p. (self.new.sizes ≡ self.old.sizes ++ size ∷ [])
            × (self.new.extents ≡ self.old.extents ++ shift p.base (D.Partition.extent p.partition) ∷ [])
            × (p.id ≡ length self.old.sizes) × (D.Partition.bytes p.partition ≡ size)) }
        ensures kept { OnErr result ((self.new.sizes ≡ self.old.sizes)
            × (self.new.extents ≡ self.old.extents) × (self.new.files ≡ self.old.files)) }
        ensures refused { IfErr result (λ e. ((e ≡ error.Config) × ((¬ IsPartitionSize size)
            ⊎ IsTrue (list_any D.is_full (drop self.old.present self.old.devices))))
            ⊎ (e ≡ error.Io) ⊎ (e ≡ error.Memory)) }
        ensures stays { (self.new.present ≡ self.old.present) × (self.new.room ≡ self.old.room)
            × (self.new.limits ≡ self.old.limits) × (self.new.since ≡ self.old.since) }
        ensures files { (self.old.files ≤ self.new.files) × (self.new.files ≤ self.old.files + 1) }
    {
        self.partitions.reserve(1)?;
        let id = self.partitions.len() as PartitionId;
        let base = self.base as u32;
        let device = &mut self.devices[self.present];
        let before = device.file_count();
        let answer = device.create_partition(rt, size);
        let after = device.file_count();
        self.files += after - before;
        let partition = match answer {
            Ok(partition) => partition,
            Err(e) => return Err(e),
        };
        let partition = CombinedPartition {
            id,
            base,
            partition,
        };
        self.partitions.push_reserved(partition);
        self.allocated = self.allocated.saturating_add(size);
        Ok(partition)
    }
}

/// A partition of a combined device: a partition of one of its devices, with a number of its own. The numbers of that
/// device's files follow those of the devices before.
#[derive(Copy, Debug)]
pub struct CombinedPartition<P: Partition> {
    id: PartitionId,
    base: u32,
    partition: P,
    ghost numbered: { base + (P.extent partition).file < 2 ^ 32 },
}

impl<P: Partition + Copy> Clone for CombinedPartition<P> {
    ghost use Rattle.std.specs.Prelude.{◌≡◌, ⊤};

    ghost is_clone = { λ p q. q ≡ p };

    ghost is_infallible = { λ _. ⊤ };

    fn clone(&self) -> std::result::Result<CombinedPartition<P>, AllocError> {
        Ok(*self)
    }
}

impl<P: Partition> Partition for CombinedPartition<P> {
    ghost number = { λ p. p.id };

    ghost bytes = { λ p. P.bytes p.partition };

    ghost extent = { λ p. shift p.base (P.extent p.partition) };

    fn id(&self) -> PartitionId {
        self.id
    }

    fn size(&self) -> usize {
        self.partition.size()
    }

    fn translate(&self, offset: u64) -> (RawFile, u64) {
        let (file, at) = self.partition.translate(offset);
        (RawFile(self.base + file.0), at)
    }
}

impl<D: Device, A: Allocator> Device for CombinedDevice<D, A> {
    type Partition = CombinedPartition<D::Partition>;

    ghost room = { λ c. c.room };

    ghost sizes = { λ c. c.sizes };

    ghost extents = { λ c. c.extents };

    ghost file_count = { λ c. c.files };

    ghost lacks_space = { λ c n. nat_lt (length c.sizes) (2 ^ 32) && (nat_lt c.files (2 ^ 32)
        && list_all (λ d. D.lacks_space d n) (drop c.present c.devices)) };

    ghost is_full = { λ c. nat_le (2 ^ 32) (length c.sizes) || (nat_le (2 ^ 32) c.files
        || list_any D.is_full (drop c.present c.devices)) };

    ghost limits = { λ c. c.limits };

    ghost built_at = { λ c. c.since };

    fn capacity(&self) -> usize {
        self.capacity
    }

    fn allocated(&self) -> usize {
        self.allocated
    }

    fn partitions(&self) -> usize {
        self.partitions.len()
    }

    fn partition(&self, id: PartitionId) -> CombinedPartition<D::Partition> {
        let found = self.partitions[id as usize];
        CombinedPartition {
            id,
            base: found.base,
            partition: found.partition,
        }
    }

    fn throttle(&self) -> &Throttle {
        &self.throttle
    }

    fn built_at(&self) -> u64 {
        self.since
    }

    fn file_count(&self) -> usize {
        self.files
    }

    fn files<B: Allocator + Clone>(&self, alloc: B) -> Result<Vec<String<B>, B>> {
        let mut paths = Vec::new(alloc.clone()?);
        for device in &self.devices {
            let mut more = device.files(alloc.clone()?)?;
            paths.append(&mut more)?;
        }
        Ok(paths)
    }

    fn is_out_of_space(&self, size: usize) -> bool {
        if self.partitions.len() >= MAX_PARTITIONS || self.files >= MAX_PARTITIONS {
            return false;
        }
        all_lack_space(&self.devices.as_slice()[self.present..], size)
    }

    fn create_partition<R: Files>(
        &mut self,
        rt: &R,
        size: usize,
    ) -> Result<CombinedPartition<D::Partition>> {
        if size == 0 || size % PAGE != 0 || self.partitions.len() >= MAX_PARTITIONS {
            return Err(Error::Config);
        }
        if self.files >= MAX_PARTITIONS {
            return Err(Error::Config);
        }
        if !self.settle(size) {
            return Err(Error::NoSpace);
        }
        self.ask(rt, size)
    }
}
