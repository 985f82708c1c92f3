//! Devices and their partitions.
ghost use Rattle.std.specs.Prelude.{◌≡◌, ◌≢◌, ◌⊎◌, ◌+◌, ◌-◌, ◌<◌, ◌≤◌, ◌^◌, ◌↔◌, ℕ, List, [], ◌∷◌, ◌++◌, Bool, Option, Some, None, IsTrue, IfOk, IfErr, OnErr, length, vec_len, slice_get};
ghost use Rattle.foyer_device_partition.specs.Extent.{Extent, place, AreDisjoint, LieInFiles, IsPartitionSize, total_size};
ghost use Rattle.foyer_device_page.specs.declared.error.Error.TheVariants as error;

mod any;
mod combined;
mod faults;
mod file;
mod fs;
mod memory;
mod noop;
mod partial;
mod paths;
mod region;
mod sizes;
mod slot;

pub use any::{AnyDevice, AnyPartition};
pub use combined::{CombinedDevice, CombinedDeviceBuilder, CombinedPartition};
pub use faults::{FileFault, FileFaults};
pub use file::{FileDevice, FileDeviceBuilder, FilePartition};
use foyer_device_page::error::Result;
pub use foyer_device_throttle::{IopsCounter, Throttle};
pub use fs::{FsDevice, FsDeviceBuilder, FsPartition, partition_path};
pub use memory::{MemoryDevice, MemoryDeviceBuilder, MemoryPartition};
pub use noop::{NoopDevice, NoopDeviceBuilder, NoopPartition};
pub use partial::{PartialDevice, PartialDeviceBuilder, PartialPartition};
use std::alloc::Allocator;
use std::rt::Files;

/// The number of a partition of a device, from 0 on.
pub type PartitionId = u32;

/// The number of a file of a device, from 0 on.
#[derive(Clone, Copy, Debug, PartialEq, Eq)]
pub struct RawFile(pub u32);

/// The most partitions that a device has.
pub const MAX_PARTITIONS: usize = 4294967296;

/// A range of a device's bytes.
pub trait Partition {
    // Its number.
    ghost number: { Self → ℕ };

    // Its bytes.
    ghost bytes: { Self → ℕ };

    // Where they lie; a partition of a noop device has none.
    ghost extent: { Self → Extent };

    /// Its number.
    fn id(&self) -> PartitionId
        ensures { result ≡ number self.now };

    /// Its size in bytes.
    fn size(&self) -> usize
        ensures { result ≡ bytes self.now };

    /// Gives the file in which an offset of the partition lies, and where the offset lies in that file. An offset
    /// past the end counts as the end.
    fn translate(&self, offset: u64) -> (RawFile, u64)
        ensures file { result.0.0 ≡ (extent self.now).file }
        ensures place { result.1 ≡ place (extent self.now) offset };
}

/// Bytes in which partitions are made.
pub trait Device: Drop {
    ghost use Rattle.foyer_device_throttle.specs.declared.throttle.Throttle.{Throttle};

    type Partition: Partition + Copy;

    // The bytes that its partitions take together at most.
    ghost room: { Self → ℕ };

    // The sizes of its partitions, and where they lie, in order of their ids.
    ghost sizes: { Self → List ℕ };

    ghost extents: { Self → List Extent };

    // How many files it has.
    ghost file_count: { Self → ℕ };

    // Whether a partition of a size finds no space.
    ghost lacks_space: { Self → ℕ → Bool };

    // Whether it takes no more partitions, of whatever size.
    ghost is_full: { Self → Bool };

    // The limits of its reads and writes, and the moment at which it was built.
    ghost limits: { Self → Throttle };

    ghost built_at: { Self → ℕ };

    /// The capacity in bytes. That of a file, a directory or a memory device is rounded down to whole pages.
    fn capacity(&self) -> usize
        ensures { result ≡ room self.now };

    /// The sum of its partitions' sizes, saturating.
    fn allocated(&self) -> usize
        ensures { result ≡ total_size (sizes self.now) };

    /// The capacity minus what is allocated, saturating at 0.
    fn free(&self) -> usize
        ensures { result ≡ room self.now - total_size (sizes self.now) }
    {
        self.capacity().saturating_sub(self.allocated())
    }

    /// How many partitions it has.
    fn partitions(&self) -> usize
        ensures count { result ≡ length (sizes self.now) }
        ensures few { length (sizes self.now) ≤ 2 ^ 32 };

    /// The partition of that number.
    fn partition(&self, id: PartitionId) -> Self::Partition
        requires { id < length (sizes self.now) }
        ensures id { Self.Partition.number result ≡ id }
        ensures size { slice_get (sizes self.now) id ≡ Some (Self.Partition.bytes result) }
        ensures extent { slice_get (extents self.now) id ≡ Some (Self.Partition.extent result) };

    /// The limits of its reads and writes.
    fn throttle(&self) -> &Throttle
        ensures { result.now ≡ limits self.now };

    /// The moment at which it was built, in nanoseconds. A partial device has its device's.
    fn built_at(&self) -> u64
        ensures { result ≡ built_at self.now };

    /// How many files it has. Its partitions lie in these files, and no two partitions share a byte.
    fn file_count(&self) -> usize
        ensures count { result ≡ file_count self.now }
        ensures apart { AreDisjoint (extents self.now) }
        ensures within { LieInFiles (file_count self.now) (extents self.now) }
        ensures each { length (extents self.now) ≡ length (sizes self.now) };

    /// Gives the path of each file number, or an empty path if there is no file. Error: Memory.
    fn files<B: Allocator + Clone>(&self, alloc: B) -> Result<Vec<String<B>, B>>
        ensures count { IfOk result (λ paths. vec_len paths ≡ file_count self.now) }
        ensures memory { OnErr result (result ≡ Err error.Memory) };

    /// Says whether `create_partition` answers NoSpace to this size, if the size is one of whole pages.
    fn is_out_of_space(&self, size: usize) -> bool
        ensures { result ≡ lacks_space self.now size };

    /// Makes a partition of that many bytes. Errors: Config if the size is 0 or not of whole pages, or if no number is
    /// left for a partition or a file; NoSpace if `is_out_of_space` gives true; Io if a file couldn't be made or sized;
    /// Memory. After an error the partitions are as before.
    fn create_partition<R: Files>(&mut self, rt: &R, size: usize) -> Result<Self::Partition>
        ensures made { IfOk result (λ p. (sizes self.new ≡ sizes self.old ++ size ∷ [])
            × (extents self.new ≡ extents self.old ++ Self.Partition.extent p ∷ [])
            × (Self.Partition.number p ≡ length (sizes self.old)) × (Self.Partition.bytes p ≡ size)) }
        ensures kept { OnErr result ((sizes self.new ≡ sizes self.old)
            × (extents self.new ≡ extents self.old) × (file_count self.new ≡ file_count self.old)) }
        ensures size { IfOk result (λ _. IsPartitionSize size) }
        ensures config { (¬ IsPartitionSize size) → result ≡ Err error.Config }
        ensures full { result ≡ Err error.Config
            → (¬ IsPartitionSize size) ⊎ IsTrue (is_full self.old) }
        ensures space { (result ≡ Err error.NoSpace)
            ↔ (IsPartitionSize size × IsTrue (lacks_space self.old size)) }
        ensures refused { IfErr result (λ e. (e ≡ error.Config) ⊎ (e ≡ error.NoSpace)
            ⊎ (e ≡ error.Io) ⊎ (e ≡ error.Memory)) }
        ensures files { (file_count self.old ≤ file_count self.new)
            × (file_count self.new ≤ file_count self.old + 1) }
        ensures same { (room self.new ≡ room self.old) × (limits self.new ≡ limits self.old)
            × (built_at self.new ≡ built_at self.old) };
}

impl<D: Device> Device for &mut D {
    type Partition = D::Partition;

    ghost room = { λ d. D.room d.now };

    ghost sizes = { λ d. D.sizes d.now };

    ghost extents = { λ d. D.extents d.now };

    ghost file_count = { λ d. D.file_count d.now };

    ghost lacks_space = { λ d. D.lacks_space d.now };

    ghost is_full = { λ d. D.is_full d.now };

    ghost limits = { λ d. D.limits d.now };

    ghost built_at = { λ d. D.built_at d.now };

    fn capacity(&self) -> usize {
        (**self).capacity()
    }

    fn allocated(&self) -> usize {
        (**self).allocated()
    }

    fn partitions(&self) -> usize {
        (**self).partitions()
    }

    fn partition(&self, id: PartitionId) -> D::Partition {
        (**self).partition(id)
    }

    fn throttle(&self) -> &Throttle {
        (**self).throttle()
    }

    fn built_at(&self) -> u64 {
        (**self).built_at()
    }

    fn file_count(&self) -> usize {
        (**self).file_count()
    }

    fn files<B: Allocator + Clone>(&self, alloc: B) -> Result<Vec<String<B>, B>> {
        (**self).files(alloc)
    }

    fn is_out_of_space(&self, size: usize) -> bool {
        (**self).is_out_of_space(size)
    }

    fn create_partition<R: Files>(&mut self, rt: &R, size: usize) -> Result<D::Partition> {
        (**self).create_partition(rt, size)
    }
}

/// Builds a device.
pub trait DeviceBuilder<A: Allocator>: Sized {
    ghost use Rattle.foyer_device_throttle.specs.declared.throttle.Throttle.{Throttle};

    type Device: Device;

    // The capacity of what it builds, or none if its settings are wrong.
    ghost capacity: { Self → Option ℕ };

    // The limits of what it builds, and the moment at which that was built, given the present moment. A partial device
    // has those of its device.
    ghost limits: { Self → Throttle };

    ghost built_at: { Self → ℕ → ℕ } = { λ _ now. now };

    /// Builds the device. Its `built_at` is `now`, in nanoseconds, but that of a partial device is its device's. Errors:
    /// Config if the settings are wrong, Io if a file or a directory couldn't be made, Memory.
    fn build<R: Files>(self, rt: &R, alloc: A, now: u64) -> Result<Self::Device>
        ensures config { (result ≡ Err error.Config) ↔ (capacity self ≡ None) }
        ensures refused { IfErr result (λ e. (e ≡ error.Config) ⊎ (e ≡ error.Io) ⊎ (e ≡ error.Memory)) }
        ensures room { IfOk result (λ d. capacity self ≡ Some (Self.Device.room d)) }
        ensures fresh { IfOk result (λ d. Self.Device.sizes d ≡ []) }
        ensures limits { IfOk result (λ d. Self.Device.limits d ≡ limits self) }
        ensures moment { IfOk result (λ d. Self.Device.built_at d ≡ built_at self now) };
}
