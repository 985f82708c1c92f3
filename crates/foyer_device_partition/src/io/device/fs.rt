//! A device over a directory.
ghost use Rattle.std.specs.Prelude.{◌≡◌, ◌⊎◌, ◌↔◌, ℕ, ◌<◌, ◌^◌, Option, Some, None, IfErr, IfOk, IsTrue, IsOk, Err, OnOk, OnErr, length, map, string_bytes, vec_len};
ghost use Rattle.foyer_device_partition.specs.Region.{lacks_space, has_all_numbers};
ghost use Rattle.foyer_device_partition.specs.Extent.{IsPartitionSize, files_from};
ghost use Rattle.foyer_device_partition.specs.Capacity.{rounded};
ghost use Rattle.foyer_device_partition.specs.Paths.{partition_path, first_paths};
ghost use Rattle.foyer_device_partition.specs.Unlimited.{unlimited};
ghost use Rattle.foyer_device_page.specs.declared.error.Error.TheVariants as error;

use super::faults::FileFaults;
use super::paths::lay_file;
use super::sizes::Sizes;
use super::{Device, DeviceBuilder, MAX_PARTITIONS, Partition, PartitionId, RawFile, Throttle};
use foyer_device_page::error::{Error, Result};
use foyer_device_page::io::bytes::PAGE;
use std::alloc::{AllocError, Allocator, Global};
use std::rt::Files;
use std::sync::Arc;
use std::{fs, io};

/// Builds a device over a directory.
#[derive(Clone, Copy, Debug)]
pub struct FsDeviceBuilder<'a> {
    dir: &'a str,
    capacity: Option<usize>,
    throttle: Throttle,
    faults: Option<&'a Arc<FileFaults, Global>>,
}

impl<'a> FsDeviceBuilder<'a> {
    /// Begins a device over the directory at a path. `build` makes the directory with its parents if it is missing, and
    /// answers Config if no capacity was given.
    pub fn new(dir: &'a str) -> FsDeviceBuilder<'a>
        ensures capacity { result.capacity ≡ None }
        ensures limits { result.throttle ≡ unlimited }
    {
        FsDeviceBuilder {
            dir,
            capacity: None,
            throttle: Throttle::new(),
            faults: None,
        }
    }

    /// That many bytes, rounded down to whole pages.
    pub fn with_capacity(self, capacity: usize) -> FsDeviceBuilder<'a>
        ensures capacity { result.capacity ≡ Some capacity }
        ensures limits { result.throttle ≡ self.entry.throttle }
    {
        FsDeviceBuilder {
            capacity: Some(capacity),
            ..self
        }
    }

    /// The limits of its reads and writes.
    pub fn with_throttle(self, throttle: Throttle) -> FsDeviceBuilder<'a>
        ensures capacity { result.capacity ≡ self.entry.capacity }
        ensures limits { result.throttle ≡ throttle }
    {
        FsDeviceBuilder { throttle, ..self }
    }

    /// Where the device notes why the system refused to make the directory or a file in it.
    pub fn with_faults(self, faults: &'a Arc<FileFaults, Global>) -> FsDeviceBuilder<'a>
        ensures capacity { result.capacity ≡ self.entry.capacity }
        ensures limits { result.throttle ≡ self.entry.throttle }
    {
        FsDeviceBuilder {
            faults: Some(faults),
            ..self
        }
    }
}

// One more owner of where faults are noted, if they are.
fn shared(
    faults: Option<&Arc<FileFaults, Global>>,
) -> std::result::Result<Option<Arc<FileFaults, Global>>, AllocError> {
    match faults {
        Some(faults) => Ok(Some(Arc::try_clone(faults)?)),
        None => Ok(None),
    }
}

// Notes a fault, if faults are noted.
fn note(faults: &Option<Arc<FileFaults, Global>>, error: &io::Error, file: Option<u32>) {
    if let Some(faults) = faults {
        faults.note(error, file);
    }
}

impl<A: Allocator + Clone> DeviceBuilder<A> for FsDeviceBuilder<'_> {
    type Device = FsDevice<A>;

    ghost capacity = { λ b. rounded b.capacity };

    ghost limits = { λ b. b.throttle };

    fn build<R: Files>(self, rt: &R, alloc: A, now: u64) -> Result<FsDevice<A>> {
        let Some(capacity) = self.capacity else {
            return Err(Error::Config);
        };
        let dir = String::from_str(alloc.clone()?, self.dir)?;
        let faults = shared(self.faults)?;
        if let Err(error) = fs::create_dir_all(rt, self.dir) {
            note(&faults, &error, None);
            return Err(Error::Io);
        }
        Ok(FsDevice {
            dir,
            capacity: capacity / PAGE * PAGE,
            sizes: Sizes::new(alloc),
            throttle: self.throttle,
            since: now,
            faults,
        })
    }
}

/// Partitions that are a file each, in a directory.
#[derive(Drop)]
pub struct FsDevice<A: Allocator> {
    dir: String<A>,
    capacity: usize,
    sizes: Sizes<A>,
    throttle: Throttle,
    since: u64,
    faults: Option<Arc<FileFaults, Global>>,
}

/// Gives the path of a partition's file, for a device over the directory `dir`. It fails only if memory is refused.
pub fn partition_path<A: Allocator>(
    alloc: A,
    dir: &str,
    id: PartitionId,
) -> std::result::Result<String<A>, AllocError>
    ensures { IfOk result (λ path. string_bytes path ≡ partition_path dir.now id) }
{
    format!(in alloc; "{dir}/foyer-storage-direct-fs-{id:08}")
}

impl<A: Allocator> FsDevice<A> {
    // The path of a partition's file.
    fn path<B: Allocator>(&self, alloc: B, id: u32) -> std::result::Result<String<B>, AllocError>
        ensures { IfOk result (λ path. string_bytes path ≡ partition_path (string_bytes self.now.dir) id) }
    {
        partition_path(alloc, self.dir.as_str(), id)
    }

    // Gives a partition's file its length. Errors: Io, Memory.
    fn lay<R: Files>(&self, rt: &R, id: u32, size: usize) -> Result<()>
        ensures { IfErr result (λ e. (e ≡ error.Io) ⊎ (e ≡ error.Memory)) }
    {
        let path = self.path(self.dir.allocator(), id)?;
        match lay_file(rt, path.as_str(), size) {
            Ok(()) => Ok(()),
            Err(error) => {
                note(&self.faults, &error, Some(id));
                Err(Error::Io)
            }
        }
    }

    // Checks whether a partition of that size may be made. Errors, in this order: Config, NoSpace.
    fn admit(&self, size: usize) -> Result<()>
        ensures size { OnOk result (IsPartitionSize size) }
        ensures numbers { OnOk result (length self.now.sizes < 2 ^ 32) }
        ensures config { (¬ IsPartitionSize size) → result ≡ Err error.Config }
        ensures full { result ≡ Err error.Config → (¬ IsPartitionSize size)
            ⊎ IsTrue (has_all_numbers (record { room = self.now.capacity; sizes = self.now.sizes })) }
        ensures space { (result ≡ Err error.NoSpace) ↔ (IsPartitionSize size × IsTrue
            (lacks_space (record { room = self.now.capacity; sizes = self.now.sizes }) size)) }
        ensures refused { IfErr result (λ e. (e ≡ error.Config) ⊎ (e ≡ error.NoSpace)) }
    {
        if size == 0 || size % PAGE != 0 || self.sizes.len() >= MAX_PARTITIONS {
            return Err(Error::Config);
        }
        if size > self.capacity.saturating_sub(self.sizes.total()) {
            return Err(Error::NoSpace);
        }
        Ok(())
    }
}

/// A partition of a device over a directory: a file of its own.
#[derive(Clone, Copy, Debug)]
pub struct FsPartition {
    id: PartitionId,
    size: usize,
}

impl Partition for FsPartition {
    ghost number = { λ p. p.id };

    ghost bytes = { λ p. p.size };

    ghost extent = { λ p. record { file = p.id; start = 0; len = p.size } };

    fn id(&self) -> PartitionId {
        self.id
    }

    fn size(&self) -> usize {
        self.size
    }

    fn translate(&self, offset: u64) -> (RawFile, u64) {
        (RawFile(self.id), offset.min(self.size as u64))
    }
}

impl<A: Allocator> Device for FsDevice<A> {
    type Partition = FsPartition;

    ghost room = { λ d. d.capacity };

    ghost sizes = { λ d. d.sizes };

    ghost extents = { λ d. files_from 0 d.sizes };

    ghost file_count = { λ d. length d.sizes };

    ghost lacks_space = { λ d. lacks_space (record { room = d.capacity; sizes = d.sizes }) };

    ghost is_full = { λ d. has_all_numbers (record { room = d.capacity; sizes = d.sizes }) };

    ghost limits = { λ d. d.throttle };

    ghost built_at = { λ d. d.since };

    fn capacity(&self) -> usize {
        self.capacity
    }

    fn allocated(&self) -> usize {
        self.sizes.total()
    }

    fn partitions(&self) -> usize {
        self.sizes.len()
    }

    #[tactic(auto, using(crate::proofs::FilesLemmas::files_get))]
    fn partition(&self, id: PartitionId) -> FsPartition {
        FsPartition {
            id,
            size: self.sizes.size(id),
        }
    }

    fn throttle(&self) -> &Throttle {
        &self.throttle
    }

    fn built_at(&self) -> u64 {
        self.since
    }

    #[tactic(auto, using(crate::proofs::FilesLemmas::files))]
    fn file_count(&self) -> usize {
        self.sizes.len()
    }

    fn files<B: Allocator + Clone>(&self, alloc: B) -> Result<Vec<String<B>, B>>
        ensures count { IfOk result (λ paths. vec_len paths ≡ length self.now.sizes) }
        ensures paths { IfOk result (λ paths. map string_bytes paths.items
            ≡ first_paths (string_bytes self.now.dir) (length self.now.sizes)) }
        ensures memory { OnErr result (result ≡ Err error.Memory) }
    {
        let mut paths = Vec::new(alloc.clone()?);
        for id in 0..self.sizes.len() as u64 {
            let path = self.path(alloc.clone()?, id as u32)?;
            paths.push(path)?;
        }
        Ok(paths)
    }

    fn is_out_of_space(&self, size: usize) -> bool {
        self.sizes.len() < MAX_PARTITIONS && size > self.capacity.saturating_sub(self.sizes.total())
    }

    /// Makes the partition's file if it is missing, and gives it exactly the partition's length. A shorter file is
    /// lengthened by zeros, a longer file is cut. After Io or Memory the file may have been made or changed.
    fn create_partition<R: Files>(&mut self, rt: &R, size: usize) -> Result<FsPartition> {
        self.admit(size)?;
        let id = self.sizes.len() as PartitionId;
        self.lay(rt, id, size)?;
        self.sizes.push(size)?;
        Ok(FsPartition { id, size })
    }
}
