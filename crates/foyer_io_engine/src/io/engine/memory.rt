//! An engine over memory.
ghost use Rattle.std.specs.Prelude.{◌≡◌, ℕ, [], ◌∷◌, ◌++◌, ◌+◌, ◌<◌, ◌≤◌, ◌↔◌, Some, Err, OnOk, OnErr, IsTrue, MatchResult, length};
ghost use Rattle.foyer_io_engine.specs.Disk.{IsWithin, Holds, IsWritten, CanAccess};
ghost use Rattle.foyer_io_engine.specs.MemoryFile.{Contents, disk_of};
ghost use Rattle.foyer_device_page.specs.declared.error.Error.TheVariants as error;

use super::memory_file::MemoryFile;
use super::{IoEngine, IoHandle, is_inside};
use foyer_device_page::error::{Error, Result};
use foyer_device_page::io::bytes::{IoBuf, IoBufMut};
use foyer_device_partition::io::device::{Partition, RawFile};
use std::alloc::Allocator;
use std::marker::Model;

/// The files of a device in memory, whose bytes contracts see. It never answers Io.
pub struct MemoryIoEngine<A: Allocator> {
    files: Vec<MemoryFile<A>, A>,
}

// Written out, so that it is proved once.
impl<A: Allocator> Drop for MemoryIoEngine<A> {
    fn drop(self) {
        let MemoryIoEngine { files: _ } = self;
    }
}

impl<A: Allocator> Model for MemoryIoEngine<A> {
    ghost use Rattle.std.specs.Prelude.{List};
    ghost use Rattle.foyer_io_engine.specs.MemoryFile.{Contents};

    ghost Value = { List Contents };

    ghost view = { λ m. m.files.items };
}

impl<A: Allocator> MemoryIoEngine<A> {
    /// No files.
    pub fn new(alloc: A) -> MemoryIoEngine<A>
        ensures { result ≡ [] }
    {
        MemoryIoEngine {
            files: Vec::new(alloc),
        }
    }

    /// Adds a file with the next number. The file has this many zeros, and its memory is first touched when it is written. Errors: `Memory`.
    pub fn add_file(&mut self, alloc: A, len: usize) -> Result<()>
        ensures added { OnOk result (self.new ≡ self.old ++ record { len = len; bytes = [] } ∷ []) }
        ensures kept { OnErr result (self.new ≡ self.old) }
        ensures memory { OnErr result (result ≡ Err error.Memory) }
    {
        let file = MemoryFile::new(alloc, len)?;
        self.files.push(file)?;
        Ok(())
    }

    // Whether `len` bytes from a place of a file on are there.
    fn has(&self, file: RawFile, at: u64, len: usize) -> bool
        ensures { IsTrue result ↔ IsWithin (disk_of self.now) file.0 at len }
    {
        match self.files.get(file.0 as usize) {
            Some(found) => found.has(at, len),
            None => len == 0 && at == 0,
        }
    }

    fn read_file(&self, file: RawFile, at: u64, into: &mut [u8])
        requires { IsWithin (disk_of self.now) file.0 at (length into.old) }
        ensures { Holds (disk_of self.now) file.0 at into.new }
    {
        if let Some(found) = self.files.get(file.0 as usize) {
            found.read_at(at, into);
        }
    }

    fn write_file(&mut self, file: RawFile, at: u64, bytes: &[u8])
        requires { IsWithin (disk_of self.old) file.0 at (length bytes.now) }
        ensures { IsWritten (disk_of self.old) file.0 at bytes.now (disk_of self.new) }
    {
        if let Some(found) = self.files.get_mut(file.0 as usize) {
            found.write_at(at, bytes);
        }
    }
}

impl<A: Allocator> IoEngine for MemoryIoEngine<A> {
    ghost disk = { λ m. Some (disk_of m) };

    ghost faults = { λ _. 0 };

    ghost reaches = { λ m. CanAccess (disk_of m) };

    fn read<B: IoBufMut, P: Partition>(
        &mut self,
        mut buffer: B,
        partition: &P,
        offset: u64,
    ) -> IoHandle<B> {
        let len = buffer.as_slice().len();
        if !is_inside(partition, offset, len) {
            return IoHandle::new(buffer, Err(Error::OutOfRange));
        }
        let (file, at) = partition.translate(offset);
        if !self.has(file, at, len) {
            return IoHandle::new(buffer, Err(Error::OutOfRange));
        }
        self.read_file(file, at, buffer.as_mut_slice());
        IoHandle::new(buffer, Ok(()))
    }

    fn write<B: IoBuf, P: Partition>(
        &mut self,
        buffer: B,
        partition: &P,
        offset: u64,
    ) -> IoHandle<B> {
        let len = buffer.as_slice().len();
        if !is_inside(partition, offset, len) {
            return IoHandle::new(buffer, Err(Error::OutOfRange));
        }
        let (file, at) = partition.translate(offset);
        if !self.has(file, at, len) {
            return IoHandle::new(buffer, Err(Error::OutOfRange));
        }
        self.write_file(file, at, buffer.as_slice());
        IoHandle::new(buffer, Ok(()))
    }

    fn failures(&self) -> u64 {
        0
    }
}
