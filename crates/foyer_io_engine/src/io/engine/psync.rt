//! An engine over a system's files.
ghost use Rattle.std.specs.Prelude.{◌≡◌, ◌≢◌, ℕ, ◌+◌, ◌-◌, ◌^◌, ◌<◌, ◌≤◌, ◌⊎◌, None, Err, IsOk, IfErr, length, vec_len};
ghost use Rattle.foyer_device_page.specs.declared.error.Error.TheVariants as error;
ghost use Rattle.foyer_io_engine.specs.Disk.{IsAccessFault};

use super::{IoEngine, IoEngineBuildContext, IoEngineConfig, IoHandle, is_inside};
use foyer_device_page::error::{Error, Result};
use foyer_device_page::io::bytes::{IoBuf, IoBufMut};
use foyer_device_partition::io::device::{FileFaults, Partition, RawFile};
use std::alloc::Allocator;
use std::fs::{File, OpenOptions};
use std::io;
use std::os::unix::fs::FileExt;
use std::rt::Files;

/// Builds engines over a system's files.
#[derive(Clone, Copy, Debug, Default)]
pub struct PsyncIoEngineConfig;

impl PsyncIoEngineConfig {
    /// The config, which has no settings.
    pub fn new() -> PsyncIoEngineConfig {
        PsyncIoEngineConfig
    }
}

impl<R: Files<File = File> + Alloc> IoEngineConfig<R> for PsyncIoEngineConfig {
    type Engine = PsyncIoEngine<R::A>;

    fn build<A: Allocator>(
        &self,
        rt: &R,
        context: &IoEngineBuildContext<'_, A>,
    ) -> Result<PsyncIoEngine<R::A>> {
        open_all(rt, context, None)
    }
}

/// Builds the same engines, and notes why the system refused to open a file.
#[derive(Clone, Copy, Debug)]
pub struct NotingPsyncIoEngineConfig<'a> {
    faults: &'a FileFaults,
}

impl<'a> NotingPsyncIoEngineConfig<'a> {
    /// The config that notes faults here.
    pub fn new(faults: &'a FileFaults) -> NotingPsyncIoEngineConfig<'a>
        ensures { result.faults.now ≡ faults.now }
    {
        NotingPsyncIoEngineConfig { faults }
    }
}

impl<R: Files<File = File> + Alloc> IoEngineConfig<R> for NotingPsyncIoEngineConfig<'_> {
    type Engine = PsyncIoEngine<R::A>;

    fn build<A: Allocator>(
        &self,
        rt: &R,
        context: &IoEngineBuildContext<'_, A>,
    ) -> Result<PsyncIoEngine<R::A>> {
        open_all(rt, context, Some(self.faults))
    }
}

// Opens each file of a device once. A refusal is noted, if faults are. Errors: Io, Memory.
fn open_all<R: Files<File = File> + Alloc, A: Allocator>(
    rt: &R,
    context: &IoEngineBuildContext<'_, A>,
    faults: Option<&FileFaults>,
) -> Result<PsyncIoEngine<R::A>>
    ensures refused { IfErr result (λ e. (e ≡ error.Io) ⊎ (e ≡ error.Memory)) }
{
    let mut files = Vec::new(rt.alloc());
    let mut number = 0u32;
    for path in context.files {
        let opened = OpenOptions::new()
            .read(true)
            .write(true)
            .open(rt, path.as_str());
        match opened {
            Ok(file) => files.push(file)?,
            Err(error) => {
                if let Some(faults) = faults {
                    faults.note(&error, Some(number));
                }
                return Err(Error::Io);
            }
        }
        number = number.saturating_add(1);
    }
    Ok(PsyncIoEngine {
        files,
        failures: 0,
        last_error: 0,
    })
}

/// An engine over files that it opened, each once. It reads and writes them at a place and in full: a short read is Io.
pub struct PsyncIoEngine<A: Allocator> {
    files: Vec<File, A>,
    failures: u64,
    // The system's number of the last fault, or 0.
    last_error: i32,
}

// Written out, so that it is proved once.
impl<A: Allocator> Drop for PsyncIoEngine<A> {
    fn drop(self) {
        let PsyncIoEngine {
            files: _,
            failures: _,
            last_error: _,
        } = self;
    }
}

impl<A: Allocator> PsyncIoEngine<A> {
    // Fills `into` from a place of a file on.
    fn read_file(&mut self, file: RawFile, at: u64, into: &mut [u8]) -> Result<()>
        ensures missing { result ≡ Err error.OutOfRange → vec_len self.old.files ≤ file.0 }
        ensures same { self.new.files ≡ self.old.files }
        ensures counted { self.old.failures ≤ self.new.failures }
        ensures refused { IfErr result (IsAccessFault self.old.failures self.new.failures) }
    {
        let Some(found) = self.files.get(file.0 as usize) else {
            return Err(Error::OutOfRange);
        };
        let done = found.read_exact_at(into, at);
        self.answer(done)
    }

    // Writes the bytes from a place of a file on.
    fn write_file(&mut self, file: RawFile, at: u64, bytes: &[u8]) -> Result<()>
        ensures missing { result ≡ Err error.OutOfRange → vec_len self.old.files ≤ file.0 }
        ensures same { self.new.files ≡ self.old.files }
        ensures counted { self.old.failures ≤ self.new.failures }
        ensures refused { IfErr result (IsAccessFault self.old.failures self.new.failures) }
    {
        let Some(found) = self.files.get(file.0 as usize) else {
            return Err(Error::OutOfRange);
        };
        let done = found.write_all_at(bytes, at);
        self.answer(done)
    }

    // What a call answers, which counts a fault and keeps its number.
    fn answer(&mut self, done: io::Result<()>) -> Result<()>
        ensures present { result ≢ Err error.OutOfRange }
        ensures same { self.new.files ≡ self.old.files }
        ensures counted { self.old.failures ≤ self.new.failures }
        ensures refused { IfErr result (IsAccessFault self.old.failures self.new.failures) }
    {
        match done {
            Ok(()) => Ok(()),
            Err(error) => {
                self.last_error = error.raw_os_error().unwrap_or(0);
                self.failures = self.failures.saturating_add(1);
                Err(Error::Io)
            }
        }
    }
}

impl<A: Allocator> IoEngine for PsyncIoEngine<A> {
    ghost disk = { λ _. None };

    ghost faults = { λ s. s.failures };

    ghost reaches = { λ s x size o n. (o + n ≤ size) × (x.file < vec_len s.files) };

    fn read<B: IoBufMut, P: Partition>(
        &mut self,
        mut buffer: B,
        partition: &P,
        offset: u64,
    ) -> IoHandle<B> {
        let len = buffer.as_slice().len();
        if !is_inside(partition, offset, len) {
            return IoHandle::new(buffer, Err(Error::OutOfRange));
        }
        let (file, at) = partition.translate(offset);
        let outcome = self.read_file(file, at, buffer.as_mut_slice());
        IoHandle::new(buffer, outcome)
    }

    fn write<B: IoBuf, P: Partition>(
        &mut self,
        buffer: B,
        partition: &P,
        offset: u64,
    ) -> IoHandle<B> {
        let len = buffer.as_slice().len();
        if !is_inside(partition, offset, len) {
            return IoHandle::new(buffer, Err(Error::OutOfRange));
        }
        let (file, at) = partition.translate(offset);
        let outcome = self.write_file(file, at, buffer.as_slice());
        IoHandle::new(buffer, outcome)
    }

    fn failures(&self) -> u64 {
        self.failures
    }

    fn last_error(&self) -> i32 {
        self.last_error
    }
}
