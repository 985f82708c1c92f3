//! Engines that read and write the partitions of a device.
ghost use Rattle.std.specs.Prelude.{◌≡◌, ℕ, ◌≤◌, ◌↔◌, ◌+◌, Option, None, Err, IsSome, IsTrue, IfSome, IfErr, OnOk, MatchResult, length};
ghost use Rattle.foyer_device_partition.specs.Extent.{Extent};
ghost use Rattle.foyer_io_engine.specs.Disk.{Disk, IfKnown, Becomes, CanAccess, DidRead, DidWrite, MayTear, IsAccessFault};
ghost use Rattle.foyer_device_page.specs.declared.error.Error.TheVariants as error;

mod buffers;
mod config;
mod fault;
mod fault_config;
mod handle;
mod memory;
mod memory_file;
mod noop;
mod psync;
mod shared_memory;

pub use buffers::{ReadBuffer, WriteBuffer};
pub use config::{IoEngineBuildContext, IoEngineConfig};
pub use fault::FaultIoEngine;
pub use fault_config::FaultIoEngineConfig;
use foyer_device_page::io::bytes::{IoBuf, IoBufMut};
use foyer_device_partition::io::device::Partition;
pub use handle::IoHandle;
pub use memory::MemoryIoEngine;
pub use memory_file::MemoryFile;
pub use noop::{NoopIoEngine, NoopIoEngineConfig};
pub use psync::{NotingPsyncIoEngineConfig, PsyncIoEngine, PsyncIoEngineConfig};
pub use shared_memory::{SharedMemoryIoEngine, SharedMemoryIoEngineConfig};

/// Reads and writes partitions. Errors: OutOfRange, only if the range isn't there, and then the device's bytes are as
/// before; Io if the device failed.
pub trait IoEngine {
    // The bytes of the files, if the engine shows them. An engine over a system's files doesn't show them, and never
    // does.
    ghost disk: { Self → Option Disk };

    // The faults of its reads and writes, up to 2^64 - 1.
    ghost faults: { Self → ℕ };

    // This many bytes, from an offset of a partition of this place and size on, are surely there: such an access is never
    // OutOfRange.
    ghost reaches: { Self → Extent → ℕ → ℕ → ℕ → Type 0 };

    /// Fills the buffer with the bytes from an offset of the partition on. After a refusal the buffer may have any
    /// bytes.
    fn read<B: IoBufMut, P: Partition>(
        &mut self,
        buffer: B,
        partition: &P,
        offset: u64,
    ) -> IoHandle<B>
        ensures given { IsSome result }
        ensures length { IfSome result (λ r. length (B.bytes r.0) ≡ length (B.bytes buffer)) }
        ensures read { IfKnown (disk self.old) (λ d. IfSome result (λ r. OnOk r.1
            (DidRead d (P.extent partition.now) (P.bytes partition.now) offset (B.bytes r.0)))) }
        ensures outside { IfKnown (disk self.old) (λ d. IfSome result (λ r. r.1 ≡ Err error.OutOfRange
            → ¬ CanAccess d (P.extent partition.now) (P.bytes partition.now) offset
            (length (B.bytes buffer)))) }
        ensures missing { IfSome result (λ r. r.1 ≡ Err error.OutOfRange
            → ¬ reaches self.old (P.extent partition.now) (P.bytes partition.now) offset (length (B.bytes buffer))) }
        ensures kept { disk self.new ≡ disk self.old }
        ensures reached { (x : Extent) (s o n : ℕ) → reaches self.old x s o n → reaches self.new x s o n }
        ensures counted { faults self.old ≤ faults self.new }
        ensures refused { IfSome result (λ r. IfErr r.1
            (IsAccessFault (faults self.old) (faults self.new))) };

    /// Writes the buffer over the bytes from an offset of the partition on. After Io that range may have any bytes.
    fn write<B: IoBuf, P: Partition>(
        &mut self,
        buffer: B,
        partition: &P,
        offset: u64,
    ) -> IoHandle<B>
        ensures given { IsSome result }
        ensures same { IfSome result (λ r. r.0 ≡ buffer) }
        ensures written { Becomes (disk self.old) (disk self.new) (λ d e. IfSome result (λ r. MatchResult r.1
            (λ _. DidWrite d (P.extent partition.now) (P.bytes partition.now) offset (B.bytes buffer) e)
            (λ _. MayTear d (P.extent partition.now) offset (length (B.bytes buffer)) e))) }
        ensures hidden { disk self.old ≡ None → disk self.new ≡ None }
        ensures outside { IfKnown (disk self.old) (λ d. IfSome result (λ r. r.1 ≡ Err error.OutOfRange
            → (¬ CanAccess d (P.extent partition.now) (P.bytes partition.now) offset
            (length (B.bytes buffer))))) }
        ensures untouched { IfSome result (λ r. r.1 ≡ Err error.OutOfRange → disk self.new ≡ disk self.old) }
        ensures missing { IfSome result (λ r. r.1 ≡ Err error.OutOfRange
            → ¬ reaches self.old (P.extent partition.now) (P.bytes partition.now) offset (length (B.bytes buffer))) }
        ensures reached { (x : Extent) (s o n : ℕ) → reaches self.old x s o n → reaches self.new x s o n }
        ensures counted { faults self.old ≤ faults self.new }
        ensures refused { IfSome result (λ r. IfErr r.1
            (IsAccessFault (faults self.old) (faults self.new))) };

    /// How many of its reads and writes the device failed, up to 2^64 - 1.
    fn failures(&self) -> u64
        ensures { result ≡ faults self.now };

    /// The system's number of its last read or write that failed, or 0 if none failed or the system gave no number. No clause says what
    /// it is.
    fn last_error(&self) -> i32 {
        0
    }
}

// Whether `len` bytes from an offset of the partition on lie in it.
fn is_inside<P: Partition>(partition: &P, offset: u64, len: usize) -> bool
    ensures { IsTrue result ↔ (offset + len ≤ P.bytes partition.now) }
{
    let size = partition.size();
    len <= size && offset <= (size - len) as u64
}
