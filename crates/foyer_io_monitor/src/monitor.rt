//! An engine that records each of its calls, refused ones too.
ghost use Rattle.std.specs.Prelude.{◌≡◌, ◌≢◌, ℕ, ◌≤◌, None, Err, IsSome, IfSome, IfErr, OnOk, MatchResult, length};
ghost use Rattle.foyer_device_page.specs.declared.error.Error.TheVariants as error;
ghost use Rattle.foyer_device_partition.specs.Extent.{Extent};
ghost use Rattle.foyer_io_engine.specs.Disk.{IfKnown, Becomes, CanAccess, DidRead, DidWrite, MayTear, IsAccessFault};
ghost use Rattle.foyer_io_monitor.specs.Watched.{DidRecordRead, DidRecordWrite};

use foyer_device_page::io::bytes::{IoBuf, IoBufMut};
use foyer_device_partition::io::device::Partition;
use foyer_device_statistics::Recorder;
use foyer_io_engine::io::engine::{IoEngine, IoHandle};
use std::alloc::Allocator;

/// An engine whose reads and writes are recorded, those that were refused too.
pub struct MonitoredIoEngine<E: IoEngine + Drop, A: Allocator> {
    inner: E,
    recorder: Recorder<A>,
}

// Written out, so that it is proved once.
impl<E: IoEngine + Drop, A: Allocator> Drop for MonitoredIoEngine<E, A> {
    fn drop(self) {
        let MonitoredIoEngine {
            inner: _,
            recorder: _,
        } = self;
    }
}

impl<E: IoEngine + Drop, A: Allocator> MonitoredIoEngine<E, A> {
    /// Reads and writes of this engine, recorded by this recorder.
    pub fn new(inner: E, recorder: Recorder<A>) -> MonitoredIoEngine<E, A>
        ensures inner { result.inner ≡ inner }
        ensures recorder { result.recorder ≡ recorder }
    {
        MonitoredIoEngine { inner, recorder }
    }

    /// The engine and the recorder.
    pub fn into_parts(self) -> (E, Recorder<A>)
        ensures inner { result.0 ≡ self.inner }
        ensures recorder { result.1 ≡ self.recorder }
    {
        let MonitoredIoEngine { inner, recorder } = self;
        (inner, recorder)
    }
}

impl<E: IoEngine + Drop, A: Allocator> IoEngine for MonitoredIoEngine<E, A> {
    ghost disk = { λ s. E.disk s.inner };

    ghost faults = { λ s. E.faults s.inner };

    ghost reaches = { λ s. E.reaches s.inner };

    fn read<B: IoBufMut, P: Partition>(
        &mut self,
        buffer: B,
        partition: &P,
        offset: u64,
    ) -> IoHandle<B>
        ensures given { IsSome result }
        ensures length { IfSome result (λ r. length (B.bytes r.0) ≡ length (B.bytes buffer)) }
        ensures read { IfKnown (E.disk self.old.inner) (λ d. IfSome result (λ r. OnOk r.1
            (DidRead d (P.extent partition.now) (P.bytes partition.now) offset (B.bytes r.0)))) }
        ensures outside { IfKnown (E.disk self.old.inner) (λ d. IfSome result (λ r. r.1 ≡ Err error.OutOfRange
            → ¬ CanAccess d (P.extent partition.now) (P.bytes partition.now) offset
            (length (B.bytes buffer)))) }
        ensures missing { IfSome result (λ r. r.1 ≡ Err error.OutOfRange
            → ¬ E.reaches self.old.inner (P.extent partition.now) (P.bytes partition.now) offset
            (length (B.bytes buffer))) }
        ensures kept { E.disk self.new.inner ≡ E.disk self.old.inner }
        ensures reached { (x : Extent) (s o n : ℕ) → E.reaches self.old.inner x s o n → E.reaches self.new.inner x s o n }
        ensures counted { E.faults self.old.inner ≤ E.faults self.new.inner }
        ensures refused { IfSome result (λ r. IfErr r.1
            (IsAccessFault (E.faults self.old.inner) (E.faults self.new.inner))) }
        ensures recorded { DidRecordRead self.old.recorder (length (B.bytes buffer)) self.new.recorder }
    {
        let bytes = buffer.as_slice().len();
        let failures = self.inner.failures();
        let handle = self.inner.read(buffer, partition, offset);
        self.recorder.record_disk_read(bytes);
        if self.inner.failures() != failures {
            self.recorder.note_read_error(self.inner.last_error());
        }
        handle
    }

    fn write<B: IoBuf, P: Partition>(
        &mut self,
        buffer: B,
        partition: &P,
        offset: u64,
    ) -> IoHandle<B>
        ensures given { IsSome result }
        ensures same { IfSome result (λ r. r.0 ≡ buffer) }
        ensures written { Becomes (E.disk self.old.inner) (E.disk self.new.inner) (λ d e. IfSome result (λ r. MatchResult r.1
            (λ _. DidWrite d (P.extent partition.now) (P.bytes partition.now) offset (B.bytes buffer) e)
            (λ _. MayTear d (P.extent partition.now) offset (length (B.bytes buffer)) e))) }
        ensures hidden { E.disk self.old.inner ≡ None → E.disk self.new.inner ≡ None }
        ensures outside { IfKnown (E.disk self.old.inner) (λ d. IfSome result (λ r. r.1 ≡ Err error.OutOfRange
            → (¬ CanAccess d (P.extent partition.now) (P.bytes partition.now) offset
            (length (B.bytes buffer))))) }
        ensures untouched { IfSome result (λ r. r.1 ≡ Err error.OutOfRange
            → E.disk self.new.inner ≡ E.disk self.old.inner) }
        ensures missing { IfSome result (λ r. r.1 ≡ Err error.OutOfRange
            → ¬ E.reaches self.old.inner (P.extent partition.now) (P.bytes partition.now) offset
            (length (B.bytes buffer))) }
        ensures reached { (x : Extent) (s o n : ℕ) → E.reaches self.old.inner x s o n → E.reaches self.new.inner x s o n }
        ensures counted { E.faults self.old.inner ≤ E.faults self.new.inner }
        ensures refused { IfSome result (λ r. IfErr r.1
            (IsAccessFault (E.faults self.old.inner) (E.faults self.new.inner))) }
        ensures recorded { DidRecordWrite self.old.recorder (length (B.bytes buffer)) self.new.recorder }
    {
        let bytes = buffer.as_slice().len();
        let failures = self.inner.failures();
        let handle = self.inner.write(buffer, partition, offset);
        self.recorder.record_disk_write(bytes);
        if self.inner.failures() != failures {
            self.recorder.note_write_error(self.inner.last_error());
        }
        handle
    }

    fn failures(&self) -> u64 {
        self.inner.failures()
    }

    fn last_error(&self) -> i32 {
        self.inner.last_error()
    }
}
