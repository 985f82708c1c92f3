//! An engine that fails a call, for tests.
ghost use Rattle.std.specs.Prelude.{◌≡◌, ℕ, ◌+◌, ◌-◌, ◌^◌, ◌<◌, ◌≤◌, ◌⊎◌, None, length, min, true, false};
ghost use Rattle.foyer_device_partition.specs.Extent.{Extent};
ghost use Rattle.foyer_io_engine.specs.Disk.{Becomes, MayTear};

use super::{IoEngine, IoHandle, WriteBuffer};
use foyer_device_page::error::Error;
use foyer_device_page::io::bytes::{IoBuf, IoBufMut};
use foyer_device_partition::io::device::Partition;

/// An engine whose n-th call fails with Io, counted from 1. If that call is a read, it reads nothing. If it is a write, it
/// first writes at most `kept` bytes. With `stop`, all later calls fail too, and write nothing. All other calls are the
/// inner engine's.
#[derive(Drop)]
pub struct FaultIoEngine<E: Drop> {
    inner: E,
    // How many calls there are left up to the one that fails; 0 past it.
    left: u64,
    kept: usize,
    stop: bool,
    failed: u64,
}

impl<E: IoEngine + Drop> FaultIoEngine<E> {
    /// The n-th call fails, a write after at most `kept` bytes, and with `stop` all later calls fail too. With n = 0,
    /// every call fails if `stop` is true, and none if it is false.
    pub fn new(inner: E, n: u64, kept: usize, stop: bool) -> FaultIoEngine<E>
        ensures inner { result.inner ≡ inner }
        ensures fresh { result.failed ≡ 0 }
        ensures armed { (result.left ≡ n) × (result.kept ≡ kept) × (result.stop ≡ stop) }
    {
        FaultIoEngine {
            inner,
            left: n,
            kept,
            stop,
            failed: 0,
        }
    }

    /// The engine inside.
    pub fn into_inner(self) -> E
        ensures { result ≡ self.inner }
    {
        let FaultIoEngine { inner, .. } = self;
        inner
    }
}

// Says whether a call fails, if `left` calls are left up to and with the one that does.
fn fails(left: &mut u64, stop: bool) -> bool
    ensures later { 1 < left.old → (result ≡ false) × (left.new + 1 ≡ left.old) }
    ensures now { left.old ≡ 1 → (result ≡ true) × (left.new ≡ 0) }
    ensures past { left.old ≡ 0 → (result ≡ stop) × (left.new ≡ 0) }
{
    if *left > 1 {
        *left -= 1;
        return false;
    }
    let now = *left == 1;
    *left = 0;
    now || stop
}

impl<E: IoEngine + Drop> IoEngine for FaultIoEngine<E> {
    ghost disk = { λ s. E.disk s.inner };

    ghost faults = { λ s. min (E.faults s.inner + s.failed) (2 ^ 64 - 1) };

    ghost reaches = { λ s. E.reaches s.inner };

    fn read<B: IoBufMut, P: Partition>(
        &mut self,
        buffer: B,
        partition: &P,
        offset: u64,
    ) -> IoHandle<B> {
        if fails(&mut self.left, self.stop) {
            self.failed = self.failed.saturating_add(1);
            return IoHandle::new(buffer, Err(Error::Io));
        }
        self.inner.read(buffer, partition, offset)
    }

    fn write<B: IoBuf, P: Partition>(
        &mut self,
        buffer: B,
        partition: &P,
        offset: u64,
    ) -> IoHandle<B> {
        // A failing call after the n-th writes nothing.
        let kept = if self.left == 1 { self.kept } else { 0 };
        if fails(&mut self.left, self.stop) {
            self.failed = self.failed.saturating_add(1);
            write_prefix(&mut self.inner, buffer.as_slice(), kept, partition, offset);
            return IoHandle::new(buffer, Err(Error::Io));
        }
        self.inner.write(buffer, partition, offset)
    }

    fn failures(&self) -> u64 {
        self.inner.failures().saturating_add(self.failed)
    }

    fn last_error(&self) -> i32 {
        self.inner.last_error()
    }
}

// Writes no more than the first `kept` bytes.
fn write_prefix<E: IoEngine, P: Partition>(
    inner: &mut E,
    bytes: &[u8],
    kept: usize,
    partition: &P,
    offset: u64,
)
    ensures torn { Becomes (E.disk inner.old) (E.disk inner.new) (λ d e.
        MayTear d (P.extent partition.now) offset (length bytes.now) e) }
    ensures hidden { E.disk inner.old ≡ None → E.disk inner.new ≡ None }
    ensures reached { (x : Extent) (s o n : ℕ) → E.reaches inner.old x s o n → E.reaches inner.new x s o n }
    ensures counted { E.faults inner.old ≤ E.faults inner.new }
{
    let kept = kept.min(bytes.len());
    let prefix = WriteBuffer(&bytes[..kept]);
    drop(inner.write(prefix, partition, offset));
}
