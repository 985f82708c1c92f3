//! A disk that fails one call.
ghost use Rattle.std.specs.Prelude.{◌+◌, ◌-◌, ◌^◌, min};

use foyer_block_index::manager::BlockId;
use foyer_device_page::error::{Error, Result};
use foyer_io_disk::disk::Disk;
use std::alloc::Allocator;

/// A disk that passes each call on to another disk, except one call, which gives `Io`. If that call is a read, it reads nothing. If it is
/// a write, it writes only the first bytes.
#[derive(Drop)]
pub struct Failing<D: Disk + Drop> {
    inner: D,
    left: u64,
    kept: usize,
    failed: u64,
}

impl<D: Disk + Drop> Failing<D> {
    /// Gives a disk that fails the n-th read or write, counted from 1. A write that fails writes the first `kept` bytes. With 0 no call
    /// fails.
    pub fn new(inner: D, n: u64, kept: usize) -> Failing<D> {
        Failing {
            inner,
            left: n,
            kept,
            failed: 0,
        }
    }

    /// Whether that call was made. It is always true if `n` is 0.
    pub fn has_failed(&self) -> bool {
        self.left == 0
    }
}

impl<D: Disk + Drop> Disk for Failing<D> {
    ghost is_known = { λ d. D.is_known d.inner };

    ghost byte_at = { λ d. D.byte_at d.inner };

    ghost surely_has = { λ _ b o n. ⊥ };

    ghost faults = { λ d. min (D.faults d.inner + d.failed) (2 ^ 64 - 1) };

    ghost surely_lies = { λ d. D.surely_lies d.inner };

    fn read<A: Allocator>(
        &mut self,
        block: BlockId,
        offset: usize,
        buffer: Vec<u8, A>,
    ) -> (Vec<u8, A>, Result<()>) {
        let n = self.left;
        self.left = n.saturating_sub(1);
        if n == 1 {
            self.failed = self.failed.saturating_add(1);
            return (buffer, Err(Error::Io));
        }
        self.inner.read(block, offset, buffer)
    }

    fn write(&mut self, block: BlockId, offset: usize, bytes: &[u8]) -> Result<()> {
        let n = self.left;
        self.left = n.saturating_sub(1);
        if n == 1 {
            self.failed = self.failed.saturating_add(1);
            let front = &bytes[..self.kept.min(bytes.len())];
            let _ = self.inner.write(block, offset, front);
            return Err(Error::Io);
        }
        self.inner.write(block, offset, bytes)
    }
}
