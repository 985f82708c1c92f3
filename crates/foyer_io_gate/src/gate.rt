//! Places that a thread passes. At such a place a test may hold the thread.

use foyer_block_index::manager::BlockId;
use foyer_device_page::error::Result;
use foyer_io_disk::disk::Disk;
use std::alloc::Allocator;
use std::sync::Arc;

/// A place that a thread passes.
#[derive(Clone, Copy, Debug, PartialEq, Eq)]
pub enum Point {
    /// Before a flush's writes to a block.
    FlushWrite,
    /// Before a load's read.
    LoadRead,
    /// Before a reclaim's read of its block.
    Reclaim,
    /// Before a recovery's first read of a block.
    RecoverRead(BlockId),
}

/// What a thread passes at a point. It is given no runtime, and an engine calls it while it holds none of its own locks.
pub trait Gate: Drop {
    /// Returns once the thread may continue.
    fn pass(&self, point: Point);
}

/// A gate that holds no thread.
#[derive(Clone, Copy, Debug, Default, PartialEq, Eq)]
pub struct OpenGate;

impl Gate for OpenGate {
    fn pass(&self, _point: Point) {}
}

impl<G: Gate, A: Allocator> Gate for Arc<G, A> {
    fn pass(&self, point: Point) {
        (**self).pass(point);
    }
}

/// A disk for a recovery: whoever reads the first index of a block through it passes a gate first.
#[derive(Drop)]
pub struct GatedDisk<D: Disk + Drop, G: Gate> {
    pub disk: D,
    pub gate: G,
}

impl<D: Disk + Drop, G: Gate> Disk for GatedDisk<D, G> {
    ghost is_known = { λ d. D.is_known d.disk };

    ghost byte_at = { λ d. D.byte_at d.disk };

    ghost surely_has = { λ d. D.surely_has d.disk };

    ghost faults = { λ d. D.faults d.disk };

    ghost surely_lies = { λ d. D.surely_lies d.disk };

    ghost may_have = { λ d. D.may_have d.disk };

    ghost may_answer = { λ d. D.may_answer d.disk };

    fn read<A: Allocator>(
        &mut self,
        block: BlockId,
        offset: usize,
        buffer: Vec<u8, A>,
    ) -> (Vec<u8, A>, Result<()>) {
        if offset == 0 {
            self.gate.pass(Point::RecoverRead(block));
        }
        self.disk.read(block, offset, buffer)
    }

    fn write(&mut self, block: BlockId, offset: usize, bytes: &[u8]) -> Result<()> {
        self.disk.write(block, offset, bytes)
    }
}
