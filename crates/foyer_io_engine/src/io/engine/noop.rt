//! An engine that does nothing.
ghost use Rattle.std.specs.Prelude.{None};

use super::{IoEngine, IoEngineBuildContext, IoEngineConfig, IoHandle};
use foyer_device_page::error::Result;
use foyer_device_page::io::bytes::{IoBuf, IoBufMut};
use foyer_device_partition::io::device::Partition;
use std::alloc::Allocator;

/// Builds engines that do nothing.
#[derive(Clone, Copy, Debug, Default)]
pub struct NoopIoEngineConfig;

impl<R> IoEngineConfig<R> for NoopIoEngineConfig {
    type Engine = NoopIoEngine;

    fn build<A: Allocator>(
        &self,
        _rt: &R,
        _context: &IoEngineBuildContext<'_, A>,
    ) -> Result<NoopIoEngine> {
        Ok(NoopIoEngine)
    }
}

/// Answers Ok and touches no byte, of a buffer or of a device.
#[derive(Clone, Copy, Debug)]
pub struct NoopIoEngine;

impl IoEngine for NoopIoEngine {
    ghost disk = { λ _. None };

    ghost faults = { λ _. 0 };

    ghost reaches = { λ _ _ _ _ _. Unit {0} };

    fn read<B: IoBufMut, P: Partition>(
        &mut self,
        buffer: B,
        _partition: &P,
        _offset: u64,
    ) -> IoHandle<B> {
        IoHandle::new(buffer, Ok(()))
    }

    fn write<B: IoBuf, P: Partition>(
        &mut self,
        buffer: B,
        _partition: &P,
        _offset: u64,
    ) -> IoHandle<B> {
        IoHandle::new(buffer, Ok(()))
    }

    fn failures(&self) -> u64 {
        0
    }
}
