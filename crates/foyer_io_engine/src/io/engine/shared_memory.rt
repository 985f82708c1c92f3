//! One memory for several engines.
ghost use Rattle.std.specs.Prelude.{None};

use super::memory::MemoryIoEngine;
use super::{IoEngine, IoEngineBuildContext, IoEngineConfig, IoHandle};
use foyer_device_page::error::Result;
use foyer_device_page::io::bytes::{IoBuf, IoBufMut};
use foyer_device_partition::io::device::Partition;
use foyer_lock::lock_spinning;
use std::alloc::Allocator;
use std::sync::{Arc, Mutex, Wait};

/// Builds engines over one memory.
pub struct SharedMemoryIoEngineConfig<A: Allocator> {
    memory: Arc<Mutex<MemoryIoEngine<A>>, A>,
}

// Written out, so that it is proved once.
impl<A: Allocator> Drop for SharedMemoryIoEngineConfig<A> {
    fn drop(self) {
        let SharedMemoryIoEngineConfig { memory: _ } = self;
    }
}

impl<A: Allocator> SharedMemoryIoEngineConfig<A> {
    /// A config for engines over this memory. Error: Memory.
    pub fn new(alloc: A, memory: MemoryIoEngine<A>) -> Result<SharedMemoryIoEngineConfig<A>> {
        let memory = Arc::new(alloc, Mutex::new(memory))?;
        Ok(SharedMemoryIoEngineConfig { memory })
    }
}

impl<R: Wait + Clone + Drop, A: Allocator> IoEngineConfig<R> for SharedMemoryIoEngineConfig<A> {
    type Engine = SharedMemoryIoEngine<R, A>;

    fn build<B: Allocator>(
        &self,
        rt: &R,
        _context: &IoEngineBuildContext<'_, B>,
    ) -> Result<SharedMemoryIoEngine<R, A>> {
        let rt = rt.clone()?;
        let memory = Arc::try_clone(&self.memory)?;
        Ok(SharedMemoryIoEngine { rt, memory })
    }
}

/// An engine over memory that others read and write too, which it locks for each call.
pub struct SharedMemoryIoEngine<R: Wait + Drop, A: Allocator> {
    rt: R,
    memory: Arc<Mutex<MemoryIoEngine<A>>, A>,
}

// Written out, so that it is proved once.
impl<R: Wait + Drop, A: Allocator> Drop for SharedMemoryIoEngine<R, A> {
    fn drop(self) {
        let SharedMemoryIoEngine { rt: _, memory: _ } = self;
    }
}

impl<R: Wait + Drop, A: Allocator> IoEngine for SharedMemoryIoEngine<R, A> {
    ghost disk = { λ _. None };

    ghost faults = { λ _. 0 };

    ghost reaches = { λ _ _ _ _ _. ⊥ };

    fn read<B: IoBufMut, P: Partition>(
        &mut self,
        buffer: B,
        partition: &P,
        offset: u64,
    ) -> IoHandle<B> {
        lock_spinning(&*self.memory, &self.rt).read(buffer, partition, offset)
    }

    fn write<B: IoBuf, P: Partition>(
        &mut self,
        buffer: B,
        partition: &P,
        offset: u64,
    ) -> IoHandle<B> {
        lock_spinning(&*self.memory, &self.rt).write(buffer, partition, offset)
    }

    fn failures(&self) -> u64 {
        0
    }
}
