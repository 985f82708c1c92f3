//! I/O engines over one memory, which stays from one opening of a store to the next.
use foyer_device_page::error::Result;
use foyer_io_engine::io::engine::{
    IoEngineBuildContext, IoEngineConfig, MemoryIoEngine, SharedMemoryIoEngine,
    SharedMemoryIoEngineConfig,
};
use std::alloc::{Allocator, Global};
use std::sync::{Arc, Wait};

// Room for seven blocks and a log in each of two files.
const BYTES: usize = 131_072;

/// Builds I/O engines over one memory, as all that share it do.
#[derive(Drop)]
pub(crate) struct SameMemory {
    config: Arc<SharedMemoryIoEngineConfig<Global>, Global>,
}

/// The memories of the cores of one store.
#[derive(Drop)]
pub(crate) struct CoreMemories {
    pub(crate) first: SameMemory,
    pub(crate) second: SameMemory,
    pub(crate) third: SameMemory,
    pub(crate) fourth: SameMemory,
}

impl CoreMemories {
    /// Each of two files of zeros.
    pub(crate) fn new(alloc: Global) -> Result<CoreMemories> {
        Ok(CoreMemories {
            first: SameMemory::new(alloc)?,
            second: SameMemory::new(alloc)?,
            third: SameMemory::new(alloc)?,
            fourth: SameMemory::new(alloc)?,
        })
    }

    /// That of a core.
    pub(crate) fn of_core(&self, core: u64) -> &SameMemory {
        match core {
            0 => &self.first,
            1 => &self.second,
            2 => &self.third,
            _ => &self.fourth,
        }
    }
}

impl SameMemory {
    /// Two files of zeros.
    pub(crate) fn new(alloc: Global) -> Result<SameMemory> {
        let mut memory = MemoryIoEngine::new(alloc);
        memory.add_file(alloc, BYTES)?;
        memory.add_file(alloc, BYTES)?;
        let config = SharedMemoryIoEngineConfig::new(alloc, memory)?;
        Ok(SameMemory {
            config: Arc::new(alloc, config)?,
        })
    }

    /// The same memory.
    pub(crate) fn share(&self) -> Result<SameMemory> {
        Ok(SameMemory {
            config: Arc::try_clone(&self.config)?,
        })
    }
}

impl<R: Wait + Clone + Drop> IoEngineConfig<R> for SameMemory {
    type Engine = SharedMemoryIoEngine<R, Global>;

    fn build<B: Allocator>(
        &self,
        rt: &R,
        context: &IoEngineBuildContext<'_, B>,
    ) -> Result<SharedMemoryIoEngine<R, Global>> {
        let config: &SharedMemoryIoEngineConfig<Global> = &self.config;
        config.build(rt, context)
    }
}
