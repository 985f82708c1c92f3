//! A memory that outlives the engines over it: blocks, and a log of deletes.
use crate::tests::asked::{Texts, say_refused, say_script};
use crate::tests::over::{Over, USUAL, over_of};
use foyer_block_manager::block::eviction::{BuiltInPicker, EvictionPicker};
use foyer_block_tombstone::block::tombstone::TombstoneLog;
use foyer_core_steps::apply::Env;
use foyer_device_page::error::Result;
use foyer_device_partition::io::device::{
    Device, DeviceBuilder, MemoryDevice, MemoryDeviceBuilder, MemoryPartition,
};
use foyer_format_record::serde::IdentityHashBuilder;
use foyer_io_blocks::memory::MemoryDisk;
use foyer_io_blocks::partitions::{PartitionedDisk, create_blocks, open_in_memory};
use foyer_io_engine::io::engine::{
    FaultIoEngine, IoEngineBuildContext, IoEngineConfig, MemoryIoEngine, SharedMemoryIoEngine,
    SharedMemoryIoEngineConfig,
};
use foyer_policy_filter::{BuiltInCondition, StorageFilterCondition};
use foyer_storage_local::engine::{LocalEngine, NoLog};
use foyer_testing::said::Said;
use std::alloc::{Allocator, Global};
use std::rt::Files;
use std::sync::Wait;

type Accesses<R> = FaultIoEngine<SharedMemoryIoEngine<R, Global>>;

/// Its blocks, an access of which may fail.
pub type Blocks<R, A> = PartitionedDisk<Accesses<R>, MemoryPartition, A>;

/// Its log, if there is one.
pub type Log<R, A> = Option<TombstoneLog<Accesses<R>, MemoryPartition, A>>;

/// An engine over it.
pub type MemoryEngine<R, A, E, C> = Texts<A, Blocks<R, A>, Log<R, A>, E, C>;

/// Zeros at first.
#[derive(Drop)]
pub struct Memory {
    pub alloc: Global,
    config: SharedMemoryIoEngineConfig<Global>,
    log: MemoryPartition,
    blocks: Vec<MemoryPartition>,
}

impl Memory {
    /// A log of one page, and the blocks.
    pub fn new<R: Files>(rt: &R, alloc: Global, over: Over) -> Result<Memory> {
        let builder = MemoryDeviceBuilder::new(over.capacity());
        let mut device: MemoryDevice<Global> = builder.build(rt, alloc, 0)?;
        let log = device.create_partition(rt, 4096)?;
        let blocks = create_blocks(rt, alloc, &mut device, over.blocks, over.block_size())?;
        let mut memory = MemoryIoEngine::new(alloc);
        memory.add_file(alloc, over.capacity())?;
        Ok(Memory {
            alloc,
            config: SharedMemoryIoEngineConfig::new(alloc, memory)?,
            log,
            blocks,
        })
    }

    // What reads and writes it, and fails an access of a number.
    fn accesses<R: Wait + Clone + Drop>(
        &self,
        rt: &R,
        access: u64,
        over: Over,
    ) -> Result<Accesses<R>> {
        let files: Vec<String> = Vec::new(self.alloc);
        let context = IoEngineBuildContext {
            files: files.as_slice(),
        };
        let engine = self.config.build(rt, &context)?;
        let stops = over.stops && access != 0;
        Ok(FaultIoEngine::new(engine, access, over.kept, stops))
    }

    /// Its blocks.
    pub fn disk<R: Wait + Clone + Drop, A: Allocator + Clone>(
        &self,
        rt: &R,
        alloc: &A,
        over: Over,
    ) -> Result<Blocks<R, A>> {
        let blocks = Vec::from_slice(alloc.clone()?, &self.blocks)?;
        Ok(PartitionedDisk::new(self.accesses(rt, over.access, over)?, blocks))
    }

    /// An engine over it with these pickers and this filter, whose memory comes from an allocator.
    pub fn open_with<
        R: Wait + Clone + Drop,
        A: Allocator + Clone,
        E: EvictionPicker,
        C: StorageFilterCondition,
    >(&self, rt: &R, alloc: A, env: Env<E, C>, over: Over) -> Result<MemoryEngine<R, A, E, C>> {
        let mut marks = Vec::new(alloc.clone()?);
        let log = if over.has_log {
            let partitions = Vec::from_slice(alloc.clone()?, &[self.log])?;
            let accesses = self.accesses(rt, over.log_access, over)?;
            Some(TombstoneLog::open(alloc.clone()?, partitions, accesses, &mut marks)?)
        } else {
            None
        };
        let disk = self.disk(rt, &alloc, over)?;
        let (hasher, settings, mode) = (IdentityHashBuilder, over.settings(), over.mode);
        LocalEngine::with_log(alloc, hasher, env, settings, disk, mode, &marks, log)
    }

    /// The same with the usual pickers.
    pub fn open<R: Wait + Clone + Drop, A: Allocator + Clone>(
        &self,
        rt: &R,
        alloc: A,
        over: Over,
    ) -> Result<MemoryEngine<R, A, BuiltInPicker, BuiltInCondition>> {
        let env = over.env(self.alloc)?;
        self.open_with(rt, alloc, env, over)
    }

    fn say_opened<R: Wait + Clone + Drop>(
        &self,
        rt: &R,
        said: &mut Said,
        over: Over,
        script: &str,
    ) -> Result<()> {
        match self.open(rt, self.alloc, over) {
            Ok(mut engine) => say_script(self.alloc, said, &mut engine, script),
            Err(error) => {
                say_refused(said, error);
                Ok(())
            }
        }
    }
}

/// Notes what engines answer that are opened over one memory, one after the other, which strokes part: each with what changes for it,
/// and its script.
pub fn say_memory<R: Files + Wait + Clone + Drop>(
    rt: &R,
    alloc: Global,
    said: &mut Said,
    asked: &str,
) -> Result<()> {
    let (words, _) = asked.split_once(" < ").unwrap_or(("", asked));
    let memory = Memory::new(rt, alloc, over_of(USUAL, words))?;
    let mut over = USUAL;
    let mut is_first = true;
    for part in asked.split(" / ") {
        said.word(if is_first { "" } else { " /" });
        is_first = false;
        let (words, script) = part.split_once(" < ").unwrap_or(("", part));
        over = over_of(over, words);
        memory.say_opened(rt, said, over, script)?;
    }
    Ok(())
}

/// The same of an engine over zeros without a device.
pub fn say_zeros(alloc: Global, said: &mut Said, asked: &str) -> Result<()> {
    let (words, script) = asked.split_once(" < ").unwrap_or(("", asked));
    let over = over_of(USUAL, words);
    let env = over.env(alloc)?;
    let mut engine: Texts<Global, MemoryDisk<Global>, NoLog, BuiltInPicker, BuiltInCondition> =
        LocalEngine::open(alloc, IdentityHashBuilder, env, over.settings())?;
    say_script(alloc, said, &mut engine, script)
}

/// The same of one over a device in memory, which has no log.
pub fn say_device<R: Files>(rt: &R, alloc: Global, said: &mut Said, asked: &str) -> Result<()> {
    let (words, script) = asked.split_once(" < ").unwrap_or(("", asked));
    let over = over_of(USUAL, words);
    let disk = open_in_memory(rt, &alloc, over.blocks, over.block_size())?;
    let (env, settings) = (over.env(alloc)?, over.settings());
    let hasher = IdentityHashBuilder;
    let mut engine: Texts<
        Global,
        PartitionedDisk<MemoryIoEngine<Global>, MemoryPartition, Global>,
        NoLog,
        BuiltInPicker,
        BuiltInCondition,
    > = LocalEngine::with_disk(alloc, hasher, env, settings, disk, over.mode)?;
    say_script(alloc, said, &mut engine, script)
}
