//! The configs that words lead to, and what stores of them answer.
ghost use Rattle.std.specs.Prelude.{◌≡◌, ◌^◌};
ghost use Rattle.foyer_core_tally.specs.Ledgers.{AreOf};
ghost use Rattle.foyer_storage_cores.specs.CoreLedgers.{AreOfCores};

use crate::tests::asked::LowBits;
use crate::tests::built::{Asked, answers_of_cores, answers_of_nothing, answers_over};
use crate::tests::gates::HoldingGate;
use crate::tests::memories::{CoreMemories, SameMemory};
use crate::tests::over::{Kind, Over, Picks, Sizes};
use crate::tests::pickers::{any, odd_alone, odd_in_a_box, own};
use foyer_core_tally::book::{Blanks, Kinds};
use foyer_device_page::error::Result;
use foyer_device_partition::io::device::{
    CombinedDevice, CombinedDeviceBuilder, Device, DeviceBuilder, MemoryDevice,
    MemoryDeviceBuilder, PartialDevice, PartialDeviceBuilder, Throttle,
};
use foyer_io_engine::io::engine::FaultIoEngineConfig;
use foyer_policy_filter::{
    BuiltInCondition, EstimatedSize, IoThrottle, RejectAll, StorageFilter, StorageFilterCondition,
};
use foyer_program::store::builder::StoreBuilder;
use foyer_program::store::config::{BlockEngineConfig, DefaultPickers, PickerSource};
use foyer_program::store::cores::kinds::{CoreBlanks, CoreKinds};
use foyer_testing::said::Said;
use std::alloc::Global;
use std::marker::Brand;
use std::ops::Bound;
use std::rt::Files;
use std::sync::Wait;
use std::thread::Threads;

/// A config over a device, with the pickers and conditions that a config has if none are given.
pub(crate) type Blocks<D> = BlockEngineConfig<D, DefaultPickers, BuiltInCondition, HoldingGate>;

// Builds the engine of a core.
type CoreBuilder = StoreBuilder<
    LowBits,
    Blocks<MemoryDevice<Global>>,
    FaultIoEngineConfig<SameMemory>,
>;

fn filter_of(alloc: Global, admits: bool) -> Result<StorageFilter<BuiltInCondition, Global>> {
    let filter = StorageFilter::new();
    if admits {
        return Ok(filter);
    }
    filter.with_condition(alloc, BuiltInCondition::RejectAll(RejectAll))
}

// Gives the filter of what is written again when a block is reclaimed. It takes no record, or those of 68 bytes and more, which have texts of
// eight bytes and more. It may take these only if no write has to wait.
fn again_of(alloc: Global, over: &Over) -> Result<StorageFilter<BuiltInCondition, Global>> {
    if !over.writes_again {
        return filter_of(alloc, false);
    }
    let long = EstimatedSize::new(Bound::Included(68), Bound::Unbounded);
    let filter = StorageFilter::new().with_condition(alloc, BuiltInCondition::EstimatedSize(long))?;
    if !over.is_patient {
        return Ok(filter);
    }
    filter.with_condition(alloc, BuiltInCondition::IoThrottle(IoThrottle))
}

// Gives the same config, except for its sizes.
fn sized<D: Device>(config: Blocks<D>, sizes: &Sizes) -> Blocks<D> {
    let config = config
        .with_block_size(sizes.block_size())
        .with_blob_index_size(sizes.index)
        .with_recover_concurrency(sizes.recoverers)
        .with_load_engines(sizes.loads)
        .with_flushers(sizes.flushers)
        .with_reclaimers(sizes.reclaimers)
        .with_buffer_pool_size(sizes.buffer)
        .with_clean_block_threshold(sizes.clean)
        .with_submit_queue_size_threshold(sizes.queue)
        .with_enqueue_patience(sizes.patience)
        .with_tombstone_log(sizes.has_log);
    match sizes.index_shards {
        Some(shards) => config.with_indexer_shards(shards),
        None => config,
    }
}

/// Makes a config over a device, as words say, except for its pickers. Errors: `Memory`.
pub(crate) fn config_of<D: Device>(
    alloc: Global,
    device: D,
    over: &Over,
    gate: &HoldingGate,
) -> Result<Blocks<D>> {
    let gate = gate.share()?;
    let filter = filter_of(alloc, over.admits)?;
    let again = again_of(alloc, over)?;
    let config = BlockEngineConfig::new(device)
        .with_admission_filter(filter)
        .with_reinsertion_filter(again)
        .with_gate(gate);
    Ok(sized(config, &over.sizes))
}

fn memory_of<R: Files>(
    rt: &R,
    alloc: Global,
    bytes: usize,
    limits: Throttle,
) -> Result<MemoryDevice<Global>> {
    MemoryDeviceBuilder::new(bytes)
        .with_throttle(limits)
        .build(rt, alloc, 0)
}

// A part of a device.
fn partial_of<R: Files>(
    rt: &R,
    alloc: Global,
    over: &Over,
) -> Result<PartialDevice<MemoryDevice<Global>>> {
    let bytes = over.sizes.capacity();
    let whole = memory_of(rt, alloc, bytes.saturating_mul(2), over.limits.throttle())?;
    PartialDeviceBuilder::new(whole)
        .with_capacity(bytes)
        .build(rt, alloc, 0)
}

// Two devices as one.
fn combined_of<R: Files>(
    rt: &R,
    alloc: Global,
    over: &Over,
) -> Result<CombinedDevice<MemoryDevice<Global>, Global>> {
    let half = over.sizes.capacity() / 2;
    let none = Throttle::new();
    CombinedDeviceBuilder::new(alloc)
        .with_throttle(over.limits.throttle())
        .with_device(memory_of(rt, alloc, half, none)?)?
        .with_device(memory_of(rt, alloc, half, none)?)?
        .build(rt, alloc, 0)
}

// Of a config that has all but its I/O engines.
fn answers_by<L, R, D, S, C>(
    rt: R,
    alloc: Global,
    blanks: Blanks,
    asked: &Asked,
    memory: &SameMemory,
    config: BlockEngineConfig<D, S, C, HoldingGate>,
) -> Result<Said>
where
    L: Kinds + Send + Sync + 'static,
    R: Threads + Wait + Files + Copy + Send + Sync + 'static,
    D: Device,
    D::Partition: Drop + Send + Sync + 'static,
    S: PickerSource,
    S::Picker: Send + 'static,
    C: StorageFilterCondition + Send + Sync + 'static,
    requires { AreOf L.name_of L.all blanks × (L.all ≡ 2 ^ 32) }
{
    let over = &asked.over;
    let accesses = FaultIoEngineConfig::new(memory.share()?, over.access, over.kept, over.stops);
    let builder = StoreBuilder::new("blocks", LowBits, over.shards)
        .with_engine_config(config)
        .with_io_engine_config(accesses)
        .with_compression(over.compression)
        .with_recover_mode(over.mode);
    Ok(answers_over::<L, R, _, _, _, _, _>(rt, alloc, blanks, builder, asked))
}

// Of one over a device of memory, by its pickers.
fn answers_by_pickers<L, R>(
    rt: R,
    alloc: Global,
    blanks: Blanks,
    asked: &Asked,
    memory: &SameMemory,
    config: Blocks<MemoryDevice<Global>>,
) -> Result<Said>
where
    L: Kinds + Send + Sync + 'static,
    R: Threads + Wait + Files + Copy + Send + Sync + 'static,
    requires { AreOf L.name_of L.all blanks × (L.all ≡ 2 ^ 32) }
{
    let picks = asked.over.picks;
    if picks == Picks::Usual {
        return answers_by::<L, R, _, _, _>(rt, alloc, blanks, asked, memory, config);
    }
    if picks == Picks::Own {
        let config = config
            .with_eviction_pickers(own(alloc)?)
            .with_filters(Some(odd_alone(alloc)?), None);
        return answers_by::<L, R, _, _, _>(rt, alloc, blanks, asked, memory, config);
    }
    let config = config.with_eviction_pickers(any(alloc, picks)?);
    if picks == Picks::Boxed {
        let config = config.with_filters(Some(odd_in_a_box(alloc)?), None);
        return answers_by::<L, R, _, _, _>(rt, alloc, blanks, asked, memory, config);
    }
    answers_by::<L, R, _, _, _>(rt, alloc, blanks, asked, memory, config)
}

// Of one over memory.
fn answers_in_memory<L, R>(
    rt: R,
    alloc: Global,
    blanks: Blanks,
    asked: &Asked,
    memory: &SameMemory,
) -> Result<Said>
where
    L: Kinds + Send + Sync + 'static,
    R: Threads + Wait + Files + Copy + Send + Sync + 'static,
    requires { AreOf L.name_of L.all blanks × (L.all ≡ 2 ^ 32) }
{
    let over = &asked.over;
    let device = memory_of(&rt, alloc, over.sizes.capacity(), over.limits.throttle())?;
    let config = config_of(alloc, device, over, &asked.gate)?;
    answers_by_pickers::<L, R>(rt, alloc, blanks, asked, memory, config)
}

// Of one over a part of a device.
fn answers_in_part<L, R>(
    rt: R,
    alloc: Global,
    blanks: Blanks,
    asked: &Asked,
    memory: &SameMemory,
) -> Result<Said>
where
    L: Kinds + Send + Sync + 'static,
    R: Threads + Wait + Files + Copy + Send + Sync + 'static,
    requires { AreOf L.name_of L.all blanks × (L.all ≡ 2 ^ 32) }
{
    let device = partial_of(&rt, alloc, &asked.over)?;
    let config = config_of(alloc, device, &asked.over, &asked.gate)?;
    answers_by::<L, R, _, _, _>(rt, alloc, blanks, asked, memory, config)
}

// Of one over two devices.
fn answers_in_two<L, R>(
    rt: R,
    alloc: Global,
    blanks: Blanks,
    asked: &Asked,
    memory: &SameMemory,
) -> Result<Said>
where
    L: Kinds + Send + Sync + 'static,
    R: Threads + Wait + Files + Copy + Send + Sync + 'static,
    requires { AreOf L.name_of L.all blanks × (L.all ≡ 2 ^ 32) }
{
    let device = combined_of(&rt, alloc, &asked.over)?;
    let config = config_of(alloc, device, &asked.over, &asked.gate)?;
    answers_by::<L, R, _, _, _>(rt, alloc, blanks, asked, memory, config)
}

// The builder of a core's engine, over a device of memory of its own.
fn core_builder<R: Files>(
    rt: &R,
    alloc: Global,
    asked: &Asked,
    memory: &SameMemory,
) -> Result<CoreBuilder> {
    let over = &asked.over;
    let device = memory_of(rt, alloc, over.sizes.capacity(), over.limits.throttle())?;
    let config = config_of(alloc, device, over, &asked.gate)?;
    let accesses = FaultIoEngineConfig::new(memory.share()?, over.access, over.kept, over.stops);
    Ok(
        StoreBuilder::new("blocks", LowBits, over.shards)
            .with_engine_config(config)
            .with_io_engine_config(accesses)
            .with_compression(over.compression)
            .with_recover_mode(over.mode),
    )
}

// Of a store that is opened core by core.
fn answers_in_cores<L, R>(
    rt: R,
    alloc: Global,
    blanks: CoreBlanks,
    asked: &Asked,
    memories: &CoreMemories,
) -> Result<Said>
where
    L: Kinds + Send + Sync + 'static,
    R: Threads + Wait + Files + Copy + Send + Sync + 'static,
    requires { AreOfCores L.name_of L.all blanks × (L.all ≡ 2 ^ 32) }
{
    let mut builders = Vec::new(alloc);
    for core in 0..asked.over.cores {
        let memory = memories.of_core(core);
        builders.push(core_builder(&rt, alloc, asked, memory)?)?;
    }
    answers_of_cores::<L, R, _, _, _, _, _>(rt, alloc, blanks, builders, asked)
}

fn answers_of<L, R>(
    rt: R,
    alloc: Global,
    blanks: CoreBlanks,
    asked: &Asked,
    memories: &CoreMemories,
) -> Result<Said>
where
    L: Kinds + Send + Sync + 'static,
    R: Threads + Wait + Files + Copy + Send + Sync + 'static,
    requires { AreOfCores L.name_of L.all blanks × (L.all ≡ 2 ^ 32) }
{
    if asked.over.cores > 0 {
        return answers_in_cores::<L, R>(rt, alloc, blanks, asked, memories);
    }
    let (first, _, _, _) = blanks.into_parts();
    answers_in_one::<CoreKinds<L, 0>, R>(rt, alloc, first, asked, &memories.first)
}

// Of one that is built of its one engine.
fn answers_in_one<L, R>(
    rt: R,
    alloc: Global,
    blanks: Blanks,
    asked: &Asked,
    memory: &SameMemory,
) -> Result<Said>
where
    L: Kinds + Send + Sync + 'static,
    R: Threads + Wait + Files + Copy + Send + Sync + 'static,
    requires { AreOf L.name_of L.all blanks × (L.all ≡ 2 ^ 32) }
{
    if asked.over.is_nothing {
        return Ok(answers_of_nothing::<L, R>(rt, alloc, blanks, asked));
    }
    match asked.over.kind {
        Kind::Memory => answers_in_memory::<L, R>(rt, alloc, blanks, asked, memory),
        Kind::Partial => answers_in_part::<L, R>(rt, alloc, blanks, asked, memory),
        Kind::Combined => answers_in_two::<L, R>(rt, alloc, blanks, asked, memory),
    }
}

/// What a store answers to a script, once it is built over a memory.
pub(crate) fn opened<R: Threads + Wait + Files + Copy + Send + Sync + 'static>(
    rt: R,
    alloc: Global,
    over: Over,
    script: &str,
    memories: &CoreMemories,
) -> Result<String> {
    let asked = Asked::new(alloc, over, script)?;
    answers_of::<Brand, R>(rt, alloc, CoreBlanks::new(1 << 32), &asked, memories)?.text()
}
