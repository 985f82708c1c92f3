//! README's example, word for word, and what it gives; and a core by itself, by the door alone.
ghost use Rattle.foyer_storage.specs.Ledgers.{AreOf};
ghost use Rattle.std.specs.Prelude.{◌≡◌, ◌^◌};

use foyer_storage::error::Result;
use foyer_storage::{
    Blanks, BlockEngineConfig, Core, Device, DeviceBuilder, EntrySerializer, Env,
    IdentityHashBuilder, IoEngineConfig, Kinds, Load, MemoryDeviceBuilder, MemoryDisk,
    MemoryIoEngine, Moment, NoProperties, Piece, PieceRef, RecoverMode, Reply, Settings,
    SharedMemoryIoEngineConfig, Step, StoreBuilder,
};
use std::alloc::Global;
use std::marker::Brand;
use std::rt::Files;
use std::sync::Wait;
use std::test::Fail;
use std::thread::Threads;

/// Puts a value into a store over any device, waits until it is written, and loads it.
fn put_and_load<L, R, D, I>(
    rt: R,
    alloc: Global,
    blanks: Blanks,
    builder: StoreBuilder<IdentityHashBuilder, BlockEngineConfig<D>, I>,
) -> Result<bool>
where
    L: Kinds + Send + Sync + 'static,
    R: Threads + Wait + Files + Copy + Send + 'static,
    D: Device,
    D::Partition: Drop + Send + 'static,
    I: IoEngineConfig<R> + Drop,
    I::Engine: Send + 'static,
    requires { AreOf L.name_of L.all blanks × (L.all ≡ 2 ^ 32) }
{
    let moment = Moment(0);
    let (store, mut session, workers) = builder.build::<R, Moment, L, u64, String, NoProperties>(
        rt, alloc, blanks, moment, 0,
    )?;
    let value = String::from_str(alloc, "a")?;
    let _ = store.put(&rt, alloc, &mut session, 1, value, NoProperties, 0)?;
    store.wait(&rt, &mut session)?;
    let is_there = matches!(store.load(&rt, &mut session, &1, 0)?, Load::Entry { .. });
    store.close(&rt, &mut session)?;
    let _ = workers.join(&rt, session.into_steps());
    Ok(is_there)
}

/// A store over four blocks in memory, with its workers, reads back what was put.
fn is_read_back<L, R>(rt: R, alloc: Global, blanks: Blanks) -> Result<bool>
where
    L: Kinds + Send + Sync + 'static,
    R: Threads + Wait + Files + Copy + Send + 'static,
    requires { AreOf L.name_of L.all blanks × (L.all ≡ 2 ^ 32) }
{
    let device = MemoryDeviceBuilder::new(65536).build(&rt, alloc, 0)?;
    let mut memory = MemoryIoEngine::new(alloc);
    memory.add_file(alloc, 65536)?;
    let builder = StoreBuilder::new("example", IdentityHashBuilder, 4)
        .with_engine_config(BlockEngineConfig::new(device).with_block_size(16384))
        .with_io_engine_config(SharedMemoryIoEngineConfig::new(alloc, memory)?);
    put_and_load::<L, R, _, _>(rt, alloc, blanks, builder)
}

/// Asks a core by itself for the sequence of a put. The core gives one reply to each step, and touches a disk only when it is opened.
fn first_sequence(alloc: Global) -> Result<Option<u64>> {
    let mut env = Env::with_default_pickers(alloc, 0)?;
    let settings = Settings::new(1, 16384);
    let mut disk = MemoryDisk::new(alloc, settings.blocks, settings.block_size)?;
    let mode = RecoverMode::Quiet;
    let mut core = Core::open(alloc, &mut env, settings, &mut disk, mode, &[])?;
    let value = String::from_str(alloc, "a")?;
    let piece = Piece::new(alloc, 1u64, value, 1, NoProperties)?;
    let size = EntrySerializer::estimated_size::<Global, u64, String>(piece.key(), piece.value());
    let piece = PieceRef::from(piece);
    match core.apply(&mut env, Step::Enqueue { piece, size }) {
        Reply::Queued(sequence) => Ok(Some(sequence)),
        _ => Ok(None),
    }
}

#[test]
fn the_example_of_the_readme_runs(rt: HostRuntime) -> std::result::Result<(), Fail> {
    let blanks = Blanks::new(1 << 32);
    assert!(rt; is_read_back::<Brand, HostRuntime>(rt, rt.alloc(), blanks)?);
    Ok(())
}

#[test]
fn a_core_by_itself_gives_a_sequence(rt: HostRuntime) -> std::result::Result<(), Fail> {
    assert!(rt; first_sequence(rt.alloc())? == Some(1));
    Ok(())
}
