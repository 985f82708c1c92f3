//! An engine over a disk on which one record was written: hash 7, key 7, value 70.
ghost use Rattle.std.specs.Prelude.{◌≡◌, ◌<◌, ◌^◌, IfOk};
ghost use Rattle.foyer_core_tally.specs.Ledgers.{AreOf};

use foyer_block_manager::block::eviction::BuiltInPicker;
use foyer_block_recover::block::listing::Listings;
use foyer_core_run::accesses::{step, write_block};
use foyer_core_tally::book::{Blanks, Kinds};
use foyer_device_page::error::{Error, Result};
use foyer_format_record::serde::{Age, Properties};
use foyer_io_blocks::memory::MemoryDisk;
use foyer_io_gate::gate::Gate;
use foyer_policy_filter::BuiltInCondition;
use foyer_policy_piece::keeper::{Piece, PieceRef};
use foyer_storage_engine::core_shared::locked::Locked;
use foyer_storage_engine::core_shared::notes::NoNotes;
use foyer_storage_engine::core_shared::session::Session;
use foyer_storage_engine::core_shared::shared::Shared;
use foyer_storage_engine::core_steps::apply::Env;
use foyer_storage_engine::core_steps::open::RecoverMode;
use foyer_storage_engine::core_steps::reply::Reply;
use foyer_storage_engine::core_steps::settings::Settings;
use foyer_storage_engine::core_steps::state::Core;
use foyer_storage_engine::core_steps::step::Step;
use foyer_storage_engine::engine::BlockEngine;
use std::alloc::Global;

mod calls;
mod holds;

/// Pieces of these tests have no age.
#[derive(Clone, Copy, Debug, PartialEq, Eq)]
struct Plain;

impl Properties for Plain {
    ghost use Rattle.std.specs.Prelude.{None};

    ghost age = { λ _. None };

    fn age(&self) -> Option<Age> {
        None
    }
}

type Given = Step<u64, u64, Plain, Global>;

type Numbers<L, G> = BlockEngine<
    L,
    u64,
    u64,
    Plain,
    Global,
    BuiltInPicker,
    BuiltInCondition,
    MemoryDisk<Global>,
    G,
    NoNotes,
>;

type Inside<L> = Locked<L, u64, u64, Plain, Global, BuiltInPicker, BuiltInCondition, NoNotes>;

fn piece_of(alloc: Global, hash: u64, value: u64) -> Result<PieceRef<u64, u64, Plain, Global>> {
    let piece = Piece::new(alloc, hash, value, hash, Plain)?;
    Ok(PieceRef::from(piece))
}

// A disk of two blocks, in which the record stands.
fn written(alloc: Global) -> Result<MemoryDisk<Global>> {
    let mut env = Env::with_default_pickers(alloc, 0)?;
    let settings = Settings::new(2, 16384);
    let mut disk = MemoryDisk::new(alloc, settings.blocks, settings.block_size)?;
    let mode = RecoverMode::None;
    let opened: Result<Core<u64, u64, Plain, Global>> = Core::open(
        alloc,
        &mut env,
        settings,
        &mut disk,
        mode,
        &[],
    );
    let mut core = opened?;
    let piece = piece_of(alloc, 7, 70)?;
    let _ = core.apply(&mut env, Step::Enqueue { piece, size: 16 });
    let _ = step(&mut core, &mut env, Step::Receive { flusher: 0 });
    let _ = step(&mut core, &mut env, Step::FlushBegin { flusher: 0 });
    match write_block(&mut core, &mut env, &mut disk, 0) {
        Some(Reply::Committed(1)) => Ok(disk),
        _ => Err(Error::Config),
    }
}

// An engine that was opened over that disk, and a session with all parts.
fn opened<L: Kinds, G: Gate>(
    alloc: Global,
    gate: G,
    blanks: Blanks,
) -> Result<(Numbers<L, G>, Session<L>)>
    requires { AreOf L.name_of L.all blanks × (L.all ≡ 2 ^ 32) }
    ensures { IfOk result (λ r. r.1.shares.parts ≡ L.all) }
{
    let env = Env::with_default_pickers(alloc, 0)?;
    let settings = Settings::new(2, 16384);
    let mut disk = written(alloc)?;
    let mode = RecoverMode::Quiet;
    let made: Result<(Inside<L>, Session<L>)> = Locked::open(
        alloc,
        env,
        settings,
        &mut disk,
        mode,
        &[],
        Listings::none(alloc),
        blanks,
    );
    let (locked, session) = made?;
    let engine = BlockEngine::new(alloc, Shared::new(locked), settings, disk, gate)?;
    Ok((engine, session))
}
