//! A core of numbers behind its lock, asked by the words of a script: a letter for the step, and a digit for its hash.
ghost use Rattle.std.specs.Prelude.{◌≡◌, ◌<◌, ◌^◌, IfOk};
ghost use Rattle.foyer_core_tally.specs.Ledgers.{AreOf};

use foyer_block_manager::block::eviction::BuiltInPicker;
use foyer_block_recover::block::listing::Listings;
use foyer_core_tally::book::{Blanks, Kinds};
use foyer_device_page::error::{Error, Result};
use foyer_format_record::serde::{Age, Properties};
use foyer_io_blocks::memory::MemoryDisk;
use foyer_policy_filter::BuiltInCondition;
use foyer_policy_piece::keeper::{Piece, PieceRef};
use foyer_storage_engine::core_shared::locked::Locked;
use foyer_storage_engine::core_shared::notes::Noting;
use foyer_storage_engine::core_shared::session::Session;
use foyer_storage_engine::core_shared::shared::Shared;
use foyer_storage_engine::core_steps::apply::{Env, no_io};
use foyer_storage_engine::core_steps::open::RecoverMode;
use foyer_storage_engine::core_steps::settings::Settings;
use foyer_storage_engine::core_steps::step::Step;
use std::alloc::{Allocator, Global};
use std::sync::Wait;

mod refusals;
mod scripts;
mod threads;

/// Pieces of these tests have no age.
#[derive(Clone, Copy, Debug, PartialEq, Eq)]
struct Plain;

impl Properties for Plain {
    ghost use Rattle.std.specs.Prelude.{None};

    ghost age = { λ _. None };

    fn age(&self) -> Option<Age> {
        None
    }
}

type Given<A> = Step<u64, u64, Plain, A>;

type Numbers<L, A, N> = Shared<L, u64, u64, Plain, A, BuiltInPicker, BuiltInCondition, N>;

type Inside<L, A, N> = Locked<L, u64, u64, Plain, A, BuiltInPicker, BuiltInCondition, N>;

// A core over two blocks in memory.
fn opened<L: Kinds, A: Allocator + Clone, N: Noting>(
    alloc: &A,
    global: Global,
    blanks: Blanks,
) -> Result<(Inside<L, A, N>, Session<L>)>
    requires { AreOf L.name_of L.all blanks × (L.all ≡ 2 ^ 32) }
    ensures { IfOk result (λ r. r.1.shares.parts ≡ L.all) }
{
    let env = Env::with_default_pickers(global, 0)?;
    let settings = Settings::new(2, 16384);
    let mut disk = MemoryDisk::new(alloc.clone()?, settings.blocks, settings.block_size)?;
    let handle = alloc.clone()?;
    let mode = RecoverMode::None;
    let none = Listings::none(alloc.clone()?);
    Locked::open(handle, env, settings, &mut disk, mode, &[], none, blanks)
}

// The step of a word: `e1` enqueues, `b1` too, with more than may be queued, `d1` deletes, `m1` asks for, `l1` looks up, `f0` ends a batch of a flusher.
fn step_of<A: Allocator + Clone>(alloc: &A, word: u8, digit: u8) -> Result<Given<A>> {
    let hash = u64::from(digit.saturating_sub(b'0'));
    match word {
        b'e' => Ok(Step::Enqueue {
            piece: PieceRef::from(Piece::new(alloc.clone()?, hash, hash, hash, Plain)?),
            size: 16,
        }),
        b'b' => Ok(Step::Enqueue {
            piece: PieceRef::from(Piece::new(alloc.clone()?, hash, hash, hash, Plain)?),
            size: 1 << 25,
        }),
        b'd' => Ok(Step::Delete { hash }),
        b'm' => Ok(Step::MayContains { hash }),
        b'l' => Ok(Step::LoadBegin {
            hash,
            throttled: false,
        }),
        b'f' => Ok(Step::FlushEnd { flusher: 0 }),
        b'c' => Ok(Step::Close),
        b'r' => Ok(Step::DestroyClear),
        _ => Err(Error::Parse),
    }
}

// Asks, and forgets the reply: the session's briefs have it.
fn ask<L: Kinds, A: Allocator + Clone, N: Noting>(
    rt: &impl Wait,
    shared: &Numbers<L, A, N>,
    session: &mut Session<L>,
    step: Given<A>,
)
    requires { 0 < session.old.shares.parts }
    ensures { session.new.shares.parts ≡ session.old.shares.parts }
{
    let _ = shared.step(rt, session, no_io(), step);
}
