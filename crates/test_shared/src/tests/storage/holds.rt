//! A load that is held before its read, while another thread's calls are answered.
ghost use Rattle.std.specs.Prelude.{◌≡◌, ◌-◌, ◌<◌, ◌^◌};
ghost use Rattle.foyer_core_tally.specs.Ledgers.{AreOf};

use super::{Numbers, opened};
use foyer_core_tally::book::{Blanks, Kinds};
use foyer_device_page::error::Result;
use foyer_io_gate::gate::{Gate, Point};
use foyer_storage_engine::core_shared::session::Session;
use foyer_storage_engine::load::Load;
use std::alloc::Global;
use std::marker::Brand;
use std::sync::atomic::{AtomicBool, Ordering};
use std::sync::{Arc, Wait};
use std::test::Fail;
use std::thread;
use std::thread::Threads;

// How many turns a thread waits for a flag.
const TURNS: u32 = 1_000_000;

fn is_raised(flag: &AtomicBool) -> bool {
    for _ in 0..TURNS {
        if flag.load(Ordering::SeqCst) {
            return true;
        }
        thread::yield_now();
    }
    false
}

#[derive(Drop)]
struct Flags {
    came: AtomicBool,
    is_open: AtomicBool,
}

// Holds each load before its read until the gate is open.
#[derive(Drop)]
struct HoldingGate {
    flags: Arc<Flags, Global>,
}

impl Gate for HoldingGate {
    fn pass(&self, point: Point) {
        if point == Point::LoadRead {
            self.flags.came.store(true, Ordering::SeqCst);
            let _ = is_raised(&self.flags.is_open);
        }
    }
}

fn loads<L: Kinds>(
    rt: &impl Wait,
    engine: &Numbers<L, HoldingGate>,
    mut session: Session<L>,
) -> Result<bool>
    requires { 0 < session.shares.parts }
{
    match engine.load(rt, &mut session, 7, false)? {
        Load::Entry { value, .. } => Ok(value == 70),
        _ => Ok(false),
    }
}

// Whether a question was answered while the load was held, before the gate was opened.
fn asks<L: Kinds>(
    rt: &impl Wait,
    engine: &Numbers<L, HoldingGate>,
    flags: &Flags,
    mut session: Session<L>,
) -> Result<bool>
    requires { 0 < session.shares.parts }
{
    let came = is_raised(&flags.came);
    let is_there = engine.may_contains(rt, &mut session, 7);
    let is_held = !flags.is_open.load(Ordering::SeqCst);
    flags.is_open.store(true, Ordering::SeqCst);
    Ok(came && is_held && is_there?)
}

fn is_answered<L: Kinds + Send + Sync, R: Threads + Wait + Sync>(
    rt: &R,
    alloc: Global,
    blanks: Blanks,
) -> Result<bool>
    requires { AreOf L.name_of L.all blanks × (L.all ≡ 2 ^ 32) }
{
    let flags = Arc::new(
        alloc,
        Flags {
            came: AtomicBool::new(false),
            is_open: AtomicBool::new(false),
        },
    )?;
    let gate = HoldingGate {
        flags: Arc::try_clone(&flags)?,
    };
    let (engine, mut one) = opened::<L, HoldingGate>(alloc, gate, blanks)?;
    let two = one.split(1);
    let lent = &engine;
    let seen: &Flags = &flags;
    let (loaded, asked) = thread::join(
        rt,
        move || -> Result<bool>
            requires { one.shares.parts ≡ 2 ^ 32 - 1 }
        { loads(rt, lent, one) },
        move || -> Result<bool>
            requires { two.shares.parts ≡ 1 }
        { asks(rt, lent, seen, two) },
    );
    Ok(loaded? && asked?)
}

#[test]
fn a_question_is_answered_while_a_load_is_held_before_its_read(
    rt: HostRuntime,
) -> std::result::Result<(), Fail> {
    assert!(rt; is_answered::<Brand, HostRuntime>(&rt, rt.alloc(), Blanks::new(1 << 32))?);
    Ok(())
}
