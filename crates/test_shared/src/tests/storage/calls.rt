//! What the calls of one thread answer.
ghost use Rattle.std.specs.Prelude.{◌≡◌, ◌<◌, ◌^◌};
ghost use Rattle.foyer_core_tally.specs.Ledgers.{AreOf};

use super::{Numbers, opened, piece_of};
use foyer_core_tally::book::{Blanks, Kinds};
use foyer_device_page::error::{Error, Result};
use foyer_io_gate::gate::OpenGate;
use foyer_storage_engine::core_shared::brief::{ReplyBrief, StepBrief};
use foyer_storage_engine::core_shared::session::Session;
use foyer_storage_engine::engine::Enqueued;
use foyer_storage_engine::load::Load;
use std::alloc::Global;
use std::marker::Brand;
use std::sync::Wait;
use std::test::Fail;

// Whether the newest brief is the end of a load that gave an entry.
fn has_entry<L: Kinds>(session: &Session<L>) -> bool {
    let [newest, _before] = session.last();
    match newest {
        Some(brief) => {
            matches!(brief.step, StepBrief::LoadEnd { .. }) && brief.reply == ReplyBrief::Entry
        }
        None => false,
    }
}

fn value_of<L: Kinds>(
    rt: &impl Wait,
    engine: &Numbers<L, OpenGate>,
    session: &mut Session<L>,
    hash: u64,
) -> Result<Option<u64>>
    requires { 0 < session.old.shares.parts }
{
    match engine.load(rt, session, hash, false)? {
        Load::Entry { value, .. } => Ok(Some(value)),
        Load::Miss => Ok(None),
        _ => Err(Error::Config),
    }
}

// Whether each call answers what one would expect of it.
fn are_answered<L: Kinds>(
    rt: &impl Wait,
    alloc: Global,
    engine: &Numbers<L, OpenGate>,
    session: &mut Session<L>,
) -> Result<bool>
    requires { session.old.shares.parts ≡ 2 ^ 32 }
{
    let found = value_of(rt, engine, &mut session.split(1), 7)? == Some(70);
    let read = {
        let mut own = session.split(1);
        let _ = engine.load(rt, &mut own, 7, false)?;
        has_entry(&own)
    };
    let throttled = engine
        .load(rt, &mut session.split(1), 7, true)?
        .is_throttled();
    let is_there = engine.may_contains(rt, &mut session.split(1), 7)?;
    let is_missing = !engine.may_contains(rt, &mut session.split(1), 8)?;
    let piece = piece_of(alloc, 8, 80)?;
    let queued = engine.enqueue(rt, &mut session.split(1), piece, 16)? == Enqueued::Queued;
    let unwritten = value_of(rt, engine, &mut session.split(1), 8)?.is_none();
    engine.delete(rt, &mut session.split(1), 7)?;
    let deleted = value_of(rt, engine, &mut session.split(1), 7)?.is_none();
    let first = found && read && throttled && is_there;
    Ok(first && is_missing && queued && unwritten && deleted)
}

fn answer_all<L: Kinds, R: Wait>(rt: &R, alloc: Global, blanks: Blanks) -> Result<bool>
    requires { AreOf L.name_of L.all blanks × (L.all ≡ 2 ^ 32) }
{
    let (engine, mut session) = opened::<L, OpenGate>(alloc, OpenGate, blanks)?;
    are_answered(rt, alloc, &engine, &mut session)
}

#[test]
fn calls_answer_what_was_written_queued_and_deleted(
    rt: HostRuntime,
) -> std::result::Result<(), Fail> {
    assert!(rt; answer_all::<Brand, HostRuntime>(&rt, rt.alloc(), Blanks::new(1 << 32))?);
    Ok(())
}
