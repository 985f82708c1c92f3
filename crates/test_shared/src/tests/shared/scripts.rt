//! What two sessions leave in their briefs, and in the notes.
ghost use Rattle.std.specs.Prelude.{◌≡◌, ◌<◌, ◌^◌};
ghost use Rattle.foyer_core_tally.specs.Ledgers.{AreOf};

use super::{Inside, Numbers, ask, opened, step_of};
use foyer_core_tally::book::{Blanks, Kinds};
use foyer_device_page::error::{Error, Result};
use foyer_storage_engine::core_shared::brief::{Brief, ReplyBrief, StepBrief};
use foyer_storage_engine::core_shared::notes::{KeepsNotes, NoNotes, Noting};
use foyer_storage_engine::core_shared::session::Session;
use foyer_storage_engine::core_shared::shared::Shared;
use foyer_storage_engine::core_steps::open::RecoverMode;
use std::alloc::Global;
use std::marker::Brand;
use std::sync::Wait;
use std::test::Fail;

// The last two briefs of either session, newest first, and all notes.
#[derive(Drop)]
struct Wanted {
    first: [Option<Brief>; 2],
    second: [Option<Brief>; 2],
    notes: Vec<Brief>,
}

// Makes the steps of a script, those of words behind a dash by the second session.
fn make_all<L: Kinds, N: Noting>(
    rt: &impl Wait,
    alloc: Global,
    shared: &Numbers<L, Global, N>,
    first: &mut Session<L>,
    second: &mut Session<L>,
    script: &str,
) -> Result<()>
    requires { (0 < first.old.shares.parts) × (0 < second.old.shares.parts) }
    ensures parts { first.new.shares.parts ≡ first.old.shares.parts }
    ensures other { second.new.shares.parts ≡ second.old.shares.parts }
{
    for word in script.split(' ') {
        match word.as_bytes() {
            [letter, digit] => ask(rt, shared, first, step_of(&alloc, *letter, *digit)?),
            [b'-', letter, digit] => ask(rt, shared, second, step_of(&alloc, *letter, *digit)?),
            _ => return Err(Error::Parse),
        }
    }
    Ok(())
}

fn all_notes<L: Kinds, N: Noting>(
    alloc: Global,
    locked: &Inside<L, Global, N>,
) -> Result<Vec<Brief>> {
    let mut all = Vec::new(alloc);
    let Some(notes) = locked.notes() else {
        return Ok(all);
    };
    for place in 0..10_000 {
        match notes.get(place) {
            Some(note) => all.push(note)?,
            None => return Ok(all),
        }
    }
    Err(Error::OutOfRange)
}

// Whether the sessions and the notes have what is wanted of them.
fn has_wanted<L: Kinds, R: Wait, N: Noting>(
    rt: &R,
    alloc: Global,
    case: Case,
    blanks: Blanks,
) -> Result<bool>
    requires { AreOf L.name_of L.all blanks × (L.all ≡ 2 ^ 32) }
{
    let (locked, mut first) = opened::<L, Global, N>(&alloc, alloc, blanks)?;
    let shared = Shared::new(locked);
    let mut second = first.split(5);
    make_all(rt, alloc, &shared, &mut first, &mut second, script_of(case))?;
    let wanted = wanted_of(alloc, case)?;
    let are_briefs = first.last() == wanted.first && second.last() == wanted.second;
    first.join(second);
    let locked = shared.close(&mut first);
    let notes = all_notes(alloc, &locked)?;
    Ok(are_briefs && notes.as_slice() == wanted.notes.as_slice())
}

fn brief(step: StepBrief, reply: ReplyBrief) -> Brief {
    Brief { step, reply }
}

const BEGIN: StepBrief = StepBrief::LoadBegin {
    hash: 1,
    throttled: false,
};

// What is looked at: a session's last two briefs, without notes; a step that comes back; the notes of two sessions.
#[derive(Clone, Copy, PartialEq, Eq)]
enum Case {
    LastTwo,
    ComesBack,
    AllNotes,
}

fn script_of(case: Case) -> &'static str {
    match case {
        Case::LastTwo => "e1 d1 l1",
        Case::ComesBack => "f0",
        Case::AllNotes => "e1 d1 l1 -m1",
    }
}

fn wanted_of(alloc: Global, case: Case) -> Result<Wanted> {
    let enqueue = brief(
        StepBrief::Enqueue { hash: 1, size: 16 },
        ReplyBrief::Queued(1),
    );
    let delete = brief(StepBrief::Delete { hash: 1 }, ReplyBrief::Deleted(2));
    let miss = brief(BEGIN, ReplyBrief::Miss);
    let asked = brief(
        StepBrief::MayContains { hash: 1 },
        ReplyBrief::Answer(false),
    );
    let back = brief(StepBrief::FlushEnd { flusher: 0 }, ReplyBrief::NotNow);
    match case {
        Case::LastTwo => Ok(Wanted {
            first: [Some(miss), Some(delete)],
            second: [None, None],
            notes: Vec::new(alloc),
        }),
        Case::ComesBack => Ok(Wanted {
            first: [Some(back), None],
            second: [None, None],
            notes: Vec::from_slice(alloc, &[back])?,
        }),
        Case::AllNotes => Ok(Wanted {
            first: [Some(miss), Some(delete)],
            second: [Some(asked), None],
            notes: Vec::from_slice(alloc, &[enqueue, delete, miss, asked])?,
        }),
    }
}

#[test]
fn a_session_has_its_last_two_steps_with_their_replies(
    rt: HostRuntime,
) -> std::result::Result<(), Fail> {
    let blanks = Blanks::new(1 << 32);
    assert!(rt; has_wanted::<Brand, HostRuntime, NoNotes>(&rt, rt.alloc(), Case::LastTwo, blanks)?);
    Ok(())
}

#[test]
fn a_returned_step_is_noted_too(rt: HostRuntime) -> std::result::Result<(), Fail> {
    let blanks = Blanks::new(1 << 32);
    assert!(rt;
        has_wanted::<Brand, HostRuntime, KeepsNotes>(&rt, rt.alloc(), Case::ComesBack, blanks)?
    );
    Ok(())
}

#[test]
fn the_notes_are_the_steps_of_all_sessions_in_order(
    rt: HostRuntime,
) -> std::result::Result<(), Fail> {
    let blanks = Blanks::new(1 << 32);
    assert!(rt;
        has_wanted::<Brand, HostRuntime, KeepsNotes>(&rt, rt.alloc(), Case::AllNotes, blanks)?
    );
    Ok(())
}

// Whether each session has counted what it got, one kind at a time, and both together what all notes are.
fn are_tallied<L: Kinds, R: Wait>(rt: &R, alloc: Global, blanks: Blanks) -> Result<bool>
    requires { AreOf L.name_of L.all blanks × (L.all ≡ 2 ^ 32) }
{
    let (locked, mut first) = opened::<L, Global, KeepsNotes>(&alloc, alloc, blanks)?;
    let shared = Shared::new(locked);
    let mut second = first.split(5);
    make_all(
        rt,
        alloc,
        &shared,
        &mut first,
        &mut second,
        script_of(Case::AllNotes),
    )?;
    let (one, two) = (first.tally(), second.tally());
    first.join(second);
    let both = first.tally();
    let locked = shared.close(&mut first);
    let notes = all_notes(alloc, &locked)?;
    let are_apart = one == [1, 0, 1, 0, 1, 0, 0, 0] && two == [0, 0, 0, 0, 0, 0, 0, 1];
    Ok(are_apart && both == [1, 0, 1, 0, 1, 0, 0, 1] && notes.len() == 4)
}

#[test]
fn each_session_counts_its_replies_by_kind(rt: HostRuntime) -> std::result::Result<(), Fail> {
    let blanks = Blanks::new(1 << 32);
    assert!(rt; are_tallied::<Brand, HostRuntime>(&rt, rt.alloc(), blanks)?);
    Ok(())
}

// Says whether a piece that comes when too much is queued is counted as dropped, and neither as queued nor as deleted.
fn is_dropped_apart<L: Kinds, R: Wait>(rt: &R, alloc: Global, blanks: Blanks) -> Result<bool>
    requires { AreOf L.name_of L.all blanks × (L.all ≡ 2 ^ 32) }
{
    let (locked, mut first) = opened::<L, Global, NoNotes>(&alloc, alloc, blanks)?;
    let shared = Shared::new(locked);
    let mut second = first.split(5);
    make_all(rt, alloc, &shared, &mut first, &mut second, "b1 e2 d1")?;
    Ok(first.tally() == [1, 1, 1, 0, 0, 0, 0, 0])
}

#[test]
fn a_dropped_piece_is_counted_apart(rt: HostRuntime) -> std::result::Result<(), Fail> {
    let blanks = Blanks::new(1 << 32);
    assert!(rt; is_dropped_apart::<Brand, HostRuntime>(&rt, rt.alloc(), blanks)?);
    Ok(())
}

// Whether each session counts its closes and its steps of a destroy, refused and out of turn too, and takes in another's; and the core
// says how it was opened.
fn are_ends_counted<L: Kinds, R: Wait>(rt: &R, alloc: Global, blanks: Blanks) -> Result<bool>
    requires { AreOf L.name_of L.all blanks × (L.all ≡ 2 ^ 32) }
{
    let (locked, mut first) = opened::<L, Global, NoNotes>(&alloc, alloc, blanks)?;
    let shared = Shared::new(locked);
    let mut second = first.split(5);
    make_all(rt, alloc, &shared, &mut first, &mut second, "c0 e1 c0 -r0")?;
    let (one, two) = (first.ends(), second.ends());
    first.join(second);
    let is_mode = shared.recover_mode() == RecoverMode::None;
    Ok(is_mode && one == [2, 0] && two == [0, 1] && first.ends() == [2, 1])
}

#[test]
fn each_session_counts_its_closes_and_destroys(rt: HostRuntime) -> std::result::Result<(), Fail> {
    let blanks = Blanks::new(1 << 32);
    assert!(rt; are_ends_counted::<Brand, HostRuntime>(&rt, rt.alloc(), blanks)?);
    Ok(())
}
