//! Two threads that ask one core.
ghost use Rattle.std.specs.Prelude.{◌≡◌, ◌-◌, ◌<◌, ◌^◌, IfOk};
ghost use Rattle.foyer_core_tally.specs.Ledgers.{AreOf};

use super::{Numbers, ask, opened, step_of};
use foyer_core_tally::book::{Blanks, Kinds};
use foyer_device_page::error::{Error, Result};
use foyer_storage_engine::core_shared::notes::KeepsNotes;
use foyer_storage_engine::core_shared::session::Session;
use foyer_storage_engine::core_shared::shared::Shared;
use std::alloc::Global;
use std::marker::Brand;
use std::sync::Wait;
use std::test::Fail;
use std::thread;
use std::thread::Threads;

// Enqueues 1,500 times.
fn enqueue_all<L: Kinds>(
    rt: &impl Wait,
    alloc: Global,
    shared: &Numbers<L, Global, KeepsNotes>,
    mut session: Session<L>,
) -> Result<Session<L>>
    requires { 0 < session.shares.parts }
    ensures { IfOk result (λ s. s.shares.parts ≡ session.shares.parts) }
{
    'times: for _ in 0..1500 {
        ask(rt, shared, &mut session, step_of(&alloc, b'e', b'7')?);
    }
    Ok(session)
}

// Whether there are exactly so many notes once both threads are joined.
fn are_noted<L: Kinds + Send + Sync, R: Threads + Wait + Sync>(
    rt: &R,
    alloc: Global,
    blanks: Blanks,
) -> Result<bool>
    requires { AreOf L.name_of L.all blanks × (L.all ≡ 2 ^ 32) }
{
    let (locked, mut one) = opened::<L, Global, KeepsNotes>(&alloc, alloc, blanks)?;
    let shared = Shared::new(locked);
    let two = one.split(1);
    let lent = &shared;
    let (one, two) = thread::join(
        rt,
        move || -> Result<Session<L>>
            requires { one.shares.parts ≡ 2 ^ 32 - 1 }
            ensures { IfOk result (λ s. s.shares.parts ≡ 2 ^ 32 - 1) }
        { enqueue_all(rt, alloc, lent, one) },
        move || -> Result<Session<L>>
            requires { two.shares.parts ≡ 1 }
            ensures { IfOk result (λ s. s.shares.parts ≡ 1) }
        { enqueue_all(rt, alloc, lent, two) },
    );
    let mut all = one?;
    all.join(two?);
    let locked = shared.close(&mut all);
    let Some(notes) = locked.notes() else {
        return Err(Error::Config);
    };
    Ok(notes.get(2999).is_some() && notes.get(3000).is_none())
}

#[test]
fn what_two_threads_asked_is_noted_once_each(rt: HostRuntime) -> std::result::Result<(), Fail> {
    assert!(rt; are_noted::<Brand, HostRuntime>(&rt, rt.alloc(), Blanks::new(1 << 32))?);
    Ok(())
}
