//! Allocations that are refused, one after the other.
ghost use Rattle.std.specs.Prelude.{◌≡◌, ◌^◌};
ghost use Rattle.foyer_core_tally.specs.Ledgers.{AreOf};

use super::{opened, step_of};
use foyer_core_tally::book::{Blanks, Kinds};
use foyer_device_page::error::{Error, ErrorKind, Result};
use foyer_storage_engine::core_shared::notes::KeepsNotes;
use foyer_storage_engine::core_shared::shared::Shared;
use foyer_storage_engine::core_steps::apply::no_io;
use foyer_storage_engine::core_steps::reply::Reply;
use foyer_testing::refusing::Refusing;
use std::alloc::Global;
use std::marker::Brand;
use std::sync::Wait;
use std::test::Fail;

// Asks whether a hash is indexed, which takes no memory except a note's. Says whether that was refused. Gives Config if a refused step left a
// brief, or if one that was made left none.
fn is_note_refused<L: Kinds>(
    rt: &impl Wait,
    heap: &Refusing<Global>,
    global: Global,
    blanks: Blanks,
) -> Result<bool>
    requires { AreOf L.name_of L.all blanks × (L.all ≡ 2 ^ 32) }
{
    let (locked, mut session) = opened::<L, &Refusing<Global>, KeepsNotes>(&heap, global, blanks)?;
    let shared = Shared::new(locked);
    let step = step_of(&heap, b'm', b'1')?;
    let is_refused = match shared.step(rt, &mut session, no_io(), step) {
        Reply::Answer(false) => false,
        Reply::Refused(ErrorKind::Memory, _) => true,
        _ => return Err(Error::Config),
    };
    let [newest, _before] = session.last();
    if newest.is_none() != is_refused {
        return Err(Error::Config);
    }
    Ok(is_refused)
}

#[test]
fn a_step_whose_note_finds_no_room_leaves_no_brief(
    rt: HostRuntime,
) -> std::result::Result<(), Fail> {
    let mut refused = 0u32;
    for n in 1..200 {
        let heap = Refusing::new(rt.alloc(), n);
        let answer = is_note_refused::<Brand>(&rt, &heap, rt.alloc(), Blanks::new(1 << 32));
        if !heap.has_refused() {
            assert!(rt; answer == Ok(false));
            assert!(rt; refused > 0);
            return Ok(());
        }
        // Else the core wasn't opened.
        if answer != Err(Error::Memory) {
            assert!(rt; answer == Ok(true), "allocation {n}");
            refused = refused.saturating_add(1);
        }
    }
    Err(Fail::new("the script makes more allocations"))
}
