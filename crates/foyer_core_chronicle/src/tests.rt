ghost use Rattle.std.specs.Prelude.{◌≡◌, ◌<◌, [], ◌∷◌, true, IfOk};
ghost use Rattle.foyer_core_chronicle.specs.Rights.{times};
ghost use Rattle.foyer_core_chronicle.specs.SharedHistory.{newcomer, viewer, rights_of};

use super::*;
use std::test::*;
use std::thread;
use std::thread::Threads;

// That a thread of this number did something.
#[derive(Drop)]
struct Deed {
    by: u64,
}

// Each thread has the right of its number.
struct Anything;

impl HistoryRule<Deed> for Anything {
    ghost use Rattle.std.specs.Prelude.{[], ◌∷◌, ◌==◌, false};

    ghost holds = { λ log. Unit {0} };

    ghost takes = { λ e k. e.by == k };

    ghost makes = { λ e. false };

    ghost base = { 2 };

    ghost first = { 0 ∷ 1 ∷ [] };
}

// The thread that has this one right adds its event.
fn act(chronicle: &Chronicle<Deed, Anything>, mut witness: Witness<Deed>, by: u64) -> Witness<Deed>
    requires own { witness.table_id ≡ chronicle.now.table.shared.table_id }
    requires right { (witness.me.1 ≡ []) × (rights_of witness.me.0 ≡ by ∷ []) }
    ensures { (result.table_id ≡ witness.table_id) × (result.me.1 ≡ []) × (rights_of result.me.0 ≡ by ∷ []) }
{
    chronicle.add(&mut witness, &Deed { by });
    witness
}

fn act_by_threads<R: Threads + Sync>(
    rt: &R,
    chronicle: &Chronicle<Deed, Anything>,
    mut witness: Witness<Deed>,
) -> Witness<Deed>
    requires { (witness.table_id ≡ chronicle.now.table.shared.table_id) × (witness.me ≡ (newcomer (0 ∷ 1 ∷ []), [])) }
    ensures { result.table_id ≡ witness.table_id }
{
    let first = chronicle.give(&mut witness);
    let second = chronicle.give(&mut witness);
    let (first, second) = thread::join(
        rt,
        move || -> Witness<Deed>
            requires { (first.table_id ≡ chronicle.now.table.shared.table_id) × (first.me ≡ (viewer [] (0 ∷ []), [])) }
            ensures { (result.table_id ≡ first.table_id) × (result.me.1 ≡ []) }
        { act(chronicle, first, 0) },
        move || -> Witness<Deed>
            requires { (second.table_id ≡ chronicle.now.table.shared.table_id) × (second.me ≡ (viewer [] (1 ∷ []), [])) }
            ensures { (result.table_id ≡ second.table_id) × (result.me.1 ≡ []) }
        { act(chronicle, second, 1) },
    );
    chronicle.take(&mut witness, first);
    chronicle.look(&mut witness);
    chronicle.take(&mut witness, second);
    chronicle.look(&mut witness);
    chronicle.give_seen(&mut witness)
}

// The thread with right 0 adds an event that takes right 1, together with the witness that has right 1. Each keeps its right.
fn act_under_a_lock(
    chronicle: &Chronicle<Deed, Anything>,
    mut witness: Witness<Deed>,
) -> (Witness<Deed>, Witness<Deed>)
    requires { (witness.table_id ≡ chronicle.now.table.shared.table_id) × (witness.me ≡ (newcomer (0 ∷ 1 ∷ []), [])) }
    ensures tables { (result.0.table_id ≡ witness.table_id) × (result.1.table_id ≡ witness.table_id) }
    ensures seen { result.0.me.0.seen ≡ result.1.me.0.seen }
    ensures rights { (0 < times 0 result.0.me.0.has) × (0 < times 1 result.1.me.0.has) }
{
    let mut own = chronicle.give(&mut witness);
    chronicle.add_with::<Brand>(&mut own, &mut witness, &Deed { by: 1 });
    (own, witness)
}

#[test]
fn an_event_of_two_witnesses_is_seen_by_both(rt: HostRuntime) -> Result<(), Fail> {
    let (chronicle, witness) = Chronicle::<Deed, Anything>::open(rt.alloc())?;
    let _witnesses = act_under_a_lock(&chronicle, witness);
    Ok(())
}

#[test]
fn two_threads_act_and_a_third_sees_it(rt: HostRuntime) -> Result<(), Fail> {
    let (chronicle, witness) = Chronicle::<Deed, Anything>::open(rt.alloc())?;
    let _witness = act_by_threads(&rt, &chronicle, witness);
    Ok(())
}
