//! The moves that end a load, with its read.
ghost use Rattle.std.specs.Prelude.{◌≡◌, ◌+◌, ◌<◌, ◌≤◌, vec_len, vec_capacity, OnOk, OnErr, ℕ};
ghost use Rattle.foyer_core_laws.specs.Content.{meaning};
ghost use Rattle.foyer_core_run.specs.Causes.{HasCome};
ghost use Rattle.foyer_core_run.specs.Running.{Moves};

use super::Asked;
use super::kept::{Kept, get_due, note_outcome, note_ticket, set_due};
use foyer_block_manager::block::eviction::EvictionPicker;
use foyer_core_access::disk::do_read;
use foyer_core_steps::apply::Env;
use foyer_core_steps::state::Core;
use foyer_core_steps::step::Step;
use foyer_format_record::serde::{Code, Properties};
use foyer_io_disk::disk::Disk;
use foyer_policy_filter::StorageFilterCondition;
use std::alloc::{AllocError, Allocator};

// Does the read of a ticket, if it is due, and reports the outcome to the core.
pub(crate) fn load_end<K, V, P, A, D, E, C>(
    core: &mut Core<K, V, P, A>,
    env: &mut Env<E, C>,
    disk: &mut D,
    n: usize,
    kept: &mut Kept<K, V, P, A>,
) -> std::result::Result<(), AllocError>
where
    K: Code<A> + Drop,
    V: Code<A> + Drop,
    P: Properties + Drop,
    A: Allocator + Clone,
    D: Disk,
    E: EvictionPicker,
    C: StorageFilterCondition,
    requires tickets { vec_len kept.old.tickets < vec_capacity kept.old.tickets }
    requires replies { vec_len kept.old.replies < vec_capacity kept.old.replies }
    ensures moved { D.is_known disk.old → OnOk result (Moves (HasCome D.surely_lies D.faults disk.old disk.new)
        (meaning K.encoding V.encoding K.is_encodable V.is_encodable K.is_decodable V.is_decodable P.age)
        (Asked.LoadEnd n) kept.old kept.new core.old core.new (D.byte_at disk.old) (D.byte_at disk.new)) }
    ensures stays { OnErr result (core.new ≡ core.old) }
    ensures same { D.byte_at disk.new ≡ D.byte_at disk.old }
    ensures kept { OnErr result (kept.new.replies.items ≡ kept.old.replies.items) }
    ensures one { vec_len kept.new.replies ≤ vec_len kept.old.replies + 1 }
    ensures known { D.is_known disk.old → D.is_known disk.new }
    ensures lies { (b o n : ℕ) → D.surely_lies disk.old b o n → D.surely_lies disk.new b o n }
    ensures counted { D.faults disk.old ≤ D.faults disk.new }
{
    let Some(ticket) = get_due(kept.tickets.as_slice(), n) else {
        return Ok(());
    };
    let mut buffer = Vec::new(core.allocator().clone()?);
    let came = do_read(core.allocator().clone()?, disk, &ticket, &mut buffer)?;
    note_outcome(&mut kept.has_failed, &came);
    set_due(&mut kept.tickets, n, None);
    let answer = core.apply(
        env,
        Step::LoadEnd {
            ticket,
            result: came,
        },
    );
    note_ticket(&mut kept.tickets, &answer);
    kept.replies.push_reserved(answer);
    Ok(())
}
