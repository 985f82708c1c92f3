//! The moves that report what a reclaim read, and the clean of a block.
ghost use Rattle.std.specs.Prelude.{◌≡◌, ◌+◌, ◌<◌, ◌≤◌, vec_len, vec_capacity, ℕ};
ghost use Rattle.foyer_core_laws.specs.Content.{meaning};
ghost use Rattle.foyer_core_run.specs.Causes.{HasCome};
ghost use Rattle.foyer_core_run.specs.Running.{Moves};

use super::Asked;
use super::kept::{Kept, get_due, is_clean_due, note_outcome, note_ticket, set_due};
use foyer_block_index::manager::BlockId;
use foyer_block_manager::block::eviction::EvictionPicker;
use foyer_core_access::reclaims::{BlockCleaner, next_part, read_bytes};
use foyer_core_steps::apply::Env;
use foyer_core_steps::state::Core;
use foyer_core_steps::step::Step;
use foyer_format_record::serde::{Code, Properties};
use foyer_io_disk::disk::Disk;
use foyer_policy_filter::StorageFilterCondition;
use std::alloc::Allocator;

// Does the read that the reclaim of a block issued, if one is due. Reports the outcome to the core, and notes what is read next.
pub(crate) fn reclaim_read<K, V, P, A, D, E, C>(
    core: &mut Core<K, V, P, A>,
    env: &mut Env<E, C>,
    disk: &mut D,
    block: BlockId,
    kept: &mut Kept<K, V, P, A>,
)
where
    K: Code<A> + Drop,
    V: Code<A> + Drop,
    P: Properties + Drop,
    A: Allocator + Clone,
    D: Disk,
    E: EvictionPicker,
    C: StorageFilterCondition,
    requires tickets { vec_len kept.old.tickets < vec_capacity kept.old.tickets }
    requires replies { vec_len kept.old.replies < vec_capacity kept.old.replies }
    ensures moved { D.is_known disk.old → Moves (HasCome D.surely_lies D.faults disk.old disk.new)
        (meaning K.encoding V.encoding K.is_encodable V.is_encodable K.is_decodable V.is_decodable P.age)
        (Asked.ReclaimRead block) kept.old kept.new core.old core.new (D.byte_at disk.old) (D.byte_at disk.new) }
    ensures one { vec_len kept.new.replies ≤ vec_len kept.old.replies + 1 }
    ensures known { D.is_known disk.old → D.is_known disk.new }
    ensures lies { (b o n : ℕ) → D.surely_lies disk.old b o n → D.surely_lies disk.new b o n }
    ensures counted { D.faults disk.old ≤ D.faults disk.new }
{
    let Some(part) = get_due(kept.scans.as_slice(), block as usize) else {
        return;
    };
    let came = read_bytes(core.allocator(), disk, block, part);
    note_outcome(&mut kept.has_failed, &came);
    let reply = core.apply(
        env,
        Step::ReclaimRead {
            block,
            result: came,
        },
    );
    note_ticket(&mut kept.tickets, &reply);
    set_due(&mut kept.scans, block as usize, next_part(&reply));
    kept.replies.push_reserved(reply);
}

// Does the clean of a block, if one is due, and reports the outcome to the reclaim of this block.
pub(crate) fn reclaim_cleaned<K, V, P, A, D, E, C>(
    core: &mut Core<K, V, P, A>,
    env: &mut Env<E, C>,
    disk: &mut D,
    block: BlockId,
    kept: &mut Kept<K, V, P, A>,
)
where
    K: Code<A> + Drop,
    V: Code<A> + Drop,
    P: Properties + Drop,
    A: Allocator + Clone,
    D: Disk,
    E: EvictionPicker,
    C: StorageFilterCondition,
    requires tickets { vec_len kept.old.tickets < vec_capacity kept.old.tickets }
    requires replies { vec_len kept.old.replies < vec_capacity kept.old.replies }
    ensures moved { D.is_known disk.old → Moves (HasCome D.surely_lies D.faults disk.old disk.new)
        (meaning K.encoding V.encoding K.is_encodable V.is_encodable K.is_decodable V.is_decodable P.age)
        (Asked.ReclaimCleaned block) kept.old kept.new core.old core.new (D.byte_at disk.old) (D.byte_at disk.new) }
    ensures one { vec_len kept.new.replies ≤ vec_len kept.old.replies + 1 }
    ensures known { D.is_known disk.old → D.is_known disk.new }
    ensures lies { (b o n : ℕ) → D.surely_lies disk.old b o n → D.surely_lies disk.new b o n }
    ensures counted { D.faults disk.old ≤ D.faults disk.new }
{
    if !is_clean_due(kept.cleans.as_slice(), block as usize) {
        return;
    }
    let cleaned = BlockCleaner::clean(disk, block);
    note_outcome(&mut kept.has_failed, &cleaned);
    set_due(&mut kept.cleans, block as usize, false);
    let reply = core.apply(
        env,
        Step::ReclaimCleaned {
            block,
            result: cleaned,
        },
    );
    note_ticket(&mut kept.tickets, &reply);
    kept.replies.push_reserved(reply);
}

// Does the clean of a block, if one is due, and reports the outcome to the destroy.
pub(crate) fn destroy_cleaned<K, V, P, A, D, E, C>(
    core: &mut Core<K, V, P, A>,
    env: &mut Env<E, C>,
    disk: &mut D,
    block: BlockId,
    kept: &mut Kept<K, V, P, A>,
)
where
    K: Code<A> + Drop,
    V: Code<A> + Drop,
    P: Properties + Drop,
    A: Allocator + Clone,
    D: Disk,
    E: EvictionPicker,
    C: StorageFilterCondition,
    requires tickets { vec_len kept.old.tickets < vec_capacity kept.old.tickets }
    requires replies { vec_len kept.old.replies < vec_capacity kept.old.replies }
    ensures moved { D.is_known disk.old → Moves (HasCome D.surely_lies D.faults disk.old disk.new)
        (meaning K.encoding V.encoding K.is_encodable V.is_encodable K.is_decodable V.is_decodable P.age)
        (Asked.DestroyCleaned block) kept.old kept.new core.old core.new (D.byte_at disk.old) (D.byte_at disk.new) }
    ensures one { vec_len kept.new.replies ≤ vec_len kept.old.replies + 1 }
    ensures known { D.is_known disk.old → D.is_known disk.new }
    ensures lies { (b o n : ℕ) → D.surely_lies disk.old b o n → D.surely_lies disk.new b o n }
    ensures counted { D.faults disk.old ≤ D.faults disk.new }
{
    if !is_clean_due(kept.cleans.as_slice(), block as usize) {
        return;
    }
    let outcome = BlockCleaner::clean(disk, block);
    note_outcome(&mut kept.has_failed, &outcome);
    set_due(&mut kept.cleans, block as usize, false);
    let reply = core.apply(
        env,
        Step::DestroyCleaned {
            block,
            result: outcome,
        },
    );
    note_ticket(&mut kept.tickets, &reply);
    kept.replies.push_reserved(reply);
}
