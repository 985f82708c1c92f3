//! The moves that issue and report a block's writes.
ghost use Rattle.std.specs.Prelude.{◌≡◌, ℕ, ◌+◌, ◌<◌, ◌≤◌, ◌⊎◌, ◌^◌, vec_len, vec_capacity, slice_get, true, false, Some, None, MatchBool, MatchOption, IfSome};
ghost use Rattle.foyer_core_laws.specs.Content.{meaning};
ghost use Rattle.foyer_core_run.specs.Causes.{HasCome, HasComeAnywhere};
ghost use Rattle.foyer_core_run.specs.Running.{Moves, block_in, write_at};

use super::Asked;
use super::kept::{Issued, Kept, get_due, note_outcome, note_ticket, set_due};
use foyer_block_index::manager::BlockId;
use foyer_block_manager::block::eviction::EvictionPicker;
use foyer_core_access::disk::do_write;
use foyer_core_steps::apply::Env;
use foyer_core_steps::reply::{Reply, Write};
use foyer_core_steps::state::Core;
use foyer_core_steps::step::Step;
use foyer_format_record::serde::{Code, Properties};
use foyer_io_disk::disk::Disk;
use foyer_policy_filter::StorageFilterCondition;
use std::alloc::Allocator;

// The block into which a reply issues writes.
pub(crate) fn issued_block<K, V, P, A: Allocator>(reply: &Reply<K, V, P, A>) -> Option<BlockId>
    ensures { result ≡ block_in reply.now }
{
    match reply {
        Reply::Write { block, writes: _ } => Some(*block),
        _ => None,
    }
}

// Whether a write went well, and the block has another.
pub(crate) fn wants_next_write<K, V, P, A: Allocator>(
    went_well: bool,
    reply: &Reply<K, V, P, A>,
) -> bool
    ensures { MatchBool result
        ((went_well ≡ true) × (reply.now ≡ Reply.Next))
        ((went_well ≡ false) ⊎ (reply.now ≡ Reply.Next → ⊥)) }
{
    if !went_well {
        return false;
    }
    match reply {
        Reply::Next => true,
        _ => false,
    }
}

// The write that a note is of.
fn next_write<'a, K, V, P, A: Allocator>(
    replies: &'a [Reply<K, V, P, A>],
    issued: &Issued,
) -> Option<&'a Write<A>>
    ensures write { MatchOption result
        (write_at (slice_get replies.now issued.now.reply) issued.now.next ≡ None)
        (λ write. write_at (slice_get replies.now issued.now.reply) issued.now.next ≡ Some write.now) }
    ensures room { IfSome result (λ _. issued.now.next + 1 < 2 ^ 64) }
{
    let Some(reply) = replies.get(issued.reply) else {
        return None;
    };
    match reply {
        Reply::Write { block: _, writes } => writes.get(issued.next),
        _ => None,
    }
}

// Asks for a block and its writes, and notes them.
pub(crate) fn flush_block<K, V, P, A, E, C>(
    core: &mut Core<K, V, P, A>,
    env: &mut Env<E, C>,
    flusher: u32,
    kept: &mut Kept<K, V, P, A>,
)
where
    K: Code<A> + Drop,
    V: Code<A> + Drop,
    P: Properties + Drop,
    A: Allocator + Clone,
    E: EvictionPicker,
    C: StorageFilterCondition,
    requires tickets { vec_len kept.old.tickets < vec_capacity kept.old.tickets }
    requires replies { vec_len kept.old.replies < vec_capacity kept.old.replies }
    ensures moved { (bytes : ℕ → ℕ → ℕ) → Moves HasComeAnywhere
        (meaning K.encoding V.encoding K.is_encodable V.is_encodable K.is_decodable V.is_decodable P.age)
        (Asked.FlushBlock flusher) kept.old kept.new core.old core.new bytes bytes }
    ensures one { vec_len kept.new.replies ≤ vec_len kept.old.replies + 1 }
{
    let reply = core.apply(env, Step::FlushBlock { flusher });
    note_ticket(&mut kept.tickets, &reply);
    let Some(block) = issued_block(&reply) else {
        kept.replies.push_reserved(reply);
        return;
    };
    let issued = Issued {
        block,
        reply: kept.replies.len(),
        next: 0,
    };
    set_due(&mut kept.issued, flusher as usize, Some(issued));
    kept.replies.push_reserved(reply);
}

// Does the write of a flusher that is due, if one is, and reports its outcome to the core. The block's other writes aren't done after a
// write that failed, or after a report that the core returned.
pub(crate) fn flush_wrote<K, V, P, A, D, E, C>(
    core: &mut Core<K, V, P, A>,
    env: &mut Env<E, C>,
    disk: &mut D,
    flusher: u32,
    kept: &mut Kept<K, V, P, A>,
)
where
    K: Code<A> + Drop,
    V: Code<A> + Drop,
    P: Properties + Drop,
    A: Allocator + Clone,
    D: Disk,
    E: EvictionPicker,
    C: StorageFilterCondition,
    requires tickets { vec_len kept.old.tickets < vec_capacity kept.old.tickets }
    requires replies { vec_len kept.old.replies < vec_capacity kept.old.replies }
    ensures moved { D.is_known disk.old → Moves (HasCome D.surely_lies D.faults disk.old disk.new)
        (meaning K.encoding V.encoding K.is_encodable V.is_encodable K.is_decodable V.is_decodable P.age)
        (Asked.FlushWrote flusher) kept.old kept.new core.old core.new (D.byte_at disk.old) (D.byte_at disk.new) }
    ensures one { vec_len kept.new.replies ≤ vec_len kept.old.replies + 1 }
    ensures known { D.is_known disk.old → D.is_known disk.new }
    ensures lies { (b o n : ℕ) → D.surely_lies disk.old b o n → D.surely_lies disk.new b o n }
    ensures counted { D.faults disk.old ≤ D.faults disk.new }
{
    let Some(issued) = get_due(kept.issued.as_slice(), flusher as usize) else {
        return;
    };
    let Some(write) = next_write(kept.replies.as_slice(), &issued) else {
        return;
    };
    let wrote = do_write(disk, issued.block, write);
    let went_well = wrote.is_ok();
    note_outcome(&mut kept.has_failed, &wrote);
    let following = Issued {
        block: issued.block,
        reply: issued.reply,
        next: issued.next + 1,
    };
    set_due(&mut kept.issued, flusher as usize, None);
    let reply = core.apply(
        env,
        Step::FlushWrote {
            flusher,
            result: wrote,
        },
    );
    note_ticket(&mut kept.tickets, &reply);
    if wants_next_write(went_well, &reply) {
        set_due(&mut kept.issued, flusher as usize, Some(following));
        kept.replies.push_reserved(reply);
        return;
    }
    kept.replies.push_reserved(reply);
}
