//! A reclaim of a block, with its accesses of the disk.
ghost use Rattle.std.specs.Prelude.{◌≡◌, ℕ, Some, None, ◌≤◌};
ghost use Rattle.foyer_core_laws.specs.Content.{meaning};
ghost use Rattle.foyer_core_run.specs.AtRest.{KeepsIdle, Leads, Without};
ghost use Rattle.foyer_core_run.specs.Causes.{DrivesForCause, HasCome};
ghost use Rattle.foyer_core_run.specs.Reclaims.{IsOver, IsReclaim, KeepsUnread, Reads, Reclaims};

use foyer_block_index::manager::BlockId;
use foyer_block_manager::block::eviction::EvictionPicker;
use foyer_core_access::reclaims::{BlockCleaner, Part, next_part, read_bytes};
use foyer_core_steps::apply::Env;
use foyer_core_steps::reply::Reply;
use foyer_core_steps::state::Core;
use foyer_core_steps::step::Step;
use foyer_device_page::error::Error;
use foyer_format_record::serde::{Code, Properties};
use foyer_io_disk::disk::Disk;
use foyer_policy_filter::StorageFilterCondition;
use std::alloc::Allocator;

// Reads a part for the reclaim of a block and reports it to the core. If the core refuses the report, it reports a fault instead. Gives the
// part that is to be read next, if there is one.
fn read_part<K, V, P, A, D, E, C>(
    core: &mut Core<K, V, P, A>,
    env: &mut Env<E, C>,
    disk: &mut D,
    block: BlockId,
    part: Part,
) -> Option<Part>
where
    K: Code<A> + Drop,
    V: Code<A> + Drop,
    P: Properties + Drop,
    A: Allocator + Clone,
    D: Disk,
    E: EvictionPicker,
    C: StorageFilterCondition,
    ensures reads { D.is_known disk.old → Reads
        (meaning K.encoding V.encoding K.is_encodable V.is_encodable K.is_decodable V.is_decodable P.age)
        block (Some part) result core.old core.new (D.byte_at disk.old) }
    ensures leads { Leads
        (meaning K.encoding V.encoding K.is_encodable V.is_encodable K.is_decodable V.is_decodable P.age)
        (Without env.old.reinsertion (KeepsUnread block)) core.old core.new }
    ensures lent { (env.new.reinsertion ≡ env.old.reinsertion) × (env.new.io ≡ env.old.io) }
    ensures known { D.is_known disk.old → D.is_known disk.new }
    ensures lies { (b o n : ℕ) → D.surely_lies disk.old b o n → D.surely_lies disk.new b o n }
    ensures counted { D.faults disk.old ≤ D.faults disk.new }
    ensures same { D.byte_at disk.new ≡ D.byte_at disk.old }
{
    let outcome = read_bytes(core.allocator(), disk, block, part);
    let brought = core.apply(
        env,
        Step::ReclaimRead {
            block,
            result: outcome,
        },
    );
    if let Reply::Refused(_, _) = &brought {
        let reply = core.apply(
            env,
            Step::ReclaimRead {
                block,
                result: Err(Error::Memory),
            },
        );
        return next_part(&reply);
    }
    next_part(&brought)
}

// Reads for the reclaim of a block what it asks for, from this part on.
fn read_block<K, V, P, A, D, E, C>(
    core: &mut Core<K, V, P, A>,
    env: &mut Env<E, C>,
    disk: &mut D,
    block: BlockId,
    first: Part,
)
where
    K: Code<A> + Drop,
    V: Code<A> + Drop,
    P: Properties + Drop,
    A: Allocator + Clone,
    D: Disk,
    E: EvictionPicker,
    C: StorageFilterCondition,
    ensures reads { D.is_known disk.old → Reads
        (meaning K.encoding V.encoding K.is_encodable V.is_encodable K.is_decodable V.is_decodable P.age)
        block (Some first) None core.old core.new (D.byte_at disk.old) }
    ensures leads { Leads
        (meaning K.encoding V.encoding K.is_encodable V.is_encodable K.is_decodable V.is_decodable P.age)
        (Without env.old.reinsertion (KeepsUnread block)) core.old core.new }
    ensures lent { (env.new.reinsertion ≡ env.old.reinsertion) × (env.new.io ≡ env.old.io) }
    ensures known { D.is_known disk.old → D.is_known disk.new }
    ensures lies { (b o n : ℕ) → D.surely_lies disk.old b o n → D.surely_lies disk.new b o n }
    ensures counted { D.faults disk.old ≤ D.faults disk.new }
    ensures same { D.byte_at disk.new ≡ D.byte_at disk.old }
{
    let mut part = first;
    'parts: for _ in 0..u64::MAX {
        match read_part(core, env, disk, block, part) {
            Some(next) => part = next,
            None => return,
        }
    }
}

/// Reclaims a block, if a reclaim may begin. Reads each index of the picked block and each record that is to be written again, and reports
/// them to the core. Then takes the other listed entries out of the index and cleans the block. Gives the last answer: `Done` once the
/// block may be written again, or the step that was out of turn or refused.
///
/// A read that fails ends the reading, but not the reclaim. A clean that fails doesn't end the reclaim either. The clean is reported as
/// failed only if the disk failed an access, or the block's first page may lie outside the disk. If the disk's bytes aren't known, two
/// things are claimed. The last answer is as said above. If there is no filter of reinsertions, idle flushers stay idle. With a filter,
/// records are queued at flushers in turn.
pub fn reclaim_block<K, V, P, A, D, E, C>(
    core: &mut Core<K, V, P, A>,
    env: &mut Env<E, C>,
    disk: &mut D,
) -> Reply<K, V, P, A>
where
    K: Code<A> + Drop,
    V: Code<A> + Drop,
    P: Properties + Drop,
    A: Allocator + Clone,
    D: Disk,
    E: EvictionPicker,
    C: StorageFilterCondition,
    ensures reclaims { D.is_known disk.old → Reclaims
        (meaning K.encoding V.encoding K.is_encodable V.is_encodable K.is_decodable V.is_decodable P.age)
        result core.old core.new (D.byte_at disk.old) (D.byte_at disk.new) }
    ensures honest { D.is_known disk.old → DrivesForCause (HasCome D.surely_lies D.faults disk.old disk.new) (IsReclaim
        (meaning K.encoding V.encoding K.is_encodable V.is_encodable K.is_decodable V.is_decodable P.age) result)
        (meaning K.encoding V.encoding K.is_encodable V.is_encodable K.is_decodable V.is_decodable P.age)
        core.old core.new (D.byte_at disk.old) (D.byte_at disk.new) }
    ensures ends { IsOver
        (meaning K.encoding V.encoding K.is_encodable V.is_encodable K.is_decodable V.is_decodable P.age)
        core.old result }
    ensures leads { Leads
        (meaning K.encoding V.encoding K.is_encodable V.is_encodable K.is_decodable V.is_decodable P.age)
        (Without env.old.reinsertion KeepsIdle) core.old core.new }
    ensures lent { (env.new.reinsertion ≡ env.old.reinsertion) × (env.new.io ≡ env.old.io) }
    ensures known { D.is_known disk.old → D.is_known disk.new }
    ensures lies { (b o n : ℕ) → D.surely_lies disk.old b o n → D.surely_lies disk.new b o n }
    ensures counted { D.faults disk.old ≤ D.faults disk.new }
{
    let block = match core.apply(env, Step::ReclaimBegin) {
        Reply::Picked {
            block,
            answers: _,
            probation: _,
        } => block,
        other => return other,
    };
    let first = Part {
        offset: 0,
        len: core.settings().blob_index_size,
    };
    read_block(core, env, disk, block, first);
    match core.apply(env, Step::ReclaimForget { block }) {
        Reply::Clean(_) => {}
        other => return other,
    }
    let cleaned = BlockCleaner::clean(disk, block);
    core.apply(
        env,
        Step::ReclaimCleaned {
            block,
            result: cleaned,
        },
    )
}
