//! The clear of a destroy, with the cleans of all blocks.
ghost use Rattle.std.specs.Prelude.{◌≡◌, IfOk, IfErr, ℕ, ◌≤◌};
ghost use Rattle.foyer_core_laws.specs.Content.{meaning};
ghost use Rattle.foyer_core_run.specs.Causes.{DrivesForCause, HasCome};
ghost use Rattle.foyer_core_run.specs.Destroys.{Cleans, IsClearing, IsUncleared};
ghost use Rattle.foyer_core_run.specs.Waiting.{DrivesBy};

use foyer_block_index::manager::BlockId;
use foyer_block_manager::block::eviction::EvictionPicker;
use foyer_core_access::reclaims::BlockCleaner;
use foyer_core_steps::apply::Env;
use foyer_core_steps::reply::Reply;
use foyer_core_steps::state::Core;
use foyer_core_steps::step::Step;
use foyer_format_record::serde::{Code, Properties};
use foyer_io_disk::disk::Disk;
use foyer_policy_filter::StorageFilterCondition;
use std::alloc::Allocator;

// Cleans a block for a destroy, and reports the outcome to the core.
fn clean<K, V, P, A, D, E, C>(
    core: &mut Core<K, V, P, A>,
    env: &mut Env<E, C>,
    disk: &mut D,
    block: BlockId,
) -> Reply<K, V, P, A>
where
    K: Code<A> + Drop,
    V: Code<A> + Drop,
    P: Properties + Drop,
    A: Allocator + Clone,
    D: Disk,
    E: EvictionPicker,
    C: StorageFilterCondition,
    ensures cleans { D.is_known disk.old → Cleans
        (meaning K.encoding V.encoding K.is_encodable V.is_encodable K.is_decodable V.is_decodable P.age)
        (HasCome D.surely_lies D.faults disk.old disk.new) block result core.old core.new (D.byte_at disk.old) (D.byte_at disk.new) }
    ensures known { D.is_known disk.old → D.is_known disk.new }
    ensures lies { (b o n : ℕ) → D.surely_lies disk.old b o n → D.surely_lies disk.new b o n }
    ensures counted { D.faults disk.old ≤ D.faults disk.new }
    ensures lent { (env.new.reinsertion ≡ env.old.reinsertion) × (env.new.io ≡ env.old.io) }
{
    let cleaned = BlockCleaner::clean(disk, block);
    core.apply(
        env,
        Step::DestroyCleaned {
            block,
            result: cleaned,
        },
    )
}

/// Clears the index, if a destroy has begun, no flusher has anything queued, received or in a batch, and no reclaim runs. Then cleans each
/// block and reports each result to the core. Gives the last answer, which is `Destroyed` unless the limit of steps was reached first.
/// Gives `Err` if the index wasn't cleared, with the step that was out of turn or refused.
///
/// A clean that fails doesn't end the destroy. A clean is only reported as failed if the disk failed an access, or if it isn't
/// sure that the block's first page lies in the disk. If the index was cleared and the disk's bytes aren't known, it is only
/// claimed that the call returns.
pub fn clear_blocks<K, V, P, A, D, E, C>(
    core: &mut Core<K, V, P, A>,
    env: &mut Env<E, C>,
    disk: &mut D,
) -> std::result::Result<Reply<K, V, P, A>, Reply<K, V, P, A>>
where
    K: Code<A> + Drop,
    V: Code<A> + Drop,
    P: Properties + Drop,
    A: Allocator + Clone,
    D: Disk,
    E: EvictionPicker,
    C: StorageFilterCondition,
    ensures clears { D.is_known disk.old → IfOk result (λ last. DrivesBy (IsClearing
        (meaning K.encoding V.encoding K.is_encodable V.is_encodable K.is_decodable V.is_decodable P.age) core.old.settings.blocks last)
        (meaning K.encoding V.encoding K.is_encodable V.is_encodable K.is_decodable V.is_decodable P.age)
        core.old core.new (D.byte_at disk.old) (D.byte_at disk.new)) }
    ensures honest { D.is_known disk.old → IfOk result (λ last. DrivesForCause (HasCome D.surely_lies D.faults disk.old disk.new) (IsClearing
        (meaning K.encoding V.encoding K.is_encodable V.is_encodable K.is_decodable V.is_decodable P.age) core.old.settings.blocks last)
        (meaning K.encoding V.encoding K.is_encodable V.is_encodable K.is_decodable V.is_decodable P.age)
        core.old core.new (D.byte_at disk.old) (D.byte_at disk.new)) }
    ensures kept { IfErr result (λ back. DrivesBy (IsUncleared
        (meaning K.encoding V.encoding K.is_encodable V.is_encodable K.is_decodable V.is_decodable P.age) back)
        (meaning K.encoding V.encoding K.is_encodable V.is_encodable K.is_decodable V.is_decodable P.age)
        core.old core.new (D.byte_at disk.old) (D.byte_at disk.new)) }
    ensures known { D.is_known disk.old → D.is_known disk.new }
    ensures lies { (b o n : ℕ) → D.surely_lies disk.old b o n → D.surely_lies disk.new b o n }
    ensures counted { D.faults disk.old ≤ D.faults disk.new }
    ensures lent { (env.new.reinsertion ≡ env.old.reinsertion) × (env.new.io ≡ env.old.io) }
{
    let blocks = core.settings().blocks;
    match core.apply(env, Step::DestroyClear) {
        Reply::Cleared => {}
        other => return Err(other),
    }
    let mut last = Reply::Cleared;
    'each_block: for block in 0..blocks {
        last = clean(core, env, disk, block);
    }
    Ok(last)
}
