//! How a batch begins, and its marks are appended to the log of deletes.
ghost use Rattle.std.specs.Prelude.{◌≡◌, ℕ};
ghost use Rattle.foyer_core_laws.specs.Content.{meaning};
ghost use Rattle.foyer_core_steps.specs.Refines.{Refines};
ghost use Rattle.foyer_core_steps.specs.declared.step.Step.TheVariants as step;
ghost use Rattle.foyer_core_run.specs.AtRest.{KeepsOthers, Leads};
ghost use Rattle.foyer_core_run.specs.Batches.{BeginsNoBatch, IsBatchBegun};
ghost use Rattle.foyer_core_run.specs.Waiting.{DrivesBy};

use foyer_block_manager::block::eviction::EvictionPicker;
use foyer_block_tombstone::block::tombstone::MarkLog;
use foyer_core_steps::apply::Env;
use foyer_core_steps::reply::Reply;
use foyer_core_steps::state::Core;
use foyer_core_steps::step::Step;
use foyer_format_record::serde::{Code, Properties};
use foyer_policy_filter::StorageFilterCondition;
use std::alloc::Allocator;

/// Begins a flusher's batch, appends the batch's marks to the log, and reports the log's result to the core. Gives the answer to
/// `FlushBegin`. If no batch begins, the log isn't touched. The marks are appended even if the core's settings have no log of deletes. The
/// report is out of turn then.
pub fn begin_batch<K, V, P, A, L, E, C>(
    core: &mut Core<K, V, P, A>,
    env: &mut Env<E, C>,
    log: &mut L,
    flusher: u32,
) -> Reply<K, V, P, A>
where
    K: Code<A> + Drop,
    V: Code<A> + Drop,
    P: Properties + Drop,
    A: Allocator + Clone,
    L: MarkLog,
    E: EvictionPicker,
    C: StorageFilterCondition,
    ensures begins { (bytes : ℕ → ℕ → ℕ) → DrivesBy (IsBatchBegun
        (meaning K.encoding V.encoding K.is_encodable V.is_encodable K.is_decodable V.is_decodable P.age)
        flusher L.appends log.old log.new result)
        (meaning K.encoding V.encoding K.is_encodable V.is_encodable K.is_decodable V.is_decodable P.age)
        core.old core.new bytes bytes }
    ensures keeps { Leads
        (meaning K.encoding V.encoding K.is_encodable V.is_encodable K.is_decodable V.is_decodable P.age)
        (KeepsOthers flusher) core.old core.new }
    ensures alone { BeginsNoBatch result → Refines
        (meaning K.encoding V.encoding K.is_encodable V.is_encodable K.is_decodable V.is_decodable P.age)
        (step.FlushBegin flusher) result core.old core.new }
    ensures lent { (env.new.reinsertion ≡ env.old.reinsertion) × (env.new.io ≡ env.old.io) }
{
    let (blocks, marks) = match core.apply(env, Step::FlushBegin { flusher }) {
        Reply::Began { blocks, marks } => (blocks, marks),
        other => return other,
    };
    let result = log.append_marks(&marks);
    let _ = core.apply(env, Step::LogWrote { flusher, result });
    Reply::Began { blocks, marks }
}
