//! The moves that are steps without an access.
ghost use Rattle.std.specs.Prelude.{◌≡◌, ℕ, ◌+◌, ◌<◌, ◌≤◌, replicate, true, vec_len, vec_capacity};
ghost use Rattle.foyer_core_laws.specs.Content.{meaning};
ghost use Rattle.foyer_core_run.specs.Causes.{HasComeAnywhere};
ghost use Rattle.foyer_core_run.specs.Running.{IsFree, Moves, cleans_noted, issuing_in, scans_noted};

use super::Asked;
use super::kept::{Kept, note_ticket, set_due};
use foyer_block_index::manager::BlockId;
use foyer_block_manager::block::eviction::EvictionPicker;
use foyer_core_access::reclaims::Part;
use foyer_core_steps::apply::Env;
use foyer_core_steps::reply::Reply;
use foyer_core_steps::state::Core;
use foyer_core_steps::step::Step;
use foyer_format_record::serde::{Code, Properties};
use foyer_policy_filter::StorageFilterCondition;
use std::alloc::Allocator;

// Which access of blocks a step issues, unless the core returns the step.
#[derive(Clone, Copy, Debug)]
enum Issuing {
    Nothing,
    FirstRead,
    Clean(BlockId),
    Cleans,
}

fn issued_by<K, V, P, A: Allocator>(step: &Step<K, V, P, A>) -> Issuing
    ensures { result ≡ issuing_in step.now }
{
    match step {
        Step::ReclaimBegin => Issuing::FirstRead,
        Step::ReclaimForget { block } => Issuing::Clean(*block),
        Step::DestroyClear => Issuing::Cleans,
        _ => Issuing::Nothing,
    }
}

// Notes the first read of the reclaim that a reply began.
fn note_scan<K, V, P, A: Allocator>(
    scans: &mut Vec<Option<Part>, A>,
    issuing: Issuing,
    index_len: usize,
    reply: &Reply<K, V, P, A>,
)
    ensures noted { scans.new.items ≡ scans_noted issuing index_len reply.now scans.old.items }
{
    if let (
        Issuing::FirstRead,
        Reply::Picked {
            block,
            answers: _,
            probation: _,
        },
    ) = (issuing, reply)
    {
        let first = Part {
            offset: 0,
            len: index_len,
        };
        set_due(scans, *block as usize, Some(first));
    }
}

// Notes that each block is to be cleaned.
fn note_all<A: Allocator>(cleans: &mut Vec<bool, A>)
    ensures noted { cleans.new.items ≡ replicate (vec_len cleans.old) true }
{
    'each_block: for block in 0..cleans.len() {
        cleans[block] = true;
    }
}

// Notes the clean that a reply issued, or those of all blocks.
fn note_cleans<K, V, P, A: Allocator>(
    cleans: &mut Vec<bool, A>,
    issuing: Issuing,
    reply: &Reply<K, V, P, A>,
)
    ensures noted { cleans.new.items ≡ cleans_noted issuing reply.now cleans.old.items }
{
    match (issuing, reply) {
        (Issuing::Clean(block), Reply::Clean(_)) => set_due(cleans, block as usize, true),
        (Issuing::Cleans, Reply::Cleared) => note_all(cleans),
        _ => {}
    }
}

// Applies a step that brings no result, and issues no write, and notes what it issues.
pub(crate) fn apply_step<K, V, P, A, E, C>(
    core: &mut Core<K, V, P, A>,
    env: &mut Env<E, C>,
    step: Step<K, V, P, A>,
    kept: &mut Kept<K, V, P, A>,
)
where
    K: Code<A> + Drop,
    V: Code<A> + Drop,
    P: Properties + Drop,
    A: Allocator + Clone,
    E: EvictionPicker,
    C: StorageFilterCondition,
    requires free { IsFree step }
    requires tickets { vec_len kept.old.tickets < vec_capacity kept.old.tickets }
    requires replies { vec_len kept.old.replies < vec_capacity kept.old.replies }
    ensures moved { (bytes : ℕ → ℕ → ℕ) → Moves HasComeAnywhere
        (meaning K.encoding V.encoding K.is_encodable V.is_encodable K.is_decodable V.is_decodable P.age)
        (Asked.Step step) kept.old kept.new core.old core.new bytes bytes }
    ensures one { vec_len kept.new.replies ≤ vec_len kept.old.replies + 1 }
{
    let issuing = issued_by(&step);
    let reply = core.apply(env, step);
    note_ticket(&mut kept.tickets, &reply);
    note_scan(
        &mut kept.scans,
        issuing,
        core.settings().blob_index_size,
        &reply,
    );
    note_cleans(&mut kept.cleans, issuing, &reply);
    kept.replies.push_reserved(reply);
}
