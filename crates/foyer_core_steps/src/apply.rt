//! The call that changes the core, by any step.
ghost use Rattle.std.specs.Prelude.{◌≡◌, ℕ, ◌<◌, ◌-◌, ◌^◌, MatchBool, Result};
ghost use Rattle.std.specs.declared.vec.Vec.{Vec};
ghost use Rattle.foyer_device_page.specs.declared.error.Error.{Error};
ghost use Rattle.foyer_device_page.specs.declared.error.ErrorKind.TheVariants.{Memory};
ghost use Rattle.foyer_core_steps.specs.Answered.{HandsBack, Describes, MayFail, MayWantMemory, IsPicked};
ghost use Rattle.foyer_core_steps.specs.Scanning.{IsJudged};
ghost use Rattle.foyer_core_steps.specs.Showing.{IsShown};
ghost use Rattle.foyer_core_flusher.specs.Content.{meaning};
ghost use Rattle.foyer_core_steps.specs.Refines.{IsHandedBack, RefinesUncounted, Refines};
ghost use Rattle.foyer_core_steps.specs.declared.reply.Reply.TheVariants as reply;
ghost use Rattle.foyer_core_steps.specs.declared.step.Step.{Step};
ghost use Rattle.foyer_core_steps.specs.declared.step.Step.TheVariants as steps;
ghost use Rattle.foyer_core_steps.specs.declared.step.Ticket.{Ticket};

pub use crate::env::{Env, no_io};
use crate::reply::Reply;
use crate::state::Core;
use crate::step::Step;
use foyer_block_manager::block::eviction::EvictionPicker;
use foyer_device_page::error::ErrorKind;
use foyer_format_record::serde::{Code, Properties};
use foyer_policy_filter::StorageFilterCondition;
use std::alloc::Allocator;

// Whether the reply returns the step, as out of turn or refused.
pub(crate) fn is_handed_back<K, V, P, A: Allocator>(reply: &Reply<K, V, P, A>) -> bool
    ensures { MatchBool result (IsHandedBack reply.now) (IsHandedBack reply.now → ⊥) }
{
    match reply {
        Reply::NotNow(_) => true,
        Reply::Refused(_, _) => true,
        _ => false,
    }
}

impl<K, V, P, A> Core<K, V, P, A>
where
    K: Code<A> + Drop,
    V: Code<A> + Drop,
    P: Properties,
    A: Allocator + Clone,
{
    #[tactic(auto, using(crate::proofs::Describing::issues_counted))]
    /// Applies one step, at any time. A step that is out of turn or refused changes nothing, is returned, and isn't counted. After 2^64 - 1
    /// steps each one is refused as `SequenceEnd`.
    pub fn apply<E: EvictionPicker, C: StorageFilterCondition>(
        &mut self,
        env: &mut Env<E, C>,
        step: Step<K, V, P, A>,
    ) -> Reply<K, V, P, A>
        ensures back { HandsBack step result self.old self.new }
        ensures issued { Describes K.is_decodable V.is_decodable K.encoding V.encoding
            step result self.old self.new }
        ensures meets { Refines
            (meaning K.encoding V.encoding K.is_encodable V.is_encodable K.is_decodable V.is_decodable P.age)
            step result self.old self.new }
        ensures failed { result ≡ reply.Failed → MayFail step self.old }
        ensures still { (flusher : ℕ) → step ≡ steps.FlushBlock flusher → self.new.index ≡ self.old.index }
        ensures still_next { (flusher : ℕ) (outcome : Result (Unit {0}) Error) → step ≡ steps.FlushWrote flusher outcome
            → result ≡ reply.Next → self.new.index ≡ self.old.index }
        ensures picks { step ≡ steps.ReclaimBegin → IsPicked E.answer E.marks env.old.pickers.items result self.old self.new }
        ensures judged { (block : ℕ) (came : Result (Vec ℕ A) Error) → step ≡ steps.ReclaimRead block came
            → IsJudged C.may_answer env.old.reinsertion env.old.io block came result self.old }
        ensures wants { (ticket : Ticket) (came : Result (Vec ℕ A) Error) (back : Step K V P A) → step ≡ steps.LoadEnd ticket came
            → result ≡ reply.Refused Memory back
            → MayWantMemory K.takes_memory V.takes_memory (A.is_infallible self.old.alloc) ticket came }
        ensures shown { IsShown E.learns E.forgets step result self.old self.new.manager env.old.pickers.items env.new.pickers.items }
        ensures lent { (env.new.reinsertion ≡ env.old.reinsertion) × (env.new.io ≡ env.old.io) }
    {
        if self.steps == u64::MAX {
            return Reply::Refused(ErrorKind::SequenceEnd, step);
        }
        let steps = self.steps + 1;
        let reply = self.dispatch(env, step);
        if is_handed_back(&reply) {
            return reply;
        }
        self.steps = steps;
        reply
    }

    #[tactic(auto, using(crate::proofs::Describing::issuing))]
    fn dispatch<E: EvictionPicker, C: StorageFilterCondition>(
        &mut self,
        env: &mut Env<E, C>,
        step: Step<K, V, P, A>,
    ) -> Reply<K, V, P, A>
        ensures back { HandsBack step result self.old self.new }
        ensures issued { Describes K.is_decodable V.is_decodable K.encoding V.encoding
            step result self.old self.new }
        ensures meets { RefinesUncounted
            (meaning K.encoding V.encoding K.is_encodable V.is_encodable K.is_decodable V.is_decodable P.age)
            step result self.old self.new }
        ensures failed { result ≡ reply.Failed → MayFail step self.old }
        ensures still { (flusher : ℕ) → step ≡ steps.FlushBlock flusher → self.new.index ≡ self.old.index }
        ensures still_next { (flusher : ℕ) (outcome : Result (Unit {0}) Error) → step ≡ steps.FlushWrote flusher outcome
            → result ≡ reply.Next → self.new.index ≡ self.old.index }
        ensures picks { step ≡ steps.ReclaimBegin → IsPicked E.answer E.marks env.old.pickers.items result self.old self.new }
        ensures judged { (block : ℕ) (came : Result (Vec ℕ A) Error) → step ≡ steps.ReclaimRead block came
            → IsJudged C.may_answer env.old.reinsertion env.old.io block came result self.old }
        ensures wants { (ticket : Ticket) (came : Result (Vec ℕ A) Error) (back : Step K V P A) → step ≡ steps.LoadEnd ticket came
            → result ≡ reply.Refused Memory back
            → MayWantMemory K.takes_memory V.takes_memory (A.is_infallible self.old.alloc) ticket came }
        ensures shown { IsShown E.learns E.forgets step result self.old self.new.manager env.old.pickers.items env.new.pickers.items }
        ensures lent { (env.new.reinsertion ≡ env.old.reinsertion) × (env.new.io ≡ env.old.io) }
    {
        match step {
            Step::Enqueue { piece, size } => self.enqueue(piece, size),
            Step::Delete { hash } => self.delete(hash),
            Step::Wait { flusher, id } => self.wait(flusher, id),
            Step::MayContains { hash } => self.may_contains(hash),
            Step::LoadBegin { hash, throttled } => self.load_begin(hash, throttled),
            Step::LoadEnd {
                ticket,
                result: outcome,
            } => self.load_end(ticket, outcome).0,
            Step::Receive { flusher } => self.receive(flusher),
            Step::FlushBegin { flusher } => self.flush_begin(flusher),
            Step::FlushBlock { flusher } => self.flush_block(env, flusher),
            Step::FlushWrote {
                flusher,
                result: outcome,
            } => self.flush_wrote(env, flusher, outcome),
            Step::LogWrote {
                flusher,
                result: outcome,
            } => self.log_wrote(flusher, outcome),
            Step::FlushEnd { flusher } => self.flush_end(flusher),
            Step::ReclaimBegin => self.reclaim_begin(env),
            Step::ReclaimRead {
                block,
                result: outcome,
            } => self.reclaim_read(env, block, outcome),
            Step::ReclaimForget { block } => self.reclaim_forget(block),
            Step::ReclaimCleaned {
                block,
                result: outcome,
            } => self.reclaim_cleaned(block, outcome),
            Step::ReclaimIdle => self.reclaim_idle(),
            Step::DestroyBegin => self.destroy_begin(),
            Step::DestroyClear => self.destroy_clear(env),
            Step::DestroyCleaned {
                block,
                result: outcome,
            } => self.destroy_cleaned(block, outcome),
            Step::Close => self.close(),
        }
    }
}
