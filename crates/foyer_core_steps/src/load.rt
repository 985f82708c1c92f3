//! Loads: a look-up that issues a read, and the judgement on what was read.
ghost use Rattle.std.specs.Prelude.{◌≡◌, ◌⊎◌, ℕ, Err, Option, drop, length, slice_get, take};
ghost use Rattle.foyer_device_page.specs.declared.error.Error.TheVariants as error;
ghost use Rattle.foyer_device_page.specs.declared.error.ErrorKind.TheVariants.{Memory};
ghost use Rattle.foyer_format_record.specs.declared.serde.ages.Age.{Age as age};
ghost use Rattle.foyer_core_steps.specs.Answered.{HandsBack, AnswersPair, Describes, Looking, MayWantMemory, spare_of};
ghost use Rattle.foyer_core_model.specs.State.{State};
ghost use Rattle.foyer_core_flusher.specs.Content.{Content, Meaning, meaning};
ghost use Rattle.foyer_core_steps.specs.Judging.{IsJudged, IsReadAs};
ghost use Rattle.foyer_core_steps.specs.Refines.{Refines, RefinesUncounted, missed};
ghost use Rattle.foyer_core_steps.specs.StateOf.{IsStateOf};
ghost use Rattle.foyer_core_flusher.specs.Settings.{Settings};
ghost use Rattle.foyer_core_steps.specs.declared.reply.Reply.TheVariants as reply;
ghost use Rattle.foyer_core_steps.specs.declared.step.Step.{Step};
ghost use Rattle.foyer_core_steps.specs.declared.step.Step.TheVariants as step;

use crate::apply::{Env, is_handed_back};
use crate::reply::Reply;
use crate::state::Core;
use crate::step::{Step, Ticket};
use foyer_block_index::manager::BlockId;
use foyer_block_manager::block::eviction::EvictionPicker;
use foyer_block_manager::block::manager::BlockState;
use foyer_device_page::error::{ErrorKind, Result};
use foyer_format_record::block::serde::read_record;
use foyer_format_record::serde::{Age, Code, Properties};
use foyer_policy_filter::StorageFilterCondition;
use std::alloc::Allocator;

// The step that brings what was read for a ticket.
fn load_end<K, V, P, A: Allocator>(ticket: Ticket, outcome: Result<Vec<u8, A>>) -> Step<K, V, P, A>
    ensures { result ≡ step.LoadEnd ticket outcome }
{
    Step::LoadEnd {
        ticket,
        result: outcome,
    }
}

// Gives what the bytes of a read are as a record of its ticket. Looks at nothing if they are more or fewer than the ticket's.
#[tactic(auto, using(crate::proofs::LoadLemmas::all_bytes))]
fn judge_bytes<K: Code<A> + Drop, V: Code<A> + Drop, A: Allocator + Clone>(
    alloc: &A,
    ticket: &Ticket,
    bytes: &[u8],
) -> Result<Option<(K, V)>>
    ensures read { length bytes.now ≡ ticket.now.address.len
        → IsReadAs K.is_decodable V.is_decodable K.encoding V.encoding K.is_encodable V.is_encodable
        (take ticket.now.address.len bytes.now) ticket.now.hash ticket.now.address.sequence result }
    ensures memory { result ≡ Err error.Memory → (value_len key_len : ℕ)
        × (V.takes_memory (take value_len (drop 36 (take ticket.now.address.len bytes.now)))
        ⊎ K.takes_memory (take key_len (drop value_len (drop 36 (take ticket.now.address.len bytes.now)))) ⊎ (A.is_infallible alloc.now → ⊥)) }
{
    if bytes.len() != ticket.read_len() {
        return Ok(None);
    }
    read_record(alloc, bytes, ticket.hash, ticket.address.sequence)
}

// The same of what was read, if the read went well.
fn judge<K: Code<A> + Drop, V: Code<A> + Drop, A: Allocator + Clone>(
    alloc: &A,
    ticket: &Ticket,
    outcome: &Result<Vec<u8, A>>,
) -> Result<Option<(K, V)>>
    ensures judged { IsJudged K.is_decodable V.is_decodable K.encoding V.encoding K.is_encodable V.is_encodable ticket.now outcome.now result }
    ensures memory { result ≡ Err error.Memory → MayWantMemory K.takes_memory V.takes_memory (A.is_infallible alloc.now) ticket.now outcome.now }
{
    match outcome {
        Ok(bytes) => judge_bytes(alloc, ticket, bytes.as_slice()),
        Err(_) => Ok(None),
    }
}

/// What was read for a ticket, and what it is as a record. The bytes are decoded outside the core, so that no other thread that shares the
/// core waits for that.
#[derive(Drop)]
pub struct Judged<K, V, A: Allocator> {
    ticket: Ticket,
    outcome: Result<Vec<u8, A>>,
    found: Result<Option<(K, V)>>,
}

impl<K, V, A> Judged<K, V, A>
where
    K: Code<A> + Drop,
    V: Code<A> + Drop,
    A: Allocator + Clone,
{
    /// Judges what was read for a ticket: a pair takes its memory from this allocator.
    pub fn of(alloc: &A, ticket: Ticket, outcome: Result<Vec<u8, A>>) -> Judged<K, V, A>
        ensures given { (result.ticket ≡ ticket) × (result.outcome ≡ outcome) }
        ensures judged { IsJudged K.is_decodable V.is_decodable K.encoding V.encoding K.is_encodable V.is_encodable
            result.ticket result.outcome result.found }
        ensures memory { result.found ≡ Err error.Memory
            → MayWantMemory K.takes_memory V.takes_memory (A.is_infallible alloc.now) ticket outcome }
    {
        let found = judge(alloc, &ticket, &outcome);
        Judged {
            ticket,
            outcome,
            found,
        }
    }

    /// The ticket.
    pub fn ticket(&self) -> Ticket
        ensures { result ≡ self.now.ticket }
    {
        self.ticket
    }

    /// Gives the bytes that were read, or the error of the read.
    pub fn outcome(&self) -> &Result<Vec<u8, A>>
        ensures { result.now ≡ self.now.outcome }
    {
        &self.outcome
    }

    /// Gives the `LoadEnd` with the ticket and what was read.
    pub fn into_step<P>(self) -> Step<K, V, P, A>
        ensures { result ≡ step.LoadEnd self.ticket self.outcome }
    {
        let Judged {
            ticket,
            outcome,
            found: _,
        } = self;
        load_end(ticket, outcome)
    }
}

impl<K, V, P, A: Allocator + Clone> Core<K, V, P, A> {
    // What is known of a block, if it is there.
    fn known(&self, block: BlockId) -> Option<BlockState>
        ensures { result ≡ slice_get self.now.manager.blocks block }
    {
        self.manager.known(block)
    }

    // An address of an older filling leaves the index.
    pub(crate) fn load_begin(&mut self, hash: u64, throttled: bool) -> Reply<K, V, P, A>
        ensures back { HandsBack (step.LoadBegin hash throttled) result self.old self.new }
        ensures looked { Looking (step.LoadBegin hash throttled) result self.old }
        ensures meets { (m : Meaning K V P) → RefinesUncounted m (step.LoadBegin hash throttled) result self.old self.new }
    {
        let Some(address) = self.index.get(hash) else {
            return Reply::Miss;
        };
        if throttled {
            return Reply::Throttled;
        }
        let Some(state) = self.known(address.block) else {
            return Reply::Miss;
        };
        if address.filling != state.filling {
            self.index.remove(hash, &address);
            return Reply::Miss;
        }
        self.manager.note_access(address.block);
        Reply::Read(Ticket { hash, address })
    }

    // The very address leaves the index.
    fn miss(&mut self, ticket: &Ticket) -> Reply<K, V, P, A>
        ensures reply { result ≡ reply.Miss }
        ensures meets { (m : Meaning K V P) (s : Settings) (it : State Content) → IsStateOf m s self.old it
            → IsStateOf m s self.new (missed it ticket.now) }
    {
        self.index.remove(ticket.hash, &ticket.address);
        Reply::Miss
    }

    // The block may have been refilled meanwhile, so its filling is compared before what was read is used.
    fn end_judged(&mut self, judged: Judged<K, V, A>) -> (Reply<K, V, P, A>, Option<Vec<u8, A>>)
    where
        K: Code<A> + Drop,
        V: Code<A> + Drop,
        requires { IsJudged K.is_decodable V.is_decodable K.encoding V.encoding K.is_encodable V.is_encodable
            judged.ticket judged.outcome judged.found }
        ensures back { HandsBack (step.LoadEnd judged.ticket judged.outcome) result.0 self.old self.new }
        ensures pair { AnswersPair K.is_decodable V.is_decodable K.encoding V.encoding
            (step.LoadEnd judged.ticket judged.outcome) result.0 }
        ensures meets { (age_of : P → Option age)
            → RefinesUncounted (meaning K.encoding V.encoding K.is_encodable V.is_encodable K.is_decodable V.is_decodable age_of)
            (step.LoadEnd judged.ticket judged.outcome) result.0 self.old self.new }
        ensures spare { result.1 ≡ spare_of judged.outcome result.0 }
        ensures memory { (back : Step K V P A) → result.0 ≡ reply.Refused Memory back → judged.found ≡ Err error.Memory }
    {
        let Judged {
            ticket,
            outcome,
            found,
        } = judged;
        let address = ticket.address;
        let Some(state) = self.known(address.block) else {
            return (Reply::NotNow(load_end(ticket, outcome)), None);
        };
        let bytes = match outcome {
            Ok(bytes) => bytes,
            Err(error) => {
                return (
                    Reply::Refused(ErrorKind::Io, load_end(ticket, Err(error))),
                    None,
                );
            }
        };
        if bytes.len() != ticket.read_len() {
            return (Reply::NotNow(load_end(ticket, Ok(bytes))), None);
        }
        if state.filling != address.filling {
            return (self.miss(&ticket), Some(bytes));
        }
        let age = if state.statistics.probation {
            Age::Old
        } else {
            Age::Young
        };
        match found {
            Ok(Some((key, value))) => (Reply::Entry { key, value, age }, Some(bytes)),
            Ok(None) => (self.miss(&ticket), Some(bytes)),
            Err(error) => (
                Reply::Refused(error.kind(), load_end(ticket, Ok(bytes))),
                None,
            ),
        }
    }

    // Judges what was read, and ends the load.
    pub(crate) fn load_end(
        &mut self,
        ticket: Ticket,
        outcome: Result<Vec<u8, A>>,
    ) -> (Reply<K, V, P, A>, Option<Vec<u8, A>>)
    where
        K: Code<A> + Drop,
        V: Code<A> + Drop,
        ensures back { HandsBack (step.LoadEnd ticket outcome) result.0 self.old self.new }
        ensures pair { AnswersPair K.is_decodable V.is_decodable K.encoding V.encoding
            (step.LoadEnd ticket outcome) result.0 }
        ensures meets { (age_of : P → Option age)
            → RefinesUncounted (meaning K.encoding V.encoding K.is_encodable V.is_encodable K.is_decodable V.is_decodable age_of)
            (step.LoadEnd ticket outcome) result.0 self.old self.new }
        ensures spare { result.1 ≡ spare_of outcome result.0 }
        ensures memory { (back : Step K V P A) → result.0 ≡ reply.Refused Memory back
            → MayWantMemory K.takes_memory V.takes_memory (A.is_infallible self.old.alloc) ticket outcome }
    {
        let judged = Judged::of(&self.alloc, ticket, outcome);
        self.end_judged(judged)
    }
}

impl<K, V, P, A> Core<K, V, P, A>
where
    K: Code<A> + Drop,
    V: Code<A> + Drop,
    P: Properties,
    A: Allocator + Clone,
{
    #[tactic(auto, using(crate::proofs::Describing::issues_counted, crate::proofs::Describing::issues_pair))]
    /// Applies the `LoadEnd` of what was judged, as `apply` does. Requires that `Judged::of` made `judged`. Beside the reply, gives the
    /// buffer of the read unchanged, for the next read. Gives no buffer if the read failed, or if the reply returns the step, which then
    /// has the buffer.
    pub fn apply_judged<E: EvictionPicker, C: StorageFilterCondition>(
        &mut self,
        _env: &mut Env<E, C>,
        judged: Judged<K, V, A>,
    ) -> (Reply<K, V, P, A>, Option<Vec<u8, A>>)
        requires { IsJudged K.is_decodable V.is_decodable K.encoding V.encoding K.is_encodable V.is_encodable
            judged.ticket judged.outcome judged.found }
        ensures back { HandsBack (step.LoadEnd judged.ticket judged.outcome) result.0 self.old self.new }
        ensures issued { Describes K.is_decodable V.is_decodable K.encoding V.encoding
            (step.LoadEnd judged.ticket judged.outcome) result.0 self.old self.new }
        ensures meets { Refines
            (meaning K.encoding V.encoding K.is_encodable V.is_encodable K.is_decodable V.is_decodable P.age)
            (step.LoadEnd judged.ticket judged.outcome) result.0 self.old self.new }
        ensures spare { result.1 ≡ spare_of judged.outcome result.0 }
        ensures memory { (back : Step K V P A) → result.0 ≡ reply.Refused Memory back → judged.found ≡ Err error.Memory }
        ensures lent { _env.new ≡ _env.old }
    {
        if self.steps == u64::MAX {
            let given = judged.into_step();
            return (Reply::Refused(ErrorKind::SequenceEnd, given), None);
        }
        let steps = self.steps + 1;
        let (reply, spare) = self.end_judged(judged);
        if is_handed_back(&reply) {
            return (reply, spare);
        }
        self.steps = steps;
        (reply, spare)
    }

    /// Judges what was read for a ticket, and applies its `LoadEnd` as `apply_judged` does.
    pub fn apply_load<E: EvictionPicker, C: StorageFilterCondition>(
        &mut self,
        env: &mut Env<E, C>,
        ticket: Ticket,
        outcome: Result<Vec<u8, A>>,
    ) -> (Reply<K, V, P, A>, Option<Vec<u8, A>>)
        ensures back { HandsBack (step.LoadEnd ticket outcome) result.0 self.old self.new }
        ensures issued { Describes K.is_decodable V.is_decodable K.encoding V.encoding
            (step.LoadEnd ticket outcome) result.0 self.old self.new }
        ensures meets { Refines
            (meaning K.encoding V.encoding K.is_encodable V.is_encodable K.is_decodable V.is_decodable P.age)
            (step.LoadEnd ticket outcome) result.0 self.old self.new }
        ensures spare { result.1 ≡ spare_of outcome result.0 }
        ensures memory { (back : Step K V P A) → result.0 ≡ reply.Refused Memory back
            → MayWantMemory K.takes_memory V.takes_memory (A.is_infallible self.old.alloc) ticket outcome }
        ensures lent { env.new ≡ env.old }
    {
        let judged = Judged::of(&self.alloc, ticket, outcome);
        self.apply_judged(env, judged)
    }
}
