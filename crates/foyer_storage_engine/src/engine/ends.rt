//! The calls of an engine that wait for its workers.
ghost use Rattle.std.specs.Prelude.{◌≡◌, ◌⊎◌, ◌+◌, ◌-◌, ◌<◌, IfErr, IfOk, None, OnOk, Some, false, true};
ghost use Rattle.foyer_core_shared.specs.Reply.TheVariants as reply;
ghost use Rattle.foyer_core_shared.specs.Step.{Step};
ghost use Rattle.foyer_device_page.specs.declared.error.ErrorKind.TheVariants as kind;
ghost use Rattle.foyer_core_shared.specs.Answers.{IsAnswer};
ghost use Rattle.foyer_core_shared.specs.Briefs.{brief_of, reply_brief, step_brief};
ghost use Rattle.foyer_core_shared.specs.Replies.{may_reply};
ghost use Rattle.foyer_core_tally.specs.Tally.{saturated};
ghost use Rattle.foyer_storage_engine.specs.Answering.{is_draw_error};
ghost use Rattle.foyer_core_shared.specs.declared.brief.ReplyBrief.TheVariants as replied;
ghost use Rattle.foyer_core_shared.specs.declared.brief.StepBrief.TheVariants as asked;
ghost use Rattle.foyer_storage_engine.specs.Accessing.{IsCleanedBy};
ghost use Rattle.foyer_storage_engine.specs.Ending.{AsksForReclaims, AsksToWait, BringsClean, CountsStep, EndsWithClean, HasBegun, HasMade, HoldsButCloses, HoldsButDestroys, HoldsNamed, IsEarly, IsUnbegun, early_error, is_late_error};

use super::BlockEngine;
use super::waits::{AnsweredWait, BegunWait};
use crate::bell::BellClosed;
use foyer_block_index::manager::BlockId;
use foyer_block_manager::block::eviction::EvictionPicker;
use foyer_core_shared::core_steps::apply::no_io;
use foyer_core_shared::core_steps::refusal::error_of;
use foyer_core_shared::core_steps::reply::Reply;
use foyer_core_shared::core_steps::step::Step;
use foyer_core_shared::notes::Noting;
use foyer_core_shared::session::Session;
use foyer_core_tally::book::Kinds;
use foyer_device_page::error::{Error, ErrorKind, Result};
use foyer_device_statistics::IoState;
use foyer_format_record::serde::{Code, Properties};
use foyer_io_disk::disk::Disk;
use foyer_io_gate::gate::Gate;
use foyer_policy_filter::StorageFilterCondition;
use std::alloc::Allocator;
use std::sync::Wait;
use std::thread;

// Why a destroy ends before its cleans: a step of it was refused, or no worker runs any more.
#[derive(Clone, Copy, Debug, PartialEq, Eq)]
enum Early {
    Refused(ErrorKind),
    Closed(BellClosed),
}

impl Early {
    fn error(self) -> Error
        ensures { result ≡ early_error self }
    {
        match self {
            Early::Refused(kind) => error_of(kind),
            Early::Closed(_) => Error::Closed,
        }
    }
}

impl<L, K, V, P, A, E, C, D, G, N> BlockEngine<L, K, V, P, A, E, C, D, G, N>
where
    L: Kinds,
    K: Code<A> + Drop,
    V: Code<A> + Drop,
    P: Properties + Drop,
    A: Allocator + Clone,
    E: EvictionPicker,
    C: StorageFilterCondition,
    D: Disk + Drop,
    G: Gate,
    N: Noting,
{
    /// Makes one step, and makes it again while memory is refused for it. A filter that is asked is passed `io`. The session's newest brief
    /// is then that of this step and of this very reply.
    #[tactic(auto, using(crate::proofs::HoldingLemmas::counts_made, crate::proofs::HoldingLemmas::held_by_refusal, crate::proofs::HoldingLemmas::held_but_same))]
    pub fn step_again(
        &self,
        rt: &impl Wait,
        session: &mut Session<L>,
        io: IoState,
        step: Step<K, V, P, A>,
    ) -> Reply<K, V, P, A>
        requires { 0 < session.old.shares.parts }
        ensures answer { IsAnswer K.is_decodable V.is_decodable K.encoding V.encoding step result }
        ensures newest { session.new.newest ≡ Some (brief_of step result) }
        ensures replied { may_reply step result ≡ true }
        ensures again { (back : Step K V P A) → result ≡ reply.Refused kind.Memory back → ⊥ }
        ensures counted { CountsStep session.old session.new (step_brief step) (reply_brief result) }
        ensures parts { session.new.shares.parts ≡ session.old.shares.parts }
    {
        let mut given = step;
        for _ in rt.forever() {
            match self.shared.step(rt, session, io, given) {
                Reply::Refused(ErrorKind::Memory, back) => {
                    given = back;
                    thread::yield_now();
                }
                reply => return reply,
            }
        }
        unreachable!()
    }

    // Queues a wait at each flusher. If one is refused, the wait is given up, and those that are queued stay.
    #[tactic(auto, using(crate::proofs::HoldingLemmas::held_by_made, crate::proofs::HoldingLemmas::held_on))]
    fn queue_waits(&self, rt: &impl Wait, session: &mut Session<L>) -> Result<BegunWait>
        requires { 0 < session.old.shares.parts }
        ensures counted { OnOk result (HasMade self.now.settings.flushers session.old session.new) }
        ensures all { IfOk result (λ wait. wait.flushers ≡ self.now.settings.flushers) }
        ensures queued { IfOk result (λ wait. 0 < self.now.settings.flushers → AsksToWait (self.now.settings.flushers - 1) wait.id session.new) }
        ensures refused { IfErr result (λ e. is_draw_error e ≡ true) }
        ensures named { HoldsNamed session.old session.new }
        ensures parts { session.new.shares.parts ≡ session.old.shares.parts }
    {
        let begun = self.signals.waits.begin(rt, self.settings.flushers)?;
        let id = begun.id();
        for flusher in 0..self.settings.flushers {
            let reply = self
                .shared
                .step(rt, session, no_io(), Step::Wait { flusher, id });
            if let Reply::Refused(kind, _) = reply {
                self.signals.waits.forget(rt, id);
                self.signals.queued.ring(rt);
                return Err(error_of(kind));
            }
        }
        self.signals.queued.ring(rt);
        Ok(begun)
    }

    // Waits, after flushers have answered, until no reclaim runs. If the bell is closed before that, it gives what shows this.
    #[tactic(auto, using(crate::proofs::HoldingLemmas::held_by_made, crate::proofs::HoldingLemmas::held_on, crate::proofs::HoldingLemmas::made_answer, crate::proofs::HoldingLemmas::made_still))]
    fn wait_for_reclaims(
        &self,
        rt: &impl Wait,
        session: &mut Session<L>,
        _answered: AnsweredWait,
    ) -> Result<Option<BellClosed>>
        requires { 0 < session.old.shares.parts }
        ensures asks { OnOk result (AsksForReclaims session.new) }
        ensures idle { IfOk result (λ closed. closed ≡ None
            → session.new.newest ≡ Some (record { step = asked.ReclaimIdle; reply = replied.Answer true })) }
        ensures counted { OnOk result (HasMade 1 session.old session.new) }
        ensures refused { IfErr result (λ e. is_draw_error e ≡ true) }
        ensures named { HoldsNamed session.old session.new }
        ensures parts { session.new.shares.parts ≡ session.old.shares.parts }
    {
        for _ in rt.forever() {
            let seen = self.signals.done.count(rt);
            match self.shared.step(rt, session, no_io(), Step::ReclaimIdle) {
                Reply::Answer(is_idle) => {
                    if is_idle {
                        return Ok(None);
                    }
                    if let Some(closed) = self.signals.done.closed_past(rt, seen) {
                        return Ok(Some(closed));
                    }
                }
                Reply::Refused(kind, _) => return Err(error_of(kind)),
                _ => thread::yield_now(),
            }
        }
        unreachable!()
    }

    /// Waits until all that was queued before is written or given up, and then until no reclaim runs. Its last step asks whether no
    /// reclaim runs. After `Signals::close` it waits for nothing. Errors: `Memory` if memory is refused; `SequenceEnd` if no step is
    /// left. After an error, what the earlier steps did stays. The clause also allows `Closed`, which no core answers to a wait.
    #[tactic(auto, using(crate::proofs::HoldingLemmas::held_on))]
    pub fn wait(&self, rt: &impl Wait, session: &mut Session<L>) -> Result<()>
        requires { 0 < session.old.shares.parts }
        ensures asks { OnOk result (AsksForReclaims session.new) }
        ensures counted { OnOk result (HasMade (self.now.settings.flushers + 1) session.old session.new) }
        ensures refused { IfErr result (λ e. is_draw_error e ≡ true) }
        ensures named { HoldsNamed session.old session.new }
        ensures parts { session.new.shares.parts ≡ session.old.shares.parts }
    {
        let begun = self.queue_waits(rt, session)?;
        let answered = self.signals.waits.wait_for(rt, begun);
        let _ = self.wait_for_reclaims(rt, session, answered)?;
        Ok(())
    }

    /// Takes no more enqueues, deletes and destroys, and waits as `wait` does. Errors: those of `wait`. If only the wait failed, the
    /// engine is closed.
    #[tactic(auto, using(crate::proofs::HoldingLemmas::closed_by_made, crate::proofs::HoldingLemmas::closes_on))]
    pub fn close(&self, rt: &impl Wait, session: &mut Session<L>) -> Result<()>
        requires { 0 < session.old.shares.parts }
        ensures asks { OnOk result (AsksForReclaims session.new) }
        ensures counted { OnOk result (HasMade (self.now.settings.flushers + 2) session.old session.new) }
        ensures refused { IfErr result (λ e. is_draw_error e ≡ true) }
        ensures closed { OnOk result (session.new.closes ≡ saturated (session.old.closes + 1)) }
        ensures named { HoldsButCloses session.old session.new }
        ensures parts { session.new.shares.parts ≡ session.old.shares.parts }
    {
        if let Reply::Refused(kind, _) = self.shared.step(rt, session, no_io(), Step::Close) {
            return Err(error_of(kind));
        }
        self.wait(rt, session)
    }

    // Begins a destroy, once none is under way.
    #[tactic(auto, using(crate::proofs::HoldingLemmas::destroyed_by_made, crate::proofs::HoldingLemmas::destroys_on))]
    fn begin_destroy(
        &self,
        rt: &impl Wait,
        session: &mut Session<L>,
    ) -> std::result::Result<(), Early>
        requires { 0 < session.old.shares.parts }
        ensures begun { OnOk result (HasBegun session.new) }
        ensures early { IfErr result (IsEarly N.keeps asked.DestroyBegin session.new) }
        ensures refused { IfErr result (λ early. is_draw_error (early_error early) ≡ true) }
        ensures unbegun { IfErr result (λ early. (is_late_error (early_error early) ≡ true) ⊎ IsUnbegun N.keeps session.new (early_error early)) }
        ensures named { HoldsButDestroys session.old session.new }
        ensures parts { session.new.shares.parts ≡ session.old.shares.parts }
    {
        for _ in rt.forever() {
            let seen = self.signals.done.count(rt);
            match self.shared.step(rt, session, no_io(), Step::DestroyBegin) {
                Reply::Destroying(_) => return Ok(()),
                Reply::Refused(kind, _) => return Err(Early::Refused(kind)),
                _ => {
                    if let Some(closed) = self.signals.done.closed_past(rt, seen) {
                        return Err(Early::Closed(closed));
                    }
                }
            }
        }
        unreachable!()
    }

    // Waits as `wait` does, again while memory is refused.
    #[tactic(auto, using(crate::proofs::HoldingLemmas::held_on))]
    fn wait_again(&self, rt: &impl Wait, session: &mut Session<L>) -> Result<()>
        requires { 0 < session.old.shares.parts }
        ensures asks { OnOk result (AsksForReclaims session.new) }
        ensures refused { IfErr result (λ e. is_late_error e ≡ true) }
        ensures named { HoldsNamed session.old session.new }
        ensures parts { session.new.shares.parts ≡ session.old.shares.parts }
    {
        for _ in rt.forever() {
            match self.wait(rt, session) {
                Err(Error::Memory) => thread::yield_now(),
                answer => return answer,
            }
        }
        unreachable!()
    }

    // Clears the index, once nothing is under way.
    #[tactic(auto, using(crate::proofs::HoldingLemmas::destroys_by_step, crate::proofs::HoldingLemmas::destroys_on))]
    fn clear(&self, rt: &impl Wait, session: &mut Session<L>) -> std::result::Result<(), Early>
        requires { 0 < session.old.shares.parts }
        ensures cleared { OnOk result (session.new.newest ≡ Some (record { step = asked.DestroyClear; reply = replied.Cleared })) }
        ensures early { IfErr result (IsEarly false asked.DestroyClear session.new) }
        ensures refused { IfErr result (λ early. is_late_error (early_error early) ≡ true) }
        ensures named { HoldsButDestroys session.old session.new }
        ensures parts { session.new.shares.parts ≡ session.old.shares.parts }
    {
        for _ in rt.forever() {
            let seen = self.signals.done.count(rt);
            match self.step_again(rt, session, no_io(), Step::DestroyClear) {
                Reply::Cleared => return Ok(()),
                Reply::Refused(kind, _) => return Err(Early::Refused(kind)),
                _ => {
                    if let Some(closed) = self.signals.done.closed_past(rt, seen) {
                        return Err(Early::Closed(closed));
                    }
                }
            }
        }
        unreachable!()
    }

    // Cleans a block for a destroy. Gives the outcome of all cleans, if this one was the last.
    #[tactic(auto, using(crate::proofs::HoldingLemmas::destroys_by_step, crate::proofs::HoldingLemmas::destroys_on))]
    fn clean(&self, rt: &impl Wait, session: &mut Session<L>, block: BlockId) -> Option<Result<()>>
        requires { 0 < session.old.shares.parts }
        ensures brings { BringsClean (IsCleanedBy D.is_known D.byte_at D.surely_has D.surely_lies D.faults) block session.new result }
        ensures named { HoldsButDestroys session.old session.new }
        ensures parts { session.new.shares.parts ≡ session.old.shares.parts }
    {
        let result = self.reader.lock(rt).clean(block);
        match self.step_again(rt, session, no_io(), Step::DestroyCleaned { block, result }) {
            Reply::Destroyed(None) => Some(Ok(())),
            Reply::Destroyed(Some(kind)) => Some(Err(error_of(kind))),
            Reply::Refused(kind, _) => Some(Err(error_of(kind))),
            _ => None,
        }
    }

    /// Destroys all entries: it waits as `wait` does, clears the index, and cleans each block, in order. Once it has begun, it repeats
    /// each step that is refused memory. Errors: `Closed` if the engine is closed, or if it would have to wait after `Signals::close`;
    /// `SequenceEnd` if no step or no sequence is left; `Memory` if memory is refused before it has begun. `Io` or `Memory` is also the
    /// error of the first clean that failed. Then the index is clear, and a clean of every block was tried.
    #[tactic(auto, using(crate::proofs::HoldingLemmas::destroys_on, crate::proofs::HoldingLemmas::destroys_beside))]
    pub fn destroy(&self, rt: &impl Wait, session: &mut Session<L>) -> Result<()>
        requires { 0 < session.old.shares.parts }
        ensures cleaned { OnOk result (0 < self.now.settings.blocks → EndsWithClean (IsCleanedBy D.is_known D.byte_at D.surely_has D.surely_lies D.faults)
            (self.now.settings.blocks - 1) session.new result) }
        ensures refused { IfErr result (λ e. (is_draw_error e ≡ true)
            ⊎ (0 < self.now.settings.blocks → EndsWithClean (IsCleanedBy D.is_known D.byte_at D.surely_has D.surely_lies D.faults)
            (self.now.settings.blocks - 1) session.new result)) }
        ensures unbegun { IfErr result (λ e. (is_late_error e ≡ true) ⊎ (IsUnbegun N.keeps session.new e
            ⊎ (0 < self.now.settings.blocks → EndsWithClean (IsCleanedBy D.is_known D.byte_at D.surely_has D.surely_lies D.faults)
            (self.now.settings.blocks - 1) session.new result))) }
        ensures named { HoldsButDestroys session.old session.new }
        ensures parts { session.new.shares.parts ≡ session.old.shares.parts }
    {
        if let Err(early) = self.begin_destroy(rt, session) {
            return Err(early.error());
        }
        self.wait_again(rt, session)?;
        if let Err(early) = self.clear(rt, session) {
            return Err(early.error());
        }
        let mut ended = Some(Ok(()));
        for block in 0..self.settings.blocks {
            ended = self.clean(rt, session, block);
        }
        self.signals.done.ring(rt);
        self.signals.reclaims.ring(rt);
        ended.unwrap_or(Err(Error::Unsupported))
    }
}
