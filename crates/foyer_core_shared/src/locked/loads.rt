//! The step that ends a load. What was read is judged before this step, which gives the buffer of the read back.
ghost use Rattle.foyer_core_steps.specs.Content.{meaning};
ghost use Rattle.foyer_core_shared.specs.Briefs.{brief_of};
ghost use Rattle.foyer_core_shared.specs.History.{BeginAlike, IsLegal, Made};
ghost use Rattle.foyer_core_shared.specs.Kinds.{kind_of};
ghost use Rattle.foyer_core_shared.specs.Noted.{and_note};
ghost use Rattle.foyer_core_shared.specs.Replies.{may_reply};
ghost use Rattle.foyer_core_shared.specs.Sessions.{CountsEnds};
ghost use Rattle.foyer_core_steps.specs.Answered.{Describes, HandsBack, spare_of};
ghost use Rattle.foyer_core_steps.specs.Judging.{IsJudged};
ghost use Rattle.foyer_core_steps.specs.Refines.{Refines};
ghost use Rattle.foyer_core_steps.specs.declared.step.Step.TheVariants as steps;
ghost use Rattle.foyer_core_tally.specs.Tally.{grown};
ghost use Rattle.std.specs.Prelude.{◌≡◌, ◌<◌, ◌++◌, ◌∷◌, [], List, IfErr, IfOk, Some, true};

use super::{Locked, Session, note, reserve};
use crate::brief::{Brief, ReplyBrief, StepBrief};
use crate::notes::Noting;
use foyer_block_manager::block::eviction::EvictionPicker;
use foyer_core_steps::load::Judged;
use foyer_core_steps::reply::Reply;
use foyer_core_steps::step::Step;
use foyer_core_tally::book::Kinds;
use foyer_format_record::serde::{Code, Properties};
use foyer_policy_filter::StorageFilterCondition;
use std::alloc::Allocator;

impl<L, K, V, P, A, E, C, N> Locked<L, K, V, P, A, E, C, N>
where
    L: Kinds,
    K: Code<A> + Drop,
    V: Code<A> + Drop,
    P: Properties + Drop,
    A: Allocator + Clone,
    E: EvictionPicker,
    C: StorageFilterCondition,
    N: Noting,
{
    /// Reports what was read for a ticket, as `step` does with a `LoadEnd`. Requires that `Judged::of` made `judged`. Returns the buffer of
    /// the read beside the reply, for the next read. Returns no buffer if the read failed, or if the reply returns the step, which then has
    /// the buffer. As with `step`, `Err` returns the step if memory for a note is refused.
    pub fn end_judged(
        &mut self,
        session: &mut Session<L>,
        judged: Judged<K, V, A>,
    ) -> std::result::Result<(Reply<K, V, P, A>, Option<Vec<u8, A>>), Step<K, V, P, A>>
        requires judged { IsJudged K.is_decodable V.is_decodable K.encoding V.encoding K.is_encodable V.is_encodable
            judged.ticket judged.outcome judged.found }
        requires part { 0 < session.old.shares.parts }
        ensures back { IfOk result (λ r. HandsBack (steps.LoadEnd judged.ticket judged.outcome) r.0 self.old.noted.core self.new.noted.core) }
        ensures issued { IfOk result (λ r. Describes K.is_decodable V.is_decodable K.encoding V.encoding
            (steps.LoadEnd judged.ticket judged.outcome) r.0 self.old.noted.core self.new.noted.core) }
        ensures meets { IfOk result (λ r. Refines
            (meaning K.encoding V.encoding K.is_encodable V.is_encodable K.is_decodable V.is_decodable P.age)
            (steps.LoadEnd judged.ticket judged.outcome) r.0 self.old.noted.core self.new.noted.core) }
        ensures history { IfOk result (λ r. (run : List (Made K V P A))
            (before : IsLegal (meaning K.encoding V.encoding K.is_encodable V.is_encodable K.is_decodable V.is_decodable P.age) run self.old.noted.core)
            → (after : IsLegal (meaning K.encoding V.encoding K.is_encodable V.is_encodable K.is_decodable V.is_decodable P.age)
            (run ++ record { step = steps.LoadEnd judged.ticket judged.outcome; reply = r.0 } ∷ []) self.new.noted.core)
            × BeginAlike (meaning K.encoding V.encoding K.is_encodable V.is_encodable K.is_decodable V.is_decodable P.age)
            run (run ++ record { step = steps.LoadEnd judged.ticket judged.outcome; reply = r.0 } ∷ []) self.old.noted.core self.new.noted.core before after) }
        ensures replied { IfOk result (λ r. may_reply (steps.LoadEnd judged.ticket judged.outcome) r.0 ≡ true) }
        ensures spare { IfOk result (λ r. r.1 ≡ spare_of judged.outcome r.0) }
        ensures noted { IfOk result (λ r. (self.new.noted.notes ≡ and_note (brief_of (steps.LoadEnd judged.ticket judged.outcome) r.0) self.old.noted.notes)
            × (session.new.newest ≡ Some (brief_of (steps.LoadEnd judged.ticket judged.outcome) r.0)) × (session.new.before ≡ session.old.newest)) }
        ensures ends { IfOk result (λ r. CountsEnds session.old session.new ((brief_of (steps.LoadEnd judged.ticket judged.outcome) r.0).step)) }
        ensures counted { IfOk result (λ r. (self.new.noted.calls ≡ grown (kind_of (brief_of (steps.LoadEnd judged.ticket judged.outcome) r.0)) self.old.noted.calls)
            × (session.new.shares ≡ record { parts = session.old.shares.parts; amounts = grown (kind_of (brief_of (steps.LoadEnd judged.ticket judged.outcome) r.0)) session.old.shares.amounts })) }
        ensures lent { self.new.env ≡ self.old.env }
        ensures roomless { IfErr result (λ given. (given ≡ steps.LoadEnd judged.ticket judged.outcome) × (session.new ≡ session.old) × (N.keeps ≡ true)
            × (self.new.noted ≡ self.old.noted)) }
    {
        if reserve(&mut self.noted.notes).is_err() {
            return Err(judged.into_step());
        }
        let asked = StepBrief::of_load(judged.ticket(), judged.outcome());
        let (reply, spare) = self.noted.core.apply_judged(&mut self.env, judged);
        let brief = Brief {
            step: asked,
            reply: ReplyBrief::of(&reply),
        };
        note(&mut self.noted.notes, brief);
        self.noted.calls.note(&mut session.shares, brief.kind());
        session.note(brief);
        Ok((reply, spare))
    }
}
