//! The calls that wait, close and destroy.
ghost use Rattle.std.specs.Prelude.{◌≡◌, ◌⊎◌, ◌<◌, ℕ, IfErr, OnOk, true};
ghost use Rattle.foyer_core_laws.specs.Content.{meaning};
ghost use Rattle.foyer_core_threads.specs.Going.{GoesOn, IsMadeAgain};
ghost use Rattle.foyer_device_page.specs.declared.error.Error.TheVariants as error;
ghost use Rattle.foyer_core_shared.specs.Replies.{may_reply};
ghost use Rattle.foyer_core_steps.specs.declared.reply.Reply.TheVariants as replies;
ghost use Rattle.foyer_core_steps.specs.declared.step.Step.TheVariants as steps;
ghost use Rattle.foyer_storage_engine.specs.Answering.{is_draw_error};
ghost use Rattle.foyer_storage_engine.specs.Ending.{HoldsButCloses, HoldsButDestroys};
ghost use Rattle.foyer_storage_history.specs.HistoryCalls.{IsAllDestroyed, IsClosed, IsWaitedFor};

use super::HistoryEngine;
use crate::begun::begin_destroy;
use crate::session::HistorySession;
use foyer_block_manager::block::eviction::EvictionPicker;
use foyer_core_shared::core_steps::apply::no_io;
use foyer_core_shared::core_steps::refusal::error_of;
use foyer_core_shared::core_steps::reply::Reply;
use foyer_core_shared::core_steps::step::Step;
use foyer_core_tally::book::Kinds;
use foyer_core_threads::io_told::disk::HistoryName;
use foyer_device_page::error::{Error, Result};
use foyer_format_record::serde::{Code, Properties};
use foyer_io_disk::disk::Disk;
use foyer_lock::lock_spinning;
use foyer_policy_filter::StorageFilterCondition;
use std::alloc::Global;
use std::sync::Wait;

// The answer of a close, by the core's reply.
fn closed_of<K: Drop, V: Drop, P: Drop>(reply: Reply<K, V, P, Global>) -> Result<()>
    ensures done { OnOk result (reply ≡ replies.Done) }
    ensures refused { may_reply steps.Close reply ≡ true → IfErr result (λ e. (is_draw_error e ≡ true) ⊎ (e ≡ error.Unsupported)) }
{
    match reply {
        Reply::Done => Ok(()),
        Reply::Refused(kind, _) => Err(error_of(kind)),
        _ => Err(Error::Unsupported),
    }
}

impl<J, L, K, V, P, E, C, D> HistoryEngine<J, L, K, V, P, E, C, D>
where
    J: HistoryName,
    L: Kinds,
    K: Code<Global> + Eq + Drop,
    V: Code<Global> + Drop,
    P: Properties + Drop,
    E: EvictionPicker,
    C: StorageFilterCondition,
    D: Disk + Drop,
{
    // Queues a wait at a flusher, and writes until a batch's end answers it.
    #[tactic(auto, using(crate::proofs::HistoryLemmas::nil_is))]
    fn wait_for(
        &self,
        rt: &impl Wait,
        session: &mut HistorySession<J, L, K, V, P, D>,
        flusher: u32,
    ) -> Result<()>
        ensures waited { OnOk result (IsWaitedFor (meaning K.encoding V.encoding K.is_encodable V.is_encodable K.is_decodable V.is_decodable P.age) D.byte_at session.old.told.witness.me.0 session.new.told.witness.me.0 flusher) }
        ensures on { GoesOn (meaning K.encoding V.encoding K.is_encodable V.is_encodable K.is_decodable V.is_decodable P.age) D.byte_at session.old.told.witness.me.0 session.new.told.witness.me.0 }
        ensures same { session.new.told.session ≡ session.old.told.session }
        ensures refused { IfErr result (λ e. (is_draw_error e ≡ true) ⊎ (e ≡ error.Unsupported)) }
    {
        let mut maintainer = lock_spinning(&self.maintainer, rt);
        maintainer.wait_for(
            rt,
            &self.shared,
            &*self.keeper,
            &self.work,
            &self.alloc,
            &mut session.told,
            flusher,
        )
    }

    /// Waits, flusher by flusher, until all that was queued before is written or given up. This session makes no step.
    #[tactic(auto, using(crate::proofs::HistoryLemmas::nil_is, crate::proofs::HistoryLemmas::goes_on, crate::proofs::HistoryLemmas::goes_self))]
    pub fn wait_all(
        &self,
        rt: &impl Wait,
        session: &mut HistorySession<J, L, K, V, P, D>,
    ) -> Result<()>
        ensures waited { OnOk result ((flusher : ℕ) → flusher < self.now.settings.flushers → IsWaitedFor (meaning K.encoding V.encoding K.is_encodable V.is_encodable K.is_decodable V.is_decodable P.age) D.byte_at session.old.told.witness.me.0 session.new.told.witness.me.0 flusher) }
        ensures on { GoesOn (meaning K.encoding V.encoding K.is_encodable V.is_encodable K.is_decodable V.is_decodable P.age) D.byte_at session.old.told.witness.me.0 session.new.told.witness.me.0 }
        ensures same { session.new.told.session ≡ session.old.told.session }
        ensures refused { IfErr result (λ e. (is_draw_error e ≡ true) ⊎ (e ≡ error.Unsupported)) }
    {
        for flusher in 0..self.settings.flushers {
            match self.wait_for(rt, session, flusher) {
                Ok(()) => {}
                Err(error) => return Err(error),
            }
        }
        Ok(())
    }

    // Closes the core.
    #[tactic(auto, using(crate::proofs::HistoryLemmas::nil_is))]
    fn close_core(
        &self,
        rt: &impl Wait,
        session: &mut HistorySession<J, L, K, V, P, D>,
    ) -> Result<()>
        ensures made { OnOk result (IsMadeAgain (meaning K.encoding V.encoding K.is_encodable V.is_encodable K.is_decodable V.is_decodable P.age) D.byte_at session.old.told.witness.me.0 session.new.told.witness.me.0 steps.Close replies.Done) }
        ensures on { GoesOn (meaning K.encoding V.encoding K.is_encodable V.is_encodable K.is_decodable V.is_decodable P.age) D.byte_at session.old.told.witness.me.0 session.new.told.witness.me.0 }
        ensures named { HoldsButCloses session.old.told.session session.new.told.session }
        ensures parts { session.new.told.session.shares.parts ≡ session.old.told.session.shares.parts }
        ensures refused { IfErr result (λ e. (is_draw_error e ≡ true) ⊎ (e ≡ error.Unsupported)) }
    {
        let reply = self
            .shared
            .ask_again(rt, &mut session.told, no_io(), Step::Close);
        closed_of(reply)
    }

    /// Refuses puts, deletes and destroys from now on, and waits as `wait_all` does. The session counts no put, delete, load or destroy.
    #[tactic(auto, using(crate::proofs::HistoryLemmas::nil_is, crate::proofs::HistoryLemmas::goes_on, crate::proofs::HistoryLemmas::goes_self))]
    pub fn close_all(
        &self,
        rt: &impl Wait,
        session: &mut HistorySession<J, L, K, V, P, D>,
    ) -> Result<()>
        ensures closed { OnOk result (IsClosed (meaning K.encoding V.encoding K.is_encodable V.is_encodable K.is_decodable V.is_decodable P.age) D.byte_at session.old.told.witness.me.0 session.new.told.witness.me.0 self.now.settings.flushers) }
        ensures on { GoesOn (meaning K.encoding V.encoding K.is_encodable V.is_encodable K.is_decodable V.is_decodable P.age) D.byte_at session.old.told.witness.me.0 session.new.told.witness.me.0 }
        ensures named { HoldsButCloses session.old.told.session session.new.told.session }
        ensures parts { session.new.told.session.shares.parts ≡ session.old.told.session.shares.parts }
        ensures refused { IfErr result (λ e. (is_draw_error e ≡ true) ⊎ (e ≡ error.Unsupported)) }
    {
        match self.close_core(rt, session) {
            Ok(()) => {}
            Err(error) => return Err(error),
        }
        self.wait_all(rt, session)
    }

    /// Destroys all entries: what was put before is gone. The session counts no put, delete, load or close. Errors: `Closed` after a close;
    /// `SequenceEnd` if no step or sequence is left; the kind of the first clean that failed, `Io` or `Memory`. An error of another kind than
    /// `Closed`, `Memory`, `SequenceEnd` and `Unsupported` answers the report of the last block's clean.
    #[tactic(auto, using(crate::proofs::HistoryLemmas::nil_is, crate::proofs::HistoryLemmas::goes_on))]
    pub fn destroy_all(
        &self,
        rt: &impl Wait,
        session: &mut HistorySession<J, L, K, V, P, D>,
    ) -> Result<()>
        ensures destroyed { OnOk result (IsAllDestroyed (meaning K.encoding V.encoding K.is_encodable V.is_encodable K.is_decodable V.is_decodable P.age) D.byte_at session.old.told.witness.me.0 session.new.told.witness.me.0 result) }
        ensures on { GoesOn (meaning K.encoding V.encoding K.is_encodable V.is_encodable K.is_decodable V.is_decodable P.age) D.byte_at session.old.told.witness.me.0 session.new.told.witness.me.0 }
        ensures named { HoldsButDestroys session.old.told.session session.new.told.session }
        ensures parts { session.new.told.session.shares.parts ≡ session.old.told.session.shares.parts }
        ensures refused { IfErr result (λ e. (is_draw_error e ≡ true) ⊎ ((e ≡ error.Unsupported) ⊎ IsAllDestroyed (meaning K.encoding V.encoding K.is_encodable V.is_encodable K.is_decodable V.is_decodable P.age) D.byte_at session.old.told.witness.me.0 session.new.told.witness.me.0 result)) }
    {
        let mut maintainer = lock_spinning(&self.maintainer, rt);
        let begun = match begin_destroy(rt, &self.shared, session) {
            Ok(begun) => begun,
            Err(error) => return Err(error),
        };
        maintainer.destroy(
            rt,
            &self.shared,
            &*self.keeper,
            &self.work,
            &self.alloc,
            &mut session.told,
            begun,
        )
    }
}
