//! How all is destroyed.
ghost use Rattle.std.specs.Prelude.{◌≡◌, ◌⊎◌, ◌-◌, ◌^◌, ◌<◌, ℕ, [], IfErr, IfSome, OnOk, true};
ghost use Rattle.foyer_core_laws.specs.Content.{meaning};
ghost use Rattle.foyer_core_model.specs.Access.{CleanIssued};
ghost use Rattle.foyer_core_shared.specs.Replies.{may_reply};
ghost use Rattle.foyer_core_steps.specs.declared.reply.Reply.TheVariants as reply;
ghost use Rattle.foyer_core_steps.specs.declared.step.Step.TheVariants as steps;
ghost use Rattle.foyer_core_threads.specs.Going.{GoesOn, IsMadeAgain};
ghost use Rattle.foyer_device_page.specs.declared.error.Error.TheVariants as error;
ghost use Rattle.foyer_io_told.specs.ToldAccess.{HasClean};
ghost use Rattle.foyer_storage_engine.specs.Answering.{is_draw_error};
ghost use Rattle.foyer_storage_history.specs.HistoryCalls.{AreCleaned, IsAllDestroyed, IsCleared, IsDestroyed, cleared_as, destroyed_as};

use super::{Flushed, HistoryCore, Maintainer};
use crate::begun::DestroyBegun;
use foyer_block_index::manager::BlockId;
use foyer_block_manager::block::eviction::EvictionPicker;
use foyer_core_shared::core_steps::refusal::error_of;
use foyer_core_shared::core_steps::reply::Reply;
use foyer_core_shared::core_steps::step::Step;
use foyer_core_tally::book::Kinds;
use foyer_core_threads::io_told::disk::HistoryName;
use foyer_core_threads::session::ToldSession;
use foyer_device_page::error::{Error, Result};
use foyer_format_record::serde::{Code, Properties};
use foyer_io_disk::disk::Disk;
use foyer_policy_filter::StorageFilterCondition;
use foyer_policy_keeper::keeper::Keeper;
use foyer_storage_engine::engine::counts::WorkCounters;
use std::alloc::Global;
use std::sync::Wait;
use std::thread;

// The answer of a destroy, by the reply to the report of a clean.
fn destroyed_of<K: Drop, V: Drop, P: Drop>(reply: Reply<K, V, P, Global>) -> Result<()>
    ensures { result ≡ destroyed_as reply }
{
    match reply {
        Reply::Destroyed(None) => Ok(()),
        Reply::Destroyed(Some(kind)) => Err(error_of(kind)),
        Reply::Refused(kind, _) => Err(error_of(kind)),
        _ => Err(Error::Unsupported),
    }
}

// The answer of a destroy's clear, or `None` if the clear is to be tried again.
fn cleared_of<K: Drop, V: Drop, P: Drop>(reply: Reply<K, V, P, Global>) -> Option<Result<()>>
    ensures answer { result ≡ cleared_as reply }
    ensures refused { may_reply steps.DestroyClear reply ≡ true → IfSome result (λ done. IfErr done (λ e. is_draw_error e ≡ true)) }
{
    match reply {
        Reply::Cleared => Some(Ok(())),
        Reply::Refused(kind, _) => Some(Err(error_of(kind))),
        _ => None,
    }
}

impl<J, L, K, V, P, D> Maintainer<J, L, K, V, P, D>
where
    J: HistoryName,
    L: Kinds,
    K: Code<Global> + Eq + Drop,
    V: Code<Global> + Drop,
    P: Properties + Drop,
    D: Disk,
{
    // Writes what is queued at a flusher, until nothing is.
    #[tactic(auto, using(crate::proofs::HistoryLemmas::nil_is, crate::proofs::HistoryLemmas::goes_on, crate::proofs::HistoryLemmas::goes_self))]
    fn drain<E, C>(
        &mut self,
        rt: &impl Wait,
        shared: &HistoryCore<J, L, K, V, P, E, C, D>,
        keeper: &Keeper<K, V, P, Global>,
        work: &WorkCounters,
        alloc: &Global,
        flusher: u32,
    )
    where
        E: EvictionPicker,
        C: StorageFilterCondition,
        ensures on { GoesOn (meaning K.encoding V.encoding K.is_encodable V.is_encodable K.is_decodable V.is_decodable P.age) D.byte_at self.old.told.witness.me.0 self.new.told.witness.me.0 }
        ensures settings { self.new.settings ≡ self.old.settings }
    {
        for _ in rt.forever() {
            match self.flush(rt, shared, keeper, work, alloc, flusher, 0) {
                Flushed::Nothing => return,
                _ => {}
            }
        }
        unreachable!()
    }

    // Clears the index, if no flusher has anything to do and no reclaim runs.
    #[tactic(auto, using(crate::proofs::HistoryLemmas::nil_is))]
    fn try_clear<E, C>(
        &mut self,
        rt: &impl Wait,
        shared: &HistoryCore<J, L, K, V, P, E, C, D>,
    ) -> Reply<K, V, P, Global>
    where
        E: EvictionPicker,
        C: StorageFilterCondition,
        ensures on { GoesOn (meaning K.encoding V.encoding K.is_encodable V.is_encodable K.is_decodable V.is_decodable P.age) D.byte_at self.old.told.witness.me.0 self.new.told.witness.me.0 }
        ensures told { IsMadeAgain (meaning K.encoding V.encoding K.is_encodable V.is_encodable K.is_decodable V.is_decodable P.age) D.byte_at self.old.told.witness.me.0 self.new.told.witness.me.0 steps.DestroyClear result }
        ensures issued { (block : ℕ) → block < self.old.settings.blocks → result ≡ reply.Cleared
            → HasClean (meaning K.encoding V.encoding K.is_encodable V.is_encodable K.is_decodable V.is_decodable P.age) D.byte_at self.new.told.witness.me.0.seen block CleanIssued }
        ensures replied { may_reply steps.DestroyClear result ≡ true }
        ensures settings { self.new.settings ≡ self.old.settings }
    {
        shared.clear(rt, &mut self.told)
    }

    // Writes what is queued at each flusher, until nothing is.
    #[tactic(auto, using(crate::proofs::HistoryLemmas::nil_is, crate::proofs::HistoryLemmas::goes_on, crate::proofs::HistoryLemmas::goes_self))]
    fn drain_all<E, C>(
        &mut self,
        rt: &impl Wait,
        shared: &HistoryCore<J, L, K, V, P, E, C, D>,
        keeper: &Keeper<K, V, P, Global>,
        work: &WorkCounters,
        alloc: &Global,
    )
    where
        E: EvictionPicker,
        C: StorageFilterCondition,
        ensures on { GoesOn (meaning K.encoding V.encoding K.is_encodable V.is_encodable K.is_decodable V.is_decodable P.age) D.byte_at self.old.told.witness.me.0 self.new.told.witness.me.0 }
        ensures settings { self.new.settings ≡ self.old.settings }
    {
        for flusher in 0..self.settings.flushers {
            self.drain(rt, shared, keeper, work, alloc, flusher);
        }
    }

    // Clears the index, once nothing is queued.
    #[tactic(auto, using(crate::proofs::HistoryLemmas::nil_is, crate::proofs::HistoryLemmas::goes_on, crate::proofs::HistoryLemmas::goes_self))]
    fn clear<E, C>(
        &mut self,
        rt: &impl Wait,
        shared: &HistoryCore<J, L, K, V, P, E, C, D>,
        keeper: &Keeper<K, V, P, Global>,
        work: &WorkCounters,
        alloc: &Global,
    ) -> Result<()>
    where
        E: EvictionPicker,
        C: StorageFilterCondition,
        ensures on { GoesOn (meaning K.encoding V.encoding K.is_encodable V.is_encodable K.is_decodable V.is_decodable P.age) D.byte_at self.old.told.witness.me.0 self.new.told.witness.me.0 }
        ensures cleared { OnOk result (IsCleared (meaning K.encoding V.encoding K.is_encodable V.is_encodable K.is_decodable V.is_decodable P.age) D.byte_at self.old.told.witness.me.0 self.new.told.witness.me.0 self.old.settings.blocks) }
        ensures refused { IfErr result (λ e. is_draw_error e ≡ true) }
        ensures settings { self.new.settings ≡ self.old.settings }
    {
        'tries: for _ in rt.forever() {
            self.drain_all(rt, shared, keeper, work, alloc);
            match cleared_of(self.try_clear(rt, shared)) {
                Some(done) => return done,
                None => thread::yield_now(),
            }
        }
        unreachable!()
    }

    // Cleans a block for a destroy: what its report is answered as.
    #[tactic(auto, using(crate::proofs::HistoryLemmas::nil_is))]
    fn clean_one<E, C>(
        &mut self,
        rt: &impl Wait,
        shared: &HistoryCore<J, L, K, V, P, E, C, D>,
        block: BlockId,
    ) -> Result<()>
    where
        E: EvictionPicker,
        C: StorageFilterCondition,
        requires { HasClean (meaning K.encoding V.encoding K.is_encodable V.is_encodable K.is_decodable V.is_decodable P.age) D.byte_at self.old.told.witness.me.0.seen block CleanIssued }
        ensures on { GoesOn (meaning K.encoding V.encoding K.is_encodable V.is_encodable K.is_decodable V.is_decodable P.age) D.byte_at self.old.told.witness.me.0 self.new.told.witness.me.0 }
        ensures cleaned { AreCleaned (meaning K.encoding V.encoding K.is_encodable V.is_encodable K.is_decodable V.is_decodable P.age) D.byte_at self.old.told.witness.me.0 self.new.told.witness.me.0 block result }
        ensures others { (other : ℕ) → (other ≡ block → ⊥) → other < 2 ^ 32
            → HasClean (meaning K.encoding V.encoding K.is_encodable V.is_encodable K.is_decodable V.is_decodable P.age) D.byte_at self.old.told.witness.me.0.seen other CleanIssued
            → HasClean (meaning K.encoding V.encoding K.is_encodable V.is_encodable K.is_decodable V.is_decodable P.age) D.byte_at self.new.told.witness.me.0.seen other CleanIssued }
        ensures settings { self.new.settings ≡ self.old.settings }
    {
        destroyed_of(shared.clean_cleared(rt, &mut self.told, block))
    }

    // Cleans each of the blocks, the last one last: what its report is answered as.
    #[tactic(auto, using(crate::proofs::HistoryLemmas::nil_is, crate::proofs::HistoryLemmas::goes_on, crate::proofs::HistoryLemmas::goes_self))]
    fn clean_all<E, C>(
        &mut self,
        rt: &impl Wait,
        shared: &HistoryCore<J, L, K, V, P, E, C, D>,
        blocks: u32,
    ) -> Result<()>
    where
        E: EvictionPicker,
        C: StorageFilterCondition,
        requires same { blocks ≡ self.old.settings.blocks }
        requires issued { (block : ℕ) → block < self.old.settings.blocks → HasClean (meaning K.encoding V.encoding K.is_encodable V.is_encodable K.is_decodable V.is_decodable P.age) D.byte_at self.old.told.witness.me.0.seen block CleanIssued }
        ensures on { GoesOn (meaning K.encoding V.encoding K.is_encodable V.is_encodable K.is_decodable V.is_decodable P.age) D.byte_at self.old.told.witness.me.0 self.new.told.witness.me.0 }
        ensures cleaned { 0 < self.old.settings.blocks → AreCleaned (meaning K.encoding V.encoding K.is_encodable V.is_encodable K.is_decodable V.is_decodable P.age) D.byte_at self.old.told.witness.me.0 self.new.told.witness.me.0 (self.old.settings.blocks - 1) result }
        ensures some { OnOk result (0 < self.old.settings.blocks) }
        ensures refused { IfErr result (λ e. (e ≡ error.Unsupported) ⊎ (0 < self.old.settings.blocks)) }
        ensures settings { self.new.settings ≡ self.old.settings }
    {
        let mut ended = Err(Error::Unsupported);
        for block in 0..blocks {
            ended = self.clean_one(rt, shared, block);
        }
        ended
    }

    /// Destroys all entries for a caller whose destroy has begun, after all that the caller has seen. Writes what is queued, clears the
    /// index, and cleans each block. The caller has then seen that, unless the index couldn't be cleared.
    #[tactic(auto, using(crate::proofs::HistoryLemmas::nil_is, crate::proofs::HistoryLemmas::goes_on, crate::proofs::HistoryLemmas::goes_self))]
    pub(crate) fn destroy<E, C>(
        &mut self,
        rt: &impl Wait,
        shared: &HistoryCore<J, L, K, V, P, E, C, D>,
        keeper: &Keeper<K, V, P, Global>,
        work: &WorkCounters,
        alloc: &Global,
        caller: &mut ToldSession<L, K, V, P, Global, D>,
        _begun: DestroyBegun,
    ) -> Result<()>
    where
        E: EvictionPicker,
        C: StorageFilterCondition,
        requires mine { (caller.old.witness.table_id ≡ J.table) × (caller.old.witness.me.1 ≡ []) }
        ensures mine { (caller.new.witness.table_id ≡ J.table) × (caller.new.witness.me.1 ≡ []) × (caller.new.session ≡ caller.old.session) }
        ensures blocks { OnOk result (IsDestroyed (meaning K.encoding V.encoding K.is_encodable V.is_encodable K.is_decodable V.is_decodable P.age) D.byte_at caller.old.witness.me.0 caller.new.witness.me.0 (self.old.settings.blocks - 1) result) }
        ensures destroyed { OnOk result (IsAllDestroyed (meaning K.encoding V.encoding K.is_encodable V.is_encodable K.is_decodable V.is_decodable P.age) D.byte_at caller.old.witness.me.0 caller.new.witness.me.0 result) }
        ensures refused { IfErr result (λ e. (is_draw_error e ≡ true) ⊎ ((e ≡ error.Unsupported) ⊎ IsAllDestroyed (meaning K.encoding V.encoding K.is_encodable V.is_encodable K.is_decodable V.is_decodable P.age) D.byte_at caller.old.witness.me.0 caller.new.witness.me.0 result)) }
        ensures on { GoesOn (meaning K.encoding V.encoding K.is_encodable V.is_encodable K.is_decodable V.is_decodable P.age) D.byte_at caller.old.witness.me.0 caller.new.witness.me.0 }
        ensures settings { self.new.settings ≡ self.old.settings }
    {
        self.see(shared, caller);
        if let Err(error) = self.clear(rt, shared, keeper, work, alloc) {
            return Err(error);
        }
        let ended = self.clean_all(rt, shared, self.settings.blocks);
        self.show(shared, caller);
        ended
    }
}
