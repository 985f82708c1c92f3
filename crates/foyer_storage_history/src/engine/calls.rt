//! The engine's calls, as a store makes them.
use super::HistoryEngine;
use crate::session::HistorySession;
use foyer_block_manager::block::eviction::EvictionPicker;
use foyer_core_shared::core_steps::apply::no_io;
use foyer_core_tally::book::Kinds;
use foyer_core_threads::io_told::disk::HistoryName;
use foyer_device_page::error::Result;
use foyer_device_statistics::IoState;
use foyer_format_record::serde::{Code, Properties};
use foyer_io_disk::disk::Disk;
use foyer_policy_filter::{StorageFilterCondition, StorageFilterResult};
use foyer_policy_keeper::keeper::Keeper;
use foyer_policy_keeper::keeper::shard::NotKept;
use foyer_policy_piece::keeper::Piece;
use foyer_storage_engine::engine::Enqueued;
use foyer_storage_engine::load::Load;
use foyer_storage_store::calls::{DeviceSummary, Engine, EngineWork};
use std::alloc::Global;
use std::sync::Wait;

impl<J, L, K, V, P, E, C, D> Engine<HistorySession<J, L, K, V, P, D>, K, V, P>
    for HistoryEngine<J, L, K, V, P, E, C, D>
where
    J: HistoryName,
    L: Kinds,
    K: Code<Global> + Eq + Drop,
    V: Code<Global> + Drop,
    P: Properties + Drop,
    E: EvictionPicker,
    C: StorageFilterCondition,
    D: Disk + Drop,
{
    ghost use Rattle.std.specs.Prelude.{◌≡◌, ◌⊎◌, ◌*◌, ◌-◌, ◌<◌, ℕ, IfErr, OnOk, min, ◌^◌, true};
    ghost use Rattle.foyer_core_laws.specs.Content.{meaning};
    ghost use Rattle.foyer_core_steps.specs.declared.step.Step.TheVariants as steps;
    ghost use Rattle.foyer_core_threads.specs.Going.{GoesOn};
    ghost use Rattle.foyer_device_page.specs.declared.error.Error.TheVariants as error;
    ghost use Rattle.foyer_policy_filter.specs.Verdict.{IsAdmit};
    ghost use Rattle.foyer_storage_engine.specs.Answering.{asked_as, deleted_as, is_draw_error};
    ghost use Rattle.foyer_storage_engine.specs.Ending.{HoldsButCloses, HoldsButDestroys};
    ghost use Rattle.foyer_storage_history.specs.HistoryCalls.{IsAllDestroyed, IsAnswerTo, IsClosed, IsEnqueued, IsNewestLoad, IsWaitedFor};

    ghost summary = { λ engine. record { capacity = min (engine.settings.blocks * engine.settings.block_size) (2 ^ 64 - 1); allocated = min (engine.settings.blocks * engine.settings.block_size) (2 ^ 64 - 1); partitions = engine.settings.blocks } };

    ghost may_judge = { λ _ _ _ verdict. IsAdmit verdict };

    ghost may_enqueue = { λ _ old new piece size answer. IsEnqueued (meaning K.encoding V.encoding K.is_encodable V.is_encodable K.is_decodable V.is_decodable P.age) D.byte_at old.told.witness.me.0 new.told.witness.me.0 old.told.session new.told.session piece size answer };

    ghost may_load = { λ _ old new hash answer. IsNewestLoad (meaning K.encoding V.encoding K.is_encodable V.is_encodable K.is_decodable V.is_decodable P.age) D.byte_at old.told.witness.me.0 new.told.witness.me.0 old.told.session new.told.session hash answer };

    ghost may_delete = { λ _ old new hash answer. IsAnswerTo (meaning K.encoding V.encoding K.is_encodable V.is_encodable K.is_decodable V.is_decodable P.age) D.byte_at deleted_as old.told.witness.me.0 new.told.witness.me.0 old.told.session new.told.session (steps.Delete hash) answer };

    ghost may_ask = { λ _ old new hash answer. IsAnswerTo (meaning K.encoding V.encoding K.is_encodable V.is_encodable K.is_decodable V.is_decodable P.age) D.byte_at asked_as old.told.witness.me.0 new.told.witness.me.0 old.told.session new.told.session (steps.MayContains hash) answer };

    ghost may_wait = { λ engine old new answer. (new.told.session ≡ old.told.session) × OnOk answer ((flusher : ℕ) → flusher < engine.settings.flushers → IsWaitedFor (meaning K.encoding V.encoding K.is_encodable V.is_encodable K.is_decodable V.is_decodable P.age) D.byte_at old.told.witness.me.0 new.told.witness.me.0 flusher) × IfErr answer (λ e. (is_draw_error e ≡ true) ⊎ (e ≡ error.Unsupported)) };

    ghost may_close = { λ engine old new answer. HoldsButCloses old.told.session new.told.session × (new.told.session.shares.parts ≡ old.told.session.shares.parts) × OnOk answer (IsClosed (meaning K.encoding V.encoding K.is_encodable V.is_encodable K.is_decodable V.is_decodable P.age) D.byte_at old.told.witness.me.0 new.told.witness.me.0 engine.settings.flushers) × IfErr answer (λ e. (is_draw_error e ≡ true) ⊎ (e ≡ error.Unsupported)) };

    ghost may_destroy = { λ engine old new answer. HoldsButDestroys old.told.session new.told.session × (new.told.session.shares.parts ≡ old.told.session.shares.parts) × OnOk answer (IsAllDestroyed (meaning K.encoding V.encoding K.is_encodable V.is_encodable K.is_decodable V.is_decodable P.age) D.byte_at old.told.witness.me.0 new.told.witness.me.0 answer)
        × IfErr answer (λ e. (is_draw_error e ≡ true) ⊎ ((e ≡ error.Unsupported) ⊎ IsAllDestroyed (meaning K.encoding V.encoding K.is_encodable V.is_encodable K.is_decodable V.is_decodable P.age) D.byte_at old.told.witness.me.0 new.told.witness.me.0 answer)) };

    fn device(&self) -> DeviceSummary {
        let settings = self.settings;
        let capacity = (settings.blocks as usize).saturating_mul(settings.block_size);
        DeviceSummary {
            capacity,
            allocated: capacity,
            partitions: settings.blocks as usize,
        }
    }

    fn io_state(&self, _rt: &impl Wait, _now: u64) -> IoState {
        no_io()
    }

    // A put that finds too much queued writes a batch first.
    fn work(&self, _rt: &impl Wait, _hash: u64) -> EngineWork {
        EngineWork {
            counts: self.work.shown(),
            has_room: true,
        }
    }

    fn filter(&self, _rt: &impl Wait, _hash: u64, _size: usize, _now: u64) -> StorageFilterResult {
        StorageFilterResult::Admit
    }

    #[tactic(auto, using(crate::proofs::HistoryLemmas::nil_is))]
    fn enqueue(
        &self,
        rt: &impl Wait,
        session: &mut HistorySession<J, L, K, V, P, D>,
        keeper: &Keeper<K, V, P, Global>,
        piece: &Piece<K, V, P, Global>,
        size: usize,
    ) -> Result<Enqueued> {
        self.enqueue_kept(rt, session, keeper, piece, size)
    }

    #[tactic(auto, using(crate::proofs::HistoryLemmas::nil_is))]
    fn load(
        &self,
        rt: &impl Wait,
        session: &mut HistorySession<J, L, K, V, P, D>,
        lacking: NotKept,
        _now: u64,
    ) -> Result<Load<K, V, P, Global>> {
        self.load_newest(rt, session, lacking)
    }

    #[tactic(auto, using(crate::proofs::HistoryLemmas::nil_is))]
    fn delete(
        &self,
        rt: &impl Wait,
        session: &mut HistorySession<J, L, K, V, P, D>,
        keeper: &Keeper<K, V, P, Global>,
        hash: u64,
        with_pieces: bool,
    ) -> Result<()> {
        if with_pieces {
            self.delete_kept(rt, session, keeper, hash)
        } else {
            self.delete_hash(rt, session, hash)
        }
    }

    #[tactic(auto, using(crate::proofs::HistoryLemmas::nil_is))]
    fn may_contains(
        &self,
        rt: &impl Wait,
        session: &mut HistorySession<J, L, K, V, P, D>,
        lacking: NotKept,
    ) -> Result<bool> {
        self.is_indexed(rt, session, lacking)
    }

    #[tactic(auto, using(crate::proofs::HistoryLemmas::nil_is))]
    fn destroy(
        &self,
        rt: &impl Wait,
        session: &mut HistorySession<J, L, K, V, P, D>,
    ) -> Result<()> {
        self.destroy_all(rt, session)
    }

    #[tactic(auto, using(crate::proofs::HistoryLemmas::nil_is))]
    fn wait(&self, rt: &impl Wait, session: &mut HistorySession<J, L, K, V, P, D>) -> Result<()> {
        self.wait_all(rt, session)
    }

    #[tactic(auto, using(crate::proofs::HistoryLemmas::nil_is))]
    fn close(&self, rt: &impl Wait, session: &mut HistorySession<J, L, K, V, P, D>) -> Result<()> {
        self.close_all(rt, session)
    }
}
