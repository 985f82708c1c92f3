//! How what is queued is waited for.
ghost use Rattle.std.specs.Prelude.{◌≡◌, ◌⊎◌, [], IfErr, OnOk, true};
ghost use Rattle.foyer_core_laws.specs.Content.{meaning};
ghost use Rattle.foyer_core_threads.specs.Going.{GoesOn};
ghost use Rattle.foyer_device_page.specs.declared.error.Error.TheVariants as error;
ghost use Rattle.foyer_storage_engine.specs.Answering.{is_draw_error};
ghost use Rattle.foyer_storage_history.specs.HistoryCalls.{IsEndAnswering, IsWaitedFor};

use super::{Flushed, HistoryCore, Maintainer};
use foyer_block_manager::block::eviction::EvictionPicker;
use foyer_core_shared::core_steps::refusal::error_of;
use foyer_core_shared::core_steps::reply::Reply;
use foyer_core_shared::core_steps::step::Step;
use foyer_core_tally::book::Kinds;
use foyer_core_threads::io_told::disk::HistoryName;
use foyer_core_threads::session::ToldSession;
use foyer_device_page::error::{Error, Result};
use foyer_format_record::serde::{Code, Properties};
use foyer_io_disk::disk::Disk;
use foyer_policy_filter::StorageFilterCondition;
use foyer_policy_keeper::keeper::Keeper;
use foyer_storage_engine::engine::counts::WorkCounters;
use std::alloc::Global;
use std::sync::Wait;
use std::thread;

// The number of a wait. One is under way at a time, since whoever asks holds the maintainer.
const WAIT: u64 = 0;

impl<J, L, K, V, P, D> Maintainer<J, L, K, V, P, D>
where
    J: HistoryName,
    L: Kinds,
    K: Code<Global> + Eq + Drop,
    V: Code<Global> + Drop,
    P: Properties + Drop,
    D: Disk,
{
    // Writes what is queued at a flusher, until a batch's end answers this wait.
    #[tactic(auto, using(crate::proofs::HistoryLemmas::nil_is, crate::proofs::HistoryLemmas::goes_on, crate::proofs::HistoryLemmas::goes_self))]
    fn flush_until<E, C>(
        &mut self,
        rt: &impl Wait,
        shared: &HistoryCore<J, L, K, V, P, E, C, D>,
        keeper: &Keeper<K, V, P, Global>,
        work: &WorkCounters,
        alloc: &Global,
        flusher: u32,
        id: u64,
    )
    where
        E: EvictionPicker,
        C: StorageFilterCondition,
        ensures on { GoesOn (meaning K.encoding V.encoding K.is_encodable V.is_encodable K.is_decodable V.is_decodable P.age) D.byte_at self.old.told.witness.me.0 self.new.told.witness.me.0 }
        ensures answers { IsEndAnswering (meaning K.encoding V.encoding K.is_encodable V.is_encodable K.is_decodable V.is_decodable P.age) D.byte_at self.old.told.witness.me.0 self.new.told.witness.me.0 flusher id }
        ensures settings { self.new.settings ≡ self.old.settings }
    {
        for _ in rt.forever() {
            match self.flush(rt, shared, keeper, work, alloc, flusher, id) {
                Flushed::Answered => return,
                Flushed::Some => {}
                Flushed::Nothing => thread::yield_now(),
            }
        }
        unreachable!()
    }

    /// Queues a wait at a flusher, after all that a caller has seen, and writes until a batch's end answers it. Then the caller has seen that.
    #[tactic(auto, using(crate::proofs::HistoryLemmas::nil_is, crate::proofs::HistoryLemmas::goes_on, crate::proofs::HistoryLemmas::goes_self))]
    pub(crate) fn wait_for<E, C>(
        &mut self,
        rt: &impl Wait,
        shared: &HistoryCore<J, L, K, V, P, E, C, D>,
        keeper: &Keeper<K, V, P, Global>,
        work: &WorkCounters,
        alloc: &Global,
        caller: &mut ToldSession<L, K, V, P, Global, D>,
        flusher: u32,
    ) -> Result<()>
    where
        E: EvictionPicker,
        C: StorageFilterCondition,
        requires mine { (caller.old.witness.table_id ≡ J.table) × (caller.old.witness.me.1 ≡ []) }
        ensures mine { (caller.new.witness.table_id ≡ J.table) × (caller.new.witness.me.1 ≡ []) × (caller.new.session ≡ caller.old.session) }
        ensures waited { OnOk result (IsWaitedFor (meaning K.encoding V.encoding K.is_encodable V.is_encodable K.is_decodable V.is_decodable P.age) D.byte_at caller.old.witness.me.0 caller.new.witness.me.0 flusher) }
        ensures on { GoesOn (meaning K.encoding V.encoding K.is_encodable V.is_encodable K.is_decodable V.is_decodable P.age) D.byte_at caller.old.witness.me.0 caller.new.witness.me.0 }
        ensures refused { IfErr result (λ e. (is_draw_error e ≡ true) ⊎ (e ≡ error.Unsupported)) }
        ensures settings { self.new.settings ≡ self.old.settings }
    {
        self.see(shared, caller);
        match self.ask(rt, shared, Step::Wait { flusher, id: WAIT }) {
            Reply::Done => {}
            Reply::Refused(kind, _) => return Err(error_of(kind)),
            _ => return Err(Error::Unsupported),
        }
        self.flush_until(rt, shared, keeper, work, alloc, flusher, WAIT);
        self.show(shared, caller);
        Ok(())
    }
}
