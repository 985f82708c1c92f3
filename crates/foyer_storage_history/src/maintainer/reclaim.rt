//! How a block is reclaimed.
ghost use Rattle.std.specs.Prelude.{◌≡◌, ℕ, Some};
ghost use Rattle.foyer_core_access.specs.declared.reclaims.Part.{Part};
ghost use Rattle.foyer_core_laws.specs.Content.{meaning};
ghost use Rattle.foyer_core_model.specs.Access.{CleanIssued, ReadIssued};
ghost use Rattle.foyer_core_steps.specs.declared.reply.Reply.TheVariants as reply;
ghost use Rattle.foyer_core_threads.specs.Going.{GoesOn};
ghost use Rattle.foyer_io_told.specs.ToldAccess.{HasClean, HasScan};

use super::{HistoryCore, Maintainer};
use foyer_block_index::manager::BlockId;
use foyer_block_manager::block::eviction::EvictionPicker;
use foyer_core_access::reclaims::{Part, next_part};
use foyer_core_shared::core_steps::reply::Reply;
use foyer_core_tally::book::Kinds;
use foyer_core_threads::io_told::disk::HistoryName;
use foyer_device_page::error::ErrorKind;
use foyer_format_record::serde::{Code, Properties};
use foyer_io_disk::disk::Disk;
use foyer_policy_filter::StorageFilterCondition;
use foyer_storage_engine::engine::counts::WorkCounters;
use std::alloc::Global;
use std::sync::Wait;
use std::thread;

impl<J, L, K, V, P, D> Maintainer<J, L, K, V, P, D>
where
    J: HistoryName,
    L: Kinds,
    K: Code<Global> + Eq + Drop,
    V: Code<Global> + Drop,
    P: Properties + Drop,
    D: Disk,
{
    // Begins to reclaim a block, if one may begin.
    #[tactic(auto, using(crate::proofs::HistoryLemmas::nil_is))]
    fn pick<E, C>(
        &mut self,
        rt: &impl Wait,
        shared: &HistoryCore<J, L, K, V, P, E, C, D>,
    ) -> Reply<K, V, P, Global>
    where
        E: EvictionPicker,
        C: StorageFilterCondition,
        ensures on { GoesOn (meaning K.encoding V.encoding K.is_encodable V.is_encodable K.is_decodable V.is_decodable P.age) D.byte_at self.old.told.witness.me.0 self.new.told.witness.me.0 }
        ensures picked { (block : ℕ) (answers : _) (probation : _) → result ≡ reply.Picked block answers probation
            → HasScan (meaning K.encoding V.encoding K.is_encodable V.is_encodable K.is_decodable V.is_decodable P.age) D.byte_at self.new.told.witness.me.0.seen block (record { offset = 0; len = self.new.settings.blob_index_size }) ReadIssued }
        ensures settings { self.new.settings ≡ self.old.settings }
    {
        shared.pick(rt, &mut self.told)
    }

    // Reads a part of a block that is reclaimed. Gives what is to be read next.
    #[tactic(auto, using(crate::proofs::HistoryLemmas::nil_is))]
    fn scan<E, C>(
        &mut self,
        rt: &impl Wait,
        shared: &HistoryCore<J, L, K, V, P, E, C, D>,
        alloc: &Global,
        block: BlockId,
        part: Part,
    ) -> Option<Part>
    where
        E: EvictionPicker,
        C: StorageFilterCondition,
        requires { HasScan (meaning K.encoding V.encoding K.is_encodable V.is_encodable K.is_decodable V.is_decodable P.age) D.byte_at self.old.told.witness.me.0.seen block part ReadIssued }
        ensures on { GoesOn (meaning K.encoding V.encoding K.is_encodable V.is_encodable K.is_decodable V.is_decodable P.age) D.byte_at self.old.told.witness.me.0 self.new.told.witness.me.0 }
        ensures next { (more : Part) → result ≡ Some more → HasScan (meaning K.encoding V.encoding K.is_encodable V.is_encodable K.is_decodable V.is_decodable P.age) D.byte_at self.new.told.witness.me.0.seen block more ReadIssued }
        ensures settings { self.new.settings ≡ self.old.settings }
    {
        let reply = shared.scan(rt, &mut self.told, alloc, block, part);
        next_part(&reply)
    }

    // Reads what the reclaim of a block asks for, until it asks for no more.
    #[tactic(auto, using(crate::proofs::HistoryLemmas::nil_is, crate::proofs::HistoryLemmas::goes_on, crate::proofs::HistoryLemmas::goes_self))]
    fn read_block<E, C>(
        &mut self,
        rt: &impl Wait,
        shared: &HistoryCore<J, L, K, V, P, E, C, D>,
        alloc: &Global,
        block: BlockId,
        first: Part,
    )
    where
        E: EvictionPicker,
        C: StorageFilterCondition,
        requires { HasScan (meaning K.encoding V.encoding K.is_encodable V.is_encodable K.is_decodable V.is_decodable P.age) D.byte_at self.old.told.witness.me.0.seen block first ReadIssued }
        ensures on { GoesOn (meaning K.encoding V.encoding K.is_encodable V.is_encodable K.is_decodable V.is_decodable P.age) D.byte_at self.old.told.witness.me.0 self.new.told.witness.me.0 }
        ensures settings { self.new.settings ≡ self.old.settings }
    {
        let mut part = first;
        'parts: for _ in rt.forever() {
            match self.scan(rt, shared, alloc, block, part) {
                Some(next) => part = next,
                None => return,
            }
        }
        unreachable!()
    }

    // Takes what was listed of a reclaimed block out of the index.
    #[tactic(auto, using(crate::proofs::HistoryLemmas::nil_is))]
    fn forget<E, C>(
        &mut self,
        rt: &impl Wait,
        shared: &HistoryCore<J, L, K, V, P, E, C, D>,
        block: BlockId,
    ) -> Reply<K, V, P, Global>
    where
        E: EvictionPicker,
        C: StorageFilterCondition,
        ensures on { GoesOn (meaning K.encoding V.encoding K.is_encodable V.is_encodable K.is_decodable V.is_decodable P.age) D.byte_at self.old.told.witness.me.0 self.new.told.witness.me.0 }
        ensures issued { (other : ℕ) → result ≡ reply.Clean other → HasClean (meaning K.encoding V.encoding K.is_encodable V.is_encodable K.is_decodable V.is_decodable P.age) D.byte_at self.new.told.witness.me.0.seen block CleanIssued }
        ensures settings { self.new.settings ≡ self.old.settings }
    {
        shared.forget(rt, &mut self.told, block)
    }

    // Cleans a block that is reclaimed, whose clean was issued.
    #[tactic(auto, using(crate::proofs::HistoryLemmas::nil_is))]
    fn clean<E, C>(
        &mut self,
        rt: &impl Wait,
        shared: &HistoryCore<J, L, K, V, P, E, C, D>,
        block: BlockId,
    )
    where
        E: EvictionPicker,
        C: StorageFilterCondition,
        requires { HasClean (meaning K.encoding V.encoding K.is_encodable V.is_encodable K.is_decodable V.is_decodable P.age) D.byte_at self.old.told.witness.me.0.seen block CleanIssued }
        ensures on { GoesOn (meaning K.encoding V.encoding K.is_encodable V.is_encodable K.is_decodable V.is_decodable P.age) D.byte_at self.old.told.witness.me.0 self.new.told.witness.me.0 }
        ensures settings { self.new.settings ≡ self.old.settings }
    {
        let _ = shared.clean(rt, &mut self.told, block);
    }

    // Takes what was listed of a reclaimed block out of the index, and cleans the block. Tries again while memory is refused.
    #[tactic(auto, using(crate::proofs::HistoryLemmas::nil_is, crate::proofs::HistoryLemmas::goes_on, crate::proofs::HistoryLemmas::goes_self))]
    fn clean_reclaimed<E, C>(
        &mut self,
        rt: &impl Wait,
        shared: &HistoryCore<J, L, K, V, P, E, C, D>,
        block: BlockId,
    )
    where
        E: EvictionPicker,
        C: StorageFilterCondition,
        ensures on { GoesOn (meaning K.encoding V.encoding K.is_encodable V.is_encodable K.is_decodable V.is_decodable P.age) D.byte_at self.old.told.witness.me.0 self.new.told.witness.me.0 }
        ensures settings { self.new.settings ≡ self.old.settings }
    {
        'tries: for _ in rt.forever() {
            match self.forget(rt, shared, block) {
                Reply::Clean(_) => {
                    self.clean(rt, shared, block);
                    return;
                }
                Reply::Refused(ErrorKind::Memory, _) => thread::yield_now(),
                _ => return,
            }
        }
        unreachable!()
    }

    // Reclaims a block, if one may be reclaimed: whether one was.
    #[tactic(auto, using(crate::proofs::HistoryLemmas::nil_is, crate::proofs::HistoryLemmas::goes_on, crate::proofs::HistoryLemmas::goes_self))]
    pub(super) fn reclaim<E, C>(
        &mut self,
        rt: &impl Wait,
        shared: &HistoryCore<J, L, K, V, P, E, C, D>,
        work: &WorkCounters,
        alloc: &Global,
    ) -> bool
    where
        E: EvictionPicker,
        C: StorageFilterCondition,
        ensures on { GoesOn (meaning K.encoding V.encoding K.is_encodable V.is_encodable K.is_decodable V.is_decodable P.age) D.byte_at self.old.told.witness.me.0 self.new.told.witness.me.0 }
        ensures settings { self.new.settings ≡ self.old.settings }
    {
        let Reply::Picked { block, .. } = self.pick(rt, shared) else {
            return false;
        };
        work.add_reclaim();
        let first = Part {
            offset: 0,
            len: self.settings.blob_index_size,
        };
        self.read_block(rt, shared, alloc, block, first);
        self.clean_reclaimed(rt, shared, block);
        true
    }
}
