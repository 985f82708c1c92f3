//! The accesses of a reclaim, each with its report.
ghost use Rattle.std.specs.Prelude.{◌≡◌, ◌⊎◌, ◌<◌, ℕ, [], true};
ghost use Rattle.foyer_core_chronicle.specs.Rights.{times};
ghost use Rattle.foyer_core_laws.specs.Content.{meaning};
ghost use Rattle.foyer_core_model.specs.Access.{CleanIssued, ReadIssued};
ghost use Rattle.foyer_core_shared.specs.Replies.{may_reply};
ghost use Rattle.foyer_core_steps.specs.declared.reply.Reply.TheVariants as reply;
ghost use Rattle.foyer_core_steps.specs.declared.step.Step.TheVariants as steps;
ghost use Rattle.foyer_device_page.specs.declared.error.ErrorKind.TheVariants as kind;
ghost use Rattle.foyer_core_told.specs.ToldRights.{clean_right, scan_right};
ghost use Rattle.foyer_io_told.specs.ToldAccess.{HasClean, HasScan};
ghost use Rattle.foyer_core_laws.specs.Settings.{Settings};
ghost use Rattle.foyer_core_threads.specs.Asking.{HasSizes};
ghost use Rattle.foyer_core_threads.specs.Done.{HasCleaned, HasScanned, IsMade, IsNoted, IsNotedAgain};
ghost use Rattle.foyer_core_threads.specs.Going.{GoesOn};

use super::ToldShared;
use crate::session::ToldSession;
use foyer_block_index::manager::BlockId;
use foyer_block_manager::block::eviction::EvictionPicker;
use foyer_core_access::reclaims::Part;
use foyer_core_shared::notes::Noting;
use foyer_core_steps::apply::no_io;
use foyer_core_steps::reply::Reply;
use foyer_core_steps::step::Step;
use foyer_core_tally::book::Kinds;
use foyer_format_record::serde::{Code, Properties};
use foyer_io_disk::disk::Disk;
use foyer_io_told::disk::HistoryName;
use foyer_lock::lock_spinning;
use foyer_policy_filter::StorageFilterCondition;
use std::alloc::Allocator;
use std::sync::Wait;

impl<J, L, K, V, P, A, E, C, N, D> ToldShared<J, L, K, V, P, A, E, C, N, D>
where
    J: HistoryName,
    L: Kinds,
    K: Code<A> + Drop,
    V: Code<A> + Drop,
    P: Properties + Drop,
    A: Allocator + Clone,
    E: EvictionPicker,
    C: StorageFilterCondition,
    N: Noting,
    D: Disk,
{
    /// Begins to reclaim a block, if a reclaim may begin. After `Picked`, `scan` must read the block's first index.
    pub fn pick(
        &self,
        rt: &impl Wait,
        session: &mut ToldSession<L, K, V, P, A, D>,
    ) -> Reply<K, V, P, A>
        requires mine { (session.old.witness.table_id ≡ J.table) × (session.old.witness.me.1 ≡ []) }
        requires part { 0 < session.old.session.shares.parts }
        ensures mine { (session.new.witness.table_id ≡ J.table) × (session.new.witness.me.1 ≡ []) }
        ensures on { GoesOn (meaning K.encoding V.encoding K.is_encodable V.is_encodable K.is_decodable V.is_decodable P.age) D.byte_at session.old.witness.me.0 session.new.witness.me.0 }
        ensures told { IsMade (meaning K.encoding V.encoding K.is_encodable V.is_encodable K.is_decodable V.is_decodable P.age) D.byte_at N.keeps session.old.witness.me.0 session.new.witness.me.0 steps.ReclaimBegin result }
        ensures noted { IsNoted N.keeps session.old.session session.new.session steps.ReclaimBegin result }
        ensures replied { (may_reply steps.ReclaimBegin result ≡ true) ⊎ ((N.keeps ≡ true) × (result ≡ reply.Refused kind.Memory steps.ReclaimBegin)) }
        ensures picked { (block : ℕ) (answers : _) (probation : _) (sizes : Settings) → HasSizes (meaning K.encoding V.encoding K.is_encodable V.is_encodable K.is_decodable V.is_decodable P.age) D.byte_at session.old.witness.me.0.seen sizes
            → result ≡ reply.Picked block answers probation
            → HasScan (meaning K.encoding V.encoding K.is_encodable V.is_encodable K.is_decodable V.is_decodable P.age) D.byte_at session.new.witness.me.0.seen block (record { offset = 0; len = sizes.blob_index_size }) ReadIssued }
        ensures parts { session.new.session.shares.parts ≡ session.old.session.shares.parts }
    {
        let (reply, _) = self.ask(rt, session, no_io(), Step::ReclaimBegin);
        reply
    }

    /// Does a read for the reclaim of a block, under the disk's lock, and reports what it gave. Requires that the read was issued, and that
    /// the session has the right of the block's reads. After `Scan`, the part that it asks for must be read next.
    pub fn scan(
        &self,
        rt: &impl Wait,
        session: &mut ToldSession<L, K, V, P, A, D>,
        alloc: &A,
        block: BlockId,
        part: Part,
    ) -> Reply<K, V, P, A>
        requires mine { (session.old.witness.table_id ≡ J.table) × (session.old.witness.me.1 ≡ []) }
        requires part { 0 < session.old.session.shares.parts }
        requires right { 0 < times (scan_right block) session.old.witness.me.0.has }
        requires scan { HasScan (meaning K.encoding V.encoding K.is_encodable V.is_encodable K.is_decodable V.is_decodable P.age) D.byte_at session.old.witness.me.0.seen block part ReadIssued }
        ensures mine { (session.new.witness.table_id ≡ J.table) × (session.new.witness.me.1 ≡ []) }
        ensures on { GoesOn (meaning K.encoding V.encoding K.is_encodable V.is_encodable K.is_decodable V.is_decodable P.age) D.byte_at session.old.witness.me.0 session.new.witness.me.0 }
        ensures right { 0 < times (scan_right block) session.new.witness.me.0.has }
        ensures told { HasScanned (meaning K.encoding V.encoding K.is_encodable V.is_encodable K.is_decodable V.is_decodable P.age) D.byte_at N.keeps session.old.witness.me.0 session.new.witness.me.0 block part result }
        ensures noted { (outcome : _) × IsNotedAgain N.keeps session.old.session session.new.session (steps.ReclaimRead block outcome) result }
        ensures next { (other : ℕ) (verdicts : _) (more : Part) → result ≡ reply.Scan other more.offset more.len verdicts
            → HasScan (meaning K.encoding V.encoding K.is_encodable V.is_encodable K.is_decodable V.is_decodable P.age) D.byte_at session.new.witness.me.0.seen block more ReadIssued }
        ensures parts { session.new.session.shares.parts ≡ session.old.session.shares.parts }
    {
        let result = lock_spinning(&self.disk, rt).scan(
            &self.history,
            &mut session.witness,
            alloc,
            block,
            part,
        );
        let step = Step::ReclaimRead { block, result };
        self.step_again(rt, session, no_io(), step)
    }

    /// Takes what was listed of a reclaimed block out of the index, except what was queued for reinsertion. After `Clean` the block is to
    /// be cleaned by `clean`.
    pub fn forget(
        &self,
        rt: &impl Wait,
        session: &mut ToldSession<L, K, V, P, A, D>,
        block: BlockId,
    ) -> Reply<K, V, P, A>
        requires mine { (session.old.witness.table_id ≡ J.table) × (session.old.witness.me.1 ≡ []) }
        requires part { 0 < session.old.session.shares.parts }
        ensures mine { (session.new.witness.table_id ≡ J.table) × (session.new.witness.me.1 ≡ []) }
        ensures on { GoesOn (meaning K.encoding V.encoding K.is_encodable V.is_encodable K.is_decodable V.is_decodable P.age) D.byte_at session.old.witness.me.0 session.new.witness.me.0 }
        ensures told { IsMade (meaning K.encoding V.encoding K.is_encodable V.is_encodable K.is_decodable V.is_decodable P.age) D.byte_at N.keeps session.old.witness.me.0 session.new.witness.me.0 (steps.ReclaimForget block) result }
        ensures noted { IsNoted N.keeps session.old.session session.new.session (steps.ReclaimForget block) result }
        ensures replied { (may_reply (steps.ReclaimForget block) result ≡ true) ⊎ ((N.keeps ≡ true) × (result ≡ reply.Refused kind.Memory (steps.ReclaimForget block))) }
        ensures issued { (other : ℕ) → result ≡ reply.Clean other → HasClean (meaning K.encoding V.encoding K.is_encodable V.is_encodable K.is_decodable V.is_decodable P.age) D.byte_at session.new.witness.me.0.seen block CleanIssued }
        ensures parts { session.new.session.shares.parts ≡ session.old.session.shares.parts }
    {
        let (reply, _) = self.ask(rt, session, no_io(), Step::ReclaimForget { block });
        reply
    }

    /// Cleans a block for its reclaim, under the disk's lock, and reports the outcome. Requires that the clean was issued, and that the
    /// session has its right.
    pub fn clean(
        &self,
        rt: &impl Wait,
        session: &mut ToldSession<L, K, V, P, A, D>,
        block: BlockId,
    ) -> Reply<K, V, P, A>
        requires mine { (session.old.witness.table_id ≡ J.table) × (session.old.witness.me.1 ≡ []) }
        requires part { 0 < session.old.session.shares.parts }
        requires right { 0 < times (clean_right block) session.old.witness.me.0.has }
        requires clean { HasClean (meaning K.encoding V.encoding K.is_encodable V.is_encodable K.is_decodable V.is_decodable P.age) D.byte_at session.old.witness.me.0.seen block CleanIssued }
        ensures mine { (session.new.witness.table_id ≡ J.table) × (session.new.witness.me.1 ≡ []) }
        ensures on { GoesOn (meaning K.encoding V.encoding K.is_encodable V.is_encodable K.is_decodable V.is_decodable P.age) D.byte_at session.old.witness.me.0 session.new.witness.me.0 }
        ensures right { 0 < times (clean_right block) session.new.witness.me.0.has }
        ensures told { HasCleaned (meaning K.encoding V.encoding K.is_encodable V.is_encodable K.is_decodable V.is_decodable P.age) D.byte_at N.keeps steps.ReclaimCleaned session.old.witness.me.0 session.new.witness.me.0 block result }
        ensures noted { (outcome : _) × IsNotedAgain N.keeps session.old.session session.new.session (steps.ReclaimCleaned block outcome) result }
        ensures parts { session.new.session.shares.parts ≡ session.old.session.shares.parts }
    {
        let result = lock_spinning(&self.disk, rt).clean(
            &self.history,
            &mut session.witness,
            block,
        );
        let step = Step::ReclaimCleaned { block, result };
        self.step_again(rt, session, no_io(), step)
    }
}
