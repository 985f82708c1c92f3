//! The cleans of a destroy, each with its report.
ghost use Rattle.std.specs.Prelude.{◌≡◌, ◌<◌, ℕ, [], true};
ghost use Rattle.foyer_core_chronicle.specs.Rights.{times};
ghost use Rattle.foyer_core_laws.specs.Content.{meaning};
ghost use Rattle.foyer_core_laws.specs.Settings.{Settings};
ghost use Rattle.foyer_core_model.specs.Access.{CleanIssued};
ghost use Rattle.foyer_core_shared.specs.Replies.{may_reply};
ghost use Rattle.foyer_core_steps.specs.declared.reply.Reply.TheVariants as reply;
ghost use Rattle.foyer_core_steps.specs.declared.step.Step.TheVariants as steps;
ghost use Rattle.foyer_core_told.specs.ToldRights.{clean_right};
ghost use Rattle.foyer_io_told.specs.ToldAccess.{HasClean};
ghost use Rattle.foyer_core_threads.specs.Asking.{HasSizes};
ghost use Rattle.foyer_core_threads.specs.Done.{HasCleaned, IsNotedAgain};
ghost use Rattle.foyer_core_threads.specs.Going.{GoesOn, IsMadeAgain};

use super::ToldShared;
use crate::session::ToldSession;
use foyer_block_index::manager::BlockId;
use foyer_block_manager::block::eviction::EvictionPicker;
use foyer_core_shared::notes::Noting;
use foyer_core_steps::apply::no_io;
use foyer_core_steps::reply::Reply;
use foyer_core_steps::step::Step;
use foyer_core_tally::book::Kinds;
use foyer_format_record::serde::{Code, Properties};
use foyer_io_disk::disk::Disk;
use foyer_io_told::disk::HistoryName;
use foyer_lock::lock_spinning;
use foyer_policy_filter::StorageFilterCondition;
use std::alloc::Allocator;
use std::sync::Wait;

impl<J, L, K, V, P, A, E, C, N, D> ToldShared<J, L, K, V, P, A, E, C, N, D>
where
    J: HistoryName,
    L: Kinds,
    K: Code<A> + Drop,
    V: Code<A> + Drop,
    P: Properties + Drop,
    A: Allocator + Clone,
    E: EvictionPicker,
    C: StorageFilterCondition,
    N: Noting,
    D: Disk,
{
    /// Clears the index for a destroy that has begun, if no flusher has anything queued, received or in a batch, and no reclaim runs. After
    /// `Cleared`, `clean_cleared` must clean each block. Repeats the step while memory is refused.
    pub fn clear(
        &self,
        rt: &impl Wait,
        session: &mut ToldSession<L, K, V, P, A, D>,
    ) -> Reply<K, V, P, A>
        requires mine { (session.old.witness.table_id ≡ J.table) × (session.old.witness.me.1 ≡ []) }
        requires part { 0 < session.old.session.shares.parts }
        ensures mine { (session.new.witness.table_id ≡ J.table) × (session.new.witness.me.1 ≡ []) }
        ensures on { GoesOn (meaning K.encoding V.encoding K.is_encodable V.is_encodable K.is_decodable V.is_decodable P.age) D.byte_at session.old.witness.me.0 session.new.witness.me.0 }
        ensures told { IsMadeAgain (meaning K.encoding V.encoding K.is_encodable V.is_encodable K.is_decodable V.is_decodable P.age) D.byte_at session.old.witness.me.0 session.new.witness.me.0 steps.DestroyClear result }
        ensures noted { IsNotedAgain N.keeps session.old.session session.new.session steps.DestroyClear result }
        ensures replied { may_reply steps.DestroyClear result ≡ true }
        ensures issued { (block : ℕ) (sizes : Settings) → HasSizes (meaning K.encoding V.encoding K.is_encodable V.is_encodable K.is_decodable V.is_decodable P.age) D.byte_at session.old.witness.me.0.seen sizes
            → block < sizes.blocks → result ≡ reply.Cleared
            → HasClean (meaning K.encoding V.encoding K.is_encodable V.is_encodable K.is_decodable V.is_decodable P.age) D.byte_at session.new.witness.me.0.seen block CleanIssued }
        ensures parts { session.new.session.shares.parts ≡ session.old.session.shares.parts }
    {
        self.ask_again(rt, session, no_io(), Step::DestroyClear)
    }

    /// Cleans a block for a destroy, under the disk's lock, and reports the outcome. Requires that the clean was issued, and that the
    /// session has its right. Cleans of other blocks that were issued stay so, if the session has their rights.
    pub fn clean_cleared(
        &self,
        rt: &impl Wait,
        session: &mut ToldSession<L, K, V, P, A, D>,
        block: BlockId,
    ) -> Reply<K, V, P, A>
        requires mine { (session.old.witness.table_id ≡ J.table) × (session.old.witness.me.1 ≡ []) }
        requires part { 0 < session.old.session.shares.parts }
        requires right { 0 < times (clean_right block) session.old.witness.me.0.has }
        requires clean { HasClean (meaning K.encoding V.encoding K.is_encodable V.is_encodable K.is_decodable V.is_decodable P.age) D.byte_at session.old.witness.me.0.seen block CleanIssued }
        ensures mine { (session.new.witness.table_id ≡ J.table) × (session.new.witness.me.1 ≡ []) }
        ensures on { GoesOn (meaning K.encoding V.encoding K.is_encodable V.is_encodable K.is_decodable V.is_decodable P.age) D.byte_at session.old.witness.me.0 session.new.witness.me.0 }
        ensures told { HasCleaned (meaning K.encoding V.encoding K.is_encodable V.is_encodable K.is_decodable V.is_decodable P.age) D.byte_at N.keeps steps.DestroyCleaned session.old.witness.me.0 session.new.witness.me.0 block result }
        ensures noted { (outcome : _) × IsNotedAgain N.keeps session.old.session session.new.session (steps.DestroyCleaned block outcome) result }
        ensures others { (other : ℕ) → (other ≡ block → ⊥) → 0 < times (clean_right other) session.old.witness.me.0.has
            → HasClean (meaning K.encoding V.encoding K.is_encodable V.is_encodable K.is_decodable V.is_decodable P.age) D.byte_at session.old.witness.me.0.seen other CleanIssued
            → HasClean (meaning K.encoding V.encoding K.is_encodable V.is_encodable K.is_decodable V.is_decodable P.age) D.byte_at session.new.witness.me.0.seen other CleanIssued }
        ensures parts { session.new.session.shares.parts ≡ session.old.session.shares.parts }
    {
        let result = lock_spinning(&self.disk, rt).clean(
            &self.history,
            &mut session.witness,
            block,
        );
        let step = Step::DestroyCleaned { block, result };
        self.step_again(rt, session, no_io(), step)
    }
}
