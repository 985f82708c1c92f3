//! The writes of a flusher, each with its report.
ghost use Rattle.std.specs.Prelude.{◌≡◌, ◌⊎◌, ◌<◌, ◌∷◌, [], List, map, true};
ghost use Rattle.foyer_format_layout.specs.BlockBytes.{Write as BlockWrite};
ghost use Rattle.foyer_core_chronicle.specs.Rights.{times};
ghost use Rattle.foyer_core_flusher.specs.Issuing.{write_of};
ghost use Rattle.foyer_core_laws.specs.Content.{meaning};
ghost use Rattle.foyer_core_shared.specs.Replies.{may_reply};
ghost use Rattle.foyer_core_steps.specs.declared.reply.Reply.TheVariants as reply;
ghost use Rattle.foyer_core_steps.specs.declared.step.Step.TheVariants as steps;
ghost use Rattle.foyer_device_page.specs.declared.error.ErrorKind.TheVariants as kind;
ghost use Rattle.foyer_core_told.specs.ToldRights.{writes_right};
ghost use Rattle.foyer_io_told.specs.ToldAccess.{HasWrites};
ghost use Rattle.foyer_core_threads.specs.Asking.{AreToWrite};
ghost use Rattle.foyer_core_threads.specs.Done.{HasWrote, HasWroteAll, IsMade, IsNoted, IsNotedAgain};
ghost use Rattle.foyer_core_threads.specs.Going.{GoesOn};

use super::ToldShared;
use crate::session::ToldSession;
use foyer_block_index::manager::BlockId;
use foyer_block_manager::block::eviction::EvictionPicker;
use foyer_core_shared::notes::Noting;
use foyer_core_steps::apply::no_io;
use foyer_core_steps::reply::{Reply, Write};
use foyer_core_steps::step::Step;
use foyer_core_tally::book::Kinds;
use foyer_format_record::serde::{Code, Properties};
use foyer_io_disk::disk::Disk;
use foyer_io_told::disk::HistoryName;
use foyer_lock::lock_spinning;
use foyer_policy_filter::StorageFilterCondition;
use std::alloc::Allocator;
use std::sync::Wait;

impl<J, L, K, V, P, A, E, C, N, D> ToldShared<J, L, K, V, P, A, E, C, N, D>
where
    J: HistoryName,
    L: Kinds,
    K: Code<A> + Drop,
    V: Code<A> + Drop,
    P: Properties + Drop,
    A: Allocator + Clone,
    E: EvictionPicker,
    C: StorageFilterCondition,
    N: Noting,
    D: Disk,
{
    /// Asks for the next block of a flusher's batch. Requires that the session has the right of the flusher's writes. After `Write`,
    /// `write` or `write_all` must do the writes, one after the other.
    pub fn issue(
        &self,
        rt: &impl Wait,
        session: &mut ToldSession<L, K, V, P, A, D>,
        flusher: u32,
    ) -> Reply<K, V, P, A>
        requires mine { (session.old.witness.table_id ≡ J.table) × (session.old.witness.me.1 ≡ []) }
        requires part { 0 < session.old.session.shares.parts }
        requires right { 0 < times (writes_right flusher) session.old.witness.me.0.has }
        ensures mine { (session.new.witness.table_id ≡ J.table) × (session.new.witness.me.1 ≡ []) }
        ensures on { GoesOn (meaning K.encoding V.encoding K.is_encodable V.is_encodable K.is_decodable V.is_decodable P.age) D.byte_at session.old.witness.me.0 session.new.witness.me.0 }
        ensures right { 0 < times (writes_right flusher) session.new.witness.me.0.has }
        ensures told { IsMade (meaning K.encoding V.encoding K.is_encodable V.is_encodable K.is_decodable V.is_decodable P.age) D.byte_at N.keeps session.old.witness.me.0 session.new.witness.me.0 (steps.FlushBlock flusher) result }
        ensures noted { IsNoted N.keeps session.old.session session.new.session (steps.FlushBlock flusher) result }
        ensures replied { (may_reply (steps.FlushBlock flusher) result ≡ true) ⊎ ((N.keeps ≡ true) × (result ≡ reply.Refused kind.Memory (steps.FlushBlock flusher))) }
        ensures issued { (block : _) (writes : _) → result ≡ reply.Write block writes
            → AreToWrite (meaning K.encoding V.encoding K.is_encodable V.is_encodable K.is_decodable V.is_decodable P.age) D.byte_at session.new.witness.me.0.seen flusher block (map write_of writes.items) }
        ensures parts { session.new.session.shares.parts ≡ session.old.session.shares.parts }
    {
        let (reply, _) = self.step(rt, session, no_io(), Step::FlushBlock { flusher });
        reply
    }

    /// Does the next write of a flusher, under the disk's lock, and reports the outcome. Requires that the write was issued, and that the
    /// session has the right of the flusher's writes. After `Next`, the remaining writes of the block must be done.
    pub fn write(
        &self,
        rt: &impl Wait,
        session: &mut ToldSession<L, K, V, P, A, D>,
        flusher: u32,
        block: BlockId,
        write: &Write<A>,
    ) -> Reply<K, V, P, A>
        requires mine { (session.old.witness.table_id ≡ J.table) × (session.old.witness.me.1 ≡ []) }
        requires part { 0 < session.old.session.shares.parts }
        requires right { 0 < times (writes_right flusher) session.old.witness.me.0.has }
        requires write { (left : List BlockWrite) × HasWrites (meaning K.encoding V.encoding K.is_encodable V.is_encodable K.is_decodable V.is_decodable P.age) D.byte_at session.old.witness.me.0.seen flusher block [] (write_of write.now ∷ left) }
        ensures mine { (session.new.witness.table_id ≡ J.table) × (session.new.witness.me.1 ≡ []) }
        ensures on { GoesOn (meaning K.encoding V.encoding K.is_encodable V.is_encodable K.is_decodable V.is_decodable P.age) D.byte_at session.old.witness.me.0 session.new.witness.me.0 }
        ensures right { 0 < times (writes_right flusher) session.new.witness.me.0.has }
        ensures told { HasWrote (meaning K.encoding V.encoding K.is_encodable V.is_encodable K.is_decodable V.is_decodable P.age) D.byte_at N.keeps session.old.witness.me.0 session.new.witness.me.0 flusher block (write_of write.now) result }
        ensures noted { (outcome : _) × IsNotedAgain N.keeps session.old.session session.new.session (steps.FlushWrote flusher outcome) result }
        ensures next { (left : List BlockWrite) → HasWrites (meaning K.encoding V.encoding K.is_encodable V.is_encodable K.is_decodable V.is_decodable P.age) D.byte_at session.old.witness.me.0.seen flusher block [] (write_of write.now ∷ left)
            → result ≡ reply.Next → HasWrites (meaning K.encoding V.encoding K.is_encodable V.is_encodable K.is_decodable V.is_decodable P.age) D.byte_at session.new.witness.me.0.seen flusher block [] left }
        ensures parts { session.new.session.shares.parts ≡ session.old.session.shares.parts }
    {
        let result = lock_spinning(&self.disk, rt).write(
            &self.history,
            &mut session.witness,
            flusher,
            block,
            write,
        );
        let step = Step::FlushWrote { flusher, result };
        self.step_again(rt, session, no_io(), step)
    }

    /// Does the issued writes of a block, one after the other, and reports each, until a reply isn't `Next`. Gives this reply, or `None` if
    /// there is none. Requires the right of the flusher's writes.
    pub fn write_all(
        &self,
        rt: &impl Wait,
        session: &mut ToldSession<L, K, V, P, A, D>,
        flusher: u32,
        block: BlockId,
        writes: &[Write<A>],
    ) -> Option<Reply<K, V, P, A>>
        requires mine { (session.old.witness.table_id ≡ J.table) × (session.old.witness.me.1 ≡ []) }
        requires part { 0 < session.old.session.shares.parts }
        requires right { 0 < times (writes_right flusher) session.old.witness.me.0.has }
        requires writes { AreToWrite (meaning K.encoding V.encoding K.is_encodable V.is_encodable K.is_decodable V.is_decodable P.age) D.byte_at session.old.witness.me.0.seen flusher block (map write_of writes.now) }
        ensures mine { (session.new.witness.table_id ≡ J.table) × (session.new.witness.me.1 ≡ []) }
        ensures on { GoesOn (meaning K.encoding V.encoding K.is_encodable V.is_encodable K.is_decodable V.is_decodable P.age) D.byte_at session.old.witness.me.0 session.new.witness.me.0 }
        ensures right { 0 < times (writes_right flusher) session.new.witness.me.0.has }
        ensures told { HasWroteAll (meaning K.encoding V.encoding K.is_encodable V.is_encodable K.is_decodable V.is_decodable P.age) D.byte_at N.keeps session.old.witness.me.0 session.new.witness.me.0 flusher block (map write_of writes.now) result }
        ensures parts { session.new.session.shares.parts ≡ session.old.session.shares.parts }
    {
        'writes: for write in writes {
            match self.write(rt, session, flusher, block, write) {
                Reply::Next => {}
                reply => return Some(reply),
            }
        }
        None
    }
}
