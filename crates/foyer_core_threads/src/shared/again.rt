//! Steps that are repeated while memory is refused.
ghost use Rattle.std.specs.Prelude.{◌≡◌, ◌<◌, ℕ, [], Some, true};
ghost use Rattle.foyer_core_chronicle.specs.Rights.{times};
ghost use Rattle.foyer_core_laws.specs.Content.{meaning};
ghost use Rattle.foyer_core_shared.specs.Answers.{IsAnswer};
ghost use Rattle.foyer_core_shared.specs.Replies.{may_reply};
ghost use Rattle.foyer_core_told.specs.ToldRights.{step_takes};
ghost use Rattle.foyer_core_told.specs.Telling.{BringsTrue};
ghost use Rattle.foyer_core_threads.specs.Asking.{IsPlain};
ghost use Rattle.foyer_core_threads.specs.Done.{IsNotedAgain};
ghost use Rattle.foyer_core_threads.specs.Going.{GoesOn, IsMadeAgain, IsRefusedIn, IsRepeatable};

use super::ToldShared;
use crate::session::ToldSession;
use foyer_block_manager::block::eviction::EvictionPicker;
use foyer_core_shared::notes::Noting;
use foyer_core_steps::reply::Reply;
use foyer_core_steps::step::Step;
use foyer_core_tally::book::Kinds;
use foyer_device_page::error::ErrorKind;
use foyer_device_statistics::IoState;
use foyer_format_record::serde::{Code, Properties};
use foyer_io_disk::disk::Disk;
use foyer_io_told::disk::HistoryName;
use foyer_policy_filter::StorageFilterCondition;
use std::alloc::Allocator;
use std::sync::Wait;
use std::thread;

// The step that was refused for want of memory, or the reply.
fn refused_of<K: Drop, V: Drop, P: Drop, A: Allocator>(
    reply: Reply<K, V, P, A>,
) -> std::result::Result<Step<K, V, P, A>, Reply<K, V, P, A>>
    ensures { IsRefusedIn reply result }
{
    match reply {
        Reply::Refused(ErrorKind::Memory, step) => Ok(step),
        reply => Err(reply),
    }
}

impl<J, L, K, V, P, A, E, C, N, D> ToldShared<J, L, K, V, P, A, E, C, N, D>
where
    J: HistoryName,
    L: Kinds,
    K: Code<A> + Drop,
    V: Code<A> + Drop,
    P: Properties + Drop,
    A: Allocator + Clone,
    E: EvictionPicker,
    C: StorageFilterCondition,
    N: Noting,
    D: Disk,
{
    /// Makes one step as `step` does, and repeats it while memory is refused. Requires that the step is no `LoadEnd`. Each refusal by the
    /// core is an event of the history too, but a refusal of memory for the note is none.
    pub fn step_again(
        &self,
        rt: &impl Wait,
        session: &mut ToldSession<L, K, V, P, A, D>,
        io: IoState,
        step: Step<K, V, P, A>,
    ) -> Reply<K, V, P, A>
        requires mine { (session.old.witness.table_id ≡ J.table) × (session.old.witness.me.1 ≡ []) }
        requires part { 0 < session.old.session.shares.parts }
        requires rights { (k : ℕ) → step_takes step k ≡ true → 0 < times k session.old.witness.me.0.has }
        requires brings { BringsTrue (meaning K.encoding V.encoding K.is_encodable V.is_encodable K.is_decodable V.is_decodable P.age) D.byte_at session.old.witness.me.0 step }
        requires again { IsRepeatable step }
        ensures mine { (session.new.witness.table_id ≡ J.table) × (session.new.witness.me.1 ≡ []) }
        ensures told { IsMadeAgain (meaning K.encoding V.encoding K.is_encodable V.is_encodable K.is_decodable V.is_decodable P.age) D.byte_at session.old.witness.me.0 session.new.witness.me.0 step result }
        ensures on { GoesOn (meaning K.encoding V.encoding K.is_encodable V.is_encodable K.is_decodable V.is_decodable P.age) D.byte_at session.old.witness.me.0 session.new.witness.me.0 }
        ensures answer { IsAnswer K.is_decodable V.is_decodable K.encoding V.encoding step result }
        ensures noted { IsNotedAgain N.keeps session.old.session session.new.session step result }
        ensures replied { may_reply step result ≡ true }
        ensures parts { session.new.session.shares.parts ≡ session.old.session.shares.parts }
    {
        let mut given = step;
        for _ in rt.forever() {
            let (reply, _) = self.step(rt, session, io, given);
            match refused_of(reply) {
                Ok(back) => {
                    given = back;
                    thread::yield_now();
                }
                Err(reply) => return reply,
            }
        }
        unreachable!()
    }

    /// Makes one step as `step_again` does. Requires that the step takes no right and reports no access.
    pub fn ask_again(
        &self,
        rt: &impl Wait,
        session: &mut ToldSession<L, K, V, P, A, D>,
        io: IoState,
        step: Step<K, V, P, A>,
    ) -> Reply<K, V, P, A>
        requires mine { (session.old.witness.table_id ≡ J.table) × (session.old.witness.me.1 ≡ []) }
        requires part { 0 < session.old.session.shares.parts }
        requires plain { IsPlain step }
        ensures mine { (session.new.witness.table_id ≡ J.table) × (session.new.witness.me.1 ≡ []) }
        ensures told { IsMadeAgain (meaning K.encoding V.encoding K.is_encodable V.is_encodable K.is_decodable V.is_decodable P.age) D.byte_at session.old.witness.me.0 session.new.witness.me.0 step result }
        ensures on { GoesOn (meaning K.encoding V.encoding K.is_encodable V.is_encodable K.is_decodable V.is_decodable P.age) D.byte_at session.old.witness.me.0 session.new.witness.me.0 }
        ensures answer { IsAnswer K.is_decodable V.is_decodable K.encoding V.encoding step result }
        ensures noted { IsNotedAgain N.keeps session.old.session session.new.session step result }
        ensures replied { may_reply step result ≡ true }
        ensures parts { session.new.session.shares.parts ≡ session.old.session.shares.parts }
    {
        self.step_again(rt, session, io, step)
    }
}
