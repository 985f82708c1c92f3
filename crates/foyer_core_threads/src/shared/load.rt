//! A load, from its look-up to its answer.
ghost use Rattle.std.specs.Prelude.{◌≡◌, ◌<◌, ℕ, [], IfErr, IfNone, IfOk, IfSome};
ghost use Rattle.foyer_core_chronicle.specs.Rights.{times};
ghost use Rattle.foyer_core_laws.specs.Content.{content, meaning};
ghost use Rattle.foyer_core_model.specs.Access.{ReadIssued, ReadDone};
ghost use Rattle.foyer_core_steps.specs.Asked.{came_of};
ghost use Rattle.foyer_core_steps.specs.declared.reply.Reply.TheVariants as reply;
ghost use Rattle.foyer_core_steps.specs.declared.step.Step.TheVariants as steps;
ghost use Rattle.foyer_core_steps.specs.declared.step.Ticket.{Ticket};
ghost use Rattle.foyer_device_page.specs.declared.error.Error.TheVariants.{Memory};
ghost use Rattle.foyer_core_told.specs.ToldLoads.{IsReadOf};
ghost use Rattle.foyer_core_told.specs.ToldRights.{ticket_right};
ghost use Rattle.foyer_core_told.specs.Telling.{HasGoneOn, HasStepped};
ghost use Rattle.foyer_io_told.specs.ToldAccess.{HasTicket};
ghost use Rattle.foyer_core_threads.specs.Asking.{IsLoadReply, IsTicketIn};
ghost use Rattle.foyer_core_threads.specs.Done.{HasLoaded, HasLookedOnly, IsLoadNoted};
ghost use Rattle.foyer_core_threads.specs.Newest.{WasNewest, WasMissed, WasMissedWritten, WasPutLast};
ghost use Rattle.foyer_core_threads.specs.Going.{GoesOn};

use super::ToldShared;
use crate::session::ToldSession;
use foyer_block_manager::block::eviction::EvictionPicker;
use foyer_core_shared::notes::Noting;
use foyer_core_steps::apply::no_io;
use foyer_core_steps::reply::Reply;
use foyer_core_steps::step::{Step, Ticket};
use foyer_core_tally::book::Kinds;
use foyer_device_page::error::Result;
use foyer_format_record::serde::{Code, Properties};
use foyer_io_disk::disk::Disk;
use foyer_io_told::disk::HistoryName;
use foyer_lock::lock_spinning;
use foyer_policy_filter::StorageFilterCondition;
use std::alloc::Allocator;
use std::sync::Wait;

// The ticket of a look-up's reply, or the reply.
fn ticket_of<K: Drop, V: Drop, P: Drop, A: Allocator>(
    reply: Reply<K, V, P, A>,
) -> std::result::Result<Ticket, Reply<K, V, P, A>>
    ensures { IsTicketIn reply result }
{
    match reply {
        Reply::Read(ticket) => Ok(ticket),
        reply => Err(reply),
    }
}

impl<J, L, K, V, P, A, E, C, N, D> ToldShared<J, L, K, V, P, A, E, C, N, D>
where
    J: HistoryName,
    L: Kinds,
    K: Code<A> + Drop,
    V: Code<A> + Drop,
    P: Properties + Drop,
    A: Allocator + Clone,
    E: EvictionPicker,
    C: StorageFilterCondition,
    N: Noting,
    D: Disk,
{
    /// Does the read of a ticket under the disk's lock, while the core's lock is free. Requires that the session has the ticket's right,
    /// and that the read was issued and isn't done. Errors: `Memory` alone, before anything is read.
    pub fn read(
        &self,
        rt: &impl Wait,
        session: &mut ToldSession<L, K, V, P, A, D>,
        alloc: &A,
        number: u64,
        ticket: &Ticket,
    ) -> Result<Result<Vec<u8, A>>>
        requires mine { (session.old.witness.table_id ≡ J.table) × (session.old.witness.me.1 ≡ []) }
        requires right { 0 < times (ticket_right number) session.old.witness.me.0.has }
        requires ticket { HasTicket (meaning K.encoding V.encoding K.is_encodable V.is_encodable K.is_decodable V.is_decodable P.age) D.byte_at session.old.witness.me.0.seen number ticket.now ReadIssued }
        ensures mine { (session.new.witness.table_id ≡ J.table) × (session.new.witness.me.1 ≡ []) }
        ensures on { GoesOn (meaning K.encoding V.encoding K.is_encodable V.is_encodable K.is_decodable V.is_decodable P.age) D.byte_at session.old.witness.me.0 session.new.witness.me.0 }
        ensures told { IfOk result (λ outcome. HasGoneOn (meaning K.encoding V.encoding K.is_encodable V.is_encodable K.is_decodable V.is_decodable P.age) D.byte_at session.old.witness.me.0 session.new.witness.me.0 (λ e. IsReadOf e number outcome)) }
        ensures read { IfOk result (λ outcome. HasTicket (meaning K.encoding V.encoding K.is_encodable V.is_encodable K.is_decodable V.is_decodable P.age) D.byte_at session.new.witness.me.0.seen number ticket.now (ReadDone (came_of outcome))) }
        ensures same { session.new.session ≡ session.old.session }
        ensures refused { IfErr result (λ e. (e ≡ Memory) × (session.new ≡ session.old)) }
    {
        let alloc = alloc.clone()?;
        let outcome = lock_spinning(&self.disk, rt).read(
            &self.history,
            &mut session.witness,
            alloc,
            number,
            ticket,
        )?;
        Ok(outcome)
    }

    /// Does a load as `load` does, if it is known that all queued pieces of the hash have left their flusher. Else does nothing, and gives
    /// `None`. At a moment between the call and the return, an answered entry was the newest put of its hash. No piece of the hash that had
    /// been queued by then was newer, unless a batch had failed since or a destroy had cleared the index. Errors: `Memory` if memory for the
    /// read was refused. Then the look-up issued a ticket, and nothing was read.
    pub fn load_written(
        &self,
        rt: &impl Wait,
        session: &mut ToldSession<L, K, V, P, A, D>,
        alloc: &A,
        hash: u64,
        throttled: bool,
    ) -> Option<Result<Reply<K, V, P, A>>>
        requires mine { (session.old.witness.table_id ≡ J.table) × (session.old.witness.me.1 ≡ []) }
        requires part { 0 < session.old.session.shares.parts }
        ensures mine { (session.new.witness.table_id ≡ J.table) × (session.new.witness.me.1 ≡ []) }
        ensures on { GoesOn (meaning K.encoding V.encoding K.is_encodable V.is_encodable K.is_decodable V.is_decodable P.age) D.byte_at session.old.witness.me.0 session.new.witness.me.0 }
        ensures told { IfSome result (λ ended. IfOk ended (λ answer. HasLoaded (meaning K.encoding V.encoding K.is_encodable V.is_encodable K.is_decodable V.is_decodable P.age) D.byte_at N.keeps session.old.witness.me.0 session.new.witness.me.0 hash throttled answer)) }
        ensures refused { IfSome result (λ ended. IfErr ended (λ e. (e ≡ Memory) × HasLookedOnly (meaning K.encoding V.encoding K.is_encodable V.is_encodable K.is_decodable V.is_decodable P.age) D.byte_at session.old.witness.me.0 session.new.witness.me.0 session.old.session session.new.session hash throttled)) }
        ensures replied { IfSome result (λ ended. IfOk ended (IsLoadReply N.keeps throttled)) }
        ensures put_last { IfSome result (λ ended. IfOk ended (λ answer. (key : K) (value : V) (age : _) → answer ≡ reply.Entry key value age
            → WasPutLast (meaning K.encoding V.encoding K.is_encodable V.is_encodable K.is_decodable V.is_decodable P.age) D.byte_at session.old.witness.me.0.seen session.new.witness.me.0.seen hash (content (meaning K.encoding V.encoding K.is_encodable V.is_encodable K.is_decodable V.is_decodable P.age) key value))) }
        ensures missed { IfSome result (λ ended. IfOk ended (λ answer. answer ≡ reply.Miss
            → WasMissedWritten (meaning K.encoding V.encoding K.is_encodable V.is_encodable K.is_decodable V.is_decodable P.age) D.byte_at session.old.witness.me.0.seen session.new.witness.me.0.seen hash)) }
        ensures noted { IfSome result (λ ended. IfOk ended (λ answer. IsLoadNoted N.keeps session.old.session session.new.session hash throttled answer)) }
        ensures queued { IfNone result (session.new ≡ session.old) }
        ensures parts { session.new.session.shares.parts ≡ session.old.session.shares.parts }
    {
        let looked = lock_spinning(&self.core, rt).look_up(&self.history, session, hash, throttled);
        let (reply, number) = match looked {
            Some(looked) => looked,
            None => return None,
        };
        let ticket = match ticket_of(reply) {
            Ok(ticket) => ticket,
            Err(reply) => return Some(Ok(reply)),
        };
        let outcome = match self.read(rt, session, alloc, number, &ticket) {
            Ok(outcome) => outcome,
            Err(error) => return Some(Err(error)),
        };
        let (reply, _) = self.end_load(rt, session, alloc, ticket, outcome);
        Some(Ok(reply))
    }

    /// Looks a hash up, does the read that the look-up issues, and ends the load. Gives the last reply. At a moment between the call and
    /// the return, an answered entry was the newest put of its hash. This is so in the one history of all threads, after all that the
    /// session had seen. A miss has its cause there. Errors: `Memory` if memory for the read was refused. Then the look-up issued a ticket,
    /// and nothing was read.
    pub fn load(
        &self,
        rt: &impl Wait,
        session: &mut ToldSession<L, K, V, P, A, D>,
        alloc: &A,
        hash: u64,
        throttled: bool,
    ) -> Result<Reply<K, V, P, A>>
        requires mine { (session.old.witness.table_id ≡ J.table) × (session.old.witness.me.1 ≡ []) }
        requires part { 0 < session.old.session.shares.parts }
        ensures mine { (session.new.witness.table_id ≡ J.table) × (session.new.witness.me.1 ≡ []) }
        ensures on { GoesOn (meaning K.encoding V.encoding K.is_encodable V.is_encodable K.is_decodable V.is_decodable P.age) D.byte_at session.old.witness.me.0 session.new.witness.me.0 }
        ensures told { IfOk result (λ answer. HasLoaded (meaning K.encoding V.encoding K.is_encodable V.is_encodable K.is_decodable V.is_decodable P.age) D.byte_at N.keeps session.old.witness.me.0 session.new.witness.me.0 hash throttled answer) }
        ensures noted { IfOk result (λ answer. IsLoadNoted N.keeps session.old.session session.new.session hash throttled answer) }
        ensures refused { IfErr result (λ e. (e ≡ Memory) × ((ticket : Ticket) × (n : ℕ) × HasStepped (meaning K.encoding V.encoding K.is_encodable V.is_encodable K.is_decodable V.is_decodable P.age) D.byte_at session.old.witness.me.0 session.new.witness.me.0 (steps.LoadBegin hash throttled) (reply.Read ticket) n)) }
        ensures replied { IfOk result (IsLoadReply N.keeps throttled) }
        ensures newest { IfOk result (λ answer. (key : K) (value : V) (age : _) → answer ≡ reply.Entry key value age
            → WasNewest (meaning K.encoding V.encoding K.is_encodable V.is_encodable K.is_decodable V.is_decodable P.age) D.byte_at session.old.witness.me.0.seen session.new.witness.me.0.seen hash (content (meaning K.encoding V.encoding K.is_encodable V.is_encodable K.is_decodable V.is_decodable P.age) key value)) }
        ensures missed { IfOk result (λ answer. answer ≡ reply.Miss
            → WasMissed (meaning K.encoding V.encoding K.is_encodable V.is_encodable K.is_decodable V.is_decodable P.age) D.byte_at session.old.witness.me.0.seen session.new.witness.me.0.seen hash) }
        ensures parts { session.new.session.shares.parts ≡ session.old.session.shares.parts }
    {
        let begin = Step::LoadBegin { hash, throttled };
        let (reply, number) = self.ask(rt, session, no_io(), begin);
        let ticket = match ticket_of(reply) {
            Ok(ticket) => ticket,
            Err(reply) => return Ok(reply),
        };
        let outcome = self.read(rt, session, alloc, number, &ticket)?;
        let (reply, _) = self.end_load(rt, session, alloc, ticket, outcome);
        Ok(reply)
    }
}
