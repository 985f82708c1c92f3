//! A core and its disk, each behind one lock, and the one history of what threads do to them.
ghost use Rattle.std.specs.Prelude.{◌≡◌, ◌⊎◌, ◌<◌, ◌∷◌, ℕ, [], true};
ghost use Rattle.foyer_core_chronicle.specs.Rights.{times};
ghost use Rattle.foyer_core_chronicle.specs.SharedHistory.{newcomer};
ghost use Rattle.foyer_core_laws.specs.Content.{meaning};
ghost use Rattle.foyer_core_model.specs.Ids.{ids};
ghost use Rattle.foyer_core_shared.specs.Answers.{IsAnswer};
ghost use Rattle.foyer_core_shared.specs.Briefed.{IsNotedIn};
ghost use Rattle.foyer_core_shared.specs.Replies.{may_reply};
ghost use Rattle.foyer_core_steps.specs.Answered.{spare_of};
ghost use Rattle.foyer_core_steps.specs.declared.reply.Reply.TheVariants as reply;
ghost use Rattle.foyer_core_steps.specs.declared.step.Step.TheVariants as steps;
ghost use Rattle.foyer_device_page.specs.declared.error.ErrorKind.TheVariants as kind;
ghost use Rattle.foyer_core_told.specs.ToldRights.{disk_right, rights_count, step_takes};
ghost use Rattle.foyer_core_told.specs.ToldQueued.{IsAllWritten};
ghost use Rattle.foyer_core_told.specs.ToldSteps.{IsOpeningOf};
ghost use Rattle.foyer_core_told.specs.Telling.{BringsTrue, HasStepped, WasOpened};
ghost use Rattle.foyer_core_threads.specs.Asking.{HasSizes, IsPlain};
ghost use Rattle.foyer_core_threads.specs.Going.{GoesOn};

mod again;
mod destroy;
mod load;
mod opening;
mod reclaim;
mod write;

use crate::locked::ToldCore;
use crate::queued::NoneQueued;
use crate::session::ToldSession;
use foyer_block_manager::block::eviction::EvictionPicker;
use foyer_core_shared::locked::Locked;
use foyer_core_shared::notes::Noting;
use foyer_core_shared::session::Session;
use foyer_core_steps::load::Judged;
use foyer_core_steps::reply::Reply;
use foyer_core_steps::step::{Step, Ticket};
use foyer_core_tally::book::Kinds;
use foyer_core_told::history::{CoreRight, ToldHistory, ToldWitness, tell_opening};
use foyer_device_page::error::{ErrorKind, Result};
use foyer_device_statistics::IoState;
use foyer_format_record::serde::{Code, Properties};
use foyer_io_disk::disk::Disk;
use foyer_io_told::disk::{DiskRight, HistoryName, ToldDisk};
use foyer_lock::lock_spinning;
use foyer_policy_filter::StorageFilterCondition;
use std::alloc::Allocator;
use std::snapshot::Snapshot;
use std::sync::{Mutex, Wait};

/// A core behind one lock, its disk behind another, and their history. Threads share it by reference, and each asks it with a session of
/// its own.
pub struct ToldShared<J, L, K, V, P, A, E, C, N, D>
where
    J: HistoryName,
    L: Kinds,
    K: Code<A>,
    V: Code<A>,
    P: Properties + Drop,
    A: Allocator,
    E: EvictionPicker,
    C: StorageFilterCondition,
    N: Noting,
    D: Disk,
{
    history: ToldHistory<K, V, P, A, D>,
    core: Mutex<ToldCore<J, L, K, V, P, A, E, C, N, D>>,
    disk: Mutex<ToldDisk<J, K, V, P, A, D>>,
    ghost named: { history.table.shared.table_id ≡ J.table },
}

// Written out, so that it is proved once.
impl<J, L, K, V, P, A, E, C, N, D> Drop for ToldShared<J, L, K, V, P, A, E, C, N, D>
where
    J: HistoryName,
    L: Kinds,
    K: Code<A> + Drop,
    V: Code<A> + Drop,
    P: Properties + Drop,
    A: Allocator,
    E: EvictionPicker,
    C: StorageFilterCondition,
    N: Noting,
    D: Disk + Drop,
{
    fn drop(self) {
        let ToldShared {
            history: _,
            core: _,
            disk: _,
        } = self;
    }
}

// Gives the parts of a `LoadEnd`, or the step if it is another one.
fn parts_of<K: Drop, V: Drop, P: Drop, A: Allocator>(
    step: Step<K, V, P, A>,
) -> std::result::Result<(Ticket, Result<Vec<u8, A>>), Step<K, V, P, A>>
    ensures parts { (ticket : _) (outcome : _) → step ≡ steps.LoadEnd ticket outcome → result ≡ Ok (ticket, outcome) }
{
    match step {
        Step::LoadEnd { ticket, result } => Ok((ticket, result)),
        step => Err(step),
    }
}

// Gives a snapshot of the `LoadEnd` with these parts, and the parts.
fn end_step<K: Drop, V: Drop, P: Drop, A: Allocator>(
    ticket: Ticket,
    outcome: Result<Vec<u8, A>>,
) -> (Snapshot<Step<K, V, P, A>>, Ticket, Result<Vec<u8, A>>)
    ensures said { result.0.value ≡ steps.LoadEnd ticket outcome }
    ensures same { (result.1 ≡ ticket) × (result.2 ≡ outcome) }
{
    let step = Step::LoadEnd {
        ticket,
        result: outcome,
    };
    let said = Snapshot::of(&step);
    match parts_of(step) {
        Ok((ticket, outcome)) => (said, ticket, outcome),
        Err(_step) => unreachable!(),
    }
}

impl<J, L, K, V, P, A, E, C, N, D> ToldShared<J, L, K, V, P, A, E, C, N, D>
where
    J: HistoryName,
    L: Kinds,
    K: Code<A> + Drop,
    V: Code<A> + Drop,
    P: Properties + Drop,
    A: Allocator + Clone,
    E: EvictionPicker,
    C: StorageFilterCondition,
    N: Noting,
    D: Disk,
{
    /// Shares a core that was just opened over this disk, whose bytes must be known. The opening is the first event of the history, which
    /// must be new and have this first witness. Gives the session with all rights of flushers and blocks. `spare` is a buffer for the first
    /// read. `none` has places for the core's flushers: with another number of them, `load_written` would answer no load.
    pub fn new(
        history: ToldHistory<K, V, P, A, D>,
        witness: ToldWitness<K, V, P, A, D>,
        locked: Locked<L, K, V, P, A, E, C, N>,
        session: Session<L>,
        disk: D,
        spare: Vec<u8, A>,
        none: NoneQueued<A>,
    ) -> (
        ToldShared<J, L, K, V, P, A, E, C, N, D>,
        ToldSession<L, K, V, P, A, D>,
    )
        requires history { history.table.shared.table_id ≡ J.table }
        requires witness { (witness.table_id ≡ J.table) × (witness.me ≡ (newcomer (ids rights_count), [])) }
        requires opened { WasOpened locked.noted.core }
        requires known { D.is_known disk }
        ensures session { result.1.session ≡ session }
        ensures whole { (result.1.witness.table_id ≡ J.table) × (result.1.witness.me.1 ≡ []) }
        ensures seen { (e : _) × IsOpeningOf locked.noted.core disk e × (result.1.witness.me.0.seen ≡ e ∷ []) }
        ensures sizes { HasSizes (meaning K.encoding V.encoding K.is_encodable V.is_encodable K.is_decodable V.is_decodable P.age) D.byte_at result.1.witness.me.0.seen locked.noted.core.settings }
        ensures rights { (k : ℕ) → disk_right < k → k < rights_count → 0 < times k result.1.witness.me.0.has }
    {
        let mut own = witness;
        tell_opening(&history, &mut own, locked.core(), &disk);
        let mut of_disk = history.give_others::<CoreRight>(&mut own);
        let witness = history.give_others::<DiskRight>(&mut of_disk);
        let core = ToldCore::new(locked, own, none);
        let disk = ToldDisk::new(disk, spare, of_disk);
        let shared = ToldShared {
            history,
            core: Mutex::new(core),
            disk: Mutex::new(disk),
        };
        (shared, ToldSession { session, witness })
    }

    /// The one history of its steps and accesses.
    pub fn history(&self) -> &ToldHistory<K, V, P, A, D>
        ensures { result.now ≡ self.now.history }
    {
        &self.history
    }

    /// Makes one step, under the core's lock. A filter that is asked is passed `io`. This adds exactly this step with this reply to the
    /// history, after all that the session had seen. The session must have the right that the step takes. If the step reports an access,
    /// what the session has seen must show that the access had this outcome. Beside the reply, gives how many tickets were issued before
    /// the step: the number of the ticket that the step issues, if it does. There is one exception: if notes are kept and memory for this
    /// note is refused, the reply is `Refused(Memory, step)`. Then the number is 0, and nothing is noted or added to the history.
    pub fn step(
        &self,
        rt: &impl Wait,
        session: &mut ToldSession<L, K, V, P, A, D>,
        io: IoState,
        step: Step<K, V, P, A>,
    ) -> (Reply<K, V, P, A>, u64)
        requires mine { (session.old.witness.table_id ≡ J.table) × (session.old.witness.me.1 ≡ []) }
        requires part { 0 < session.old.session.shares.parts }
        requires rights { (k : ℕ) → step_takes step k ≡ true → 0 < times k session.old.witness.me.0.has }
        requires brings { BringsTrue (meaning K.encoding V.encoding K.is_encodable V.is_encodable K.is_decodable V.is_decodable P.age) D.byte_at session.old.witness.me.0 step }
        ensures mine { (session.new.witness.table_id ≡ J.table) × (session.new.witness.me.1 ≡ []) }
        ensures on { GoesOn (meaning K.encoding V.encoding K.is_encodable V.is_encodable K.is_decodable V.is_decodable P.age) D.byte_at session.old.witness.me.0 session.new.witness.me.0 }
        ensures told { HasStepped (meaning K.encoding V.encoding K.is_encodable V.is_encodable K.is_decodable V.is_decodable P.age) D.byte_at session.old.witness.me.0 session.new.witness.me.0 step result.0 result.1
            ⊎ ((N.keeps ≡ true) × (result.0 ≡ reply.Refused kind.Memory step) × (session.new ≡ session.old)) }
        ensures answer { IsAnswer K.is_decodable V.is_decodable K.encoding V.encoding step result.0 }
        ensures noted { IsNotedIn session.old.session session.new.session step result.0
            ⊎ ((N.keeps ≡ true) × (result.0 ≡ reply.Refused kind.Memory step) × (session.new ≡ session.old)) }
        ensures replied { (may_reply step result.0 ≡ true) ⊎ ((N.keeps ≡ true) × (result.0 ≡ reply.Refused kind.Memory step)) }
        ensures parts { session.new.session.shares.parts ≡ session.old.session.shares.parts }
    {
        match lock_spinning(&self.core, rt).step(&self.history, session, io, step) {
            Ok(answer) => answer,
            Err(step) => (Reply::Refused(ErrorKind::Memory, step), 0),
        }
    }

    /// Whether so much is queued at this moment that another piece isn't taken. No contract says so: the answer is only a hint.
    pub fn is_full(&self, rt: &impl Wait) -> bool {
        lock_spinning(&self.core, rt).is_full()
    }

    /// Whether it is known, at a moment of this call under the core's lock, that all queued pieces of a hash have left their flusher. The
    /// session has then seen the history until this moment. If true, each piece was written or deleted, or something newer of the hash was.
    /// The exceptions: a batch failed since, or a destroy cleared the index.
    pub fn sees_written(
        &self,
        rt: &impl Wait,
        session: &mut ToldSession<L, K, V, P, A, D>,
        hash: u64,
    ) -> bool
        requires mine { (session.old.witness.table_id ≡ J.table) × (session.old.witness.me.1 ≡ []) }
        ensures mine { (session.new.witness.table_id ≡ J.table) × (session.new.witness.me.1 ≡ []) }
        ensures on { GoesOn (meaning K.encoding V.encoding K.is_encodable V.is_encodable K.is_decodable V.is_decodable P.age) D.byte_at session.old.witness.me.0 session.new.witness.me.0 }
        ensures written { result ≡ true → IsAllWritten (meaning K.encoding V.encoding K.is_encodable V.is_encodable K.is_decodable V.is_decodable P.age) D.byte_at hash session.new.witness.me.0.seen }
        ensures same { session.new.session ≡ session.old.session }
    {
        lock_spinning(&self.core, rt).sees_written(&self.history, session, hash)
    }

    /// Makes one step as `step` does. Requires that the step takes no right and reports no access.
    pub fn ask(
        &self,
        rt: &impl Wait,
        session: &mut ToldSession<L, K, V, P, A, D>,
        io: IoState,
        step: Step<K, V, P, A>,
    ) -> (Reply<K, V, P, A>, u64)
        requires mine { (session.old.witness.table_id ≡ J.table) × (session.old.witness.me.1 ≡ []) }
        requires part { 0 < session.old.session.shares.parts }
        requires plain { IsPlain step }
        ensures mine { (session.new.witness.table_id ≡ J.table) × (session.new.witness.me.1 ≡ []) }
        ensures on { GoesOn (meaning K.encoding V.encoding K.is_encodable V.is_encodable K.is_decodable V.is_decodable P.age) D.byte_at session.old.witness.me.0 session.new.witness.me.0 }
        ensures told { HasStepped (meaning K.encoding V.encoding K.is_encodable V.is_encodable K.is_decodable V.is_decodable P.age) D.byte_at session.old.witness.me.0 session.new.witness.me.0 step result.0 result.1
            ⊎ ((N.keeps ≡ true) × (result.0 ≡ reply.Refused kind.Memory step) × (session.new ≡ session.old)) }
        ensures answer { IsAnswer K.is_decodable V.is_decodable K.encoding V.encoding step result.0 }
        ensures noted { IsNotedIn session.old.session session.new.session step result.0
            ⊎ ((N.keeps ≡ true) × (result.0 ≡ reply.Refused kind.Memory step) × (session.new ≡ session.old)) }
        ensures replied { (may_reply step result.0 ≡ true) ⊎ ((N.keeps ≡ true) × (result.0 ≡ reply.Refused kind.Memory step)) }
        ensures parts { session.new.session.shares.parts ≡ session.old.session.shares.parts }
    {
        self.step(rt, session, io, step)
    }

    /// Reports what was read for a ticket, as `step` does with a `LoadEnd`. Gives the buffer of the read back beside the reply, unless the
    /// read failed or the reply returns the step. What was read is judged before the lock is taken: a pair takes its memory from this
    /// allocator.
    pub fn end_load(
        &self,
        rt: &impl Wait,
        session: &mut ToldSession<L, K, V, P, A, D>,
        alloc: &A,
        ticket: Ticket,
        outcome: Result<Vec<u8, A>>,
    ) -> (Reply<K, V, P, A>, Option<Vec<u8, A>>)
        requires mine { (session.old.witness.table_id ≡ J.table) × (session.old.witness.me.1 ≡ []) }
        requires part { 0 < session.old.session.shares.parts }
        requires brings { BringsTrue (meaning K.encoding V.encoding K.is_encodable V.is_encodable K.is_decodable V.is_decodable P.age) D.byte_at session.old.witness.me.0 (steps.LoadEnd ticket outcome) }
        ensures mine { (session.new.witness.table_id ≡ J.table) × (session.new.witness.me.1 ≡ []) }
        ensures on { GoesOn (meaning K.encoding V.encoding K.is_encodable V.is_encodable K.is_decodable V.is_decodable P.age) D.byte_at session.old.witness.me.0 session.new.witness.me.0 }
        ensures told { ((n : ℕ) × HasStepped (meaning K.encoding V.encoding K.is_encodable V.is_encodable K.is_decodable V.is_decodable P.age) D.byte_at session.old.witness.me.0 session.new.witness.me.0 (steps.LoadEnd ticket outcome) result.0 n)
            ⊎ ((N.keeps ≡ true) × (result.0 ≡ reply.Refused kind.Memory (steps.LoadEnd ticket outcome)) × (session.new ≡ session.old)) }
        ensures answer { IsAnswer K.is_decodable V.is_decodable K.encoding V.encoding (steps.LoadEnd ticket outcome) result.0 }
        ensures noted { IsNotedIn session.old.session session.new.session (steps.LoadEnd ticket outcome) result.0
            ⊎ ((N.keeps ≡ true) × (result.0 ≡ reply.Refused kind.Memory (steps.LoadEnd ticket outcome)) × (session.new ≡ session.old)) }
        ensures replied { (may_reply (steps.LoadEnd ticket outcome) result.0 ≡ true)
            ⊎ ((N.keeps ≡ true) × (result.0 ≡ reply.Refused kind.Memory (steps.LoadEnd ticket outcome))) }
        ensures spare { result.1 ≡ spare_of outcome result.0 }
        ensures parts { session.new.session.shares.parts ≡ session.old.session.shares.parts }
    {
        let (said, ticket, outcome) = end_step(ticket, outcome);
        let judged = Judged::of(alloc, ticket, outcome);
        match lock_spinning(&self.core, rt).end_judged(&self.history, session, said, judged) {
            Ok(answer) => answer,
            Err(step) => (Reply::Refused(ErrorKind::Memory, step), None),
        }
    }
}
