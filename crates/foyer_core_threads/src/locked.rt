//! A core with the witness of its lock.
ghost use Rattle.std.specs.Prelude.{◌≡◌, ◌⊎◌, ◌<◌, ◌∷◌, ℕ, [], IfErr, IfNone, IfOk, IfSome, true};
ghost use Rattle.foyer_core_chronicle.specs.Rights.{times};
ghost use Rattle.foyer_core_laws.specs.Content.{meaning};
ghost use Rattle.foyer_core_shared.specs.Answers.{IsAnswer};
ghost use Rattle.foyer_core_shared.specs.Briefed.{IsNotedIn};
ghost use Rattle.foyer_core_shared.specs.Replies.{may_reply};
ghost use Rattle.foyer_core_steps.specs.Answered.{spare_of};
ghost use Rattle.foyer_core_steps.specs.Judging.{IsJudged};
ghost use Rattle.foyer_core_steps.specs.declared.reply.Reply.TheVariants as reply;
ghost use Rattle.foyer_core_steps.specs.declared.step.Step.TheVariants as steps;
ghost use Rattle.foyer_device_page.specs.declared.error.ErrorKind.TheVariants as kind;
ghost use Rattle.foyer_core_told.specs.ToldLoads.{tickets_in};
ghost use Rattle.foyer_core_told.specs.ToldRights.{core_right, step_takes};
ghost use Rattle.foyer_core_told.specs.ToldSteps.{IsOpeningOf};
ghost use Rattle.foyer_core_told.specs.ToldQueued.{IsAllWritten};
ghost use Rattle.foyer_core_told.specs.Telling.{BringsTrue, HasStepped, StandsAt};
ghost use Rattle.foyer_core_threads.specs.Going.{GoesOn};
ghost use Rattle.foyer_core_threads.specs.Queued.{AreNoted};

use crate::queued::{Left, NoneQueued, QueuedPlaces};
use crate::session::ToldSession;
use foyer_block_manager::block::eviction::EvictionPicker;
use foyer_core_shared::locked::Locked;
use foyer_core_shared::notes::Noting;
use foyer_core_steps::apply::no_io;
use foyer_core_steps::load::Judged;
use foyer_core_steps::reply::Reply;
use foyer_core_steps::step::Step;
use foyer_core_tally::book::Kinds;
use foyer_core_told::history::{CoreRight, ToldHistory, ToldWitness, tell_step};
use foyer_core_told::queued::{Moving, moving_of};
use foyer_device_page::error::ErrorKind;
use foyer_device_statistics::IoState;
use foyer_format_record::serde::{Code, Properties};
use foyer_io_disk::disk::Disk;
use foyer_io_told::disk::HistoryName;
use foyer_policy_filter::StorageFilterCondition;
use std::alloc::Allocator;
use std::marker::{Model, PhantomData};
use std::snapshot::Snapshot;

/// A noted core, with the witness that adds its steps to the history. It lies behind a lock.
pub struct ToldCore<J, L, K, V, P, A, E, C, N, D>
where
    J: HistoryName,
    L: Kinds,
    K: Code<A>,
    V: Code<A>,
    P: Properties + Drop,
    A: Allocator,
    E: EvictionPicker,
    C: StorageFilterCondition,
    N: Noting,
    D: Disk,
{
    locked: Locked<L, K, V, P, A, E, C, N>,
    witness: ToldWitness<K, V, P, A, D>,
    // How many tickets were issued.
    tickets: u64,
    // Where pieces were queued, and which have left.
    places: QueuedPlaces<A>,
    name: PhantomData<J>,
}

// Written out, so that it is proved once.
impl<J, L, K, V, P, A, E, C, N, D> Drop for ToldCore<J, L, K, V, P, A, E, C, N, D>
where
    J: HistoryName,
    L: Kinds,
    K: Code<A> + Drop,
    V: Code<A> + Drop,
    P: Properties + Drop,
    A: Allocator,
    E: EvictionPicker,
    C: StorageFilterCondition,
    N: Noting,
    D: Disk,
{
    fn drop(self) {
        let ToldCore {
            locked: _,
            witness: _,
            tickets: _,
            places: _,
            name: _,
        } = self;
    }
}

impl<J, L, K, V, P, A, E, C, N, D> Model for ToldCore<J, L, K, V, P, A, E, C, N, D>
where
    J: HistoryName,
    L: Kinds,
    K: Code<A>,
    V: Code<A>,
    P: Properties + Drop,
    A: Allocator,
    E: EvictionPicker,
    C: StorageFilterCondition,
    N: Noting,
    D: Disk,
{
    ghost use Rattle.std.specs.Prelude.{◌≡◌, ◌⊎◌, ◌<◌, []};
    ghost use Rattle.foyer_core_chronicle.specs.Rights.{times};
    ghost use Rattle.foyer_core_laws.specs.Content.{meaning};
    ghost use Rattle.foyer_core_told.specs.ToldLoads.{tickets_in};
    ghost use Rattle.foyer_core_told.specs.ToldRights.{core_right};
    ghost use Rattle.foyer_core_told.specs.Telling.{StandsAt};
    ghost use Rattle.foyer_core_threads.specs.Queued.{AreNoted};

    ghost Value = { Unit {0} };

    ghost view = { λ d. tt };

    ghost invariant = { λ d. (d.witness.table_id ≡ J.table) × (d.witness.me.1 ≡ []) × (0 < times core_right d.witness.me.0.has)
        × (d.tickets ≡ tickets_in d.witness.me.0.seen)
        × StandsAt (meaning K.encoding V.encoding K.is_encodable V.is_encodable K.is_decodable V.is_decodable P.age) D.byte_at d.witness.me.0.seen d.locked.noted.core
        × AreNoted d.places d.witness.me.0.seen };
}

impl<J, L, K, V, P, A, E, C, N, D> ToldCore<J, L, K, V, P, A, E, C, N, D>
where
    J: HistoryName,
    L: Kinds,
    K: Code<A> + Drop,
    V: Code<A> + Drop,
    P: Properties + Drop,
    A: Allocator + Clone,
    E: EvictionPicker,
    C: StorageFilterCondition,
    N: Noting,
    D: Disk,
{
    /// Makes the core of a history. The witness must have the core's right, and must have seen the core's opening and nothing else.
    pub fn new(
        locked: Locked<L, K, V, P, A, E, C, N>,
        witness: ToldWitness<K, V, P, A, D>,
        none: NoneQueued<A>,
    ) -> ToldCore<J, L, K, V, P, A, E, C, N, D>
        requires history { (witness.table_id ≡ J.table) × (witness.me.1 ≡ []) }
        requires right { 0 < times core_right witness.me.0.has }
        requires opening { (e : _) × (disk : D) × IsOpeningOf locked.noted.core disk e × (witness.me.0.seen ≡ e ∷ []) }
        requires told { StandsAt (meaning K.encoding V.encoding K.is_encodable V.is_encodable K.is_decodable V.is_decodable P.age) D.byte_at witness.me.0.seen locked.noted.core }
    {
        ToldCore {
            locked,
            witness,
            tickets: 0,
            places: none.into_places(),
            name: PhantomData,
        }
    }

    /// Applies a step as `Locked::step` does, and adds exactly this step with this reply to the history, after all that the session had
    /// seen. The session must have the right that the step takes. If the step reports an access, what the session has seen must show that
    /// the access had this outcome. Beside the reply, gives how many tickets were issued before the step. If the step issues a ticket, that
    /// is the ticket's number, and the session then has the ticket's right.
    pub fn step(
        &mut self,
        history: &ToldHistory<K, V, P, A, D>,
        session: &mut ToldSession<L, K, V, P, A, D>,
        io: IoState,
        step: Step<K, V, P, A>,
    ) -> std::result::Result<(Reply<K, V, P, A>, u64), Step<K, V, P, A>>
        requires history { history.now.table.shared.table_id ≡ J.table }
        requires mine { (session.old.witness.table_id ≡ J.table) × (session.old.witness.me.1 ≡ []) }
        requires part { 0 < session.old.session.shares.parts }
        requires rights { (k : ℕ) → step_takes step k ≡ true → 0 < times k session.old.witness.me.0.has }
        requires brings { BringsTrue (meaning K.encoding V.encoding K.is_encodable V.is_encodable K.is_decodable V.is_decodable P.age) D.byte_at session.old.witness.me.0 step }
        ensures mine { (session.new.witness.table_id ≡ J.table) × (session.new.witness.me.1 ≡ []) }
        ensures told { IfOk result (λ r. HasStepped (meaning K.encoding V.encoding K.is_encodable V.is_encodable K.is_decodable V.is_decodable P.age) D.byte_at session.old.witness.me.0 session.new.witness.me.0 step r.0 r.1) }
        ensures answer { IfOk result (λ r. IsAnswer K.is_decodable V.is_decodable K.encoding V.encoding step r.0) }
        ensures noted { IfOk result (λ r. IsNotedIn session.old.session session.new.session step r.0) }
        ensures replied { IfOk result (λ r. may_reply step r.0 ≡ true) }
        ensures parts { session.new.session.shares.parts ≡ session.old.session.shares.parts }
        ensures roomless { IfErr result (λ given. (given ≡ step) × (session.new ≡ session.old) × (N.keeps ≡ true)) }
    {
        let said = Snapshot::of(&step);
        let done = moving_of(&step);
        let reply = match self.locked.step(&mut session.session, io, step) {
            Ok(reply) => reply,
            Err(step) => return Err(step),
        };
        self.places.note(done, &reply);
        let number = tell_step(
            history,
            &mut self.witness,
            &mut session.witness,
            &mut self.tickets,
            said,
            &reply,
            self.locked.core(),
        );
        Ok((reply, number))
    }

    /// Reports what was read for a ticket and judged, as `Locked::end_judged` does, and adds it to the history as `step` adds a `LoadEnd`.
    /// `said` must be a snapshot of this `LoadEnd`.
    pub fn end_judged(
        &mut self,
        history: &ToldHistory<K, V, P, A, D>,
        session: &mut ToldSession<L, K, V, P, A, D>,
        said: Snapshot<Step<K, V, P, A>>,
        judged: Judged<K, V, A>,
    ) -> std::result::Result<(Reply<K, V, P, A>, Option<Vec<u8, A>>), Step<K, V, P, A>>
        requires history { history.now.table.shared.table_id ≡ J.table }
        requires mine { (session.old.witness.table_id ≡ J.table) × (session.old.witness.me.1 ≡ []) }
        requires part { 0 < session.old.session.shares.parts }
        requires judged { IsJudged K.is_decodable V.is_decodable K.encoding V.encoding K.is_encodable V.is_encodable
            judged.ticket judged.outcome judged.found }
        requires said { said.value ≡ steps.LoadEnd judged.ticket judged.outcome }
        requires brings { BringsTrue (meaning K.encoding V.encoding K.is_encodable V.is_encodable K.is_decodable V.is_decodable P.age) D.byte_at session.old.witness.me.0 (steps.LoadEnd judged.ticket judged.outcome) }
        ensures mine { (session.new.witness.table_id ≡ J.table) × (session.new.witness.me.1 ≡ []) }
        ensures told { IfOk result (λ r. (n : ℕ) × HasStepped (meaning K.encoding V.encoding K.is_encodable V.is_encodable K.is_decodable V.is_decodable P.age) D.byte_at session.old.witness.me.0 session.new.witness.me.0 (steps.LoadEnd judged.ticket judged.outcome) r.0 n) }
        ensures answer { IfOk result (λ r. IsAnswer K.is_decodable V.is_decodable K.encoding V.encoding (steps.LoadEnd judged.ticket judged.outcome) r.0) }
        ensures noted { IfOk result (λ r. IsNotedIn session.old.session session.new.session (steps.LoadEnd judged.ticket judged.outcome) r.0) }
        ensures replied { IfOk result (λ r. may_reply (steps.LoadEnd judged.ticket judged.outcome) r.0 ≡ true) }
        ensures spare { IfOk result (λ r. r.1 ≡ spare_of judged.outcome r.0) }
        ensures parts { session.new.session.shares.parts ≡ session.old.session.shares.parts }
        ensures roomless { IfErr result (λ given. (given ≡ steps.LoadEnd judged.ticket judged.outcome) × (session.new ≡ session.old) × (N.keeps ≡ true)) }
    {
        let (reply, spare) = match self.locked.end_judged(&mut session.session, judged) {
            Ok(answer) => answer,
            Err(step) => return Err(step),
        };
        self.places.note(Moving::Other, &reply);
        let _ = tell_step(
            history,
            &mut self.witness,
            &mut session.witness,
            &mut self.tickets,
            said,
            &reply,
            self.locked.core(),
        );
        Ok((reply, spare))
    }

    /// Whether it is known that all queued pieces of a hash have left their flusher. The session has then seen the whole history, as it is
    /// under the core's lock. No event is added to it. If true, each piece was written or deleted, or something newer of the hash was. The
    /// exceptions: a batch failed since, or a destroy cleared the index.
    pub fn sees_written(
        &mut self,
        history: &ToldHistory<K, V, P, A, D>,
        session: &mut ToldSession<L, K, V, P, A, D>,
        hash: u64,
    ) -> bool
        requires history { history.now.table.shared.table_id ≡ J.table }
        requires mine { (session.old.witness.table_id ≡ J.table) × (session.old.witness.me.1 ≡ []) }
        ensures mine { (session.new.witness.table_id ≡ J.table) × (session.new.witness.me.1 ≡ []) }
        ensures on { GoesOn (meaning K.encoding V.encoding K.is_encodable V.is_encodable K.is_decodable V.is_decodable P.age) D.byte_at session.old.witness.me.0 session.new.witness.me.0 }
        ensures written { result ≡ true → IsAllWritten (meaning K.encoding V.encoding K.is_encodable V.is_encodable K.is_decodable V.is_decodable P.age) D.byte_at hash session.new.witness.me.0.seen }
        ensures same { session.new.session ≡ session.old.session }
    {
        let brought = history.give_all(&mut session.witness);
        history.take(&mut self.witness, brought);
        history.look(&mut self.witness);
        session.witness = history.give_others::<CoreRight>(&mut self.witness);
        let flushers = self.locked.core().settings().flushers;
        self.places.have_left(hash, flushers).is_some()
    }

    /// Looks a hash up as `step` does, if it is known that all queued pieces of the hash have left their flusher. Just before the look-up,
    /// each piece was written or deleted, or something newer of the hash was. The exceptions: a batch failed since, or a destroy cleared
    /// the index. Else gives `None`, and makes no step. If notes are kept and memory for this one is refused, the reply is `Refused(Memory,
    /// step)`, and nothing is noted or added to the history.
    pub fn look_up(
        &mut self,
        history: &ToldHistory<K, V, P, A, D>,
        session: &mut ToldSession<L, K, V, P, A, D>,
        hash: u64,
        throttled: bool,
    ) -> Option<(Reply<K, V, P, A>, u64)>
        requires history { history.now.table.shared.table_id ≡ J.table }
        requires mine { (session.old.witness.table_id ≡ J.table) × (session.old.witness.me.1 ≡ []) }
        requires part { 0 < session.old.session.shares.parts }
        ensures mine { (session.new.witness.table_id ≡ J.table) × (session.new.witness.me.1 ≡ []) }
        ensures on { GoesOn (meaning K.encoding V.encoding K.is_encodable V.is_encodable K.is_decodable V.is_decodable P.age) D.byte_at session.old.witness.me.0 session.new.witness.me.0 }
        ensures told { IfSome result (λ r. ((stepped : HasStepped (meaning K.encoding V.encoding K.is_encodable V.is_encodable K.is_decodable V.is_decodable P.age) D.byte_at session.old.witness.me.0 session.new.witness.me.0 (steps.LoadBegin hash throttled) r.0 r.1)
            × IsAllWritten (meaning K.encoding V.encoding K.is_encodable V.is_encodable K.is_decodable V.is_decodable P.age) D.byte_at hash stepped.gone.log)
            ⊎ ((N.keeps ≡ true) × (r.0 ≡ reply.Refused kind.Memory (steps.LoadBegin hash throttled)) × (session.new ≡ session.old))) }
        ensures answer { IfSome result (λ r. IsAnswer K.is_decodable V.is_decodable K.encoding V.encoding (steps.LoadBegin hash throttled) r.0) }
        ensures noted { IfSome result (λ r. IsNotedIn session.old.session session.new.session (steps.LoadBegin hash throttled) r.0
            ⊎ ((N.keeps ≡ true) × (r.0 ≡ reply.Refused kind.Memory (steps.LoadBegin hash throttled)) × (session.new ≡ session.old))) }
        ensures replied { IfSome result (λ r. (may_reply (steps.LoadBegin hash throttled) r.0 ≡ true)
            ⊎ ((N.keeps ≡ true) × (r.0 ≡ reply.Refused kind.Memory (steps.LoadBegin hash throttled)))) }
        ensures parts { session.new.session.shares.parts ≡ session.old.session.shares.parts }
        ensures queued { IfNone result (session.new ≡ session.old) }
    {
        let flushers = self.locked.core().settings().flushers;
        let Left = self.places.have_left(hash, flushers)?;
        let step = Step::LoadBegin { hash, throttled };
        let said = Snapshot::of(&step);
        let reply = match self.locked.step(&mut session.session, no_io(), step) {
            Ok(reply) => reply,
            Err(step) => return Some((Reply::Refused(ErrorKind::Memory, step), 0)),
        };
        let number = tell_step(
            history,
            &mut self.witness,
            &mut session.witness,
            &mut self.tickets,
            said,
            &reply,
            self.locked.core(),
        );
        Some((reply, number))
    }

    /// Whether so much is queued that another piece isn't taken, as `Core::is_full` says.
    pub fn is_full(&self) -> bool {
        self.locked.core().is_full()
    }
}
