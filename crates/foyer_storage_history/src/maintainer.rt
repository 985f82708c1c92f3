//! Who writes, reclaims and destroys.
ghost use Rattle.std.specs.Prelude.{◌≡◌, ◌<◌, ℕ, [], Some, map, slice_get, true};
ghost use Rattle.foyer_core_chronicle.specs.Rights.{times};
ghost use Rattle.foyer_core_flusher.specs.Issuing.{write_of};
ghost use Rattle.foyer_core_laws.specs.Content.{meaning};
ghost use Rattle.foyer_core_shared.specs.Replies.{may_reply};
ghost use Rattle.foyer_core_steps.specs.declared.reply.Reply.TheVariants as reply;
ghost use Rattle.foyer_core_told.specs.ToldRights.{disk_right, rights_count};
ghost use Rattle.foyer_core_threads.specs.Asking.{AreToWrite, HasSizes, IsPlain};
ghost use Rattle.foyer_core_threads.specs.Going.{GoesOn, IsMadeAgain};
ghost use Rattle.foyer_storage_history.specs.declared.maintainer.Flushed.TheVariants as flushed;
ghost use Rattle.foyer_storage_history.specs.HistoryCalls.{IsEndAnswering, IsSeenBy, is_nil};
ghost use Rattle.foyer_storage_history.specs.Releasing.{AnswersWait, HasReleased, IsFrontOf, pieces_in, pieces_of};

mod destroy;
mod reclaim;
mod wait;

use foyer_block_index::manager::BlockId;
use foyer_block_manager::block::eviction::EvictionPicker;
use foyer_core_settings::settings::Settings;
use foyer_core_shared::core_steps::apply::no_io;
use foyer_core_shared::core_steps::refusal::error_of;
use foyer_core_shared::core_steps::reply::{Reply, Write};
use foyer_core_shared::core_steps::step::Step;
use foyer_core_shared::notes::NoNotes;
use foyer_core_tally::book::Kinds;
use foyer_core_threads::io_told::disk::HistoryName;
use foyer_core_threads::session::ToldSession;
use foyer_core_threads::shared::ToldShared;
use foyer_device_page::error::{Error, ErrorKind, Result};
use foyer_format_record::serde::{Code, Properties};
use foyer_io_disk::disk::Disk;
use foyer_policy_filter::StorageFilterCondition;
use foyer_policy_keeper::keeper::Keeper;
use foyer_policy_release::noted::AllReleased;
use foyer_policy_release::release::{release, release_all};
use foyer_policy_release::shown::Released;
use foyer_storage_engine::engine::counts::WorkCounters;
use std::alloc::Global;
use std::marker::PhantomData;
use std::sync::Wait;
use std::thread;

/// A core and its disk in memory, whose steps and accesses are in one history. It keeps no notes.
pub type HistoryCore<J, L, K, V, P, E, C, D> = ToldShared<J, L, K, V, P, Global, E, C, NoNotes, D>;

// How many submissions are taken for a batch at most.
const MOST_OF_A_BATCH: u32 = 64;

// What became of the question for a batch's next block.
#[derive(Clone, Copy, Debug, PartialEq, Eq)]
enum BlockStep {
    // It was written, or a write of it failed, or memory was refused. The caller asks for a block again.
    Again,
    // No block can be handed out.
    NoBlock,
    // The batch has no next block.
    Over,
}

/// What a flush did.
#[derive(Clone, Copy, Debug, PartialEq, Eq)]
pub(crate) enum Flushed {
    /// Nothing was received, and no batch began.
    Nothing,
    /// A batch was written, or something was received but no batch began.
    Some,
    /// A batch ended that had this wait.
    Answered,
}

// Whether a wait is among those that a batch's end answers.
fn has_wait(waits: &[u64], id: u64) -> bool
    ensures { result ≡ true → (at : ℕ) × (slice_get waits.now at ≡ Some id) }
{
    'waits: for at in 0..waits.len() {
        if waits.get(at).copied() == Some(id) {
            return true;
        }
    }
    false
}

// What became of the front of a queue.
#[derive(Drop)]
enum Front {
    // It was taken into the buffer.
    Taken,
    // It was a piece that doesn't fit, or whose code fails, and was released.
    Back(Released),
    // Nothing was taken.
    Over,
}

// What the reply to a question for the front of a queue says. A returned piece is released.
fn front_of<K: Eq + Drop, V: Drop, P: Drop>(
    rt: &impl Wait,
    keeper: &Keeper<K, V, P, Global>,
    reply: Reply<K, V, P, Global>,
) -> Front
    ensures { IsFrontOf reply result }
{
    match reply {
        Reply::Received(None) => Front::Taken,
        Reply::Received(Some(piece)) => Front::Back(release(rt, keeper, &piece)),
        _ => Front::Over,
    }
}

// What a flush did that ended a batch.
fn flushed_of(answers: bool) -> Flushed
    ensures { result ≡ flushed.Answered → answers ≡ true }
{
    if answers {
        return Flushed::Answered;
    }
    Flushed::Some
}

// What the end of a batch did.
#[derive(Drop)]
struct BatchEnd<K, V, P> {
    // Whether it answered a wait.
    answers: bool,
    // Its pieces, which were released, if it ended.
    released: Option<AllReleased<K, V, P, Global>>,
}

// Releases the pieces of a batch's end, in their order. Says whether the end answers this wait.
fn ended_of<K: Eq + Drop, V: Drop, P: Drop>(
    rt: &impl Wait,
    keeper: &Keeper<K, V, P, Global>,
    reply: Reply<K, V, P, Global>,
    id: u64,
) -> BatchEnd<K, V, P>
    ensures released { pieces_in result.released ≡ pieces_of reply }
    ensures answers { result.answers ≡ true → AnswersWait id reply }
{
    match reply {
        Reply::Ended { pieces, waits } => {
            let answers = has_wait(&waits, id);
            let released = release_all(rt, keeper, pieces);
            BatchEnd {
                answers,
                released: Some(released),
            }
        }
        _ => BatchEnd {
            answers: false,
            released: None,
        },
    }
}

/// The session that has the rights of all flushers and blocks. It lies behind a lock: whoever holds the lock writes, reclaims and destroys.
pub(crate) struct Maintainer<J, L, K, V, P, D>
where
    J: HistoryName,
    L: Kinds,
    K: Code<Global>,
    V: Code<Global>,
    P: Properties,
    D: Disk,
{
    told: ToldSession<L, K, V, P, Global, D>,
    settings: Settings,
    name: PhantomData<J>,
    ghost mine: { (told.witness.table_id ≡ J.table) × (is_nil told.witness.me.1 ≡ true) },
    ghost some_part: { 0 < told.session.shares.parts },
    ghost rights: { (k : ℕ) → disk_right < k → k < rights_count → 0 < times k told.witness.me.0.has },
    ghost sizes: { HasSizes (meaning K.encoding V.encoding K.is_encodable V.is_encodable K.is_decodable V.is_decodable P.age) D.byte_at told.witness.me.0.seen settings },
}

// Written out, so that it is proved once.
impl<J, L, K, V, P, D> Drop for Maintainer<J, L, K, V, P, D>
where
    J: HistoryName,
    L: Kinds,
    K: Code<Global>,
    V: Code<Global>,
    P: Properties,
    D: Disk,
{
    fn drop(self) {
        let Maintainer {
            told: _,
            settings: _,
            name: _,
        } = self;
    }
}

impl<J, L, K, V, P, D> Maintainer<J, L, K, V, P, D>
where
    J: HistoryName,
    L: Kinds,
    K: Code<Global> + Eq + Drop,
    V: Code<Global> + Drop,
    P: Properties + Drop,
    D: Disk,
{
    /// Makes a maintainer of a session that has all rights, for a core that was opened with these settings.
    #[tactic(auto, using(crate::proofs::HistoryLemmas::nil_is))]
    pub(crate) fn new(
        told: ToldSession<L, K, V, P, Global, D>,
        settings: Settings,
    ) -> Maintainer<J, L, K, V, P, D>
        requires mine { (told.witness.table_id ≡ J.table) × (told.witness.me.1 ≡ []) }
        requires some { 0 < told.session.shares.parts }
        requires rights { (k : ℕ) → disk_right < k → k < rights_count → 0 < times k told.witness.me.0.has }
        requires sizes { HasSizes (meaning K.encoding V.encoding K.is_encodable V.is_encodable K.is_decodable V.is_decodable P.age) D.byte_at told.witness.me.0.seen settings }
        ensures { result.settings ≡ settings }
    {
        Maintainer {
            told,
            settings,
            name: PhantomData,
        }
    }

    /// Sees what a caller has seen.
    #[tactic(auto, using(crate::proofs::HistoryLemmas::nil_is))]
    pub(crate) fn see<E, C>(
        &mut self,
        shared: &HistoryCore<J, L, K, V, P, E, C, D>,
        caller: &mut ToldSession<L, K, V, P, Global, D>,
    )
    where
        E: EvictionPicker,
        C: StorageFilterCondition,
        requires { caller.old.witness.table_id ≡ J.table }
        ensures on { GoesOn (meaning K.encoding V.encoding K.is_encodable V.is_encodable K.is_decodable V.is_decodable P.age) D.byte_at self.old.told.witness.me.0 self.new.told.witness.me.0 }
        ensures sees { IsSeenBy caller.old.witness.me.0 self.new.told.witness.me.0 }
        ensures caller { (caller.new.witness.table_id ≡ caller.old.witness.table_id) × (caller.new.witness.me ≡ caller.old.witness.me) × (caller.new.session ≡ caller.old.session) }
        ensures settings { self.new.settings ≡ self.old.settings }
    {
        self.told.see(shared.history(), caller);
    }

    /// Lets a caller see what this session has seen.
    #[tactic(auto, using(crate::proofs::HistoryLemmas::nil_is))]
    pub(crate) fn show<E, C>(
        &mut self,
        shared: &HistoryCore<J, L, K, V, P, E, C, D>,
        caller: &mut ToldSession<L, K, V, P, Global, D>,
    )
    where
        E: EvictionPicker,
        C: StorageFilterCondition,
        requires { (caller.old.witness.table_id ≡ J.table) × (caller.old.witness.me.1 ≡ []) }
        ensures mine { (caller.new.witness.table_id ≡ J.table) × (caller.new.witness.me.1 ≡ []) × (caller.new.session ≡ caller.old.session) }
        ensures shown { IsSeenBy self.old.told.witness.me.0 caller.new.witness.me.0 }
        ensures on { GoesOn (meaning K.encoding V.encoding K.is_encodable V.is_encodable K.is_decodable V.is_decodable P.age) D.byte_at caller.old.witness.me.0 caller.new.witness.me.0 }
        ensures same { (self.new.told.witness.me ≡ self.old.told.witness.me) × (self.new.settings ≡ self.old.settings) }
    {
        caller.see(shared.history(), &mut self.told);
    }

    // Makes one step that takes no right, and repeats it while memory is refused.
    #[tactic(auto, using(crate::proofs::HistoryLemmas::nil_is))]
    fn ask<E, C>(
        &mut self,
        rt: &impl Wait,
        shared: &HistoryCore<J, L, K, V, P, E, C, D>,
        step: Step<K, V, P, Global>,
    ) -> Reply<K, V, P, Global>
    where
        E: EvictionPicker,
        C: StorageFilterCondition,
        requires { IsPlain step }
        ensures on { GoesOn (meaning K.encoding V.encoding K.is_encodable V.is_encodable K.is_decodable V.is_decodable P.age) D.byte_at self.old.told.witness.me.0 self.new.told.witness.me.0 }
        ensures told { IsMadeAgain (meaning K.encoding V.encoding K.is_encodable V.is_encodable K.is_decodable V.is_decodable P.age) D.byte_at self.old.told.witness.me.0 self.new.told.witness.me.0 step result }
        ensures replied { may_reply step result ≡ true }
        ensures settings { self.new.settings ≡ self.old.settings }
    {
        shared.ask_again(rt, &mut self.told, no_io(), step)
    }

    // Takes what is queued at a flusher into its buffer, until nothing is queued, a piece doesn't fit, or a batch has enough. Gives whether
    // anything was taken.
    #[tactic(auto, using(crate::proofs::HistoryLemmas::nil_is, crate::proofs::HistoryLemmas::goes_on, crate::proofs::HistoryLemmas::goes_self))]
    fn receive<E, C>(
        &mut self,
        rt: &impl Wait,
        shared: &HistoryCore<J, L, K, V, P, E, C, D>,
        keeper: &Keeper<K, V, P, Global>,
        work: &WorkCounters,
        flusher: u32,
    ) -> bool
    where
        E: EvictionPicker,
        C: StorageFilterCondition,
        ensures on { GoesOn (meaning K.encoding V.encoding K.is_encodable V.is_encodable K.is_decodable V.is_decodable P.age) D.byte_at self.old.told.witness.me.0 self.new.told.witness.me.0 }
        ensures settings { self.new.settings ≡ self.old.settings }
    {
        let mut is_busy = false;
        'front: for _ in 0..MOST_OF_A_BATCH {
            match front_of(rt, keeper, self.ask(rt, shared, Step::Receive { flusher })) {
                Front::Taken => is_busy = true,
                Front::Back(_) => {
                    work.add_returned_put();
                    return true;
                }
                Front::Over => return is_busy,
            }
        }
        is_busy
    }

    // Asks for the next block of a batch.
    #[tactic(auto, using(crate::proofs::HistoryLemmas::nil_is))]
    fn issue<E, C>(
        &mut self,
        rt: &impl Wait,
        shared: &HistoryCore<J, L, K, V, P, E, C, D>,
        flusher: u32,
    ) -> Reply<K, V, P, Global>
    where
        E: EvictionPicker,
        C: StorageFilterCondition,
        ensures on { GoesOn (meaning K.encoding V.encoding K.is_encodable V.is_encodable K.is_decodable V.is_decodable P.age) D.byte_at self.old.told.witness.me.0 self.new.told.witness.me.0 }
        ensures issued { (block : ℕ) (writes : _) → result ≡ reply.Write block writes
            → AreToWrite (meaning K.encoding V.encoding K.is_encodable V.is_encodable K.is_decodable V.is_decodable P.age) D.byte_at self.new.told.witness.me.0.seen flusher block (map write_of writes.items) }
        ensures settings { self.new.settings ≡ self.old.settings }
    {
        shared.issue(rt, &mut self.told, flusher)
    }

    // Does the writes of a block, which were issued, until one fails or ends the block.
    #[tactic(auto, using(crate::proofs::HistoryLemmas::nil_is))]
    fn write_all<E, C>(
        &mut self,
        rt: &impl Wait,
        shared: &HistoryCore<J, L, K, V, P, E, C, D>,
        flusher: u32,
        block: BlockId,
        writes: &[Write<Global>],
    )
    where
        E: EvictionPicker,
        C: StorageFilterCondition,
        requires { AreToWrite (meaning K.encoding V.encoding K.is_encodable V.is_encodable K.is_decodable V.is_decodable P.age) D.byte_at self.old.told.witness.me.0.seen flusher block (map write_of writes.now) }
        ensures on { GoesOn (meaning K.encoding V.encoding K.is_encodable V.is_encodable K.is_decodable V.is_decodable P.age) D.byte_at self.old.told.witness.me.0 self.new.told.witness.me.0 }
        ensures settings { self.new.settings ≡ self.old.settings }
    {
        let _ = shared.write_all(rt, &mut self.told, flusher, block, writes);
    }

    // Asks for the next block of a batch, and writes it.
    #[tactic(auto, using(crate::proofs::HistoryLemmas::nil_is, crate::proofs::HistoryLemmas::goes_on, crate::proofs::HistoryLemmas::goes_self))]
    fn write_block<E, C>(
        &mut self,
        rt: &impl Wait,
        shared: &HistoryCore<J, L, K, V, P, E, C, D>,
        flusher: u32,
    ) -> BlockStep
    where
        E: EvictionPicker,
        C: StorageFilterCondition,
        ensures on { GoesOn (meaning K.encoding V.encoding K.is_encodable V.is_encodable K.is_decodable V.is_decodable P.age) D.byte_at self.old.told.witness.me.0 self.new.told.witness.me.0 }
        ensures settings { self.new.settings ≡ self.old.settings }
    {
        match self.issue(rt, shared, flusher) {
            Reply::Write { block, writes } => {
                self.write_all(rt, shared, flusher, block, &writes);
                BlockStep::Again
            }
            Reply::NoBlock => BlockStep::NoBlock,
            Reply::Refused(ErrorKind::Memory, _) => BlockStep::Again,
            _ => BlockStep::Over,
        }
    }

    // Writes the blocks of a batch, until the batch asks for none. If no block is clean, one is reclaimed.
    #[tactic(auto, using(crate::proofs::HistoryLemmas::nil_is, crate::proofs::HistoryLemmas::goes_on, crate::proofs::HistoryLemmas::goes_self))]
    fn write_batch<E, C>(
        &mut self,
        rt: &impl Wait,
        shared: &HistoryCore<J, L, K, V, P, E, C, D>,
        work: &WorkCounters,
        alloc: &Global,
        flusher: u32,
    )
    where
        E: EvictionPicker,
        C: StorageFilterCondition,
        ensures on { GoesOn (meaning K.encoding V.encoding K.is_encodable V.is_encodable K.is_decodable V.is_decodable P.age) D.byte_at self.old.told.witness.me.0 self.new.told.witness.me.0 }
        ensures settings { self.new.settings ≡ self.old.settings }
    {
        'batch: for _ in rt.forever() {
            match self.write_block(rt, shared, flusher) {
                BlockStep::Again => {}
                BlockStep::NoBlock => {
                    if !self.reclaim(rt, shared, work, alloc) {
                        thread::yield_now();
                    }
                }
                BlockStep::Over => return,
            }
        }
        unreachable!()
    }

    // Ends a batch, and releases its pieces, each by its own number. Says whether the end answers this wait.
    #[tactic(auto, using(crate::proofs::HistoryLemmas::nil_is))]
    fn end_batch<E, C>(
        &mut self,
        rt: &impl Wait,
        shared: &HistoryCore<J, L, K, V, P, E, C, D>,
        keeper: &Keeper<K, V, P, Global>,
        flusher: u32,
        id: u64,
    ) -> BatchEnd<K, V, P>
    where
        E: EvictionPicker,
        C: StorageFilterCondition,
        ensures on { GoesOn (meaning K.encoding V.encoding K.is_encodable V.is_encodable K.is_decodable V.is_decodable P.age) D.byte_at self.old.told.witness.me.0 self.new.told.witness.me.0 }
        ensures answers { result.answers ≡ true → IsEndAnswering (meaning K.encoding V.encoding K.is_encodable V.is_encodable K.is_decodable V.is_decodable P.age) D.byte_at self.old.told.witness.me.0 self.new.told.witness.me.0 flusher id }
        ensures released { HasReleased (meaning K.encoding V.encoding K.is_encodable V.is_encodable K.is_decodable V.is_decodable P.age) D.byte_at self.old.told.witness.me.0 self.new.told.witness.me.0 flusher (pieces_in result.released) }
        ensures settings { self.new.settings ≡ self.old.settings }
    {
        let reply = self.ask(rt, shared, Step::FlushEnd { flusher });
        ended_of(rt, keeper, reply, id)
    }

    /// Takes at most 64 submissions of a flusher's queue, and writes them as one batch.
    #[tactic(auto, using(crate::proofs::HistoryLemmas::nil_is, crate::proofs::HistoryLemmas::goes_on, crate::proofs::HistoryLemmas::goes_self))]
    pub(crate) fn flush<E, C>(
        &mut self,
        rt: &impl Wait,
        shared: &HistoryCore<J, L, K, V, P, E, C, D>,
        keeper: &Keeper<K, V, P, Global>,
        work: &WorkCounters,
        alloc: &Global,
        flusher: u32,
        id: u64,
    ) -> Flushed
    where
        E: EvictionPicker,
        C: StorageFilterCondition,
        ensures on { GoesOn (meaning K.encoding V.encoding K.is_encodable V.is_encodable K.is_decodable V.is_decodable P.age) D.byte_at self.old.told.witness.me.0 self.new.told.witness.me.0 }
        ensures answers { result ≡ flushed.Answered → IsEndAnswering (meaning K.encoding V.encoding K.is_encodable V.is_encodable K.is_decodable V.is_decodable P.age) D.byte_at self.old.told.witness.me.0 self.new.told.witness.me.0 flusher id }
        ensures settings { self.new.settings ≡ self.old.settings }
    {
        let is_busy = self.receive(rt, shared, keeper, work, flusher);
        match self.ask(rt, shared, Step::FlushBegin { flusher }) {
            Reply::Began { .. } => {}
            _ if is_busy => return Flushed::Some,
            _ => return Flushed::Nothing,
        }
        work.add_batch();
        self.write_batch(rt, shared, work, alloc, flusher);
        let end = self.end_batch(rt, shared, keeper, flusher, id);
        flushed_of(end.answers)
    }
}
