//! What a store asks of its engine.
use foyer_device_page::error::Result;
use foyer_device_statistics::IoState;
use foyer_policy_filter::StorageFilterResult;
use foyer_policy_keeper::keeper::Keeper;
use foyer_policy_keeper::keeper::shard::NotKept;
use foyer_policy_piece::keeper::Piece;
use foyer_storage_engine::engine::Enqueued;
use foyer_storage_engine::engine::counts::WorkCounts;
use foyer_storage_engine::load::Load;
use std::alloc::Global;
use std::sync::Wait;

/// What a device has.
#[derive(Clone, Copy, Debug, PartialEq, Eq)]
pub struct DeviceSummary {
    /// The bytes that it has.
    pub capacity: usize,
    /// The bytes that its partitions take together.
    pub allocated: usize,
    /// How many partitions it has.
    pub partitions: usize,
}

/// What an engine's threads did, and whether its queue has room.
#[derive(Clone, Copy, Debug)]
pub struct EngineWork {
    /// What its threads did since it was opened.
    pub counts: WorkCounts,
    /// Whether a put of the hash that was asked for would find room in the queue.
    pub has_room: bool,
}

/// The calls of an engine, which threads share by reference, each with a session of this type.
pub trait Engine<S: Drop, K: Eq, V, P>: Drop {
    ghost use Rattle.std.specs.Prelude.{◌≡◌, ℕ, Bool, true, false, Result, IfErr};
    ghost use Rattle.std.specs.declared.alloc.Global.{Global};
    ghost use Rattle.foyer_storage_engine.specs.Answering.{is_draw_error, is_load_error, is_question_error};
    ghost use Rattle.foyer_device_page.specs.declared.error.Error.{Error};
    ghost use Rattle.foyer_storage_engine.specs.declared.engine.Enqueued.{Enqueued};
    ghost use Rattle.foyer_storage_engine.specs.declared.load.Load.{Load};
    ghost use Rattle.foyer_policy_piece.specs.Record.{Record};
    ghost use Rattle.foyer_policy_filter.specs.declared.verdict.StorageFilterResult.{StorageFilterResult};
    ghost use Rattle.foyer_storage_store.specs.declared.calls.DeviceSummary.{DeviceSummary};

    // What its device has.
    ghost summary: { Self → DeviceSummary };

    // What its admission filter may say of an entry of that hash and size.
    ghost may_judge: { Self → ℕ → ℕ → StorageFilterResult → Type 0 };

    // What an enqueue of that piece, of that size, may make of a caller's session, and answer.
    ghost may_enqueue: { Self → S → S → Record K V P → ℕ → Result Enqueued Error → Type 0 };

    // The same of a load of a hash.
    ghost may_load: { Self → S → S → ℕ → Result (Load K V P Global) Error → Type 0 };

    // The same of a delete.
    ghost may_delete: { Self → S → S → ℕ → Result (Unit {0}) Error → Type 0 };

    // The same of a question.
    ghost may_ask: { Self → S → S → ℕ → Result Bool Error → Type 0 };

    // The same of a wait, of a close and of a destroy.
    ghost may_wait: { Self → S → S → Result (Unit {0}) Error → Type 0 };

    ghost may_close: { Self → S → S → Result (Unit {0}) Error → Type 0 };

    ghost may_destroy: { Self → S → S → Result (Unit {0}) Error → Type 0 };

    /// What its device has.
    fn device(&self) -> DeviceSummary
        ensures { result ≡ summary self.now };

    /// The counters of its device, and how long its limits make callers wait at a moment in nanoseconds.
    fn io_state(&self, rt: &impl Wait, now: u64) -> IoState;

    /// What its threads did since it was opened, and whether a put of that hash would find room in the queue now.
    fn work(&self, rt: &impl Wait, hash: u64) -> EngineWork;

    /// What its admission filter, and then its limits of writes, say of an entry of that hash and size in bytes, at a moment.
    fn filter(&self, rt: &impl Wait, hash: u64, size: usize, now: u64) -> StorageFilterResult
        ensures { may_judge self.now hash size result };

    /// Queues a piece, and keeps it in this keeper if it is queued. `size` is its estimated size in bytes. Errors: `Closed`; `Memory`;
    /// `SequenceEnd`.
    fn enqueue(
        &self,
        rt: &impl Wait,
        session: &mut S,
        keeper: &Keeper<K, V, P, Global>,
        piece: &Piece<K, V, P, Global>,
        size: usize,
    ) -> Result<Enqueued>
        ensures answered { may_enqueue self.now session.old session.new piece.now size result }
        ensures refused { IfErr result (λ e. is_draw_error e ≡ true) };

    /// Looks up a hash of which a keeper had no piece, at a moment in nanoseconds, and reads its entry. Errors: `Io`; `Memory`; `Parse`;
    /// `Unsupported`; `SequenceEnd`.
    fn load(
        &self,
        rt: &impl Wait,
        session: &mut S,
        lacking: NotKept,
        now: u64,
    ) -> Result<Load<K, V, P, Global>>
        ensures answered { may_load self.now session.old session.new lacking.hash result }
        ensures refused { IfErr result (λ e. is_load_error e ≡ true) };

    /// Accepts a delete of a hash. If its pieces go with it, it also takes them out of this keeper, in the same hold of their shard's lock.
    /// Errors: `Closed`; `Memory`; `SequenceEnd`.
    fn delete(
        &self,
        rt: &impl Wait,
        session: &mut S,
        keeper: &Keeper<K, V, P, Global>,
        hash: u64,
        with_pieces: bool,
    ) -> Result<()>
        ensures answered { may_delete self.now session.old session.new hash result }
        ensures refused { IfErr result (λ e. is_draw_error e ≡ true) };

    /// Says whether a hash of which a keeper had no piece is indexed. Errors: `SequenceEnd`.
    fn may_contains(&self, rt: &impl Wait, session: &mut S, lacking: NotKept) -> Result<bool>
        ensures answered { may_ask self.now session.old session.new lacking.hash result }
        ensures refused { IfErr result (λ e. is_question_error false e ≡ true) };

    /// Destroys all entries.
    fn destroy(&self, rt: &impl Wait, session: &mut S) -> Result<()>
        ensures { may_destroy self.now session.old session.new result };

    /// Waits until all that was queued before is written or given up.
    fn wait(&self, rt: &impl Wait, session: &mut S) -> Result<()>
        ensures { may_wait self.now session.old session.new result };

    /// Takes no more enqueues, deletes and destroys, and waits.
    fn close(&self, rt: &impl Wait, session: &mut S) -> Result<()>
        ensures { may_close self.now session.old session.new result };
}
