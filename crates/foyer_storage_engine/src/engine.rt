//! The calls of an engine, made by any thread with a session of its own. The session must have a part of the engine's book of steps.
ghost use Rattle.std.specs.Prelude.{◌≡◌, ◌+◌, ◌<◌, IfErr, IfOk, OnErr, OnOk, None, Ok, true, false, vec_len, Bool};
ghost use Rattle.foyer_policy_keeper.specs.PieceMap.{HoldsSame, LosesHash};
ghost use Rattle.foyer_storage_engine.specs.Kept.{reference_of};
ghost use Rattle.foyer_storage_engine.specs.Keeping.{IsAnsweredUnlessFull, IsKeptWhereQueued};
ghost use Rattle.foyer_device_page.specs.declared.error.Error.{Error as error};
ghost use Rattle.foyer_core_shared.specs.Briefs.{reply_brief};
ghost use Rattle.foyer_core_shared.specs.declared.brief.StepBrief.TheVariants as asked;
ghost use Rattle.foyer_core_shared.specs.Replies.{is_delete_reply, is_end_reply, is_enqueue_reply, is_look_up_reply, is_question_reply};
ghost use Rattle.foyer_storage_engine.specs.Accessing.{IsReadBy};
ghost use Rattle.foyer_storage_engine.specs.Answering.{IsAnsweredAs, IsEndOf, IsLoaded, asked_as, deleted_as, enqueued_as, IsLoadOf, IsTicketOf};
ghost use Rattle.foyer_storage_engine.specs.Answering.{is_draw_error, is_load_error, is_question_error};
ghost use Rattle.foyer_storage_engine.specs.declared.load.Load.TheVariants as load;

pub mod counts;
mod ends;
mod patience;
mod reader;
pub mod signals;
mod wait_table;
pub mod waits;

use self::reader::Reader;
use self::signals::Signals;
use crate::answers::{answer_of, deleted_of, enqueued_of, load_of};
use crate::enqueue::enqueue;
use crate::load::Load;
use foyer_block_manager::block::eviction::EvictionPicker;
use foyer_core_shared::core_steps::apply::no_io;
use foyer_core_shared::core_steps::reply::Reply;
use foyer_core_shared::core_steps::settings::Settings;
use foyer_core_shared::core_steps::step::{Step, Ticket};
use foyer_core_shared::notes::Noting;
use foyer_core_shared::session::Session;
use foyer_core_shared::shared::Shared;
use foyer_core_tally::book::Kinds;
use foyer_device_page::error::Result;
use foyer_format_record::serde::{Code, Properties};
use foyer_io_disk::disk::Disk;
use foyer_io_gate::gate::{Gate, Point};
use foyer_lock::lock_spinning;
use foyer_policy_filter::StorageFilterCondition;
use foyer_policy_keeper::keeper::shard::Shard;
use foyer_policy_keeper::keeper::{Keeper, ShardOf};
use foyer_policy_piece::keeper::{Piece, PieceRef};
use std::alloc::Allocator;
use std::sync::{Arc, Mutex, Wait};

/// What became of a piece that was put.
#[derive(Clone, Copy, Debug, PartialEq, Eq)]
pub enum Enqueued {
    /// It is queued. A flusher writes it later, or gives it up.
    Queued,
    /// It isn't taken: it is young.
    Ignored,
    /// It isn't taken, since too much is queued, and its hash is deleted.
    Deleted,
}

// Keeps a buffer for the next read, unless another thread reads just now.
fn keep<D: Disk + Drop, A: Allocator>(reader: &Mutex<Reader<D, A>>, spare: Option<Vec<u8, A>>) {
    let Some(bytes) = spare else {
        return;
    };
    if let Some(mut reader) = reader.try_lock() {
        reader.spare = bytes;
    }
}

// The ticket of a look-up's reply, or the reply.
fn ticket_of<K: Drop, V: Drop, P: Drop, A: Allocator>(
    reply: Reply<K, V, P, A>,
) -> std::result::Result<Ticket, Reply<K, V, P, A>>
    ensures { IsTicketOf reply result }
{
    match reply {
        Reply::Read(ticket) => Ok(ticket),
        reply => Err(reply),
    }
}

/// An engine that threads share by reference. It has a core behind one lock, and disks that loads read from, each behind another lock.
/// Its bells are rung when a step may let another thread go on. A load passes the engine's gate before it reads.
pub struct BlockEngine<L, K, V, P, A, E, C, D, G, N>
where
    L: Kinds,
    K: Code<A>,
    V: Code<A>,
    P: Properties + Drop,
    A: Allocator,
    E: EvictionPicker,
    C: StorageFilterCondition,
    D: Disk + Drop,
    G: Gate,
    N: Noting,
{
    shared: Shared<L, K, V, P, A, E, C, N>,
    reader: Mutex<Reader<D, A>>,
    others: Vec<Mutex<Reader<D, A>>, A>,
    signals: Arc<Signals<A>, A>,
    settings: Settings,
    // How often a put that finds the queue full looks again.
    patience: u32,
    gate: G,
    alloc: A,
}

// Written out, so that it is proved once.
impl<L, K, V, P, A, E, C, D, G, N> Drop for BlockEngine<L, K, V, P, A, E, C, D, G, N>
where
    L: Kinds,
    K: Code<A> + Drop,
    V: Code<A> + Drop,
    P: Properties + Drop,
    A: Allocator,
    E: EvictionPicker,
    C: StorageFilterCondition,
    D: Disk + Drop,
    G: Gate,
    N: Noting,
{
    fn drop(self) {
        let BlockEngine {
            shared: _,
            reader: _,
            others: _,
            signals: _,
            settings: _,
            patience: _,
            gate: _,
            alloc: _,
        } = self;
    }
}

impl<L, K, V, P, A, E, C, D, G, N> BlockEngine<L, K, V, P, A, E, C, D, G, N>
where
    L: Kinds,
    K: Code<A> + Drop,
    V: Code<A> + Drop,
    P: Properties + Drop,
    A: Allocator + Clone,
    E: EvictionPicker,
    C: StorageFilterCondition,
    D: Disk + Drop,
    G: Gate,
    N: Noting,
{
    /// Makes an engine over this core, which must have been opened with these settings. Its loads read from this disk, and its destroys
    /// clean the blocks there. Errors: `Memory`.
    pub fn new(
        alloc: A,
        shared: Shared<L, K, V, P, A, E, C, N>,
        settings: Settings,
        disk: D,
        gate: G,
    ) -> Result<BlockEngine<L, K, V, P, A, E, C, D, G, N>>
        ensures settings { IfOk result (λ engine. (engine.settings ≡ settings) × (engine.shared ≡ shared)) }
        ensures alone { IfOk result (λ engine. (vec_len engine.others ≡ 0) × (engine.patience ≡ 0)) }
        ensures refused { IfErr result (λ e. e ≡ error.Memory) }
    {
        let reader = Reader {
            disk,
            spare: Vec::new(alloc.clone()?),
            alloc: alloc.clone()?,
        };
        let signals = Arc::new(alloc.clone()?, Signals::new(alloc.clone()?))?;
        Ok(BlockEngine {
            shared,
            reader: Mutex::new(reader),
            others: Vec::new(alloc.clone()?),
            signals,
            settings,
            patience: 0,
            gate,
            alloc,
        })
    }

    /// Adds another disk for loads, which must have the same blocks. Errors: `Memory`. Then the engine is dropped.
    pub fn with_load_disk(self, disk: D) -> Result<BlockEngine<L, K, V, P, A, E, C, D, G, N>>
        ensures rest { IfOk result (λ engine. (engine.settings ≡ self.settings) × (engine.shared ≡ self.shared)
            × (engine.signals ≡ self.signals) × (engine.gate ≡ self.gate) × (engine.alloc ≡ self.alloc) × (engine.patience ≡ self.patience)) }
        ensures more { IfOk result (λ engine. vec_len engine.others ≡ vec_len self.others + 1) }
        ensures refused { IfErr result (λ e. e ≡ error.Memory) }
    {
        let mut engine = self;
        let spare = Vec::new(engine.alloc.clone()?);
        let alloc = engine.alloc.clone()?;
        engine
            .others
            .push(Mutex::new(Reader { disk, spare, alloc }))?;
        Ok(engine)
    }

    // The disk of this number, modulo how many there are. Those of `with_load_disk` come first, that of `new` last.
    fn reader(&self, number: usize) -> &Mutex<Reader<D, A>> {
        self.others
            .get(number % (self.others.len() + 1))
            .unwrap_or(&self.reader)
    }

    /// The settings that `new` was given.
    pub fn settings(&self) -> &Settings
        ensures { result.now ≡ self.now.settings }
    {
        &self.settings
    }

    /// The core behind its lock.
    pub fn shared(&self) -> &Shared<L, K, V, P, A, E, C, N>
        ensures { result.now ≡ self.now.shared }
    {
        &self.shared
    }

    /// The bells and waits by which its workers and its callers wait for one another.
    pub fn signals(&self) -> &Arc<Signals<A>, A>
        ensures { result.now ≡ self.now.signals }
    {
        &self.signals
    }

    /// The gate. A load passes it before it reads. Workers pass it before a reclaim, and before they write a block.
    pub fn gate(&self) -> &G
        ensures { result.now ≡ self.now.gate }
    {
        &self.gate
    }

    /// The allocator from which loads and reclaims take the memory that they read into.
    pub fn allocator(&self) -> &A
        ensures { result.now ≡ self.now.alloc }
    {
        &self.alloc
    }

    /// Queues a piece, and leaves keepers alone. `size` is the piece's estimated size in bytes. Errors: `Closed`, `Memory` and
    /// `SequenceEnd`, which leave the engine as it was.
    pub fn enqueue(
        &self,
        rt: &impl Wait,
        session: &mut Session<L>,
        piece: PieceRef<K, V, P, A>,
        size: usize,
    ) -> Result<Enqueued>
        requires { 0 < session.old.shares.parts }
        ensures answer { IsAnsweredAs N.keeps enqueued_as session.old session.new (asked.Enqueue piece.piece.hash size) result }
        ensures refused { IfErr result (λ e. is_draw_error e ≡ true) }
        ensures parts { session.new.shares.parts ≡ session.old.shares.parts }
    {
        self.look_for_room(rt);
        let step = Step::Enqueue { piece, size };
        let reply = self.shared.step(rt, session, no_io(), step);
        self.signals.queued.ring(rt);
        enqueued_of(reply)
    }

    // Queues a piece. If it is queued, it is put into a keeper's shard under the shard's next number. A piece that isn't queued replaces
    // nothing.
    fn enqueue_into(
        &self,
        rt: &impl Wait,
        session: &mut Session<L>,
        shard: &mut Shard<K, V, P, A>,
        piece: &Piece<K, V, P, A>,
        size: usize,
    ) -> Result<Enqueued>
    where
        K: Eq,
        requires { 0 < session.old.shares.parts }
        ensures answer { IsAnsweredUnlessFull N.keeps session.old session.new (asked.Enqueue piece.now.hash size) result }
        ensures kept { IsKeptWhereQueued K.eq shard.old.map shard.new.map (reference_of piece.now (shard.old.last + 1)) result }
        ensures refused { IfErr result (λ e. is_draw_error e ≡ true) }
        ensures parts { session.new.shares.parts ≡ session.old.shares.parts }
    {
        let reply = enqueue(
            shard,
            &mut lock_spinning(self.shared.locked(), rt),
            session,
            no_io(),
            piece,
            size,
        )?;
        enqueued_of(reply)
    }

    // The same under the lock of the shard that the piece's hash lies in.
    fn enqueue_at(
        &self,
        rt: &impl Wait,
        session: &mut Session<L>,
        shard: ShardOf<'_, K, V, P, A>,
        piece: &Piece<K, V, P, A>,
        size: usize,
    ) -> Result<Enqueued>
    where
        K: Eq,
        requires part { 0 < session.old.shares.parts }
        requires own { shard.hash ≡ piece.now.hash }
        ensures answer { IsAnsweredUnlessFull N.keeps session.old session.new (asked.Enqueue piece.now.hash size) result }
        ensures refused { IfErr result (λ e. is_draw_error e ≡ true) }
        ensures parts { session.new.shares.parts ≡ session.old.shares.parts }
    {
        let lock = shard.lock();
        self.enqueue_into(rt, session, &mut lock_spinning(lock, rt), piece, size)
    }

    /// Queues a piece, and keeps it in this keeper if it is queued. `size` is its estimated size in bytes. The keeper's shard stays
    /// locked until the piece is queued and kept, so no look-up and no release falls between. A piece that isn't queued replaces none in
    /// the keeper. Errors: `Closed`, `Memory` and `SequenceEnd`, which leave the engine as it was.
    pub fn enqueue_kept(
        &self,
        rt: &impl Wait,
        session: &mut Session<L>,
        keeper: &Keeper<K, V, P, A>,
        piece: &Piece<K, V, P, A>,
        size: usize,
    ) -> Result<Enqueued>
    where
        K: Eq,
        requires { 0 < session.old.shares.parts }
        ensures answer { IsAnsweredUnlessFull N.keeps session.old session.new (asked.Enqueue piece.now.hash size) result }
        ensures refused { IfErr result (λ e. is_draw_error e ≡ true) }
        ensures parts { session.new.shares.parts ≡ session.old.shares.parts }
    {
        self.look_for_room(rt);
        let answer = self.enqueue_at(rt, session, keeper.shard(piece.hash()), piece, size);
        self.signals.queued.ring(rt);
        answer
    }

    /// Accepts a delete of a hash. Loads that begin later miss the hash until a piece of it is queued and written again. Errors:
    /// `Closed`, `Memory` and `SequenceEnd`, which leave the engine as it was.
    pub fn delete(&self, rt: &impl Wait, session: &mut Session<L>, hash: u64) -> Result<()>
        requires { 0 < session.old.shares.parts }
        ensures answer { IsAnsweredAs N.keeps deleted_as session.old session.new (asked.Delete hash) result }
        ensures refused { IfErr result (λ e. is_draw_error e ≡ true) }
        ensures parts { session.new.shares.parts ≡ session.old.shares.parts }
    {
        let step = Step::Delete { hash };
        let reply = self.shared.step(rt, session, no_io(), step);
        self.signals.queued.ring(rt);
        deleted_of(reply)
    }

    // Accepts a delete of a hash, and then takes the hash's pieces out of a keeper's shard. If the delete is refused, they stay.
    fn delete_from(
        &self,
        rt: &impl Wait,
        session: &mut Session<L>,
        shard: &mut Shard<K, V, P, A>,
        hash: u64,
    ) -> Result<()>
    where
        K: Eq,
        requires { 0 < session.old.shares.parts }
        ensures answer { IsAnsweredAs N.keeps deleted_as session.old session.new (asked.Delete hash) result }
        ensures removed { OnOk result (LosesHash K.eq shard.old.map shard.new.map hash) }
        ensures kept { OnErr result (HoldsSame K.eq shard.old.map shard.new.map) }
        ensures refused { IfErr result (λ e. is_draw_error e ≡ true) }
        ensures parts { session.new.shares.parts ≡ session.old.shares.parts }
    {
        let delete = Step::Delete { hash };
        let reply = self.shared.step(rt, session, no_io(), delete);
        let deleted = deleted_of(reply);
        if deleted.is_ok() {
            shard.remove_hash(hash);
        }
        deleted
    }

    // The same under the lock of the shard that the hash lies in.
    fn delete_at(
        &self,
        rt: &impl Wait,
        session: &mut Session<L>,
        shard: ShardOf<'_, K, V, P, A>,
        hash: u64,
    ) -> Result<()>
    where
        K: Eq,
        requires part { 0 < session.old.shares.parts }
        requires own { shard.hash ≡ hash }
        ensures answer { IsAnsweredAs N.keeps deleted_as session.old session.new (asked.Delete hash) result }
        ensures refused { IfErr result (λ e. is_draw_error e ≡ true) }
        ensures parts { session.new.shares.parts ≡ session.old.shares.parts }
    {
        let lock = shard.lock();
        self.delete_from(rt, session, &mut lock_spinning(lock, rt), hash)
    }

    /// Accepts a delete of a hash, and takes the hash's pieces out of this keeper in the same hold of their shard's lock. So loads that
    /// begin later find nothing of the hash, queued or written, until a piece of it is put again. Errors: `Closed`, `Memory` and
    /// `SequenceEnd`, which leave the engine and the keeper as they were.
    pub fn delete_kept(
        &self,
        rt: &impl Wait,
        session: &mut Session<L>,
        keeper: &Keeper<K, V, P, A>,
        hash: u64,
    ) -> Result<()>
    where
        K: Eq,
        requires { 0 < session.old.shares.parts }
        ensures answer { IsAnsweredAs N.keeps deleted_as session.old session.new (asked.Delete hash) result }
        ensures refused { IfErr result (λ e. is_draw_error e ≡ true) }
        ensures parts { session.new.shares.parts ≡ session.old.shares.parts }
    {
        let deleted = self.delete_at(rt, session, keeper.shard(hash), hash);
        self.signals.queued.ring(rt);
        deleted
    }

    /// Says whether a hash is indexed. Errors: `SequenceEnd` if no step is left; `Memory` only if notes are kept, and one finds no room.
    pub fn may_contains(&self, rt: &impl Wait, session: &mut Session<L>, hash: u64) -> Result<bool>
        requires { 0 < session.old.shares.parts }
        ensures answer { IsAnsweredAs N.keeps asked_as session.old session.new (asked.MayContains hash) result }
        ensures refused { IfErr result (λ e. is_question_error N.keeps e ≡ true) }
        ensures parts { session.new.shares.parts ≡ session.old.shares.parts }
    {
        let step = Step::MayContains { hash };
        let reply = self.shared.step(rt, session, no_io(), step);
        answer_of(reply)
    }

    // Ends a load with what was read for its ticket. An entry is the pair of exactly these bytes. Their buffer is kept for the next read.
    fn end_load(
        &self,
        rt: &impl Wait,
        session: &mut Session<L>,
        reader: &Mutex<Reader<D, A>>,
        ticket: Ticket,
        outcome: Result<Vec<u8, A>>,
    ) -> Result<Load<K, V, P, A>>
        requires { 0 < session.old.shares.parts }
        ensures answer { IsEndOf K.is_decodable V.is_decodable K.encoding V.encoding N.keeps session.old session.new ticket outcome result }
        ensures throttled { result ≡ Ok load.Throttled → ⊥ }
        ensures refused { IfErr result (λ e. is_load_error e ≡ true) }
        ensures parts { session.new.shares.parts ≡ session.old.shares.parts }
    {
        let (reply, spare) = self
            .shared
            .end_load(rt, session, &self.alloc, ticket, outcome);
        keep(reader, spare);
        load_of(reply)
    }

    /// `load_by` from the disk of number 0.
    pub fn load(
        &self,
        rt: &impl Wait,
        session: &mut Session<L>,
        hash: u64,
        throttled: bool,
    ) -> Result<Load<K, V, P, A>>
        requires { 0 < session.old.shares.parts }
        ensures answer { IsLoaded K.is_decodable V.is_decodable K.encoding V.encoding (IsReadBy D.is_known D.byte_at D.may_answer) N.keeps session.old session.new hash throttled result }
        ensures throttled { result ≡ Ok load.Throttled → throttled ≡ true }
        ensures refused { IfErr result (λ e. is_load_error e ≡ true) }
        ensures parts { session.new.shares.parts ≡ session.old.shares.parts }
    {
        self.load_by(rt, session, hash, throttled, 0)
    }

    /// Looks a hash up, and reads the entry that the index has for it. The caller says whether the device is throttled: if it is, nothing
    /// is read. The caller also says which disk to read from, by a number modulo how many disks there are. Only this disk's lock is held
    /// during the read. Errors: `Io` if the read failed; `Memory` if memory for the read, the entry or a note is refused; `Parse` and
    /// `Unsupported` if the entry isn't readable; `SequenceEnd` if no step is left.
    pub fn load_by(
        &self,
        rt: &impl Wait,
        session: &mut Session<L>,
        hash: u64,
        throttled: bool,
        disk: usize,
    ) -> Result<Load<K, V, P, A>>
        requires { 0 < session.old.shares.parts }
        ensures answer { IsLoaded K.is_decodable V.is_decodable K.encoding V.encoding (IsReadBy D.is_known D.byte_at D.may_answer) N.keeps session.old session.new hash throttled result }
        ensures throttled { result ≡ Ok load.Throttled → throttled ≡ true }
        ensures refused { IfErr result (λ e. is_load_error e ≡ true) }
        ensures parts { session.new.shares.parts ≡ session.old.shares.parts }
    {
        let begin = Step::LoadBegin { hash, throttled };
        let ticket = match ticket_of(self.shared.step(rt, session, no_io(), begin)) {
            Ok(ticket) => ticket,
            Err(reply) => return load_of(reply),
        };
        self.gate.pass(Point::LoadRead);
        let reader = self.reader(disk);
        let outcome = lock_spinning(reader, rt).read(&ticket)?;
        self.end_load(rt, session, reader, ticket, outcome)
    }
}
