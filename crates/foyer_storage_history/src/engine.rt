//! The engine.
ghost use Rattle.std.specs.Prelude.{◌≡◌, ◌≢◌, ◌⊎◌, ◌+◌, ◌-◌, ◌<◌, [], ◌∷◌, IfErr, IfOk, OnErr, OnOk, false, true};
ghost use Rattle.foyer_policy_keeper.specs.PieceMap.{HoldsSame, LosesHash};
ghost use Rattle.foyer_block_recover.specs.Recovery.{marks_of};
ghost use Rattle.foyer_block_recover.specs.declared.block.recover.RecoverMode.TheVariants as recover_mode;
ghost use Rattle.foyer_core_chronicle.specs.SharedHistory.{newcomer};
ghost use Rattle.foyer_core_laws.specs.Content.{content, meaning};
ghost use Rattle.foyer_core_laws.specs.Sizes.{AreValid};
ghost use Rattle.foyer_core_model.specs.Ids.{ids};
ghost use Rattle.foyer_core_steps.specs.Opened.{IsOpenedFrom};
ghost use Rattle.foyer_core_steps.specs.declared.reply.Reply.TheVariants as reply;
ghost use Rattle.foyer_core_steps.specs.declared.state.Core.{Core};
ghost use Rattle.foyer_core_steps.specs.declared.step.Step.TheVariants as steps;
ghost use Rattle.foyer_core_tally.specs.Ledgers.{AreOf};
ghost use Rattle.foyer_core_told.specs.ToldRights.{rights_count};
ghost use Rattle.foyer_core_told.specs.ToldSteps.{IsOpeningOf};
ghost use Rattle.foyer_core_threads.specs.Asking.{HasSizes, IsLoadReply};
ghost use Rattle.foyer_core_threads.specs.Done.{HasLoaded, HasLookedOnly, IsLoadNoted};
ghost use Rattle.foyer_core_threads.specs.Going.{GoesOn};
ghost use Rattle.foyer_core_threads.specs.Newest.{WasMissedWritten, WasPutLast};
ghost use Rattle.foyer_device_page.specs.declared.error.Error.TheVariants.{Config, Memory, Recover, SequenceEnd};
ghost use Rattle.foyer_io_disk.specs.Disk.{SurelyCame};
ghost use Rattle.foyer_storage_engine.specs.Answering.{asked_as, deleted_as, enqueued_as, is_draw_error, is_load_error, is_question_error};
ghost use Rattle.foyer_storage_engine.specs.Keeping.{IsKeptWhereQueued};
ghost use Rattle.foyer_storage_engine.specs.Kept.{reference_of};
ghost use Rattle.foyer_storage_history.specs.HistoryCalls.{IsAnswerTo, IsEnqueued, IsNewestLoad, IsSeenBy};

mod calls;
mod ends;

use crate::maintainer::{HistoryCore, Maintainer};
use crate::session::HistorySession;
use foyer_block_manager::block::eviction::EvictionPicker;
use foyer_core_settings::settings::Settings;
use foyer_core_shared::core_steps::apply::{Env, no_io};
use foyer_core_shared::core_steps::open::RecoverMode;
use foyer_core_shared::core_steps::reply::Reply;
use foyer_core_shared::core_steps::step::Step;
use foyer_core_tally::book::{Blanks, Kinds};
use foyer_core_threads::core_told::history::{ToldHistory, ToldWitness};
use foyer_core_threads::io_told::disk::HistoryName;
use foyer_device_page::error::{Error, Result};
use foyer_format_record::serde::{Code, Properties};
use foyer_io_disk::disk::Disk;
use foyer_lock::lock_spinning;
use foyer_policy_filter::StorageFilterCondition;
use foyer_policy_keeper::keeper::shard::{NotKept, Shard};
use foyer_policy_keeper::keeper::{Keeper, ShardOf};
use foyer_policy_piece::keeper::Piece;
use foyer_storage_engine::answers::{answer_of, deleted_of, enqueued_of, load_of};
use foyer_storage_engine::engine::Enqueued;
use foyer_storage_engine::engine::counts::WorkCounters;
use foyer_storage_engine::enqueue::put_where_queued;
use foyer_storage_engine::load::Load;
use std::alloc::Global;
use std::sync::{Arc, Mutex, Wait};

/// An engine over memory that threads share by reference: a core behind one lock, its disk behind another, and the history of what threads do
/// to them.
pub struct HistoryEngine<J, L, K, V, P, E, C, D>
where
    J: HistoryName,
    L: Kinds,
    K: Code<Global> + Eq,
    V: Code<Global>,
    P: Properties + Drop,
    E: EvictionPicker,
    C: StorageFilterCondition,
    D: Disk + Drop,
{
    shared: HistoryCore<J, L, K, V, P, E, C, D>,
    maintainer: Mutex<Maintainer<J, L, K, V, P, D>>,
    pub(crate) keeper: Arc<Keeper<K, V, P, Global>, Global>,
    settings: Settings,
    work: WorkCounters,
    alloc: Global,
}

// Written out, so that it is proved once.
impl<J, L, K, V, P, E, C, D> Drop for HistoryEngine<J, L, K, V, P, E, C, D>
where
    J: HistoryName,
    L: Kinds,
    K: Code<Global> + Eq + Drop,
    V: Code<Global> + Drop,
    P: Properties + Drop,
    E: EvictionPicker,
    C: StorageFilterCondition,
    D: Disk + Drop,
{
    fn drop(self) {
        let HistoryEngine {
            shared: _,
            maintainer: _,
            keeper: _,
            settings: _,
            work: _,
            alloc: _,
        } = self;
    }
}

impl<J, L, K, V, P, E, C, D> HistoryEngine<J, L, K, V, P, E, C, D>
where
    J: HistoryName,
    L: Kinds,
    K: Code<Global> + Eq + Drop,
    V: Code<Global> + Drop,
    P: Properties + Drop,
    E: EvictionPicker,
    C: StorageFilterCondition,
    D: Disk + Drop,
{
    /// Opens an engine over a disk whose bytes are known, with an empty history of the name `J` and the witness of all its rights. Requires
    /// at least two parts and at least one shard. The session has all parts except one. Pieces that are queued are kept in this many
    /// shards. Errors: `Config` if the settings don't go together or ask for a log of deletes; `Recover` if a read failed in `Strict`;
    /// `SequenceEnd` if what was found has the last sequence; `Memory`.
    #[tactic(auto, using(crate::proofs::HistoryLemmas::nil_is))]
    pub fn open(
        history: ToldHistory<K, V, P, Global, D>,
        witness: ToldWitness<K, V, P, Global, D>,
        alloc: Global,
        env: Env<E, C>,
        settings: Settings,
        disk: D,
        mode: RecoverMode,
        shards: usize,
        blanks: Blanks,
    ) -> Result<
        (
            HistoryEngine<J, L, K, V, P, E, C, D>,
            HistorySession<J, L, K, V, P, D>,
        ),
    >
        requires history { history.table.shared.table_id ≡ J.table }
        requires witness { (witness.table_id ≡ J.table) × (witness.me ≡ (newcomer (ids rights_count), [])) }
        requires known { D.is_known disk }
        requires ledgers { AreOf L.name_of L.all blanks }
        requires parts { 1 < L.all }
        requires shards { shards ≢ 0 }
        ensures settings { IfOk result (λ r. r.0.settings ≡ settings) }
        ensures log { IfOk result (λ _. settings.tombstone_log ≡ false) }
        ensures parts { IfOk result (λ r. r.1.told.session.shares.parts ≡ L.all - 1) }
        ensures seen { IfOk result (λ r. (core : Core K V P Global) × (over : D) × (e : _) × IsOpeningOf core over e × (r.1.told.witness.me.0.seen ≡ e ∷ [])
            × (D.byte_at over ≡ D.byte_at disk)
            × IsOpenedFrom settings (D.byte_at disk) (SurelyCame (D.surely_has disk) (D.surely_lies disk) (D.faults disk) (D.faults over)) mode (marks_of [])
            ((mode ≡ recover_mode.None) ⊎ D.is_known disk) core) }
        ensures sizes { IfOk result (λ r. HasSizes (meaning K.encoding V.encoding K.is_encodable V.is_encodable K.is_decodable V.is_decodable P.age) D.byte_at r.1.told.witness.me.0.seen settings) }
        ensures sound { IfOk result (λ _. AreValid settings) }
        ensures refused { IfErr result (λ e. (e ≡ Memory) ⊎ ((e ≡ Config) × ((settings.tombstone_log ≡ true) ⊎ (AreValid settings → ⊥)))
            ⊎ ((e ≡ Recover) × (mode ≡ recover_mode.Strict)) ⊎ ((e ≡ SequenceEnd) × (mode ≡ recover_mode.None → ⊥))) }
    {
        if settings.tombstone_log {
            return Err(Error::Config);
        }
        let (shared, mut all) = HistoryCore::<J, L, K, V, P, E, C, D>::open(
            history,
            witness,
            alloc,
            env,
            settings,
            disk,
            mode,
            &[],
            blanks,
        )?;
        let keeper = Arc::new(alloc, Keeper::new(alloc, shards)?)?;
        let parts = all.session.parts() - 1;
        let caller = all.split(shared.history(), parts);
        let engine = HistoryEngine {
            shared,
            maintainer: Mutex::new(Maintainer::new(all, settings)),
            keeper,
            settings,
            work: WorkCounters::new(),
            alloc,
        };
        Ok((engine, HistorySession::new(caller)))
    }

    /// The settings that it was opened with.
    pub fn settings(&self) -> &Settings
        ensures { result.now ≡ self.now.settings }
    {
        &self.settings
    }

    /// Splits off a session for another thread, with this many parts, at least one and fewer than `session` has. The new session has seen
    /// what `session` has seen.
    #[tactic(auto, using(crate::proofs::HistoryLemmas::nil_is))]
    pub fn split(
        &self,
        session: &mut HistorySession<J, L, K, V, P, D>,
        parts: u64,
    ) -> HistorySession<J, L, K, V, P, D>
        requires some { 0 < parts }
        requires fewer { parts < session.old.told.session.shares.parts }
        ensures parts { result.told.session.shares.parts ≡ parts }
        ensures seen { IsSeenBy session.old.told.witness.me.0 result.told.witness.me.0 }
        ensures same { result.told.witness.me.0.seen ≡ session.old.told.witness.me.0.seen }
        ensures left { session.new.told.session.shares.parts ≡ session.old.told.session.shares.parts - parts }
        ensures on { GoesOn (meaning K.encoding V.encoding K.is_encodable V.is_encodable K.is_decodable V.is_decodable P.age) D.byte_at session.old.told.witness.me.0 session.new.told.witness.me.0 }
    {
        HistorySession::new(session.told.split(self.shared.history(), parts))
    }

    /// Takes another thread's session back: its parts, and what it has seen.
    #[tactic(auto, using(crate::proofs::HistoryLemmas::nil_is))]
    pub fn join(
        &self,
        session: &mut HistorySession<J, L, K, V, P, D>,
        other: HistorySession<J, L, K, V, P, D>,
    )
        ensures parts { session.new.told.session.shares.parts ≡ session.old.told.session.shares.parts + other.told.session.shares.parts }
        ensures seen { IsSeenBy other.told.witness.me.0 session.new.told.witness.me.0 }
        ensures on { GoesOn (meaning K.encoding V.encoding K.is_encodable V.is_encodable K.is_decodable V.is_decodable P.age) D.byte_at session.old.told.witness.me.0 session.new.told.witness.me.0 }
    {
        session.told.join(self.shared.history(), other.into_told());
    }

    // Writes what is queued, one batch of each flusher.
    #[tactic(auto, using(crate::proofs::HistoryLemmas::nil_is))]
    fn write_queued(&self, rt: &impl Wait) {
        let mut maintainer = lock_spinning(&self.maintainer, rt);
        for flusher in 0..self.settings.flushers {
            let _ = maintainer.flush(
                rt,
                &self.shared,
                &*self.keeper,
                &self.work,
                &self.alloc,
                flusher,
                0,
            );
        }
    }

    // Writes one batch of each flusher, if so much is queued that a piece isn't taken.
    #[tactic(auto, using(crate::proofs::HistoryLemmas::nil_is))]
    fn make_room(&self, rt: &impl Wait) {
        if self.shared.is_full(rt) {
            self.write_queued(rt);
        }
    }

    // Loads a hash once it is known that all its queued pieces have left their flusher. Until then, it writes what is queued.
    #[tactic(auto, using(crate::proofs::HistoryLemmas::nil_is, crate::proofs::HistoryLemmas::goes_self))]
    fn load_written(
        &self,
        rt: &impl Wait,
        session: &mut HistorySession<J, L, K, V, P, D>,
        hash: u64,
    ) -> Result<Reply<K, V, P, Global>>
        ensures put_last { IfOk result (λ answer. (key : K) (value : V) (age : _) → answer ≡ reply.Entry key value age
            → WasPutLast (meaning K.encoding V.encoding K.is_encodable V.is_encodable K.is_decodable V.is_decodable P.age) D.byte_at session.old.told.witness.me.0.seen session.new.told.witness.me.0.seen hash (content (meaning K.encoding V.encoding K.is_encodable V.is_encodable K.is_decodable V.is_decodable P.age) key value)) }
        ensures missed { IfOk result (λ answer. answer ≡ reply.Miss
            → WasMissedWritten (meaning K.encoding V.encoding K.is_encodable V.is_encodable K.is_decodable V.is_decodable P.age) D.byte_at session.old.told.witness.me.0.seen session.new.told.witness.me.0.seen hash) }
        ensures told { IfOk result (λ answer. HasLoaded (meaning K.encoding V.encoding K.is_encodable V.is_encodable K.is_decodable V.is_decodable P.age) D.byte_at false session.old.told.witness.me.0 session.new.told.witness.me.0 hash false answer) }
        ensures noted { IfOk result (λ answer. IsLoadNoted false session.old.told.session session.new.told.session hash false answer) }
        ensures replied { IfOk result (IsLoadReply false false) }
        ensures on { GoesOn (meaning K.encoding V.encoding K.is_encodable V.is_encodable K.is_decodable V.is_decodable P.age) D.byte_at session.old.told.witness.me.0 session.new.told.witness.me.0 }
        ensures parts { session.new.told.session.shares.parts ≡ session.old.told.session.shares.parts }
        ensures refused { IfErr result (λ e. (e ≡ Memory) × HasLookedOnly (meaning K.encoding V.encoding K.is_encodable V.is_encodable K.is_decodable V.is_decodable P.age) D.byte_at session.old.told.witness.me.0 session.new.told.witness.me.0 session.old.told.session session.new.told.session hash false) }
    {
        for _ in rt.forever() {
            let ended = self
                .shared
                .load_written(rt, &mut session.told, &self.alloc, hash, false);
            if let Some(ended) = ended {
                return ended;
            }
            self.write_queued(rt);
        }
        unreachable!()
    }

    // Queues a piece. If it is queued, it is put into a keeper's shard under the shard's next number.
    #[tactic(auto, using(crate::proofs::HistoryLemmas::nil_is))]
    fn enqueue_into(
        &self,
        rt: &impl Wait,
        session: &mut HistorySession<J, L, K, V, P, D>,
        shard: &mut Shard<K, V, P, Global>,
        piece: &Piece<K, V, P, Global>,
        size: usize,
    ) -> Result<Enqueued>
        ensures answer { IsEnqueued (meaning K.encoding V.encoding K.is_encodable V.is_encodable K.is_decodable V.is_decodable P.age) D.byte_at session.old.told.witness.me.0 session.new.told.witness.me.0 session.old.told.session session.new.told.session piece.now size result }
        ensures kept { IsKeptWhereQueued K.eq shard.old.map shard.new.map (reference_of piece.now (shard.old.last + 1)) result }
        ensures refused { IfErr result (λ e. is_draw_error e ≡ true) }
    {
        // For the prover alone: a hash has 64 bits.
        let _hash = piece.hash();
        let (piece, reserved) = shard.reserve(piece)?;
        let step = Step::Enqueue { piece, size };
        let (reply, _) = self.shared.ask(rt, &mut session.told, no_io(), step);
        put_where_queued(shard, reserved, &reply);
        enqueued_of(reply)
    }

    // The same under the lock of the shard that the piece's hash lies in.
    #[tactic(auto, using(crate::proofs::HistoryLemmas::nil_is))]
    fn enqueue_at(
        &self,
        rt: &impl Wait,
        session: &mut HistorySession<J, L, K, V, P, D>,
        shard: ShardOf<'_, K, V, P, Global>,
        piece: &Piece<K, V, P, Global>,
        size: usize,
    ) -> Result<Enqueued>
        requires { shard.hash ≡ piece.now.hash }
        ensures answer { IsEnqueued (meaning K.encoding V.encoding K.is_encodable V.is_encodable K.is_decodable V.is_decodable P.age) D.byte_at session.old.told.witness.me.0 session.new.told.witness.me.0 session.old.told.session session.new.told.session piece.now size result }
        ensures refused { IfErr result (λ e. is_draw_error e ≡ true) }
    {
        let lock = shard.lock();
        self.enqueue_into(rt, session, &mut lock_spinning(lock, rt), piece, size)
    }

    /// Queues a piece, and keeps it in this keeper if it is queued. If too much is queued, one batch of each flusher is written first.
    #[tactic(auto, using(crate::proofs::HistoryLemmas::nil_is))]
    pub fn enqueue_kept(
        &self,
        rt: &impl Wait,
        session: &mut HistorySession<J, L, K, V, P, D>,
        keeper: &Keeper<K, V, P, Global>,
        piece: &Piece<K, V, P, Global>,
        size: usize,
    ) -> Result<Enqueued>
        ensures answer { IsEnqueued (meaning K.encoding V.encoding K.is_encodable V.is_encodable K.is_decodable V.is_decodable P.age) D.byte_at session.old.told.witness.me.0 session.new.told.witness.me.0 session.old.told.session session.new.told.session piece.now size result }
        ensures refused { IfErr result (λ e. is_draw_error e ≡ true) }
    {
        self.make_room(rt);
        self.enqueue_at(rt, session, keeper.shard(piece.hash()), piece, size)
    }

    /// Accepts a delete of a hash. If too much is queued, one batch of each flusher is written first.
    #[tactic(auto, using(crate::proofs::HistoryLemmas::nil_is))]
    pub fn delete_hash(
        &self,
        rt: &impl Wait,
        session: &mut HistorySession<J, L, K, V, P, D>,
        hash: u64,
    ) -> Result<()>
        ensures answer { IsAnswerTo (meaning K.encoding V.encoding K.is_encodable V.is_encodable K.is_decodable V.is_decodable P.age) D.byte_at deleted_as session.old.told.witness.me.0 session.new.told.witness.me.0 session.old.told.session session.new.told.session (steps.Delete hash) result }
        ensures refused { IfErr result (λ e. is_draw_error e ≡ true) }
    {
        self.make_room(rt);
        let step = Step::Delete { hash };
        let (reply, _) = self.shared.ask(rt, &mut session.told, no_io(), step);
        deleted_of(reply)
    }

    // Accepts a delete of a hash, and then takes the hash's pieces out of a keeper's shard. If the delete is refused, they stay.
    #[tactic(auto, using(crate::proofs::HistoryLemmas::nil_is))]
    fn delete_from(
        &self,
        rt: &impl Wait,
        session: &mut HistorySession<J, L, K, V, P, D>,
        shard: &mut Shard<K, V, P, Global>,
        hash: u64,
    ) -> Result<()>
        ensures answer { IsAnswerTo (meaning K.encoding V.encoding K.is_encodable V.is_encodable K.is_decodable V.is_decodable P.age) D.byte_at deleted_as session.old.told.witness.me.0 session.new.told.witness.me.0 session.old.told.session session.new.told.session (steps.Delete hash) result }
        ensures removed { OnOk result (LosesHash K.eq shard.old.map shard.new.map hash) }
        ensures kept { OnErr result (HoldsSame K.eq shard.old.map shard.new.map) }
        ensures refused { IfErr result (λ e. is_draw_error e ≡ true) }
    {
        let delete = Step::Delete { hash };
        let (reply, _) = self.shared.ask(rt, &mut session.told, no_io(), delete);
        let deleted = deleted_of(reply);
        if deleted.is_ok() {
            shard.remove_hash(hash);
        }
        deleted
    }

    // The same under the lock of the shard that the hash lies in.
    #[tactic(auto, using(crate::proofs::HistoryLemmas::nil_is))]
    fn delete_at(
        &self,
        rt: &impl Wait,
        session: &mut HistorySession<J, L, K, V, P, D>,
        shard: ShardOf<'_, K, V, P, Global>,
        hash: u64,
    ) -> Result<()>
        requires { shard.hash ≡ hash }
        ensures answer { IsAnswerTo (meaning K.encoding V.encoding K.is_encodable V.is_encodable K.is_decodable V.is_decodable P.age) D.byte_at deleted_as session.old.told.witness.me.0 session.new.told.witness.me.0 session.old.told.session session.new.told.session (steps.Delete hash) result }
        ensures refused { IfErr result (λ e. is_draw_error e ≡ true) }
    {
        let lock = shard.lock();
        self.delete_from(rt, session, &mut lock_spinning(lock, rt), hash)
    }

    /// Accepts a delete of a hash, and takes the hash's pieces out of this keeper in the same hold of their shard's lock. If too much is
    /// queued, one batch of each flusher is written first.
    #[tactic(auto, using(crate::proofs::HistoryLemmas::nil_is))]
    pub fn delete_kept(
        &self,
        rt: &impl Wait,
        session: &mut HistorySession<J, L, K, V, P, D>,
        keeper: &Keeper<K, V, P, Global>,
        hash: u64,
    ) -> Result<()>
        ensures answer { IsAnswerTo (meaning K.encoding V.encoding K.is_encodable V.is_encodable K.is_decodable V.is_decodable P.age) D.byte_at deleted_as session.old.told.witness.me.0 session.new.told.witness.me.0 session.old.told.session session.new.told.session (steps.Delete hash) result }
        ensures refused { IfErr result (λ e. is_draw_error e ≡ true) }
    {
        self.make_room(rt);
        self.delete_at(rt, session, keeper.shard(hash), hash)
    }

    /// Whether the index has an address for a hash of which a keeper had no piece.
    #[tactic(auto, using(crate::proofs::HistoryLemmas::nil_is))]
    pub fn is_indexed(
        &self,
        rt: &impl Wait,
        session: &mut HistorySession<J, L, K, V, P, D>,
        lacking: NotKept,
    ) -> Result<bool>
        ensures answer { IsAnswerTo (meaning K.encoding V.encoding K.is_encodable V.is_encodable K.is_decodable V.is_decodable P.age) D.byte_at asked_as session.old.told.witness.me.0 session.new.told.witness.me.0 session.old.told.session session.new.told.session (steps.MayContains lacking.hash) result }
        ensures refused { IfErr result (λ e. is_question_error false e ≡ true) }
    {
        let step = Step::MayContains {
            hash: lacking.hash(),
        };
        let (reply, _) = self.shared.ask(rt, &mut session.told, no_io(), step);
        answer_of(reply)
    }

    /// Loads a hash of which a keeper had no piece, once it is known that all its queued pieces were written or given up. An entry was put
    /// last under its hash at a moment of the call, in the one history of all threads: it was the newest put, and no queued piece was
    /// newer, unless a batch had failed since or a destroy had cleared the index. A miss has its cause there. The session makes a look-up,
    /// and its end if it read, and no other step.
    #[tactic(auto, using(crate::proofs::HistoryLemmas::nil_is))]
    pub fn load_newest(
        &self,
        rt: &impl Wait,
        session: &mut HistorySession<J, L, K, V, P, D>,
        lacking: NotKept,
    ) -> Result<Load<K, V, P, Global>>
        ensures newest { IsNewestLoad (meaning K.encoding V.encoding K.is_encodable V.is_encodable K.is_decodable V.is_decodable P.age) D.byte_at session.old.told.witness.me.0 session.new.told.witness.me.0 session.old.told.session session.new.told.session lacking.hash result }
        ensures on { GoesOn (meaning K.encoding V.encoding K.is_encodable V.is_encodable K.is_decodable V.is_decodable P.age) D.byte_at session.old.told.witness.me.0 session.new.told.witness.me.0 }
        ensures refused { IfErr result (λ e. is_load_error e ≡ true) }
    {
        let reply = self.load_written(rt, session, lacking.hash())?;
        load_of(reply)
    }
}
