//! The store: a keeper of the pieces that aren't written yet, in front of an engine.
ghost use Rattle.std.specs.Arc.{arc_value};
ghost use Rattle.std.specs.declared.alloc.Global.{Global};
ghost use Rattle.std.specs.Prelude.{◌≡◌, ◌⊎◌, ◌<◌, ℕ, Result, Ok, Err, true, false, IfErr, IfOk, IsOkUnless};
ghost use Rattle.foyer_policy_piece.specs.Record.{record_of};
ghost use Rattle.foyer_device_page.specs.declared.error.Error.{Error};
ghost use Rattle.foyer_device_page.specs.declared.error.Error.TheVariants as error;
ghost use Rattle.foyer_storage_engine.specs.Answering.{is_draw_error, is_load_error, is_question_error};
ghost use Rattle.foyer_storage_engine.specs.declared.load.Load.{Load};
ghost use Rattle.foyer_storage_store.specs.Storing.{IsDecided, IsEstimated, IsKept, IsStored};

use crate::calls::{DeviceSummary, Engine};
use crate::counters::{AbandonedPuts, CallCounters, StoreCounters, abandoned_of};
use foyer_device_page::error::Result;
use foyer_device_statistics::{IoState, Statistics};
use foyer_device_throttle::Throttle;
use foyer_format_record::serde::{Code, EntrySerializer, HashBuilder};
use foyer_policy_filter::StorageFilterResult;
use foyer_policy_keeper::keeper::Keeper;
use foyer_policy_piece::keeper::Piece;
use foyer_storage_engine::engine::Enqueued;
use foyer_storage_engine::load::{Load, decide_load};
use std::alloc::{AllocError, Global};
use std::fmt;
use std::fmt::{Debug, Formatter};
use std::sync::{Arc, Wait};

// What the clones of a store share.
struct Inner<N: Drop, K: Eq, V, P, H: Drop> {
    name: &'static str,
    hasher: H,
    is_enabled: bool,
    keeper: Arc<Keeper<K, V, P, Global>, Global>,
    engine: N,
    statistics: Arc<Statistics<Global>, Global>,
    throttle: Throttle,
    calls: CallCounters,
}

// Written out, so that it is proved once.
impl<N: Drop, K: Eq + Drop, V: Drop, P: Drop, H: Drop> Drop for Inner<N, K, V, P, H> {
    fn drop(self) {
        let Inner {
            name: _,
            hasher: _,
            is_enabled: _,
            keeper: _,
            engine: _,
            statistics: _,
            throttle: _,
            calls: _,
        } = self;
    }
}

/// A store. Its clones are the same store; threads may share one by reference as well, each with a session of its own.
pub struct Store<N: Drop, K: Eq, V, P, H: Drop> {
    shared: Arc<Inner<N, K, V, P, H>, Global>,
}

// Written out, so that it is proved once.
impl<N: Drop, K: Eq + Drop, V: Drop, P: Drop, H: Drop> Drop for Store<N, K, V, P, H> {
    fn drop(self) {
        let Store { shared: _ } = self;
    }
}

/// The type's name.
impl<N: Drop, K: Eq, V, P, H: Drop> Debug for Store<N, K, V, P, H> {
    fn fmt<W: fmt::Write>(&self, f: &mut Formatter<W>) -> fmt::Result {
        f.write_str("Store")
    }
}

/// A clone is the same store. It fails with AllocError only if there are 2^63 - 1 clones.
impl<N: Drop, K: Eq + Drop, V: Drop, P: Drop, H: Drop> Clone for Store<N, K, V, P, H> {
    ghost is_clone = { λ store clone. arc_value clone.shared ≡ arc_value store.shared };

    fn clone(&self) -> std::result::Result<Store<N, K, V, P, H>, AllocError> {
        Ok(Store {
            shared: Arc::try_clone(&self.shared)?,
        })
    }
}

impl<N: Drop, K: Eq + Drop, V: Drop, P: Drop, H: Drop> Store<N, K, V, P, H> {
    /// Makes a store over an engine that was built, with the keeper of the engine's pieces. Errors: `Memory`.
    pub fn new(
        alloc: Global,
        name: &'static str,
        hasher: H,
        is_enabled: bool,
        keeper: Arc<Keeper<K, V, P, Global>, Global>,
        engine: N,
        statistics: Arc<Statistics<Global>, Global>,
        throttle: Throttle,
    ) -> Result<Store<N, K, V, P, H>>
        ensures given { IfOk result (λ store. ((arc_value store.shared).name.now ≡ name.now) × ((arc_value store.shared).hasher ≡ hasher)
            × ((arc_value store.shared).is_enabled ≡ is_enabled) × ((arc_value store.shared).keeper ≡ keeper)) }
        ensures engine { IfOk result (λ store. ((arc_value store.shared).engine ≡ engine) × ((arc_value store.shared).statistics ≡ statistics)
            × ((arc_value store.shared).throttle ≡ throttle)) }
        ensures refused { IsOkUnless result error.Memory }
    {
        let calls = CallCounters::new(alloc)?;
        let inner = Inner {
            name,
            hasher,
            is_enabled,
            keeper,
            engine,
            statistics,
            throttle,
            calls,
        };
        Ok(Store {
            shared: Arc::new(alloc, inner)?,
        })
    }

    /// Its name.
    pub fn name(&self) -> &'static str
        ensures { result ≡ (arc_value self.now.shared).name }
    {
        self.shared.name
    }

    /// Whether it keeps anything.
    pub fn is_enabled(&self) -> bool
        ensures { result ≡ (arc_value self.now.shared).is_enabled }
    {
        self.shared.is_enabled
    }

    /// The counters of its device. If the store has several cores, they are those of the first core's device.
    pub fn statistics(&self) -> &Statistics<Global>
        ensures { result.now ≡ arc_value (arc_value self.now.shared).statistics }
    {
        &self.shared.statistics
    }

    /// The limits of its device. If the store has several cores, they are those of the first core's device.
    pub fn throttle(&self) -> Throttle
        ensures { result ≡ (arc_value self.now.shared).throttle }
    {
        self.shared.throttle
    }

    /// How many bytes an entry is estimated to take: those of both encodings together, saturating. If key or value can't be encoded, it
    /// may be any number.
    pub fn entry_estimated_size(&self, key: &K, value: &V) -> usize
    where
        K: Code<Global>,
        V: Code<Global>,
        ensures { IsEstimated (V.is_encodable value.now) (V.encoding value.now) (K.is_encodable key.now) (K.encoding key.now) result }
    {
        EntrySerializer::estimated_size::<Global, K, V>(key, value)
    }

    /// What its device has.
    pub fn device<S: Drop>(&self) -> DeviceSummary
    where
        N: Engine<S, K, V, P>,
        ensures { result ≡ N.summary (arc_value self.now.shared).engine }
    {
        self.shared.engine.device()
    }

    /// The counters of its device, and how long its limits make callers wait at a moment in nanoseconds.
    pub fn io_state<S: Drop>(&self, rt: &impl Wait, now: u64) -> IoState
    where
        N: Engine<S, K, V, P>,
    {
        self.shared.engine.io_state(rt, now)
    }

    /// What it did since it was built, for all its callers, at a moment in nanoseconds. No clause says what these numbers are; a session's
    /// `tally` is exact.
    pub fn counters<S: Drop>(&self, rt: &impl Wait, now: u64) -> StoreCounters
    where
        N: Engine<S, K, V, P>,
    {
        let io = self.shared.engine.io_state(rt, now);
        let work = self.shared.engine.work(rt, 0);
        self.shared.calls.with(&io, work.counts)
    }

    /// Which puts were queued and then abandoned since the store was built. A put is counted before the wait that covers it ends. No clause
    /// says what these numbers are.
    pub fn abandoned<S: Drop>(&self, rt: &impl Wait) -> AbandonedPuts
    where
        N: Engine<S, K, V, P>,
    {
        abandoned_of(&self.shared.engine.work(rt, 0).counts)
    }

    /// Whether a put of this key would find room in the queue now. If it finds none, the put isn't taken, and its key is deleted. So a
    /// caller that is alone may look before a put, and wait. No clause says what it answers.
    pub fn has_room<S: Drop>(&self, rt: &impl Wait, key: &K) -> bool
    where
        N: Engine<S, K, V, P>,
        H: HashBuilder<K>,
    {
        let hash = self.shared.hasher.hash_one(key);
        self.shared.engine.work(rt, hash).has_room
    }

    /// The hash of a key.
    pub fn hash_of(&self, key: &K) -> u64
    where
        H: HashBuilder<K>,
        ensures { result ≡ H.hash_of (arc_value self.now.shared).hasher key.now }
    {
        self.shared.hasher.hash_one(key)
    }

    /// Makes a piece of a key, with its hash. Errors: `Memory`. Then key, value and properties are dropped.
    pub fn piece(
        &self,
        alloc: Global,
        key: K,
        value: V,
        properties: P,
    ) -> Result<Piece<K, V, P, Global>>
    where
        H: HashBuilder<K>,
        ensures ok { IfOk result (λ piece. piece ≡ record_of key value (H.hash_of (arc_value self.now.shared).hasher key) properties) }
        ensures refused { IfErr result (λ e. e ≡ error.Memory) }
    {
        let hash = self.shared.hasher.hash_one(&key);
        Piece::new(alloc, key, value, hash, properties)
    }

    /// Puts a value under a key, with its properties, at a moment in nanoseconds, as `enqueue` does with a piece that isn't forced.
    /// Errors: `Closed`, `Memory` and `SequenceEnd`, which leave the store as it was.
    pub fn put<S: Drop>(
        &self,
        rt: &impl Wait,
        alloc: Global,
        session: &mut S,
        key: K,
        value: V,
        properties: P,
        now: u64,
    ) -> Result<Enqueued>
    where
        N: Engine<S, K, V, P>,
        K: Code<Global>,
        V: Code<Global>,
        H: HashBuilder<K>,
        ensures answered { ((result ≡ Err error.Memory) × (session.new ≡ session.old))
            ⊎ ((size : ℕ) × IsEstimated (V.is_encodable value) (V.encoding value) (K.is_encodable key) (K.encoding key) size × IsStored
            (N.may_judge (arc_value self.now.shared).engine (H.hash_of (arc_value self.now.shared).hasher key) size)
            (N.may_enqueue (arc_value self.now.shared).engine session.old session.new (record_of key value (H.hash_of (arc_value self.now.shared).hasher key) properties) size)
            (N.may_delete (arc_value self.now.shared).engine session.old session.new (H.hash_of (arc_value self.now.shared).hasher key)) false result) }
        ensures refused { IfErr result (λ e. is_draw_error e ≡ true) }
    {
        let piece = self.piece(alloc, key, value, properties)?;
        self.enqueue(rt, session, &piece, false, now)
    }

    /// What the admission filter and a limit of writes say of a key and an estimated size in bytes, at a moment in nanoseconds.
    pub fn filter<S: Drop>(
        &self,
        rt: &impl Wait,
        key: &K,
        size: usize,
        now: u64,
    ) -> StorageFilterResult
    where
        N: Engine<S, K, V, P>,
        H: HashBuilder<K>,
        ensures { N.may_judge (arc_value self.now.shared).engine (H.hash_of (arc_value self.now.shared).hasher key.now) size result }
    {
        let hash = self.shared.hasher.hash_one(key);
        self.shared.engine.filter(rt, hash, size, now)
    }

    /// Puts a piece, whose hash must be the hasher's of its key, as `piece` makes it. If it is forced, or the admission filter and the
    /// limits of writes admit it, it goes to the engine; else its key is deleted. The engine queues it, ignores it if it is young, or
    /// deletes its key if too much is queued. A queued piece is kept until it is written or given up. A piece that isn't queued isn't
    /// kept, and replaces none that is. Errors: `Closed`, `Memory` and `SequenceEnd`, which leave the store as it was.
    pub fn enqueue<S: Drop>(
        &self,
        rt: &impl Wait,
        session: &mut S,
        piece: &Piece<K, V, P, Global>,
        force: bool,
        now: u64,
    ) -> Result<Enqueued>
    where
        N: Engine<S, K, V, P>,
        K: Code<Global>,
        V: Code<Global>,
        H: HashBuilder<K>,
        requires own { piece.now.hash ≡ H.hash_of (arc_value self.now.shared).hasher piece.now.key }
        ensures answered { (size : ℕ) × IsEstimated (V.is_encodable piece.now.value) (V.encoding piece.now.value) (K.is_encodable piece.now.key) (K.encoding piece.now.key) size × IsStored
            (N.may_judge (arc_value self.now.shared).engine piece.now.hash size)
            (N.may_enqueue (arc_value self.now.shared).engine session.old session.new piece.now size)
            (N.may_delete (arc_value self.now.shared).engine session.old session.new piece.now.hash) force result }
        ensures refused { IfErr result (λ e. is_draw_error e ≡ true) }
    {
        let inner = &self.shared;
        let size = EntrySerializer::estimated_size::<Global, K, V>(piece.key(), piece.value());
        if force
            || inner
                .engine
                .filter(rt, piece.hash(), size, now)
                .is_admitted()
        {
            let enqueued = inner
                .engine
                .enqueue(rt, session, &inner.keeper, piece, size)?;
            inner.calls.add_put(piece.hash(), enqueued);
            return Ok(enqueued);
        }
        inner
            .engine
            .delete(rt, session, &inner.keeper, piece.hash(), false)?;
        inner.calls.add_rejected(piece.hash());
        Ok(Enqueued::Deleted)
    }

    /// Loads a key, at a moment in nanoseconds: gives the keeper's piece, else what the engine reads. An entry of another key is a miss.
    /// If a limit of reads is used up, it may be `Throttled`. Errors: `Io` if the read failed; `Memory` if memory is refused; `Parse` and
    /// `Unsupported` if the entry isn't readable; `SequenceEnd` if no step is left.
    pub fn load<S: Drop>(
        &self,
        rt: &impl Wait,
        session: &mut S,
        key: &K,
        now: u64,
    ) -> Result<Load<K, V, P, Global>>
    where
        N: Engine<S, K, V, P>,
        H: HashBuilder<K>,
        ensures answered { ((session.new ≡ session.old) × IsKept K.eq key.now result)
            ⊎ ((answer : Result (Load K V P Global) Error)
            × N.may_load (arc_value self.now.shared).engine session.old session.new (H.hash_of (arc_value self.now.shared).hasher key.now) answer
            × IsDecided K.eq key.now answer result) }
        ensures refused { IfErr result (λ e. is_load_error e ≡ true) }
    {
        let inner = &self.shared;
        let hash = inner.hasher.hash_one(key);
        let lacking = match inner.keeper.get(rt, hash, key)? {
            Ok(piece) => {
                let answer = decide_load(key, Some(piece), Load::Miss);
                inner.calls.add_load(hash, &answer);
                return Ok(answer);
            }
            Err(lacking) => lacking,
        };
        let read = inner.engine.load(rt, session, lacking, now)?;
        let answer = decide_load(key, None, read);
        inner.calls.add_load(hash, &answer);
        Ok(answer)
    }

    /// Deletes a key. If the keeper has a piece of the key, loads answer this piece until it is written or given up. Errors: `Closed`,
    /// `Memory` and `SequenceEnd`, which leave the store as it was.
    pub fn delete<S: Drop>(&self, rt: &impl Wait, session: &mut S, key: &K) -> Result<()>
    where
        N: Engine<S, K, V, P>,
        H: HashBuilder<K>,
        ensures answered { N.may_delete (arc_value self.now.shared).engine session.old session.new (H.hash_of (arc_value self.now.shared).hasher key.now) result }
        ensures refused { IfErr result (λ e. is_draw_error e ≡ true) }
    {
        let inner = &self.shared;
        let hash = inner.hasher.hash_one(key);
        let deleted = inner.engine.delete(rt, session, &inner.keeper, hash, false);
        if deleted.is_ok() {
            inner.calls.add_delete(hash);
        }
        deleted
    }

    /// Deletes a key at once. As `delete`, and in the same hold of the lock of the keeper's shard it takes the pieces of the key's hash out
    /// of the keeper. So a load that begins later answers no piece that was queued before. Errors: `Closed`, `Memory` and `SequenceEnd`,
    /// which leave the store as it was.
    pub fn remove<S: Drop>(&self, rt: &impl Wait, session: &mut S, key: &K) -> Result<()>
    where
        N: Engine<S, K, V, P>,
        H: HashBuilder<K>,
        ensures answered { N.may_delete (arc_value self.now.shared).engine session.old session.new (H.hash_of (arc_value self.now.shared).hasher key.now) result }
        ensures refused { IfErr result (λ e. is_draw_error e ≡ true) }
    {
        let inner = &self.shared;
        let hash = inner.hasher.hash_one(key);
        let removed = inner.engine.delete(rt, session, &inner.keeper, hash, true);
        if removed.is_ok() {
            inner.calls.add_delete(hash);
        }
        removed
    }

    /// Says whether the keeper has the key, or the engine has its hash. Errors: `SequenceEnd` if no step is left.
    pub fn may_contains<S: Drop>(&self, rt: &impl Wait, session: &mut S, key: &K) -> Result<bool>
    where
        N: Engine<S, K, V, P>,
        H: HashBuilder<K>,
        ensures answered { ((session.new ≡ session.old) × (result ≡ Ok true))
            ⊎ N.may_ask (arc_value self.now.shared).engine session.old session.new (H.hash_of (arc_value self.now.shared).hasher key.now) result }
        ensures refused { IfErr result (λ e. is_question_error false e ≡ true) }
    {
        let hash = self.shared.hasher.hash_one(key);
        match self.shared.keeper.lacks(rt, hash, key) {
            Some(lacking) => self.shared.engine.may_contains(rt, session, lacking),
            None => Ok(true),
        }
    }

    /// Destroys all entries: if it is `Ok`, what was put before is gone, on the device too. What is put meanwhile may be gone as well. It
    /// ends only once nothing is queued at some moment, so other threads shouldn't put without a pause.
    /// Errors of a store over a device: `Closed`, `Memory` if memory is refused before it has begun, and `SequenceEnd`. `Io` or `Memory`
    /// is also the error of the first clean that failed. Then the index is clear, and a clean of every block was tried.
    pub fn destroy<S: Drop>(&self, rt: &impl Wait, session: &mut S) -> Result<()>
    where
        N: Engine<S, K, V, P>,
        ensures { N.may_destroy (arc_value self.now.shared).engine session.old session.new result }
    {
        self.shared.engine.destroy(rt, session)
    }

    /// Waits until all that was queued before is written or given up, and no reclaim runs. A store over a device waits for nothing once
    /// its workers were joined. Its errors are `Memory`, and `SequenceEnd` if no step is left.
    pub fn wait<S: Drop>(&self, rt: &impl Wait, session: &mut S) -> Result<()>
    where
        N: Engine<S, K, V, P>,
        ensures { N.may_wait (arc_value self.now.shared).engine session.old session.new result }
    {
        self.shared.engine.wait(rt, session)
    }

    /// Takes no more enqueues, deletes and destroys, and waits as `wait` does. Loads still work. Errors: those of `wait`. If only the
    /// wait failed, the store is closed.
    pub fn close<S: Drop>(&self, rt: &impl Wait, session: &mut S) -> Result<()>
    where
        N: Engine<S, K, V, P>,
        ensures { N.may_close (arc_value self.now.shared).engine session.old session.new result }
    {
        self.shared.engine.close(rt, session)
    }
}
