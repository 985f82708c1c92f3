//! Puts, loads, deletes and questions.
ghost use Rattle.std.specs.Prelude.{◌≡◌, ◌≤◌, ℕ, false, true, IfOk, IfErr};
ghost use Rattle.foyer_device_page.specs.declared.error.Error.TheVariants.{Memory};
ghost use Rattle.foyer_io_disk.specs.Disk.{SurelyCame};
ghost use Rattle.foyer_policy_piece.specs.Record.{record_of};
ghost use Rattle.foyer_core_laws.specs.Content.{meaning};
ghost use Rattle.foyer_core_run.specs.Driven.{Drives};
ghost use Rattle.foyer_storage_local.specs.EntryCalls.{IsEnqueuedOrRefused, IsHashAsked, IsHashDeleted, IsHashLoadedOrRefused, IsHashMissedForCause, IsIoForCause, IsKeyLoaded, IsKeyMissedForCause, IsNewestOfHash, IsNewestOfKey, IsPieceEnqueued, IsRefusedOnlyAs, IsThrottledIfSaid};
ghost use Rattle.foyer_storage_local.specs.StepAnswers.{is_draw_error, is_load_error, is_question_error};

use crate::engine::{LocalEngine, MarkLog};
use crate::load::{Enqueued, Load, answer_of_key};
use crate::replies::{answer_contains, answer_delete, answer_enqueue, answer_load};
use foyer_block_manager::block::eviction::EvictionPicker;
use foyer_core_run::accesses::{load, step};
use foyer_core_steps::step::Step;
use foyer_device_page::error::{Error, Result};
use foyer_format_record::serde::{Code, EntrySerializer, HashBuilder, Properties};
use foyer_io_disk::disk::Disk;
use foyer_policy_filter::StorageFilterCondition;
use foyer_policy_piece::keeper::{Piece, PieceRef};
use std::alloc::Allocator;

impl<K, V, P, H, A, D, L, E, C> LocalEngine<K, V, P, H, A, D, L, E, C>
where
    K: Code<A> + Eq + Drop,
    V: Code<A> + Drop,
    P: Properties + Drop,
    H: HashBuilder<K> + Drop,
    A: Allocator + Clone,
    D: Disk + Drop,
    L: MarkLog + Drop,
    E: EvictionPicker,
    C: StorageFilterCondition,
{
    /// The hash of a key.
    pub fn hash_of(&self, key: &K) -> u64
        ensures { result ≡ H.hash_of self.now.hasher key.now }
    {
        self.hasher.hash_one(key)
    }

    /// Makes a piece of a key, with the key's hash. Errors: `Memory` alone. Key, value and properties are dropped then.
    pub fn piece(&self, key: K, value: V, properties: P) -> Result<Piece<K, V, P, A>>
        ensures ok { IfOk result (λ piece. piece ≡ record_of key value (H.hash_of self.now.hasher key) properties) }
        ensures refused { IfErr result (λ e. e ≡ Memory) }
    {
        let hash = self.hasher.hash_one(&key);
        Piece::new(self.alloc.clone()?, key, value, hash, properties)
    }

    /// Queues a piece. Its hash should be the one of its key (`LocalEngine::piece`): under another hash no load of the key finds it. A
    /// piece that isn't taken is dropped. Errors: `Closed`, `Memory` and `SequenceEnd`, which leave the engine as it was.
    pub fn enqueue(&mut self, piece: Piece<K, V, P, A>) -> Result<Enqueued>
        ensures waits { self.new.next_wait ≡ self.old.next_wait }
        ensures lent { (self.new.env.reinsertion ≡ self.old.env.reinsertion) × (self.new.env.io ≡ self.old.env.io) }
        ensures hasher { self.new.hasher ≡ self.old.hasher }
        ensures disk { self.new.disk ≡ self.old.disk }
        ensures says { IsPieceEnqueued
            (meaning K.encoding V.encoding K.is_encodable V.is_encodable K.is_decodable V.is_decodable P.age)
            piece self.old.core self.new.core (D.byte_at self.old.disk) (D.byte_at self.new.disk) result }
        ensures driven { Drives
            (meaning K.encoding V.encoding K.is_encodable V.is_encodable K.is_decodable V.is_decodable P.age)
            self.old.core self.new.core (D.byte_at self.old.disk) (D.byte_at self.new.disk) }
        ensures refused { IsRefusedOnlyAs
            (meaning K.encoding V.encoding K.is_encodable V.is_encodable K.is_decodable V.is_decodable P.age)
            is_draw_error self.old.core result }
    {
        let size = EntrySerializer::estimated_size::<A, K, V>(piece.key(), piece.value());
        // So contracts see that the hash has 64 bits.
        let _ = piece.hash();
        let piece = PieceRef::from(piece);
        answer_enqueue(step(&mut self.core, &mut self.env, Step::Enqueue { piece, size }))
    }

    /// Queues a value under a key, with its properties. If they aren't taken, they are dropped. Errors: `Closed`, `Memory` and
    /// `SequenceEnd`, which leave the engine as it was.
    pub fn put(&mut self, key: K, value: V, properties: P) -> Result<Enqueued>
        ensures waits { self.new.next_wait ≡ self.old.next_wait }
        ensures lent { (self.new.env.reinsertion ≡ self.old.env.reinsertion) × (self.new.env.io ≡ self.old.env.io) }
        ensures hasher { self.new.hasher ≡ self.old.hasher }
        ensures disk { self.new.disk ≡ self.old.disk }
        ensures says { IsEnqueuedOrRefused
            (meaning K.encoding V.encoding K.is_encodable V.is_encodable K.is_decodable V.is_decodable P.age)
            (record_of key value (H.hash_of self.old.hasher key) properties)
            self.old.core self.new.core (D.byte_at self.old.disk) (D.byte_at self.new.disk) result }
        ensures driven { Drives
            (meaning K.encoding V.encoding K.is_encodable V.is_encodable K.is_decodable V.is_decodable P.age)
            self.old.core self.new.core (D.byte_at self.old.disk) (D.byte_at self.new.disk) }
        ensures refused { IsRefusedOnlyAs
            (meaning K.encoding V.encoding K.is_encodable V.is_encodable K.is_decodable V.is_decodable P.age)
            is_draw_error self.old.core result }
    {
        match self.piece(key, value, properties) {
            Ok(piece) => self.enqueue(piece),
            Err(error) => Err(error),
        }
    }

    /// Gives the newest value of a key that is written. What is queued isn't answered before a wait, a close or a destroy has written it.
    /// If the newest written event of the hash is a put of the key, the call answers that put, `Io` for a failed read, or `Memory`. The
    /// exceptions: a reclaim of its block began since, a destroy cleared the index, or fewer than two of 2^64 - 1 steps are left. If the
    /// newest event is a put of another key of the same hash, the answer is a miss. A record that an opening found may be damaged. Then the
    /// answer is a miss, or `Parse` if its key or value doesn't decode, or `Unsupported`. `Io` is answered only if the index has an address
    /// of the hash, and the read at that address may have failed. `SequenceEnd` is answered if no step is left.
    pub fn get(&mut self, key: &K) -> Result<Load<K, V>>
        ensures waits { self.new.next_wait ≡ self.old.next_wait }
        ensures lent { (self.new.env.reinsertion ≡ self.old.env.reinsertion) × (self.new.env.io ≡ self.old.env.io) }
        ensures hasher { self.new.hasher ≡ self.old.hasher }
        ensures newest { D.is_known self.old.disk → IsNewestOfKey
            (meaning K.encoding V.encoding K.is_encodable V.is_encodable K.is_decodable V.is_decodable P.age)
            K.eq key.now (H.hash_of self.old.hasher key.now) self.old.core (D.byte_at self.old.disk) result }
        ensures missed { D.is_known self.old.disk → IsKeyMissedForCause
            (meaning K.encoding V.encoding K.is_encodable V.is_encodable K.is_decodable V.is_decodable P.age)
            K.eq key.now (H.hash_of self.old.hasher key.now) self.old.core (D.byte_at self.old.disk) result }
        ensures known { D.is_known self.old.disk → D.is_known self.new.disk }
        ensures says { D.is_known self.old.disk → IsKeyLoaded
            (meaning K.encoding V.encoding K.is_encodable V.is_encodable K.is_decodable V.is_decodable P.age)
            K.eq key.now (H.hash_of self.old.hasher key.now) false self.old.core self.new.core
            (D.byte_at self.old.disk) (D.byte_at self.new.disk) result }
        ensures driven { D.is_known self.old.disk → Drives
            (meaning K.encoding V.encoding K.is_encodable V.is_encodable K.is_decodable V.is_decodable P.age)
            self.old.core self.new.core (D.byte_at self.old.disk) (D.byte_at self.new.disk) }
        ensures honest { IsIoForCause
            (meaning K.encoding V.encoding K.is_encodable V.is_encodable K.is_decodable V.is_decodable P.age)
            (H.hash_of self.old.hasher key.now) (SurelyCame (D.surely_has self.old.disk) (D.surely_lies self.old.disk) (D.faults self.old.disk) (D.faults self.new.disk))
            self.old.core result }
        ensures refused { D.is_known self.old.disk → IsRefusedOnlyAs
            (meaning K.encoding V.encoding K.is_encodable V.is_encodable K.is_decodable V.is_decodable P.age)
            is_load_error self.old.core result }
        ensures has { (b o n : ℕ) → D.surely_has self.old.disk b o n → D.surely_has self.new.disk b o n }
        ensures lies { (b o n : ℕ) → D.surely_lies self.old.disk b o n → D.surely_lies self.new.disk b o n }
        ensures counted { D.faults self.old.disk ≤ D.faults self.new.disk }
        ensures same { D.byte_at self.new.disk ≡ D.byte_at self.old.disk }
    {
        self.load(key, false)
    }

    /// Loads a key as `get` does. The caller says whether the device is throttled. If it is, a key whose hash has an entry is answered
    /// `Throttled`, and nothing is read. Errors: those of `get`.
    pub fn load(&mut self, key: &K, throttled: bool) -> Result<Load<K, V>>
        ensures waits { self.new.next_wait ≡ self.old.next_wait }
        ensures lent { (self.new.env.reinsertion ≡ self.old.env.reinsertion) × (self.new.env.io ≡ self.old.env.io) }
        ensures hasher { self.new.hasher ≡ self.old.hasher }
        ensures newest { D.is_known self.old.disk → IsNewestOfKey
            (meaning K.encoding V.encoding K.is_encodable V.is_encodable K.is_decodable V.is_decodable P.age)
            K.eq key.now (H.hash_of self.old.hasher key.now) self.old.core (D.byte_at self.old.disk) result }
        ensures missed { D.is_known self.old.disk → throttled ≡ false → IsKeyMissedForCause
            (meaning K.encoding V.encoding K.is_encodable V.is_encodable K.is_decodable V.is_decodable P.age)
            K.eq key.now (H.hash_of self.old.hasher key.now) self.old.core (D.byte_at self.old.disk) result }
        ensures unread { throttled ≡ true → self.new.disk ≡ self.old.disk }
        ensures throttled { D.is_known self.old.disk → IsThrottledIfSaid
            (meaning K.encoding V.encoding K.is_encodable V.is_encodable K.is_decodable V.is_decodable P.age)
            throttled self.old.core (D.byte_at self.old.disk) result }
        ensures known { D.is_known self.old.disk → D.is_known self.new.disk }
        ensures says { D.is_known self.old.disk → IsKeyLoaded
            (meaning K.encoding V.encoding K.is_encodable V.is_encodable K.is_decodable V.is_decodable P.age)
            K.eq key.now (H.hash_of self.old.hasher key.now) throttled self.old.core self.new.core
            (D.byte_at self.old.disk) (D.byte_at self.new.disk) result }
        ensures driven { D.is_known self.old.disk → Drives
            (meaning K.encoding V.encoding K.is_encodable V.is_encodable K.is_decodable V.is_decodable P.age)
            self.old.core self.new.core (D.byte_at self.old.disk) (D.byte_at self.new.disk) }
        ensures honest { IsIoForCause
            (meaning K.encoding V.encoding K.is_encodable V.is_encodable K.is_decodable V.is_decodable P.age)
            (H.hash_of self.old.hasher key.now) (SurelyCame (D.surely_has self.old.disk) (D.surely_lies self.old.disk) (D.faults self.old.disk) (D.faults self.new.disk))
            self.old.core result }
        ensures refused { D.is_known self.old.disk → IsRefusedOnlyAs
            (meaning K.encoding V.encoding K.is_encodable V.is_encodable K.is_decodable V.is_decodable P.age)
            is_load_error self.old.core result }
        ensures has { (b o n : ℕ) → D.surely_has self.old.disk b o n → D.surely_has self.new.disk b o n }
        ensures lies { (b o n : ℕ) → D.surely_lies self.old.disk b o n → D.surely_lies self.new.disk b o n }
        ensures counted { D.faults self.old.disk ≤ D.faults self.new.disk }
        ensures same { D.byte_at self.new.disk ≡ D.byte_at self.old.disk }
    {
        let hash = self.hasher.hash_one(key);
        match self.load_hash(hash, throttled) {
            Ok(found) => Ok(answer_of_key(key, found)),
            Err(error) => Err(error),
        }
    }

    /// Gives what a hash has, as `load` answers it, whichever key its entry has.
    pub fn load_hash(&mut self, hash: u64, throttled: bool) -> Result<Load<K, V>>
        ensures waits { self.new.next_wait ≡ self.old.next_wait }
        ensures lent { (self.new.env.reinsertion ≡ self.old.env.reinsertion) × (self.new.env.io ≡ self.old.env.io) }
        ensures hasher { self.new.hasher ≡ self.old.hasher }
        ensures newest { D.is_known self.old.disk → IsNewestOfHash
            (meaning K.encoding V.encoding K.is_encodable V.is_encodable K.is_decodable V.is_decodable P.age)
            hash self.old.core (D.byte_at self.old.disk) result }
        ensures missed { D.is_known self.old.disk → throttled ≡ false → IsHashMissedForCause
            (meaning K.encoding V.encoding K.is_encodable V.is_encodable K.is_decodable V.is_decodable P.age)
            hash self.old.core (D.byte_at self.old.disk) result }
        ensures unread { throttled ≡ true → self.new.disk ≡ self.old.disk }
        ensures throttled { D.is_known self.old.disk → IsThrottledIfSaid
            (meaning K.encoding V.encoding K.is_encodable V.is_encodable K.is_decodable V.is_decodable P.age)
            throttled self.old.core (D.byte_at self.old.disk) result }
        ensures known { D.is_known self.old.disk → D.is_known self.new.disk }
        ensures says { D.is_known self.old.disk → IsHashLoadedOrRefused
            (meaning K.encoding V.encoding K.is_encodable V.is_encodable K.is_decodable V.is_decodable P.age)
            hash throttled self.old.core self.new.core (D.byte_at self.old.disk) (D.byte_at self.new.disk) result }
        ensures driven { D.is_known self.old.disk → Drives
            (meaning K.encoding V.encoding K.is_encodable V.is_encodable K.is_decodable V.is_decodable P.age)
            self.old.core self.new.core (D.byte_at self.old.disk) (D.byte_at self.new.disk) }
        ensures honest { IsIoForCause
            (meaning K.encoding V.encoding K.is_encodable V.is_encodable K.is_decodable V.is_decodable P.age)
            hash (SurelyCame (D.surely_has self.old.disk) (D.surely_lies self.old.disk) (D.faults self.old.disk) (D.faults self.new.disk))
            self.old.core result }
        ensures refused { D.is_known self.old.disk → IsRefusedOnlyAs
            (meaning K.encoding V.encoding K.is_encodable V.is_encodable K.is_decodable V.is_decodable P.age)
            is_load_error self.old.core result }
        ensures has { (b o n : ℕ) → D.surely_has self.old.disk b o n → D.surely_has self.new.disk b o n }
        ensures lies { (b o n : ℕ) → D.surely_lies self.old.disk b o n → D.surely_lies self.new.disk b o n }
        ensures counted { D.faults self.old.disk ≤ D.faults self.new.disk }
        ensures same { D.byte_at self.new.disk ≡ D.byte_at self.old.disk }
    {
        let (env, disk, spare) = (&mut self.env, &mut self.disk, &mut self.spare);
        match load(&mut self.core, env, disk, spare, hash, throttled) {
            Ok(last) => answer_load(last),
            Err(_) => Err(Error::Memory),
        }
    }

    /// Deletes what a key has, at once. Another key of the same hash is deleted too. `Closed`, `Memory` and `SequenceEnd`
    /// leave the engine as it was.
    pub fn delete(&mut self, key: &K) -> Result<()>
        ensures waits { self.new.next_wait ≡ self.old.next_wait }
        ensures lent { (self.new.env.reinsertion ≡ self.old.env.reinsertion) × (self.new.env.io ≡ self.old.env.io) }
        ensures hasher { self.new.hasher ≡ self.old.hasher }
        ensures disk { self.new.disk ≡ self.old.disk }
        ensures says { IsHashDeleted
            (meaning K.encoding V.encoding K.is_encodable V.is_encodable K.is_decodable V.is_decodable P.age)
            (H.hash_of self.old.hasher key.now) self.old.core self.new.core
            (D.byte_at self.old.disk) (D.byte_at self.new.disk) result }
        ensures driven { Drives
            (meaning K.encoding V.encoding K.is_encodable V.is_encodable K.is_decodable V.is_decodable P.age)
            self.old.core self.new.core (D.byte_at self.old.disk) (D.byte_at self.new.disk) }
        ensures refused { IsRefusedOnlyAs
            (meaning K.encoding V.encoding K.is_encodable V.is_encodable K.is_decodable V.is_decodable P.age)
            is_draw_error self.old.core result }
    {
        let hash = self.hasher.hash_one(key);
        answer_delete(step(&mut self.core, &mut self.env, Step::Delete { hash }))
    }

    /// Whether a key's hash has an entry that was written: one of the key, or of another key. Errors: `SequenceEnd` alone.
    pub fn may_contains(&mut self, key: &K) -> Result<bool>
        ensures waits { self.new.next_wait ≡ self.old.next_wait }
        ensures lent { (self.new.env.reinsertion ≡ self.old.env.reinsertion) × (self.new.env.io ≡ self.old.env.io) }
        ensures hasher { self.new.hasher ≡ self.old.hasher }
        ensures disk { self.new.disk ≡ self.old.disk }
        ensures says { IsHashAsked
            (meaning K.encoding V.encoding K.is_encodable V.is_encodable K.is_decodable V.is_decodable P.age)
            (H.hash_of self.old.hasher key.now) self.old.core self.new.core
            (D.byte_at self.old.disk) (D.byte_at self.new.disk) result }
        ensures driven { Drives
            (meaning K.encoding V.encoding K.is_encodable V.is_encodable K.is_decodable V.is_decodable P.age)
            self.old.core self.new.core (D.byte_at self.old.disk) (D.byte_at self.new.disk) }
        ensures refused { IsRefusedOnlyAs
            (meaning K.encoding V.encoding K.is_encodable V.is_encodable K.is_decodable V.is_decodable P.age)
            is_question_error self.old.core result }
    {
        let hash = self.hasher.hash_one(key);
        answer_contains(step(&mut self.core, &mut self.env, Step::MayContains { hash }))
    }
}
