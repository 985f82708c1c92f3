//! The keeper: a map from a key to its piece, in shards that are locked one at a time.
ghost use Rattle.std.specs.Prelude.{◌≡◌, ◌≢◌, ◌<◌, ◌%◌, ◌⊎◌, length, IfOk, IfErr, IfSome, IsOkUnless};
ghost use Rattle.foyer_policy_keeper.specs.PieceMap.{IsOf};

mod bucket;
pub mod shard;

use self::shard::{NotKept, Shard};
use foyer_device_page::error::{Error, Result};
use foyer_policy_piece::keeper::{Piece, PieceRef};
use std::alloc::Allocator;
use std::marker::Model;
use std::sync::{Mutex, Wait};

/// The pieces that aren't flushed yet, by hash and key. Contracts see how many shards it has. Threads share it by
/// reference. A call takes the lock of one shard at most.
pub struct Keeper<K: Eq, V, P, A: Allocator> {
    shards: Vec<Mutex<Shard<K, V, P, A>>, A>,
}

// Written out, so that it is proved once.
impl<K: Eq + Drop, V: Drop, P: Drop, A: Allocator> Drop for Keeper<K, V, P, A> {
    fn drop(self) {
        let Keeper { shards: _ } = self;
    }
}

impl<K: Eq, V, P, A: Allocator> Model for Keeper<K, V, P, A> {
    ghost use Rattle.std.specs.Prelude.{ℕ, ◌<◌, length};

    ghost Value = { ℕ };

    ghost view = { λ k. length k.shards.items };

    ghost invariant = { λ k. 0 < length k.shards.items };
}

/// The shard that this hash lies in: only a keeper gives one.
#[derive(Drop)]
pub struct ShardOf<'a, K: Eq, V, P, A: Allocator> {
    hash: u64,
    lock: &'a Mutex<Shard<K, V, P, A>>,
}

impl<'a, K: Eq, V, P, A: Allocator> ShardOf<'a, K, V, P, A> {
    /// Its lock.
    pub fn lock(&self) -> &'a Mutex<Shard<K, V, P, A>>
        ensures { result.now ≡ self.now.lock.now }
    {
        self.lock
    }
}

// Which of the shards a hash is in.
fn place_of(hash: u64, shards: usize) -> usize
    requires { 0 < shards }
    ensures { result ≡ hash % shards }
{
    (hash % shards as u64) as usize
}

// The shard of a hash. Contracts can't tell one lock from another, so `place_of` says which one it is.
fn shard_of<K: Eq, V, P, A: Allocator>(
    shards: &[Mutex<Shard<K, V, P, A>>],
    hash: u64,
) -> &Mutex<Shard<K, V, P, A>>
    requires { 0 < length shards.now }
{
    &shards[place_of(hash, shards.len())]
}

impl<K: Eq + Drop, V: Drop, P: Drop, A: Allocator + Clone> Keeper<K, V, P, A> {
    /// Makes an empty keeper with this many shards, at least one. Error: Memory.
    pub fn new(alloc: A, shards: usize) -> Result<Keeper<K, V, P, A>>
        requires { shards ≢ 0 }
        ensures shards { IfOk result (λ keeper. keeper ≡ shards) }
        ensures refused { IsOkUnless result Error.Memory }
    {
        let mut made = Vec::with_capacity(alloc.clone()?, shards)?;
        for _ in 0..shards {
            made.push(Mutex::new(Shard::new(alloc.clone()?)?))?;
        }
        Ok(Keeper { shards: made })
    }

    /// Keeps one more owner of the piece under its hash and its key, in place of what is there. The insertion gets the next number of its
    /// shard. Errors: `SequenceEnd` if the shard's numbers are used up; `Memory`. After an error all is kept as before.
    pub fn insert(&self, rt: &impl Wait, piece: &Piece<K, V, P, A>) -> Result<PieceRef<K, V, P, A>>
        ensures piece { IfOk result (λ kept. (kept.piece ≡ piece.now) × (0 < kept.number)) }
        ensures refused { IfErr result (λ e. (e ≡ Error.Memory) ⊎ (e ≡ Error.SequenceEnd)) }
    {
        shard_of(&self.shards, piece.hash()).lock(rt).insert(piece)
    }

    /// Gives one more owner of the piece that is kept under a hash and a key, or a proof that no piece was kept. Errors: `Memory` if the
    /// piece has 2^63 - 1 owners.
    pub fn get(
        &self,
        rt: &impl Wait,
        hash: u64,
        key: &K,
    ) -> Result<std::result::Result<Piece<K, V, P, A>, NotKept>>
        ensures own { IfOk result (λ found. IfOk found (IsOf K.eq hash key.now)) }
        ensures none { IfOk result (λ found. IfErr found (λ shown. shown.hash ≡ hash)) }
        ensures refused { IsOkUnless result Error.Memory }
    {
        shard_of(&self.shards, hash).lock(rt).get(hash, key)
    }

    /// Gives a proof that no piece was kept under a hash and a key, or `None` if one was.
    pub fn lacks(&self, rt: &impl Wait, hash: u64, key: &K) -> Option<NotKept>
        ensures { IfSome result (λ shown. shown.hash ≡ hash) }
    {
        shard_of(&self.shards, hash).lock(rt).lacks(hash, key)
    }

    /// Removes the kept piece of the reference's hash and key, if it has the reference's number. So a reference that no keeper
    /// made removes nothing, nor does one whose piece was replaced. It takes no memory.
    pub fn release(&self, rt: &impl Wait, piece: PieceRef<K, V, P, A>) {
        shard_of(&self.shards, piece.hash())
            .lock(rt)
            .release(&piece);
    }

    /// The shard that a hash lies in.
    pub fn shard(&self, hash: u64) -> ShardOf<'_, K, V, P, A>
        ensures { result.hash ≡ hash }
    {
        ShardOf {
            hash,
            lock: shard_of(&self.shards, hash),
        }
    }
}
