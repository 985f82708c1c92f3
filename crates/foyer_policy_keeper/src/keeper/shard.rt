//! The part of a keeper that one lock guards.
ghost use Rattle.std.specs.Prelude.{◌≡◌, ◌<◌, ◌≤◌, ◌+◌, ◌⊎◌, [], Some, None, IfOk, OnOk, OnErr, IfErr, IfSome, IsOkUnless, nat_eq};
ghost use Rattle.std.specs.HashMap.{spare};
ghost use Rattle.std.specs.Map.{lookup};
ghost use Rattle.std.specs.Option.{option_copied};
ghost use Rattle.foyer_policy_keeper.specs.PieceMap.{piece_at, without_number, ChangesAt, HoldsSame, HasPlaceIn, HasRoomFor, IsFound, IsLacked, IsOf, LosesHash};

use super::bucket::Bucket;
use foyer_device_page::error::{Error, Result};
use foyer_policy_piece::keeper::{Piece, PieceRef};
use std::alloc::Allocator;
use std::collections::HashMap;
use std::hash::{BuildHasherDefault, FoldHasher};
use std::marker::Model;

type Buckets<K, V, P, A> = HashMap<u64, Bucket<K, V, P, A>, BuildHasherDefault<FoldHasher>, A>;

/// A proof that a shard had no piece under this hash and the key that was asked for. Only `Shard::get` and `Shard::lacks` make one.
#[derive(Clone, Copy, Debug, PartialEq, Eq)]
pub struct NotKept {
    hash: u64,
}

impl NotKept {
    /// The hash.
    pub fn hash(&self) -> u64
        ensures { result ≡ self.now.hash }
    {
        self.hash
    }
}

/// A map from a hash and a key to a piece and the number of its insertion. Two keys are the same if `==` says so.
#[derive(Drop)]
pub struct Shard<K: Eq, V, P, A: Allocator> {
    buckets: Buckets<K, V, P, A>,
    last: u64,
    alloc: A,
}

/// A piece on its way into a shard, which has made room for it and given it a number.
#[derive(Drop)]
pub struct Reserved<K, V, P, A: Allocator> {
    piece: PieceRef<K, V, P, A>,
    alloc: A,
}

impl<K, V, P, A: Allocator> Model for Reserved<K, V, P, A> {
    ghost use Rattle.foyer_policy_piece.specs.Referred.{Referred};

    ghost Value = { Referred K V P };

    ghost view = { λ r. r.piece };
}

impl<K: Eq, V, P, A: Allocator> Model for Shard<K, V, P, A> {
    ghost use Rattle.std.specs.HashMap.{spare};
    ghost use Rattle.foyer_policy_keeper.specs.PieceMap.{Shelf, AreOwn};

    ghost Value = { Shelf K V P };

    ghost view = { λ s. record { map = s.buckets.entries; room = spare s.buckets; last = s.last } };

    ghost invariant = { λ s. AreOwn K.eq s.buckets.entries s.last };
}

// Makes room for a piece of a hash and a key.
fn make_room<K: Eq + Drop, V: Drop, P: Drop, A: Allocator + Clone>(
    buckets: &mut Buckets<K, V, P, A>,
    hash: u64,
    key: &K,
) -> Result<()>
    ensures place { OnOk result (HasPlaceIn K.eq (spare buckets.new) (lookup (nat_eq hash) buckets.new.entries) key.now) }
    ensures same { HoldsSame K.eq buckets.old.entries buckets.new.entries }
    ensures refused { IsOkUnless result Error.Memory }
{
    if let Some(bucket) = buckets.get_mut(&hash) {
        return bucket.reserve(key);
    }
    buckets.reserve(1)?;
    Ok(())
}

// Puts a piece under its hash and its key, in place of what is there, in room that was made.
fn enter<K: Eq + Drop, V: Drop, P: Drop, A: Allocator + Clone>(
    buckets: &mut Buckets<K, V, P, A>,
    alloc: A,
    piece: PieceRef<K, V, P, A>,
)
    requires { HasPlaceIn K.eq (spare buckets.old) (lookup (nat_eq piece.piece.hash) buckets.old.entries) piece.piece.key }
    ensures { ChangesAt K.eq buckets.old.entries buckets.new.entries piece.piece.hash piece.piece.key (Some piece) }
{
    let hash = piece.hash();
    if let Some(bucket) = buckets.get_mut(&hash) {
        bucket.put(piece);
        return;
    }
    let _ = buckets.insert(hash, Bucket::new(alloc, piece));
}

// Removes the piece of a hash and a key.
fn remove<K: Eq + Drop, V: Drop, P: Drop, A: Allocator>(
    buckets: &mut Buckets<K, V, P, A>,
    hash: u64,
    key: &K,
)
    ensures { ChangesAt K.eq buckets.old.entries buckets.new.entries hash key.now None }
{
    let Some(bucket) = buckets.get_mut(&hash) else {
        return;
    };
    if bucket.remove(key) {
        let _ = buckets.remove(&hash);
    }
}

// Removes all pieces of a hash.
fn remove_all<K: Eq + Drop, V: Drop, P: Drop, A: Allocator>(
    buckets: &mut Buckets<K, V, P, A>,
    hash: u64,
)
    ensures { LosesHash K.eq buckets.old.entries buckets.new.entries hash }
{
    drop(buckets.remove(&hash));
}

impl<K: Eq + Drop, V: Drop, P: Drop, A: Allocator + Clone> Shard<K, V, P, A> {
    /// Makes a shard that has nothing. It takes no memory except what a clone of the allocator takes. Errors: `Memory`.
    pub fn new(alloc: A) -> Result<Shard<K, V, P, A>>
        ensures empty { IfOk result (λ shard. (shard.map ≡ []) × (shard.last ≡ 0)) }
        ensures refused { IsOkUnless result Error.Memory }
    {
        Ok(Shard {
            buckets: HashMap::new(alloc.clone()?),
            last: 0,
            alloc,
        })
    }

    /// Makes room for the piece and draws the next number. The first result is a reference to the piece, the second is for `put`. Errors:
    /// `SequenceEnd` if the numbers are used up; `Memory`. What is kept stays, and a refused call draws no number.
    pub fn reserve(
        &mut self,
        piece: &Piece<K, V, P, A>,
    ) -> Result<(PieceRef<K, V, P, A>, Reserved<K, V, P, A>)>
        ensures number { IfOk result (λ r. r.0 ≡ record { piece = piece.now; number = self.old.last + 1 }) }
        ensures both { IfOk result (λ r. r.1 ≡ r.0) }
        ensures room { OnOk result (HasRoomFor K.eq self.new piece.now.hash piece.now.key) }
        ensures drawn { OnOk result (self.new.last ≡ self.old.last + 1) }
        ensures kept { OnErr result (self.new.last ≡ self.old.last) }
        ensures same { HoldsSame K.eq self.old.map self.new.map }
        ensures refused { IfErr result (λ e. (e ≡ Error.Memory) ⊎ ((e ≡ Error.SequenceEnd) × (self.old.last ≡ u64.MAX))) }
    {
        if self.last == u64::MAX {
            return Err(Error::SequenceEnd);
        }
        let number = self.last + 1;
        let given = PieceRef::numbered(piece.clone()?, number);
        let kept = PieceRef::numbered(piece.clone()?, number);
        let alloc = self.alloc.clone()?;
        make_room(&mut self.buckets, piece.hash(), piece.key())?;
        self.last = number;
        Ok((given, Reserved { piece: kept, alloc }))
    }

    /// Puts a piece under its hash and its key, in place of what is there, in the room that was made for it. The room must still be there.
    /// It takes no memory.
    pub fn put(&mut self, reserved: Reserved<K, V, P, A>)
        requires room { HasRoomFor K.eq self.old reserved.piece.hash reserved.piece.key }
        requires number { (0 < reserved.number) × (reserved.number ≤ self.old.last) }
        ensures put { ChangesAt K.eq self.old.map self.new.map reserved.piece.hash reserved.piece.key (Some reserved) }
        ensures last { self.new.last ≡ self.old.last }
    {
        let Reserved { piece, alloc } = reserved;
        enter(&mut self.buckets, alloc, piece);
    }

    /// Inserts one more owner of the piece under its hash and its key, in place of what is there, under the next number. Errors:
    /// `SequenceEnd` if the numbers are used up; `Memory`. After an error all is as before.
    pub fn insert(&mut self, piece: &Piece<K, V, P, A>) -> Result<PieceRef<K, V, P, A>>
        ensures number { IfOk result (λ r. (r.piece ≡ piece.now) × (r.number ≡ self.old.last + 1)) }
        ensures inserted { IfOk result (λ r. ChangesAt K.eq self.old.map self.new.map piece.now.hash piece.now.key (Some r)) }
        ensures drawn { OnOk result (self.new.last ≡ self.old.last + 1) }
        ensures kept { OnErr result (self.new.last ≡ self.old.last) }
        ensures err { OnErr result (HoldsSame K.eq self.old.map self.new.map) }
        ensures refused { IfErr result (λ e. (e ≡ Error.Memory) ⊎ ((e ≡ Error.SequenceEnd) × (self.old.last ≡ u64.MAX))) }
    {
        let (given, reserved) = self.reserve(piece)?;
        self.put(reserved);
        Ok(given)
    }

    fn find(&self, hash: u64, key: &K) -> Option<&PieceRef<K, V, P, A>>
        ensures value { option_copied result ≡ piece_at K.eq self.now.map hash key.now }
        ensures own { IfSome result (λ held. IsOf K.eq hash key.now held.now.piece) }
    {
        match self.buckets.get(&hash) {
            Some(bucket) => bucket.find(key),
            None => None,
        }
    }

    /// Gives one more owner of the piece of a hash and a key, or a proof that there is none. Errors: `Memory` if the piece has 2^63 - 1
    /// owners.
    pub fn get(&self, hash: u64, key: &K) -> Result<std::result::Result<Piece<K, V, P, A>, NotKept>>
        ensures value { IfOk result (IsFound K.eq self.now.map hash key.now) }
        ensures own { IfOk result (λ found. IfOk found (IsOf K.eq hash key.now)) }
        ensures refused { IsOkUnless result Error.Memory }
    {
        match self.find(hash, key) {
            Some(held) => Ok(Ok((**held).clone()?)),
            None => Ok(Err(NotKept { hash })),
        }
    }

    /// Gives a proof that there is no piece of the hash and the key, or `None` if there is one.
    pub fn lacks(&self, hash: u64, key: &K) -> Option<NotKept>
        ensures { IsLacked K.eq self.now.map hash key.now result }
    {
        match self.find(hash, key) {
            Some(_) => None,
            None => Some(NotKept { hash }),
        }
    }

    /// Removes the piece of a reference's hash and key, if it has the reference's number. It takes no memory.
    pub fn release(&mut self, piece: &PieceRef<K, V, P, A>)
        ensures released { ChangesAt K.eq self.old.map self.new.map piece.now.piece.hash piece.now.piece.key
            (without_number piece.now.number (piece_at K.eq self.old.map piece.now.piece.hash piece.now.piece.key)) }
        ensures none { piece.now.number ≡ 0 → HoldsSame K.eq self.old.map self.new.map }
        ensures last { self.new.last ≡ self.old.last }
    {
        let is_it = match self.find(piece.hash(), piece.key()) {
            Some(held) => held.number() == piece.number(),
            None => false,
        };
        if is_it {
            remove(&mut self.buckets, piece.hash(), piece.key());
        }
    }

    /// Removes the pieces of a hash, whatever their keys and numbers are. It takes no memory.
    pub fn remove_hash(&mut self, hash: u64)
        ensures removed { LosesHash K.eq self.old.map self.new.map hash }
        ensures last { self.new.last ≡ self.old.last }
    {
        remove_all(&mut self.buckets, hash);
    }
}
