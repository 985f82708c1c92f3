//! The pieces of one hash: one in place, and a list of those with other keys.
ghost use Rattle.std.specs.Prelude.{◌≡◌, ◌≤◌, [], ◌∷◌, if◌then◌else◌, OnOk, IfSome, IsOkUnless, position, slice_get};
ghost use Rattle.std.specs.Option.{option_copied};
ghost use Rattle.foyer_policy_keeper.specs.PieceMap.{piece_of, without, Enters, HasPlace};

use foyer_device_page::error::{Error, Result};
use foyer_policy_piece::keeper::PieceRef;
use std::alloc::Allocator;
use std::marker::Model;

#[derive(Drop)]
pub(crate) struct Bucket<K, V, P, A: Allocator> {
    first: PieceRef<K, V, P, A>,
    others: Vec<PieceRef<K, V, P, A>, A>,
}

impl<K, V, P, A: Allocator> Model for Bucket<K, V, P, A> {
    ghost use Rattle.std.specs.Prelude.{◌∷◌, ◌-◌, vec_len, vec_capacity};
    ghost use Rattle.foyer_policy_keeper.specs.PieceMap.{Roomy};

    ghost Value = { Roomy K V P };

    ghost view = { λ b. record { pieces = b.first ∷ b.others.items; room = vec_capacity b.others - vec_len b.others } };
}

fn find<'a, K: Eq, V, P, A: Allocator>(
    pieces: &'a [PieceRef<K, V, P, A>],
    key: &K,
) -> Option<&'a PieceRef<K, V, P, A>>
    ensures { option_copied result ≡ piece_of K.eq pieces.now key.now }
{
    pieces.iter().find(|held| held.key() == key)
}

fn position<K: Eq, V, P, A: Allocator>(pieces: &[PieceRef<K, V, P, A>], key: &K) -> Option<usize>
    ensures { result ≡ position (λ held. K.eq held.piece.key key.now) pieces.now }
{
    pieces.iter().position(|held| held.key() == key)
}

fn remove<K: Eq + Drop, V: Drop, P: Drop, A: Allocator>(
    pieces: &mut Vec<PieceRef<K, V, P, A>, A>,
    key: &K,
)
    ensures { pieces.new.items ≡ without K.eq pieces.old.items key.now }
{
    pieces.retain(|held| held.key() != key);
}

impl<K: Eq + Drop, V: Drop, P: Drop, A: Allocator> Bucket<K, V, P, A> {
    // It takes memory only with its second piece.
    pub(crate) fn new(alloc: A, piece: PieceRef<K, V, P, A>) -> Bucket<K, V, P, A>
        ensures { result.pieces ≡ piece ∷ [] }
    {
        Bucket {
            first: piece,
            others: Vec::new(alloc),
        }
    }

    pub(crate) fn find(&self, key: &K) -> Option<&PieceRef<K, V, P, A>>
        ensures { option_copied result ≡ piece_of K.eq self.now.pieces key.now }
    {
        if self.first.key() == key {
            return Some(&self.first);
        }
        find(&self.others, key)
    }

    // Makes room for a piece of the key.
    pub(crate) fn reserve(&mut self, key: &K) -> Result<()>
        ensures place { OnOk result (HasPlace K.eq self.new key.now) }
        ensures same { self.new.pieces ≡ self.old.pieces }
        ensures refused { IsOkUnless result Error.Memory }
    {
        if self.find(key).is_some() {
            return Ok(());
        }
        self.others.reserve(1)?;
        Ok(())
    }

    // Puts a piece in place of the one with an equal key, or in room that was made.
    pub(crate) fn put(&mut self, piece: PieceRef<K, V, P, A>)
        requires { HasPlace K.eq self.old piece.piece.key }
        ensures { Enters K.eq self.old.pieces self.new.pieces piece }
    {
        if self.first.key() == piece.key() {
            self.first = piece;
            return;
        }
        match position(&self.others, piece.key()) {
            Some(place) => self.others[place] = piece,
            None => self.others.push_reserved(piece),
        }
    }

    // The first piece.
    pub(crate) fn into_first(self) -> PieceRef<K, V, P, A>
        ensures { IfSome (slice_get self.pieces 0) (λ first. result ≡ first) }
    {
        let Bucket { first, others: _ } = self;
        first
    }

    // Removes the key's piece, and says whether that leaves none. Then the bucket must be removed.
    pub(crate) fn remove(&mut self, key: &K) -> bool
        ensures { without K.eq self.old.pieces key.now ≡ (if result then [] else self.new.pieces) }
    {
        remove(&mut self.others, key);
        if self.first.key() != key {
            return false;
        }
        if self.others.is_empty() {
            return true;
        }
        self.first = self.others.remove(0);
        false
    }
}
