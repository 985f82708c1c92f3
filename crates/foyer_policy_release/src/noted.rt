//! The releases of several pieces, and a proof that none was left out.
ghost use Rattle.std.specs.Prelude.{◌≡◌, ◌+◌, ◌<◌, Some, slice_get, vec_len};
ghost use Rattle.std.specs.Option.{ForSome};

use crate::shown::Released;
use foyer_policy_piece::keeper::PieceRef;
use std::alloc::Allocator;

/// Pieces, and how many of them were released, from the first on.
#[derive(Drop)]
pub struct Releases<K, V, P, A: Allocator> {
    pieces: Vec<PieceRef<K, V, P, A>, A>,
    count: usize,
}

/// Pieces that were all released, each by its own number.
#[derive(Drop)]
pub struct AllReleased<K, V, P, A: Allocator> {
    pieces: Vec<PieceRef<K, V, P, A>, A>,
}

impl<K: Drop, V: Drop, P: Drop, A: Allocator> Releases<K, V, P, A> {
    /// Begins with these pieces, none of them released.
    pub fn new(pieces: Vec<PieceRef<K, V, P, A>, A>) -> Releases<K, V, P, A>
        ensures { (result.pieces ≡ pieces) × (result.count ≡ 0) }
    {
        Releases { pieces, count: 0 }
    }

    /// The piece to release next. One must be left.
    pub fn next(&self) -> &PieceRef<K, V, P, A>
        requires { self.now.count < vec_len self.now.pieces }
        ensures { slice_get self.now.pieces.items self.now.count ≡ Some result.now }
    {
        &self.pieces[self.count]
    }

    /// Notes that the next piece was released. `released` must be of its hash and its number.
    pub fn note(&mut self, released: Released)
        requires some { self.old.count < vec_len self.old.pieces }
        requires own { ForSome (slice_get self.old.pieces.items self.old.count) (λ piece. (piece.piece.hash ≡ released.hash) × (piece.number ≡ released.number)) }
        ensures { (self.new.pieces ≡ self.old.pieces) × (self.new.count ≡ self.old.count + 1) }
    {
        let _ = released;
        self.count += 1;
    }

    /// Gives the proof that all pieces were released. None may be left.
    pub fn into_all(self) -> AllReleased<K, V, P, A>
        requires { self.count ≡ vec_len self.pieces }
        ensures { result.pieces ≡ self.pieces }
    {
        let Releases { pieces, count: _ } = self;
        AllReleased { pieces }
    }
}
