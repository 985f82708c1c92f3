//! The release of a piece from its shard, and a proof of it.
ghost use Rattle.std.specs.Prelude.{◌≡◌};
ghost use Rattle.foyer_policy_keeper.specs.PieceMap.{piece_at, without_number, ChangesAt};

use foyer_policy_keeper::keeper::shard::Shard;
use foyer_policy_piece::keeper::PieceRef;
use std::alloc::Allocator;

/// A proof that a release was made by this hash and this number. Only `release_from` makes one.
#[derive(Drop)]
pub struct Released {
    hash: u64,
    number: u64,
}

/// Removes the shard's piece of the reference's hash and key, if it has the reference's number.
pub fn release_from<K: Eq + Drop, V: Drop, P: Drop, A: Allocator + Clone>(
    shard: &mut Shard<K, V, P, A>,
    piece: &PieceRef<K, V, P, A>,
) -> Released
    ensures released { ChangesAt K.eq shard.old.map shard.new.map piece.now.piece.hash piece.now.piece.key
        (without_number piece.now.number (piece_at K.eq shard.old.map piece.now.piece.hash piece.now.piece.key)) }
    ensures shown { (result.hash ≡ piece.now.piece.hash) × (result.number ≡ piece.now.number) }
{
    shard.release(piece);
    Released {
        hash: piece.hash(),
        number: piece.number(),
    }
}
