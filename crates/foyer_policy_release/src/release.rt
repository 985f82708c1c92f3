//! Releases of pieces from their keeper.
ghost use Rattle.std.specs.Prelude.{◌≡◌};

use crate::noted::{AllReleased, Releases};
use crate::shown::{Released, release_from};
use foyer_lock::lock_spinning;
use foyer_policy_keeper::keeper::{Keeper, ShardOf};
use foyer_policy_piece::keeper::PieceRef;
use std::alloc::Allocator;
use std::sync::Wait;

// Releases a piece from the shard that its hash is in, under that shard's lock.
fn release_at<K: Eq + Drop, V: Drop, P: Drop, A: Allocator + Clone>(
    rt: &impl Wait,
    shard: ShardOf<'_, K, V, P, A>,
    piece: &PieceRef<K, V, P, A>,
) -> Released
    requires { shard.hash ≡ piece.now.piece.hash }
    ensures { (result.hash ≡ piece.now.piece.hash) × (result.number ≡ piece.now.number) }
{
    let lock = shard.lock();
    release_from(&mut lock_spinning(lock, rt), piece)
}

/// Removes the kept piece of the reference's hash and key, if it has the reference's number. It takes no memory.
pub fn release<K: Eq + Drop, V: Drop, P: Drop, A: Allocator + Clone>(
    rt: &impl Wait,
    keeper: &Keeper<K, V, P, A>,
    piece: &PieceRef<K, V, P, A>,
) -> Released
    ensures { (result.hash ≡ piece.now.piece.hash) × (result.number ≡ piece.now.number) }
{
    release_at(rt, keeper.shard(piece.hash()), piece)
}

/// Releases each of these pieces, in order, and gives them within the proof. It takes no memory.
pub fn release_all<K: Eq + Drop, V: Drop, P: Drop, A: Allocator + Clone>(
    rt: &impl Wait,
    keeper: &Keeper<K, V, P, A>,
    pieces: Vec<PieceRef<K, V, P, A>, A>,
) -> AllReleased<K, V, P, A>
    ensures { result.pieces ≡ pieces }
{
    let count = pieces.len();
    let mut releases = Releases::new(pieces);
    for at in 0..count {
        let released = release(rt, keeper, releases.next());
        releases.note(released);
    }
    releases.into_all()
}
