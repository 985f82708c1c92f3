//! Which steps move pieces to the flushers, and away from them.
ghost use Rattle.std.specs.Prelude.{◌≡◌};
ghost use Rattle.foyer_core_told.specs.ToldQueued as moves;

use foyer_core_steps::step::Step;
use std::alloc::Allocator;

/// What a step can do with pieces. Its reply says whether it did.
#[derive(Clone, Copy)]
pub enum Moving {
    /// It queues a piece of this hash at the hash's flusher.
    Queues(u64),
    /// It takes the front of this flusher's queue, and may return a piece.
    Receives(u32),
    /// It begins a batch of this flusher.
    Begins(u32),
    /// It ends a batch of this flusher, and returns the batch's pieces.
    Ends(u32),
    /// It moves no piece.
    Other,
}

/// Gives what a step can do with pieces.
pub fn moving_of<K, V, P, A: Allocator>(step: &Step<K, V, P, A>) -> Moving
    ensures { result ≡ moves.moving_of step.now }
{
    match step {
        Step::Enqueue { piece, .. } => Moving::Queues(piece.hash()),
        Step::Receive { flusher } => Moving::Receives(*flusher),
        Step::FlushBegin { flusher } => Moving::Begins(*flusher),
        Step::FlushEnd { flusher } => Moving::Ends(*flusher),
        _ => Moving::Other,
    }
}
