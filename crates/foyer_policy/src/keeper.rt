//! Pieces: entries in memory, and the keeper that has those that aren't written yet.
pub use foyer_policy_keeper::keeper::{Keeper, ShardOf, shard};
pub use foyer_policy_piece::keeper::{Piece, PieceRef};
