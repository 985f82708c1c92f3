//! Releases pieces from their keeper, and proves that each was released by its own number.
//!
//! Contracts don't see what a keeper's locks guard, so no clause of a caller can say that a piece is gone. Instead a release gives a value
//! as proof. The only function that makes such a value has a contract that sees the shard.
#![tactic(auto)]

pub mod noted;
pub mod release;
pub mod shown;
