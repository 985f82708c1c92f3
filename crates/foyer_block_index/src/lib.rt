//! The blocks of the device: which hash lies where, and what a block is known by.
#![tactic(auto)]

pub mod indexer;
pub mod manager;
mod probe;
mod seats;
mod shard;
mod shards;
pub mod tombstone;
