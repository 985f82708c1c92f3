//! Blocks.

pub mod tombstone;
