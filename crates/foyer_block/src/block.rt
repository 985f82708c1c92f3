//! What an engine knows of its blocks.
pub mod eviction;
pub mod indexer;
pub mod manager;
pub mod recover;

pub use foyer_block_scan::block::scanner;
pub use foyer_block_tombstone::block::tombstone;
