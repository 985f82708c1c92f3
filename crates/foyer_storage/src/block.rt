//! What the engine keeps on its device, and what it knows of its blocks.
pub use foyer_block::block::{eviction, indexer, manager, recover, scanner, tombstone};
pub use foyer_core::block::{flusher, reclaimer};
pub use foyer_format::block::{buffer, serde};
