//! The index, the blocks with their eviction pickers, the scan of a block, recovery, and the log of deletes.
//!
//! A door: it passes on what its parts have, `foyer_block_index`, `foyer_block_manager`, `foyer_block_scan`, `foyer_block_recover`,
//! `foyer_block_tombstone` and `foyer_io_gate`, and has no code of its own.
#![tactic(auto)]

pub mod block;
