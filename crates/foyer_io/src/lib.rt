//! I/O engines, which read and write partitions, and the disks of blocks that a core is run over.
//!
//! A door: it re-exports names of its parts, `foyer_io_engine`, `foyer_io_monitor`, `foyer_io_disk` and `foyer_io_blocks`, and has
//! no code of its own.
#![tactic(auto)]

pub mod io;
