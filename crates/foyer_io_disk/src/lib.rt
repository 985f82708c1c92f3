//! What the engine's reads and writes go to: blocks of bytes, by their offsets. `foyer_io_blocks` has those over memory and over the
//! partitions of any device.
#![tactic(auto)]

pub mod disk;
