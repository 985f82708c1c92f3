//! The blocks of a disk: over memory, or over the partitions of any device.
#![tactic(auto)]

pub mod memory;
pub mod partitions;
