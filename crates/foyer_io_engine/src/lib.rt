//! Engines that read and write the partitions of a device.
#![tactic(auto)]

pub mod io;
