//! Devices: files, directories and memory in which partitions are made.
#![tactic(auto)]

pub mod io;
