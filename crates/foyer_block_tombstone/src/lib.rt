//! The log of deletes: a ring of marks in the pages of a device's partitions.
#![tactic(auto)]

pub mod block;
pub mod laws;
