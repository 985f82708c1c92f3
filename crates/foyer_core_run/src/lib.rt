//! Runs of the core over a disk: an access that a reply issues is done at most once, and its result is reported to the core.
#![tactic(auto)]

pub mod accesses;
pub mod batches;
pub mod destroys;
pub mod moves;
pub mod opened;
pub mod reclaims;
pub mod stopped;
