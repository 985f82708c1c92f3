//! What a core asks of a disk: the reads of tickets and reclaims, the writes of batches, and cleans.
#![tactic(auto)]

pub mod disk;
pub mod reclaims;
