//! What the store keeps in memory of an entry that the engine hasn't flushed yet.
#![tactic(auto)]

pub mod keeper;
