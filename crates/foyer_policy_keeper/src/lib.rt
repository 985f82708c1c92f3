//! The pieces that the engine hasn't flushed yet, kept in memory so that a load finds them first.
#![tactic(auto)]

pub mod keeper;
