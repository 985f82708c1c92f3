//! A disk under its lock. Each access is recorded in the one history of all threads, as it happened.
#![tactic(auto)]

pub mod disk;
