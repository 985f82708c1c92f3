//! A bench of a store: threads that put and get at once, and how long their calls take.
#![tactic(auto)]

pub mod asked;
pub mod bench;
pub mod caller;
pub mod report;
pub mod stores;
pub mod task;
pub mod words;
