//! A core behind one lock, and the sessions that ask it.
#![tactic(auto)]

pub mod brief;
pub mod locked;
pub mod notes;
pub mod session;
pub mod shared;

pub use foyer_core_steps as core_steps;
