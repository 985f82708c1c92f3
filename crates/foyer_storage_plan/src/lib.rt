//! What an engine's sizes give on a device, as computed before anything is made there.
#![tactic(auto)]

pub mod laws;
pub mod sizes;
