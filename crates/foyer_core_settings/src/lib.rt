//! The sizes that a core is opened with, their defaults, and which of them go together.
#![tactic(auto)]

pub mod settings;
