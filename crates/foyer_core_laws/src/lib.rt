//! The sizes of a core, the model that it is with them, and the laws of every run of that model.
#![tactic(auto)]

pub mod laws;
pub mod restart;

pub use foyer_core_settings::settings;
