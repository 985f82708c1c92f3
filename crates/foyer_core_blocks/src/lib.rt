//! How the index and the blocks of a core relate to the model's, how a flusher leaves its block, and what became invalid.
#![tactic(auto)]

pub mod manager;

pub use foyer_core_laws as core_laws;
