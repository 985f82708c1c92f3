//! The store: a keeper of the pieces that aren't written yet, in front of an engine; and what the store asks of the engine.
//!
//! It re-exports the engine's crate, so that a crate that uses the store needn't list it.
#![tactic(auto)]

pub mod built;
pub mod calls;
pub mod counters;
pub mod noop;
pub mod session;
pub mod store;

pub use foyer_storage_engine as engine;
