//! What a store and its engine are built of.
//!
//! It re-exports the store and its engine's threads, so that a crate that builds a store needs to list this crate alone.
#![tactic(auto)]

pub mod builder;
pub mod config;
pub mod running;
pub mod whole;

pub use foyer_storage_cores as cores;
pub use foyer_storage_store::{counters, engine, session, store};
pub use foyer_storage_workers as threads;
