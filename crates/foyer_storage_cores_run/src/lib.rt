//! A store of one core, two or four, as chosen at run time, and the threads that call it. It re-exports what a store is built of.
//!
//! Whoever calls such a store says what each thread does, for any engine. This crate alone proves that threads may share a core's engine.
#![tactic(auto)]

mod calls;
mod chain;
mod opening;
pub mod paths;
pub mod run;
pub mod task;

pub use foyer_storage_build as build;
