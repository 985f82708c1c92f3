//! The core of the engine: one value, which changes by steps.
//!
//! `Core::apply` applies a step. Except at its opening, the core does no I/O: a reply asks for an access of the device, and a later step
//! reports its result. So the core can be driven by one loop, by worker threads, or by a list of moves (`foyer_core_run::moves::run`).
#![tactic(auto)]

pub mod apply;
pub mod block;
pub mod destroy;
mod env;
mod flush;
pub mod laws;
pub mod load;
pub mod open;
mod queue;
mod reclaim;
pub mod refusal;
pub mod reply;
pub mod restart;

pub use foyer_core_flusher::core_laws::settings;

pub mod state;
pub mod step;
