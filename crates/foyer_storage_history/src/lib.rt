//! An engine over memory that threads share. Its steps and accesses are all in one history. An entry that a load answers was put last under
//! its hash at a moment of the call. No put that had been queued then was newer, unless a batch had failed since or a destroy cleared the
//! index.
//!
//! No thread works for it. A caller writes what is queued if it waits, closes or destroys, if its put or delete finds too much queued, or
//! if its load finds something of its hash queued. The caller also reclaims if no block is clean. The engine is an `Engine` of a `Store`,
//! beside `BlockEngine`, which works over files and has threads of its own.
#![tactic(auto)]

mod begun;
pub mod engine;
mod maintainer;
pub mod session;
pub mod store;

pub use foyer_core_threads as core_threads;
