//! An engine on one thread, over any disk, without any handle: puts, loads, deletes, waits, destroys.
//!
//! Nothing is written until a wait, a close or a destroy.
#![tactic(auto)]

pub mod engine;
pub mod load;
mod replies;
