//! Errors with their kinds, and the page buffers that devices read into and write from.
#![tactic(auto)]

pub mod error;
pub mod io;
