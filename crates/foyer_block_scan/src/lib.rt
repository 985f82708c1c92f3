//! The scan of a block: what its chain of indices lists, one index after the other. A scan reads nothing: it gives the offset that is to be
//! read next, and takes what was read there.
#![tactic(auto)]

pub mod block;
pub mod laws;
