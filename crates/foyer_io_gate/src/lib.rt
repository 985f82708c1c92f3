//! Places that a thread passes, at which a test may hold it, and a disk that passes such a place.
#![tactic(auto)]

pub mod gate;
