//! The threads of an engine: a worker for each flusher, which writes what is queued, one for each reclaimer, and those that list the
//! blocks at an opening. Also the session that the worker of a flusher or of a reclaimer takes along.
#![tactic(auto)]

pub mod clock;
pub mod hand;
pub mod recover;
pub mod workers;
