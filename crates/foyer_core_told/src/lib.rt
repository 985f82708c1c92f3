//! The one history of what all threads do to a core and its disk, and the laws of it. `Told` in a name means: recorded in that history.
#![tactic(auto)]

pub mod event;
pub mod history;
pub mod laws;
pub mod queued;
