//! A core and its disk as threads share them, each behind a lock. Each step and each access is recorded in the one history of all threads.
//! Each entry that a load answers is proved to have been the newest of its hash in this history, at a moment of the call.
#![tactic(auto)]

pub mod locked;
pub mod queued;
pub mod session;
pub mod shared;

pub use foyer_core_told as core_told;
pub use foyer_io_told as io_told;
