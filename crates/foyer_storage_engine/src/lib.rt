//! The engine that threads share: a core behind one lock, and disks for loads, each behind a lock of its own. Also what a load gives, and
//! how threads wait for one another. The engine's threads are in `foyer_storage_workers`.
//!
//! It re-exports the core's crates, so that a crate that uses the engine needn't list them.
#![tactic(auto)]

pub mod answers;
pub mod bell;
pub mod engine;
pub mod enqueue;
pub mod load;

pub use foyer_core_access as core_access;
pub use foyer_core_shared as core_shared;
pub use foyer_core_shared::core_steps;
pub use foyer_io_disk as io_disk;
