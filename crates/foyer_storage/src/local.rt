//! The engine on one thread, and what its calls answer. None of them takes a handle.
pub use foyer_storage_local::engine::LocalEngine;
pub use foyer_storage_local::load::{Enqueued, Load, Populated};
