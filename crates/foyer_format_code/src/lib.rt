//! Codes of keys and values: types whose values are encoded as bytes, and the writers that take the bytes.
#![tactic(auto)]

mod codes;
mod coding;
pub mod laws;
mod sinks;

pub use coding::{Code, StorageKey, StorageValue};
pub use foyer_device_page as device_page;
pub use sinks::{Sink, TrackedWriter};
