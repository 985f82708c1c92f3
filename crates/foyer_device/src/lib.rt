//! Errors, buffers of whole pages, devices with their partitions, their limits and counters.
//!
//! A door: it re-exports names of its parts, `foyer_device_page`, `foyer_device_throttle`, `foyer_device_partition` and
//! `foyer_device_statistics`, and has no code of its own.
#![tactic(auto)]

pub mod io;

pub use foyer_device_page::error;
