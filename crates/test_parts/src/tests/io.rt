//! Devices and engines over real files and over memory.

mod devices;
pub mod engines;
