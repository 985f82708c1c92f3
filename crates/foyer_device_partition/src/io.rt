//! Devices that are cut into partitions.

pub mod device;
