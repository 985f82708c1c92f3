//! Bytes, devices, I/O engines and disks.
pub use foyer_device::io::{bytes, device};
pub use foyer_io::io::{disk, engine};
