//! Bytes, and the devices that keep them.
pub mod device;

pub use foyer_device_page::io::bytes;
