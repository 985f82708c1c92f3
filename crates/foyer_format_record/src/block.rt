//! What the block engine keeps on its device.

pub mod buffer;
pub mod serde;
