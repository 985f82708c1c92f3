//! The buffers that devices and their engines use.

pub mod bytes;
