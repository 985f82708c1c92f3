//! How partitions are read and written.
pub mod disk;
pub mod engine;
