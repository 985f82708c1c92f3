//! How an I/O engine reads and writes partitions.

pub mod engine;
