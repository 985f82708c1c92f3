//! Disks of blocks: one in memory, and one of the partitions of any device by any I/O engine.
pub use foyer_io_blocks::memory::MemoryDisk;
pub use foyer_io_blocks::partitions::{PartitionedDisk, create_blocks, open_in_memory};
pub use foyer_io_disk::disk::Disk;
