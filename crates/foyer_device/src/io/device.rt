//! Devices of each kind, their partitions, limits and counters.
pub use foyer_device_partition::io::device::{
    AnyDevice, AnyPartition, CombinedDevice, CombinedDeviceBuilder, CombinedPartition, Device,
    DeviceBuilder, FileDevice, FileDeviceBuilder, FileFault, FileFaults, FilePartition, FsDevice,
    FsDeviceBuilder, FsPartition, MAX_PARTITIONS, MemoryDevice, MemoryDeviceBuilder,
    MemoryPartition, NoopDevice, NoopDeviceBuilder, NoopPartition, PartialDevice,
    PartialDeviceBuilder, PartialPartition, Partition, PartitionId, RawFile, partition_path,
};
pub use foyer_device_statistics::{IoState, Meters, Recorder, Seat, Statistics, Totals};
pub use foyer_device_throttle::{IopsCounter, Meter, Throttle};
