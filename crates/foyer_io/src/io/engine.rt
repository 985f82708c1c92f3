//! I/O engines: over files, over memory, over nothing, with faults, and with counters.
pub use foyer_io_engine::io::engine::{
    FaultIoEngine, FaultIoEngineConfig, IoEngine, IoEngineBuildContext, IoEngineConfig, IoHandle,
    MemoryFile, MemoryIoEngine, NoopIoEngine, NoopIoEngineConfig, NotingPsyncIoEngineConfig,
    PsyncIoEngine, PsyncIoEngineConfig, ReadBuffer, SharedMemoryIoEngine,
    SharedMemoryIoEngineConfig, WriteBuffer,
};
pub use foyer_io_monitor::MonitoredIoEngine;
