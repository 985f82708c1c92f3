//! The engine that threads share, its workers, what it is built of, and its sizes.
pub use foyer_block::block::recover::RecoverMode;
pub use foyer_storage_build::config::{
    BlockEngineConfig, BlockFlusher, BlockListings, BlockOpening, BlockReclaimer, BlockRecoverer,
    Built, BuiltEngine, DefaultPickers, DeviceBlocks, DeviceEngine, DeviceLog, DeviceSummary,
    Engine, EngineBuildContext, EngineConfig, EngineWork, GivenPickers, NoopEngine,
    NoopEngineConfig, NoopOpening, PickerSource, RecoveredBlocks, Recovering,
};
pub use foyer_storage_build::engine::bell::Bell;
pub use foyer_storage_build::engine::core_steps::settings::{
    DEFAULT_BLOB_INDEX_SIZE, DEFAULT_BUFFER_POOL_SIZE, DEFAULT_CLEAN_BLOCK_THRESHOLD,
    DEFAULT_FLUSHERS, DEFAULT_RECLAIMERS, DEFAULT_SHARD_CAPACITY,
    DEFAULT_SUBMIT_QUEUE_SIZE_THRESHOLD, DEFAULT_TOMBSTONE_LOG, MAX_BLOCK_SIZE,
    MIN_DEFAULT_INDEXER_SHARDS, default_indexer_shards,
};
pub use foyer_storage_build::engine::engine::counts::{WorkCounters, WorkCounts};
pub use foyer_storage_build::engine::engine::signals::Signals;
pub use foyer_storage_build::engine::engine::waits::Waits;
pub use foyer_storage_build::engine::engine::{BlockEngine, Enqueued};
pub use foyer_storage_build::engine::load::{Load, Populated, decide_load};
pub use foyer_storage_build::threads::hand::Hand;
pub use foyer_storage_build::threads::recover::{
    DiskRecoverer, NoRecoverer, Recoverer, add_all, list_blocks,
};
pub use foyer_storage_build::threads::workers::{
    Clock, FlusherParts, FlusherWorker, Moment, NoWorker, ReclaimerParts, ReclaimerWorker,
    SystemClock, Worker, Workers,
};
pub use foyer_storage_plan::sizes::{
    DEFAULT_BLOCK_SIZE, DEFAULT_ENQUEUE_PATIENCE, DEFAULT_LOAD_ENGINES,
    DEFAULT_RECOVER_CONCURRENCY, EngineSizes,
};
