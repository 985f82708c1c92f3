//! Blocks: clean, being written, evictable or being reclaimed.
pub use foyer_block_manager::block::manager::{
    Block, BlockId, BlockManager, BlockSet, BlockState, BlockStatistics, GetCleanBlockHandle,
    ManagerConfig, ReclaimingBlock,
};
