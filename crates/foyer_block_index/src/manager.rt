//! Blocks.

/// The number of a block, from 0 on.
pub type BlockId = u32;
