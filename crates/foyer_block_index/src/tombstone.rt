//! Marks of deletes, and what deletes made invalid.

use crate::indexer::Sequence;
use crate::manager::BlockId;

/// The mark of a delete: what was put before its sequence under the hash is gone.
#[derive(Clone, Copy, Debug)]
pub struct Tombstone {
    /// The hash of the key.
    pub hash: u64,
    /// What was put before it is gone.
    pub sequence: Sequence,
}

/// Bytes of a block that a mark made invalid.
#[derive(Clone, Copy, Debug, PartialEq, Eq)]
pub struct InvalidStats {
    /// The block that has them.
    pub block: BlockId,
    /// In bytes, whole pages.
    pub size: usize,
}
