//! What is known of a block.
ghost use Rattle.std.specs.Prelude.{◌≡◌};

use foyer_block_index::manager::BlockId;

/// Which of the four sets a block is in.
#[derive(Clone, Copy, Debug, PartialEq, Eq)]
pub enum BlockSet {
    /// It may be handed out.
    Clean,
    /// This flusher has it.
    Writing(u32),
    /// It may be reclaimed.
    Evictable,
    /// A reclaim has it.
    Reclaiming,
}

/// What pickers know of a block.
#[derive(Clone, Copy, Debug, Default, PartialEq, Eq)]
pub struct BlockStatistics {
    /// The bytes of its records that deletes made invalid.
    pub invalid: usize,
    /// How many loads read it.
    pub access: usize,
    /// Whether its entries are old.
    pub probation: bool,
}

/// What is known of a block.
#[derive(Clone, Copy, Debug, PartialEq, Eq)]
pub struct BlockState {
    /// The set that it is in.
    pub block_set: BlockSet,
    /// How often it was handed out or destroyed.
    pub filling: u64,
    /// What pickers know of it.
    pub statistics: BlockStatistics,
}

/// A block as the manager gives it, with what was known of it at that moment.
#[derive(Debug, Drop)]
pub struct Block {
    pub(crate) id: BlockId,
    pub(crate) size: usize,
    pub(crate) statistics: BlockStatistics,
}

impl Block {
    /// Its number.
    pub fn id(&self) -> BlockId
        ensures { result ≡ self.now.id }
    {
        self.id
    }

    /// Its size in bytes.
    pub fn size(&self) -> usize
        ensures { result ≡ self.now.size }
    {
        self.size
    }

    /// What pickers knew of it when it was given.
    pub fn statistics(&self) -> &BlockStatistics
        ensures { result.now ≡ self.now.statistics }
    {
        &self.statistics
    }
}

/// The answer to a flusher that asks for a block: one, or none yet.
pub type GetCleanBlockHandle = Option<Block>;
