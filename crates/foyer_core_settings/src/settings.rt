//! The sizes that a core is opened with.
ghost use Rattle.std.specs.Prelude.{◌≡◌, ◌^◌, ◌↔◌, false, IsOk, IsOkUnless};
ghost use Rattle.foyer_core_settings.specs.Sizes.{AreValid, IsDefaultShardCount, buffer_room};

use foyer_device_page::error::{Error, Result};
use foyer_device_page::io::bytes::PAGE;

/// The bytes of a blob index if none are given.
pub const DEFAULT_BLOB_INDEX_SIZE: usize = PAGE;

/// The least number of shards of the index if no number is given.
pub const MIN_DEFAULT_INDEXER_SHARDS: usize = 64;

/// The default number of shards leaves each shard at most this many bytes of the capacity: 512 pages. An insertion moves the entries after
/// its own in the shard. These are at most 24 KiB if the hashes spread evenly and each record takes a page.
pub const DEFAULT_SHARD_CAPACITY: usize = 512 * PAGE;

/// The number of flushers if none is given.
pub const DEFAULT_FLUSHERS: u32 = 1;

/// The bytes that may be queued if no number is given: 16 MiB.
pub const DEFAULT_SUBMIT_QUEUE_SIZE_THRESHOLD: usize = 16 * 1024 * 1024;

/// The bytes of all flushers' buffers together if no number is given: 16 MiB.
pub const DEFAULT_BUFFER_POOL_SIZE: usize = 16 * 1024 * 1024;

/// The number of reclaims that may run at a time if none is given.
pub const DEFAULT_RECLAIMERS: u32 = 1;

/// The number of clean blocks below which a reclaim may begin, if none is given.
pub const DEFAULT_CLEAN_BLOCK_THRESHOLD: usize = 1;

/// Whether deletes are logged if nothing is said.
pub const DEFAULT_TOMBSTONE_LOG: bool = false;

/// The greatest size of a block in bytes: offsets in a block have 32 bits.
pub const MAX_BLOCK_SIZE: usize = 1 << 32;

/// The sizes that a core is opened with.
#[derive(Clone, Copy, Debug, PartialEq, Eq)]
pub struct Settings {
    /// How many blocks the device has.
    pub blocks: u32,
    /// The bytes of a block, whole pages.
    pub block_size: usize,
    /// The bytes of a blob index, whole pages.
    pub blob_index_size: usize,
    /// How many flushers there are.
    pub flushers: u32,
    /// Into how many shards the index is divided.
    pub indexer_shards: usize,
    /// The limit of the sum of the queued pieces' sizes, in bytes. If the sum is more, a piece that isn't young is dropped, and its hash is
    /// deleted.
    pub submit_queue_size_threshold: usize,
    /// The bytes of all flushers' buffers together. Each flusher's buffer is an equal share, in whole pages.
    pub buffer_pool_size: usize,
    /// How many reclaims may run at a time.
    pub reclaimers: u32,
    /// A reclaim may begin if fewer blocks than this are clean. It may also begin if a flusher waits for a block.
    pub clean_block_threshold: usize,
    /// Whether each batch ends only once the log of deletes has answered for its marks.
    pub tombstone_log: bool,
}

/// Gives how many shards the index has if no number is given: the least power of two, from `MIN_DEFAULT_INDEXER_SHARDS` up,
/// that leaves at most `DEFAULT_SHARD_CAPACITY` bytes of the capacity to each shard.
pub fn default_indexer_shards(blocks: u32, block_size: usize) -> usize
    ensures { IsDefaultShardCount blocks block_size result }
{
    let capacity = (blocks as usize).saturating_mul(block_size);
    let wanted = capacity.div_ceil(DEFAULT_SHARD_CAPACITY);
    wanted.max(MIN_DEFAULT_INDEXER_SHARDS).next_power_of_two()
}

impl Settings {
    /// Gives settings of `blocks` blocks of `block_size` bytes each. All else is at its default.
    pub fn new(blocks: u32, block_size: usize) -> Settings
        ensures sizes { (result.blocks ≡ blocks) × (result.block_size ≡ block_size) }
        ensures defaults { (result.blob_index_size ≡ 4096) × (result.flushers ≡ 1)
            × (result.submit_queue_size_threshold ≡ 2 ^ 24) × (result.buffer_pool_size ≡ 2 ^ 24) }
        ensures shards { IsDefaultShardCount result.blocks result.block_size result.indexer_shards }
        ensures reclaims { (result.reclaimers ≡ 1) × (result.clean_block_threshold ≡ 1) }
        ensures log { result.tombstone_log ≡ false }
    {
        Settings {
            blocks,
            block_size,
            blob_index_size: DEFAULT_BLOB_INDEX_SIZE,
            flushers: DEFAULT_FLUSHERS,
            indexer_shards: default_indexer_shards(blocks, block_size),
            submit_queue_size_threshold: DEFAULT_SUBMIT_QUEUE_SIZE_THRESHOLD,
            buffer_pool_size: DEFAULT_BUFFER_POOL_SIZE,
            reclaimers: DEFAULT_RECLAIMERS,
            clean_block_threshold: DEFAULT_CLEAN_BLOCK_THRESHOLD,
            tombstone_log: DEFAULT_TOMBSTONE_LOG,
        }
    }

    /// Gives the same settings, except that `reclaimers` reclaims may run at a time. Default: `DEFAULT_RECLAIMERS`.
    pub fn with_reclaimers(self, reclaimers: u32) -> Settings
        ensures { result ≡ record self { reclaimers = reclaimers } }
    {
        Settings { reclaimers, ..self }
    }

    /// Gives the same settings with this clean block threshold. With 0, a reclaim begins only if a flusher waits for a block. Default:
    /// `DEFAULT_CLEAN_BLOCK_THRESHOLD`.
    pub fn with_clean_block_threshold(self, clean_block_threshold: usize) -> Settings
        ensures { result ≡ record self { clean_block_threshold = clean_block_threshold } }
    {
        Settings {
            clean_block_threshold,
            ..self
        }
    }

    /// Gives the same settings, with a log of deletes or without one. Default: `DEFAULT_TOMBSTONE_LOG`.
    pub fn with_tombstone_log(self, tombstone_log: bool) -> Settings
        ensures { result ≡ record self { tombstone_log = tombstone_log } }
    {
        Settings {
            tombstone_log,
            ..self
        }
    }

    /// The bytes of one flusher's buffer: its share of the pool, in whole pages; 0 without a flusher.
    pub fn buffer_room(&self) -> usize
        ensures { result ≡ buffer_room self.now }
    {
        if self.flushers == 0 {
            return 0;
        }
        self.buffer_pool_size / self.flushers as usize / PAGE * PAGE
    }

    /// Checks whether the sizes go together. Errors: `Config` unless all of this holds. There is a flusher, a shard and a reclaimer. There
    /// are at least as many blocks as flushers. Flushers and reclaimers together are below 2^32. A block and a blob index are whole pages.
    /// A blob index has a page, and is smaller than a block. A block has at most `MAX_BLOCK_SIZE` bytes. The pool has a page for each
    /// flusher.
    pub fn check(&self) -> Result<()>
        ensures sound { IsOk result ↔ AreValid self.now }
        ensures refused { IsOkUnless result Error.Config }
    {
        if self.flushers == 0 || self.indexer_shards == 0 || self.blocks < self.flushers {
            return Err(Error::Config);
        }
        if self.block_size % PAGE != 0 || self.block_size > MAX_BLOCK_SIZE {
            return Err(Error::Config);
        }
        if self.blob_index_size == 0
            || self.blob_index_size % PAGE != 0
            || self.blob_index_size >= self.block_size
        {
            return Err(Error::Config);
        }
        if self.buffer_room() == 0 {
            return Err(Error::Config);
        }
        if self.reclaimers == 0 || self.flushers.checked_add(self.reclaimers).is_none() {
            return Err(Error::Config);
        }
        Ok(())
    }
}
