//! The sizes of an engine, as its config gives them.
ghost use Rattle.std.specs.Prelude.{◌≡◌, ◌⊎◌, ◌↔◌, ◌<◌, ◌≤◌, ◌^◌, None, Err, IsOk, IfErr, IfOk, IsOkUnless, IsTrue, OnErr, false};
ghost use Rattle.foyer_storage_plan.specs.Plans.{ArePlanned, AreSizes, HasRoom, IsFirstCause, LeavesBlocks, blocks_held, seats_of};

use foyer_core_settings::settings::{
    DEFAULT_BLOB_INDEX_SIZE, DEFAULT_BUFFER_POOL_SIZE, DEFAULT_CLEAN_BLOCK_THRESHOLD,
    DEFAULT_FLUSHERS, DEFAULT_RECLAIMERS, DEFAULT_SUBMIT_QUEUE_SIZE_THRESHOLD,
    DEFAULT_TOMBSTONE_LOG, MAX_BLOCK_SIZE, Settings, default_indexer_shards,
};
use foyer_device_page::error::{Error, Result};
use foyer_format_record::block::buffer::whole_pages;

/// The bytes of a block if none are given: 16 MiB.
pub const DEFAULT_BLOCK_SIZE: usize = 16 * 1024 * 1024;

/// The workers that read the blocks at an opening if none are given.
pub const DEFAULT_RECOVER_CONCURRENCY: usize = 8;

/// The I/O engines that loads read through if no number is given.
pub const DEFAULT_LOAD_ENGINES: usize = 1;

/// How often a put that finds the queue full looks again if no number is given: it never waits.
pub const DEFAULT_ENQUEUE_PATIENCE: u32 = 0;

/// The sizes of an engine, as its config gives them: any numbers; `check` refuses those that don't go together.
#[derive(Clone, Copy, Debug, PartialEq, Eq)]
pub struct EngineSizes {
    /// The bytes of a block, which are rounded up to whole pages.
    pub block_size: usize,
    /// The bytes of a blob index, which are rounded up to whole pages.
    pub blob_index_size: usize,
    /// Into how many shards the index is divided; `None`: into `default_indexer_shards` of the blocks that are planned.
    pub indexer_shards: Option<usize>,
    /// How many workers read the blocks at an opening.
    pub recover_concurrency: usize,
    /// How many I/O engines loads read through, each behind a lock of its own.
    pub load_engines: usize,
    /// How often a put that finds the queue full looks again, with a pause between, before it isn't taken.
    pub enqueue_patience: u32,
    /// How many flushers there are.
    pub flushers: u32,
    /// How many reclaims may run at a time.
    pub reclaimers: u32,
    /// The bytes of all flushers' buffers together. Each flusher's buffer is an equal share, in whole pages.
    pub buffer_pool_size: usize,
    /// The limit of the sum of the queued pieces' sizes, in bytes. If the sum is more, a piece that isn't young is dropped, and its hash is
    /// deleted.
    pub submit_queue_size_threshold: usize,
    /// A reclaim may begin if fewer blocks than this are clean, and also if a flusher waits for one.
    pub clean_block_threshold: usize,
    /// Whether deletes are logged.
    pub tombstone_log: bool,
}

/// Whether reclaims leave some of so many blocks alone. If the threshold is the number of blocks or more, each block is reclaimed as soon as
/// it is full, and nothing is kept. A threshold of at most 1 stands for any number of blocks, since a store of one block is a store too.
pub fn leaves_blocks(clean_block_threshold: usize, blocks: u32) -> bool
    ensures { IsTrue result ↔ LeavesBlocks clean_block_threshold blocks }
{
    clean_block_threshold <= 1 || clean_block_threshold < blocks as usize
}

impl EngineSizes {
    /// Every size at its default.
    pub fn new() -> EngineSizes
        ensures { result ≡ record {
          block_size = 2 ^ 24;
          blob_index_size = 4096;
          indexer_shards = None;
          recover_concurrency = 8;
          load_engines = 1;
          enqueue_patience = 0;
          flushers = 1;
          reclaimers = 1;
          buffer_pool_size = 2 ^ 24;
          submit_queue_size_threshold = 2 ^ 24;
          clean_block_threshold = 1;
          tombstone_log = false;
        } }
    {
        EngineSizes {
            block_size: DEFAULT_BLOCK_SIZE,
            blob_index_size: DEFAULT_BLOB_INDEX_SIZE,
            indexer_shards: None,
            recover_concurrency: DEFAULT_RECOVER_CONCURRENCY,
            load_engines: DEFAULT_LOAD_ENGINES,
            enqueue_patience: DEFAULT_ENQUEUE_PATIENCE,
            flushers: DEFAULT_FLUSHERS,
            reclaimers: DEFAULT_RECLAIMERS,
            buffer_pool_size: DEFAULT_BUFFER_POOL_SIZE,
            submit_queue_size_threshold: DEFAULT_SUBMIT_QUEUE_SIZE_THRESHOLD,
            clean_block_threshold: DEFAULT_CLEAN_BLOCK_THRESHOLD,
            tombstone_log: DEFAULT_TOMBSTONE_LOG,
        }
    }

    // The settings of a core of `blocks` blocks of these sizes.
    #[tactic(auto, unfolding(foyer_format_layout::specs::Page::page_up))]
    fn settings(&self, blocks: u32) -> Settings
        requires block { self.now.block_size ≤ 2 ^ 32 }
        requires index { self.now.blob_index_size ≤ 2 ^ 32 }
        ensures { ArePlanned self.now blocks result }
    {
        let block_size = whole_pages(self.block_size);
        let queued = self.submit_queue_size_threshold;
        Settings {
            blocks,
            block_size,
            blob_index_size: whole_pages(self.blob_index_size),
            flushers: self.flushers,
            indexer_shards: self
                .indexer_shards
                .unwrap_or_else(|| default_indexer_shards(blocks, block_size)),
            submit_queue_size_threshold: queued,
            buffer_pool_size: self.buffer_pool_size,
            reclaimers: self.reclaimers,
            clean_block_threshold: self.clean_block_threshold,
            tombstone_log: self.tombstone_log,
        }
    }

    /// Checks that the sizes go together, whatever the device. Errors: `Config` unless all of this holds. A block has from 1 to 2^32 bytes,
    /// and an index at least 1. Rounded up to whole pages, an index is smaller than a block. There is a flusher and a reclaimer, and both
    /// kinds together are below 2^32. Each flusher's share of the pool is at least a page. A number of shards, if given, is at least 1.
    /// There is a worker for openings and an I/O engine for loads.
    pub fn check(&self) -> Result<()>
        ensures sound { IsOk result ↔ AreSizes self.now }
        ensures refused { IsOkUnless result Error.Config }
    {
        if self.recover_concurrency == 0
            || self.load_engines == 0
            || self.block_size > MAX_BLOCK_SIZE
            || self.blob_index_size > MAX_BLOCK_SIZE
        {
            return Err(Error::Config);
        }
        // With the fewest blocks that these flushers need.
        self.settings(self.flushers).check()
    }

    // Whether there are seats at the device's counters for all, if there are so many blocks.
    fn has_seats(&self, blocks: u32) -> bool
        ensures { IsTrue result ↔ (seats_of self.now blocks < 2 ^ 32) }
    {
        if self.load_engines > u32::MAX as usize {
            return false;
        }
        let recoverers = self.recover_concurrency.min(blocks as usize) as u64;
        let workers = self.flushers as u64 + 2 * (self.reclaimers as u64) + recoverers;
        workers + self.load_engines as u64 + 2 <= u32::MAX as u64
    }

    /// Gives the settings of a core on a device that has `free` bytes free. The log of deletes takes `log` of them, 0 if there is no log.
    /// What is less than a block at their end stays free. Errors, in this order: `Config` as by `check`; `NoSpace` if the log takes more than
    /// is free, and only then; `Config` if there are fewer blocks than flushers, or 2^32 or more; if the threshold of clean blocks is above 1
    /// and not below the number of blocks; or if workers and I/O engines together need more than 2^32 - 1 seats at the device's counters.
    pub fn plan(&self, free: usize, log: usize) -> Result<Settings>
        ensures plan { IfOk result (ArePlanned self.now (blocks_held self.now free log)) }
        ensures sound { IsOk result ↔ (AreSizes self.now × HasRoom self.now free log) }
        ensures space { (result ≡ Err Error.NoSpace) ↔ (AreSizes self.now × (free < log)) }
        ensures refused { OnErr result ((result ≡ Err Error.Config) ⊎ (result ≡ Err Error.NoSpace)) }
        ensures order { IfErr result (IsFirstCause self.now free log) }
    {
        self.check()?;
        if log > free {
            return Err(Error::NoSpace);
        }
        let blocks = (free - log) / whole_pages(self.block_size);
        if blocks < self.flushers as usize || blocks > u32::MAX as usize {
            return Err(Error::Config);
        }
        let blocks = blocks as u32;
        if !leaves_blocks(self.clean_block_threshold, blocks) || !self.has_seats(blocks) {
            return Err(Error::Config);
        }
        Ok(self.settings(blocks))
    }
}
