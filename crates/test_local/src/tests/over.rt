//! What an engine is opened over, by words.
use crate::tests::asked::{cut, number_of};
use foyer_core_steps::apply::Env;
use foyer_core_steps::open::RecoverMode;
use foyer_core_steps::settings::Settings;
use foyer_device_page::error::Result;
use foyer_policy_filter::{BuiltInCondition, EstimatedSize, StorageFilter};
use std::alloc::Global;
use std::ops::Bound;

const PAGE: usize = 4096;

/// What an engine is opened over, and how it is set.
#[derive(Clone, Copy)]
pub struct Over {
    pub blocks: u32,
    /// The pages of a block, of which one is its index.
    pub pages: usize,
    pub flushers: u32,
    /// The bytes of the buffers together.
    pub pool: usize,
    /// The queued bytes above which texts aren't taken.
    pub queue: usize,
    pub reclaimers: u32,
    /// The clean blocks below which a reclaim may begin.
    pub clean: usize,
    /// Reclaims have records of at least so many bytes written again; without it they have no filter.
    pub admits: Option<usize>,
    pub has_log: bool,
    pub mode: RecoverMode,
    /// Which access of the blocks fails, and which of the log, with 0 none; a write after the bytes that are kept.
    pub access: u64,
    pub log_access: u64,
    pub kept: usize,
    /// Whether all later accesses of them fail too.
    pub stops: bool,
}

/// One block with room for three records, and one flusher, which fail nothing.
pub const USUAL: Over = Over {
    blocks: 1,
    pages: 4,
    flushers: 1,
    pool: 65536,
    queue: 16_777_216,
    reclaimers: 1,
    clean: 1,
    admits: None,
    has_log: false,
    mode: RecoverMode::Quiet,
    access: 0,
    log_access: 0,
    kept: 0,
    stops: false,
};

impl Over {
    /// The bytes of a block.
    pub fn block_size(&self) -> usize {
        self.pages.saturating_mul(PAGE)
    }

    /// The bytes of all blocks, and of a log of one page.
    pub fn capacity(&self) -> usize {
        self.block_size()
            .saturating_mul(self.blocks as usize)
            .saturating_add(PAGE)
    }

    pub fn settings(&self) -> Settings {
        Settings {
            flushers: self.flushers,
            buffer_pool_size: self.pool,
            submit_queue_size_threshold: self.queue,
            reclaimers: self.reclaimers,
            clean_block_threshold: self.clean,
            ..Settings::new(self.blocks, self.block_size()).with_tombstone_log(self.has_log)
        }
    }

    /// The usual pickers, and the filter.
    pub fn env(&self, alloc: Global) -> Result<Env> {
        let env = Env::with_default_pickers(alloc, 0)?;
        match self.admits {
            None => Ok(env),
            Some(least) => {
                let condition = EstimatedSize::new(Bound::Included(least), Bound::Unbounded);
                let condition = BuiltInCondition::EstimatedSize(condition);
                let filter = StorageFilter::new().with_condition(alloc, condition)?;
                Ok(env.with_reinsertion(filter))
            }
        }
    }
}

fn with(over: Over, word: &str, number: u64) -> Over {
    let count = (number % 256) as u32;
    let bytes = (number % 4_294_967_296) as usize;
    match word {
        "blocks" => Over {
            blocks: count,
            ..over
        },
        "pages" => Over {
            pages: bytes,
            ..over
        },
        "flushers" => Over {
            flushers: count,
            ..over
        },
        "pool" => Over {
            pool: bytes,
            ..over
        },
        "queue" => Over {
            queue: bytes,
            ..over
        },
        "reclaimers" => Over {
            reclaimers: count,
            ..over
        },
        "clean" => Over {
            clean: bytes,
            ..over
        },
        "admits" => Over {
            admits: Some(bytes),
            ..over
        },
        "log" => Over {
            has_log: true,
            ..over
        },
        "unread" => Over {
            mode: RecoverMode::None,
            ..over
        },
        "fails" => Over {
            access: number,
            ..over
        },
        "log-fails" => Over {
            log_access: number,
            ..over
        },
        "keeps" => Over {
            kept: bytes,
            ..over
        },
        "stops" => Over {
            access: number,
            stops: true,
            ..over
        },
        "whole" => Over {
            access: 0,
            log_access: 0,
            stops: false,
            ..over
        },
        _ => over,
    }
}

/// Gives the same, except for what the words say. Commas part the words.
pub fn over_of(over: Over, words: &str) -> Over {
    let mut changed = over;
    for part in words.split(", ") {
        let (word, number) = cut(part);
        changed = with(changed, word, number_of(number));
    }
    changed
}
