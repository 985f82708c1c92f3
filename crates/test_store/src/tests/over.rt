//! What a store is built over, by words.
use foyer_block_recover::block::recover::RecoverMode;
use foyer_device_partition::io::device::{IopsCounter, Throttle};
use foyer_format_record::compress::Compression;
use foyer_io_gate::gate::Point;

const PAGE: usize = 4096;

/// The limits of a device, each with 0 none, and the bytes for each of which a call counts 1, with 0 one for each call.
#[derive(Clone, Copy)]
pub(crate) struct Limits {
    pub(crate) reads: usize,
    pub(crate) writes: usize,
    pub(crate) read_bytes: usize,
    pub(crate) write_bytes: usize,
    pub(crate) per: usize,
}

/// The sizes of an engine.
#[derive(Clone, Copy)]
pub(crate) struct Sizes {
    pub(crate) blocks: u32,
    /// The pages of a block, of which one is its index.
    pub(crate) pages: u32,
    /// The bytes of an index.
    pub(crate) index: usize,
    /// The shards of the engine's index, if they are given.
    pub(crate) index_shards: Option<usize>,
    /// The clean blocks below which a reclaim may begin.
    pub(crate) clean: usize,
    pub(crate) flushers: u32,
    pub(crate) reclaimers: u32,
    /// The workers that read the blocks at an opening.
    pub(crate) recoverers: usize,
    /// The I/O engines that loads read through.
    pub(crate) loads: usize,
    /// The bytes of all flushers' buffers.
    pub(crate) buffer: usize,
    /// The queued bytes above which pieces aren't taken.
    pub(crate) queue: usize,
    /// How often a put that finds so many queued looks again.
    pub(crate) patience: u32,
    pub(crate) has_log: bool,
}

/// What chooses the blocks that are reclaimed.
#[derive(Clone, Copy, PartialEq, Eq)]
pub(crate) enum Picks {
    /// The pickers that a config has if none are given.
    Usual,
    /// No picker, so the generator.
    None,
    Fifo,
    Ratio,
    /// One of these tests, in a box, before one by age.
    Boxed,
    /// The same by its own type, beside a condition of these tests.
    Own,
}

/// Which device the blocks are on.
#[derive(Clone, Copy, PartialEq, Eq)]
pub(crate) enum Kind {
    Memory,
    /// A part of a device that has twice the bytes.
    Partial,
    /// Two devices, each with half of the bytes.
    Combined,
}

/// What a store is built over, and how it is set.
#[derive(Clone, Copy)]
pub(crate) struct Over {
    /// Whether it has no engine.
    pub(crate) is_nothing: bool,
    pub(crate) kind: Kind,
    pub(crate) sizes: Sizes,
    pub(crate) limits: Limits,
    pub(crate) picks: Picks,
    /// How many cores it is opened over, each with a device of its own; 0 if it is built of one engine.
    pub(crate) cores: u64,
    /// The shards of its keeper.
    pub(crate) shards: usize,
    /// Whether it admits what isn't forced.
    pub(crate) admits: bool,
    pub(crate) mode: RecoverMode,
    pub(crate) compression: Compression,
    /// The point at which its threads are held.
    pub(crate) point: Option<Point>,
    /// Whether each thread lets others go first at every point.
    pub(crate) naps: bool,
    /// Whether reclaims have records of texts of eight bytes and more written again. `is_patient` says whether they do so only if no write
    /// has to wait.
    pub(crate) writes_again: bool,
    pub(crate) is_patient: bool,
    /// Which access of each I/O engine fails, with 0 none; a write after the bytes that are kept.
    pub(crate) access: u64,
    pub(crate) kept: usize,
    /// Whether all later accesses fail too, with 0 all.
    pub(crate) stops: bool,
    /// The milliseconds at which it is built.
    pub(crate) start: u64,
    /// What the generator begins with.
    pub(crate) seed: u64,
}

/// Four blocks, each with room for three records, and one flusher, which hold nobody, admit all, and fail nothing. A buffer is less than
/// usual, since it is zeroed, which an unproved run does byte by byte.
pub(crate) const USUAL: Over = Over {
    is_nothing: false,
    kind: Kind::Memory,
    sizes: Sizes {
        blocks: 4,
        pages: 4,
        index: PAGE,
        index_shards: None,
        clean: 1,
        flushers: 1,
        reclaimers: 1,
        recoverers: 8,
        loads: 1,
        buffer: 262_144,
        queue: 16_777_216,
        patience: 0,
        has_log: false,
    },
    limits: Limits {
        reads: 0,
        writes: 0,
        read_bytes: 0,
        write_bytes: 0,
        per: 0,
    },
    picks: Picks::Usual,
    cores: 0,
    shards: 4,
    admits: true,
    mode: RecoverMode::Quiet,
    compression: Compression::None,
    point: None,
    naps: false,
    writes_again: false,
    is_patient: false,
    access: 0,
    kept: 0,
    stops: false,
    start: 0,
    seed: 0,
};

impl Sizes {
    /// The bytes of a block.
    pub(crate) fn block_size(&self) -> usize {
        PAGE.saturating_mul(self.pages as usize)
    }

    /// The bytes of all blocks, and of a log, which has one page for so few.
    pub(crate) fn capacity(&self) -> usize {
        let blocks = self.block_size().saturating_mul(self.blocks as usize);
        if self.has_log {
            blocks.saturating_add(PAGE)
        } else {
            blocks
        }
    }
}

impl Limits {
    /// The limits as a device has them.
    pub(crate) fn throttle(&self) -> Throttle {
        let counter = if self.per == 0 {
            IopsCounter::PerIo
        } else {
            IopsCounter::per_io_size(self.per)
        };
        Throttle::new()
            .with_read_iops(self.reads)
            .with_write_iops(self.writes)
            .with_read_throughput(self.read_bytes)
            .with_write_throughput(self.write_bytes)
            .with_iops_counter(counter)
    }
}

fn point_of(word: &str) -> Option<Point> {
    match word {
        "flush" => Some(Point::FlushWrite),
        "load" => Some(Point::LoadRead),
        "reclaim" => Some(Point::Reclaim),
        "recover" => Some(Point::RecoverRead(0)),
        _ => None,
    }
}

fn mode_of(word: &str) -> RecoverMode {
    match word {
        "none" => RecoverMode::None,
        "strict" => RecoverMode::Strict,
        _ => RecoverMode::Quiet,
    }
}

fn compression_of(word: &str) -> Compression {
    match word {
        "zstd" => Compression::Zstd,
        "lz4" => Compression::Lz4,
        _ => Compression::None,
    }
}

fn picks_of(word: &str) -> Picks {
    match word {
        "none" => Picks::None,
        "fifo" => Picks::Fifo,
        "ratio" => Picks::Ratio,
        "boxed" => Picks::Boxed,
        "own" => Picks::Own,
        _ => Picks::Usual,
    }
}

fn kind_of(word: &str) -> Kind {
    match word {
        "partial" => Kind::Partial,
        "combined" => Kind::Combined,
        _ => Kind::Memory,
    }
}

fn with_limit(limits: Limits, word: &str, bytes: usize) -> Limits {
    match word {
        "reads" => Limits {
            reads: bytes,
            ..limits
        },
        "writes" => Limits {
            writes: bytes,
            ..limits
        },
        "read-bytes" => Limits {
            read_bytes: bytes,
            ..limits
        },
        "write-bytes" => Limits {
            write_bytes: bytes,
            ..limits
        },
        "per" => Limits {
            per: bytes,
            ..limits
        },
        _ => limits,
    }
}

fn with_size(sizes: Sizes, word: &str, bytes: usize) -> Sizes {
    match word {
        "index" => Sizes {
            index: bytes,
            ..sizes
        },
        "index-shards" => Sizes {
            index_shards: Some(bytes),
            ..sizes
        },
        "clean" => Sizes {
            clean: bytes,
            ..sizes
        },
        "recoverers" => Sizes {
            recoverers: bytes,
            ..sizes
        },
        "loads" => Sizes {
            loads: bytes,
            ..sizes
        },
        "buffer" => Sizes {
            buffer: bytes,
            ..sizes
        },
        "queue" => Sizes {
            queue: bytes,
            ..sizes
        },
        _ => sizes,
    }
}

fn with_count(sizes: Sizes, word: &str, count: u32) -> Sizes {
    match word {
        "blocks" => Sizes {
            blocks: count,
            ..sizes
        },
        "pages" => Sizes {
            pages: count,
            ..sizes
        },
        "flushers" => Sizes {
            flushers: count,
            ..sizes
        },
        "reclaimers" => Sizes {
            reclaimers: count,
            ..sizes
        },
        "log" => Sizes {
            has_log: true,
            ..sizes
        },
        _ => sizes,
    }
}

fn with_number(over: Over, word: &str, how: &str) -> Over {
    let number = how.parse::<u64>().unwrap_or(0);
    let count = (number % 256) as u32;
    let bytes = (number % 1_048_576) as usize;
    match word {
        "shards" => Over {
            shards: bytes,
            ..over
        },
        "cores" => Over {
            cores: number,
            ..over
        },
        "fails" => Over {
            access: number,
            stops: false,
            ..over
        },
        "keeps" => Over {
            kept: bytes,
            ..over
        },
        "stops" => Over {
            access: number,
            stops: true,
            ..over
        },
        "starts" => Over {
            start: number,
            ..over
        },
        "seed" => Over {
            seed: number,
            ..over
        },
        "patience" => Over {
            sizes: Sizes {
                patience: u32::try_from(number).unwrap_or(u32::MAX),
                ..over.sizes
            },
            ..over
        },
        _ => Over {
            sizes: with_count(with_size(over.sizes, word, bytes), word, count),
            limits: with_limit(over.limits, word, bytes),
            ..over
        },
    }
}

fn with(over: Over, word: &str, how: &str) -> Over {
    match word {
        "nothing" => Over {
            is_nothing: true,
            ..over
        },
        "device" => Over {
            kind: kind_of(how),
            ..over
        },
        "picks" => Over {
            picks: picks_of(how),
            ..over
        },
        "packs" => Over {
            compression: compression_of(how),
            ..over
        },
        "rejects" => Over {
            admits: false,
            ..over
        },
        "opens" => Over {
            mode: mode_of(how),
            ..over
        },
        "holds" => Over {
            point: point_of(how),
            ..over
        },
        "naps" => Over { naps: true, ..over },
        "again" => Over {
            writes_again: true,
            ..over
        },
        "patient" => Over {
            is_patient: true,
            ..over
        },
        _ => with_number(over, word, how),
    }
}

/// Gives the same, except for what the words say. Commas part the words.
pub(crate) fn over_of(over: Over, words: &str) -> Over {
    let mut changed = over;
    for part in words.split(", ") {
        let (word, how) = part.split_once(' ').unwrap_or((part, ""));
        changed = with(changed, word, how);
    }
    changed
}
