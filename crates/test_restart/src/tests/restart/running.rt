//! A core over memory that flushes puts, write by write.
ghost use Rattle.std.specs.Prelude.{None};

use foyer_block_index::indexer::EntryAddress;
use foyer_block_index::manager::BlockId;
use foyer_core_access::disk::do_write;
use foyer_core_steps::apply::Env;
use foyer_core_steps::open::RecoverMode;
use foyer_core_steps::reply::{Reply, Write};
use foyer_core_steps::settings::Settings;
use foyer_core_steps::state::Core;
use foyer_core_steps::step::Step;
use foyer_device_page::error::Result;
use foyer_format_record::serde::{Age, Properties};
use foyer_io_blocks::memory::MemoryDisk;
use foyer_policy_piece::keeper::{Piece, PieceRef};
use std::alloc::{AllocError, Global};
use std::fmt::Write as _;

// An entry without an age.
#[derive(Clone, Copy, Debug)]
pub(crate) struct Plain;

impl Properties for Plain {
    ghost age = { λ _. None };

    fn age(&self) -> Option<Age> {
        None
    }
}

pub(crate) type TextCore = Core<u64, String, Plain, Global>;

type TextStep = Step<u64, String, Plain, Global>;

type TextReply = Reply<u64, String, Plain, Global>;

// Keys are 2 to 7, so a key is even if its put's number is even.
const KEYS: u64 = 6;

/// The key of the n-th put, which is its hash.
pub(crate) fn key_of(put: u64) -> u64 {
    put % KEYS + 2
}

/// The keys.
pub(crate) fn keys() -> std::ops::Range<u64> {
    2..KEYS + 2
}

/// The text of the n-th put: its number and its key over and over, in every third so often that the record has two pages.
pub(crate) fn text_of(alloc: Global, put: u64) -> std::result::Result<String, AllocError> {
    let key = key_of(put);
    let unit = format!(in alloc; "{put} of {key};")?;
    let times = if put % 3 == 0 { 700 } else { 100 };
    let mut text = String::new(alloc);
    for _ in 0..times {
        text.push_str(unit.as_str())?;
    }
    Ok(text)
}

/// The writes of a block that were issued, and which of them comes next.
#[derive(Drop)]
pub(crate) struct Issued {
    pub(crate) block: BlockId,
    pub(crate) writes: Vec<Write<Global>>,
    pub(crate) next: usize,
}

/// A core with its disk, what was issued to each flusher, and the number of the last put, which is also its sequence.
#[derive(Drop)]
pub(crate) struct Running {
    pub(crate) core: TextCore,
    pub(crate) env: Env,
    pub(crate) disk: MemoryDisk<Global>,
    pub(crate) issued: Vec<Option<Issued>>,
    pub(crate) puts: u64,
}

/// Three blocks of an index and four pages, for so many flushers.
pub(crate) fn sizes(flushers: u32) -> Settings {
    Settings {
        flushers,
        buffer_pool_size: 131072,
        ..Settings::new(3, 20480)
    }
}

/// Begins a run with a core that found nothing, since nothing was read.
pub(crate) fn begin_over(
    alloc: Global,
    settings: Settings,
    disk: MemoryDisk<Global>,
) -> Result<Running> {
    let mut disk = disk;
    let mut env = Env::with_default_pickers(alloc, 0)?;
    let core = Core::open(alloc, &mut env, settings, &mut disk, RecoverMode::None, &[])?;
    let mut issued = Vec::new(alloc);
    for _ in 0..settings.flushers {
        issued.push(None)?;
    }
    Ok(Running {
        core,
        env,
        disk,
        issued,
        puts: 0,
    })
}

/// The same over zeros.
pub(crate) fn begin(alloc: Global, settings: Settings) -> Result<Running> {
    let disk = MemoryDisk::new(alloc, settings.blocks, settings.block_size)?;
    begin_over(alloc, settings, disk)
}

/// Applies a step.
pub(crate) fn apply(run: &mut Running, step: TextStep) -> TextReply {
    run.core.apply(&mut run.env, step)
}

/// The piece of the n-th put.
pub(crate) fn piece_of(alloc: Global, put: u64) -> Result<PieceRef<u64, String, Plain, Global>> {
    let key = key_of(put);
    let text = text_of(alloc, put)?;
    let piece = Piece::new(alloc, key, text, key, Plain)?;
    Ok(PieceRef::from(piece))
}

/// Puts the next number's text. Whether it was queued under that number.
pub(crate) fn put(alloc: Global, run: &mut Running) -> Result<bool> {
    let number = run.puts.saturating_add(1);
    run.puts = number;
    let piece = piece_of(alloc, number)?;
    let size = 1000;
    match apply(run, Step::Enqueue { piece, size }) {
        Reply::Queued(sequence) => Ok(sequence == number),
        _ => Ok(false),
    }
}

/// Makes a batch of what is queued at a flusher. Whether it has blocks to write.
pub(crate) fn begin_flush(run: &mut Running, flusher: u32) -> bool {
    for _ in 0..100 {
        if let Reply::Empty = apply(run, Step::Receive { flusher }) {
            break;
        }
    }
    match apply(run, Step::FlushBegin { flusher }) {
        Reply::Began { blocks, marks: _ } => blocks > 0,
        _ => false,
    }
}

/// Takes the note of what was issued to a flusher.
pub(crate) fn take_issued(run: &mut Running, flusher: u32) -> Option<Issued> {
    match run.issued.get_mut(flusher as usize) {
        Some(slot) => slot.take(),
        None => None,
    }
}

/// Notes what was issued to a flusher.
pub(crate) fn note_issued(run: &mut Running, flusher: u32, issued: Issued) {
    if let Some(slot) = run.issued.get_mut(flusher as usize) {
        *slot = Some(issued);
    }
}

/// Does the next write of what was issued, and notes what is left. Whether it was in turn.
pub(crate) fn do_next(run: &mut Running, flusher: u32, issued: Issued) -> bool {
    let mut issued = issued;
    let Some(write) = issued.writes.get(issued.next) else {
        return false;
    };
    let result = do_write(&mut run.disk, issued.block, write);
    match apply(run, Step::FlushWrote { flusher, result }) {
        Reply::Next => {
            issued.next = issued.next.saturating_add(1);
            note_issued(run, flusher, issued);
            true
        }
        Reply::Committed(_) => true,
        _ => false,
    }
}

/// What a flush was answered that asked for its next block.
#[derive(Clone, Copy, Debug, PartialEq, Eq)]
pub(crate) enum NextBlock {
    Given,
    NoBlock,
    Ended,
}

/// Asks for the next block of a flush, and notes its writes. A block that the batch leaves as it is has none.
pub(crate) fn next_block(run: &mut Running, flusher: u32) -> NextBlock {
    match apply(run, Step::FlushBlock { flusher }) {
        Reply::Write { block, writes } => {
            if !writes.is_empty() {
                let next = 0;
                note_issued(
                    run,
                    flusher,
                    Issued {
                        block,
                        writes,
                        next,
                    },
                );
            }
            NextBlock::Given
        }
        Reply::NoBlock => NextBlock::NoBlock,
        _ => NextBlock::Ended,
    }
}

/// Ends a flush. Whether it was in turn.
pub(crate) fn end_flush(run: &mut Running, flusher: u32) -> bool {
    match apply(run, Step::FlushEnd { flusher }) {
        Reply::Ended {
            pieces: _,
            waits: _,
        } => true,
        _ => false,
    }
}

// Writes what was issued. Whether the block was committed.
fn write_block(run: &mut Running) -> bool {
    for _ in 0..10 {
        let Some(issued) = take_issued(run, 0) else {
            return true;
        };
        if !do_next(run, 0, issued) {
            return false;
        }
    }
    false
}

/// Puts so many numbers and flushes them, while there are clean blocks.
pub(crate) fn flush_puts(alloc: Global, run: &mut Running, count: u32) -> Result<bool> {
    for _ in 0..count {
        put(alloc, run)?;
    }
    let mut went_well = begin_flush(run, 0);
    for _ in 0..10 {
        if next_block(run, 0) == NextBlock::Given {
            went_well = write_block(run) && went_well;
        }
    }
    Ok(end_flush(run, 0) && went_well)
}

/// Gives where the index has a key.
pub(crate) fn address_of(run: &mut Running, key: u64) -> Option<EntryAddress> {
    let step = Step::LoadBegin {
        hash: key,
        throttled: false,
    };
    match apply(run, step) {
        Reply::Read(ticket) => Some(ticket.address),
        _ => None,
    }
}
