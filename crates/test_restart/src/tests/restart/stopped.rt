//! Runs that are stopped before each write and inside each one.
use crate::tests::restart::reopened::{Found, Reopened, Torn, find, reopen};
use crate::tests::restart::running::{
    Issued, NextBlock, Running, address_of, begin, begin_flush, do_next, end_flush, keys,
    next_block, put, sizes, take_issued,
};
use foyer_block_index::indexer::EntryAddress;
use foyer_block_index::manager::BlockId;
use foyer_core_run::reclaims::reclaim_block;
use foyer_core_steps::open::RecoverMode;
use foyer_core_steps::reply::Reply;
use foyer_device_page::error::Result;
use std::alloc::Global;
use std::test::Fail;

// What became of a key.
#[derive(Clone, Copy, Debug, PartialEq, Eq)]
enum Verdict {
    // The very address was found.
    Again,
    // A newer text was found, in a block that was being written.
    Newer,
    // Its block was being written, and an older text or none was found.
    Lost,
    // The index had nothing of it.
    Other,
    // What the law excludes, or a text that isn't the key's.
    Wrong,
}

/// How many were judged so.
#[derive(Clone, Copy, Debug, Default)]
pub(crate) struct Tally {
    pub(crate) reclaims: u64,
    pub(crate) stops: u64,
    pub(crate) idle: u64,
    pub(crate) again: u64,
    pub(crate) newer: u64,
    pub(crate) lost: u64,
    pub(crate) wrong: u64,
}

// The blocks that are being written.
fn written(run: &Running) -> [Option<BlockId>; 2] {
    [block_at(run, 0), block_at(run, 1)]
}

fn block_at(run: &Running, flusher: usize) -> Option<BlockId> {
    match run.issued.get(flusher) {
        Some(Some(issued)) => Some(issued.block),
        _ => None,
    }
}

fn is_among(blocks: &[Option<BlockId>; 2], block: BlockId) -> bool {
    blocks[0] == Some(block) || blocks[1] == Some(block)
}

// Whether it is the same address, in the filling with which a core begins.
fn is_same(before: &EntryAddress, found: &EntryAddress) -> bool {
    *found
        == EntryAddress {
            filling: 0,
            ..*before
        }
}

// Judges what was found of a key whose address the stopped core had.
fn judge_found(
    before: &EntryAddress,
    found: &EntryAddress,
    blocks: &[Option<BlockId>; 2],
) -> Verdict {
    if is_same(before, found) {
        return Verdict::Again;
    }
    if found.sequence > before.sequence && is_among(blocks, found.block) {
        return Verdict::Newer;
    }
    if is_among(blocks, before.block) {
        Verdict::Lost
    } else {
        Verdict::Wrong
    }
}

// Judges a key.
fn judge_key(
    before: Option<EntryAddress>,
    found: Option<Found>,
    blocks: &[Option<BlockId>; 2],
) -> Verdict {
    match (before, found) {
        (None, None) => Verdict::Other,
        (Some(address), None) => {
            if is_among(blocks, address.block) {
                Verdict::Lost
            } else {
                Verdict::Wrong
            }
        }
        (None, Some(found)) => {
            if found.is_text {
                Verdict::Other
            } else {
                Verdict::Wrong
            }
        }
        (Some(address), Some(found)) => {
            if found.is_text {
                judge_found(&address, &found.address, blocks)
            } else {
                Verdict::Wrong
            }
        }
    }
}

// Counts a verdict.
fn count(tally: &mut Tally, verdict: Verdict) {
    match verdict {
        Verdict::Again => tally.again = tally.again.saturating_add(1),
        Verdict::Newer => tally.newer = tally.newer.saturating_add(1),
        Verdict::Lost => tally.lost = tally.lost.saturating_add(1),
        Verdict::Other => {}
        Verdict::Wrong => tally.wrong = tally.wrong.saturating_add(1),
    }
}

// Judges each key of what was opened.
fn judge_all(
    alloc: Global,
    run: &mut Running,
    opened: &mut Reopened,
    blocks: &[Option<BlockId>; 2],
    tally: &mut Tally,
) -> Result<()> {
    for key in keys() {
        let before = address_of(run, key);
        let found = find(alloc, opened, key)?;
        count(tally, judge_key(before, found, blocks));
    }
    Ok(())
}

/// Stops the run here, opens its bytes, and judges what is found.
pub(crate) fn stop(
    alloc: Global,
    run: &mut Running,
    torn: Option<Torn<'_>>,
    blocks: &[Option<BlockId>; 2],
    tally: &mut Tally,
) -> Result<()> {
    tally.stops = tally.stops.saturating_add(1);
    if *blocks == [None, None] {
        tally.idle = tally.idle.saturating_add(1);
    }
    let mode = if tally.stops % 2 == 0 {
        RecoverMode::Quiet
    } else {
        RecoverMode::Strict
    };
    let mut opened = reopen(alloc, run, torn, mode)?;
    judge_all(alloc, run, &mut opened, blocks, tally)
}

/// After how many bytes a write of whole pages is stopped: none, 1, 511, and each page.
pub(crate) fn cut_at(number: usize) -> usize {
    match number {
        0 => 0,
        1 => 1,
        2 => 511,
        pages => pages.saturating_sub(2).saturating_mul(4096),
    }
}

// Stops before and inside the next write of what was issued.
fn stop_inside(
    alloc: Global,
    run: &mut Running,
    issued: &Issued,
    blocks: &[Option<BlockId>; 2],
    tally: &mut Tally,
) -> Result<()> {
    let Some(write) = issued.writes.get(issued.next) else {
        return Ok(());
    };
    let bytes = write.bytes.as_slice();
    for number in 0..bytes.len() / 4096 + 3 {
        let torn = Torn {
            block: issued.block,
            offset: write.offset,
            bytes: &bytes[..cut_at(number).min(bytes.len())],
        };
        stop(alloc, run, Some(torn), blocks, tally)?;
    }
    Ok(())
}

// Asks for the next block of a flush after a stop, and reclaims one if none is clean. Says whether the flush goes on.
fn ask_block(alloc: Global, run: &mut Running, flusher: u32, tally: &mut Tally) -> Result<bool> {
    let blocks = written(run);
    stop(alloc, run, None, &blocks, tally)?;
    match next_block(run, flusher) {
        NextBlock::Given => Ok(true),
        NextBlock::NoBlock => {
            if let Reply::Done = reclaim_block(&mut run.core, &mut run.env, &mut run.disk) {
                tally.reclaims = tally.reclaims.saturating_add(1);
            }
            Ok(true)
        }
        NextBlock::Ended => Ok(false),
    }
}

// Does a flusher's next write, or asks for its next block, with all stops before and inside. Whether the flush goes on.
fn go_on(alloc: Global, run: &mut Running, flusher: u32, tally: &mut Tally) -> Result<bool> {
    let blocks = written(run);
    let Some(issued) = take_issued(run, flusher) else {
        return ask_block(alloc, run, flusher, tally);
    };
    stop_inside(alloc, run, &issued, &blocks, tally)?;
    if !do_next(run, flusher, issued) {
        tally.wrong = tally.wrong.saturating_add(1);
    }
    Ok(true)
}

// Flushes what is queued at each flusher, one access of each in turn. How many flushes ended.
fn flush(alloc: Global, run: &mut Running, flushers: u32, tally: &mut Tally) -> Result<u64> {
    let mut under_way = [false, false];
    under_way[0] = begin_flush(run, 0);
    under_way[1] = flushers == 2 && begin_flush(run, 1);
    let mut ended = 0u64;
    for turn in 0..40u32 {
        let flusher = turn % 2;
        if under_way[flusher as usize] && !go_on(alloc, run, flusher, tally)? {
            under_way[flusher as usize] = false;
            if end_flush(run, flusher) {
                ended = ended.saturating_add(1);
            }
        }
    }
    Ok(ended)
}

// Twelve flushes of two puts each.
fn judge_run(alloc: Global, flushers: u32) -> Result<(u64, Tally)> {
    let mut tally = Tally::default();
    let mut run = begin(alloc, sizes(flushers))?;
    let rounds = if flushers == 2 { 6 } else { 12 };
    let mut flushes = 0u64;
    for _ in 0..rounds {
        for _ in 0..flushers {
            if !put(alloc, &mut run)? || !put(alloc, &mut run)? {
                tally.wrong = tally.wrong.saturating_add(1);
            }
        }
        flushes = flushes.saturating_add(flush(alloc, &mut run, flushers, &mut tally)?);
    }
    stop(alloc, &mut run, None, &[None, None], &mut tally)?;
    Ok((flushes, tally))
}

// An index that is written before its data, a commit before the last write, a flush into a block that isn't clean, or a scan
// that ends too early, fails here.
#[test]
fn one_flusher_stopped_anywhere_is_found_again(rt: HostRuntime) -> std::result::Result<(), Fail> {
    let (flushes, tally) = judge_run(rt.alloc(), 1)?;
    assert_eq!(rt; flushes, 12);
    assert_eq!(rt; tally.wrong, 0);
    assert!(rt; tally.idle > 12 && tally.stops > 100 && tally.reclaims > 0);
    assert!(rt; tally.again > 0 && tally.newer > 0 && tally.lost > 0);
    Ok(())
}

// Flushers whose blocks or indices are mixed up fail here too.
#[test]
fn two_flushers_stopped_anywhere_are_found_again(rt: HostRuntime) -> std::result::Result<(), Fail> {
    let (flushes, tally) = judge_run(rt.alloc(), 2)?;
    assert_eq!(rt; flushes, 12);
    assert_eq!(rt; tally.wrong, 0);
    assert!(rt; tally.idle > 5 && tally.stops > 100 && tally.reclaims > 0);
    assert!(rt; tally.again > 0 && tally.newer > 0 && tally.lost > 0);
    Ok(())
}
