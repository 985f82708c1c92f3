//! Lists of moves that end inside a flush, and behind a reclaim or before its clean.
use crate::tests::restart::reopened::{Reopened, find};
use crate::tests::restart::running::{Plain, key_of, keys, piece_of, sizes};
use foyer_core_run::moves::Move;
use foyer_core_run::stopped::run_and_reopen;
use foyer_core_steps::apply::Env;
use foyer_core_steps::open::RecoverMode;
use foyer_device_page::error::Result;
use std::alloc::Global;
use std::fmt::Write as _;
use std::test::Fail;

type TextMove = Move<u64, String, Plain, Global>;

// A put and its flush, up to its n-th write.
fn add_flush(alloc: Global, moves: &mut Vec<TextMove>, put: u64, writes: u32) -> Result<()> {
    let flusher = 0;
    let piece = piece_of(alloc, put)?;
    moves.push(Move::Enqueue { piece, size: 1000 })?;
    moves.push(Move::Receive { flusher })?;
    moves.push(Move::FlushBegin { flusher })?;
    moves.push(Move::FlushBlock { flusher })?;
    for _ in 0..writes {
        moves.push(Move::FlushWrote { flusher })?;
    }
    Ok(())
}

// The put of another key stands in the block that is being written, with the zeros behind it, and its index isn't written yet:
// how many replies there were, whether the first put is found, and whether the second is.
fn found_in_a_flush(alloc: Global) -> Result<(usize, bool, bool)> {
    let mut moves = Vec::new(alloc);
    add_flush(alloc, &mut moves, 1, 3)?;
    moves.push(Move::FlushEnd { flusher: 0 })?;
    add_flush(alloc, &mut moves, 2, 2)?;
    let mut first = Env::with_default_pickers(alloc, 0)?;
    let mut env = Env::with_default_pickers(alloc, 0)?;
    let mode = RecoverMode::Quiet;
    let left = run_and_reopen(alloc, &mut first, &mut env, sizes(1), mode, moves)?;
    let replies = left.replies.len();
    let mut opened = Reopened {
        core: left.core,
        env,
        disk: left.disk,
    };
    let one = find(alloc, &mut opened, key_of(1))?;
    let two = find(alloc, &mut opened, key_of(2))?;
    let is_text = one.is_some_and(|found| found.is_text);
    Ok((replies, is_text, two.is_some()))
}

#[test]
fn moves_that_end_inside_a_flush_leave_what_was_committed(
    rt: HostRuntime,
) -> std::result::Result<(), Fail> {
    assert!(rt; found_in_a_flush(rt.alloc())? == (14, true, false));
    Ok(())
}

// Reclaims a block that nothing of is admitted, up to its clean or before it.
fn add_reclaim(moves: &mut Vec<TextMove>, block: u32, is_cleaned: bool) -> Result<()> {
    moves.push(Move::ReclaimBegin)?;
    for _ in 0..4 {
        moves.push(Move::ReclaimRead { block })?;
    }
    moves.push(Move::ReclaimForget { block })?;
    if is_cleaned {
        moves.push(Move::ReclaimCleaned { block })?;
    }
    Ok(())
}

// Gives the sequences that are found of the keys in their order, 0 for none. Nine puts fill three blocks, and the first two blocks are
// reclaimed. The second of them is reclaimed up to its clean or before it.
fn found_behind(alloc: Global, is_cleaned: bool) -> Result<String> {
    let mut moves = Vec::new(alloc);
    for put in 1..10 {
        add_flush(alloc, &mut moves, put, 0)?;
        // If the block had no room, it was left, and this asks for the next one.
        moves.push(Move::FlushBlock { flusher: 0 })?;
        moves.push(Move::FlushWrote { flusher: 0 })?;
        moves.push(Move::FlushWrote { flusher: 0 })?;
        moves.push(Move::FlushWrote { flusher: 0 })?;
        moves.push(Move::FlushEnd { flusher: 0 })?;
    }
    add_reclaim(&mut moves, 0, true)?;
    add_reclaim(&mut moves, 1, is_cleaned)?;
    let mut first = Env::with_default_pickers(alloc, 0)?;
    let mut env = Env::with_default_pickers(alloc, 0)?;
    let settings = sizes(1).with_clean_block_threshold(2);
    let mode = RecoverMode::Strict;
    let left = run_and_reopen(alloc, &mut first, &mut env, settings, mode, moves)?;
    let has_failed = left.has_failed;
    let mut opened = Reopened {
        core: left.core,
        env,
        disk: left.disk,
    };
    let mut text = String::new(alloc);
    if has_failed {
        write!(&mut text, "an access failed ")?;
    }
    for key in keys() {
        let sequence = match find(alloc, &mut opened, key)? {
            Some(found) if found.is_text => found.address.sequence,
            _ => 0,
        };
        write!(&mut text, "{sequence} ")?;
    }
    Ok(text)
}

// The first block's puts had newer ones behind them; the second block's are gone once it is cleaned.
#[test]
fn moves_that_reclaim_leave_the_blocks_that_they_did_not_clean(
    rt: HostRuntime,
) -> std::result::Result<(), Fail> {
    let alloc = rt.alloc();
    assert_eq!(rt; found_behind(alloc, true)?.as_str(), "0 7 8 9 0 0 ");
    assert_eq!(rt; found_behind(alloc, false)?.as_str(), "6 7 8 9 4 5 ");
    Ok(())
}
