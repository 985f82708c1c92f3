//! Runs that are stopped before, inside and behind the clean of a reclaimed block.
use crate::tests::restart::reopened::Torn;
use crate::tests::restart::running::{Running, apply, begin, flush_puts, sizes};
use crate::tests::restart::stopped::{Tally, cut_at, stop};
use foyer_block_index::manager::BlockId;
use foyer_core_steps::reply::Reply;
use foyer_core_steps::settings::Settings;
use foyer_core_steps::step::Step;
use foyer_device_page::error::{Error, Result};
use foyer_io_disk::disk::Disk;
use std::alloc::Global;
use std::test::Fail;

// Lists a reclaimed block. Whether all of it is listed.
fn list(alloc: Global, run: &mut Running, block: BlockId) -> Result<bool> {
    let mut place = 0usize;
    for _ in 0..10 {
        let mut page = Vec::new(alloc);
        page.resize(4096, 0)?;
        let (page, outcome) = run.disk.read(block, place, page);
        outcome?;
        let read = Step::ReclaimRead {
            block,
            result: Ok(page),
        };
        match apply(run, read) {
            Reply::Scan {
                block: _,
                offset,
                len: _,
                verdicts: _,
            } => place = offset,
            Reply::Listed { verdicts: _ } => return Ok(true),
            _ => return Ok(false),
        }
    }
    Ok(false)
}

// Reclaims a block, up to its clean.
fn reclaim_up_to_clean(alloc: Global, run: &mut Running) -> Result<BlockId> {
    let Reply::Picked {
        block,
        answers: _,
        probation: _,
    } = apply(run, Step::ReclaimBegin)
    else {
        return Err(Error::Config);
    };
    if !list(alloc, run, block)? {
        return Err(Error::Config);
    }
    match apply(run, Step::ReclaimForget { block }) {
        Reply::Clean(cleaned) => Ok(cleaned),
        _ => Err(Error::Config),
    }
}

// Stops here, and opens in each mode that reads.
fn stop_twice(
    alloc: Global,
    run: &mut Running,
    torn: Option<Torn<'_>>,
    tally: &mut Tally,
) -> Result<()> {
    stop(alloc, run, torn, &[None, None], tally)?;
    stop(alloc, run, torn, &[None, None], tally)
}

// Reclaims the block of the first three puts. The other two puts stand in another block. The run stops before the block's clean, inside it,
// and behind it.
fn stop_around_a_clean(alloc: Global) -> Result<Tally> {
    let settings = Settings {
        clean_block_threshold: 3,
        ..sizes(1)
    };
    let mut run = begin(alloc, settings)?;
    if !flush_puts(alloc, &mut run, 5)? {
        return Err(Error::Config);
    }
    let block = reclaim_up_to_clean(alloc, &mut run)?;
    let zeros = [0u8; 4096];
    let mut tally = Tally::default();
    for number in 0..4usize {
        let torn = Torn {
            block,
            offset: 0,
            bytes: &zeros[..cut_at(number).min(4096)],
        };
        stop_twice(alloc, &mut run, Some(torn), &mut tally)?;
    }
    run.disk.write(block, 0, &zeros)?;
    let result = Ok(());
    let Reply::Done = apply(&mut run, Step::ReclaimCleaned { block, result }) else {
        return Err(Error::Config);
    };
    stop_twice(alloc, &mut run, None, &mut tally)?;
    Ok(tally)
}

#[test]
fn a_run_stopped_inside_a_clean_is_found_again(rt: HostRuntime) -> std::result::Result<(), Fail> {
    let tally = stop_around_a_clean(rt.alloc())?;
    assert!(rt; tally.stops == 10 && tally.again == 20);
    assert!(rt; tally.wrong == 0 && tally.lost == 0 && tally.newer == 0);
    Ok(())
}
