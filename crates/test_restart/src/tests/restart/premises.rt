//! What is lost if a run isn't one of which the restart law speaks.
use crate::tests::restart::reopened::{copy_of, find, reopen};
use crate::tests::restart::running::{
    NextBlock, Running, address_of, apply, begin, begin_flush, begin_over, do_next, end_flush,
    flush_puts, key_of, next_block, put, sizes, take_issued,
};
use foyer_block_index::manager::BlockId;
use foyer_core_steps::open::RecoverMode;
use foyer_core_steps::reply::{Reply, WriteBytes};
use foyer_core_steps::settings::Settings;
use foyer_core_steps::step::Step;
use foyer_device_page::error::{Error, Result};
use foyer_io_disk::disk::Disk;
use foyer_testing::rows::first_difference;
use foyer_testing::said::Said;
use std::alloc::Global;
use std::test::Fail;

// Gives Config if a step was out of turn.
fn in_turn(is: bool) -> Result<()> {
    if is { Ok(()) } else { Err(Error::Config) }
}

// A run of so many puts that were flushed.
fn begin_with(alloc: Global, settings: Settings, puts: u32) -> Result<Running> {
    let mut run = begin(alloc, settings)?;
    in_turn(flush_puts(alloc, &mut run, puts)?)?;
    Ok(run)
}

fn say_sequence(said: &mut Said, sequence: Option<u64>) {
    match sequence {
        Some(sequence) => said.number(" ", sequence),
        None => said.word(" none"),
    }
}

// The sequences under which the first put's key is indexed, and is found again.
fn say_sequences(
    said: &mut Said,
    alloc: Global,
    run: &mut Running,
    mode: RecoverMode,
) -> Result<()> {
    let key = key_of(1);
    say_sequence(said, address_of(run, key).map(|address| address.sequence));
    let mut opened = reopen(alloc, run, None, mode)?;
    let found = find(alloc, &mut opened, key)?;
    say_sequence(said, found.map(|found| found.address.sequence));
    Ok(())
}

// The seventh put of the earlier run is of the first one's key, and stands in the last block. The later run has zeros behind what
// it writes in the first block alone, so the last one is listed as it was.
fn over_an_earlier_run(alloc: Global) -> Result<Running> {
    let mut earlier = begin_with(alloc, sizes(1), 7)?;
    let disk = copy_of(alloc, &mut earlier)?;
    let mut run = begin_over(alloc, sizes(1), disk)?;
    in_turn(flush_puts(alloc, &mut run, 1)?)?;
    Ok(run)
}

// The front of an index comes, and the write is reported as a fault.
fn fail_index(run: &mut Running) -> Result<()> {
    let Some(issued) = take_issued(run, 0) else {
        return Err(Error::Config);
    };
    let Some(write) = issued.writes.get(issued.next) else {
        return Err(Error::Config);
    };
    in_turn(matches!(&write.bytes, WriteBytes::Index(_)))?;
    let bytes = write.bytes.as_slice();
    let end = bytes.len().min(40);
    run.disk.write(issued.block, write.offset, &bytes[..end])?;
    let failed = Step::FlushWrote {
        flusher: 0,
        result: Err(Error::Io),
    };
    match apply(run, failed) {
        Reply::Failed => in_turn(end_flush(run, 0)),
        _ => Err(Error::Config),
    }
}

// The second put's index fails, in the block of the first: its data and the zeros behind them are written ahead of it.
fn with_a_failed_index(alloc: Global) -> Result<Running> {
    let mut run = begin_with(alloc, sizes(1), 1)?;
    in_turn(put(alloc, &mut run)?)?;
    in_turn(begin_flush(&mut run, 0) && next_block(&mut run, 0) == NextBlock::Given)?;
    for _ in 0..2 {
        if let Some(issued) = take_issued(&mut run, 0) {
            in_turn(do_next(&mut run, 0, issued))?;
        }
    }
    fail_index(&mut run)?;
    Ok(run)
}

// Cleans a block whose reclaim was brought a fault in place of its index.
fn reclaim_unread(run: &mut Running, block: BlockId) -> Result<()> {
    let read = Step::ReclaimRead {
        block,
        result: Err(Error::Io),
    };
    let _ = apply(run, read);
    let Reply::Clean(_) = apply(run, Step::ReclaimForget { block }) else {
        return Err(Error::Config);
    };
    run.disk.write(block, 0, &[0; 4096])?;
    let cleaned = Step::ReclaimCleaned {
        block,
        result: Ok(()),
    };
    match apply(run, cleaned) {
        Reply::Done => Ok(()),
        _ => Err(Error::Config),
    }
}

fn with_a_reclaim_that_read_a_fault(alloc: Global) -> Result<Running> {
    let settings = Settings {
        clean_block_threshold: 3,
        ..sizes(1)
    };
    let mut run = begin_with(alloc, settings, 5)?;
    let Reply::Picked {
        block,
        answers: _,
        probation: _,
    } = apply(&mut run, Step::ReclaimBegin)
    else {
        return Err(Error::Config);
    };
    reclaim_unread(&mut run, block)?;
    Ok(run)
}

fn run_of(alloc: Global, name: &str) -> Result<Running> {
    match name {
        "what an earlier run left wins over what is put" => over_an_earlier_run(alloc),
        "a write that fails may lose what its block had" => with_a_failed_index(alloc),
        "a reclaim that reads a fault cleans what the index keeps" => {
            with_a_reclaim_that_read_a_fault(alloc)
        }
        _ => begin_with(alloc, sizes(1), 1),
    }
}

fn rows_of(alloc: Global, rows: &str) -> Result<String> {
    let mut said = Said::new(alloc);
    for row in rows.lines() {
        let (name, _) = row.split_once(": ").unwrap_or((row, ""));
        said.word(name);
        said.word(":");
        let mode = if name == "nothing is found where no block is read" {
            RecoverMode::None
        } else {
            RecoverMode::Strict
        };
        let mut run = run_of(alloc, name)?;
        say_sequences(&mut said, alloc, &mut run, mode)?;
        said.word("\n");
    }
    said.text()
}

// Runs, and the sequences under which the first put's key is indexed and is found again.
const ROWS: &str = "what is written is found: 1 1
nothing is found where no block is read: 1 none
what an earlier run left wins over what is put: 1 7
a write that fails may lose what its block had: 1 none
a reclaim that reads a fault cleans what the index keeps: 1 none
";

#[test]
fn only_runs_outside_the_restart_law_lose_the_first_put(
    rt: HostRuntime,
) -> std::result::Result<(), Fail> {
    let answers = rows_of(rt.alloc(), ROWS)?;
    assert_eq!(rt; first_difference(answers.as_str(), ROWS), None);
    Ok(())
}

// The same index is written a second time, after its record. Of two equal sequences the last one wins, and no record is at the place that
// the second index lists.
fn is_hidden(alloc: Global) -> Result<bool> {
    let mut run = begin_with(alloc, sizes(1), 1)?;
    let mut page = Vec::new(alloc);
    page.resize(4096, 0)?;
    let (page, outcome) = run.disk.read(0, 0, page);
    outcome?;
    run.disk.write(0, 8192, page.as_slice())?;
    let mut opened = reopen(alloc, &mut run, None, RecoverMode::Strict)?;
    let found = find(alloc, &mut opened, key_of(1))?;
    Ok(found.is_some_and(|found| !found.is_text))
}

#[test]
fn a_stray_index_hides_a_record(rt: HostRuntime) -> std::result::Result<(), Fail> {
    assert!(rt; is_hidden(rt.alloc())?);
    Ok(())
}
