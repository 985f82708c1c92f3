//! The log's worked rows, by scripts of calls with their answers.
use super::disks::{Disk, appended, opened, refused, sequence_at};
use crate::tests::tables::{asked, cut, number, say_runs, size};
use foyer_block_tombstone::block::tombstone::TombstoneLog;
use foyer_device_page::error::{Error, Result};
use foyer_device_page::io::bytes::Raw;
use foyer_device_partition::io::device::MemoryPartition;
use foyer_io_engine::io::engine::MemoryIoEngine;
use foyer_testing::rows::first_difference;
use foyer_testing::said::Said;
use std::alloc::Global;
use std::rt::Files;
use std::sync::Wait;
use std::test::Fail;

#[test]
fn a_page_has_256_slots(rt: HostRuntime) -> std::result::Result<(), Fail> {
    assert!(rt;
        TombstoneLog::<MemoryIoEngine<Global>, MemoryPartition, Global>::SLOTS_PER_PAGE == 256
    );
    Ok(())
}

fn say_refusal(said: &mut Said, error: Error) {
    said.word(error.kind().name());
}

fn say_number(said: &mut Said, answer: Result<u64>) {
    match answer {
        Ok(number) => said.number("", number),
        Err(error) => say_refusal(said, error),
    }
}

// The slot at which the log goes on, and how many marks it lists.
fn say_opened(said: &mut Said, answer: Result<(u64, usize)>) {
    match answer {
        Ok((slot, marks)) => {
            said.number("", slot);
            said.number("/", marks as u64);
        }
        Err(error) => say_refusal(said, error),
    }
}

// Notes the slot after an append, behind `Io` if the append was refused so.
fn say_append(said: &mut Said, answer: Result<(bool, u64)>) {
    match answer {
        Ok((is_refused, slot)) => said.number(if is_refused { "Io:" } else { "" }, slot),
        Err(error) => say_refusal(said, error),
    }
}

// Opens the log so that its n-th access fails: the refusal, and how many marks it listed.
fn say_failed_opening<R: Wait + Clone + Drop>(said: &mut Said, rt: &R, disk: &Disk, n: u64) {
    let mut found = Vec::new(disk.alloc());
    match disk.open(rt, n, 0, &mut found) {
        Ok(log) => said.number("", log.slot()),
        Err(error) => say_refusal(said, error),
    }
    said.number("/", found.len() as u64);
}

fn say_page<R: Wait + Clone + Drop>(said: &mut Said, rt: &R, disk: &Disk, page: usize) {
    match disk.page(rt, page) {
        Ok(bytes) => say_runs(said, bytes.as_slice()),
        Err(error) => say_refusal(said, error),
    }
}

// Fills a page with ones.
fn fill<R: Wait + Clone + Drop>(rt: &R, disk: &Disk, page: usize) -> Result<u64> {
    let mut bytes = Raw::new(disk.alloc(), 4096)?;
    bytes.as_mut_slice().fill(255);
    disk.put_page(rt, page, bytes)?;
    Ok(255)
}

// An append whose n-th access fails, a write after `kept` bytes: `N KEPT FIRST COUNT`.
fn say_failed<R: Wait + Clone + Drop>(said: &mut Said, rt: &R, disk: &Disk, words: &str) {
    let (n, rest) = cut(words);
    let (kept, rest) = cut(rest);
    let (first, count) = cut(rest);
    let answer = refused(
        rt,
        disk,
        number(n),
        size(kept),
        number(first),
        number(count),
    );
    say_append(said, answer);
}

fn say_call<R: Wait + Clone + Drop>(said: &mut Said, rt: &R, disk: &Disk, call: &str) {
    let (word, rest) = cut(call);
    let (first, second) = cut(rest);
    match word {
        "open" => say_opened(said, opened(rt, disk)),
        "append" => say_number(said, appended(rt, disk, number(first), number(second))),
        "at" => say_number(said, sequence_at(rt, disk, size(first), size(second))),
        "fail" => say_failed(said, rt, disk, rest),
        "fail_open" => say_failed_opening(said, rt, disk, number(first)),
        "fill" => say_number(said, fill(rt, disk, size(first))),
        _ => say_page(said, rt, disk, size(first)),
    }
}

fn say_script<R: Wait + Clone + Drop + Files>(
    said: &mut Said,
    rt: &R,
    alloc: Global,
    sizes: &str,
    script: &str,
) -> Result<()> {
    let mut partitions = Vec::new(alloc);
    for word in sizes.split_whitespace() {
        partitions.push(size(word))?;
    }
    let disk = Disk::new(rt, alloc, &partitions)?;
    for call in script.split(", ") {
        said.word(" ");
        say_call(said, rt, &disk, call);
    }
    Ok(())
}

fn rows_of<R: Wait + Clone + Drop + Files>(rt: &R, alloc: Global, rows: &str) -> Result<String> {
    let mut said = Said::new(alloc);
    for row in rows.lines() {
        let asked = asked(row);
        said.word(asked);
        if let Some((sizes, script)) = asked.split_once(" < ") {
            said.word(" |");
            say_script(&mut said, rt, alloc, sizes, script)?;
        }
        said.word("\n");
    }
    said.text()
}

// Names, and below each the sizes of a log's partitions, what is done, and what is answered: of `open` the slot and how many
// marks are listed, of `append` the slot behind them, of `at` a page and a slot its sequence, of `fail` an append whose n-th
// access fails. Two reads open a log of two pages; the page of its slot is loaded then.
const ROWS: &str = "a log that went round goes on behind its last mark
8192 8192 < open, append 1 3114, open, at 0 0, at 0 42, at 0 43, at 3 255 | 1/0 3115 43/1024 3072 3114 2091 3071
a log of 300 marks goes on at 301
8192 8192 < append 1 300, open, append 301 1, at 1 45, at 1 46 | 301 301/300 302 301 0
older marks go before the newest one
4096 < append 5 3, append 1 2, open, at 0 1, at 0 2, at 0 3, at 0 4, at 0 5 | 4 6 6/5 5 6 1 2 7
older marks at the end of the ring go before the newest one, too
4096 < append 10 254, append 1 3, open, at 0 253, at 0 254, at 0 255, at 0 0, at 0 1, at 0 2 | 255 258 2/256 262 1 2 3 263 11
older marks for the whole ring overwrite the newest one
4096 < append 1000 1, append 1 256, open, at 0 1, at 0 2 | 2 258 2/256 256 1
if older marks are refused, the newest one stands behind their place already
4096 < append 5 3, fail 2 0 1 2, open, fail 3 0 1 2, open, at 0 3, at 0 5 | 4 Io:4 4/3 Io:4 6/4 7 7
a mark is its hash and its sequence
4096 < append 1230066625199609624 1, page 0 | 2 16*0+1*34+1*36+1*38+1*40+1*42+1*44+1*46+1*48+1*17+1*18+1*19+1*20+1*21+1*22+1*23+1*24+4064*0
a log of no pages is refused
 < open | OutOfRange
a mark of the last sequence is followed
4096 < append 18446744073709551615 1, open, at 0 1 | 2 2/1 18446744073709551615
a page of ones is full of marks
4096 < fill 0, open | 255 256/256
a failed read of the opening is named, and lists nothing
8192 8192 < append 1 600, fail_open 1, fail_open 2, fail_open 3, fail_open 4 | 601 Io/0 Io/0 Io/0 Io/0
a read that fails at the wrap: what was written stands, and the log goes on behind it
4096 4096 < append 1 300, fail 4 0 301 300, open, append 512 89, open | 301 Io:301 512/511 601 89/512
";

#[test]
fn the_log_keeps_the_marks_that_it_could_append(rt: HostRuntime) -> std::result::Result<(), Fail> {
    let answers = rows_of(&rt, rt.alloc(), ROWS)?;
    assert_eq!(rt; first_difference(answers.as_str(), ROWS), None);
    Ok(())
}
