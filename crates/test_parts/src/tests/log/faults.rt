//! Each access failed in turn, and how many there are.
use super::disks::{Disk, appended, refused, sequence_at, written};
use crate::tests::tables::{asked, number, size};
use foyer_device_page::error::{Error, Result};
use foyer_testing::rows::first_difference;
use foyer_testing::said::Said;
use std::alloc::Global;
use std::rt::Files;
use std::sync::Wait;
use std::test::Fail;

// How many accesses an append of so many marks to an empty log makes, whose opening made one for each page.
fn accesses<R: Wait + Clone + Drop + Files>(
    rt: &R,
    alloc: Global,
    sizes: &[usize],
    pages: u64,
    count: u64,
) -> Result<u64> {
    for n in 1..20u64 {
        let disk = Disk::new(rt, alloc, sizes)?;
        if !refused(rt, &disk, pages.saturating_add(n), 0, 1, count)?.0 {
            return Ok(n - 1);
        }
    }
    Err(Error::Parse)
}

// How many accesses an append of each count makes, and how many pages the log says that it wrote.
fn say_counts<R: Wait + Clone + Drop + Files>(
    said: &mut Said,
    rt: &R,
    alloc: Global,
    words: &str,
    counts: &str,
) -> Result<()> {
    let mut sizes = Vec::new(alloc);
    let mut pages = 0u64;
    for word in words.split(' ') {
        sizes.push(size(word))?;
        pages = pages.saturating_add(number(word) / 4096);
    }
    for word in counts.split(' ') {
        let count = number(word);
        said.number(" ", accesses(rt, alloc, &sizes, pages, count)?);
        said.number("/", written(rt, alloc, &sizes, 1, count)?);
    }
    Ok(())
}

fn counts_of<R: Wait + Clone + Drop + Files>(rt: &R, alloc: Global, rows: &str) -> Result<String> {
    let mut said = Said::new(alloc);
    for row in rows.lines() {
        let asked = asked(row);
        said.word(asked);
        said.word(" |");
        if let Some((words, counts)) = asked.split_once(" < ") {
            say_counts(&mut said, rt, alloc, words, counts)?;
        }
        said.word("\n");
    }
    said.text()
}

// A log's pages, how many marks are appended, and the accesses and the writes of each. Of one page the log makes no access but
// its writes; else each page is read and written once.
const COUNTS: &str = "4096 < 0 1 256 1000 | 0/0 1/1 1/1 1/1
8192 < 255 256 5000 | 2/1 4/2 4/2
8192 8192 < 3114 | 8/4
";

#[test]
fn each_page_is_read_and_written_once(rt: HostRuntime) -> std::result::Result<(), Fail> {
    let answers = counts_of(&rt, rt.alloc(), COUNTS)?;
    assert_eq!(rt; first_difference(answers.as_str(), COUNTS), None);
    Ok(())
}

// Whether an append whose n-th access failed was refused with its slot as before, and page 1, which no mark comes into, is
// untouched.
fn is_refused_whole<R: Wait + Clone + Drop + Files>(
    rt: &R,
    alloc: Global,
    n: u64,
    kept: usize,
) -> Result<bool> {
    let disk = Disk::new(rt, alloc, &[8192, 8192])?;
    appended(rt, &disk, 1, 700)?;
    let failed = refused(rt, &disk, n, kept, 701, 340)? == (true, 701);
    let untouched = sequence_at(rt, &disk, 1, 0)? == 256 && sequence_at(rt, &disk, 1, 255)? == 511;
    Ok(failed && untouched)
}

#[test]
fn each_access_of_an_append_fails_in_turn(rt: HostRuntime) -> std::result::Result<(), Fail> {
    for n in 5..11u64 {
        for kept in [0usize, 1000, 4096] {
            assert!(rt;
                is_refused_whole(&rt, rt.alloc(), n, kept)?,
                "access {n}, {kept} bytes"
            );
        }
    }
    Ok(())
}
