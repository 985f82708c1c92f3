//! How many pages an append writes, against a slow count of those that its marks come into.
use super::disks::{Disk, marks, written};
use foyer_device_page::error::{Error, ErrorKind};
use std::alloc::Global;
use std::rt::Files;
use std::sync::Wait;
use std::test::Fail;

const SLOTS: u64 = 256;

// Of so many pages, those that come are counted once.
fn distinct(start: u64, count: u64, pages: u64) -> u64 {
    let mut seen = 0u64;
    let mut many = 0u64;
    for k in 0..count {
        let page = start.wrapping_add(k) / SLOTS % pages.max(1) % 64;
        let bit = 1u64 << page;
        if seen & bit == 0 {
            seen |= bit;
            many = many.saturating_add(1);
        }
    }
    many
}

#[test]
fn an_append_writes_each_page_that_gets_a_mark(rt: HostRuntime) -> Result<(), Fail> {
    for start in [1, 2, 255, 256, 257, 700, 767] {
        for count in [0, 1, 2, 255, 256, 257, 511, 513, 767, 768, 769, 2000] {
            let wanted = distinct(start, count, 3);
            let many = written(&rt, rt.alloc(), &[4096, 8192], start, count)?;
            assert_eq!(rt; many, wanted, "{count} marks from {start} on");
        }
    }
    Ok(())
}

// How many pages an append of 600 marks into a fresh log of three pages wrote whose access n after the opening failed.
fn written_of<R: Wait + Clone + Drop + Files>(rt: &R, alloc: Global, n: u64) -> Result<u64, Error> {
    let disk = Disk::new(rt, alloc, &[12288])?;
    let mut found = Vec::new(alloc);
    let mut log = disk.open(rt, n.saturating_add(3), 1000, &mut found)?;
    let behind = marks(alloc, 1, 600)?;
    match log.append(&behind).err().map(|e| e.kind()) {
        Some(ErrorKind::Io) => Ok(log.page_writes()),
        _ => Err(Error::Parse),
    }
}

// Each page is read and then written; the one that fails is the last.
#[test]
fn a_refused_append_counts_what_it_tried(rt: HostRuntime) -> Result<(), Fail> {
    for (n, wanted) in [(1, 0), (2, 1), (3, 1), (4, 2), (5, 2), (6, 3)] {
        assert_eq!(rt; written_of(&rt, rt.alloc(), n)?, wanted, "access {n}");
    }
    Ok(())
}
