//! The page buffer: scripts of calls, with their answers.
use super::disks::Disk;
use crate::tests::tables::{asked, cut, number, say_done, say_runs, size};
use foyer_block_tombstone::block::tombstone::PageBuffer;
use foyer_device_page::error::Result;
use foyer_device_partition::io::device::MemoryPartition;
use foyer_io_engine::io::engine::{FaultIoEngine, SharedMemoryIoEngine};
use foyer_testing::rows::first_difference;
use foyer_testing::said::Said;
use std::alloc::Global;
use std::rt::Files;
use std::sync::Wait;
use std::test::Fail;

type Buffer<R> = PageBuffer<
    FaultIoEngine<SharedMemoryIoEngine<R, Global>>,
    MemoryPartition,
    Global,
>;

// A buffer of one page of the disk, whose n-th access fails, a write after `kept` bytes.
fn buffer<R: Wait + Clone + Drop>(
    rt: &R,
    disk: &Disk,
    page: u64,
    n: u64,
    kept: usize,
) -> Result<Buffer<R>> {
    let engine = FaultIoEngine::new(disk.engine(rt)?, n, kept, false);
    PageBuffer::open(disk.alloc(), engine, disk.partitions()?, page)
}

fn say_page<R: Wait + Clone + Drop>(said: &mut Said, rt: &R, disk: &Disk, page: usize) {
    match disk.page(rt, page) {
        Ok(bytes) => say_runs(said, bytes.as_slice()),
        Err(error) => said.word(error.kind().name()),
    }
}

fn say_filled<R: Wait + Clone + Drop>(said: &mut Said, buffer: &mut Buffer<R>, byte: &str) {
    let bytes = buffer.as_mut_slice();
    bytes.fill(byte.parse::<u8>().unwrap_or(0));
    said.number("", bytes.len() as u64);
}

fn say_call<R: Wait + Clone + Drop>(
    said: &mut Said,
    rt: &R,
    disk: &Disk,
    buffer: &mut Buffer<R>,
    call: &str,
) {
    let (word, rest) = cut(call);
    match word {
        "load" => say_done(said, buffer.load(number(rest))),
        "fill" => say_filled(said, buffer, rest),
        "flush" => say_done(said, buffer.flush()),
        "update" => say_done(said, buffer.update()),
        "has" => say_runs(said, buffer.as_slice()),
        "writes" => said.number("", buffer.writes()),
        _ => say_page(said, rt, disk, size(rest)),
    }
}

// Calls of a buffer, and behind each `other` one of another over the same disk, whose accesses don't fail.
fn say_calls<R: Wait + Clone + Drop>(
    said: &mut Said,
    rt: &R,
    disk: &Disk,
    words: &str,
    script: &str,
) -> Result<()> {
    let (page, rest) = cut(words);
    let (n, kept) = cut(rest);
    let mut one = buffer(rt, disk, number(page), number(n), size(kept))?;
    let mut other = buffer(rt, disk, number(page), 0, 0)?;
    for call in script.split(", ") {
        said.word(" ");
        match call.split_once("other ") {
            Some((_, call)) => say_call(said, rt, disk, &mut other, call),
            None => say_call(said, rt, disk, &mut one, call),
        }
    }
    Ok(())
}

// Over a disk of a partition of two pages, and one of one.
fn rows_of<R: Wait + Clone + Drop + Files>(rt: &R, alloc: Global, rows: &str) -> Result<String> {
    let mut said = Said::new(alloc);
    for row in rows.lines() {
        let asked = asked(row);
        said.word(asked);
        if let Some((words, script)) = asked.split_once(" < ") {
            said.word(" |");
            let disk = Disk::new(rt, alloc, &[8192, 4096])?;
            if let Err(error) = say_calls(&mut said, rt, &disk, words, script) {
                said.word(" ");
                said.word(error.kind().name());
            }
        }
        said.word("\n");
    }
    said.text()
}

// Names, and below each the page of a buffer, which of its accesses fails and what that keeps, what is done, and what is
// answered: of `fill` how many bytes there are, of `has` the buffer's bytes, of `page` those of a page of the disk.
const ROWS: &str = "pages run through the partitions
0 0 0 < load 0, fill 1, flush, load 1, fill 2, flush, load 2, fill 3, flush, page 0, page 1, page 2, load 1, has, writes | ok 4096 ok ok 4096 ok ok 4096 ok 4096*1 4096*2 4096*3 ok 4096*2 3
an update reads the page again
1 0 0 < fill 7, other has, other update, other has, flush, other update, other has | 4096 4096*0 ok 4096*0 ok ok 4096*7
after a failed load no page is loaded
0 2 0 < fill 3, load 1, has, fill 3, flush, update, has, page 0, load 0, load 3, has, load 1, has | 4096 Io  0 ok ok  4096*0 ok OutOfRange  ok 4096*0
a failed flush keeps its page
1 2 0 < fill 5, flush, page 1, page 0, has, flush, writes, page 1 | 4096 Io 4096*0 4096*0 4096*5 ok 2 4096*5
1 2 4095 < fill 5, flush, page 1, page 0, has, flush, writes, page 1 | 4096 Io 4095*5+1*0 4096*0 4096*5 ok 2 4096*5
a page that is not there is refused
3 0 0 < has | OutOfRange
";

#[test]
fn the_page_buffer_loads_and_flushes_pages(rt: HostRuntime) -> std::result::Result<(), Fail> {
    let answers = rows_of(&rt, rt.alloc(), ROWS)?;
    assert_eq!(rt; first_difference(answers.as_str(), ROWS), None);
    Ok(())
}
