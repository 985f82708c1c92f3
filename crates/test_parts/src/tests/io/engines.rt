//! What engines read and write, over memory and over files: scripts of calls, with their answers.
use super::devices::{opened, say_path};
use crate::tests::tables::{asked, cut, number, say_done, say_runs, size};
use foyer_device_page::error::{Error, ErrorKind, Result};
use foyer_device_page::io::bytes::{IoSliceMut, Raw};
use foyer_device_partition::io::device::{AnyDevice, AnyPartition, Device, Partition};
use foyer_io_engine::io::engine::{
    FaultIoEngine, IoEngine, IoEngineBuildContext, IoEngineConfig, IoHandle, MemoryIoEngine,
    NoopIoEngineConfig, PsyncIoEngine, PsyncIoEngineConfig, SharedMemoryIoEngineConfig,
};
use foyer_testing::rows::first_difference;
use foyer_testing::said::Said;
use futures::executor::block_on;
use std::alloc::Global;
use std::fs;
use std::test::Fail;

// A buffer of so many pages, each byte of which is this one.
fn pages(alloc: Global, count: usize, byte: u8) -> Result<IoSliceMut<Global>> {
    let mut buffer = IoSliceMut::new(alloc, count.clamp(1, 16) * 4096)?;
    buffer.as_mut_slice().fill(byte);
    Ok(buffer)
}

// Notes what this many pages from an offset on are. It is one page if no number of pages is said.
fn say_read<E: IoEngine, P: Partition>(
    said: &mut Said,
    alloc: Global,
    engine: &mut E,
    partition: &P,
    words: &str,
) {
    let (offset, count) = cut(words);
    match pages(alloc, size(count), 255) {
        Ok(buffer) => {
            let (buffer, outcome) = engine.read(buffer, partition, number(offset)).into_inner();
            match outcome {
                Ok(()) => say_runs(said, buffer.as_slice()),
                Err(error) => said.word(error.kind().name()),
            }
        }
        Err(_) => said.miss(),
    }
}

// Writes so many pages of a byte from an offset on.
fn say_write<E: IoEngine, P: Partition>(
    said: &mut Said,
    alloc: Global,
    engine: &mut E,
    partition: &P,
    words: &str,
) {
    let (offset, rest) = cut(words);
    let (byte, count) = cut(rest);
    match pages(alloc, size(count), byte.parse::<u8>().unwrap_or(0)) {
        Ok(buffer) => {
            let len = buffer.as_slice().len();
            let (buffer, outcome) = engine.write(buffer, partition, number(offset)).into_inner();
            if buffer.as_slice().len() != len {
                said.word("another buffer ");
            }
            say_done(said, outcome);
        }
        Err(_) => said.miss(),
    }
}

fn say_access<E: IoEngine, P: Partition>(
    said: &mut Said,
    alloc: Global,
    engine: &mut E,
    partition: Option<&P>,
    word: &str,
    words: &str,
) {
    match partition {
        Some(partition) => match word {
            "read" => say_read(said, alloc, engine, partition, words),
            _ => say_write(said, alloc, engine, partition, words),
        },
        None => said.word("none"),
    }
}

fn say_call<E: IoEngine, P: Partition>(
    said: &mut Said,
    rt: &HostRuntime,
    engine: &mut E,
    partitions: &[P],
    call: &str,
) {
    let (word, rest) = cut(call);
    let (place, words) = cut(rest);
    match word {
        "failures" => said.number("", engine.failures()),
        "read" | "write" => {
            let partition = partitions.get(size(place));
            say_access(said, rt.alloc(), engine, partition, word, words)
        }
        _ => say_path(said, rt, word, rest),
    }
}

pub fn say_calls<E: IoEngine, P: Partition>(
    said: &mut Said,
    rt: &HostRuntime,
    engine: &mut E,
    partitions: &[P],
    calls: &str,
) {
    for call in calls.split(", ") {
        said.word(" ");
        say_call(said, rt, engine, partitions, call);
    }
}

// A memory of four pages.
pub fn memory(alloc: Global) -> Result<MemoryIoEngine<Global>> {
    let mut engine = MemoryIoEngine::new(alloc);
    engine.add_file(alloc, 16384)?;
    Ok(engine)
}

// Makes partitions of these sizes.
fn add(
    rt: &HostRuntime,
    device: &mut AnyDevice<Global>,
    partitions: &mut Vec<AnyPartition, Global>,
    sizes: &str,
) -> Result<()> {
    for word in sizes.split_whitespace() {
        let partition = device.create_partition(rt, size(word))?;
        partitions.push(partition)?;
    }
    Ok(())
}

// Partitions of these sizes in a memory of four pages.
pub fn partitions_of(rt: &HostRuntime, sizes: &str) -> Result<Vec<AnyPartition, Global>> {
    let mut partitions = Vec::new(rt.alloc());
    let mut device = opened(rt, "memory 16384")?;
    add(rt, &mut device, &mut partitions, sizes)?;
    Ok(partitions)
}

// The calls before `>`, and those behind it.
fn both(script: &str) -> (&str, &str) {
    script.split_once(" > ").unwrap_or((script, ""))
}

// An engine whose n-th call fails and keeps so many bytes; behind `>` the one that it is over.
fn say_faulty<E: IoEngine + Drop, P: Partition>(
    said: &mut Said,
    rt: &HostRuntime,
    mut engine: FaultIoEngine<E>,
    partitions: &[P],
    script: &str,
) {
    let (calls, others) = both(script);
    say_calls(said, rt, &mut engine, partitions, calls);
    if !others.is_empty() {
        say_calls(said, rt, &mut engine.into_inner(), partitions, others);
    }
}

fn say_memory(
    said: &mut Said,
    rt: &HostRuntime,
    words: &str,
    partitions: &[AnyPartition],
    script: &str,
) -> Result<()> {
    let (kind, rest) = cut(words);
    let (n, kept) = cut(rest);
    let inner = memory(rt.alloc())?;
    let engine = FaultIoEngine::new(inner, number(n), size(kept), kind == "stopping");
    say_faulty(said, rt, engine, partitions, script);
    Ok(())
}

fn say_noop(
    said: &mut Said,
    rt: &HostRuntime,
    partitions: &[AnyPartition],
    calls: &str,
) -> Result<()> {
    let files: Vec<String<Global>, Global> = Vec::new(rt.alloc());
    let context = IoEngineBuildContext {
        files: files.as_slice(),
    };
    let mut engine = NoopIoEngineConfig.build(rt, &context)?;
    say_calls(said, rt, &mut engine, partitions, calls);
    Ok(())
}

// An engine over a device's files.
fn engine_over(rt: &HostRuntime, device: &AnyDevice<Global>) -> Result<PsyncIoEngine<Global>> {
    let files = device.files(rt.alloc())?;
    let context = IoEngineBuildContext {
        files: files.as_slice(),
    };
    PsyncIoEngineConfig::new().build(rt, &context)
}

// An engine over the files that the device has when its first partitions were made; those behind `+` are made after it. Behind
// `>` an engine of its own.
fn say_files(
    said: &mut Said,
    rt: &HostRuntime,
    words: &str,
    sizes: &str,
    script: &str,
) -> Result<()> {
    let mut device = opened(rt, words)?;
    let mut partitions = Vec::new(rt.alloc());
    let (first, later) = sizes.split_once(" + ").unwrap_or((sizes, ""));
    add(rt, &mut device, &mut partitions, first)?;
    let mut engine = engine_over(rt, &device)?;
    add(rt, &mut device, &mut partitions, later)?;
    let (calls, others) = both(script);
    say_calls(said, rt, &mut engine, &partitions, calls);
    if !others.is_empty() {
        say_calls(
            said,
            rt,
            &mut engine_over(rt, &device)?,
            &partitions,
            others,
        );
    }
    Ok(())
}

// Notes the same if the first call fails and keeps ten bytes.
fn say_torn(
    said: &mut Said,
    rt: &HostRuntime,
    words: &str,
    sizes: &str,
    script: &str,
) -> Result<()> {
    let mut device = opened(rt, words)?;
    let mut partitions = Vec::new(rt.alloc());
    add(rt, &mut device, &mut partitions, sizes)?;
    let engine = FaultIoEngine::new(engine_over(rt, &device)?, 1, 10, false);
    say_faulty(said, rt, engine, &partitions, script);
    Ok(())
}

fn say_row(said: &mut Said, rt: &HostRuntime, opening: &str, script: &str) -> Result<()> {
    let (words, sizes) = opening.split_once(": ").unwrap_or((opening, ""));
    let (kind, rest) = cut(words);
    match kind {
        "noop" => say_noop(said, rt, &partitions_of(rt, sizes)?, script),
        "dir" | "file" => say_files(said, rt, words, sizes, script),
        "torn" => say_torn(said, rt, rest, sizes, script),
        _ => say_memory(said, rt, words, &partitions_of(rt, sizes)?, script),
    }
}

fn rows_of(rt: &HostRuntime, rows: &str) -> Result<String> {
    let mut said = Said::new(rt.alloc());
    for row in rows.lines() {
        let asked = asked(row);
        said.word(asked);
        if let Some((opening, script)) = asked.split_once(" < ") {
            said.word(" |");
            if let Err(error) = say_row(&mut said, rt, opening, script) {
                said.word(" ");
                said.word(error.kind().name());
            }
        }
        said.word("\n");
    }
    said.text()
}

// Names, and below each its engines, with the sizes of their partitions, what they are asked, and what they answer: `read` of a
// partition from an offset on the runs of equal bytes, `write` of a byte whether it went well, each of one page or of so many.
const ROWS: &str = "memory is zeros until it is written
memory: 8192 8192 < read 1 4096, write 0 4096 7, read 0 4096, read 0 0, read 1 0, write 1 4096 9, write 0 0 3, read 1 0 2, read 0 4096, failures | 4096*0 ok 4096*7 4096*0 4096*0 ok ok 4096*0+4096*9 4096*7 0
a range that is not there is refused
memory: 8192 8192 < read 0 4097, write 0 4097 1, read 0 8192, write 0 8192 1, read 0 18446744073709551615, write 0 18446744073709551615 1, failures | OutOfRange OutOfRange OutOfRange OutOfRange OutOfRange OutOfRange 0
each call fails in turn
fault 1 4096: 8192 < write 0 0 1, read 0 0, write 0 4096 2, read 0 4096, failures | Io 4096*1 ok 4096*2 1
fault 2 4096: 8192 < write 0 0 1, read 0 0, write 0 4096 2, read 0 4096, failures | ok Io ok 4096*2 1
fault 3 4096: 8192 < write 0 0 1, read 0 0, write 0 4096 2, read 0 4096, failures | ok 4096*1 Io 4096*2 1
fault 4 4096: 8192 < write 0 0 1, read 0 0, write 0 4096 2, read 0 4096, failures | ok 4096*1 ok Io 1
a failed write keeps its first bytes
fault 1 0: 8192 < write 0 4096 6, failures, read 0 4096 | Io 1 4096*0
fault 1 1: 8192 < write 0 4096 6, failures, read 0 4096 | Io 1 1*6+4095*0
fault 1 4095: 8192 < write 0 4096 6, failures, read 0 4096 | Io 1 4095*6+1*0
fault 1 4096: 8192 < write 0 4096 6, failures, read 0 4096 | Io 1 4096*6
fault 1 5000: 8192 < write 0 4096 6, failures, read 0 4096 | Io 1 4096*6
a stopped engine fails for good
stopping 2 4096: 8192 < write 0 0 1, read 0 0, read 0 0, read 0 0, write 0 0 2, failures > read 0 0 | ok Io Io Io Io 4 4096*1
a noop engine touches no byte
noop: 8192 < write 0 0 1, read 0 0, failures | ok 4096*255 0
files are read and written
dir 16384 both ways: 8192 8192 < read 1 4096, write 0 4096 7, write 1 0 8, read 0 4096, read 0 0, write 0 8192 9, failures > read 1 0, failures, bytes both ways/foyer-storage-direct-fs-00000000, clear both ways | 4096*0 ok ok 4096*7 4096*0 OutOfRange 0 4096*8 0 4096*0+4096*7 yes
partitions of one file stay apart
noop: 4096 < mkdir apart | yes
file 16384 apart/file: 8192 8192 < write 1 0 2, write 0 0 1 2, read 1 0, write 0 0 1 3, bytes apart/file, clear apart | ok ok 4096*2 OutOfRange 8192*1+4096*2+4096*0 yes
a file that is cut fails the read that meets its end
dir 16384 cut: 8192 8192 < write 0 0 3, write 0 4096 4, cut 0 cut/foyer-storage-direct-fs-00000000, read 0 0, failures, read 0 4096, failures, write 0 4096 5, read 0 4096, clear cut | ok ok yes Io 1 Io 2 ok 4096*5 yes
dir 16384 cut: 8192 8192 < write 0 0 3, write 0 4096 4, cut 1 cut/foyer-storage-direct-fs-00000000, read 0 0, failures, read 0 4096, failures, write 0 4096 5, read 0 4096, clear cut | ok ok yes Io 1 Io 2 ok 4096*5 yes
dir 16384 cut: 8192 8192 < write 0 0 3, write 0 4096 4, cut 4095 cut/foyer-storage-direct-fs-00000000, read 0 0, failures, read 0 4096, failures, write 0 4096 5, read 0 4096, clear cut | ok ok yes Io 1 Io 2 ok 4096*5 yes
dir 16384 cut: 8192 8192 < write 0 0 3, write 0 4096 4, cut 4096 cut/foyer-storage-direct-fs-00000000, read 0 0, failures, read 0 4096, failures, write 0 4096 5, read 0 4096, clear cut | ok ok yes 4096*3 0 Io 1 ok 4096*5 yes
a partition made later has no file in the engine
dir 8192 later: 4096 + 4096 < read 1 0, failures, clear later | OutOfRange 0 yes
a failed write of a file keeps its first bytes
torn dir 16384 torn: 8192 8192 < write 0 0 6, failures, bytes torn/foyer-storage-direct-fs-00000000, clear torn | Io 1 10*6+8182*0 yes
";

#[test]
fn each_engine_reads_and_writes(rt: HostRuntime) -> std::result::Result<(), Fail> {
    let answers = rows_of(&rt, ROWS)?;
    assert_eq!(rt; first_difference(answers.as_str(), ROWS), None);
    Ok(())
}

#[test]
fn engines_of_one_config_share_a_memory(rt: HostRuntime) -> std::result::Result<(), Fail> {
    let partitions = partitions_of(&rt, "8192")?;
    let files: Vec<String<Global>, Global> = Vec::new(rt.alloc());
    let context = IoEngineBuildContext {
        files: files.as_slice(),
    };
    let config = SharedMemoryIoEngineConfig::new(rt.alloc(), memory(rt.alloc())?)?;
    let mut one = config.build(&rt, &context)?;
    let mut other = config.build(&rt, &context)?;
    let mut said = Said::new(rt.alloc());
    say_calls(
        &mut said,
        &rt,
        &mut one,
        &partitions,
        "write 0 4096 8, failures",
    );
    say_calls(
        &mut said,
        &rt,
        &mut other,
        &partitions,
        "read 0 4096, failures",
    );
    let answers = said.text()?;
    assert!(rt; answers.as_str() == " ok 0 4096*8 0", "{answers}");
    Ok(())
}

// What an engine is refused for whose second file is gone.
fn refused_over(rt: &HostRuntime) -> Result<Option<ErrorKind>> {
    let mut device = opened(rt, "dir 16384 missing")?;
    let mut partitions = Vec::new(rt.alloc());
    add(rt, &mut device, &mut partitions, "8192 8192")?;
    let is_gone = fs::remove_file(rt, "missing/foyer-storage-direct-fs-00000001").is_ok();
    let refused = engine_over(rt, &device).err().map(|e| e.kind());
    Ok(if is_gone { refused } else { None })
}

#[test]
fn an_engine_is_refused_where_a_file_is_missing(rt: HostRuntime) -> std::result::Result<(), Fail> {
    assert!(rt; refused_over(&rt)? == Some(ErrorKind::Io));
    fs::remove_dir_all(&rt, "missing")?;
    Ok(())
}

#[test]
fn a_handle_is_a_future(rt: HostRuntime) -> std::result::Result<(), Fail> {
    let partitions = partitions_of(&rt, "4096")?;
    let first = *partitions.first().ok_or(Error::OutOfRange)?;
    let mut engine = memory(rt.alloc())?;
    let written = engine.write(pages(rt.alloc(), 1, 5)?, &first, 0);
    written.into_inner().1?;
    let handle = engine.read(Raw::new(rt.alloc(), 4096)?, &first, 0);
    let (page, outcome) = block_on(&rt, handle)?;
    assert!(rt; outcome.is_ok() && page.as_slice().last() == Some(&5));
    Ok(())
}

#[test]
fn a_handle_that_has_given_has_nothing_left(rt: HostRuntime) -> std::result::Result<(), Fail> {
    let mut handle = IoHandle::new(pages(rt.alloc(), 1, 4)?, Err(Error::Io));
    let (page, outcome) = handle.take().ok_or(Error::Closed)?;
    assert!(rt; page.as_slice().first() == Some(&4) && outcome == Err(Error::Io));
    assert!(rt; handle.take().is_none());
    Ok(())
}

#[test]
fn a_config_can_be_boxed(rt: HostRuntime) -> std::result::Result<(), Fail> {
    let boxed = IoEngineConfig::<HostRuntime>::boxed(NoopIoEngineConfig, rt.alloc())?;
    drop(boxed);
    Ok(())
}
