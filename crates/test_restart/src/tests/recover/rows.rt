//! Worked examples of recovery, and forged indices: devices, what is asked of what is recovered, and the answers.
use crate::tests::recover::recovering::{recover_by, runner};
use foyer_block_index::tombstone::Tombstone;
use foyer_block_recover::block::recover::{RecoverMode, Recovered};
use foyer_device_page::error::{Error, Result};
use foyer_testing::forged::{BLOCK_SIZE, ForgedDisk, entry, page};
use foyer_testing::images::image;
use foyer_testing::refusing::Refusing;
use foyer_testing::rows::first_difference;
use foyer_testing::said::Said;
use std::alloc::Global;
use std::test::Fail;

// What is recovered, and how: by no worker but the runner itself, or by so many, whose listings may come turned round.
#[derive(Drop)]
struct Device {
    mode: RecoverMode,
    disk: ForgedDisk,
    blocks: u32,
    marks: Vec<Tombstone>,
    workers: u32,
    is_turned: bool,
}

fn number(word: &str) -> u64 {
    word.parse::<u64>().unwrap_or(0)
}

fn small(word: &str) -> u32 {
    word.parse::<u32>().unwrap_or(0)
}

fn mode_of(word: &str) -> RecoverMode {
    match word {
        "none" => RecoverMode::None,
        "quiet" => RecoverMode::Quiet,
        _ => RecoverMode::Strict,
    }
}

fn add_block(device: &mut Device, bytes: &[u8]) -> Result<()> {
    device.disk.bytes.extend_from_slice(bytes)?;
    device.blocks = device.blocks.saturating_add(1);
    Ok(())
}

fn add_mark(device: &mut Device, words: &str) -> Result<()> {
    let (hash, sequence) = words.split_once(' ').unwrap_or((words, ""));
    device.marks.push(Tombstone {
        hash: number(hash),
        sequence: number(sequence),
    })?;
    Ok(())
}

// A block whose index counts more entries than there may be.
fn add_overfull(device: &mut Device) -> Result<()> {
    add_block(device, &[0; BLOCK_SIZE])?;
    device.disk.put(0, &page(&[entry(1, 5, 4096, 53)], 171));
    Ok(())
}

// A part of a device: how it is recovered, an offset whose read fails, a mark, or a block by its description.
fn add(alloc: Global, device: &mut Device, part: &str) -> Result<()> {
    let (word, rest) = part.split_once(' ').unwrap_or((part, ""));
    match word {
        "none" | "quiet" | "strict" => device.mode = mode_of(word),
        "fails" => device.disk.failing.push(number(rest) as usize)?,
        "mark" => add_mark(device, rest)?,
        "workers" => device.workers = small(rest),
        "turned" => {
            device.workers = small(rest);
            device.is_turned = true;
        }
        "zeros" => add_block(device, &[0; BLOCK_SIZE])?,
        "overfull" => add_overfull(device)?,
        _ => add_block(device, &image(alloc, part)?)?,
    }
    Ok(())
}

fn device_of(alloc: Global, parts: &str) -> Result<Device> {
    let mut device = Device {
        mode: RecoverMode::Strict,
        disk: ForgedDisk::new(alloc, 0)?,
        blocks: 0,
        marks: Vec::new(alloc),
        workers: 0,
        is_turned: false,
    };
    for part in parts.split(" / ") {
        add(alloc, &mut device, part)?;
    }
    Ok(device)
}

fn recover(alloc: Global, device: &mut Device) -> Result<Recovered<Global>> {
    let runner = runner(device.mode, device.blocks);
    let Device {
        disk,
        marks,
        workers,
        is_turned,
        ..
    } = device;
    if *workers == 0 {
        runner.run(&alloc, disk, 2, marks)
    } else {
        recover_by(&alloc, disk, &runner, *workers, *is_turned, marks)
    }
}

// Notes where a hash lies: its block, and the filling, the offset and the length of its record.
fn say_where(said: &mut Said, recovered: &Recovered<Global>, hash: u64) {
    match recovered.index.get(hash) {
        Some(address) => {
            said.number("", u64::from(address.block));
            said.number(".", address.filling);
            said.number("+", u64::from(address.offset));
            said.number(":", u64::from(address.len));
        }
        None => said.word("none"),
    }
}

fn say_block(said: &mut Said, recovered: &Recovered<Global>, hash: u64) {
    match recovered.index.get(hash) {
        Some(address) => said.number("", u64::from(address.block)),
        None => said.word("none"),
    }
}

fn say_clean(said: &mut Said, clean: &[u32]) {
    said.word("[");
    for block in clean {
        said.number("", u64::from(*block));
    }
    said.word("]");
}

fn say_asked(said: &mut Said, recovered: &Recovered<Global>, reads: u64, asked: &str) {
    let (word, hash) = asked.split_once(' ').unwrap_or((asked, ""));
    match word {
        "at" => say_block(said, recovered, number(hash)),
        "where" => say_where(said, recovered, number(hash)),
        "next" => said.number("", recovered.next),
        "reads" => said.number("", reads),
        _ => say_clean(said, recovered.clean.as_slice()),
    }
}

fn say_device(said: &mut Said, alloc: Global, parts: &str, script: &str) -> Result<()> {
    let mut device = device_of(alloc, parts)?;
    match recover(alloc, &mut device) {
        Ok(recovered) => {
            for asked in script.split(", ") {
                said.word(" ");
                say_asked(said, &recovered, device.disk.reads, asked);
            }
        }
        Err(error) => {
            said.word(" ");
            said.word(error.kind().name());
        }
    }
    Ok(())
}

fn rows_of(alloc: Global, rows: &str) -> Result<String> {
    let mut said = Said::new(alloc);
    for row in rows.lines() {
        let (asked, _) = row.split_once(" | ").unwrap_or((row, ""));
        said.word(asked);
        if let Some((parts, script)) = asked.split_once(" < ") {
            said.word(" |");
            say_device(&mut said, alloc, parts, script)?;
        }
        said.word("\n");
    }
    said.text()
}

// Names, and below each name its devices: the mode, then offsets whose reads fail, marks, workers and blocks. A row asks for the block of a
// hash, for where its record is (block.filling+offset:length), for the next sequence, for the clean blocks, or for how many reads there were.
const ROWS: &str = "zeroed blocks are clean
none / zeros / zeros / zeros < next, clean, at 0 | 1 [012] none
quiet / zeros / zeros / zeros < next, clean, at 0 | 1 [012] none
strict / zeros / zeros / zeros < next, clean, at 0 | 1 [012] none
entries are kept up to the first fall
quiet / index 0 1 5 4096 53, 2 6 4096 53, 3 4 4096 53, 4 7 4096 53 < at 1, at 2, at 3, at 4, next, clean | 0 0 none none 7 []
a fall from one index to the next
strict / index 0 1 4 4096 53; index 8192 2 1 4096 53 < at 1, at 2, next | 0 none 5
of equal sequences the later wins
quiet / index 0 3 9 4096 53 / index 0 3 9 8192 54 < where 3, next | 1.0+8192:54 10
whichever listing came first, and a double is refused
quiet / workers 2 / index 0 3 9 4096 53 / index 0 3 9 8192 54 < at 3, next | 1 10
quiet / turned 2 / index 0 3 9 4096 53 / index 0 3 9 8192 54 < at 3, next | 1 10
a mark of the same sequence or of a greater one deletes
quiet / mark 3 9 / index 0 3 9 4096 53 / index 0 3 9 8192 54 < at 3, next, clean | none 10 []
quiet / mark 3 8 / index 0 3 9 4096 53 / index 0 3 9 8192 54 < at 3, next, clean | 1 10 []
quiet / mark 3 11 / index 0 3 9 4096 53 / index 0 3 9 8192 54 < at 3, next, clean | none 12 []
a failed read ends a block or refuses
quiet / fails 16384 / index 0 1 5 4096 53 / index 0 2 6 4096 53 < at 1, at 2, next, clean | 0 none 6 [1]
strict / fails 16384 / index 0 1 5 4096 53 / index 0 2 6 4096 53 < next | Recover
no block is read where nothing is kept, but marks count
none / mark 1 8 / fails 16384 / index 0 1 5 4096 53 / index 0 2 6 4096 53 < reads, at 1, next, clean | 0 none 9 [01]
a failed read behind a fall counts
quiet / fails 8192 / index 0 1 5 4096 53, 2 4 4096 53 < at 1, next | 0 6
strict / fails 8192 / index 0 1 5 4096 53, 2 4 4096 53 < next | Recover
the last sequence refuses behind failed reads
strict / fails 16384 / index 0 1 18446744073709551615 4096 53 / zeros < next | Recover
quiet / fails 16384 / index 0 1 18446744073709551615 4096 53 / zeros < next | SequenceEnd
none / mark 9 18446744073709551615 / fails 16384 / index 0 1 18446744073709551615 4096 53 / zeros < next | SequenceEnd
quiet / fails 16384 / index 0 1 18446744073709551614 4096 53 / zeros < next | 18446744073709551615
a forged index lists nothing
strict / overfull < clean, next, at 1 | [0] 1 none
strict / index 0 1 5 4096 0 < clean, next, at 1 | [0] 1 none
strict / index 0 1 5 4097 53 < clean, next, at 1 | [0] 1 none
strict / index 0 1 5 0 53 < clean, next, at 1 | [0] 1 none
strict / index 0 1 5 4096 12289 < clean, next, at 1 | [0] 1 none
strict / index 0 1 5 16384 1 < clean, next, at 1 | [0] 1 none
strict / index 0 < clean, next, at 1 | [0] 1 none
strict / index 0 1 5 4096 53; flip 7 < clean, next, at 1 | [0] 1 none
forged entries that fit are kept: up to the block's end
strict / index 0 1 5 4096 12288 < at 1 | 0
the chain goes on behind the last entry, wherever the others lie
strict / index 0 1 1 8192 53, 2 2 4096 53; index 8192 9 6 4096 53 < at 1, at 2, where 9, next | 0 0 0.0+12288:53 7
an index without entries ends the block, whatever stands behind it
strict / index 0; index 8192 9 6 4096 53 < clean, at 9 | [0] none
";

#[test]
fn an_opening_finds_what_the_blocks_list(rt: HostRuntime) -> std::result::Result<(), Fail> {
    let answers = rows_of(rt.alloc(), ROWS)?;
    assert_eq!(rt; first_difference(answers.as_str(), ROWS), None);
    Ok(())
}

// Two blocks, of which the first has a record.
fn two_blocks(alloc: Global) -> Result<ForgedDisk> {
    let mut disk = ForgedDisk::new(alloc, 2)?;
    disk.put(0, &page(&[entry(1, 5, 4096, 53)], 1));
    Ok(disk)
}

// What an opening under a refused allocation is: refused for memory, right although one was refused, right without a refusal,
// or wrong.
#[derive(Clone, Copy, Debug, PartialEq, Eq)]
enum Outcome {
    Memory,
    Despite,
    Whole,
    Wrong,
}

fn outcome_of(is_right: Result<bool>, has_refused: bool) -> Outcome {
    match is_right {
        Err(Error::Memory) if has_refused => Outcome::Memory,
        Ok(true) => {
            if has_refused {
                Outcome::Despite
            } else {
                Outcome::Whole
            }
        }
        _ => Outcome::Wrong,
    }
}

// By a worker that may be refused memory in the middle of its blocks, and leaves the others to whoever takes its listings.
fn by_a_worker(alloc: Global, disk: &mut ForgedDisk, n: u64) -> Outcome {
    let heap = Refusing::new(alloc, n);
    let runner = runner(RecoverMode::Quiet, 2);
    let is_right = match recover_by(&&heap, disk, &runner, 1, false, &[]) {
        Ok(recovered) => Ok(recovered.next == 7 && recovered.clean.is_empty()),
        Err(error) => Err(error),
    };
    outcome_of(is_right, heap.has_refused())
}

// Recovers by the runner alone. The second block is of zeros.
fn alone(alloc: Global, disk: &mut ForgedDisk, n: u64) -> Outcome {
    let heap = Refusing::new(alloc, n);
    let is_right = match runner(RecoverMode::Quiet, 2).run(&&heap, disk, 2, &[]) {
        Ok(recovered) => Ok(recovered.next == 6 && recovered.clean.len() == 1),
        Err(error) => Err(error),
    };
    outcome_of(is_right, heap.has_refused())
}

#[test]
fn refused_workers_change_no_opening(rt: HostRuntime) -> std::result::Result<(), Fail> {
    let mut disk = two_blocks(rt.alloc())?;
    disk.put(16384, &page(&[entry(2, 6, 4096, 53)], 1));
    let mut listed = 0u32;
    for n in 1..100u64 {
        let outcome = by_a_worker(rt.alloc(), &mut disk, n);
        assert!(rt; outcome != Outcome::Wrong, "allocation {n}");
        match outcome {
            Outcome::Whole => {
                assert!(rt; listed > 2);
                return Ok(());
            }
            Outcome::Despite => listed = listed.saturating_add(1),
            _ => {}
        }
    }
    Err(Fail::new("the opening makes more allocations"))
}

#[test]
fn each_refused_allocation_is_memory(rt: HostRuntime) -> std::result::Result<(), Fail> {
    let mut disk = two_blocks(rt.alloc())?;
    for n in 1..100u64 {
        let outcome = alone(rt.alloc(), &mut disk, n);
        assert!(rt;
            outcome == Outcome::Memory || outcome == Outcome::Whole,
            "allocation {n}"
        );
        if outcome == Outcome::Whole {
            assert!(rt; n > 5);
            return Ok(());
        }
    }
    Err(Fail::new("the opening makes more allocations"))
}
