//! Worked examples of what a flush writes: blocks of 16 KiB with indices of one page.
use crate::tests::driver::{
    Driver, FULL, Way, answer_line, answer_numbers, answered, new_driver, small, step_in,
};
use crate::tests::reader::{Listed, bytes_of, list, say_record};
use crate::tests::replies::text_of;
use crate::tests::runs::run_of;
use foyer_core_steps::settings::Settings;
use foyer_device_page::error::Result;
use foyer_testing::rows::first_difference;
use foyer_testing::said::Said;
use std::alloc::Global;
use std::test::Fail;

const THREE: &str = "put 1 3072: queued 1
put 2 13312: queued 2
put 3 3072: queued 3
receive 0: received
receive 0: handed back
receive 0: received
receive 0: empty
begin 0: began 1 1
block 0: write 0, data 4096 8192, zeros 12288 4096, index 0 4096
wrote 0: next
wrote 0: next
wrote 0: committed 2
end 0: ended 1 3 /
put 4 3072: queued 4
put 5 7168: queued 5
put 6 7168: queued 6
receive 0: received
receive 0: received
receive 0: received
begin 0: began 3 0
block 0: write 0, data 12288 4096, index 0 4096
wrote 0: next
wrote 0: committed 1
block 0: write 1, data 4096 8192, zeros 12288 4096, index 0 4096
wrote 0: next
wrote 0: next
wrote 0: committed 1
block 0: write 2, data 4096 8192, zeros 12288 4096, index 0 4096
wrote 0: next
wrote 0: next
wrote 0: committed 1
end 0: ended 4 5 6 /
put 7 7168: queued 7
receive 0: received
begin 0: began 2 0
block 0: write 2
block 0: write 3, data 4096 8192, zeros 12288 4096, index 0 4096
wrote 0: next
wrote 0: next
wrote 0: committed 1
end 0: ended 7 /
look 1: read 0 4096 3124
load 0: entry 1 3072
look 2: miss
look 3: read 0 8192 3124
load 1: entry 3 3072
look 4: read 0 12288 3124
load 2: entry 4 3072
look 5: read 1 4096 7220
load 3: entry 5 7168
look 6: read 2 4096 7220
load 4: entry 6 7168
look 7: read 3 4096 7220
load 5: entry 7 7168
";

// The block, hash, sequence, offset and length of each record that the disk lists then.
const THREE_LISTED: &str = "0 1 1 4096 3124
0 3 3 8192 3124
0 4 4 12288 3124
1 5 5 4096 7220
2 6 6 4096 7220
3 7 7 4096 7220
";

// A flush that begins a block too early or too late, forgets an earlier part in a blob's index, or skips a block that
// gets nothing, fails here.
#[test]
fn a_flush_goes_on_where_the_one_before_ended(rt: HostRuntime) -> std::result::Result<(), Fail> {
    let run = run_of(rt.alloc(), small(4), FULL, THREE)?;
    assert_eq!(rt; first_difference(run.answers.as_str(), THREE), None);
    assert_eq!(rt; first_difference(run.listed.as_str(), THREE_LISTED), None);
    Ok(())
}

const FAILED: &str = "put 1 3072: queued 1
put 2 7168: queued 2
put 3 7168: queued 3
receive 0: received
receive 0: received
receive 0: received
begin 0: began 2 0
block 0: write 0, data 4096 12288, index 0 4096
wrote 0: next
wrote 0: committed 2
block 0: write 1, data 4096 8192, zeros 12288 4096, index 0 4096
wrote 0: failed
wrote 0: left out
wrote 0: left out
block 0: not now
end 0: ended 1 2 3 /
look 1: read 0 4096 3124
load 0: entry 1 3072
look 2: read 0 8192 7220
load 1: entry 2 7168
look 3: miss
put 3 3072: queued 4
receive 0: received
begin 0: began 1 0
block 0: write 2, data 4096 4096, zeros 8192 4096, index 0 4096
wrote 0: next
wrote 0: next
wrote 0: committed 1
end 0: ended 3 /
look 3: read 2 4096 3124
load 2: entry 3 3072
";

const FAILED_LISTED: &str = "0 1 1 4096 3124
0 2 2 8192 7220
2 3 4 4096 3124
";

// A flush that goes on in the block whose write failed, or indexes what wasn't written, fails here.
#[test]
fn a_block_whose_write_failed_is_not_written_again(
    rt: HostRuntime,
) -> std::result::Result<(), Fail> {
    let way = Way {
        fails_at: 3,
        ..FULL
    };
    let run = run_of(rt.alloc(), small(4), way, FAILED)?;
    assert_eq!(rt; first_difference(run.answers.as_str(), FAILED), None);
    assert_eq!(rt; first_difference(run.listed.as_str(), FAILED_LISTED), None);
    Ok(())
}

const FIRST: &str = "put 1 1: queued 1
receive 0: received
begin 0: began 1 0
block 0: write 0, data 4096 4096, zeros 8192 4096, index 0 4096
wrote 0: next
wrote 0: next
wrote 0: committed 1
end 0: ended 1 /
";

// The header and the body of the record of key 1 and text `a`, as the page on the bytes shows them.
const RECORD: [u8; 53] = [
    0, 0, 0, 8, 0, 0, 0, 9, 0, 0, 0, 0, 0, 0, 0, 1, 0, 0, 0, 0, 0, 0, 0, 1, 0x97, 0xcf, 0xc8, 0x7e,
    0x4a, 0xc2, 0x0e, 0xa7, 0x97, 0x03, 0x27, 0, 1, 0, 0, 0, 0, 0, 0, 0, 0x61, 1, 0, 0, 0, 0, 0, 0,
    0,
];

// The count of the index, and its one entry.
const ENTRY: [u8; 28] = [
    0, 0, 0, 1, 0, 0, 0, 0, 0, 0, 0, 1, 0, 0, 0, 0, 0, 0, 0, 1, 0, 0, 0x10, 0, 0, 0, 0, 0x35,
];

// Whether the bytes of a block from an offset on are these.
fn has_bytes(alloc: Global, driven: &mut Driver<Global>, at: usize, wanted: &[u8]) -> Result<bool> {
    let found = bytes_of(alloc, &mut driven.disk, 0, at, wanted.len())?;
    Ok(found.as_slice() == wanted)
}

// The answers to the first put, and whether its record and its index are the bytes above.
fn first_put(alloc: Global) -> Result<(String, bool)> {
    let mut driven = new_driver(alloc, &alloc, small(1), FULL)?;
    let answers = answered(alloc, &mut driven, &alloc, FIRST)?;
    let is_there = has_bytes(alloc, &mut driven, 4096, RECORD.as_slice())?
        && has_bytes(alloc, &mut driven, 8, ENTRY.as_slice())?;
    Ok((answers, is_there))
}

// Bytes in another order, or at another place, fail here.
#[test]
fn the_first_record_and_its_index_are_these_bytes(
    rt: HostRuntime,
) -> std::result::Result<(), Fail> {
    let (answers, is_there) = first_put(rt.alloc())?;
    assert_eq!(rt; first_difference(answers.as_str(), FIRST), None);
    assert!(rt; is_there);
    Ok(())
}

// A line without an answer is run, and its answer isn't looked at. A line `fill` puts records of a page under keys from the
// first number on, and receives them.
//
// An index lists 170 records. In a block of 172 pages no blob fits behind it, in one of 173 one does.
const SHORT: &str = "fill 1 169 8
begin 0: began 1 0
block 0
wrote 0
wrote 0
wrote 0
end 0
ask 169: yes
fill 170 2 1182
begin 0: began 2 0
block 0: write 0, data 696320 4096, zeros 700416 4096, index 0 4096
wrote 0
wrote 0
wrote 0
wrote 0
wrote 0
block 0: write 1, data 4096 4096, zeros 8192 4096, index 0 4096
wrote 0
wrote 0
wrote 0
end 0
ask 171: yes
171 are listed, the last is 1 171 171 4096 1234
";

const LONG: &str = "fill 1 169 8
begin 0: began 1 0
block 0
wrote 0
wrote 0
wrote 0
end 0
ask 169: yes
fill 170 2 1182
begin 0: began 1 0
block 0: write 0, data 696320 4096, zeros 700416 4096, index 0 4096, data 704512 4096, index 700416 4096
wrote 0
wrote 0
wrote 0
wrote 0
wrote 0
block 0: not now
wrote 0
wrote 0
wrote 0
end 0
ask 171: yes
171 are listed, the last is 0 171 171 704512 1234
";

// Three blocks of 342 pages.
const LARGE: &str = "fill 1 850 3072
begin 0: began 3 0
block 0: write 0, data 4096 696320, zeros 700416 4096, index 0 4096, data 704512 696320, index 700416 4096
wrote 0
wrote 0
wrote 0
wrote 0
wrote 0
ask 1: yes
block 0: write 1, data 4096 696320, zeros 700416 4096, index 0 4096, data 704512 696320, index 700416 4096
wrote 0
wrote 0
wrote 0
wrote 0
wrote 0
ask 1: yes
block 0: write 2, data 4096 696320, zeros 700416 4096, index 0 4096
wrote 0
wrote 0
wrote 0
wrote 0
wrote 0
ask 1: yes
look 850
load 0: entry 850 3072
850 are listed, the last is 2 850 850 696320 3124
";

fn number_of(word: Option<&str>) -> u64 {
    match word {
        Some(digits) => digits.parse::<u64>().unwrap_or(0),
        None => 0,
    }
}

// Puts and receives records: the first key, how many there are, and the length of their texts.
fn fill(alloc: Global, driven: &mut Driver<Global>, numbers: &str) {
    let mut unread = Said::new(alloc);
    let mut words = numbers.split_whitespace();
    let first = number_of(words.next());
    let count = number_of(words.next());
    let len = number_of(words.next());
    for key in first..first.saturating_add(count) {
        answer_numbers(alloc, &mut unread, driven, &alloc, "put", key, len);
    }
    for _ in 0..count {
        answer_numbers(alloc, &mut unread, driven, &alloc, "receive", 0, 0);
    }
}

fn run_unread(alloc: Global, driven: &mut Driver<Global>, line: &str) {
    let mut unread = Said::new(alloc);
    answer_line(alloc, &mut unread, driven, &alloc, line);
}

fn say_answer(alloc: Global, said: &mut Said, driven: &mut Driver<Global>, line: &str) {
    said.word(": ");
    answer_line(alloc, said, driven, &alloc, line);
}

// Runs a line, which was said up to its answer.
fn say_line(alloc: Global, said: &mut Said, driven: &mut Driver<Global>, line: &str) {
    match line.split_once(": ") {
        Some((step, _)) => say_answer(alloc, said, driven, step),
        None => match line.split_once(' ') {
            Some(("fill", numbers)) => fill(alloc, driven, numbers),
            _ => run_unread(alloc, driven, line),
        },
    }
}

fn say_lines(alloc: Global, said: &mut Said, driven: &mut Driver<Global>, script: &str) {
    for line in script.lines() {
        if !line.contains(" are listed") {
            said.word(step_in(line));
            say_line(alloc, said, driven, line);
            said.word("\n");
        }
    }
}

// How many records are listed, and the last of them.
fn say_listed(said: &mut Said, listed: &[Listed]) {
    said.number("", listed.len() as u64);
    said.word(" are listed, the last is ");
    match listed.last() {
        Some(last) => say_record(said, last),
        None => said.word("none"),
    }
}

// A script with its answers and what is listed behind it, as they are, and the records themselves.
fn listed_behind(alloc: Global, settings: Settings, script: &str) -> Result<(String, Vec<Listed>)> {
    let mut driven = new_driver(alloc, &alloc, settings, FULL)?;
    let mut said = Said::new(alloc);
    say_lines(alloc, &mut said, &mut driven, script);
    let listed = list(alloc, &mut driven.disk, &settings)?;
    say_listed(&mut said, listed.as_slice());
    Ok((said.text()?, listed))
}

// Two blocks of so many pages, and a buffer of a MiB.
fn two_of(pages: usize) -> Settings {
    Settings {
        buffer_pool_size: 1 << 20,
        ..Settings::new(2, pages.saturating_mul(4096))
    }
}

#[test]
fn a_full_index_begins_a_blob_behind_it_where_a_record_fits(
    rt: HostRuntime,
) -> std::result::Result<(), Fail> {
    let (short, _) = listed_behind(rt.alloc(), two_of(172), SHORT)?;
    assert_eq!(rt; first_difference(short.as_str(), SHORT), None);
    let (long, _) = listed_behind(rt.alloc(), two_of(173), LONG)?;
    assert_eq!(rt; first_difference(long.as_str(), LONG), None);
    Ok(())
}

// Whether a record is the one that stands at this place of all: 170 of them fill a blob, and 340 a block.
fn is_at(at: usize, found: &Listed) -> bool {
    let place = at % 340;
    let blob = if place < 170 { 0 } else { 171 };
    let number = (at as u64).saturating_add(1);
    u64::from(found.block) == at as u64 / 340
        && found.hash == number
        && found.sequence == number
        && found.offset == (blob + 1 + place % 170) * 4096
        && found.len == 3124
        && found.is_record
}

fn are_in_turn(listed: &[Listed]) -> bool {
    for (at, found) in listed.iter().enumerate() {
        if !is_at(at, found) {
            return false;
        }
    }
    true
}

// A batch that miscounts the records of a blob, or of a block of two blobs, fails here.
#[test]
fn a_batch_of_many_records_fills_blobs_of_170(rt: HostRuntime) -> std::result::Result<(), Fail> {
    let settings = Settings {
        buffer_pool_size: 850 * 4096,
        ..Settings::new(3, 342 * 4096)
    };
    let (answers, listed) = listed_behind(rt.alloc(), settings, LARGE)?;
    assert_eq!(rt; first_difference(answers.as_str(), LARGE), None);
    assert!(rt; are_in_turn(listed.as_slice()) && text_of(rt.alloc(), 850, 3072)?.len() == 3072);
    Ok(())
}
