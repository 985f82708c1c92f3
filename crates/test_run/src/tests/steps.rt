//! Moves of a run, and their replies.
use crate::tests::driver::{FULL, Way, new_driver, small, small_number};
use crate::tests::replies::{TestAge, TestReply, Value, piece_of, word_of};
use foyer_core_run::moves::{Move, run};
use foyer_core_run::opened::run_texts;
use foyer_core_steps::reply::Reply;
use foyer_core_steps::settings::Settings;
use foyer_device_page::error::{Error, Result};
use foyer_testing::rows::first_difference;
use foyer_testing::said::Said;
use std::alloc::{Allocator, Global};
use std::test::Fail;

type TestMove<A> = Move<u64, Value<A>, TestAge, A>;

// Each case has its name, a script, and what it is answered. Ahead of the script stand how many blocks there are, which call of the disk
// fails, from 1, and a word for the settings. An access that wasn't issued is passed over without an answer.
//
// A block has two pages, and holds records of one page, however much room the buffer has. The header, the length of the text and the key are
// 52 bytes of that page. With a short buffer a block has three pages. With no queue, no piece is taken while one byte is queued.
//
// Three records fill a block of four pages: the fourth is indexed with the second block, and not with the first. Behind the records of a
// block that isn't full a page of zeros is written, ahead of the index. So such a block has three writes. If the write to the only block
// fails, no other is clean, and the flusher waits. An older text isn't answered in the place of a piece that was dropped or returned.
const CASES: &str = "a delete hides an older put
1 0 plain: put 7 a, delete 7, receive 0, receive 0, begin 0, block 0, wrote 0, wrote 0, wrote 0, end 0, look 7, ask 7
= queued, deleted, received, received, began, write, next, next, committed, ended, miss, no
a batch ends behind the log
1 0 log: logged 0, delete 7, receive 0, begin 0, block 0, wrote 0, end 0, logged 1, logged 0, unlogged 0, end 0
= not now, deleted, received, began, write, not now, not now, done, not now, ended
steps out of turn are handed back
1 0 plain: begin 0, block 0, end 0, receive 0, receive 1, wait 1, reclaim, idle, clear, destroy, clear, destroy
= not now, not now, not now, empty, not now, not now, not now, yes, not now, destroying, not now, not now
a wait alone makes a batch and takes a block
1 0 plain: wait 0, receive 0, begin 0, block 0, wrote 0, end 0
= done, received, began, write, ended
young pieces and closed cores take nothing
1 0 plain: young 1 a, close, put 1 a, delete 1, throttled 1
= ignored, done, refused, refused, miss
what has no room in the buffer is handed back
2 0 short: put 1 a, put 2 a, put 3 a, put 4 a, receive 0, receive 0, receive 0, receive 0, begin 0, block 0, wrote 0, wrote 0, end 0, ask 3, ask 4, throttled 3
= queued, queued, queued, queued, received, received, received, handed back, began, write, next, committed, ended, yes, no, throttled
what no block holds is handed back
2 0 pages: long 1 4045, long 2 4044, receive 0, receive 0, begin 0, block 0, wrote 0, wrote 0, ask 1, ask 2
= queued, queued, handed back, received, began, write, next, committed, no, yes
a piece too many deletes its hash
2 0 unqueued: put 1 a, receive 0, begin 0, block 0, wrote 0, wrote 0, wrote 0, end 0, put 2 b, put 1 c, look 1, ask 1, young 2 d, receive 0, receive 0, receive 0, begin 0, block 0, wrote 0, wrote 0, wrote 0, end 0, look 1, look 2, read 0
= queued, received, began, write, next, next, committed, ended, queued, dropped, miss, no, ignored, received, received, empty, began, write, next, next, committed, ended, miss, read, entry b
a piece that is handed back deletes its hash
2 0 pages: put 3 a, receive 0, begin 0, block 0, wrote 0, wrote 0, end 0, long 3 4045, ask 3, receive 0, ask 3, look 3, begin 0, block 0, end 0, look 3, ask 3
= queued, received, began, write, next, committed, ended, queued, yes, handed back, no, miss, began, write, ended, miss, no
a full block is left for the next within a batch
2 0 plain: put 1 a, put 2 b, put 3 c, put 4 d, receive 0, receive 0, receive 0, receive 0, begin 0, block 0, block 0, wrote 0, ask 1, wrote 0, ask 3, ask 4, end 0, block 0, wrote 0, ask 4, end 0, wrote 0, ask 4, end 0, wrote 0, end 0, look 4, read 0, look 3, read 1
= queued, queued, queued, queued, received, received, received, received, began, write, not now, next, no, committed, yes, no, not now, write, next, no, not now, next, no, not now, committed, ended, read, entry d, read, entry c
where no block is clean the flusher waits
1 1 plain: put 1 a, receive 0, begin 0, block 0, wrote 0, end 0, put 1 b, receive 0, begin 0, block 0, end 0, block 0
= queued, received, began, write, failed, ended, queued, received, began, no block, not now, no block
texts are run from an opening
1 0 texts: put 1 a, receive 0, begin 0, block 0, wrote 0, wrote 0, wrote 0, end 0, look 1, read 0, read 0, wrote 0
= queued, received, began, write, next, next, committed, ended, read, entry a
";

// A script, the call of its disk that fails, and the settings.
#[derive(Clone, Copy)]
struct Case<'a> {
    script: &'a str,
    fails_at: u64,
    word: &'a str,
    settings: Settings,
}

// The settings that a word names.
fn settings_of(blocks: u32, word: &str) -> Settings {
    match word {
        "log" => small(blocks).with_tombstone_log(true),
        "short" => Settings {
            buffer_pool_size: 12288,
            ..small(blocks)
        },
        "pages" => Settings {
            buffer_pool_size: 65536,
            ..Settings::new(blocks, 8192)
        },
        "unqueued" => Settings {
            submit_queue_size_threshold: 0,
            ..small(blocks)
        },
        _ => small(blocks),
    }
}

// The case of a line, if it has a script.
fn case_of(line: &str) -> Option<Case<'_>> {
    let (head, script) = line.split_once(": ")?;
    let (blocks, rest) = head.split_once(' ')?;
    let (call, word) = rest.split_once(' ')?;
    let blocks = small_number(blocks.parse::<u64>().unwrap_or(0));
    Some(Case {
        script,
        fails_at: call.parse::<u64>().unwrap_or(0),
        word,
        settings: settings_of(blocks, word),
    })
}

// The move of a word and a number, which carries nothing else.
fn plain_move<A: Allocator>(word: &str, number: u64) -> TestMove<A> {
    let flusher = small_number(number);
    match word {
        "delete" => Move::Delete { hash: number },
        "wait" => Move::Wait { flusher, id: 3 },
        "ask" => Move::MayContains { hash: number },
        "look" => Move::LoadBegin {
            hash: number,
            throttled: false,
        },
        "throttled" => Move::LoadBegin {
            hash: number,
            throttled: true,
        },
        "read" => Move::LoadEnd {
            ticket: flusher as usize,
        },
        "receive" => Move::Receive { flusher },
        "begin" => Move::FlushBegin { flusher },
        "block" => Move::FlushBlock { flusher },
        "wrote" => Move::FlushWrote { flusher },
        "logged" => Move::LogWrote {
            flusher,
            result: Ok(()),
        },
        "unlogged" => Move::LogWrote {
            flusher,
            result: Err(Error::Io),
        },
        "end" => Move::FlushEnd { flusher },
        "reclaim" => Move::ReclaimBegin,
        "idle" => Move::ReclaimIdle,
        "destroy" => Move::DestroyBegin,
        "clear" => Move::DestroyClear,
        _ => Move::Close,
    }
}

// A put of so many letters.
fn long_of(alloc: Global, number: u64, len: usize) -> Result<TestMove<Global>> {
    let text = "x".repeat(alloc, len)?;
    Ok(Move::Enqueue {
        piece: piece_of(&alloc, number, text.as_str(), false)?,
        size: len,
    })
}

fn put_of(alloc: Global, number: u64, text: &str, is_young: bool) -> Result<TestMove<Global>> {
    Ok(Move::Enqueue {
        piece: piece_of(&alloc, number, text, is_young)?,
        size: text.len(),
    })
}

// The move that a line names: a word, a number, and for a put a text, or for a long one the text's length.
fn move_of(alloc: Global, line: &str) -> Result<TestMove<Global>> {
    let (word, rest) = line.split_once(' ').unwrap_or((line, ""));
    let (first, text) = rest.split_once(' ').unwrap_or((rest, ""));
    let number = first.parse::<u64>().unwrap_or(0);
    match word {
        "put" | "young" => put_of(alloc, number, text, word == "young"),
        "long" => long_of(alloc, number, text.parse::<usize>().unwrap_or(0)),
        _ => Ok(plain_move(word, number)),
    }
}

// The moves that a script names.
fn moves_of(alloc: Global, script: &str) -> Result<Vec<TestMove<Global>>> {
    let mut moves = Vec::new(alloc);
    for line in script.split(", ") {
        moves.push(move_of(alloc, line)?)?;
    }
    Ok(moves)
}

// Says a reply in words; of an entry its text.
fn say_reply(said: &mut Said, reply: &TestReply<Global>) {
    said.word(word_of(reply));
    if let Reply::Entry {
        key: _,
        value,
        age: _,
    } = reply
    {
        said.word(" ");
        said.word(value.as_str());
    }
}

fn say_replies(said: &mut Said, replies: &[TestReply<Global>]) {
    let mut between = "";
    for reply in replies {
        said.word(between);
        say_reply(said, reply);
        between = ", ";
    }
}

// Runs a case from an opening.
fn say_texts(alloc: Global, said: &mut Said, case: Case<'_>) -> Result<()> {
    let replies = run_texts(alloc, case.settings, moves_of(alloc, case.script)?)?;
    say_replies(said, replies.as_slice());
    Ok(())
}

// Runs a case over a core whose disk fails a call.
fn say_run(alloc: Global, said: &mut Said, case: Case<'_>) -> Result<()> {
    let way = Way {
        fails_at: case.fails_at,
        ..FULL
    };
    let mut driven = new_driver(alloc, &alloc, case.settings, way)?;
    let moves = moves_of(alloc, case.script)?;
    let replies = run(&mut driven.core, &mut driven.env, &mut driven.disk, moves)?;
    say_replies(said, replies.as_slice());
    if case.fails_at != 0 && !driven.disk.has_failed() {
        said.word(", and no call failed");
    }
    Ok(())
}

fn say_case(alloc: Global, said: &mut Said, case: Case<'_>) -> Result<()> {
    if case.word == "texts" {
        say_texts(alloc, said, case)
    } else {
        say_run(alloc, said, case)
    }
}

// Says a line of a table, and behind a script what it is answered.
fn say_line(alloc: Global, said: &mut Said, line: &str) -> Result<()> {
    said.word(line);
    said.word("\n");
    if let Some(case) = case_of(line) {
        said.word("= ");
        say_case(alloc, said, case)?;
        said.word("\n");
    }
    Ok(())
}

// A table of cases with their answers, as they are.
fn answered(alloc: Global, cases: &str) -> Result<String> {
    let mut said = Said::new(alloc);
    for line in cases.lines() {
        if !line.starts_with("= ") {
            say_line(alloc, &mut said, line)?;
        }
    }
    said.text()
}

#[test]
fn scripts_of_steps_get_their_replies(rt: HostRuntime) -> std::result::Result<(), Fail> {
    let answers = answered(rt.alloc(), CASES)?;
    assert_eq!(rt; first_difference(answers.as_str(), CASES), None);
    Ok(())
}

// Two puts with their flushes and loads. Of a load's reads those that weren't issued, or are done, are passed over, and so
// is a write behind one that failed. The calls of the disk are of each flush the data, the zeros behind them and the index, and
// its load; then a load of the first.
const LIFE: &str =
    "put 1 a, receive 0, begin 0, block 0, wrote 0, wrote 0, wrote 0, end 0, look 1, read 0, put 2 b, receive 0, begin 0, block 0, wrote 0, wrote 0, wrote 0, end 0, look 2, read 0, read 1, look 1, read 0, read 1, read 2";

// What that life is answered if this call fails. Calls are counted from 1.
const LIVES: &str =
    "call 0: queued, received, began, write, next, next, committed, ended, read, entry a, queued, received, began, write, next, next, committed, ended, read, entry b, read, entry a
call 1: queued, received, began, write, failed, ended, miss, queued, received, began, write, next, next, committed, ended, read, entry b, miss
call 2: queued, received, began, write, next, failed, ended, miss, queued, received, began, write, next, next, committed, ended, read, entry b, miss
call 3: queued, received, began, write, next, next, failed, ended, miss, queued, received, began, write, next, next, committed, ended, read, entry b, miss
call 4: queued, received, began, write, next, next, committed, ended, read, refused, queued, received, began, write, next, next, committed, ended, read, entry b, read, entry a
call 5: queued, received, began, write, next, next, committed, ended, read, entry a, queued, received, began, write, failed, ended, miss, read, entry a
call 6: queued, received, began, write, next, next, committed, ended, read, entry a, queued, received, began, write, next, failed, ended, miss, read, entry a
call 7: queued, received, began, write, next, next, committed, ended, read, entry a, queued, received, began, write, next, next, failed, ended, miss, read, entry a
call 8: queued, received, began, write, next, next, committed, ended, read, entry a, queued, received, began, write, next, next, committed, ended, read, refused, read, entry a
call 9: queued, received, began, write, next, next, committed, ended, read, entry a, queued, received, began, write, next, next, committed, ended, read, entry b, read, refused
";

// A piece that is dropped while its hash has a record, and then a piece that is returned while its hash has a record. The calls of the disk
// are the data, the zeros after them and the index of each flush, and a load of the second record.
const DROPS: &str =
    "put 1 a, receive 0, begin 0, block 0, wrote 0, wrote 0, wrote 0, end 0, put 2 b, put 1 c, look 1, ask 1, receive 0, receive 0, begin 0, block 0, wrote 0, wrote 0, wrote 0, end 0, look 2, read 0, long 2 12300, ask 2, receive 0, ask 2, look 2, begin 0, block 0, end 0, look 1, look 2";

// What that life is answered if this call fails. Calls are counted from 1.
const DROPPED: &str =
    "call 0: queued, received, began, write, next, next, committed, ended, queued, dropped, miss, no, received, received, began, write, next, next, committed, ended, read, entry b, queued, yes, handed back, no, miss, began, write, ended, miss, miss
call 1: queued, received, began, write, failed, ended, queued, dropped, miss, no, received, received, began, write, next, next, committed, ended, read, entry b, queued, yes, handed back, no, miss, began, write, ended, miss, miss
call 2: queued, received, began, write, next, failed, ended, queued, dropped, miss, no, received, received, began, write, next, next, committed, ended, read, entry b, queued, yes, handed back, no, miss, began, write, ended, miss, miss
call 3: queued, received, began, write, next, next, failed, ended, queued, dropped, miss, no, received, received, began, write, next, next, committed, ended, read, entry b, queued, yes, handed back, no, miss, began, write, ended, miss, miss
call 4: queued, received, began, write, next, next, committed, ended, queued, dropped, miss, no, received, received, began, write, failed, ended, miss, queued, no, handed back, no, miss, began, write, ended, miss, miss
call 5: queued, received, began, write, next, next, committed, ended, queued, dropped, miss, no, received, received, began, write, next, failed, ended, miss, queued, no, handed back, no, miss, began, write, ended, miss, miss
call 6: queued, received, began, write, next, next, committed, ended, queued, dropped, miss, no, received, received, began, write, next, next, failed, ended, miss, queued, no, handed back, no, miss, began, write, ended, miss, miss
call 7: queued, received, began, write, next, next, committed, ended, queued, dropped, miss, no, received, received, began, write, next, next, committed, ended, read, refused, queued, yes, handed back, no, miss, began, write, ended, miss, miss
";

// What a script is answered over two blocks for each call that fails, up to the last one.
fn lives(alloc: Global, script: &str, word: &str, last: u64) -> Result<String> {
    let mut said = Said::new(alloc);
    for call in 0..last.saturating_add(1) {
        said.number("call ", call);
        said.word(": ");
        let case = Case {
            script,
            fails_at: call,
            word,
            settings: settings_of(2, word),
        };
        say_run(alloc, &mut said, case)?;
        said.word("\n");
    }
    said.text()
}

#[test]
fn each_failed_call_of_the_disk_is_reported(rt: HostRuntime) -> std::result::Result<(), Fail> {
    let answers = lives(rt.alloc(), LIFE, "plain", 9)?;
    assert_eq!(rt; first_difference(answers.as_str(), LIVES), None);
    Ok(())
}

#[test]
fn a_dropped_piece_stays_dropped_where_a_call_of_the_disk_fails(
    rt: HostRuntime,
) -> std::result::Result<(), Fail> {
    let answers = lives(rt.alloc(), DROPS, "unqueued", 7)?;
    assert_eq!(rt; first_difference(answers.as_str(), DROPPED), None);
    Ok(())
}
