//! Scripts of every step that is built: each allocation refused in turn, and each call of their disk failed in turn.
use crate::tests::driver::{BRIEF, reply_in, step_in};
use crate::tests::refusals::{
    MOST_ALLOCATIONS, NO_LINE, Run, Script, ample, refused_at, two_blocks,
};
use foyer_core_steps::settings::Settings;
use foyer_device_page::error::Result;
use foyer_testing::said::Said;
use std::alloc::Global;
use std::test::Fail;

// Each line with its answer. Of a batch that ended the keys of its pieces stand before its waits.
const SCRIPT: &str = "begin: not now
wait 0 70: done
receive: received
begin: began 1 0
block: write 0
end: ended / 70
put 1 a: queued 1
put 2 b: queued 2
wait 0 71: done
wait 0 72: done
delete 2: deleted 3
wait 0 73: done
wait 0 74: done
wait 0 75: done
put 5 e: queued 4
ask 2: no
receive: received
receive: received
receive: received
receive: received
receive: received
receive: received
receive: received
receive: received
receive: received
receive: empty
begin: began 1 1
block: write 0
wrote: next
wrote: next
wrote: committed 3
end: ended 1 2 5 / 71 72 73 74 75
look 1: read
load: entry a
look 2: miss
ask 1: yes
put 1 c: queued 5
young 4 x: ignored
wait 0 80: done
receive: received
receive: received
begin: began 1 0
block: write 0
wrote: next
wrote: next
wrote: committed 1
end: ended 1 / 80
look 1: read
load: entry c
close: done
put 3 d: refused Closed
delete 1: refused Closed
throttled 1: throttled
look 1: read
load: entry c
";

// The same of pieces that are dropped, with and without a record of their hash. Then a piece is returned while its hash has a record. No
// piece is taken while one byte is queued.
const DROPS: &str = "put 1 a: queued 1
receive: received
begin: began 1 0
block: write 0
wrote: next
wrote: next
wrote: committed 1
end: ended 1 /
look 1: read
load: entry a
put 2 b: queued 2
put 1 c: dropped 3
put 3 d: dropped 4
look 1: miss
ask 1: no
receive: received
receive: received
receive: received
receive: empty
begin: began 1 2
block: write 0
wrote: next
wrote: next
wrote: committed 1
end: ended 2 /
look 1: miss
look 2: read
load: entry b
long 2 30000: queued 5
ask 2: yes
receive: handed back
ask 2: no
look 2: miss
receive: empty
begin: began 1 1
block: write 0
end: ended /
look 2: miss
put 2 e: queued 6
receive: received
begin: began 1 0
block: write 0
wrote: next
wrote: next
wrote: committed 1
end: ended 2 /
look 2: read
load: entry e
look 1: miss
look 3: miss
";

// The lines' words whose steps take memory.
const GROWING: &str = "put delete wait receive begin block wrote load";

// How the lines begin that are each refused at least once.
const REFUSED: &str = "put
delete
wait
receive
begin
block
wrote
load
";

const REFUSED_DROPS: &str = "put 1 a: queued
put 3 d: dropped
receive: received
receive: handed back
begin
block
wrote
load
";

#[derive(Clone, Copy)]
enum Sweep {
    Steps,
    Drops,
}

fn script_of(sweep: Sweep) -> Script {
    match sweep {
        Sweep::Steps => Script {
            text: SCRIPT,
            settings: two_blocks(),
        },
        Sweep::Drops => Script {
            text: DROPS,
            settings: Settings {
                submit_queue_size_threshold: 0,
                ..two_blocks()
            },
        },
    }
}

// Gives what the script is answered at a line if a call of the disk fails. Calls are counted from 1, lines from 0. After a failed write of
// data, of zeros or of an index the block's other writes are dropped. Then the record is missed, or the one before is answered, and the next
// batch takes another block. A failed read is issued, and the next one goes well.
fn expected_step(call: u64, at: usize, wanted: &str) -> &str {
    match (call, at) {
        (1, 28) => "failed",
        (1, 29 | 30) => "left out",
        (2, 29) => "failed",
        (2, 30) => "left out",
        (3, 30) => "failed",
        (1 | 2 | 3, 32) => "miss",
        (1 | 2 | 3, 33) => "left out",
        (1 | 2 | 3, 35) => "no",
        (1 | 2 | 3, 42) => "write 1",
        (4, 33) => "refused Io",
        (5, 43) => "failed",
        (5, 44 | 45) => "left out",
        (6, 44) => "failed",
        (6, 45) => "left out",
        (7, 45) => "failed",
        (5 | 6 | 7, 48 | 54) => "entry a",
        (8, 48) => "refused Io",
        (9, 54) => "refused Io",
        _ => wanted,
    }
}

// The same of the script with drops. What was dropped or returned stays missed, whatever fails.
fn expected_drop(call: u64, at: usize, wanted: &str) -> &str {
    match (call, at) {
        (1, 4) => "failed",
        (1, 5 | 6) => "left out",
        (2, 5) => "failed",
        (2, 6) => "left out",
        (3, 6) => "failed",
        (1 | 2 | 3, 8) => "miss",
        (1 | 2 | 3, 9) => "left out",
        (1 | 2 | 3, 20 | 35 | 41) => "write 1",
        (4, 9) => "refused Io",
        (5, 21) => "failed",
        (5, 22 | 23) => "left out",
        (6, 22) => "failed",
        (6, 23) => "left out",
        (7, 23) => "failed",
        (5 | 6 | 7, 26) => "miss",
        (5 | 6 | 7, 27) => "left out",
        (5 | 6 | 7, 29) => "no",
        (5 | 6 | 7, 35 | 41) => "write 1",
        (8, 27) => "refused Io",
        (9, 42) => "failed",
        (9, 43 | 44) => "left out",
        (10, 43) => "failed",
        (10, 44) => "left out",
        (11, 44) => "failed",
        (9 | 10 | 11, 46) => "miss",
        (9 | 10 | 11, 47) => "left out",
        (12, 47) => "refused Io",
        _ => wanted,
    }
}

fn expected(sweep: Sweep, call: u64, at: usize, wanted: &str) -> &str {
    match sweep {
        Sweep::Steps => expected_step(call, at, wanted),
        Sweep::Drops => expected_drop(call, at, wanted),
    }
}

// Whether a run in which this call of the disk fails is answered as expected.
fn is_expected(sweep: Sweep, call: u64, answers: &str) -> bool {
    let script = script_of(sweep).text;
    for (at, (line, answer)) in script.lines().zip(answers.lines()).enumerate() {
        if answer != expected(sweep, call, at, reply_in(line)) {
            return false;
        }
    }
    answers.lines().count() == script.lines().count()
}

fn is_word_among(word: &str, words: &str) -> bool {
    for other in words.split_whitespace() {
        if other == word {
            return true;
        }
    }
    false
}

fn word_in(line: &str) -> &str {
    let step = step_in(line);
    step.split_once(' ').unwrap_or((step, "")).0
}

// Gives the first line, except one, that two runs answer otherwise.
fn first_other(one: &str, two: &str, but: usize) -> usize {
    for (at, (a, b)) in one.lines().zip(two.lines()).enumerate() {
        if at != but && a != b {
            return at;
        }
    }
    NO_LINE
}

// The call of the disk that a line makes in the run without a fault.
fn call_at(script: &str, line: usize) -> u64 {
    let mut calls = 0u64;
    for text in script.lines().take(line.saturating_add(1)) {
        if text.starts_with("wrote") || text.starts_with("load") {
            calls = calls.saturating_add(1);
        }
    }
    calls
}

// Whether the driver itself takes memory for a step of this word.
fn is_of_driver(word: &str) -> bool {
    word == "put" || word == "young" || word == "long" || word == "load"
}

// Gives the call that fails and the line that is left out in another run. That run answers as a run whose line of this word had this answer.
// Gives None if a refusal gives no such answer. A commit may go on without memory, as if nothing were refused.
fn other_way(script: &str, at: usize, word: &str, answer: &str) -> Option<(u64, usize)> {
    match answer {
        "committed 3" if word == "wrote" => Some((0, NO_LINE)),
        "failed" if word == "wrote" => Some((call_at(script, at), NO_LINE)),
        "refused Memory" if is_word_among(word, GROWING) => Some((0, at)),
        "no step Memory" if is_of_driver(word) => Some((0, at)),
        _ => None,
    }
}

// Whether a run in which an allocation was refused answers as one in which its step was left out, or its write failed. Notes
// the line whose step was refused.
fn is_as_another(alloc: Global, script: Script, run: &Run, lines: &mut Said) -> Result<bool> {
    let at = run.refused;
    let line = script.text.lines().nth(at).unwrap_or("");
    let answer = run.answers.lines().nth(at).unwrap_or("");
    let Some((call, omitted)) = other_way(script.text, at, word_in(line), answer) else {
        return Ok(false);
    };
    if answer != "no step Memory" && answer != reply_in(line) {
        lines.word(line);
        lines.word("\n");
    }
    let other = ample(alloc, script, call, omitted)?;
    Ok(first_other(run.answers.as_str(), other.answers.as_str(), at) == NO_LINE)
}

// Whether one of the lines begins so.
fn has_line(lines: &str, begin: &str) -> bool {
    for line in lines.lines() {
        if line.starts_with(begin) {
            return true;
        }
    }
    false
}

// The first wanted beginning that none of the lines has, if any.
fn never_refused<'a>(wanted: &'a str, lines: &str) -> &'a str {
    for begin in wanted.lines() {
        if !has_line(lines, begin) {
            return begin;
        }
    }
    ""
}

// How a run went on a heap that refuses an allocation.
#[derive(Clone, Copy)]
enum Went {
    Unopened,
    // The heap refused nothing, and the answers are the script's.
    Whole,
    Right,
    Wrong,
}

fn right_if(is_right: bool) -> Went {
    if is_right { Went::Right } else { Went::Wrong }
}

fn went_of(alloc: Global, n: u64, sweep: Sweep, lines: &mut Said) -> Result<Went> {
    let script = script_of(sweep);
    let (run, has_refused) = refused_at(alloc, n, script, BRIEF)?;
    match &run {
        None => Ok(Went::Unopened),
        Some(run) if has_refused => Ok(right_if(is_as_another(alloc, script, run, lines)?)),
        Some(run) if is_expected(sweep, 0, run.answers.as_str()) => Ok(Went::Whole),
        Some(_) => Ok(Went::Wrong),
    }
}

// The first allocation whose refusal is answered wrongly, 0 if none is, and the lines that were refused.
fn first_wrong(alloc: Global, sweep: Sweep) -> Result<(u64, String)> {
    let mut lines = Said::new(alloc);
    let mut wrong = MOST_ALLOCATIONS;
    for n in 1..MOST_ALLOCATIONS {
        match went_of(alloc, n, sweep, &mut lines)? {
            Went::Unopened | Went::Right => {}
            Went::Whole => {
                wrong = 0;
                break;
            }
            Went::Wrong => {
                wrong = n;
                break;
            }
        }
    }
    Ok((wrong, lines.text()?))
}

// The first call whose fault is answered otherwise than expected, and what is answered.
fn first_unexpected(alloc: Global, sweep: Sweep, calls: u64) -> Result<Option<(u64, String)>> {
    for call in 0..calls.saturating_add(2) {
        let run = ample(alloc, script_of(sweep), call, NO_LINE)?;
        if !is_expected(sweep, call, run.answers.as_str()) {
            return Ok(Some((call, run.answers)));
        }
    }
    Ok(None)
}

#[test]
fn each_failed_call_of_the_disk_is_reported(rt: HostRuntime) -> std::result::Result<(), Fail> {
    let found = first_unexpected(rt.alloc(), Sweep::Steps, 9)?;
    assert!(rt; found.is_none(), "{found:?}");
    Ok(())
}

#[test]
fn each_failed_call_beside_a_drop_is_reported(rt: HostRuntime) -> std::result::Result<(), Fail> {
    let found = first_unexpected(rt.alloc(), Sweep::Drops, 12)?;
    assert!(rt; found.is_none(), "{found:?}");
    Ok(())
}

// A refused step is as good as one that is left out, and a refused allocation of the index as good as a failed write: all
// that is answered afterwards is what a run answers in which this happened, and no allocation is refused.
#[test]
fn each_refused_allocation_is_reported(rt: HostRuntime) -> std::result::Result<(), Fail> {
    let (wrong, lines) = first_wrong(rt.alloc(), Sweep::Steps)?;
    assert!(rt; wrong == 0, "allocation {wrong}");
    assert!(rt; never_refused(REFUSED, lines.as_str()) == "", "{lines}");
    Ok(())
}

#[test]
fn each_refused_allocation_of_a_drop_is_reported(rt: HostRuntime) -> std::result::Result<(), Fail> {
    let (wrong, lines) = first_wrong(rt.alloc(), Sweep::Drops)?;
    assert!(rt; wrong == 0, "allocation {wrong}");
    assert!(rt;
        never_refused(REFUSED_DROPS, lines.as_str()) == "",
        "{lines}"
    );
    Ok(())
}
