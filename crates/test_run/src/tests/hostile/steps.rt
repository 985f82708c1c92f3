//! A script of all steps, of which each allocation is refused in turn.
use crate::tests::hostile::lines::{Driver, NO_LINE, say_answer};
use foyer_device_page::error::Result;
use foyer_testing::refusing::Refusing;
use foyer_testing::rows::first_difference;
use foyer_testing::said::Said;
use std::alloc::Global;
use std::test::Fail;

// Each line with its answer. Two flushers fill three blocks of three records each. A value, and a key, fail to be encoded. Their pieces are
// returned and delete their hashes, and what is received beside them is written as if they had never been queued. A block is reclaimed, and
// its record of hash 2 is written again. Then all is destroyed. What is written after that is found again, with the marks of the log, and
// the next sequence is greater than the sequences of both.
const SCRIPT: &str = "put 2 20: queued 1
put 3 30: queued 2
put 4 x: queued 3
keyless 6 60: queued 4
put 4 40: queued 5
receive 0: received
receive 0: handed back
receive 0: handed back
receive 0: received
receive 0: empty
receive 1: received
begin 0: began 1 2
begin 1: began 1 0
block 0: write 0, 4096 8192, 12288 4096, 0 4096
block 1: write 1, 4096 4096, 8192 4096, 0 4096
wrote 0: next
wrote 1: next
wrote 0: next
wrote 0: committed 2
end 0: not now
logged 0: done
end 0: ended 2 0
wrote 1: next
wrote 1: committed 1
logged 1: done
end 1: ended 1 0
look 4: read 0 8192
load: entry 40
ask 6: no
delete 3: deleted 6
wait 1 7: done
ask 3: no
receive 1: received
receive 1: received
begin 1: began 1 1
block 1: write 1
logged 1: done
end 1: ended 0 1
put 6 61: queued 7
put 8 80: queued 8
receive 0: received
receive 0: received
begin 0: began 2 0
block 0: write 0, 12288 4096, 0 4096
wrote 0: next
wrote 0: committed 1
block 0: write 2, 4096 4096, 8192 4096, 0 4096
wrote 0: next
wrote 0: next
wrote 0: committed 1
logged 0: done
end 0: ended 2 0
reclaim: picked 0
reclaim: not now
idle: no
read 0: scan 0 4096 52
read 0: listed
forget 0: clean 0
ask 2: yes
ask 4: no
ask 6: no
cleaned 0: done
idle: yes
receive 0: received
begin 0: began 1 0
block 0: write 2, 8192 4096, 12288 4096, 0 4096
wrote 0: next
wrote 0: next
wrote 0: committed 1
logged 0: done
end 0: ended 0 0
look 2: read 2 8192
load: entry 20
look 8: read 2 4096
load: entry 80
destroy: destroying 9
clear: not now
receive 0: received
begin 0: began 1 1
block 0: write 2
logged 0: done
end 0: ended 0 0
clear: cleared
block 0: not now
gone 0: done
gone 1: done
gone 2: destroyed
ask 2: no
ask 8: no
put 5 50: queued 10
receive 1: received
begin 1: began 1 0
block 1: write 0, 4096 4096, 8192 4096, 0 4096
wrote 1: next
wrote 1: next
wrote 1: committed 1
logged 1: done
end 1: ended 1 0
put 7 70: queued 11
close: done
put 9 90: refused Closed
delete 9: refused Closed
destroy: refused Closed
open: opened
look 5: read 0 4096
load: entry 50
look 2: miss
look 3: miss
look 7: miss
look 8: miss
delete 5: deleted 11
";

// The words of the lines that are each refused once at least.
const REFUSED: &str = "put delete receive begin block reclaim read clear";

// More allocations than the script makes.
const MOST_ALLOCATIONS: u64 = 4000;

fn step_in(line: &str) -> &str {
    line.split_once(": ").unwrap_or((line, "")).0
}

// Gives the script with its answers, as they are, on a heap that may refuse one allocation. The write of a line is reported as failed. The
// word of the line that was refused is noted.
fn answered(
    alloc: Global,
    heap: &Refusing<Global>,
    fails_at: usize,
    refused: &mut Said,
) -> Result<String> {
    let mut driver = Driver::new(alloc, &heap, fails_at)?;
    let mut said = Said::new(alloc);
    for (at, line) in SCRIPT.lines().enumerate() {
        let step = step_in(line);
        said.word(step);
        said.word(": ");
        say_answer(&mut said, &mut driver, &heap, at, step);
        said.word("\n");
    }
    refused.word(driver.into_refused().as_str());
    refused.word(" ");
    said.text()
}

// The first line that two texts have otherwise.
fn first_other(one: &str, two: &str) -> usize {
    for (at, (a, b)) in one.lines().zip(two.lines()).enumerate() {
        if a != b {
            return at;
        }
    }
    NO_LINE
}

// Whether a line is the report of a write that failed.
fn is_failed(text: &str, at: usize) -> bool {
    match text.lines().nth(at) {
        Some(line) => line.starts_with("wrote ") && line.ends_with(": failed"),
        None => false,
    }
}

// Whether the answers are the script's, or those of a run with ample memory in which the write of the first other line failed:
// a refused allocation of the index fails its block, and nothing else is seen of any refusal.
fn are_explained(alloc: Global, answers: &str) -> Result<bool> {
    let at = first_other(answers, SCRIPT);
    if at == NO_LINE {
        return Ok(answers == SCRIPT);
    }
    if !is_failed(answers, at) {
        return Ok(false);
    }
    let ample = Refusing::new(alloc, 0);
    let mut unread = Said::new(alloc);
    let other = answered(alloc, &ample, at, &mut unread)?;
    Ok(answers == other.as_str())
}

// What of a run with each allocation refused in turn isn't explained, a line for the allocation and its answers; and how many
// allocations there are.
fn wrong_of(alloc: Global, refused: &mut Said) -> Result<(String, u64)> {
    for n in 1..MOST_ALLOCATIONS {
        let heap = Refusing::new(alloc, n);
        let answers = answered(alloc, &heap, NO_LINE, refused)?;
        if !heap.has_refused() || !are_explained(alloc, answers.as_str())? {
            return Ok((answers, n));
        }
    }
    Ok((String::new(alloc), 0))
}

// The first word that is not among the others.
fn missing_of<'a>(wanted: &'a str, words: &str) -> &'a str {
    for word in wanted.split(' ') {
        if !words.contains(word) {
            return word;
        }
    }
    ""
}

// The last run, in which no allocation is refused any more, answers the script. Each step that takes memory was refused in some run, and
// was made again.
#[test]
fn a_refused_step_of_any_kind_can_be_made_again(rt: HostRuntime) -> std::result::Result<(), Fail> {
    let mut refused = Said::new(rt.alloc());
    let (answers, n) = wrong_of(rt.alloc(), &mut refused)?;
    assert_eq!(rt;
        first_difference(answers.as_str(), SCRIPT),
        None,
        "allocation {n}"
    );
    let refused = refused.text()?;
    let missing = missing_of(REFUSED, refused.as_str());
    assert!(rt; missing.is_empty(), "{missing} was never refused");
    Ok(())
}
