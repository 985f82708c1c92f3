//! Two flushers that write over several blocks, and what faults leave of it: blocks of 16 KiB with indices of one page.
use crate::tests::driver::{FULL, Way, answered, new_driver, reply_in, small, step_in};
use crate::tests::runs::{Ran, run_of};
use foyer_core_steps::settings::Settings;
use foyer_device_page::error::{Error, Result};
use foyer_testing::refusing::Refusing;
use foyer_testing::rows::first_difference;
use std::alloc::Global;
use std::test::Fail;

// Even keys go to the first flusher, the others to the second. The last two parts end their blocks, so no zeros are written behind them.
// Behind a fault they stand in blocks of their own. There the third report is of their indices.
const SCRIPT: &str = "put 2 3072: queued 1
put 3 1: queued 2
put 4 7168: queued 3
put 6 7168: queued 4
put 5 1: queued 5
put 8 3072: queued 6
put 10 7168: queued 7
wait 0 9: done
receive 0: received
receive 0: received
receive 0: received
receive 1: received
receive 0: received
receive 0: received
receive 0: received
receive 1: received
receive 0: empty
begin 0: began 3 0
begin 1: began 1 0
block 0: write 0, data 4096 12288, index 0 4096
block 1: write 1, data 4096 8192, zeros 12288 4096, index 0 4096
wrote 0: next
wrote 1: next
wrote 1: next
wrote 1: committed 2
wrote 0: committed 2
end 1: ended 3 5 /
put 7 7168: queued 8
delete 3: deleted 9
receive 1: received
receive 1: received
begin 1: began 2 1
block 0: write 2, data 4096 12288, index 0 4096
block 1: write 1
block 1: write 3, data 4096 8192, zeros 12288 4096, index 0 4096
wrote 0: next
wrote 0: committed 2
block 0: write 4, data 4096 8192, zeros 12288 4096, index 0 4096
wrote 0: next
wrote 1: next
wrote 0: next
wrote 1: next
wrote 0: committed 1
end 0: ended 2 4 6 8 10 / 9
wrote 1: committed 1
end 1: ended 7 /
get 2: read 0 4096 3124, entry 2 3072
get 3: miss
get 4: read 0 8192 7220, entry 4 7168
get 5: read 1 8192 53, entry 5 1
get 6: read 2 4096 7220, entry 6 7168
get 7: read 3 4096 7220, entry 7 7168
get 8: read 2 12288 3124, entry 8 3072
get 10: read 4 4096 7220, entry 10 7168
put 22 40: queued 10
put 23 50: queued 11
receive 0: received
receive 1: received
begin 0: began 1 0
begin 1: began 1 0
block 0: write 4, data 12288 4096, index 0 4096
block 1: write 3, data 12288 4096, index 0 4096
wrote 0: next
wrote 0: committed 1
wrote 0: left out
wrote 1: next
wrote 1: committed 1
wrote 1: left out
end 0: ended 22 /
end 1: ended 23 /
get 22: read 4 12288 92, entry 22 40
get 23: read 3 12288 102, entry 23 50
get 5: read 1 8192 53, entry 5 1
";

// The calls of the disk in the script: 7 parts of two writes each, zeros behind the 3 that don't end their blocks, and 10 reads.
const CALLS: u64 = 27;

// More allocations than the script makes.
const MOST_ALLOCATIONS: u64 = 4000;

// Two flushers with buffers of 64 KiB each.
fn two(blocks: u32) -> Settings {
    Settings {
        flushers: 2,
        buffer_pool_size: 131072,
        ..small(blocks)
    }
}

// What the disk lists once the script is through: block, hash, sequence, offset and length of each record.
const LISTED: &str = "0 2 1 4096 3124
0 4 3 8192 7220
1 3 2 4096 53
1 5 5 8192 53
2 6 4 4096 7220
2 8 6 12288 3124
3 7 8 4096 7220
3 23 11 12288 102
4 10 7 4096 7220
4 22 10 12288 92
";

// Flushers that mix up their blocks, buffers or indices, and a batch that loses a block, fail here.
#[test]
fn two_flushers_write_over_five_blocks(rt: HostRuntime) -> std::result::Result<(), Fail> {
    let run = run_of(rt.alloc(), two(5), FULL, SCRIPT)?;
    assert_eq!(rt; first_difference(run.answers.as_str(), SCRIPT), None);
    assert_eq!(rt; first_difference(run.listed.as_str(), LISTED), None);
    Ok(())
}

// The number that a line's step carries.
fn number_of(line: &str) -> u64 {
    let mut words = step_in(line).split_whitespace();
    let _ = words.next();
    match words.next() {
        Some(digits) => digits.parse::<u64>().unwrap_or(0),
        None => 0,
    }
}

// The entry that a load answered, without the place that was read.
fn entry_of(reply: &str) -> &str {
    reply.split_once(", ").unwrap_or((reply, "")).1
}

// Whether a line may be answered so after a write of this flusher failed: what it was writing is missed, the blocks
// may be others, and everything else is answered as without the fault. A late fault is one of the last two batches.
fn may_follow(line: &str, wanted: &str, flusher: u64, is_late: bool) -> bool {
    let (found, whole) = (reply_in(line), reply_in(wanted));
    if found == whole {
        return true;
    }
    let number = number_of(line);
    if line.starts_with("get ") {
        let is_lost = found == "miss" && number % 2 == flusher && is_late == (number > 20);
        return is_lost || entry_of(found) == entry_of(whole);
    }
    if line.starts_with("block ") {
        return found.starts_with("write ") || (found == "not now" && number == flusher);
    }
    if line.starts_with("wrote ") {
        return number == flusher
            && (found == "left out" || found == "next" || found.starts_with("committed"));
    }
    line.starts_with("begin ") && number == flusher && found.starts_with("began ")
}

// Whether a line names the fault of a write.
fn is_failed(line: &str) -> bool {
    line.starts_with("wrote ") && reply_in(line) == "failed"
}

// Says whether the answers are those of the script except for one fault, which is named in the line where it occurred.
fn name_one_fault(answers: &str) -> bool {
    let mut failed = None;
    let mut is_late = false;
    let mut faults = 0u32;
    let mut count = 0u32;
    for (line, wanted) in answers.lines().zip(SCRIPT.lines()) {
        count = count.saturating_add(1);
        if faults == 0 && line.starts_with("put 22 ") {
            is_late = true;
        }
        if is_failed(line) || line.ends_with(", refused Io") {
            faults = faults.saturating_add(1);
            if is_failed(line) {
                failed = Some(number_of(line));
            }
            continue;
        }
        let is_right = match failed {
            Some(flusher) => may_follow(line, wanted, flusher, is_late),
            None => line == wanted,
        };
        if !is_right {
            return false;
        }
    }
    faults == 1 && count as usize == SCRIPT.lines().count()
}

// Whether a run whose n-th call fails names it, and the disk lists records alone.
fn is_passed(n: u64, run: &Ran) -> bool {
    if n > CALLS {
        return run.answers.as_str() == SCRIPT && !run.has_failed;
    }
    name_one_fault(run.answers.as_str()) && !run.listed.as_str().contains("none")
}

// A fault that isn't named, that damages another flusher's records, or behind which something wrong is answered or
// nothing more can be written, fails here.
#[test]
fn each_failed_call_of_the_disk_is_named_and_passed(
    rt: HostRuntime,
) -> std::result::Result<(), Fail> {
    for n in 1..CALLS + 2 {
        let way = Way {
            fails_at: n,
            ..FULL
        };
        let run = run_of(rt.alloc(), two(6), way, SCRIPT)?;
        assert!(rt; is_passed(n, &run), "where call {n} fails: {}", run.answers);
    }
    Ok(())
}

// Gives the answers to the script on a heap that refuses an allocation. Each refused step comes again. Gives None if the opening is refused.
fn answers_on(alloc: Global, heap: &Refusing<Global>) -> Result<Option<String>> {
    let way = Way {
        comes_again: true,
        ..FULL
    };
    let mut driven = match new_driver(alloc, &heap, two(6), way) {
        Ok(driven) => driven,
        Err(Error::Memory) => return Ok(None),
        Err(error) => return Err(error),
    };
    Ok(Some(answered(alloc, &mut driven, &heap, SCRIPT)?))
}

// How a run went.
#[derive(Clone, Copy)]
enum Went {
    // The opening was refused.
    Unopened,
    Whole,
    Named,
    Wrong,
}

fn went_of(answers: &str) -> Went {
    if answers == SCRIPT {
        Went::Whole
    } else if name_one_fault(answers) {
        Went::Named
    } else {
        Went::Wrong
    }
}

// How a run on a heap that refuses its n-th allocation went, and whether that one was reached.
fn allocation_went(alloc: Global, n: u64) -> Result<(Went, bool)> {
    let heap = Refusing::new(alloc, n);
    let answers = answers_on(alloc, &heap)?;
    let went = match &answers {
        None => Went::Unopened,
        Some(answers) => went_of(answers.as_str()),
    };
    Ok((went, heap.has_refused()))
}

// The first run that is wrong, if any, and how many had a fault, up to the first without a refusal.
fn first_wrong(alloc: Global) -> Result<(Option<u64>, u32)> {
    let mut named = 0u32;
    for n in 1..MOST_ALLOCATIONS {
        match allocation_went(alloc, n)? {
            (Went::Whole, false) => return Ok((None, named)),
            (Went::Wrong, _) | (_, false) => return Ok((Some(n), named)),
            (Went::Named, true) => named = named.saturating_add(1),
            (Went::Unopened | Went::Whole, true) => {}
        }
    }
    Ok((Some(MOST_ALLOCATIONS), named))
}

// A refused step that changes something, or can't come again, fails here. Only a refused allocation of the index fails
// the batch.
#[test]
fn each_refused_allocation_is_named_and_passed(rt: HostRuntime) -> std::result::Result<(), Fail> {
    let (wrong, named) = first_wrong(rt.alloc())?;
    assert!(rt; wrong.is_none(), "allocation {wrong:?}");
    assert!(rt; named > 0);
    Ok(())
}
