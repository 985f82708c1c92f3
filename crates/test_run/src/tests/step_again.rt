//! Lives in which each refused allocation is followed by the same step once more.
use crate::tests::driver::{Way, small};
use crate::tests::refusals::{MOST_ALLOCATIONS, Script, refused_at, two_blocks};
use foyer_core_steps::settings::Settings;
use foyer_device_page::error::Result;
use std::alloc::Global;
use std::test::Fail;

// A put, its flush, a load, and a delete.
const LIFE: &str =
    "put 1 a\nreceive\nbegin\nblock\nwrote\nwrote\nwrote\nend\nlook 1\nload\ndelete 1\nask 1\n";

// The answers if the index has no room at the end of the block.
const FAILED: &str =
    "queued 1\nreceived\nbegan 1 0\nwrite 0\nnext\nnext\nfailed\nended 1 /\nmiss\nleft out\ndeleted 2\nno\n";

const WHOLE: &str =
    "queued 1\nreceived\nbegan 1 0\nwrite 0\nnext\nnext\ncommitted 1\nended 1 /\nread\nentry a\ndeleted 2\nno\n";

// The answers if the driver has no room for its piece.
const NO_PIECE: &str =
    "no step Memory\nempty\nnot now\nnot now\nleft out\nleft out\nleft out\nnot now\nmiss\nleft out\ndeleted 1\nno\n";

// The answers if the driver has no room for what it reads.
const NO_READ: &str =
    "queued 1\nreceived\nbegan 1 0\nwrite 0\nnext\nnext\ncommitted 1\nended 1 /\nread\nno step Memory\ndeleted 2\nno\n";

// A record, a piece that is dropped while its hash has this record, and a piece that is returned while its hash has another record.
const DROPS: &str =
    "put 1 1\nreceive\nbegin\nblock\nwrote\nwrote\nwrote\nend\nput 2 1\nput 1 2\nput 3 1\nlook 1\nreceive\nreceive\nreceive\nbegin\nblock\nwrote\nwrote\nwrote\nend\nget 2\nput 2 12300\nreceive\nreceive\nlook 2\nbegin\nblock\nend\nask 1\nask 2\nask 3\n";

const DROPPED: &str =
    "queued 1\nreceived\nbegan 1 0\nwrite 0, data 4096 4096, zeros 8192 4096, index 0 4096\nnext\nnext\ncommitted 1\nended 1 /\nqueued 2\ndropped 3\ndropped 4\nmiss\nreceived\nreceived\nreceived\nbegan 1 2\nwrite 0, data 8192 4096, zeros 12288 4096, index 0 4096\nnext\nnext\ncommitted 1\nended 2 /\nread 0 8192 53, entry 2 1\nqueued 5\nhanded back\nempty\nmiss\nbegan 1 1\nwrite 0\nended /\nno\nno\nno\n";

// The answers if the index has no room for the first record.
const FIRST_FAILED: &str =
    "queued 1\nreceived\nbegan 1 0\nwrite 0, data 4096 4096, zeros 8192 4096, index 0 4096\nnext\nnext\nfailed\nended 1 /\nqueued 2\ndropped 3\ndropped 4\nmiss\nreceived\nreceived\nreceived\nbegan 1 2\nwrite 1, data 4096 4096, zeros 8192 4096, index 0 4096\nnext\nnext\ncommitted 1\nended 2 /\nread 1 4096 53, entry 2 1\nqueued 5\nhanded back\nempty\nmiss\nbegan 1 1\nwrite 1\nended /\nno\nno\nno\n";

// The answers if the index has no room for the second record.
const SECOND_FAILED: &str =
    "queued 1\nreceived\nbegan 1 0\nwrite 0, data 4096 4096, zeros 8192 4096, index 0 4096\nnext\nnext\ncommitted 1\nended 1 /\nqueued 2\ndropped 3\ndropped 4\nmiss\nreceived\nreceived\nreceived\nbegan 1 2\nwrite 0, data 8192 4096, zeros 12288 4096, index 0 4096\nnext\nnext\nfailed\nended 2 /\nmiss\nqueued 5\nhanded back\nempty\nmiss\nbegan 1 1\nwrite 1\nended /\nno\nno\nno\n";

// A life with drops has no queue beyond one piece, and the driver's own allocations come again too.
#[derive(Clone, Copy)]
enum Life {
    Plain,
    Drops,
}

fn script_of(life: Life) -> Script {
    match life {
        Life::Plain => Script {
            text: LIFE,
            settings: two_blocks(),
        },
        Life::Drops => Script {
            text: DROPS,
            settings: Settings {
                submit_queue_size_threshold: 0,
                ..small(2)
            },
        },
    }
}

fn way_of(life: Life) -> Way {
    let is_brief = match life {
        Life::Plain => true,
        Life::Drops => false,
    };
    Way {
        fails_at: 0,
        comes_again: true,
        is_brief,
    }
}

fn is_whole(life: Life, answers: &str) -> bool {
    match life {
        Life::Plain => answers == WHOLE,
        Life::Drops => answers == DROPPED,
    }
}

// Whether a life may be answered so in which an allocation was refused.
fn is_allowed(life: Life, answers: &str) -> bool {
    match life {
        Life::Plain => {
            answers == WHOLE || answers == FAILED || answers == NO_PIECE || answers == NO_READ
        }
        Life::Drops => answers == DROPPED || answers == FIRST_FAILED || answers == SECOND_FAILED,
    }
}

// The first allocation whose refusal gives another answer, 0 if none does, and how many there are.
fn first_wrong(alloc: Global, life: Life) -> Result<(u64, u64)> {
    for n in 1..MOST_ALLOCATIONS {
        let (run, has_refused) = refused_at(alloc, n, script_of(life), way_of(life))?;
        let Some(run) = run else {
            continue;
        };
        if !has_refused && is_whole(life, run.answers.as_str()) {
            return Ok((0, n));
        }
        if !has_refused || !is_allowed(life, run.answers.as_str()) {
            return Ok((n, n));
        }
    }
    Ok((MOST_ALLOCATIONS, 0))
}

// A refused step is as good as one that was never made: applied again it gives what the run without a refusal gives. Only
// a refused allocation of the index at the end of a block fails its batch, and only a refused allocation of the driver itself
// leaves a step out.
#[test]
fn a_refused_step_can_be_made_again(rt: HostRuntime) -> std::result::Result<(), Fail> {
    let (wrong, count) = first_wrong(rt.alloc(), Life::Plain)?;
    assert!(rt; wrong == 0, "allocation {wrong}");
    assert!(rt; count > 20);
    Ok(())
}

// A refused receive leaves the piece in the queue, and the next one takes it.
#[test]
fn a_refused_drop_can_be_made_again(rt: HostRuntime) -> std::result::Result<(), Fail> {
    let (wrong, count) = first_wrong(rt.alloc(), Life::Drops)?;
    assert!(rt; wrong == 0, "allocation {wrong}");
    assert!(rt; count > 20);
    Ok(())
}
