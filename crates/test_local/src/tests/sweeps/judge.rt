//! The judge of a script's answers.
use crate::tests::asked::{cut, number_of};
use crate::tests::sweeps::known::{
    Due, Known, NOTHING_DUE, NOTHING_KNOWN, after_delete, after_destroy, after_fault, after_get,
    after_great, after_half_destroy, after_no_destroy, after_opening, after_put, after_wait,
    may_show,
};
use foyer_testing::said::Said;

// From 1 on.
const KEYS: usize = 6;

/// What is known before the next line.
#[derive(Clone, Copy)]
pub struct Judge {
    table: [Known; KEYS],
    pub line: u64,
    pub due: Due,
    /// Whether each answer was one that may be given.
    pub is_well: bool,
    /// Whether an answer was another than without a fault.
    pub is_met: bool,
    /// How many destroys were refused memory.
    pub destroys: u64,
    // Whether so much is queued that a text isn't taken, if that is known.
    is_full: Option<bool>,
    // Whether every text that is queued keeps others from being taken.
    is_narrow: bool,
    // Whether blocks are reclaimed, so that any text may be missed if a fault moved the reclaims.
    is_reclaimed: bool,
    // Whether all accesses fail from the fault on.
    is_stopped: bool,
}

/// Makes the judge before the first life. The parameters say whether the queue has no bytes, whether blocks are reclaimed, and whether all
/// accesses fail from the fault on.
pub fn judge_of(is_narrow: bool, is_reclaimed: bool, is_stopped: bool) -> Judge {
    Judge {
        table: [NOTHING_KNOWN; KEYS],
        line: 1,
        due: NOTHING_DUE,
        is_well: true,
        is_met: false,
        destroys: 0,
        is_full: Some(false),
        is_narrow,
        is_reclaimed,
        is_stopped,
    }
}

/// Behind an opening, in a life of which such a fault is due.
pub fn opened(judge: Judge, due: Due) -> Judge {
    let mut table = judge.table;
    let found = Due {
        blocks: due.blocks || judge.is_stopped,
        ..due
    };
    for known in table.iter_mut() {
        *known = after_opening(*known, found);
    }
    Judge {
        table,
        due,
        is_full: Some(false),
        ..judge
    }
}

/// Behind an answer that only the fault explains, if it does.
pub fn met(judge: Judge, is_well: bool) -> Judge {
    Judge {
        due: if judge.is_stopped {
            judge.due
        } else {
            NOTHING_DUE
        },
        is_well: judge.is_well && is_well,
        is_met: true,
        ..judge
    }
}

fn known_of(judge: Judge, key: usize) -> Known {
    match judge.table.get(key) {
        Some(known) => *known,
        None => NOTHING_KNOWN,
    }
}

fn with(judge: Judge, key: usize, known: Known) -> Judge {
    let mut table = judge.table;
    if let Some(place) = table.get_mut(key) {
        *place = known;
    }
    Judge { table, ..judge }
}

// Behind an answer that names a fault, if it is due.
fn faulted(judge: Judge, answer: &str) -> Judge {
    let is_due = match answer {
        "Io" => judge.due.blocks,
        "Memory" => judge.due.memory,
        _ => false,
    };
    met(judge, is_due)
}

// Of a text, which a great one keeps others from being taken behind. A put that is refused does nothing.
fn behind_put(judge: Judge, key: usize, answer: &str, is_great: bool) -> Judge {
    let known = known_of(judge, key);
    match answer {
        "queued" if judge.is_full != Some(true) => Judge {
            is_full: Some(is_great || judge.is_narrow),
            ..with(
                judge,
                key,
                if is_great {
                    after_great(known, judge.line)
                } else {
                    after_put(known, judge.line)
                },
            )
        },
        "deleted" if judge.is_full != Some(false) => Judge {
            is_full: Some(true),
            ..with(judge, key, after_delete(known, judge.line))
        },
        _ => faulted(judge, answer),
    }
}

// A delete that is refused does nothing.
fn behind_delete(judge: Judge, key: usize, answer: &str) -> Judge {
    match answer {
        "ok" => with(judge, key, after_delete(known_of(judge, key), judge.line)),
        _ => faulted(judge, answer),
    }
}

/// The number that is the text of a key's put at a line.
pub fn text_of(key: usize, line: u64) -> u64 {
    (key as u64).saturating_mul(100).saturating_add(line)
}

// The line of a text's put, if it is one of the key; 0 is a miss.
fn line_of(answer: &str, key: usize) -> Option<u64> {
    if answer == "miss" {
        return Some(0);
    }
    let number = answer.parse::<u64>().unwrap_or(0);
    let first = text_of(key, 0);
    if number <= first || number >= first.saturating_add(64) {
        return None;
    }
    Some(number - first)
}

fn behind_get(judge: Judge, key: usize, answer: &str) -> Judge {
    let Some(text) = line_of(answer, key) else {
        return faulted(judge, answer);
    };
    let known = known_of(judge, key);
    let may_show = may_show(known, text) || (judge.is_reclaimed && text == 0);
    Judge {
        is_well: judge.is_well && may_show,
        ..with(
            if known.is_shown(text) {
                judge
            } else {
                met(judge, true)
            },
            key,
            after_get(known, text),
        )
    }
}

// The fault may have dropped its batch, also a refused allocation within it: an index that can't grow.
fn behind_wait(judge: Judge, answer: &str, due: Due) -> Judge {
    let mut table = judge.table;
    let is_ok = answer == "ok";
    for known in table.iter_mut() {
        *known = if is_ok {
            after_wait(*known, due)
        } else {
            after_fault(*known)
        };
    }
    let judge = Judge {
        table,
        is_full: if is_ok || judge.is_full == Some(false) {
            Some(false)
        } else {
            None
        },
        ..judge
    };
    if is_ok { judge } else { faulted(judge, answer) }
}

fn behind_destroy(judge: Judge, answer: &str) -> Judge {
    let mut table = judge.table;
    for known in table.iter_mut() {
        *known = match answer {
            "ok" => after_destroy(*known, judge.line),
            "Io" => after_half_destroy(*known),
            _ => after_no_destroy(*known),
        };
    }
    let is_refused = answer == "Memory";
    let judge = Judge {
        table,
        destroys: judge.destroys.saturating_add(u64::from(is_refused)),
        ..judge
    };
    if answer == "ok" {
        judge
    } else {
        faulted(judge, answer)
    }
}

/// Behind the answer to a line, and whether an allocation was refused so far, so that none is due any more.
pub fn judged(judge: Judge, call: &str, key: usize, answer: &str, has_refused: bool) -> Judge {
    let is_now = judge.due.memory && has_refused;
    let due = Due {
        blocks: judge.due.blocks || is_now,
        ..judge.due
    };
    let judge = match call {
        "put" | "long" => behind_put(judge, key, answer, false),
        "great" => behind_put(judge, key, answer, true),
        "get" => behind_get(judge, key, answer),
        "del" => behind_delete(judge, key, answer),
        "destroy" => behind_destroy(judge, answer),
        _ => behind_wait(judge, answer, due),
    };
    Judge {
        line: judge.line.saturating_add(1),
        due: Due {
            memory: judge.due.memory && !has_refused,
            ..judge.due
        },
        ..judge
    }
}

// Behind a line with its answer; `open` is an opening.
fn behind_line(judge: Judge, line: &str) -> Judge {
    if line == "open" {
        return opened(judge, NOTHING_DUE);
    }
    let (asked, answer) = line.split_once(" = ").unwrap_or((line, ""));
    let (call, key) = cut(asked);
    judged(judge, call, number_of(key) as usize, answer, true)
}

/// Notes whether lines may be answered so if no fault is due.
pub fn say_judged(said: &mut Said, asked: &str) {
    let mut judge = judge_of(false, false, false);
    for line in asked.split(", ") {
        judge = behind_line(judge, line);
    }
    said.flag(" ", judge.is_well);
}

// A text is the line of its put, and 100 for each key.
pub const JUDGEMENTS: &str = "judge put 1 = queued, wait = ok, get 1 = 101 | yes
judge put 1 = queued, wait = ok, get 1 = miss | no
judge put 1 = queued, wait = ok, get 1 = 102 | no
judge put 1 = queued, wait = ok, get 1 = another | no
judge put 1 = queued, wait = ok, get 1 = Io | no
judge put 1 = queued, wait = ok, get 1 = Memory | no
judge put 1 = queued, wait = ok, get 2 = miss | yes
judge put 1 = queued, wait = ok, get 2 = 201 | no
judge put 1 = queued, wait = ok, wait = Memory | no
judge put 1 = queued, wait = ok, put 1 = queued, wait = ok, get 1 = 103 | yes
judge put 1 = queued, wait = ok, put 1 = queued, wait = ok, get 1 = 101 | no
judge put 1 = queued, wait = ok, put 1 = queued, wait = ok, destroy = ok, open, get 1 = miss | yes
judge put 1 = queued, wait = ok, put 1 = queued, wait = ok, destroy = ok, open, get 1 = 103 | no
judge put 1 = queued, wait = ok, put 2 = deleted | no
judge put 1 = queued, wait = ok, great 1 = queued, get 1 = 101 | yes
judge put 1 = queued, wait = ok, great 1 = queued, get 1 = miss | no
judge put 1 = queued, wait = ok, great 1 = queued, put 2 = deleted | yes
judge put 1 = queued, wait = ok, great 1 = queued, put 2 = queued | no
judge put 1 = queued, wait = ok, great 1 = queued, put 1 = deleted, get 1 = 101 | no
judge put 1 = queued, wait = ok, great 1 = queued, wait = ok, get 1 = 101 | no
judge put 1 = queued, wait = ok, great 1 = queued, wait = ok, put 2 = deleted | no
judge put 1 = queued, wait = ok, great 1 = queued, wait = ok, open, get 1 = miss | yes
judge put 1 = queued, wait = ok, great 1 = queued, wait = ok, open, get 1 = 101 | no
";
