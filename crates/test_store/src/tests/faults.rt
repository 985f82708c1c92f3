//! Scripts whose accesses fail in turn.
use crate::tests::rows::answers_of_stores;
use foyer_device_page::error::Result;
use foyer_testing::said::Said;
use std::alloc::Global;
use std::rt::Files;
use std::sync::Wait;
use std::test::Fail;
use std::thread::Threads;

// In which way an access fails: after a whole page, inside an index, with nothing kept, and for good.
const WAYS: [&str; 4] = [
    "keeps 4096, fails ",
    "keeps 20, fails ",
    "keeps 0, fails ",
    "stops ",
];

// A script, and what it may answer.
#[derive(Clone, Copy)]
struct Script<'a> {
    // In each run one access of an I/O engine fails, of those with a lesser number than this.
    accesses: u64,
    // What the store stands over, and the lines. In some lines accesses fail, and some are asked of a store that is built again.
    lines: &'a str,
    // Of each line the answers that it may get.
    may_answer: &'a str,
    // What is among the answers if a destroy went well.
    destroyed: &'a str,
    // How the answers end if the destroy left nothing.
    gone: [&'a str; 2],
}

// An opening reads four blocks, the gets read two records, and the destroy cleans four blocks. A flusher writes three times for each put: its
// record, the zeros behind it and its index. What was deleted is gone, whatever fails, until the store is built again. What was destroyed is
// found then only if a clean failed.
const DELETES: Script<'static> = Script {
    accesses: 12,
    lines: " < put 1 a, wait, put 2 b, wait, get 1, get 2, del 1, get 1, destroy, get 2 / fails 0 < get 1, get 2",
    may_answer: "queued, ok, queued, ok, entry a|miss|fault Io, entry b|miss|fault Io, ok, miss, ok|fault Io, miss / entry a|miss / miss, entry b|miss",
    destroyed: ", ok, miss / ",
    gone: [" / miss, miss", " / miss, miss"],
};

// There are three blocks, two flushers and a log. A block is reclaimed, and its long text is written again. If a batch fails, an older text
// may be found, if it wasn't deleted. A log that can't be read refuses the store.
const RECLAIMS: Script<'static> = Script {
    accesses: 20,
    lines: ", blocks 3, flushers 2, log, again < put 1 aaaaaaaa, put 2 b, put 3 c, wait, get 1, get 2, del 2, wait, get 2, put 3 d, put 3 e, wait, get 1, get 3, put 5 f, wait, get 5, get 2, destroy, get 1, get 3, get 5, put 7 g, wait, get 7, close / fails 0 < get 1, get 2, get 3, get 5, get 7, put 8 h, wait, get 8",
    may_answer: "queued, queued, queued, ok, entry aaaaaaaa|miss|fault Io, entry b|miss|fault Io, ok, ok, miss, queued, queued, ok, entry aaaaaaaa|miss|fault Io, entry e|entry d|entry c|miss|fault Io, queued, ok, entry f|miss|fault Io, miss, ok|fault Io, miss, miss, miss, queued, ok, entry g|miss|fault Io, ok / entry aaaaaaaa|ok / miss, entry b|miss, entry e|entry d|entry c|miss, entry f|miss, entry g|miss, queued, ok, entry h",
    destroyed: ", ok, miss, miss, miss, queued, ok, ",
    gone: [
        " / miss, miss, miss, miss, entry g, queued, ok, entry h",
        " / miss, miss, miss, miss, miss, queued, ok, entry h",
    ],
};

// Whether each answer is one of those that its line may get.
fn may_be_answered(answers: &str, may_answer: &str) -> bool {
    let mut left = answers.split(", ");
    for allowed in may_answer.split(", ") {
        let answer = left.next().unwrap_or("?");
        if !allowed.split('|').any(|it| it == answer) {
            return false;
        }
    }
    left.next().is_none()
}

// Whether the destroy went well and left what it destroyed.
fn is_left(answers: &str, script: Script<'_>) -> bool {
    let [one, other] = script.gone;
    answers.contains(script.destroyed) && !answers.ends_with(one) && !answers.ends_with(other)
}

// Whether the store was refused, and one is built then that has nothing.
fn is_refused(answers: &str) -> bool {
    answers == "refused Io / miss, miss, miss, miss, miss, queued, ok, entry h"
}

fn asked_of(alloc: Global, way: &str, access: u64, lines: &str) -> Result<String> {
    let mut asked = Said::new(alloc);
    asked.number(way, access);
    asked.word(lines);
    asked.text()
}

// Notes the answers that are wrong.
fn say_wrong<R: Threads + Wait + Files + Copy + Send + Sync + 'static>(
    rt: R,
    alloc: Global,
    said: &mut Said,
    script: Script<'_>,
    way: &str,
    access: u64,
) -> Result<()> {
    let asked = asked_of(alloc, way, access, script.lines)?;
    let answers = answers_of_stores(rt, alloc, asked.as_str())?;
    let answers = answers.as_str();
    let is_well = may_be_answered(answers, script.may_answer) && !is_left(answers, script);
    if !is_well && !is_refused(answers) {
        said.number(way, access);
        said.word(": ");
        said.word(answers);
        said.word("\n");
    }
    Ok(())
}

fn wrong_answers<R: Threads + Wait + Files + Copy + Send + Sync + 'static>(
    rt: R,
    alloc: Global,
    script: Script<'_>,
) -> Result<String> {
    let mut said = Said::new(alloc);
    for access in 0..script.accesses {
        'ways: for way in &WAYS {
            say_wrong(rt, alloc, &mut said, script, *way, access)?;
        }
    }
    said.text()
}

#[test]
fn whatever_access_fails_no_answer_is_wrong(rt: HostRuntime) -> std::result::Result<(), Fail> {
    for script in [DELETES, RECLAIMS] {
        let wrong = wrong_answers(rt, rt.alloc(), script)?;
        assert!(rt; wrong.is_empty(), "{wrong}");
    }
    Ok(())
}
