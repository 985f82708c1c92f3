//! What filters answer: their conditions, what is asked, and what they answer.
ghost use Rattle.std.specs.Prelude.{◌≡◌};

use super::limits::say_wait;
use crate::tests::tables::{asked, cut, number, size};
use foyer_device_page::error::Result;
use foyer_device_statistics::IoState;
use foyer_policy_filter::{
    AdmitAll, AnyCondition, BuiltInCondition, EstimatedSize, IoThrottle, RejectAll, StorageFilter,
    StorageFilterCondition, StorageFilterResult,
};
use foyer_testing::rows::first_difference;
use foyer_testing::said::Said;
use std::alloc::Global;
use std::ops::Bound;
use std::test::Fail;
use std::time::Duration;

// A condition of a caller's own, which gives one answer.
#[derive(Clone, Copy)]
struct Always(StorageFilterResult);

impl StorageFilterCondition for Always {
    ghost may_answer = { λ c _ _ _ a. a ≡ c.0 };

    fn filter(&self, _io: &IoState, _hash: u64, _size: usize) -> StorageFilterResult {
        self.0
    }
}

fn state(write_throttle: Duration) -> IoState {
    IoState {
        disk_write_bytes: 0,
        disk_read_bytes: 0,
        disk_write_ios: 0,
        disk_read_ios: 0,
        write_throttle,
        read_throttle: Duration::ZERO,
        last_write_error: 0,
        last_read_error: 0,
    }
}

// `admit`, `reject`, `most`, or a wait of so many seconds.
fn answer_of(word: &str) -> StorageFilterResult {
    match word {
        "admit" => StorageFilterResult::Admit,
        "reject" => StorageFilterResult::Reject,
        "most" => StorageFilterResult::Throttled(Duration::MAX),
        _ => StorageFilterResult::Throttled(Duration::from_secs(number(word))),
    }
}

// A bound: `any`, or a size that is `in` or `out`.
fn bound_of(word: &str, size: usize) -> Bound<usize> {
    match word {
        "in" => Bound::Included(size),
        "out" => Bound::Excluded(size),
        _ => Bound::Unbounded,
    }
}

fn sizes_of(lower: &str, upper: &str) -> EstimatedSize {
    let (from, first) = cut(lower);
    let (to, end) = cut(upper);
    EstimatedSize::new(bound_of(from, size(first)), bound_of(to, size(end)))
}

// One of the conditions that are shipped: `all`, `none`, `throttle`, or sizes up to a last one.
fn condition_of(word: &str) -> BuiltInCondition {
    match word {
        "all" => BuiltInCondition::AdmitAll(AdmitAll),
        "none" => BuiltInCondition::RejectAll(RejectAll),
        "throttle" => BuiltInCondition::IoThrottle(IoThrottle),
        _ => BuiltInCondition::EstimatedSize(sizes_of("any", word)),
    }
}

// The answer, and whether it says that it admits and that it rejects.
fn say_answer(said: &mut Said, answer: StorageFilterResult) {
    match answer {
        StorageFilterResult::Admit => said.word(" admit"),
        StorageFilterResult::Reject => said.word(" reject"),
        StorageFilterResult::Throttled(wait) => say_wait(said, wait),
    }
    if answer.is_admitted() {
        said.word("!");
    }
    if answer.is_rejected() {
        said.word("?");
    }
}

// A wait in seconds and a size, as they are asked.
fn say_asked<C: StorageFilterCondition>(said: &mut Said, condition: &C, words: &str) {
    let (wait, len) = cut(words);
    let state = state(Duration::from_secs(number(wait)));
    say_answer(said, condition.filter(&state, 1, size(len)));
}

fn say_always(said: &mut Said, alloc: Global, words: &str) -> Result<()> {
    let mut filter: StorageFilter<Always, Global> = StorageFilter::new();
    for word in words.split_whitespace() {
        filter = filter.with_condition(alloc, Always(answer_of(word)))?;
    }
    say_answer(said, filter.filter(&state(Duration::ZERO), 1, 2));
    Ok(())
}

// What a filter that threads may share answers to waits of the device and sizes.
fn say_filter<C: StorageFilterCondition + Send + Sync + 'static>(
    said: &mut Said,
    filter: &StorageFilter<C, Global>,
    script: &str,
) {
    for words in script.split(", ") {
        let (wait, len) = cut(words);
        let state = state(Duration::from_secs(number(wait)));
        say_answer(said, filter.filter(&state, 1, size(len)));
    }
}

fn say_built_in(said: &mut Said, alloc: Global, words: &str, script: &str) -> Result<()> {
    let mut filter: StorageFilter<BuiltInCondition, Global> = StorageFilter::new();
    for word in words.split(", ") {
        filter = filter.with_condition(alloc, condition_of(word))?;
    }
    say_filter(said, &filter, script);
    Ok(())
}

// Conditions of any kind: those that are shipped, and boxed ones that give one answer.
fn say_any(said: &mut Said, alloc: Global, words: &str, script: &str) -> Result<()> {
    let mut filter: StorageFilter<AnyCondition, Global> = StorageFilter::new();
    for word in words.split(", ") {
        let condition = match word.split_once("boxed ") {
            Some((_, answer)) => AnyCondition::Boxed(Box::new(alloc, Always(answer_of(answer)))?),
            None => AnyCondition::BuiltIn(condition_of(word)),
        };
        filter = filter.with_condition(alloc, condition)?;
    }
    say_filter(said, &filter, script);
    Ok(())
}

fn say_sizes(said: &mut Said, bounds: &str, script: &str) {
    let (lower, upper) = bounds.split_once(" to ").unwrap_or((bounds, ""));
    let condition = sizes_of(lower, upper);
    for len in script.split(' ') {
        say_answer(said, condition.filter(&state(Duration::ZERO), 1, size(len)));
    }
}

fn say_row(said: &mut Said, alloc: Global, opening: &str, script: &str) -> Result<()> {
    let (kind, words) = opening.split_once(": ").unwrap_or((opening, ""));
    match kind {
        "always" => say_always(said, alloc, words)?,
        "built in" => say_built_in(said, alloc, words, script)?,
        "any" => say_any(said, alloc, words, script)?,
        _ => say_sizes(said, words, script),
    }
    Ok(())
}

fn rows_of(alloc: Global, rows: &str) -> Result<String> {
    let mut said = Said::new(alloc);
    for row in rows.lines() {
        let asked = asked(row);
        said.word(asked);
        if let Some((opening, script)) = asked.split_once(" < ") {
            said.word(" |");
            say_row(&mut said, alloc, opening, script)?;
        }
        said.word("\n");
    }
    said.text()
}

// Names, and below each name the conditions of a filter, what they are asked, and what is answered. An answer is a wait in seconds and
// nanoseconds. `!` stands behind an answer that says that it admits, `?` behind one that says that it rejects.
const ROWS: &str = "waits are added up
always: 2 3 < once | 5+0
always: 2 reject < once | reject?
always: reject 2 < once | reject?
always: 0 admit < once | admit!
always: admit 1 < once | 1+0
always: most most < once | 18446744073709551615+999999999
a filter of no condition admits
always:  < once | admit!
sizes are admitted within their bounds
sizes: in 10 to out 20 < 15 10 5 20 | admit! admit! reject? reject?
sizes: out 10 to in 20 < 10 11 20 21 | reject? admit! admit! reject?
sizes: any to any < 0 18446744073709551614 18446744073709551615 | admit! admit! reject?
sizes: out 18446744073709551615 to in 18446744073709551615 < 18446744073709551615 | reject?
shipped conditions are held by value
built in: all, in 9, throttle < 0 9, 4 9, 4 10 | admit! 4+0 reject?
built in: all, in 9, throttle, none < 0 9 | reject?
boxed conditions stand beside shipped ones
any: all, boxed 2, throttle < 0 9, 4 9 | 2+0 6+0
any: throttle, boxed reject < 4 9 | reject?
";

#[test]
fn a_filter_adds_up_what_its_conditions_answer(rt: HostRuntime) -> std::result::Result<(), Fail> {
    let answers = rows_of(rt.alloc(), ROWS)?;
    assert_eq!(rt; first_difference(answers.as_str(), ROWS), None);
    Ok(())
}

#[test]
fn a_filter_prints_its_name(rt: HostRuntime) -> std::result::Result<(), Fail> {
    let none: StorageFilter<Always, Global> = StorageFilter::default();
    let text = format!(in rt.alloc(); "{none:?}")?;
    assert!(rt; text.as_str() == "StorageFilter");
    Ok(())
}

#[test]
fn a_callers_condition_is_boxed(rt: HostRuntime) -> std::result::Result<(), Fail> {
    let mut said = Said::new(rt.alloc());
    let own = Box::new(rt.alloc(), Always(answer_of("2")))?;
    say_asked(&mut said, &AnyCondition::Boxed(own), "1 9");
    let held = AnyCondition::BuiltIn(BuiltInCondition::IoThrottle(IoThrottle));
    say_asked(&mut said, &held, "1 9");
    let answers = said.text()?;
    assert!(rt; answers.as_str() == " 2+0 1+0", "{answers}");
    Ok(())
}
