//! Limits, how calls are counted, and how long limits make a caller wait.
use crate::tests::tables::{asked, cut, number, size};
use foyer_device_page::error::Result;
use foyer_device_statistics::{Meters, Recorder, Statistics};
use foyer_device_throttle::{IopsCounter, Meter, Throttle};
use foyer_testing::rows::first_difference;
use foyer_testing::said::Said;
use std::alloc::Global;
use std::num::NonZeroUsize;
use std::sync::{Arc, Wait};
use std::test::Fail;
use std::time::Duration;

// What a counter is printed as, and how it counts calls of no byte, of a page, and of a byte more.
fn say_counter(said: &mut Said, alloc: Global, counter: IopsCounter) {
    match counter.to_string(alloc) {
        Ok(text) => said.word(text.as_str()),
        Err(_) => said.miss(),
    }
    said.number(" ", counter.count(0) as u64);
    said.number(" ", counter.count(4096) as u64);
    said.number(" ", counter.count(4097) as u64);
}

// Each text in brackets, with the counter that it is read as.
fn counters_of(alloc: Global, rows: &str) -> Result<String> {
    let mut said = Said::new(alloc);
    for row in rows.lines() {
        let text = row.split_once("] ").unwrap_or((row, "")).0;
        said.word(text);
        said.word("] ");
        let text = text.split_once('[').unwrap_or(("", "")).1;
        match text.parse::<IopsCounter>() {
            Ok(counter) => say_counter(&mut said, alloc, counter),
            Err(error) => said.word(error.kind().name()),
        }
        said.word("\n");
    }
    said.text()
}

const COUNTERS: &str = "[PerIoSize(0)] Parse
[PerIoSize(1024a)] Parse
[invalid_string] Parse
[] Parse
[perio] Parse
[PerIo()] Parse
[PerIoSize()] Parse
[PerIo] PerIo 1 1 1
[ PerIo ] PerIo 1 1 1
[PerIoSize(+4096)] PerIoSize(4096) 0 1 2
[PerIoSize(+12)] PerIoSize(12) 0 342 342
[PerIoSize(4096)] PerIoSize(4096) 0 1 2
[PerIoSize(18446744073709551615)] PerIoSize(18446744073709551615) 0 1 1
[PerIoSize(18446744073709551616)] Parse
";

#[test]
fn counters_are_parsed_and_printed(rt: HostRuntime) -> std::result::Result<(), Fail> {
    let answers = counters_of(rt.alloc(), COUNTERS)?;
    assert_eq!(rt; first_difference(answers.as_str(), COUNTERS), None);
    Ok(())
}

#[test]
fn counters_are_made_by_their_sizes(rt: HostRuntime) -> std::result::Result<(), Fail> {
    let single: IopsCounter = "PerIo".parse()?;
    assert!(rt; single == IopsCounter::per_io() && single == IopsCounter::default());
    let sized: IopsCounter = "PerIoSize(18446744073709551615)".parse()?;
    assert!(rt; sized == IopsCounter::per_io_size(usize::MAX));
    Ok(())
}

fn limited(limits: Throttle, word: &str, limit: usize) -> Throttle {
    match word {
        "write_iops" => limits.with_write_iops(limit),
        "read_iops" => limits.with_read_iops(limit),
        "write_throughput" => limits.with_write_throughput(limit),
        "read_throughput" => limits.with_read_throughput(limit),
        _ if 0 < limit => limits.with_iops_counter(IopsCounter::per_io_size(limit)),
        _ => limits,
    }
}

fn say_limit(said: &mut Said, limit: Option<NonZeroUsize>) {
    match limit {
        Some(limit) => said.number(" ", limit.get() as u64),
        None => said.word(" none"),
    }
}

// The limits that some words set, one after the other: of the calls and the bytes of writes, then of reads.
fn limits_of(alloc: Global, rows: &str) -> Result<String> {
    let mut said = Said::new(alloc);
    for row in rows.lines() {
        let asked = asked(row);
        said.word(asked);
        said.word(" |");
        let mut limits = Throttle::default();
        for set in asked.split(", ") {
            let (word, limit) = cut(set);
            limits = limited(limits, word, size(limit));
        }
        say_limit(&mut said, limits.write_iops);
        say_limit(&mut said, limits.write_throughput);
        say_limit(&mut said, limits.read_iops);
        say_limit(&mut said, limits.read_throughput);
        said.flag(" new ", limits == Throttle::new());
        said.word(" ");
        say_counter(&mut said, alloc, limits.iops_counter);
        said.word("\n");
    }
    said.text()
}

const LIMITS: &str =
    "write_iops 1, read_iops 2, write_throughput 3, read_throughput 0, counter 8 | 1 3 2 none new no PerIoSize(8) 0 512 513
write_iops 1, read_iops 2, write_throughput 3, read_throughput 4 | 1 3 2 4 new no PerIo 1 1 1
write_iops 1, read_iops 2, write_throughput 3, read_throughput 4, write_iops 0, read_iops 0, write_throughput 0, read_throughput 0 | none none none none new yes PerIo 1 1 1
";

#[test]
fn limits_are_set_one_by_one_and_one_of_nothing_is_none(
    rt: HostRuntime,
) -> std::result::Result<(), Fail> {
    let answers = limits_of(rt.alloc(), LIMITS)?;
    assert_eq!(rt; first_difference(answers.as_str(), LIMITS), None);
    Ok(())
}

// Seconds and nanoseconds.
pub fn say_wait(said: &mut Said, wait: Duration) {
    said.number(" ", wait.as_secs());
    said.number("+", u64::from(wait.subsec_nanos()));
}

// Notes how long writes wait at some moments, if this many bytes a second are let through and this many were written at 0.
fn say_waits(
    rt: &impl Wait,
    alloc: Global,
    said: &mut Said,
    words: &str,
    moments: &str,
) -> Result<()> {
    let (limit, bytes) = cut(words);
    let throttle = Throttle::new().with_write_throughput(size(limit));
    let (statistics, seat) = Statistics::new(alloc, throttle, 0)?;
    let mut recorder = Recorder::new(seat, Arc::new(alloc, statistics)?);
    recorder.record_disk_write(size(bytes));
    for now in moments.split(' ') {
        say_wait(said, recorder.write_throttle(rt, number(now)));
    }
    Ok(())
}

fn waits_of(rt: &impl Wait, alloc: Global, rows: &str) -> Result<String> {
    let mut said = Said::new(alloc);
    for row in rows.lines() {
        let asked = asked(row);
        said.word(asked);
        if let Some((words, moments)) = asked.split_once(" < ") {
            said.word(" |");
            say_waits(rt, alloc, &mut said, words, moments)?;
        }
        said.word("\n");
    }
    said.text()
}

// Names, and below each the bytes that are let through a second, those that were written, and the wait at each moment.
const WAITS: &str = "a debt is waited for
1000 3000 < 1000000000 3000000000 | 2+0 0+0
1000 500 < 100000000 | 0+400000000
a wait is rounded up
3 1 < 0 333333333 333333334 | 0+333333334 0+1 0+0
time that runs backwards fills nothing
1000 3000 < 1000000000 0 1000000000 2000000000 | 2+0 2+0 2+0 1+0
";

#[test]
fn writes_wait_as_long_as_their_limit_wants(rt: HostRuntime) -> std::result::Result<(), Fail> {
    let answers = waits_of(&rt, rt.alloc(), WAITS)?;
    assert_eq!(rt; first_difference(answers.as_str(), WAITS), None);
    Ok(())
}

#[test]
fn a_quota_fills_up_to_its_limit(rt: HostRuntime) -> std::result::Result<(), Fail> {
    let mut meter = Meter::new(0);
    let limit = NonZeroUsize::new(1000);
    let mut said = Said::new(rt.alloc());
    say_wait(&mut said, meter.poll(limit, 0, 60_000_000_000));
    say_wait(&mut said, meter.poll(limit, 1000, 60_000_000_000));
    say_wait(&mut said, meter.poll(limit, 1001, 60_000_000_000));
    say_wait(&mut said, meter.poll(None, 9999, 60_000_000_000));
    let most = meter.poll(NonZeroUsize::new(1), u64::MAX, 60_000_000_000);
    let waits = said.text()?;
    assert!(rt; waits.as_str() == " 0+0 0+0 0+1000000 0+0", "{waits}");
    assert!(rt; most > Duration::from_secs(u64::MAX - 1002));
    Ok(())
}

#[test]
fn the_longer_wait_of_two_limits_is_answered(rt: HostRuntime) -> std::result::Result<(), Fail> {
    let mut meters = Meters::new(0);
    let limits = (NonZeroUsize::new(1000), NonZeroUsize::new(1));
    let mut said = Said::new(rt.alloc());
    say_wait(&mut said, meters.poll(limits, 500, 2, 0));
    say_wait(&mut said, meters.poll(limits, 5000, 2, 0));
    say_wait(&mut said, meters.poll((None, None), 5000, 2, 0));
    let waits = said.text()?;
    assert!(rt; waits.as_str() == " 2+0 5+0 0+0", "{waits}");
    Ok(())
}
