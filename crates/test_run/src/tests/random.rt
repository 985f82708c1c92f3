//! Random scripts over two flushers, against a list of what was put and deleted.
use crate::tests::driver::{Driver, FULL, answer_numbers, new_driver, small};
use crate::tests::reader::{Listed, list};
use foyer_core_steps::settings::Settings;
use foyer_device_page::error::Result;
use foyer_testing::said::Said;
use std::alloc::Global;
use std::test::Fail;

// How many scripts there are, and how many steps each has.
const SCRIPTS: u64 = 40;

const STEPS: u64 = 60;

// Keys are 0 to 6.
const KEYS: u64 = 7;

// A put, with the length of its text, or a delete. The event's place in the list, from 1, is its sequence.
#[derive(Clone, Copy)]
struct Event {
    key: u64,
    len: u64,
    is_put: bool,
}

// A driver with what was put and deleted, the generator's state, and the lines that were answered wrongly.
#[derive(Drop)]
struct Random {
    alloc: Global,
    driver: Driver<Global>,
    events: Vec<Event>,
    seed: u64,
    wrong: Said,
}

// Two flushers over 64 blocks.
fn settings() -> Settings {
    Settings {
        flushers: 2,
        buffer_pool_size: 1 << 20,
        ..small(64)
    }
}

fn new_random(alloc: Global, seed: u64) -> Result<Random> {
    Ok(Random {
        alloc,
        driver: new_driver(alloc, &alloc, settings(), FULL)?,
        events: Vec::new(alloc),
        seed,
        wrong: Said::new(alloc),
    })
}

// The next number below another.
fn next(random: &mut Random, below: u64) -> u64 {
    random.seed = random
        .seed
        .wrapping_mul(6_364_136_223_846_793_005)
        .wrapping_add(1_442_695_040_888_963_407);
    (random.seed >> 33) % below.max(1)
}

// Answers a line whose answer isn't looked at.
fn pass(random: &mut Random, word: &str, number: u64) {
    let alloc = random.alloc;
    let mut unread = Said::new(alloc);
    answer_numbers(
        alloc,
        &mut unread,
        &mut random.driver,
        &alloc,
        word,
        number,
        0,
    );
}

fn reply_to(random: &mut Random, word: &str, number: u64, len: u64) -> Result<String> {
    let alloc = random.alloc;
    let mut said = Said::new(alloc);
    answer_numbers(
        alloc,
        &mut said,
        &mut random.driver,
        &alloc,
        word,
        number,
        len,
    );
    said.text()
}

// Notes a line that was answered wrongly.
fn note(random: &mut Random, word: &str, number: u64, reply: &str) {
    random.wrong.number(word, number);
    random.wrong.word(": ");
    random.wrong.word(reply);
    random.wrong.word("\n");
}

fn number_of(digits: &str) -> u64 {
    digits.parse::<u64>().unwrap_or(u64::MAX)
}

// Whether a load was answered by this entry.
fn is_entry(reply: &str, key: u64, len: u64) -> bool {
    let (place, entry) = reply.split_once(", entry ").unwrap_or(("", ""));
    let (own, own_len) = entry.split_once(' ').unwrap_or(("", ""));
    place.starts_with("read ") && number_of(own) == key && number_of(own_len) == len
}

// Whether a load of a key may be answered so: by a miss, or by one that was put since it was deleted last.
fn may_be_loaded(events: &[Event], key: u64, reply: &str) -> bool {
    let mut may = reply == "miss";
    for event in events {
        if event.key == key && event.is_put {
            may = may || is_entry(reply, key, event.len);
        } else if event.key == key {
            may = reply == "miss";
        }
    }
    may
}

// Whether a load of a key is answered so once everything is written: by what was put last, unless it was deleted since.
fn is_newest(events: &[Event], key: u64, reply: &str) -> bool {
    let mut is_right = reply == "miss";
    for event in events {
        if event.key == key && event.is_put {
            is_right = is_entry(reply, key, event.len);
        } else if event.key == key {
            is_right = reply == "miss";
        }
    }
    is_right
}

// Loads a key, once everything is written or before.
fn get(random: &mut Random, key: u64, is_written: bool) -> Result<()> {
    let reply = reply_to(random, "get", key, 0)?;
    let events = random.events.as_slice();
    let is_right = if is_written {
        is_newest(events, key, reply.as_str())
    } else {
        may_be_loaded(events, key, reply.as_str())
    };
    if !is_right {
        note(random, "get ", key, reply.as_str());
    }
    Ok(())
}

// Whether a put or a delete is answered so.
fn is_taken(reply: &str, word: &str, sequence: u64) -> bool {
    let (own, digits) = reply.split_once(' ').unwrap_or(("", ""));
    own == word && number_of(digits) == sequence
}

// Does what an event says, under the next sequence.
fn take(random: &mut Random, event: Event) -> Result<()> {
    let sequence = (random.events.len() as u64).saturating_add(1);
    let (word, answer) = if event.is_put {
        ("put", "queued")
    } else {
        ("delete", "deleted")
    };
    let reply = reply_to(random, word, event.key, event.len)?;
    if !is_taken(reply.as_str(), answer, sequence) {
        note(random, word, event.key, reply.as_str());
    }
    random.events.push(event)?;
    Ok(())
}

// Puts a text whose length says which put it is.
fn put(random: &mut Random) -> Result<()> {
    let sequence = (random.events.len() as u64).wrapping_add(1);
    let key = next(random, KEYS);
    let len = next(random, 3)
        .wrapping_mul(3500)
        .wrapping_add(100)
        .wrapping_add(sequence);
    take(
        random,
        Event {
            key,
            len,
            is_put: true,
        },
    )
}

fn delete(random: &mut Random) -> Result<()> {
    let key = next(random, KEYS);
    take(
        random,
        Event {
            key,
            len: 0,
            is_put: false,
        },
    )
}

fn word_of_flush(number: u64) -> &'static str {
    match number {
        0 | 1 | 2 => "receive",
        3 => "begin",
        4 => "block",
        5 | 6 | 7 => "wrote",
        _ => "end",
    }
}

// A step of a flush, in turn or not.
fn flush_step(random: &mut Random) {
    let flusher = next(random, 2);
    let word = word_of_flush(next(random, 9));
    pass(random, word, flusher);
}

fn get_any(random: &mut Random) -> Result<()> {
    let key = next(random, KEYS);
    get(random, key, false)
}

fn step(random: &mut Random) -> Result<()> {
    match next(random, 10) {
        0 | 1 => put(random),
        2 => delete(random),
        3 => get_any(random),
        _ => Ok(flush_step(random)),
    }
}

// Writes all that a flusher has, with steps out of turn between those in turn.
fn drain(random: &mut Random, flusher: u64) {
    for _ in 0..2 {
        for _ in 0..STEPS {
            pass(random, "receive", flusher);
        }
        pass(random, "begin", flusher);
        for _ in 0..STEPS {
            pass(random, "wrote", flusher);
            pass(random, "wrote", flusher);
            pass(random, "block", flusher);
        }
        pass(random, "end", flusher);
    }
}

// How many of the listed records are a put's, of this sequence.
fn count_listed(listed: &[Listed], event: &Event, sequence: u64) -> u32 {
    let mut count = 0u32;
    for found in listed {
        let is_it = found.hash == event.key
            && found.sequence == sequence
            && found.len as u64 == event.len.saturating_add(52)
            && found.is_record;
        if is_it {
            count = count.saturating_add(1);
        }
    }
    count
}

// Whether the sequences rise within a block.
fn is_rising(listed: &[Listed]) -> bool {
    for (one, two) in listed.iter().zip(listed.iter().skip(1)) {
        if one.block >= two.block && one.sequence >= two.sequence {
            return false;
        }
    }
    true
}

// Whether each put stands on the disk once, and nothing else, and in a block the sequences rise.
fn is_on_disk(listed: &[Listed], events: &[Event]) -> bool {
    let mut puts = 0usize;
    for (at, event) in events.iter().enumerate() {
        if event.is_put {
            puts = puts.saturating_add(1);
            if count_listed(listed, event, at as u64 + 1) != 1 {
                return false;
            }
        }
    }
    listed.len() == puts && is_rising(listed)
}

fn check_disk(random: &mut Random) -> Result<()> {
    let listed = list(random.alloc, &mut random.driver.disk, &settings())?;
    if !is_on_disk(listed.as_slice(), random.events.as_slice()) {
        note(
            random,
            "records ",
            listed.len() as u64,
            "not those of the puts",
        );
    }
    Ok(())
}

// Runs a script, and looks at what is loaded and on the disk once everything is written.
fn run(random: &mut Random) -> Result<()> {
    for _ in 0..STEPS {
        step(random)?;
    }
    drain(random, 0);
    drain(random, 1);
    for key in 0..KEYS {
        get(random, key, true)?;
    }
    check_disk(random)
}

// What a random script answers wrongly.
fn wrong_of(alloc: Global, script: u64) -> Result<String> {
    let mut random = new_random(alloc, script)?;
    run(&mut random)?;
    random.wrong.text()
}

// An older pair that comes back, one that is lost, doubled or mixed up with another, and a step out of turn that
// changes something, fail here.
#[test]
fn random_scripts_answer_the_newest_and_list_every_put(
    rt: HostRuntime,
) -> std::result::Result<(), Fail> {
    for script in 0..SCRIPTS {
        let wrong = wrong_of(rt.alloc(), script)?;
        assert!(rt; wrong.is_empty(), "script {script}: {wrong}");
    }
    Ok(())
}
