//! What a store is asked, by words, and what is noted of its answers. Keys have 128 bits, and their low 64 bits as hash: `1+` is
//! the key 2^64 + 1.
use crate::tests::counted::{say_abandoned, say_counts};
use crate::tests::dials::Dial;
use crate::tests::duels::{duel, settles};
use crate::tests::gates::HoldingGate;
use foyer_device_page::error::{Error, Result};
use foyer_format_record::serde::{HashBuilder, NoProperties};
use foyer_policy_filter::StorageFilterResult;
use foyer_program::store::config::{DeviceSummary, Engine};
use foyer_program::store::cores::sessions::CallerSession;
use foyer_program::store::engine::engine::Enqueued;
use foyer_program::store::engine::load::Load;
use foyer_program::store::store::Store;
use foyer_program::store::threads::workers::Clock;
use foyer_testing::said::Said;
use std::alloc::Global;
use std::sync::Wait;
use std::thread;

/// The hash of a key is its low 64 bits.
#[derive(Clone, Copy)]
pub(crate) struct LowBits;

impl HashBuilder<u128> for LowBits {
    ghost use Rattle.std.specs.Prelude.{◌%◌, ◌^◌};

    ghost hash_of = { λ _ key. key % 2 ^ 64 };

    fn hash_one(&self, key: &u128) -> u64 {
        (*key % (1 << 64)) as u64
    }
}

/// A store of these tests.
pub(crate) type Texts<N> = Store<N, u128, String, NoProperties, LowBits>;

fn key_of(word: &str) -> u128 {
    match word.strip_suffix('+') {
        Some(low) => u128::from(low.parse::<u64>().unwrap_or(0)) + (1 << 64),
        None => u128::from(word.parse::<u64>().unwrap_or(0)),
    }
}

fn say_fault(said: &mut Said, error: Error) {
    said.word("fault ");
    said.word(error.kind().name());
}

fn say_put(said: &mut Said, answer: Result<Enqueued>) {
    match answer {
        Ok(Enqueued::Queued) => said.word("queued"),
        Ok(Enqueued::Ignored) => said.word("ignored"),
        Ok(Enqueued::Deleted) => said.word("deleted"),
        Err(error) => say_fault(said, error),
    }
}

fn say_done(said: &mut Said, answer: Result<()>) {
    match answer {
        Ok(()) => said.word("ok"),
        Err(error) => say_fault(said, error),
    }
}

fn say_whether(said: &mut Said, answer: Result<bool>) {
    match answer {
        Ok(is_so) => said.flag("", is_so),
        Err(error) => say_fault(said, error),
    }
}

// A text; of a long one its length.
fn say_text(said: &mut Said, word: &str, text: &str) {
    said.word(word);
    if text.len() < 100 {
        said.word(text);
    } else {
        said.number("of ", text.len() as u64);
    }
}

fn say_load(said: &mut Said, answer: Result<Load<u128, String, NoProperties, Global>>) {
    match answer {
        Ok(Load::Entry { value, .. }) => say_text(said, "entry ", value.as_str()),
        Ok(Load::Piece { piece, .. }) => say_text(said, "piece ", piece.value().as_str()),
        Ok(Load::Throttled) => said.word("throttled"),
        Ok(Load::Miss) => said.word("miss"),
        Err(error) => say_fault(said, error),
    }
}

// Notes how many steps of each kind a session made, except those that are of no kind: a wait makes as many as it needs.
fn say_tally<S: CallerSession>(said: &mut Said, session: &S) {
    let tally = session.tally();
    said.word("tally");
    for count in &tally[..7] {
        said.number(" ", *count);
    }
}

// How many of no kind.
fn say_others<S: CallerSession>(said: &mut Said, session: &S) {
    let tally = session.tally();
    said.number("others ", tally[7]);
}

fn say_device(said: &mut Said, device: DeviceSummary) {
    said.number("has ", device.capacity as u64);
    said.number(" gave ", device.allocated as u64);
    said.number(" in ", device.partitions as u64);
}

// The answer that a put of an estimated size would get; a wait in milliseconds.
fn say_verdict(said: &mut Said, verdict: StorageFilterResult) {
    match verdict {
        StorageFilterResult::Admit => said.word("admit"),
        StorageFilterResult::Reject => said.word("reject"),
        StorageFilterResult::Throttled(wait) => {
            let millis = wait.as_nanos() / 1_000_000;
            said.number("throttled ", u64::try_from(millis).unwrap_or(u64::MAX));
        }
    }
}

/// What a script is asked with, beside its store: the gate that holds the store's threads, and the dial that its clock shows.
#[derive(Clone, Copy)]
pub(crate) struct Beside<'a> {
    pub(crate) gate: &'a HoldingGate,
    pub(crate) dial: Dial,
}

// What becomes of the thread that is held, and of the dial.
fn say_beside(said: &mut Said, beside: Beside<'_>, word: &str, how: &str) {
    match word {
        "reached" => said.flag("", beside.gate.is_reached()),
        "held" => said.flag("", beside.gate.is_holding()),
        "open" => {
            beside.gate.open();
            said.word("open");
        }
        "at" => {
            let millis = how.parse::<u64>().unwrap_or(0);
            beside.dial.set(millis);
            said.number("at ", millis);
        }
        _ => said.word("?"),
    }
}

fn put<S: CallerSession, N: Engine<S, u128, String, NoProperties>>(
    rt: &impl Wait,
    alloc: Global,
    store: &Texts<N>,
    session: &mut S,
    key: u128,
    text: &str,
    now: u64,
) -> Result<Enqueued> {
    let value = String::from_str(alloc, text)?;
    store.put(rt, alloc, session, key, value, NoProperties, now)
}

fn force<S: CallerSession, N: Engine<S, u128, String, NoProperties>>(
    rt: &impl Wait,
    alloc: Global,
    store: &Texts<N>,
    session: &mut S,
    key: u128,
    text: &str,
    now: u64,
) -> Result<Enqueued> {
    let value = String::from_str(alloc, text)?;
    let piece = store.piece(alloc, key, value, NoProperties)?;
    store.enqueue(rt, session, &piece, true, now)
}

fn long_text(alloc: Global, len: &str) -> Result<String> {
    let mut text = String::new(alloc);
    for _ in 0..len.parse::<u32>().unwrap_or(0) {
        text.push('x')?;
    }
    Ok(text)
}

// Puts a text of so many bytes.
fn fill<S: CallerSession, N: Engine<S, u128, String, NoProperties>>(
    rt: &impl Wait,
    alloc: Global,
    store: &Texts<N>,
    session: &mut S,
    key: u128,
    len: &str,
    now: u64,
) -> Result<Enqueued> {
    let value = long_text(alloc, len)?;
    store.put(rt, alloc, session, key, value, NoProperties, now)
}

// Whether the device comes to have a key's hash, and no piece of it is kept.
fn is_seen<S: CallerSession, N: Engine<S, u128, String, NoProperties>>(
    rt: &impl Wait,
    store: &Texts<N>,
    session: &mut S,
    key: u128,
) -> Result<bool> {
    for _ in 0..1_000_000 {
        if store.may_contains(rt, session, &key)? {
            store.wait(rt, session)?;
            return Ok(true);
        }
        thread::yield_now();
    }
    Ok(false)
}

// Whether so many reclaims come to have begun. Their threads may start late.
fn has_reclaimed<S: CallerSession, N: Engine<S, u128, String, NoProperties>>(
    rt: &impl Wait,
    store: &Texts<N>,
    now: u64,
    count: u128,
) -> bool {
    for _ in 0..20_000_000 {
        if u128::from(store.counters::<S>(rt, now).reclaims) >= count {
            return true;
        }
        thread::yield_now();
    }
    false
}

// Notes what a store says of itself.
fn say_store<S: CallerSession, N: Engine<S, u128, String, NoProperties>>(
    rt: &impl Wait,
    store: &Texts<N>,
    beside: Beside<'_>,
    session: &S,
    said: &mut Said,
    word: &str,
    first: &str,
) {
    let key = key_of(first);
    let now = beside.dial.now();
    match word {
        "enabled" => said.flag("", store.is_enabled()),
        "tally" => say_tally(said, session),
        "others" => say_others(said, session),
        "name" => said.word(store.name()),
        "hash" => said.number("hash ", store.hash_of(&key)),
        "device" => say_device(said, store.device::<S>()),
        "room" => said.flag("", store.has_room::<S>(rt, &key)),
        "abandoned" => say_abandoned(said, &store.abandoned::<S>(rt)),
        "judge" => say_verdict(said, store.filter::<S>(rt, &key, 60, now)),
        "counts" => {
            let counts = store.counters::<S>(rt, now);
            say_counts(said, &counts, first);
        }
        "reclaims" => said.flag("", has_reclaimed::<S, N>(rt, store, now, key)),
        _ => say_beside(said, beside, word, first),
    }
}

// Notes a call's answer.
fn say_line<S: CallerSession, N: Engine<S, u128, String, NoProperties>>(
    rt: &impl Wait,
    alloc: Global,
    store: &Texts<N>,
    beside: Beside<'_>,
    session: &mut S,
    said: &mut Said,
    line: &str,
) {
    let (word, rest) = line.split_once(' ').unwrap_or((line, ""));
    let (first, text) = rest.split_once(' ').unwrap_or((rest, ""));
    let key = key_of(first);
    let now = beside.dial.now();
    match word {
        "put" => say_put(said, put(rt, alloc, store, session, key, text, now)),
        "force" => say_put(said, force(rt, alloc, store, session, key, text, now)),
        "fill" => say_put(said, fill(rt, alloc, store, session, key, text, now)),
        "get" => say_load(said, store.load(rt, session, &key, now)),
        "has" => say_whether(said, store.may_contains(rt, session, &key)),
        "del" => say_done(said, store.delete(rt, session, &key)),
        "remove" => say_done(said, store.remove(rt, session, &key)),
        "wait" => say_done(said, store.wait(rt, session)),
        "destroy" => say_done(said, store.destroy(rt, session)),
        "close" => say_done(said, store.close(rt, session)),
        "seen" => say_whether(said, is_seen(rt, store, session, key)),
        "duel" => say_whether(said, duel(rt, alloc, store, session, key, text)),
        "settles" => say_whether(said, settles(rt, alloc, store, session, key, text)),
        _ => say_store(rt, store, beside, &*session, said, word, first),
    }
}

/// What a store answers to a script.
pub(crate) fn answers_to<S: CallerSession, N: Engine<S, u128, String, NoProperties>>(
    rt: &impl Wait,
    alloc: Global,
    store: &Texts<N>,
    beside: Beside<'_>,
    session: &mut S,
    script: &str,
) -> Said {
    let mut said = Said::new(alloc);
    let mut is_first = true;
    for line in script.split(", ") {
        if !is_first {
            said.word(", ");
        }
        is_first = false;
        say_line(rt, alloc, store, beside, session, &mut said, line);
    }
    said
}
