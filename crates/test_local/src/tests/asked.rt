//! What an engine is asked, by lines of a script, and a word for each answer.
use foyer_block_manager::block::eviction::EvictionPicker;
use foyer_device_page::error::{Error, Result};
use foyer_format_record::serde::{IdentityHashBuilder, NoProperties};
use foyer_io_disk::disk::Disk;
use foyer_policy_filter::StorageFilterCondition;
use foyer_storage_local::engine::{LocalEngine, MarkLog};
use foyer_storage_local::load::{Enqueued, Load};
use foyer_testing::said::Said;
use std::alloc::{Allocator, Global};

/// An engine of keys that are their own hashes, and of texts.
pub type Texts<A, D, L, E, C> = LocalEngine<
    u64,
    String<A>,
    NoProperties,
    IdentityHashBuilder,
    A,
    D,
    L,
    E,
    C,
>;

/// Whatever answers a line.
pub trait Asked {
    /// Notes what is answered to a word, a key and a text.
    fn say_answer(&mut self, said: &mut Said, word: &str, key: u64, text: &str);
}

/// The number that a word is, or 0.
pub fn number_of(word: &str) -> u64 {
    word.parse::<u64>().unwrap_or(0)
}

/// The word before the first blank, and what follows it.
pub fn cut(text: &str) -> (&str, &str) {
    text.split_once(' ').unwrap_or((text, ""))
}

// A hundred letters.
const LETTERS: &str =
    "xxxxxxxxxxxxxxxxxxxxxxxxxxxxxxxxxxxxxxxxxxxxxxxxxxxxxxxxxxxxxxxxxxxxxxxxxxxxxxxxxxxxxxxxxxxxxxxxxxxx";

// A text; a number after a star stands for so many hundreds of letters.
fn text_of<A: Allocator + Clone>(alloc: &A, text: &str) -> Result<String<A>> {
    match text.split_once('*') {
        None => Ok(String::from_str(alloc.clone()?, text)?),
        Some((begin, count)) => {
            let mut whole = String::from_str(alloc.clone()?, begin)?;
            for _ in 0..number_of(count) {
                whole.push_str(LETTERS)?;
            }
            Ok(whole)
        }
    }
}

// The text as `text_of` takes it.
fn say_text(said: &mut Said, text: &str) {
    let begin = text.trim_end_matches('x');
    let count = text.len().saturating_sub(begin.len());
    if count < 100 || !count.is_multiple_of(100) {
        said.word(text);
    } else {
        said.word(begin);
        said.number("*", (count / 100) as u64);
    }
}

fn say_enqueued(said: &mut Said, answer: Result<Enqueued>) {
    match answer {
        Ok(Enqueued::Queued) => said.word("queued"),
        Ok(Enqueued::Ignored) => said.word("ignored"),
        Ok(Enqueued::Deleted) => said.word("deleted"),
        Err(error) => said.word(error.kind().name()),
    }
}

fn say_loaded<A: Allocator>(said: &mut Said, answer: Result<Load<u64, String<A>>>) {
    match answer {
        Ok(Load::Entry { value, .. }) => say_text(said, value.as_str()),
        Ok(Load::Throttled) => said.word("throttled"),
        Ok(Load::Miss) => said.word("miss"),
        Err(error) => said.word(error.kind().name()),
    }
}

fn say_done(said: &mut Said, answer: Result<()>) {
    match answer {
        Ok(()) => said.word("ok"),
        Err(error) => said.word(error.kind().name()),
    }
}

fn put<A, D, L, E, C>(engine: &mut Texts<A, D, L, E, C>, key: u64, text: &str) -> Result<Enqueued>
where
    A: Allocator + Clone,
    D: Disk + Drop,
    L: MarkLog + Drop,
    E: EvictionPicker,
    C: StorageFilterCondition,
{
    let value = text_of(engine.allocator(), text)?;
    engine.put(key, value, NoProperties)
}

impl<A, D, L, E, C> Asked for Texts<A, D, L, E, C>
where
    A: Allocator + Clone,
    D: Disk + Drop,
    L: MarkLog + Drop,
    E: EvictionPicker,
    C: StorageFilterCondition,
{
    fn say_answer(&mut self, said: &mut Said, word: &str, key: u64, text: &str) {
        match word {
            "put" => say_enqueued(said, put(self, key, text)),
            "get" => say_loaded(said, self.get(&key)),
            "throttled" => say_loaded(said, self.load(&key, true)),
            "del" => say_done(said, self.delete(&key)),
            "wait" => say_done(said, self.wait()),
            "destroy" => say_done(said, self.destroy()),
            "close" => say_done(said, self.close()),
            _ => said.word("?"),
        }
    }
}

/// The word that is answered.
pub fn answer_to<N: Asked>(
    alloc: Global,
    engine: &mut N,
    word: &str,
    key: u64,
    text: &str,
) -> Result<String> {
    let mut said = Said::new(alloc);
    engine.say_answer(&mut said, word, key, text);
    said.text()
}

/// Whether that is the word.
pub fn is_answered<N: Asked>(
    alloc: Global,
    engine: &mut N,
    word: &str,
    key: u64,
    text: &str,
    wanted: &str,
) -> Result<bool> {
    Ok(answer_to(alloc, engine, word, key, text)?.as_str() == wanted)
}

// How many keys are answered by their newest text, are missed, and are answered otherwise.
#[derive(Clone, Copy)]
struct Counts {
    newest: u64,
    missed: u64,
    others: u64,
}

fn counted(counts: Counts, answer: &str, newest: &str) -> Counts {
    if answer == newest {
        Counts {
            newest: counts.newest.saturating_add(1),
            ..counts
        }
    } else if answer == "miss" {
        Counts {
            missed: counts.missed.saturating_add(1),
            ..counts
        }
    } else {
        Counts {
            others: counts.others.saturating_add(1),
            ..counts
        }
    }
}

fn say_counts(said: &mut Said, counts: Counts) {
    said.number("newest ", counts.newest);
    said.number(" missed ", counts.missed);
    said.number(" others ", counts.others);
}

// The text of a key's n-th put: every third one is long. In a mix its length is up to 6,000 bytes.
fn text_at(alloc: Global, n: u64, is_mixed: bool) -> Result<String> {
    let mut said = Said::new(alloc);
    let is_long = !is_mixed && n.is_multiple_of(3);
    said.number(if is_long { "long-text-" } else { "" }, n);
    if is_mixed {
        said.number(".*", n.wrapping_mul(n) % 6000 / 100);
    }
    said.text()
}

// Of the keys of the puts from one number to another, whose texts are the newest.
fn counts_of<N: Asked>(
    alloc: Global,
    engine: &mut N,
    from: u64,
    to: u64,
    keys: u64,
    is_mixed: bool,
) -> Result<Counts> {
    let mut counts = Counts {
        newest: 0,
        missed: 0,
        others: 0,
    };
    for n in from..to {
        let text = text_at(alloc, n, is_mixed)?;
        let answer = answer_to(alloc, engine, "get", n % keys.max(1), "")?;
        counts = counted(counts, answer.as_str(), text.as_str());
    }
    Ok(counts)
}

// A put of the n-th text, and a wait: whether that is the newest, and of the 16 puts before it the newest or a miss.
fn is_filled<N: Asked>(alloc: Global, engine: &mut N, n: u64, keys: u64) -> Result<bool> {
    let text = text_at(alloc, n, false)?;
    let key = n % keys.max(1);
    let is_queued = is_answered(alloc, engine, "put", key, text.as_str(), "queued")?;
    let is_written = is_answered(alloc, engine, "wait", 0, "", "ok")?;
    let is_newest = is_answered(alloc, engine, "get", key, "", text.as_str())?;
    let before = counts_of(alloc, engine, n.saturating_sub(15), n, keys, false)?;
    Ok(is_queued && is_written && is_newest && before.others == 0)
}

// Notes of 150 puts under so many keys, a wait after each, how many of the last 16 are answered, or which one was answered otherwise.
fn say_fill<N: Asked>(alloc: Global, said: &mut Said, engine: &mut N, keys: u64) -> Result<()> {
    for n in 1..=150 {
        if !is_filled(alloc, engine, n, keys)? {
            said.number("not ", n);
            return Ok(());
        }
    }
    let last = counts_of(alloc, engine, 135, 151, keys, false)?;
    said.number("filled ", last.newest);
    Ok(())
}

// The n-th line of a mix: its put, and a wait after each fifth, and a delete of each seventh.
fn put_mixed<N: Asked>(alloc: Global, engine: &mut N, n: u64) -> Result<()> {
    let text = text_at(alloc, n, true)?;
    let mut said = Said::new(alloc);
    engine.say_answer(&mut said, "put", n % 25, text.as_str());
    if n % 5 == 4 {
        engine.say_answer(&mut said, "wait", 0, "");
    }
    if n % 7 == 6 {
        engine.say_answer(&mut said, "del", n % 25, "");
    }
    Ok(())
}

// Notes of 60 puts under 25 keys how many keys are answered by their newest text, are missed, and are answered otherwise.
fn say_mix<N: Asked>(alloc: Global, said: &mut Said, engine: &mut N) -> Result<()> {
    for n in 0..60 {
        put_mixed(alloc, engine, n)?;
    }
    let _ = answer_to(alloc, engine, "wait", 0, "")?;
    let counts = counts_of(alloc, engine, 35, 60, 25, true)?;
    say_counts(said, counts);
    Ok(())
}

// The keys from one number to another.
fn keys_of(first: u64, last: u64) -> std::ops::Range<u64> {
    first..last.saturating_add(1)
}

// The text of a key's put among many: a word and the key, and thirty hundreds of letters.
fn text_among(alloc: Global, key: u64, word: &str) -> Result<String> {
    let mut said = Said::new(alloc);
    said.word(word);
    said.number("", key);
    said.word("*30");
    said.text()
}

// Notes how many keys of some were put so.
fn say_puts<N: Asked>(
    alloc: Global,
    said: &mut Said,
    engine: &mut N,
    first: u64,
    rest: &str,
) -> Result<()> {
    let (last, word) = cut(rest);
    let mut count = 0u64;
    for key in keys_of(first, number_of(last)) {
        let text = text_among(alloc, key, word)?;
        let is_queued = is_answered(alloc, engine, "put", key, text.as_str(), "queued")?;
        count = count.saturating_add(u64::from(is_queued));
    }
    said.number("queued ", count);
    Ok(())
}

// Notes how many keys of some are answered by the text that was put so, are missed, and are answered otherwise.
fn say_gets<N: Asked>(
    alloc: Global,
    said: &mut Said,
    engine: &mut N,
    first: u64,
    rest: &str,
) -> Result<()> {
    let (last, word) = cut(rest);
    let mut counts = Counts {
        newest: 0,
        missed: 0,
        others: 0,
    };
    for key in keys_of(first, number_of(last)) {
        let text = text_among(alloc, key, word)?;
        let answer = answer_to(alloc, engine, "get", key, "")?;
        counts = counted(counts, answer.as_str(), text.as_str());
    }
    say_counts(said, counts);
    Ok(())
}

// Notes what a delete of so many keys, from 1000 on, is answered at last.
fn say_deletes<N: Asked>(alloc: Global, said: &mut Said, engine: &mut N, count: u64) -> Result<()> {
    for key in 1..count {
        let _ = answer_to(alloc, engine, "del", key.saturating_add(1000), "")?;
    }
    engine.say_answer(said, "del", 1000, "");
    Ok(())
}

fn say_line<N: Asked>(alloc: Global, said: &mut Said, engine: &mut N, line: &str) -> Result<()> {
    let (word, rest) = cut(line);
    let (key, text) = cut(rest);
    match word {
        "fill" => say_fill(alloc, said, engine, number_of(key)),
        "mix" => say_mix(alloc, said, engine),
        "puts" => say_puts(alloc, said, engine, number_of(key), text),
        "gets" => say_gets(alloc, said, engine, number_of(key), text),
        "deletes" => say_deletes(alloc, said, engine, number_of(key)),
        _ => {
            engine.say_answer(said, word, number_of(key), text);
            Ok(())
        }
    }
}

/// Notes what is answered to the lines of a script, which commas part: a word each, after a blank.
pub fn say_script<N: Asked>(
    alloc: Global,
    said: &mut Said,
    engine: &mut N,
    script: &str,
) -> Result<()> {
    for line in script.split(", ") {
        said.word(" ");
        say_line(alloc, said, engine, line)?;
    }
    Ok(())
}

/// Notes why something wasn't opened.
pub fn say_refused(said: &mut Said, error: Error) {
    said.word(" refused ");
    said.word(error.kind().name());
}
