//! Two threads that put texts under one key, each of which watches that no load goes back.
use crate::tests::asked::Texts;
use foyer_device_page::error::{Error, Result};
use foyer_format_record::serde::NoProperties;
use foyer_program::store::config::Engine;
use foyer_program::store::cores::sessions::CallerSession;
use foyer_program::store::engine::engine::Enqueued;
use foyer_program::store::engine::load::Load;
use std::alloc::Global;
use std::sync::Wait;

// What a thread knows: the number of its last put, the greatest number of the other thread's that it has loaded, and whether it has
// loaded one since its last put.
#[derive(Drop)]
struct Watch {
    own: u64,
    other: Option<u64>,
    is_past: bool,
}

impl Watch {
    // Whether a loaded number may come after what was loaded and put before. It is this thread's, or the other's.
    fn sees(&mut self, is_own: bool, number: u64) -> bool {
        if is_own {
            return !self.is_past && number == self.own;
        }
        let is_newer = match self.other {
            Some(last) if self.is_past => last <= number,
            Some(last) => last < number,
            None => true,
        };
        self.other = Some(number);
        self.is_past = true;
        is_newer
    }

    // The same of a loaded text: the name of the thread that put it, and its number.
    fn sees_text(&mut self, name: &str, text: &str) -> bool {
        let (is_own, digits) = match text.strip_prefix(name) {
            Some(digits) => (true, digits),
            None => (false, text.get(name.len()..).unwrap_or("")),
        };
        match digits.parse::<u64>() {
            Ok(number) => self.sees(is_own, number),
            Err(_) => false,
        }
    }
}

// Whether what is loaded may come after what was loaded and put before. A miss may: its block may have been reclaimed.
fn loads_on<S: CallerSession, N: Engine<S, u128, String, NoProperties>>(
    rt: &impl Wait,
    store: &Texts<N>,
    session: &mut S,
    key: u128,
    name: &str,
    watch: &mut Watch,
) -> Result<bool> {
    match store.load(rt, session, &key, 0)? {
        Load::Entry { value, .. } => Ok(watch.sees_text(name, value.as_str())),
        Load::Piece { piece, .. } => Ok(watch.sees_text(name, piece.value().as_str())),
        Load::Throttled | Load::Miss => Ok(true),
    }
}

/// Puts so many texts under a key, each with this thread's name and its number, and loads twice after each: whether each put was queued, and
/// no load went back. A word gives the count, and the next one the name.
pub(crate) fn duel<S: CallerSession, N: Engine<S, u128, String, NoProperties>>(
    rt: &impl Wait,
    alloc: Global,
    store: &Texts<N>,
    session: &mut S,
    key: u128,
    words: &str,
) -> Result<bool> {
    let (count, name) = words.split_once(' ').unwrap_or((words, ""));
    let mut watch = Watch {
        own: 0,
        other: None,
        is_past: false,
    };
    for number in 0..count.parse::<u64>().unwrap_or(0) {
        let value = format!(in alloc; "{name}{number}")?;
        watch.own = number;
        watch.is_past = false;
        if store.put(rt, alloc, session, key, value, NoProperties, 0)? != Enqueued::Queued {
            return Ok(false);
        }
        for _ in 0..2 {
            if !loads_on(rt, store, session, key, name, &mut watch)? {
                return Ok(false);
            }
        }
    }
    Ok(true)
}

// A key's text.
fn text_of<S: CallerSession, N: Engine<S, u128, String, NoProperties>>(
    rt: &impl Wait,
    alloc: Global,
    store: &Texts<N>,
    session: &mut S,
    key: u128,
) -> Result<String> {
    match store.load(rt, session, &key, 0)? {
        Load::Entry { value, .. } => Ok(value),
        Load::Piece { piece, .. } => Ok(String::from_str(alloc, piece.value().as_str())?),
        Load::Throttled | Load::Miss => Err(Error::Io),
    }
}

/// Whether a key's text is one of some words, before a wait, and still the same after it.
pub(crate) fn settles<S: CallerSession, N: Engine<S, u128, String, NoProperties>>(
    rt: &impl Wait,
    alloc: Global,
    store: &Texts<N>,
    session: &mut S,
    key: u128,
    words: &str,
) -> Result<bool> {
    let before = text_of(rt, alloc, store, session, key)?;
    let is_one = words.split(' ').any(|word| word == before.as_str());
    store.wait(rt, session)?;
    let after = text_of(rt, alloc, store, session, key)?;
    Ok(is_one && before == after)
}
