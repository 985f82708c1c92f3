//! The calls of a thread, and how it judges the answers.
ghost use Rattle.std.specs.Prelude.{◌<◌};

use super::{Found, NOTHING};
use foyer_device_page::error::Result;
use foyer_format_record::serde::{IdentityHashBuilder, NoProperties};
use foyer_storage_cores_run::build::config::Engine;
use foyer_storage_cores_run::build::engine::engine::Enqueued;
use foyer_storage_cores_run::build::engine::load::Load;
use foyer_storage_cores_run::build::store::Store;
use std::alloc::Global;
use std::sync::Wait;

// How many keys each thread has.
const KEYS: usize = 64;

// A value has `SHORTEST` bytes, and fewer than `LONGEST` more.
const LONGEST: u64 = 6000;

const SHORTEST: u64 = 16;

pub(super) type Values<N> = Store<N, u64, Vec<u8>, NoProperties, IdentityHashBuilder>;

// How many calls a thread makes, the seed of its choices, and its first key.
#[derive(Clone, Copy)]
pub(super) struct Plan {
    pub(super) calls: u64,
    pub(super) seed: u64,
    pub(super) first: u64,
}

// What a thread knows about a key: the count of its last put, whether this run put or deleted the key, and whether the key was deleted
// since its last put. If this run did neither, a value of an earlier run may be found.
#[derive(Clone, Copy)]
struct Last {
    count: u64,
    is_known: bool,
    is_deleted: bool,
}

fn length_of(key: u64, count: u64) -> usize {
    (SHORTEST
        + key
            .wrapping_mul(104_729)
            .wrapping_add(count.wrapping_mul(7919))
            % LONGEST) as usize
}

fn filler_of(key: u64, count: u64) -> u8 {
    key.wrapping_add(count).to_le_bytes()[0]
}

// The value of a key's put of that count: key, count, and then one byte over and over.
fn value_of(alloc: Global, key: u64, count: u64) -> Result<Vec<u8>> {
    let length = length_of(key, count);
    let mut value = Vec::with_capacity(alloc, length)?;
    value.extend_from_slice(&key.to_le_bytes())?;
    value.extend_from_slice(&count.to_le_bytes())?;
    value.resize(length, filler_of(key, count))?;
    Ok(value)
}

// Gives the count of a value, if the value is a whole one of the key.
fn count_of(key: u64, value: &[u8]) -> Option<u64> {
    if value.len() < 16 || &value[..8] != key.to_le_bytes().as_slice() {
        return None;
    }
    let mut eight = [0; 8];
    eight.copy_from_slice(&value[8..16]);
    let count = u64::from_le_bytes(eight);
    let filler = filler_of(key, count);
    let is_whole = value.len() == length_of(key, count)
        && value[16..].iter().all(|it| *it == filler);
    if is_whole { Some(count) } else { None }
}

// Whether a value that was read from the device can be right.
fn may_be_read(key: u64, value: &[u8], last: Last) -> bool {
    match count_of(key, value) {
        Some(count) => !last.is_known || (count == last.count && !last.is_deleted),
        None => false,
    }
}

// Whether a value that isn't written yet can be right. After a delete, an older value of the key can, too.
fn may_be_kept(key: u64, value: &[u8], last: Last) -> bool {
    match count_of(key, value) {
        Some(count) => last.is_known && (count == last.count || last.is_deleted),
        None => false,
    }
}

// What a thread knows about each of its keys, and what it found.
#[derive(Drop)]
pub(super) struct Asker {
    table: [Last; KEYS],
    pub(super) found: Found,
}

impl Asker {
    pub(super) fn new(seed: u64) -> Asker {
        let last = Last {
            count: seed.wrapping_shl(32),
            is_known: false,
            is_deleted: false,
        };
        Asker {
            table: [last; KEYS],
            found: NOTHING,
        }
    }

    fn count_wrong(&mut self, is_right: bool) {
        if !is_right {
            self.found.wrong = self.found.wrong.saturating_add(1);
        }
    }

    fn count_fault(&mut self) {
        self.found.faults = self.found.faults.saturating_add(1);
    }

    fn put<S: Drop, N: Engine<S, u64, Vec<u8>, NoProperties>>(
        &mut self,
        rt: &impl Wait,
        alloc: Global,
        store: &Values<N>,
        session: &mut S,
        key: u64,
        place: usize,
    )
        requires { place < 64 }
    {
        let count = self.table[place].count.wrapping_add(1);
        match enqueue(rt, alloc, store, session, key, count) {
            Ok(answer) => {
                self.table[place] = Last {
                    count,
                    is_known: true,
                    is_deleted: answer != Enqueued::Queued,
                }
            }
            Err(_) => self.count_fault(),
        }
    }

    fn delete<S: Drop, N: Engine<S, u64, Vec<u8>, NoProperties>>(
        &mut self,
        rt: &impl Wait,
        store: &Values<N>,
        session: &mut S,
        key: u64,
        place: usize,
    )
        requires { place < 64 }
    {
        match store.delete(rt, session, &key) {
            Ok(()) => {
                self.table[place] = Last {
                    is_known: true,
                    is_deleted: true,
                    ..self.table[place]
                }
            }
            Err(_) => self.count_fault(),
        }
    }

    fn get<S: Drop, N: Engine<S, u64, Vec<u8>, NoProperties>>(
        &mut self,
        rt: &impl Wait,
        store: &Values<N>,
        session: &mut S,
        key: u64,
        place: usize,
    )
        requires { place < 64 }
    {
        let last = self.table[place];
        match store.load(rt, session, &key, 0) {
            Ok(Load::Entry { value, .. }) => {
                self.found.hits = self.found.hits.saturating_add(1);
                self.count_wrong(may_be_read(key, value.as_slice(), last));
            }
            Ok(Load::Piece { piece, .. }) => {
                self.found.hits = self.found.hits.saturating_add(1);
                self.count_wrong(may_be_kept(key, piece.value().as_slice(), last));
            }
            Ok(Load::Miss) => {}
            Ok(Load::Throttled) => self.count_wrong(false),
            Err(_) => self.count_fault(),
        }
    }

    // Makes the calls: about 20 of 64 are puts, three are deletes, one in a thousand is a wait, and the others are gets.
    pub(super) fn ask<S: Drop, N: Engine<S, u64, Vec<u8>, NoProperties>>(
        &mut self,
        rt: &impl Wait,
        alloc: Global,
        store: &Values<N>,
        session: &mut S,
        plan: Plan,
    ) {
        let mut seed = plan.seed ^ plan.first;
        for _ in 0..plan.calls {
            seed = seed
                .wrapping_mul(6364136223846793005)
                .wrapping_add(1442695040888963407);
            let place = (seed >> 33) as usize % KEYS;
            let key = plan.first.wrapping_add(place as u64);
            match (seed >> 48) % 1024 {
                0 => {
                    if store.wait(rt, session).is_err() {
                        self.count_fault();
                    }
                }
                1..=320 => self.put(rt, alloc, store, session, key, place),
                321..=368 => self.delete(rt, store, session, key, place),
                _ => self.get(rt, store, session, key, place),
            }
        }
        self.found.calls = plan.calls;
    }
}

fn enqueue<S: Drop, N: Engine<S, u64, Vec<u8>, NoProperties>>(
    rt: &impl Wait,
    alloc: Global,
    store: &Values<N>,
    session: &mut S,
    key: u64,
    count: u64,
) -> Result<Enqueued> {
    let value = value_of(alloc, key, count)?;
    store.put(rt, alloc, session, key, value, NoProperties, 0)
}
