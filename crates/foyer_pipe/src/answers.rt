//! The answers to requests, by a store.
ghost use Rattle.std.specs.Prelude.{◌≡◌, ◌⊎◌, Bool, Result, IfErr, IfOk};
ghost use Rattle.std.specs.Arc.{arc_value};
ghost use Rattle.foyer_device_page.specs.declared.error.Error.{Error};
ghost use Rattle.foyer_frames.specs.declared.kind.Kind.TheVariants as kind;
ghost use Rattle.foyer_format_checksum.specs.Xxh64.{xxh64};
ghost use Rattle.foyer_pipe.specs.Answered.{number_of};
ghost use Rattle.foyer_pipe.specs.Codes.{done_unless_abandoned};
ghost use Rattle.foyer_pipe.specs.Keys.{seeded_key};

use crate::coded::{Coded, done_unless_abandoned};
use crate::readers::{Get, Gets, Left};
use crate::replies::{Replied, Replies};
use foyer_cli::options::VERSION;
use foyer_device_page::error::Result;
use foyer_format_checksum::Checksummer;
use foyer_format_record::serde::{HashBuilder, NoProperties};
use foyer_frames::greeting::greeting_bytes;
use foyer_frames::kind::Kind;
use foyer_frames::request::Limits;
use foyer_storage_cores_run::build::config::Engine;
use foyer_storage_cores_run::build::counters::{AbandonedPuts, StoreCounters};
use foyer_storage_cores_run::build::engine::engine::Enqueued;
use foyer_storage_cores_run::build::store::Store;
use foyer_storage_cores_run::build::threads::workers::Clock;
use std::alloc::Global;
use std::fmt::Write as _;
use std::io::Write;
use std::sync::Wait;
use std::thread;
use std::time::Duration;

// How long a put that waits for room sleeps before it looks again, in microseconds.
const PAUSE: u64 = 200;

/// A key, or a value.
pub(crate) type Bytes = Vec<u8, Global>;

/// The hash of a key is the XXH64 of its bytes.
#[derive(Clone, Copy, Debug)]
pub struct BytesHashBuilder;

impl HashBuilder<Bytes> for BytesHashBuilder {
    ghost hash_of = { λ _ key. xxh64 key.items };

    fn hash_one(&self, key: &Bytes) -> u64 {
        Checksummer::checksum64(key.as_slice())
    }
}

/// The store that the program uses.
pub(crate) type Cache<N> = Store<N, Bytes, Bytes, NoProperties, BytesHashBuilder>;

fn bytes_of(alloc: Global, bytes: &[u8]) -> Result<Bytes>
    ensures { IfOk result (λ kept. kept.items ≡ bytes.now) }
{
    Ok(Vec::from_slice(alloc, bytes)?)
}

// A key as the store gets it: after the eight bytes of the seed, the lowest first, or alone if the seed is 0.
fn key_of(alloc: Global, seed: u64, key: &[u8]) -> Result<Bytes>
    ensures { IfOk result (λ kept. kept.items ≡ seeded_key seed key.now) }
{
    if seed == 0 {
        return bytes_of(alloc, key);
    }
    let mut kept = bytes_of(alloc, &seed.to_le_bytes())?;
    kept.extend_from_slice(key)?;
    Ok(kept)
}

/// What answers a request: a reply was written, or a get was left to another thread, which writes it.
#[derive(Clone, Copy)]
pub(crate) enum Answered {
    Replied(Replied),
    Left(Left),
}

/// How long a put waits for room in the queue, and by which clock.
#[derive(Drop)]
pub(crate) struct Patience<'a, C: Clock> {
    pub(crate) clock: &'a C,
    /// For how many nanoseconds at most. With 0 it doesn't look.
    pub(crate) most: u64,
}

// Waits until a put of this key would find room in the queue, or so long as it may. What was replied before is written out first.
fn wait_for_room<R, S, N, C, O>(
    rt: &R,
    cache: &Cache<N>,
    key: &Bytes,
    patience: &Patience<'_, C>,
    replies: &Replies<O>,
)
where
    R: Wait + std::rt::Clock,
    S: Drop,
    N: Engine<S, Bytes, Bytes, NoProperties>,
    C: Clock,
    O: Write + Drop,
{
    if patience.most == 0 || cache.has_room::<S>(rt, key) {
        return;
    }
    let _ = replies.flush(rt);
    let until = patience.clock.now().saturating_add(patience.most);
    for _ in rt.forever() {
        thread::sleep(rt, Duration::from_micros(PAUSE));
        if cache.has_room::<S>(rt, key) || patience.clock.now() >= until {
            return;
        }
    }
}

// Puts a value under a key. If it isn't taken, the key is deleted at once, with what is queued of it.
fn put<S: Drop, N: Engine<S, Bytes, Bytes, NoProperties>>(
    rt: &impl Wait,
    alloc: Global,
    cache: &Cache<N>,
    session: &mut S,
    key: Bytes,
    value: &[u8],
    now: u64,
) -> Result<Enqueued> {
    let value = bytes_of(alloc, value)?;
    let piece = cache.piece(alloc, key, value, NoProperties)?;
    let enqueued = cache.enqueue(rt, session, &piece, false, now)?;
    if let Enqueued::Deleted = enqueued {
        cache.remove(rt, session, piece.key())?;
    }
    Ok(enqueued)
}

/// Answers a get at the moment `now`.
pub(crate) fn answer_get<S: Drop, N: Engine<S, Bytes, Bytes, NoProperties>, O: Write + Drop>(
    rt: &impl Wait,
    cache: &Cache<N>,
    session: &mut S,
    get: &Get,
    now: u64,
    replies: &Replies<O>,
) -> Replied
    ensures { result.number ≡ get.now.number }
{
    let got = cache.load(rt, session, &get.key, now);
    replies.write(rt, get.number, Coded::of_load(&got))
}

// Leaves a get to a thread that answers gets. If none runs, too many gets wait, or memory is refused, answers it here.
fn answer_or_leave<S: Drop, N: Engine<S, Bytes, Bytes, NoProperties>, O: Write + Drop>(
    rt: &impl Wait,
    cache: &Cache<N>,
    session: &mut S,
    gets: &Gets,
    get: Get,
    now: u64,
    replies: &Replies<O>,
) -> Answered
    ensures { number_of result ≡ get.number }
{
    if !gets.has_readers() {
        return Answered::Replied(answer_get(rt, cache, session, &get, now, replies));
    }
    match gets.offer(rt, get) {
        Ok(left) => Answered::Left(left),
        Err(get) => Answered::Replied(answer_get(rt, cache, session, &get, now, replies)),
    }
}

// A count and its name.
#[derive(Clone, Copy)]
struct Counted {
    name: &'static str,
    count: u64,
}

fn counter(name: &'static str, count: u64) -> Counted {
    Counted { name, count }
}

// The number, or 0 if it is negative.
fn positive(number: i32) -> u64 {
    u64::try_from(number).unwrap_or(0)
}

// The counters of the device and of the cache's threads.
fn work_of(c: &StoreCounters) -> [Counted; 13] {
    [
        counter("disk_write_bytes", c.disk_write_bytes),
        counter("disk_read_bytes", c.disk_read_bytes),
        counter("disk_write_ios", c.disk_write_ios),
        counter("disk_read_ios", c.disk_read_ios),
        counter("batches", c.batches),
        counter("failed_blocks", c.failed_blocks),
        counter("reclaims", c.reclaims),
        counter("reinsertions", c.reinsertions),
        counter("failed_appends", c.failed_appends),
        counter("abandoned_by_writes", c.abandoned_by_writes),
        counter("abandoned_by_memory", c.abandoned_by_memory),
        counter("last_write_error", positive(c.last_write_error)),
        counter("last_read_error", positive(c.last_read_error)),
    ]
}

// The counters of puts, deletes and gets.
fn calls_of(c: &StoreCounters) -> [Counted; 10] {
    [
        counter("queued_puts", c.queued_puts),
        counter("ignored_puts", c.ignored_puts),
        counter("dropped_puts", c.dropped_puts),
        counter("rejected_puts", c.rejected_puts),
        counter("returned_puts", c.returned_puts),
        counter("deletes", c.deletes),
        counter("memory_hits", c.memory_hits),
        counter("device_hits", c.device_hits),
        counter("misses", c.misses),
        counter("throttled_loads", c.throttled_loads),
    ]
}

// A line for each counter: its name, a space, its number.
fn write_lines(text: &mut String, counters: &[Counted]) -> Result<()> {
    for counter in counters.iter() {
        text.push_str(counter.name)?;
        write!(text, " {}\n", counter.count)?;
    }
    Ok(())
}

fn text_of(alloc: Global, counters: &StoreCounters) -> Result<String> {
    let mut text = String::new(alloc);
    write_lines(&mut text, &work_of(counters))?;
    write_lines(&mut text, &calls_of(counters))?;
    Ok(text)
}

fn reply_counters<O: Write + Drop>(
    rt: &impl Wait,
    replies: &Replies<O>,
    alloc: Global,
    number: u32,
    counters: &StoreCounters,
) -> Replied
    ensures { result.number ≡ number }
{
    match text_of(alloc, counters) {
        Ok(text) => replies.write(rt, number, Coded::of_bytes(text.as_bytes())),
        Err(error) => replies.write(rt, number, Coded::of_error(error)),
    }
}

/// Answers a request for the version: what program this is, and what it takes in a frame.
pub(crate) fn reply_version<O: Write + Drop>(
    rt: &impl Wait,
    replies: &Replies<O>,
    alloc: Global,
    number: u32,
    limits: &Limits,
) -> Replied
    ensures { result.number ≡ number }
{
    match greeting_bytes(alloc, limits, VERSION.trim()) {
        Ok(bytes) => replies.write(rt, number, Coded::of_bytes(&bytes)),
        Err(error) => replies.write(rt, number, Coded::of_error(error.into())),
    }
}

/// A request. Its key and its value are slices of the frame.
#[derive(Clone, Copy)]
pub(crate) struct Asked<'a> {
    pub(crate) kind: Kind,
    pub(crate) number: u32,
    pub(crate) key: &'a [u8],
    pub(crate) value: &'a [u8],
}

// Answers a request that has a key, or leaves a get to a thread that answers gets. A delete takes what is queued of its key away, too.
fn answer_keyed<R, S, N, C, O>(
    rt: &R,
    alloc: Global,
    cache: &Cache<N>,
    session: &mut S,
    gets: &Gets,
    asked: Asked<'_>,
    key: Bytes,
    patience: &Patience<'_, C>,
    replies: &Replies<O>,
) -> Answered
where
    R: Wait + std::rt::Clock,
    S: Drop,
    N: Engine<S, Bytes, Bytes, NoProperties>,
    C: Clock,
    O: Write + Drop,
    ensures deletes { asked.entry.kind ≡ kind.Delete → (deleted : Result (Unit {0}) Error)
        × N.may_delete (arc_value cache.now.shared).engine session.old session.new (xxh64 key.items) deleted }
    ensures asks { asked.entry.kind ≡ kind.Contains → (session.new ≡ session.old)
        ⊎ ((has : Result Bool Error) × N.may_ask (arc_value cache.now.shared).engine session.old session.new (xxh64 key.items) has) }
    ensures number { number_of result ≡ asked.entry.number }
{
    let number = asked.number;
    match asked.kind {
        Kind::Put => {
            wait_for_room::<R, S, N, C, O>(rt, cache, &key, patience, replies);
            let now = patience.clock.now();
            let put = put(rt, alloc, cache, session, key, asked.value, now);
            Answered::Replied(replies.write(rt, number, Coded::of_put(&put)))
        }
        Kind::Delete => {
            let deleted = cache.remove(rt, session, &key);
            Answered::Replied(replies.write(rt, number, Coded::of_done(&deleted)))
        }
        Kind::Contains => {
            let has = cache.may_contains(rt, session, &key);
            Answered::Replied(replies.write(rt, number, Coded::of_whether(&has)))
        }
        _ => {
            let get = Get { number, key };
            let now = patience.clock.now();
            answer_or_leave(rt, cache, session, gets, get, now, replies)
        }
    }
}

/// Whether puts were abandoned since the moment at which this caller was told last, which is now.
pub(crate) fn notice_abandoned<S: Drop, N: Engine<S, Bytes, Bytes, NoProperties>>(
    rt: &impl Wait,
    cache: &Cache<N>,
    noticed: &mut AbandonedPuts,
) -> bool {
    let abandoned = cache.abandoned::<S>(rt);
    let since = abandoned.since(&*noticed);
    *noticed = abandoned;
    !since.is_none()
}

// Waits until what was put is written or given up. `Io` if puts were abandoned since this caller was told last.
fn wait<S: Drop, N: Engine<S, Bytes, Bytes, NoProperties>>(
    rt: &impl Wait,
    cache: &Cache<N>,
    session: &mut S,
    noticed: &mut AbandonedPuts,
) -> Result<()>
    ensures { (waited : Result (Unit {0}) Error) × N.may_wait (arc_value cache.now.shared).engine session.old session.new waited
        × (abandoned : Bool) × (result ≡ done_unless_abandoned waited abandoned) }
{
    let waited = cache.wait(rt, session);
    let is_abandoned = waited.is_ok() && notice_abandoned::<S, N>(rt, cache, noticed);
    done_unless_abandoned(waited, is_abandoned)
}

/// Closes the cache. `Io` if puts were abandoned since this caller was told last.
pub(crate) fn close<S: Drop, N: Engine<S, Bytes, Bytes, NoProperties>>(
    rt: &impl Wait,
    cache: &Cache<N>,
    session: &mut S,
    noticed: &mut AbandonedPuts,
) -> Result<()>
    ensures { (closed : Result (Unit {0}) Error) × N.may_close (arc_value cache.now.shared).engine session.old session.new closed
        × (abandoned : Bool) × (result ≡ done_unless_abandoned closed abandoned) }
{
    let closed = cache.close(rt, session);
    let is_abandoned = closed.is_ok() && notice_abandoned::<S, N>(rt, cache, noticed);
    done_unless_abandoned(closed, is_abandoned)
}

/// What a caller's requests are answered with, besides the cache.
#[derive(Drop)]
pub(crate) struct Answering<'a, C: Clock> {
    pub(crate) alloc: Global,
    pub(crate) gets: &'a Gets,
    /// A number that each key is prefixed with, or 0.
    pub(crate) seed: u64,
    /// The most bytes of a key and of a value in a frame.
    pub(crate) limits: Limits,
    pub(crate) patience: Patience<'a, C>,
}

/// Answers a request, or leaves a get to a thread that answers gets. The store gets each key after the bytes of the seed, or alone if the
/// seed is 0.
pub(crate) fn answer<R, S, N, C, O>(
    rt: &R,
    cache: &Cache<N>,
    session: &mut S,
    answering: &Answering<'_, C>,
    asked: Asked<'_>,
    noticed: &mut AbandonedPuts,
    replies: &Replies<O>,
) -> Answered
where
    R: Wait + std::rt::Clock,
    S: Drop,
    N: Engine<S, Bytes, Bytes, NoProperties>,
    C: Clock,
    O: Write + Drop,
    ensures { number_of result ≡ asked.entry.number }
{
    let number = asked.number;
    let alloc = answering.alloc;
    match asked.kind {
        Kind::Put | Kind::Get | Kind::Delete | Kind::Contains => {
            match key_of(alloc, answering.seed, asked.key) {
                Ok(key) => answer_keyed::<R, S, N, C, O>(
                    rt,
                    alloc,
                    cache,
                    session,
                    answering.gets,
                    asked,
                    key,
                    &answering.patience,
                    replies,
                ),
                Err(error) => Answered::Replied(replies.write(rt, number, Coded::of_error(error))),
            }
        }
        Kind::Wait => {
            let waited = wait(rt, cache, session, noticed);
            Answered::Replied(replies.write(rt, number, Coded::of_done(&waited)))
        }
        Kind::Counters => {
            let counters = cache.counters::<S>(rt, answering.patience.clock.now());
            Answered::Replied(reply_counters(rt, replies, alloc, number, &counters))
        }
        Kind::Destroy => {
            let destroyed = cache.destroy(rt, session);
            Answered::Replied(replies.write(rt, number, Coded::of_done(&destroyed)))
        }
        Kind::Close => {
            let closed = close(rt, cache, session, noticed);
            Answered::Replied(replies.write(rt, number, Coded::of_done(&closed)))
        }
        Kind::Version => Answered::Replied(reply_version(
            rt,
            replies,
            alloc,
            number,
            &answering.limits,
        )),
    }
}
