//! What the program's threads do with its cache: one answers requests, and others may answer gets.
ghost use Rattle.std.specs.Prelude.{◌≡◌};
ghost use Rattle.foyer_pipe.specs.Answered.{number_of};

use crate::answers::{
    Answered, Answering, Asked, Bytes, BytesHashBuilder, Cache, Patience, answer, close,
    reply_version,
};
use crate::coded::Coded;
use crate::readers::{Gets, answer_gets};
use crate::replies::Replies;
use foyer_device_page::error::Result;
use foyer_format_record::serde::NoProperties;
use foyer_frames::frames::{Filled, Frames, Taken};
use foyer_frames::kind::Kind;
use foyer_frames::request::{Head, Limits};
use foyer_lock::lock_spinning;
use foyer_storage_cores_run::build::config::Engine;
use foyer_storage_cores_run::build::cores::sessions::CallerSession;
use foyer_storage_cores_run::build::counters::AbandonedPuts;
use foyer_storage_cores_run::build::threads::workers::Clock;
use foyer_storage_cores_run::task::StoreTask;
use std::alloc::Global;
use std::io::{Read, Write};
use std::sync::{Mutex, Wait};

// All went well; or bytes were no frame, a frame was cut short, or a stream or the close failed.
const STATUS_OK: u8 = 0;

pub(crate) const STATUS_FAULT: u8 = 1;

// What became of the requests that were read whole.
#[derive(Clone, Copy, PartialEq, Eq)]
enum Went {
    // All are answered.
    Well,
    // Bytes are no frame. No later frame can be found.
    Badly,
}

// Answers a request whose key and value the frames have.
fn answer_head<R, S, N, C, I, O>(
    rt: &R,
    cache: &Cache<N>,
    session: &mut S,
    answering: &Answering<'_, C>,
    frames: &Frames<I, Global>,
    head: Head,
    noticed: &mut AbandonedPuts,
    replies: &Replies<O>,
) -> Answered
where
    R: Wait + std::rt::Clock,
    S: Drop,
    N: Engine<S, Bytes, Bytes, NoProperties>,
    C: Clock,
    I: Read + Drop,
    O: Write + Drop,
    ensures { number_of result ≡ head.number }
{
    let asked = Asked {
        kind: head.kind,
        number: head.number,
        key: frames.key(),
        value: frames.value(),
    };
    answer::<R, S, N, C, O>(rt, cache, session, answering, asked, noticed, replies)
}

// Answers the requests that were read whole.
fn answer_whole<R, S, N, C, I, O>(
    rt: &R,
    cache: &Cache<N>,
    session: &mut S,
    answering: &Answering<'_, C>,
    frames: &mut Frames<I, Global>,
    noticed: &mut AbandonedPuts,
    replies: &Replies<O>,
) -> Went
where
    R: Wait + std::rt::Clock,
    S: Drop,
    N: Engine<S, Bytes, Bytes, NoProperties>,
    C: Clock,
    I: Read + Drop,
    O: Write + Drop,
{
    for _ in 0..u64::MAX {
        match frames.take() {
            Taken::Partial => return Went::Well,
            Taken::Refused(fault) => {
                let _ = replies.write(rt, 0, Coded::of_fault(fault));
                return Went::Badly;
            }
            Taken::Request(head) => {
                let _ = answer_head::<R, S, N, C, I, O>(
                    rt, cache, session, answering, &*frames, head, noticed, replies,
                );
            }
        }
    }
    Went::Badly
}

// Answers every request until the input ends or fails, bytes of it are no frame, or the output fails. Gives whether the input ended after
// a whole frame and all replies could be written. Replies are written out before more input is read, except those that other threads
// write.
fn answer_all<R, S, N, C, I, O>(
    rt: &R,
    cache: &Cache<N>,
    session: &mut S,
    answering: &Answering<'_, C>,
    requests: &mut Requests<I>,
    noticed: &mut AbandonedPuts,
    replies: &Replies<O>,
) -> bool
where
    R: Wait + std::rt::Clock,
    S: Drop,
    N: Engine<S, Bytes, Bytes, NoProperties>,
    C: Clock,
    I: Read + Drop,
    O: Write + Drop,
{
    if let Some(head) = requests.first.take() {
        let _ = answer_head::<R, S, N, C, I, O>(
            rt,
            cache,
            session,
            answering,
            &requests.frames,
            head,
            noticed,
            replies,
        );
    }
    let frames = &mut requests.frames;
    for _ in 0..u64::MAX {
        let went = answer_whole::<R, S, N, C, I, O>(
            rt,
            cache,
            session,
            answering,
            &mut *frames,
            noticed,
            replies,
        );
        if !replies.flush(rt) || went == Went::Badly {
            return false;
        }
        match frames.fill() {
            Ok(Filled::More | Filled::Ready) => {}
            Ok(Filled::End) => return true,
            Ok(Filled::Cut) | Err(_) => return false,
        }
    }
    false
}

/// A caller's requests. The first one may have been taken before the cache was opened: then its key and value are those that the frames
/// have.
pub(crate) struct Requests<I: Read + Drop> {
    frames: Frames<I, Global>,
    first: Option<Head>,
}

// Written out, so that it is proved once.
impl<I: Read + Drop> Drop for Requests<I> {
    fn drop(self) {
        let Requests {
            frames: _,
            first: _,
        } = self;
    }
}

/// Takes a caller's first request before the cache is opened, and answers it if it asks for the version. It reads until it has the whole
/// request, the input ends or fails, or bytes are no frame: the answers to these come once the cache is open.
pub(crate) fn greet<I: Read + Drop, O: Write + Drop>(
    rt: &impl Wait,
    alloc: Global,
    frames: Frames<I, Global>,
    limits: &Limits,
    replies: &Replies<O>,
) -> Requests<I> {
    let mut frames = frames;
    let mut first = None;
    for _ in 0..u64::MAX {
        match frames.take() {
            Taken::Request(head) => {
                if head.kind == Kind::Version {
                    let _ = reply_version(rt, replies, alloc, head.number, limits);
                    let _ = replies.flush(rt);
                } else {
                    first = Some(head);
                }
                break;
            }
            Taken::Refused(_) => break,
            Taken::Partial => match frames.fill() {
                Ok(Filled::More | Filled::Ready) => {}
                Ok(Filled::End | Filled::Cut) | Err(_) => break,
            },
        }
    }
    Requests { frames, first }
}

/// What a thread does.
#[derive(Clone, Copy)]
pub(crate) enum Job {
    /// It answers the requests.
    Requests,
    /// It answers gets that the thread of the requests leaves to it.
    Gets,
}

/// Answers the requests of an input, and then closes the cache. Gives the exit status.
pub(crate) struct PipeTask<C: Clock, I: Read + Drop, O: Write + Drop> {
    alloc: Global,
    clock: C,
    seed: u64,
    limits: Limits,
    // For how many nanoseconds a put waits for room at most.
    patience: u64,
    // Until the thread that answers requests takes it.
    requests: Mutex<Option<Requests<I>>>,
    // Which abandoned puts the caller was told of.
    noticed: Mutex<AbandonedPuts>,
    gets: Gets,
    replies: Replies<O>,
}

// Written out, so that it is proved once.
impl<C: Clock, I: Read + Drop, O: Write + Drop> Drop for PipeTask<C, I, O> {
    fn drop(self) {
        let PipeTask {
            alloc: _,
            clock: _,
            seed: _,
            limits: _,
            patience: _,
            requests: _,
            noticed: _,
            gets: _,
            replies: _,
        } = self;
    }
}

impl<C: Clock, I: Read + Drop, O: Write + Drop> PipeTask<C, I, O> {
    /// Gives a task that answers these requests. The store gets each key after the bytes of the seed. A put waits for room for `patience`
    /// nanoseconds at most.
    pub(crate) fn new(
        alloc: Global,
        clock: C,
        seed: u64,
        limits: Limits,
        patience: u64,
        requests: Requests<I>,
        replies: Replies<O>,
    ) -> PipeTask<C, I, O>
        ensures { (result.seed ≡ seed) × (result.limits ≡ limits) × (result.patience ≡ patience) }
    {
        PipeTask {
            alloc,
            clock,
            seed,
            limits,
            patience,
            requests: Mutex::new(Some(requests)),
            noticed: Mutex::new(AbandonedPuts::default()),
            gets: Gets::new(alloc),
            replies,
        }
    }

    // Answers the requests, and then closes the queue of gets. Gives whether all went well.
    fn answer_requests<R, S, N>(&self, rt: &R, cache: &Cache<N>, session: &mut S) -> bool
    where
        R: Wait + std::rt::Clock,
        S: Drop,
        N: Engine<S, Bytes, Bytes, NoProperties>,
    {
        let mut is_well = false;
        let taken = lock_spinning(&self.requests, rt).take();
        if let Some(mut requests) = taken {
            let answering = Answering {
                alloc: self.alloc,
                gets: &self.gets,
                seed: self.seed,
                limits: self.limits,
                patience: Patience {
                    clock: &self.clock,
                    most: self.patience,
                },
            };
            let mut noticed = AbandonedPuts::default();
            is_well = answer_all::<R, S, N, C, I, O>(
                rt,
                cache,
                session,
                &answering,
                &mut requests,
                &mut noticed,
                &self.replies,
            );
            *lock_spinning(&self.noticed, rt) = noticed;
        }
        self.gets.close(rt);
        is_well
    }
}

impl<T: Wait + std::rt::Clock, C: Clock, I: Read + Drop, O: Write + Drop> StoreTask<
    T,
    Bytes,
    Bytes,
    NoProperties,
    BytesHashBuilder,
> for PipeTask<C, I, O> {
    type Shared = ();

    type Job = Job;

    type Report = bool;

    type Output = u8;

    ghost may_end = { λ _ _. Unit {0} };

    fn begin<S, N>(&self, _rt: &T, _store: &Cache<N>, _session: &mut S) -> Result<()>
    where
        S: CallerSession,
        N: Engine<S, Bytes, Bytes, NoProperties>,
    {
        Ok(())
    }

    fn call<S, N>(&self, rt: &T, store: &Cache<N>, session: &mut S, _shared: &(), job: Job) -> bool
    where
        S: CallerSession,
        N: Engine<S, Bytes, Bytes, NoProperties>,
    {
        match job {
            Job::Requests => self.answer_requests(rt, store, session),
            Job::Gets => {
                answer_gets(rt, store, session, &self.clock, &self.gets, &self.replies);
                true
            }
        }
    }

    fn end<S, N>(
        self,
        rt: &T,
        store: &Cache<N>,
        session: &mut S,
        _shared: (),
        reports: &[bool],
    ) -> u8
    where
        S: CallerSession,
        N: Engine<S, Bytes, Bytes, NoProperties>,
        ensures { Unit {0} }
    {
        let is_well = reports.iter().all(|is_well| *is_well);
        let is_written = self.replies.flush(rt);
        let mut noticed = *lock_spinning(&self.noticed, rt);
        let is_closed = close(rt, store, session, &mut noticed).is_ok();
        if is_well && is_written && is_closed {
            STATUS_OK
        } else {
            STATUS_FAULT
        }
    }
}
