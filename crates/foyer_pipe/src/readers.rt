//! Threads that answer gets, while another thread reads more requests.
ghost use Rattle.std.specs.Prelude.{◌≡◌, IfErr, IfOk};

use crate::answers::{Bytes, Cache, answer_get};
use crate::replies::Replies;
use foyer_format_record::serde::NoProperties;
use foyer_lock::lock_spinning;
use foyer_storage_cores_run::build::config::Engine;
use foyer_storage_cores_run::build::threads::workers::Clock;
use std::alloc::Global;
use std::collections::VecDeque;
use std::io::Write;
use std::sync::atomic::{AtomicUsize, Ordering};
use std::sync::{Condvar, Mutex, Wait};

// How many gets may wait for each thread.
const WAITING_FOR_EACH: usize = 16;

/// Shows that the get of this number was left to a thread that answers gets. Only `Gets::offer` makes one.
#[derive(Clone, Copy)]
pub(crate) struct Left {
    number: u32,
}

/// A get that waits for a thread: its request's number, and its key.
#[derive(Drop)]
pub(crate) struct Get {
    pub(crate) number: u32,
    pub(crate) key: Bytes,
}

// What the lock guards: the gets that wait, in their order, and whether no more will be added.
struct Queue {
    waiting: VecDeque<Get>,
    is_closed: bool,
}

// Written out, so that it is proved once.
impl Drop for Queue {
    fn drop(self) {
        let Queue {
            waiting: _,
            is_closed: _,
        } = self;
    }
}

impl Queue {
    // Adds a get. Returns the get if `most` gets wait already, or memory is refused.
    fn add(&mut self, get: Get, most: usize) -> std::result::Result<(), Get>
        ensures { IfErr result (λ back. back ≡ get) }
    {
        if self.waiting.len() >= most || self.waiting.reserve(1).is_err() {
            return Err(get);
        }
        self.waiting.push_back_reserved(get);
        Ok(())
    }

    // Whether a thread has to wait.
    fn is_idle(&self) -> bool {
        self.waiting.is_empty() && !self.is_closed
    }
}

/// The gets that wait for the threads that answer gets.
pub(crate) struct Gets {
    queue: Mutex<Queue>,
    changed: Condvar,
    // How many threads have begun.
    readers: AtomicUsize,
}

// Written out, so that it is proved once.
impl Drop for Gets {
    fn drop(self) {
        let Gets {
            queue: _,
            changed: _,
            readers: _,
        } = self;
    }
}

impl Gets {
    /// Gives a queue without gets, before any thread has begun.
    pub(crate) fn new(alloc: Global) -> Gets {
        let queue = Queue {
            waiting: VecDeque::new(alloc),
            is_closed: false,
        };
        Gets {
            queue: Mutex::new(queue),
            changed: Condvar::new(),
            readers: AtomicUsize::new(0),
        }
    }

    /// Whether a thread has begun.
    pub(crate) fn has_readers(&self) -> bool {
        self.readers.load(Ordering::Relaxed) > 0
    }

    /// Leaves a get to a thread. Returns the get if too many wait already, or memory is refused.
    pub(crate) fn offer(&self, rt: &impl Wait, get: Get) -> std::result::Result<Left, Get>
        ensures left { IfOk result (λ left. left.number ≡ get.number) }
        ensures back { IfErr result (λ back. back ≡ get) }
    {
        let number = get.number;
        let readers = self.readers.load(Ordering::Relaxed);
        let most = readers.saturating_mul(WAITING_FOR_EACH);
        lock_spinning(&self.queue, rt).add(get, most)?;
        self.changed.notify_one();
        Ok(Left { number })
    }

    // Waits for a get, and takes the one that has waited longest. None once the queue is closed and empty.
    fn take(&self, rt: &impl Wait) -> Option<Get> {
        let mut queue = self.changed.wait_while(
            rt,
            lock_spinning(&self.queue, rt),
            |queue| queue.is_idle(),
        );
        queue.waiting.pop_front()
    }

    // Whether no get waits.
    fn is_empty(&self, rt: &impl Wait) -> bool {
        lock_spinning(&self.queue, rt).waiting.is_empty()
    }

    /// Closes the queue: the threads end once no get waits.
    pub(crate) fn close(&self, rt: &impl Wait) {
        lock_spinning(&self.queue, rt).is_closed = true;
        self.changed.notify_all();
    }
}

/// Answers gets until the queue is closed and empty. Replies are flushed once no get waits.
pub(crate) fn answer_gets<S, N, C, O>(
    rt: &impl Wait,
    cache: &Cache<N>,
    session: &mut S,
    clock: &C,
    gets: &Gets,
    replies: &Replies<O>,
)
where
    S: Drop,
    N: Engine<S, Bytes, Bytes, NoProperties>,
    C: Clock,
    O: Write + Drop,
{
    let _ = gets.readers.fetch_add(1, Ordering::Relaxed);
    for _ in rt.forever() {
        let Some(get) = gets.take(rt) else {
            return;
        };
        let now = clock.now();
        let _ = answer_get(rt, cache, session, &get, now, replies);
        if gets.is_empty(rt) {
            let _ = replies.flush(rt);
        }
    }
}
