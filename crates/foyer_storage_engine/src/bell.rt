//! A bell: a count of moves. Threads wait at it until the count changes.
ghost use Rattle.std.specs.Prelude.{◌≡◌, ◌↔◌, ◌+◌, ◌%◌, ◌^◌, IsSome, IsTrue, not, true, false};
ghost use Rattle.foyer_storage_engine.specs.Ringing.{is_past};

use foyer_lock::lock_spinning;
use std::hint::spin_loop;
use std::mem;
use std::sync::{Condvar, Mutex, Wait};

// How often a thread looks at a bell or at its wait before it sleeps. The looks take about 25 microseconds, or 60 if the processor pauses
// for longer. A small batch takes less time than this, and so does putting a thread to sleep and waking it.
pub(crate) const LOOKS: u32 = 1000;

/// Shows that a bell was closed, with its count when this was seen. Only a wait at a bell gives one.
#[derive(Clone, Copy, Debug, PartialEq, Eq)]
pub struct BellClosed {
    count: u64,
}

// What the lock guards: a count of moves, whether the bell is closed, and whether a thread has begun to wait since the last move.
#[derive(Drop)]
struct Moves {
    count: u64,
    is_closed: bool,
    is_awaited: bool,
}

impl Moves {
    fn new() -> Moves
        ensures { result ≡ record { count = 0; is_closed = false; is_awaited = false } }
    {
        Moves {
            count: 0,
            is_closed: false,
            is_awaited: false,
        }
    }

    // Counts a move. Gives whether a thread must be woken.
    fn ring(&mut self) -> bool
        ensures moved { self.new ≡ record self.old { count = (self.old.count + 1) % 2 ^ 64; is_awaited = false } }
        ensures awaited { result ≡ self.old.is_awaited }
    {
        self.count = self.count.wrapping_add(1);
        mem::replace(&mut self.is_awaited, false)
    }

    fn close(&mut self)
        ensures { self.new ≡ record self.old { is_closed = true } }
    {
        self.is_closed = true;
    }

    fn is_past(&self, seen: u64) -> bool
        ensures { result ≡ is_past self.now seen }
    {
        self.count != seen || self.is_closed
    }

    // Whether to go on waiting. If so, the next move must wake the thread.
    fn begins_to_wait(&mut self, seen: u64) -> bool
        ensures waits { result ≡ not (is_past self.old seen) }
        ensures awaited { result ≡ true → self.new ≡ record self.old { is_awaited = true } }
        ensures same { result ≡ false → self.new ≡ self.old }
    {
        if self.is_past(seen) {
            return false;
        }
        self.is_awaited = true;
        true
    }

    // What a wait gives at its end. The count must be past `seen`, or the bell closed.
    fn closed_past(&self, seen: u64) -> Option<BellClosed>
        requires { IsTrue (is_past self.now seen) }
        ensures { IsSome result ↔ IsTrue self.now.is_closed }
    {
        if !self.is_closed {
            return None;
        }
        Some(BellClosed { count: self.count })
    }
}

/// A count of moves, which threads share by reference. A thread remembers the count and tries its step. If it can't make the step, it
/// waits until the count is another. So it misses no move between the try and the wait. Each call takes the bell's lock, and no other.
pub struct Bell {
    moves: Mutex<Moves>,
    moved: Condvar,
}

// Written out, so that it is proved once.
impl Drop for Bell {
    fn drop(self) {
        let Bell { moves: _, moved: _ } = self;
    }
}

impl Bell {
    /// A bell that has counted nothing.
    pub fn new() -> Bell {
        Bell {
            moves: Mutex::new(Moves::new()),
            moved: Condvar::new(),
        }
    }

    /// Counts a move, and wakes all who wait. After 2^64 - 1 the count wraps to 0.
    pub fn ring(&self, rt: &impl Wait) {
        let is_awaited = lock_spinning(&self.moves, rt).ring();
        if is_awaited {
            self.moved.notify_all();
        }
    }

    /// Closes the bell for good, and wakes all who wait.
    pub fn close(&self, rt: &impl Wait) {
        lock_spinning(&self.moves, rt).close();
        self.moved.notify_all();
    }

    /// The count, to be remembered before a step is tried.
    pub fn count(&self, rt: &impl Wait) -> u64 {
        lock_spinning(&self.moves, rt).count
    }

    // Gives what a wait gives, if the wait may end. It also gives None if another thread is at the bell.
    fn look_past(&self, seen: u64) -> Option<Option<BellClosed>> {
        let Some(moves) = self.moves.try_lock() else {
            return None;
        };
        if moves.is_past(seen) {
            Some(moves.closed_past(seen))
        } else {
            None
        }
    }

    /// Waits until the count differs from `seen`, or the bell is closed. Gives true if the bell is closed.
    pub fn wait_past(&self, rt: &impl Wait, seen: u64) -> bool {
        self.closed_past(rt, seen).is_some()
    }

    /// Waits as `wait_past` does, and gives a `BellClosed` if the bell is closed. Before the thread sleeps, it polls for some
    /// microseconds, in which no ring has to wake it.
    pub fn closed_past(&self, rt: &impl Wait, seen: u64) -> Option<BellClosed> {
        for _ in 0..LOOKS {
            if let Some(closed) = self.look_past(seen) {
                return closed;
            }
            spin_loop();
        }
        let moves = self.moved.wait_while(
            rt,
            lock_spinning(&self.moves, rt),
            |moves| moves.begins_to_wait(seen),
        );
        moves.closed_past(seen)
    }
}
