//! The bells and waits by which an engine's workers and callers wait for one another.
use super::counts::WorkCounters;
use super::waits::Waits;
use crate::bell::Bell;
use std::alloc::Allocator;
use std::sync::Wait;

/// The bells of an engine, and the waits of its callers. No call holds one of their locks while it takes another.
pub struct Signals<A: Allocator> {
    /// The bell that is rung when something may be queued at a flusher.
    pub queued: Bell,
    /// The bell that is rung when a reclaim may begin.
    pub reclaims: Bell,
    /// The bell that is rung when a batch, a reclaim or a destroy ended. Then a block may have become clean, or the engine idle.
    pub done: Bell,
    /// The waits that flushers haven't answered yet.
    pub waits: Waits<A>,
    /// The counters of what its threads do.
    pub work: WorkCounters,
}

// Written out, so that it is proved once.
impl<A: Allocator> Drop for Signals<A> {
    fn drop(self) {
        let Signals {
            queued: _,
            reclaims: _,
            done: _,
            waits: _,
            work: _,
        } = self;
    }
}

impl<A: Allocator> Signals<A> {
    /// Makes bells that nobody rang, no waits, and counters of 0.
    pub fn new(alloc: A) -> Signals<A> {
        Signals {
            queued: Bell::new(),
            reclaims: Bell::new(),
            done: Bell::new(),
            waits: Waits::new(alloc),
            work: WorkCounters::new(),
        }
    }

    /// Ends every wait at `done` and in `waits`, and every later one at once. It is called once no worker runs.
    pub fn close(&self, rt: &impl Wait) {
        self.waits.close(rt);
        self.done.close(rt);
    }
}
