//! Waits of callers, which workers answer.
ghost use Rattle.std.specs.Prelude.{◌≡◌, IfOk, IfSome, IsOkUnless};
ghost use Rattle.foyer_device_page.specs.declared.error.Error.TheVariants.{Memory};

use super::wait_table::WaitTable;
pub use super::wait_table::{AnsweredWait, BegunWait, GivenAnswer};
use crate::bell::LOOKS;
use foyer_device_page::error::Result;
use foyer_lock::lock_spinning;
use std::alloc::Allocator;
use std::hint::spin_loop;
use std::sync::{Condvar, Mutex, Wait};

/// Waits of callers, each of which all flushers answer. Threads share it by reference; each call takes its lock, and no other.
pub struct Waits<A: Allocator> {
    table: Mutex<WaitTable<A>>,
    answered: Condvar,
}

// Written out, so that it is proved once.
impl<A: Allocator> Drop for Waits<A> {
    fn drop(self) {
        let Waits {
            table: _,
            answered: _,
        } = self;
    }
}

impl<A: Allocator> Waits<A> {
    /// Makes an empty set of waits.
    pub fn new(alloc: A) -> Waits<A> {
        Waits {
            table: Mutex::new(WaitTable::new(alloc)),
            answered: Condvar::new(),
        }
    }

    /// Begins a wait that this many flushers must answer. Errors: `Memory`.
    pub fn begin(&self, rt: &impl Wait, flushers: u32) -> Result<BegunWait>
        ensures refused { IsOkUnless result Memory }
        ensures flushers { IfOk result (λ wait. wait.flushers ≡ flushers) }
    {
        lock_spinning(&self.table, rt).begin(flushers)
    }

    /// One flusher answers a wait.
    pub fn answer(&self, rt: &impl Wait, id: u64) -> GivenAnswer
        ensures { result.id ≡ id }
    {
        let (is_awaited, given) = lock_spinning(&self.table, rt).answer(id);
        if is_awaited {
            self.answered.notify_all();
        }
        given
    }

    /// Gives a wait up. Later answers to it change nothing.
    pub fn forget(&self, rt: &impl Wait, id: u64) {
        lock_spinning(&self.table, rt).forget(id);
    }

    /// Says that nobody answers any more. This ends every wait, and every later one at once.
    pub fn close(&self, rt: &impl Wait) {
        lock_spinning(&self.table, rt).close();
        self.answered.notify_all();
    }

    // Gives what shows that a wait is over. It gives None if another thread has the lock.
    fn look(&self, id: u64) -> Option<AnsweredWait>
        ensures { IfSome result (λ wait. wait.id ≡ id) }
    {
        match self.table.try_lock() {
            Some(table) => table.answered(id),
            None => None,
        }
    }

    /// Waits until all flushers have answered a wait, or nobody answers any more. If the wait was given up before, it returns at once.
    /// Before the thread sleeps, it polls for some microseconds, in which no answer has to wake it.
    pub fn wait_for(&self, rt: &impl Wait, begun: BegunWait) -> AnsweredWait
        ensures { result.id ≡ begun.id }
    {
        let id = begun.id();
        for _ in 0..LOOKS {
            if let Some(answered) = self.look(id) {
                return answered;
            }
            spin_loop();
        }
        let table = self.answered.wait_while(
            rt,
            lock_spinning(&self.table, rt),
            |table| table.begins_to_wait(id),
        );
        table.over(id)
    }
}
