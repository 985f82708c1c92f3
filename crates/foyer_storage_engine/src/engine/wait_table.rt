//! The waits that aren't answered, as their lock guards them, and values that show that a wait was begun, answered or ended.
ghost use Rattle.std.specs.Prelude.{◌≡◌, ◌+◌, ◌%◌, ◌^◌, ◌++◌, ◌∷◌, [], ◌↔◌, true, false, not, IfOk, IfSome, IsOkUnless, IsSome, IsTrue, OnErr};
ghost use Rattle.foyer_device_page.specs.declared.error.Error.TheVariants.{Memory};
ghost use Rattle.foyer_storage_engine.specs.Waiting.{is_over, place_of, IsAnsweredAt, IsForgottenAt};

use foyer_device_page::error::Result;
use std::alloc::Allocator;
use std::mem;

// A wait, and how many flushers haven't answered it yet.
#[derive(Clone, Copy, Debug, PartialEq, Eq)]
struct OpenWait {
    id: u64,
    left: u32,
}

/// A wait that was begun: its number, and how many flushers must answer it.
#[derive(Clone, Copy, Debug, PartialEq, Eq)]
pub struct BegunWait {
    id: u64,
    flushers: u32,
}

impl BegunWait {
    /// The number by which flushers answer it.
    pub fn id(&self) -> u64
        ensures { result ≡ self.now.id }
    {
        self.id
    }
}

/// Shows that all flushers have answered a wait, that it was given up, or that nobody answers any more. Only the end of a wait gives one.
#[derive(Clone, Copy, Debug, PartialEq, Eq)]
pub struct AnsweredWait {
    id: u64,
}

/// Shows that a flusher answered a wait. Only `Waits::answer` gives one.
#[derive(Drop)]
pub struct GivenAnswer {
    id: u64,
}

// What the lock guards: the number of the next wait, the waits that aren't answered, and two flags. One says whether no wait is answered
// any more, the other whether a caller has begun to wait since a wait last ended.
#[derive(Drop)]
pub(crate) struct WaitTable<A: Allocator> {
    next: u64,
    waiting: Vec<OpenWait, A>,
    is_closed: bool,
    is_awaited: bool,
}

// Gives the place of a wait in a list.
fn place_of(waiting: &[OpenWait], id: u64) -> Option<usize>
    ensures { result ≡ place_of waiting.now id }
{
    waiting.iter().position(|wait| wait.id == id)
}

impl<A: Allocator> WaitTable<A> {
    pub(crate) fn new(alloc: A) -> WaitTable<A>
        ensures { (result.waiting.items ≡ []) × (result.is_closed ≡ false) }
    {
        WaitTable {
            next: 0,
            waiting: Vec::new(alloc),
            is_closed: false,
            is_awaited: false,
        }
    }

    // Begins a wait that this many flushers must answer. Errors: `Memory`.
    pub(crate) fn begin(&mut self, flushers: u32) -> Result<BegunWait>
        ensures refused { IsOkUnless result Memory }
        ensures next { IfOk result (λ _. self.new.next ≡ (self.old.next + 1) % 2 ^ 64) }
        ensures wait { IfOk result (λ wait. (wait.id ≡ self.old.next) × (wait.flushers ≡ flushers)) }
        ensures added { IfOk result (λ _. self.new.waiting.items ≡ self.old.waiting.items ++ record { id = self.old.next; left = flushers } ∷ []) }
        ensures same { OnErr result ((self.new.waiting.items ≡ self.old.waiting.items) × (self.new.next ≡ self.old.next)) }
    {
        let id = self.next;
        self.waiting.push(OpenWait { id, left: flushers })?;
        self.next = id.wrapping_add(1);
        Ok(BegunWait { id, flushers })
    }

    // One flusher answers a wait. Gives whether callers must be woken. Nothing changes if the wait isn't there, since its caller gave it
    // up.
    fn count_answer(&mut self, id: u64) -> bool
        ensures { IsAnsweredAt (place_of self.old.waiting.items id) self.old self.new result }
    {
        let Some(place) = place_of(&self.waiting, id) else {
            return false;
        };
        let left = self.waiting[place].left;
        if left > 1 {
            self.waiting[place].left = left - 1;
            return false;
        }
        let _ = self.waiting.swap_remove(place);
        mem::replace(&mut self.is_awaited, false)
    }

    // Counts an answer, and gives what shows it beside whether callers must be woken.
    pub(crate) fn answer(&mut self, id: u64) -> (bool, GivenAnswer)
        ensures counted { IsAnsweredAt (place_of self.old.waiting.items id) self.old self.new result.0 }
        ensures own { result.1.id ≡ id }
    {
        (self.count_answer(id), GivenAnswer { id })
    }

    // Nobody answers any more.
    pub(crate) fn close(&mut self)
        ensures { self.new ≡ record self.old { is_closed = true } }
    {
        self.is_closed = true;
    }

    // Gives a wait up.
    pub(crate) fn forget(&mut self, id: u64)
        ensures { IsForgottenAt (place_of self.old.waiting.items id) self.old self.new }
    {
        if let Some(place) = place_of(&self.waiting, id) {
            let _ = self.waiting.swap_remove(place);
        }
    }

    // Whether all have answered a wait, or it was given up, or nobody answers any more.
    fn is_over(&self, id: u64) -> bool
        ensures { result ≡ is_over self.now id }
    {
        self.is_closed || place_of(&self.waiting, id).is_none()
    }

    // Gives what shows that a wait is over, if it is over.
    pub(crate) fn answered(&self, id: u64) -> Option<AnsweredWait>
        ensures over { IsSome result ↔ IsTrue (is_over self.now id) }
        ensures own { IfSome result (λ wait. wait.id ≡ id) }
    {
        if !self.is_over(id) {
            return None;
        }
        Some(AnsweredWait { id })
    }

    // Gives what shows that a wait is over. The wait must be over.
    pub(crate) fn over(&self, id: u64) -> AnsweredWait
        requires { IsTrue (is_over self.now id) }
        ensures { result.id ≡ id }
    {
        AnsweredWait { id }
    }

    // Whether to go on waiting. If so, the caller must be woken when a wait ends.
    pub(crate) fn begins_to_wait(&mut self, id: u64) -> bool
        ensures waits { result ≡ not (is_over self.old id) }
        ensures awaited { result ≡ true → self.new ≡ record self.old { is_awaited = true } }
        ensures same { result ≡ false → self.new ≡ self.old }
    {
        if self.is_over(id) {
            return false;
        }
        self.is_awaited = true;
        true
    }
}
