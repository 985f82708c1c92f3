//! Counts of the pieces that were queued at each flusher and that left it, and the last place for each class of hashes.
ghost use Rattle.std.specs.Prelude.{◌≡◌, ◌⊎◌, ◌+◌, ◌%◌, ◌^◌, ◌<◌, ◌≤◌, ℕ, ◌==◌, if◌then◌else◌, IfErr, IfOk, IfSome, is_some, false, length, slice_index, true, vec_len};
ghost use Rattle.foyer_core_threads.specs.Queued as noted;
ghost use Rattle.foyer_core_threads.specs.Queued.{AreNone, FitsEnded, FitsPassed, FitsQueued, HasNoted, HasSeenLeave};
ghost use Rattle.foyer_device_page.specs.declared.error.Error.TheVariants.{Memory};

use foyer_core_steps::reply::Reply;
use foyer_core_told::queued::Moving;
use foyer_device_page::error::Result;
use std::alloc::Allocator;
use std::marker::Model;

// About how many classes of hashes there are.
const CLASSES: usize = 65_536;

/// For each flusher, how many pieces were queued at it, and how many left it. For each class of hashes, a place not before that of the last
/// piece that was queued. The class of a hash is its remainder by the number of classes. This number is a multiple of the number of flushers, so
/// all hashes of a class belong to one flusher.
pub struct QueuedPlaces<A: Allocator> {
    // By class, at least the place of the last piece that was queued, among those of its flusher, from 1 on.
    last: Vec<u64, A>,
    // By flusher, how many were queued.
    queued: Vec<u64, A>,
    // By flusher, how many left it.
    returned: Vec<u64, A>,
    // By flusher, how many left it from the front of its queue since its last batch began.
    passed: Vec<u64, A>,
    // By flusher, up to which place all had left it when a batch ended.
    left: Vec<u64, A>,
    // Whether a count passed 64 bits, or the flusher of a step wasn't there. Nothing is known from then on.
    is_lost: bool,
}

// Written out, so that it is proved once.
impl<A: Allocator> Drop for QueuedPlaces<A> {
    fn drop(self) {
        let QueuedPlaces {
            last: _,
            queued: _,
            returned: _,
            passed: _,
            left: _,
            is_lost: _,
        } = self;
    }
}

impl<A: Allocator> Model for QueuedPlaces<A> {
    ghost use Rattle.std.specs.Prelude.{◌≡◌, length};
    ghost use Rattle.foyer_core_threads.specs.Queued.{AreClassed, Noted};

    ghost Value = { Noted };

    ghost view = { λ n. record { last = n.last.items; queued = n.queued.items; returned = n.returned.items; passed = n.passed.items; left = n.left.items; is_lost = n.is_lost } };

    ghost invariant = { λ n. AreClassed n.last.items n.queued.items };
}

/// All pieces of a hash have left their flusher.
#[derive(Clone, Copy)]
pub(crate) struct Left;

/// Places at which nothing was queued yet.
pub struct NoneQueued<A: Allocator> {
    places: QueuedPlaces<A>,
    ghost none: { AreNone places },
}

// Written out, so that it is proved once.
impl<A: Allocator> Drop for NoneQueued<A> {
    fn drop(self) {
        let NoneQueued { places: _ } = self;
    }
}

impl<A: Allocator + Clone> NoneQueued<A> {
    /// Gives places for this many flushers. Errors: `Memory` alone.
    pub fn new(alloc: &A, flushers: u32) -> Result<NoneQueued<A>>
        ensures refused { IfErr result (λ e. e ≡ Memory) }
    {
        let last = zeros(alloc.clone()?, classes_for(flushers as usize))?;
        let queued = zeros(alloc.clone()?, flushers as usize)?;
        let returned = zeros(alloc.clone()?, flushers as usize)?;
        let passed = zeros(alloc.clone()?, flushers as usize)?;
        let left = zeros(alloc.clone()?, flushers as usize)?;
        let places = QueuedPlaces {
            last,
            queued,
            returned,
            passed,
            left,
            is_lost: false,
        };
        Ok(NoneQueued { places })
    }
}

impl<A: Allocator> NoneQueued<A> {
    // The places.
    pub(crate) fn into_places(self) -> QueuedPlaces<A>
        ensures { AreNone result }
    {
        let NoneQueued { places } = self;
        places
    }
}

// How many classes of hashes there are for this many flushers: a multiple of the number of flushers.
#[tactic(auto, using(crate::proofs::ClassLemmas::whole_part))]
fn classes_for(flushers: usize) -> usize
    ensures some { 0 < result }
    ensures whole { 0 < flushers → result % flushers ≡ 0 }
{
    if flushers == 0 {
        return CLASSES;
    }
    if flushers >= CLASSES {
        return flushers;
    }
    CLASSES - CLASSES % flushers
}

// Gives this many zeros.
fn zeros<A: Allocator>(alloc: A, count: usize) -> Result<Vec<u64, A>>
    ensures zeros { IfOk result (λ v. (r : ℕ) → slice_index v.items r ≡ 0) }
    ensures len { IfOk result (λ v. vec_len v ≡ count) }
    ensures refused { IfErr result (λ e. e ≡ Memory) }
{
    Ok(vec![in alloc; 0u64; count]?)
}

// Adds to a number, if it is there and the sum has 64 bits.
fn raise<A: Allocator>(numbers: &mut Vec<u64, A>, at: usize, by: usize) -> bool
    ensures len { length numbers.new.items ≡ length numbers.old.items }
    ensures grown { (r : ℕ) → slice_index numbers.old.items r ≤ slice_index numbers.new.items r }
    ensures fits { at < length numbers.old.items → slice_index numbers.old.items at + by < 2 ^ 64 → result ≡ true }
    ensures raised { result ≡ true → (r : ℕ) → slice_index numbers.new.items r ≡ slice_index numbers.old.items r + (if at == r then by else 0) }
{
    if at >= numbers.len() {
        return false;
    }
    match numbers[at].checked_add(by as u64) {
        Some(sum) => {
            numbers[at] = sum;
            true
        }
        None => false,
    }
}

// Puts a number, if it is there.
fn put<A: Allocator>(numbers: &mut Vec<u64, A>, at: usize, number: u64) -> bool
    ensures len { length numbers.new.items ≡ length numbers.old.items }
    ensures fits { at < length numbers.old.items → result ≡ true }
    ensures put { result ≡ true → (r : ℕ) → slice_index numbers.new.items r ≡ (if at == r then number else slice_index numbers.old.items r) }
{
    if at >= numbers.len() {
        return false;
    }
    numbers[at] = number;
    true
}

// Makes a number at least as great as another one.
fn lift<A: Allocator>(numbers: &mut Vec<u64, A>, at: usize, number: u64)
    ensures len { length numbers.new.items ≡ length numbers.old.items }
    ensures lifted { (r : ℕ) → slice_index numbers.old.items r ≤ slice_index numbers.new.items r }
    ensures reached { at < length numbers.old.items → number ≤ slice_index numbers.new.items at }
    ensures bound { (r : ℕ) → (slice_index numbers.new.items r ≡ slice_index numbers.old.items r) ⊎ ((at ≡ r) × (slice_index numbers.new.items r ≡ number)) }
{
    if at < numbers.len() && numbers[at] < number {
        numbers[at] = number;
    }
}

// A number, or 0 if it isn't there.
fn number_at(numbers: &[u64], at: usize) -> u64
    ensures { result ≡ slice_index numbers.now at }
{
    match numbers.get(at) {
        Some(number) => *number,
        None => 0,
    }
}

impl<A: Allocator> QueuedPlaces<A> {
    // The class of a hash.
    fn class_of(&self, hash: u64) -> usize
        ensures { result ≡ noted.class_of self.now hash }
    {
        (hash % self.last.len() as u64) as usize
    }

    // A piece of this hash was queued.
    #[tactic(auto, using(crate::proofs::ClassLemmas::added))]
    fn add(&mut self, hash: u64)
        ensures kept { self.new.is_lost ≡ false → self.old.is_lost ≡ false }
        ensures same { (self.new.returned ≡ self.old.returned) × (self.new.passed ≡ self.old.passed) × (self.new.left ≡ self.old.left) }
        ensures len { length self.new.queued ≡ length self.old.queued }
        ensures there { self.new.is_lost ≡ false → hash % length self.old.queued < length self.old.queued }
        ensures keeps { self.old.is_lost ≡ false → FitsQueued hash self.old → self.new.is_lost ≡ false }
        ensures queued { self.new.is_lost ≡ false → (r : ℕ) → slice_index self.new.queued r ≡ slice_index self.old.queued r + (if hash % length self.old.queued == r then 1 else 0) }
        ensures last { (r : ℕ) → slice_index self.old.last r ≤ slice_index self.new.last r }
        ensures classes { length self.new.last ≡ length self.old.last }
        ensures placed { slice_index self.new.queued (hash % length self.old.queued) ≤ slice_index self.new.last (noted.class_of self.new hash) }
    {
        let flushers = self.queued.len() as u64;
        if flushers == 0 {
            self.is_lost = true;
            return;
        }
        let class = self.class_of(hash);
        let flusher = (hash % flushers) as usize;
        if !raise(&mut self.queued, flusher, 1) {
            self.is_lost = true;
        }
        let place = number_at(&self.queued, flusher);
        lift(&mut self.last, class, place);
    }

    // A piece left this flusher from the front of its queue.
    fn pass(&mut self, flusher: usize)
        ensures kept { self.new.is_lost ≡ false → self.old.is_lost ≡ false }
        ensures same { (self.new.queued ≡ self.old.queued) × (self.new.last ≡ self.old.last) × (self.new.left ≡ self.old.left) }
        ensures returned { self.new.is_lost ≡ false → (r : ℕ) → slice_index self.new.returned r ≡ slice_index self.old.returned r + (if flusher == r then 1 else 0) }
        ensures passed { self.new.is_lost ≡ false → (r : ℕ) → slice_index self.new.passed r ≡ slice_index self.old.passed r + (if flusher == r then 1 else 0) }
        ensures keeps { self.old.is_lost ≡ false → FitsPassed flusher self.old → self.new.is_lost ≡ false }
    {
        if !raise(&mut self.returned, flusher, 1) {
            self.is_lost = true;
        }
        if !raise(&mut self.passed, flusher, 1) {
            self.is_lost = true;
        }
    }

    // A batch of this flusher began.
    fn begin(&mut self, flusher: usize)
        ensures kept { self.new.is_lost ≡ false → self.old.is_lost ≡ false }
        ensures same { (self.new.queued ≡ self.old.queued) × (self.new.last ≡ self.old.last) × (self.new.returned ≡ self.old.returned) × (self.new.left ≡ self.old.left) }
        ensures passed { self.new.is_lost ≡ false → (r : ℕ) → slice_index self.new.passed r ≡ (if flusher == r then 0 else slice_index self.old.passed r) }
        ensures keeps { self.old.is_lost ≡ false → flusher < length self.old.passed → self.new.is_lost ≡ false }
    {
        if !put(&mut self.passed, flusher, 0) {
            self.is_lost = true;
        }
    }

    // A batch of so many pieces ended at this flusher.
    fn end(&mut self, flusher: usize, pieces: usize)
        ensures kept { self.new.is_lost ≡ false → self.old.is_lost ≡ false }
        ensures same { (self.new.queued ≡ self.old.queued) × (self.new.last ≡ self.old.last) × (self.new.passed ≡ self.old.passed) }
        ensures returned { self.new.is_lost ≡ false → (r : ℕ) → slice_index self.new.returned r ≡ slice_index self.old.returned r + (if flusher == r then pieces else 0) }
        ensures left { self.new.is_lost ≡ false → (r : ℕ) → (slice_index self.new.left r ≡ slice_index self.old.left r)
            ⊎ ((flusher ≡ r) × (slice_index self.new.left r + slice_index self.new.passed r ≤ slice_index self.new.returned r)) }
        ensures reached { self.new.is_lost ≡ false → (r : ℕ) → flusher ≡ r → slice_index self.new.returned r ≤ slice_index self.new.left r + slice_index self.new.passed r }
        ensures keeps { self.old.is_lost ≡ false → FitsEnded flusher pieces self.old → self.new.is_lost ≡ false }
    {
        if !raise(&mut self.returned, flusher, pieces) {
            self.is_lost = true;
        }
        let returned = number_at(&self.returned, flusher);
        let passed = number_at(&self.passed, flusher);
        let place = returned.saturating_sub(passed);
        if passed <= returned && number_at(&self.left, flusher) < place {
            if !put(&mut self.left, flusher, place) {
                self.is_lost = true;
            }
        }
    }

    /// Notes what a step did with pieces, by its reply.
    pub(crate) fn note<K, V, P>(&mut self, done: Moving, reply: &Reply<K, V, P, A>)
        ensures { HasNoted done reply.now self.old self.new }
    {
        match done {
            Moving::Queues(hash) => {
                if let Reply::Queued(_) = reply {
                    self.add(hash);
                }
            }
            Moving::Receives(flusher) => {
                if let Reply::Received(Some(_)) = reply {
                    self.pass(flusher as usize);
                }
            }
            Moving::Begins(flusher) => {
                if let Reply::Began { .. } = reply {
                    self.begin(flusher as usize);
                }
            }
            Moving::Ends(flusher) => {
                if let Reply::Ended { pieces, .. } = reply {
                    self.end(flusher as usize, pieces.len());
                }
            }
            Moving::Other => {}
        }
    }

    /// Gives `Left` if it is known that all queued pieces of a hash have left their flusher. `flushers` is how many flushers there are.
    #[tactic(auto, using(crate::proofs::ClassLemmas::idle_left))]
    pub(crate) fn have_left(&self, hash: u64, flushers: u32) -> Option<Left>
        ensures left { IfSome result (λ _. HasSeenLeave self.now flushers hash) }
        ensures found { HasSeenLeave self.now flushers hash → 0 < flushers → is_some result ≡ true }
        ensures idle { self.now.is_lost ≡ false → length self.now.queued ≡ flushers → 0 < flushers
            → slice_index self.now.queued (hash % flushers) ≤ slice_index self.now.left (hash % flushers) → is_some result ≡ true }
    {
        if self.is_lost || flushers == 0 || self.queued.len() != flushers as usize {
            return None;
        }
        let flusher = (hash % flushers as u64) as usize;
        if number_at(&self.last, self.class_of(hash)) <= number_at(&self.left, flusher) {
            Some(Left)
        } else {
            None
        }
    }
}
