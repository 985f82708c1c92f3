//! Answers to several waits, and what shows that none was left out.
ghost use Rattle.std.specs.Prelude.{◌≡◌, ◌+◌, ◌<◌, Some, slice_get, vec_len};

use foyer_storage_engine::engine::waits::GivenAnswer;
use std::alloc::Allocator;

/// Waits, the first `count` of which were answered.
#[derive(Drop)]
pub(super) struct Answers<A: Allocator> {
    ids: Vec<u64, A>,
    count: usize,
}

/// Waits that were all answered.
#[derive(Drop)]
pub(super) struct AllAnswered<A: Allocator> {
    ids: Vec<u64, A>,
}

impl<A: Allocator> Answers<A> {
    /// Begins with these waits, none of which is answered.
    pub(super) fn new(ids: Vec<u64, A>) -> Answers<A>
        ensures { (result.ids ≡ ids) × (result.count ≡ 0) }
    {
        Answers { ids, count: 0 }
    }

    /// The wait to answer next. There must be one.
    pub(super) fn next(&self) -> u64
        requires { self.now.count < vec_len self.now.ids }
        ensures { slice_get self.now.ids.items self.now.count ≡ Some result }
    {
        self.ids[self.count]
    }

    /// Notes the answer to the wait that `next` gives.
    pub(super) fn note(&mut self, given: GivenAnswer)
        requires some { self.old.count < vec_len self.old.ids }
        requires own { slice_get self.old.ids.items self.old.count ≡ Some given.id }
        ensures { (self.new.ids ≡ self.old.ids) × (self.new.count ≡ self.old.count + 1) }
    {
        let _ = given;
        self.count += 1;
    }

    /// Gives what shows that all were answered. They must be.
    pub(super) fn into_all(self) -> AllAnswered<A>
        requires { self.count ≡ vec_len self.ids }
        ensures { result.ids ≡ self.ids }
    {
        let Answers { ids, count: _ } = self;
        AllAnswered { ids }
    }
}
