//! The appends of a batch's marks to the log of deletes, and what shows them.
ghost use Rattle.std.specs.Prelude.{◌≡◌};

use foyer_block_index::tombstone::Tombstone;
use foyer_block_tombstone::block::tombstone::MarkLog;
use foyer_device_page::error::Result;
use std::alloc::Allocator;
use std::sync::{Mutex, Wait};

/// Marks that a log was asked to append, and the outcome. Only an append gives one.
#[derive(Drop)]
pub struct Appended<A: Allocator> {
    marks: Vec<Tombstone, A>,
    outcome: Result<()>,
}

impl<A: Allocator> Appended<A> {
    /// The outcome of the append.
    pub fn outcome(&self) -> Result<()>
        ensures { result ≡ self.now.outcome }
    {
        self.outcome
    }
}

// Appends marks to a log.
fn append_to<M: MarkLog, A: Allocator>(log: &mut M, marks: Vec<Tombstone, A>) -> Appended<A>
    ensures appended { M.appends log.old marks.items log.new result.outcome }
    ensures marks { result.marks ≡ marks }
{
    let outcome = log.append_marks(&marks);
    Appended { marks, outcome }
}

/// Appends marks to the log behind a lock.
pub fn append<M: MarkLog, A: Allocator>(
    rt: &impl Wait,
    log: &Mutex<M>,
    marks: Vec<Tombstone, A>,
) -> Appended<A>
    ensures { result.marks ≡ marks }
{
    append_to::<M, A>(&mut log.lock(rt), marks)
}
