//! What the marks of batches are appended to.
ghost use Rattle.std.specs.Prelude.{◌≡◌, List, Result};
ghost use Rattle.foyer_block_index.specs.declared.tombstone.Tombstone.{Tombstone as mark};
ghost use Rattle.foyer_device_page.specs.declared.error.Error.{Error as error};
ghost use Rattle.foyer_block_tombstone.specs.Appended.{DidAppend, KeepsNothing, appends_in};
ghost use Rattle.foyer_block_tombstone.specs.Pages.{log_pages};

use super::log::TombstoneLog;
use super::marks::SLOTS_PER_PAGE;
use foyer_block_index::tombstone::Tombstone;
use foyer_device_page::error::Result;
use foyer_device_page::io::bytes::PAGE;
use foyer_device_partition::io::device::Partition;
use foyer_io_engine::io::engine::IoEngine;
use std::alloc::Allocator;

/// Gives how many pages the log of deletes has for a device of `capacity` bytes: a slot for each of the device's pages, rounded up.
pub fn log_pages(capacity: usize) -> usize
    ensures { result ≡ log_pages capacity }
{
    (capacity / PAGE).div_ceil(SLOTS_PER_PAGE)
}

/// What the marks of a batch are appended to.
pub trait MarkLog {
    // What an append makes of it, and its outcome.
    ghost appends: { Self → List mark → Self → Result (Unit {0}) error → Type 0 };

    /// Appends the marks, in order. After an error any of them may be missing.
    fn append_marks(&mut self, marks: &[Tombstone]) -> Result<()>
        ensures { appends self.old marks.now self.new result };
}

/// A log that keeps nothing: each append is Ok.
#[derive(Clone, Copy, Debug, Default, PartialEq, Eq)]
pub struct NoLog;

impl MarkLog for NoLog {
    ghost appends = { λ old marks new outcome. KeepsNothing old marks new outcome };

    fn append_marks(&mut self, _marks: &[Tombstone]) -> Result<()> {
        Ok(())
    }
}

impl<E: IoEngine + Drop, P: Partition + Drop, A: Allocator> MarkLog for TombstoneLog<E, P, A> {
    ghost appends = { λ old marks new outcome. DidAppend E.disk E.faults old marks new outcome };

    fn append_marks(&mut self, marks: &[Tombstone]) -> Result<()> {
        self.append(marks)
    }
}

impl<L: MarkLog> MarkLog for Option<L> {
    ghost appends = { λ old marks new outcome. appends_in L.appends old marks new outcome };

    fn append_marks(&mut self, marks: &[Tombstone]) -> Result<()> {
        match self {
            Some(log) => log.append_marks(marks),
            None => Ok(()),
        }
    }
}
