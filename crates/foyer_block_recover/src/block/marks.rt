//! The marks of deletes, which are applied after what the blocks keep.
ghost use Rattle.std.specs.Prelude.{◌≡◌, ◌++◌, List};
ghost use Rattle.foyer_block_recover.specs.BlocksKept.{IsWithoutOlder, HoldsFound};
ghost use Rattle.foyer_block_recover.specs.Opening.{Found, all_marked};
ghost use Rattle.foyer_block_recover.specs.Recovery.{marks_of};

use crate::block::blocks::BlocksRead;
use foyer_block_index::indexer::Indexer;
use foyer_block_index::tombstone::Tombstone;
use std::alloc::Allocator;

// Removes the address of the mark's hash, unless its sequence is above the mark's.
fn remove_older<A: Allocator + Clone>(index: &mut Indexer<A>, mark: &Tombstone)
    ensures { IsWithoutOlder index.old.slots index.new.slots mark.now.hash mark.now.sequence }
{
    let Some(address) = index.get(mark.hash) else {
        return;
    };
    if address.sequence > mark.sequence {
        return;
    }
    let _ = index.remove(mark.hash, &address);
}

impl<A: Allocator + Clone> BlocksRead<A> {
    // Applies the marks after all entries: a hash whose greatest sequence is a mark's has nothing.
    pub(crate) fn take_marks(&mut self, marks: &[Tombstone])
        ensures taken { (found : List Found) → HoldsFound self.old found
            → HoldsFound self.new (found ++ all_marked (marks_of marks.now)) }
        ensures clean { self.new.clean ≡ self.old.clean }
    {
        'each_mark: for mark in marks {
            self.greatest = self.greatest.max(mark.sequence);
            remove_older(&mut self.index, mark);
        }
    }
}
