//! The records of a block enter the index.
ghost use Rattle.std.specs.Prelude.{◌≡◌, map, length, Option, IsSome, MatchOption};
ghost use Rattle.foyer_block_index.specs.Index.{HasRoomFor};
ghost use Rattle.foyer_block_index.specs.Committing.{committed_all, put_count, PiecesHeld};
ghost use Rattle.foyer_core_flusher.specs.FlusherSteps.{settled};

use foyer_block_index::indexer::{EntryAddress, HashedEntryAddress, Indexer};
use foyer_block_index::manager::BlockId;
use std::alloc::Allocator;

// The records stand in this block, in this filling of it.
fn settle<A: Allocator>(records: &mut Vec<HashedEntryAddress, A>, block: BlockId, filling: u64)
    ensures { records.new.items ≡ map (settled block filling) records.old.items }
{
    for record in records.iter_mut() {
        record.address.block = block;
        record.address.filling = filling;
    }
}

// Enters the records of a block into the index, and gives how many are puts. Gives `None` if memory for the index is refused.
pub(crate) fn commit<A: Allocator + Clone>(
    mut records: Vec<HashedEntryAddress, A>,
    sources: &[Option<EntryAddress>],
    block: BlockId,
    filling: u64,
    index: &mut Indexer<A>,
) -> Option<usize>
    requires { length sources.now ≡ length records.items }
    ensures committed { MatchOption result (index.new.slots ≡ index.old.slots)
        (λ n. (n ≡ put_count index.old.slots (map (settled block filling) records.items) sources.now)
        × (index.new.slots ≡ committed_all index.old.slots (map (settled block filling) records.items) sources.now)) }
    ensures overwrites { PiecesHeld index.old.slots records.items sources.now → IsSome result }
    ensures room { HasRoomFor index.old.rooms records.items → IsSome result }
{
    settle(&mut records, block, filling);
    index.commit_batch(&records, sources).ok()
}
