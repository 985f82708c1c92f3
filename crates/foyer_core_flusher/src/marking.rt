//! The mark of a delete, as it enters the index.
ghost use Rattle.std.specs.Prelude.{◌≡◌, IfErr, IfOk, OnErr, OnOk};
ghost use Rattle.std.specs.FinMap as map;
ghost use Rattle.foyer_block_index.specs.Index.{KeepsIndex};
ghost use Rattle.foyer_block_index.specs.Insertion.{displaced, inserted};
ghost use Rattle.foyer_block_index.specs.declared.indexer.Index.TheVariants.{Tombstone as Mark};
ghost use Rattle.foyer_device_page.specs.declared.error.Error.{Error as error};
ghost use Rattle.foyer_format_layout.specs.Page.{page_up};
ghost use Rattle.foyer_core_flusher.specs.Flushing.{invalid_of_all};
ghost use Rattle.foyer_core_flusher.specs.Marking.{bytes_of};

use crate::submission::TombstoneInfo;
use foyer_block_index::indexer::{EntryAddress, Indexer};
use foyer_block_index::tombstone::{InvalidStats, Tombstone};
use foyer_core_blocks::manager::Invalidated;
use foyer_device_page::error::Result;
use foyer_format_record::block::buffer::PAGE;
use foyer_format_record::block::serde::Sequence;
use std::alloc::Allocator;

// The bytes of a block, and of a filling of it, that a mark makes invalid if it pushes this address out.
#[tactic(auto, unfolding(foyer_format_layout::specs::Page::page_up))]
fn invalid_stats(address: &EntryAddress) -> Invalidated
    ensures block { result.stats.block ≡ address.now.block }
    ensures filling { result.filling ≡ address.now.filling }
    ensures size { result.stats.size ≡ page_up address.now.len }
{
    Invalidated {
        stats: InvalidStats {
            block: address.block,
            size: (address.len as usize).div_ceil(PAGE) * PAGE,
        },
        filling: address.filling,
    }
}

/// Inserts the mark of a hash into the index, and gives the mark with the bytes that it made invalid, if any. Errors: `Memory`. Then each
/// hash has what it had.
pub fn enter_mark<A: Allocator + Clone>(
    index: &mut Indexer<A>,
    hash: u64,
    sequence: Sequence,
) -> Result<TombstoneInfo>
    ensures hash { IfOk result (λ info. info.tombstone.hash ≡ hash) }
    ensures sequence { IfOk result (λ info. info.tombstone.sequence ≡ sequence) }
    ensures invalid { IfOk result (λ info. invalid_of_all info.stats ≡ bytes_of (displaced (map.get index.old.slots hash) (Mark sequence))) }
    ensures entered { OnOk result (index.new.slots ≡ inserted index.old.slots hash (Mark sequence)) }
    ensures kept { OnErr result (KeepsIndex index.old index.new) }
    ensures memory { IfErr result (λ e. e ≡ error.Memory) }
{
    let pushed_out = index.insert_tombstone(hash, sequence)?;
    let stats = match pushed_out {
        Some(address) => Some(invalid_stats(&address)),
        None => None,
    };
    Ok(TombstoneInfo {
        tombstone: Tombstone { hash, sequence },
        stats,
    })
}
