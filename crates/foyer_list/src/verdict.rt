//! Which entries an opening would find.
ghost use Rattle.std.specs.Prelude.{◌≡◌, ◌⊎◌, ◌↔◌, ◌≤◌, ◌^◌, IfOk, IfErr, Some, true, false};
ghost use Rattle.foyer_block_index.specs.Index.{address_at};
ghost use Rattle.foyer_device_page.specs.declared.error.Error.TheVariants as error;
ghost use Rattle.foyer_core_settings.specs.Sizes.{AreValid, sizes_in};
ghost use Rattle.foyer_io_disk.specs.Disk.{SurelyCame};
ghost use Rattle.foyer_list.specs.Verdicts.{HoldsWinners, MayRefuseWinners};

use foyer_block_index::indexer::Indexer;
use foyer_block_recover::block::recover::{RecoverMode, RecoverRunner};
use foyer_block_scan::block::scanner::EntryInfo;
use foyer_core_settings::settings::Settings;
use foyer_device_page::error::Result;
use foyer_io_disk::disk::Disk;
use std::alloc::Allocator;

/// What an opening does with an entry.
#[derive(Clone, Copy, Debug, PartialEq, Eq)]
pub enum Verdict {
    /// An opening finds the hash at this entry.
    Wins,
    /// An opening keeps this entry, but doesn't find the hash at it.
    Loses,
    /// The sequence of this entry, or of an earlier one of the block, is below that of the entry before it. So this entry isn't kept.
    Dropped,
}

/// Gives `Wins` if `found` has the entry's address under the entry's hash. If not, it gives `Loses` if the entry is kept, else `Dropped`.
pub fn verdict_of<A: Allocator + Clone>(
    found: &Indexer<A>,
    info: &EntryInfo,
    is_kept: bool,
) -> Verdict
    ensures wins { (result ≡ Verdict.Wins) ↔ (address_at found.now.slots info.now.hash ≡ Some info.now.addr) }
    ensures loses { result ≡ Verdict.Loses → is_kept ≡ true }
    ensures dropped { result ≡ Verdict.Dropped → is_kept ≡ false }
{
    if let Some(address) = found.get(info.hash) {
        if address == info.addr {
            return Verdict::Wins;
        }
    }
    if is_kept {
        Verdict::Loses
    } else {
        Verdict::Dropped
    }
}

/// Gives the addresses that an opening of the disk's blocks finds without a log of deletes. A failed read is no error. Errors: `Config`
/// if `settings.check()` refuses the sizes, `SequenceEnd` if an entry that is kept has the last sequence, and `Memory`.
pub fn winners<A: Allocator + Clone, D: Disk>(
    alloc: &A,
    disk: &mut D,
    settings: &Settings,
) -> Result<Indexer<A>>
    ensures found { D.is_known disk.old → IfOk result (λ found. HoldsWinners (sizes_in settings.now) settings.now.blocks
        (D.byte_at disk.old) (SurelyCame (D.surely_has disk.old) (D.surely_lies disk.old) (D.faults disk.old) (D.faults disk.new))
        found.slots) }
    ensures valid { IfOk result (λ _. AreValid settings.now) }
    ensures unsound { (AreValid settings.now → ⊥) → result ≡ Err error.Config }
    ensures refused { IfErr result (MayRefuseWinners settings.now) }
    ensures known { D.is_known disk.old → D.is_known disk.new }
    ensures same { D.byte_at disk.new ≡ D.byte_at disk.old }
{
    settings.check()?;
    let runner = RecoverRunner {
        mode: RecoverMode::Quiet,
        blocks: settings.blocks,
        block_size: settings.block_size,
        blob_index_size: settings.blob_index_size,
    };
    let recovered = runner.run(alloc, disk, settings.indexer_shards, &[])?;
    Ok(recovered.index)
}
