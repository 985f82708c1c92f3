//! The recovery that the tests run.
ghost use Rattle.std.specs.Prelude.{◌≡◌};

use foyer_block_index::tombstone::Tombstone;
use foyer_block_recover::block::listing::Listings;
use foyer_block_recover::block::recover::{RecoverMode, RecoverRunner, Recovered};
use foyer_device_page::error::Result;
use foyer_testing::forged::{BLOCK_SIZE, ForgedDisk, INDEX_SIZE};
use std::alloc::Allocator;

/// A recovery of so many blocks.
pub(crate) fn runner(mode: RecoverMode, blocks: u32) -> RecoverRunner
    ensures { (result.block_size ≡ 16384) × (result.blob_index_size ≡ 4096) }
{
    RecoverRunner {
        mode,
        blocks,
        block_size: BLOCK_SIZE,
        blob_index_size: INDEX_SIZE,
    }
}

/// Recovers by so many workers, whose listings come in this order or turned round. A block that a worker couldn't list is read
/// without it.
pub(crate) fn recover_by<A: Allocator + Clone>(
    alloc: &A,
    disk: &mut ForgedDisk,
    runner: &RecoverRunner,
    workers: u32,
    is_turned: bool,
    marks: &[Tombstone],
) -> Result<Recovered<A>>
    requires { (runner.now.block_size ≡ 16384) × (runner.now.blob_index_size ≡ 4096) }
{
    let mut came = Vec::new(alloc.clone()?);
    for worker in 0..workers {
        let _ = runner.list(alloc, disk, worker, workers, &mut came);
    }
    if is_turned {
        came.reverse();
    }
    let mut listings = Listings::new(alloc.clone()?, runner.blocks)?;
    for listing in came {
        let _ = listings.add(listing);
    }
    runner.run_with(alloc, disk, 4, marks, listings)
}
