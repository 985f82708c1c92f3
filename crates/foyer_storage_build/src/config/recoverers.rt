//! The workers of a recovery over a device's blocks.
ghost use Rattle.std.specs.Prelude.{◌≡◌, IfErr};
ghost use Rattle.foyer_device_page.specs.declared.error.Error.TheVariants as error;

use super::DeviceBlocks;
use foyer_block_recover::block::listing::{BlockListing, Listings};
use foyer_device_page::error::Result;
use foyer_device_partition::io::device::Partition;
use foyer_io_engine::io::engine::IoEngine;
use foyer_io_gate::gate::{Gate, GatedDisk};
use foyer_storage_workers::recover::{DiskRecoverer, Recoverer};
use std::alloc::Global;
use std::sync::Arc;

/// The blocks of a device while they are recovered. A read at the start of a block passes the gate first.
pub type RecoveredBlocks<N, Q, G> = GatedDisk<DeviceBlocks<N, Q>, Arc<G, Global>>;

/// A worker of a recovery over a device's blocks. It is a type of its own, so that proofs about those who pass it on needn't look inside.
#[derive(Drop)]
pub struct BlockRecoverer<N, Q, G>
where
    N: IoEngine + Drop,
    Q: Partition + Copy + Drop,
    G: Gate,
{
    pub(super) recoverer: DiskRecoverer<RecoveredBlocks<N, Q, G>>,
    pub(super) alloc: Global,
}

/// What a worker of a recovery listed.
#[derive(Drop)]
pub struct BlockListings<N, Q, G>
where
    N: IoEngine + Drop,
    Q: Partition + Copy + Drop,
    G: Gate,
{
    pub(super) listings: Vec<BlockListing<Global, RecoveredBlocks<N, Q, G>>>,
}

impl<N, Q, G> Recoverer<BlockListings<N, Q, G>> for BlockRecoverer<N, Q, G>
where
    N: IoEngine + Drop,
    Q: Partition + Copy + Drop,
    G: Gate,
{
    fn list(self) -> BlockListings<N, Q, G> {
        let BlockRecoverer { recoverer, alloc } = self;
        BlockListings {
            listings: recoverer.list(alloc),
        }
    }
}

// Makes room for a listing of each of this many blocks, or for none if nobody lists.
pub(super) fn room_for<N, Q, G>(
    alloc: Global,
    blocks: u32,
    recoverers: &[BlockRecoverer<N, Q, G>],
) -> Result<Listings<Global, RecoveredBlocks<N, Q, G>>>
where
    N: IoEngine + Drop,
    Q: Partition + Copy + Drop,
    G: Gate,
    ensures { IfErr result (λ e. e ≡ error.Memory) }
{
    if recoverers.is_empty() {
        return Ok(Listings::none(alloc));
    }
    Listings::new(alloc, blocks)
}
