//! The blocks of a disk, one after the other, as an index.
ghost use Rattle.std.specs.Prelude.{◌≡◌, ℕ, ◌+◌, ◌<◌, ◌≤◌, ◌^◌, ◌⊎◌, Bool, List, [], ◌++◌, true, length, vec_len, IfOk, IfErr, OnOk, IsOkUnless};
ghost use Rattle.foyer_block_scan.specs.BlobEntryIndex.{BlobEntryIndex};
ghost use Rattle.foyer_block_index.specs.Insertion.{inserted_all};
ghost use Rattle.foyer_block_index.specs.declared.indexer.HashedEntryAddress.{HashedEntryAddress};
ghost use Rattle.foyer_block_scan.specs.Fills.{AreSizes};
ghost use Rattle.foyer_device_page.specs.declared.error.Error.TheVariants as error;
ghost use Rattle.foyer_io_disk.specs.Disk.{SurelyCame};
ghost use Rattle.foyer_block_recover.specs.Chained.{hashed_entries};
ghost use Rattle.foyer_block_recover.specs.Kept.{greatest_in};
ghost use Rattle.foyer_block_recover.specs.BlocksKept.{HoldsKept, AreBlocksRead, IsBlockCut, gathered};
ghost use Rattle.foyer_block_recover.specs.Sources.{AreSources, sure_of};
ghost use Rattle.foyer_block_recover.specs.Placed.{AreSomeKept};

use crate::block::chain::Chain;
use crate::block::kept::greatest_in;
use crate::block::listing::{Listings, list_chain};
use foyer_block_index::indexer::{HashedEntryAddress, Indexer, Sequence};
use foyer_block_index::manager::BlockId;
use foyer_device_page::error::{Error, Result};
use foyer_io_disk::disk::Disk;
use std::alloc::Allocator;

// At least this many entries are gathered before they go into the index, except at the end.
const LEAST_GATHERED: usize = 4096;

// What is kept of the blocks that were read so far.
#[derive(Drop)]
pub(crate) struct BlocksRead<A: Allocator> {
    pub(crate) index: Indexer<A>,
    // How many entries went into the index.
    pub(crate) inserted: usize,
    // The greatest sequence, or 0.
    pub(crate) greatest: Sequence,
    // The blocks that keep nothing, in order.
    pub(crate) clean: Vec<BlockId, A>,
}

impl<A: Allocator + Clone> BlocksRead<A> {
    // What is kept of no blocks.
    fn none(alloc: &A, shards: usize) -> Result<BlocksRead<A>>
        requires { 0 < shards }
        ensures none { IfOk result (λ read. (keeps : ℕ → List BlobEntryIndex) → HoldsKept read 0 keeps) }
        ensures memory { IsOkUnless result error.Memory }
    {
        Ok(BlocksRead {
            index: Indexer::new(alloc.clone()?, shards)?,
            inserted: 0,
            greatest: 0,
            clean: Vec::new(alloc.clone()?),
        })
    }

    // Takes in what was gathered, and gives the empty batch back.
    fn take_batch(
        &mut self,
        batch: Vec<HashedEntryAddress, A>,
    ) -> Result<Vec<HashedEntryAddress, A>>
        ensures index { OnOk result (self.new.index.slots ≡ inserted_all self.old.index.slots batch.items) }
        ensures greatest { OnOk result (self.new.greatest ≡ greatest_in self.old.greatest batch.items) }
        ensures clean { OnOk result (self.new.clean ≡ self.old.clean) }
        ensures empty { IfOk result (λ again. again.items ≡ []) }
        ensures memory { IsOkUnless result error.Memory }
    {
        self.greatest = greatest_in(self.greatest, &batch);
        self.inserted = self.inserted.saturating_add(batch.len());
        let again = self.index.insert_all(batch)?;
        Ok(again)
    }

    // Takes in what the next block keeps. It stands in the batch behind the `before` entries that were there. A batch goes into the index
    // once it has `LEAST_GATHERED` entries and an eighth of those that went in before. So an entry is moved only a few times, however many
    // blocks there are.
    fn take_block(
        &mut self,
        block: BlockId,
        before: usize,
        batch: Vec<HashedEntryAddress, A>,
    ) -> Result<Vec<HashedEntryAddress, A>>
        ensures taken { (old : List HashedEntryAddress) (keeps : ℕ → List BlobEntryIndex) → length old ≡ before
            → batch.items ≡ old ++ hashed_entries block (keeps block) → HoldsKept (gathered self.old old) block keeps
            → IfOk result (λ again. HoldsKept (gathered self.new again.items) (block + 1) keeps) }
        ensures memory { IsOkUnless result error.Memory }
    {
        if batch.len() == before {
            self.clean.push(block)?;
            return Ok(batch);
        }
        if batch.len() < LEAST_GATHERED.max(self.inserted / 8) {
            return Ok(batch);
        }
        let again = self.take_batch(batch)?;
        Ok(again)
    }
}

// What an opening that reads no block keeps: each block is clean.
pub(crate) fn read_none<A: Allocator + Clone>(
    alloc: &A,
    blocks: u32,
    shards: usize,
) -> Result<BlocksRead<A>>
    requires { 0 < shards }
    ensures none { IfOk result (λ read. HoldsKept read blocks (λ _. [])) }
    ensures memory { IsOkUnless result error.Memory }
{
    let mut read = BlocksRead::none(alloc, shards)?;
    read.clean.reserve(blocks as usize)?;
    'each_id: for block in 0..blocks {
        read.clean.push(block)?;
    }
    Ok(read)
}

// Gives what each block keeps: from the block's listing if one was given, else by reading the block's chain. Errors: `Recover` if a failed
// read ends a chain and that isn't allowed; `Memory` if an allocation was refused.
pub(crate) fn read_blocks<A: Allocator + Clone, D: Disk>(
    alloc: &A,
    disk: &mut D,
    blocks: u32,
    block_size: usize,
    index_size: usize,
    shards: usize,
    is_strict: bool,
    listings: Listings<A, D>,
) -> Result<BlocksRead<A>>
    requires sizes { AreSizes (record { block = block_size; index = index_size }) }
    requires small { block_size ≤ 2 ^ 32 }
    requires shards { 0 < shards }
    ensures kept { (bytes : ℕ → ℕ → ℕ) (failed : ℕ → ℕ → Bool) → D.is_known disk.old
        → AreSources (record { block = block_size; index = index_size }) blocks listings.slots.items bytes (D.byte_at disk.old) failed
        → IfOk result (AreBlocksRead (record { block = block_size; index = index_size }) blocks bytes
        (sure_of (record { block = block_size; index = index_size }) listings.slots.items failed
        (SurelyCame (D.surely_has disk.old) (D.surely_lies disk.old) (D.faults disk.old) (D.faults disk.new))) is_strict) }
    ensures some { IfOk result (AreSomeKept (record { block = block_size; index = index_size }) blocks) }
    ensures cut { (bytes : ℕ → ℕ → ℕ) (failed : ℕ → ℕ → Bool) → D.is_known disk.old
        → AreSources (record { block = block_size; index = index_size }) blocks listings.slots.items bytes (D.byte_at disk.old) failed
        → IfErr result (λ e. e ≡ error.Recover → IsBlockCut (record { block = block_size; index = index_size }) blocks bytes
        (sure_of (record { block = block_size; index = index_size }) listings.slots.items failed
        (SurelyCame (D.surely_has disk.old) (D.surely_lies disk.old) (D.faults disk.old) (D.faults disk.new))) is_strict) }
    ensures refused { IfErr result (λ e. (e ≡ error.Memory) ⊎ ((e ≡ error.Recover) × (is_strict ≡ true))) }
    ensures known { D.is_known disk.old → D.is_known disk.new }
    ensures same { D.byte_at disk.new ≡ D.byte_at disk.old }
    ensures has { (b o n : ℕ) → D.surely_has disk.old b o n → D.surely_has disk.new b o n }
    ensures lies { (b o n : ℕ) → D.surely_lies disk.old b o n → D.surely_lies disk.new b o n }
    ensures counted { D.faults disk.old ≤ D.faults disk.new }
{
    let mut read = BlocksRead::none(alloc, shards)?;
    let mut listings = listings;
    let mut buffer = vec![in alloc.clone()?; 0u8; index_size]?;
    let mut batch = Vec::new(alloc.clone()?);
    'each_block: for block in 0..blocks {
        let before = batch.len();
        let listing = listings.take(block, block_size, index_size);
        let Chain {
            buffer: bytes,
            kept,
            is_cut,
        } = list_chain(alloc, disk, block, block_size, listing, buffer, batch)?;
        if is_cut && is_strict {
            return Err(Error::Recover);
        }
        buffer = bytes;
        batch = read.take_block(block, before, kept)?;
    }
    read.take_batch(batch)?;
    Ok(read)
}
