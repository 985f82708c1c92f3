//! What one block lists, as a worker of a recovery read it, and the listings that a recovery is given, by block.
ghost use Rattle.std.specs.Prelude.{◌≡◌, ℕ, ◌<◌, ◌≤◌, ◌^◌, [], Bool, vec_len, replicate, slice_get, slice_set, Some, None, true, IfOk, IfSome, IsOkUnless};
ghost use Rattle.std.specs.Bool.{OnTrue, OnFalse};
ghost use Rattle.foyer_device_page.specs.declared.error.Error.TheVariants.{Memory};
ghost use Rattle.foyer_block_scan.specs.Fills.{AreSizes};
ghost use Rattle.foyer_io_disk.specs.Disk.{SurelyCame};
ghost use Rattle.foyer_block_recover.specs.Chained.{IsKeptOf};
ghost use Rattle.foyer_block_recover.specs.Placed.{IsSomeKept};
ghost use Rattle.foyer_format_layout.specs.Each.{Each};
ghost use Rattle.foyer_block_recover.specs.Sources.{IsListingOf, IsSource, IsWithinBlock, is_of, listing_at, listing_in, sure_in};

use crate::block::chain::{Chain, read_chain};
use foyer_block_index::indexer::HashedEntryAddress;
use foyer_block_index::manager::BlockId;
use foyer_device_page::error::Result;
use foyer_io_disk::disk::Disk;
use std::alloc::Allocator;
use std::marker::{Model, PhantomData};

/// What is kept of one block, as one reading of its chain gave it. Some disk gave it. If contracts see that disk's bytes, it is what these
/// bytes list, except for reads that failed. Whatever the disk, its entries lie in the block.
pub struct BlockListing<A: Allocator, D: Disk> {
    block: BlockId,
    block_size: usize,
    index_size: usize,
    kept: Vec<HashedEntryAddress, A>,
    is_cut: bool,
    disk: PhantomData<D>,
}

// Written out, so that it is proved once.
impl<A: Allocator, D: Disk> Drop for BlockListing<A, D> {
    fn drop(self) {
        let BlockListing {
            block: _,
            block_size: _,
            index_size: _,
            kept: _,
            is_cut: _,
            disk: _,
        } = self;
    }
}

impl<A: Allocator, D: Disk> Model for BlockListing<A, D> {
    ghost use Rattle.foyer_block_recover.specs.Sources.{Listing, IsListing};

    ghost Value = { Listing };

    ghost view = { λ l. record {
      block = l.block;
      sizes = record { block = l.block_size; index = l.index_size };
      kept = l.kept.items;
      is_cut = l.is_cut;
    } };

    ghost invariant = { λ l. IsListing D.is_known D.byte_at D.surely_has D.surely_lies D.faults (record {
      block = l.block;
      sizes = record { block = l.block_size; index = l.index_size };
      kept = l.kept.items;
      is_cut = l.is_cut;
    }) };
}

impl<A: Allocator + Clone, D: Disk> BlockListing<A, D> {
    // Reads the chain of a block with a buffer of one index, and returns the buffer beside the listing.
    pub(crate) fn read(
        alloc: &A,
        disk: &mut D,
        block: BlockId,
        block_size: usize,
        buffer: Vec<u8, A>,
    ) -> Result<(BlockListing<A, D>, Vec<u8, A>)>
        requires sizes { AreSizes (record { block = block_size; index = vec_len buffer }) }
        requires small { block_size ≤ 2 ^ 32 }
        ensures block { IfOk result (λ r. (r.0.block ≡ block)
            × (r.0.sizes ≡ record { block = block_size; index = vec_len buffer })) }
        ensures lists { D.is_known disk.old → IfOk result (λ r. IsListingOf
            (record { block = block_size; index = vec_len buffer }) (D.byte_at disk.old block)
            (λ p. SurelyCame (D.surely_has disk.old) (D.surely_lies disk.old) (D.faults disk.old) (D.faults disk.new)
            block p (vec_len buffer)) r.0) }
        ensures len { IfOk result (λ r. vec_len r.1 ≡ vec_len buffer) }
        ensures memory { IsOkUnless result Memory }
        ensures known { D.is_known disk.old → D.is_known disk.new }
        ensures same { D.byte_at disk.new ≡ D.byte_at disk.old }
        ensures has { (b o n : ℕ) → D.surely_has disk.old b o n → D.surely_has disk.new b o n }
        ensures lies { (b o n : ℕ) → D.surely_lies disk.old b o n → D.surely_lies disk.new b o n }
        ensures counted { D.faults disk.old ≤ D.faults disk.new }
    {
        let index_size = buffer.len();
        let none = Vec::new(alloc.clone()?);
        let Chain {
            buffer,
            kept,
            is_cut,
        } = read_chain(alloc, disk, block, block_size, buffer, none)?;
        let listing = BlockListing {
            block,
            block_size,
            index_size,
            kept,
            is_cut,
            disk: PhantomData,
        };
        Ok((listing, buffer))
    }
}

impl<A: Allocator, D: Disk> BlockListing<A, D> {
    /// Gives the block that was listed.
    pub fn block(&self) -> BlockId
        ensures { result ≡ self.now.block }
    {
        self.block
    }

    // What is kept, and whether its chain is cut. Its entries lie in the block.
    fn into_kept(self) -> (Vec<HashedEntryAddress, A>, bool)
        ensures kept { result.0.items ≡ self.kept }
        ensures cut { result.1 ≡ self.is_cut }
        ensures within { Each (IsWithinBlock self.sizes self.block) self.kept }
    {
        let BlockListing {
            block: _,
            block_size: _,
            index_size: _,
            kept,
            is_cut,
            disk: _,
        } = self;
        (kept, is_cut)
    }

    // Whether it is of this block, in these sizes.
    fn is_of(&self, block: BlockId, block_size: usize, index_size: usize) -> bool
        ensures { result ≡ is_of (record { block = block_size; index = index_size }) block self.now }
    {
        self.block == block && self.block_size == block_size && self.index_size == index_size
    }
}

// Appends what is kept of a block to what a batch has in `kept`: from the block's listing if one was given, else by reading the block's
// chain.
pub(crate) fn list_chain<A: Allocator + Clone, D: Disk>(
    alloc: &A,
    disk: &mut D,
    block: BlockId,
    block_size: usize,
    listing: Option<BlockListing<A, D>>,
    buffer: Vec<u8, A>,
    kept: Vec<HashedEntryAddress, A>,
) -> Result<Chain<A>>
    requires sizes { AreSizes (record { block = block_size; index = vec_len buffer }) }
    requires small { block_size ≤ 2 ^ 32 }
    requires own { IfSome listing (λ l. is_of (record { block = block_size; index = vec_len buffer }) block l ≡ true) }
    ensures len { IfOk result (λ chain. vec_len chain.buffer ≡ vec_len buffer) }
    ensures kept { (B : ℕ → ℕ) (failed : ℕ → Bool) → D.is_known disk.old
        → IsSource (record { block = block_size; index = vec_len buffer }) block listing B (D.byte_at disk.old block) failed
        → IfOk result (λ chain. IsKeptOf (record { block = block_size; index = vec_len buffer }) B
        (sure_in listing failed (λ p. SurelyCame (D.surely_has disk.old) (D.surely_lies disk.old) (D.faults disk.old) (D.faults disk.new)
        block p (vec_len buffer))) block kept.items chain.kept.items chain.is_cut) }
    ensures some { IfOk result (λ chain. IsSomeKept
        (record { block = block_size; index = vec_len buffer }) block kept.items chain.kept.items) }
    ensures memory { IsOkUnless result Memory }
    ensures known { D.is_known disk.old → D.is_known disk.new }
    ensures same { D.byte_at disk.new ≡ D.byte_at disk.old }
    ensures has { (b o n : ℕ) → D.surely_has disk.old b o n → D.surely_has disk.new b o n }
    ensures lies { (b o n : ℕ) → D.surely_lies disk.old b o n → D.surely_lies disk.new b o n }
    ensures counted { D.faults disk.old ≤ D.faults disk.new }
{
    let Some(listing) = listing else {
        return read_chain(alloc, disk, block, block_size, buffer, kept);
    };
    let (mut listed, is_cut) = listing.into_kept();
    let mut kept = kept;
    kept.append(&mut listed)?;
    Ok(Chain {
        buffer,
        kept,
        is_cut,
    })
}

/// The listings of a disk's blocks, at most one of each block. They may be added in any order.
#[derive(Drop)]
pub struct Listings<A: Allocator, D: Disk> {
    // By block.
    slots: Vec<Option<BlockListing<A, D>>, A>,
}

impl<A: Allocator, D: Disk> Listings<A, D> {
    /// Gives listings without room for one. A recovery that is given them reads each block itself.
    pub fn none(alloc: A) -> Listings<A, D>
        ensures { result.slots.items ≡ [] }
    {
        Listings {
            slots: Vec::new(alloc),
        }
    }

    /// Gives empty listings, with room for one of each of `blocks` blocks. Errors: `Memory`.
    pub fn new(alloc: A, blocks: u32) -> Result<Listings<A, D>>
        ensures empty { IfOk result (λ listings. listings.slots.items ≡ replicate blocks None) }
        ensures refused { IsOkUnless result Memory }
    {
        let mut slots = Vec::with_capacity(alloc, blocks as usize)?;
        'each_block: for _ in 0..blocks {
            slots.push(None)?;
        }
        Ok(Listings { slots })
    }

    /// Takes a listing in, and answers whether it did. It doesn't if a listing of the same block was there before, or if there is no room for
    /// that block.
    pub fn add(&mut self, listing: BlockListing<A, D>) -> bool
        ensures taken { OnTrue result ((slice_get self.old.slots.items listing.block ≡ Some None)
            × (self.new.slots.items ≡ slice_set self.old.slots.items listing.block (Some listing))) }
        ensures left { OnFalse result ((slice_get self.old.slots.items listing.block ≡ Some None → ⊥)
            × (self.new.slots.items ≡ self.old.slots.items)) }
    {
        let at = listing.block as usize;
        if at >= self.slots.len() || self.slots[at].is_some() {
            return false;
        }
        self.slots[at] = Some(listing);
        true
    }

    // Takes out the listing at a block's place. Gives it if it is of this block and of these sizes.
    pub(crate) fn take(
        &mut self,
        block: BlockId,
        block_size: usize,
        index_size: usize,
    ) -> Option<BlockListing<A, D>>
        ensures taken { result ≡ listing_at (record { block = block_size; index = index_size }) block self.old.slots.items }
        ensures left { self.new.slots.items ≡ slice_set self.old.slots.items block None }
    {
        let listing = take_at(&mut self.slots, block)?;
        if !listing.is_of(block, block_size, index_size) {
            return None;
        }
        Some(listing)
    }
}

// Takes out the listing at a block's place, if there is one, and gives it.
fn take_at<A: Allocator, D: Disk>(
    slots: &mut Vec<Option<BlockListing<A, D>>, A>,
    block: BlockId,
) -> Option<BlockListing<A, D>>
    ensures taken { result ≡ listing_in (slice_get slots.old.items block) }
    ensures left { slots.new.items ≡ slice_set slots.old.items block None }
{
    let Some(slot) = slots.get_mut(block as usize) else {
        return None;
    };
    slot.take()
}
