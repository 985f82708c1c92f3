//! Recovery.
ghost use Rattle.std.specs.Prelude.{◌≡◌, ◌≢◌, ℕ, ◌<◌, ◌≤◌, ◌^◌, ◌⊎◌, ◌++◌, ◌∷◌, if◌then◌else◌, Bool, [], vec_len, map, IfOk, IfErr, OnOk, IsOkUnless};
ghost use Rattle.foyer_block_scan.specs.Fills.{AreSizes};
ghost use Rattle.foyer_device_page.specs.declared.error.Error.TheVariants as error;
ghost use Rattle.foyer_io_disk.specs.Disk.{SurelyCame};
ghost use Rattle.foyer_block_recover.specs.BlocksKept.{AreBlocksKept};
ghost use Rattle.foyer_block_recover.specs.Placed.{AreSomeKept, IsOpening};
ghost use Rattle.foyer_block_recover.specs.Sources.{AreListed, AreSources, block_of, is_shared, share_of, sure_of};
ghost use Rattle.foyer_block_recover.specs.Recovery.{sizes_of, marks_of, opened_of, IsRecovered, IsRefused, MayRefuse};

use crate::block::blocks::{BlocksRead, read_blocks, read_none};
use crate::block::listing::{BlockListing, Listings};
use foyer_block_index::indexer::{Indexer, Sequence};
use foyer_block_index::manager::BlockId;
use foyer_block_index::tombstone::Tombstone;
use foyer_device_page::error::{Error, Result};
use foyer_io_disk::disk::Disk;
use std::alloc::Allocator;

/// What an opening does with the bytes of the blocks.
#[derive(Clone, Copy, Debug, Default, PartialEq, Eq)]
pub enum RecoverMode {
    /// It reads no block and keeps nothing.
    None,
    /// It keeps what was listed before a read failed.
    #[default]
    Quiet,
    /// A failed read makes the opening fail.
    Strict,
}

/// What a recovery gives.
#[derive(Drop)]
pub struct Recovered<A: Allocator> {
    /// The addresses that were found, by their hashes. A hash whose greatest sequence is a mark's has none.
    pub index: Indexer<A>,
    /// The sequence of the next put or delete.
    pub next: Sequence,
    /// The blocks that keep nothing, in the order of their ids.
    pub clean: Vec<BlockId, A>,
}

/// The recovery of a disk's blocks. Either `run` reads all blocks. Or workers list some blocks each by `list`, and `run_with` takes their
/// listings and reads the other blocks.
#[derive(Clone, Copy, Debug)]
pub struct RecoverRunner {
    pub mode: RecoverMode,
    /// How many blocks there are.
    pub blocks: u32,
    /// The bytes of a block.
    pub block_size: usize,
    /// The bytes of the index of a blob.
    pub blob_index_size: usize,
}

impl RecoverRunner {
    // What the blocks keep in the mode.
    fn read<A: Allocator + Clone, D: Disk>(
        &self,
        alloc: &A,
        disk: &mut D,
        shards: usize,
        listings: Listings<A, D>,
    ) -> Result<BlocksRead<A>>
        requires sizes { AreSizes (sizes_of self.now) }
        requires small { self.now.block_size ≤ 2 ^ 32 }
        requires shards { 0 < shards }
        ensures kept { (bytes : ℕ → ℕ → ℕ) (failed : ℕ → ℕ → Bool) → (self.now.mode ≡ RecoverMode.None)
            ⊎ (D.is_known disk.old × AreSources (sizes_of self.now) self.now.blocks listings.slots.items bytes (D.byte_at disk.old) failed)
            → IfOk result (AreBlocksKept (sizes_of self.now) self.now.blocks bytes
            (sure_of (sizes_of self.now) listings.slots.items failed
            (SurelyCame (D.surely_has disk.old) (D.surely_lies disk.old) (D.faults disk.old) (D.faults disk.new))) self.now.mode) }
        ensures some { IfOk result (AreSomeKept (sizes_of self.now) self.now.blocks) }
        ensures refused { (bytes : ℕ → ℕ → ℕ) (failed : ℕ → ℕ → Bool) → (self.now.mode ≡ RecoverMode.None)
            ⊎ (D.is_known disk.old × AreSources (sizes_of self.now) self.now.blocks listings.slots.items bytes (D.byte_at disk.old) failed)
            → IfErr result (IsRefused (sizes_of self.now) self.now.blocks bytes
            (sure_of (sizes_of self.now) listings.slots.items failed
            (SurelyCame (D.surely_has disk.old) (D.surely_lies disk.old) (D.faults disk.old) (D.faults disk.new))) self.now.mode []) }
        ensures refusals { IfErr result (λ e. (e ≡ error.Memory) ⊎ ((e ≡ error.Recover) × (self.now.mode ≡ RecoverMode.Strict))) }
        ensures unread { self.now.mode ≡ RecoverMode.None → disk.new ≡ disk.old }
        ensures known { D.is_known disk.old → D.is_known disk.new }
        ensures same { D.byte_at disk.new ≡ D.byte_at disk.old }
        ensures has { (b o n : ℕ) → D.surely_has disk.old b o n → D.surely_has disk.new b o n }
        ensures lies { (b o n : ℕ) → D.surely_lies disk.old b o n → D.surely_lies disk.new b o n }
        ensures counted { D.faults disk.old ≤ D.faults disk.new }
    {
        match self.mode {
            RecoverMode::None => read_none(alloc, self.blocks, shards),
            RecoverMode::Quiet => read_blocks(
                alloc,
                disk,
                self.blocks,
                self.block_size,
                self.blob_index_size,
                shards,
                false,
                listings,
            ),
            RecoverMode::Strict => read_blocks(
                alloc,
                disk,
                self.blocks,
                self.block_size,
                self.blob_index_size,
                shards,
                true,
                listings,
            ),
        }
    }

    /// Reads the indices of all blocks, one block after the other. From these and the marks of deletes it makes the index, which has
    /// `shards` shards, the next sequence, and the list of clean blocks. In `None` it reads nothing, and each block is clean. It allocates
    /// a buffer of one index, the entries of one index, what it gives, and entries that are gathered before they are inserted. These are
    /// 4,096 entries, or an eighth of those before, and one block's. To order them it takes up to twice their bytes more. If that is
    /// refused, they go in unordered, which is slower.
    ///
    /// An index must be whole pages, at least one, and smaller than a block. A block must have at most 2^32 bytes. `shards` must be at
    /// least 1.
    ///
    /// Errors: `Recover` in `Strict` if a failed read cut a block short. Else `SequenceEnd` if an entry that is kept, or a mark, has the
    /// last sequence. `Memory` at any time. What is on the disk stays as it is. Whatever was read, each address that is found lies within
    /// its block.
    pub fn run<A: Allocator + Clone, D: Disk>(
        &self,
        alloc: &A,
        disk: &mut D,
        shards: usize,
        marks: &[Tombstone],
    ) -> Result<Recovered<A>>
        requires sizes { AreSizes (sizes_of self.now) }
        requires small { self.now.block_size ≤ 2 ^ 32 }
        requires shards { 0 < shards }
        ensures recovered { (self.now.mode ≡ RecoverMode.None) ⊎ D.is_known disk.old → IfOk result (λ recovered. IsRecovered
            (sizes_of self.now) self.now.blocks (D.byte_at disk.old)
            (SurelyCame (D.surely_has disk.old) (D.surely_lies disk.old) (D.faults disk.old) (D.faults disk.new)) self.now.mode (marks_of marks.now)
            (opened_of recovered)) }
        ensures some { IfOk result (λ recovered. IsOpening (sizes_of self.now) self.now.blocks (marks_of marks.now) (opened_of recovered)) }
        ensures refused { (self.now.mode ≡ RecoverMode.None) ⊎ D.is_known disk.old → IfErr result (IsRefused
            (sizes_of self.now) self.now.blocks (D.byte_at disk.old)
            (SurelyCame (D.surely_has disk.old) (D.surely_lies disk.old) (D.faults disk.old) (D.faults disk.new)) self.now.mode (marks_of marks.now)) }
        ensures refusals { IfErr result (MayRefuse self.now.mode) }
        ensures unread { self.now.mode ≡ RecoverMode.None → disk.new ≡ disk.old }
        ensures known { D.is_known disk.old → D.is_known disk.new }
        ensures same { D.byte_at disk.new ≡ D.byte_at disk.old }
        ensures has { (b o n : ℕ) → D.surely_has disk.old b o n → D.surely_has disk.new b o n }
        ensures lies { (b o n : ℕ) → D.surely_lies disk.old b o n → D.surely_lies disk.new b o n }
        ensures counted { D.faults disk.old ≤ D.faults disk.new }
    {
        let none = Listings::none(alloc.clone()?);
        self.run_with(alloc, disk, shards, marks, none)
    }

    /// The same as `run`, with listings that workers added in any order. It takes what each listing keeps, and reads each block without a
    /// listing itself. A listing of other sizes is ignored. The result is the opening of the bytes that the listings list, together with
    /// the disk's bytes of the other blocks.
    pub fn run_with<A: Allocator + Clone, D: Disk>(
        &self,
        alloc: &A,
        disk: &mut D,
        shards: usize,
        marks: &[Tombstone],
        listings: Listings<A, D>,
    ) -> Result<Recovered<A>>
        requires sizes { AreSizes (sizes_of self.now) }
        requires small { self.now.block_size ≤ 2 ^ 32 }
        requires shards { 0 < shards }
        ensures recovered { (bytes : ℕ → ℕ → ℕ) (failed : ℕ → ℕ → Bool) → (self.now.mode ≡ RecoverMode.None)
            ⊎ (D.is_known disk.old × AreSources (sizes_of self.now) self.now.blocks listings.slots.items bytes (D.byte_at disk.old) failed)
            → IfOk result (λ recovered. IsRecovered (sizes_of self.now) self.now.blocks bytes
            (sure_of (sizes_of self.now) listings.slots.items failed
            (SurelyCame (D.surely_has disk.old) (D.surely_lies disk.old) (D.faults disk.old) (D.faults disk.new))) self.now.mode (marks_of marks.now)
            (opened_of recovered)) }
        ensures some { IfOk result (λ recovered. IsOpening (sizes_of self.now) self.now.blocks (marks_of marks.now) (opened_of recovered)) }
        ensures refused { (bytes : ℕ → ℕ → ℕ) (failed : ℕ → ℕ → Bool) → (self.now.mode ≡ RecoverMode.None)
            ⊎ (D.is_known disk.old × AreSources (sizes_of self.now) self.now.blocks listings.slots.items bytes (D.byte_at disk.old) failed)
            → IfErr result (IsRefused (sizes_of self.now) self.now.blocks bytes
            (sure_of (sizes_of self.now) listings.slots.items failed
            (SurelyCame (D.surely_has disk.old) (D.surely_lies disk.old) (D.faults disk.old) (D.faults disk.new))) self.now.mode (marks_of marks.now)) }
        ensures refusals { IfErr result (MayRefuse self.now.mode) }
        ensures unread { self.now.mode ≡ RecoverMode.None → disk.new ≡ disk.old }
        ensures known { D.is_known disk.old → D.is_known disk.new }
        ensures same { D.byte_at disk.new ≡ D.byte_at disk.old }
        ensures has { (b o n : ℕ) → D.surely_has disk.old b o n → D.surely_has disk.new b o n }
        ensures lies { (b o n : ℕ) → D.surely_lies disk.old b o n → D.surely_lies disk.new b o n }
        ensures counted { D.faults disk.old ≤ D.faults disk.new }
    {
        let mut read = self.read(alloc, disk, shards, listings)?;
        read.take_marks(marks);
        let BlocksRead {
            index,
            greatest,
            clean,
            ..
        } = read;
        let Some(next) = greatest.checked_add(1) else {
            return Err(Error::SequenceEnd);
        };
        Ok(Recovered { index, next, clean })
    }

    // Appends a listing of a block, if the block is the worker's. Returns the buffer.
    fn list_block<A: Allocator + Clone, D: Disk>(
        &self,
        alloc: &A,
        disk: &mut D,
        worker: u32,
        workers: u32,
        block: BlockId,
        buffer: Vec<u8, A>,
        listings: &mut Vec<BlockListing<A, D>, A>,
    ) -> Result<Vec<u8, A>>
        requires sizes { AreSizes (sizes_of self.now) }
        requires small { self.now.block_size ≤ 2 ^ 32 }
        requires workers { 0 < workers }
        requires there { block < self.now.blocks }
        requires len { vec_len buffer ≡ self.now.blob_index_size }
        ensures len { IfOk result (λ again. vec_len again ≡ self.now.blob_index_size) }
        ensures listed { AreListed (sizes_of self.now) self.now.blocks worker workers (D.is_known disk.old) (D.byte_at disk.old)
            (SurelyCame (D.surely_has disk.old) (D.surely_lies disk.old) (D.faults disk.old) (D.faults disk.new))
            listings.old.items listings.new.items }
        ensures all { OnOk result (map block_of listings.new.items
            ≡ map block_of listings.old.items ++ (if is_shared worker workers block then block ∷ [] else [])) }
        ensures refused { IsOkUnless result error.Memory }
        ensures known { D.is_known disk.old → D.is_known disk.new }
        ensures same { D.byte_at disk.new ≡ D.byte_at disk.old }
        ensures has { (b o n : ℕ) → D.surely_has disk.old b o n → D.surely_has disk.new b o n }
        ensures lies { (b o n : ℕ) → D.surely_lies disk.old b o n → D.surely_lies disk.new b o n }
        ensures counted { D.faults disk.old ≤ D.faults disk.new }
    {
        if block % workers != worker {
            return Ok(buffer);
        }
        let (listing, again) = BlockListing::read(alloc, disk, block, self.block_size, buffer)?;
        listings.push(listing)?;
        Ok(again)
    }

    /// Reads the chain of each block whose id modulo `workers` is `worker`, in ascending order, and appends a listing of each. In `None` it
    /// reads nothing. It allocates a buffer of one index, the entries of one index, and what is listed. There must be at least one worker.
    ///
    /// Errors: `Memory`. Listings that were appended before stay, and `run_with` reads the blocks without one.
    pub fn list<A: Allocator + Clone, D: Disk>(
        &self,
        alloc: &A,
        disk: &mut D,
        worker: u32,
        workers: u32,
        listings: &mut Vec<BlockListing<A, D>, A>,
    ) -> Result<()>
        requires sizes { AreSizes (sizes_of self.now) }
        requires small { self.now.block_size ≤ 2 ^ 32 }
        requires workers { 0 < workers }
        ensures listed { AreListed (sizes_of self.now) self.now.blocks worker workers (D.is_known disk.old) (D.byte_at disk.old)
            (SurelyCame (D.surely_has disk.old) (D.surely_lies disk.old) (D.faults disk.old) (D.faults disk.new))
            listings.old.items listings.new.items }
        ensures all { self.now.mode ≢ RecoverMode.None → OnOk result (map block_of listings.new.items
            ≡ map block_of listings.old.items ++ share_of worker workers 0 self.now.blocks) }
        ensures refused { IsOkUnless result error.Memory }
        ensures unread { self.now.mode ≡ RecoverMode.None → disk.new ≡ disk.old }
        ensures known { D.is_known disk.old → D.is_known disk.new }
        ensures same { D.byte_at disk.new ≡ D.byte_at disk.old }
        ensures has { (b o n : ℕ) → D.surely_has disk.old b o n → D.surely_has disk.new b o n }
        ensures lies { (b o n : ℕ) → D.surely_lies disk.old b o n → D.surely_lies disk.new b o n }
        ensures counted { D.faults disk.old ≤ D.faults disk.new }
    {
        if self.mode == RecoverMode::None {
            return Ok(());
        }
        let mut buffer = vec![in alloc.clone()?; 0u8; self.blob_index_size]?;
        'each_block: for block in 0..self.blocks {
            buffer = self.list_block(alloc, disk, worker, workers, block, buffer, listings)?;
        }
        Ok(())
    }
}
