//! The index: what each hash has, an address on the device or the mark of a delete.
ghost use Rattle.std.specs.Prelude.{◌≡◌, ◌<◌, ◌%◌, ◌↔◌, ℕ, List, [], length, MatchOption, IsTrue};
ghost use Rattle.std.specs.Prelude.{IfOk, OnOk, OnErr, IsOk, IsSome, IsOkUnless};
ghost use Rattle.std.specs.Bool.{OnTrue, OnFalse};
ghost use Rattle.std.specs.FinMap as map;
ghost use Rattle.foyer_block_index.specs.Insertion.{displaced, inserted, inserted_all, all_left_out, AllHeld};
ghost use Rattle.foyer_block_index.specs.Committing.{committed_all, put_count, PiecesHeld};
ghost use Rattle.foyer_block_index.specs.Probe.{HasPlace};
ghost use Rattle.foyer_block_index.specs.Removal.{without_addresses, without_marks};
ghost use Rattle.foyer_block_index.specs.Index.{address_at, HasRoomAt, HasRoomFor, KeepsIndex};
ghost use Rattle.foyer_block_index.specs.Greatest.{IsAbsent, HoldsNewest};
ghost use Rattle.foyer_block_index.specs.declared.indexer.HashedEntryAddress.{HashedEntryAddress};

use crate::manager::BlockId;
pub use crate::probe::{Probe, search};
use crate::seats::Seat;
use crate::shard::Shard;
use crate::tombstone::Tombstone;
use crate::{seats, shards};
use foyer_device_page::error::{Error, Result};
use std::alloc::Allocator;
use std::marker::Model;

/// The number of a put or a delete, in the order in which they were accepted.
pub type Sequence = u64;

/// A record's place: `len` bytes from byte `offset` of a block in its filling `filling`.
#[derive(Clone, Copy, Debug, PartialEq, Eq)]
pub struct EntryAddress {
    /// The block that has the record.
    pub block: BlockId,
    /// Where the record begins in the block, in bytes.
    pub offset: u32,
    /// The record's length in bytes, before it is rounded up to whole pages.
    pub len: u32,
    /// The sequence of the put.
    pub sequence: Sequence,
    /// The filling of the block in which the record was written.
    pub filling: u64,
}

/// An address with the hash that it is indexed under.
#[derive(Clone, Copy, Debug)]
pub struct HashedEntryAddress {
    /// The hash of its key.
    pub hash: u64,
    /// The address of its record.
    pub address: EntryAddress,
}

/// What the index holds for a hash.
#[derive(Clone, Copy, Debug, PartialEq, Eq)]
pub enum Index {
    /// The address of a record.
    Address(EntryAddress),
    /// The mark of a delete, with its sequence.
    Tombstone(Sequence),
}

/// A map from hashes to what they have, and the room of each of its shards. Among the insertions for a hash the one of the greatest
/// sequence stays, and the last one among equals.
#[derive(Drop)]
pub struct Indexer<A: Allocator> {
    shards: Vec<Shard<A>, A>,
    // A count for each shard. A batch that enters or leaves uses the counts of its own shards, until it is done.
    counts: Vec<usize, A>,
    // The seats of a batch, while its hashes get their places.
    seats: Vec<Seat, A>,
    // The hashes of those seats that are in one shard and have no place yet.
    news: Vec<u64, A>,
}

impl<A: Allocator> Model for Indexer<A> {
    ghost use Rattle.std.specs.Prelude.{◌≡◌, ◌<◌, length, vec_capacity};
    ghost use Rattle.foyer_block_index.specs.Index.{IndexState, index_state_code};
    ghost use Rattle.foyer_block_index.specs.Shards.{state_of, AreFilled};

    ghost Value = { IndexState };

    ghost coded = { index_state_code };

    ghost view = { λ a. state_of a.shards.items };

    ghost invariant = { λ a. (0 < length a.shards.items)
        × (length a.counts.items ≡ length a.shards.items)
        × (0 < vec_capacity a.seats)
        × (0 < vec_capacity a.news)
        × AreFilled a.shards.items };
}

impl<A: Allocator + Clone> Indexer<A> {
    /// Gives an empty index with `shards` shards, of which there must be at least one. Errors: `Memory`.
    pub fn new(alloc: A, shards: usize) -> Result<Indexer<A>>
        requires { 0 < shards }
        ensures empty { IfOk result (λ indexer. indexer.slots ≡ map.empty) }
        ensures shards { IfOk result (λ indexer. length indexer.rooms ≡ shards) }
        ensures refused { IsOkUnless result Error.Memory }
    {
        let counts = shards::zeros(alloc.clone()?, shards)?;
        let seats = Vec::with_capacity(alloc.clone()?, 1)?;
        let news = Vec::with_capacity(alloc.clone()?, 1)?;
        let shards = shards::empty(alloc, shards)?;
        Ok(Indexer {
            shards,
            counts,
            seats,
            news,
        })
    }

    /// Inserts a mark, and gives the address that it replaces, if there is one. Errors: `Memory`, only if the hash has nothing yet and its
    /// shard has no room. Then each hash has what it had.
    pub fn insert_tombstone(
        &mut self,
        hash: u64,
        sequence: Sequence,
    ) -> Result<Option<EntryAddress>>
        ensures inserted { OnOk result
            (self.new.slots ≡ inserted self.old.slots hash (Index.Tombstone sequence)) }
        ensures answer { IfOk result (λ answer.
            answer ≡ displaced (map.get self.old.slots hash) (Index.Tombstone sequence)) }
        ensures err { OnErr result (KeepsIndex self.old self.new) }
        ensures refused { IsOkUnless result Error.Memory }
        ensures held { IsSome (map.get self.old.slots hash) → IsOk result }
        ensures room { HasRoomAt self.old.rooms hash → IsOk result }
    {
        shards::enter(&mut self.shards, hash, Index::Tombstone(sequence))
    }

    /// Gives a view of the shard of this number, which must be there. The view has the hashes of the index that belong there, and 0 turns.
    pub fn probe(&self, shard: usize) -> Probe<'_>
        requires { shard < length self.now.rooms }
        ensures hashes { (hash : ℕ) → HasPlace result.hashes hash
            ↔ ((hash % length self.now.rooms ≡ shard) × IsSome (map.get self.now.slots hash)) }
        ensures turns { result.turns ≡ 0 }
    {
        self.shards[shard].probe()
    }

    /// Gives the address of a hash, or `None` if the hash has a mark or nothing.
    pub fn get(&self, hash: u64) -> Option<EntryAddress>
        ensures { result ≡ address_at self.now.slots hash }
    {
        match shards::find(&self.shards, hash) {
            Some(Index::Address(address)) => Some(address),
            Some(Index::Tombstone(_)) => None,
            None => None,
        }
    }

    /// Inserts addresses in order. Gives those that don't stay, in that order and in the batch's memory. For an insertion that is the
    /// address that it replaces, or its own if the hash has something newer. Errors: `Memory`, only if a hash of the batch has nothing yet
    /// and a shard lacks room. Then each hash has what it had.
    pub fn insert_batch(
        &mut self,
        batch: Vec<HashedEntryAddress, A>,
    ) -> Result<Vec<HashedEntryAddress, A>>
        ensures inserted { OnOk result (self.new.slots ≡ inserted_all self.old.slots batch.items) }
        ensures answers { IfOk result
            (λ answers. answers.items ≡ all_left_out self.old.slots batch.items) }
        ensures err { OnErr result (KeepsIndex self.old self.new) }
        ensures refused { IsOkUnless result Error.Memory }
        ensures overwrites { AllHeld self.old.slots batch.items → IsOk result }
        ensures room { HasRoomFor self.old.rooms batch.items → IsOk result }
    {
        let mut batch = batch;
        shards::count(&mut self.counts, &batch);
        match shards::reserve(&mut self.shards, &self.counts, &batch) {
            Ok(()) => seats::seat_all(
                &mut self.shards,
                &mut self.seats,
                &mut self.news,
                &batch,
                &[],
            ),
            Err(refused) => {
                if !shards::holds_all(&self.shards, &batch) {
                    return Err(refused);
                }
            }
        }
        let answers = shards::enter_all(&mut self.shards, &mut batch);
        batch.truncate(answers);
        Ok(batch)
    }

    // Inserts addresses in order.
    fn enter_all(&mut self, entries: &[HashedEntryAddress]) -> Result<()>
        ensures inserted { OnOk result (self.new.slots ≡ inserted_all self.old.slots entries.now) }
        ensures err { OnErr result (KeepsIndex self.old self.new) }
        ensures refused { IsOkUnless result Error.Memory }
        ensures overwrites { AllHeld self.old.slots entries.now → IsOk result }
        ensures room { HasRoomFor self.old.rooms entries.now → IsOk result }
    {
        shards::count(&mut self.counts, entries);
        match shards::reserve(&mut self.shards, &self.counts, entries) {
            Ok(()) => seats::seat_all(
                &mut self.shards,
                &mut self.seats,
                &mut self.news,
                entries,
                &[],
            ),
            Err(refused) => {
                if !shards::holds_all(&self.shards, entries) {
                    return Err(refused);
                }
            }
        }
        shards::insert_all(&mut self.shards, entries);
        Ok(())
    }

    /// Inserts addresses in order, and gives the batch back empty, with its memory. It doesn't give the addresses that don't stay. Errors:
    /// `Memory`, only if a hash of the batch has nothing yet and a shard lacks room. Then each hash has what it had. A large batch goes in
    /// faster than by `insert_batch`, because it is ordered by shard first. The ordering takes up to twice the batch's bytes. If they are
    /// refused, the batch goes in unordered.
    pub fn insert_all(
        &mut self,
        batch: Vec<HashedEntryAddress, A>,
    ) -> Result<Vec<HashedEntryAddress, A>>
        ensures inserted { OnOk result (self.new.slots ≡ inserted_all self.old.slots batch.items) }
        ensures empty { IfOk result (λ again. again.items ≡ []) }
        ensures err { OnErr result (KeepsIndex self.old self.new) }
        ensures refused { IsOkUnless result Error.Memory }
        ensures overwrites { AllHeld self.old.slots batch.items → IsOk result }
        ensures room { HasRoomFor self.old.rooms batch.items → IsOk result }
    {
        let mut batch = batch;
        shards::arrange(&mut batch, self.shards.len());
        self.enter_all(&batch)?;
        batch.clear();
        Ok(batch)
    }

    /// Enters the records of a block into the index, in order, and gives how many of them are puts. There must be as many sources as
    /// records. A record without a source is inserted, and is a put. A record with a source replaces that address if its hash has just that
    /// address, and is a put then. Errors: `Memory`, only if a hash of a record without a source has nothing yet and a shard lacks room.
    /// Then each hash has what it had.
    pub fn commit_batch(
        &mut self,
        batch: &[HashedEntryAddress],
        sources: &[Option<EntryAddress>],
    ) -> Result<usize>
        requires { length sources.now ≡ length batch.now }
        ensures committed { OnOk result
            (self.new.slots ≡ committed_all self.old.slots batch.now sources.now) }
        ensures puts { IfOk result (λ n. n ≡ put_count self.old.slots batch.now sources.now) }
        ensures err { OnErr result (KeepsIndex self.old self.new) }
        ensures refused { IsOkUnless result Error.Memory }
        ensures overwrites { PiecesHeld self.old.slots batch.now sources.now → IsOk result }
        ensures room { HasRoomFor self.old.rooms batch.now → IsOk result }
    {
        shards::count(&mut self.counts, batch);
        match shards::reserve(&mut self.shards, &self.counts, batch) {
            Ok(()) => seats::seat_all(
                &mut self.shards,
                &mut self.seats,
                &mut self.news,
                batch,
                sources,
            ),
            Err(refused) => {
                if !shards::holds_pieces(&self.shards, batch, sources) {
                    return Err(refused);
                }
            }
        }
        Ok(shards::commit_all(&mut self.shards, batch, sources))
    }

    /// Moves a hash from one address to another of the same sequence, if the hash has the first address. Says whether it moved the hash.
    pub fn replace(&mut self, hash: u64, old: &EntryAddress, new: EntryAddress) -> bool
        requires { old.now.sequence ≡ new.sequence }
        ensures answer { IsTrue result
            ↔ (map.get self.old.slots hash ≡ Some (Index.Address old.now)) }
        ensures replaced { OnTrue result
            (self.new.slots ≡ map.insert self.old.slots hash (Index.Address new)) }
        ensures unchanged { OnFalse result (self.new.slots ≡ self.old.slots) }
    {
        shards::replace(
            &mut self.shards,
            hash,
            Index::Address(*old),
            Index::Address(new),
        )
    }

    /// Removes a hash if it has that very address. Says whether it did.
    pub fn remove(&mut self, hash: u64, address: &EntryAddress) -> bool
        ensures answer { IsTrue result
            ↔ (map.get self.old.slots hash ≡ Some (Index.Address address.now)) }
        ensures removed { OnTrue result (self.new.slots ≡ map.remove self.old.slots hash) }
        ensures unchanged { OnFalse result (self.new.slots ≡ self.old.slots) }
    {
        shards::remove(&mut self.shards, hash, Index::Address(*address))
    }

    /// Removes each hash of the list that has that very address.
    pub fn remove_batch(&mut self, addresses: &[HashedEntryAddress])
        ensures { self.new.slots ≡ without_addresses self.old.slots addresses.now }
    {
        shards::remove_addresses(&mut self.shards, &mut self.counts, addresses);
    }

    /// Removes each hash of the list that has a mark of that very sequence.
    pub fn remove_marks(&mut self, marks: &[Tombstone])
        ensures { self.new.slots ≡ without_marks self.old.slots marks.now }
    {
        shards::remove_marks(&mut self.shards, &mut self.counts, marks);
    }

    /// Removes everything.
    pub fn clear(&mut self)
        ensures { self.new.slots ≡ map.empty }
    {
        shards::clear(&mut self.shards);
    }
}

/// After any insertions of addresses into an empty index, a hash has the newest of its own, if it has any. None of them has a greater
/// sequence, and none after it has an equal one.
pub fn greatest_sequence_stays()
    ensures { (entries : List HashedEntryAddress) (hash : ℕ)
        → MatchOption (map.get (inserted_all map.empty entries) hash)
        (IsAbsent entries hash) (HoldsNewest entries hash) }
{}
