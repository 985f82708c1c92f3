//! The shards of the index: a hash lies in the shard of its number modulo the count of shards.
ghost use Rattle.std.specs.Prelude.{◌≡◌, ◌≢◌, ◌<◌, ◌≤◌, ◌+◌, ◌%◌, ◌↔◌, ℕ, None, [], length, take, slice_index};
ghost use Rattle.std.specs.Prelude.{IfOk, OnOk, OnErr, IsOk, IsSome, IsOkUnless, IsTrue, MatchOption, is_some, true};
ghost use Rattle.std.specs.Bool.{OnTrue, OnFalse};
ghost use Rattle.std.specs.List.Sorted.{IsPermutation};
ghost use Rattle.std.specs.FinMap as map;
ghost use Rattle.foyer_block_index.specs.Index.{belonging};
ghost use Rattle.foyer_block_index.specs.Insertion.{displaced, inserted};
ghost use Rattle.foyer_block_index.specs.Insertion.{inserted_all, all_left_out, of_hash, AllHeld};
ghost use Rattle.foyer_block_index.specs.Committing.{is_put, committed_one, committed_all, put_count, PiecesHeld};
ghost use Rattle.foyer_block_index.specs.Removal.{without_addresses, without_marks};
ghost use Rattle.foyer_block_index.specs.Shards.{map_of, Seated, PiecesSeated, Placed, AddsNoPlace, AddsPlaceOf, AreFilled, AreFilledBut};
ghost use Rattle.foyer_block_index.specs.Shards.{room, AreCountsOf, HasRoom, TakesOnePlace};

use crate::indexer::{EntryAddress, HashedEntryAddress, Index};
use crate::shard::Shard;
use crate::tombstone::Tombstone;
use foyer_device_page::error::{Error, Result};
use std::alloc::Allocator;

// A number for each shard.
pub(crate) fn zeros<A: Allocator>(alloc: A, shards: usize) -> Result<Vec<usize, A>>
    ensures ok { IfOk result (λ counts. length counts.items ≡ shards) }
    ensures refused { IsOkUnless result Error.Memory }
{
    Ok(vec![in alloc; 0; shards]?)
}

pub(crate) fn empty<A: Allocator + Clone>(alloc: A, shards: usize) -> Result<Vec<Shard<A>, A>>
    ensures len { IfOk result (λ made. length made.items ≡ shards) }
    ensures empty { IfOk result (λ made. map_of made.items ≡ map.empty) }
    ensures filled { IfOk result (λ made. AreFilled made.items) }
    ensures refused { IsOkUnless result Error.Memory }
{
    let mut made = Vec::with_capacity(alloc.clone()?, shards)?;
    for _ in 0..shards {
        made.push(Shard::new(alloc.clone()?))?;
    }
    Ok(made)
}

pub(crate) fn find<A: Allocator>(shards: &[Shard<A>], hash: u64) -> Option<Index>
    requires { 0 < length shards.now }
    ensures { result ≡ map.get (map_of shards.now) hash }
{
    shards[(hash % shards.len() as u64) as usize].get(hash)
}

// An insertion.
pub(crate) fn enter<A: Allocator + Clone>(
    shards: &mut Vec<Shard<A>, A>,
    hash: u64,
    next: Index,
) -> Result<Option<EntryAddress>>
    requires { 0 < length shards.old.items }
    ensures inserted { OnOk result
        (map_of shards.new.items ≡ inserted (map_of shards.old.items) hash next) }
    ensures answer { IfOk result
        (λ answer. answer ≡ displaced (map.get (map_of shards.old.items) hash) next) }
    ensures err { OnErr result (map_of shards.new.items ≡ map_of shards.old.items) }
    ensures len { length shards.new.items ≡ length shards.old.items }
    ensures refused { IsOkUnless result Error.Memory }
    ensures succeeds { 0 < room shards.old.items (hash % length shards.old.items) → IsOk result }
    ensures held { IsSome (map.get (map_of shards.old.items) hash) → IsOk result }
    ensures seated { Seated shards.old.items hash → IsOk result }
    ensures kept { (other : ℕ) → Seated shards.old.items other → Seated shards.new.items other }
    ensures places { AddsPlaceOf shards.old.items shards.new.items hash (IsOk result) }
    ensures room { TakesOnePlace shards.old.items shards.new.items hash }
{
    let place = (hash % shards.len() as u64) as usize;
    shards[place].enter(hash, next)
}

// Leaves the place of the hash vacant if the hash has just `held`, and says whether it did.
fn vacate<A: Allocator>(shards: &mut Vec<Shard<A>, A>, hash: u64, held: Index) -> bool
    requires { 0 < length shards.old.items }
    ensures answer { IsTrue result ↔ (map.get (map_of shards.old.items) hash ≡ Some held) }
    ensures removed { OnTrue result
        (map_of shards.new.items ≡ map.remove (map_of shards.old.items) hash) }
    ensures unchanged { OnFalse result (map_of shards.new.items ≡ map_of shards.old.items) }
    ensures len { length shards.new.items ≡ length shards.old.items }
    ensures places { AddsNoPlace shards.old.items shards.new.items }
{
    let place = (hash % shards.len() as u64) as usize;
    shards[place].vacate(hash, held)
}

// Removes the vacant places of the shard with this number.
fn sweep<A: Allocator>(shards: &mut Vec<Shard<A>, A>, place: usize)
    requires { place < length shards.old.items }
    ensures same { map_of shards.new.items ≡ map_of shards.old.items }
    ensures len { length shards.new.items ≡ length shards.old.items }
    ensures places { AddsNoPlace shards.old.items shards.new.items }
    ensures filled { (hash : ℕ) → Placed shards.new.items place hash → hash % length shards.old.items ≡ place
        → IsSome (map.get (map_of shards.new.items) hash) }
{
    shards[place].sweep();
}

// Removes the vacant places of the shard of a hash if the shard's count isn't 0, and makes the count 0.
fn sweep_counted<A: Allocator>(shards: &mut Vec<Shard<A>, A>, counts: &mut [usize], hash: u64)
    requires some { 0 < length shards.old.items }
    requires counts { length counts.old ≡ length shards.old.items }
    ensures same { map_of shards.new.items ≡ map_of shards.old.items }
    ensures len { length shards.new.items ≡ length shards.old.items }
    ensures places { AddsNoPlace shards.old.items shards.new.items }
    ensures others { (i : ℕ) → i ≢ hash % length shards.old.items → slice_index counts.new i ≡ slice_index counts.old i }
    ensures filled { (i : ℕ) (other : ℕ) → hash % length shards.old.items ≡ i → 0 < slice_index counts.old i
        → Placed shards.new.items i other → other % length shards.old.items ≡ i
        → IsSome (map.get (map_of shards.new.items) other) }
{
    let place = (hash % shards.len() as u64) as usize;
    if counts[place] > 0 {
        counts[place] = 0;
        sweep(shards, place);
    }
}

// Removes the hash if it has just `held`, and says whether it did.
pub(crate) fn remove<A: Allocator>(shards: &mut Vec<Shard<A>, A>, hash: u64, held: Index) -> bool
    requires { 0 < length shards.old.items }
    ensures answer { IsTrue result ↔ (map.get (map_of shards.old.items) hash ≡ Some held) }
    ensures removed { OnTrue result
        (map_of shards.new.items ≡ map.remove (map_of shards.old.items) hash) }
    ensures unchanged { OnFalse result (map_of shards.new.items ≡ map_of shards.old.items) }
    ensures len { length shards.new.items ≡ length shards.old.items }
    ensures filled { AreFilled shards.old.items → AreFilled shards.new.items }
{
    let is_held = vacate(shards, hash, held);
    if is_held {
        let place = (hash % shards.len() as u64) as usize;
        sweep(shards, place);
    }
    is_held
}

// Removes each hash of the list that has that very address.
pub(crate) fn remove_addresses<A: Allocator>(
    shards: &mut Vec<Shard<A>, A>,
    counts: &mut [usize],
    addresses: &[HashedEntryAddress],
)
    requires some { 0 < length shards.old.items }
    requires counts { length counts.old ≡ length shards.old.items }
    ensures removed { map_of shards.new.items
        ≡ without_addresses (map_of shards.old.items) addresses.now }
    ensures len { length shards.new.items ≡ length shards.old.items }
    ensures filled { AreFilled shards.old.items → AreFilled shards.new.items }
{
    clear_counts(counts, addresses);
    for entry in addresses {
        if vacate(shards, entry.hash, Index::Address(entry.address)) {
            let place = (entry.hash % counts.len() as u64) as usize;
            counts[place] = 1;
        }
    }
    'each_shard: for entry in addresses {
        sweep_counted(shards, counts, entry.hash);
    }
}

// Removes each hash of the list that has a mark of that very sequence.
pub(crate) fn remove_marks<A: Allocator>(
    shards: &mut Vec<Shard<A>, A>,
    counts: &mut [usize],
    marks: &[Tombstone],
)
    requires some { 0 < length shards.old.items }
    requires counts { length counts.old ≡ length shards.old.items }
    ensures removed { map_of shards.new.items ≡ without_marks (map_of shards.old.items) marks.now }
    ensures len { length shards.new.items ≡ length shards.old.items }
    ensures filled { AreFilled shards.old.items → AreFilled shards.new.items }
{
    'each_count: for mark in marks {
        let place = (mark.hash % counts.len() as u64) as usize;
        counts[place] = 0;
    }
    for mark in marks {
        if vacate(shards, mark.hash, Index::Tombstone(mark.sequence)) {
            let place = (mark.hash % counts.len() as u64) as usize;
            counts[place] = 1;
        }
    }
    'each_shard: for mark in marks {
        sweep_counted(shards, counts, mark.hash);
    }
}

// Writes over what the hash has if that is `old`, and says whether it did.
pub(crate) fn replace<A: Allocator>(
    shards: &mut Vec<Shard<A>, A>,
    hash: u64,
    old: Index,
    new: Index,
) -> bool
    requires { 0 < length shards.old.items }
    ensures answer { IsTrue result ↔ (map.get (map_of shards.old.items) hash ≡ Some old) }
    ensures replaced { OnTrue result
        (map_of shards.new.items ≡ map.insert (map_of shards.old.items) hash new) }
    ensures unchanged { OnFalse result (map_of shards.new.items ≡ map_of shards.old.items) }
    ensures len { length shards.new.items ≡ length shards.old.items }
    ensures places { AddsNoPlace shards.old.items shards.new.items }
    ensures kept { (other : ℕ) → Seated shards.old.items other → Seated shards.new.items other }
{
    let place = (hash % shards.len() as u64) as usize;
    shards[place].replace(hash, old, new)
}

pub(crate) fn clear<A: Allocator>(shards: &mut [Shard<A>])
    ensures empty { map_of shards.new ≡ map.empty }
    ensures filled { AreFilled shards.new }
{
    for shard in shards.iter_mut() {
        shard.clear();
    }
}

// Counts 0 for each shard in which an entry of a batch belongs.
fn clear_counts(counts: &mut [usize], batch: &[HashedEntryAddress])
    requires { 0 < length counts.old }
    ensures { (i : ℕ) → i < length counts.old → 0 < belonging (length counts.old) i batch.now
        → slice_index counts.new i ≡ 0 }
{
    for entry in batch {
        let place = (entry.hash % counts.len() as u64) as usize;
        counts[place] = 0;
    }
}

// Counts how many entries of a batch belong in each shard. Only the counts of shards in which some entry belongs have a meaning.
pub(crate) fn count(counts: &mut [usize], batch: &[HashedEntryAddress])
    requires { 0 < length counts.old }
    ensures { AreCountsOf (length counts.old) counts.new batch.now }
{
    clear_counts(counts, batch);
    for entry in batch {
        let place = (entry.hash % counts.len() as u64) as usize;
        counts[place] += 1;
    }
}

// Makes room in each shard for the entries of a batch that belong there, as counted. It succeeds if each shard has the room already.
// It looks only at the shards of these entries.
pub(crate) fn reserve<A: Allocator + Clone>(
    shards: &mut Vec<Shard<A>, A>,
    counts: &[usize],
    batch: &[HashedEntryAddress],
) -> Result<()>
    requires some { 0 < length shards.old.items }
    requires counts { length counts.now ≡ length shards.old.items }
    requires counted { AreCountsOf (length shards.old.items) counts.now batch.now }
    ensures room { OnOk result (HasRoom (length shards.new.items) shards.new.items batch.now) }
    ensures fits { HasRoom (length shards.old.items) shards.old.items batch.now → IsOk result }
    ensures kept { (i : ℕ) → room shards.old.items i ≤ room shards.new.items i }
    ensures unchanged { map_of shards.new.items ≡ map_of shards.old.items }
    ensures len { length shards.new.items ≡ length shards.old.items }
    ensures places { AddsNoPlace shards.old.items shards.new.items }
    ensures refused { IsOkUnless result Error.Memory }
{
    for entry in batch {
        let place = (entry.hash % counts.len() as u64) as usize;
        shards[place].reserve(counts[place])?;
    }
    Ok(())
}

// Whether each hash of a batch has something.
pub(crate) fn holds_all<A: Allocator>(shards: &[Shard<A>], batch: &[HashedEntryAddress]) -> bool
    requires { 0 < length shards.now }
    ensures { IsTrue result ↔ AllHeld (map_of shards.now) batch.now }
{
    for entry in batch {
        if find(shards, entry.hash).is_none() {
            return false;
        }
    }
    true
}

// Inserts a batch in order. The hashes have their places already. Moves the addresses that don't stay to the batch's front, and gives how
// many they are.
pub(crate) fn enter_all<A: Allocator + Clone>(
    shards: &mut Vec<Shard<A>, A>,
    batch: &mut [HashedEntryAddress],
) -> usize
    requires some { 0 < length shards.old.items }
    requires seated { PiecesSeated shards.old.items batch.old [] }
    requires filled { AreFilledBut shards.old.items batch.old [] 0 }
    ensures inserted { map_of shards.new.items ≡ inserted_all (map_of shards.old.items) batch.old }
    ensures answers { take result batch.new ≡ all_left_out (map_of shards.old.items) batch.old }
    ensures len { length shards.new.items ≡ length shards.old.items }
    ensures filled { AreFilled shards.new.items }
{
    let mut answers = 0;
    for i in 0..batch.len() {
        let HashedEntryAddress { hash, address } = batch[i];
        let entered: Result<_> = enter(shards, hash, Index::Address(address));
        if let Some(address) = entered.unwrap() {
            batch[answers] = HashedEntryAddress { hash, address };
            answers += 1;
        }
    }
    answers
}

// Whether the hash of a record has something, or the record a source.
fn holds_piece<A: Allocator>(
    shards: &[Shard<A>],
    record: &HashedEntryAddress,
    source: Option<EntryAddress>,
) -> bool
    requires { 0 < length shards.now }
    ensures { MatchOption source (result ≡ is_some (map.get (map_of shards.now) record.now.hash)) (λ _. result ≡ true) }
{
    match source {
        None => find(shards, record.hash).is_some(),
        Some(_) => true,
    }
}

// Whether each hash of a batch's records without a source has something.
pub(crate) fn holds_pieces<A: Allocator>(
    shards: &[Shard<A>],
    batch: &[HashedEntryAddress],
    sources: &[Option<EntryAddress>],
) -> bool
    requires some { 0 < length shards.now }
    requires all { length sources.now ≡ length batch.now }
    ensures { IsTrue result ↔ PiecesHeld (map_of shards.now) batch.now sources.now }
{
    'each_record: for i in 0..batch.len() {
        if !holds_piece(shards, &batch[i], sources[i]) {
            return false;
        }
    }
    true
}

// Enters a record into the index, and gives whether it is a put. If it has no source, its hash has its place already.
fn commit_one<A: Allocator + Clone>(
    shards: &mut Vec<Shard<A>, A>,
    record: &HashedEntryAddress,
    source: Option<EntryAddress>,
) -> bool
    requires some { 0 < length shards.old.items }
    requires seated { source ≡ None → Seated shards.old.items record.now.hash }
    ensures committed { map_of shards.new.items ≡ committed_one (map_of shards.old.items) record.now source }
    ensures put { result ≡ is_put (map.get (map_of shards.old.items) record.now.hash) source }
    ensures len { length shards.new.items ≡ length shards.old.items }
    ensures places { AddsPlaceOf shards.old.items shards.new.items record.now.hash (source ≡ None) }
    ensures kept { (other : ℕ) → Seated shards.old.items other → Seated shards.new.items other }
{
    match source {
        None => {
            let entered: Result<_> = enter(shards, record.hash, Index::Address(record.address));
            let _ = entered.unwrap();
            true
        }
        Some(over) => replace(
            shards,
            record.hash,
            Index::Address(over),
            Index::Address(record.address),
        ),
    }
}

// Orders a batch by shard. The entries of each hash keep their order. If memory for that is refused, the batch stays as it was.
pub(crate) fn arrange<A: Allocator>(batch: &mut Vec<HashedEntryAddress, A>, shards: usize)
    requires { 0 < shards }
    ensures moved { IsPermutation batch.old.items batch.new.items }
    ensures hashes { (hash : ℕ) → of_hash hash batch.new.items ≡ of_hash hash batch.old.items }
{
    let shards = shards as u64;
    let _ = batch.sort_by_cached_key(|entry| entry.hash % shards);
}

// Inserts a batch in order, whose hashes have their places.
pub(crate) fn insert_all<A: Allocator + Clone>(
    shards: &mut Vec<Shard<A>, A>,
    batch: &[HashedEntryAddress],
)
    requires some { 0 < length shards.old.items }
    requires seated { PiecesSeated shards.old.items batch.now [] }
    requires filled { AreFilledBut shards.old.items batch.now [] 0 }
    ensures inserted { map_of shards.new.items ≡ inserted_all (map_of shards.old.items) batch.now }
    ensures len { length shards.new.items ≡ length shards.old.items }
    ensures filled { AreFilled shards.new.items }
{
    'each_entry: for i in 0..batch.len() {
        commit_one(shards, &batch[i], None);
    }
}

// Enters the records of a batch into the index in order, and gives how many are puts. The hashes of records without a source have their
// places already.
pub(crate) fn commit_all<A: Allocator + Clone>(
    shards: &mut Vec<Shard<A>, A>,
    batch: &[HashedEntryAddress],
    sources: &[Option<EntryAddress>],
) -> usize
    requires some { 0 < length shards.old.items }
    requires all { length sources.now ≡ length batch.now }
    requires seated { PiecesSeated shards.old.items batch.now sources.now }
    requires filled { AreFilledBut shards.old.items batch.now sources.now 0 }
    ensures committed { map_of shards.new.items ≡ committed_all (map_of shards.old.items) batch.now sources.now }
    ensures puts { result ≡ put_count (map_of shards.old.items) batch.now sources.now }
    ensures len { length shards.new.items ≡ length shards.old.items }
    ensures filled { AreFilled shards.new.items }
{
    let mut puts = 0usize;
    'each_record: for i in 0..batch.len() {
        if commit_one(shards, &batch[i], sources[i]) {
            puts += 1;
        }
    }
    puts
}
