//! Places in the shards for the hashes of a batch.
ghost use Rattle.std.specs.Prelude.{◌≡◌, ◌<◌, ◌≤◌, ◌+◌, ◌%◌, ◌⊎◌, ◌↔◌, ℕ, None, length, drop, slice_index_or, vec_capacity, IsTrue};
ghost use Rattle.std.specs.List.{All, Contains};
ghost use Rattle.std.specs.List.Sorted.{IsPermutation};
ghost use Rattle.foyer_block_index.specs.declared.indexer.HashedEntryAddress.{HashedEntryAddress};
ghost use Rattle.foyer_block_index.specs.Entries.{hashes};
ghost use Rattle.foyer_block_index.specs.Index.{belonging};
ghost use Rattle.foyer_block_index.specs.Probe.{Lacks};
ghost use Rattle.foyer_block_index.specs.declared.seats.Seat.{Seat};
ghost use Rattle.foyer_block_index.specs.Seats.{seat, seats_in, AreSeatsOf, Gathered, RunTaken, RunSeated, AddsSeats};
ghost use Rattle.foyer_block_index.specs.Shards.{map_of, room, source_at, HoldsSame, Has, HasRoom, Placed, Seated, PiecesSeated, AddsPlacesOf};

use crate::indexer::{EntryAddress, HashedEntryAddress};
use crate::shard::Shard;
use std::alloc::Allocator;

/// A hash that is to have a place, with the number of its shard.
#[derive(Clone, Copy)]
pub(crate) struct Seat {
    pub(crate) shard: u64,
    pub(crate) hash: u64,
}

// Whether a batch's record has no source.
fn is_piece(sources: &[Option<EntryAddress>], i: usize) -> bool
    ensures { IsTrue result ↔ (source_at sources.now i ≡ None) }
{
    match sources.get(i) {
        Some(Some(_)) => false,
        Some(None) => true,
        None => true,
    }
}

// Gathers the seats of a batch's records without a source, from record `from` on, until memory is refused. Gives the number of the first
// record that it didn't look at.
fn gather<A: Allocator>(
    seats: &mut Vec<Seat, A>,
    batch: &[HashedEntryAddress],
    sources: &[Option<EntryAddress>],
    from: usize,
    shards: usize,
) -> usize
    requires some { 0 < shards }
    requires from { from ≤ length batch.now }
    requires memory { 0 < vec_capacity seats.old }
    ensures memory { 0 < vec_capacity seats.new }
    ensures within { result ≤ length batch.now }
    ensures further { from < length batch.now → from < result }
    ensures ours { AreSeatsOf shards batch.now sources.now seats.new.items }
    ensures gathered { Gathered shards batch.now sources.now seats.new.items from result }
    ensures few { (number : ℕ) → seats_in number seats.new.items + belonging shards number (drop result batch.now)
        ≤ belonging shards number (drop from batch.now) }
{
    seats.clear();
    'each_record: for i in from..batch.len() {
        if is_piece(sources, i) {
            let hash = batch[i].hash;
            let shard = hash % shards as u64;
            if seats.push(Seat { shard, hash }).is_err() {
                return i;
            }
        }
    }
    batch.len()
}

// Gathers the hashes of seats that are in the shard of that number and have no place in it, from seat `from` on. Ends at the first seat of
// another shard, or if memory is refused. Gives the number of the first seat that it didn't look at.
fn take_run<A: Allocator>(
    news: &mut Vec<u64, A>,
    shard: &Shard<A>,
    seats: &[Seat],
    from: usize,
    number: u64,
) -> usize
    requires from { from < length seats.now }
    requires first { (d : Seat) → (slice_index_or seats.now from d).shard ≡ number }
    requires memory { 0 < vec_capacity news.old }
    ensures memory { 0 < vec_capacity news.new }
    ensures within { result ≤ length seats.now }
    ensures further { from < result }
    ensures absent { All (Lacks (hashes shard.now.entries)) news.new.items }
    ensures ours { All (λ hash. Contains seats.now (seat number hash)) news.new.items }
    ensures taken { RunTaken number shard.now seats.now news.new.items from result }
    ensures few { length news.new.items + seats_in number (drop result seats.now)
        ≤ seats_in number (drop from seats.now) }
{
    news.clear();
    'each_seat: for i in from..seats.len() {
        let Seat { shard: own, hash } = seats[i];
        if own != number {
            return i;
        }
        if shard.place(hash).is_none() {
            if news.push(hash).is_err() {
                return i;
            }
        }
    }
    seats.len()
}

// Makes places in the shard of that number for the hashes of a run of seats that begins at `from`. There is room for them. Gives the number
// of the first seat that has no place yet.
fn seat_run<A: Allocator>(
    shard: &mut Shard<A>,
    news: &mut Vec<u64, A>,
    seats: &[Seat],
    from: usize,
    number: u64,
) -> usize
    requires from { from < length seats.now }
    requires first { (d : Seat) → (slice_index_or seats.now from d).shard ≡ number }
    requires memory { 0 < vec_capacity news.old }
    requires room { seats_in number (drop from seats.now) ≤ shard.old.spare }
    ensures memory { 0 < vec_capacity news.new }
    ensures within { result ≤ length seats.now }
    ensures further { from < result }
    ensures same { HoldsSame shard.old shard.new }
    ensures kept { (hash : ℕ) → Has shard.old hash → Has shard.new hash }
    ensures only { (hash : ℕ) → Has shard.new hash → Has shard.old hash ⊎ Contains seats.now (seat number hash) }
    ensures seated { RunSeated number shard.new seats.now from result }
    ensures spare { shard.old.spare + seats_in number (drop result seats.now)
        ≤ shard.new.spare + seats_in number (drop from seats.now) }
{
    let end = take_run(news, shard, seats, from, number);
    news.sort_unstable();
    news.dedup();
    let found = news.as_slice();
    shard.merge(found);
    end
}

// Makes places for the hashes of seats, each in its own shard. Each shard has room for its seats. If seats of one shard stand together,
// their places are made together.
fn seat_gathered<A: Allocator>(
    shards: &mut Vec<Shard<A>, A>,
    news: &mut Vec<u64, A>,
    seats: &[Seat],
)
    requires memory { 0 < vec_capacity news.old }
    requires some { 0 < length shards.old.items }
    requires own { All (λ s. s.hash % length shards.old.items ≡ s.shard) seats.now }
    requires room { (i : ℕ) → i < length shards.old.items → seats_in i seats.now ≤ room shards.old.items i }
    ensures memory { 0 < vec_capacity news.new }
    ensures same { map_of shards.new.items ≡ map_of shards.old.items }
    ensures len { length shards.new.items ≡ length shards.old.items }
    ensures kept { (hash : ℕ) → Seated shards.old.items hash → Seated shards.new.items hash }
    ensures seated { All (λ s. Seated shards.new.items s.hash) seats.now }
    ensures places { AddsSeats shards.old.items shards.new.items seats.now }
    ensures room { (i : ℕ) → i < length shards.old.items
        → room shards.old.items i ≤ room shards.new.items i + seats_in i seats.now }
{
    let mut from = 0;
    'each_run: while from < seats.len() {
        let number = seats[from].shard;
        from = seat_run(&mut shards[number as usize], news, seats, from, number);
    }
}

// Orders seats by shard, unless they stand so.
fn order<A: Allocator>(seats: &mut Vec<Seat, A>)
    ensures moved { IsPermutation seats.old.items seats.new.items }
    ensures capacity { vec_capacity seats.new ≡ vec_capacity seats.old }
{
    if !seats.is_sorted_by_key(|seat| seat.shard) {
        seats.sort_unstable_by_key(|seat| (seat.shard, seat.hash));
    }
}

// Makes places for the hashes of a batch's records that have no source. Each shard has room for the batch. If there are fewer sources than
// records, the last records have none. The call looks only at the shards of these hashes.
pub(crate) fn seat_all<A: Allocator>(
    shards: &mut Vec<Shard<A>, A>,
    seats: &mut Vec<Seat, A>,
    news: &mut Vec<u64, A>,
    batch: &[HashedEntryAddress],
    sources: &[Option<EntryAddress>],
)
    requires some { 0 < length shards.old.items }
    requires seats { 0 < vec_capacity seats.old }
    requires memory { 0 < vec_capacity news.old }
    requires room { HasRoom (length shards.old.items) shards.old.items batch.now }
    ensures seats { 0 < vec_capacity seats.new }
    ensures memory { 0 < vec_capacity news.new }
    ensures same { map_of shards.new.items ≡ map_of shards.old.items }
    ensures seated { PiecesSeated shards.new.items batch.now sources.now }
    ensures places { AddsPlacesOf shards.old.items shards.new.items batch.now sources.now }
    ensures len { length shards.new.items ≡ length shards.old.items }
{
    let mut from = 0;
    'each_part: while from < batch.len() {
        from = gather(seats, batch, sources, from, shards.len());
        order(seats);
        let ordered = seats.as_slice();
        seat_gathered(shards, news, ordered);
    }
}
