//! The log of marks.
ghost use Rattle.std.specs.Prelude.{◌≡◌, ◌⊎◌, ℕ, ◌+◌, ◌*◌, ◌/◌, ◌%◌, ◌<◌, ◌≤◌, ◌^◌, ◌++◌, [], Ok, None, length, take, Err, IfOk, IfErr, OnOk, OnErr, IfSome, MatchResult};
ghost use Rattle.foyer_device_page.specs.declared.error.Error.TheVariants as error;
ghost use Rattle.foyer_io_engine.specs.Disk.{IfKnown, Becomes};
ghost use Rattle.foyer_block_tombstone.specs.Appended.{DidAppend, DidPut, IsPutBefore, IsPutBehind, IsPutFrom};
ghost use Rattle.foyer_block_tombstone.specs.Pages.{AreApart, pages_of, places};
ghost use Rattle.foyer_block_tombstone.specs.Ring.{IsPut, IsPutAt, IsRead, IsTouched, GoesOnAt, marks_of, touched};
ghost use Rattle.foyer_block_tombstone.specs.Writes.{HasWritten, HasWrittenAtMost};
ghost use Rattle.foyer_block_tombstone.specs.PageBytes.{HasPage, HasPages, CanHoldLog, HoldsPage, ChangesPages, IsLogFault, IsOpenFault, ring_on};

use super::marks::{self, NO_MARK, Newest, take_marks};
use super::page::PageBuffer;
use foyer_block_index::tombstone::Tombstone;
use foyer_device_page::error::{Error, Result};
use foyer_device_partition::io::device::Partition;
use foyer_io_engine::io::engine::IoEngine;
use std::alloc::Allocator;
use std::marker::Model;

/// A ring of marks over the pages of partitions, in order: the mark that is put at a number stands in the slot of that
/// number modulo the number of slots.
pub struct TombstoneLog<E: IoEngine + Drop, P: Partition + Drop, A: Allocator> {
    buffer: PageBuffer<E, P, A>,
    pages: u64,
    slot: u64,
    // The mark of the greatest sequence. If an append was refused, the pages may lack it.
    newest: Tombstone,
}

// Written out, so that it is proved once.
impl<E: IoEngine + Drop, P: Partition + Drop, A: Allocator> Drop for TombstoneLog<E, P, A> {
    fn drop(self) {
        let TombstoneLog {
            buffer: _,
            pages: _,
            slot: _,
            newest: _,
        } = self;
    }
}

impl<E: IoEngine + Drop, P: Partition + Drop, A: Allocator> Model for TombstoneLog<E, P, A> {
    ghost use Rattle.std.specs.Prelude.{◌≡◌, ◌<◌, ◌^◌, IfSome};
    ghost use Rattle.foyer_io_engine.specs.Disk.{IfKnown};
    ghost use Rattle.foyer_block_tombstone.specs.Pages.{pages_of};
    ghost use Rattle.foyer_block_tombstone.specs.PageBytes.{HoldsPage};
    ghost use Rattle.foyer_block_tombstone.specs.Views.{LogView};

    ghost Value = { LogView E };

    ghost view = { λ l. record {
      engine = l.buffer.engine;
      places = l.buffer.places;
      page = l.buffer.page;
      slot = l.slot;
      newest = l.newest;
      writes = l.buffer.writes;
    } };

    ghost invariant = { λ l. (l.pages ≡ pages_of l.buffer.places) × (0 < l.pages) × (l.pages < 2 ^ 55)
        × (l.buffer.writes < 2 ^ 64)
        × IfSome l.buffer.page (λ n. IfKnown (E.disk l.buffer.engine) (λ d. HoldsPage d l.buffer.places n l.buffer.bytes)) };
}

// Gives the number after `count` marks that are put from `slot` on. If that number doesn't fit 64 bits, gives one of the same slot.
fn slot_behind(slot: u64, count: usize, slots: u64) -> u64
    requires { (0 < slots) × (slots < 2 ^ 63) }
    ensures far { slot + count < 2 ^ 64 → result ≡ slot + count }
    ensures same { result % slots ≡ (slot + count) % slots }
{
    let count = count as u64;
    match slot.checked_add(count) {
        Some(next) => next,
        None => slot % slots + count % slots,
    }
}

// Gives how many pages `count` marks come into, if they are put from the slot `start` on.
fn touched_pages(start: u64, count: usize, pages: u64) -> u64
    requires some { 0 < count }
    requires few { (0 < pages) × (pages < 2 ^ 55) }
    ensures exact { result ≡ touched start count pages }
    ensures few { result ≤ pages }
    ensures reach { (result ≡ pages) ⊎ (start % 256 + count ≤ 256 * result) }
    ensures each { (j : ℕ) → j < result → 256 * j < start % 256 + count }
{
    let slots = marks::SLOTS_PER_PAGE as u64;
    let count = count as u64;
    if count >= pages * slots {
        return pages;
    }
    pages.min((start % slots + count + (slots - 1)) / slots)
}

// Loads a page, puts into it those of the marks that come into it, and writes it. The marks begin at the slot `start`.
fn put_page<E: IoEngine + Drop, P: Partition + Drop, A: Allocator>(
    buffer: &mut PageBuffer<E, P, A>,
    page: u64,
    start: u64,
    slots: u64,
    marks: &[Tombstone],
) -> Result<()>
    requires within { (256 * page + 256 ≤ slots) × (start < slots) }
    requires fresh { IfSome buffer.old.page (λ n. IfKnown (E.disk buffer.old.engine) (λ d. HoldsPage d buffer.old.places n buffer.old.bytes)) }
    ensures places { buffer.new.places ≡ buffer.old.places }
    ensures written { Becomes (E.disk buffer.old.engine) (E.disk buffer.new.engine) (λ d e. ChangesPages d buffer.old.places (λ n. n ≡ page) e) }
    ensures put { OnOk result (Becomes (E.disk buffer.old.engine) (E.disk buffer.new.engine) (λ d e. (j : ℕ) → j < 256
        → IsPutAt slots start marks.now (256 * page + j) (ring_on d buffer.old.places (256 * page + j)) (ring_on e buffer.old.places (256 * page + j)))) }
    ensures fresh { OnOk result (IfSome buffer.new.page (λ n. IfKnown (E.disk buffer.new.engine) (λ d. HoldsPage d buffer.old.places n buffer.new.bytes))) }
    ensures once { MatchResult result
        (λ _. HasWritten buffer.old.writes 1 buffer.new.writes)
        (λ _. (buffer.new.writes ≡ buffer.old.writes) ⊎ HasWritten buffer.old.writes 1 buffer.new.writes) }
    ensures outside { IfKnown (E.disk buffer.old.engine) (λ d. result ≡ Err error.OutOfRange
        → ¬ HasPage d buffer.old.places page) }
    ensures counted { E.faults buffer.old.engine ≤ E.faults buffer.new.engine }
    ensures refused { IfErr result (IsLogFault (E.faults buffer.old.engine) (E.faults buffer.new.engine)) }
{
    buffer.fetch(page)?;
    buffer.put(page, start, slots, marks);
    buffer.flush()
}

// Takes the marks of each page, in order.
fn read_pages<E: IoEngine + Drop, P: Partition + Drop, A: Allocator>(
    buffer: &mut PageBuffer<E, P, A>,
    pages: u64,
    tombstones: &mut Vec<Tombstone, A>,
) -> Result<Newest>
    requires few { pages < 2 ^ 55 }
    requires fresh { buffer.old.page ≡ None }
    ensures read { IfOk result (λ newest. IfKnown (E.disk buffer.old.engine) (λ d.
        IsRead (ring_on d buffer.old.places) (256 * pages) tombstones.old.items tombstones.new.items newest.mark newest.slot)) }
    ensures fresh { IfOk result (λ _. IfSome buffer.new.page (λ n. IfKnown (E.disk buffer.new.engine) (λ d. HoldsPage d buffer.old.places n buffer.new.bytes))) }
    ensures places { buffer.new.places ≡ buffer.old.places }
    ensures kept { E.disk buffer.new.engine ≡ E.disk buffer.old.engine }
    ensures writes { buffer.new.writes ≡ buffer.old.writes }
    ensures before { take (length tombstones.old.items) tombstones.new.items ≡ tombstones.old.items }
    ensures counted { E.faults buffer.old.engine ≤ E.faults buffer.new.engine }
    ensures outside { IfKnown (E.disk buffer.old.engine) (λ d. result ≡ Err error.OutOfRange
        → ¬ HasPages d buffer.old.places pages) }
    ensures refused { IfErr result (λ e. (e ≡ error.Memory)
        ⊎ IsLogFault (E.faults buffer.old.engine) (E.faults buffer.new.engine) e) }
{
    let mut newest = Newest {
        mark: NO_MARK,
        slot: 1,
    };
    'pages: for page in 0..pages {
        buffer.load(page)?;
        take_marks(buffer.as_slice(), page, tombstones, &mut newest)?;
    }
    Ok(newest)
}

impl<E: IoEngine + Drop, P: Partition + Drop, A: Allocator> TombstoneLog<E, P, A> {
    /// How many marks a page has room for.
    pub const SLOTS_PER_PAGE: usize = marks::SLOTS_PER_PAGE;

    /// Opens the log in the pages of the partitions. Appends the log's marks to `tombstones`, in order of their slots. The log continues
    /// after the mark of the greatest sequence, the last one among equals, or at slot 1 if it is empty. Errors: `OutOfRange` if there is no
    /// page, if there are 2^55 or more, or if a page isn't there; `Memory`; `Io`. An error leaves `tombstones` as it was.
    pub fn open(
        alloc: A,
        partitions: Vec<P, A>,
        engine: E,
        tombstones: &mut Vec<Tombstone, A>,
    ) -> Result<TombstoneLog<E, P, A>>
    where
        A: Clone,
        ensures places { IfOk result (λ l. l.places ≡ places P.extent P.bytes partitions.items) }
        ensures kept { IfOk result (λ l. E.disk l.engine ≡ E.disk engine) }
        ensures marks { IfOk result (λ l. IfKnown (E.disk l.engine) (λ d.
            tombstones.new.items ≡ tombstones.old.items ++ marks_of (ring_on d l.places) (256 * pages_of l.places))) }
        ensures slot { IfOk result (λ l. IfKnown (E.disk l.engine) (λ d.
            GoesOnAt (ring_on d l.places) (256 * pages_of l.places) l.slot l.newest)) }
        ensures writes { IfOk result (λ l. l.writes ≡ 0) }
        ensures unchanged { OnErr result (tombstones.new.items ≡ tombstones.old.items) }
        ensures empty { pages_of (places P.extent P.bytes partitions.items) ≡ 0
            → OnErr result ((result ≡ Err error.OutOfRange) ⊎ (result ≡ Err error.Memory)) }
        ensures outside { IfKnown (E.disk engine) (λ d. result ≡ Err error.OutOfRange
            → ¬ CanHoldLog d (places P.extent P.bytes partitions.items)) }
        ensures refused { IfErr result (λ e. (e ≡ error.Memory) ⊎ IsOpenFault E.faults engine e) }
    {
        let mut buffer = PageBuffer::new(alloc, engine, partitions)?;
        let Some(pages) = buffer.page_count() else {
            return Err(Error::OutOfRange);
        };
        if pages == 0 {
            return Err(Error::OutOfRange);
        }
        let before = tombstones.len();
        match read_pages(&mut buffer, pages, tombstones) {
            Ok(newest) => Ok(TombstoneLog {
                buffer,
                pages,
                slot: newest.slot,
                newest: newest.mark,
            }),
            Err(e) => {
                tombstones.truncate(before);
                Err(e)
            }
        }
    }

    /// The number that the next mark is put at.
    pub fn slot(&self) -> u64
        ensures { result ≡ self.now.slot }
    {
        self.slot
    }

    /// How many pages were written since it was opened, modulo 2^64. A write that failed counts too.
    pub fn page_writes(&self) -> u64
        ensures { result ≡ self.now.writes }
    {
        self.buffer.writes()
    }

    // Puts the marks at the numbers from `slot` on, and writes each page that they come into once. This asks that no two partitions
    // overlap. Without marks it writes nothing. Errors: `OutOfRange` if a page isn't there; `Io`. An error leaves `slot` as it was. Any
    // bytes may then stand in the pages that the marks come into.
    fn put_each(&mut self, marks: &[Tombstone]) -> Result<()>
        ensures places { self.new.places ≡ self.old.places }
        ensures newest { self.new.newest ≡ self.old.newest }
        ensures slot { OnOk result ((self.old.slot + length marks.now < 2 ^ 64 → self.new.slot ≡ self.old.slot + length marks.now)
            × (self.new.slot % (256 * pages_of self.old.places) ≡ (self.old.slot + length marks.now) % (256 * pages_of self.old.places))) }
        ensures back { OnErr result ((self.new.slot ≡ self.old.slot) × (self.new.page ≡ None)) }
        ensures put { OnOk result (Becomes (E.disk self.old.engine) (E.disk self.new.engine) (λ d e. AreApart self.old.places
            → IsPut (256 * pages_of self.old.places) (ring_on d self.old.places) self.old.slot marks.now (ring_on e self.old.places))) }
        ensures written { Becomes (E.disk self.old.engine) (E.disk self.new.engine) (λ d e. ChangesPages d self.old.places
            (IsTouched (256 * pages_of self.old.places) self.old.slot (length marks.now)) e) }
        ensures once { MatchResult result
            (λ _. HasWritten self.old.writes
            (touched self.old.slot (length marks.now) (pages_of self.old.places)) self.new.writes)
            (λ _. HasWrittenAtMost self.old.writes
            (touched self.old.slot (length marks.now) (pages_of self.old.places)) self.new.writes) }
        ensures outside { IfKnown (E.disk self.old.engine) (λ d. result ≡ Err error.OutOfRange
            → ¬ CanHoldLog d self.old.places) }
        ensures nothing { marks.now ≡ [] → (result ≡ Ok tt) × (self.new ≡ self.old) }
        ensures counted { E.faults self.old.engine ≤ E.faults self.new.engine }
        ensures refused { IfErr result (IsLogFault (E.faults self.old.engine) (E.faults self.new.engine)) }
    {
        let slots = marks::SLOTS_PER_PAGE as u64 * self.pages;
        if marks.is_empty() {
            return Ok(());
        }
        let start = self.slot % slots;
        let slot = slot_behind(self.slot, marks.len(), slots);
        match put_all(&mut self.buffer, self.pages, start, marks) {
            Ok(()) => {
                self.slot = slot;
                Ok(())
            }
            Err(e) => {
                self.buffer.unload();
                Err(e)
            }
        }
    }

    // Does what `put_each` does.
    fn put(&mut self, marks: &[Tombstone]) -> Result<()>
        ensures { DidPut E.disk E.faults self.old marks.now self.new result }
    {
        self.put_each(marks)
    }

    // Puts the marks at the numbers from this one on. `slot` stays.
    fn put_at(&mut self, number: u64, marks: &[Tombstone]) -> Result<()>
        ensures { IsPutFrom E.disk E.faults self.old number marks.now self.new result }
    {
        let slot = self.slot;
        self.slot = number;
        let outcome = self.put(marks);
        self.slot = slot;
        outcome
    }

    // Puts marks that are older than the newest one, which moves behind them. It is written there first, so that it is never missing.
    fn put_before_newest(&mut self, marks: &[Tombstone]) -> Result<()>
        requires some { 0 < length marks.now }
        requires few { length marks.now < 256 * pages_of self.old.places }
        ensures { IsPutBefore E.disk E.faults self.old marks.now self.new result }
    {
        let slots = marks::SLOTS_PER_PAGE as u64 * self.pages;
        let base = self.slot % slots;
        let newest = [self.newest];
        let moved = self.put_at(base + (marks.len() as u64 - 1), &newest);
        if moved.is_err() {
            return moved;
        }
        let outcome = self.put_at(base + (slots - 1), marks);
        if outcome.is_ok() {
            self.slot = slot_behind(self.slot, marks.len(), slots);
        }
        outcome
    }

    // Puts the marks behind the newest one. The last of them is the newest then.
    fn put_behind_newest(&mut self, marks: &[Tombstone], last: Tombstone) -> Result<()>
        ensures { IsPutBehind E.disk E.faults self.old marks.now last self.new result }
    {
        let outcome = self.put(marks);
        if outcome.is_ok() {
            self.newest = last;
        }
        outcome
    }

    /// Puts the marks at the numbers from `slot` on. If they are older than the newest mark, this one moves behind them: they are put from
    /// the number before `slot` on, and the newest mark at the last number. So an opening goes on behind all marks, although the batches
    /// of several flushers bring their marks in another order than that of the sequences. Asks that the marks' sequences rise, and that no
    /// two partitions overlap. Writes each page that the marks come into once, and once more for the newest mark if it moves. Without marks
    /// it writes nothing. Errors: `OutOfRange` if a page isn't there; `Io`. An error leaves `slot` as it was. Any bytes may then stand in
    /// the pages that were to be written.
    pub fn append(&mut self, marks: &[Tombstone]) -> Result<()>
        ensures { DidAppend E.disk E.faults self.old marks.now self.new result }
    {
        if marks.is_empty() {
            return Ok(());
        }
        let last = marks[marks.len() - 1];
        let slots = marks::SLOTS_PER_PAGE as u64 * self.pages;
        if self.newest.sequence <= last.sequence || slots <= marks.len() as u64 {
            self.put_behind_newest(marks, last)
        } else {
            self.put_before_newest(marks)
        }
    }
}

// Puts the marks, which begin at the slot `start`, into each page that they come into.
fn put_all<E: IoEngine + Drop, P: Partition + Drop, A: Allocator>(
    buffer: &mut PageBuffer<E, P, A>,
    pages: u64,
    start: u64,
    marks: &[Tombstone],
) -> Result<()>
    requires some { 0 < length marks.now }
    requires few { (0 < pages) × (pages < 2 ^ 55) × (pages ≡ pages_of buffer.old.places) }
    requires within { start < 256 * pages }
    requires counts { buffer.old.writes < 2 ^ 64 }
    requires fresh { IfSome buffer.old.page (λ n. IfKnown (E.disk buffer.old.engine) (λ d. HoldsPage d buffer.old.places n buffer.old.bytes)) }
    ensures places { buffer.new.places ≡ buffer.old.places }
    ensures written { Becomes (E.disk buffer.old.engine) (E.disk buffer.new.engine) (λ d e. ChangesPages d buffer.old.places (IsTouched (256 * pages) start (length marks.now)) e) }
    ensures put { OnOk result (Becomes (E.disk buffer.old.engine) (E.disk buffer.new.engine) (λ d e. AreApart buffer.old.places
        → IsPut (256 * pages) (ring_on d buffer.old.places) start marks.now (ring_on e buffer.old.places))) }
    ensures fresh { OnOk result (IfSome buffer.new.page (λ n. IfKnown (E.disk buffer.new.engine) (λ d. HoldsPage d buffer.old.places n buffer.new.bytes))) }
    ensures once { MatchResult result
        (λ _. HasWritten buffer.old.writes (touched start (length marks.now) pages) buffer.new.writes)
        (λ _. HasWrittenAtMost buffer.old.writes (touched start (length marks.now) pages) buffer.new.writes) }
    ensures outside { IfKnown (E.disk buffer.old.engine) (λ d. result ≡ Err error.OutOfRange
        → ¬ HasPages d buffer.old.places pages) }
    ensures counted { E.faults buffer.old.engine ≤ E.faults buffer.new.engine }
    ensures refused { IfErr result (IsLogFault (E.faults buffer.old.engine) (E.faults buffer.new.engine)) }
{
    let slots = marks::SLOTS_PER_PAGE as u64 * pages;
    let first = start / marks::SLOTS_PER_PAGE as u64;
    let touched = touched_pages(start, marks.len(), pages);
    'pages: for j in 0..touched {
        put_page(buffer, (first + j) % pages, start, slots, marks)?;
    }
    Ok(())
}
