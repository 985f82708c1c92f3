//! A page of the log in memory.
ghost use Rattle.std.specs.Prelude.{◌≡◌, ◌⊎◌, ◌≤◌, ℕ, Ok, Some, None, ◌*◌, ◌+◌, ◌<◌, ◌^◌, [], Err, length, replicate, slice_index, IfOk, IfErr, OnOk, OnErr, IfSome, IfNone, MatchResult};
ghost use Rattle.std.specs.Borrow.{sem, Lends, Array, u8};
ghost use Rattle.foyer_format_layout.specs.Page.{page_up};
ghost use Rattle.foyer_device_page.specs.Refilled.{refilled};
ghost use Rattle.foyer_block_tombstone.specs.contracts.block.tombstone.page.PageBuffer.{the_row};
ghost use Rattle.foyer_device_page.specs.declared.error.Error.TheVariants as error;
ghost use Rattle.foyer_io_engine.specs.Disk.{IfKnown, Becomes, IsAccessFault};
ghost use Rattle.foyer_block_tombstone.specs.Pages.{pages_of, places};
ghost use Rattle.foyer_block_tombstone.specs.Ring.{IsPutAt};
ghost use Rattle.foyer_block_tombstone.specs.Mark.{mark_at};
ghost use Rattle.foyer_block_tombstone.specs.PageBytes.{HasPage, HoldsPage, IsPageWritten, ChangesPages, IsOpenFault};
ghost use Rattle.foyer_block_tombstone.specs.Writes.{HasWritten};

use super::marks::put_marks;
use super::pages::{page_count, read_page, write_page};
use foyer_block_index::tombstone::Tombstone;
use foyer_device_page::error::{Error, Result};
use foyer_device_page::io::bytes::{PAGE, Raw};
use foyer_device_partition::io::device::Partition;
use foyer_io_engine::io::engine::IoEngine;
use std::alloc::Allocator;
use std::marker::Model;
use std::mem::swap;

/// One page of the partitions, whose pages are numbered in order, in memory of its own. If no page is loaded, it has no bytes.
pub struct PageBuffer<E: IoEngine + Drop, P: Partition + Drop, A: Allocator> {
    engine: E,
    partitions: Vec<P, A>,
    // The bytes of its page, or none if no page is loaded.
    shown: Raw<A>,
    // The memory of a page while none is loaded, else no bytes; None only while an engine has it.
    spare: Option<Raw<A>>,
    page: Option<u64>,
    // How many writes of pages its engine was asked for, modulo 2^64.
    writes: u64,
}

// Written out, so that it is proved once.
impl<E: IoEngine + Drop, P: Partition + Drop, A: Allocator> Drop for PageBuffer<E, P, A> {
    fn drop(self) {
        let PageBuffer {
            engine: _,
            partitions: _,
            shown: _,
            spare: _,
            page: _,
            writes: _,
        } = self;
    }
}

impl<E: IoEngine + Drop, P: Partition + Drop, A: Allocator> Model for PageBuffer<E, P, A> {
    ghost use Rattle.foyer_block_tombstone.specs.Pages.{places};
    ghost use Rattle.foyer_block_tombstone.specs.Views.{PageView, HasMemory};

    ghost Value = { PageView E };

    ghost view = { λ b. record {
      engine = b.engine;
      places = places P.extent P.bytes b.partitions.items;
      page = b.page;
      bytes = b.shown;
      writes = b.writes;
    } };

    ghost invariant = { λ b. HasMemory b.page b.shown b.spare };
}

// Gives zeros, as many as a page has or none. Errors: `Memory`.
#[tactic(auto, unfolding(foyer_format_layout::specs::Page::page_up))]
fn page_memory<A: Allocator>(alloc: A, len: usize) -> Result<Raw<A>>
    requires { len ≤ 4096 }
    ensures zeros { IfOk result (λ r. r ≡ replicate (page_up len) 0) }
    ensures memory { OnErr result (result ≡ Err error.Memory) }
{
    match Raw::new(alloc, len) {
        Ok(memory) => Ok(memory),
        Err(_) => Err(Error::Memory),
    }
}

impl<E: IoEngine + Drop, P: Partition + Drop, A: Allocator + Clone> PageBuffer<E, P, A> {
    // Gives a buffer without a page. Errors: `Memory`.
    pub(super) fn new(alloc: A, engine: E, partitions: Vec<P, A>) -> Result<PageBuffer<E, P, A>>
        ensures new { IfOk result (λ b. b ≡ record {
          engine = engine;
          places = places P.extent P.bytes partitions.items;
          page = None;
          bytes = [];
          writes = 0;
        }) }
        ensures memory { OnErr result (result ≡ Err error.Memory) }
    {
        let shown = page_memory(alloc.clone()?, 0)?;
        let spare = page_memory(alloc, PAGE)?;
        Ok(PageBuffer {
            engine,
            partitions,
            shown,
            spare: Some(spare),
            page: None,
            writes: 0,
        })
    }

    /// Reads the page of that number. Errors: `OutOfRange` if the page isn't there; `Memory`; `Io`.
    pub fn open(
        alloc: A,
        engine: E,
        partitions: Vec<P, A>,
        page: u64,
    ) -> Result<PageBuffer<E, P, A>>
        ensures loaded { IfOk result (λ b. b.page ≡ Some page) }
        ensures places { IfOk result (λ b. b.places ≡ places P.extent P.bytes partitions.items) }
        ensures kept { IfOk result (λ b. E.disk b.engine ≡ E.disk engine) }
        ensures writes { IfOk result (λ b. b.writes ≡ 0) }
        ensures read { IfOk result (λ b. IfKnown (E.disk b.engine) (λ d. HoldsPage d b.places page b.bytes)) }
        ensures absent { pages_of (places P.extent P.bytes partitions.items) ≤ page
            → OnErr result ((result ≡ Err error.OutOfRange) ⊎ (result ≡ Err error.Memory)) }
        ensures outside { IfKnown (E.disk engine) (λ d. result ≡ Err error.OutOfRange
            → ¬ HasPage d (places P.extent P.bytes partitions.items) page) }
        ensures refused { IfErr result (λ e. (e ≡ error.Memory) ⊎ IsOpenFault E.faults engine e) }
    {
        let mut buffer = PageBuffer::new(alloc, engine, partitions)?;
        buffer.load(page)?;
        Ok(buffer)
    }
}

impl<E: IoEngine + Drop, P: Partition + Drop, A: Allocator> PageBuffer<E, P, A> {
    /// Reads its page again; without a page it reads nothing. After a refusal, OutOfRange or Io, no page is loaded.
    pub fn update(&mut self) -> Result<()>
        ensures places { self.new.places ≡ self.old.places }
        ensures kept { E.disk self.new.engine ≡ E.disk self.old.engine }
        ensures writes { self.new.writes ≡ self.old.writes }
        ensures loaded { OnOk result (self.new.page ≡ self.old.page) }
        ensures read { OnOk result (IfSome self.old.page (λ n.
            IfKnown (E.disk self.old.engine) (λ d. HoldsPage d self.old.places n self.new.bytes))) }
        ensures idle { self.old.page ≡ None → (result ≡ Ok tt) × (self.new ≡ self.old) }
        ensures none { OnErr result (self.new.page ≡ None) }
        ensures outside { IfKnown (E.disk self.old.engine) (λ d. result ≡ Err error.OutOfRange
            → IfSome self.old.page (λ n. ¬ HasPage d self.old.places n)) }
        ensures counted { E.faults self.old.engine ≤ E.faults self.new.engine }
        ensures refused { IfErr result (IsAccessFault (E.faults self.old.engine) (E.faults self.new.engine)) }
    {
        match self.page {
            Some(page) => self.load(page),
            None => Ok(()),
        }
    }

    /// Reads the page of that number in the place of the page that it had. Errors: `OutOfRange` if the page isn't there; `Io`. After a refusal
    /// no page is loaded.
    pub fn load(&mut self, page: u64) -> Result<()>
        ensures places { self.new.places ≡ self.old.places }
        ensures kept { E.disk self.new.engine ≡ E.disk self.old.engine }
        ensures writes { self.new.writes ≡ self.old.writes }
        ensures loaded { OnOk result (self.new.page ≡ Some page) }
        ensures size { OnOk result (length self.new.bytes ≡ 4096) }
        ensures read { OnOk result (IfKnown (E.disk self.old.engine) (λ d. HoldsPage d self.old.places page self.new.bytes)) }
        ensures none { OnErr result (self.new.page ≡ None) }
        ensures absent { pages_of self.old.places ≤ page → result ≡ Err error.OutOfRange }
        ensures outside { IfKnown (E.disk self.old.engine) (λ d. result ≡ Err error.OutOfRange
            → ¬ HasPage d self.old.places page) }
        ensures counted { E.faults self.old.engine ≤ E.faults self.new.engine }
        ensures refused { IfErr result (IsAccessFault (E.faults self.old.engine) (E.faults self.new.engine)) }
    {
        self.unload();
        let memory = self.spare.take().unwrap();
        let (mut memory, outcome) = read_page(&mut self.engine, &self.partitions, page, memory);
        if let Err(e) = outcome {
            self.spare = Some(memory);
            return Err(e);
        }
        swap(&mut self.shown, &mut memory);
        self.spare = Some(memory);
        self.page = Some(page);
        Ok(())
    }

    /// Writes its bytes over its page; without a page it writes nothing. A refusal, OutOfRange or Io, leaves the page
    /// loaded; after Io any bytes may stand in it on the disk. The write is counted, however it ends.
    pub fn flush(&mut self) -> Result<()>
        ensures same { (self.new.places ≡ self.old.places) × (self.new.page ≡ self.old.page)
            × (self.new.bytes ≡ self.old.bytes) }
        ensures idle { self.old.page ≡ None → (result ≡ Ok tt) × (self.new ≡ self.old) }
        ensures written { IfSome self.old.page (λ n. Becomes (E.disk self.old.engine) (E.disk self.new.engine) (λ d e. MatchResult result
            (λ _. IsPageWritten d self.old.places n self.old.bytes e)
            (λ _. ChangesPages d self.old.places (λ m. m ≡ n) e))) }
        ensures writes { IfSome self.old.page (λ _. HasWritten self.old.writes 1 self.new.writes) }
        ensures hidden { E.disk self.old.engine ≡ None → E.disk self.new.engine ≡ None }
        ensures outside { IfKnown (E.disk self.old.engine) (λ d. result ≡ Err error.OutOfRange
            → IfSome self.old.page (λ n. ¬ HasPage d self.old.places n)) }
        ensures counted { E.faults self.old.engine ≤ E.faults self.new.engine }
        ensures refused { IfErr result (IsAccessFault (E.faults self.old.engine) (E.faults self.new.engine)) }
    {
        let Some(page) = self.page else {
            return Ok(());
        };
        self.writes = self.writes.wrapping_add(1);
        write_page(
            &mut self.engine,
            &self.partitions,
            page,
            self.shown.as_slice(),
        )
    }

    /// How many pages it was asked to write since it was opened, modulo 2^64. A write that failed counts too.
    pub fn writes(&self) -> u64
        ensures { result ≡ self.now.writes }
    {
        self.writes
    }

    /// Gives the bytes of its page, or none if no page is loaded.
    pub fn as_slice(&self) -> &[u8]
        ensures { result.now ≡ self.now.bytes }
    {
        self.shown.as_slice()
    }

    /// Gives the bytes of its page, to be written over, or none if no page is loaded.
    pub fn as_mut_slice(&mut self) -> &mut [u8]
        ensures* writes_back { sem 𝓛
            (Lends (the_row E.row P.row A.row E.IoEngine P.Partition A.Allocator) (Array u8 0) self.entry result
            (λ bytes. record self.old { bytes = refilled self.old.bytes bytes })) }
        ensures value { result.now ≡ self.old.bytes }
    {
        self.shown.as_mut_slice()
    }

    // Loads the page, unless it is loaded. After a refusal no page is loaded.
    pub(super) fn fetch(&mut self, page: u64) -> Result<()>
        requires { IfSome self.old.page (λ n. IfKnown (E.disk self.old.engine) (λ d.
            HoldsPage d self.old.places n self.old.bytes)) }
        ensures places { self.new.places ≡ self.old.places }
        ensures kept { E.disk self.new.engine ≡ E.disk self.old.engine }
        ensures writes { self.new.writes ≡ self.old.writes }
        ensures loaded { OnOk result (self.new.page ≡ Some page) }
        ensures size { OnOk result (length self.new.bytes ≡ 4096) }
        ensures read { OnOk result (IfKnown (E.disk self.old.engine) (λ d.
            HoldsPage d self.old.places page self.new.bytes)) }
        ensures none { OnErr result (self.new.page ≡ None) }
        ensures outside { IfKnown (E.disk self.old.engine) (λ d. result ≡ Err error.OutOfRange
            → ¬ HasPage d self.old.places page) }
        ensures counted { E.faults self.old.engine ≤ E.faults self.new.engine }
        ensures refused { IfErr result (IsAccessFault (E.faults self.old.engine) (E.faults self.new.engine)) }
    {
        if self.page == Some(page) {
            return Ok(());
        }
        self.load(page)
    }

    // Gives how many pages its partitions have, or None if that is too many.
    pub(super) fn page_count(&self) -> Option<u64>
        ensures some { IfSome result (λ n. (n ≡ pages_of self.now.places) × (n < 2 ^ 55)) }
        ensures none { IfNone result (2 ^ 55 ≤ pages_of self.now.places) }
    {
        page_count(&self.partitions)
    }

    // Forgets its page.
    pub(super) fn unload(&mut self)
        ensures { self.new ≡ record self.old { page = None; bytes = [] } }
    {
        if self.page.is_none() {
            return;
        }
        let mut memory = self.spare.take().unwrap();
        swap(&mut self.shown, &mut memory);
        self.spare = Some(memory);
        self.page = None;
    }

    // Puts those of the marks, which begin at the slot `start` of the log, that come into its page.
    pub(super) fn put(&mut self, page: u64, start: u64, slots: u64, marks: &[Tombstone])
        requires loaded { self.old.page ≡ Some page }
        requires within { (256 * page + 256 ≤ slots) × (start < slots) }
        ensures bytes { (j : ℕ) → j < 256 → IsPutAt slots start marks.now (256 * page + j)
            (mark_at (slice_index self.old.bytes) (16 * j)) (mark_at (slice_index self.new.bytes) (16 * j)) }
        ensures size { length self.new.bytes ≡ 4096 }
        ensures same { self.new ≡ record self.old { bytes = self.new.bytes } }
    {
        put_marks(self.shown.as_mut_slice(), page, start, slots, marks);
    }
}
