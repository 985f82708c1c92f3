//! The records that a flusher received since its batch before.
ghost use Rattle.std.specs.Prelude.{◌≡◌, ◌^◌, ◌+◌, ◌<◌, ◌≤◌, ◌%◌, [], length, IfOk, IfErr, OnErr, All};
ghost use Rattle.std.specs.Prelude.{◌↔◌, IsTrue, true};
ghost use Rattle.std.specs.Bool.{OnTrue, OnFalse};
ghost use Rattle.foyer_format_buffer.specs.Entries.{Entries, FitsBuffer, entries_at, with_entry, left_of};
ghost use Rattle.foyer_format_layout.specs.Page.{page_up};
ghost use Rattle.foyer_format_record.specs.Record.{record_bytes};
ghost use Rattle.foyer_format_record.specs.declared.compress.Compression.TheVariants as compression;
ghost use Rattle.foyer_device_page.specs.Section.{bytes_of, all_of};
ghost use Rattle.foyer_device_page.specs.declared.error.Error.{Error as error};
ghost use Rattle.foyer_core_flusher.specs.Filled.{AreSome, HasRoom, HasRoomFor, IsFull, IsShared, IsState, WasSplit, entries_in};
ghost use Rattle.foyer_core_flusher.specs.declared.filled.State.TheVariants as state;

use foyer_device_page::error::{Error, Result};
use foyer_device_page::io::bytes::{IoSlice, IoSliceMut};
use foyer_format_buffer::{Batch, Buffer, BufferEntryInfo, SplitCtx, Splitter};
use foyer_format_record::block::buffer::whole_pages;
use foyer_format_record::block::serde::{EntryHeader, Sequence};
use foyer_format_record::compress::Compression;
use foyer_format_record::serde::{Code, EntrySerializer};
use std::alloc::Allocator;
use std::marker::Model;
use std::mem;

// The pages of a flusher. It has none yet, or it writes into them. If a batch was refused, the pages may have several owners instead.
#[derive(Drop)]
enum State<A: Allocator> {
    Empty,
    Open(Buffer<A>),
    Full {
        bytes: IoSlice<A>,
        infos: Vec<BufferEntryInfo, A>,
        written: usize,
    },
}

/// Records one behind another, each padded to whole pages, in pages that are taken for the first of them.
#[derive(Drop)]
pub struct Filled<A: Allocator> {
    state: State<A>,
    room: usize,
    greatest: usize,
}

impl<A: Allocator> Model for Filled<A> {
    ghost use Rattle.std.specs.Prelude.{◌≡◌, ◌^◌, ◌<◌, ◌%◌};
    ghost use Rattle.foyer_format_buffer.specs.Entries.{Entries};
    ghost use Rattle.foyer_core_flusher.specs.Filled.{entries_in, IsState, AreSome};

    ghost Value = { Entries };

    ghost view = { λ f. record { entries = entries_in f.state; room = f.room; greatest = f.greatest } };

    ghost invariant = { λ f. (f.room % 4096 ≡ 0) × (f.greatest < 2 ^ 32) × AreSome (entries_in f.state)
        × IsState f.room f.greatest f.state };
}

// Gives `room` bytes, zeroed. Errors: `Memory`.
fn new_pages<A: Allocator>(alloc: A, room: usize) -> Result<IoSliceMut<A>>
    requires { room % 4096 ≡ 0 }
    ensures room { IfOk result (λ m. length m ≡ room) }
    ensures memory { IfErr result (λ e. e ≡ error.Memory) }
{
    let pages = IoSliceMut::new(alloc, room)?;
    Ok(pages)
}

// The spare pages, or new ones.
fn take_pages<A: Allocator>(
    alloc: A,
    spare: &mut Option<IoSliceMut<A>>,
    room: usize,
) -> Result<IoSliceMut<A>>
    requires { room % 4096 ≡ 0 }
    ensures room { IfOk result (λ m. length m ≡ room) }
    ensures memory { IfErr result (λ e. e ≡ error.Memory) }
{
    if let Some(pages) = spare.take() {
        if pages.len() == room {
            return Ok(pages);
        }
    }
    new_pages(alloc, room)
}

// The pages of a batch are filled again, unless it had none or somebody still has a part of them.
pub(crate) fn keep_pages<A: Allocator>(spare: &mut Option<IoSliceMut<A>>, pages: IoSlice<A>) {
    if let Some(pages) = pages.try_into_io_slice_mut() {
        if pages.len() > 0 {
            *spare = Some(pages);
        }
    }
}

// Copies bytes over pages of the same length.
fn copy_over<A: Allocator>(pages: &mut IoSliceMut<A>, bytes: &[u8])
    requires { length pages.old ≡ length bytes.now }
    ensures { pages.new ≡ bytes.now }
{
    pages.as_mut_slice().copy_from_slice(bytes);
}

// Gives the pages to one owner. If they have no other owner, it gives them as they are, else a copy. If memory for the copy is refused, it
// returns the pages as `Err`.
fn own<A: Allocator + Clone>(
    alloc: &A,
    spare: &mut Option<IoSliceMut<A>>,
    bytes: IoSlice<A>,
) -> std::result::Result<IoSliceMut<A>, IoSlice<A>>
    requires { bytes ≡ all_of bytes.whole }
    ensures same { IfOk result (λ m. m ≡ bytes.whole) }
    ensures handed_back { IfErr result (λ s. s ≡ bytes) }
{
    match bytes.try_into_unique() {
        Ok(pages) => Ok(pages),
        Err(shared) => {
            let Ok(owner) = alloc.clone() else {
                return Err(shared);
            };
            let Ok(mut pages) = take_pages(owner, spare, shared.len()) else {
                return Err(shared);
            };
            copy_over(&mut pages, shared.as_slice());
            Ok(pages)
        }
    }
}

// Makes pages with their entries writable by one owner. If memory was refused, the pages stay as they are.
fn reopen<A: Allocator + Clone>(
    alloc: &A,
    spare: &mut Option<IoSliceMut<A>>,
    bytes: IoSlice<A>,
    infos: Vec<BufferEntryInfo, A>,
    written: usize,
    greatest: usize,
) -> std::result::Result<Buffer<A>, State<A>>
    requires full { IsFull (length bytes.whole) greatest bytes infos.items written }
    requires small { greatest < 2 ^ 32 }
    ensures opened { IfOk result (λ b. b ≡ record {
      entries = entries_at (bytes_of bytes) infos.items;
      room = length bytes.whole;
      greatest = greatest;
    }) }
    ensures kept { IfErr result (λ s. s ≡ state.Full bytes infos written) }
{
    match own(alloc, spare, bytes) {
        Ok(pages) => Ok(Buffer::resume(pages, infos, written, greatest)),
        Err(bytes) => Err(State::Full {
            bytes,
            infos,
            written,
        }),
    }
}

// An empty buffer over the spare pages, or over new ones.
fn open<A: Allocator + Clone>(
    alloc: &A,
    spare: &mut Option<IoSliceMut<A>>,
    room: usize,
    greatest: usize,
) -> Result<Buffer<A>>
    requires pages { room % 4096 ≡ 0 }
    requires small { greatest < 2 ^ 32 }
    ensures opened { IfOk result (λ b. b ≡ record { entries = []; room = room; greatest = greatest }) }
    ensures memory { IfErr result (λ e. e ≡ error.Memory) }
{
    let list = alloc.clone()?;
    let owner = alloc.clone()?;
    let pages = take_pages(owner, spare, room)?;
    Ok(Buffer::new(list, pages, greatest))
}

// Pages without bytes.
fn no_pages<A: Allocator + Clone>(alloc: &A) -> Result<(IoSlice<A>, Vec<BufferEntryInfo, A>)>
    ensures infos { IfOk result (λ p. p.1.items ≡ []) }
    ensures memory { IfErr result (λ e. e ≡ error.Memory) }
{
    let pages = new_pages(alloc.clone()?, 0)?;
    let bytes = pages.into_io_slice(alloc.clone()?)?;
    Ok((bytes, Vec::new(alloc.clone()?)))
}

// Makes one more owner of pages, and copies the list of their entries.
fn share<A: Allocator + Clone>(
    alloc: &A,
    bytes: &IoSlice<A>,
    infos: &Vec<BufferEntryInfo, A>,
) -> Result<(IoSlice<A>, Vec<BufferEntryInfo, A>)>
    ensures bytes { IfOk result (λ p. bytes_of p.0 ≡ bytes_of bytes.now) }
    ensures infos { IfOk result (λ p. p.1.items ≡ infos.now.items) }
    ensures memory { IfErr result (λ e. e ≡ error.Memory) }
{
    let copy = Vec::from_slice(alloc.clone()?, infos.as_slice())?;
    let whole = bytes.slice(0..bytes.len())?;
    Ok((whole, copy))
}

// Makes a buffer's pages into pages that may have several owners. If memory was refused, the buffer stays.
fn close<A: Allocator>(alloc: A, buffer: Buffer<A>, greatest: usize) -> State<A>
    requires greatest { buffer.greatest ≡ greatest }
    requires small { greatest < 2 ^ 32 }
    ensures entries { entries_in result ≡ buffer.entries }
    ensures state { IsState buffer.room greatest result }
{
    let written = buffer.written();
    let (pages, infos) = buffer.finish();
    match pages.into_io_slice(alloc) {
        Ok(bytes) => State::Full {
            bytes,
            infos,
            written,
        },
        Err(failed) => State::Open(Buffer::resume(failed.value, infos, written, greatest)),
    }
}

// Appends a record, which isn't empty.
fn push_open<K: Code<A>, V: Code<A>, A: Allocator>(
    buffer: &mut Buffer<A>,
    key: &K,
    value: &V,
    hash: u64,
    sequence: Sequence,
) -> Result<bool>
    ensures pushed { IfOk result (λ done. OnTrue done (buffer.new ≡ with_entry buffer.old hash
        sequence (record_bytes hash sequence (K.encoding key.now) (V.encoding value.now)))) }
    ensures fits { IfOk result (λ done. IsTrue done ↔ FitsBuffer buffer.old compression.None
        ((K.is_encodable key.now ≡ true) × (V.is_encodable value.now ≡ true))
        (length (V.encoding value.now) + length (K.encoding key.now))) }
    ensures kept { IfOk result (λ done. OnFalse done (buffer.new ≡ buffer.old)) }
    ensures memory { IfErr result (λ e. e ≡ error.Memory) }
    ensures due { OnErr result (FitsBuffer buffer.old compression.None
        ((K.is_encodable key.now ≡ true) × (V.is_encodable value.now ≡ true))
        (length (V.encoding value.now) + length (K.encoding key.now))) }
    ensures refused { OnErr result (buffer.new ≡ buffer.old) }
    ensures some { AreSome buffer.old.entries → AreSome buffer.new.entries }
    ensures sizes { (buffer.new.room ≡ buffer.old.room) × (buffer.new.greatest ≡ buffer.old.greatest) }
{
    buffer.push(key, value, hash, Compression::None, sequence)
}

// Appends bytes, at least one.
fn push_bytes<A: Allocator>(
    buffer: &mut Buffer<A>,
    slice: &[u8],
    hash: u64,
    sequence: Sequence,
) -> Result<bool>
    requires { 0 < length slice.now }
    ensures pushed { IfOk result (λ done. OnTrue done (buffer.new ≡ with_entry buffer.old hash sequence slice.now)) }
    ensures fits { IfOk result (λ done. IsTrue done ↔ ((page_up (length slice.now) ≤ left_of buffer.old)
        × (page_up (length slice.now) ≤ buffer.old.greatest))) }
    ensures kept { IfOk result (λ done. OnFalse done (buffer.new ≡ buffer.old)) }
    ensures memory { IfErr result (λ e. e ≡ error.Memory) }
    ensures refused { OnErr result (buffer.new ≡ buffer.old) }
    ensures some { AreSome buffer.old.entries → AreSome buffer.new.entries }
    ensures sizes { (buffer.new.room ≡ buffer.old.room) × (buffer.new.greatest ≡ buffer.old.greatest) }
{
    buffer.push_slice(slice, hash, sequence)
}

impl<A: Allocator> Filled<A> {
    /// Gives a buffer of `room` bytes without records. A record takes at most `greatest` bytes with its padding. `room` must be whole
    /// pages, and `greatest` below 2^32. It doesn't allocate.
    pub fn new(room: usize, greatest: usize) -> Filled<A>
        requires pages { room % 4096 ≡ 0 }
        requires small { greatest < 2 ^ 32 }
        ensures empty { result.entries ≡ [] }
        ensures room { result.room ≡ room }
        ensures greatest { result.greatest ≡ greatest }
    {
        Filled {
            state: State::Empty,
            room,
            greatest,
        }
    }

    /// Whether it has no record.
    pub fn is_empty(&self) -> bool
        ensures { IsTrue result ↔ (self.now.entries ≡ []) }
    {
        match &self.state {
            State::Empty => true,
            State::Open(buffer) => buffer.is_empty(),
            State::Full { infos, .. } => infos.is_empty(),
        }
    }

    /// The bytes for records, whole pages.
    pub fn room(&self) -> usize
        ensures { result ≡ self.now.room }
    {
        self.room
    }

    /// How many bytes are left for records, each with its padding.
    pub fn left(&self) -> usize
        ensures { result ≡ left_of self.now }
    {
        match &self.state {
            State::Empty => self.room,
            State::Open(buffer) => self.room.saturating_sub(buffer.written()),
            State::Full { written, .. } => self.room.saturating_sub(*written),
        }
    }

    /// Removes all records. It doesn't allocate.
    pub fn reset(&mut self)
        ensures { self.new ≡ record self.old { entries = [] } }
    {
        self.state = State::Empty;
    }

    /// Whether the record of a key and a value, if they can be encoded, has room.
    pub fn has_room<K: Code<A>, V: Code<A>>(&self, key: &K, value: &V) -> bool
        ensures { K.is_encodable key.now ≡ true → V.is_encodable value.now ≡ true
            → IsTrue result ↔ HasRoom self.now (length (V.encoding value.now) + length (K.encoding key.now)) }
    {
        let estimated = EntrySerializer::estimated_size(key, value);
        if self.greatest < estimated {
            return false;
        }
        let len = EntryHeader::serialized_len() + estimated;
        len <= self.left() && whole_pages(len) <= self.greatest
    }

    /// Whether a record of `len` bytes has room. A record of no bytes has none.
    pub fn has_room_for(&self, len: usize) -> bool
        ensures { IsTrue result ↔ HasRoomFor self.now len }
    {
        if len == 0 || self.greatest < len {
            return false;
        }
        let pages = whole_pages(len);
        pages <= self.left() && pages <= self.greatest
    }

    /// Appends a record as it is. Answers false if the record has no room. For the first record it takes pages, the spare ones if there are
    /// some. Errors: `Memory` if an allocation was refused. Any answer but true leaves the records as they were.
    pub fn push_slice(
        &mut self,
        alloc: &A,
        spare: &mut Option<IoSliceMut<A>>,
        slice: &[u8],
        hash: u64,
        sequence: Sequence,
    ) -> Result<bool>
    where
        A: Clone,
        ensures pushed { IfOk result (λ done. OnTrue done (self.new ≡ with_entry self.old hash sequence slice.now)) }
        ensures fits { IfOk result (λ done. IsTrue done ↔ HasRoomFor self.old (length slice.now)) }
        ensures kept { IfOk result (λ done. OnFalse done (self.new ≡ self.old)) }
        ensures memory { IfErr result (λ e. e ≡ error.Memory) }
        ensures due { OnErr result (HasRoomFor self.old (length slice.now)) }
        ensures refused { OnErr result (self.new ≡ self.old) }
        ensures sizes { (self.new.room ≡ self.old.room) × (self.new.greatest ≡ self.old.greatest) }
    {
        if !self.has_room_for(slice.len()) {
            return Ok(false);
        }
        let mut buffer = self.take_buffer(alloc, spare)?;
        let pushed = push_bytes(&mut buffer, slice, hash, sequence);
        self.state = State::Open(buffer);
        pushed
    }

    // Takes the pages with their entries, for one owner, or opens new pages. Errors: `Memory`, which leaves the records as they were.
    fn take_buffer(&mut self, alloc: &A, spare: &mut Option<IoSliceMut<A>>) -> Result<Buffer<A>>
    where
        A: Clone,
        ensures taken { IfOk result (λ b. b ≡ self.old) }
        ensures some { IfOk result (λ b. AreSome b.entries) }
        ensures refused { OnErr result (self.new ≡ self.old) }
        ensures sizes { (self.new.room ≡ self.old.room) × (self.new.greatest ≡ self.old.greatest) }
        ensures memory { IfErr result (λ e. e ≡ error.Memory) }
    {
        let (room, greatest) = (self.room, self.greatest);
        match mem::replace(&mut self.state, State::Empty) {
            State::Open(buffer) => Ok(buffer),
            State::Empty => open(alloc, spare, room, greatest),
            State::Full {
                bytes,
                infos,
                written,
            } => match reopen(alloc, spare, bytes, infos, written, greatest) {
                Ok(buffer) => Ok(buffer),
                Err(state) => {
                    self.state = state;
                    Err(Error::Memory)
                }
            },
        }
    }

    /// Appends the record of a key and a value. Answers false if the record doesn't fit or a code fails. For the first record it takes pages,
    /// the spare ones if there are some. Errors: `Memory` if an allocation was refused. Any answer but true leaves the records as they were.
    pub fn push<K: Code<A>, V: Code<A>>(
        &mut self,
        alloc: &A,
        spare: &mut Option<IoSliceMut<A>>,
        key: &K,
        value: &V,
        hash: u64,
        sequence: Sequence,
    ) -> Result<bool>
    where
        A: Clone,
        ensures pushed { IfOk result (λ done. OnTrue done (self.new ≡ with_entry self.old hash
            sequence (record_bytes hash sequence (K.encoding key.now) (V.encoding value.now)))) }
        ensures fits { IfOk result (λ done. IsTrue done ↔ FitsBuffer self.old compression.None
            ((K.is_encodable key.now ≡ true) × (V.is_encodable value.now ≡ true))
            (length (V.encoding value.now) + length (K.encoding key.now))) }
        ensures kept { IfOk result (λ done. OnFalse done (self.new ≡ self.old)) }
        ensures memory { IfErr result (λ e. e ≡ error.Memory) }
        ensures due { OnErr result (K.is_encodable key.now ≡ true → V.is_encodable value.now ≡ true
            → HasRoom self.old (length (V.encoding value.now) + length (K.encoding key.now))) }
        ensures refused { OnErr result (self.new ≡ self.old) }
        ensures sizes { (self.new.room ≡ self.old.room) × (self.new.greatest ≡ self.old.greatest) }
    {
        if !self.has_room(key, value) {
            return Ok(false);
        }
        let mut buffer = self.take_buffer(alloc, spare)?;
        let pushed = push_open(&mut buffer, key, value, hash, sequence);
        self.state = State::Open(buffer);
        pushed
    }

    // Its pages may have several owners from now on, unless memory was refused.
    fn seal(&mut self, alloc: A)
        ensures { self.new ≡ self.old }
    {
        let greatest = self.greatest;
        match mem::replace(&mut self.state, State::Empty) {
            State::Open(buffer) => {
                self.state = close(alloc, buffer, greatest);
            }
            other => {
                self.state = other;
            }
        }
    }

    // Gives its entries in pages that may have several owners, and keeps them too. Errors: `Memory` if an allocation was refused.
    fn shared(&mut self, alloc: &A) -> Result<(IoSlice<A>, Vec<BufferEntryInfo, A>)>
    where
        A: Clone,
        ensures same { self.new ≡ self.old }
        ensures shared { IfOk result (λ p. IsShared self.old p.0 p.1.items) }
        ensures memory { IfErr result (λ e. e ≡ error.Memory) }
    {
        self.seal(alloc.clone()?);
        match &self.state {
            State::Full { bytes, infos, .. } => share(alloc, bytes, infos),
            State::Empty => no_pages(alloc),
            // The seal was refused.
            State::Open(_) => Err(Error::Memory),
        }
    }

    /// Splits its records, from the context's position on, and moves the context behind them. It keeps the records. Errors: `Memory` if an
    /// allocation was refused. The context stays then.
    pub fn split(&mut self, alloc: &A, ctx: &mut SplitCtx<A>) -> Result<Batch<A>>
    where
        A: Clone,
        requires { ctx.old.sizes.index + self.old.greatest ≤ ctx.old.sizes.block }
        ensures same { self.new ≡ self.old }
        ensures sizes { ctx.new.sizes ≡ ctx.old.sizes }
        ensures split { IfOk result (λ b. WasSplit self.old ctx.old.sizes ctx.old.filling ctx.new.filling b) }
        ensures refused { OnErr result (ctx.new ≡ ctx.old) }
        ensures memory { IfErr result (λ e. e ≡ error.Memory) }
    {
        let (bytes, infos) = self.shared(alloc)?;
        Splitter::split(alloc, ctx, bytes, infos)
    }
}
