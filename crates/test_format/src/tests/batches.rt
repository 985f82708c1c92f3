//! Each allocation of a buffer's filling, and of its splitting, refused in turn.
ghost use Rattle.std.specs.Prelude.{◌≡◌, ◌+◌, ◌≤◌};

use foyer_device_page::error::{Error, Result};
use foyer_device_page::io::bytes::{IoSlice, IoSliceMut};
use foyer_format_buffer::{Batch, BlobPart, Buffer, BufferEntryInfo, SplitCtx, Splitter};
use foyer_format_checksum::Checksummer;
use foyer_format_record::compress::Compression;
use foyer_testing::refusing::Refusing;
use std::alloc::{Allocator, Global};
use std::test::Fail;

// The greatest entry, with its padding.
const GREATEST: usize = 12288;

// The bytes of the buffer's pages.
const ROOM: usize = 65536;

// More allocations than two flushes make.
const MOST_ALLOCATIONS: u64 = 1000;

// What was answered, as numbers, and whether there was no memory to note it.
#[derive(PartialEq, Drop)]
struct Noted {
    numbers: Vec<u64, Global>,
    is_short: bool,
}

impl Noted {
    fn new(alloc: Global) -> Noted {
        Noted {
            numbers: Vec::new(alloc),
            is_short: false,
        }
    }

    fn note(&mut self, number: u64) {
        if self.numbers.push(number).is_err() {
            self.is_short = true;
        }
    }
}

// Slices that are pushed, of which one is too long.
#[derive(Drop)]
struct Slices {
    long: Vec<u8, Global>,
    too_long: Vec<u8, Global>,
}

fn note_infos(noted: &mut Noted, bytes: &[u8], infos: &[BufferEntryInfo]) {
    noted.note(Checksummer::checksum64(bytes));
    for info in infos {
        noted.note(info.hash);
        noted.note(info.sequence);
        noted.note(info.offset as u64);
        noted.note(info.len as u64);
    }
}

fn note_part<A: Allocator>(noted: &mut Noted, part: &BlobPart<A>) {
    noted.note(part.blob_block_offset as u64);
    noted.note(part.part_blob_offset as u64);
    noted.note(part.part_data.len() as u64);
    noted.note(Checksummer::checksum64(part.part_data.as_slice()));
    noted.note(Checksummer::checksum64(part.index.as_slice()));
    for entry in &part.indices {
        noted.note(entry.hash);
        noted.note(u64::from(entry.offset));
        noted.note(u64::from(entry.len));
    }
}

fn note_batch<A: Allocator>(noted: &mut Noted, batch: &Batch<A>) {
    noted.note(batch.blocks.len() as u64);
    for block in &batch.blocks {
        noted.note(block.blob_parts.len() as u64);
        for part in &block.blob_parts {
            note_part(noted, part);
        }
    }
}

// Says what a push answered. One that was refused leaves what was written, and is to come again.
fn is_answered<A: Allocator>(
    noted: &mut Noted,
    buffer: &Buffer<A>,
    written: usize,
    pushed: Result<bool>,
) -> Result<bool> {
    match pushed {
        Err(Error::Memory) if buffer.written() == written => Ok(false),
        Err(_) => Err(Error::Io),
        Ok(done) => {
            noted.note(u64::from(done));
            noted.note(buffer.written() as u64);
            Ok(true)
        }
    }
}

fn push_again<A: Allocator>(noted: &mut Noted, buffer: &mut Buffer<A>, key: u64) -> Result<()> {
    for _ in 0..2 {
        let written = buffer.written();
        let pushed = buffer.push(&key, &1u64, key, Compression::None, key);
        if is_answered(noted, buffer, written, pushed)? {
            return Ok(());
        }
    }
    Err(Error::Io)
}

fn push_slice_again<A: Allocator>(
    noted: &mut Noted,
    buffer: &mut Buffer<A>,
    slice: &[u8],
    hash: u64,
) -> Result<()> {
    for _ in 0..2 {
        let written = buffer.written();
        let pushed = buffer.push_slice(slice, hash, hash);
        if is_answered(noted, buffer, written, pushed)? {
            return Ok(());
        }
    }
    Err(Error::Io)
}

fn pages_again<A: Allocator + Clone>(heap: &A, size: usize) -> Result<IoSliceMut<A>> {
    match IoSliceMut::new(heap.clone()?, size) {
        Err(Error::Memory) => IoSliceMut::new(heap.clone()?, size),
        other => other,
    }
}

// Splits bytes, which are kept, by a copy of the list.
fn split<A: Allocator + Clone>(
    heap: &A,
    ctx: &mut SplitCtx<A>,
    bytes: &IoSlice<A>,
    listed: &[BufferEntryInfo],
) -> Result<Batch<A>>
    requires room { ctx.old.sizes.index + 12288 ≤ ctx.old.sizes.block }
    ensures { ctx.new.sizes ≡ ctx.old.sizes }
{
    if listed.len() > 1000 {
        return Err(Error::OutOfRange);
    }
    let mut infos = Vec::new(heap.clone()?);
    let mut room = 0usize;
    'listed: for info in listed {
        let len = info.len;
        if len == 0 || GREATEST < len {
            return Err(Error::OutOfRange);
        }
        let copy = BufferEntryInfo {
            hash: info.hash,
            sequence: info.sequence,
            offset: info.offset,
            len,
        };
        room += copy.aligned();
        infos.push(copy)?;
    }
    let bytes = bytes.slice(0..bytes.len())?;
    if bytes.len() < room {
        return Err(Error::OutOfRange);
    }
    Splitter::split(heap, ctx, bytes, infos)
}

// A split that is refused leaves the context, so that it may come again.
fn split_again<A: Allocator + Clone>(
    heap: &A,
    ctx: &mut SplitCtx<A>,
    bytes: &IoSlice<A>,
    listed: &[BufferEntryInfo],
) -> Result<Batch<A>>
    requires room { ctx.old.sizes.index + 12288 ≤ ctx.old.sizes.block }
    ensures { ctx.new.sizes ≡ ctx.old.sizes }
{
    match split(heap, ctx, bytes, listed) {
        Err(Error::Memory) => split(heap, ctx, bytes, listed),
        other => other,
    }
}

// Fills a buffer with nine entries, and tries one that is too long. With the long entry in front
// the list of them grows at a slice, with it at the end at a record.
fn fill<A: Allocator>(
    noted: &mut Noted,
    buffer: &mut Buffer<A>,
    slices: &Slices,
    is_long_first: bool,
) -> Result<()> {
    if is_long_first {
        push_slice_again(noted, buffer, slices.long.as_slice(), 7)?;
    }
    for key in 0..4 {
        push_again(noted, buffer, key)?;
        push_slice_again(noted, buffer, b"record", key)?;
    }
    push_slice_again(noted, buffer, slices.too_long.as_slice(), 8)?;
    if !is_long_first {
        push_slice_again(noted, buffer, slices.long.as_slice(), 7)?;
    }
    Ok(())
}

fn share_again<A: Allocator + Clone>(heap: &A, pages: IoSliceMut<A>) -> Result<IoSlice<A>> {
    match pages.into_io_slice(heap.clone()?) {
        Ok(bytes) => Ok(bytes),
        Err(back) => Ok(back.value.into_io_slice(heap.clone()?)?),
    }
}

// Fills a buffer, and splits what it has.
fn flush<A: Allocator + Clone>(
    noted: &mut Noted,
    heap: &A,
    ctx: &mut SplitCtx<A>,
    slices: &Slices,
    is_long_first: bool,
) -> Result<()>
    requires room { ctx.old.sizes.index + 12288 ≤ ctx.old.sizes.block }
    ensures { ctx.new.sizes ≡ ctx.old.sizes }
{
    let mut buffer = Buffer::new(heap.clone()?, pages_again(heap, ROOM)?, GREATEST);
    fill(noted, &mut buffer, slices, is_long_first)?;
    let (pages, infos) = buffer.finish();
    note_infos(noted, pages.as_slice(), infos.as_slice());
    let bytes = share_again(heap, pages)?;
    let batch = split_again(heap, ctx, &bytes, infos.as_slice())?;
    note_batch(noted, &batch);
    Ok(())
}

// Two flushes; the second goes on in the block of the first.
fn flushes<A: Allocator + Clone>(noted: &mut Noted, heap: &A, slices: &Slices) -> Result<()> {
    let made = match SplitCtx::new(heap.clone()?, 16384, 4096) {
        Err(Error::Memory) => SplitCtx::new(heap.clone()?, 16384, 4096),
        other => other,
    };
    let mut ctx = made?;
    flush(noted, heap, &mut ctx, slices, true)?;
    flush(noted, heap, &mut ctx, slices, false)
}

// A refused call leaves no trace: if it is made again, it gives what a run without a refusal gives.
#[test]
fn a_refused_call_can_be_made_again(rt: HostRuntime) -> std::result::Result<(), Fail> {
    let alloc = rt.alloc();
    let slices = Slices {
        long: vec![in alloc; 7u8; 5000]?,
        too_long: vec![in alloc; 7u8; GREATEST + 1]?,
    };
    let mut wanted = Noted::new(alloc);
    flushes(&mut wanted, &alloc, &slices)?;
    assert!(rt; !wanted.is_short);
    for n in 1..MOST_ALLOCATIONS {
        let heap = Refusing::new(alloc, n);
        let mut noted = Noted::new(alloc);
        let outcome = flushes(&mut noted, &&heap, &slices);
        assert!(rt; outcome.is_ok(), "allocation {n}");
        assert!(rt; noted == wanted, "allocation {n}");
        if !heap.has_refused() {
            assert!(rt; n > 20);
            return Ok(());
        }
    }
    Err(Fail::new("the flushes make more allocations"))
}
