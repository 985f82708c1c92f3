//! Records of one value, laid out one after another.
ghost use Rattle.std.specs.Prelude.{◌≡◌, ◌+◌, ◌*◌, ◌^◌, ◌<◌, ◌≤◌, [], length, IfOk, IfErr, OnOk};
ghost use Rattle.foyer_device_page.specs.declared.error.Error.{Error as error};
ghost use Rattle.foyer_format_layout.specs.Each.{Each};
ghost use Rattle.foyer_format_layout.specs.Page.{page_up};
ghost use Rattle.foyer_format_buffer.specs.Entries.{left_of};
ghost use Rattle.foyer_ffi.specs.LaidOut.{AreRecords, IsStop, greatest, record_len};

use foyer_device_page::error::{Error, Result};
use foyer_device_page::io::bytes::IoSliceMut;
use foyer_format_buffer::{Batch, Buffer, SplitCtx, Splitter};
use foyer_format_record::compress::Compression;
use std::alloc::Global;

/// The bytes of a block.
const BLOCK: usize = 16 * 1024 * 1024;

/// The size in bytes of a buffer for short values. It is small, since it is cleared once, and stays in the processor's cache.
const BUFFER: usize = 512 * 1024;

/// The longest value that such a buffer is for, in bytes.
const SHORT: usize = 100 * 1024;

/// The bytes of a blob's index.
const INDEX: usize = 4096;

/// The most that a record may take with its padding, in bytes.
const GREATEST: usize = BLOCK - INDEX;

/// Lays out `records` records of a value, and gives the bytes that they take with their padding. If it must stop, gives the bytes of the
/// first few.
pub(crate) fn place(alloc: Global, value: &[u8], records: u64) -> u64
    ensures { AreRecords (length value.now) records result }
{
    let mut taken = 0u64;
    // C learns from the bytes alone how far the layout got.
    let _ = lay_out(alloc, value, records, &mut taken);
    taken
}

// Lays the records out, and counts their bytes. It stops if an allocation is refused, if a block has no
// room for a record, or if the count passes `u64::MAX`.
fn lay_out(alloc: Global, value: &[u8], records: u64, taken: &mut u64) -> Result<()>
    requires { taken.old ≡ 0 }
    ensures some { AreRecords (length value.now) records taken.new }
    ensures all { OnOk result (taken.new ≡ records * page_up (record_len (length value.now))) }
    ensures stopped { IfErr result (IsStop (length value.now) records) }
{
    let value = Vec::from_slice(alloc, value)?;
    let mut ctx = SplitCtx::new(alloc, BLOCK, INDEX)?;
    let size = buffer_size(value.len());
    let Ok(mut pages) = IoSliceMut::new(alloc, size) else {
        return Err(Error::Memory);
    };
    let mut key = 0u64;
    'buffers: while key < records {
        let mut buffer = Buffer::new(alloc, pages, GREATEST);
        let filled = fill(&mut buffer, &value, key, records);
        let Some(sum) = taken.checked_add(buffer.written() as u64) else {
            return Err(Error::OutOfRange);
        };
        *taken = sum;
        let next = filled?;
        // A record that an empty buffer doesn't take fits into no buffer.
        if next == key {
            return Err(Error::BufferSizeLimit);
        }
        pages = split(alloc, &mut ctx, buffer, size)?;
        key = next;
    }
    Ok(())
}

// The size in bytes of a buffer for values of this length. If a block has room for such a record, the buffer has room for it.
#[tactic(auto, unfolding(foyer_format_layout::specs::Page::page_up))]
fn buffer_size(len: usize) -> usize
    ensures room { page_up (record_len len) ≤ greatest → record_len len ≤ result }
    ensures pages { page_up result ≡ result }
    ensures small { result ≤ 2 ^ 32 }
{
    if len <= SHORT { BUFFER } else { BLOCK }
}

// Appends the records of these keys until one doesn't fit, and gives the first key that is left.
fn fill(buffer: &mut Buffer<Global>, value: &Vec<u8, Global>, first: u64, end: u64) -> Result<u64>
    requires empty { buffer.old.entries ≡ [] }
    requires order { first ≤ end }
    ensures each { Each (λ e. length e.bytes ≡ record_len (length value.now.items))
        buffer.new.entries }
    ensures within { 0 < length buffer.new.entries
        → page_up (record_len (length value.now.items)) ≤ buffer.old.greatest }
    ensures greatest { buffer.new.greatest ≡ buffer.old.greatest }
    ensures few { first + length buffer.new.entries ≤ end }
    ensures next { IfOk result (λ key. key ≡ first + length buffer.new.entries) }
    ensures room { buffer.new.room ≡ buffer.old.room }
    ensures full { IfOk result (λ key. key < end
        → record_len (length value.now.items) ≤ left_of buffer.new
        → page_up (record_len (length value.now.items)) ≤ buffer.new.greatest → ⊥) }
    ensures memory { IfErr result (λ e. e ≡ error.Memory) }
{
    'keys: for key in first..end {
        if !buffer.push(&key, value, key, Compression::None, key)? {
            return Ok(key);
        }
    }
    Ok(end)
}

// Splits the buffer's records into blocks. Gives pages for the next buffer: its own again, or new ones.
fn split(
    alloc: Global,
    ctx: &mut SplitCtx<Global>,
    buffer: Buffer<Global>,
    size: usize,
) -> Result<IoSliceMut<Global>>
    requires greatest { ctx.old.sizes.index + buffer.greatest ≤ ctx.old.sizes.block }
    requires each { Each (λ e. 0 < length e.bytes) buffer.entries }
    requires room { buffer.room ≡ page_up size }
    requires small { size ≤ 2 ^ 32 }
    ensures sizes { ctx.new.sizes ≡ ctx.old.sizes }
    ensures room { IfOk result (λ pages. length pages ≡ page_up size) }
    ensures memory { IfErr result (λ e. e ≡ error.Memory) }
{
    let (pages, infos) = buffer.finish();
    let bytes = pages.into_io_slice(alloc)?;
    let Batch { blocks, bytes } = Splitter::split(&alloc, ctx, bytes, infos)?;
    // The parts own the pages too.
    drop(blocks);
    match bytes.try_into_io_slice_mut() {
        Some(pages) => Ok(pages),
        None => match IoSliceMut::new(alloc, size) {
            Ok(pages) => Ok(pages),
            Err(_) => Err(Error::Memory),
        },
    }
}

#[cfg(test)]
mod tests;
