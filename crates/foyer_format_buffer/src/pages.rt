//! Pages that are written from their front, as a writer that takes exactly as much as there is.
ghost use Rattle.std.specs.Prelude.{◌≡◌, ◌+◌, ◌-◌, ◌^◌, ◌<◌, ◌≤◌, length, take, drop, Some, MatchBool, true};
ghost use Rattle.std.specs.Bool.{OnTrue};
ghost use Rattle.foyer_format_blob.specs.Record.{record_bytes};

use foyer_device_page::error::{Error, Result};
use foyer_device_page::io::bytes::IoSliceMut;
use foyer_format_blob::format_record::block::serde::{EntryHeader, Sequence};
use foyer_format_blob::format_record::compress::Compression;
use foyer_format_blob::format_record::serde::{Checksummer, Code, EntrySerializer, Sink};
use std::alloc::Allocator;
use std::io;
use std::io::Write;

/// A page buffer, and how many of its bytes were written.
#[derive(Drop)]
pub(super) struct Pages<A: Allocator> {
    pub(super) bytes: IoSliceMut<A>,
    pub(super) written: usize,
    ghost within: { written ≤ length bytes },
    ghost counted: { length bytes < 2 ^ 64 },
}

impl<A: Allocator> Write for Pages<A> {
    ghost contents = { λ s. Some (take s.written s.bytes) };

    fn write(&mut self, buf: &[u8]) -> io::Result<usize> {
        let n = buf.len().min(self.bytes.len() - self.written);
        let end = self.written + n;
        self.bytes.as_mut_slice()[self.written..end].copy_from_slice(&buf[..n]);
        self.written = end;
        Ok(n)
    }

    fn flush(&mut self) -> io::Result<()> {
        Ok(())
    }
}

// The `borrow` of this writer is the length of the pages, which no write changes.
impl<A: Allocator> Sink for Pages<A> {
    ghost room = { λ s. Some (length s.bytes - s.written) };

    ghost taken = { λ s. s.written };

    ghost borrow = { λ s. length s.bytes };

    fn taken(&self) -> usize {
        self.written
    }

    fn put(&mut self, bytes: &[u8]) -> Result<()> {
        if self.bytes.len() - self.written < bytes.len() {
            return Err(Error::BufferSizeLimit);
        }
        let end = self.written + bytes.len();
        self.bytes.as_mut_slice()[self.written..end].copy_from_slice(bytes);
        self.written = end;
        Ok(())
    }
}

impl<A: Allocator> Pages<A> {
    // How many bytes are left.
    pub(super) fn left(&self) -> usize
        ensures { result ≡ length self.now.bytes - self.now.written }
    {
        self.bytes.len() - self.written
    }

    // Writes bytes after what was written, without counting them.
    pub(super) fn put_slice(&mut self, slice: &[u8])
        requires { self.old.written + length slice.now ≤ length self.old.bytes }
        ensures size { length self.new.bytes ≡ length self.old.bytes }
        ensures written { self.new.written ≡ self.old.written }
        ensures front { take self.old.written self.new.bytes
            ≡ take self.old.written self.old.bytes }
        ensures put { take (length slice.now) (drop self.old.written self.new.bytes) ≡ slice.now }
    {
        let end = self.written + slice.len();
        self.bytes.as_mut_slice()[self.written..end].copy_from_slice(slice);
    }

    // Writes a record after what was written, without counting it. Gives false if a code fails.
    // The header is written last.
    pub(super) fn put_record<K: Code<A>, V: Code<A>>(
        &mut self,
        key: &K,
        value: &V,
        hash: u64,
        sequence: Sequence,
    ) -> bool
        requires header { self.old.written + 36 ≤ length self.old.bytes }
        requires room { K.is_encodable key.now ≡ true → V.is_encodable value.now ≡ true
            → self.old.written + 36 + length (V.encoding value.now)
            + length (K.encoding key.now) ≤ length self.old.bytes }
        requires lens { K.is_encodable key.now ≡ true → V.is_encodable value.now ≡ true
            → length (V.encoding value.now) + length (K.encoding key.now) < 2 ^ 32 }
        ensures size { length self.new.bytes ≡ length self.old.bytes }
        ensures written { self.new.written ≡ self.old.written }
        ensures front { take self.old.written self.new.bytes
            ≡ take self.old.written self.old.bytes }
        ensures put { OnTrue result (drop self.old.written (take
            (self.old.written + 36 + length (V.encoding value.now) + length (K.encoding key.now))
            self.new.bytes)
            ≡ record_bytes hash sequence (K.encoding key.now) (V.encoding value.now)) }
        ensures encoded { MatchBool result
            ((K.is_encodable key.now ≡ true) × (V.is_encodable value.now ≡ true))
            (K.is_encodable key.now ≡ true → V.is_encodable value.now ≡ true → ⊥) }
    {
        let start = self.written;
        self.written = start + 36;
        match EntrySerializer::serialize(key, value, Compression::None, self) {
            Err(_) => {
                self.written = start;
                false
            }
            Ok(info) => {
                let end = self.written;
                self.written = start;
                let bytes = self.bytes.as_mut_slice();
                seal(
                    bytes,
                    start,
                    end,
                    info.key_len,
                    info.value_len,
                    hash,
                    sequence,
                );
                true
            }
        }
    }
}

// Writes the header of the record from `start` to `end`. The record's value and key are there already.
fn seal(
    bytes: &mut [u8],
    start: usize,
    end: usize,
    key_len: usize,
    value_len: usize,
    hash: u64,
    sequence: Sequence,
)
    requires order { (start + 36 ≤ end) × (end ≤ length bytes.old) }
    requires ends { start + 36 + value_len + key_len ≡ end }
    requires lens { value_len + key_len < 2 ^ 32 }
    ensures before { take start bytes.new ≡ take start bytes.old }
    ensures record { let body = drop (start + 36) (take end bytes.old) in
        drop start (take end bytes.new)
        ≡ record_bytes hash sequence (drop value_len body) (take value_len body) }
{
    let checksum = Checksummer::checksum64(&bytes[start + 36..end]);
    let header = EntryHeader {
        key_len: key_len as u32,
        value_len: value_len as u32,
        hash,
        sequence,
        checksum,
        compression: Compression::None,
    };
    header.write(&mut bytes[start..start + 36]);
}
