//! A buffer of entries, one after another, each padded to whole pages, with a list of their places.
ghost use Rattle.std.specs.Prelude.{◌≡◌, ◌+◌, ◌^◌, ◌<◌, ◌≤◌, ◌↔◌, [], length, IsTrue, OnErr, IfOk, IfErr, true};
ghost use Rattle.std.specs.Bool.{OnTrue, OnFalse};
ghost use Rattle.foyer_device_page.specs.declared.error.Error.{Error as error};
ghost use Rattle.foyer_format_layout.specs.Page.{page_up};
ghost use Rattle.foyer_format_buffer.specs.Entries.{EachTakes, FitsBuffer, IsFinished, IsPacked, entries_at, with_entry, left_of, size_of};
ghost use Rattle.foyer_format_buffer.specs.Position.{taken};
ghost use Rattle.foyer_format_blob.specs.Record.{record_bytes};

use super::BufferEntryInfo;
use super::pages::Pages;
use foyer_device_page::error::Result;
use foyer_device_page::io::bytes::IoSliceMut;
use foyer_format_blob::format_record::block::buffer::whole_pages;
use foyer_format_blob::format_record::block::serde::{EntryHeader, Sequence};
use foyer_format_blob::format_record::compress::Compression;
use foyer_format_blob::format_record::serde::{Code, EntrySerializer};
use std::alloc::Allocator;
use std::marker::Model;

/// Entries in a page buffer.
#[derive(Drop)]
pub struct Buffer<A: Allocator> {
    pages: Pages<A>,
    entry_infos: Vec<BufferEntryInfo, A>,
    max_entry_size: usize,
}

impl<A: Allocator> Model for Buffer<A> {
    ghost use Rattle.std.specs.Prelude.{◌≡◌, ◌<◌, ◌%◌, ◌^◌, length};
    ghost use Rattle.foyer_format_buffer.specs.Entries.{Entries, EachTakes, IsPacked, entries_at};
    ghost use Rattle.foyer_format_buffer.specs.Position.{taken};

    ghost Value = { Entries };

    ghost view = { λ b. record {
      entries = entries_at b.pages.bytes b.entry_infos.items;
      room = length b.pages.bytes;
      greatest = b.max_entry_size;
    } };

    ghost invariant = { λ b. IsPacked 0 b.entry_infos.items
        × (taken b.entry_infos.items ≡ b.pages.written)
        × EachTakes b.max_entry_size b.entry_infos.items
        × (length b.pages.bytes % 4096 ≡ 0) × (b.max_entry_size < 2 ^ 32) };
}

impl<A: Allocator> Buffer<A> {
    /// An empty buffer over these pages. `max_entry_size`, below 2^32, is the most bytes that an entry
    /// may take with its padding.
    #[tactic(auto, using(crate::proofs::EntriesLemmas::no_entries))]
    pub fn new(alloc: A, bytes: IoSliceMut<A>, max_entry_size: usize) -> Buffer<A>
        requires { max_entry_size < 2 ^ 32 }
        ensures empty { result.entries ≡ [] }
        ensures room { result.room ≡ length bytes }
        ensures greatest { result.greatest ≡ max_entry_size }
    {
        // A page buffer holds whole pages, as its length says.
        let _ = bytes.len();
        Buffer {
            pages: Pages { bytes, written: 0 },
            entry_infos: Vec::new(alloc),
            max_entry_size,
        }
    }

    /// Whether it has no entry.
    pub fn is_empty(&self) -> bool
        ensures { IsTrue result ↔ (self.now.entries ≡ []) }
    {
        self.entry_infos.is_empty()
    }

    /// How many bytes its entries take with their padding.
    pub fn written(&self) -> usize
        ensures { result ≡ size_of self.now.entries }
    {
        let Pages { written, .. } = &self.pages;
        *written
    }

    /// Appends the record of a key and a value. Gives false if the record doesn't fit, if a code
    /// fails, or if the compression isn't `None`. Error: Memory if an allocation was refused. Unless
    /// the answer is true, the entries stay as they are. Bytes after them may change.
    pub fn push<K: Code<A>, V: Code<A>>(
        &mut self,
        key: &K,
        value: &V,
        hash: u64,
        compression: Compression,
        sequence: Sequence,
    ) -> Result<bool>
        ensures pushed { IfOk result (λ done. OnTrue done (self.new ≡ with_entry self.old hash
            sequence (record_bytes hash sequence (K.encoding key.now) (V.encoding value.now)))) }
        ensures fits { IfOk result (λ done. IsTrue done ↔ FitsBuffer self.old compression
            ((K.is_encodable key.now ≡ true) × (V.is_encodable value.now ≡ true))
            (length (V.encoding value.now) + length (K.encoding key.now))) }
        ensures kept { IfOk result (λ done. OnFalse done (self.new ≡ self.old)) }
        ensures memory { IfErr result (λ e. e ≡ error.Memory) }
        ensures due { OnErr result (FitsBuffer self.old compression
            ((K.is_encodable key.now ≡ true) × (V.is_encodable value.now ≡ true))
            (length (V.encoding value.now) + length (K.encoding key.now))) }
        ensures refused { OnErr result (self.new ≡ self.old) }
    {
        if compression != Compression::None {
            return Ok(false);
        }
        let estimated = EntrySerializer::estimated_size(key, value);
        let room = self.max_entry_size.min(self.pages.left());
        if room < estimated {
            return Ok(false);
        }
        let len = EntryHeader::serialized_len() + estimated;
        let padded = whole_pages(len);
        if room < padded {
            return Ok(false);
        }
        if !self.pages.put_record(key, value, hash, sequence) {
            return Ok(false);
        }
        let offset = self.pages.written;
        self.entry_infos.push(BufferEntryInfo {
            hash,
            sequence,
            offset,
            len,
        })?;
        self.pages.written = offset + padded;
        Ok(true)
    }

    /// Appends bytes as they are. Gives false if they don't fit. Error: Memory if an allocation was
    /// refused. Unless the answer is true, the entries stay as they are.
    pub fn push_slice(&mut self, slice: &[u8], hash: u64, sequence: Sequence) -> Result<bool>
        ensures pushed { IfOk result (λ done. OnTrue done
            (self.new ≡ with_entry self.old hash sequence slice.now)) }
        ensures fits { IfOk result (λ done. IsTrue done
            ↔ ((page_up (length slice.now) ≤ left_of self.old)
            × (page_up (length slice.now) ≤ self.old.greatest))) }
        ensures kept { IfOk result (λ done. OnFalse done (self.new ≡ self.old)) }
        ensures memory { IfErr result (λ e. e ≡ error.Memory) }
        ensures due { OnErr result ((page_up (length slice.now) ≤ left_of self.old)
            × (page_up (length slice.now) ≤ self.old.greatest)) }
        ensures refused { OnErr result (self.new ≡ self.old) }
    {
        let len = slice.len();
        let room = self.max_entry_size.min(self.pages.left());
        if room < len {
            return Ok(false);
        }
        let aligned = whole_pages(len);
        if room < aligned {
            return Ok(false);
        }
        self.pages.put_slice(slice);
        let offset = self.pages.written;
        self.entry_infos.push(BufferEntryInfo {
            hash,
            sequence,
            offset,
            len,
        })?;
        self.pages.written = offset + aligned;
        Ok(true)
    }

    /// Gives the pages, and the place of each entry in them.
    pub fn finish(self) -> (IoSliceMut<A>, Vec<BufferEntryInfo, A>)
        ensures { IsFinished self result.0 result.1.items }
    {
        let Buffer {
            pages,
            entry_infos,
            ..
        } = self;
        let Pages { bytes, .. } = pages;
        (bytes, entry_infos)
    }

    /// Makes a buffer again of what `finish` gave. `written` is how many bytes the entries take with
    /// their padding. `entry_limit`, below 2^32, is the most that an entry may take, including
    /// the present ones.
    pub fn resume(
        bytes: IoSliceMut<A>,
        entry_infos: Vec<BufferEntryInfo, A>,
        written: usize,
        entry_limit: usize,
    ) -> Buffer<A>
        requires packed { IsPacked 0 entry_infos.items }
        requires written { taken entry_infos.items ≡ written }
        requires within { written ≤ length bytes }
        requires each { EachTakes entry_limit entry_infos.items }
        requires greatest { entry_limit < 2 ^ 32 }
        ensures entries { result.entries ≡ entries_at bytes entry_infos.items }
        ensures room { result.room ≡ length bytes }
        ensures greatest { result.greatest ≡ entry_limit }
    {
        // A page buffer holds whole pages, as its length says.
        let _ = bytes.len();
        Buffer {
            pages: Pages { bytes, written },
            entry_infos,
            max_entry_size: entry_limit,
        }
    }
}
