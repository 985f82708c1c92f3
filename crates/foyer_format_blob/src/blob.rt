//! The index of a blob: a checksum, a count, and an entry for each record.
ghost use Rattle.std.specs.Prelude.{◌≡◌, ◌+◌, ◌-◌, ◌*◌, ◌<◌, ◌≤◌, ◌^◌, ◌↔◌, [], ◌∷◌, ◌++◌, List, length, drop, IsTrue, IfOk, IfErr, IfSome, IfNone};
ghost use Rattle.foyer_format_record.specs.Xxh64.{xxh64};
ghost use Rattle.foyer_format_record.specs.Error.{Error as error};
ghost use Rattle.foyer_format_record.specs.Header.{number_at};
ghost use Rattle.foyer_format_layout.specs.Page.{page_up};
ghost use Rattle.foyer_format_blob.specs.Blob.{entry_bytes, entry_of, entries_in, capacity_of, IsSealed, FitsEntry};
ghost use Rattle.foyer_format_blob.specs.OpenIndex.{entries_of, room_of};
ghost use Rattle.foyer_format_blob.specs.declared.blob.BlobEntryIndex.{BlobEntryIndex};

use byteorder::{BigEndian, ByteOrder};
use foyer_format_record::block::buffer::whole_pages;
use foyer_format_record::block::serde::Sequence;
use foyer_format_record::device_page::error::Result;
use foyer_format_record::device_page::io::bytes::IoSliceMut;
use foyer_format_record::serde::Checksummer;
use std::alloc::Allocator;
use std::marker::Model;

/// The bytes of an index's checksum, at its start.
const CHECKSUM_LEN: usize = 8;

/// Where its count begins.
const COUNT_AT: usize = 8;

/// The bytes of its count.
const COUNT_LEN: usize = 4;

/// Where its entries begin.
const ENTRIES_AT: usize = 12;

/// The bytes that an entry takes.
const ENTRY_LEN: usize = 24;

/// Where a record of a blob lies.
#[derive(Debug, Clone, PartialEq, Eq, Drop)]
pub struct BlobEntryIndex {
    /// The hash of its key.
    pub hash: u64,
    /// The sequence of the put.
    pub sequence: Sequence,
    /// In bytes, from the blob's start.
    pub offset: u32,
    /// The record's length in bytes, without its padding.
    pub len: u32,
}

impl BlobEntryIndex {
    /// How many bytes an entry takes.
    pub fn serialized_len() -> usize
        ensures { result ≡ 24 }
    {
        ENTRY_LEN
    }

    /// Writes the entry over the buffer's 24 bytes, each number with its highest byte first.
    #[tactic(auto, unfolding(crate::specs::Blob::entry_bytes))]
    pub fn write(&self, buf: &mut [u8])
        requires { length buf.old ≡ 24 }
        ensures bytes { buf.new ≡ entry_bytes self.now }
        ensures fits { FitsEntry self.now }
    {
        let BlobEntryIndex {
            hash,
            sequence,
            offset,
            len,
        } = *self;
        BigEndian::write_u64(buf, hash);
        BigEndian::write_u64(&mut buf[8..], sequence);
        BigEndian::write_u32(&mut buf[16..], offset);
        BigEndian::write_u32(&mut buf[20..], len);
    }

    /// The entry that the first 24 bytes encode.
    #[tactic(auto, unfolding(crate::specs::Blob::entry_of, foyer_format_record::specs::Header::number_at))]
    pub fn read(buf: &[u8]) -> BlobEntryIndex
        requires { 24 ≤ length buf.now }
        ensures { result ≡ entry_of buf.now }
    {
        BlobEntryIndex {
            hash: BigEndian::read_u64(buf),
            sequence: BigEndian::read_u64(&buf[8..]),
            offset: BigEndian::read_u32(&buf[16..]),
            len: BigEndian::read_u32(&buf[20..]),
        }
    }

    /// The bytes that the record takes with its padding.
    #[tactic(auto, using(foyer_format_layout::proofs::PageLaws::pages))]
    pub fn aligned(&self) -> usize
        ensures { result ≡ page_up self.now.len }
    {
        whole_pages(self.len as usize)
    }
}

/// The index of a blob that is being filled.
#[derive(Drop)]
pub struct BlobIndex<A: Allocator> {
    bytes: IoSliceMut<A>,
    count: usize,
    capacity: usize,
}

impl<A: Allocator> Model for BlobIndex<A> {
    ghost use Rattle.std.specs.Prelude.{◌≡◌, ◌≤◌, ◌^◌, length};
    ghost use Rattle.foyer_format_blob.specs.Blob.{capacity_of};
    ghost use Rattle.foyer_format_blob.specs.OpenIndex.{OpenIndex};

    ghost Value = { OpenIndex };

    ghost view = { λ i. record { bytes = i.bytes; count = i.count } };

    ghost invariant = { λ i. (12 ≤ length i.bytes) × (length i.bytes ≤ 2 ^ 32)
        × (i.capacity ≡ capacity_of (length i.bytes)) × (i.count ≤ i.capacity) };
}

impl<A: Allocator> BlobIndex<A> {
    /// How many bytes the checksum takes, at the index's start. The checksum covers all bytes after it.
    pub const CHECKSUM_BYTES: usize = CHECKSUM_LEN;

    /// Where the count begins.
    pub const COUNT_OFFSET: usize = COUNT_AT;

    /// How many bytes the count takes.
    pub const COUNT_BYTES: usize = COUNT_LEN;

    /// Where the entries begin.
    pub const INDEX_OFFSET: usize = ENTRIES_AT;

    /// An index without entries, as large as the buffer, which has at least a page and at most 2^32 bytes.
    pub fn new(bytes: IoSliceMut<A>) -> BlobIndex<A>
        requires some { 0 < length bytes }
        requires small { length bytes ≤ 2 ^ 32 }
        ensures bytes { result.bytes ≡ bytes }
        ensures empty { result.count ≡ 0 }
    {
        let capacity = (bytes.len() - ENTRIES_AT) / ENTRY_LEN;
        BlobIndex {
            bytes,
            count: 0,
            capacity,
        }
    }

    /// How many entries it has room for.
    pub fn capacity(&self) -> usize
        ensures { result ≡ room_of self.now }
    {
        self.capacity
    }

    /// Whether it has no room for another entry.
    pub fn is_full(&self) -> bool
        ensures full { IsTrue result ↔ (self.now.count ≡ room_of self.now) }
        ensures within { self.now.count ≤ room_of self.now }
    {
        self.count >= self.capacity
    }

    /// Appends an entry. The index must not be full.
    pub fn write(&mut self, index: &BlobEntryIndex)
        requires { self.old.count < room_of self.old }
        ensures entries { entries_of self.new ≡ entries_of self.old ++ index.now ∷ [] }
        ensures count { self.new.count ≡ self.old.count + 1 }
        ensures size { length self.new.bytes ≡ length self.old.bytes }
    {
        let count = self.count;
        write_entry(self.bytes.as_mut_slice(), count, index);
        self.count = count + 1;
    }

    /// Copies the bytes, with the checksum and the count in front of the entries. Error: Memory if
    /// memory was refused.
    pub fn seal(&self, alloc: A) -> Result<IoSliceMut<A>>
        ensures sealed { IfOk result (λ b. IsSealed b (entries_of self.now)) }
        ensures size { IfOk result (λ b. length b ≡ length self.now.bytes) }
        ensures rest { IfOk result (λ b. drop 12 b ≡ drop 12 self.now.bytes) }
        ensures memory { IfErr result (λ e. e ≡ error.Memory) }
    {
        let mut sealed = copy_of(alloc, &self.bytes)?;
        seal_bytes(sealed.as_mut_slice(), self.count);
        Ok(sealed)
    }

    /// Copies the index to bytes of its own. Error: Memory if these were refused.
    pub fn copy(&self, alloc: A) -> Result<BlobIndex<A>>
        ensures same { IfOk result (λ i. i ≡ self.now) }
        ensures memory { IfErr result (λ e. e ≡ error.Memory) }
    {
        let bytes = copy_of(alloc, &self.bytes)?;
        Ok(BlobIndex {
            bytes,
            count: self.count,
            capacity: self.capacity,
        })
    }

    /// Begins again without entries; the bytes stay.
    pub fn reset(&mut self)
        ensures bytes { self.new.bytes ≡ self.old.bytes }
        ensures empty { self.new.count ≡ 0 }
    {
        self.count = 0;
    }
}

// The same bytes in memory of their own.
#[tactic(auto, using(foyer_format_layout::proofs::PageLaws::pages))]
fn copy_of<A: Allocator>(alloc: A, bytes: &IoSliceMut<A>) -> Result<IoSliceMut<A>>
    requires { length bytes.now ≤ 2 ^ 32 }
    ensures same { IfOk result (λ b. b ≡ bytes.now) }
    ensures memory { IfErr result (λ e. e ≡ error.Memory) }
{
    let mut copy = IoSliceMut::new(alloc, bytes.len())?;
    copy.as_mut_slice().copy_from_slice(bytes.as_slice());
    Ok(copy)
}

// Writes an entry after the first `count`.
#[tactic(auto, using(crate::proofs::BlobLemmas::entry_lemmas))]
fn write_entry(bytes: &mut [u8], count: usize, index: &BlobEntryIndex)
    requires { 12 + 24 * count + 24 ≤ length bytes.old }
    ensures { entries_in bytes.new (count + 1) ≡ entries_in bytes.old count ++ index.now ∷ [] }
{
    let start = ENTRIES_AT + ENTRY_LEN * count;
    index.write(&mut bytes[start..start + ENTRY_LEN]);
}

// Writes the count and the checksum in front of the entries.
fn seal_bytes(bytes: &mut [u8], count: usize)
    requires long { 12 ≤ length bytes.old }
    requires short { length bytes.old ≤ 2 ^ 32 }
    requires within { count ≤ capacity_of (length bytes.old) }
    ensures sealed { IsSealed bytes.new (entries_in bytes.old count) }
    ensures rest { drop 12 bytes.new ≡ drop 12 bytes.old }
{
    let word = (count as u32).to_be_bytes();
    bytes[COUNT_AT..COUNT_AT + COUNT_LEN].copy_from_slice(&word);
    let checksum = body_sum(bytes);
    bytes[..CHECKSUM_LEN].copy_from_slice(&checksum.to_be_bytes());
}

// The checksum of the bytes after the checksum.
fn body_sum(bytes: &[u8]) -> u64
    requires { 8 ≤ length bytes.now }
    ensures { result ≡ xxh64 (drop 8 bytes.now) }
{
    Checksummer::checksum64(&bytes[CHECKSUM_LEN..])
}

#[tactic(auto, unfolding(foyer_format_record::specs::Header::number_at))]
fn u64_at(bytes: &[u8], at: usize) -> u64
    requires { at + 8 ≤ length bytes.now }
    ensures { result ≡ number_at at 8 bytes.now }
{
    BigEndian::read_u64(&bytes[at..])
}

#[tactic(auto, unfolding(foyer_format_record::specs::Header::number_at))]
fn u32_at(bytes: &[u8], at: usize) -> u32
    requires { at + 4 ≤ length bytes.now }
    ensures { result ≡ number_at at 4 bytes.now }
{
    BigEndian::read_u32(&bytes[at..])
}

// The entry with this number.
fn entry_at(bytes: &[u8], i: usize) -> BlobEntryIndex
    requires { 12 + 24 * i + 24 ≤ length bytes.now }
    ensures { result ≡ entry_of (drop (12 + 24 * i) bytes.now) }
{
    BlobEntryIndex::read(&bytes[ENTRIES_AT + ENTRY_LEN * i..])
}

/// Reads indices.
pub struct BlobIndexReader;

impl BlobIndexReader {
    /// Gives the entries of a sealed index, in order. Gives `None` if the bytes are no sealed
    /// index, for example fewer than 12 bytes. Error: Memory if an allocation was refused.
    #[tactic(auto, using(crate::proofs::BlobLemmas::entry_lemmas))]
    pub fn read<A: Allocator>(alloc: A, bytes: &[u8]) -> Result<Option<Vec<BlobEntryIndex, A>>>
        ensures sealed { IfOk result (λ found. IfSome found (λ v. IsSealed bytes.now v.items)) }
        ensures none { IfOk result (λ found. IfNone found
            ((es : List BlobEntryIndex) → IsSealed bytes.now es → ⊥)) }
        ensures memory { IfErr result (λ e. e ≡ error.Memory) }
        ensures due { IfErr result (λ _. (es : List BlobEntryIndex) × IsSealed bytes.now es) }
    {
        if bytes.len() < ENTRIES_AT || body_sum(bytes) != u64_at(bytes, 0) {
            return Ok(None);
        }
        let count = u32_at(bytes, COUNT_AT) as usize;
        if count > (bytes.len() - ENTRIES_AT) / ENTRY_LEN {
            return Ok(None);
        }
        let mut entries = Vec::new(alloc);
        'entries: for i in 0..count {
            entries.push(entry_at(bytes, i))?;
        }
        Ok(Some(entries))
    }
}
