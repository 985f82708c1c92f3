//! A split under way.
ghost use Rattle.std.specs.Prelude.{◌≡◌, ◌+◌, ◌<◌, ◌≤◌, ◌%◌, ◌^◌, List, length, OnOk, IfErr, IsTrue, vec_len, [], ◌∷◌, ◌++◌};
ghost use Rattle.foyer_device_page.specs.declared.error.Error.{Error as error};
ghost use Rattle.foyer_format_blob.specs.Blob.{capacity_of};

use super::BufferEntryInfo;
use super::split::{BlobPart, Block};
use foyer_device_page::error::Result;
use foyer_device_page::io::bytes::IoSlice;
use foyer_format_blob::{BlobEntryIndex, BlobIndex};
use std::alloc::Allocator;
use std::mem;

/// How far the splitter has come. What it collects is given away only at the end, so that a refusal
/// changes nothing.
#[derive(Drop)]
pub(super) struct SplitProgress<A: Allocator> {
    pub(super) block_size: usize,
    pub(super) index_size: usize,
    pub(super) blob: usize,
    pub(super) at: usize,
    pub(super) index: BlobIndex<A>,
    pub(super) start: usize,
    pub(super) size: usize,
    pub(super) indices: Vec<BlobEntryIndex, A>,
    pub(super) parts: Vec<BlobPart<A>, A>,
    pub(super) blocks: Vec<Block<A>, A>,
    ghost sizes: { index_size < block_size },
    ghost some_index: { 36 ≤ index_size },
    ghost small: { block_size ≤ 2 ^ 32 },
    ghost behind: { index_size ≤ at },
    ghost index_len: { length index.bytes ≡ index_size },
    ghost within: { blob + at + size ≤ block_size + index_size },
    ghost collected: { vec_len indices ≡ 0 → size ≡ 0 },
    ghost used: { 0 < index.count → blob + at + size ≤ block_size },
    ghost pages: { start % 4096 ≡ 0 },
    ghost part_pages: { size % 4096 ≡ 0 },
    ghost counted: { start + size < 2 ^ 64 },
}

// Ends the block of these parts.
fn end_block<A: Allocator + Clone>(
    alloc: &A,
    parts: &mut Vec<BlobPart<A>, A>,
    blocks: &mut Vec<Block<A>, A>,
) -> Result<()>
    ensures blocks { OnOk result (blocks.new.items
        ≡ blocks.old.items ++ (record { blob_parts = parts.old }) ∷ []) }
    ensures parts { OnOk result (parts.new.items ≡ []) }
    ensures memory { IfErr result (λ e. e ≡ error.Memory) }
{
    let blob_parts = mem::replace(parts, Vec::new(alloc.clone()?));
    blocks.push(Block { blob_parts })?;
    Ok(())
}

impl<A: Allocator + Clone> SplitProgress<A> {
    ghost use Rattle.std.specs.Prelude.{◌+◌, ◌<◌, ◌≤◌, length, map, OnOk, IsTrue};
    ghost use Rattle.foyer_device_page.specs.Section.{Section, bytes_of};
    ghost use Rattle.foyer_format_layout.specs.Page.{page_up};
    ghost use Rattle.foyer_format_buffer.specs.Position.{Position, FitsBlock};
    ghost use Rattle.foyer_format_buffer.specs.Splitting.{Going, Closed, Moves, sizes_of, position_of};
    ghost use Rattle.foyer_format_buffer.specs.Layout.{Places, parts_of};
    ghost use Rattle.foyer_format_buffer.specs.declared.BufferEntryInfo.{BufferEntryInfo};

    // Makes a part of the collected records, if there are some.
    fn close(&mut self, alloc: &A, bytes: &IoSlice<A>) -> Result<()>
        requires within { self.old.start + self.old.size ≤ length (bytes_of bytes.now) }
        ensures closed { OnOk result ((f : Position) (all rest : List BufferEntryInfo)
            → Going bytes.now f all self.old rest → Closed bytes.now f all self.new rest) }
        ensures moves { OnOk result (Moves 0 self.old self.new) }
        ensures end { OnOk result ((self.new.size ≡ 0) × (self.new.blob ≡ self.old.blob)
            × (self.new.at ≡ self.old.at + self.old.size)) }
        ensures index { OnOk result (self.new.index ≡ self.old.index) }
        ensures memory { IfErr result (λ e. e ≡ error.Memory) }
    {
        if self.indices.is_empty() {
            return Ok(());
        }
        let end = self.start + self.size;
        let index = self.index.seal(alloc.clone()?)?;
        let part_data = bytes.slice(self.start..end)?;
        let indices = mem::replace(&mut self.indices, Vec::new(alloc.clone()?));
        let part = BlobPart {
            blob_block_offset: self.blob,
            index,
            part_blob_offset: self.at,
            part_data,
            indices,
        };
        let at = self.at + self.size;
        self.size = 0;
        self.at = at;
        self.start = end;
        self.parts.push(part)?;
        Ok(())
    }

    // Begins the next blob, after the present one.
    fn next_blob(&mut self)
        requires full { self.old.index.count ≡ capacity_of self.old.index_size }
        requires size { self.old.size ≡ 0 }
        ensures going { (s : Section) (f : Position) (all rest : List BufferEntryInfo)
            → Closed s f all self.old rest → Going s f all self.new rest }
        ensures moves { Moves 0 self.old self.new }
        ensures empty { (self.new.size ≡ 0) × (self.new.index.count ≡ 0) }
    {
        let blob = self.blob + self.at;
        self.at = 0;
        self.blob = blob;
        self.at = self.index_size;
        self.index.reset();
    }

    // Begins the next block, since this record doesn't fit into the present one.
    fn next_block(&mut self, alloc: &A, info: &BufferEntryInfo) -> Result<()>
        requires over { self.old.block_size < self.old.blob + self.old.at + page_up info.now.len }
        requires size { self.old.size ≡ 0 }
        requires open { self.old.index.count < capacity_of self.old.index_size }
        ensures going { OnOk result ((s : Section) (f : Position) (all rest : List BufferEntryInfo)
            → Closed s f all self.old (info.now ∷ rest) → Going s f all self.new (info.now ∷ rest)) }
        ensures moves { OnOk result (Moves 0 self.old self.new) }
        ensures empty { OnOk result ((self.new.size ≡ 0) × (self.new.index.count ≡ 0)
            × (self.new.blob ≡ 0) × (self.new.at ≡ self.new.index_size)) }
        ensures memory { IfErr result (λ e. e ≡ error.Memory) }
    {
        end_block(alloc, &mut self.parts, &mut self.blocks)?;
        self.blob = 0;
        self.at = self.index_size;
        self.index.reset();
        Ok(())
    }

    // Collects a record.
    #[tactic(auto, using(foyer_format_layout::proofs::PageLaws::page_laws))]
    fn append(&mut self, info: &BufferEntryInfo) -> Result<()>
        requires fits { self.old.blob + self.old.at + self.old.size + page_up info.now.len
            ≤ self.old.block_size }
        requires some { 0 < info.now.len }
        requires open { self.old.index.count < capacity_of self.old.index_size }
        requires sum { self.old.start + self.old.size + page_up info.now.len < 2 ^ 64 }
        ensures going { OnOk result ((s : Section) (f : Position) (all rest : List BufferEntryInfo)
            → Going s f all self.old (info.now ∷ rest) → Going s f all self.new rest) }
        ensures moves { OnOk result (Moves (page_up info.now.len) self.old self.new) }
        ensures memory { IfErr result (λ e. e ≡ error.Memory) }
    {
        let entry = BlobEntryIndex {
            hash: info.hash,
            sequence: info.sequence,
            offset: (self.at + self.size) as u32,
            len: info.len as u32,
        };
        self.index.write(&entry);
        self.indices.push(entry)?;
        self.size += info.aligned();
        Ok(())
    }

    // Begins a new block if the record doesn't fit into the present one.
    fn room_in_block(&mut self, alloc: &A, bytes: &IoSlice<A>, info: &BufferEntryInfo) -> Result<()>
        requires within { self.old.start + self.old.size ≤ length (bytes_of bytes.now) }
        requires fits { FitsBlock (sizes_of self.old) info.now }
        requires open { self.old.index.count < capacity_of self.old.index_size }
        ensures going { OnOk result ((f : Position) (all rest : List BufferEntryInfo)
            → Going bytes.now f all self.old (info.now ∷ rest)
            → Going bytes.now f all self.new (info.now ∷ rest)) }
        ensures moves { OnOk result (Moves 0 self.old self.new) }
        ensures open { OnOk result (self.new.index.count < capacity_of self.new.index_size) }
        ensures fits { OnOk result (self.new.blob + self.new.at + self.new.size
            + page_up info.now.len ≤ self.new.block_size) }
        ensures memory { IfErr result (λ e. e ≡ error.Memory) }
    {
        if self.blob + self.at + self.size + info.aligned() > self.block_size {
            self.close(alloc, bytes)?;
            self.next_block(alloc, info)?;
        }
        Ok(())
    }

    // Begins a new blob if the index is full.
    fn room_in_index(&mut self, alloc: &A, bytes: &IoSlice<A>) -> Result<()>
        requires within { self.old.start + self.old.size ≤ length (bytes_of bytes.now) }
        ensures going { OnOk result ((f : Position) (all rest : List BufferEntryInfo)
            → Going bytes.now f all self.old rest → Going bytes.now f all self.new rest) }
        ensures moves { OnOk result (Moves 0 self.old self.new) }
        ensures open { OnOk result (self.new.index.count < capacity_of self.new.index_size) }
        ensures memory { IfErr result (λ e. e ≡ error.Memory) }
    {
        if self.index.is_full() {
            self.close(alloc, bytes)?;
            self.next_blob();
        }
        Ok(())
    }

    // Places a record.
    pub(super) fn place(
        &mut self,
        alloc: &A,
        bytes: &IoSlice<A>,
        info: &BufferEntryInfo,
    ) -> Result<()>
        requires within { self.old.start + self.old.size + page_up info.now.len
            ≤ length (bytes_of bytes.now) }
        requires sum { self.old.start + self.old.size + page_up info.now.len < 2 ^ 64 }
        requires fits { FitsBlock (sizes_of self.old) info.now }
        requires open { self.old.index.count < capacity_of self.old.index_size }
        ensures going { OnOk result ((f : Position) (all rest : List BufferEntryInfo)
            → Going bytes.now f all self.old (info.now ∷ rest)
            → Going bytes.now f all self.new rest) }
        ensures moves { OnOk result (Moves (page_up info.now.len) self.old self.new) }
        ensures open { OnOk result (self.new.index.count < capacity_of self.new.index_size) }
        ensures memory { IfErr result (λ e. e ≡ error.Memory) }
    {
        self.room_in_block(alloc, bytes, info)?;
        self.append(info)?;
        self.room_in_index(alloc, bytes)
    }

    // Closes the last part and the last block.
    pub(super) fn finish(&mut self, alloc: &A, bytes: &IoSlice<A>) -> Result<()>
        requires within { self.old.start + self.old.size ≤ length (bytes_of bytes.now) }
        requires open { self.old.index.count < capacity_of self.old.index_size }
        ensures placed { OnOk result ((f : Position) (all : List BufferEntryInfo)
            → Going bytes.now f all self.old [] → Places (sizes_of self.new) bytes.now f all
            (map parts_of self.new.blocks.items) (position_of self.new)) }
        ensures moves { OnOk result (Moves 0 self.old self.new) }
        ensures open { OnOk result (self.new.index.count < capacity_of self.new.index_size) }
        ensures memory { IfErr result (λ e. e ≡ error.Memory) }
    {
        self.close(alloc, bytes)?;
        end_block(alloc, &mut self.parts, &mut self.blocks)?;
        Ok(())
    }
}
