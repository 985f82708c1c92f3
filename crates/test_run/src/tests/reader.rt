//! A slow reader of the bytes of a disk, written from the pages on them alone.
use foyer_core_steps::settings::Settings;
use foyer_device_page::error::Result;
use foyer_format_checksum::Checksummer;
use foyer_io_disk::disk::Disk;
use foyer_testing::said::Said;
use std::alloc::Global;

const PAGE: usize = 4096;

// A record's place, as the index of its blob says, and whether its bytes are those of such a record.
#[derive(Clone, Copy)]
pub struct Listed {
    pub block: u32,
    pub hash: u64,
    pub sequence: u64,
    pub offset: usize,
    pub len: usize,
    pub is_record: bool,
}

// The bytes from one place to another, as many as there are.
pub fn range(bytes: &[u8], from: usize, to: usize) -> &[u8] {
    if from <= to && to <= bytes.len() {
        &bytes[from..to]
    } else {
        &bytes[..0]
    }
}

// The number of so many bytes, the greatest first.
fn big(bytes: &[u8], at: usize, count: usize) -> u64 {
    let mut number = 0u64;
    for byte in range(bytes, at, at.saturating_add(count)) {
        number = number.wrapping_mul(256).wrapping_add(u64::from(*byte));
    }
    number
}

// The number of eight bytes, the least first.
fn little(bytes: &[u8], at: usize) -> u64 {
    let mut number = 0u64;
    let mut factor = 1u64;
    for byte in range(bytes, at, at.saturating_add(8)) {
        number = number.wrapping_add(factor.wrapping_mul(u64::from(*byte)));
        factor = factor.wrapping_mul(256);
    }
    number
}

// The length in whole pages.
fn page_up(len: usize) -> usize {
    len.div_ceil(PAGE).saturating_mul(PAGE)
}

// Whether the bytes are a record of this hash and sequence, of a text under a key that is its hash.
pub fn is_record(record: &[u8], hash: u64, sequence: u64) -> bool {
    let body = range(record, 36, record.len());
    let value_len = big(record, 4, 4);
    big(record, 0, 4) == 8
        && value_len.saturating_add(44) == record.len() as u64
        && big(record, 8, 8) == hash
        && big(record, 16, 8) == sequence
        && big(record, 24, 8) == Checksummer::checksum64(body)
        && big(record, 32, 4) == 0x9703_2700
        && little(body, 0).saturating_add(8) == value_len
        && little(body, value_len as usize) == hash
}

// The entry of an index, of the blob that begins there.
fn entry(bytes: &[u8], block: u32, blob: usize, index: usize) -> Listed {
    let at = blob
        .saturating_add(index.saturating_mul(24))
        .saturating_add(12);
    let hash = big(bytes, at, 8);
    let sequence = big(bytes, at.saturating_add(8), 8);
    let offset = blob.saturating_add(big(bytes, at.saturating_add(16), 4) as usize);
    let len = big(bytes, at.saturating_add(20), 4) as usize;
    let record = range(bytes, offset, offset.saturating_add(len));
    Listed {
        block,
        hash,
        sequence,
        offset,
        len,
        is_record: is_record(record, hash, sequence),
    }
}

// Whether an entry of the blob that begins there can stand in the block.
fn is_within(found: &Listed, blob: usize, index_size: usize, block_size: usize) -> bool {
    found.len != 0
        && found.offset >= blob.saturating_add(index_size)
        && found.offset % PAGE == 0
        && found.offset.saturating_add(page_up(found.len)) <= block_size
}

// Lists the blob that begins there. Gives where the next one would begin, or None if the list ends.
fn list_blob(
    listed: &mut Vec<Listed>,
    bytes: &[u8],
    block: u32,
    blob: usize,
    index_size: usize,
) -> Result<Option<usize>> {
    let index = range(bytes, blob, blob.saturating_add(index_size));
    let count = big(index, 8, 4) as usize;
    if index.len() < PAGE
        || big(index, 0, 8) != Checksummer::checksum64(range(index, 8, index.len()))
    {
        return Ok(None);
    }
    if count > (index.len() - 12) / 24 {
        return Ok(None);
    }
    for number in 0..count {
        if !is_within(
            &entry(bytes, block, blob, number),
            blob,
            index_size,
            bytes.len(),
        ) {
            return Ok(None);
        }
    }
    let mut next = None;
    for number in 0..count {
        let found = entry(bytes, block, blob, number);
        listed.push(found)?;
        next = Some(found.offset.saturating_add(page_up(found.len)));
    }
    Ok(next)
}

// Lists the records of a block.
fn list_block(listed: &mut Vec<Listed>, bytes: &[u8], block: u32, index_size: usize) -> Result<()> {
    let mut blob = 0usize;
    for _ in 0..bytes.len() / PAGE + 1 {
        match list_blob(listed, bytes, block, blob, index_size)? {
            Some(next) => blob = next,
            None => return Ok(()),
        }
    }
    Ok(())
}

// The bytes of a disk from an offset in a block on.
pub fn bytes_of<D: Disk>(
    alloc: Global,
    disk: &mut D,
    block: u32,
    offset: usize,
    len: usize,
) -> Result<Vec<u8>> {
    let mut bytes = Vec::new(alloc);
    bytes.resize(len, 0)?;
    let (bytes, outcome) = disk.read(block, offset, bytes);
    outcome?;
    Ok(bytes)
}

// Lists the records of a disk, block by block.
pub fn list<D: Disk>(alloc: Global, disk: &mut D, settings: &Settings) -> Result<Vec<Listed>> {
    let mut listed = Vec::new(alloc);
    for block in 0..settings.blocks {
        let bytes = bytes_of(alloc, disk, block, 0, settings.block_size)?;
        list_block(
            &mut listed,
            bytes.as_slice(),
            block,
            settings.blob_index_size,
        )?;
    }
    Ok(listed)
}

// The block, hash, sequence, offset and length of a record; what is none is named.
pub fn say_record(said: &mut Said, found: &Listed) {
    said.number("", u64::from(found.block));
    said.number(" ", found.hash);
    said.number(" ", found.sequence);
    said.number(" ", found.offset as u64);
    said.number(" ", found.len as u64);
    said.word(if found.is_record { "\n" } else { " is none\n" });
}
