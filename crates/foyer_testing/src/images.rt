//! Forged blocks by their description.
use crate::forged::{BLOCK_SIZE, entry, page};
use foyer_device_page::error::Result;
use foyer_format_blob::BlobEntryIndex;
use foyer_format_checksum::Checksummer;
use std::alloc::Global;

fn number_in(word: &str) -> u64 {
    word.parse::<u64>().unwrap_or(0)
}

fn small_in(word: &str) -> u32 {
    word.parse::<u32>().unwrap_or(0)
}

// Cuts off the first word.
fn cut(text: &str) -> (&str, &str) {
    text.split_once(' ').unwrap_or((text, ""))
}

// Puts bytes at an offset, if they have room there.
fn put(block: &mut [u8], at: usize, bytes: &[u8]) {
    if at < block.len() && bytes.len() <= block.len() - at {
        block[at..at + bytes.len()].copy_from_slice(bytes);
    }
}

// The entry of four words: hash, sequence, offset, length.
fn entry_of(words: &str) -> BlobEntryIndex {
    let (hash, rest) = cut(words);
    let (sequence, rest) = cut(rest);
    let (offset, len) = cut(rest);
    entry(
        number_in(hash),
        number_in(sequence),
        small_in(offset),
        small_in(len),
    )
}

fn entries_of(alloc: Global, words: &str) -> Result<Vec<BlobEntryIndex>> {
    let mut entries = Vec::new(alloc);
    for part in words.split(", ") {
        if !part.is_empty() {
            entries.push(entry_of(part))?;
        }
    }
    Ok(entries)
}

// As many entries as an index has room for, all at the offset of one record.
fn full_entries(alloc: Global, hash: u64) -> Result<Vec<BlobEntryIndex>> {
    let mut entries = Vec::new(alloc);
    for n in 0..170u64 {
        entries.push(entry(hash.wrapping_add(n), n.wrapping_add(1), 4096, 53))?;
    }
    Ok(entries)
}

fn magic_of(word: &str) -> [u8; 4] {
    match word {
        "zstd" => [0x97, 0x03, 0x27, 0x01],
        "three" => [0x97, 0x03, 0x27, 0x03],
        "other" => [0x96, 0x03, 0x27, 0x00],
        _ => [0x97, 0x03, 0x27, 0x00],
    }
}

// Makes the record of a key below 256 and a text of one byte, under a right checksum. Its header has this hash, sequence and magic.
fn record(key: u8, hash: u64, sequence: u64, magic: &str, text: u8) -> [u8; 53] {
    let mut bytes = [0u8; 53];
    bytes[3] = 8;
    bytes[7] = 9;
    bytes[8..16].copy_from_slice(&hash.to_be_bytes());
    bytes[16..24].copy_from_slice(&sequence.to_be_bytes());
    bytes[32..36].copy_from_slice(&magic_of(magic));
    bytes[36] = 1;
    bytes[44] = text;
    bytes[45] = key;
    let checksum = Checksummer::checksum64(&bytes[36..]);
    bytes[24..32].copy_from_slice(&checksum.to_be_bytes());
    bytes
}

// Makes a record of five words: key, hash, sequence, magic and text. The text `FF` stands for a byte that no text has.
fn record_of(words: &str) -> [u8; 53] {
    let (key, rest) = cut(words);
    let (hash, rest) = cut(rest);
    let (sequence, rest) = cut(rest);
    let (magic, text) = cut(rest);
    let text = if text == "FF" { 0xFF } else { b'x' };
    let key = (number_in(key) % 256) as u8;
    record(key, number_in(hash), number_in(sequence), magic, text)
}

fn flip(block: &mut [u8], at: usize) {
    if let Some(byte) = block.get_mut(at) {
        *byte ^= 1;
    }
}

// Puts a part of a description into a block: a word, an offset, and what follows.
fn put_part(alloc: Global, block: &mut [u8], part: &str) -> Result<()> {
    let (word, rest) = cut(part);
    let (at, rest) = cut(rest);
    let at = number_in(at) as usize % BLOCK_SIZE;
    match word {
        "record" => put(block, at, &record_of(rest)),
        "flip" => flip(block, at),
        "full" => {
            let entries = full_entries(alloc, number_in(rest))?;
            put(block, at, &page(&entries, 170));
        }
        _ => {
            let entries = entries_of(alloc, rest)?;
            let count = u32::try_from(entries.len()).unwrap_or(0);
            put(block, at, &page(&entries, count));
        }
    }
    Ok(())
}

/// Gives the bytes of a block by its description, whose parts are separated by `; `. Bytes that no part sets are zeros. `index AT HASH
/// SEQUENCE OFFSET LENGTH, ..` is an index of such entries. `full AT HASH` is an index of 170 entries, for HASH and the next hashes.
/// `record AT KEY HASH SEQUENCE MAGIC TEXT` is a record of 53 bytes. All these have right checksums. `flip AT` flips the lowest bit of a
/// byte. Errors: `Memory`.
pub fn image(alloc: Global, description: &str) -> Result<Vec<u8>> {
    let mut block = vec![in alloc; 0u8; BLOCK_SIZE]?;
    for part in description.split("; ") {
        put_part(alloc, &mut block, part)?;
    }
    Ok(block)
}
