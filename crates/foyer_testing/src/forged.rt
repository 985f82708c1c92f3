//! A disk of forged blocks. Some of its reads fail.
use foyer_block_index::manager::BlockId;
use foyer_device_page::error::{Error, Result};
use foyer_format_blob::BlobEntryIndex;
use foyer_format_checksum::Checksummer;
use foyer_io_disk::disk::Disk;
use std::alloc::{Allocator, Global};

pub const BLOCK_SIZE: usize = 16384;

pub const INDEX_SIZE: usize = 4096;

/// A disk in memory: its bytes, one block after another; the offsets in them at which reads fail; how many reads there were; and how many
/// accesses failed.
#[derive(Drop)]
pub struct ForgedDisk {
    pub bytes: Vec<u8>,
    pub failing: Vec<usize>,
    pub reads: u64,
    pub faults: u64,
}

impl ForgedDisk {
    /// Gives a disk of blocks of zeros. Errors: `Memory`.
    pub fn new(alloc: Global, blocks: u32) -> Result<ForgedDisk> {
        Ok(ForgedDisk {
            bytes: vec![in alloc; 0u8; BLOCK_SIZE * blocks as usize]?,
            failing: Vec::new(alloc),
            reads: 0,
            faults: 0,
        })
    }

    /// Puts a page at an offset of the disk, if it has room there.
    pub fn put(&mut self, at: usize, page: &[u8; 4096]) {
        if at < self.bytes.len() && page.len() <= self.bytes.len() - at {
            self.bytes[at..at + 4096].copy_from_slice(page);
        }
    }
}

impl Disk for ForgedDisk {
    ghost is_known = { λ _. ⊥ };

    ghost byte_at = { λ _ _ _. 0 };

    ghost surely_has = { λ _ _ _ _. ⊥ };

    ghost faults = { λ d. d.faults };

    ghost surely_lies = { λ _ _ _ _. Unit {0} };

    fn read<A: Allocator>(
        &mut self,
        block: BlockId,
        offset: usize,
        buffer: Vec<u8, A>,
    ) -> (Vec<u8, A>, Result<()>) {
        self.reads = self.reads.saturating_add(1);
        let mut buffer = buffer;
        let at = (block as usize * BLOCK_SIZE).saturating_add(offset);
        if self.failing.contains(&at)
            || at > self.bytes.len()
            || buffer.len() > self.bytes.len() - at
        {
            self.faults = self.faults.saturating_add(1);
            return (buffer, Err(Error::Io));
        }
        let end = at + buffer.len();
        buffer.copy_from_slice(&self.bytes[at..end]);
        (buffer, Ok(()))
    }

    fn write(&mut self, _block: BlockId, _offset: usize, _bytes: &[u8]) -> Result<()> {
        self.faults = self.faults.saturating_add(1);
        Err(Error::Unsupported)
    }
}

pub fn entry(hash: u64, sequence: u64, offset: u32, len: u32) -> BlobEntryIndex {
    BlobEntryIndex {
        hash,
        sequence,
        offset,
        len,
    }
}

/// Gives a page with the first 170 of these entries, at most, and with this count, under a right checksum.
pub fn page(entries: &[BlobEntryIndex], count: u32) -> [u8; 4096] {
    let mut bytes = [0u8; 4096];
    bytes[8..12].copy_from_slice(&count.to_be_bytes());
    for (index, entry) in entries.iter().enumerate() {
        if index < 170 {
            let at = 12 + 24 * index;
            entry.write(&mut bytes[at..at + 24]);
        }
    }
    let checksum = Checksummer::checksum64(&bytes[8..]);
    bytes[..8].copy_from_slice(&checksum.to_be_bytes());
    bytes
}
