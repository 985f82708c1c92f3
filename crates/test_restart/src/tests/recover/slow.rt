//! A slow reader of blocks, written from the format alone.
use foyer_block_index::tombstone::Tombstone;
use foyer_block_recover::block::recover::RecoverMode;
use foyer_device_page::error::Error;
use foyer_format_checksum::Checksummer;
use foyer_testing::forged::{BLOCK_SIZE, ForgedDisk, INDEX_SIZE};
use std::alloc::Global;
use std::test::Fail;

/// What was found for a hash: the place of its record, or that it is a mark.
#[derive(Clone, Copy, Debug, PartialEq, Eq)]
pub(crate) struct Found {
    pub(crate) hash: u64,
    pub(crate) sequence: u64,
    pub(crate) block: u32,
    pub(crate) offset: usize,
    pub(crate) len: u32,
    pub(crate) is_mark: bool,
}

/// What an opening is to give.
#[derive(Drop)]
pub(crate) struct Expected {
    pub(crate) refused: Option<Error>,
    pub(crate) found: Vec<Found>,
    pub(crate) next: u64,
    pub(crate) clean: Vec<u32>,
}

// The number that some bytes encode, the highest first.
fn number(bytes: &[u8], at: usize, len: usize) -> u64 {
    let mut number = 0u64;
    for index in 0..len {
        let byte = bytes.get(at.saturating_add(index)).copied().unwrap_or(0);
        number = number.wrapping_mul(256).wrapping_add(u64::from(byte));
    }
    number
}

// The entries of the index at an offset of a block, if one stands there.
fn index_at(
    alloc: Global,
    disk: &ForgedDisk,
    block: u32,
    place: usize,
) -> Result<Option<Vec<Found>>, Fail> {
    let start = (block as usize * BLOCK_SIZE).saturating_add(place);
    let Some(bytes) = disk.bytes.get(start..start.saturating_add(INDEX_SIZE)) else {
        return Ok(None);
    };
    let count = number(bytes, 8, 4);
    if bytes.len() < 12
        || number(bytes, 0, 8) != Checksummer::checksum64(&bytes[8..])
        || count > 170
    {
        return Ok(None);
    }
    let mut entries = Vec::new(alloc);
    for index in 0..170usize {
        if index as u64 >= count {
            return Ok(Some(entries));
        }
        let at = 12 + 24 * index;
        let offset = number(bytes, at + 16, 4) as usize;
        let len = u32::try_from(number(bytes, at + 20, 4)).unwrap_or(0);
        let padded = (len as usize).div_ceil(4096) * 4096;
        if len == 0
            || offset < INDEX_SIZE
            || offset % 4096 != 0
            || place.saturating_add(offset).saturating_add(padded) > BLOCK_SIZE
        {
            return Ok(None);
        }
        entries.push(Found {
            hash: number(bytes, at, 8),
            sequence: number(bytes, at + 8, 8),
            block,
            offset: place.saturating_add(offset),
            len,
            is_mark: false,
        })?;
    }
    Ok(Some(entries))
}

// What a block keeps, and whether a failed read ends its chain.
#[derive(Drop)]
struct Kept {
    entries: Vec<Found>,
    is_cut: bool,
}

fn kept_of(alloc: Global, disk: &ForgedDisk, block: u32) -> Result<Kept, Fail> {
    let mut entries: Vec<Found> = Vec::new(alloc);
    let mut least = 0;
    let mut fell = false;
    let mut place = 0usize;
    for _ in 0..BLOCK_SIZE {
        if place.saturating_add(INDEX_SIZE) > BLOCK_SIZE {
            break;
        }
        let at = (block as usize * BLOCK_SIZE).saturating_add(place);
        if disk.failing.contains(&at) {
            return Ok(Kept {
                entries,
                is_cut: true,
            });
        }
        let Some(listed) = index_at(alloc, disk, block, place)? else {
            break;
        };
        place = BLOCK_SIZE;
        for found in &listed {
            place = found
                .offset
                .saturating_add((found.len as usize).div_ceil(4096) * 4096);
            fell = fell || found.sequence < least;
            if !fell {
                least = found.sequence;
                entries.push(*found)?;
            }
        }
    }
    Ok(Kept {
        entries,
        is_cut: false,
    })
}

/// What is to be recovered of so many blocks.
pub(crate) fn open_slowly(
    alloc: Global,
    disk: &ForgedDisk,
    blocks: u32,
    mode: RecoverMode,
    marks: &[Tombstone],
) -> Result<Expected, Fail> {
    let mut found: Vec<Found> = Vec::new(alloc);
    let mut clean = Vec::new(alloc);
    let mut is_cut = false;
    for block in 0..blocks {
        if mode == RecoverMode::None {
            clean.push(block)?;
        } else {
            let kept = kept_of(alloc, disk, block)?;
            is_cut = is_cut || kept.is_cut;
            if kept.entries.is_empty() {
                clean.push(block)?;
            }
            for entry in &kept.entries {
                found.push(*entry)?;
            }
        }
    }
    for mark in marks {
        found.push(Found {
            hash: mark.hash,
            sequence: mark.sequence,
            block: 0,
            offset: 0,
            len: 0,
            is_mark: true,
        })?;
    }
    let mut greatest = 0;
    for one in &found {
        greatest = one.sequence.max(greatest);
    }
    let refused = if is_cut && mode == RecoverMode::Strict {
        Some(Error::Recover)
    } else if greatest == u64::MAX {
        Some(Error::SequenceEnd)
    } else {
        None
    };
    Ok(Expected {
        refused,
        found,
        next: greatest.saturating_add(1),
        clean,
    })
}

/// The later one of the greatest sequence of a hash, unless it is a mark.
pub(crate) fn winner(found: &[Found], hash: u64) -> Option<Found> {
    let mut best: Option<Found> = None;
    for one in found {
        if one.hash == hash {
            let wins = match best {
                Some(other) => other.sequence <= one.sequence,
                None => true,
            };
            if wins {
                best = Some(*one);
            }
        }
    }
    best.filter(|one| !one.is_mark)
}
