//! Random blocks, failed reads and marks.
use crate::tests::recover::recovering::{recover_by, runner};
use crate::tests::recover::slow;
use foyer_block_index::tombstone::Tombstone;
use foyer_block_recover::block::recover::{RecoverMode, Recovered};
use foyer_device_page::error::Error;
use foyer_format_blob::BlobEntryIndex;
use foyer_testing::forged::{ForgedDisk, entry, page};
use rand_core::utils::NextWord;
use rand_pcg::Pcg32;
use std::alloc::Global;
use std::test::Fail;

const BLOCKS: u32 = 3;

// Below the bound.
fn draw(generator: &mut Pcg32, below: u32) -> u32 {
    let word = generator.next_word();
    if below == 0 { 0 } else { word % below }
}

// Small, but now and then the last one.
fn draw_sequence(generator: &mut Pcg32) -> u64 {
    if draw(generator, 200) == 0 {
        return u64::MAX;
    }
    u64::from(draw(generator, 9))
}

fn draw_index(alloc: Global, generator: &mut Pcg32) -> Result<[u8; 4096], Fail> {
    let mut entries: Vec<BlobEntryIndex> = Vec::new(alloc);
    let mut least = draw_sequence(generator);
    let drawn = draw(generator, 4);
    for _ in 0..drawn {
        if draw(generator, 4) == 0 {
            least = draw_sequence(generator);
        }
        let offset = match draw(generator, 20) {
            0 => 0,
            1 => 4097,
            2..=9 => 8192,
            _ => 4096,
        };
        let len = match draw(generator, 20) {
            0 => 0,
            1 => 12289,
            2..=5 => 4097,
            _ => 53,
        };
        let hash = u64::from(draw(generator, 5));
        entries.push(entry(hash, least, offset, len))?;
    }
    let count = match draw(generator, 30) {
        0 => 171,
        1 => 170,
        _ => drawn,
    };
    let mut bytes = page(&entries, count);
    if draw(generator, 16) == 0 {
        let place = draw(generator, 4096) as usize;
        if let Some(byte) = bytes.get_mut(place) {
            *byte ^= 1;
        }
    }
    Ok(bytes)
}

fn draw_disk(alloc: Global, generator: &mut Pcg32) -> Result<ForgedDisk, Fail> {
    let mut disk = ForgedDisk::new(alloc, BLOCKS)?;
    for place in 0..12usize {
        if draw(generator, 8) != 0 {
            disk.put(4096 * place, &draw_index(alloc, generator)?);
        }
        if draw(generator, 20) == 0 {
            disk.failing.push(4096 * place)?;
        }
    }
    Ok(disk)
}

fn draw_marks(alloc: Global, generator: &mut Pcg32) -> Result<Vec<Tombstone>, Fail> {
    let mut marks = Vec::new(alloc);
    for _ in 0..draw(generator, 3) {
        let hash = u64::from(draw(generator, 5));
        let sequence = draw_sequence(generator);
        marks.push(Tombstone { hash, sequence })?;
    }
    Ok(marks)
}

// Says whether a hash is found at the place where the slow reader found it.
fn is_found_as_expected(
    recovered: &Recovered<Global>,
    expected: &slow::Expected,
    hash: u64,
) -> bool {
    match (
        recovered.index.get(hash),
        slow::winner(&expected.found, hash),
    ) {
        (Some(address), Some(found)) => {
            address.block == found.block
                && address.offset as usize == found.offset
                && address.len == found.len
                && address.sequence == found.sequence
                && address.filling == 0
        }
        (address, found) => address.is_none() && found.is_none(),
    }
}

fn are_found_as_expected(recovered: &Recovered<Global>, expected: &slow::Expected) -> bool {
    for hash in 0..6u64 {
        if !is_found_as_expected(recovered, expected, hash) {
            return false;
        }
    }
    expected.refused.is_none()
        && recovered.next == expected.next
        && recovered.clean.as_slice() == expected.clean.as_slice()
}

// Recovers by so many workers: what it was refused as, and whether that, or what was recovered, is what the slow reader has.
fn compare(
    alloc: Global,
    disk: &mut ForgedDisk,
    mode: RecoverMode,
    workers: u32,
    marks: &[Tombstone],
) -> Result<(Option<Error>, bool), Fail> {
    let expected = slow::open_slowly(alloc, disk, BLOCKS, mode, marks)?;
    let runner = runner(mode, BLOCKS);
    match recover_by(&alloc, disk, &runner, workers, workers == 3, marks) {
        Ok(recovered) => Ok((None, are_found_as_expected(&recovered, &expected))),
        Err(error) => Ok((Some(error), expected.refused == Some(error))),
    }
}

// By how many workers a device is recovered, in turn: by none that lists, and by so many that do.
const WORKERS: [u32; 5] = [0, 1, 2, 3, 8];

#[test]
fn random_blocks_are_what_a_slow_reader_has(rt: HostRuntime) -> Result<(), Fail> {
    let alloc = rt.alloc();
    let mut generator = Pcg32::new(1, 54);
    let mut cut = 0u32;
    let mut ended = 0u32;
    let mut opened = 0u32;
    for turn in 0..1000usize {
        let workers = WORKERS[turn % 5];
        let mut disk = draw_disk(alloc, &mut generator)?;
        let marks = draw_marks(alloc, &mut generator)?;
        for mode in [RecoverMode::None, RecoverMode::Quiet, RecoverMode::Strict] {
            let (refused, is_so) = compare(alloc, &mut disk, mode, workers, &marks)?;
            assert!(rt; is_so, "turn {turn}");
            match refused {
                None => opened = opened.saturating_add(1),
                Some(Error::Recover) => cut = cut.saturating_add(1),
                Some(_) => ended = ended.saturating_add(1),
            }
        }
    }
    assert!(rt; opened > 100);
    assert!(rt; cut > 100);
    assert!(rt; ended > 10);
    Ok(())
}
