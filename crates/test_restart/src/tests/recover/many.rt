//! A device of a hundred thousand records.
use crate::tests::recover::recovering::runner;
use foyer_block_recover::block::recover::{RecoverMode, Recovered};
use foyer_format_blob::BlobEntryIndex;
use foyer_testing::forged::{ForgedDisk, entry, page};
use std::alloc::Global;
use std::test::Fail;

const BLOCKS: u32 = 295;

const RECORDS: u64 = 100_300;

// The most that an index has room for.
const ENTRIES: u64 = 170;

// An index with as many entries as it has room for, of the hashes from this one on, all of one record.
fn full_index(alloc: Global, hash: u64) -> Result<[u8; 4096], Fail> {
    let mut entries: Vec<BlobEntryIndex> = Vec::new(alloc);
    for n in 0..ENTRIES {
        let own = hash.saturating_add(n);
        entries.push(entry(own, own.saturating_add(1), 4096, 53))?;
    }
    Ok(page(&entries, 170))
}

// Blocks with two full indices each, and no hash twice.
fn full_disk(alloc: Global) -> Result<ForgedDisk, Fail> {
    let mut disk = ForgedDisk::new(alloc, BLOCKS)?;
    let mut hash = 0u64;
    for block in 0..BLOCKS {
        let at = (block as usize).saturating_mul(16384);
        disk.put(at, &full_index(alloc, hash)?);
        hash = hash.saturating_add(ENTRIES);
        disk.put(at.saturating_add(8192), &full_index(alloc, hash)?);
        hash = hash.saturating_add(ENTRIES);
    }
    Ok(disk)
}

// Whether a hash is found in its block.
fn is_found(recovered: &Recovered<Global>, hash: u64) -> bool {
    match recovered.index.get(hash) {
        Some(address) => {
            address.sequence == hash.saturating_add(1)
                && u64::from(address.block) == hash / (2 * ENTRIES)
        }
        None => false,
    }
}

// How many of the hashes are found, and of one behind them.
fn found(recovered: &Recovered<Global>) -> u64 {
    let mut found = 0u64;
    for hash in 0..RECORDS + 1 {
        if is_found(recovered, hash) {
            found = found.saturating_add(1);
        }
    }
    found
}

// Each index is read once, and nothing else is.
#[test]
fn a_hundred_thousand_records_are_found(rt: HostRuntime) -> Result<(), Fail> {
    let mut disk = full_disk(rt.alloc())?;
    let recovered = runner(RecoverMode::Strict, BLOCKS).run(&rt.alloc(), &mut disk, 64, &[])?;
    assert!(rt; disk.reads == u64::from(BLOCKS) * 2 && recovered.clean.is_empty());
    assert!(rt; recovered.next == RECORDS + 1 && found(&recovered) == RECORDS);
    assert!(rt; recovered.index.get(RECORDS).is_none());
    Ok(())
}
