//! The reclaim of a block by its calls alone, and what waits in a flusher's queue.
use foyer_block_index::indexer::{EntryAddress, Indexer};
use foyer_block_index::manager::BlockId;
use foyer_block_index::tombstone::Tombstone;
use foyer_block_manager::block::eviction::AnyPicker;
use foyer_block_manager::block::manager::{BlockManager, ManagerConfig};
use foyer_core_access::reclaims::BlockCleaner;
use foyer_core_flusher::flusher::{Reinsertion, Submission};
use foyer_core_steps::apply::no_io;
use foyer_core_steps::block::reclaimer::{Lists, Reclaimer, ReclaimerTrait};
use foyer_device_page::error::Result;
use foyer_io_blocks::memory::MemoryDisk;
use foyer_io_disk::disk::Disk;
use foyer_policy_filter::{AdmitAll, StorageFilter};
use foyer_testing::said::Said;
use rand_pcg::Pcg32;
use std::alloc::Global;
use std::fmt::Debug;
use std::test::Fail;

const CONFIG: ManagerConfig = ManagerConfig {
    blocks: 2,
    block_size: 8192,
    flushers: 1,
    reclaimers: 1,
    clean_threshold: 1,
};

// What a reclaim that finds no index says: whether it lists anything, whether its block is being reclaimed before it is cleaned,
// which flusher gets it, and whether it is being reclaimed then.
fn say_reclaim<R: ReclaimerTrait<Global> + Drop>(
    said: &mut Said,
    alloc: Global,
    mut reclaimer: R,
    manager: &mut BlockManager<Global>,
    block: BlockId,
) -> Result<()> {
    let mut index = Indexer::new(alloc, 1)?;
    let filter: Option<StorageFilter<AdmitAll, Global>> = None;
    let listed = reclaimer.read(&alloc, &[0; 4096], &filter, &no_io())?;
    said.flag("listed ", listed.is_some());
    reclaimer.forget(&mut index);
    said.flag(", reclaimed ", manager.is_reclaimed(block));
    if manager.is_reclaimed(block) {
        match reclaimer.cleaned(manager, block) {
            Some(flusher) => said.number(", for flusher ", u64::from(flusher)),
            None => said.word(", for nobody"),
        }
    }
    said.flag(", reclaimed ", manager.is_reclaimed(block));
    Ok(())
}

// The reclaim of the one block that may be reclaimed, for which the one flusher waits.
fn reclaimed(alloc: Global) -> Result<String> {
    let mut said = Said::new(alloc);
    let mut pickers: Vec<AnyPicker> = Vec::new(alloc);
    let mut own = Vec::new(alloc);
    let mut generator = Pcg32::new(42, 54);
    let mut manager = BlockManager::open(&alloc, CONFIG)?;
    manager.init(&alloc, &mut pickers, &[])?;
    said.number("flushers ", manager.flushers() as u64);
    if 0 < manager.flushers() {
        said.flag(", a clean block ", manager.get_clean_block(0).is_some());
    }
    said.word(", ");
    if let Some(begun) = manager.reclaim_begin(&alloc, &mut pickers, &mut own, &mut generator)? {
        let reclaimer = Reclaimer::new(Lists::new(&alloc)?, begun.block, 1, 8192, 4096);
        say_reclaim(&mut said, alloc, reclaimer, &mut manager, begun.block)?;
    }
    said.text()
}

#[test]
fn a_reclaimed_block_goes_to_the_flusher_that_waits(
    rt: HostRuntime,
) -> std::result::Result<(), Fail> {
    let said = reclaimed(rt.alloc())?;
    let wanted =
        "flushers 1, a clean block no, listed no, reclaimed yes, for flusher 0, reclaimed no";
    assert!(rt; said.as_str() == wanted, "{said}");
    Ok(())
}

// What is read across the end of a block's first page, once it is cleaned.
fn read_behind_a_clean(alloc: Global) -> Result<Vec<u8>> {
    let mut disk = MemoryDisk::new(alloc, 2, 8192)?;
    disk.write(1, 4092, &[7; 8])?;
    BlockCleaner::clean(&mut disk, 1)?;
    let mut buffer = Vec::new(alloc);
    buffer.resize(8, 1)?;
    let (buffer, outcome) = disk.read(1, 4092, buffer);
    outcome?;
    Ok(buffer)
}

#[test]
fn a_cleaned_block_begins_with_zeros(rt: HostRuntime) -> std::result::Result<(), Fail> {
    let read = read_behind_a_clean(rt.alloc())?;
    assert!(rt; read.as_slice() == [0, 0, 0, 0, 7, 7, 7, 7].as_slice());
    Ok(())
}

type Waiting = Submission<u64, u64, u64, Global>;

fn say_shown<T: Debug>(said: &mut Said, alloc: Global, shown: &T) {
    match format!(in alloc; "{shown:?}") {
        Ok(text) => said.word(text.as_str()),
        Err(_) => said.miss(),
    }
    said.word(" ");
}

// What is printed of each that waits in a queue.
fn shown(alloc: Global) -> Result<String> {
    let mut said = Said::new(alloc);
    let reinsertion = Reinsertion {
        hash: 5,
        address: EntryAddress {
            block: 1,
            offset: 4096,
            len: 3,
            sequence: 9,
            filling: 2,
        },
        slice: Vec::from_slice(alloc, &[1, 2, 3])?,
    };
    said.number("", u64::from(reinsertion.len()));
    said.number(" ", reinsertion.sequence());
    let text = format!(in alloc; "{reinsertion:?}")?;
    said.flag(" ", text.as_str().starts_with("Reinsertion"));
    said.word(" ");
    let read: Waiting = Submission::Reinsertion { reinsertion };
    say_shown(&mut said, alloc, &read);
    let tombstone = Tombstone {
        hash: 5,
        sequence: 10,
    };
    let mark: Waiting = Submission::Tombstone {
        tombstone,
        stats: None,
    };
    say_shown(&mut said, alloc, &mark);
    let wait: Waiting = Submission::Wait { id: 4 };
    say_shown(&mut said, alloc, &wait);
    said.text()
}

#[test]
fn what_waits_prints_its_name(rt: HostRuntime) -> std::result::Result<(), Fail> {
    let said = shown(rt.alloc())?;
    assert!(rt;
        said.as_str() == "3 9 yes Reinsertion Tombstone Wait ",
        "{said}"
    );
    Ok(())
}
