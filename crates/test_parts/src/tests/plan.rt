//! What an engine's sizes come to on a device, and which are refused first.
use foyer_core_settings::settings::Settings;
use foyer_device_page::error::{Error, Result};
use foyer_storage_plan::sizes::EngineSizes;
use foyer_testing::rows::first_difference;
use foyer_testing::said::Said;
use std::alloc::Global;
use std::test::Fail;

// Sizes, and the bytes of the device and of its log that they are planned for.
#[derive(Clone, Copy)]
struct Planned {
    sizes: EngineSizes,
    free: usize,
    log: usize,
}

fn workers(number: usize) -> u32 {
    u32::try_from(number).unwrap_or(0)
}

fn set(planned: &mut Planned, word: &str, number: usize) {
    match word {
        "block" => planned.sizes.block_size = number,
        "index" => planned.sizes.blob_index_size = number,
        "shards" => planned.sizes.indexer_shards = Some(number),
        "recover" => planned.sizes.recover_concurrency = number,
        "loads" => planned.sizes.load_engines = number,
        "flushers" => planned.sizes.flushers = workers(number),
        "reclaimers" => planned.sizes.reclaimers = workers(number),
        "clean" => planned.sizes.clean_block_threshold = number,
        "pool" => planned.sizes.buffer_pool_size = number,
        "log" => planned.log = number,
        _ => planned.free = number,
    }
}

// The defaults with these changes.
fn planned_of(changes: &str) -> Planned {
    let mut planned = Planned {
        sizes: EngineSizes::new(),
        free: 0,
        log: 0,
    };
    for change in changes.split(' ') {
        if let Some((word, number)) = change.split_once('=') {
            set(&mut planned, word, number.parse::<usize>().unwrap_or(0));
        }
    }
    planned
}

fn say_settings(said: &mut Said, settings: Settings) {
    said.number("", u64::from(settings.blocks));
    said.number(" blocks of ", settings.block_size as u64);
    said.number(", index ", settings.blob_index_size as u64);
    said.number(", shards ", settings.indexer_shards as u64);
    said.number(", share ", settings.buffer_room() as u64);
}

fn say_answer(said: &mut Said, answer: Result<Settings>) {
    match answer {
        Ok(settings) => say_settings(said, settings),
        Err(Error::Config) => said.word("config"),
        Err(Error::NoSpace) => said.word("no space"),
        Err(_) => said.word("another error"),
    }
}

// Each line again, with what is answered: a name, the changes of the defaults, and the answer.
fn answers(alloc: Global, rows: &str) -> Result<String> {
    let mut said = Said::new(alloc);
    for row in rows.lines() {
        let mut parts = row.split(": ");
        let name = parts.next().unwrap_or("");
        let changes = parts.next().unwrap_or("");
        said.word(name);
        said.word(": ");
        said.word(changes);
        said.word(": ");
        let planned = planned_of(changes);
        say_answer(&mut said, planned.sizes.plan(planned.free, planned.log));
        said.word("\n");
    }
    said.text()
}

const ROWS: &str =
    "the defaults: free=1073741824: 64 blocks of 16777216, index 4096, shards 512, share 16777216
a given number of shards: free=1073741824 shards=3: 64 blocks of 16777216, index 4096, shards 3, share 16777216
sizes are rounded up: block=8193 index=4095 free=65536: 5 blocks of 12288, index 4096, shards 64, share 16777216
a part of a block is left: block=8192 free=73727: 8 blocks of 8192, index 4096, shards 64, share 16777216
a log stands before the blocks: block=8192 log=8192 free=65536: 7 blocks of 8192, index 4096, shards 64, share 16777216
a log of a part of a block: block=8192 log=4096 free=65536: 7 blocks of 8192, index 4096, shards 64, share 16777216
a log that fills the device but for a block: block=8192 log=57344 free=65536: 1 blocks of 8192, index 4096, shards 64, share 16777216
shards by the planned blocks: block=8192 log=1073741824 free=1610612736: 65536 blocks of 8192, index 4096, shards 256, share 16777216
a share of a pool: block=16384 flushers=3 pool=134217728 free=65536: 4 blocks of 16384, index 4096, shards 64, share 44736512
a share of one page: block=16384 flushers=4 pool=16384 free=65536: 4 blocks of 16384, index 4096, shards 64, share 4096
a share of less than a page: block=16384 flushers=5 pool=16384 free=131072: config
no block: block=0 free=65536: config
no index: block=8192 index=0 free=65536: config
the greatest block: block=4294967296 free=4294967296: 1 blocks of 4294967296, index 4096, shards 2048, share 16777216
a size that is rounded up to the greatest block: block=4294963201 free=4294967296: 1 blocks of 4294967296, index 4096, shards 2048, share 16777216
a greater block: block=4294967297 free=8589942784: config
a block that passes the end when it is rounded up: block=18446744073709551615 free=65536: config
an index that passes the end when it is rounded up: block=8192 index=18446744073709551615 free=65536: config
an index as great as a block in whole pages: block=8192 index=4097 free=65536: config
no flusher: block=8192 flushers=0 free=65536: config
no shard: block=8192 shards=0 free=65536: config
no reclaimer: block=8192 reclaimers=0 free=65536: config
no worker at an opening: block=8192 recover=0 free=65536: config
no I/O engine for loads: block=8192 loads=0 free=65536: config
the most workers, with a seat each, and reclaimers with two: block=8192 flushers=4294967282 pool=17592186036224 free=35184372088831: 4294967295 blocks of 8192, index 4096, shards 16777216, share 4096
a reclaimer in place of two flushers: block=8192 flushers=4294967280 reclaimers=2 pool=17592186036224 free=35184372088831: 4294967295 blocks of 8192, index 4096, shards 16777216, share 4096
one worker too many: block=8192 flushers=4294967283 pool=17592186036224 free=35184372088831: config
one I/O engine too many: block=8192 flushers=4294967282 loads=2 pool=17592186036224 free=35184372088831: config
more I/O engines than can be counted: block=8192 loads=18446744073709551615 free=65536: config
a worker of the opening for each block at most: block=8192 flushers=1 recover=18446744073709551615 free=65536: 8 blocks of 8192, index 4096, shards 64, share 16777216
reclaims that leave a block: block=8192 clean=7 free=65536: 8 blocks of 8192, index 4096, shards 64, share 16777216
reclaims that leave none: block=8192 clean=8 free=65536: config
a threshold of 1 stands for one block: block=8192 clean=1 free=8192: 1 blocks of 8192, index 4096, shards 64, share 16777216
a block for each flusher: block=8192 flushers=8 free=65536: 8 blocks of 8192, index 4096, shards 64, share 2097152
a block too few: block=8192 flushers=9 free=65536: config
a log that leaves a block too few: block=8192 flushers=8 log=4096 free=65536: config
a log that fills the device: block=8192 log=65536 free=65536: config
a log that finds no room: block=8192 log=65537 free=65536: no space
the most blocks: block=8192 free=35184372088831: 4294967295 blocks of 8192, index 4096, shards 16777216, share 16777216
a block too many: block=8192 free=35184372088832: config
a log that makes the blocks few enough: block=8192 log=1 free=35184372088832: 4294967295 blocks of 8192, index 4096, shards 16777216, share 16777216
sizes are refused before the log: block=8192 recover=0 log=65537 free=65536: config
the log is refused before too few blocks: block=8192 flushers=9 log=65537 free=65536: no space
the log is refused where nothing is free: log=1 free=0: no space
";

#[test]
fn sizes_are_planned_or_refused_in_order(rt: HostRuntime) -> std::result::Result<(), Fail> {
    let answers = answers(rt.alloc(), ROWS)?;
    assert_eq!(rt; first_difference(answers.as_str(), ROWS), None);
    Ok(())
}
