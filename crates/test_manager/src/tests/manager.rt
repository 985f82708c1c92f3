//! Blocks on their way through the sets: scripts of calls, with their answers.
use foyer_block_manager::block::eviction::{AnyPicker, EvictionPicker, FifoPicker};
use foyer_block_manager::block::manager::{
    BlockId, BlockManager, BlockSet, BlockState, BlockStatistics, ManagerConfig, ReclaimingBlock,
};
use foyer_device_page::error::Result;
use foyer_testing::rows::first_difference;
use foyer_testing::said::Said;
use rand_pcg::Pcg32;
use std::alloc::Global;
use std::test::Fail;

const CONFIG: ManagerConfig = ManagerConfig {
    blocks: 4,
    block_size: 16384,
    flushers: 2,
    reclaimers: 1,
    clean_threshold: 1,
};

// A manager of four blocks, with what its reclaims need.
#[derive(Drop)]
struct Driver {
    manager: BlockManager<Global>,
    pickers: Vec<AnyPicker>,
    own: Vec<BlockId>,
    generator: Pcg32,
}

// With a picker by age, or with none.
fn new_driver(alloc: Global, words: &str) -> Result<Driver> {
    let mut pickers = Vec::new(alloc);
    if words == "fifo" {
        let mut picker = FifoPicker::default();
        picker.init(alloc, &[0, 1, 2, 3], 16384)?;
        pickers.push(AnyPicker::Fifo(picker))?;
    }
    let manager = BlockManager::open(&alloc, CONFIG)?;
    Ok(Driver {
        manager,
        pickers,
        own: Vec::new(alloc),
        generator: Pcg32::new(42, 54),
    })
}

fn id_of(word: &str) -> BlockId {
    word.parse::<u32>().unwrap_or(0)
}

fn init(alloc: Global, driver: &mut Driver, words: &str) -> Result<()> {
    let mut clean = Vec::new(alloc);
    for word in words.split_whitespace() {
        clean.push(id_of(word))?;
    }
    driver.manager.init(&alloc, &mut driver.pickers, &clean)
}

fn say_init(said: &mut Said, alloc: Global, driver: &mut Driver, words: &str) {
    match init(alloc, driver, words) {
        Ok(()) => said.word("ok"),
        Err(error) => said.word(error.kind().name()),
    }
}

fn say_set(said: &mut Said, block_set: BlockSet) {
    match block_set {
        BlockSet::Clean => said.word("clean"),
        BlockSet::Writing(flusher) => said.number("writing", u64::from(flusher)),
        BlockSet::Evictable => said.word("evictable"),
        BlockSet::Reclaiming => said.word("reclaiming"),
    }
}

// What is known of a block: the set that it is in, its filling, or a number of its statistics.
fn say_state(said: &mut Said, word: &str, state: BlockState) {
    match word {
        "set" => say_set(said, state.block_set),
        "filling" => said.number("", state.filling),
        "invalid" => said.number("", state.statistics.invalid as u64),
        _ => said.number("", state.statistics.access as u64),
    }
}

fn say_known(said: &mut Said, driver: &Driver, word: &str, id: BlockId) {
    match driver.manager.known(id) {
        Some(state) => say_state(said, word, state),
        None => said.word("unknown"),
    }
}

// A block that is handed out has its size, and the statistics of a clean one.
fn say_handed(said: &mut Said, driver: &mut Driver, flusher: u32) {
    if (flusher as usize) >= driver.manager.flushers() {
        return said.word("no flusher");
    }
    match driver.manager.get_clean_block(flusher) {
        Some(block) => {
            said.number("", u64::from(block.id()));
            if block.size() != 16384 || *block.statistics() != BlockStatistics::default() {
                said.word(" that isn't clean");
            }
        }
        None => said.word("none"),
    }
}

fn say_written(said: &mut Said, driver: &mut Driver, id: BlockId) {
    if driver.manager.is_written(id) {
        driver.manager.on_writing_finish(&mut driver.pickers, id);
        said.word("ok");
    } else {
        said.word("not written");
    }
}

// The block, and behind `<` what each picker answered.
fn say_reclaim(said: &mut Said, reclaim: &ReclaimingBlock<Global>) {
    said.number("", u64::from(reclaim.block));
    for answer in reclaim.answers.iter() {
        match answer {
            Some(id) => said.number("<", u64::from(*id)),
            None => said.word("<none"),
        }
    }
}

fn say_begun(said: &mut Said, alloc: Global, driver: &mut Driver) {
    let Driver {
        manager,
        pickers,
        own,
        generator,
    } = driver;
    match manager.reclaim_begin(&alloc, pickers, own, generator) {
        Ok(Some(reclaim)) => say_reclaim(said, &reclaim),
        Ok(None) => said.word("none"),
        Err(_) => said.miss(),
    }
}

// The flusher that gets the block.
fn say_reclaimed(said: &mut Said, driver: &mut Driver, id: BlockId) {
    if !driver.manager.is_reclaimed(id) {
        return said.word("not reclaimed");
    }
    match driver.manager.on_reclaim_finish(id) {
        Some(flusher) => said.number("", u64::from(flusher)),
        None => said.word("none"),
    }
}

// A call without an answer.
fn call(driver: &mut Driver, word: &str, id: BlockId, bytes: usize) {
    match word {
        "invalidate" => driver.manager.invalidate(id, bytes),
        "access" => driver.manager.note_access(id),
        "cleaned" => driver.manager.on_clean_finish(id),
        "clear" => driver.manager.clear(&mut driver.pickers),
        _ => driver.manager.end_cleaning(),
    }
}

fn say_call(said: &mut Said, alloc: Global, driver: &mut Driver, line: &str) {
    let (word, rest) = line.split_once(' ').unwrap_or((line, ""));
    let (first, second) = rest.split_once(' ').unwrap_or((rest, ""));
    let id = id_of(first);
    match word {
        "init" => say_init(said, alloc, driver, rest),
        "set" | "filling" | "invalid" | "accesses" => say_known(said, driver, word, id),
        "hand" => say_handed(said, driver, id),
        "written" => say_written(said, driver, id),
        "reclaim" => say_begun(said, alloc, driver),
        "reclaimed" => say_reclaimed(said, driver, id),
        "idle" => said.flag("", driver.manager.wait_reclaim()),
        _ => {
            call(driver, word, id, id_of(second) as usize);
            said.word("-")
        }
    }
}

fn rows_of(alloc: Global, rows: &str) -> Result<String> {
    let mut said = Said::new(alloc);
    for row in rows.lines() {
        let (asked, _) = row.split_once(" | ").unwrap_or((row, ""));
        said.word(asked);
        if let Some((words, script)) = asked.split_once(" < ") {
            said.word(" |");
            let mut driver = new_driver(alloc, words)?;
            for line in script.split(", ") {
                said.word(" ");
                say_call(&mut said, alloc, &mut driver, line);
            }
        }
        said.word("\n");
    }
    said.text()
}

// Names, and below each a picker, what is asked, and what is answered: of `hand` the block that a flusher gets, of `reclaim` the
// block and each picker's answer, of `reclaimed` the flusher that gets the block.
const ROWS: &str = "clean ids are each once and there
fifo < init 0 0, init 4, set 0, set 1, set 2, set 3, init 2 1, hand 0, set 2, filling 2, hand 1 | Config Config evictable evictable evictable evictable ok 2 writing0 1 1
a reclaimed block goes to the flusher that began to wait last
fifo < init 2, reclaim, hand 0, written 2, hand 0, hand 1, invalidate 0 100, access 0, invalid 0, accesses 0, reclaim, set 0, idle, reclaim, reclaimed 0, idle, invalid 0, hand 1, hand 0 | ok none 2 ok none none - - 100 1 0<0 reclaiming no none 1 yes 0 0 none
without a pick the generator chooses, and the block is clean again
own < init, reclaim, reclaimed 2, hand 0 | ok 2 none 2
a destroy takes all blocks, and hands none out until it has cleaned
fifo < init 3 2, hand 0, invalidate 3 7, clear, set 3, filling 3, filling 2, hand 1, reclaim, cleaned 3, invalid 3, end, hand 1 | ok 3 - - evictable 2 1 none none - 0 - 2
";

#[test]
fn blocks_go_through_the_sets(rt: HostRuntime) -> std::result::Result<(), Fail> {
    let answers = rows_of(rt.alloc(), ROWS)?;
    assert_eq!(rt; first_difference(answers.as_str(), ROWS), None);
    Ok(())
}
