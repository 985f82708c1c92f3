//! An engine on one thread whose pickers, condition, hasher, keys and values are careless.
use crate::tests::hostile::values::{Careless, Hasher, Number, Throttling, number_in};
use foyer_block_tombstone::block::tombstone::NoLog;
use foyer_core_steps::apply::Env;
use foyer_core_steps::settings::Settings;
use foyer_device_page::error::{Error, Result};
use foyer_format_record::serde::{Age, NoProperties};
use foyer_io_blocks::memory::MemoryDisk;
use foyer_policy_filter::StorageFilter;
use foyer_storage_local::engine::LocalEngine;
use foyer_storage_local::load::{Enqueued, Load};
use foyer_testing::rows::first_difference;
use foyer_testing::said::Said;
use std::alloc::Global;
use std::test::Fail;

type Opened = LocalEngine<
    Number,
    Number,
    NoProperties,
    Hasher,
    Global,
    MemoryDisk<Global>,
    NoLog,
    Careless,
    Throttling,
>;

const BLOCK: usize = 16384;

// What an engine stands over.
#[derive(Clone, Copy)]
struct Over {
    blocks: u32,
    // The blocks that its two pickers name; without them it has none.
    picks: Option<(u32, u32)>,
    // The hash whose records are written again.
    admits: u64,
    is_one_hash: bool,
}

fn picks_of(word: &str) -> Option<(u32, u32)> {
    let (one, two) = word.split_once('/')?;
    Some((
        one.parse::<u32>().unwrap_or(0),
        two.parse::<u32>().unwrap_or(0),
    ))
}

// Four words: the blocks, the two picks, the hash that is admitted, and whether all keys have one hash.
fn over_of(words: &str) -> Over {
    let (blocks, rest) = words.split_once(' ').unwrap_or((words, ""));
    let (picks, rest) = rest.split_once(' ').unwrap_or((rest, ""));
    let (admits, rest) = rest.split_once(' ').unwrap_or((rest, ""));
    Over {
        blocks: blocks.parse::<u32>().unwrap_or(0) % 16,
        picks: picks_of(picks),
        admits: admits.parse::<u64>().unwrap_or(u64::MAX),
        is_one_hash: rest == "one-hash",
    }
}

fn pickers_of(alloc: Global, over: Over) -> Result<Vec<Careless>> {
    let mut pickers = Vec::new(alloc);
    if let Some((one, two)) = over.picks {
        pickers.push(Careless(one))?;
        pickers.push(Careless(two))?;
    }
    Ok(pickers)
}

fn opened(alloc: Global, over: Over) -> Result<Opened> {
    let filter = StorageFilter::new().with_condition(alloc, Throttling(over.admits))?;
    let env = Env::new(alloc, pickers_of(alloc, over)?, 0).with_reinsertion(filter);
    let settings = Settings {
        buffer_pool_size: 65536,
        ..Settings::new(over.blocks, BLOCK)
    };
    let hasher = Hasher {
        is_one: over.is_one_hash,
    };
    LocalEngine::open(alloc, hasher, env, settings)
}

fn say_fault(said: &mut Said, error: Error) {
    said.word(" ");
    said.word(error.kind().name());
}

fn say_enqueued(said: &mut Said, enqueued: Result<Enqueued>) {
    match enqueued {
        Ok(Enqueued::Queued) => said.word(" queued"),
        Ok(_) => said.word(" not queued"),
        Err(error) => say_fault(said, error),
    }
}

fn say_done(said: &mut Said, done: Result<()>) {
    match done {
        Ok(()) => said.word(" ok"),
        Err(error) => say_fault(said, error),
    }
}

fn say_entry(said: &mut Said, value: Number, age: Age) {
    said.number(" ", value.0.unwrap_or(0));
    said.word(if age == Age::Old { "/old" } else { "" });
}

fn say_loaded(said: &mut Said, loaded: Result<Load<Number, Number>>) {
    match loaded {
        Ok(
            Load::Entry {
                key: _,
                value,
                populated,
            },
        ) => say_entry(said, value, populated.age),
        Ok(Load::Throttled) => said.word(" throttled"),
        Ok(Load::Miss) => said.word(" miss"),
        Err(error) => say_fault(said, error),
    }
}

fn say_question(said: &mut Said, asked: Result<bool>) {
    match asked {
        Ok(is) => said.flag(" ", is),
        Err(error) => say_fault(said, error),
    }
}

// Notes what the engine answers to a word, a key and a value.
fn say_answer(said: &mut Said, engine: &mut Opened, line: &str) {
    let (word, rest) = line.split_once(' ').unwrap_or((line, ""));
    let (key, value) = rest.split_once(' ').unwrap_or((rest, ""));
    let key = number_in(key);
    match word {
        "put" => say_enqueued(said, engine.put(key, number_in(value), NoProperties)),
        "get" => say_loaded(said, engine.get(&key)),
        "has" => say_question(said, engine.may_contains(&key)),
        "del" => say_done(said, engine.delete(&key)),
        "destroy" => say_done(said, engine.destroy()),
        "close" => say_done(said, engine.close()),
        _ => say_done(said, engine.wait()),
    }
}

fn say_script(alloc: Global, said: &mut Said, words: &str, script: &str) -> Result<()> {
    let mut engine = opened(alloc, over_of(words))?;
    for line in script.split(", ") {
        say_answer(said, &mut engine, line);
    }
    Ok(())
}

// Notes a row with its answers, as they are; a name as it stands.
fn say_row(alloc: Global, said: &mut Said, row: &str) -> Result<()> {
    let (asked, _) = row.split_once(" | ").unwrap_or((row, ""));
    said.word(asked);
    if let Some((words, script)) = asked.split_once(" < ") {
        said.word(" |");
        say_script(alloc, said, words, script)?;
    }
    said.word("\n");
    Ok(())
}

fn rows_of(alloc: Global, rows: &str) -> Result<String> {
    let mut said = Said::new(alloc);
    for row in rows.lines() {
        say_row(alloc, &mut said, row)?;
    }
    said.text()
}

// A name, and below it what an engine stands over, what it is asked, and what it answers. A block has room for three records.
// An entry of a block on probation is old.
const ROWS: &str =
    "a picker that names a block that isn't there, and one that names the block being written, pick and mark none: the generator chooses
2 4294967295/1 none no < put 1 10, put 2 20, put 3 30, wait, put 4 40, wait, get 1, get 2, get 3, get 4, put 5 50, put 6 60, wait, get 4, get 5, get 6, put 7 70, wait, get 4, get 7 | queued queued queued ok queued ok miss miss miss 40 queued queued ok 40 50 60 queued ok miss 70
both name a block: it is picked where it is evictable, and marked there alone
3 1/1 none no < put 1 10, put 2 20, put 3 30, wait, put 4 40, put 5 50, put 6 60, wait, put 7 70, wait, get 1, get 4, get 7 | queued queued queued ok queued queued queued ok queued ok 10 miss 70
without a picker the generator chooses
2 none none no < put 1 10, put 2 20, put 3 30, wait, put 4 40, wait, get 1, get 4 | queued queued queued ok queued ok miss 40
a condition that throttles has nothing written again, and waits end; one hash is admitted by it
1 none none no < put 1 10, wait, put 2 20, wait, put 3 30, wait, put 4 40, wait, get 1, get 2, get 4 | queued ok queued ok queued ok queued ok miss miss 40
1 none 1 no < put 1 10, wait, put 2 20, wait, put 3 30, wait, put 4 40, wait, get 1, get 2, get 4 | queued ok queued ok queued ok queued ok 10 miss 40
of keys that have one hash the newest is found, and each delete is of all
2 none none one-hash < put 1 10, put 2 20, wait, get 1, get 2, has 1, put 1 11, wait, get 1, get 2, del 2, get 1, has 1, wait, put 3 30, put 4 40, destroy, get 3, get 4 | queued queued ok miss 20 yes queued ok 11 miss ok miss no ok queued queued ok miss miss
a value and a key that can't be encoded delete their hashes as they are received, and what stands beside them is written
2 none none no < put 1 10, put 2 20, wait, put 1 x, get 1, put 3 30, put x 50, wait, get 1, get 2, get 3, get x, put 1 12, wait, get 1 | queued queued ok queued 10 queued queued ok miss 20 30 miss queued ok 12
nothing but what can't be encoded is queued
1 none none no < put 1 x, put x 1, put x x, wait, get 1, get x, close | queued queued queued ok miss miss ok
";

#[test]
fn an_engine_survives_careless_pickers_conditions_and_codes(
    rt: HostRuntime,
) -> std::result::Result<(), Fail> {
    let answers = rows_of(rt.alloc(), ROWS)?;
    assert_eq!(rt; first_difference(answers.as_str(), ROWS), None);
    Ok(())
}
