//! Random scripts against a table of the keys: puts, deletes, waits, destroys and reopenings, with a log of deletes and without
//! one; and without reopenings over few blocks, so that most of them reclaim, with a filter and without one.
use crate::tests::asked::{Asked, answer_to};
use crate::tests::memories::Memory;
use crate::tests::over::{Over, USUAL, over_of};
use foyer_device_page::error::Result;
use foyer_testing::said::Said;
use rand_core::utils::NextWord;
use rand_pcg::Pcg32;
use std::alloc::Global;
use std::rt::Files;
use std::sync::Wait;
use std::test::Fail;

// Of each test.
const SEEDS: u64 = 1000;

// What a script is made of.
#[derive(Clone, Copy)]
struct Kind {
    over: Over,
    steps: u32,
    keys: u32,
    reopens: bool,
    // How many records a record surely outlives.
    kept: u32,
}

// Most blocks stay clean.
fn reopened(seed: u64) -> Kind {
    Kind {
        over: Over {
            blocks: 28,
            has_log: seed.is_multiple_of(2),
            ..USUAL
        },
        steps: 40,
        keys: 4,
        reopens: true,
        kept: u32::MAX,
    }
}

// Of four blocks with room for three records one is clean after a wait, and two are full: the last seven records stand, unless a
// filter has long texts written again. The other one admits none.
fn reclaimed(seed: u64) -> Kind {
    let is_filtered = seed.is_multiple_of(2);
    let words = if is_filtered {
        "blocks 4, admits 60"
    } else {
        "blocks 4, admits 1048576"
    };
    Kind {
        over: over_of(USUAL, words),
        steps: 30,
        keys: 6,
        reopens: false,
        kept: if is_filtered { 0 } else { 7 },
    }
}

// What is known of a key; text 0 is none.
#[derive(Clone, Copy)]
struct Known {
    // The text that a get answers, and how many records were written before its batch.
    shown: u32,
    before: u32,
    // The newest text whose record stands on the disk, and whether the log has a newer mark.
    stored: u32,
    is_marked: bool,
    // The newest text that was put since the last wait, and whether the key was deleted since it.
    queued: u32,
    is_deleted: bool,
}

const NOTHING: Known = Known {
    shown: 0,
    before: 0,
    stored: 0,
    is_marked: false,
    queued: 0,
    is_deleted: false,
};

#[derive(Clone, Copy)]
struct Table {
    keys: [Known; 6],
    // The records that were written, and those that are queued.
    written: u32,
    queued: u32,
}

const EMPTY: Table = Table {
    keys: [NOTHING; 6],
    written: 0,
    queued: 0,
};

fn known_of(table: &Table, key: usize) -> Known {
    match table.keys.get(key) {
        Some(known) => *known,
        None => NOTHING,
    }
}

fn with(table: Table, key: usize, known: Known) -> Table {
    let mut keys = table.keys;
    if let Some(place) = keys.get_mut(key) {
        *place = known;
    }
    Table { keys, ..table }
}

// A record that was put before a delete is written too.
fn once_written(known: Known, written: u32) -> Known {
    let is_new = known.queued != 0;
    let newest = if is_new { known.queued } else { known.shown };
    Known {
        shown: if known.is_deleted { 0 } else { newest },
        before: if is_new { written } else { known.before },
        stored: if is_new { known.queued } else { known.stored },
        is_marked: known.is_deleted || (known.is_marked && !is_new),
        queued: 0,
        is_deleted: false,
    }
}

// What was never written is gone, and without a log each delete.
fn once_opened(known: Known, has_log: bool) -> Known {
    let is_marked = known.is_marked && has_log;
    Known {
        shown: if is_marked { 0 } else { known.stored },
        is_marked,
        queued: 0,
        is_deleted: false,
        ..known
    }
}

fn after_wait(table: Table) -> Table {
    let mut keys = table.keys;
    for known in keys.iter_mut() {
        *known = once_written(*known, table.written);
    }
    Table {
        keys,
        written: table.written.saturating_add(table.queued),
        queued: 0,
    }
}

fn after_opening(table: Table, has_log: bool) -> Table {
    let mut keys = table.keys;
    for known in keys.iter_mut() {
        *known = once_opened(*known, has_log);
    }
    Table {
        keys,
        queued: 0,
        ..table
    }
}

fn after_put(table: Table, key: usize, text: u32) -> Table {
    let known = Known {
        queued: text,
        is_deleted: false,
        ..known_of(&table, key)
    };
    Table {
        queued: table.queued.saturating_add(1),
        ..with(table, key, known)
    }
}

fn after_delete(table: Table, key: usize) -> Table {
    let known = Known {
        shown: 0,
        is_deleted: true,
        ..known_of(&table, key)
    };
    with(table, key, known)
}

fn table_after(table: Table, call: &str, key: usize, number: u32) -> Table {
    match call {
        "put" => after_put(table, key, number),
        "del" => after_delete(table, key),
        "destroy" => EMPTY,
        _ => after_wait(table),
    }
}

fn call_of(drawn: u32, reopens: bool) -> &'static str {
    match drawn {
        0..=9 => "put",
        10..=12 => "del",
        13 => "destroy",
        14..=15 if reopens => "open",
        _ => "wait",
    }
}

// Below the bound.
fn draw(generator: &mut Pcg32, below: u32) -> u32 {
    let word = generator.next_word();
    if below == 0 { 0 } else { word % below }
}

// Every fourth text is long.
fn text_of(alloc: Global, number: u32) -> Result<String> {
    let mut said = Said::new(alloc);
    let is_long = number.is_multiple_of(4);
    said.number(if is_long { "a long text " } else { "" }, u64::from(number));
    said.text()
}

// A script with its generator: what is known, how many steps were made, and whether each was answered as it should be.
#[derive(Drop)]
struct Run {
    alloc: Global,
    kind: Kind,
    generator: Pcg32,
    table: Table,
    number: u32,
    is_well: bool,
}

impl Run {
    // Whether the engine shows of each key its newest text, or misses one that may be gone.
    fn shows_all<N: Asked>(&self, engine: &mut N) -> Result<bool> {
        for key in 0..self.kind.keys as usize {
            let known = known_of(&self.table, key);
            let text = text_of(self.alloc, known.shown)?;
            let answer = answer_to(self.alloc, engine, "get", key as u64, "")?;
            let since = self.table.written.saturating_sub(known.before);
            let may_miss = known.shown == 0 || since >= self.kind.kept;
            let is_text = known.shown != 0 && answer.as_str() == text.as_str();
            if !is_text && !(may_miss && answer.as_str() == "miss") {
                return Ok(false);
            }
        }
        Ok(true)
    }

    // Makes a step: whether the engine is to be opened again.
    fn makes_step<N: Asked>(&mut self, engine: &mut N) -> Result<bool> {
        self.number = self.number.saturating_add(1);
        let call = call_of(draw(&mut self.generator, 24), self.kind.reopens);
        let key = draw(&mut self.generator, self.kind.keys) as usize;
        if call == "open" {
            return Ok(true);
        }
        let text = text_of(self.alloc, self.number)?;
        self.table = table_after(self.table, call, key, self.number);
        let answer = answer_to(self.alloc, engine, call, key as u64, text.as_str())?;
        let is_taken = answer.as_str() == if call == "put" { "queued" } else { "ok" };
        self.is_well = is_taken && self.shows_all(engine)?;
        Ok(false)
    }

    // Makes steps until the engine is to be opened again: whether it is.
    fn makes_steps<N: Asked>(&mut self, engine: &mut N) -> Result<bool> {
        self.is_well = self.shows_all(engine)?;
        for _ in 0..self.kind.steps {
            if self.number >= self.kind.steps || !self.is_well {
                return Ok(false);
            }
            if self.makes_step(engine)? {
                return Ok(true);
            }
        }
        Ok(false)
    }

    // The same over an engine that is opened now.
    fn lives<R: Wait + Clone + Drop>(&mut self, rt: &R, memory: &Memory) -> Result<bool> {
        let mut engine = memory.open(rt, self.alloc, self.kind.over)?;
        self.makes_steps(&mut engine)
    }
}

// Whether an engine that is opened again now and then answers the script of this seed as the table says.
fn holds<R: Files + Wait + Clone + Drop>(
    rt: &R,
    alloc: Global,
    seed: u64,
    kind: Kind,
) -> Result<bool> {
    let memory = Memory::new(rt, alloc, kind.over)?;
    let mut run = Run {
        alloc,
        kind,
        generator: Pcg32::new(seed, 1),
        table: EMPTY,
        number: 0,
        is_well: true,
    };
    for _ in 0..=kind.steps {
        if !run.lives(rt, &memory)? {
            return Ok(run.is_well && run.number == kind.steps);
        }
        run.table = after_opening(run.table, kind.over.has_log);
    }
    Ok(false)
}

// The first seed, of those of one test, whose script is answered otherwise.
fn wrong_seed<R: Files + Wait + Clone + Drop>(
    rt: &R,
    alloc: Global,
    from: u64,
    reclaims: bool,
) -> Result<Option<u64>> {
    for at in 0..SEEDS {
        let seed = from.wrapping_add(at);
        let kind = if reclaims {
            reclaimed(seed)
        } else {
            reopened(seed)
        };
        if !holds(rt, alloc, seed, kind)? {
            return Ok(Some(seed));
        }
    }
    Ok(None)
}

#[test]
fn random_scripts_answer_as_a_table_says(rt: HostRuntime) -> std::result::Result<(), Fail> {
    let seed = wrong_seed(&rt, rt.alloc(), 0, false)?;
    assert!(rt; seed.is_none(), "{seed:?}");
    Ok(())
}

#[test]
fn more_random_scripts_answer_as_a_table_says(rt: HostRuntime) -> std::result::Result<(), Fail> {
    let seed = wrong_seed(&rt, rt.alloc(), SEEDS, false)?;
    assert!(rt; seed.is_none(), "{seed:?}");
    Ok(())
}

#[test]
fn scripts_that_reclaim_answer_as_a_table_says(rt: HostRuntime) -> std::result::Result<(), Fail> {
    let seed = wrong_seed(&rt, rt.alloc(), 0, true)?;
    assert!(rt; seed.is_none(), "{seed:?}");
    Ok(())
}

#[test]
fn more_scripts_that_reclaim_answer_as_a_table_says(
    rt: HostRuntime,
) -> std::result::Result<(), Fail> {
    let seed = wrong_seed(&rt, rt.alloc(), SEEDS, true)?;
    assert!(rt; seed.is_none(), "{seed:?}");
    Ok(())
}
