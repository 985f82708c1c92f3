//! Scripts in brief on a heap that refuses an allocation.
use crate::tests::driver::{BRIEF, Driver, Way, answer_line, new_driver, step_in};
use foyer_core_steps::settings::Settings;
use foyer_device_page::error::{Error, Result};
use foyer_testing::refusing::Refusing;
use foyer_testing::said::Said;
use std::alloc::Global;

// More allocations than a script makes.
pub const MOST_ALLOCATIONS: u64 = 2000;

// A line that isn't there.
pub const NO_LINE: usize = usize::MAX;

// A script with its settings.
#[derive(Clone, Copy)]
pub struct Script {
    pub text: &'static str,
    pub settings: Settings,
}

// Two blocks of 32 KiB, and a buffer of 64 KiB.
pub fn two_blocks() -> Settings {
    Settings {
        buffer_pool_size: 65536,
        ..Settings::new(2, 32768)
    }
}

// What a run of a script answered, a line each, and the line at which the heap refused.
#[derive(Drop)]
pub struct Run {
    pub answers: String,
    pub refused: usize,
}

// Answers all lines but the one that is left out, and gives the line at which the heap refused.
fn say_lines<'a>(
    alloc: Global,
    heap: &'a Refusing<Global>,
    said: &mut Said,
    driver: &mut Driver<&'a Refusing<Global>>,
    script: &str,
    omitted: usize,
) -> usize {
    let mut refused = NO_LINE;
    for (at, line) in script.lines().enumerate() {
        let had_refused = heap.has_refused();
        if at == omitted {
            said.word("left out");
        } else {
            answer_line(alloc, said, driver, &heap, step_in(line));
        }
        said.word("\n");
        if heap.has_refused() && !had_refused {
            refused = at;
        }
    }
    refused
}

// Runs a script without a line.
pub fn live(
    alloc: Global,
    heap: &Refusing<Global>,
    script: Script,
    way: Way,
    omitted: usize,
) -> Result<Run> {
    let mut driver = new_driver(alloc, &heap, script.settings, way)?;
    let mut said = Said::new(alloc);
    let refused = say_lines(alloc, heap, &mut said, &mut driver, script.text, omitted);
    Ok(Run {
        answers: said.text()?,
        refused,
    })
}

// Runs a script without one line, on a heap that refuses nothing. One call of the disk fails.
pub fn ample(alloc: Global, script: Script, fails_at: u64, omitted: usize) -> Result<Run> {
    let heap = Refusing::new(alloc, 0);
    let way = Way { fails_at, ..BRIEF };
    live(alloc, &heap, script, way, omitted)
}

// Makes a run on a heap that may refuse an allocation. Gives None if this is what failed the opening.
fn lived(alloc: Global, heap: &Refusing<Global>, script: Script, way: Way) -> Result<Option<Run>> {
    match live(alloc, heap, script, way, NO_LINE) {
        Ok(run) => Ok(Some(run)),
        Err(Error::Memory) if heap.has_refused() => Ok(None),
        Err(other) => Err(other),
    }
}

// Makes a run on a heap that refuses its n-th allocation, from 1. The run is None if the opening fails. Also gives whether that allocation
// was reached.
pub fn refused_at(alloc: Global, n: u64, script: Script, way: Way) -> Result<(Option<Run>, bool)> {
    let heap = Refusing::new(alloc, n);
    let run = lived(alloc, &heap, script, way)?;
    Ok((run, heap.has_refused()))
}
