//! Which blocks pickers pick and mark: scripts of calls, with their answers.
use foyer_block_manager::block::eviction::{
    AnyPicker, EvictionInfo, EvictionPicker, FifoPicker, InvalidRatioPicker,
};
use foyer_block_manager::block::manager::{BlockId, BlockSet, BlockState, BlockStatistics};
use foyer_device_page::error::Result;
use foyer_testing::rows::first_difference;
use foyer_testing::said::Said;
use std::alloc::Global;
use std::test::Fail;

const IDS: [BlockId; 10] = [0, 1, 2, 3, 4, 5, 6, 7, 8, 9];

fn evictable(invalid: usize) -> BlockState {
    BlockState {
        block_set: BlockSet::Evictable,
        filling: 1,
        statistics: BlockStatistics {
            invalid,
            access: 0,
            probation: false,
        },
    }
}

// Ten evictable blocks, each with as many invalid bytes as its id.
fn blocks() -> [BlockState; 10] {
    [
        evictable(0),
        evictable(1),
        evictable(2),
        evictable(3),
        evictable(4),
        evictable(5),
        evictable(6),
        evictable(7),
        evictable(8),
        evictable(9),
    ]
}

// The block that is picked of so many, with so many clean ones, and behind each `?` a block that is marked.
fn say_pick<P: EvictionPicker>(said: &mut Said, alloc: Global, picker: &P, info: EvictionInfo<'_>) {
    match Vec::with_capacity(alloc, info.blocks.len()) {
        Ok(mut probation) => {
            match picker.pick(info, &mut probation) {
                Some(id) => said.number(" ", u64::from(id)),
                None => said.word(" none"),
            }
            for id in probation.iter() {
                said.number("?", u64::from(*id));
            }
        }
        Err(_) => said.miss(),
    }
}

// Readies the picker for the first so many blocks of a size.
fn init<P: EvictionPicker>(
    said: &mut Said,
    alloc: Global,
    picker: &mut P,
    many: usize,
    block_size: usize,
) {
    let ids = IDS.get(..many).unwrap_or(&IDS);
    if picker.init(alloc, ids, block_size).is_err() {
        said.miss();
    }
}

fn say_call<P: EvictionPicker>(
    said: &mut Said,
    alloc: Global,
    picker: &mut P,
    blocks: &[BlockState],
    call: &str,
) {
    let (word, rest) = call.split_once(' ').unwrap_or((call, ""));
    let (first, second) = rest.split_once(' ').unwrap_or((rest, ""));
    let number = first.parse::<u32>().unwrap_or(0);
    let other = second.parse::<usize>().unwrap_or(0);
    let info = EvictionInfo {
        blocks,
        evictable: &IDS,
        clean: 0,
    };
    match word {
        "init" => init(said, alloc, picker, number as usize, other),
        "evictable" => picker.on_block_evictable(info, number),
        "evict" => picker.on_block_evict(info, number),
        _ => {
            let info = EvictionInfo {
                blocks,
                evictable: IDS.get(..number as usize).unwrap_or(&IDS),
                clean: other,
            };
            say_pick(said, alloc, picker, info)
        }
    }
}

fn say_calls<P: EvictionPicker>(said: &mut Said, alloc: Global, mut picker: P, script: &str) {
    let blocks = blocks();
    for call in script.split(", ") {
        if call == "all" {
            for id in IDS.iter() {
                let info = EvictionInfo {
                    blocks: &blocks,
                    evictable: &IDS,
                    clean: 0,
                };
                picker.on_block_evictable(info, *id);
            }
        } else {
            say_call(said, alloc, &mut picker, &blocks, call);
        }
    }
}

fn any_of(alloc: Global, kind: &str) -> Result<AnyPicker> {
    match kind {
        "any fifo" => Ok(AnyPicker::Fifo(FifoPicker::default())),
        "any ratio" => Ok(AnyPicker::InvalidRatio(InvalidRatioPicker::new(1, 2))),
        _ => Ok(AnyPicker::Boxed(Box::new(alloc, FifoPicker::new(1, 10))?)),
    }
}

fn say_row(said: &mut Said, alloc: Global, kind: &str, script: &str) -> Result<()> {
    match kind {
        "fifo" => say_calls(said, alloc, FifoPicker::default(), script),
        "whole fifo" => say_calls(said, alloc, FifoPicker::new(1, 1), script),
        "ratio" => say_calls(said, alloc, InvalidRatioPicker::new(1, 2), script),
        _ => say_calls(said, alloc, any_of(alloc, kind)?, script),
    }
    Ok(())
}

fn rows_of(alloc: Global, rows: &str) -> Result<String> {
    let mut said = Said::new(alloc);
    for row in rows.lines() {
        let (asked, _) = row.split_once(" | ").unwrap_or((row, ""));
        said.word(asked);
        if let Some((kind, script)) = asked.split_once(" < ") {
            said.word(" |");
            say_row(&mut said, alloc, kind, script)?;
        }
        said.word("\n");
    }
    said.text()
}

// Names, and below each a picker, what it learns, and its picks: `pick 9 1` of the first nine blocks with one clean one, and
// behind each `?` a block that it marks. The invalid bytes of each block are its number.
const ROWS: &str = "fifo picks the oldest and marks a tenth
fifo < init 10 16384, all, pick 10 0, evict 0, pick 10 0, evict 1, pick 10 1 | 0?0 1?1 2
invalid ratio picks the worst from one half on
ratio < init 10 10, pick 10 0, pick 10 0, pick 9 0, pick 8 0, pick 7 0, pick 6 0, pick 5 0, pick 5 0 | 9 9 8 7 6 5 none none
any picker is the one it holds
any fifo < init 10 16384, all, pick 10 0, evict 0, pick 10 0, evict 1, pick 10 1 | 0?0 1?1 2
any ratio < init 10 10, pick 10 0, pick 10 0, pick 9 0, pick 8 0, pick 7 0, pick 6 0, pick 5 0, pick 5 0 | 9 9 8 7 6 5 none none
boxed fifo < init 10 16384, all, pick 10 0, evict 0, pick 10 0, evict 1, pick 10 1 | 0?0 1?1 2
fifo takes each block once, and none beyond its room
whole fifo < evictable 7, pick 10 0, init 2 16384, evictable 3, evictable 3, evictable 1, evictable 5, pick 10 0, evict 8, evict 3, pick 10 0 | none 3?3?1 1?1
";

#[test]
fn pickers_pick_evictable_blocks_in_their_order(rt: HostRuntime) -> std::result::Result<(), Fail> {
    let answers = rows_of(rt.alloc(), ROWS)?;
    assert_eq!(rt; first_difference(answers.as_str(), ROWS), None);
    Ok(())
}
