//! Pickers and conditions of a caller's own types, boxed ones among them.
ghost use Rattle.std.specs.Prelude.{◌≡◌, ◌↔◌, [], Some};
ghost use Rattle.foyer_policy_filter.specs.declared.verdict.StorageFilterResult.TheVariants.{Admit};

use crate::tests::asked::say_script;
use crate::tests::memories::Memory;
use crate::tests::moves::say_runs;
use crate::tests::over::{USUAL, over_of};
use foyer_block_index::manager::BlockId;
use foyer_block_manager::block::eviction::{
    AnyPicker, BuiltInPicker, EvictionInfo, EvictionPicker, FifoPicker,
};
use foyer_core_steps::apply::Env;
use foyer_device_page::error::Result;
use foyer_device_statistics::IoState;
use foyer_policy_filter::{
    BuiltInCondition, StorageFilter, StorageFilterCondition, StorageFilterResult,
};
use foyer_testing::said::Said;
use std::alloc::Global;
use std::rt::Files;
use std::sync::Wait;

// A picker that names one block, whether it is evictable or not.
#[derive(Drop)]
struct Fixed(BlockId);

impl EvictionPicker for Fixed {
    ghost answer = { λ p _. Some p.0 };

    ghost marks = { λ _ _. [] };

    fn init(&mut self, _alloc: Global, _blocks: &[BlockId], _block_size: usize) -> Result<()> {
        Ok(())
    }

    fn pick(&self, _info: EvictionInfo<'_>, _probation: &mut Vec<BlockId>) -> Option<BlockId> {
        Some(self.0)
    }

    fn on_block_evictable(&mut self, _info: EvictionInfo<'_>, _block: BlockId) {}

    fn on_block_evict(&mut self, _info: EvictionInfo<'_>, _block: BlockId) {}
}

// A condition that admits one hash alone.
#[derive(Drop)]
struct Only(u64);

impl StorageFilterCondition for Only {
    ghost may_answer = { λ c _ hash _ a. (a ≡ Admit) ↔ (hash ≡ c.0) };

    fn filter(&self, _io: &IoState, hash: u64, _size: usize) -> StorageFilterResult {
        if hash == self.0 {
            StorageFilterResult::Admit
        } else {
            StorageFilterResult::Reject
        }
    }
}

fn boxed_picker(alloc: Global) -> Result<Env<AnyPicker, BuiltInCondition>> {
    let own = Box::new(alloc, Fixed(1))?;
    let mut pickers = Vec::new(alloc);
    pickers.push(AnyPicker::Boxed(own))?;
    pickers.push(AnyPicker::Fifo(FifoPicker::default()))?;
    Ok(Env::new(alloc, pickers, 0))
}

fn own_condition(alloc: Global) -> Result<Env<BuiltInPicker, Only>> {
    let filter = StorageFilter::new().with_condition(alloc, Only(2))?;
    Ok(Env::with_default_pickers(alloc, 0)?.with_reinsertion(filter))
}

fn own_pickers(alloc: Global) -> Result<Env<Fixed, BuiltInCondition>> {
    let mut pickers = Vec::new(alloc);
    pickers.push(Fixed(1))?;
    pickers.push(Fixed(0))?;
    Ok(Env::new(alloc, pickers, 0))
}

// Notes what an engine with these pickers and this filter answers.
fn say_engine<R: Files + Wait + Clone + Drop, E: EvictionPicker, C: StorageFilterCondition>(
    rt: &R,
    alloc: Global,
    said: &mut Said,
    env: Env<E, C>,
    words: &str,
    script: &str,
) -> Result<()> {
    let over = over_of(USUAL, words);
    let memory = Memory::new(rt, alloc, over)?;
    let mut engine = memory.open_with(rt, alloc, env, over)?;
    say_script(alloc, said, &mut engine, script)
}

// Notes what a core with own pickers answers to moves.
fn say_core<R: Files + Wait + Clone + Drop>(
    rt: &R,
    alloc: Global,
    said: &mut Said,
    words: &str,
    script: &str,
) -> Result<()> {
    let over = over_of(USUAL, words);
    let memory = Memory::new(rt, alloc, over)?;
    let mut env = own_pickers(alloc)?;
    let mut disk = memory.disk(rt, &alloc, over)?;
    say_runs(alloc, said, &mut env, over, &mut disk, script)
}

/// Notes what is answered if these pickers or this condition are asked.
pub fn say_own<R: Files + Wait + Clone + Drop>(
    rt: &R,
    alloc: Global,
    said: &mut Said,
    word: &str,
    asked: &str,
) -> Result<()> {
    let (words, script) = asked.split_once(" < ").unwrap_or(("", asked));
    match word {
        "boxed-picker" => say_engine(rt, alloc, said, boxed_picker(alloc)?, words, script),
        "own-condition" => say_engine(rt, alloc, said, own_condition(alloc)?, words, script),
        _ => say_core(rt, alloc, said, words, script),
    }
}

// Three blocks are full. The one that goes is the one that a boxed picker names. Without that picker it is the oldest. A condition of an own
// type is asked of each hash. The record of one hash is written again, and the two records beside it go. Two reclaims run at once. The second
// picker is asked if the block of the first isn't evictable any more.
pub const ROWS: &str =
    "boxed-picker blocks 3 < put 1 a, put 2 b, put 3 c, wait, put 4 d, put 5 e, put 6 f, wait, put 7 g, put 8 h, put 9 i, wait, get 1, get 2, get 3, get 4, get 5, get 6, get 7, get 8, get 9 | queued queued queued ok queued queued queued ok queued queued queued ok a b c miss miss miss g h i
memory blocks 3 < put 1 a, put 2 b, put 3 c, wait, put 4 d, put 5 e, put 6 f, wait, put 7 g, put 8 h, put 9 i, wait, get 1, get 2, get 3, get 4, get 5, get 6, get 7, get 8, get 9 | queued queued queued ok queued queued queued ok queued queued queued ok miss miss miss d e f g h i
own-condition blocks 1 < put 1 a, put 2 b, put 3 c, wait, put 4 d, wait, get 1, get 2, get 3, get 4 | queued queued queued ok queued ok miss b miss d
own-pickers blocks 4, reclaimers 2, clean 3, stops 7 < put 1 a, put 2 a, put 3 a, receive, receive, receive, begin, block, wrote, wrote, end, put 4 a, put 5 a, put 6 a, receive, receive, receive, begin, block, block, wrote, wrote, end, put 7 a, put 8 a, put 9 a, receive, receive, receive, begin, block, block, wrote, wrote, end / reclaim, reclaim, reclaim, read 0, forget 0, read 1, forget 1, reclaimed 1, idle, reclaimed 0, idle | -, -, -, -, -, -, -, write 0, next, committed 3, -, -, -, -, -, -, -, -, write 0, write 1, next, committed 3, -, -, -, -, -, -, -, -, write 1, write 2, next, committed 3, -, picked 1, picked 0, not now, listed, clean 0, listed, clean 1, done, false, done, true,
";
