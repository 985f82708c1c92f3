//! A picker and a condition of these tests, and lists of pickers.
ghost use Rattle.std.specs.Prelude.{◌≡◌, ◌↔◌, ◌%◌, [], Some};
ghost use Rattle.foyer_policy_filter.specs.declared.verdict.StorageFilterResult.TheVariants.{Admit};

use crate::tests::over::Picks;
use foyer_block_index::manager::BlockId;
use foyer_block_manager::block::eviction::{
    AnyPicker, EvictionInfo, EvictionPicker, FifoPicker, InvalidRatioPicker,
};
use foyer_device_page::error::Result;
use foyer_device_statistics::IoState;
use foyer_policy_filter::{
    AnyCondition, StorageFilter, StorageFilterCondition, StorageFilterResult,
};
use std::alloc::Global;

/// A picker that names one block, whether it is evictable or not.
#[derive(Drop)]
pub(crate) struct Named(BlockId);

impl EvictionPicker for Named {
    ghost answer = { λ p _. Some p.0 };

    ghost marks = { λ _ _. [] };

    fn init(&mut self, _alloc: Global, _blocks: &[BlockId], _block_size: usize) -> Result<()> {
        Ok(())
    }

    fn pick(&self, _info: EvictionInfo<'_>, _probation: &mut Vec<BlockId>) -> Option<BlockId> {
        Some(self.0)
    }

    fn on_block_evictable(&mut self, _info: EvictionInfo<'_>, _block: BlockId) {}

    fn on_block_evict(&mut self, _info: EvictionInfo<'_>, _block: BlockId) {}
}

/// A condition that admits odd hashes alone.
#[derive(Drop)]
pub(crate) struct Odd;

impl StorageFilterCondition for Odd {
    ghost may_answer = { λ _ _ hash _ a. (a ≡ Admit) ↔ (hash % 2 ≡ 1) };

    fn filter(&self, _io: &IoState, hash: u64, _size: usize) -> StorageFilterResult {
        if hash % 2 == 1 {
            StorageFilterResult::Admit
        } else {
            StorageFilterResult::Reject
        }
    }
}

/// A filter of that condition.
pub(crate) fn odd_alone(alloc: Global) -> Result<StorageFilter<Odd, Global>> {
    StorageFilter::new().with_condition(alloc, Odd)
}

/// A filter of that condition in a box.
pub(crate) fn odd_in_a_box(alloc: Global) -> Result<StorageFilter<AnyCondition, Global>> {
    let odd = Box::new(alloc, Odd)?;
    StorageFilter::new().with_condition(alloc, AnyCondition::Boxed(odd))
}

/// A picker that names block 1.
pub(crate) fn own(alloc: Global) -> Result<Vec<Named>> {
    let mut pickers = Vec::new(alloc);
    pickers.push(Named(1))?;
    Ok(pickers)
}

fn boxed(alloc: Global) -> Result<Vec<AnyPicker>> {
    let named = Box::new(alloc, Named(1))?;
    let mut pickers = Vec::new(alloc);
    pickers.push(AnyPicker::Boxed(named))?;
    pickers.push(AnyPicker::Fifo(FifoPicker::default()))?;
    Ok(pickers)
}

fn alone(alloc: Global, picker: AnyPicker) -> Result<Vec<AnyPicker>> {
    let mut pickers = Vec::new(alloc);
    pickers.push(picker)?;
    Ok(pickers)
}

/// Gives the pickers of a word, or none if the word stands for none of these.
pub(crate) fn any(alloc: Global, picks: Picks) -> Result<Vec<AnyPicker>> {
    match picks {
        Picks::Fifo => alone(alloc, AnyPicker::Fifo(FifoPicker::default())),
        Picks::Ratio => alone(
            alloc,
            AnyPicker::InvalidRatio(InvalidRatioPicker::new(8, 10)),
        ),
        Picks::Boxed => boxed(alloc),
        _ => Ok(Vec::new(alloc)),
    }
}
