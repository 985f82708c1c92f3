//! The picker by invalid bytes.
ghost use Rattle.std.specs.Prelude.{◌≡◌, ◌*◌, ◌<◌, ◌≤◌, ◌^◌, ◌==◌, nat_lt, ◌||◌, if◌then◌else◌, ℕ, Option, Some, None, [], IfSome, Ok, IsOkUnless};
ghost use Rattle.foyer_device_page.specs.declared.error.Error.TheVariants.{Memory};
ghost use Rattle.foyer_block_manager.specs.Pickers.{invalid_in, worse, worst_of, is_reached, ratio_answer};

use crate::block::eviction::{EvictionInfo, EvictionPicker};
use crate::block::states::BlockState;
use foyer_block_index::manager::BlockId;
use foyer_device_page::error::Result;
use std::alloc::Global;

/// Picks the block with the most invalid bytes, if they reach a ratio of its size.
#[derive(Debug)]
pub struct InvalidRatioPicker {
    num: u32,
    den: u32,
    block_size: usize,
}

// Written out, so that it is proved once.
impl Drop for InvalidRatioPicker {
    fn drop(self) {
        let InvalidRatioPicker {
            num: _,
            den: _,
            block_size: _,
        } = self;
    }
}

// The invalid bytes of a block.
fn invalid_of(blocks: &[BlockState], block: BlockId) -> usize
    ensures { result ≡ invalid_in blocks.now block }
{
    match blocks.get(block as usize) {
        Some(state) => state.statistics.invalid,
        None => 0,
    }
}

// Of two blocks the one with more invalid bytes, among equals the greater id.
fn worse(blocks: &[BlockState], best: Option<BlockId>, block: BlockId) -> BlockId
    ensures { result ≡ worse (invalid_in blocks.now) best block }
{
    let Some(best) = best else {
        return block;
    };
    let held = invalid_of(blocks, best);
    let here = invalid_of(blocks, block);
    if held < here || (held == here && best < block) {
        block
    } else {
        best
    }
}

// The one with the most invalid bytes of all that are evictable.
fn worst_of(blocks: &[BlockState], evictable: &[BlockId]) -> Option<BlockId>
    ensures { result ≡ worst_of (invalid_in blocks.now) None evictable.now }
{
    let mut best = None;
    'each_block: for block in evictable {
        best = Some(worse(blocks, best, *block));
    }
    best
}

impl InvalidRatioPicker {
    /// Gives a picker with the least ratio `num / den`, which counts as 1 if it is above 1. `den` must be more than 0.
    pub fn new(num: u32, den: u32) -> InvalidRatioPicker
        requires { 0 < den }
        ensures { result ≡ record { num = (if nat_lt den num then den else num); den = den; block_size = 0 } }
    {
        InvalidRatioPicker {
            num: if den < num { den } else { num },
            den,
            block_size: 0,
        }
    }

    // Whether so many invalid bytes reach the ratio.
    fn is_reached(&self, invalid: usize) -> bool
        ensures { result ≡ is_reached self.now.num self.now.den self.now.block_size invalid }
    {
        let reached = invalid as u128 * self.den as u128;
        let wanted = self.num as u128 * self.block_size as u128;
        !(self.block_size == 0 || reached < wanted)
    }
}

impl EvictionPicker for InvalidRatioPicker {
    ghost answer = { λ p info. ratio_answer p.num p.den p.block_size info };

    ghost marks = { λ _ _. [] };

    ghost begins = { λ p _ size q. q ≡ record p { block_size = size } };

    ghost learns = { λ p _ _ q. q ≡ p };

    ghost forgets = { λ p _ _ q. q ≡ p };

    fn init(&mut self, _alloc: Global, _blocks: &[BlockId], block_size: usize) -> Result<()>
        ensures made { (result ≡ Ok tt) × (self.new ≡ record self.old { block_size = block_size }) }
        ensures refused { IsOkUnless result Memory }
    {
        self.block_size = block_size;
        Ok(())
    }

    fn pick(&self, info: EvictionInfo<'_>, _probation: &mut Vec<BlockId>) -> Option<BlockId> {
        let worst = worst_of(info.blocks, info.evictable)?;
        if self.is_reached(invalid_of(info.blocks, worst)) {
            Some(worst)
        } else {
            None
        }
    }

    fn on_block_evictable(&mut self, _info: EvictionInfo<'_>, _block: BlockId) {}

    fn on_block_evict(&mut self, _info: EvictionInfo<'_>, _block: BlockId) {}
}
