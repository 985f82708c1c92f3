//! The picker by age.
ghost use Rattle.std.specs.Prelude.{◌≡◌, ◌+◌, ◌*◌, ◌/◌, ◌<◌, ◌≤◌, ℕ, [], length, OnOk, OnErr, IsOkUnless};
ghost use Rattle.foyer_device_page.specs.declared.error.Error.TheVariants.{Memory};
ghost use Rattle.foyer_block_manager.specs.Pickers.{fifo_answer, fifo_marks, fifo_with, fifo_without, probations_of};

use crate::block::eviction::{EvictionInfo, EvictionPicker};
use crate::block::queue::Queue;
use foyer_block_index::manager::BlockId;
use foyer_device_page::error::Result;
use std::alloc::Global;
use std::marker::Model;

/// Picks the block that became evictable longest ago, and puts the oldest ones on probation while few blocks are clean.
#[derive(Debug)]
pub struct FifoPicker {
    num: u32,
    den: u32,
    probations: usize,
    // None until it was given the blocks.
    queue: Option<Queue>,
}

// Written out, so that it is proved once.
impl Drop for FifoPicker {
    fn drop(self) {
        let FifoPicker {
            num: _,
            den: _,
            probations: _,
            queue: _,
        } = self;
    }
}

impl Model for FifoPicker {
    ghost use Rattle.std.specs.Prelude.{◌≡◌, ◌<◌, ◌≤◌};
    ghost use Rattle.foyer_block_manager.specs.Pickers.{Fifo};
    ghost use Rattle.foyer_block_manager.specs.Queues.{fifo_of};

    ghost Value = { Fifo };

    ghost view = { λ p. fifo_of p.num p.den p.probations p.queue };

    ghost invariant = { λ p. (0 < p.den) × (p.num ≤ p.den) };
}

// The part `num / den` of so many blocks, rounded down.
fn part_of(num: u32, den: u32, blocks: usize) -> usize
    requires { (0 < den) × (num ≤ den) }
    ensures { result ≡ probations_of num den blocks }
{
    (blocks as u128 * num as u128 / den as u128) as usize
}

impl FifoPicker {
    /// Gives a picker that wants the part `num / den` of all blocks to be clean or on probation. `den` must be more than 0, and `num` at
    /// most `den`.
    pub fn new(num: u32, den: u32) -> FifoPicker
        requires { (0 < den) × (num ≤ den) }
        ensures { result ≡ record { num = num; den = den; queue = []; room = 0; probations = 0 } }
    {
        FifoPicker {
            num,
            den,
            probations: 0,
            queue: None,
        }
    }
}

impl Default for FifoPicker {
    ghost is_default = { λ p. p ≡ record { num = 1; den = 10; queue = []; room = 0; probations = 0 } };

    /// Gives a picker that wants a tenth of all blocks to be clean or on probation.
    fn default() -> FifoPicker {
        FifoPicker::new(1, 10)
    }
}

impl EvictionPicker for FifoPicker {
    ghost answer = { fifo_answer };

    ghost marks = { fifo_marks };

    ghost begins = { λ p blocks _ q. q ≡ record p {
      queue = [];
      room = length blocks;
      probations = probations_of p.num p.den (length blocks);
    } };

    ghost learns = { λ p _ block q. q ≡ fifo_with p block };

    ghost forgets = { λ p _ block q. q ≡ fifo_without p block };

    /// Makes room for all blocks, none of which is queued yet. `Memory` leaves it as it was.
    fn init(&mut self, alloc: Global, blocks: &[BlockId], _block_size: usize) -> Result<()>
        ensures made { OnOk result (self.new ≡ record self.old {
          queue = [];
          room = length blocks.now;
          probations = probations_of self.old.num self.old.den (length blocks.now);
        }) }
        ensures unchanged { OnErr result (self.new ≡ self.old) }
        ensures refused { IsOkUnless result Memory }
    {
        let queue = Queue::new(alloc, blocks.len())?;
        self.probations = part_of(self.num, self.den, blocks.len());
        self.queue = Some(queue);
        Ok(())
    }

    fn pick(&self, info: EvictionInfo<'_>, probation: &mut Vec<BlockId>) -> Option<BlockId> {
        let queue = self.queue.as_ref()?;
        queue.oldest_evictable(
            self.probations.saturating_sub(info.clean),
            info.blocks,
            probation,
        );
        queue.front()
    }

    fn on_block_evictable(&mut self, _info: EvictionInfo<'_>, block: BlockId) {
        let Some(queue) = &mut self.queue else {
            return;
        };
        queue.push(block);
    }

    fn on_block_evict(&mut self, _info: EvictionInfo<'_>, block: BlockId) {
        let Some(queue) = &mut self.queue else {
            return;
        };
        queue.remove(block);
    }
}
