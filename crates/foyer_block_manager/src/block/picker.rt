//! A picker of any kind, and one of those of this crate.
ghost use Rattle.std.specs.Prelude.{◌≡◌, ℕ, List, [], Option, length, OnOk, OnErr, IsOkUnless};
ghost use Rattle.foyer_device_page.specs.declared.error.Error.TheVariants.{Memory};

use crate::block::eviction::{EvictionInfo, EvictionPicker};
use crate::block::fifo::FifoPicker;
use crate::block::ratio::InvalidRatioPicker;
use foyer_block_index::manager::BlockId;
use foyer_device_page::error::Result;
use std::alloc::Global;
use std::fmt;
use std::fmt::{Debug, Formatter};

/// One of the pickers of this crate, held by value, or another one that the caller has boxed.
pub enum AnyPicker {
    /// The picker by invalid bytes.
    InvalidRatio(InvalidRatioPicker),
    /// The picker by age.
    Fifo(FifoPicker),
    /// A picker of the caller's.
    Boxed(Box<dyn EvictionPicker + Send>),
}

// Written out, so that it is proved once.
impl Drop for AnyPicker {
    fn drop(self) {
        match self {
            AnyPicker::InvalidRatio(_) => {}
            AnyPicker::Fifo(_) => {}
            AnyPicker::Boxed(_) => {}
        }
    }
}

/// The variant's name, and a picker of this crate as it prints itself.
impl Debug for AnyPicker {
    fn fmt<W: fmt::Write>(&self, f: &mut Formatter<W>) -> fmt::Result {
        match self {
            AnyPicker::InvalidRatio(picker) => {
                f.debug_tuple("InvalidRatio").field(picker).finish()
            }
            AnyPicker::Fifo(picker) => f.debug_tuple("Fifo").field(picker).finish(),
            AnyPicker::Boxed(_) => f.write_str("Boxed"),
        }
    }
}

impl EvictionPicker for AnyPicker {
    ghost use Rattle.foyer_block_manager.specs.Pickers.{Info, fifo_answer, fifo_marks, ratio_answer};
    ghost use Rattle.foyer_block_manager.specs.declared.block.picker.AnyPicker.TheVariants.{InvalidRatio, Fifo, Boxed};
    ghost use Rattle.foyer_block_manager.specs.AnyPicks.{BeginsAs, IsWith, IsWithout};

    ghost answer = { λ p info. elim p as (λ _. Option ℕ) [
      | InvalidRatio q ↦ ratio_answer q.num q.den q.block_size info
      | Fifo q ↦ fifo_answer q info
      | Boxed q ↦ (EvictionPicker-box q).answer q.value info
    ] };

    ghost marks = { λ p info. elim p as (λ _. List ℕ) [
      | InvalidRatio q ↦ []
      | Fifo q ↦ fifo_marks q info
      | Boxed q ↦ (EvictionPicker-box q).marks q.value info
    ] };

    ghost begins = { λ p blocks size q. BeginsAs p (length blocks) size q };

    ghost learns = { λ p _ block q. IsWith p block q };

    ghost forgets = { λ p _ block q. IsWithout p block q };

    fn init(&mut self, alloc: Global, blocks: &[BlockId], block_size: usize) -> Result<()>
        ensures made { OnOk result (BeginsAs self.old (length blocks.now) block_size self.new) }
        ensures refused { IsOkUnless result Memory }
    {
        match self {
            AnyPicker::InvalidRatio(picker) => picker.init(alloc, blocks, block_size),
            AnyPicker::Fifo(picker) => picker.init(alloc, blocks, block_size),
            AnyPicker::Boxed(picker) => picker.init(alloc, blocks, block_size),
        }
    }

    fn pick(&self, info: EvictionInfo<'_>, probation: &mut Vec<BlockId>) -> Option<BlockId> {
        match self {
            AnyPicker::InvalidRatio(picker) => picker.pick(info, probation),
            AnyPicker::Fifo(picker) => picker.pick(info, probation),
            AnyPicker::Boxed(picker) => picker.pick(info, probation),
        }
    }

    fn on_block_evictable(&mut self, info: EvictionInfo<'_>, block: BlockId) {
        match self {
            AnyPicker::InvalidRatio(picker) => picker.on_block_evictable(info, block),
            AnyPicker::Fifo(picker) => picker.on_block_evictable(info, block),
            AnyPicker::Boxed(picker) => picker.on_block_evictable(info, block),
        }
    }

    fn on_block_evict(&mut self, info: EvictionInfo<'_>, block: BlockId) {
        match self {
            AnyPicker::InvalidRatio(picker) => picker.on_block_evict(info, block),
            AnyPicker::Fifo(picker) => picker.on_block_evict(info, block),
            AnyPicker::Boxed(picker) => picker.on_block_evict(info, block),
        }
    }
}

/// One of the pickers of this crate, held by value.
#[derive(Debug)]
pub enum BuiltInPicker {
    /// The picker by invalid bytes.
    InvalidRatio(InvalidRatioPicker),
    /// The picker by age.
    Fifo(FifoPicker),
}

// Written out, so that it is proved once.
impl Drop for BuiltInPicker {
    fn drop(self) {
        match self {
            BuiltInPicker::InvalidRatio(_) => {}
            BuiltInPicker::Fifo(_) => {}
        }
    }
}

impl EvictionPicker for BuiltInPicker {
    ghost use Rattle.foyer_block_manager.specs.BuiltIn.{built_in_answer, built_in_marks, built_in_with, built_in_without, begun_built_in};

    ghost answer = { built_in_answer };

    ghost marks = { built_in_marks };

    ghost begins = { λ p blocks size q. q ≡ begun_built_in p (length blocks) size };

    ghost learns = { λ p _ block q. q ≡ built_in_with p block };

    ghost forgets = { λ p _ block q. q ≡ built_in_without p block };

    fn init(&mut self, alloc: Global, blocks: &[BlockId], block_size: usize) -> Result<()>
        ensures made { OnOk result (self.new ≡ begun_built_in self.old (length blocks.now) block_size) }
        ensures unchanged { OnErr result (self.new ≡ self.old) }
        ensures refused { IsOkUnless result Memory }
    {
        match self {
            BuiltInPicker::InvalidRatio(picker) => picker.init(alloc, blocks, block_size),
            BuiltInPicker::Fifo(picker) => picker.init(alloc, blocks, block_size),
        }
    }

    fn pick(&self, info: EvictionInfo<'_>, probation: &mut Vec<BlockId>) -> Option<BlockId> {
        match self {
            BuiltInPicker::InvalidRatio(picker) => picker.pick(info, probation),
            BuiltInPicker::Fifo(picker) => picker.pick(info, probation),
        }
    }

    fn on_block_evictable(&mut self, info: EvictionInfo<'_>, block: BlockId) {
        match self {
            BuiltInPicker::InvalidRatio(picker) => picker.on_block_evictable(info, block),
            BuiltInPicker::Fifo(picker) => picker.on_block_evictable(info, block),
        }
    }

    fn on_block_evict(&mut self, info: EvictionInfo<'_>, block: BlockId) {
        match self {
            BuiltInPicker::InvalidRatio(picker) => picker.on_block_evict(info, block),
            BuiltInPicker::Fifo(picker) => picker.on_block_evict(info, block),
        }
    }
}
