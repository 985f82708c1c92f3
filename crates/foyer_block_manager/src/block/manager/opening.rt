//! How a manager begins.
ghost use Rattle.std.specs.Prelude.{◌≡◌, ◌<◌, ◌↔◌, ◌⊎◌, ◌^◌, ℕ, ◌++◌, ◌∷◌, [], length, true, false, IfOk, IfErr, OnOk, OnErr, IsOkUnless, IsTrue, slice_get};
ghost use Rattle.foyer_device_page.specs.declared.error.Error.TheVariants.{Memory, Config};
ghost use Rattle.foyer_block_manager.specs.Initial.{CanBeClean};
ghost use Rattle.foyer_block_manager.specs.Shown.{AreShownAll, evictable_below};

use crate::block::eviction::{EvictionPicker, is_pick, show_evictable};
use crate::block::ids::IdSet;
use crate::block::manager::{
    BlockId, BlockManager, BlockSet, BlockState, NO_STATISTICS, info_of, one_more,
};
use foyer_device_page::error::{Error, Result};
use std::alloc::Allocator;
use std::collections::VecDeque;

/// How many blocks and flushers there are, and when a reclaim may begin.
#[derive(Clone, Copy, Debug, PartialEq, Eq)]
pub struct ManagerConfig {
    /// How many blocks there are.
    pub blocks: u32,
    /// The size of each of them in bytes.
    pub block_size: usize,
    /// How many flushers there are.
    pub flushers: u32,
    /// How many reclaims may run at a time.
    pub reclaimers: usize,
    /// A reclaim may begin if fewer blocks than this are clean, and also if a flusher waits for one.
    pub clean_threshold: usize,
}

const NEW_BLOCK: BlockState = BlockState {
    block_set: BlockSet::Evictable,
    filling: 0,
    statistics: NO_STATISTICS,
};

// Whether the ids are those of evictable blocks, each once.
fn can_be_clean<A: Allocator>(alloc: &A, blocks: &[BlockState], clean: &[BlockId]) -> Result<bool>
where
    A: Clone,
    ensures answer { IfOk result (λ r. IsTrue r ↔ CanBeClean blocks.now clean.now) }
    ensures refused { IsOkUnless result Memory }
{
    let mut is_listed = vec![in alloc.clone()?; false; blocks.len()]?;
    'each_id: for id in clean {
        if !is_pick(blocks, Some(*id)) {
            return Ok(false);
        }
        if is_listed[*id as usize] {
            return Ok(false);
        }
        is_listed[*id as usize] = true;
    }
    Ok(true)
}

// Notifies the pickers of all evictable blocks, in the order of the blocks' ids.
fn show_all_evictable<P: EvictionPicker, A: Allocator>(
    pickers: &mut [P],
    blocks: &Vec<BlockState, A>,
    evictable: &IdSet<A>,
    usable: usize,
)
    requires { length blocks.now.items < 2 ^ 32 }
    ensures { AreShownAll P.learns (evictable_below blocks.now.items (length blocks.now.items)) pickers.old pickers.new }
{
    'each_block: for index in 0..blocks.len() {
        if blocks[index].is_evictable() {
            show_evictable(pickers, info_of(blocks, evictable, usable), index as u32);
        }
    }
}

impl<A: Allocator> BlockManager<A> {
    ghost use Rattle.foyer_core_model.specs.Numbers.{put};
    ghost use Rattle.foyer_core_model.specs.State as model_state;
    ghost use Rattle.foyer_block_manager.specs.BlockSets.{BlockSets, Stands, HasSameRules};
    ghost use Rattle.foyer_block_manager.specs.Initial.{new_manager, with_clean};
    ghost use Rattle.foyer_block_manager.specs.Managed.{is_evictable};

    /// A manager whose blocks are all evictable; `init` makes some of them clean. `Memory` is the only refusal.
    pub fn open(alloc: &A, config: ManagerConfig) -> Result<BlockManager<A>>
    where
        A: Clone,
        ensures made { IfOk result (λ m.
            m ≡ new_manager config.blocks config.block_size config.flushers config.reclaimers config.clean_threshold) }
        ensures refused { IsOkUnless result Memory }
    {
        let blocks = vec![in alloc.clone()?; NEW_BLOCK; config.blocks as usize]?;
        let clean = VecDeque::with_capacity(alloc.clone()?, config.blocks as usize)?;
        let evictable = IdSet::full(alloc, config.blocks)?;
        let waiting = Vec::with_capacity(alloc.clone()?, config.flushers as usize)?;
        let ready = vec![in alloc.clone()?; None; config.flushers as usize]?;
        Ok(BlockManager {
            blocks,
            clean,
            usable: 0,
            evictable,
            reclaiming: 0,
            waiting,
            ready,
            reclaimers: config.reclaimers,
            clean_threshold: config.clean_threshold,
            block_size: config.block_size,
            is_cleaning: false,
        })
    }

    // An evictable block is clean from now on.
    fn make_clean(&mut self, id: BlockId)
        requires { is_evictable (slice_get self.old.blocks id) ≡ true }
        ensures same { HasSameRules self.old self.new }
        ensures others { (q : ℕ) → (q ≡ id → ⊥) → slice_get self.new.blocks q ≡ slice_get self.old.blocks q }
        ensures clean { (s : BlockSets) → Stands self.old s
            → Stands self.new (record s { block_set = put s.block_set id model_state.Clean; clean = s.clean ++ id ∷ [] }) }
    {
        let state = &mut self.blocks[id as usize];
        state.block_set = BlockSet::Clean;
        let filling = state.filling;
        self.evictable.remove(id);
        self.usable = one_more(self.usable, filling);
        self.clean.push_back_reserved(id);
    }

    fn make_all_clean(&mut self, clean: &[BlockId])
        requires { CanBeClean self.old.blocks clean.now }
        ensures same { HasSameRules self.old self.new }
        ensures clean { (s : BlockSets) → Stands self.old s → Stands self.new (with_clean s clean.now) }
    {
        'each_id: for id in clean {
            self.make_clean(*id);
        }
    }

    /// Makes these evictable blocks clean, in this order, and notifies the pickers of the others in the order of their ids. Errors:
    /// `Config` if an id is there twice, or isn't that of an evictable block; `Memory`. An error changes nothing.
    pub fn init<P: EvictionPicker>(
        &mut self,
        alloc: &A,
        pickers: &mut [P],
        clean: &[BlockId],
    ) -> Result<()>
    where
        A: Clone,
        ensures same { HasSameRules self.old self.new }
        ensures clean { OnOk result ((s : BlockSets) → Stands self.old s → Stands self.new (with_clean s clean.now)) }
        ensures accepted { OnOk result (CanBeClean self.old.blocks clean.now) }
        ensures refused { IfErr result (λ e. (e ≡ Memory) ⊎ ((e ≡ Config) × (CanBeClean self.old.blocks clean.now → ⊥))) }
        ensures shown { OnOk result (AreShownAll P.learns (evictable_below self.new.blocks (length self.new.blocks)) pickers.old pickers.new) }
        ensures unchanged { OnErr result ((self.new ≡ self.old) × (pickers.new ≡ pickers.old)) }
    {
        if !can_be_clean(alloc, &self.blocks, clean)? {
            return Err(Error::Config);
        }
        self.make_all_clean(clean);
        show_all_evictable(pickers, &self.blocks, &self.evictable, self.usable);
        Ok(())
    }
}
