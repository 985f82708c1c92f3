//! The blocks: which may be handed out, who waits for one, and which is reclaimed next.
ghost use Rattle.std.specs.Prelude.{◌≡◌, ◌+◌, ◌<◌, ◌↔◌, ◌==◌, ℕ, List, ◌^◌, Option, Some, None, length, map, vec_capacity, nat_lt, true, false, if◌then◌else◌, MatchOption, IfNone, IfOk, IfSome, OnOk, OnErr, IsOkUnless, IsTrue, IsSome, slice_get};
ghost use Rattle.foyer_device_page.specs.declared.error.Error.TheVariants.{Memory};
ghost use Rattle.foyer_core_model.specs.Flush.{first_usable};
ghost use Rattle.foyer_core_model.specs.Ids.{is_id_in};
ghost use Rattle.std.specs.VecDeque.{deque_capacity};
ghost use Rattle.foyer_core_model.specs.Numbers.{put, last_number};
ghost use Rattle.foyer_block_manager.specs.Drawing.{IsDrawn};
ghost use Rattle.foyer_block_manager.specs.Managed.{filling_in, is_writing, is_reclaiming, statistics_of, IsFirstUsable, IsTaken};
ghost use Rattle.foyer_block_manager.specs.Picks.{with_mark_at, with_marks, allows};

use crate::block::eviction::{
    EvictionInfo, EvictionPicker, choose, consult, show_evict, show_evictable,
};
use crate::block::ids::IdSet;
pub use crate::block::states::{Block, BlockSet, BlockState, BlockStatistics, GetCleanBlockHandle};
pub use foyer_block_index::manager::BlockId;
use foyer_device_page::error::Result;
use rand_core::Rng;
use std::alloc::Allocator;
use std::collections::VecDeque;
use std::marker::Model;

mod clearing;
mod opening;
mod statistics;
mod waiting;

use self::waiting::{begin_to_wait, end_to_wait, next_waiter};
pub use opening::ManagerConfig;

/// The sets of blocks. A block is clean, or a flusher writes it, or it is evictable, or it is reclaimed.
#[derive(Drop)]
pub struct BlockManager<A: Allocator> {
    blocks: Vec<BlockState, A>,
    // The clean blocks, the one that has been clean longest first, and how many of them may be handed out.
    clean: VecDeque<BlockId, A>,
    usable: usize,
    evictable: IdSet<A>,
    reclaiming: usize,
    // The flushers that wait for a block, the one that began last at the end.
    waiting: Vec<u32, A>,
    // By flusher the block that it got while it waited.
    ready: Vec<Option<BlockId>, A>,
    reclaimers: usize,
    clean_threshold: usize,
    block_size: usize,
    is_cleaning: bool,
}

impl<A: Allocator> Model for BlockManager<A> {
    ghost use Rattle.std.specs.Prelude.{◌≡◌, vec_capacity};
    ghost use Rattle.std.specs.VecDeque.{deque_capacity};
    ghost use Rattle.foyer_block_manager.specs.Managed.{Managed, IsKept};

    ghost Value = { Managed };

    ghost view = { λ m. record {
      blocks = m.blocks.items;
      clean = m.clean.items;
      evictable = m.evictable.ids;
      waiting = m.waiting.items;
      ready = m.ready.items;
      reclaimers = m.reclaimers;
      clean_threshold = m.clean_threshold;
      block_size = m.block_size;
      is_cleaning = m.is_cleaning;
    } };

    ghost invariant = { λ m. IsKept m.blocks.items m.clean.items m.waiting.items m.ready.items m.evictable
        m.usable m.reclaiming (deque_capacity m.clean) (vec_capacity m.waiting) };
}

fn is_writing<A: Allocator>(blocks: &Vec<BlockState, A>, block: BlockId) -> bool
    ensures { result ≡ is_writing (slice_get blocks.now.items block) }
{
    match blocks.get(block as usize) {
        Some(state) => state.is_written(),
        None => false,
    }
}

fn is_reclaiming<A: Allocator>(blocks: &Vec<BlockState, A>, block: BlockId) -> bool
    ensures { result ≡ is_reclaiming (slice_get blocks.now.items block) }
{
    match blocks.get(block as usize) {
        Some(state) => state.is_reclaimed(),
        None => false,
    }
}

// Gives how often a block was handed out or destroyed. If the block isn't there, it gives the greatest number, so that the block is never
// handed out.
fn filling_of<A: Allocator>(blocks: &Vec<BlockState, A>, block: BlockId) -> u64
    ensures { result ≡ filling_in blocks.now.items block }
{
    match blocks.get(block as usize) {
        Some(state) => state.filling,
        None => u64::MAX,
    }
}

// Gives the statistics of a block. If the block isn't there, they are those of a clean one.
fn statistics_of<A: Allocator>(blocks: &Vec<BlockState, A>, block: BlockId) -> BlockStatistics
    ensures { result ≡ statistics_of (slice_get blocks.now.items block) }
{
    match blocks.get(block as usize) {
        Some(state) => state.statistics,
        None => NO_STATISTICS,
    }
}

// Whether a clean block may still be handed out.
fn is_usable<A: Allocator>(blocks: &Vec<BlockState, A>, block: BlockId) -> bool
    ensures { result ≡ nat_lt (filling_in blocks.now.items block) last_number }
{
    filling_of(blocks, block) < u64::MAX
}

// Finds the clean block that has been clean longest of those that may still be handed out, and gives its place in the list. Only blocks
// whose count of fillings is at its end stand before it.
fn first_usable<A: Allocator>(
    clean: &VecDeque<BlockId, A>,
    blocks: &Vec<BlockState, A>,
) -> Option<usize>
    ensures { MatchOption result
        (first_usable (filling_in blocks.now.items) clean.now.items ≡ None)
        (IsFirstUsable clean.now.items blocks.now.items) }
{
    for index in 0..clean.len() {
        if is_usable(blocks, clean[index]) {
            return Some(index);
        }
    }
    None
}

// Finds the same block, but gives None while a destroy cleans, because no block may be handed out then.
fn next_clean<A: Allocator>(
    clean: &VecDeque<BlockId, A>,
    blocks: &Vec<BlockState, A>,
    is_cleaning: bool,
) -> Option<usize>
    ensures { MatchOption result
        ((if is_cleaning then None else first_usable (filling_in blocks.now.items) clean.now.items) ≡ None)
        (λ i. (is_cleaning ≡ false) × IsFirstUsable clean.now.items blocks.now.items i) }
{
    if is_cleaning {
        return None;
    }
    first_usable(clean, blocks)
}

// The block at this index is handed out to a flusher, in a new filling.
fn hand_out<A: Allocator>(
    clean: &mut VecDeque<BlockId, A>,
    blocks: &mut Vec<BlockState, A>,
    index: usize,
    flusher: u32,
) -> BlockId
    requires { IsFirstUsable clean.old.items blocks.old.items index }
    ensures taken { IsTaken flusher blocks.old.items clean.old.items result blocks.new.items clean.new.items }
    ensures room { deque_capacity clean.new ≡ deque_capacity clean.old }
{
    let Some(block) = clean.remove(index) else {
        unreachable!()
    };
    let state = &mut blocks[block as usize];
    state.filling += 1;
    state.block_set = BlockSet::Writing(flusher);
    block
}

// The statistics of a block that was just cleaned.
const NO_STATISTICS: BlockStatistics = BlockStatistics {
    invalid: 0,
    access: 0,
    probation: false,
};

// Counts one more clean block, if that block may still be handed out.
fn one_more(usable: usize, filling: u64) -> usize
    requires { usable < 2 ^ 32 }
    ensures { result ≡ usable + (if nat_lt filling last_number then 1 else 0) }
{
    if filling < u64::MAX {
        usable + 1
    } else {
        usable
    }
}

// What pickers see.
fn info_of<'a, A: Allocator>(
    blocks: &'a Vec<BlockState, A>,
    evictable: &'a IdSet<A>,
    clean: usize,
) -> EvictionInfo<'a>
    ensures { (result.blocks.now ≡ blocks.now.items) × (result.evictable.now ≡ evictable.now.ids) × (result.clean ≡ clean) }
{
    EvictionInfo {
        blocks,
        evictable: evictable.as_slice(),
        clean,
    }
}

/// A block whose reclaim began, and how it was chosen: what the pickers answered, in their order, and
/// what they put on probation.
#[derive(Drop)]
pub struct ReclaimingBlock<A: Allocator> {
    /// The block that is reclaimed.
    pub block: BlockId,
    /// What the pickers answered, as far as they were asked.
    pub answers: Vec<Option<BlockId>, A>,
    /// The blocks that they put on probation.
    pub probation: Vec<BlockId, A>,
}

// Marks a block, if it is evictable.
fn mark_one<A: Allocator>(blocks: &mut Vec<BlockState, A>, id: BlockId)
    ensures { blocks.new.items ≡ with_mark_at (slice_get blocks.old.items id) id blocks.old.items }
{
    if let Some(state) = blocks.get_mut(id as usize) {
        if state.is_evictable() {
            state.statistics.probation = true;
        }
    }
}

// Marks those of the blocks that are evictable.
fn mark<A: Allocator>(blocks: &mut Vec<BlockState, A>, ids: &[BlockId])
    ensures { blocks.new.items ≡ with_marks ids.now blocks.old.items }
{
    'each_id: for id in ids {
        mark_one(blocks, *id);
    }
}

// Whether a reclaim may begin.
fn allows(
    is_cleaning: bool,
    reclaiming: usize,
    reclaimers: usize,
    none_evictable: bool,
    usable: usize,
    clean_threshold: usize,
    none_waits: bool,
) -> bool
    ensures { result ≡ allows is_cleaning reclaiming reclaimers none_evictable usable clean_threshold none_waits }
{
    !is_cleaning
        && reclaiming < reclaimers
        && !none_evictable
        && (usable < clean_threshold || !none_waits)
}

impl<A: Allocator> BlockManager<A> {
    ghost use Rattle.foyer_block_manager.specs.Pickers.{picker_info, answers_of, answers_given, marks_given, pick_of};
    ghost use Rattle.foyer_core_model.specs.Reclaim as model_reclaim;
    ghost use Rattle.foyer_core_model.specs.State as model_state;
    ghost use Rattle.foyer_block_manager.specs.Picks.{usable_in};
    ghost use Rattle.foyer_block_manager.specs.Shown.{AreShown};
    ghost use Rattle.foyer_block_manager.specs.Managed.{block_of, IsWritten, IsReclaimed, is_evictable};
    ghost use Rattle.std.specs.Option.{option_map};
    ghost use Rattle.foyer_block_manager.specs.BlockSets.{BlockSets, Stands, HasSameRules, HandsOut, HasFinished, after_writing, reclaim_count, MayReclaim};

    /// How many blocks there are.
    pub fn blocks(&self) -> usize
        ensures count { result ≡ length self.now.blocks }
        ensures few { result < 2 ^ 32 }
    {
        self.blocks.len()
    }

    // The block of this id, with the statistics of a clean one if it isn't there.
    fn block_of(&self, id: BlockId) -> Block
        ensures { result ≡ block_of self.now id }
    {
        Block {
            id,
            size: self.block_size,
            statistics: statistics_of(&self.blocks, id),
        }
    }

    /// The block of this id, which must be there.
    pub fn block(&self, id: BlockId) -> Block
        requires { id < length self.now.blocks }
        ensures { result ≡ block_of self.now id }
    {
        self.block_of(id)
    }

    /// What is known of a block, if it is there.
    pub fn known(&self, id: BlockId) -> Option<BlockState>
        ensures { result ≡ slice_get self.now.blocks id }
    {
        self.blocks.get(id as usize).copied()
    }

    /// How many flushers there are.
    pub fn flushers(&self) -> usize
        ensures { result ≡ length self.now.ready }
    {
        self.ready.len()
    }

    /// Whether a flusher has the block.
    pub fn is_written(&self, id: BlockId) -> bool
        ensures { IsTrue result ↔ IsWritten self.now id }
    {
        is_writing(&self.blocks, id)
    }

    /// Whether a reclaim has the block.
    pub fn is_reclaimed(&self, id: BlockId) -> bool
        ensures { IsTrue result ↔ IsReclaimed self.now id }
    {
        is_reclaiming(&self.blocks, id)
    }

    /// Gives a flusher the block that it was given while it waited, else the block that has been clean longest, in a new filling. It gives
    /// no clean block while a destroy cleans, and none whose count of fillings is at its end. If there is no block, the flusher waits. The
    /// flusher must be there.
    pub fn get_clean_block(&mut self, flusher: u32) -> GetCleanBlockHandle
        requires { flusher < length self.old.ready }
        ensures same { HasSameRules self.old self.new }
        ensures handed { (s : BlockSets) → Stands self.old s → HandsOut s flusher (option_map (λ b. b.id) result) self.new }
        ensures described { IfSome result (λ b. b ≡ block_of self.new b.id) }
    {
        if let Some(block) = self.ready[flusher as usize] {
            self.ready[flusher as usize] = None;
            end_to_wait(&mut self.waiting, flusher);
            return Some(self.block_of(block));
        }
        let Some(index) = next_clean(&self.clean, &self.blocks, self.is_cleaning) else {
            begin_to_wait(&mut self.waiting, flusher);
            return None;
        };
        let block = hand_out(&mut self.clean, &mut self.blocks, index, flusher);
        self.usable -= 1;
        end_to_wait(&mut self.waiting, flusher);
        Some(self.block_of(block))
    }

    /// Makes a block evictable that a flusher writes. The block must be written. The pickers are notified of it.
    pub fn on_writing_finish<P: EvictionPicker>(&mut self, pickers: &mut [P], block: BlockId)
        requires { IsWritten self.old block }
        ensures same { HasSameRules self.old self.new }
        ensures left { (s : BlockSets) → Stands self.old s → Stands self.new (after_writing s block) }
        ensures others { (q : ℕ) → (q ≡ block → ⊥) → slice_get self.new.blocks q ≡ slice_get self.old.blocks q }
        ensures shown { AreShown P.learns (picker_info self.new.blocks self.new.evictable (usable_in self.new)) block pickers.old pickers.new }
    {
        let state = &mut self.blocks[block as usize];
        state.block_set = BlockSet::Evictable;
        self.evictable.insert(block);
        let info = info_of(&self.blocks, &self.evictable, self.usable);
        show_evictable(pickers, info, block);
    }

    /// Whether a reclaim may begin. It may if fewer blocks than the threshold may be handed out or a flusher waits. Besides, a reclaimer must
    /// be free, a block must be evictable, and no destroy may clean.
    pub fn may_reclaim(&self) -> bool
        ensures some { result ≡ true → 0 < length self.now.evictable }
        ensures may { (s : BlockSets) → Stands self.now s
            → IsTrue result ↔ MayReclaim (length self.now.blocks) self.now.reclaimers self.now.clean_threshold s }
    {
        allows(
            self.is_cleaning,
            self.reclaiming,
            self.reclaimers,
            self.evictable.as_slice().is_empty(),
            self.usable,
            self.clean_threshold,
            self.waiting.is_empty(),
        )
    }

    /// Begins the reclaim of a block, if a reclaim may begin. The block is the first evictable one that a picker picks, in the order of the
    /// pickers. If no picker picks one, the generator chooses. Blocks that the asked pickers put on probation are marked, if they are
    /// evictable. `own` is memory for the pickers' lists. Gives `None` if no reclaim may begin. Errors: `Memory`, which changes nothing but
    /// `own`.
    pub fn reclaim_begin<P: EvictionPicker, G: Rng>(
        &mut self,
        alloc: &A,
        pickers: &mut [P],
        own: &mut Vec<BlockId>,
        generator: &mut G,
    ) -> Result<Option<ReclaimingBlock<A>>>
    where
        A: Clone,
        ensures same { HasSameRules self.old self.new }
        ensures none { IfOk result (λ r. r ≡ None → (self.new ≡ self.old)
            × ((s : BlockSets) → Stands self.old s → MayReclaim (length self.old.blocks) self.old.reclaimers self.old.clean_threshold s → ⊥)) }
        ensures may { IfOk result (λ o. IfSome o (λ _. (s : BlockSets) → Stands self.old s
            → MayReclaim (length self.old.blocks) self.old.reclaimers self.old.clean_threshold s)) }
        ensures evictable { IfOk result (λ o. IfSome o (λ r. is_id_in r.block self.old.evictable ≡ true)) }
        ensures there { IfOk result (λ o. IfSome o (λ r. is_evictable (slice_get self.old.blocks r.block) ≡ true)) }
        ensures answers { IfOk result (λ o. IfSome o (λ r. r.answers.items ≡ answers_given self.old.blocks
            (answers_of P.answer P.marks pickers.old (picker_info self.old.blocks self.old.evictable (usable_in self.old))))) }
        ensures probation { IfOk result (λ o. IfSome o (λ r. r.probation.items ≡ marks_given self.old.blocks
            (answers_of P.answer P.marks pickers.old (picker_info self.old.blocks self.old.evictable (usable_in self.old))))) }
        ensures first { IfOk result (λ o. IfSome o (λ r. (b : ℕ) → pick_of self.old.blocks
            (answers_of P.answer P.marks pickers.old (picker_info self.old.blocks self.old.evictable (usable_in self.old))) ≡ Some b → r.block ≡ b)) }
        ensures drawn { IfOk result (λ o. IfSome o (λ r. pick_of self.old.blocks
            (answers_of P.answer P.marks pickers.old (picker_info self.old.blocks self.old.evictable (usable_in self.old))) ≡ None
            → IsDrawn self.old.evictable (G.stream generator.old) r.block (G.stream generator.new))) }
        ensures unasked { IfOk result (λ o. IfSome o (λ r. (b : ℕ) → pick_of self.old.blocks
            (answers_of P.answer P.marks pickers.old (picker_info self.old.blocks self.old.evictable (usable_in self.old))) ≡ Some b
            → generator.new ≡ generator.old)) }
        ensures undrawn { IfOk result (λ o. o ≡ None → generator.new ≡ generator.old) }
        ensures after { IfOk result (λ o. IfSome o (λ r. (s : BlockSets) → Stands self.old s
            → Stands self.new (record s { block_set = put s.block_set r.block model_state.Reclaims; stats = model_reclaim.marked r.probation.items s.block_set s.stats }))) }
        ensures shown { IfOk result (λ o. IfSome o (λ r.
            AreShown P.forgets (picker_info self.new.blocks self.new.evictable (usable_in self.new)) r.block pickers.old pickers.new)) }
        ensures unshown { IfOk result (λ o. IfNone o (pickers.new ≡ pickers.old)) }
        ensures unchanged { OnErr result ((self.new ≡ self.old) × (pickers.new ≡ pickers.old) × (generator.new ≡ generator.old)) }
        ensures refused { IsOkUnless result Memory }
    {
        if !self.may_reclaim() {
            return Ok(None);
        }
        let mut answers = Vec::new(alloc.clone()?);
        let mut probation = Vec::new(alloc.clone()?);
        let info = info_of(&self.blocks, &self.evictable, self.usable);
        let first_pick = consult(pickers, info, own, &mut answers, &mut probation)?;
        let block = choose(generator, first_pick, self.evictable.as_slice());
        mark(&mut self.blocks, &probation);
        self.blocks[block as usize].block_set = BlockSet::Reclaiming;
        self.evictable.remove(block);
        self.reclaiming += 1;
        let left = info_of(&self.blocks, &self.evictable, self.usable);
        show_evict(pickers, left, block);
        Ok(Some(ReclaimingBlock {
            block,
            answers,
            probation,
        }))
    }

    /// Ends the reclaim of a block, which must be reclaimed. The block goes to the flusher that began to wait last, in a new filling, and
    /// that flusher is the answer. If none waits, or the block's count of fillings is at its end, the block is clean.
    pub fn on_reclaim_finish(&mut self, block: BlockId) -> Option<u32>
        requires { IsReclaimed self.old block }
        ensures same { HasSameRules self.old self.new }
        ensures finished { (s : BlockSets) → Stands self.old s → HasFinished s block result self.new }
    {
        let filling = self.blocks[block as usize].filling;
        let statistics = NO_STATISTICS;
        self.reclaiming -= 1;
        if let Some(flusher) = next_waiter(&mut self.waiting, filling) {
            self.blocks[block as usize] = BlockState {
                block_set: BlockSet::Writing(flusher),
                filling: filling + 1,
                statistics,
            };
            self.ready[flusher as usize] = Some(block);
            return Some(flusher);
        }
        self.blocks[block as usize] = BlockState {
            block_set: BlockSet::Clean,
            filling,
            statistics,
        };
        self.usable = one_more(self.usable, filling);
        self.clean.push_back_reserved(block);
        None
    }

    /// Whether no reclaim runs.
    pub fn wait_reclaim(&self) -> bool
        ensures { (s : BlockSets) → Stands self.now s → result ≡ (reclaim_count (length self.now.blocks) s.block_set == 0) }
    {
        self.reclaiming == 0
    }
}
