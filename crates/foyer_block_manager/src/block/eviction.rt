//! Pickers: who chooses the block that is reclaimed.
ghost use Rattle.std.specs.Prelude.{◌≡◌, ◌≤◌, ◌<◌, ℕ, List, [], ◌++◌, ◌↔◌, Option, Some, None, length, map, slice_get, vec_capacity, IfOk, IfSome, OnOk, OnErr, IsOkUnless, MatchOption, true, ◌==◌};
ghost use Rattle.foyer_device_page.specs.declared.error.Error.TheVariants.{Memory};
ghost use Rattle.foyer_core_model.specs.Ids.{is_id_in};
ghost use Rattle.foyer_block_manager.specs.Drawing.{IsDrawn};
ghost use Rattle.foyer_block_manager.specs.Managed.{is_evictable, is_writing_set, is_reclaiming_set};
ghost use Rattle.foyer_block_manager.specs.Shown.{AreChanged, AreShown};
ghost use Rattle.foyer_block_manager.specs.Pickers.{Info, picker_info, answers_of, is_pick, answers_given, marks_given, pick_of};

pub use crate::block::fifo::FifoPicker;
pub use crate::block::picker::{AnyPicker, BuiltInPicker};
pub use crate::block::ratio::InvalidRatioPicker;
use crate::block::states::{BlockSet, BlockState};
use foyer_block_index::manager::BlockId;
use foyer_device_page::error::Result;
use rand::RngExt;
use rand_core::Rng;
use std::alloc::{Allocator, Global};

/// What a picker sees.
#[derive(Clone, Copy)]
pub struct EvictionInfo<'a> {
    /// The blocks by their ids.
    pub blocks: &'a [BlockState],
    /// The ids of those that are evictable, in any order.
    pub evictable: &'a [BlockId],
    /// How many clean blocks may be handed out.
    pub clean: usize,
}

/// Chooses the block that is reclaimed next. A picker of a caller's own goes into `AnyPicker::Boxed`.
pub trait EvictionPicker: Drop {
    // What a picker picks, by its state and what it sees.
    ghost answer: { Self → Info → Option ℕ };

    // What it then puts on probation.
    ghost marks: { Self → Info → List ℕ };

    // What a picker may become after a block became evictable (`learns`), or after a block is reclaimed (`forgets`), by its state before
    // and what it sees then. If an impl leaves them out, anything.
    ghost learns: { Self → Info → ℕ → Self → Type 0 } = { λ _ _ _ _. Unit {0} };

    ghost forgets: { Self → Info → ℕ → Self → Type 0 } = { λ _ _ _ _. Unit {0} };

    // What a picker may become when `init` gives it these blocks and their size, by its state before. If an impl leaves it out, anything.
    ghost begins: { Self → List ℕ → ℕ → Self → Type 0 } = { λ _ _ _ _. Unit {0} };

    /// Gives the picker the ids of the blocks and their size, before all else. Errors: `Memory`.
    fn init(&mut self, alloc: Global, blocks: &[BlockId], block_size: usize) -> Result<()>
        ensures begins { OnOk result (begins self.old blocks.now block_size self.new) }
        ensures refused { IsOkUnless result Memory };

    /// Gives the block that the picker picks. An answer that isn't evictable counts as no pick. The ids that it puts into `probation` are
    /// marked if they are evictable. The caller passes `probation` empty, with room for every block.
    fn pick(&self, info: EvictionInfo<'_>, probation: &mut Vec<BlockId>) -> Option<BlockId>
        requires empty { probation.old.items ≡ [] }
        requires room { length info.blocks.now ≤ vec_capacity probation.old }
        ensures answer { result ≡ answer self.now (picker_info info.entry.blocks.now info.entry.evictable.now info.entry.clean) }
        ensures marks { probation.new.items ≡ marks self.now (picker_info info.entry.blocks.now info.entry.evictable.now info.entry.clean) };

    /// A block has become evictable.
    fn on_block_evictable(&mut self, info: EvictionInfo<'_>, id: BlockId)
        ensures learns { learns self.old (picker_info info.entry.blocks.now info.entry.evictable.now info.entry.clean) id self.new };

    /// A block is reclaimed.
    fn on_block_evict(&mut self, info: EvictionInfo<'_>, id: BlockId)
        ensures forgets { forgets self.old (picker_info info.entry.blocks.now info.entry.evictable.now info.entry.clean) id self.new };
}

impl BlockState {
    /// Whether it may be reclaimed.
    pub fn is_evictable(&self) -> bool
        ensures { result ≡ is_evictable (Some self.now) }
    {
        match self.block_set {
            BlockSet::Evictable => true,
            BlockSet::Clean | BlockSet::Writing(_) | BlockSet::Reclaiming => false,
        }
    }
}

impl BlockState {
    pub(crate) fn is_written(&self) -> bool
        ensures { result ≡ is_writing_set self.now.block_set }
    {
        match self.block_set {
            BlockSet::Writing(_) => true,
            BlockSet::Clean | BlockSet::Evictable | BlockSet::Reclaiming => false,
        }
    }

    pub(crate) fn is_reclaimed(&self) -> bool
        ensures { result ≡ is_reclaiming_set self.now.block_set }
    {
        match self.block_set {
            BlockSet::Reclaiming => true,
            BlockSet::Clean | BlockSet::Writing(_) | BlockSet::Evictable => false,
        }
    }
}

// Whether an answer is an evictable block.
pub(crate) fn is_pick(blocks: &[BlockState], answer: Option<BlockId>) -> bool
    ensures { result ≡ is_pick blocks.now answer }
{
    match answer {
        None => false,
        Some(block) => match blocks.get(block as usize) {
            None => false,
            Some(state) => state.is_evictable(),
        },
    }
}

// Asks the pickers in order up to the first pick, and keeps what each answered and put on probation.
pub(crate) fn consult<P: EvictionPicker, A: Allocator>(
    pickers: &[P],
    info: EvictionInfo<'_>,
    own: &mut Vec<BlockId>,
    answers: &mut Vec<Option<BlockId>, A>,
    probation: &mut Vec<BlockId, A>,
) -> Result<Option<BlockId>>
    requires { (answers.old.items ≡ []) × (probation.old.items ≡ []) }
    ensures answers { OnOk result (answers.new.items ≡ answers_given info.entry.blocks.now
        (answers_of P.answer P.marks pickers.now (picker_info info.entry.blocks.now info.entry.evictable.now info.entry.clean))) }
    ensures probation { OnOk result (probation.new.items ≡ marks_given info.entry.blocks.now
        (answers_of P.answer P.marks pickers.now (picker_info info.entry.blocks.now info.entry.evictable.now info.entry.clean))) }
    ensures picked { IfOk result (λ r. r ≡ pick_of info.entry.blocks.now
        (answers_of P.answer P.marks pickers.now (picker_info info.entry.blocks.now info.entry.evictable.now info.entry.clean))) }
    ensures refused { IsOkUnless result Memory }
{
    'each_picker: for picker in pickers {
        own.clear();
        own.reserve(info.blocks.len())?;
        let answer = picker.pick(info, own);
        answers.push(answer)?;
        probation.extend_from_slice(own)?;
        if is_pick(info.blocks, answer) {
            return Ok(answer);
        }
    }
    Ok(None)
}

/// Gives the ids of these blocks and their size to each picker, in order. Errors: `Memory` if a picker is refused memory. The pickers
/// before it have them then.
pub fn init_all<P: EvictionPicker>(
    pickers: &mut [P],
    alloc: Global,
    blocks: &[BlockId],
    block_size: usize,
) -> Result<()>
    ensures begun { OnOk result (AreChanged (λ p q. P.begins p blocks.now block_size q) pickers.old pickers.new) }
    ensures count { length pickers.new ≡ length pickers.old }
    ensures refused { IsOkUnless result Memory }
{
    'each_picker: for picker in pickers.iter_mut() {
        picker.init(alloc, blocks, block_size)?;
    }
    Ok(())
}

// Notifies each picker that a block has become evictable.
pub(crate) fn show_evictable<P: EvictionPicker>(
    pickers: &mut [P],
    info: EvictionInfo<'_>,
    id: BlockId,
)
    ensures { AreShown P.learns (picker_info info.entry.blocks.now info.entry.evictable.now info.entry.clean) id pickers.old pickers.new }
{
    'each_picker: for picker in pickers.iter_mut() {
        picker.on_block_evictable(info, id);
    }
}

// Notifies each picker that a block is reclaimed.
pub(crate) fn show_evict<P: EvictionPicker>(pickers: &mut [P], info: EvictionInfo<'_>, id: BlockId)
    ensures { AreShown P.forgets (picker_info info.entry.blocks.now info.entry.evictable.now info.entry.clean) id pickers.old pickers.new }
{
    'each_picker: for picker in pickers.iter_mut() {
        picker.on_block_evict(info, id);
    }
}

fn nth(ids: &[BlockId], at: usize) -> BlockId
    requires { at < length ids.now }
    ensures there { is_id_in result ids.now ≡ true }
    ensures at { slice_get ids.now at ≡ Some result }
{
    ids[at]
}

// One of the ids, by the generator.
fn draw<G: Rng>(generator: &mut G, ids: &[BlockId]) -> BlockId
    requires { 0 < length ids.now }
    ensures there { is_id_in result ids.now ≡ true }
    ensures drawn { IsDrawn ids.now (G.stream generator.old) result (G.stream generator.new) }
{
    let at = generator.random_range(0..ids.len());
    nth(ids, at)
}

// The first pick, else one of the ids by the generator.
pub(crate) fn choose<G: Rng>(
    generator: &mut G,
    first_pick: Option<BlockId>,
    ids: &[BlockId],
) -> BlockId
    requires { 0 < length ids.now }
    ensures chosen { MatchOption first_pick (is_id_in result ids.now ≡ true) (λ b. result ≡ b) }
    ensures drawn { first_pick ≡ None → IsDrawn ids.now (G.stream generator.old) result (G.stream generator.new) }
    ensures unasked { IfSome first_pick (λ _. generator.new ≡ generator.old) }
{
    match first_pick {
        Some(block) => block,
        None => draw(generator, ids),
    }
}
