//! What callers pass to a core by `&mut`.
ghost use Rattle.std.specs.Prelude.{◌≡◌, [], ◌∷◌, None, Some, OnOk, IfOk, IsOkUnless};
ghost use Rattle.foyer_device_page.specs.declared.error.Error.TheVariants.{Memory};
ghost use Rattle.foyer_core_steps.specs.Lent.{IsNoIo, generator_of};
ghost use Rattle.foyer_core_model.specs.Ids.{ids};
ghost use Rattle.foyer_block_manager.specs.Shown.{AreChanged};
ghost use Rattle.foyer_block_manager.specs.declared.block.picker.BuiltInPicker.TheVariants as picker;

use foyer_block_index::manager::BlockId;
use foyer_block_manager::block::eviction::{
    BuiltInPicker, EvictionPicker, FifoPicker, InvalidRatioPicker, init_all,
};
use foyer_device_page::error::Result;
use foyer_device_statistics::IoState;
use foyer_policy_filter::{BuiltInCondition, StorageFilter, StorageFilterCondition};
use rand_pcg::Pcg32;
use std::alloc::Global;
use std::mem;
use std::time::Duration;

/// What callers pass to the core, by `&mut`, at its opening and at each step. The pickers are asked, in their order, which block is
/// reclaimed next. If none of them picks an evictable block, the generator chooses. The filter says which records of a reclaimed block are
/// queued to be written again. Pickers and conditions are those of this project, or the caller's own types, also boxed ones
/// (`foyer_block_manager`'s `AnyPicker`, `foyer_policy_filter`'s `AnyCondition`).
pub struct Env<E: EvictionPicker = BuiltInPicker, C: StorageFilterCondition = BuiltInCondition> {
    pub(crate) pickers: Vec<E>,
    // The ids that pickers learn of, or put on probation.
    pub(crate) own: Vec<BlockId>,
    pub(crate) generator: Pcg32,
    // Admits the records of a reclaimed block for reinsertion. Without it, no record is admitted.
    pub(crate) reinsertion: Option<StorageFilter<C, Global>>,
    // What the device did, and how long it makes callers wait, as it is passed to the filter.
    pub(crate) io: IoState,
}

// Written out, so that it is proved once.
impl<E: EvictionPicker, C: StorageFilterCondition> Drop for Env<E, C> {
    fn drop(self) {
        let Env {
            pickers: _,
            own: _,
            generator: _,
            reinsertion: _,
            io: _,
        } = self;
    }
}

/// Gives the state of a device that did nothing and makes no caller wait. A filter is passed this state if nobody set another.
pub fn no_io() -> IoState
    ensures { IsNoIo result }
{
    IoState {
        disk_write_bytes: 0,
        disk_read_bytes: 0,
        disk_write_ios: 0,
        disk_read_ios: 0,
        write_throttle: Duration::ZERO,
        read_throttle: Duration::ZERO,
        last_write_error: 0,
        last_read_error: 0,
    }
}

impl Env<BuiltInPicker, BuiltInCondition> {
    /// Gives an `Env` with the default pickers, a generator with this seed, and no filter. The first picker picks by invalid bytes, from
    /// 8/10 of a block on. The second picks by age, and puts the oldest blocks on probation while fewer than a tenth of all are clean.
    /// Errors: `Memory` alone.
    pub fn with_default_pickers(alloc: Global, seed: u64) -> Result<Env>
        ensures pickers { IfOk result (λ env. env.pickers.items
            ≡ picker.InvalidRatio (record { num = 8; den = 10; block_size = 0 })
            ∷ picker.Fifo (record { num = 1; den = 10; queue = []; room = 0; probations = 0 }) ∷ []) }
        ensures generator { IfOk result (λ env. env.generator ≡ generator_of seed) }
        ensures reinsertion { IfOk result (λ env. env.reinsertion ≡ None) }
        ensures io { IfOk result (λ env. IsNoIo env.io) }
        ensures refused { IsOkUnless result Memory }
    {
        let mut pickers = Vec::new(alloc);
        pickers.push(BuiltInPicker::InvalidRatio(InvalidRatioPicker::new(8, 10)))?;
        pickers.push(BuiltInPicker::Fifo(FifoPicker::default()))?;
        Ok(Env::new(alloc, pickers, seed))
    }
}

impl<E: EvictionPicker> Env<E, BuiltInCondition> {
    /// Gives an `Env` with these pickers, in this order, a generator with this seed, and no filter: no record is written again. It doesn't
    /// allocate.
    pub fn new(alloc: Global, pickers: Vec<E>, seed: u64) -> Env<E, BuiltInCondition>
        ensures pickers { result.pickers ≡ pickers }
        ensures generator { result.generator ≡ generator_of seed }
        ensures reinsertion { result.reinsertion ≡ None }
        ensures io { IsNoIo result.io }
    {
        let own = Vec::new(alloc);
        Env {
            pickers,
            own,
            generator: Pcg32::new(seed, seed),
            reinsertion: None,
            io: no_io(),
        }
    }
}

impl<E: EvictionPicker, C: StorageFilterCondition> Env<E, C> {
    /// Sets the filter that is asked about each listed entry of a reclaimed block, with its hash and its record's length in bytes. A record
    /// that it admits is read, and queued to be written again with its sequence.
    pub fn with_reinsertion<F: StorageFilterCondition>(
        self,
        filter: StorageFilter<F, Global>,
    ) -> Env<E, F>
        ensures pickers { result.pickers ≡ self.pickers }
        ensures generator { result.generator ≡ self.generator }
        ensures reinsertion { result.reinsertion ≡ Some filter }
        ensures io { result.io ≡ self.io }
    {
        let Env {
            pickers,
            own,
            generator,
            reinsertion: _,
            io,
        } = self;
        Env {
            pickers,
            own,
            generator,
            reinsertion: Some(filter),
            io,
        }
    }

    /// Sets this filter, or none, from now on, and gives the one before.
    pub fn replace_reinsertion(
        &mut self,
        filter: Option<StorageFilter<C, Global>>,
    ) -> Option<StorageFilter<C, Global>>
        ensures before { result ≡ self.old.reinsertion }
        ensures filter { self.new ≡ record self.old { reinsertion = filter } }
    {
        mem::replace(&mut self.reinsertion, filter)
    }

    /// Sets what the device did, and how long it makes callers wait. From now on the filter is passed this.
    pub fn set_io(&mut self, io: IoState)
        ensures { self.new ≡ record self.old { io = io } }
    {
        self.io = io;
    }

    // Puts the ids of this many blocks into the list `own`, in order.
    fn list_blocks(&mut self, blocks: u32) -> Result<()>
        ensures ids { OnOk result (self.new.own.items ≡ ids blocks) }
        ensures pickers { self.new.pickers ≡ self.old.pickers }
        ensures filter { (self.new.reinsertion ≡ self.old.reinsertion) × (self.new.io ≡ self.old.io) }
        ensures refused { IsOkUnless result Memory }
    {
        self.own.clear();
        'each_block: for block in 0..blocks {
            self.own.push(block)?;
        }
        Ok(())
    }

    // Calls `init` of each picker with the blocks of the list `own`.
    fn describe(&mut self, block_size: usize) -> Result<()>
        ensures begun { OnOk result (AreChanged (λ p q. E.begins p self.old.own.items block_size q)
            self.old.pickers.items self.new.pickers.items) }
        ensures own { self.new.own ≡ self.old.own }
        ensures filter { (self.new.reinsertion ≡ self.old.reinsertion) × (self.new.io ≡ self.old.io) }
        ensures refused { IsOkUnless result Memory }
    {
        let alloc = *self.own.allocator();
        init_all(&mut self.pickers, alloc, &self.own, block_size)
    }

    // Puts the ids of this many blocks into the list `own`, in order, and calls `init` of each picker with them. This precedes all other
    // calls of the pickers.
    pub(crate) fn init(&mut self, blocks: u32, block_size: usize) -> Result<()>
        ensures ids { OnOk result (self.new.own.items ≡ ids blocks) }
        ensures begun { OnOk result (AreChanged (λ p q. E.begins p (ids blocks) block_size q)
            self.old.pickers.items self.new.pickers.items) }
        ensures filter { (self.new.reinsertion ≡ self.old.reinsertion) × (self.new.io ≡ self.old.io) }
        ensures refused { IsOkUnless result Memory }
    {
        self.list_blocks(blocks)?;
        self.describe(block_size)
    }
}
