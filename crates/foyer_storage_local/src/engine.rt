//! The engine: a core over a disk, with a log of deletes or without one, driven on one thread.
ghost use Rattle.std.specs.Prelude.{◌≡◌, ◌≢◌, ◌⊎◌, ◌≤◌, ◌*◌, ◌^◌, ℕ, [], length, IfOk, IfErr};
ghost use Rattle.foyer_io_disk.specs.Disk.{SurelyCame};
ghost use Rattle.foyer_device_page.specs.declared.error.Error.TheVariants.{Config, Memory, OutOfRange, Recover, SequenceEnd};
ghost use Rattle.foyer_block_manager.specs.Shown.{evictable_below};
ghost use Rattle.foyer_block_recover.specs.Recovery.{marks_of};
ghost use Rattle.foyer_block_recover.specs.declared.block.recover.RecoverMode.TheVariants as recover_mode;
ghost use Rattle.foyer_core_laws.specs.Content.{meaning};
ghost use Rattle.foyer_core_laws.specs.Sizes.{AreValid};
ghost use Rattle.foyer_core_run.specs.Begun.{IsBegun, IsBegunEmpty};
ghost use Rattle.foyer_core_steps.specs.Showing.{HaveLearned};

use foyer_block_index::tombstone::Tombstone;
use foyer_block_manager::block::eviction::{BuiltInPicker, EvictionPicker};
pub use foyer_block_tombstone::block::tombstone::{MarkLog, NoLog};
use foyer_core_steps::apply::Env;
use foyer_core_steps::open::RecoverMode;
use foyer_core_steps::settings::Settings;
use foyer_core_steps::state::Core;
use foyer_device_page::error::Result;
use foyer_device_statistics::IoState;
use foyer_format_record::serde::{Code, Properties};
use foyer_io_blocks::memory::MemoryDisk;
use foyer_io_disk::disk::Disk;
use foyer_policy_filter::{BuiltInCondition, StorageFilter, StorageFilterCondition};
use std::alloc::{Allocator, Global};

mod calls;
mod destroy;
mod wait;

/// A core with its disk, its log of deletes and its hasher. Contracts say something about the disk's bytes only if these are known. The
/// bytes of memory are known, those of a system's files aren't.
pub struct LocalEngine<
    K,
    V,
    P,
    H: Drop,
    A: Allocator,
    D: Disk + Drop,
    L: MarkLog + Drop,
    E: EvictionPicker = BuiltInPicker,
    C: StorageFilterCondition = BuiltInCondition,
> {
    alloc: A,
    hasher: H,
    core: Core<K, V, P, A>,
    env: Env<E, C>,
    disk: D,
    log: L,
    // What a load reads into.
    spare: Vec<u8, A>,
    next_wait: u64,
    // How many reclaims of this call may still have records written again.
    rereads: u32,
}

// Written out, so that it is proved once.
impl<
    K: Drop,
    V: Drop,
    P: Drop,
    H: Drop,
    A: Allocator,
    D: Disk + Drop,
    L: MarkLog + Drop,
    E: EvictionPicker,
    C: StorageFilterCondition,
> Drop for LocalEngine<K, V, P, H, A, D, L, E, C> {
    fn drop(self) {
        let LocalEngine {
            alloc: _,
            hasher: _,
            core: _,
            env: _,
            disk: _,
            log: _,
            spare: _,
            next_wait: _,
            rereads: _,
        } = self;
    }
}

impl<K, V, P, H, A, E, C> LocalEngine<K, V, P, H, A, MemoryDisk<A>, NoLog, E, C>
where
    K: Code<A> + Drop,
    V: Code<A> + Drop,
    P: Properties + Drop,
    H: Drop,
    A: Allocator + Clone,
    E: EvictionPicker,
    C: StorageFilterCondition,
{
    /// Opens an engine over zeroed memory that has every block, in the mode `None` and without a log of deletes. `env` has its pickers, its
    /// generator and its filter. Errors: `Config` if the settings don't go together; `OutOfRange` if the blocks have 2^64 bytes or more;
    /// `Memory` at any time.
    pub fn open(
        alloc: A,
        hasher: H,
        env: Env<E, C>,
        settings: Settings,
    ) -> Result<LocalEngine<K, V, P, H, A, MemoryDisk<A>, NoLog, E, C>>
        ensures sound { IfOk result (λ _. AreValid settings) }
        ensures begins { IfOk result (λ engine. (sound : AreValid settings) → IsBegunEmpty
            (meaning K.encoding V.encoding K.is_encodable V.is_encodable K.is_decodable V.is_decodable P.age)
            settings sound (λ b o. 0) engine.core (⟦<MemoryDisk<A> as Disk>⟧.byte_at engine.disk)) }
        ensures refused { IfErr result (λ e. (e ≡ Memory) ⊎ ((e ≡ Config) × (AreValid settings → ⊥))
            ⊎ ((e ≡ OutOfRange) × (2 ^ 64 ≤ settings.blocks * settings.block_size))) }
        ensures disk { IfOk result (λ engine. (engine.disk.blocks ≡ settings.blocks)
            × (engine.disk.block_size ≡ settings.block_size)) }
        ensures shown { IfOk result (λ engine. HaveLearned E.begins E.learns settings.blocks settings.block_size
            (evictable_below engine.core.manager.blocks (length engine.core.manager.blocks)) env.pickers.items engine.env.pickers.items) }
        ensures lent { IfOk result (λ engine. (engine.env.reinsertion ≡ env.reinsertion) × (engine.env.io ≡ env.io)) }
        ensures hasher { IfOk result (λ engine. engine.hasher ≡ hasher) }
    {
        let disk = MemoryDisk::new(alloc.clone()?, settings.blocks, settings.block_size)?;
        LocalEngine::with_disk(alloc, hasher, env, settings, disk, RecoverMode::None)
    }
}

impl<K, V, P, H, A, D, E, C> LocalEngine<K, V, P, H, A, D, NoLog, E, C>
where
    K: Code<A> + Drop,
    V: Code<A> + Drop,
    P: Properties + Drop,
    H: Drop,
    A: Allocator + Clone,
    D: Disk + Drop,
    E: EvictionPicker,
    C: StorageFilterCondition,
{
    /// Opens an engine with what the disk's blocks give in the mode. It has no log of deletes, so the next opening may forget a delete.
    /// `env` has its pickers, its generator and its filter. Errors: `Config` if the settings don't go together; `Recover` if a read failed
    /// in `Strict`; `SequenceEnd` if what was found has the last sequence; `Memory` at any time.
    pub fn with_disk(
        alloc: A,
        hasher: H,
        env: Env<E, C>,
        settings: Settings,
        disk: D,
        mode: RecoverMode,
    ) -> Result<LocalEngine<K, V, P, H, A, D, NoLog, E, C>>
        ensures sound { IfOk result (λ _. AreValid settings) }
        ensures begins { IfOk result (λ engine. (sound : AreValid settings) → IsBegun
            (meaning K.encoding V.encoding K.is_encodable V.is_encodable K.is_decodable V.is_decodable P.age)
            settings sound (D.byte_at disk)
            (SurelyCame (D.surely_has disk) (D.surely_lies disk) (D.faults disk) (D.faults engine.disk)) mode []
            ((mode ≡ recover_mode.None) ⊎ D.is_known disk) engine.core (D.byte_at engine.disk)) }
        ensures refused { IfErr result (λ e. (e ≡ Memory) ⊎ ((e ≡ Config) × (AreValid settings → ⊥))
            ⊎ ((e ≡ Recover) × (mode ≡ recover_mode.Strict)) ⊎ ((e ≡ SequenceEnd) × (mode ≢ recover_mode.None))) }
        ensures unread { IfOk result (λ engine. mode ≡ recover_mode.None → engine.disk ≡ disk) }
        ensures known { IfOk result (λ engine. D.is_known disk → D.is_known engine.disk) }
        ensures has { IfOk result (λ engine. (b o n : ℕ) → D.surely_has disk b o n → D.surely_has engine.disk b o n) }
        ensures shown { IfOk result (λ engine. HaveLearned E.begins E.learns settings.blocks settings.block_size
            (evictable_below engine.core.manager.blocks (length engine.core.manager.blocks)) env.pickers.items engine.env.pickers.items) }
        ensures lent { IfOk result (λ engine. (engine.env.reinsertion ≡ env.reinsertion) × (engine.env.io ≡ env.io)) }
        ensures lies { IfOk result (λ engine. (b o n : ℕ) → D.surely_lies disk b o n → D.surely_lies engine.disk b o n) }
        ensures counted { IfOk result (λ engine. D.faults disk ≤ D.faults engine.disk) }
        ensures hasher { IfOk result (λ engine. engine.hasher ≡ hasher) }
    {
        LocalEngine::with_log(alloc, hasher, env, settings, disk, mode, &[], NoLog)
    }
}

impl<K, V, P, H, A, D, L, E, C> LocalEngine<K, V, P, H, A, D, L, E, C>
where
    K: Code<A> + Drop,
    V: Code<A> + Drop,
    P: Properties + Drop,
    H: Drop,
    A: Allocator + Clone,
    D: Disk + Drop,
    L: MarkLog + Drop,
    E: EvictionPicker,
    C: StorageFilterCondition,
{
    /// Opens an engine with what the disk's blocks give in the mode, and with the marks of deletes that its log has listed. `env` has its
    /// pickers, its generator and its filter. The marks of each batch are appended to the log before the batch ends, even if the settings
    /// ask for no log. A batch whose append fails ends all the same, so its deletes may be forgotten by the next opening. Errors: `Config`
    /// if the settings don't go together; `Recover` if a read failed in `Strict`; `SequenceEnd` if what was found, or a mark, has the last
    /// sequence; `Memory` at any time.
    pub fn with_log(
        alloc: A,
        hasher: H,
        mut env: Env<E, C>,
        settings: Settings,
        mut disk: D,
        mode: RecoverMode,
        marks: &[Tombstone],
        log: L,
    ) -> Result<LocalEngine<K, V, P, H, A, D, L, E, C>>
        ensures sound { IfOk result (λ _. AreValid settings) }
        ensures begins { IfOk result (λ engine. (sound : AreValid settings) → IsBegun
            (meaning K.encoding V.encoding K.is_encodable V.is_encodable K.is_decodable V.is_decodable P.age)
            settings sound (D.byte_at disk)
            (SurelyCame (D.surely_has disk) (D.surely_lies disk) (D.faults disk) (D.faults engine.disk)) mode (marks_of marks.now)
            ((mode ≡ recover_mode.None) ⊎ D.is_known disk) engine.core (D.byte_at engine.disk)) }
        ensures refused { IfErr result (λ e. (e ≡ Memory) ⊎ ((e ≡ Config) × (AreValid settings → ⊥))
            ⊎ ((e ≡ Recover) × (mode ≡ recover_mode.Strict)) ⊎ ((e ≡ SequenceEnd) × (mode ≡ recover_mode.None → marks.now ≢ []))) }
        ensures unread { IfOk result (λ engine. mode ≡ recover_mode.None → engine.disk ≡ disk) }
        ensures known { IfOk result (λ engine. D.is_known disk → D.is_known engine.disk) }
        ensures has { IfOk result (λ engine. (b o n : ℕ) → D.surely_has disk b o n → D.surely_has engine.disk b o n) }
        ensures shown { IfOk result (λ engine. HaveLearned E.begins E.learns settings.blocks settings.block_size
            (evictable_below engine.core.manager.blocks (length engine.core.manager.blocks)) env.pickers.items engine.env.pickers.items) }
        ensures lent { IfOk result (λ engine. (engine.env.reinsertion ≡ env.reinsertion) × (engine.env.io ≡ env.io)) }
        ensures lies { IfOk result (λ engine. (b o n : ℕ) → D.surely_lies disk b o n → D.surely_lies engine.disk b o n) }
        ensures counted { IfOk result (λ engine. D.faults disk ≤ D.faults engine.disk) }
        ensures log { IfOk result (λ engine. engine.log ≡ log) }
        ensures hasher { IfOk result (λ engine. engine.hasher ≡ hasher) }
    {
        let core = Core::open(alloc.clone()?, &mut env, settings, &mut disk, mode, marks)?;
        Ok(LocalEngine {
            core,
            hasher,
            env,
            disk,
            log,
            spare: Vec::new(alloc.clone()?),
            next_wait: 0,
            rereads: 0,
            alloc,
        })
    }

    /// Sets the filter of reinsertions, or none, and gives the one before. From now on, reclaims queue the records that the filter admits,
    /// to be written again.
    pub fn set_reinsertion(
        &mut self,
        filter: Option<StorageFilter<C, Global>>,
    ) -> Option<StorageFilter<C, Global>>
        ensures before { result ≡ self.old.env.reinsertion }
        ensures set { self.new ≡ record self.old { env = record self.old.env { reinsertion = filter } } }
    {
        self.env.replace_reinsertion(filter)
    }

    /// Sets what the filter is passed from now on: what the device did, and how long it makes callers wait.
    pub fn set_io(&mut self, io: IoState)
        ensures { self.new ≡ record self.old { env = record self.old.env { io = io } } }
    {
        self.env.set_io(io);
    }

    /// The disk and the log, for another opening. What isn't written is dropped.
    pub fn into_parts(self) -> (D, L)
        ensures { (result.0 ≡ self.disk) × (result.1 ≡ self.log) }
    {
        let LocalEngine {
            alloc: _,
            hasher: _,
            core: _,
            env: _,
            disk,
            log,
            spare: _,
            next_wait: _,
            rereads: _,
        } = self;
        (disk, log)
    }

    /// Gives the allocator that its memory comes from.
    pub fn allocator(&self) -> &A
        ensures { result.now ≡ self.now.alloc }
    {
        &self.alloc
    }

    /// Gives the settings that the engine was opened with.
    pub fn settings(&self) -> Settings
        ensures { result ≡ self.now.core.settings }
    {
        self.core.settings()
    }
}
