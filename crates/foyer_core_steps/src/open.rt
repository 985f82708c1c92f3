//! Opening.
ghost use Rattle.std.specs.Prelude.{◌≡◌, ◌≢◌, ◌⊎◌, ◌<◌, ◌≤◌, ℕ, Bool, [], Err, IfOk, IfErr, IsOkUnless, length, map, replicate, true, vec_len};
ghost use Rattle.foyer_device_page.specs.declared.error.Error.TheVariants.{Memory, Config, Recover, SequenceEnd};
ghost use Rattle.foyer_io_disk.specs.Disk.{SurelyCame};
ghost use Rattle.foyer_core_steps.specs.Opened.{IsOpened, IsOpenedFrom, opened_sets};
ghost use Rattle.foyer_core_flusher.specs.Idle.{idle};
ghost use Rattle.foyer_core_flusher.specs.Seen.{seen};
ghost use Rattle.foyer_core_model.specs.Ids.{is_id_in, AreDistinct};
ghost use Rattle.foyer_block_recover.specs.Recovery.{IsRefused, marks_of, opened_of};
ghost use Rattle.foyer_block_recover.specs.Sources.{AreSources, sure_of};
ghost use Rattle.foyer_core_flusher.specs.Sizes.{AreValid, sizes_in};
ghost use Rattle.foyer_core_steps.specs.Showing.{HaveLearned};
ghost use Rattle.foyer_block_manager.specs.Shown.{evictable_below};
ghost use Rattle.foyer_core_flusher.specs.Standing.{IsManagedAs};

use crate::destroy::Destroy;
use crate::env::Env;
use crate::settings::Settings;
use crate::state::Core;
use foyer_block_index::manager::BlockId;
use foyer_block_index::tombstone::Tombstone;
use foyer_block_manager::block::eviction::EvictionPicker;
use foyer_block_manager::block::manager::{BlockManager, ManagerConfig};
use foyer_block_recover::block::listing::Listings;
pub use foyer_block_recover::block::recover::RecoverMode;
use foyer_block_recover::block::recover::{RecoverRunner, Recovered};
use foyer_core_flusher::flusher::Flusher;
use foyer_device_page::error::Result;
use foyer_io_disk::disk::Disk;
use foyer_policy_filter::StorageFilterCondition;
use std::alloc::Allocator;
use std::collections::HashMap;

/// Gives the recovery of a core's blocks in a mode. Error: `Config` if the settings don't go together.
pub fn runner_of(settings: &Settings, mode: RecoverMode) -> Result<RecoverRunner>
    ensures runner { IfOk result (λ r. r ≡ record {
      mode = mode;
      blocks = settings.now.blocks;
      block_size = settings.now.block_size;
      blob_index_size = settings.now.blob_index_size;
    }) }
    ensures sound { IfOk result (λ _. AreValid settings.now) }
    ensures refused { IfErr result (λ e. (e ≡ Config) × (AreValid settings.now → ⊥)) }
    ensures unsound { (AreValid settings.now → ⊥) → result ≡ Err Config }
{
    settings.check()?;
    Ok(RecoverRunner {
        mode,
        blocks: settings.blocks,
        block_size: settings.block_size,
        blob_index_size: settings.blob_index_size,
    })
}

// Gives as many flushers as the settings say, each with nothing.
fn idle_flushers<K: Drop, V: Drop, P: Drop, A: Allocator + Clone>(
    alloc: &A,
    settings: &Settings,
) -> Result<Vec<Flusher<K, V, P, A>, A>>
    requires { AreValid settings.now }
    ensures idle { IfOk result (λ φs. map seen φs.items ≡ replicate settings.now.flushers (idle settings.now)) }
    ensures count { IfOk result (λ φs. vec_len φs ≡ settings.now.flushers) }
    ensures refused { IsOkUnless result Memory }
{
    let mut flushers = Vec::with_capacity(alloc.clone()?, settings.flushers as usize)?;
    'each_flusher: for _ in 0..settings.flushers {
        flushers.push(Flusher::new(alloc, settings)?)?;
    }
    Ok(flushers)
}

// Gives a manager of blocks that were never handed out. The blocks of `clean` are clean, in this order. All others are evictable, and the
// pickers know them.
fn place_blocks<A: Allocator + Clone, E: EvictionPicker, C: StorageFilterCondition>(
    alloc: &A,
    env: &mut Env<E, C>,
    settings: &Settings,
    clean: &[BlockId],
) -> Result<BlockManager<A>>
    requires once { AreDistinct clean.now }
    requires there { (b : ℕ) → is_id_in b clean.now ≡ true → b < settings.now.blocks }
    ensures placed { IfOk result (λ manager. IsManagedAs settings.now manager (opened_sets settings.now.blocks clean.now)) }
    ensures shown { IfOk result (λ manager. HaveLearned E.begins E.learns settings.now.blocks settings.now.block_size
        (evictable_below manager.blocks (length manager.blocks)) env.old.pickers.items env.new.pickers.items) }
    ensures lent { (env.new.reinsertion ≡ env.old.reinsertion) × (env.new.io ≡ env.old.io) }
    ensures refused { IsOkUnless result Memory }
{
    let mut manager = BlockManager::open(
        alloc,
        ManagerConfig {
            blocks: settings.blocks,
            block_size: settings.block_size,
            flushers: settings.flushers,
            reclaimers: settings.reclaimers as usize,
            clean_threshold: settings.clean_block_threshold,
        },
    )?;
    env.init(settings.blocks, settings.block_size)?;
    match manager.init(alloc, &mut env.pickers, clean) {
        Ok(()) => Ok(manager),
        Err(error) => Err(error),
    }
}

impl<K: Drop, V: Drop, P: Drop, A: Allocator + Clone> Core<K, V, P, A> {
    ghost use Rattle.foyer_block_recover.specs.declared.block.recover.RecoverMode.TheVariants as recover_mode;

    /// Opens a core with what is found in the disk's blocks and with the marks of deletes. For each hash, the core has the newest entry
    /// found, unless a mark of the hash is as new or newer. Its next sequence is one more than the greatest of an entry or a mark. Its
    /// clean blocks are those that keep nothing, in the order of their ids. In `None` no block is read, and all blocks are clean. Marks
    /// count in every mode. The pickers learn of the blocks. Nothing is written.
    ///
    /// A read of an index doesn't fail if the disk surely has its range. It doesn't fail either if the range surely lies in the disk, and
    /// the disk's count of faults doesn't change. The count must be below 2^64 - 1.
    ///
    /// Errors: `Config` if the settings don't go together, before anything is read; `Recover` if a read failed in `Strict`; `SequenceEnd`
    /// if what was found, or a mark, has the last sequence; `Memory` at any time. No other bytes make the opening fail. After an error the
    /// pickers may know the blocks.
    pub fn open<D: Disk, E: EvictionPicker, C: StorageFilterCondition>(
        alloc: A,
        env: &mut Env<E, C>,
        settings: Settings,
        disk: &mut D,
        mode: RecoverMode,
        marks: &[Tombstone],
    ) -> Result<Core<K, V, P, A>>
        ensures opened { IfOk result (IsOpenedFrom settings (D.byte_at disk.old)
            (SurelyCame (D.surely_has disk.old) (D.surely_lies disk.old) (D.faults disk.old) (D.faults disk.new)) mode (marks_of marks.now)
            ((mode ≡ recover_mode.None) ⊎ D.is_known disk.old)) }
        ensures shown { IfOk result (λ core. HaveLearned E.begins E.learns settings.blocks settings.block_size
            (evictable_below core.manager.blocks (length core.manager.blocks)) env.old.pickers.items env.new.pickers.items) }
        ensures lent { (env.new.reinsertion ≡ env.old.reinsertion) × (env.new.io ≡ env.old.io) }
        ensures sound { IfOk result (λ _. AreValid settings) }
        ensures refused { IfErr result (λ e. (e ≡ Memory) ⊎ ((e ≡ Config) × (AreValid settings → ⊥))
            ⊎ ((e ≡ Recover) × (mode ≡ recover_mode.Strict)) ⊎ ((e ≡ SequenceEnd) × (mode ≡ recover_mode.None → marks.now ≢ []))) }
        ensures cause { AreValid settings → (mode ≡ recover_mode.None) ⊎ D.is_known disk.old → IfErr result
            (IsRefused (sizes_in settings) settings.blocks (D.byte_at disk.old)
            (SurelyCame (D.surely_has disk.old) (D.surely_lies disk.old) (D.faults disk.old) (D.faults disk.new)) mode (marks_of marks.now)) }
        ensures unsound { (AreValid settings → ⊥) → result ≡ Err Config }
        ensures unread { mode ≡ recover_mode.None → disk.new ≡ disk.old }
        ensures known { D.is_known disk.old → D.is_known disk.new }
        ensures same { D.byte_at disk.new ≡ D.byte_at disk.old }
        ensures has { (b o n : ℕ) → D.surely_has disk.old b o n → D.surely_has disk.new b o n }
        ensures lies { (b o n : ℕ) → D.surely_lies disk.old b o n → D.surely_lies disk.new b o n }
        ensures counted { D.faults disk.old ≤ D.faults disk.new }
    {
        let runner = runner_of(&settings, mode)?;
        let recovered = match runner.run(&alloc, disk, settings.indexer_shards, marks) {
            Ok(recovered) => recovered,
            Err(error) => return Err(error),
        };
        Core::begin(alloc, env, settings, recovered)
    }

    /// The same as `open`, with what the workers of a recovery listed, as `RecoverRunner::run_with` has it. A block that has a listing of
    /// these sizes isn't read again. Take any bytes that the listings list, together with the disk's bytes of the other blocks: the core is
    /// opened with these bytes.
    pub fn open_with<D: Disk, E: EvictionPicker, C: StorageFilterCondition>(
        alloc: A,
        env: &mut Env<E, C>,
        settings: Settings,
        disk: &mut D,
        mode: RecoverMode,
        marks: &[Tombstone],
        listings: Listings<A, D>,
    ) -> Result<Core<K, V, P, A>>
        ensures opened { (bytes : ℕ → ℕ → ℕ) (failed : ℕ → ℕ → Bool)
            → AreSources (sizes_in settings) settings.blocks listings.slots.items bytes (D.byte_at disk.old) failed
            → IfOk result (IsOpenedFrom settings bytes (sure_of (sizes_in settings) listings.slots.items failed
            (SurelyCame (D.surely_has disk.old) (D.surely_lies disk.old) (D.faults disk.old) (D.faults disk.new))) mode (marks_of marks.now)
            ((mode ≡ recover_mode.None) ⊎ D.is_known disk.old)) }
        ensures some { IfOk result (IsOpenedFrom settings (D.byte_at disk.old)
            (SurelyCame (D.surely_has disk.old) (D.surely_lies disk.old) (D.faults disk.old) (D.faults disk.new)) mode (marks_of marks.now) ⊥) }
        ensures shown { IfOk result (λ core. HaveLearned E.begins E.learns settings.blocks settings.block_size
            (evictable_below core.manager.blocks (length core.manager.blocks)) env.old.pickers.items env.new.pickers.items) }
        ensures lent { (env.new.reinsertion ≡ env.old.reinsertion) × (env.new.io ≡ env.old.io) }
        ensures sound { IfOk result (λ _. AreValid settings) }
        ensures refused { IfErr result (λ e. (e ≡ Memory) ⊎ ((e ≡ Config) × (AreValid settings → ⊥))
            ⊎ ((e ≡ Recover) × (mode ≡ recover_mode.Strict)) ⊎ ((e ≡ SequenceEnd) × (mode ≡ recover_mode.None → marks.now ≢ []))) }
        ensures cause { (bytes : ℕ → ℕ → ℕ) (failed : ℕ → ℕ → Bool) → AreValid settings → (mode ≡ recover_mode.None) ⊎ D.is_known disk.old
            → AreSources (sizes_in settings) settings.blocks listings.slots.items bytes (D.byte_at disk.old) failed
            → IfErr result (IsRefused (sizes_in settings) settings.blocks bytes (sure_of (sizes_in settings) listings.slots.items failed
            (SurelyCame (D.surely_has disk.old) (D.surely_lies disk.old) (D.faults disk.old) (D.faults disk.new))) mode (marks_of marks.now)) }
        ensures unsound { (AreValid settings → ⊥) → result ≡ Err Config }
        ensures unread { mode ≡ recover_mode.None → disk.new ≡ disk.old }
        ensures known { D.is_known disk.old → D.is_known disk.new }
        ensures same { D.byte_at disk.new ≡ D.byte_at disk.old }
        ensures has { (b o n : ℕ) → D.surely_has disk.old b o n → D.surely_has disk.new b o n }
        ensures lies { (b o n : ℕ) → D.surely_lies disk.old b o n → D.surely_lies disk.new b o n }
        ensures counted { D.faults disk.old ≤ D.faults disk.new }
    {
        let runner = runner_of(&settings, mode)?;
        let shards = settings.indexer_shards;
        let recovered = match runner.run_with(&alloc, disk, shards, marks, listings) {
            Ok(recovered) => recovered,
            Err(error) => return Err(error),
        };
        Core::begin(alloc, env, settings, recovered)
    }

    // The core that begins with what was recovered. The pickers learn of the blocks.
    fn begin<E: EvictionPicker, C: StorageFilterCondition>(
        alloc: A,
        env: &mut Env<E, C>,
        settings: Settings,
        recovered: Recovered<A>,
    ) -> Result<Core<K, V, P, A>>
        requires sound { AreValid settings }
        requires once { AreDistinct recovered.clean.items }
        requires there { (b : ℕ) → is_id_in b recovered.clean.items ≡ true → b < settings.blocks }
        ensures opened { IfOk result (IsOpened settings (opened_of recovered)) }
        ensures shown { IfOk result (λ core. HaveLearned E.begins E.learns settings.blocks settings.block_size
            (evictable_below core.manager.blocks (length core.manager.blocks)) env.old.pickers.items env.new.pickers.items) }
        ensures lent { (env.new.reinsertion ≡ env.old.reinsertion) × (env.new.io ≡ env.old.io) }
        ensures refused { IsOkUnless result Memory }
    {
        let Recovered { index, next, clean } = recovered;
        let flushers = idle_flushers(&alloc, &settings)?;
        let manager = place_blocks(&alloc, env, &settings, &clean)?;
        let reclaims = HashMap::new(alloc.clone()?);
        Ok(Core {
            alloc,
            settings,
            index,
            next,
            steps: 0,
            closed: false,
            queued: 0,
            flushers,
            manager,
            reclaims,
            destroy: Destroy::Absent,
        })
    }
}
