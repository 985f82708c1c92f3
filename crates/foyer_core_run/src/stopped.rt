//! Runs that are stopped, and cores that are opened on what they left.
ghost use Rattle.std.specs.Prelude.{◌≡◌, ◌≢◌, ◌⊎◌, ◌≤◌, ◌*◌, ◌^◌, ℕ, [], IfOk, IfErr};
ghost use Rattle.foyer_io_disk.specs.Disk.{IsWithin};
ghost use Rattle.foyer_core_steps.specs.Opened.{IsOpenedFrom};
ghost use Rattle.foyer_device_page.specs.declared.error.Error.TheVariants.{Config, Memory, OutOfRange, Recover, SequenceEnd};
ghost use Rattle.foyer_block_recover.specs.declared.block.recover.RecoverMode.TheVariants as recover_mode;
ghost use Rattle.foyer_core_laws.specs.Content.{meaning};
ghost use Rattle.foyer_core_laws.specs.Sizes.{AreValid};
ghost use Rattle.foyer_core_run.specs.Stopped.{IsRunOverZeros, IsReopenedRun};

use crate::moves::kept::Kept;
use crate::moves::{Move, run_noted};
use foyer_block_manager::block::eviction::EvictionPicker;
use foyer_core_steps::apply::Env;
use foyer_core_steps::open::RecoverMode;
use foyer_core_steps::reply::Reply;
use foyer_core_steps::settings::Settings;
use foyer_core_steps::state::Core;
use foyer_device_page::error::{Error, Result};
use foyer_format_record::serde::{Code, Properties};
use foyer_io_blocks::memory::MemoryDisk;
use foyer_io_disk::disk::Disk;
use foyer_policy_filter::StorageFilterCondition;
use std::alloc::Allocator;

/// What a stopped run left, and the core that was opened on it.
#[derive(Drop)]
pub struct Reopened<K, V, P, A: Allocator> {
    /// The replies of the run's steps.
    pub replies: Vec<Reply<K, V, P, A>, A>,
    /// Whether an access of the run failed: a read, a write or a clean.
    pub has_failed: bool,
    /// The core that was opened.
    pub core: Core<K, V, P, A>,
    /// The memory with the bytes that the run left.
    pub disk: MemoryDisk<A>,
}

// Opens a core over zeros in the mode `None`, runs the moves over it, and drops the core.
fn run_over_zeros<K, V, P, A, D, E, C>(
    alloc: A,
    env: &mut Env<E, C>,
    settings: Settings,
    disk: &mut D,
    moves: Vec<Move<K, V, P, A>, A>,
) -> Result<Kept<K, V, P, A>>
where
    K: Code<A> + Drop,
    V: Code<A> + Drop,
    P: Properties + Drop,
    A: Allocator + Clone,
    D: Disk,
    E: EvictionPicker,
    C: StorageFilterCondition,
    requires known { D.is_known disk.old }
    requires zeros { (b o : ℕ) → D.byte_at disk.old b o ≡ 0 }
    ensures sound { IfOk result (λ _. AreValid settings) }
    ensures refused { IfErr result (λ e. (e ≡ Memory) ⊎ ((e ≡ Config) × (AreValid settings → ⊥))) }
    ensures runs { IfOk result (λ kept. (sound : AreValid settings) → IsRunOverZeros
        (meaning K.encoding V.encoding K.is_encodable V.is_encodable K.is_decodable V.is_decodable P.age)
        settings sound kept.has_failed moves.items kept.replies.items (D.byte_at disk.new)) }
{
    let mut core = Core::open(alloc, env, settings, disk, RecoverMode::None, &[])?;
    let kept = run_noted(&mut core, env, disk, moves)?;
    Ok(kept)
}

// Opens a core on memory that a run left, whose blocks are all there.
fn reopen<K, V, P, A, E, C>(
    alloc: A,
    env: &mut Env<E, C>,
    settings: Settings,
    disk: &mut MemoryDisk<A>,
    mode: RecoverMode,
) -> Result<Core<K, V, P, A>>
where
    K: Drop,
    V: Drop,
    P: Drop,
    A: Allocator + Clone,
    E: EvictionPicker,
    C: StorageFilterCondition,
    ensures opened { IfOk result (IsOpenedFrom settings (⟦<MemoryDisk<A> as Disk>⟧.byte_at disk.old)
        (IsWithin settings.blocks settings.block_size) mode [] ((mode ≡ recover_mode.None) ⊎ Unit {0})) }
    ensures refused { IfErr result (λ e. (e ≡ Memory) ⊎ ((e ≡ Config) × (AreValid settings → ⊥))
        ⊎ (e ≡ Recover) ⊎ ((e ≡ SequenceEnd) × (mode ≢ recover_mode.None))) }
    ensures same { ⟦<MemoryDisk<A> as Disk>⟧.byte_at disk.new ≡ ⟦<MemoryDisk<A> as Disk>⟧.byte_at disk.old }
{
    if disk.blocks != settings.blocks || disk.block_size != settings.block_size {
        return Err(Error::Recover);
    }
    Core::open(alloc, env, settings, disk, mode, &[])
}

/// Opens a core over zeroed memory in the mode `None`, and runs the moves over it with `first`. Then stops: the core is dropped, and what
/// was issued and not done stays undone. Then opens a core of the same sizes in `mode`, on the bytes that are left, with `second`. Errors:
/// `Memory`; `Config` if the settings don't go together; `OutOfRange` if the blocks have 2^64 bytes or more; `SequenceEnd` if what was
/// found has the last sequence; `Recover` if the blocks can't be read, for which memory gives no cause.
///
/// The next claims hold if `mode` isn't `None`, the run's events went well, and the bytes have no stray index. A stray index is one that a
/// scan finds, and that the run didn't write or begin to write there. The new core has each address that the run's index had, or a newer
/// record of its hash. The exception is an address whose block was being written. If no flusher was writing a block, the new core has each
/// of these addresses. If it has one of them, the newest event of its hash is the one that was newest at the stop.
///
/// The run's events went well if no access failed, no reply is `Failed`, and no verdict of a reply admits an entry for
/// reinsertion. This is also true of runs with reclaims.
pub fn run_and_reopen<K, V, P, A, E, C>(
    alloc: A,
    first: &mut Env<E, C>,
    second: &mut Env<E, C>,
    settings: Settings,
    mode: RecoverMode,
    moves: Vec<Move<K, V, P, A>, A>,
) -> Result<Reopened<K, V, P, A>>
where
    K: Code<A> + Drop,
    V: Code<A> + Drop,
    P: Properties + Drop,
    A: Allocator + Clone,
    E: EvictionPicker,
    C: StorageFilterCondition,
    ensures sound { IfOk result (λ _. AreValid settings) }
    ensures refused { IfErr result (λ e. (e ≡ Memory) ⊎ ((e ≡ Config) × (AreValid settings → ⊥))
        ⊎ ((e ≡ OutOfRange) × (2 ^ 64 ≤ settings.blocks * settings.block_size))
        ⊎ (e ≡ Recover) ⊎ ((e ≡ SequenceEnd) × (mode ≢ recover_mode.None))) }
    ensures keeps { IfOk result (λ reopened. (sound : AreValid settings) → IsReopenedRun
        (meaning K.encoding V.encoding K.is_encodable V.is_encodable K.is_decodable V.is_decodable P.age)
        settings sound reopened.has_failed mode moves.items reopened.replies.items reopened.core
        (⟦<MemoryDisk<A> as Disk>⟧.byte_at reopened.disk)) }
{
    let mut disk = MemoryDisk::new(alloc.clone()?, settings.blocks, settings.block_size)?;
    let kept = run_over_zeros(alloc.clone()?, first, settings, &mut disk, moves)?;
    match reopen(alloc, second, settings, &mut disk, mode) {
        Ok(core) => Ok(Reopened {
            replies: kept.replies,
            has_failed: kept.has_failed,
            core,
            disk,
        }),
        Err(error) => Err(error),
    }
}
