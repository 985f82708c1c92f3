//! Runs that begin with an opened core, and what the laws say of them.
ghost use Rattle.std.specs.Prelude.{◌≡◌, ◌≢◌, ◌⊎◌, ◌≤◌, ◌*◌, ◌^◌, ℕ, [], Err, IfOk, IfErr};
ghost use Rattle.foyer_io_disk.specs.Disk.{SurelyCame};
ghost use Rattle.foyer_device_page.specs.declared.error.Error.TheVariants.{Config, Memory, OutOfRange, Recover, SequenceEnd};
ghost use Rattle.foyer_block_recover.specs.Recovery.{marks_of};
ghost use Rattle.foyer_block_recover.specs.declared.block.recover.RecoverMode.TheVariants as recover_mode;
ghost use Rattle.foyer_core_laws.specs.Content.{meaning};
ghost use Rattle.foyer_core_laws.specs.Sizes.{AreValid};
ghost use Rattle.foyer_core_run.specs.Lawful.{IsLawfulEmpty, IsLawfulFrom};
ghost use Rattle.foyer_core_run.specs.Texts.{of_texts};

use crate::moves::{Move, run};
use foyer_block_index::tombstone::Tombstone;
use foyer_block_manager::block::eviction::EvictionPicker;
use foyer_core_steps::apply::Env;
use foyer_core_steps::open::RecoverMode;
use foyer_core_steps::reply::Reply;
use foyer_core_steps::settings::Settings;
use foyer_core_steps::state::Core;
use foyer_device_page::error::Result;
use foyer_format_record::serde::{Code, Properties};
use foyer_io_blocks::memory::MemoryDisk;
use foyer_io_disk::disk::Disk;
use foyer_policy_filter::StorageFilterCondition;
use std::alloc::{Allocator, Global};

/// Opens a core with what the disk's blocks give in the mode, and with the marks of deletes. Then runs the moves over the core with `env`,
/// and gives their replies. Errors: `Config` if the settings don't go together; `Recover` if a read failed in `Strict`; `SequenceEnd` if
/// what was found, or a mark, has the last sequence; `Memory` at any time.
///
/// If the disk's bytes are known, the replies are those of a run of the model that began with what was found over them. An entry that a
/// load answers was newest of its hash at the look-up. The newest put of a hash is answered, or is missed for a named cause. Each put was
/// found at the opening, or is of a piece that was enqueued.
pub fn open_and_run<K, V, P, A, D, E, C>(
    alloc: A,
    env: &mut Env<E, C>,
    settings: Settings,
    disk: &mut D,
    mode: RecoverMode,
    marks: &[Tombstone],
    moves: Vec<Move<K, V, P, A>, A>,
) -> Result<Vec<Reply<K, V, P, A>, A>>
where
    K: Code<A> + Drop,
    V: Code<A> + Drop,
    P: Properties + Drop,
    A: Allocator + Clone,
    D: Disk,
    E: EvictionPicker,
    C: StorageFilterCondition,
    ensures sound { IfOk result (λ _. AreValid settings) }
    ensures refused { IfErr result (λ e. (e ≡ Memory) ⊎ ((e ≡ Config) × (AreValid settings → ⊥))
        ⊎ ((e ≡ Recover) × (mode ≡ recover_mode.Strict)) ⊎ ((e ≡ SequenceEnd) × (mode ≡ recover_mode.None → marks.now ≢ []))) }
    ensures unsound { (AreValid settings → ⊥) → result ≡ Err Config }
    ensures lawful { D.is_known disk.old → IfOk result (λ replies. (sound : AreValid settings) (bytes : ℕ → ℕ → ℕ)
        → ((b o : ℕ) → bytes b o ≡ D.byte_at disk.old b o) → IsLawfulFrom
        (meaning K.encoding V.encoding K.is_encodable V.is_encodable K.is_decodable V.is_decodable P.age)
        settings sound bytes (D.byte_at disk.old) (SurelyCame (D.surely_has disk.old) (D.surely_lies disk.old) (D.faults disk.old) (D.faults disk.new)) mode (marks_of marks.now) moves.items replies.items) }
{
    let mut core = Core::open(alloc, env, settings, disk, mode, marks)?;
    let replies = run(&mut core, env, disk, moves)?;
    Ok(replies)
}

/// Opens a core over zeroed memory in the mode `None`, without marks, and runs the moves as `open_and_run` does, with the default pickers.
/// Keys are numbers, and values are texts. Errors: `Memory`; `Config` if the settings don't go together; `OutOfRange` if the blocks have
/// 2^64 bytes or more.
pub fn run_texts<P: Properties + Drop>(
    alloc: Global,
    settings: Settings,
    moves: Vec<Move<u64, String<Global>, P, Global>, Global>,
) -> Result<Vec<Reply<u64, String<Global>, P, Global>, Global>>
    ensures sound { IfOk result (λ _. AreValid settings) }
    ensures refused { IfErr result (λ e. (e ≡ Memory) ⊎ ((e ≡ Config) × (AreValid settings → ⊥))
        ⊎ ((e ≡ OutOfRange) × (2 ^ 64 ≤ settings.blocks * settings.block_size))) }
    ensures lawful { IfOk result (λ replies. (sound : AreValid settings)
        → IsLawfulEmpty (of_texts P.age) settings sound (λ b o. 0) moves.items replies.items) }
{
    let mut disk = MemoryDisk::new(alloc, settings.blocks, settings.block_size)?;
    let mut env = Env::with_default_pickers(alloc, 0)?;
    open_and_run(
        alloc,
        &mut env,
        settings,
        &mut disk,
        RecoverMode::None,
        &[],
        moves,
    )
}
