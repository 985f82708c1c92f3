//! Runs of the core over a disk.
ghost use Rattle.std.specs.Prelude.{◌≡◌, ◌+◌, ◌≤◌, vec_len, OnOk, OnErr, IfOk, IfErr, ℕ};
ghost use Rattle.foyer_device_page.specs.declared.error.Error.TheVariants.{Memory};
ghost use Rattle.foyer_core_laws.specs.Content.{meaning};
ghost use Rattle.foyer_core_run.specs.Moves.{asked};
ghost use Rattle.foyer_core_run.specs.Causes.{HasCome};
ghost use Rattle.foyer_core_run.specs.Running.{AsksFreely, Moves};
ghost use Rattle.foyer_core_run.specs.Runs.{IsFront, Runs, RunsForCause, RunsNoted};

mod blocks;
pub(crate) mod kept;
mod loads;
mod steps;
pub(crate) mod writes;

use blocks::{destroy_cleaned, reclaim_cleaned, reclaim_read};
use foyer_block_index::manager::BlockId;
use foyer_block_manager::block::eviction::EvictionPicker;
use foyer_core_steps::apply::Env;
use foyer_core_steps::reply::Reply;
use foyer_core_steps::state::Core;
use foyer_core_steps::step::Step;
use foyer_device_page::error::Result;
use foyer_format_record::serde::{Code, Properties};
use foyer_io_disk::disk::Disk;
use foyer_policy_filter::StorageFilterCondition;
use foyer_policy_piece::keeper::PieceRef;
use kept::{Kept, begin};
use loads::load_end;
use std::alloc::{AllocError, Allocator};
use steps::apply_step;
use writes::{flush_block, flush_wrote};

/// A step without the disk's result: a run does the access that was issued, and reports the outcome by the step of the same name.
#[derive(Drop)]
pub enum Move<K, V, P, A: Allocator> {
    Enqueue {
        piece: PieceRef<K, V, P, A>,
        size: usize,
    },
    Delete {
        hash: u64,
    },
    Wait {
        flusher: u32,
        id: u64,
    },
    MayContains {
        hash: u64,
    },
    LoadBegin {
        hash: u64,
        throttled: bool,
    },
    /// Reads what this ticket of the run asked for; tickets are counted from 0.
    LoadEnd {
        ticket: usize,
    },
    Receive {
        flusher: u32,
    },
    FlushBegin {
        flusher: u32,
    },
    FlushBlock {
        flusher: u32,
    },
    /// Does the next write that was issued to this flusher.
    FlushWrote {
        flusher: u32,
    },
    /// Reports the outcome of the log.
    LogWrote {
        flusher: u32,
        result: Result<()>,
    },
    FlushEnd {
        flusher: u32,
    },
    ReclaimBegin,
    /// Reads the index or the record that the reclaim of this block is to read next.
    ReclaimRead {
        block: BlockId,
    },
    ReclaimForget {
        block: BlockId,
    },
    /// Cleans this block for its reclaim.
    ReclaimCleaned {
        block: BlockId,
    },
    ReclaimIdle,
    DestroyBegin,
    DestroyClear,
    /// Cleans this block for a destroy.
    DestroyCleaned {
        block: BlockId,
    },
    Close,
}

// What a move asks for.
#[derive(Drop)]
pub(crate) enum Asked<K, V, P, A: Allocator> {
    // A step that brings no result of an access, and issues no write.
    Step(Step<K, V, P, A>),
    FlushBlock(u32),
    LoadEnd(usize),
    FlushWrote(u32),
    ReclaimRead(BlockId),
    ReclaimCleaned(BlockId),
    DestroyCleaned(BlockId),
}

fn ask<K, V, P, A: Allocator>(x: Move<K, V, P, A>) -> Asked<K, V, P, A>
    ensures asked { result ≡ asked x }
    ensures free { AsksFreely result }
{
    match x {
        Move::Enqueue { piece, size } => {
            let _ = piece.hash();
            Asked::Step(Step::Enqueue { piece, size })
        }
        Move::Delete { hash } => Asked::Step(Step::Delete { hash }),
        Move::Wait { flusher, id } => Asked::Step(Step::Wait { flusher, id }),
        Move::MayContains { hash } => Asked::Step(Step::MayContains { hash }),
        Move::LoadBegin { hash, throttled } => Asked::Step(Step::LoadBegin { hash, throttled }),
        Move::LoadEnd { ticket } => Asked::LoadEnd(ticket),
        Move::Receive { flusher } => Asked::Step(Step::Receive { flusher }),
        Move::FlushBegin { flusher } => Asked::Step(Step::FlushBegin { flusher }),
        Move::FlushBlock { flusher } => Asked::FlushBlock(flusher),
        Move::FlushWrote { flusher } => Asked::FlushWrote(flusher),
        Move::LogWrote {
            flusher,
            result: outcome,
        } => Asked::Step(Step::LogWrote {
            flusher,
            result: outcome,
        }),
        Move::FlushEnd { flusher } => Asked::Step(Step::FlushEnd { flusher }),
        Move::ReclaimBegin => Asked::Step(Step::ReclaimBegin),
        Move::ReclaimRead { block } => Asked::ReclaimRead(block),
        Move::ReclaimForget { block } => Asked::Step(Step::ReclaimForget { block }),
        Move::ReclaimCleaned { block } => Asked::ReclaimCleaned(block),
        Move::ReclaimIdle => Asked::Step(Step::ReclaimIdle),
        Move::DestroyBegin => Asked::Step(Step::DestroyBegin),
        Move::DestroyClear => Asked::Step(Step::DestroyClear),
        Move::DestroyCleaned { block } => Asked::DestroyCleaned(block),
        Move::Close => Asked::Step(Step::Close),
    }
}

// Makes one move. `Err` is a refused allocation: then nothing changed but room.
fn make<K, V, P, A, D, E, C>(
    core: &mut Core<K, V, P, A>,
    env: &mut Env<E, C>,
    disk: &mut D,
    x: Move<K, V, P, A>,
    kept: &mut Kept<K, V, P, A>,
) -> std::result::Result<(), AllocError>
where
    K: Code<A> + Drop,
    V: Code<A> + Drop,
    P: Properties + Drop,
    A: Allocator + Clone,
    D: Disk,
    E: EvictionPicker,
    C: StorageFilterCondition,
    ensures moved { D.is_known disk.old → OnOk result (Moves (HasCome D.surely_lies D.faults disk.old disk.new)
        (meaning K.encoding V.encoding K.is_encodable V.is_encodable K.is_decodable V.is_decodable P.age)
        (asked x) kept.old kept.new core.old core.new (D.byte_at disk.old) (D.byte_at disk.new)) }
    ensures stays { OnErr result (core.new ≡ core.old) }
    ensures same { OnErr result (D.byte_at disk.new ≡ D.byte_at disk.old) }
    ensures kept { OnErr result (kept.new.replies.items ≡ kept.old.replies.items) }
    ensures one { vec_len kept.new.replies ≤ vec_len kept.old.replies + 1 }
    ensures known { D.is_known disk.old → D.is_known disk.new }
    ensures lies { (b o n : ℕ) → D.surely_lies disk.old b o n → D.surely_lies disk.new b o n }
    ensures counted { D.faults disk.old ≤ D.faults disk.new }
{
    kept.tickets.reserve(1)?;
    kept.replies.reserve(1)?;
    match ask(x) {
        Asked::Step(step) => apply_step(core, env, step, kept),
        Asked::FlushBlock(flusher) => flush_block(core, env, flusher, kept),
        Asked::LoadEnd(n) => return load_end(core, env, disk, n, kept),
        Asked::FlushWrote(flusher) => flush_wrote(core, env, disk, flusher, kept),
        Asked::ReclaimRead(block) => reclaim_read(core, env, disk, block, kept),
        Asked::ReclaimCleaned(block) => reclaim_cleaned(core, env, disk, block, kept),
        Asked::DestroyCleaned(block) => destroy_cleaned(core, env, disk, block, kept),
    }
    Ok(())
}

// Runs the moves in order, and notes their replies and whether an access failed.
pub(crate) fn run_noted<K, V, P, A, D, E, C>(
    core: &mut Core<K, V, P, A>,
    env: &mut Env<E, C>,
    disk: &mut D,
    moves: Vec<Move<K, V, P, A>, A>,
) -> Result<Kept<K, V, P, A>>
where
    K: Code<A> + Drop,
    V: Code<A> + Drop,
    P: Properties + Drop,
    A: Allocator + Clone,
    D: Disk,
    E: EvictionPicker,
    C: StorageFilterCondition,
    ensures replies { IfOk result (λ kept. vec_len kept.replies ≤ vec_len moves) }
    ensures runs { D.is_known disk.old → IfOk result (λ kept. RunsNoted (HasCome D.surely_lies D.faults disk.old disk.new) kept.has_failed
        (meaning K.encoding V.encoding K.is_encodable V.is_encodable K.is_decodable V.is_decodable P.age)
        moves.items kept.replies.items core.old core.new (D.byte_at disk.old) (D.byte_at disk.new)) }
    ensures front { D.is_known disk.old → OnErr result (IsFront
        (meaning K.encoding V.encoding K.is_encodable V.is_encodable K.is_decodable V.is_decodable P.age)
        moves.items core.old core.new (D.byte_at disk.old) (D.byte_at disk.new)) }
    ensures memory { IfErr result (λ e. e ≡ Memory) }
    ensures known { D.is_known disk.old → D.is_known disk.new }
    ensures lies { (b o n : ℕ) → D.surely_lies disk.old b o n → D.surely_lies disk.new b o n }
    ensures counted { D.faults disk.old ≤ D.faults disk.new }
{
    let mut kept = begin(core.allocator(), core.settings(), moves.len())?;
    for x in moves {
        make(core, env, disk, x, &mut kept)?;
    }
    Ok(kept)
}

/// Runs the moves in order, and gives the replies of those that weren't passed over.
///
/// An access that a reply issued is done once, when its move comes. A fault of the disk is the result of the step. A move is passed over if
/// its access wasn't issued in this run or is done already. A write is also passed over if an earlier write of its block failed, or if the
/// core returned the report of one. If memory is refused for what a reclaim reads, that is a fault of the read. A write, a clean and the
/// read of a load fail for two causes alone. The disk failed an access, or it isn't sure that their bytes lie in the disk.
///
/// Errors: `Memory` if memory was refused for the read of a load, or for a list that the run keeps. Then only the first moves, up to some
/// number, were run, and the others are dropped.
pub fn run<K, V, P, A, D, E, C>(
    core: &mut Core<K, V, P, A>,
    env: &mut Env<E, C>,
    disk: &mut D,
    moves: Vec<Move<K, V, P, A>, A>,
) -> Result<Vec<Reply<K, V, P, A>, A>>
where
    K: Code<A> + Drop,
    V: Code<A> + Drop,
    P: Properties + Drop,
    A: Allocator + Clone,
    D: Disk,
    E: EvictionPicker,
    C: StorageFilterCondition,
    ensures replies { IfOk result (λ replies. vec_len replies ≤ vec_len moves) }
    ensures runs { D.is_known disk.old → IfOk result (λ replies. Runs
        (meaning K.encoding V.encoding K.is_encodable V.is_encodable K.is_decodable V.is_decodable P.age)
        moves.items replies.items core.old core.new (D.byte_at disk.old) (D.byte_at disk.new)) }
    ensures honest { D.is_known disk.old → IfOk result (λ replies. RunsForCause (HasCome D.surely_lies D.faults disk.old disk.new)
        (meaning K.encoding V.encoding K.is_encodable V.is_encodable K.is_decodable V.is_decodable P.age)
        moves.items replies.items core.old core.new (D.byte_at disk.old) (D.byte_at disk.new)) }
    ensures front { D.is_known disk.old → OnErr result (IsFront
        (meaning K.encoding V.encoding K.is_encodable V.is_encodable K.is_decodable V.is_decodable P.age)
        moves.items core.old core.new (D.byte_at disk.old) (D.byte_at disk.new)) }
    ensures memory { IfErr result (λ e. e ≡ Memory) }
    ensures known { D.is_known disk.old → D.is_known disk.new }
    ensures lies { (b o n : ℕ) → D.surely_lies disk.old b o n → D.surely_lies disk.new b o n }
    ensures counted { D.faults disk.old ≤ D.faults disk.new }
{
    let kept = run_noted(core, env, disk, moves)?;
    Ok(kept.replies)
}
