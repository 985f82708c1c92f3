//! What a reclaimer reads of its block.
ghost use Rattle.std.specs.Prelude.{◌≡◌, ◌<◌, IfOk, None, vec_len};
ghost use Rattle.foyer_io_disk.specs.Disk.{IsRead};
ghost use Rattle.foyer_storage_engine.specs.Ending.{HoldsNamed};
ghost use Rattle.foyer_storage_workers.specs.WorkerSteps.{AreReadFrom, HasRead, ReportsRead, first_part};

use super::reclaimer::ReclaimerParts;
use crate::clock::Clock;
use foyer_block_index::manager::BlockId;
use foyer_block_manager::block::eviction::EvictionPicker;
use foyer_core_tally::book::Kinds;
use foyer_device_page::error::{Error, Result};
use foyer_format_record::serde::{Code, Properties};
use foyer_io_disk::disk::Disk;
use foyer_io_gate::gate::Gate;
use foyer_policy_filter::StorageFilterCondition;
use foyer_storage_engine::core_access::reclaims::{Part, next_part, read_bytes};
use foyer_storage_engine::core_shared::notes::Noting;
use foyer_storage_engine::core_shared::session::Session;
use foyer_storage_engine::core_steps::reply::Reply;
use foyer_storage_engine::core_steps::step::Step;
use foyer_storage_engine::engine::BlockEngine;
use std::alloc::Allocator;
use std::sync::Wait;
use std::thread;

// Reads a part of a block, again while memory is refused for it.
fn read_again<A: Allocator + Clone, O: Disk>(
    rt: &impl Wait,
    alloc: &A,
    disk: &mut O,
    block: BlockId,
    part: Part,
) -> Result<Vec<u8, A>>
    ensures read { O.is_known disk.old → IfOk result (λ bytes. IsRead (O.byte_at disk.old) block part.offset bytes.items) }
    ensures len { IfOk result (λ bytes. vec_len bytes ≡ part.len) }
    ensures known { O.is_known disk.old → O.is_known disk.new }
    ensures same { O.byte_at disk.new ≡ O.byte_at disk.old }
{
    for _ in rt.forever() {
        match read_bytes(alloc, disk, block, part) {
            Err(Error::Memory) => thread::yield_now(),
            outcome => return outcome,
        }
    }
    unreachable!()
}

// How many records of the index that was listed are admitted for reinsertion.
fn admitted<K, V, P, A: Allocator>(reply: &Reply<K, V, P, A>) -> u64 {
    match reply {
        Reply::Scan {
            block: _,
            offset: _,
            len: _,
            verdicts: Some(verdicts),
        } => verdicts.iter().filter(|is_admitted| **is_admitted).count() as u64,
        Reply::Listed {
            verdicts: Some(verdicts),
        } => verdicts.iter().filter(|is_admitted| **is_admitted).count() as u64,
        _ => 0,
    }
}

// Reads a part of a block that is reclaimed, and reports the outcome. Gives the part that the reply asks to read next.
#[tactic(auto, using(foyer_storage_engine::proofs::HoldingLemmas::held_by_step))]
fn read_part<L, K, V, P, A, E, C, D, G, N, O, T>(
    rt: &impl Wait,
    engine: &BlockEngine<L, K, V, P, A, E, C, D, G, N>,
    parts: &mut ReclaimerParts<A, O, T>,
    session: &mut Session<L>,
    block: BlockId,
    part: Part,
) -> Option<Part>
where
    L: Kinds,
    K: Code<A> + Drop,
    V: Code<A> + Drop,
    P: Properties + Drop,
    A: Allocator + Clone,
    E: EvictionPicker,
    C: StorageFilterCondition,
    D: Disk + Drop,
    G: Gate,
    N: Noting,
    O: Disk + Drop,
    T: Clock,
    requires { 0 < session.old.shares.parts }
    ensures named { HoldsNamed session.old session.new }
    ensures parts { session.new.shares.parts ≡ session.old.shares.parts }
    ensures reports { O.is_known parts.old.disk → ReportsRead A block (O.byte_at parts.old.disk) part session.new result }
    ensures last { result ≡ None → HasRead block session.new }
    ensures known { O.is_known parts.old.disk → O.is_known parts.new.disk }
    ensures same { O.byte_at parts.new.disk ≡ O.byte_at parts.old.disk }
{
    let outcome = read_again(rt, engine.allocator(), &mut parts.disk, block, part);
    let io = parts.recorder.io_state(rt, parts.clock.now());
    let step = Step::ReclaimRead {
        block,
        result: outcome,
    };
    let reply = engine.step_again(rt, session, io, step);
    engine.signals().work.add_reinsertions(admitted(&reply));
    next_part(&reply)
}

// Reads what the reclaim of a block asks for, from its first index on, until it asks for no more.
#[tactic(auto, using(foyer_storage_engine::proofs::HoldingLemmas::held_on))]
pub(super) fn read_block<L, K, V, P, A, E, C, D, G, N, O, T>(
    rt: &impl Wait,
    engine: &BlockEngine<L, K, V, P, A, E, C, D, G, N>,
    parts: &mut ReclaimerParts<A, O, T>,
    session: &mut Session<L>,
    block: BlockId,
)
where
    L: Kinds,
    K: Code<A> + Drop,
    V: Code<A> + Drop,
    P: Properties + Drop,
    A: Allocator + Clone,
    E: EvictionPicker,
    C: StorageFilterCondition,
    D: Disk + Drop,
    G: Gate,
    N: Noting,
    O: Disk + Drop,
    T: Clock,
    requires { 0 < session.old.shares.parts }
    ensures named { HoldsNamed session.old session.new }
    ensures parts { session.new.shares.parts ≡ session.old.shares.parts }
    ensures read { HasRead block session.new }
    ensures all { O.is_known parts.old.disk → AreReadFrom A block (O.byte_at parts.old.disk) session.new (first_part engine.now.settings.blob_index_size) }
    ensures known { O.is_known parts.old.disk → O.is_known parts.new.disk }
    ensures same { O.byte_at parts.new.disk ≡ O.byte_at parts.old.disk }
{
    let mut part = Part {
        offset: 0,
        len: engine.settings().blob_index_size,
    };
    for _ in rt.forever() {
        match read_part(rt, engine, parts, session, block, part) {
            Some(next) => part = next,
            None => return,
        }
    }
    unreachable!()
}
