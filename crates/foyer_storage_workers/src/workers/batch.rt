//! How a flusher's worker writes a batch, from its beginning to its end.
ghost use Rattle.std.specs.Prelude.{◌≡◌, ◌<◌, ◌-◌, false, if◌then◌else◌, length, max, true};
ghost use Rattle.foyer_storage_workers.specs.declared.workers.batch.Failure.TheVariants as failure;
ghost use Rattle.foyer_storage_engine.specs.Issuing.{written_bytes};
ghost use Rattle.foyer_io_disk.specs.Disk.{SurelyCame};
ghost use Rattle.foyer_storage_engine.specs.Ending.{HoldsNamed};
ghost use Rattle.foyer_storage_engine.specs.Briefs.{reply_brief};
ghost use Rattle.foyer_storage_workers.specs.Releasing.{HasEnded, IsBegunAs, IsEndedAs, IsLogged};
ghost use Rattle.foyer_storage_workers.specs.declared.workers.batch.Begun.TheVariants as begun;
ghost use Rattle.foyer_storage_workers.specs.WorkerSteps.{AreWritten, IsAtBatchEnd, IsDoneAs, ReportsWrite, names_block};

use super::answering::answer_all;
use super::answers::AllAnswered;
use super::appending::{Appended, append};
use foyer_block_index::manager::BlockId;
use foyer_block_index::tombstone::Tombstone;
use foyer_block_manager::block::eviction::EvictionPicker;
use foyer_block_tombstone::block::tombstone::MarkLog;
use foyer_core_tally::book::Kinds;
use foyer_device_page::error::Result;
use foyer_format_record::serde::{Code, Properties};
use foyer_io_disk::disk::Disk;
use foyer_io_gate::gate::{Gate, Point};
use foyer_policy_filter::StorageFilterCondition;
use foyer_policy_keeper::keeper::Keeper;
use foyer_policy_release::noted::AllReleased;
use foyer_policy_release::release::release_all;
use foyer_storage_engine::core_access::disk::do_write;
use foyer_storage_engine::core_shared::notes::Noting;
use foyer_storage_engine::core_shared::session::Session;
use foyer_storage_engine::core_steps::apply::no_io;
use foyer_storage_engine::core_steps::reply::{Reply, Write};
use foyer_storage_engine::core_steps::step::Step;
use foyer_storage_engine::engine::BlockEngine;
use foyer_storage_engine::engine::counts::WorkCounters;
use std::alloc::Allocator;
use std::sync::{Mutex, Wait};

// Why a batch failed.
#[derive(Clone, Copy, Debug, PartialEq, Eq)]
enum Failure {
    // A write failed.
    Write,
    // The index got no memory for a block's records.
    Memory,
}

// What was written of a batch: how many records the index took, and why the batch failed if it did.
#[derive(Clone, Copy, Debug, PartialEq, Eq)]
pub(super) struct Written {
    records: usize,
    failure: Option<Failure>,
}

// Why a batch failed whose last write was done, or wasn't.
fn failure_of(is_written: bool) -> Failure
    ensures { result ≡ (if is_written then failure.Memory else failure.Write) }
{
    if is_written {
        Failure::Memory
    } else {
        Failure::Write
    }
}

// How many of a failed batch's pieces were abandoned: those beyond the records that the index took, and at least one.
fn abandoned(pieces: usize, records: usize) -> u64
    ensures { result ≡ max (pieces - records) 1 }
{
    pieces.saturating_sub(records).max(1) as u64
}

// Counts the pieces of a batch that were abandoned, if it failed.
fn count_abandoned(work: &WorkCounters, written: &Written, pieces: usize) {
    match written.failure {
        Some(Failure::Write) => work.add_abandoned_by_writes(abandoned(pieces, written.records)),
        Some(Failure::Memory) => work.add_abandoned_by_memory(abandoned(pieces, written.records)),
        None => {}
    }
}

// Notes what a write's reply says of the batch: how many records the index took, or that the batch failed.
fn note_reply<K, V, P, A: Allocator>(
    written: &mut Written,
    reply: &Reply<K, V, P, A>,
    is_written: bool,
) {
    match reply {
        Reply::Committed(count) => {
            written.records = written.records.saturating_add(*count);
        }
        Reply::Failed => written.failure = Some(failure_of(is_written)),
        _ => {}
    }
}

// Does a write of a block, and reports its outcome. Gives whether to do the next write.
#[tactic(auto, using(foyer_storage_engine::proofs::HoldingLemmas::held_on, foyer_storage_engine::proofs::HoldingLemmas::held_by_step, crate::proofs::WorkerStepLemmas::not_next))]
fn write_one<L, K, V, P, A, E, C, D, G, N, O>(
    rt: &impl Wait,
    engine: &BlockEngine<L, K, V, P, A, E, C, D, G, N>,
    disk: &mut O,
    flusher: u32,
    session: &mut Session<L>,
    block: BlockId,
    write: &Write<A>,
    written: &mut Written,
) -> bool
where
    L: Kinds,
    K: Code<A> + Drop,
    V: Code<A> + Drop,
    P: Properties + Drop,
    A: Allocator + Clone,
    E: EvictionPicker,
    C: StorageFilterCondition,
    D: Disk + Drop,
    G: Gate,
    N: Noting,
    O: Disk,
    requires { 0 < session.old.shares.parts }
    ensures named { HoldsNamed session.old session.new }
    ensures parts { session.new.shares.parts ≡ session.old.shares.parts }
    ensures reports { O.is_known disk.old → ReportsWrite flusher block write.now.offset (written_bytes write.now.bytes) (O.byte_at disk.old) (O.byte_at disk.new)
        (SurelyCame (O.surely_has disk.old) (O.surely_lies disk.old) (O.faults disk.old) (O.faults disk.new)
        block write.now.offset (length (written_bytes write.now.bytes))) session.new result }
    ensures known { O.is_known disk.old → O.is_known disk.new }
{
    let result = do_write(disk, block, write);
    let is_written = result.is_ok();
    let step = Step::FlushWrote { flusher, result };
    let reply = engine.step_again(rt, session, no_io(), step);
    note_reply(written, &reply, is_written);
    match reply {
        Reply::Next => is_written,
        Reply::Failed => {
            engine.signals().work.add_failed_block();
            // The flusher leaves the block.
            engine.signals().reclaims.ring(rt);
            false
        }
        _ => false,
    }
}

// Does a block's writes, and reports each, until one fails or ends the block.
#[tactic(auto, using(foyer_storage_engine::proofs::HoldingLemmas::held_on, foyer_storage_engine::proofs::HoldingLemmas::held_by_step))]
fn write_block<L, K, V, P, A, E, C, D, G, N, O>(
    rt: &impl Wait,
    engine: &BlockEngine<L, K, V, P, A, E, C, D, G, N>,
    disk: &mut O,
    flusher: u32,
    session: &mut Session<L>,
    block: BlockId,
    writes: &[Write<A>],
    written: &mut Written,
)
where
    L: Kinds,
    K: Code<A> + Drop,
    V: Code<A> + Drop,
    P: Properties + Drop,
    A: Allocator + Clone,
    E: EvictionPicker,
    C: StorageFilterCondition,
    D: Disk + Drop,
    G: Gate,
    N: Noting,
    O: Disk,
    requires { 0 < session.old.shares.parts }
    ensures named { HoldsNamed session.old session.new }
    ensures parts { session.new.shares.parts ≡ session.old.shares.parts }
    ensures writes { O.is_known disk.old → AreWritten writes.now (λ w. w.offset) (λ w. written_bytes w.bytes) flusher block session.new (O.byte_at disk.old) (O.byte_at disk.new) }
{
    if writes.is_empty() {
        return;
    }
    engine.gate().pass(Point::FlushWrite);
    'writes: for write in writes {
        if !write_one(rt, engine, disk, flusher, session, block, write, written) {
            return;
        }
    }
}

// Does what the reply to a batch's question for a block asks: it writes the block, or waits for one if none is clean. Says whether the batch
// goes on. A reclaim may begin when the flusher leaves its own block for another, since that takes a clean block and the block that it left
// may be evicted. `own` is the block that the flusher wrote last.
#[tactic(auto, using(crate::proofs::WorkerStepLemmas::does_none, crate::proofs::WorkerStepLemmas::names_none))]
fn do_asked<L, K, V, P, A, E, C, D, G, N, O>(
    rt: &impl Wait,
    engine: &BlockEngine<L, K, V, P, A, E, C, D, G, N>,
    disk: &mut O,
    flusher: u32,
    own: &mut Option<BlockId>,
    session: &mut Session<L>,
    seen: u64,
    reply: Reply<K, V, P, A>,
    written: &mut Written,
) -> bool
where
    L: Kinds,
    K: Code<A> + Drop,
    V: Code<A> + Drop,
    P: Properties + Drop,
    A: Allocator + Clone,
    E: EvictionPicker,
    C: StorageFilterCondition,
    D: Disk + Drop,
    G: Gate,
    N: Noting,
    O: Disk,
    requires { 0 < session.old.shares.parts }
    ensures named { HoldsNamed session.old session.new }
    ensures parts { session.new.shares.parts ≡ session.old.shares.parts }
    ensures does { O.is_known disk.old → IsDoneAs reply flusher session.new (O.byte_at disk.old) (O.byte_at disk.new) }
    ensures goes_on { result ≡ names_block (reply_brief reply) }
    ensures same { result ≡ false → session.new ≡ session.old }
{
    match reply {
        Reply::Write { block, writes } => {
            if *own != Some(block) {
                *own = Some(block);
                engine.signals().reclaims.ring(rt);
            }
            write_block(rt, engine, disk, flusher, session, block, &writes, written);
            true
        }
        Reply::NoBlock => {
            *own = None;
            engine.signals().reclaims.ring(rt);
            let _ = engine.signals().done.wait_past(rt, seen);
            true
        }
        _ => false,
    }
}

// Writes the blocks of a batch, until it asks for none.
#[tactic(auto, using(foyer_storage_engine::proofs::HoldingLemmas::held_on, foyer_storage_engine::proofs::HoldingLemmas::held_by_step))]
pub(super) fn write_batch<L, K, V, P, A, E, C, D, G, N, O>(
    rt: &impl Wait,
    engine: &BlockEngine<L, K, V, P, A, E, C, D, G, N>,
    disk: &mut O,
    flusher: u32,
    own: &mut Option<BlockId>,
    session: &mut Session<L>,
) -> Written
where
    L: Kinds,
    K: Code<A> + Drop,
    V: Code<A> + Drop,
    P: Properties + Drop,
    A: Allocator + Clone,
    E: EvictionPicker,
    C: StorageFilterCondition,
    D: Disk + Drop,
    G: Gate,
    N: Noting,
    O: Disk,
    requires { 0 < session.old.shares.parts }
    ensures named { HoldsNamed session.old session.new }
    ensures parts { session.new.shares.parts ≡ session.old.shares.parts }
    ensures ended { IsAtBatchEnd flusher session.new }
{
    let mut written = Written {
        records: 0,
        failure: None,
    };
    for _ in rt.forever() {
        let seen = engine.signals().done.count(rt);
        let reply = engine.step_again(rt, session, no_io(), Step::FlushBlock { flusher });
        let goes_on = do_asked(
            rt,
            engine,
            disk,
            flusher,
            own,
            session,
            seen,
            reply,
            &mut written,
        );
        if !goes_on {
            return written;
        }
    }
    unreachable!()
}

// What the end of a batch returned: its pieces, which were released, and its waits, which were answered.
#[derive(Drop)]
pub(super) struct BatchEnd<K, V, P, A: Allocator> {
    released: AllReleased<K, V, P, A>,
    answered: AllAnswered<A>,
}

// Does what the reply to a batch's end asks: abandoned pieces are counted, all are released in order, then its waits are answered. None if the batch didn't end.
fn do_end<L, K, V, P, A, E, C, D, G, N>(
    rt: &impl Wait,
    engine: &BlockEngine<L, K, V, P, A, E, C, D, G, N>,
    keeper: &Keeper<K, V, P, A>,
    reply: Reply<K, V, P, A>,
    written: &Written,
) -> Option<BatchEnd<K, V, P, A>>
where
    L: Kinds,
    K: Code<A> + Eq + Drop,
    V: Code<A> + Drop,
    P: Properties + Drop,
    A: Allocator + Clone,
    E: EvictionPicker,
    C: StorageFilterCondition,
    D: Disk + Drop,
    G: Gate,
    N: Noting,
    ensures { IsEndedAs reply result }
{
    match reply {
        Reply::Ended { pieces, waits } => {
            count_abandoned(&engine.signals().work, written, pieces.len());
            let released = release_all(rt, keeper, pieces);
            let answered = answer_all(rt, &engine.signals().waits, waits);
            Some(BatchEnd { released, answered })
        }
        _ => None,
    }
}

// Ends a batch: its pieces are released, each by its own number, and its waits answered.
#[tactic(auto, using(foyer_storage_engine::proofs::HoldingLemmas::held_on, foyer_storage_engine::proofs::HoldingLemmas::held_by_step))]
pub(super) fn end_batch<L, K, V, P, A, E, C, D, G, N>(
    rt: &impl Wait,
    engine: &BlockEngine<L, K, V, P, A, E, C, D, G, N>,
    keeper: &Keeper<K, V, P, A>,
    flusher: u32,
    session: &mut Session<L>,
    written: &Written,
) -> Option<BatchEnd<K, V, P, A>>
where
    L: Kinds,
    K: Code<A> + Eq + Drop,
    V: Code<A> + Drop,
    P: Properties + Drop,
    A: Allocator + Clone,
    E: EvictionPicker,
    C: StorageFilterCondition,
    D: Disk + Drop,
    G: Gate,
    N: Noting,
    requires { 0 < session.old.shares.parts }
    ensures named { HoldsNamed session.old session.new }
    ensures parts { session.new.shares.parts ≡ session.old.shares.parts }
    ensures ended { HasEnded A flusher session.new result }
{
    let reply = engine.step_again(rt, session, no_io(), Step::FlushEnd { flusher });
    let end = do_end(rt, engine, keeper, reply, written);
    engine.signals().done.ring(rt);
    end
}

// What the reply to a batch's beginning said.
#[derive(Drop)]
pub(super) enum Begun<A: Allocator> {
    // No batch began.
    No,
    // One began, of an engine that has no log.
    Unlogged,
    // One began, and an append of its marks to the log was made, which may have failed.
    Logged(Appended<A>),
}

// Counts an append to the log of deletes if it failed.
fn count_append(work: &WorkCounters, outcome: Result<()>) {
    if outcome.is_err() {
        work.add_failed_append();
    }
}

// Appends the marks of a batch to the log of deletes, if the engine has one. Counts the append if it failed, and reports the outcome.
#[tactic(auto, using(foyer_storage_engine::proofs::HoldingLemmas::held_on, foyer_storage_engine::proofs::HoldingLemmas::held_by_step, foyer_storage_engine::proofs::HoldingLemmas::held_same))]
fn log_marks<L, K, V, P, A, E, C, D, G, N, M>(
    rt: &impl Wait,
    engine: &BlockEngine<L, K, V, P, A, E, C, D, G, N>,
    log: &Mutex<M>,
    flusher: u32,
    session: &mut Session<L>,
    marks: Vec<Tombstone, A>,
) -> Begun<A>
where
    L: Kinds,
    K: Code<A> + Drop,
    V: Code<A> + Drop,
    P: Properties + Drop,
    A: Allocator + Clone,
    E: EvictionPicker,
    C: StorageFilterCondition,
    D: Disk + Drop,
    G: Gate,
    N: Noting,
    M: MarkLog,
    requires { 0 < session.old.shares.parts }
    ensures named { HoldsNamed session.old session.new }
    ensures parts { session.new.shares.parts ≡ session.old.shares.parts }
    ensures unlogged { engine.now.settings.tombstone_log ≡ false → result ≡ begun.Unlogged }
    ensures logged { engine.now.settings.tombstone_log ≡ true → IsLogged flusher marks session.new result }
{
    if !engine.settings().tombstone_log {
        return Begun::Unlogged;
    }
    let appended = append(rt, log, marks);
    let result = appended.outcome();
    count_append(&engine.signals().work, result);
    let wrote = Step::LogWrote { flusher, result };
    let _ = engine.step_again(rt, session, no_io(), wrote);
    Begun::Logged(appended)
}

// Does what the reply to a batch's beginning asks.
#[tactic(auto, using(foyer_storage_engine::proofs::HoldingLemmas::held_same))]
pub(super) fn do_begin<L, K, V, P, A, E, C, D, G, N, M>(
    rt: &impl Wait,
    engine: &BlockEngine<L, K, V, P, A, E, C, D, G, N>,
    log: &Mutex<M>,
    flusher: u32,
    session: &mut Session<L>,
    reply: Reply<K, V, P, A>,
) -> Begun<A>
where
    L: Kinds,
    K: Code<A> + Drop,
    V: Code<A> + Drop,
    P: Properties + Drop,
    A: Allocator + Clone,
    E: EvictionPicker,
    C: StorageFilterCondition,
    D: Disk + Drop,
    G: Gate,
    N: Noting,
    M: MarkLog,
    requires { 0 < session.old.shares.parts }
    ensures named { HoldsNamed session.old session.new }
    ensures parts { session.new.shares.parts ≡ session.old.shares.parts }
    ensures begun { IsBegunAs reply flusher engine.now.settings.tombstone_log session.new result }
    ensures same { result ≡ begun.No → session.new ≡ session.old }
{
    match reply {
        Reply::Began { blocks: _, marks } => log_marks(rt, engine, log, flusher, session, marks),
        _ => Begun::No,
    }
}
