//! A load, and the writes of a block, with their accesses of the disk.
ghost use Rattle.std.specs.Prelude.{ℕ, List, ◌++◌, ◌≡◌, ◌∷◌, [], true, false, OnErr, IfOk, IfSome, IfNone, ◌≤◌};
ghost use Rattle.foyer_core_run.specs.Honest.{FailsAtRead, FailsForCause};
ghost use Rattle.foyer_io_disk.specs.Disk.{SurelyCame};
ghost use Rattle.foyer_core_model.specs.World.{World, WorldEvent};
ghost use Rattle.foyer_core_laws.specs.Content.{Content, Meaning, meaning};
ghost use Rattle.foyer_core_laws.specs.Sizes.{AreValid};
ghost use Rattle.foyer_core_laws.specs.Settings.{Settings};
ghost use Rattle.foyer_core_steps.specs.Refines.{Refines};
ghost use Rattle.foyer_core_steps.specs.declared.state.Core.{Core};
ghost use Rattle.foyer_core_run.specs.Accesses.{AsksNoMore, Says, Writes, load_of};
ghost use Rattle.foyer_core_run.specs.AtRest.{KeepsOthers, Leads};
ghost use Rattle.foyer_core_run.specs.Causes.{DrivesForCause};
ghost use Rattle.foyer_core_run.specs.Driven.{Drives};
ghost use Rattle.foyer_core_run.specs.Moves.{asked};
ghost use Rattle.foyer_core_run.specs.Newest.{IsHistory, IsMissedForCause, IsNewest};
ghost use Rattle.foyer_core_run.specs.declared.moves.Asked.TheVariants as asks;
ghost use Rattle.foyer_core_run.specs.declared.moves.Move.{Move};
ghost use Rattle.foyer_core_run.specs.Running.{IsFree};
ghost use Rattle.foyer_core_run.specs.Runs.{IsFront};
ghost use Rattle.foyer_core_run.specs.Waiting.{AllSteps, IsWaiting};

use crate::moves::writes::wants_next_write;
use foyer_block_manager::block::eviction::EvictionPicker;
use foyer_core_access::disk::{do_read, do_write};
use foyer_core_steps::apply::Env;
use foyer_core_steps::reply::Reply;
use foyer_core_steps::state::Core;
use foyer_core_steps::step::Step;
use foyer_format_record::serde::{Code, Properties};
use foyer_io_disk::disk::Disk;
use foyer_policy_filter::StorageFilterCondition;
use std::alloc::{AllocError, Allocator};

/// Applies a step. Requires that the step reports no access of the disk and isn't a `FlushBlock`. This is a run of the move with the step's
/// name.
pub fn step<K, V, P, A, E, C>(
    core: &mut Core<K, V, P, A>,
    env: &mut Env<E, C>,
    given: Step<K, V, P, A>,
) -> Reply<K, V, P, A>
where
    K: Code<A> + Drop,
    V: Code<A> + Drop,
    P: Properties + Drop,
    A: Allocator + Clone,
    E: EvictionPicker,
    C: StorageFilterCondition,
    requires free { IsFree given }
    ensures runs { (x : Move K V P A) → asked x ≡ asks.Step given → (bytes : ℕ → ℕ → ℕ) → Says
        (meaning K.encoding V.encoding K.is_encodable V.is_encodable K.is_decodable V.is_decodable P.age)
        (x ∷ []) result core.old core.new bytes bytes }
    ensures drives { (bytes : ℕ → ℕ → ℕ) → Drives
        (meaning K.encoding V.encoding K.is_encodable V.is_encodable K.is_decodable V.is_decodable P.age)
        core.old core.new bytes bytes }
    ensures meets { Refines
        (meaning K.encoding V.encoding K.is_encodable V.is_encodable K.is_decodable V.is_decodable P.age)
        given result core.old core.new }
    ensures lent { (env.new.reinsertion ≡ env.old.reinsertion) × (env.new.io ≡ env.old.io) }
{
    core.apply(env, given)
}

// Puts the buffer that was read into back into `spare`, if the core returned the buffer.
fn put_back<A: Allocator>(spare: &mut Vec<u8, A>, buffer: Option<Vec<u8, A>>)
    ensures back { IfSome buffer (λ bytes. spare.new ≡ bytes) }
    ensures stays { IfNone buffer (spare.new ≡ spare.old) }
{
    if let Some(bytes) = buffer {
        *spare = bytes;
    }
}

/// Looks a hash up, does the read that the look-up issues, and reports the result to the core. Gives the core's answer.
///
/// If the answer is an entry, this entry is the newest put of the hash in every history that led to this core. If the newest event of the
/// hash is a put, the load answers this put, or `Refused` for a failed read or for memory. Another answer has one of these causes: the
/// caller throttles; since the put, a reclaim of its block began or a destroy cleared the index; fewer than two steps are left; or an
/// opening found the record, and it is damaged, undecodable (`Parse`) or unsupported (`Unsupported`).
///
/// `Err` is a refused allocation. Then nothing was read, and the load never ends. The read goes into the memory of `spare`, whatever it
/// holds. After `Err`, `spare` may be empty. It is also empty if the answer returns a step with the bytes that were read.
///
/// `Refused` for `Io` is only answered if the index has an address of the hash, and the read of that address failed. The read doesn't fail
/// if the disk surely has that range. It doesn't fail either if the range surely lies in the disk and no fault was counted. If the disk's
/// bytes aren't known, nothing else is claimed about the answer.
pub fn load<K, V, P, A, D, E, C>(
    core: &mut Core<K, V, P, A>,
    env: &mut Env<E, C>,
    disk: &mut D,
    spare: &mut Vec<u8, A>,
    hash: u64,
    throttled: bool,
) -> std::result::Result<Reply<K, V, P, A>, AllocError>
where
    K: Code<A> + Drop,
    V: Code<A> + Drop,
    P: Properties + Drop,
    A: Allocator + Clone,
    D: Disk,
    E: EvictionPicker,
    C: StorageFilterCondition,
    ensures runs { D.is_known disk.old → IfOk result (λ last. Says
        (meaning K.encoding V.encoding K.is_encodable V.is_encodable K.is_decodable V.is_decodable P.age)
        (load_of hash throttled) last core.old core.new (D.byte_at disk.old) (D.byte_at disk.new)) }
    ensures drives { D.is_known disk.old → Drives
        (meaning K.encoding V.encoding K.is_encodable V.is_encodable K.is_decodable V.is_decodable P.age)
        core.old core.new (D.byte_at disk.old) (D.byte_at disk.new) }
    ensures newest { D.is_known disk.old → IfOk result (IsNewest
        (meaning K.encoding V.encoding K.is_encodable V.is_encodable K.is_decodable V.is_decodable P.age)
        hash core.old (D.byte_at disk.old)) }
    ensures missed { D.is_known disk.old → IfOk result (λ last. throttled ≡ false → IsMissedForCause
        (meaning K.encoding V.encoding K.is_encodable V.is_encodable K.is_decodable V.is_decodable P.age)
        hash core.old (D.byte_at disk.old) last) }
    ensures honest { IfOk result (FailsAtRead
        (meaning K.encoding V.encoding K.is_encodable V.is_encodable K.is_decodable V.is_decodable P.age)
        hash (SurelyCame (D.surely_has disk.old) (D.surely_lies disk.old) (D.faults disk.old) (D.faults disk.new)) core.old) }
    ensures front { D.is_known disk.old → OnErr result (IsFront
        (meaning K.encoding V.encoding K.is_encodable V.is_encodable K.is_decodable V.is_decodable P.age)
        (load_of hash throttled) core.old core.new (D.byte_at disk.old) (D.byte_at disk.new)) }
    ensures unread { throttled ≡ true → disk.new ≡ disk.old }
    ensures lent { (env.new.reinsertion ≡ env.old.reinsertion) × (env.new.io ≡ env.old.io) }
    ensures known { D.is_known disk.old → D.is_known disk.new }
    ensures has { (b o n : ℕ) → D.surely_has disk.old b o n → D.surely_has disk.new b o n }
    ensures lies { (b o n : ℕ) → D.surely_lies disk.old b o n → D.surely_lies disk.new b o n }
    ensures counted { D.faults disk.old ≤ D.faults disk.new }
    ensures same { D.byte_at disk.new ≡ D.byte_at disk.old }
{
    let ticket = match core.apply(env, Step::LoadBegin { hash, throttled }) {
        Reply::Read(ticket) => ticket,
        other => return Ok(other),
    };
    let came = do_read(core.allocator().clone()?, disk, &ticket, spare)?;
    let (reply, buffer) = core.apply_load(env, ticket, came);
    put_back(spare, buffer);
    Ok(reply)
}

/// Asks the core for the next block of a flusher's batch, does the writes that the reply issues, in order, and reports each write. Gives
/// the last answer, which never asks for another write. Gives `None` if the block has no write, or if no report ended the block. After a
/// write that failed, and after a report that didn't ask for the next write, the block's other writes aren't done.
///
/// `Failed` is only answered if a write that was issued failed, or if the index had to grow for the block's records. A write isn't reported
/// as failed if the disk surely has its range. Nor is a write whose range surely lies in the disk, if no fault was counted. If the disk's
/// bytes aren't known, only three things are claimed: the causes of `Failed`, that the last answer asks for no other write, and that the
/// other flushers keep what they have.
pub fn write_block<K, V, P, A, D, E, C>(
    core: &mut Core<K, V, P, A>,
    env: &mut Env<E, C>,
    disk: &mut D,
    flusher: u32,
) -> Option<Reply<K, V, P, A>>
where
    K: Code<A> + Drop,
    V: Code<A> + Drop,
    P: Properties + Drop,
    A: Allocator + Clone,
    D: Disk,
    E: EvictionPicker,
    C: StorageFilterCondition,
    ensures writes { D.is_known disk.old → Writes
        (meaning K.encoding V.encoding K.is_encodable V.is_encodable K.is_decodable V.is_decodable P.age)
        flusher result core.old core.new (D.byte_at disk.old) (D.byte_at disk.new) }
    ensures drives { D.is_known disk.old → Drives
        (meaning K.encoding V.encoding K.is_encodable V.is_encodable K.is_decodable V.is_decodable P.age)
        core.old core.new (D.byte_at disk.old) (D.byte_at disk.new) }
    ensures honest { IfSome result (FailsForCause
        (meaning K.encoding V.encoding K.is_encodable V.is_encodable K.is_decodable V.is_decodable P.age)
        flusher (SurelyCame (D.surely_has disk.old) (D.surely_lies disk.old) (D.faults disk.old) (D.faults disk.new)) (D.is_known disk.old) core.old (D.byte_at disk.old)) }
    ensures caused { D.is_known disk.old → DrivesForCause
        (SurelyCame (D.surely_has disk.old) (D.surely_lies disk.old) (D.faults disk.old) (D.faults disk.new)) (AllSteps IsWaiting)
        (meaning K.encoding V.encoding K.is_encodable V.is_encodable K.is_decodable V.is_decodable P.age)
        core.old core.new (D.byte_at disk.old) (D.byte_at disk.new) }
    ensures ends { IfSome result (AsksNoMore
        (meaning K.encoding V.encoding K.is_encodable V.is_encodable K.is_decodable V.is_decodable P.age)
        core.old) }
    ensures leads { Leads
        (meaning K.encoding V.encoding K.is_encodable V.is_encodable K.is_decodable V.is_decodable P.age)
        (KeepsOthers flusher) core.old core.new }
    ensures lent { (env.new.reinsertion ≡ env.old.reinsertion) × (env.new.io ≡ env.old.io) }
    ensures known { D.is_known disk.old → D.is_known disk.new }
    ensures has { (b o n : ℕ) → D.surely_has disk.old b o n → D.surely_has disk.new b o n }
    ensures lies { (b o n : ℕ) → D.surely_lies disk.old b o n → D.surely_lies disk.new b o n }
    ensures counted { D.faults disk.old ≤ D.faults disk.new }
{
    let (block, writes) = match core.apply(env, Step::FlushBlock { flusher }) {
        Reply::Write { block, writes } => (block, writes),
        other => return Some(other),
    };
    'writes: for write in &writes {
        let wrote = do_write(disk, block, write);
        let went_well = wrote.is_ok();
        let reply = core.apply(
            env,
            Step::FlushWrote {
                flusher,
                result: wrote,
            },
        );
        if !wants_next_write(went_well, &reply) {
            return Some(reply);
        }
    }
    None
}

/// Take a history that led to a core and bytes. If a call drives them to another core and other bytes, more events lead the history there.
/// So a history from an opening extends over any sequence of such calls.
pub fn histories_go_on<K, V, P, A>()
    ensures { (m : Meaning K V P) (s : Settings) (sound : AreValid s) (first : World Content) (events : List (WorldEvent Content))
        (old new : Core K V P A) (bytes bytes' : ℕ → ℕ → ℕ) → IsHistory m s sound first events old bytes → Drives m old new bytes bytes'
        → (more : List (WorldEvent Content)) × IsHistory m s sound first (events ++ more) new bytes' }
{}
