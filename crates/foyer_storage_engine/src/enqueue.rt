//! The enqueue.
ghost use Rattle.foyer_core_shared.specs.Refines.{Refines};
ghost use Rattle.foyer_core_shared.specs.Reply.TheVariants as reply;
ghost use Rattle.foyer_core_shared.specs.Step.TheVariants as steps;
ghost use Rattle.foyer_device_page.specs.declared.error.ErrorKind.TheVariants as kind;
ghost use Rattle.foyer_storage_engine.specs.Entering.{EntersRun};
ghost use Rattle.foyer_storage_engine.specs.Kept.{IsPutWhereQueued, reference_of};
ghost use Rattle.foyer_core_shared.specs.Replies.{may_reply};
ghost use Rattle.foyer_policy_keeper.specs.PieceMap.{HasRoomFor, HoldsSame};
ghost use Rattle.foyer_core_shared.specs.Content.{meaning};
ghost use Rattle.foyer_core_shared.specs.Briefed.{IsNotedIn};
ghost use Rattle.std.specs.Prelude.{◌≡◌, ◌⊎◌, ◌+◌, ◌<◌, ◌≤◌, IfOk, OnErr, IfErr, true};

use foyer_block_manager::block::eviction::EvictionPicker;
use foyer_core_shared::core_steps::reply::Reply;
use foyer_core_shared::core_steps::step::Step;
use foyer_core_shared::locked::Locked;
use foyer_core_shared::notes::Noting;
use foyer_core_shared::session::Session;
use foyer_core_tally::book::Kinds;
use foyer_device_page::error::{Error, ErrorKind, Result};
use foyer_device_statistics::IoState;
use foyer_format_record::serde::{Code, Properties};
use foyer_policy_filter::StorageFilterCondition;
use foyer_policy_keeper::keeper::shard::{Reserved, Shard};
use foyer_policy_piece::keeper::Piece;
use std::alloc::Allocator;

/// Puts a piece into the shard if the reply says that it is queued. The shard must have reserved room and a number for it.
pub fn put_where_queued<K: Eq + Drop, V: Drop, P: Drop, A: Allocator + Clone>(
    shard: &mut Shard<K, V, P, A>,
    reserved: Reserved<K, V, P, A>,
    reply: &Reply<K, V, P, A>,
)
    requires room { HasRoomFor K.eq shard.old reserved.piece.hash reserved.piece.key }
    requires number { (0 < reserved.number) × (reserved.number ≤ shard.old.last) }
    ensures { IsPutWhereQueued K.eq shard.old.map shard.new.map reserved reply.now }
{
    if let Reply::Queued(_) = reply {
        shard.put(reserved);
    }
}

// Makes the step, or gives a refusal if its note found no room.
fn step<L, K, V, P, A, E, C, N>(
    locked: &mut Locked<L, K, V, P, A, E, C, N>,
    session: &mut Session<L>,
    io: IoState,
    step: Step<K, V, P, A>,
) -> Reply<K, V, P, A>
where
    L: Kinds,
    K: Code<A> + Drop,
    V: Code<A> + Drop,
    P: Properties + Drop,
    A: Allocator + Clone,
    E: EvictionPicker,
    C: StorageFilterCondition,
    N: Noting,
    requires { 0 < session.old.shares.parts }
    ensures core { Refines (meaning K.encoding V.encoding K.is_encodable V.is_encodable K.is_decodable V.is_decodable P.age) step result locked.old.noted.core locked.new.noted.core
        ⊎ ((N.keeps ≡ true) × (result ≡ reply.Refused kind.Memory step) × (locked.new.noted.core ≡ locked.old.noted.core)) }
    ensures noted { IsNotedIn session.old session.new step result ⊎ ((N.keeps ≡ true) × (result ≡ reply.Refused kind.Memory step) × (session.new ≡ session.old)) }
    ensures replied { (may_reply step result ≡ true) ⊎ ((N.keeps ≡ true) × (result ≡ reply.Refused kind.Memory step)) }
    ensures parts { session.new.shares.parts ≡ session.old.shares.parts }
{
    match locked.step(session, io, step) {
        Ok(reply) => reply,
        Err(step) => Reply::Refused(ErrorKind::Memory, step),
    }
}

/// Queues a piece in the core. If it is queued, it is put into the keeper's shard under the shard's next number, and the step carries the
/// reference of that number. If the core refuses the step, this refusal is the reply. Errors: `Memory` and `SequenceEnd` if the shard has
/// no room or no number. Then the core, the session and what is kept are as they were. The caller takes the shard's lock before the
/// core's, and keeps it longer, so no look-up and no release of the shard falls between.
pub fn enqueue<L, K, V, P, A, E, C, N>(
    shard: &mut Shard<K, V, P, A>,
    locked: &mut Locked<L, K, V, P, A, E, C, N>,
    session: &mut Session<L>,
    io: IoState,
    piece: &Piece<K, V, P, A>,
    size: usize,
) -> Result<Reply<K, V, P, A>>
where
    L: Kinds,
    K: Code<A> + Eq + Drop,
    V: Code<A> + Drop,
    P: Properties + Drop,
    A: Allocator + Clone,
    E: EvictionPicker,
    C: StorageFilterCondition,
    N: Noting,
    requires { 0 < session.old.shares.parts }
    ensures kept { IfOk result (IsPutWhereQueued K.eq shard.old.map shard.new.map (reference_of piece.now (shard.old.last + 1))) }
    ensures core { IfOk result (λ answer. Refines (meaning K.encoding V.encoding K.is_encodable V.is_encodable K.is_decodable V.is_decodable P.age)
        (steps.Enqueue (reference_of piece.now (shard.old.last + 1)) size) answer locked.old.noted.core locked.new.noted.core
        ⊎ ((N.keeps ≡ true) × (answer ≡ reply.Refused kind.Memory (steps.Enqueue (reference_of piece.now (shard.old.last + 1)) size)) × (locked.new.noted.core ≡ locked.old.noted.core))) }
    ensures enters { IfOk result (EntersRun (meaning K.encoding V.encoding K.is_encodable V.is_encodable K.is_decodable V.is_decodable P.age)
        K.eq shard.old.map shard.new.map (reference_of piece.now (shard.old.last + 1))) }
    ensures noted { IfOk result (λ answer. IsNotedIn session.old session.new (steps.Enqueue (reference_of piece.now (shard.old.last + 1)) size) answer
        ⊎ ((N.keeps ≡ true) × (answer ≡ reply.Refused kind.Memory (steps.Enqueue (reference_of piece.now (shard.old.last + 1)) size)) × (session.new ≡ session.old))) }
    ensures replied { IfOk result (λ answer. (may_reply (steps.Enqueue (reference_of piece.now (shard.old.last + 1)) size) answer ≡ true)
        ⊎ ((N.keeps ≡ true) × (answer ≡ reply.Refused kind.Memory (steps.Enqueue (reference_of piece.now (shard.old.last + 1)) size)))) }
    ensures parts { session.new.shares.parts ≡ session.old.shares.parts }
    ensures err { OnErr result (HoldsSame K.eq shard.old.map shard.new.map × (locked.new.noted.core ≡ locked.old.noted.core) × (session.new ≡ session.old)) }
    ensures refused { IfErr result (λ e. (e ≡ Error.Memory) ⊎ (e ≡ Error.SequenceEnd)) }
{
    let (piece, reserved) = shard.reserve(piece)?;
    let reply = step(locked, session, io, Step::Enqueue { piece, size });
    put_where_queued(shard, reserved, &reply);
    Ok(reply)
}
