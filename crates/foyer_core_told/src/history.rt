//! The history as threads have it: its rule, and the functions that add the opening and the steps to it.
ghost use Rattle.std.specs.Prelude.{◌≡◌, ◌+◌, ◌<◌, [], IfOk, true, false};
ghost use Rattle.foyer_core_chronicle.specs.Rights.{times};
ghost use Rattle.foyer_core_model.specs.Numbers.{last_number};
ghost use Rattle.foyer_core_chronicle.specs.SharedHistory.{newcomer};
ghost use Rattle.foyer_core_model.specs.Ids.{ids};
ghost use Rattle.foyer_core_laws.specs.Content.{meaning};
ghost use Rattle.foyer_core_told.specs.ToldLoads.{is_read, tickets_in};
ghost use Rattle.foyer_core_told.specs.ToldRights.{rights_count, core_right};
ghost use Rattle.foyer_core_told.specs.Telling.{WasOpened, IsNew, HasOpened, MayStep, BringsTrue, HasAdded, IsCoreStep, StandsAt, HasStepped};

use crate::event::Told;
use foyer_core_chronicle::{Chronicle, HistoryRule, RightNumber, Witness};
use foyer_core_steps::reply::Reply;
use foyer_core_steps::state::Core;
use foyer_core_steps::step::Step;
use foyer_format_record::serde::{Code, Properties};
use foyer_io_disk::disk::Disk;
use std::alloc::{AllocError, Allocator, Global};
use std::marker::PhantomData;
use std::snapshot::Snapshot;

/// What holds of the history at any time, and which rights its events take.
pub struct ToldRule<K, V, P, A: Allocator, D> {
    of: PhantomData<(K, V, P, A, D)>,
}

impl<K, V, P, A, D> HistoryRule<Told<K, V, P, A, D>> for ToldRule<K, V, P, A, D>
where
    K: Code<A>,
    V: Code<A>,
    P: Properties,
    A: Allocator,
    D: Disk,
{
    ghost use Rattle.foyer_core_model.specs.Ids.{ids};
    ghost use Rattle.foyer_core_laws.specs.Content.{meaning};
    ghost use Rattle.foyer_core_told.specs.ToldRuns.{IsTold};
    ghost use Rattle.foyer_core_told.specs.ToldLoads.{makes_ticket};
    ghost use Rattle.foyer_core_told.specs.ToldRights.{takes, rights_count};

    ghost holds = { IsTold (meaning K.encoding V.encoding K.is_encodable V.is_encodable K.is_decodable V.is_decodable P.age) D.byte_at };

    ghost takes = { takes };

    ghost makes = { makes_ticket };

    ghost base = { rights_count };

    ghost first = { ids rights_count };
}

/// The number of the core's right.
pub struct CoreRight;

impl RightNumber for CoreRight {
    ghost use Rattle.foyer_core_told.specs.ToldRights.{core_right};

    ghost right = { core_right };
}

/// The history of a core and its disk.
pub type ToldHistory<K, V, P, A, D> = Chronicle<Told<K, V, P, A, D>, ToldRule<K, V, P, A, D>>;

/// A thread's witness of such a history.
pub type ToldWitness<K, V, P, A, D> = Witness<Told<K, V, P, A, D>>;

/// An empty history, and the witness that has all rights.
pub fn open_history<K, V, P, A, D>(
    alloc: Global,
) -> Result<(ToldHistory<K, V, P, A, D>, ToldWitness<K, V, P, A, D>), AllocError>
where
    K: Code<A>,
    V: Code<A>,
    P: Properties,
    A: Allocator,
    D: Disk,
    ensures { IfOk result (λ r. (r.1.table_id ≡ r.0.table.shared.table_id) × (r.1.me ≡ (newcomer (ids rights_count), []))) }
{
    Chronicle::open(alloc)
}

/// Adds the opening to the history, as the first event. Requires a core that was just opened, and a witness that has seen nothing and has
/// the rights of the core and of the disk.
pub fn tell_opening<K, V, P, A, D>(
    history: &ToldHistory<K, V, P, A, D>,
    witness: &mut ToldWitness<K, V, P, A, D>,
    core: &Core<K, V, P, A>,
    disk: &D,
)
where
    K: Code<A>,
    V: Code<A>,
    P: Properties,
    A: Allocator,
    D: Disk,
    requires own { witness.old.table_id ≡ history.now.table.shared.table_id }
    requires new { IsNew witness.old.me.0 }
    requires opened { WasOpened core.now }
    ensures same { (witness.new.table_id ≡ witness.old.table_id) × (witness.new.me.1 ≡ witness.old.me.1) }
    ensures told { HasOpened witness.old.me.0 core.now disk.now witness.new.me.0 }
{
    let event = Told::Opened {
        core: Snapshot::of(core),
        disk: Snapshot::of(disk),
    };
    history.add(witness, &event);
}

// Counts one more ticket, if the reply issues one. Gives how many there were before.
fn count_ticket<K, V, P, A: Allocator>(tickets: &mut u64, reply: &Reply<K, V, P, A>) -> u64
    ensures before { result ≡ tickets.old }
    ensures same { is_read reply.now ≡ false → tickets.new ≡ tickets.old }
    ensures more { is_read reply.now ≡ true → tickets.old < last_number → tickets.new ≡ tickets.old + 1 }
{
    let number = *tickets;
    if let Reply::Read(_) = reply {
        *tickets = tickets.wrapping_add(1);
    }
    number
}

/// Adds a step of the core, its reply, and the core that it left to the history, under the core's lock. `own` is the lock's witness: it
/// must know the core before the step and have the core's right. `mine` is the caller's: it must have the right that the step takes, and
/// know that the outcome that the step reports is true. If the step issues a read, `mine` gets the right of the ticket. Gives how many
/// tickets were issued before. If the step issues one, that is the ticket's number.
pub fn tell_step<K, V, P, A, D>(
    history: &ToldHistory<K, V, P, A, D>,
    own: &mut ToldWitness<K, V, P, A, D>,
    mine: &mut ToldWitness<K, V, P, A, D>,
    tickets: &mut u64,
    step: Snapshot<Step<K, V, P, A>>,
    reply: &Reply<K, V, P, A>,
    core: &Core<K, V, P, A>,
) -> u64
where
    K: Code<A>,
    V: Code<A>,
    P: Properties,
    A: Allocator,
    D: Disk,
    requires own { (own.old.table_id ≡ history.now.table.shared.table_id) × (own.old.me.1 ≡ []) }
    requires mine { (mine.old.table_id ≡ history.now.table.shared.table_id) × (mine.old.me.1 ≡ []) }
    requires rights { MayStep own.old.me.0 mine.old.me.0 step.value }
    requires counted { tickets.old ≡ tickets_in own.old.me.0.seen }
    requires core { IsCoreStep (meaning K.encoding V.encoding K.is_encodable V.is_encodable K.is_decodable V.is_decodable P.age) D.byte_at own.old.me.0 step.value reply.now core.now }
    requires brings { BringsTrue (meaning K.encoding V.encoding K.is_encodable V.is_encodable K.is_decodable V.is_decodable P.age) D.byte_at mine.old.me.0 step.value }
    ensures same { (own.new.table_id ≡ own.old.table_id) × (mine.new.table_id ≡ mine.old.table_id) }
    ensures whole { (own.new.me.1 ≡ []) × (mine.new.me.1 ≡ []) }
    ensures right { 0 < times core_right own.new.me.0.has }
    ensures core { StandsAt (meaning K.encoding V.encoding K.is_encodable V.is_encodable K.is_decodable V.is_decodable P.age) D.byte_at own.new.me.0.seen core.now }
    ensures counted { tickets.new ≡ tickets_in own.new.me.0.seen }
    ensures added { HasAdded own.old.me.0 own.new.me.0 step.value reply.now core.now }
    ensures both { own.new.me.0.seen ≡ mine.new.me.0.seen }
    ensures told { HasStepped (meaning K.encoding V.encoding K.is_encodable V.is_encodable K.is_decodable V.is_decodable P.age) D.byte_at mine.old.me.0 mine.new.me.0 step.value reply.now result }
{
    let number = count_ticket(tickets, reply);
    let event = Told::Steps {
        step,
        reply: Snapshot::of(reply),
        core: Snapshot::of(core),
    };
    history.add_with::<CoreRight>(own, mine, &event);
    number
}
