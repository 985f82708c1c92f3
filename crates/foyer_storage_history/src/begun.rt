//! How a destroy begins.
ghost use Rattle.std.specs.Prelude.{◌≡◌, ◌⊎◌, IfErr, OnOk, false, true};
ghost use Rattle.foyer_core_laws.specs.Content.{meaning};
ghost use Rattle.foyer_core_shared.specs.Briefs.{reply_brief};
ghost use Rattle.foyer_core_shared.specs.Replies.{may_reply};
ghost use Rattle.foyer_core_steps.specs.declared.step.Step.TheVariants as steps;
ghost use Rattle.foyer_core_threads.specs.Going.{GoesOn};
ghost use Rattle.foyer_device_page.specs.declared.error.Error.TheVariants as error;
ghost use Rattle.foyer_storage_engine.specs.Answering.{is_draw_error};
ghost use Rattle.foyer_storage_engine.specs.Ending.{HoldsButDestroys, is_refused};
ghost use Rattle.foyer_storage_history.specs.HistoryCalls.{AsksToDestroy};

use crate::maintainer::HistoryCore;
use crate::session::HistorySession;
use foyer_block_manager::block::eviction::EvictionPicker;
use foyer_core_shared::core_steps::apply::no_io;
use foyer_core_shared::core_steps::refusal::error_of;
use foyer_core_shared::core_steps::reply::Reply;
use foyer_core_shared::core_steps::step::Step;
use foyer_core_tally::book::Kinds;
use foyer_core_threads::io_told::disk::HistoryName;
use foyer_device_page::error::{Error, Result};
use foyer_format_record::serde::{Code, Properties};
use foyer_io_disk::disk::Disk;
use foyer_policy_filter::StorageFilterCondition;
use std::alloc::Global;
use std::sync::Wait;

/// Shows that a caller's session asked for a destroy that began or had begun. Only `begin_destroy` makes it.
#[derive(Drop)]
pub(crate) struct DestroyBegun {
    // Whether none had begun before.
    is_first: bool,
}

// What the reply to a `DestroyBegin` says.
fn begun_of<K: Drop, V: Drop, P: Drop>(reply: Reply<K, V, P, Global>) -> Result<DestroyBegun>
    ensures taken { OnOk result (is_refused (reply_brief reply) ≡ false) }
    ensures refused { may_reply steps.DestroyBegin reply ≡ true → IfErr result (λ e. (is_draw_error e ≡ true) ⊎ (e ≡ error.Unsupported)) }
{
    match reply {
        Reply::Destroying(_) => Ok(DestroyBegun { is_first: true }),
        Reply::NotNow(_) => Ok(DestroyBegun { is_first: false }),
        Reply::Refused(kind, _) => Err(error_of(kind)),
        _ => Err(Error::Unsupported),
    }
}

/// Begins a destroy by a caller's session, unless one has begun.
#[tactic(auto, using(crate::proofs::HistoryLemmas::nil_is, crate::proofs::HistoryLemmas::destroys_named))]
pub(crate) fn begin_destroy<J, L, K, V, P, E, C, D>(
    rt: &impl Wait,
    shared: &HistoryCore<J, L, K, V, P, E, C, D>,
    session: &mut HistorySession<J, L, K, V, P, D>,
) -> Result<DestroyBegun>
where
    J: HistoryName,
    L: Kinds,
    K: Code<Global> + Eq + Drop,
    V: Code<Global> + Drop,
    P: Properties + Drop,
    E: EvictionPicker,
    C: StorageFilterCondition,
    D: Disk + Drop,
    ensures asks { OnOk result (AsksToDestroy session.new.told.session) }
    ensures on { GoesOn (meaning K.encoding V.encoding K.is_encodable V.is_encodable K.is_decodable V.is_decodable P.age) D.byte_at session.old.told.witness.me.0 session.new.told.witness.me.0 }
    ensures named { HoldsButDestroys session.old.told.session session.new.told.session }
    ensures parts { session.new.told.session.shares.parts ≡ session.old.told.session.shares.parts }
    ensures refused { IfErr result (λ e. (is_draw_error e ≡ true) ⊎ (e ≡ error.Unsupported)) }
{
    let reply = shared.ask_again(rt, &mut session.told, no_io(), Step::DestroyBegin);
    begun_of(reply)
}
