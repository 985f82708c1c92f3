//! The answers of an engine's calls, by the core's replies.
ghost use Rattle.std.specs.Prelude.{◌≡◌, Bool, IfErr, false, true};
ghost use Rattle.foyer_core_shared.specs.Briefs.{reply_brief};
ghost use Rattle.foyer_core_shared.specs.Replies.{is_delete_reply, is_end_reply, is_enqueue_reply, is_look_up_reply, is_question_reply};
ghost use Rattle.foyer_storage_engine.specs.Answering.{IsLoadOf, asked_as, deleted_as, enqueued_as};
ghost use Rattle.foyer_storage_engine.specs.Answering.{is_draw_error, is_load_error, is_question_error};

use crate::engine::Enqueued;
use crate::load::{Load, Populated};
use foyer_core_shared::core_steps::refusal::error_of;
use foyer_core_shared::core_steps::reply::Reply;
use foyer_device_page::error::{Error, Result};
use std::alloc::Allocator;

/// Gives a load's answer, by the reply to its last step: an entry, `Throttled` or a miss. Errors: that of a refusal; `Unsupported` for
/// any other reply.
pub fn load_of<K: Drop, V: Drop, P: Drop, A: Allocator>(
    reply: Reply<K, V, P, A>,
) -> Result<Load<K, V, P, A>>
    ensures answer { IsLoadOf reply result }
    ensures refused { (has_read : Bool) → is_end_reply has_read reply ≡ true → IfErr result (λ e. is_load_error e ≡ true) }
    ensures unread { (throttled : Bool) → is_look_up_reply throttled reply ≡ true → IfErr result (λ e. is_load_error e ≡ true) }
{
    match reply {
        Reply::Entry { key, value, age } => Ok(Load::Entry {
            key,
            value,
            populated: Populated { age },
        }),
        Reply::Throttled => Ok(Load::Throttled),
        Reply::Miss => Ok(Load::Miss),
        Reply::Refused(kind, _) => Err(error_of(kind)),
        _ => Err(Error::Unsupported),
    }
}

/// Gives an enqueue's answer, by its reply. Errors: that of a refusal; `Unsupported` for another step's reply.
pub fn enqueued_of<K: Drop, V: Drop, P: Drop, A: Allocator>(
    reply: Reply<K, V, P, A>,
) -> Result<Enqueued>
    ensures answer { result ≡ enqueued_as (reply_brief reply) }
    ensures refused { is_enqueue_reply reply ≡ true → IfErr result (λ e. is_draw_error e ≡ true) }
{
    match reply {
        Reply::Queued(_) => Ok(Enqueued::Queued),
        Reply::Ignored(_) => Ok(Enqueued::Ignored),
        Reply::Dropped(_, _) => Ok(Enqueued::Deleted),
        Reply::Refused(kind, _) => Err(error_of(kind)),
        _ => Err(Error::Unsupported),
    }
}

/// Gives a delete's answer, by its reply. Errors: that of a refusal; `Unsupported` for another step's reply.
pub fn deleted_of<K: Drop, V: Drop, P: Drop, A: Allocator>(reply: Reply<K, V, P, A>) -> Result<()>
    ensures answer { result ≡ deleted_as (reply_brief reply) }
    ensures refused { is_delete_reply reply ≡ true → IfErr result (λ e. is_draw_error e ≡ true) }
{
    match reply {
        Reply::Deleted(_) => Ok(()),
        Reply::Refused(kind, _) => Err(error_of(kind)),
        _ => Err(Error::Unsupported),
    }
}

/// Gives a question's answer, by its reply. Errors: that of a refusal; `Unsupported` for another step's reply.
pub fn answer_of<K: Drop, V: Drop, P: Drop, A: Allocator>(reply: Reply<K, V, P, A>) -> Result<bool>
    ensures answer { result ≡ asked_as (reply_brief reply) }
    ensures refused { is_question_reply reply ≡ true → IfErr result (λ e. is_question_error false e ≡ true) }
{
    match reply {
        Reply::Answer(answer) => Ok(answer),
        Reply::Refused(kind, _) => Err(error_of(kind)),
        _ => Err(Error::Unsupported),
    }
}
