//! The answers of the engine's calls, by the core's replies.
ghost use Rattle.std.specs.Prelude.{◌≡◌, ◌⊎◌, true, Some, IfErr, IsErr};
ghost use Rattle.foyer_storage_local.specs.StepAnswers.{is_destroy_error, is_wait_error, wait_error};
ghost use Rattle.foyer_storage_local.specs.StepAnswers.{begun_as, contains_as, deleted_as, destroyed_as, done_as, enqueued_as, kept_as, loaded_as, wrote_as};

use crate::load::{Enqueued, Load, Populated};
use foyer_core_steps::refusal::error_of;
use foyer_core_steps::reply::Reply;
use foyer_device_page::error::{Error, ErrorKind, Result};
use std::alloc::Allocator;

// Why a step of a wait, or of a destroy that has begun, was refused: for memory, or since no step is left, and for nothing
// else.
fn wait_error(kind: ErrorKind) -> Error
    ensures says { result ≡ wait_error kind }
    ensures refused { is_wait_error result ≡ true }
{
    match kind {
        ErrorKind::Memory => Error::Memory,
        ErrorKind::SequenceEnd => Error::SequenceEnd,
        _ => Error::Io,
    }
}

pub(crate) fn answer_enqueue<K: Drop, V: Drop, P: Drop, A: Allocator>(
    last: Reply<K, V, P, A>,
) -> Result<Enqueued>
    ensures { result ≡ enqueued_as last }
{
    match last {
        Reply::Queued(_) => Ok(Enqueued::Queued),
        Reply::Dropped(_, _) => Ok(Enqueued::Deleted),
        Reply::Refused(kind, _) => Err(error_of(kind)),
        _ => Ok(Enqueued::Ignored),
    }
}

pub(crate) fn answer_load<K: Drop, V: Drop, P: Drop, A: Allocator>(
    last: Reply<K, V, P, A>,
) -> Result<Load<K, V>>
    ensures { result ≡ loaded_as last }
{
    match last {
        Reply::Entry { key, value, age } => Ok(Load::Entry {
            key,
            value,
            populated: Populated { age },
        }),
        Reply::Throttled => Ok(Load::Throttled),
        Reply::Refused(kind, _) => Err(error_of(kind)),
        _ => Ok(Load::Miss),
    }
}

pub(crate) fn answer_delete<K: Drop, V: Drop, P: Drop, A: Allocator>(
    last: Reply<K, V, P, A>,
) -> Result<()>
    ensures { result ≡ deleted_as last }
{
    match last {
        Reply::Refused(kind, _) => Err(error_of(kind)),
        _ => Ok(()),
    }
}

pub(crate) fn answer_contains<K: Drop, V: Drop, P: Drop, A: Allocator>(
    last: Reply<K, V, P, A>,
) -> Result<bool>
    ensures { result ≡ contains_as last }
{
    match last {
        Reply::Answer(is_there) => Ok(is_there),
        Reply::Refused(kind, _) => Err(error_of(kind)),
        _ => Ok(true),
    }
}

// Whether a step did anything. A step that was out of turn, or found nothing, did nothing.
pub(crate) fn answer_step<K: Drop, V: Drop, P: Drop, A: Allocator>(
    last: Reply<K, V, P, A>,
) -> Result<bool>
    ensures says { result ≡ done_as last }
    ensures refused { IfErr result (λ e. is_wait_error e ≡ true) }
{
    match last {
        Reply::Refused(kind, _) => Err(wait_error(kind)),
        Reply::NotNow(_) | Reply::Empty => Ok(false),
        _ => Ok(true),
    }
}

// True if a block was issued, even if its write failed. False if the step was out of turn. `NoSpace` if no block can be handed out.
pub(crate) fn answer_block<K: Drop, V: Drop, P: Drop, A: Allocator>(
    last: Option<Reply<K, V, P, A>>,
) -> Result<bool>
    ensures says { result ≡ wrote_as last }
    ensures refused { IfErr result (λ e. is_wait_error e ≡ true) }
{
    match last {
        Some(Reply::NoBlock) => Err(Error::NoSpace),
        Some(last) => answer_step(last),
        None => Ok(true),
    }
}

#[tactic(auto, using(crate::proofs::LocalAnswers::wait_destroys))]
// `Ok` if a destroy has begun, or had before. `Closed` if the engine is closed.
pub(crate) fn answer_begun<K: Drop, V: Drop, P: Drop, A: Allocator>(
    last: Reply<K, V, P, A>,
) -> Result<()>
    ensures says { result ≡ begun_as last }
    ensures refused { IfErr result (λ e. is_destroy_error e ≡ true) }
{
    match last {
        Reply::Refused(ErrorKind::Closed, _) => Err(Error::Closed),
        Reply::Refused(kind, _) => Err(wait_error(kind)),
        _ => Ok(()),
    }
}

// Why the index wasn't cleared.
pub(crate) fn answer_kept<K: Drop, V: Drop, P: Drop, A: Allocator>(
    back: Reply<K, V, P, A>,
) -> Result<()>
    ensures fails { IsErr result }
    ensures says { result ≡ kept_as back }
    ensures refused { IfErr result (λ e. is_wait_error e ≡ true) }
{
    match back {
        Reply::Refused(kind, _) => Err(wait_error(kind)),
        _ => Err(Error::Io),
    }
}

// The outcome of the cleans. `first` is the error of the first clean that failed.
pub(crate) fn answer_cleaned<K: Drop, V: Drop, P: Drop, A: Allocator>(
    last: Reply<K, V, P, A>,
    first: Option<Error>,
) -> Result<()>
    ensures says { result ≡ destroyed_as last first }
    ensures refused { IfErr result (λ e. (is_wait_error e ≡ true) ⊎ (first ≡ Some e)) }
{
    match last {
        Reply::Destroyed(None) => Ok(()),
        Reply::Destroyed(Some(_)) => Err(first.unwrap_or(Error::Io)),
        other => answer_kept(other),
    }
}
