//! Answers as replies have them: a code, and bytes.
ghost use Rattle.std.specs.Prelude.{◌≡◌, [], Bool, Result};
ghost use Rattle.foyer_device_page.specs.declared.error.Error.{Error};
ghost use Rattle.foyer_device_page.specs.Error.{kind_of};
ghost use Rattle.foyer_pipe.specs.Codes.{done_code, error_code, fault_code, get_bytes, get_code, put_code, whether_code, done_unless_abandoned};

use crate::codes::{
    DELETED, DONE, ENTRY, IGNORED, MISS, NO, THROTTLED, YES, error_code, fault_code,
};
use foyer_device_page::error::{Error, Result};
use foyer_format_record::serde::NoProperties;
use foyer_frames::request::Fault;
use foyer_storage_cores_run::build::engine::engine::Enqueued;
use foyer_storage_cores_run::build::engine::load::Load;
use std::alloc::Global;

/// An answer as a reply has it. Only the functions below make one, each of what it answers.
#[derive(Clone, Copy)]
pub(crate) struct Coded<'a> {
    code: u8,
    bytes: &'a [u8],
}

impl<'a> Coded<'a> {
    // A code alone.
    fn of_code(code: u8) -> Coded<'a>
        ensures { (result.code ≡ code) × (result.bytes.now ≡ []) }
    {
        Coded { code, bytes: &[] }
    }

    /// The code.
    pub(crate) fn code(&self) -> u8
        ensures { result ≡ self.now.code }
    {
        self.code
    }

    /// The bytes.
    pub(crate) fn bytes(&self) -> &'a [u8]
        ensures { result ≡ self.now.bytes }
    {
        self.bytes
    }

    /// The answer to a put.
    pub(crate) fn of_put(put: &Result<Enqueued>) -> Coded<'a>
        ensures { (result.code ≡ put_code put.now) × (result.bytes.now ≡ []) }
    {
        Coded::of_code(match put {
            Ok(Enqueued::Queued) => DONE,
            Ok(Enqueued::Ignored) => IGNORED,
            Ok(Enqueued::Deleted) => DELETED,
            Err(error) => error_code(error.kind()),
        })
    }

    /// The answer to a delete, a wait, a destroy or a close.
    pub(crate) fn of_done(done: &Result<()>) -> Coded<'a>
        ensures { (result.code ≡ done_code done.now) × (result.bytes.now ≡ []) }
    {
        Coded::of_code(match done {
            Ok(()) => DONE,
            Err(error) => error_code(error.kind()),
        })
    }

    /// The answer to the question whether the cache has a key's hash.
    pub(crate) fn of_whether(has: &Result<bool>) -> Coded<'a>
        ensures { (result.code ≡ whether_code has.now) × (result.bytes.now ≡ []) }
    {
        Coded::of_code(match has {
            Ok(true) => YES,
            Ok(false) => NO,
            Err(error) => error_code(error.kind()),
        })
    }

    /// The answer to a get.
    pub(crate) fn of_load(
        got: &'a Result<Load<Vec<u8, Global>, Vec<u8, Global>, NoProperties, Global>>,
    ) -> Coded<'a>
        ensures code { result.code ≡ get_code got.entry.now }
        ensures bytes { result.bytes.now ≡ get_bytes got.entry.now }
    {
        match got {
            Ok(Load::Entry { value, .. }) => Coded {
                code: ENTRY,
                bytes: value.as_slice(),
            },
            Ok(Load::Piece { piece, .. }) => Coded {
                code: ENTRY,
                bytes: piece.value().as_slice(),
            },
            Ok(Load::Miss) => Coded {
                code: MISS,
                bytes: &[],
            },
            Ok(Load::Throttled) => Coded {
                code: THROTTLED,
                bytes: &[],
            },
            Err(error) => Coded {
                code: error_code(error.kind()),
                bytes: &[],
            },
        }
    }

    /// The answer to a question for the counters or for the program's version, whose bytes these are.
    pub(crate) fn of_bytes(bytes: &'a [u8]) -> Coded<'a>
        ensures { (result.code ≡ 0) × (result.bytes.now ≡ bytes.now) }
    {
        Coded { code: DONE, bytes }
    }

    /// The answer to a request that was refused with this error.
    pub(crate) fn of_error(error: Error) -> Coded<'a>
        ensures { (result.code ≡ error_code (kind_of error)) × (result.bytes.now ≡ []) }
    {
        Coded::of_code(error_code(error.kind()))
    }

    /// The answer to bytes that are no frame.
    pub(crate) fn of_fault(fault: Fault) -> Coded<'a>
        ensures { (result.code ≡ fault_code fault) × (result.bytes.now ≡ []) }
    {
        Coded::of_code(fault_code(fault))
    }
}

/// What a wait or a close answers, if puts that were answered before may have been abandoned since: `Io` in place of `Ok`.
pub(crate) fn done_unless_abandoned(done: Result<()>, is_abandoned: bool) -> Result<()>
    ensures { result ≡ done_unless_abandoned done is_abandoned }
{
    match done {
        Ok(()) => { if is_abandoned { Err(Error::Io) } else { Ok(()) } }
        Err(error) => Err(error),
    }
}
