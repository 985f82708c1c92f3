//! The error for the kind of a refusal.
ghost use Rattle.std.specs.Prelude.{◌≡◌};
ghost use Rattle.foyer_core_steps.specs.Refusals.{error_of};

use foyer_device_page::error::{Error, ErrorKind};

/// The error of a kind.
pub fn error_of(kind: ErrorKind) -> Error
    ensures { result ≡ error_of kind }
{
    match kind {
        ErrorKind::Io => Error::Io,
        ErrorKind::Memory => Error::Memory,
        ErrorKind::Config => Error::Config,
        ErrorKind::Parse => Error::Parse,
        ErrorKind::MagicMismatch => Error::MagicMismatch,
        ErrorKind::ChecksumMismatch => Error::ChecksumMismatch,
        ErrorKind::OutOfRange => Error::OutOfRange,
        ErrorKind::BufferSizeLimit => Error::BufferSizeLimit,
        ErrorKind::NoSpace => Error::NoSpace,
        ErrorKind::Recover => Error::Recover,
        ErrorKind::Closed => Error::Closed,
        ErrorKind::Unsupported => Error::Unsupported,
        ErrorKind::SequenceEnd => Error::SequenceEnd,
    }
}
