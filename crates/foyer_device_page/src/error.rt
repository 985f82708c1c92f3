//! What a call answers in place of its result.
ghost use Rattle.std.specs.Prelude.{◌≡◌, Some};
ghost use Rattle.foyer_device_page.specs.Error.{kind_name, kind_of, IsFaultOf};
ghost use Rattle.foyer_device_page.specs.declared.error.Error.TheVariants.{Memory};

use std::alloc::{AllocError, AllocFailed};
use std::{fmt, io};
use thiserror::Error;

/// The kind of an error, with its name in the program and a stable number. It prints as its name.
#[derive(Clone, Copy, Debug, PartialEq, Eq)]
pub enum ErrorKind {
    /// As `Error::Io`.
    Io = 1,
    /// As `Error::Memory`.
    Memory = 2,
    /// As `Error::Config`.
    Config = 3,
    /// As `Error::Parse`.
    Parse = 4,
    /// As `Error::MagicMismatch`.
    MagicMismatch = 5,
    /// As `Error::ChecksumMismatch`.
    ChecksumMismatch = 6,
    /// As `Error::OutOfRange`.
    OutOfRange = 7,
    /// As `Error::BufferSizeLimit`.
    BufferSizeLimit = 8,
    /// As `Error::NoSpace`.
    NoSpace = 9,
    /// As `Error::Recover`.
    Recover = 10,
    /// As `Error::Closed`.
    Closed = 11,
    /// As `Error::Unsupported`.
    Unsupported = 12,
    /// As `Error::SequenceEnd`.
    SequenceEnd = 13,
}

impl ErrorKind {
    /// Its name.
    pub fn name(&self) -> &'static str
        ensures { result.now ≡ kind_name self.now }
    {
        match self {
            ErrorKind::Io => "Io",
            ErrorKind::Memory => "Memory",
            ErrorKind::Config => "Config",
            ErrorKind::Parse => "Parse",
            ErrorKind::MagicMismatch => "MagicMismatch",
            ErrorKind::ChecksumMismatch => "ChecksumMismatch",
            ErrorKind::OutOfRange => "OutOfRange",
            ErrorKind::BufferSizeLimit => "BufferSizeLimit",
            ErrorKind::NoSpace => "NoSpace",
            ErrorKind::Recover => "Recover",
            ErrorKind::Closed => "Closed",
            ErrorKind::Unsupported => "Unsupported",
            ErrorKind::SequenceEnd => "SequenceEnd",
        }
    }
}

impl fmt::Display for ErrorKind {
    ghost output = { λ k. Some (kind_name k) };

    fn fmt<W: fmt::Write>(&self, f: &mut fmt::Formatter<W>) -> fmt::Result {
        f.write_str(self.name())
    }
}

/// What a call gives in place of its result. A refused call leaves its object as it was, unless the call's comment says otherwise.
#[derive(Clone, Copy, Debug, PartialEq, Eq, Error)]
pub enum Error {
    /// The device, the system's clock, or the writer that a code or a serializer was given, failed. Or a flush can't end, since a write was
    /// never reported.
    #[error("I/O error")]
    Io,
    /// An allocation was refused, a thread couldn't be made, or a shared value has as many owners as can be counted.
    #[error("out of memory")]
    Memory,
    /// A setting or an argument that isn't valid, or settings that don't go together.
    #[error("invalid configuration")]
    Config,
    /// Bytes that decode to no value, or a text that names none.
    #[error("malformed data")]
    Parse,
    /// A header that begins with another magic.
    #[error("bad magic number")]
    MagicMismatch,
    /// Bytes that have another checksum than the one that was given.
    #[error("checksum mismatch")]
    ChecksumMismatch,
    /// An id, a page or a range that isn't there, or a size or a count that passes its type's end.
    #[error("out of range")]
    OutOfRange,
    /// A writer that has no room for all the bytes.
    #[error("buffer size limit exceeded")]
    BufferSizeLimit,
    /// A size that exceeds what the device has free, or no block that can be reclaimed.
    #[error("no space left on the device")]
    NoSpace,
    /// A block that could not be read while opening strictly.
    #[error("recovery failed")]
    Recover,
    /// The engine is closed: it takes no more entries, deletes or destroys.
    #[error("closed")]
    Closed,
    /// A compression other than `None`, which this engine neither applies nor undoes.
    #[error("not supported")]
    Unsupported,
    /// The sequences, the steps, or the numbers of a keeper's shard are used up.
    #[error("sequence numbers exhausted")]
    SequenceEnd,
}

/// The result of a call.
pub type Result<T> = std::result::Result<T, Error>;

impl Error {
    /// The kind of this error.
    pub fn kind(&self) -> ErrorKind
        ensures { result ≡ kind_of self.now }
    {
        match self {
            Error::Io => ErrorKind::Io,
            Error::Memory => ErrorKind::Memory,
            Error::Config => ErrorKind::Config,
            Error::Parse => ErrorKind::Parse,
            Error::MagicMismatch => ErrorKind::MagicMismatch,
            Error::ChecksumMismatch => ErrorKind::ChecksumMismatch,
            Error::OutOfRange => ErrorKind::OutOfRange,
            Error::BufferSizeLimit => ErrorKind::BufferSizeLimit,
            Error::NoSpace => ErrorKind::NoSpace,
            Error::Recover => ErrorKind::Recover,
            Error::Closed => ErrorKind::Closed,
            Error::Unsupported => ErrorKind::Unsupported,
            Error::SequenceEnd => ErrorKind::SequenceEnd,
        }
    }
}

impl From<AllocError> for Error {
    ghost from_gives = { λ _ e. e ≡ Memory };

    fn from(_e: AllocError) -> Error {
        Error::Memory
    }
}

impl<T: Drop> From<AllocFailed<T>> for Error {
    ghost from_gives = { λ _ e. e ≡ Memory };

    fn from(_e: AllocFailed<T>) -> Error {
        Error::Memory
    }
}

// A writer that takes nothing more is full; every other failure is the writer's own.
impl From<io::Error> for Error {
    ghost from_gives = { λ io e. IsFaultOf io e };

    fn from(e: io::Error) -> Error {
        match e.kind() {
            io::ErrorKind::WriteZero => Error::BufferSizeLimit,
            _ => Error::Io,
        }
    }
}
