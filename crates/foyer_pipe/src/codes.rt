//! The codes of replies.
ghost use Rattle.std.specs.Prelude.{◌≡◌};
ghost use Rattle.foyer_pipe.specs.Codes.{error_code, fault_code};

use foyer_device_page::error::ErrorKind;
use foyer_frames::request::Fault;

/// Done. A put is queued. A delete is accepted. A wait, a destroy or a close has ended. To `c` the counters follow, a line for each.
pub const DONE: u8 = 0;

/// A get's value.
pub const ENTRY: u8 = 1;

/// There is nothing under the key.
pub const MISS: u8 = 2;

/// A put that isn't taken, since its value is young. Nothing is deleted. This program has no young values.
pub const IGNORED: u8 = 3;

/// A put that isn't taken, since too much is queued or a limit of writes holds it back. Its key is deleted.
pub const DELETED: u8 = 4;

/// A limit of reads holds the get back: nothing was read.
pub const THROTTLED: u8 = 5;

/// The cache has the key's hash.
pub const YES: u8 = 6;

/// The cache doesn't have the key's hash.
pub const NO: u8 = 7;

/// Gives the code of an error: 64 plus the kind's number, from 65 for `Io` to 77 for `SequenceEnd`.
pub fn error_code(kind: ErrorKind) -> u8
    ensures { result ≡ error_code kind }
{
    match kind {
        ErrorKind::Io => 65,
        ErrorKind::Memory => 66,
        ErrorKind::Config => 67,
        ErrorKind::Parse => 68,
        ErrorKind::MagicMismatch => 69,
        ErrorKind::ChecksumMismatch => 70,
        ErrorKind::OutOfRange => 71,
        ErrorKind::BufferSizeLimit => 72,
        ErrorKind::NoSpace => 73,
        ErrorKind::Recover => 74,
        ErrorKind::Closed => 75,
        ErrorKind::Unsupported => 76,
        ErrorKind::SequenceEnd => 77,
    }
}

/// Gives the code for bytes that are no frame, 128 to 133. The program ends after them.
pub fn fault_code(fault: Fault) -> u8
    ensures { result ≡ fault_code fault }
{
    match fault {
        Fault::Short => 128,
        Fault::UnknownKind => 129,
        Fault::KeyTooLong => 130,
        Fault::ValueTooLong => 131,
        Fault::UnwantedKey => 132,
        Fault::UnwantedValue => 133,
    }
}
