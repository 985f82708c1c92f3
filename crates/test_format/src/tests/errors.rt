//! The texts of errors, as logs and users search for them.

use foyer_device_page::error::{Error, ErrorKind};
use std::test::Fail;

const TEXTS: [(Error, &str); 13] = [
    (Error::Io, "I/O error"),
    (Error::Memory, "out of memory"),
    (Error::Config, "invalid configuration"),
    (Error::Parse, "malformed data"),
    (Error::MagicMismatch, "bad magic number"),
    (Error::ChecksumMismatch, "checksum mismatch"),
    (Error::OutOfRange, "out of range"),
    (Error::BufferSizeLimit, "buffer size limit exceeded"),
    (Error::NoSpace, "no space left on the device"),
    (Error::Recover, "recovery failed"),
    (Error::Closed, "closed"),
    (Error::Unsupported, "not supported"),
    (Error::SequenceEnd, "sequence numbers exhausted"),
];

#[test]
fn each_error_has_its_text(rt: HostRuntime) -> Result<(), Fail> {
    for (error, text) in &TEXTS {
        let shown = format!(in rt.alloc(); "{error}")?;
        assert_eq!(rt; shown.as_str(), *text);
    }
    Ok(())
}

const NAMES: [(ErrorKind, u8, &str); 13] = [
    (ErrorKind::Io, 1, "Io"),
    (ErrorKind::Memory, 2, "Memory"),
    (ErrorKind::Config, 3, "Config"),
    (ErrorKind::Parse, 4, "Parse"),
    (ErrorKind::MagicMismatch, 5, "MagicMismatch"),
    (ErrorKind::ChecksumMismatch, 6, "ChecksumMismatch"),
    (ErrorKind::OutOfRange, 7, "OutOfRange"),
    (ErrorKind::BufferSizeLimit, 8, "BufferSizeLimit"),
    (ErrorKind::NoSpace, 9, "NoSpace"),
    (ErrorKind::Recover, 10, "Recover"),
    (ErrorKind::Closed, 11, "Closed"),
    (ErrorKind::Unsupported, 12, "Unsupported"),
    (ErrorKind::SequenceEnd, 13, "SequenceEnd"),
];

#[test]
fn each_kind_has_its_number_and_its_name(rt: HostRuntime) -> Result<(), Fail> {
    for (kind, number, name) in &NAMES {
        let shown = format!(in rt.alloc(); "{kind}")?;
        assert_eq!(rt; shown.as_str(), *name);
        assert_eq!(rt; *kind as u8, *number);
    }
    Ok(())
}
