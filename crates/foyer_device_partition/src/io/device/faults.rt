//! What the system said of a device's files.
ghost use Rattle.std.specs.Prelude.{◌≡◌};

use std::fmt::{Debug, Formatter};
use std::sync::atomic::{AtomicI32, AtomicU64, Ordering};
use std::{fmt, io};

// Stands for the directory, where a file's number is expected.
const DIRECTORY: u64 = u64::MAX;

/// A call on a directory or on a file of it that failed.
#[derive(Clone, Copy, Debug, PartialEq, Eq)]
pub struct FileFault {
    /// The system's number of the error, or 0 if it gave none.
    pub code: i32,
    /// The file's number, or `None` for the directory itself.
    pub file: Option<u32>,
}

/// Notes why the system refused to make or to open a device's files. Whoever opens a cache passes it to the device's builder and to the
/// config of the I/O engines, and asks it after an opening that failed with `Io`.
pub struct FileFaults {
    code: AtomicI32,
    file: AtomicU64,
}

// Written out, so that it is proved once.
impl Drop for FileFaults {
    fn drop(self) {
        let FileFaults { code: _, file: _ } = self;
    }
}

/// The type's name.
impl Debug for FileFaults {
    fn fmt<W: fmt::Write>(&self, f: &mut Formatter<W>) -> fmt::Result {
        f.write_str("FileFaults")
    }
}

impl FileFaults {
    /// Begins with no fault.
    pub fn new() -> FileFaults {
        FileFaults {
            code: AtomicI32::new(0),
            file: AtomicU64::new(DIRECTORY),
        }
    }

    /// Notes a call that failed, on the file of this number or on the directory. It replaces the one before.
    pub fn note(&self, error: &io::Error, file: Option<u32>) {
        let number = match file {
            Some(file) => u64::from(file),
            None => DIRECTORY,
        };
        self.file.store(number, Ordering::Relaxed);
        self.code
            .store(error.raw_os_error().unwrap_or(0), Ordering::Relaxed);
    }

    /// The call that failed last. `None` if none failed, or the system gave no number.
    pub fn last(&self) -> Option<FileFault> {
        let code = self.code.load(Ordering::Relaxed);
        if code == 0 {
            return None;
        }
        let file = u32::try_from(self.file.load(Ordering::Relaxed)).ok();
        Some(FileFault { code, file })
    }
}
