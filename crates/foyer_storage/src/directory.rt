//! The lock of a directory that has a cache, and what the directory was made for.
pub use foyer_directory::lock::{DirectoryLock, LockError};
pub use foyer_directory::shape::{DirectoryShape, LogFound, WantedShape};
