//! Marks of deletes, and the log that keeps them on a device.

mod log;
mod mark_log;
mod marks;
mod page;
mod pages;

pub use foyer_block_index::tombstone::Tombstone;
pub use log::TombstoneLog;
pub use mark_log::{MarkLog, NoLog, log_pages};
pub use page::PageBuffer;
