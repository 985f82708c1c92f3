//! A flusher: its queue, its batch, and the writes that it issues.
pub use foyer_block_index::tombstone::InvalidStats;
pub use foyer_core_flusher::batch::{Ended, Next, Wrote};
pub use foyer_core_flusher::flusher::{
    Flusher, Invalidated, Reinsertion, Submission, TombstoneInfo, Write, WriteBytes,
};
pub use foyer_core_flusher::receive::Taken;
