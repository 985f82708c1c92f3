//! What flushers and reclaimers do.
pub mod flusher;
pub mod reclaimer;
