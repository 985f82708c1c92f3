//! The reclaims of blocks, and the flusher of the crate `foyer_core_flusher`.

pub mod reclaimer;

pub use foyer_core_flusher::flusher;
