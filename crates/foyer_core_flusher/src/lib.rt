//! A flusher: what waits in its queue, the records that it received since its batch before, and the batch that it
//! writes block by block.
#![tactic(auto)]

pub mod batch;
pub mod begin;
pub mod clearing;
pub mod committing;
pub mod filled;
pub mod flusher;
pub mod issuing;
pub mod laws;
pub mod logged;
pub mod marking;
pub mod receive;
pub mod submission;

pub use foyer_core_blocks as core_blocks;
pub use foyer_core_blocks::core_laws;
