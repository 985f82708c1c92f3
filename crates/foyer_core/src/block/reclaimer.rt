//! Reclaims: the listing of a block, the cleaner of blocks, and the record that is to be written again.
pub use foyer_core_access::reclaims::BlockCleaner;
pub use foyer_core_flusher::flusher::Reinsertion;
pub use foyer_core_steps::block::reclaimer::{Lists, Reclaimer, ReclaimerTrait, Wanted};
