//! Where the newest record of a hash is.
pub use foyer_block_index::indexer::{
    EntryAddress, HashedEntryAddress, Index, Indexer, Probe, search,
};
