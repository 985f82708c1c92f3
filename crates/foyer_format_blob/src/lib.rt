//! The index that a blob begins with: where each of its records lies.
#![tactic(auto)]

mod blob;

pub use blob::{BlobEntryIndex, BlobIndex, BlobIndexReader};
pub use foyer_format_record as format_record;
