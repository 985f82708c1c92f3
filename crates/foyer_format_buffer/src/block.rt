//! What the block engine keeps on its device, re-exported under the module paths of foyer-storage.

pub mod buffer;

pub use foyer_format_blob::format_record::block::serde;
