//! The buffer of entries, the splitter that lays them out, and the index of a blob.

pub use crate::{
    Batch, BlobEntryIndex, BlobIndex, BlobIndexReader, BlobPart, Block, Buffer, BufferEntryInfo,
    SplitCtx, Splitter,
};
pub use foyer_format_blob::format_record::block::buffer::{PAGE, whole_pages};
