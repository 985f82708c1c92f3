//! A flush's records in memory and over blocks: the buffer that they are written into, and the splitter that lays them
//! out over blocks, blobs and parts. A blob's index is re-exported from `foyer_format_blob`.
#![tactic(auto)]

ghost use Rattle.std.specs.Prelude.{◌≡◌, ◌<◌, ◌^◌};
ghost use Rattle.foyer_format_layout.specs.Page.{page_up};

use foyer_format_blob::format_record::block::buffer::whole_pages;
use foyer_format_blob::format_record::block::serde::Sequence;

pub mod block;
mod entries;
pub mod laws;
mod pages;
mod split;
mod split_progress;

pub use entries::Buffer;
pub use foyer_format_blob as format_blob;
pub use foyer_format_blob::{BlobEntryIndex, BlobIndex, BlobIndexReader};
pub use split::{Batch, BlobPart, Block, SplitCtx, Splitter};

/// Where a record is in a buffer: its first byte, and its length without the padding.
#[derive(Clone, Copy, Debug)]
pub struct BufferEntryInfo {
    /// The hash of its key.
    pub hash: u64,
    /// The sequence of the put.
    pub sequence: Sequence,
    /// Where it begins in the buffer, in bytes.
    pub offset: usize,
    /// Its length in bytes, before it is rounded up to whole pages.
    pub len: usize,
}

impl BufferEntryInfo {
    /// The bytes that the record takes with its padding.
    pub fn aligned(&self) -> usize
        requires { page_up self.now.len < 2 ^ 64 }
        ensures { result ≡ page_up self.now.len }
    {
        whole_pages(self.len)
    }
}
