//! Keys and values as bytes, and the bytes of an entry. The codes are re-exported from `foyer_format_code`.

mod ages;
mod entries;
mod hash;

pub use ages::{Age, NoProperties, Properties};
pub use entries::{EntryDeserializer, EntrySerializer, KvInfo};
pub use foyer_format_checksum::Checksummer;
pub use foyer_format_code::{Code, Sink, StorageKey, StorageValue, TrackedWriter};
pub use hash::{HashBuilder, IdentityHashBuilder, StdHashBuilder};
