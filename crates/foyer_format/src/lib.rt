//! The bytes on a device: codes of keys and values, records with their headers, blob indices, the buffer and its splitter.
//!
//! A door: it re-exports names of its parts, `foyer_format_checksum`, `foyer_format_code`, `foyer_format_record`,
//! `foyer_format_blob` and `foyer_format_buffer`, and has no code of its own.
#![tactic(auto)]

pub use foyer_format_buffer::block;
pub use foyer_format_record::{compress, serde};
