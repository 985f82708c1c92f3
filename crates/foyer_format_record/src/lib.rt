//! The bytes of entries: headers and records. The codes of keys and values are `foyer_format_code`'s.
#![tactic(auto)]

pub mod block;
pub mod compress;
pub mod laws;
pub mod serde;

pub use foyer_format_code::device_page;
