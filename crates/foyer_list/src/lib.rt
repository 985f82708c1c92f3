//! A list of what the blocks of a directory hold, for whoever operates such a cache: each block's entries, which of them
//! an opening would find, and why the block's chain of indices ends. Nothing is written.
#![tactic(auto)]

pub mod files;
pub mod lines;
pub mod list;
pub mod listing;
pub mod verdict;
