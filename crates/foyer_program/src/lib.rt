//! The program over a store with its workers: it reads lines and prints answers. This crate exports the store's crate, too.
#![tactic(auto)]

mod lines;
pub mod serve;

pub use foyer_storage_build as store;
