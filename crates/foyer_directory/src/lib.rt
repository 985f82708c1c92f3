//! A directory that has a cache: one program has it at a time, and its shape stays as it was made.
#![tactic(auto)]

pub mod lock;
pub mod shape;
mod streams;
