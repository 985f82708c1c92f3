//! Blocks.

mod blocks;
mod chain;
mod kept;
pub mod listing;
mod marks;
pub mod recover;
