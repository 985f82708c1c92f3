//! Blocks.

pub mod eviction;
mod fifo;
pub mod ids;
pub mod manager;
mod picker;
mod queue;
mod ratio;
pub mod states;
