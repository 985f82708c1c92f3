//! What a device did: the bytes and calls that were read and written, counted without a lock, and how long its limits
//! make a caller wait.
//!
//! The four counters are in one table. Whoever records or reads them has a `Seat`. To add to a counter or to load it takes
//! no memory and waits for nobody. A seat knows what it recorded and the most that it saw of each counter, and never
//! sees less than either. All seats together have 2^32 parts. A seat can split off others, and join them again. The seat
//! that has all parts has all that was recorded, which `Statistics::close` gives.
//!
//! What is counted is exact while each counter's sum stays below 2^64.
#![tactic(auto)]

pub mod meters;
pub mod recorder;
mod rule;
pub mod state;
pub mod statistics;
pub mod view;

pub use meters::Meters;
pub use recorder::Recorder;
pub use state::{IoState, Totals};
pub use statistics::{Seat, Statistics};
