//! Limits of a device's reads and writes: how many bytes and calls a second, and how long a caller waits for more.
//!
//! A `Throttle` holds the limits, an `IopsCounter` says how calls are counted. Each limit has a quota, a whole number
//! of billionths of a unit: bytes, or counted calls. It begins as 0, what is recorded lessens it, and a poll fills it
//! by the limit for each second since the poll before, up to the limit. While it is below 0 a poll answers how long
//! filling takes until it is 0.
//!
//! A `Meter` keeps only what was filled of a quota. What was recorded is counted elsewhere, without a lock, and passed
//! to each poll. So no record between two polls is lost.
#![tactic(auto)]

pub mod iops;
pub mod laws;
pub mod meter;
pub mod throttle;

pub use iops::IopsCounter;
pub use meter::Meter;
pub use throttle::Throttle;
