//! Limits, counters, filters and the monitored engine, each at concrete types.

mod counters;
mod filters;
mod limits;
mod monitors;
