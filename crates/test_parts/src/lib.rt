//! Tests of the parts below the core: devices and I/O engines, the log of deletes, counters and limits, the keeper, an engine's
//! sizes.
#![tactic(auto)]

#[cfg(test)]
mod tests;
