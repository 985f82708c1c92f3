//! Tests of the bytes that stand on a device.
#![tactic(auto)]

#[cfg(test)]
mod tests;
