//! Tests of the block sets, the pickers and the scan.
#![tactic(auto)]

#[cfg(test)]
mod tests;
