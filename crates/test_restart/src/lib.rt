//! Tests of recovery over forged and random blocks, and of what an opening finds on a stopped run's bytes.
#![tactic(auto)]

#[cfg(test)]
mod tests;
