//! Tests of the public surface: each name under its module's path and at the root, by `foyer_storage` alone.
#![tactic(auto)]

#[cfg(test)]
mod tests;
