//! Tests of a store whose loads are proved newest.
#![tactic(auto)]

#[cfg(test)]
mod tests;
