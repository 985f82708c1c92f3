//! Tests of the store with its workers, and of the program over it.
#![tactic(auto)]

#[cfg(test)]
mod tests;
