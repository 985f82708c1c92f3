//! Tests of a core behind its lock, and of an engine's calls over it.
#![tactic(auto)]

#[cfg(test)]
mod tests;
