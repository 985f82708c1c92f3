//! Threads that ask one store at once, and judge each answer by what they put last.
#![tactic(auto)]

pub mod soak;
