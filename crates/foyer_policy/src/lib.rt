//! What is admitted, and what is kept until it is written.
//!
//! A door: it re-exports names of its parts, `foyer_policy_filter`, `foyer_policy_piece` and `foyer_policy_keeper`, and has no
//! code of its own.
#![tactic(auto)]

pub mod filter;
pub mod keeper;
