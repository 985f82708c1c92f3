//! A store over several cores: engines beside each other, each with a part of the hashes, a session and ledgers of its own.
#![tactic(auto)]

pub mod engines;
pub mod kinds;
pub mod sessions;
