//! What a bench counts and draws: latencies in buckets, ranks by a Zipf distribution, and the words that say what to run.
#![tactic(auto)]

pub mod answers;
pub mod buckets;
pub mod histogram;
pub mod plan;
pub mod settings;
pub mod values;
pub mod weights;
pub mod zipf;
