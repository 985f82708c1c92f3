//! What tests are made of: an allocator that refuses, a disk that fails, forged blocks, their descriptions, a text of what was
//! answered, and the first line of it that isn't as wanted.
#![tactic(auto)]

pub mod failing;
pub mod forged;
pub mod images;
pub mod refusing;
pub mod rows;
pub mod said;
