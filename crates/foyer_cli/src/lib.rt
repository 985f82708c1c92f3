//! What the programs read and print: their arguments, their lines, and what failed.
#![tactic(auto)]

pub mod command;
pub mod faults;
pub mod lines;
pub mod options;
pub mod words;
