//! A program over a store of byte strings, for clients in any language. It reads requests and writes replies as frames (`foyer_frames`).
#![tactic(auto)]

mod answers;
mod coded;
pub mod codes;
pub mod options;
mod readers;
mod replies;
pub mod serve;
mod task;
