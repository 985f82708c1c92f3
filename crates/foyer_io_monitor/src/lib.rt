//! An I/O engine that counts what it does.
//!
//! Each read and write is the inner engine's, with its buffer, its outcome and its bytes on the disk. Once it has
//! completed, with a success or a refusal, it is recorded: the bytes that were asked for, and the calls that they count.
//! A refused one is recorded too, even if its range isn't there.
#![tactic(auto)]

pub mod monitor;

pub use monitor::MonitoredIoEngine;
