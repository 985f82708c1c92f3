//! The frames of requests to a cache and of its replies, on a stream of bytes. Numbers and lengths have four bytes, the lowest first.
//!
//! A request: a kind (1 byte), the caller's own number for it (4), the lengths of its key and of its value in bytes (4 and 4),
//! the key, the value. A reply: the number of its request (4), a code (1), a length in bytes (4), that many bytes.
#![tactic(auto)]

pub mod frames;
pub mod greeting;
pub mod kind;
mod number;
pub mod read;
pub mod reply;
pub mod request;
#[cfg(test)]
mod tests;
mod window;
pub mod write;
