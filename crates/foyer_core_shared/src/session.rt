//! Sessions: who asks a shared core.
pub use crate::locked::Session;
