//! Recovery: what an opening makes of the bytes of all blocks and of the marks of deletes. It makes an index, the next sequence, and the
//! list of clean blocks.
#![tactic(auto)]

pub mod block;
pub mod laws;
