//! How bytes lie in a block: what writes leave of its bytes, how far a block is filled, and whole pages. Only definitions
//! and their laws: nothing here is run.
#![tactic(auto)]
