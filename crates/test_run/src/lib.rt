//! Tests of a core over a disk, step by step; of a core whose memory is refused at any place; and of an engine whose keys, values,
//! pickers, conditions and hashers are careless.
#![tactic(auto)]

#[cfg(test)]
mod tests;
