//! Tests of the engine on one thread: scripts over memory and over directories, reclaims that have records written again, types of a
//! caller's, random scripts, and each fault of a script in turn. Beside them stand the list of a directory and the lines of an input.
#![tactic(auto)]

#[cfg(test)]
mod tests;
