//! What an engine on one thread is asked, as rows of text, and what it answers.

mod asked;
mod directories;
mod lines;
mod listed;
mod memories;
mod moves;
mod over;
mod own;
mod random;
mod rows;
mod sweeps;
