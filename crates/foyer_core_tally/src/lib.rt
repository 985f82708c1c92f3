//! How often steps of each kind were made: a book of them, and shares of the book.
#![tactic(auto)]

mod blanks;
pub mod book;
pub mod kinds;
