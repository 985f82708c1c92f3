//! Stores with their workers, over memory that stays from one opening to the next, and over a file, by a clock that tests set; and the program
//! over memory and directories.

mod asked;
mod built;
mod configs;
mod counted;
mod counts;
mod dials;
mod duels;
mod faults;
mod gates;
mod limits;
mod memories;
mod options;
mod over;
mod pickers;
mod programs;
mod rows;
