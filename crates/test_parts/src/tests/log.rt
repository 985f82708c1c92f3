//! The log over memory, with and without faults.

mod counts;
mod disks;
mod faults;
mod images;
mod pages;
mod rows;
