//! One script of all steps under each refused allocation, and rows of an engine of careless objects.
mod careless;
mod lines;
mod steps;
mod values;
