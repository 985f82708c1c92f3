//! What a seat knows. Only contracts use it: no value of this type is made.
use std::collections::LinkedList;

/// The parts that the seat has, what it recorded on each counter, and the most that it saw there.
pub struct View {
    pub parts: u64,
    pub recorded: LinkedList<u64>,
    pub saw: LinkedList<u64>,
}
