// What a worker's seat at the counter knows.
use std::collections::LinkedList;

/// The claims of a worker, for contracts alone: no value of it is made.
pub struct Hand {
    /// The numbers that it drew.
    pub drawn: LinkedList<u64>,
    /// The claims that it has left.
    pub left: u64,
    /// The claims that a worker begins with.
    pub each: u64,
    /// The claims of all workers.
    pub all: u64,
}
