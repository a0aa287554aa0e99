//! Erasure: from a straight program to its program of C.
#![tactic(auto)]

mod rows;

pub use rows::erase;
