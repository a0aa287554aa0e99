//! The laws of runs: a program that derives is good, and its runs are those of its C program.
#![tactic(auto)]

mod laws;

pub use laws::{run_laws, same_run_laws};
