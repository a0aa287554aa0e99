//! The program's top call: words, source files, their canonical text, the walk, the C of a program, runs and replays of C, and
//! the lines.
#![tactic(auto)]

mod commands;
mod emit;
mod fetch;
mod input;
mod judge;
mod laws;
mod lines;
mod plan;
mod run;
mod top;
mod words;

pub use laws::{emitted_laws, stored_laws};
pub use top::{check_command, pulse_main, run_command};

#[cfg(test)]
mod tests;
