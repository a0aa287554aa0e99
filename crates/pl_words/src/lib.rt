//! The command words of the program.
#![tactic(auto)]

mod command;
mod making;
mod numbers;
mod reading;
mod table;
mod words;

pub use command::{Command, RunOpts, UsageKind, WordError};
pub use words::read_words;

#[cfg(test)]
mod tests;
