//! Reads C text of the fragment: the program for which a text stands.
#![tactic(auto)]

mod blocks;
mod build;
mod consume;
mod error;
mod exprs;
mod lines;
mod read;
mod words;

pub use build::program_of;
pub use error::ReadCError;
pub use read::read_c;

#[cfg(test)]
mod tests;
