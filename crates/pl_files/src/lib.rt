//! Source files: the program of a file's bytes, or why they are none.
#![tactic(auto)]

mod error;
mod laws;
mod reading;

pub use error::FileError;
pub use laws::{files_are_one, names_are_proper};
pub use reading::{parse_file, read_file};

#[cfg(test)]
mod tests;
