//! The tree of a file from its tokens.
#![tactic(auto)]

mod decls;
mod error;
mod files;
mod laws;
mod whole;

pub use error::ParseError;
pub use laws::{refusals_are_one, stops_come_first};
pub use whole::parse;

#[cfg(test)]
mod tests;
