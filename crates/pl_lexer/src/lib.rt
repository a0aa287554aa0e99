//! The tokens of a file.
#![tactic(auto)]

mod error;
mod kinds;
mod laws;
mod lexing;
mod places;
mod scan;
mod signs;
mod tokens;

pub use error::LexError;
pub use laws::{pieces_are_found, pieces_stand_for, tokens_are_one, tokens_are_proper};
pub use lexing::lex;
pub use tokens::{Kind, Token, Tokens};

#[cfg(test)]
mod tests;
