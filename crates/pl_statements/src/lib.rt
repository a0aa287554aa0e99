//! The statements and blocks of a file.
#![tactic(auto)]

mod blocks;
mod lets;
mod simple;

pub use blocks::block;
