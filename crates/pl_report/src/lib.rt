//! The one line of each refusal.
#![tactic(auto)]

mod lines;
mod places;
mod refusal;
mod runs;
mod words;

pub use lines::line_of;
pub use refusal::{At, Refusal};

#[cfg(test)]
mod tests;
