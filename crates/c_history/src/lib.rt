//! The histories of runs of a C program: their text, and their replay.
#![tactic(auto)]

mod actions;
mod error;
mod fields;
mod laws;
mod numbers;
mod reading;
mod replaying;
mod verbs;
mod writing;

pub use error::HistoryError;
pub use laws::{one_reading, one_replay};
pub use reading::read_history;
pub use replaying::{Replayed, replay};
pub use writing::{event_line, write_history};

#[cfg(test)]
mod tests;
