//! Readers: what takes the front of a list of symbols, and says where it stopped. The languages that they read, the
//! readers and what it means that one is right for the other stand in `specs/`.
#![tactic(auto)]

pub mod bytes;
mod error;
mod laws;

pub use error::{ReadError, Stop, refused, too_deep};
pub use laws::{
    Format, FormatBehind, LeveledFormat, choices_agree, deep_reads, either_reads, last_symbol,
    loop_turns, looser_reads, mapped_reads, nothing_reads, number_reads, one_reads, parts_agree,
    refuse_reads, repeat_reads, then_reads, whole_none, whole_reads, word_reads,
};

#[cfg(test)]
mod tests;
