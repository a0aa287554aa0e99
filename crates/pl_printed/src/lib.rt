//! The laws of printing: what is printed is read again as the same program but for places.
#![tactic(auto)]

mod laws;

pub use laws::{places_are_not_printed, printed_is_read, printed_is_read_once, read_is_printable};
