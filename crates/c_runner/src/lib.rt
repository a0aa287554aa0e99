//! Runs a C program by workers that step its threads, with the history of its events and the end of the run.
#![tactic(auto)]

mod machine;
mod outlook;
mod run;
mod run_end;
mod standing;

pub use run::{Ran, run_threads};
pub use run_end::RunEnd;

#[cfg(test)]
mod tests;
