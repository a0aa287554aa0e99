//! Items done by workers that claim them from one shared counter, each item once.
#![tactic(auto)]

mod counter;
mod hand;
mod order;
mod run;
mod work;
mod workers;

pub use run::run_claims;
pub use work::Work;

#[cfg(test)]
mod tests;
