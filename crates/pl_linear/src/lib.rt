//! Certificates: sums of facts which show that a form is at most 0, and where there is none, numbers that meet the facts.
#![tactic(auto)]

mod below;
mod bounds;
mod certificate;
mod confirming;
mod deciding;
mod differing;
mod ends;
mod finding;
mod found;
mod hint;
mod laws;
mod nodes;

pub use certificate::checks;
pub use confirming::confirms;
pub use deciding::decide;
pub use ends::{Ends, ends_of};
pub use finding::{find, find_with};
pub use found::{Decided, Found, NodeValue};
pub use hint::{HintTerm, Hinted, by_hint};
pub use laws::duty_laws;

#[cfg(test)]
mod duty_tests;
#[cfg(test)]
mod hint_tests;
#[cfg(test)]
mod tests;
