//! Linear forms, facts about them, equations that are solved, and rows of numbers in which sums are made.
#![tactic(auto)]

mod assuming;
mod between;
mod equation;
mod fact;
mod form;
mod goal;
mod row;
mod solving;
mod step;
mod tightening;

pub use assuming::{assume, assume_under};
pub use between::terms_between;
pub use equation::{Eqs, Reduced, Solution, counts, reduce, reduce_with};
pub use fact::{Cert, CertItem, EqTerm, Fact, Facts, Shape};
pub use form::{Form, Part, TermError};
pub use goal::{Goal, Group};
pub use row::{add_form, add_row, tighten};
pub use tightening::{common_divisor, tighten_form};

#[cfg(test)]
mod tests;
