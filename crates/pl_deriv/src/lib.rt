//! Derivations of functions, in which all that a walk looks for is given.
#![tactic(auto)]

mod laws;

pub use laws::derivation_laws;
