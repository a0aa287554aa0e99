//! What the checker knows: terms over numbered variables, atoms of terms, and the table of statements.
#![tactic(auto)]

mod laws;
mod term;

pub use laws::atom_laws;
pub use term::Term;
