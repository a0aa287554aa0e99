//! Names, sorts, ghost flow, opening and measures of a program: its first breach of these rules, or the program as a typed one.
#![tactic(auto)]

mod actions;
mod arguments;
mod binders;
mod breach;
mod calls;
mod cells;
mod checks;
mod decls;
mod error;
mod exprs;
mod kinds;
mod known_names;
mod numbers;
mod permissions;
mod plains;
mod props;
mod reals;
mod scopes;
mod seen;
mod simple;
mod spots;
mod stmts;
mod tables;

pub use checks::type_check;
pub use error::TypeError;

#[cfg(test)]
mod tests;
