//! The canonical text of a source program.
#![tactic(auto)]

mod decls;
mod exprs;
mod lets;
mod pieces;
mod props;
mod simple;
mod stmts;
mod terms;
mod whole;
mod words;

pub use whole::{print, print_expr, print_prop};

#[cfg(test)]
mod tests;
