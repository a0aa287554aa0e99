//! The one text of a C program.
#![tactic(auto)]

mod exprs;
mod lines;
mod one_line;
mod pieces;
mod prelude_text;
mod program;
mod started;
mod stmts;
mod write;

pub use write::write_c;

#[cfg(test)]
mod tests;
