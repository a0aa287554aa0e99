//! The forms of the C text: what is written in a text, before any two places of it are compared.
#![tactic(auto)]

mod blocks;
mod cells;
mod error;
mod exprs;
mod heads;
mod lines;
mod lists;
mod loops;
mod names;
mod pars;
mod reading;
mod rights;
mod source;
mod starters;
mod stmt;
mod structs;
mod word;
mod words;

pub use error::FormsError;
pub use reading::read_forms;
pub use source::{Fun, Head, Member, Param, Slot, Source, Starter, Struct};
pub use stmt::{Argument, Load, Maker, Par, Right, Stmt};
pub use word::{Cell, Expr, Local, Number};

#[cfg(test)]
mod tests;
