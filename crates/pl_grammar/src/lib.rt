//! The grammar of a file, with the laws of its readers, and the reading of expressions and propositions.
#![tactic(auto)]

mod atoms;
mod exprs;
mod laws;
mod part;
mod perms;
mod props;
mod terms;
mod tokens;

pub use atoms::labelled;
pub use laws::{bounded_files_are_read, files_are_read, reading_on_tells};
pub use part::PropPart;
pub use props::{prop, whole_prop};
pub use terms::{arguments, binder, binders, cell, cell_behind, instance, summed, value};
pub use tokens::{begins, begins_label, begins_number, name, no_brace, number, sign};

#[cfg(test)]
mod tests;
