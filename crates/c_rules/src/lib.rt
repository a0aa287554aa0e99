//! The rules on sorts, names, numbers of locals, prototypes and threads of a written C text: the first place that breaks one.
#![tactic(auto)]

mod binds;
mod breach;
mod calls;
mod cells;
mod declared_names;
mod exprs;
mod funs;
mod heads;
mod kinds;
mod lengths;
mod locals;
mod one_line;
mod places;
mod prototypes;
mod seen;
mod started;
mod starters;
mod stmts;
mod tables;
mod threads;

pub use breach::first_breach;
pub use declared_names::struct_table;
pub use exprs::number_of;
pub use one_line::{FirstValue, next_member, value_line};

#[cfg(test)]
mod tests;
