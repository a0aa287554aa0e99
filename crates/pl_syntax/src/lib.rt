//! The source tree, and what it means: sorts, values, resources and what holds of them.
#![tactic(auto)]

mod expr;
mod laws;
mod program;
mod prop;
mod rules;
mod stmt;
mod straight;
mod typed;
mod unbuilt;

pub use expr::{BinOp, Binder, CellExpr, Class, Expr, Instance, PermExpr, Sort};
pub use laws::straight_laws;
pub use program::{Decl, FunDecl, PredDecl, Program, StructDecl};
pub use prop::{Body, Prop};
pub use rules::{Breach, CellUse, Inside, Mode, Role, Rule, Spot};
pub use stmt::{Hint, HintTerm, Init, Key, Stmt, Stmts};
pub use straight::Straight;
pub use typed::Typed;

#[cfg(test)]
mod tests;
