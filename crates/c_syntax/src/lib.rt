//! The tree of a fragment of C11 (ISO/IEC 9899:2011), with the one text of each of its programs and the rules that they keep.
#![tactic(auto)]

mod expr;
mod kind;
mod program;
mod stmt;

pub use expr::{CCell, CExpr, COp};
pub use kind::{CType, Local};
pub use program::{CFun, CMember, CParam, CProgram, CStruct};
pub use stmt::{CInit, CStmt};

#[cfg(test)]
mod tests;
