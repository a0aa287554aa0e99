use crate::expr::{Binder, Expr};
use crate::prop::{Body, Prop};
use crate::stmt::Stmts;
use pl_base::{Items, Name, Pos};

/// A structure. The place of each declaration is its name's.
#[derive(Debug, Drop)]
pub struct StructDecl {
    pub pos: Pos,
    pub name: Name,
    pub fields: Items<Binder>,
}

/// A predicate.
#[derive(Debug, Drop)]
pub struct PredDecl {
    pub pos: Pos,
    pub name: Name,
    pub params: Items<Binder>,
    pub body: Body,
}

/// A function. `before` is its `requires` and `after` its `ensures`; each is `emp` where there is none.
#[derive(Debug, Drop)]
pub struct FunDecl {
    pub pos: Pos,
    pub is_ghost: bool,
    pub name: Name,
    pub params: Items<Binder>,
    pub opens: bool,
    pub before: Prop,
    pub result: Option<Binder>,
    pub after: Prop,
    pub measure: Option<Expr>,
    pub body: Stmts,
}

#[derive(Debug, Drop)]
pub enum Decl {
    Struct(StructDecl),
    Pred(PredDecl),
    Fun(FunDecl),
}

/// The declarations of a file, in its order.
#[derive(Debug, Drop)]
pub struct Program {
    pub decls: Items<Decl>,
}
