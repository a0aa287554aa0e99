//! Trees for tests.

use pl_base::{Items, Memory, Name, Pos};
use pl_syntax::{BinOp, Binder, Class, Expr, FunDecl, Prop, Sort, Stmt, Stmts};
use std::alloc::Global;
use std::test::*;

pub(crate) fn at() -> Pos {
    Pos {
        line: 1,
        col: 1,
        byte: 0,
    }
}

pub(crate) fn name(alloc: Global, text: &str) -> Result<Name, Memory> {
    Name::of(alloc, text)
}

pub(crate) fn int(n: i128) -> Expr {
    Expr::Int(at(), n)
}

pub(crate) fn var(alloc: Global, text: &str) -> Result<Expr, Memory> {
    Ok(Expr::Var(at(), name(alloc, text)?))
}

pub(crate) fn neg(alloc: Global, e: Expr) -> Result<Expr, Memory> {
    Ok(Expr::Neg(at(), Box::new(alloc, e)?))
}

pub(crate) fn not(alloc: Global, e: Expr) -> Result<Expr, Memory> {
    Ok(Expr::Not(at(), Box::new(alloc, e)?))
}

pub(crate) fn bin(alloc: Global, op: BinOp, left: Expr, right: Expr) -> Result<Expr, Memory> {
    let first = Box::new(alloc, left)?;
    Ok(Expr::Bin(at(), op, first, Box::new(alloc, right)?))
}

/// An operator between two variables.
pub(crate) fn two(alloc: Global, op: BinOp, left: &str, right: &str) -> Result<Expr, Memory> {
    let first = var(alloc, left)?;
    bin(alloc, op, first, var(alloc, right)?)
}

pub(crate) fn binder(
    alloc: Global,
    class: Class,
    text: &str,
    sort: Sort,
) -> Result<Binder, Memory> {
    Ok(Binder {
        pos: at(),
        class,
        name: name(alloc, text)?,
        sort,
    })
}

pub(crate) fn emp() -> Prop {
    Prop::Emp(at())
}

pub(crate) fn star(alloc: Global, left: Prop, right: Prop) -> Result<Prop, Memory> {
    let first = Box::new(alloc, left)?;
    Ok(Prop::Star(first, Box::new(alloc, right)?))
}

pub(crate) fn one<T: Drop>(alloc: Global, item: T) -> Result<Items<T>, Memory> {
    let mut list = Vec::new(alloc);
    list.push(item)?;
    Ok(Items::of(list))
}

pub(crate) fn block(list: Items<Stmt>) -> Stmts {
    Stmts { list, close: at() }
}

/// A real function without parameters and clauses.
pub(crate) fn function(alloc: Global, text: &str, body: Stmts) -> Result<FunDecl, Memory> {
    Ok(FunDecl {
        pos: at(),
        is_ghost: false,
        name: name(alloc, text)?,
        params: Items::of(Vec::new(alloc)),
        opens: false,
        before: emp(),
        result: None,
        after: emp(),
        measure: None,
        body,
    })
}
