//! Expressions and cells of the program for which a text stands.

ghost use Rattle.std.specs.Prelude.{◌≡◌, map, IfOk};
ghost use Rattle.c_forms.specs.Plain as written;
ghost use Rattle.c_syntax.specs.Plain.{plain_expr, plain_cell};
ghost use Rattle.c_reader.specs.Standing as spec;

use crate::words::{copy_name, local_of};
use c_forms::{Cell, Expr};
use c_syntax::{CCell, CExpr};
use pl_base::{Items, Memory};
use std::alloc::Global;

/// The expression that is written.
pub(crate) fn expr_of(alloc: Global, e: &Expr) -> Result<CExpr, Memory>
    ensures { IfOk result (λ made. plain_expr made ≡ spec.expr_of (written.plain_expr e.now)) }
{
    match e {
        Expr::Int(n) => Ok(CExpr::Int(*n)),
        Expr::Truth(b) => Ok(CExpr::Truth(*b)),
        Expr::Null => Ok(CExpr::Null),
        Expr::Var(x) => {
            let local = local_of(alloc, x)?;
            Ok(CExpr::Var(local))
        }
        Expr::Neg(inner) => {
            let inner = expr_of(alloc, inner)?;
            Ok(CExpr::Neg(Box::new(alloc, inner)?))
        }
        Expr::Not(inner) => {
            let inner = expr_of(alloc, inner)?;
            Ok(CExpr::Not(Box::new(alloc, inner)?))
        }
        Expr::Bin(op, left, right) => {
            let left = expr_of(alloc, left)?;
            let right = expr_of(alloc, right)?;
            let left = Box::new(alloc, left)?;
            let right = Box::new(alloc, right)?;
            Ok(CExpr::Bin(*op, left, right))
        }
    }
}

/// Expressions in a row.
pub(crate) fn exprs_of(alloc: Global, list: &[Expr]) -> Result<Items<CExpr>, Memory>
    ensures { IfOk result (λ made. map plain_expr made ≡ map spec.expr_of (map written.plain_expr list.now)) }
{
    let mut made = Vec::with_capacity(alloc, list.len())?;
    for e in list {
        let next = expr_of(alloc, e)?;
        made.push(next)?;
    }
    Ok(Items::of(made))
}

/// The cell that is written.
pub(crate) fn cell_of(alloc: Global, cell: &Cell) -> Result<CCell, Memory>
    ensures { IfOk result (λ made. plain_cell made ≡ spec.cell_of (written.plain_cell cell.now)) }
{
    match cell {
        Cell::Whole(base) => {
            let base = local_of(alloc, base)?;
            Ok(CCell::Whole(base))
        }
        Cell::At(base, index) => {
            let base = local_of(alloc, base)?;
            let index = expr_of(alloc, index)?;
            Ok(CCell::At(base, index))
        }
        Cell::Field(base, member) => {
            let base = local_of(alloc, base)?;
            let member = copy_name(alloc, member)?;
            Ok(CCell::Field(base, member))
        }
    }
}
