//! Statements that are one line.

ghost use Rattle.std.specs.Prelude.{◌≡◌, [], map, IfOk};
ghost use Rattle.c_forms.specs.Plain as written;
ghost use Rattle.c_rules.specs.Sorts as rules;
ghost use Rattle.c_syntax.specs.Plain.{plain_expr, plain_stmt, plain_stmts};
ghost use Rattle.c_syntax.specs.Tree as t;
ghost use Rattle.c_reader.specs.Standing as spec;

use crate::exprs::{cell_of, expr_of, exprs_of};
use crate::words::{copy_name, copy_type, local_of};
use c_forms::{Argument, Cell, Expr, Load, Maker, Par, Right};
use c_syntax::{CExpr, CStmt, CType, Local};
use pl_base::{Items, Memory, Name};
use std::alloc::Global;

/// `T x = e;`
fn let_of(alloc: Global, kind: &CType, local: Local, e: &Expr) -> Result<CStmt, Memory>
    ensures { IfOk result (λ s. plain_stmt s ≡ t.Let kind.now local (spec.expr_of (written.plain_expr e.now))) }
{
    let kind = copy_type(alloc, kind)?;
    let e = expr_of(alloc, e)?;
    Ok(CStmt::Let(kind, local, e))
}

/// `T x = c;`
fn load_of(alloc: Global, kind: &CType, local: Local, cell: &Cell) -> Result<CStmt, Memory>
    ensures { IfOk result (λ s. plain_stmt s ≡ t.Load kind.now local (spec.cell_of (written.plain_cell cell.now))) }
{
    let kind = copy_type(alloc, kind)?;
    let cell = cell_of(alloc, cell)?;
    Ok(CStmt::Load(kind, local, cell))
}

/// A block of one cell.
fn made_of(
    alloc: Global,
    maker: Maker,
    kind: &CType,
    local: Local,
    e: &Expr,
) -> Result<CStmt, Memory>
    ensures { IfOk result (λ s. plain_stmt s ≡ spec.made_of maker kind.now local (spec.expr_of (written.plain_expr e.now))) }
{
    let e = expr_of(alloc, e)?;
    match maker {
        Maker::Atomic => Ok(CStmt::NewAtomic(local, e)),
        _ => {
            let kind = copy_type(alloc, kind)?;
            Ok(CStmt::New(kind, local, e))
        }
    }
}

/// `T x = p_array(e, n);`
fn array_of(
    alloc: Global,
    kind: &CType,
    local: Local,
    e: &Expr,
    count: &Expr,
) -> Result<CStmt, Memory>
    ensures { IfOk result (λ s. plain_stmt s ≡ t.NewArray kind.now local (spec.expr_of (written.plain_expr e.now)) (spec.expr_of (written.plain_expr count.now))) }
{
    let kind = copy_type(alloc, kind)?;
    let e = expr_of(alloc, e)?;
    let count = expr_of(alloc, count)?;
    Ok(CStmt::NewArray(kind, local, e, count))
}

/// `T x = f_f(args);`
fn call_let_of(
    alloc: Global,
    kind: &CType,
    local: Local,
    f: &Name,
    args: &[Expr],
) -> Result<CStmt, Memory>
    ensures { IfOk result (λ s. plain_stmt s ≡ t.CallLet kind.now local f.now (map spec.expr_of (map written.plain_expr args.now))) }
{
    let kind = copy_type(alloc, kind)?;
    let f = copy_name(alloc, f)?;
    let args = exprs_of(alloc, args)?;
    Ok(CStmt::CallLet(kind, local, f, args))
}

/// `T x = p_cas(a, d, e);`
fn swap_of(
    alloc: Global,
    local: Local,
    base: &c_forms::Local,
    old: &Expr,
    new: &Expr,
) -> Result<CStmt, Memory>
    ensures { IfOk result (λ s. plain_stmt s ≡ t.Cas local (rules.local_of base.now) (spec.expr_of (written.plain_expr old.now)) (spec.expr_of (written.plain_expr new.now))) }
{
    let base = local_of(alloc, base)?;
    let old = expr_of(alloc, old)?;
    let new = expr_of(alloc, new)?;
    Ok(CStmt::Cas(local, base, old, new))
}

/// A block for a structure, without its first values.
fn bare_of(alloc: Global, local: Local, structure: &Name) -> Result<CStmt, Memory>
    ensures { IfOk result (λ s. plain_stmt s ≡ t.NewStruct local structure.now []) }
{
    let structure = copy_name(alloc, structure)?;
    Ok(CStmt::NewStruct(local, structure, Items::of(Vec::new(alloc))))
}

/// `T x = right;`
pub(crate) fn bind_of(
    alloc: Global,
    kind: &CType,
    x: &c_forms::Local,
    right: &Right,
) -> Result<CStmt, Memory>
    ensures { IfOk result (λ s. plain_stmt s ≡ spec.bind_of kind.now (rules.local_of x.now) (written.plain_right right.now)) }
{
    let local = local_of(alloc, x)?;
    match right {
        Right::Value(e) => let_of(alloc, kind, local, e),
        Right::Load(cell) => load_of(alloc, kind, local, cell),
        Right::New(maker, e) => made_of(alloc, *maker, kind, local, e),
        Right::Array(e, count) => array_of(alloc, kind, local, e, count),
        Right::Struct(structure) => bare_of(alloc, local, structure),
        Right::Lock => Ok(CStmt::NewLock(local)),
        Right::Call(f, args) => call_let_of(alloc, kind, local, f, args.as_slice()),
        Right::AtomicLoad(base) => {
            let base = local_of(alloc, base)?;
            Ok(CStmt::AtomicLoad(local, base))
        }
        Right::Read => Ok(CStmt::Read(local)),
        Right::Cas(base, old, new) => swap_of(alloc, local, base, old, new),
    }
}

/// The loads in the head of a loop.
#[tactic(auto, using(crate::proofs::FollowLaws::follow_end, crate::proofs::FollowLaws::follow_push))]
pub(crate) fn loads_of(alloc: Global, list: &[Load]) -> Result<Items<CStmt>, Memory>
    ensures { IfOk result (λ made. plain_stmts made ≡ spec.loads_of (map written.plain_load list.now)) }
{
    let mut made = Vec::with_capacity(alloc, list.len())?;
    for l in list {
        let local = local_of(alloc, &l.local)?;
        let next = load_of(alloc, &l.kind, local, &l.cell)?;
        made.push(next)?;
    }
    Ok(Items::of(made))
}

/// `c = e;`
pub(crate) fn store_of(alloc: Global, cell: &Cell, e: &Expr) -> Result<CStmt, Memory>
    ensures { IfOk result (λ s. plain_stmt s ≡ t.Store (spec.cell_of (written.plain_cell cell.now)) (spec.expr_of (written.plain_expr e.now))) }
{
    let cell = cell_of(alloc, cell)?;
    let e = expr_of(alloc, e)?;
    Ok(CStmt::Store(cell, e))
}

/// `atomic_store(a, e);`
pub(crate) fn atomic_store_of(
    alloc: Global,
    base: &c_forms::Local,
    e: &Expr,
) -> Result<CStmt, Memory>
    ensures { IfOk result (λ s. plain_stmt s ≡ t.AtomicStore (rules.local_of base.now) (spec.expr_of (written.plain_expr e.now))) }
{
    let base = local_of(alloc, base)?;
    let e = expr_of(alloc, e)?;
    Ok(CStmt::AtomicStore(base, e))
}

/// `f_f(args);`
pub(crate) fn call_of(alloc: Global, f: &Name, args: &[Expr]) -> Result<CStmt, Memory>
    ensures { IfOk result (λ s. plain_stmt s ≡ t.Call f.now (map spec.expr_of (map written.plain_expr args.now))) }
{
    let f = copy_name(alloc, f)?;
    let args = exprs_of(alloc, args)?;
    Ok(CStmt::Call(f, args))
}

/// The arguments that are handed over.
fn handed_of(alloc: Global, list: &[Argument]) -> Result<Items<CExpr>, Memory>
    ensures { IfOk result (λ made. map plain_expr made ≡ map (λ a. spec.expr_of a.value) (map written.plain_argument list.now)) }
{
    let mut made = Vec::with_capacity(alloc, list.len())?;
    for a in list {
        let next = expr_of(alloc, &a.value)?;
        made.push(next)?;
    }
    Ok(Items::of(made))
}

/// The bracketed lines of a `par`.
pub(crate) fn par_of(alloc: Global, p: &Par) -> Result<CStmt, Memory>
    ensures { IfOk result (λ s. plain_stmt s ≡ t.Par p.now.structure (map (λ a. spec.expr_of a.value) (map written.plain_argument p.now.arguments)) p.now.other (map spec.expr_of (map written.plain_expr p.now.others))) }
{
    let f = copy_name(alloc, &p.structure)?;
    let args = handed_of(alloc, p.arguments.as_slice())?;
    let g = copy_name(alloc, &p.other)?;
    let others = exprs_of(alloc, p.others.as_slice())?;
    Ok(CStmt::Par(f, args, g, others))
}
