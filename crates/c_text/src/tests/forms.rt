//! Whether a program is of the forms, for programs that are made while a test runs.

ghost use Rattle.std.specs.Prelude.{◌≡◌, ◌≤◌, false, IsTrue, map};
ghost use Rattle.std.specs.List.{AllByRecursion};
ghost use Rattle.c_syntax.specs.Forms.{AreStmtForms, HasLiterals, IsAboveZero, IsCellForm, IsExprForm, IsFunForm, IsInitForm, IsMade, IsProgramForm, IsStmtForm, IsStructForm, AreLoads, expr_depth, stmt_depth, stmts_depth};
ghost use Rattle.c_syntax.specs.Tree as t;
ghost use Rattle.c_syntax.specs.Plain.{plain_cell, plain_expr, plain_fun, plain_init, plain_program, plain_stmt, plain_stmts};

use c_syntax::{CCell, CExpr, CFun, CInit, CProgram, CStmt, CStruct, CType};

fn is_above_zero(e: &CExpr) -> bool
    ensures { result ≡ false → ¬ IsAboveZero (plain_expr e.now) }
{
    match e {
        CExpr::Int(n) => *n > 0,
        _ => false,
    }
}

fn nests(e: &CExpr, room: u32) -> bool
    ensures literals { IsTrue result → HasLiterals (plain_expr e.now) }
    ensures depth { IsTrue result → expr_depth (plain_expr e.now) ≤ room }
{
    match e {
        CExpr::Int(n) => *n >= 0 || room > 0,
        CExpr::Neg(inner) => room > 0 && !is_above_zero(inner) && nests(inner, room - 1),
        CExpr::Not(inner) => room > 0 && nests(inner, room - 1),
        CExpr::Bin(_, left, right) => room > 0 && nests(left, room - 1) && nests(right, room - 1),
        _ => true,
    }
}

fn is_expr(e: &CExpr) -> bool
    ensures { IsTrue result → IsExprForm (plain_expr e.now) }
{
    nests(e, 128)
}

fn are_exprs(list: &[CExpr]) -> bool
    ensures { IsTrue result → AllByRecursion IsExprForm (map plain_expr list.now) }
{
    for e in list {
        if !is_expr(e) {
            return false;
        }
    }
    true
}

fn is_cell(cell: &CCell) -> bool
    ensures { IsTrue result → IsCellForm (plain_cell cell.now) }
{
    match cell {
        CCell::At(_, index) => is_expr(index),
        _ => true,
    }
}

fn are_inits(list: &[CInit]) -> bool
    ensures { IsTrue result → AllByRecursion IsInitForm (map plain_init list.now) }
{
    for init in list {
        if !is_expr(&init.value) {
            return false;
        }
    }
    true
}

fn is_made(kind: &CType) -> bool
    ensures { IsTrue result → IsMade kind.now }
{
    matches!(kind, CType::PtrI64 | CType::PtrBool)
}

fn is_load(s: &CStmt) -> bool
    ensures { IsTrue result → AreLoads (t.more (plain_stmt s.now) t.end) }
{
    matches!(s, CStmt::Load(_, _, _))
}

fn are_loads(list: &[CStmt]) -> bool
    ensures { IsTrue result → AreLoads (plain_stmts list.now) }
{
    for s in list {
        if !is_load(s) {
            return false;
        }
    }
    true
}

#[cycle(forms)]
fn is_stmt(s: &CStmt, room: u32) -> bool
    ensures forms { IsTrue result → IsStmtForm (plain_stmt s.now) }
    ensures depth { IsTrue result → stmt_depth (plain_stmt s.now) ≤ room }
{
    match s {
        CStmt::Let(_, _, e) => is_expr(e),
        CStmt::Load(_, _, cell) => is_cell(cell),
        CStmt::Store(cell, e) => is_cell(cell) && is_expr(e),
        CStmt::New(kind, _, e) => is_made(kind) && is_expr(e),
        CStmt::NewArray(_, _, e, count) => is_expr(e) && is_expr(count),
        CStmt::NewAtomic(_, e) => is_expr(e),
        CStmt::NewStruct(_, _, inits) => are_inits(inits.as_slice()),
        CStmt::AtomicStore(_, e) => is_expr(e),
        CStmt::Cas(_, _, old, new) => is_expr(old) && is_expr(new),
        CStmt::Print(e) => is_expr(e),
        CStmt::Call(_, args) => are_exprs(args.as_slice()),
        CStmt::CallLet(_, _, _, args) => are_exprs(args.as_slice()),
        CStmt::Par(_, args, _, others) => room > 0
            && are_exprs(args.as_slice())
            && are_exprs(others.as_slice()),
        CStmt::If(e, first, second) => {
            room > 0
                && is_expr(e)
                && are_stmts(first.as_slice(), room - 1)
                && are_stmts(second.as_slice(), room - 1)
        }
        CStmt::While(loads, e, body) => {
            room > 0
                && are_loads(loads.as_slice())
                && are_stmts(loads.as_slice(), room - 1)
                && is_expr(e)
                && are_stmts(body.as_slice(), room - 1)
        }
        CStmt::Return(e) => is_expr(e),
        CStmt::Free(_)
        | CStmt::AtomicLoad(_, _)
        | CStmt::NewLock(_)
        | CStmt::Acquire(_)
        | CStmt::Release(_)
        | CStmt::Read(_) => true,
    }
}

#[cycle(forms)]
fn are_stmts(list: &[CStmt], room: u32) -> bool
    ensures forms { IsTrue result → AreStmtForms (plain_stmts list.now) }
    ensures depth { IsTrue result → stmts_depth (plain_stmts list.now) ≤ room }
{
    for s in list {
        if !is_stmt(s, room) {
            return false;
        }
    }
    true
}

fn is_fun(function: &CFun) -> bool
    ensures { IsTrue result → IsFunForm (plain_fun function.now) }
{
    are_stmts(function.body.as_slice(), 127)
}

fn are_funs(funs: &[CFun]) -> bool
    ensures { IsTrue result → AllByRecursion IsFunForm (map plain_fun funs.now) }
{
    for function in funs {
        if !is_fun(function) {
            return false;
        }
    }
    true
}

fn is_struct(structure: &CStruct) -> bool
    ensures { IsTrue result → IsStructForm structure.now }
{
    structure.members.as_slice().len() > 0
}

fn are_structs(structs: &[CStruct]) -> bool
    ensures { IsTrue result → AllByRecursion IsStructForm structs.now }
{
    for structure in structs {
        if !is_struct(structure) {
            return false;
        }
    }
    true
}

pub(crate) fn is_program(program: &CProgram) -> bool
    ensures { IsTrue result → IsProgramForm (plain_program program.now) }
{
    are_structs(program.structs.as_slice()) && are_funs(program.funs.as_slice())
}
