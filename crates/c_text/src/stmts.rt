//! Statements.

ghost use Rattle.std.specs.Prelude.{◌++◌, [], ◌∷◌, ◌+◌, ◌≤◌, map, codes};
ghost use Rattle.c_syntax.specs.Forms.{deepest, stmt_depth, stmts_depth};
ghost use Rattle.c_syntax.specs.Plain.{plain_expr, plain_stmt, plain_stmts};
ghost use Rattle.c_syntax.specs.Text.{arguments_name, expr_text, argument_lines, joined, line, starter_name, statement, stmt_text, stmts_text};
ghost use Rattle.c_syntax.specs.Tree as t;
ghost use Rattle.c_text.specs.Adds.{Adds};

use crate::lines::{Piece, put_line, put_statement};
use crate::one_line::{
    put_acquire, put_atomic_load, put_atomic_store, put_call, put_call_let, put_cas, put_free,
    put_let, put_load, put_new, put_new_array, put_new_atomic, put_new_lock, put_new_struct,
    put_print, put_read, put_release, put_return, put_store,
};
use c_syntax::{CExpr, CStmt};
use pl_base::{Memory, Name};

/// A line for each argument of a thread's first call.
fn put_argument_lines(out: &mut Vec<u8>, level: u32, args: &[CExpr]) -> Result<(), Memory>
    ensures { Adds result out.old out.new (argument_lines level 1 (map plain_expr args.now)) }
{
    for (i, e) in args.iter().enumerate() {
        let pieces = [
            Piece::Text("q->"),
            Piece::Argument(i as u64 + 1),
            Piece::Text(" = "),
            Piece::Expr(e),
        ];
        put_statement(out, level, &pieces)?;
    }
    Ok(())
}

/// The lines that start a thread, before its arguments are handed over.
fn put_thread_opened(out: &mut Vec<u8>, level: u32, f: &Name) -> Result<(), Memory>
    requires { level + 1 ≤ deepest }
    ensures { Adds result out.old out.new (
        line level (codes "{" ∷ []) ++
        statement (level + 1) (arguments_name f.now ∷ codes " *q = p_get(sizeof(" ∷ arguments_name f.now ∷ codes "))" ∷ [])) }
{
    put_line(out, level, &[Piece::Text("{")])?;
    let pieces = [
        Piece::Arguments(f),
        Piece::Text(" *q = p_get(sizeof("),
        Piece::Arguments(f),
        Piece::Text("))"),
    ];
    put_statement(out, level + 1, &pieces)
}

fn put_forked(out: &mut Vec<u8>, level: u32, f: &Name) -> Result<(), Memory>
    ensures { Adds result out.old out.new (
        statement level (codes "thrd_t t = p_fork(" ∷ starter_name f.now ∷ codes ", q)" ∷ [])) }
{
    let pieces = [
        Piece::Text("thrd_t t = p_fork("),
        Piece::Starter(f),
        Piece::Text(", q)"),
    ];
    put_statement(out, level, &pieces)
}

fn put_par<'a>(
    out: &mut Vec<u8>,
    level: u32,
    f: &'a Name,
    args: &'a [CExpr],
    g: &'a Name,
    others: &'a [CExpr],
) -> Result<(), Memory>
    requires { level + 1 ≤ deepest }
    ensures { Adds result out.old out.new (
        stmt_text level (t.Par f.now (map plain_expr args.now) g.now (map plain_expr others.now))) }
{
    put_thread_opened(out, level, f)?;
    put_argument_lines(out, level + 1, args)?;
    put_forked(out, level + 1, f)?;
    put_call(out, level + 1, g, others)?;
    put_statement(out, level + 1, &[Piece::Text("p_join(t)")])?;
    put_line(out, level, &[Piece::Text("}")])
}

fn put_condition(out: &mut Vec<u8>, level: u32, e: &CExpr) -> Result<(), Memory>
    ensures { Adds result out.old out.new (
        line level (codes "if (" ∷ expr_text (plain_expr e.now) ∷ codes ") {" ∷ [])) }
{
    let pieces = [Piece::Text("if ("), Piece::Expr(e), Piece::Text(") {")];
    put_line(out, level, &pieces)
}

/// The lines that end a loop where its test fails.
fn put_test(out: &mut Vec<u8>, level: u32, e: &CExpr) -> Result<(), Memory>
    requires { level ≤ deepest }
    ensures { Adds result out.old out.new (joined (
        line level (codes "if (!" ∷ expr_text (plain_expr e.now) ∷ codes ") {" ∷ []) ∷
        statement (level + 1) (codes "break" ∷ []) ∷ [])
        (line level (codes "}" ∷ []))) }
{
    let pieces = [Piece::Text("if (!"), Piece::Expr(e), Piece::Text(") {")];
    put_line(out, level, &pieces)?;
    put_statement(out, level + 1, &[Piece::Text("break")])?;
    put_line(out, level, &[Piece::Text("}")])
}

#[cycle(stmt)]
fn put_stmt(out: &mut Vec<u8>, level: u32, s: &CStmt) -> Result<(), Memory>
    requires { level + stmt_depth (plain_stmt s.now) ≤ deepest }
    ensures { Adds result out.old out.new (stmt_text level (plain_stmt s.now)) }
{
    match s {
        CStmt::Let(kind, x, e) => put_let(out, level, kind, x, e),
        CStmt::Load(kind, x, cell) => put_load(out, level, kind, x, cell),
        CStmt::Store(cell, e) => put_store(out, level, cell, e),
        CStmt::New(kind, x, e) => put_new(out, level, kind, x, e),
        CStmt::NewArray(kind, x, e, count) => put_new_array(out, level, kind, x, e, count),
        CStmt::NewAtomic(x, e) => put_new_atomic(out, level, x, e),
        CStmt::NewStruct(x, name, inits) => put_new_struct(out, level, x, name, inits.as_slice()),
        CStmt::Free(base) => put_free(out, level, base),
        CStmt::AtomicLoad(x, base) => put_atomic_load(out, level, x, base),
        CStmt::AtomicStore(base, e) => put_atomic_store(out, level, base, e),
        CStmt::Cas(x, base, old, new) => put_cas(out, level, x, base, old, new),
        CStmt::NewLock(x) => put_new_lock(out, level, x),
        CStmt::Acquire(lock) => put_acquire(out, level, lock),
        CStmt::Release(lock) => put_release(out, level, lock),
        CStmt::Read(x) => put_read(out, level, x),
        CStmt::Print(e) => put_print(out, level, e),
        CStmt::Call(f, args) => put_call(out, level, f, args.as_slice()),
        CStmt::CallLet(kind, x, f, args) => put_call_let(out, level, kind, x, f, args.as_slice()),
        CStmt::Par(f, args, g, others) => {
            put_par(out, level, f, args.as_slice(), g, others.as_slice())
        }
        CStmt::If(e, first, second) => {
            put_condition(out, level, e)?;
            put_stmts(out, level + 1, first.as_slice())?;
            put_line(out, level, &[Piece::Text("} else {")])?;
            put_stmts(out, level + 1, second.as_slice())?;
            put_line(out, level, &[Piece::Text("}")])
        }
        CStmt::While(loads, e, body) => {
            put_line(out, level, &[Piece::Text("while (1) {")])?;
            put_stmts(out, level + 1, loads.as_slice())?;
            put_test(out, level + 1, e)?;
            put_stmts(out, level + 1, body.as_slice())?;
            put_line(out, level, &[Piece::Text("}")])
        }
        CStmt::Return(e) => put_return(out, level, e),
    }
}

#[cycle(stmt)]
pub(crate) fn put_stmts(out: &mut Vec<u8>, level: u32, list: &[CStmt]) -> Result<(), Memory>
    requires { level + stmts_depth (plain_stmts list.now) ≤ deepest }
    ensures { Adds result out.old out.new (stmts_text level (plain_stmts list.now)) }
{
    for s in list {
        put_stmt(out, level, s)?;
    }
    Ok(())
}
