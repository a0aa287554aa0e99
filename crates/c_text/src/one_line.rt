//! Statements of one line, and structures that are made.

ghost use Rattle.std.specs.Prelude.{[], map};
ghost use Rattle.c_syntax.specs.Plain.{plain_expr, plain_cell, plain_init};
ghost use Rattle.c_syntax.specs.Text.{init_text, stmt_text};
ghost use Rattle.c_syntax.specs.Tree as t;
ghost use Rattle.c_text.specs.Adds.{Adds};

use crate::lines::{Piece, put_statement};
use c_syntax::{CCell, CExpr, CInit, CType, Local};
use pl_base::{Memory, Name};

pub(crate) fn put_let<'a>(
    out: &mut Vec<u8>,
    level: u32,
    kind: &'a CType,
    x: &'a Local,
    e: &'a CExpr,
) -> Result<(), Memory>
    ensures { Adds result out.old out.new (stmt_text level (t.Let kind.now x.now (plain_expr e.now))) }
{
    let pieces = [
        Piece::Type(kind),
        Piece::Local(x),
        Piece::Text(" = "),
        Piece::Expr(e),
    ];
    put_statement(out, level, &pieces)
}

pub(crate) fn put_load<'a>(
    out: &mut Vec<u8>,
    level: u32,
    kind: &'a CType,
    x: &'a Local,
    cell: &'a CCell,
) -> Result<(), Memory>
    ensures { Adds result out.old out.new (stmt_text level (t.Load kind.now x.now (plain_cell cell.now))) }
{
    let pieces = [
        Piece::Type(kind),
        Piece::Local(x),
        Piece::Text(" = "),
        Piece::Cell(cell),
    ];
    put_statement(out, level, &pieces)
}

pub(crate) fn put_store<'a>(
    out: &mut Vec<u8>,
    level: u32,
    cell: &'a CCell,
    e: &'a CExpr,
) -> Result<(), Memory>
    ensures { Adds result out.old out.new (stmt_text level (t.Store (plain_cell cell.now) (plain_expr e.now))) }
{
    let pieces = [Piece::Cell(cell), Piece::Text(" = "), Piece::Expr(e)];
    put_statement(out, level, &pieces)
}

pub(crate) fn put_new<'a>(
    out: &mut Vec<u8>,
    level: u32,
    kind: &'a CType,
    x: &'a Local,
    e: &'a CExpr,
) -> Result<(), Memory>
    ensures { Adds result out.old out.new (stmt_text level (t.New kind.now x.now (plain_expr e.now))) }
{
    let pieces = [
        Piece::Type(kind),
        Piece::Local(x),
        Piece::Text(" = "),
        Piece::Maker(kind),
        Piece::Expr(e),
        Piece::Text(")"),
    ];
    put_statement(out, level, &pieces)
}

pub(crate) fn put_new_array<'a>(
    out: &mut Vec<u8>,
    level: u32,
    kind: &'a CType,
    x: &'a Local,
    e: &'a CExpr,
    count: &'a CExpr,
) -> Result<(), Memory>
    ensures { Adds result out.old out.new (stmt_text level (t.NewArray kind.now x.now (plain_expr e.now) (plain_expr count.now))) }
{
    let pieces = [
        Piece::Type(kind),
        Piece::Local(x),
        Piece::Text(" = p_array("),
        Piece::Expr(e),
        Piece::Text(", "),
        Piece::Expr(count),
        Piece::Text(")"),
    ];
    put_statement(out, level, &pieces)
}

pub(crate) fn put_new_atomic<'a>(
    out: &mut Vec<u8>,
    level: u32,
    x: &'a Local,
    e: &'a CExpr,
) -> Result<(), Memory>
    ensures { Adds result out.old out.new (stmt_text level (t.NewAtomic x.now (plain_expr e.now))) }
{
    let pieces = [
        Piece::Text("p_atomic *"),
        Piece::Local(x),
        Piece::Text(" = p_new_atomic("),
        Piece::Expr(e),
        Piece::Text(")"),
    ];
    put_statement(out, level, &pieces)
}

pub(crate) fn put_free(out: &mut Vec<u8>, level: u32, base: &Local) -> Result<(), Memory>
    ensures { Adds result out.old out.new (stmt_text level (t.Free base.now)) }
{
    let pieces = [Piece::Text("free("), Piece::Local(base), Piece::Text(")")];
    put_statement(out, level, &pieces)
}

pub(crate) fn put_atomic_load<'a>(
    out: &mut Vec<u8>,
    level: u32,
    x: &'a Local,
    base: &'a Local,
) -> Result<(), Memory>
    ensures { Adds result out.old out.new (stmt_text level (t.AtomicLoad x.now base.now)) }
{
    let pieces = [
        Piece::Text("int64_t "),
        Piece::Local(x),
        Piece::Text(" = atomic_load("),
        Piece::Local(base),
        Piece::Text(")"),
    ];
    put_statement(out, level, &pieces)
}

pub(crate) fn put_atomic_store<'a>(
    out: &mut Vec<u8>,
    level: u32,
    base: &'a Local,
    e: &'a CExpr,
) -> Result<(), Memory>
    ensures { Adds result out.old out.new (stmt_text level (t.AtomicStore base.now (plain_expr e.now))) }
{
    let pieces = [
        Piece::Text("atomic_store("),
        Piece::Local(base),
        Piece::Text(", "),
        Piece::Expr(e),
        Piece::Text(")"),
    ];
    put_statement(out, level, &pieces)
}

pub(crate) fn put_cas<'a>(
    out: &mut Vec<u8>,
    level: u32,
    x: &'a Local,
    base: &'a Local,
    old: &'a CExpr,
    new: &'a CExpr,
) -> Result<(), Memory>
    ensures { Adds result out.old out.new (stmt_text level (t.Cas x.now base.now (plain_expr old.now) (plain_expr new.now))) }
{
    let pieces = [
        Piece::Text("bool "),
        Piece::Local(x),
        Piece::Text(" = p_cas("),
        Piece::Local(base),
        Piece::Text(", "),
        Piece::Expr(old),
        Piece::Text(", "),
        Piece::Expr(new),
        Piece::Text(")"),
    ];
    put_statement(out, level, &pieces)
}

pub(crate) fn put_new_lock(out: &mut Vec<u8>, level: u32, x: &Local) -> Result<(), Memory>
    ensures { Adds result out.old out.new (stmt_text level (t.NewLock x.now)) }
{
    let pieces = [
        Piece::Text("struct p_lock *"),
        Piece::Local(x),
        Piece::Text(" = p_lock_new()"),
    ];
    put_statement(out, level, &pieces)
}

pub(crate) fn put_acquire(out: &mut Vec<u8>, level: u32, lock: &Local) -> Result<(), Memory>
    ensures { Adds result out.old out.new (stmt_text level (t.Acquire lock.now)) }
{
    let pieces = [
        Piece::Text("p_acquire("),
        Piece::Local(lock),
        Piece::Text(")"),
    ];
    put_statement(out, level, &pieces)
}

pub(crate) fn put_release(out: &mut Vec<u8>, level: u32, lock: &Local) -> Result<(), Memory>
    ensures { Adds result out.old out.new (stmt_text level (t.Release lock.now)) }
{
    let pieces = [
        Piece::Text("p_release("),
        Piece::Local(lock),
        Piece::Text(")"),
    ];
    put_statement(out, level, &pieces)
}

pub(crate) fn put_read(out: &mut Vec<u8>, level: u32, x: &Local) -> Result<(), Memory>
    ensures { Adds result out.old out.new (stmt_text level (t.Read x.now)) }
{
    let pieces = [
        Piece::Text("int64_t "),
        Piece::Local(x),
        Piece::Text(" = p_read()"),
    ];
    put_statement(out, level, &pieces)
}

pub(crate) fn put_print(out: &mut Vec<u8>, level: u32, e: &CExpr) -> Result<(), Memory>
    ensures { Adds result out.old out.new (stmt_text level (t.Print (plain_expr e.now))) }
{
    let pieces = [Piece::Text("p_print("), Piece::Expr(e), Piece::Text(")")];
    put_statement(out, level, &pieces)
}

pub(crate) fn put_call<'a>(
    out: &mut Vec<u8>,
    level: u32,
    f: &'a Name,
    args: &'a [CExpr],
) -> Result<(), Memory>
    ensures { Adds result out.old out.new (stmt_text level (t.Call f.now (map plain_expr args.now))) }
{
    let pieces = [Piece::Call(f, args)];
    put_statement(out, level, &pieces)
}

pub(crate) fn put_call_let<'a>(
    out: &mut Vec<u8>,
    level: u32,
    kind: &'a CType,
    x: &'a Local,
    f: &'a Name,
    args: &'a [CExpr],
) -> Result<(), Memory>
    ensures { Adds result out.old out.new (stmt_text level (t.CallLet kind.now x.now f.now (map plain_expr args.now))) }
{
    let pieces = [
        Piece::Type(kind),
        Piece::Local(x),
        Piece::Text(" = "),
        Piece::Call(f, args),
    ];
    put_statement(out, level, &pieces)
}

pub(crate) fn put_return(out: &mut Vec<u8>, level: u32, e: &CExpr) -> Result<(), Memory>
    ensures { Adds result out.old out.new (stmt_text level (t.Return (plain_expr e.now))) }
{
    let pieces = [Piece::Text("return "), Piece::Expr(e)];
    put_statement(out, level, &pieces)
}

/// The first value of one member.
fn put_init<'a>(out: &mut Vec<u8>, level: u32, x: &'a Local, init: &'a CInit) -> Result<(), Memory>
    ensures { Adds result out.old out.new (init_text level x.now (plain_init init.now)) }
{
    let pieces = [
        Piece::Field(x, &init.name),
        Piece::Text(" = "),
        Piece::Expr(&init.value),
    ];
    put_statement(out, level, &pieces)
}

/// The line that makes a structure, before its first values.
fn put_made<'a>(out: &mut Vec<u8>, level: u32, x: &'a Local, name: &'a Name) -> Result<(), Memory>
    ensures { Adds result out.old out.new (stmt_text level (t.NewStruct x.now name.now [])) }
{
    let pieces = [
        Piece::StructPointer(name),
        Piece::Local(x),
        Piece::Text(" = p_get(sizeof("),
        Piece::Struct(name),
        Piece::Text("))"),
    ];
    put_statement(out, level, &pieces)
}

pub(crate) fn put_new_struct<'a>(
    out: &mut Vec<u8>,
    level: u32,
    x: &'a Local,
    name: &'a Name,
    inits: &'a [CInit],
) -> Result<(), Memory>
    ensures { Adds result out.old out.new (stmt_text level (t.NewStruct x.now name.now (map plain_init inits.now))) }
{
    put_made(out, level, x, name)?;
    for init in inits {
        put_init(out, level, x, init)?;
    }
    Ok(())
}
