//! Statements of one line.

ghost use Rattle.std.specs.Prelude.{◌≡◌, List, map, codes, Ok};
ghost use Rattle.pl_readers.specs.Given.{Gives};
ghost use Rattle.c_forms.specs.StmtReaders as spec;
ghost use Rattle.c_forms.specs.ExprReaders as words;
ghost use Rattle.c_forms.specs.Plain.{plain_expr, plain_right, plain_stmt};

use crate::cells::{call, cell_behind};
use crate::exprs::expr;
use crate::rights::right;
use crate::stmt::Stmt;
use crate::word::{Cell, Expr, Local};
use crate::words::{bool_type, i64_tail, local, local_tail, struct_type};
use c_syntax::CType;
use pl_readers::ReadError;
use pl_readers::bytes::{begins, word};
use std::alloc::Global;

/// A line that binds a local of this type, behind the type.
fn bound(alloc: Global, kind: CType, bytes: &[u8]) -> Result<(Stmt, &[u8]), ReadError>
    ensures { Gives (λ x. (plain_stmt x.0, x.1.now)) result (spec.bound kind bytes.now) }
{
    let (x, rest) = local(alloc, bytes)?;
    let rest = word(rest, b" = ")?;
    let (right, rest) = right(alloc, &kind, rest)?;
    let rest = word(rest, b";\n")?;
    Ok((Stmt::Bind(kind, x, Box::new(alloc, right)?), rest))
}

/// A line that binds a number or a pointer to one, behind its `i`.
#[tactic(auto, unfolding(crate::specs::StmtReaders::bind))]
pub fn bind_i64(alloc: Global, bytes: &[u8]) -> Result<(Stmt, &[u8]), ReadError>
    ensures { Gives (λ x. (plain_stmt x.0, x.1.now)) result (spec.bind words.i64_tail bytes.now) }
{
    let (kind, rest) = i64_tail(bytes)?;
    bound(alloc, kind, rest)
}

/// A line that binds a truth value or a pointer to one.
#[tactic(auto, unfolding(crate::specs::StmtReaders::bind))]
pub fn bind_bool(alloc: Global, bytes: &[u8]) -> Result<(Stmt, &[u8]), ReadError>
    ensures { Gives (λ x. (plain_stmt x.0, x.1.now)) result (spec.bind words.bool_type bytes.now) }
{
    let (kind, rest) = bool_type(bytes)?;
    bound(alloc, kind, rest)
}

/// A line that binds a pointer to a structure or a lock.
#[tactic(auto, unfolding(crate::specs::StmtReaders::bind))]
pub fn bind_struct(alloc: Global, bytes: &[u8]) -> Result<(Stmt, &[u8]), ReadError>
    ensures { Gives (λ x. (plain_stmt x.0, x.1.now)) result (spec.bind words.struct_type bytes.now) }
{
    let (kind, rest) = struct_type(alloc, bytes)?;
    bound(alloc, kind, rest)
}

/// What is stored in a cell.
#[tactic(auto, unfolding(crate::specs::StmtReaders::stored))]
pub fn stored(alloc: Global, bytes: &[u8]) -> Result<(Expr, &[u8]), ReadError>
    ensures { Gives (λ x. (plain_expr x.0, x.1.now)) result (spec.stored bytes.now) }
{
    let rest = word(bytes, b" = ")?;
    let (value, rest) = expr(alloc, rest)?;
    let rest = word(rest, b";\n")?;
    Ok((value, rest))
}

/// A store behind the `v` of its cell.
#[tactic(auto, unfolding(crate::specs::StmtReaders::store_local))]
fn store_local(alloc: Global, bytes: &[u8]) -> Result<(Stmt, &[u8]), ReadError>
    ensures { Gives (λ x. (plain_stmt x.0, x.1.now)) result (spec.store_local bytes.now) }
{
    let rest = word(bytes, b"_")?;
    let (base, rest) = local_tail(alloc, rest)?;
    let (cell, rest) = cell_behind(alloc, base, rest)?;
    let (value, rest) = stored(alloc, rest)?;
    Ok((Stmt::Store(cell, value), rest))
}

/// A store through a pointer to one cell.
#[tactic(auto, unfolding(crate::specs::StmtReaders::store_whole))]
pub fn store_whole(alloc: Global, bytes: &[u8]) -> Result<(Stmt, &[u8]), ReadError>
    ensures { Gives (λ x. (plain_stmt x.0, x.1.now)) result (spec.store_whole bytes.now) }
{
    let rest = word(bytes, b"*")?;
    let (base, rest) = local(alloc, rest)?;
    let (value, rest) = stored(alloc, rest)?;
    Ok((Stmt::Store(Cell::Whole(base), value), rest))
}

/// A line that begins with `v`.
#[tactic(auto, unfolding(crate::specs::StmtReaders::line_v, crate::specs::StmtReaders::bind))]
pub fn line_v(alloc: Global, bytes: &[u8]) -> Result<(Stmt, &[u8]), ReadError>
    ensures { Gives (λ x. (plain_stmt x.0, x.1.now)) result (spec.line_v bytes.now) }
{
    let rest = word(bytes, b"v")?;
    if begins(rest, b'_') {
        return store_local(alloc, rest);
    }
    let rest = word(rest, b"oid ")?;
    bound(alloc, CType::Void, rest)
}

/// An acquire, or a line that binds a pointer to an atomic, behind its `p_`.
#[tactic(auto, unfolding(crate::specs::StmtReaders::line_pa, crate::specs::StmtReaders::bind))]
fn line_pa(alloc: Global, bytes: &[u8]) -> Result<(Stmt, &[u8]), ReadError>
    ensures { Gives (λ x. (plain_stmt x.0, x.1.now)) result (spec.line_pa bytes.now) }
{
    let rest = word(bytes, b"a")?;
    if begins(rest, b'c') {
        let rest = word(rest, b"cquire(")?;
        let (lock, rest) = local(alloc, rest)?;
        let rest = word(rest, b");\n")?;
        return Ok((Stmt::Acquire(lock), rest));
    }
    let rest = word(rest, b"tomic *")?;
    bound(alloc, CType::PtrAtomic, rest)
}

/// A line that begins with `p_`.
#[tactic(auto, unfolding(crate::specs::StmtReaders::line_p))]
pub fn line_p(alloc: Global, bytes: &[u8]) -> Result<(Stmt, &[u8]), ReadError>
    ensures { Gives (λ x. (plain_stmt x.0, x.1.now)) result (spec.line_p bytes.now) }
{
    let rest = word(bytes, b"p_")?;
    if begins(rest, b'p') {
        let rest = word(rest, b"print(")?;
        let (value, rest) = expr(alloc, rest)?;
        let rest = word(rest, b");\n")?;
        return Ok((Stmt::Print(value), rest));
    }
    if begins(rest, b'r') {
        let rest = word(rest, b"release(")?;
        let (lock, rest) = local(alloc, rest)?;
        let rest = word(rest, b");\n")?;
        return Ok((Stmt::Release(lock), rest));
    }
    line_pa(alloc, rest)
}

/// A call or a free.
#[tactic(auto, unfolding(crate::specs::StmtReaders::line_f))]
pub fn line_f(alloc: Global, bytes: &[u8]) -> Result<(Stmt, &[u8]), ReadError>
    ensures { Gives (λ x. (plain_stmt x.0, x.1.now)) result (spec.line_f bytes.now) }
{
    let rest = word(bytes, b"f")?;
    if begins(rest, b'_') {
        let rest = word(rest, b"_")?;
        let ((function, args), rest) = call(alloc, rest)?;
        let rest = word(rest, b";\n")?;
        return Ok((Stmt::Call(function, args), rest));
    }
    let rest = word(rest, b"ree(")?;
    let (base, rest) = local(alloc, rest)?;
    let rest = word(rest, b");\n")?;
    Ok((Stmt::Free(base), rest))
}

/// A value behind a comma, at the end of a line.
fn last_value(alloc: Global, bytes: &[u8]) -> Result<(Expr, &[u8]), ReadError>
    ensures { Gives (λ x. (plain_expr x.0, x.1.now)) result (spec.last_value bytes.now) }
{
    let rest = word(bytes, b", ")?;
    let (value, rest) = expr(alloc, rest)?;
    let rest = word(rest, b");\n")?;
    Ok((value, rest))
}

/// A local and a value behind a comma, at the end of a line.
#[tactic(auto, unfolding(crate::specs::StmtReaders::last_pair))]
fn last_pair(alloc: Global, bytes: &[u8]) -> Result<((Local, Expr), &[u8]), ReadError>
    ensures { Gives (λ x. ((x.0.0, plain_expr x.0.1), x.1.now)) result (spec.last_pair bytes.now) }
{
    let (base, rest) = local(alloc, bytes)?;
    let (value, rest) = last_value(alloc, rest)?;
    Ok(((base, value), rest))
}

/// An atomic store.
#[tactic(auto, unfolding(crate::specs::StmtReaders::line_a))]
pub fn line_a(alloc: Global, bytes: &[u8]) -> Result<(Stmt, &[u8]), ReadError>
    ensures { Gives (λ x. (plain_stmt x.0, x.1.now)) result (spec.line_a bytes.now) }
{
    let rest = word(bytes, b"atomic_store(")?;
    let ((base, value), rest) = last_pair(alloc, rest)?;
    Ok((Stmt::AtomicStore(base, value), rest))
}

/// A return.
#[tactic(auto, unfolding(crate::specs::StmtReaders::line_r))]
pub fn line_r(alloc: Global, bytes: &[u8]) -> Result<(Stmt, &[u8]), ReadError>
    ensures { Gives (λ x. (plain_stmt x.0, x.1.now)) result (spec.line_r bytes.now) }
{
    let rest = word(bytes, b"return ")?;
    let (value, rest) = expr(alloc, rest)?;
    let rest = word(rest, b";\n")?;
    Ok((Stmt::Return(value), rest))
}
