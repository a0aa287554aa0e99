//! What stands behind the `=` of a line that binds a local.

ghost use Rattle.std.specs.Prelude.{◌≡◌, List, map, codes, Ok};
ghost use Rattle.pl_readers.specs.Given.{Gives};
ghost use Rattle.c_forms.specs.Reading.{after, ended_by};
ghost use Rattle.c_forms.specs.ExprReaders.{expr};
ghost use Rattle.c_forms.specs.StmtReaders as spec;
ghost use Rattle.c_forms.specs.Plain.{plain_expr, plain_right};

use crate::cells::{call, field, index};
use crate::exprs::{expr, int, plain};
use crate::names::name;
use crate::stmt::{Maker, Right};
use crate::word::{Cell, Expr, Local};
use crate::words::local;
use c_syntax::CType;
use pl_readers::ReadError;
use pl_readers::bytes::{begins, word};
use std::alloc::Global;

fn is_i64(kind: &CType) -> bool
    ensures { result ≡ spec.is_i64 kind.now }
{
    matches!(kind, CType::I64)
}

fn is_bool(kind: &CType) -> bool
    ensures { result ≡ spec.is_bool kind.now }
{
    matches!(kind, CType::Bool)
}

/// The end of a right side that begins with a local.
#[tactic(auto, unfolding(crate::specs::StmtReaders::right_behind))]
fn right_behind(alloc: Global, x: Local, bytes: &[u8]) -> Result<(Right, &[u8]), ReadError>
    ensures { Gives (λ x. (plain_right x.0, x.1.now)) result (spec.right_behind x bytes.now) }
{
    if begins(bytes, b'[') {
        let (index, rest) = index(alloc, bytes)?;
        return Ok((Right::Load(Cell::At(x, Box::new(alloc, index)?)), rest));
    }
    if begins(bytes, b'-') {
        let (member, rest) = field(alloc, bytes)?;
        return Ok((Right::Load(Cell::Field(x, member)), rest));
    }
    Ok((Right::Value(Expr::Var(x)), bytes))
}

/// A call or `false`.
#[tactic(auto, unfolding(crate::specs::StmtReaders::right_f))]
fn right_f(alloc: Global, bytes: &[u8]) -> Result<(Right, &[u8]), ReadError>
    ensures { Gives (λ x. (plain_right x.0, x.1.now)) result (spec.right_f bytes.now) }
{
    let rest = word(bytes, b"f")?;
    if begins(rest, b'_') {
        let rest = word(rest, b"_")?;
        let ((function, args), rest) = call(alloc, rest)?;
        return Ok((Right::Call(function, args), rest));
    }
    let rest = word(rest, b"alse")?;
    Ok((Right::Value(Expr::Truth(false)), rest))
}

/// An expression and its closing bracket, behind a word.
fn made<'a>(alloc: Global, bytes: &'a [u8], text: &[u8]) -> Result<(Expr, &'a [u8]), ReadError>
    ensures { Gives (λ x. (plain_expr x.0, x.1.now)) result (after text.now (ended_by expr (codes ")")) bytes.now) }
{
    let rest = word(bytes, text)?;
    let (value, rest) = expr(alloc, rest)?;
    let rest = word(rest, b")")?;
    Ok((value, rest))
}

/// What makes a block of one cell, behind `p_`.
#[tactic(auto, unfolding(crate::specs::StmtReaders::right_new))]
fn right_new(alloc: Global, bytes: &[u8]) -> Result<(Right, &[u8]), ReadError>
    ensures { Gives (λ x. (plain_right x.0, x.1.now)) result (spec.right_new bytes.now) }
{
    let rest = word(bytes, b"new_")?;
    if begins(rest, b'i') {
        let (value, rest) = made(alloc, rest, b"i64(")?;
        return Ok((Right::New(Maker::I64, value), rest));
    }
    if begins(rest, b'b') {
        let (value, rest) = made(alloc, rest, b"bool(")?;
        return Ok((Right::New(Maker::Bool, value), rest));
    }
    let (value, rest) = made(alloc, rest, b"atomic(")?;
    Ok((Right::New(Maker::Atomic, value), rest))
}

/// An array, behind `p_`.
#[tactic(auto, unfolding(crate::specs::StmtReaders::right_array))]
fn right_array(alloc: Global, bytes: &[u8]) -> Result<(Right, &[u8]), ReadError>
    ensures { Gives (λ x. (plain_right x.0, x.1.now)) result (spec.right_array bytes.now) }
{
    let rest = word(bytes, b"array(")?;
    let (value, rest) = expr(alloc, rest)?;
    let rest = word(rest, b", ")?;
    let (count, rest) = expr(alloc, rest)?;
    let rest = word(rest, b")")?;
    Ok((Right::Array(value, Box::new(alloc, count)?), rest))
}

/// A compare-and-swap, behind `p_`.
#[tactic(auto, unfolding(crate::specs::StmtReaders::right_cas))]
fn right_cas(alloc: Global, bytes: &[u8]) -> Result<(Right, &[u8]), ReadError>
    ensures { Gives (λ x. (plain_right x.0, x.1.now)) result (spec.right_cas bytes.now) }
{
    let rest = word(bytes, b"cas(")?;
    let (base, rest) = local(alloc, rest)?;
    let rest = word(rest, b", ")?;
    let (old, rest) = expr(alloc, rest)?;
    let rest = word(rest, b", ")?;
    let (new, rest) = expr(alloc, rest)?;
    let rest = word(rest, b")")?;
    Ok((
        Right::Cas(base, Box::new(alloc, old)?, Box::new(alloc, new)?),
        rest,
    ))
}

/// What a function of the prelude gives, where the local is of this type.
#[tactic(auto, unfolding(crate::specs::StmtReaders::right_p))]
fn right_p<'a>(alloc: Global, kind: &CType, bytes: &'a [u8]) -> Result<(Right, &'a [u8]), ReadError>
    ensures { Gives (λ x. (plain_right x.0, x.1.now)) result (spec.right_p kind.now bytes.now) }
{
    let rest = word(bytes, b"p_")?;
    if begins(rest, b'n') {
        return right_new(alloc, rest);
    }
    if begins(rest, b'a') {
        return right_array(alloc, rest);
    }
    if begins(rest, b'g') {
        let rest = word(rest, b"get(sizeof(struct s_")?;
        let (structure, rest) = name(alloc, rest)?;
        let rest = word(rest, b"))")?;
        return Ok((Right::Struct(structure), rest));
    }
    if is_i64(kind) && begins(rest, b'r') {
        let rest = word(rest, b"read()")?;
        return Ok((Right::Read, rest));
    }
    if is_bool(kind) && begins(rest, b'c') {
        return right_cas(alloc, rest);
    }
    let rest = word(rest, b"lock_new()")?;
    Ok((Right::Lock, rest))
}

/// A value, or a cell that begins with a local.
#[tactic(auto, unfolding(crate::specs::StmtReaders::right_value))]
fn right_value(alloc: Global, bytes: &[u8]) -> Result<(Right, &[u8]), ReadError>
    ensures { Gives (λ x. (plain_right x.0, x.1.now)) result (spec.right_value bytes.now) }
{
    if begins(bytes, b'v') {
        let (x, rest) = local(alloc, bytes)?;
        return right_behind(alloc, x, rest);
    }
    if begins(bytes, b'I') {
        let (value, rest) = int(bytes)?;
        return Ok((Right::Value(value), rest));
    }
    let (value, rest) = plain(alloc, 128, bytes)?;
    Ok((Right::Value(value), rest))
}

/// An atomic load.
#[tactic(auto, unfolding(crate::specs::StmtReaders::right_atomic))]
fn right_atomic(alloc: Global, bytes: &[u8]) -> Result<(Right, &[u8]), ReadError>
    ensures { Gives (λ x. (plain_right x.0, x.1.now)) result (spec.right_atomic bytes.now) }
{
    let rest = word(bytes, b"atomic_load(")?;
    let (base, rest) = local(alloc, rest)?;
    let rest = word(rest, b")")?;
    Ok((Right::AtomicLoad(base), rest))
}

/// What stands behind the `=` of a local of this type.
#[tactic(auto, unfolding(crate::specs::StmtReaders::right))]
pub fn right<'a>(
    alloc: Global,
    kind: &CType,
    bytes: &'a [u8],
) -> Result<(Right, &'a [u8]), ReadError>
    ensures { Gives (λ x. (plain_right x.0, x.1.now)) result (spec.right kind.now bytes.now) }
{
    if begins(bytes, b'*') {
        let rest = word(bytes, b"*")?;
        let (base, rest) = local(alloc, rest)?;
        return Ok((Right::Load(Cell::Whole(base)), rest));
    }
    if begins(bytes, b'f') {
        return right_f(alloc, bytes);
    }
    if begins(bytes, b'p') {
        return right_p(alloc, kind, bytes);
    }
    if is_i64(kind) && begins(bytes, b'a') {
        return right_atomic(alloc, bytes);
    }
    right_value(alloc, bytes)
}
