//! Cells, lists of expressions, and calls.

ghost use Rattle.std.specs.Prelude.{◌≡◌, List, [], map, codes, Ok};
ghost use Rattle.pl_readers.specs.Bytes.{is};
ghost use Rattle.pl_readers.specs.Given.{Gives};
ghost use Rattle.pl_readers.specs.Reader.{onto, repeat};
ghost use Rattle.c_forms.specs.Reading.{after, ended_by};
ghost use Rattle.c_forms.specs.Names.{name};
ghost use Rattle.c_forms.specs.ExprReaders as spec;
ghost use Rattle.c_forms.specs.Plain.{plain_expr, plain_cell};

use crate::exprs::expr;
use crate::lists::exact;
use crate::names::name;
use crate::word::{Cell, Expr, Local};
use crate::words::local;
use pl_base::{Items, Name};
use pl_readers::ReadError;
use pl_readers::bytes::{begins, word};
use std::alloc::Global;

/// An index in its brackets.
pub fn index(alloc: Global, bytes: &[u8]) -> Result<(Expr, &[u8]), ReadError>
    ensures { Gives (λ x. (plain_expr x.0, x.1.now)) result (after (codes "[") (ended_by spec.expr (codes "]")) bytes.now) }
{
    let rest = word(bytes, b"[")?;
    let (index, rest) = expr(alloc, rest)?;
    let rest = word(rest, b"]")?;
    Ok((index, rest))
}

/// A member behind its arrow.
pub fn field(alloc: Global, bytes: &[u8]) -> Result<(Name, &[u8]), ReadError>
    ensures { Gives (λ x. (x.0, x.1.now)) result (after (codes "->m_") name bytes.now) }
{
    let rest = word(bytes, b"->m_")?;
    name(alloc, rest)
}

/// The end of a cell that begins with a local.
#[tactic(auto, unfolding(crate::specs::ExprReaders::cell_behind))]
pub fn cell_behind(alloc: Global, base: Local, bytes: &[u8]) -> Result<(Cell, &[u8]), ReadError>
    ensures { Gives (λ x. (plain_cell x.0, x.1.now)) result (spec.cell_behind base bytes.now) }
{
    if begins(bytes, b'[') {
        let (index, rest) = index(alloc, bytes)?;
        return Ok((Cell::At(base, Box::new(alloc, index)?), rest));
    }
    let (member, rest) = field(alloc, bytes)?;
    Ok((Cell::Field(base, member), rest))
}

/// A cell.
#[tactic(auto, unfolding(crate::specs::ExprReaders::cell))]
pub fn cell(alloc: Global, bytes: &[u8]) -> Result<(Cell, &[u8]), ReadError>
    ensures { Gives (λ x. (plain_cell x.0, x.1.now)) result (spec.cell bytes.now) }
{
    if begins(bytes, b'*') {
        let rest = word(bytes, b"*")?;
        let (base, rest) = local(alloc, rest)?;
        return Ok((Cell::Whole(base), rest));
    }
    let (base, rest) = local(alloc, bytes)?;
    cell_behind(alloc, base, rest)
}

/// An expression behind a comma.
fn next_expr(alloc: Global, bytes: &[u8]) -> Result<(Expr, &[u8]), ReadError>
    ensures { Gives (λ x. (plain_expr x.0, x.1.now)) result (after (codes ", ") spec.expr bytes.now) }
{
    let rest = word(bytes, b", ")?;
    expr(alloc, rest)
}

/// Any number of expressions, each behind a comma; they are put behind those that are read.
fn more_exprs(
    alloc: Global,
    mut all: Vec<Expr>,
    bytes: &[u8],
) -> Result<(Items<Expr>, &[u8]), ReadError>
    ensures { Gives (λ x. (map plain_expr x.0, x.1.now)) result (onto (map plain_expr all.items) (repeat (is 44) (after (codes ", ") spec.expr)) bytes.now) }
{
    let mut rest = bytes;
    'items: while begins(rest, b',') {
        let (item, behind) = next_expr(alloc, rest)?;
        all.push(item)?;
        rest = behind;
    }
    Ok((exact(all), rest))
}

/// Expressions with commas between them.
#[tactic(auto, unfolding(crate::specs::ExprReaders::listed))]
fn listed_exprs(alloc: Global, bytes: &[u8]) -> Result<(Items<Expr>, &[u8]), ReadError>
    ensures { Gives (λ x. (map plain_expr x.0, x.1.now)) result (spec.listed spec.expr spec.expr bytes.now) }
{
    let (first, rest) = expr(alloc, bytes)?;
    let mut begun = Vec::new(alloc);
    begun.push(first)?;
    more_exprs(alloc, begun, rest)
}

/// Expressions with commas between them, if any, and the closing bracket.
#[tactic(auto, unfolding(crate::specs::ExprReaders::list_of))]
fn exprs(alloc: Global, bytes: &[u8]) -> Result<(Items<Expr>, &[u8]), ReadError>
    ensures { Gives (λ x. (map plain_expr x.0, x.1.now)) result (spec.list_of spec.expr bytes.now) }
{
    if begins(bytes, b')') {
        let rest = word(bytes, b")")?;
        return Ok((Items::of(Vec::new(alloc)), rest));
    }
    let (all, rest) = listed_exprs(alloc, bytes)?;
    let rest = word(rest, b")")?;
    Ok((all, rest))
}

/// A call behind its `f_`.
#[tactic(auto, unfolding(crate::specs::ExprReaders::call))]
pub fn call(alloc: Global, bytes: &[u8]) -> Result<((Name, Items<Expr>), &[u8]), ReadError>
    ensures { Gives (λ x. ((x.0.0, map plain_expr x.0.1), x.1.now)) result (spec.call bytes.now) }
{
    let (function, rest) = name(alloc, bytes)?;
    let rest = word(rest, b"(")?;
    let (args, rest) = exprs(alloc, rest)?;
    Ok(((function, args), rest))
}
