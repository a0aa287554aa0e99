//! Expressions.

ghost use Rattle.std.specs.Prelude.{◌≡◌, ◌^◌, ◌<◌, ◌≤◌, ◌+◌, ◌*◌, ◌-◌, Ok};
ghost use Rattle.pl_readers.specs.Given.{Gives};
ghost use Rattle.c_forms.specs.ExprReaders as spec;
ghost use Rattle.c_forms.specs.Plain.{plain_expr};

use crate::word::Expr;
use crate::words::local;
use c_syntax::COp;
use pl_readers::ReadError;
use pl_readers::bytes::{begins, number, word};
use std::alloc::Global;

/// The number that is no literal any more.
const LIMIT: u128 = 1 << 63;

/// A comparison that may have `=` behind its sign, or another operator, behind its blank.
#[tactic(auto, unfolding(crate::specs::ExprReaders::comparison))]
fn comparison(bytes: &[u8]) -> Result<(COp, &[u8]), ReadError>
    ensures { Gives (λ x. (x.0, x.1.now)) result (spec.comparison bytes.now) }
{
    if begins(bytes, b'<') {
        let rest = word(bytes, b"<")?;
        if begins(rest, b'=') {
            let rest = word(rest, b"= ")?;
            return Ok((COp::Le, rest));
        }
        let rest = word(rest, b" ")?;
        return Ok((COp::Lt, rest));
    }
    if begins(bytes, b'>') {
        let rest = word(bytes, b">")?;
        if begins(rest, b'=') {
            let rest = word(rest, b"= ")?;
            return Ok((COp::Ge, rest));
        }
        let rest = word(rest, b" ")?;
        return Ok((COp::Gt, rest));
    }
    if begins(bytes, b'=') {
        let rest = word(bytes, b"== ")?;
        return Ok((COp::Eq, rest));
    }
    if begins(bytes, b'!') {
        let rest = word(bytes, b"!= ")?;
        return Ok((COp::Ne, rest));
    }
    if begins(bytes, b'&') {
        let rest = word(bytes, b"&& ")?;
        return Ok((COp::And, rest));
    }
    let rest = word(bytes, b"|| ")?;
    Ok((COp::Or, rest))
}

/// An operator between blanks.
#[tactic(auto, unfolding(crate::specs::ExprReaders::operator_sign))]
fn operator(bytes: &[u8]) -> Result<(COp, &[u8]), ReadError>
    ensures { Gives (λ x. (x.0, x.1.now)) result (spec.operator_sign bytes.now) }
{
    let rest = word(bytes, b" ")?;
    if begins(rest, b'+') {
        let rest = word(rest, b"+ ")?;
        return Ok((COp::Add, rest));
    }
    if begins(rest, b'-') {
        let rest = word(rest, b"- ")?;
        return Ok((COp::Sub, rest));
    }
    if begins(rest, b'*') {
        let rest = word(rest, b"* ")?;
        return Ok((COp::Mul, rest));
    }
    if begins(rest, b'/') {
        let rest = word(rest, b"/ ")?;
        return Ok((COp::Div, rest));
    }
    if begins(rest, b'%') {
        let rest = word(rest, b"% ")?;
        return Ok((COp::Rem, rest));
    }
    comparison(rest)
}

/// A literal that is not below 0.
#[tactic(auto, unfolding(crate::specs::ExprReaders::int))]
pub fn int(bytes: &[u8]) -> Result<(Expr, &[u8]), ReadError>
    ensures { Gives (λ x. (plain_expr x.0, x.1.now)) result (spec.int bytes.now) }
{
    let rest = word(bytes, b"INT64_C(")?;
    let (value, rest) = number(rest, LIMIT)?;
    let rest = word(rest, b")")?;
    Ok((Expr::Int(value as i64), rest))
}

/// `true` or `NULL`.
#[tactic(auto, unfolding(crate::specs::ExprReaders::closed))]
fn closed(bytes: &[u8]) -> Result<(Expr, &[u8]), ReadError>
    ensures { Gives (λ x. (plain_expr x.0, x.1.now)) result (spec.closed bytes.now) }
{
    if begins(bytes, b't') {
        let rest = word(bytes, b"true")?;
        return Ok((Expr::Truth(true), rest));
    }
    let rest = word(bytes, b"NULL")?;
    Ok((Expr::Null, rest))
}

/// What stands behind `(-INT64_C(k)`.
#[tactic(auto, unfolding(crate::specs::ExprReaders::negative))]
fn negative(alloc: Global, value: u128, bytes: &[u8]) -> Result<(Expr, &[u8]), ReadError>
    requires { value < 2 ^ 63 }
    ensures { Gives (λ x. (plain_expr x.0, x.1.now)) result (spec.negative value bytes.now) }
{
    if value == 0 {
        let rest = word(bytes, b")")?;
        return Ok((Expr::Neg(Box::new(alloc, Expr::Int(0))?), rest));
    }
    if value == LIMIT - 1 && begins(bytes, b' ') {
        let rest = word(bytes, b" - INT64_C(1))")?;
        return Ok((Expr::Int(i64::MIN), rest));
    }
    let rest = word(bytes, b")")?;
    Ok((Expr::Int(-(value as i64)), rest))
}

/// An expression but a literal that is not below 0, in which brackets nest to `depth`.
#[cycle(expr)]
#[tactic(auto, unfolding(crate::specs::ExprReaders::unsigned_of))]
fn unsigned(alloc: Global, depth: u32, bytes: &[u8]) -> Result<(Expr, &[u8]), ReadError>
    ensures { Gives (λ x. (plain_expr x.0, x.1.now)) result (spec.unsigned_of (spec.plain depth) bytes.now) }
{
    if begins(bytes, b'v') {
        let (x, rest) = local(alloc, bytes)?;
        return Ok((Expr::Var(x), rest));
    }
    if begins(bytes, b'f') {
        let rest = word(bytes, b"false")?;
        return Ok((Expr::Truth(false), rest));
    }
    plain(alloc, depth, bytes)
}

#[cycle(expr)]
#[tactic(auto, unfolding(crate::specs::ExprReaders::expr_of))]
fn nested(alloc: Global, depth: u32, bytes: &[u8]) -> Result<(Expr, &[u8]), ReadError>
    ensures { Gives (λ x. (plain_expr x.0, x.1.now)) result (spec.expr_of (spec.plain depth) bytes.now) }
{
    if begins(bytes, b'I') {
        return int(bytes);
    }
    unsigned(alloc, depth, bytes)
}

/// What stands behind `(-`.
#[cycle(expr)]
#[tactic(auto, unfolding(crate::specs::ExprReaders::minus_of))]
fn minus(alloc: Global, depth: u32, bytes: &[u8]) -> Result<(Expr, &[u8]), ReadError>
    ensures { Gives (λ x. (plain_expr x.0, x.1.now)) result (spec.minus_of (spec.plain depth) bytes.now) }
{
    if begins(bytes, b'I') {
        let rest = word(bytes, b"INT64_C(")?;
        let (value, rest) = number(rest, LIMIT)?;
        let rest = word(rest, b")")?;
        return negative(alloc, value, rest);
    }
    let (inner, rest) = unsigned(alloc, depth, bytes)?;
    let rest = word(rest, b")")?;
    Ok((Expr::Neg(Box::new(alloc, inner)?), rest))
}

/// Two operands and what is behind them.
#[cycle(expr)]
#[tactic(auto, unfolding(crate::specs::ExprReaders::binary_of))]
fn binary(alloc: Global, depth: u32, bytes: &[u8]) -> Result<(Expr, &[u8]), ReadError>
    ensures { Gives (λ x. (plain_expr x.0, x.1.now)) result (spec.binary_of (spec.plain depth) bytes.now) }
{
    let (left, rest) = nested(alloc, depth, bytes)?;
    let (op, rest) = operator(rest)?;
    let (right, rest) = nested(alloc, depth, rest)?;
    let rest = word(rest, b")")?;
    Ok((
        Expr::Bin(op, Box::new(alloc, left)?, Box::new(alloc, right)?),
        rest,
    ))
}

/// What stands behind a bracket.
#[cycle(expr)]
#[tactic(auto, unfolding(crate::specs::ExprReaders::bracket_of))]
fn bracket(alloc: Global, depth: u32, bytes: &[u8]) -> Result<(Expr, &[u8]), ReadError>
    ensures { Gives (λ x. (plain_expr x.0, x.1.now)) result (spec.bracket_of (spec.plain depth) bytes.now) }
{
    if begins(bytes, b'-') {
        let rest = word(bytes, b"-")?;
        return minus(alloc, depth, rest);
    }
    if begins(bytes, b'!') {
        let rest = word(bytes, b"!")?;
        let (inner, rest) = nested(alloc, depth, rest)?;
        let rest = word(rest, b")")?;
        return Ok((Expr::Not(Box::new(alloc, inner)?), rest));
    }
    binary(alloc, depth, bytes)
}

/// An expression but a literal that is not below 0, a local and `false`, in which brackets nest to `depth`.
#[cycle(expr)]
#[tactic(auto, unfolding(crate::specs::ExprReaders::plain))]
pub fn plain(alloc: Global, depth: u32, bytes: &[u8]) -> Result<(Expr, &[u8]), ReadError>
    ensures { Gives (λ x. (plain_expr x.0, x.1.now)) result (spec.plain depth bytes.now) }
{
    if depth > 0 && begins(bytes, b'(') {
        let rest = word(bytes, b"(")?;
        return bracket(alloc, depth - 1, rest);
    }
    closed(bytes)
}

/// An expression.
#[tactic(auto, unfolding(crate::specs::ExprReaders::expr))]
pub fn expr(alloc: Global, bytes: &[u8]) -> Result<(Expr, &[u8]), ReadError>
    ensures { Gives (λ x. (plain_expr x.0, x.1.now)) result (spec.expr bytes.now) }
{
    nested(alloc, 128, bytes)
}
