//! Expressions.

use super::make::{at, bin, int, neg, not, two, var};
use crate::print_expr;
use pl_syntax::{BinOp, Expr};
use std::alloc::Global;
use std::process::Abort;
use std::test::*;

fn expect(rt: &impl Abort, alloc: Global, e: Expr, want: &str) -> Result<(), Fail> {
    let text = print_expr(alloc, &e)?;
    let found = str::from_utf8(text.as_slice()).ok().ok_or("a text")?;
    assert_eq!(rt; found, want);
    Ok(())
}

#[test]
fn literals(rt: HostRuntime) -> Result<(), Fail> {
    let alloc = rt.alloc();
    expect(&rt, alloc, int(0), "0")?;
    expect(&rt, alloc, int(-5), "-5")?;
    expect(
        &rt,
        alloc,
        int(-170141183460469231731687303715884105727),
        "-170141183460469231731687303715884105727",
    )?;
    expect(&rt, alloc, Expr::Truth(at(), true), "true")?;
    expect(&rt, alloc, Expr::Null(at()), "null")
}

#[test]
fn minus_signs(rt: HostRuntime) -> Result<(), Fail> {
    let alloc = rt.alloc();
    expect(&rt, alloc, neg(alloc, int(5))?, "-(5)")?;
    expect(&rt, alloc, neg(alloc, int(-5))?, "--5")?;
    let inner = neg(alloc, int(5))?;
    expect(&rt, alloc, neg(alloc, inner)?, "--(5)")?;
    let left = var(alloc, "a")?;
    expect(&rt, alloc, bin(alloc, BinOp::Sub, left, int(5))?, "a - 5")?;
    let left = var(alloc, "a")?;
    expect(&rt, alloc, bin(alloc, BinOp::Sub, left, int(-5))?, "a - -5")
}

#[test]
fn unary_operators(rt: HostRuntime) -> Result<(), Fail> {
    let alloc = rt.alloc();
    let same = two(alloc, BinOp::Eq, "a", "b")?;
    expect(&rt, alloc, not(alloc, same)?, "not (a == b)")?;
    let negated = neg(alloc, var(alloc, "a")?)?;
    expect(&rt, alloc, not(alloc, negated)?, "not -a")?;
    let denied = not(alloc, var(alloc, "a")?)?;
    expect(&rt, alloc, neg(alloc, denied)?, "-not a")?;
    let sum = two(alloc, BinOp::Add, "a", "b")?;
    expect(&rt, alloc, neg(alloc, sum)?, "-(a + b)")
}

/// A variable, an operator and a pair of variables.
fn right(alloc: Global, op: BinOp, e: Expr) -> Result<Expr, Fail> {
    let first = var(alloc, "a")?;
    Ok(bin(alloc, op, first, e)?)
}

/// A pair of variables, an operator and a variable.
fn left(alloc: Global, e: Expr, op: BinOp) -> Result<Expr, Fail> {
    let second = var(alloc, "c")?;
    Ok(bin(alloc, op, e, second)?)
}

#[test]
fn sums_and_products(rt: HostRuntime) -> Result<(), Fail> {
    let alloc = rt.alloc();
    let first = two(alloc, BinOp::Sub, "a", "b")?;
    expect(&rt, alloc, left(alloc, first, BinOp::Sub)?, "a - b - c")?;
    let second = two(alloc, BinOp::Sub, "b", "c")?;
    expect(&rt, alloc, right(alloc, BinOp::Sub, second)?, "a - (b - c)")?;
    let first = two(alloc, BinOp::Add, "a", "b")?;
    expect(&rt, alloc, left(alloc, first, BinOp::Div)?, "(a + b) / c")?;
    let second = two(alloc, BinOp::Rem, "c", "d")?;
    expect(&rt, alloc, right(alloc, BinOp::Add, second)?, "a + c % d")
}

#[test]
fn conditions(rt: HostRuntime) -> Result<(), Fail> {
    let alloc = rt.alloc();
    let first = two(alloc, BinOp::Or, "a", "b")?;
    expect(&rt, alloc, left(alloc, first, BinOp::And)?, "(a || b) && c")?;
    let second = two(alloc, BinOp::And, "b", "c")?;
    expect(&rt, alloc, right(alloc, BinOp::Or, second)?, "a || b && c")?;
    let second = two(alloc, BinOp::Implies, "b", "c")?;
    expect(
        &rt,
        alloc,
        right(alloc, BinOp::Implies, second)?,
        "a ==> (b ==> c)",
    )?;
    let second = two(alloc, BinOp::Ne, "w", "d")?;
    expect(
        &rt,
        alloc,
        right(alloc, BinOp::Implies, second)?,
        "a ==> w != d",
    )
}

#[test]
fn comparisons(rt: HostRuntime) -> Result<(), Fail> {
    let alloc = rt.alloc();
    let first = two(alloc, BinOp::Le, "a", "b")?;
    expect(&rt, alloc, left(alloc, first, BinOp::Ge)?, "(a <= b) >= c")?;
    let second = two(alloc, BinOp::Lt, "b", "c")?;
    expect(&rt, alloc, right(alloc, BinOp::Gt, second)?, "a > (b < c)")?;
    let denied = not(alloc, two(alloc, BinOp::Eq, "a", "b")?)?;
    let second = two(alloc, BinOp::Eq, "c", "d")?;
    let same = bin(alloc, BinOp::Eq, denied, second)?;
    expect(&rt, alloc, same, "not (a == b) == (c == d)")
}
