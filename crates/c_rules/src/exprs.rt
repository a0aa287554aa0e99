//! Sorts and names in expressions.

ghost use Rattle.std.specs.Prelude.{◌≡◌, ℕ, ◌+◌, ◌<◌, ◌^◌, List, length, Some, None};
ghost use Rattle.c_syntax.specs.declared.kind.CType.TheVariants as kind;
ghost use Rattle.c_syntax.specs.Rules.{operand, outcome};
ghost use Rattle.c_forms.specs.Plain.{plain_expr};
ghost use Rattle.c_forms.specs.Text.{expr_text, local_text};
ghost use Rattle.c_rules.specs.Kinds.{type, types};
ghost use Rattle.c_rules.specs.Least.{first, least};
ghost use Rattle.c_rules.specs.Locals.{scope_of};
ghost use Rattle.c_rules.specs.Sorts as spec;

use crate::kinds::{Kind, is_nullable, same_type};
use crate::lengths::{literal_end, local_end, operator_len};
use crate::locals::Locals;
use crate::places::{earlier, first, unless};
use c_forms::{Expr, Local, Number};
use c_syntax::COp;

/// What an expression is seen to be.
#[derive(Clone, Copy)]
pub(crate) struct Looked<'a> {
    /// Where it ends.
    pub end: u32,
    /// The type that it has by itself.
    pub own: Option<Kind<'a>>,
    /// The first name in it that isn't in scope.
    pub unknown: Option<u32>,
    /// The first operand in it whose own sort isn't wanted.
    pub inside: Option<u32>,
}

/// A number; one that is longer than any local's is 0, which no local has.
pub fn number_of(n: &Number) -> u32
    ensures { result ≡ spec.number_of n.now }
{
    match n {
        Number::Small(n) => *n,
        Number::Long(_) => 0,
    }
}

/// The type of the local that a use names.
pub(crate) fn kind_at<'a>(locals: &Locals<'a>, x: &Local) -> Option<Kind<'a>>
    ensures { types result ≡ spec.kind_at (scope_of locals.now.slots.items).bound x.now }
{
    locals.kind_of(&x.name, number_of(&x.number))
}

pub(crate) fn is_type(want: Kind<'_>, own: Option<Kind<'_>>) -> bool
    ensures { result ≡ spec.is_type (type want.entry) (types own.entry) }
{
    match own {
        None => false,
        Some(own) => same_type(own, want),
    }
}

/// The type of the operands of an operator, where there is one.
fn operand(op: COp) -> Option<Kind<'static>>
    ensures { types result ≡ operand op }
{
    match op {
        COp::Eq | COp::Ne => None,
        COp::And | COp::Or => Some(Kind::Bool),
        _ => Some(Kind::I64),
    }
}

/// The type of what an operator gives.
fn outcome(op: COp) -> Kind<'static>
    ensures { type result ≡ outcome op }
{
    match op {
        COp::Add | COp::Sub | COp::Mul | COp::Div | COp::Rem => Kind::I64,
        _ => Kind::Bool,
    }
}

/// An expression in which nothing is looked at.
fn plain(end: u32, own: Option<Kind<'_>>) -> Looked<'_>
    ensures end { result.end ≡ end }
    ensures own { types result.own ≡ types own.entry }
    ensures unknown { result.unknown ≡ None }
    ensures inside { result.inside ≡ None }
{
    Looked {
        end,
        own,
        unknown: None,
        inside: None,
    }
}

fn variable<'a>(locals: &Locals<'a>, at: u32, x: &Local) -> Looked<'a>
    requires { at + length (local_text x.now) < 2 ^ 32 }
    ensures end { result.end ≡ at + length (local_text x.now) }
    ensures own { types result.own ≡ spec.kind_at (scope_of locals.now.slots.items).bound x.now }
    ensures unknown { result.unknown ≡ least (spec.unless_some (spec.kind_at (scope_of locals.now.slots.items).bound x.now) at) }
    ensures inside { result.inside ≡ None }
{
    let own = kind_at(locals, x);
    Looked {
        end: local_end(at, x),
        own,
        unknown: unless_some(own, at),
        inside: None,
    }
}

/// An operator with one operand of the type that it has itself.
fn negated<'a>(side: Looked<'a>, kind: Kind<'a>, at: u32) -> Looked<'a>
    requires { side.end + 1 < 2 ^ 32 }
    ensures end { result.end ≡ side.entry.end + 1 }
    ensures own { types result.own ≡ Some (type kind.entry) }
    ensures unknown { result.unknown ≡ side.entry.unknown }
    ensures inside { result.inside ≡ first side.entry.inside (least (spec.unless (spec.is_type (type kind.entry) (types side.entry.own)) at)) }
{
    Looked {
        end: side.end + 1,
        own: Some(kind),
        unknown: side.unknown,
        inside: operand_found(side, kind, at),
    }
}

/// A breach there, unless there is a type.
pub(crate) fn unless_some(kind: Option<Kind<'_>>, at: u32) -> Option<u32>
    ensures { result ≡ least (spec.unless_some (types kind.entry) at) }
{
    match kind {
        None => Some(at),
        Some(_) => None,
    }
}

/// What is found of the two sides of a comparison of two of one type. `inside` is what is found inside both.
#[tactic(auto, using(crate::proofs::Leasts::least_append, crate::proofs::Leasts::least_or_else))]
fn compared(
    inside: Option<u32>,
    one: Option<Kind<'_>>,
    other: Option<Kind<'_>>,
    at: u32,
    left: u32,
    right: u32,
) -> Option<u32>
    ensures { (places : List ℕ) → inside ≡ least places → result ≡ least (spec.compared places (types one.entry) (types other.entry) at left right) }
{
    match (one, other) {
        (Some(s), Some(t)) => first(inside, unless(same_type(s, t), at)),
        (Some(s), None) => earlier(inside, unless(is_nullable(s), right)),
        (None, Some(t)) => earlier(unless(is_nullable(t), left), inside),
        (None, None) => earlier(Some(left), inside),
    }
}

/// What is found of an operand of which that type is wanted.
fn operand_found(side: Looked<'_>, want: Kind<'_>, at: u32) -> Option<u32>
    ensures { result ≡ first side.entry.inside (least (spec.unless (spec.is_type (type want.entry) (types side.entry.own)) at)) }
{
    first(side.inside, unless(is_type(want, side.own), at))
}

/// What is found of the operands of an operator.
#[tactic(auto, using(crate::proofs::Leasts::least_append, crate::proofs::Leasts::least_or_else))]
fn operands(
    want: Option<Kind<'_>>,
    one: Looked<'_>,
    other: Looked<'_>,
    at: u32,
    left: u32,
    right: u32,
) -> Option<u32>
    ensures { (a b : List ℕ) → one.entry.inside ≡ least a → other.entry.inside ≡ least b →
        result ≡ least (spec.operands (types want.entry) a (types one.entry.own) b (types other.entry.own) at left right) }
{
    match want {
        Some(want) => earlier(
            operand_found(one, want, left),
            operand_found(other, want, right),
        ),
        None => compared(
            earlier(one.inside, other.inside),
            one.own,
            other.own,
            at,
            left,
            right,
        ),
    }
}

/// What an expression is that begins at `at`.
#[tactic(auto, using(crate::proofs::Leasts::least_append, crate::proofs::Leasts::least_or_else))]
pub(crate) fn look<'a>(locals: &Locals<'a>, at: u32, e: &Expr) -> Looked<'a>
    requires { at + length (expr_text (plain_expr e.now)) < 2 ^ 32 }
    ensures end { result.end ≡ at + length (expr_text (plain_expr e.now)) }
    ensures own { types result.own ≡ spec.own (scope_of locals.now.slots.items).bound (plain_expr e.now) }
    ensures unknown { result.unknown ≡ least (spec.unknown (scope_of locals.now.slots.items).bound at (plain_expr e.now)) }
    ensures inside { result.inside ≡ least (spec.inside (scope_of locals.now.slots.items).bound at (plain_expr e.now)) }
{
    match e {
        Expr::Int(n) => plain(literal_end(at, *n), Some(Kind::I64)),
        Expr::Truth(b) => plain(if *b { at + 4 } else { at + 5 }, Some(Kind::Bool)),
        Expr::Null => plain(at + 4, None),
        Expr::Var(x) => variable(locals, at, x),
        Expr::Neg(inner) => {
            let side = look(locals, at + 2, inner);
            negated(side, Kind::I64, at + 2)
        }
        Expr::Not(inner) => {
            let side = look(locals, at + 2, inner);
            negated(side, Kind::Bool, at + 2)
        }
        Expr::Bin(op, left, right) => {
            let one = look(locals, at + 1, left);
            let begin = one.end + operator_len(*op);
            let other = look(locals, begin, right);
            Looked {
                end: other.end + 1,
                own: Some(outcome(*op)),
                unknown: earlier(one.unknown, other.unknown),
                inside: operands(operand(*op), one, other, at, at + 1, begin),
            }
        }
    }
}

/// A part of a text: where it ends, and the first breach in it.
#[derive(Clone, Copy)]
pub(crate) struct Part {
    pub end: u32,
    pub least: Option<u32>,
}

/// An expression that begins at `at`, of which that type is wanted.
#[tactic(auto, using(crate::proofs::Leasts::least_or_else))]
pub(crate) fn wanted(locals: &Locals<'_>, at: u32, e: &Expr, want: Kind<'_>) -> Part
    requires { at + length (expr_text (plain_expr e.now)) < 2 ^ 32 }
    ensures end { result.end ≡ at + length (expr_text (plain_expr e.now)) }
    ensures least { result.least ≡ least (spec.wanted (scope_of locals.now.slots.items).bound (type want.entry) at (plain_expr e.now)) }
{
    let seen = look(locals, at, e);
    Part {
        end: seen.end,
        least: first(seen.unknown, operand_found(seen, want, at)),
    }
}

/// The same, where also NULL may stand if a pointer that may be null is wanted.
pub(crate) fn fitting(locals: &Locals<'_>, at: u32, e: &Expr, want: Kind<'_>) -> Part
    requires { at + length (expr_text (plain_expr e.now)) < 2 ^ 32 }
    ensures end { result.end ≡ at + length (expr_text (plain_expr e.now)) }
    ensures least { result.least ≡ least (spec.fitting (scope_of locals.now.slots.items).bound (type want.entry) at (plain_expr e.now)) }
{
    match e {
        Expr::Null => Part {
            end: at + 4,
            least: unless(is_nullable(want), at),
        },
        _ => wanted(locals, at, e, want),
    }
}
