//! Names and sorts in expressions.

ghost use Rattle.std.specs.Prelude.{◌≡◌, ◌++◌, ◌&&◌, List};
ghost use Rattle.pl_syntax.specs.Plain.{plain_expr};
ghost use Rattle.pl_syntax.specs.declared.rules.Breach.{Breach};
ghost use Rattle.pl_syntax.specs.Breaches.{least};
ghost use Rattle.pl_syntax.specs.ExprRules as spec;
ghost use Rattle.pl_types.specs.Held as held;

use crate::breach::{at, earlier, first, unless};
use crate::kinds::{Kind, is_ref, same_sort};
use crate::scopes::{Binding, Scope};
use pl_base::Pos;
use pl_syntax::{BinOp, Breach, Class, Expr, Mode, Rule};

/// The sort that an expression has by itself.
#[derive(Clone, Copy)]
pub(crate) enum Own<'a> {
    /// None, since something was refused before.
    Unsorted,
    /// That of its place.
    Null,
    Of(Kind<'a>),
}

/// What is wanted of an expression.
#[derive(Clone, Copy)]
pub(crate) enum Want<'a> {
    /// Nothing, where its place was refused.
    Any,
    /// Some sort that it has by itself.
    Value,
    Sorted(Kind<'a>),
    /// What a cell of its own can hold: an integer or a truth value.
    Scalar,
    /// A pointer to an array.
    Array,
    /// A pointer to a block.
    Block,
}

pub(crate) const INTEGER: Want<'static> = Want::Sorted(Kind::Int);

pub(crate) const TRUTH: Want<'static> = Want::Sorted(Kind::Bool);

/// Whether names of that class may be used there.
fn admits(mode: Mode, class: Class) -> bool
    ensures { result ≡ spec.admits mode class }
{
    match mode {
        Mode::Real => matches!(class, Class::Real),
        Mode::Ghost => !matches!(class, Class::Logical),
        Mode::Read | Mode::Prop => true,
    }
}

/// Literals of real code have 64 bits with a sign.
fn literal_fits(mode: Mode, n: i128) -> bool
    ensures { result ≡ spec.literal_fits mode n }
{
    match mode {
        Mode::Real => i64::try_from(n).is_ok(),
        _ => true,
    }
}

/// `==>` stands in propositions alone.
fn may_stand(mode: Mode, op: BinOp) -> bool
    ensures { result ≡ spec.may_stand mode op }
{
    match mode {
        Mode::Prop => true,
        _ => !matches!(op, BinOp::Implies),
    }
}

/// The use of a name.
pub(crate) fn use_found(mode: Mode, pos: Pos, binding: Option<Binding<'_>>) -> Option<Breach>
    ensures { result ≡ least (spec.use_breaches mode pos (held.bounds binding.entry)) }
{
    match binding {
        None => at(Rule::Unknown, pos),
        Some(b) => unless(admits(mode, b.class), Rule::GhostFlow, pos),
    }
}

/// The first thing that is wrong with an expression whatever sorts its parts have.
#[tactic(auto, using(crate::proofs::Leasts::least_append))]
pub(crate) fn leaves(mode: Mode, scope: &Scope<'_>, e: &Expr) -> Option<Breach>
    ensures { result ≡ least (spec.leaves mode scope.now (plain_expr e.now)) }
{
    match e {
        Expr::Int(pos, n) => unless(literal_fits(mode, *n), Rule::IllTyped, *pos),
        Expr::Truth(..) | Expr::Null(_) => None,
        Expr::Var(pos, x) => use_found(mode, *pos, scope.look(x)),
        Expr::Neg(_, inner) => leaves(mode, scope, inner),
        Expr::Not(_, inner) => leaves(mode, scope, inner),
        Expr::Bin(pos, op, left, right) => {
            let here = unless(may_stand(mode, *op), Rule::IllTyped, *pos);
            let one = leaves(mode, scope, left);
            let two = leaves(mode, scope, right);
            earlier(earlier(here, one), two)
        }
    }
}

/// The sort of a name.
pub(crate) fn own_name<'a>(binding: Option<Binding<'a>>) -> Own<'a>
    ensures { held.own result ≡ spec.own_name (held.bounds binding.entry) }
{
    match binding {
        None => Own::Unsorted,
        Some(b) => match b.sort {
            None => Own::Unsorted,
            Some(kind) => Own::Of(kind),
        },
    }
}

/// The sort of what an operator gives.
fn outcome(op: BinOp) -> Kind<'static>
    ensures { held.sort result ≡ spec.outcome op }
{
    match op {
        BinOp::Add | BinOp::Sub | BinOp::Mul | BinOp::Div | BinOp::Rem => Kind::Int,
        _ => Kind::Bool,
    }
}

/// The sort that an expression has by itself.
pub(crate) fn sort_of<'a>(scope: &Scope<'a>, e: &Expr) -> Own<'a>
    ensures { held.own result ≡ spec.own scope.now (plain_expr e.now) }
{
    match e {
        Expr::Int(..) | Expr::Neg(..) => Own::Of(Kind::Int),
        Expr::Truth(..) | Expr::Not(..) => Own::Of(Kind::Bool),
        Expr::Null(_) => Own::Null,
        Expr::Var(_, x) => own_name(scope.look(x)),
        Expr::Bin(_, op, _, _) => Own::Of(outcome(*op)),
    }
}

/// Whether a sort is wanted.
fn takes(want: Want<'_>, kind: Kind<'_>) -> bool
    ensures { result ≡ spec.takes (held.want want.entry) (held.sort kind.entry) }
{
    match want {
        Want::Any | Want::Value => true,
        Want::Sorted(sort) => same_sort(sort, kind),
        Want::Scalar => matches!(kind, Kind::Int | Kind::Bool),
        Want::Array => matches!(kind, Kind::RefI64 | Kind::RefBool),
        Want::Block => matches!(kind, Kind::Atomic) || is_ref(kind),
    }
}

/// `null` stands where one `ref` sort is wanted.
fn takes_null(want: Want<'_>) -> bool
    ensures { result ≡ spec.takes_null (held.want want.entry) }
{
    match want {
        Want::Any => true,
        Want::Sorted(sort) => is_ref(sort),
        _ => false,
    }
}

pub(crate) fn fits(want: Want<'_>, own: Own<'_>) -> bool
    ensures { result ≡ spec.fits (held.want want.entry) (held.own own.entry) }
{
    match own {
        Own::Unsorted => true,
        Own::Null => takes_null(want),
        Own::Of(kind) => takes(want, kind),
    }
}

/// Where an expression begins.
pub(crate) fn begins(e: &Expr) -> Pos
    ensures { result ≡ spec.begins (plain_expr e.now) }
{
    match e {
        Expr::Int(pos, _) => *pos,
        Expr::Truth(pos, _) => *pos,
        Expr::Null(pos) => *pos,
        Expr::Var(pos, _) => *pos,
        Expr::Neg(pos, _) => *pos,
        Expr::Not(pos, _) => *pos,
        Expr::Bin(pos, ..) => *pos,
    }
}

/// What an operator wants of its operands; `==` and `!=` want two of any one sort.
fn operand(op: BinOp) -> Option<Kind<'static>>
    ensures { held.sorts result ≡ spec.operand op }
{
    match op {
        BinOp::Eq | BinOp::Ne => None,
        BinOp::And | BinOp::Or | BinOp::Implies => Some(Kind::Bool),
        _ => Some(Kind::Int),
    }
}

fn is_var(e: &Expr) -> bool
    ensures { result ≡ spec.is_var (plain_expr e.now) }
{
    matches!(e, Expr::Var(..))
}

/// Whether it is a variable, or the `not` of one.
fn is_guard(e: &Expr) -> bool
    ensures { result ≡ spec.is_guard (plain_expr e.now) }
{
    match e {
        Expr::Not(_, inner) => is_var(inner),
        _ => is_var(e),
    }
}

/// The left of `==>` is a guard.
fn left_fits(op: BinOp, left: &Expr) -> bool
    ensures { result ≡ spec.left_fits op (plain_expr left.now) }
{
    match op {
        BinOp::Implies => is_guard(left),
        _ => true,
    }
}

/// A part of an expression: where it begins, its own sort, and the first breach inside it.
#[derive(Clone, Copy)]
struct Side<'a> {
    pos: Pos,
    own: Own<'a>,
    inside: Option<Breach>,
}

/// A part whose own sort must fit, where nothing inside it is a breach.
#[tactic(auto, using(crate::proofs::Leasts::least_or_else))]
fn fitted(inside: Option<Breach>, test: bool, pos: Pos) -> Option<Breach>
    ensures { (bs : List Breach) → inside ≡ least bs → result ≡ least (spec.fitted bs test pos) }
{
    first(inside, unless(test, Rule::IllTyped, pos))
}

/// The two sides of a comparison of two of one sort.
#[tactic(auto, using(crate::proofs::Leasts::least_append, crate::proofs::Leasts::least_or_else))]
fn compared(one: Side<'_>, two: Side<'_>, pos: Pos) -> Option<Breach>
    ensures { (a b : List Breach) → one.entry.inside ≡ least a → two.entry.inside ≡ least b →
        result ≡ least (spec.compared (a ++ b) (held.own one.entry.own) (held.own two.entry.own) pos one.entry.pos two.entry.pos) }
{
    let inside = earlier(one.inside, two.inside);
    match (one.own, two.own) {
        (Own::Of(s), Own::Of(t)) => first(inside, unless(same_sort(s, t), Rule::IllTyped, pos)),
        (Own::Of(s), Own::Null) => earlier(inside, unless(is_ref(s), Rule::IllTyped, two.pos)),
        (Own::Null, Own::Of(t)) => earlier(unless(is_ref(t), Rule::IllTyped, one.pos), inside),
        (Own::Null, Own::Null) => earlier(at(Rule::IllTyped, one.pos), inside),
        _ => inside,
    }
}

/// Whether a side may stand there by its form and has that sort.
fn fits_as(form: bool, kind: Kind<'_>, own: Own<'_>) -> bool
    ensures { result ≡ (form && spec.fits (spec.sorted (held.sort kind.entry)) (held.own own.entry)) }
{
    form && fits(Want::Sorted(kind), own)
}

/// The two sides of an operator whose left side may stand there by its form.
#[tactic(auto, using(crate::proofs::Leasts::least_append))]
fn operands(
    want: Option<Kind<'_>>,
    form: bool,
    one: Side<'_>,
    two: Side<'_>,
    pos: Pos,
) -> Option<Breach>
    ensures { (a b : List Breach) → one.entry.inside ≡ least a → two.entry.inside ≡ least b →
        result ≡ least (spec.operands (held.sorts want.entry) form a (held.own one.entry.own) b (held.own two.entry.own) pos one.entry.pos two.entry.pos) }
{
    match want {
        Some(kind) => {
            let left = fitted(one.inside, fits_as(form, kind, one.own), one.pos);
            let right = fitted(two.inside, fits(Want::Sorted(kind), two.own), two.pos);
            earlier(left, right)
        }
        None => compared(one, two, pos),
    }
}

/// The first of the innermost parts whose own sort isn't wanted.
#[cycle(inside)]
pub(crate) fn inside(scope: &Scope<'_>, e: &Expr) -> Option<Breach>
    ensures { result ≡ least (spec.inside scope.now (plain_expr e.now)) }
{
    match e {
        Expr::Neg(_, inner) => {
            let found = inside(scope, inner);
            fitted(found, fits(INTEGER, sort_of(scope, inner)), begins(inner))
        }
        Expr::Not(_, inner) => {
            let found = inside(scope, inner);
            fitted(found, fits(TRUTH, sort_of(scope, inner)), begins(inner))
        }
        Expr::Bin(pos, op, left, right) => {
            let one = look_side(scope, left);
            let two = look_side(scope, right);
            operands(operand(*op), left_fits(*op, left), one, two, *pos)
        }
        _ => None,
    }
}

#[cycle(inside)]
fn look_side<'a>(scope: &Scope<'a>, e: &Expr) -> Side<'a>
    ensures pos { result.pos ≡ spec.begins (plain_expr e.now) }
    ensures own { held.own result.own ≡ spec.own scope.now (plain_expr e.now) }
    ensures inside { result.inside ≡ least (spec.inside scope.now (plain_expr e.now)) }
{
    let found = inside(scope, e);
    Side {
        pos: begins(e),
        own: sort_of(scope, e),
        inside: found,
    }
}

/// An expression of which that is wanted.
#[tactic(auto, using(crate::proofs::Leasts::least_append))]
pub(crate) fn wanted(mode: Mode, scope: &Scope<'_>, want: Want<'_>, e: &Expr) -> Option<Breach>
    ensures { result ≡ least (spec.wanted mode scope.now (held.want want.entry) (plain_expr e.now)) }
{
    let found = fitted(inside(scope, e), fits(want, sort_of(scope, e)), begins(e));
    earlier(leaves(mode, scope, e), found)
}

/// A name by itself, of which that is wanted.
#[tactic(auto, using(crate::proofs::Leasts::least_append))]
pub(crate) fn named(
    mode: Mode,
    want: Want<'_>,
    pos: Pos,
    binding: Option<Binding<'_>>,
) -> Option<Breach>
    ensures { result ≡ least (spec.named mode (held.want want.entry) pos (held.bounds binding.entry)) }
{
    let fit = fits(want, own_name(binding));
    earlier(
        use_found(mode, pos, binding),
        unless(fit, Rule::IllTyped, pos),
    )
}
