//! Permissions, and atoms that are rewritten.

ghost use Rattle.std.specs.Prelude.{◌≡◌};
ghost use Rattle.pl_syntax.specs.Plain.{plain_cell, plain_prop};
ghost use Rattle.pl_syntax.specs.Breaches.{least};
ghost use Rattle.pl_types.specs.Held.{lent};
ghost use Rattle.pl_syntax.specs.PropRules as spec;

use crate::cells::is_ghost_cell;
use crate::exprs::{Want, named};
use crate::kinds::Kind;
use crate::scopes::Scope;
use pl_base::{Name, Perm};
use pl_syntax::{Breach, CellExpr, Mode, PermExpr, Prop};

/// The variable of a permission.
pub(crate) fn look_perm(scope: &Scope<'_>, perm: &PermExpr) -> Option<Breach>
    ensures { result ≡ least (spec.perm_breaches scope.now perm.now) }
{
    match &perm.var {
        None => None,
        Some(name) => named(
            Mode::Prop,
            Want::Sorted(Kind::Perm),
            perm.pos,
            scope.look(name),
        ),
    }
}

/// Two names that are both missing or the same.
fn same_var(a: Option<&Name>, b: Option<&Name>) -> bool
    ensures { result ≡ spec.same_var (lent a.entry) (lent b.entry) }
{
    match (a, b) {
        (None, None) => true,
        (Some(x), Some(y)) => x.same(y),
        _ => false,
    }
}

fn same_part(a: Perm, b: Perm) -> bool
    ensures { result ≡ spec.same_part a b }
{
    a.num() == b.num() && a.den() == b.den()
}

fn same_perm(a: &PermExpr, b: &PermExpr) -> bool
    ensures { result ≡ spec.same_perm a.now b.now }
{
    same_part(a.part, b.part) && same_var(a.var.as_ref(), b.var.as_ref())
}

/// The same form of cell and the same field; ghost cells and real ones are of two kinds.
fn same_cell(scope: &Scope<'_>, a: &CellExpr, b: &CellExpr) -> bool
    ensures { result ≡ spec.same_cell scope.now (plain_cell a.now) (plain_cell b.now) }
{
    match (a, b) {
        (CellExpr::Whole(_), CellExpr::Whole(_)) => agree(
            is_ghost_cell(scope, a),
            is_ghost_cell(scope, b),
        ),
        (CellExpr::At(..), CellExpr::At(..)) => true,
        (CellExpr::Field(_, f), CellExpr::Field(_, g)) => f.same(g),
        _ => false,
    }
}

/// Both or neither.
pub(crate) fn agree(a: bool, b: bool) -> bool
    ensures { result ≡ spec.agree a b }
{
    if a { b } else { !b }
}

/// Whether two propositions are atoms of one kind with the same written permission and names of predicates.
pub(crate) fn same_atom(scope: &Scope<'_>, a: &Prop, b: &Prop) -> bool
    ensures { result ≡ spec.same_atom scope.now (plain_prop a.now) (plain_prop b.now) }
{
    match (a, b) {
        (Prop::Points(_, c, q, _), Prop::Points(_, d, r, _)) => same_cell(scope, c, d)
            && same_perm(q, r),
        (Prop::Slice(_, _, _, _, q), Prop::Slice(_, _, _, _, r)) => same_perm(q, r),
        (Prop::Block(..), Prop::Block(..)) => true,
        (Prop::Alive(_, _, q, i), Prop::Alive(_, _, r, j)) => same_perm(q, r)
            && i.pred.same(&j.pred),
        (Prop::Held(..), Prop::Held(..)) => true,
        (Prop::Inv(_, _, i), Prop::Inv(_, _, j)) => i.pred.same(&j.pred),
        (Prop::App(i), Prop::App(j)) => i.pred.same(&j.pred),
        _ => false,
    }
}
