//! Propositions.

ghost use Rattle.std.specs.Prelude.{◌≡◌, IfOk};
ghost use Rattle.std.specs.Option.{option_map};
ghost use Rattle.pl_syntax.specs.Plain.{plain_body, plain_cell, plain_expr, plain_prop};
ghost use Rattle.pl_syntax.specs.Breaches.{least};
ghost use Rattle.pl_types.specs.Held.{lent};
ghost use Rattle.pl_syntax.specs.PropRules as spec;
ghost use Rattle.pl_types.specs.Tables.{known_of};

use crate::arguments::look_instance;
use crate::binders::{bind_all, look_binders};
use crate::breach::earlier;
use crate::cells::{content_of, look_cell, want_of};
use crate::exprs::{INTEGER, TRUTH, Want, wanted};
use crate::kinds::Kind;
use crate::permissions::look_perm;
use crate::scopes::Scope;
use crate::tables::Tables;
use pl_base::{Memory, Pos};
use pl_syntax::{Binder, Body, Breach, CellExpr, CellUse, Expr, Mode, PermExpr, Prop, Role};
use std::alloc::Global;

const LOCK: Want<'static> = Want::Sorted(Kind::Lock);

const INVARIANT: Want<'static> = Want::Sorted(Kind::Iname);

/// `c |->{q} e`
#[tactic(auto, using(crate::proofs::Leasts::least_append))]
fn look_points<'a>(
    tables: &Tables<'a>,
    scope: &Scope<'a>,
    pos: Pos,
    cell: &CellExpr,
    perm: &PermExpr,
    e: &Expr,
) -> Option<Breach>
    ensures { result ≡ least (spec.points_breaches (known_of tables.now) scope.now pos (plain_cell cell.now) perm.now (plain_expr e.now)) }
{
    let found = look_cell(Mode::Prop, CellUse::Asserted, tables, scope, pos, cell);
    let want = want_of(content_of(tables, CellUse::Asserted, scope, cell));
    let value = wanted(Mode::Prop, scope, want, e);
    earlier(earlier(found, look_perm(scope, perm)), value)
}

/// `slice(a, lo, hi, q)`
#[tactic(auto, using(crate::proofs::Leasts::least_append))]
fn look_slice(scope: &Scope<'_>, a: &Expr, lo: &Expr, hi: &Expr, perm: &PermExpr) -> Option<Breach>
    ensures { result ≡ least (spec.slice_breaches scope.now (plain_expr a.now) (plain_expr lo.now) (plain_expr hi.now) perm.now) }
{
    let base = wanted(Mode::Prop, scope, Want::Array, a);
    let low = wanted(Mode::Prop, scope, INTEGER, lo);
    let high = wanted(Mode::Prop, scope, INTEGER, hi);
    earlier(earlier(earlier(base, low), high), look_perm(scope, perm))
}

/// `exists x: s, .. . P`
#[cycle(props)]
#[tactic(auto, using(crate::proofs::Leasts::least_append, crate::proofs::ScopeLaws::left_bound, crate::proofs::ScopeLaws::marked_bound))]
fn look_exists<'a>(
    prop: &'a Prop,
    list: &'a [Binder],
    alloc: Global,
    tables: &Tables<'a>,
    scope: &mut Scope<'a>,
) -> Result<Option<Breach>, Memory>
    ensures found { IfOk result (λ found. found ≡ least (spec.exists_breaches (known_of tables.now) scope.old list.now (plain_prop prop.now))) }
    ensures scope { IfOk result (λ found. scope.new ≡ scope.old) }
{
    let mark = scope.mark();
    let binders = look_binders(alloc, tables, Role::Bound, list)?;
    bind_all(scope, Role::Bound, list)?;
    let found = look_prop(prop, alloc, tables, scope)?;
    scope.leave(mark);
    Ok(earlier(binders, found))
}

#[cycle(props)]
#[tactic(auto, using(crate::proofs::Leasts::least_append))]
pub(crate) fn look_prop<'a>(
    prop: &'a Prop,
    alloc: Global,
    tables: &Tables<'a>,
    scope: &mut Scope<'a>,
) -> Result<Option<Breach>, Memory>
    ensures found { IfOk result (λ found. found ≡ least (spec.prop_breaches (known_of tables.now) scope.old (plain_prop prop.now))) }
    ensures scope { IfOk result (λ found. scope.new ≡ scope.old) }
{
    match prop {
        Prop::Emp(_) => Ok(None),
        Prop::Pure(_, _, e) => Ok(wanted(Mode::Prop, scope, TRUTH, e)),
        Prop::Star(left, right) => {
            let one = look_prop(left, alloc, tables, scope)?;
            let two = look_prop(right, alloc, tables, scope)?;
            Ok(earlier(one, two))
        }
        Prop::Exists(_, binders, inner) => look_exists(
            inner,
            binders.as_slice(),
            alloc,
            tables,
            scope,
        ),
        Prop::Points(pos, cell, perm, e) => Ok(look_points(tables, scope, *pos, cell, perm, e)),
        Prop::Slice(_, a, lo, hi, perm) => Ok(look_slice(scope, a, lo, hi, perm)),
        Prop::Block(_, a, n) => {
            let base = wanted(Mode::Prop, scope, Want::Block, a);
            Ok(earlier(base, wanted(Mode::Prop, scope, INTEGER, n)))
        }
        Prop::Alive(_, l, perm, instance) => {
            let lock = earlier(wanted(Mode::Prop, scope, LOCK, l), look_perm(scope, perm));
            Ok(earlier(lock, look_instance(Mode::Prop, tables, scope, instance)))
        }
        Prop::Held(_, l) => Ok(wanted(Mode::Prop, scope, LOCK, l)),
        Prop::Inv(_, name, instance) => {
            let number = wanted(Mode::Prop, scope, INVARIANT, name);
            Ok(earlier(number, look_instance(Mode::Prop, tables, scope, instance)))
        }
        Prop::App(instance) => Ok(look_instance(Mode::Prop, tables, scope, instance)),
    }
}

/// A proposition, if there is one.
pub(crate) fn look_after<'a>(
    prop: Option<&'a Prop>,
    alloc: Global,
    tables: &Tables<'a>,
    scope: &mut Scope<'a>,
) -> Result<Option<Breach>, Memory>
    ensures found { IfOk result (λ found. found ≡ least (spec.after_breaches (known_of tables.now) scope.old (option_map plain_prop (lent prop.entry)))) }
    ensures scope { IfOk result (λ found. scope.new ≡ scope.old) }
{
    match prop {
        None => Ok(None),
        Some(p) => look_prop(p, alloc, tables, scope),
    }
}

/// The body of a predicate.
#[tactic(auto, using(crate::proofs::Leasts::least_append))]
pub(crate) fn look_body<'a>(
    body: &'a Body,
    alloc: Global,
    tables: &Tables<'a>,
    scope: &mut Scope<'a>,
) -> Result<Option<Breach>, Memory>
    ensures { IfOk result (λ found. found ≡ least (spec.body_breaches (known_of tables.now) scope.old (plain_body body.now))) }
{
    match body {
        Body::Plain(p) => look_prop(p, alloc, tables, scope),
        Body::Cond(e, p, q) => {
            let condition = wanted(Mode::Read, scope, TRUTH, e);
            let one = look_prop(p, alloc, tables, scope)?;
            let two = look_prop(q, alloc, tables, scope)?;
            Ok(earlier(earlier(condition, one), two))
        }
    }
}
