//! Statements of real code, by what stands in them.

ghost use Rattle.std.specs.Prelude.{◌≡◌, ◌++◌, map};
ghost use Rattle.pl_syntax.specs.Plain.{plain_expr, plain_init, plain_instance};
ghost use Rattle.pl_syntax.specs.declared.expr.Sort.TheVariants as sort;
ghost use Rattle.pl_syntax.specs.declared.rules.Mode.TheVariants as mode;
ghost use Rattle.pl_syntax.specs.Breaches.{least};
ghost use Rattle.pl_syntax.specs.ExprRules as x;
ghost use Rattle.pl_types.specs.Held as held;
ghost use Rattle.pl_syntax.specs.PropRules.{instance_breaches};
ghost use Rattle.pl_syntax.specs.StmtRules as spec;
ghost use Rattle.pl_types.specs.Tables.{known_of, placed};

use crate::arguments::look_instance;
use crate::breach::earlier;
use crate::calls::{look_forked, look_new};
use crate::exprs::{INTEGER, Want};
use crate::kinds::Kind;
use crate::scopes::Scope;
use crate::simple::{look_range, look_return, read, read_name, real, real_name};
use crate::spots;
use crate::tables::{Callee, Tables};
use pl_base::{Name, Pos};
use pl_syntax::{Binder, Breach, Expr, Init, Instance, Mode, Spot};

const ATOMIC: Want<'static> = Want::Sorted(Kind::Atomic);

/// One expression.
#[tactic(auto, using(crate::proofs::Leasts::least_append))]
pub(crate) fn look_value(
    spot: Spot,
    scope: &Scope<'_>,
    want: Want<'_>,
    pos: Pos,
    e: &Expr,
) -> Option<Breach>
    ensures { result ≡ least (spec.real_breaches spot pos ++ spec.real scope.now (held.want want.entry) (plain_expr e.now)) }
{
    earlier(spots::real(spot, pos), real(scope, want, e))
}

/// Two integers.
#[tactic(auto, using(crate::proofs::Leasts::least_append))]
pub(crate) fn look_values(
    spot: Spot,
    scope: &Scope<'_>,
    pos: Pos,
    e: &Expr,
    n: &Expr,
) -> Option<Breach>
    ensures { result ≡ least (spec.real_breaches spot pos ++ spec.real scope.now spec.integer (plain_expr e.now) ++ spec.real scope.now spec.integer (plain_expr n.now)) }
{
    earlier(
        look_value(spot, scope, INTEGER, pos, e),
        real(scope, INTEGER, n),
    )
}

/// One name.
#[tactic(auto, using(crate::proofs::Leasts::least_append))]
pub(crate) fn look_use(
    spot: Spot,
    scope: &Scope<'_>,
    want: Want<'_>,
    pos: Pos,
    name: &Name,
) -> Option<Breach>
    ensures { result ≡ least (spec.real_breaches spot pos ++ spec.real_name scope.now (held.want want.entry) pos name.now) }
{
    earlier(spots::real(spot, pos), real_name(scope, want, pos, name))
}

/// The first values of a structure.
#[tactic(auto, using(crate::proofs::Leasts::least_append))]
pub(crate) fn look_made(
    spot: Spot,
    scope: &Scope<'_>,
    pos: Pos,
    fields: Option<&[Binder]>,
    inits: &[Init],
) -> Option<Breach>
    ensures { result ≡ least (spec.real_breaches spot pos ++ spec.new_breaches scope.now pos (held.lent fields.entry) (map plain_init inits.now)) }
{
    earlier(spots::real(spot, pos), look_new(scope, pos, fields, inits))
}

/// The invariant of a lock.
#[tactic(auto, using(crate::proofs::Leasts::least_append))]
pub(crate) fn look_lock<'a>(
    tables: &Tables<'a>,
    spot: Spot,
    scope: &Scope<'a>,
    pos: Pos,
    i: &Instance,
) -> Option<Breach>
    ensures { result ≡ least (spec.real_breaches spot pos ++ instance_breaches mode.Ghost (known_of tables.now) scope.now (plain_instance i.now)) }
{
    earlier(
        spots::real(spot, pos),
        look_instance(Mode::Ghost, tables, scope, i),
    )
}

/// Two calls.
#[tactic(auto, using(crate::proofs::Leasts::least_append))]
pub(crate) fn look_par(
    spot: Spot,
    scope: &Scope<'_>,
    pos: Pos,
    f: Option<Callee<'_>>,
    args: &[Expr],
    g: Option<Callee<'_>>,
    others: &[Expr],
) -> Option<Breach>
    ensures { result ≡ least (spec.real_breaches spot pos ++ spec.forked_breaches scope.now pos (placed f.entry) (map plain_expr args.now)
        ++ spec.forked_breaches scope.now pos (placed g.entry) (map plain_expr others.now)) }
{
    let first = earlier(spots::real(spot, pos), look_forked(scope, pos, f, args));
    earlier(first, look_forked(scope, pos, g, others))
}

/// A result.
#[tactic(auto, using(crate::proofs::Leasts::least_append))]
pub(crate) fn look_result(
    spot: Spot,
    scope: &Scope<'_>,
    pos: Pos,
    last: Option<Kind<'_>>,
    e: &Expr,
) -> Option<Breach>
    ensures { result ≡ least (spec.real_breaches spot pos ++ spec.return_breaches scope.now pos (held.sorts last.entry) (plain_expr e.now)) }
{
    earlier(spots::real(spot, pos), look_return(scope, pos, last, e))
}

/// An atomic action on that cell.
#[tactic(auto, using(crate::proofs::Leasts::least_append))]
pub(crate) fn look_atomic(spot: Spot, scope: &Scope<'_>, pos: Pos, name: &Name) -> Option<Breach>
    ensures { result ≡ least (spec.action_breaches spot pos ++ spec.real_name scope.now (x.sorted sort.Atomic) pos name.now) }
{
    earlier(
        spots::action(spot, pos),
        real_name(scope, ATOMIC, pos, name),
    )
}

/// One with an integer.
#[tactic(auto, using(crate::proofs::Leasts::least_append))]
pub(crate) fn look_write(
    spot: Spot,
    scope: &Scope<'_>,
    pos: Pos,
    name: &Name,
    e: &Expr,
) -> Option<Breach>
    ensures { result ≡ least (spec.action_breaches spot pos ++ spec.real_name scope.now (x.sorted sort.Atomic) pos name.now
        ++ spec.real scope.now spec.integer (plain_expr e.now)) }
{
    earlier(look_atomic(spot, scope, pos, name), real(scope, INTEGER, e))
}

/// One with two integers.
#[tactic(auto, using(crate::proofs::Leasts::least_append))]
pub(crate) fn look_cas(
    spot: Spot,
    scope: &Scope<'_>,
    pos: Pos,
    name: &Name,
    old: &Expr,
    new: &Expr,
) -> Option<Breach>
    ensures { result ≡ least (spec.action_breaches spot pos ++ spec.real_name scope.now (x.sorted sort.Atomic) pos name.now
        ++ spec.real scope.now spec.integer (plain_expr old.now) ++ spec.real scope.now spec.integer (plain_expr new.now)) }
{
    let first = look_write(spot, scope, pos, name, old);
    earlier(first, real(scope, INTEGER, new))
}

/// A slice that is cut or put together: between two bounds, with a third.
#[tactic(auto, using(crate::proofs::Leasts::least_append))]
pub(crate) fn look_cut(
    scope: &Scope<'_>,
    a: &Expr,
    lo: &Expr,
    hi: &Expr,
    third: &Expr,
) -> Option<Breach>
    ensures { result ≡ least (spec.range_breaches scope.now (plain_expr a.now) (plain_expr lo.now) (plain_expr hi.now) ++ spec.read scope.now spec.integer (plain_expr third.now)) }
{
    earlier(look_range(scope, a, lo, hi), read(scope, INTEGER, third))
}

/// An array's element.
#[tactic(auto, using(crate::proofs::Leasts::least_append))]
pub(crate) fn look_element(scope: &Scope<'_>, pos: Pos, a: &Name, i: &Expr) -> Option<Breach>
    ensures { result ≡ least (spec.read_name scope.now x.array pos a.now ++ spec.read scope.now spec.integer (plain_expr i.now)) }
{
    earlier(
        read_name(scope, Want::Array, pos, a),
        read(scope, INTEGER, i),
    )
}
