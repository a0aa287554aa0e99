//! Calls, and the first values of structures.

ghost use Rattle.std.specs.Prelude.{◌≡◌, map};
ghost use Rattle.pl_syntax.specs.Plain.{plain_expr, plain_init};
ghost use Rattle.pl_syntax.specs.Breaches.{least};
ghost use Rattle.pl_types.specs.Held as held;
ghost use Rattle.pl_types.specs.Held.{lent};
ghost use Rattle.pl_syntax.specs.Known.{written};
ghost use Rattle.pl_syntax.specs.StmtRules as spec;
ghost use Rattle.pl_types.specs.Tables.{callee, placed};

use crate::arguments::{binder_at, look_written, written_count};
use crate::breach::{at, earlier, unless};
use crate::exprs::{Want, leaves, wanted};
use crate::kinds::Kind;
use crate::permissions::agree;
use crate::scopes::Scope;
use crate::spots;
use crate::tables::{Callee, sort_in};
use pl_base::{Name, Pos};
use pl_syntax::{Binder, Breach, Expr, Init, Mode, Rule, Spot};

/// The arguments of a call, one for each parameter that isn't logical.
#[tactic(auto, using(crate::proofs::Leasts::least_append))]
fn given(scope: &Scope<'_>, pos: Pos, params: &[Binder], args: &[Expr]) -> Option<Breach>
    ensures { result ≡ least (spec.given_breaches scope.now pos (written params.now) (map plain_expr args.now)) }
{
    let count = unless(written_count(params) == args.len(), Rule::IllTyped, pos);
    earlier(count, look_written(scope, params, args))
}

/// A function that isn't declared: its arguments are looked at for names alone.
fn undeclared(scope: &Scope<'_>, pos: Pos, args: &[Expr]) -> Option<Breach>
    ensures { result ≡ least (spec.undeclared_breaches scope.now pos (map plain_expr args.now)) }
{
    earlier(at(Rule::Unknown, pos), look_written(scope, &[], args))
}

/// A call of a marked function opens invariants.
fn marked(spot: Spot, pos: Pos, opens: bool) -> Option<Breach>
    ensures { result ≡ least (spec.marked_breaches spot pos opens) }
{
    if opens {
        spots::opening(spot, pos)
    } else {
        None
    }
}

/// A call of a ghost function.
#[tactic(auto, using(crate::proofs::Leasts::least_append))]
fn ghost_call(spot: Spot, pos: Pos, f: Callee<'_>) -> Option<Breach>
    ensures { result ≡ least (spec.ghost_call spot pos (callee f.entry)) }
{
    let ends = !spot.is_ghost || spots::may_call(spot, f.place);
    earlier(
        marked(spot, pos, f.decl.opens),
        unless(ends, Rule::Measure, pos),
    )
}

fn look_callee(spot: Spot, pos: Pos, f: Callee<'_>) -> Option<Breach>
    ensures { result ≡ least (spec.callee_breaches spot pos (callee f.entry)) }
{
    if f.decl.is_ghost {
        ghost_call(spot, pos, f)
    } else {
        spots::real(spot, pos)
    }
}

/// A call, whose result is bound or not.
#[tactic(auto, using(crate::proofs::Leasts::least_append))]
pub(crate) fn look_call(
    spot: Spot,
    scope: &Scope<'_>,
    pos: Pos,
    bound: bool,
    f: Option<Callee<'_>>,
    args: &[Expr],
) -> Option<Breach>
    ensures { result ≡ least (spec.call_breaches spot scope.now pos bound (placed f.entry) (map plain_expr args.now)) }
{
    match f {
        None => undeclared(scope, pos, args),
        Some(f) => {
            let result = unless(agree(bound, f.decl.result.is_some()), Rule::IllTyped, pos);
            let head = earlier(result, look_callee(spot, pos, f));
            earlier(head, given(scope, pos, f.decl.params.as_slice(), args))
        }
    }
}

/// A call of a `par`.
#[tactic(auto, using(crate::proofs::Leasts::least_append))]
pub(crate) fn look_forked(
    scope: &Scope<'_>,
    pos: Pos,
    f: Option<Callee<'_>>,
    args: &[Expr],
) -> Option<Breach>
    ensures { result ≡ least (spec.forked_breaches scope.now pos (placed f.entry) (map plain_expr args.now)) }
{
    match f {
        None => undeclared(scope, pos, args),
        Some(f) => {
            let plain = !f.decl.is_ghost && !f.decl.result.is_some();
            let head = unless(plain, Rule::IllTyped, pos);
            earlier(head, given(scope, pos, f.decl.params.as_slice(), args))
        }
    }
}

/// The first value of a field with that sort.
pub(crate) fn look_init(
    scope: &Scope<'_>,
    pos: Pos,
    kind: Option<Kind<'_>>,
    e: &Expr,
) -> Option<Breach>
    ensures { result ≡ least (spec.init_breaches scope.now pos (held.sorts kind.entry) (plain_expr e.now)) }
{
    match kind {
        None => earlier(at(Rule::Unknown, pos), leaves(Mode::Prop, scope, e)),
        Some(kind) => wanted(Mode::Real, scope, Want::Sorted(kind), e),
    }
}

fn look_inits(scope: &Scope<'_>, pos: Pos, fields: &[Binder], inits: &[Init]) -> Option<Breach>
    ensures { result ≡ least (spec.inits_breaches scope.now pos fields.now (map plain_init inits.now)) }
{
    let mut found = None;
    for init in inits {
        let kind = sort_in(&init.name, fields);
        found = earlier(found, look_init(scope, pos, kind, &init.value));
    }
    found
}

/// Whether a name is that of a field.
fn is_field(name: &Name, field: Option<&Binder>) -> bool
    ensures { result ≡ spec.is_field name.now (lent field.entry) }
{
    match field {
        None => false,
        Some(b) => name.same(&b.name),
    }
}

/// Whether the first values are those of all fields in their order.
fn same_fields(fields: &[Binder], inits: &[Init]) -> bool
    ensures { result ≡ spec.same_fields fields.now (map plain_init inits.now) }
{
    for (i, init) in inits.iter().enumerate() {
        if !is_field(&init.name, binder_at(fields, i)) {
            return false;
        }
    }
    binder_at(fields, inits.len()).is_none()
}

/// The first values of a structure.
#[tactic(auto, using(crate::proofs::Leasts::least_append))]
pub(crate) fn look_new(
    scope: &Scope<'_>,
    pos: Pos,
    fields: Option<&[Binder]>,
    inits: &[Init],
) -> Option<Breach>
    ensures { result ≡ least (spec.new_breaches scope.now pos (lent fields.entry) (map plain_init inits.now)) }
{
    match fields {
        None => earlier(at(Rule::Unknown, pos), look_inits(scope, pos, &[], inits)),
        Some(fields) => {
            let order = unless(same_fields(fields, inits), Rule::IllTyped, pos);
            earlier(order, look_inits(scope, pos, fields, inits))
        }
    }
}
