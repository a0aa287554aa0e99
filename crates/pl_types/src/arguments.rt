//! Arguments and instances of predicates.

ghost use Rattle.std.specs.Prelude.{◌≡◌, map, length, drop};
ghost use Rattle.std.specs.List.{slice_get};
ghost use Rattle.pl_syntax.specs.declared.rules.Mode.TheVariants as mode;
ghost use Rattle.pl_syntax.specs.Plain.{plain_expr, plain_instance};
ghost use Rattle.pl_syntax.specs.Breaches.{least};
ghost use Rattle.pl_types.specs.Held.{lent};
ghost use Rattle.pl_syntax.specs.Known as known;
ghost use Rattle.pl_syntax.specs.PropRules as spec;
ghost use Rattle.pl_types.specs.Tables.{known_of};

use crate::breach::{at, earlier, unless};
use crate::exprs::{Want, leaves, wanted};
use crate::kinds::read_as;
use crate::scopes::Scope;
use crate::tables::Tables;
use pl_syntax::{Binder, Breach, Class, Expr, Instance, Mode, Rule};

/// How an argument is read for a parameter of that class.
fn argument_mode(mode: Mode, class: Class) -> Mode
    ensures { result ≡ spec.argument_mode mode class }
{
    match class {
        Class::Real => Mode::Real,
        Class::Ghost => Mode::Ghost,
        Class::Logical => mode,
    }
}

/// An argument; past the parameters it is looked at for names alone.
pub(crate) fn look_argument(
    mode: Mode,
    scope: &Scope<'_>,
    param: Option<&Binder>,
    e: &Expr,
) -> Option<Breach>
    ensures { result ≡ least (spec.argument_breaches mode scope.now (lent param.entry) (plain_expr e.now)) }
{
    match param {
        None => leaves(Mode::Prop, scope, e),
        Some(b) => wanted(
            argument_mode(mode, b.class),
            scope,
            Want::Sorted(read_as(&b.sort)),
            e,
        ),
    }
}

/// The i-th of binders.
pub(crate) fn binder_at(list: &[Binder], i: usize) -> Option<&Binder>
    ensures { lent result ≡ slice_get list.now i }
{
    list.get(i)
}

/// The arguments of an instance.
fn look_arguments(mode: Mode, scope: &Scope<'_>, params: &[Binder], args: &[Expr]) -> Option<Breach>
    ensures { result ≡ least (spec.arguments_breaches mode scope.now params.now (map plain_expr args.now)) }
{
    let mut found = None;
    for (i, e) in args.iter().enumerate() {
        found = earlier(found, look_argument(mode, scope, binder_at(params, i), e));
    }
    found
}

/// A predicate with its arguments.
#[tactic(auto, using(crate::proofs::Leasts::least_append))]
pub(crate) fn look_instance(
    mode: Mode,
    tables: &Tables<'_>,
    scope: &Scope<'_>,
    instance: &Instance,
) -> Option<Breach>
    ensures { result ≡ least (spec.instance_breaches mode (known_of tables.now) scope.now (plain_instance instance.now)) }
{
    let args = instance.args.as_slice();
    match tables.predicate(&instance.pred) {
        None => earlier(
            at(Rule::Unknown, instance.pos),
            look_arguments(mode, scope, &[], args),
        ),
        Some(params) => {
            let count = unless(params.len() == args.len(), Rule::IllTyped, instance.pos);
            earlier(count, look_arguments(mode, scope, params, args))
        }
    }
}

/// Whether a parameter of that class has a written argument.
fn is_written(class: Class) -> bool
    ensures { result ≡ known.is_written class }
{
    !matches!(class, Class::Logical)
}

/// How many parameters have written arguments.
pub(crate) fn written_count(params: &[Binder]) -> usize
    ensures { result ≡ length (known.written params.now) }
{
    let mut count = 0usize;
    for b in params {
        if is_written(b.class) {
            count += 1;
        }
    }
    count
}

/// The parameters from the first one on that has a written argument.
fn next_written(params: &[Binder]) -> &[Binder]
    ensures front { slice_get result.now 0 ≡ slice_get (known.written params.now) 0 }
    ensures rest { known.written (drop 1 result.now) ≡ drop 1 (known.written params.now) }
{
    for (i, b) in params.iter().enumerate() {
        if is_written(b.class) {
            return &params[i..];
        }
    }
    &[]
}

/// The parameters behind the first.
fn behind_first(params: &[Binder]) -> &[Binder]
    ensures { result.now ≡ drop 1 params.now }
{
    if params.is_empty() {
        params
    } else {
        &params[1..]
    }
}

/// The arguments of a call, of which logical parameters have none.
pub(crate) fn look_written(scope: &Scope<'_>, params: &[Binder], args: &[Expr]) -> Option<Breach>
    ensures { result ≡ least (spec.arguments_breaches mode.Ghost scope.now (known.written params.now) (map plain_expr args.now)) }
{
    let mut found = None;
    let mut rest = params;
    for e in args {
        let here = next_written(rest);
        found = earlier(
            found,
            look_argument(Mode::Ghost, scope, binder_at(here, 0), e),
        );
        rest = behind_first(here);
    }
    found
}
