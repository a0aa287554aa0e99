//! Binders in lists.

ghost use Rattle.std.specs.Prelude.{◌≡◌, IfOk, OnOk};
ghost use Rattle.pl_syntax.specs.Breaches.{least};
ghost use Rattle.pl_syntax.specs.Known.{nothing};
ghost use Rattle.pl_syntax.specs.PropRules as spec;
ghost use Rattle.pl_types.specs.Tables.{known_of};

use crate::breach::{earlier, unless};
use crate::kinds::read_as;
use crate::scopes::Scope;
use crate::seen::Seen;
use crate::tables::Tables;
use pl_base::Memory;
use pl_syntax::{Binder, Breach, Class, Role, Rule, Sort};
use std::alloc::Global;

/// The class of a binder in a list.
fn class_in(role: Role, class: Class) -> Class
    ensures { result ≡ spec.class_in role class }
{
    match role {
        Role::Parameter => class,
        Role::Field => Class::Real,
        Role::Bound => Class::Logical,
    }
}

/// Whether it is a sort of real code.
fn is_real(sort: &Sort) -> bool
    ensures { result ≡ spec.is_real sort.now }
{
    !matches!(sort, Sort::Int | Sort::Perm | Sort::Gref | Sort::Iname)
}

/// Whether a name of that class may have that sort.
fn may_have(class: Class, sort: &Sort) -> bool
    ensures { result ≡ spec.may_have class sort.now }
{
    match class {
        Class::Real => is_real(sort),
        Class::Ghost => !matches!(sort, Sort::Perm),
        Class::Logical => true,
    }
}

/// Whether a structure that a sort names is declared.
fn is_declared(tables: &Tables<'_>, sort: &Sort) -> bool
    ensures { result ≡ spec.is_declared (known_of tables.now) sort.now }
{
    match sort {
        Sort::RefStruct(name) => tables.structure(name).is_some(),
        _ => true,
    }
}

#[tactic(auto, using(crate::proofs::Leasts::least_append))]
pub(crate) fn look_binder(tables: &Tables<'_>, role: Role, b: &Binder) -> Option<Breach>
    ensures { result ≡ least (spec.binder_breaches (known_of tables.now) role b.now) }
{
    let declared = is_declared(tables, &b.sort);
    let allowed = may_have(class_in(role, b.class), &b.sort);
    earlier(
        unless(declared, Rule::Unknown, b.pos),
        unless(allowed, Rule::IllTyped, b.pos),
    )
}

/// The first breach in a list of binders.
pub(crate) fn look_binders(
    alloc: Global,
    tables: &Tables<'_>,
    role: Role,
    list: &[Binder],
) -> Result<Option<Breach>, Memory>
    ensures { IfOk result (λ found. found ≡ least (spec.binders_breaches (known_of tables.now) role nothing list.now)) }
{
    let mut seen = Seen::new(alloc);
    let mut found = None;
    for b in list {
        let here = look_binder(tables, role, b);
        let twice = unless(!seen.has(&b.name), Rule::Twice, b.pos);
        seen.put(&b.name)?;
        found = earlier(found, earlier(here, twice));
    }
    Ok(found)
}

/// The names of a list are in scope from now on.
pub(crate) fn bind_all<'a>(
    scope: &mut Scope<'a>,
    role: Role,
    list: &'a [Binder],
) -> Result<(), Memory>
    ensures { OnOk result (scope.new ≡ spec.bind_all role list.now scope.old) }
{
    for b in list {
        scope.bind(&b.name, class_in(role, b.class), Some(read_as(&b.sort)))?;
    }
    Ok(())
}
