//! Declarations.

ghost use Rattle.std.specs.Prelude.{◌≡◌, IfOk, OnOk, map, false};
ghost use Rattle.std.specs.Option.{option_map};
ghost use Rattle.pl_syntax.specs.Plain.{plain_block, plain_decl, plain_expr, plain_fun, plain_pred, plain_stmts};
ghost use Rattle.pl_syntax.specs.Breaches.{least};
ghost use Rattle.pl_syntax.specs.DeclRules as spec;
ghost use Rattle.pl_types.specs.Held as held;
ghost use Rattle.pl_syntax.specs.Known.{nothing};
ghost use Rattle.pl_syntax.specs.PropRules as props;
ghost use Rattle.pl_syntax.specs.declared.rules.Role.TheVariants as role;
ghost use Rattle.pl_syntax.specs.StmtRules.{result_of};
ghost use Rattle.pl_types.specs.Tables.{known_of};

use crate::binders::{bind_all, look_binder, look_binders};
use crate::breach::{earlier, unless};
use crate::exprs::INTEGER;
use crate::kinds::{Kind, read_as};
use crate::props::{look_body, look_prop};
use crate::scopes::Scope;
use crate::seen::Seen;
use crate::simple::read;
use crate::stmts::look_stmts;
use crate::tables::Tables;
use pl_base::{Memory, Name, Pos};
use pl_syntax::{
    Binder, Breach, Class, Decl, Expr, FunDecl, Inside, PredDecl, Role, Rule, Spot, Stmt, Stmts,
};
use std::alloc::Global;

/// The result of a function.
#[tactic(auto, using(crate::proofs::Leasts::least_append))]
fn look_result(tables: &Tables<'_>, is_ghost: bool, binder: Option<&Binder>) -> Option<Breach>
    ensures { result ≡ least (spec.result_breaches (known_of tables.now) is_ghost (held.lent binder.entry)) }
{
    match binder {
        None => None,
        Some(b) => earlier(
            look_binder(tables, Role::Field, b),
            unless(!is_ghost, Rule::IllTyped, b.pos),
        ),
    }
}

fn look_measure(scope: &Scope<'_>, measure: Option<&Expr>) -> Option<Breach>
    ensures { result ≡ least (spec.measure_breaches scope.now (option_map plain_expr (held.lent measure.entry))) }
{
    match measure {
        None => None,
        Some(e) => read(scope, INTEGER, e),
    }
}

/// Whether the last statement is a `return`.
fn returns(list: &[Stmt]) -> bool
    ensures { result ≡ spec.last_returns false (plain_stmts list.now) }
{
    let mut last = false;
    for s in list {
        last = matches!(s, Stmt::Return(..));
    }
    last
}

/// A function with a result ends in a `return`.
fn ends_well(binder: Option<&Binder>, body: &Stmts) -> bool
    ensures { result ≡ spec.ends_well (held.lent binder.entry) (plain_block body.now) }
{
    match binder {
        None => true,
        Some(_) => returns(body.list.as_slice()),
    }
}

/// The sort of a result.
fn result_kind(binder: Option<&Binder>) -> Option<Kind<'_>>
    ensures { held.sorts result ≡ result_of (held.lent binder.entry) }
{
    match binder {
        None => None,
        Some(b) => Some(read_as(&b.sort)),
    }
}

/// The result is in scope from now on.
fn bind_binder<'a>(scope: &mut Scope<'a>, binder: Option<&'a Binder>) -> Result<(), Memory>
    ensures { OnOk result (scope.new ≡ props.bind_all role.Field (spec.as_list (held.lent binder.entry)) scope.old) }
{
    match binder {
        None => Ok(()),
        Some(b) => scope.bind(&b.name, Class::Real, Some(read_as(&b.sort))),
    }
}

fn spot_of(place: usize, f: &FunDecl) -> Spot
    ensures { result ≡ spec.function_spot place (plain_fun f.now) }
{
    Spot {
        place,
        is_ghost: f.is_ghost,
        opens: f.opens,
        measured: f.measure.is_some(),
        inside: Inside::Outside,
    }
}

/// `ensures`, in which the result is in scope.
#[tactic(auto, using(crate::proofs::ScopeLaws::left_bound, crate::proofs::ScopeLaws::marked_bound))]
fn look_ensures<'a>(
    f: &'a FunDecl,
    alloc: Global,
    tables: &Tables<'a>,
    scope: &mut Scope<'a>,
) -> Result<Option<Breach>, Memory>
    ensures found { IfOk result (λ found. found ≡ least (spec.ensures_breaches (known_of tables.now) (plain_fun f.now) scope.old)) }
    ensures scope { IfOk result (λ found. scope.new ≡ scope.old) }
{
    let mark = scope.mark();
    bind_binder(scope, f.result.as_ref())?;
    let found = look_prop(&f.after, alloc, tables, scope)?;
    scope.leave(mark);
    Ok(found)
}

/// The body of a function.
fn look_statements<'a>(
    f: &'a FunDecl,
    place: usize,
    alloc: Global,
    tables: &Tables<'a>,
    scope: &mut Scope<'a>,
) -> Result<Option<Breach>, Memory>
    ensures { IfOk result (λ found. found ≡ least (spec.function_body (known_of tables.now) place (plain_fun f.now) scope.old)) }
{
    let last = result_kind(f.result.as_ref());
    let list = f.body.list.as_slice();
    let looked = look_stmts(list, alloc, tables, spot_of(place, f), last, scope)?;
    Ok(looked.found)
}

/// What a function promises before its body.
#[tactic(auto, using(crate::proofs::Leasts::least_append))]
fn look_head<'a>(
    f: &'a FunDecl,
    alloc: Global,
    tables: &Tables<'a>,
    scope: &mut Scope<'a>,
) -> Result<Option<Breach>, Memory>
    ensures found { IfOk result (λ found. found ≡ least (spec.head_breaches (known_of tables.now) (plain_fun f.now) scope.old)) }
    ensures scope { IfOk result (λ found. scope.new ≡ scope.old) }
{
    let before = look_prop(&f.before, alloc, tables, scope)?;
    let binder = look_result(tables, f.is_ghost, f.result.as_ref());
    let after = look_ensures(f, alloc, tables, scope)?;
    let measure = look_measure(scope, f.measure.as_ref());
    let ends = unless(ends_well(f.result.as_ref(), &f.body), Rule::IllTyped, f.pos);
    let contract = earlier(earlier(earlier(before, binder), after), measure);
    Ok(earlier(contract, ends))
}

/// A function at that place among all declarations.
#[tactic(auto, using(crate::proofs::Leasts::least_append))]
fn look_fun<'a>(
    f: &'a FunDecl,
    place: usize,
    alloc: Global,
    tables: &Tables<'a>,
) -> Result<Option<Breach>, Memory>
    ensures { IfOk result (λ found. found ≡ least (spec.fun_breaches (known_of tables.now) place (plain_fun f.now))) }
{
    let mut scope = Scope::new(alloc);
    let params = f.params.as_slice();
    let binders = look_binders(alloc, tables, Role::Parameter, params)?;
    bind_all(&mut scope, Role::Parameter, params)?;
    let head = look_head(f, alloc, tables, &mut scope)?;
    let body = look_statements(f, place, alloc, tables, &mut scope)?;
    Ok(earlier(earlier(binders, head), body))
}

#[tactic(auto, using(crate::proofs::Leasts::least_append))]
fn look_pred<'a>(
    p: &'a PredDecl,
    alloc: Global,
    tables: &Tables<'a>,
) -> Result<Option<Breach>, Memory>
    ensures { IfOk result (λ found. found ≡ least (spec.pred_breaches (known_of tables.now) (plain_pred p.now))) }
{
    let mut scope = Scope::new(alloc);
    let params = p.params.as_slice();
    let binders = look_binders(alloc, tables, Role::Bound, params)?;
    bind_all(&mut scope, Role::Bound, params)?;
    let body = look_body(&p.body, alloc, tables, &mut scope)?;
    Ok(earlier(binders, body))
}

fn look_decl<'a>(
    d: &'a Decl,
    place: usize,
    alloc: Global,
    tables: &Tables<'a>,
) -> Result<Option<Breach>, Memory>
    ensures { IfOk result (λ found. found ≡ least (spec.decl_breaches (known_of tables.now) place (plain_decl d.now))) }
{
    match d {
        Decl::Struct(s) => look_binders(alloc, tables, Role::Field, s.fields.as_slice()),
        Decl::Pred(p) => look_pred(p, alloc, tables),
        Decl::Fun(f) => look_fun(f, place, alloc, tables),
    }
}

/// The name of a declaration.
fn name_of(d: &Decl) -> &Name
    ensures { result.now ≡ spec.name_of (plain_decl d.now) }
{
    match d {
        Decl::Struct(s) => &s.name,
        Decl::Pred(p) => &p.name,
        Decl::Fun(f) => &f.name,
    }
}

fn place_of(d: &Decl) -> Pos
    ensures { result ≡ spec.place_of (plain_decl d.now) }
{
    match d {
        Decl::Struct(s) => s.pos,
        Decl::Pred(p) => p.pos,
        Decl::Fun(f) => f.pos,
    }
}

/// The first breach of all declarations.
pub(crate) fn look_decls<'a>(
    alloc: Global,
    tables: &Tables<'a>,
    list: &'a [Decl],
) -> Result<Option<Breach>, Memory>
    ensures { IfOk result (λ found. found ≡ least (spec.decls_breaches (known_of tables.now) nothing 0 (map plain_decl list.now))) }
{
    let mut seen = Seen::new(alloc);
    let mut found = None;
    for (i, d) in list.iter().enumerate() {
        let name = name_of(d);
        let twice = unless(!seen.has(name), Rule::Twice, place_of(d));
        let here = look_decl(d, i, alloc, tables)?;
        seen.put(name)?;
        found = earlier(found, earlier(twice, here));
    }
    Ok(found)
}
