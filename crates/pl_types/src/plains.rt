//! Statements without a block and without a proposition.

ghost use Rattle.std.specs.Prelude.{◌≡◌, OnOk};
ghost use Rattle.pl_syntax.specs.Plain.{plain_cell, plain_stmt};
ghost use Rattle.pl_syntax.specs.Breaches.{least};
ghost use Rattle.pl_types.specs.Held as held;
ghost use Rattle.pl_types.specs.Held.{lent};
ghost use Rattle.pl_syntax.specs.StmtRules as spec;
ghost use Rattle.pl_types.specs.Tables.{known_of, placed};

use crate::arguments::look_instance;
use crate::breach::earlier;
use crate::calls::look_call;
use crate::cells::{content_of, is_ghost_cell};
use crate::exprs::{INTEGER, TRUTH, Want, sort_of};
use crate::kinds::{Kind, read_as};
use crate::reals::{
    look_atomic, look_cas, look_cut, look_element, look_lock, look_made, look_par, look_result,
    look_use, look_value, look_values, look_write,
};
use crate::scopes::Scope;
use crate::simple::{
    evaluated, kind_of_content, kind_of_own, look_key, look_load, look_store, pointer_to, read,
};
use crate::spots;
use crate::tables::{Callee, Tables};
use pl_base::{Memory, Name};
use pl_syntax::{Breach, CellExpr, CellUse, Class, Mode, Spot, Stmt};

const LOCK: Want<'static> = Want::Sorted(Kind::Lock);

/// The first breach of such a statement of ghost code.
#[tactic(auto, using(crate::proofs::Leasts::least_append))]
fn look_ghosts<'a>(
    s: &'a Stmt,
    tables: &Tables<'a>,
    spot: Spot,
    scope: &Scope<'a>,
) -> Option<Breach>
    ensures { result ≡ least (spec.ghost_breaches (known_of tables.now) spot scope.now (plain_stmt s.now)) }
{
    match s {
        Stmt::GLet(_, _, e) => evaluated(scope, Want::Value, e),
        Stmt::GAlloc(_, _, e) => evaluated(scope, INTEGER, e),
        Stmt::NewInv(pos, _, i) => earlier(
            spots::outside(spot, *pos),
            look_instance(Mode::Ghost, tables, scope, i),
        ),
        Stmt::Fold(_, i) => look_instance(Mode::Read, tables, scope, i),
        Stmt::Unfold(_, i) => look_instance(Mode::Read, tables, scope, i),
        Stmt::Share(pos, key) => look_key(tables, scope, *pos, key),
        Stmt::Gather(pos, key) => look_key(tables, scope, *pos, key),
        Stmt::Split(_, a, lo, hi, m) => look_cut(scope, a, lo, hi, m),
        Stmt::Join(_, a, lo, m, hi) => look_cut(scope, a, lo, m, hi),
        Stmt::Focus(pos, a, i) => look_element(scope, *pos, a, i),
        Stmt::Unfocus(pos, a, i) => look_element(scope, *pos, a, i),
        Stmt::Assert(_, _, e, _) => read(scope, TRUTH, e),
        _ => None,
    }
}

/// The same of one that isn't about cells.
fn look_real<'a>(
    s: &'a Stmt,
    tables: &Tables<'a>,
    spot: Spot,
    last: Option<Kind<'a>>,
    scope: &Scope<'a>,
) -> Option<Breach>
    ensures { result ≡ least (spec.other_breaches (known_of tables.now) spot (held.sorts last.entry) scope.now (plain_stmt s.now)) }
{
    match s {
        Stmt::NewLock(pos, _, i) => look_lock(tables, spot, scope, *pos, i),
        Stmt::Acquire(pos, l) => look_use(spot, scope, LOCK, *pos, l),
        Stmt::Release(pos, l) => look_use(spot, scope, LOCK, *pos, l),
        Stmt::FreeLock(pos, l) => look_use(spot, scope, LOCK, *pos, l),
        Stmt::Read(pos, _) => spots::real(spot, *pos),
        Stmt::Print(pos, e) => look_value(spot, scope, INTEGER, *pos, e),
        Stmt::Call(pos, x, f, args) => look_call(
            spot,
            scope,
            *pos,
            x.is_some(),
            tables.function(f),
            args.as_slice(),
        ),
        Stmt::Par(pos, f, args, g, others) => look_par(
            spot,
            scope,
            *pos,
            tables.function(f),
            args.as_slice(),
            tables.function(g),
            others.as_slice(),
        ),
        Stmt::LetMut(pos, _, e) => look_value(spot, scope, Want::Scalar, *pos, e),
        Stmt::Return(pos, e) => look_result(spot, scope, *pos, last, e),
        _ => look_ghosts(s, tables, spot, scope),
    }
}

/// The first breach of such a statement.
pub(crate) fn look_plain<'a>(
    s: &'a Stmt,
    tables: &Tables<'a>,
    spot: Spot,
    last: Option<Kind<'a>>,
    scope: &Scope<'a>,
) -> Option<Breach>
    ensures { result ≡ least (spec.plain_breaches (known_of tables.now) spot (held.sorts last.entry) scope.now (plain_stmt s.now)) }
{
    match s {
        Stmt::Let(pos, _, e) => look_value(spot, scope, Want::Value, *pos, e),
        Stmt::Load(pos, _, cell, is_ghost) => look_load(tables, spot, scope, *pos, cell, *is_ghost),
        Stmt::Store(pos, cell, e) => look_store(
            tables,
            spot,
            scope,
            *pos,
            cell,
            e,
            is_ghost_cell(scope, cell),
        ),
        Stmt::Alloc(pos, _, e) => look_value(spot, scope, Want::Scalar, *pos, e),
        Stmt::AllocArray(pos, _, e, n) => look_values(spot, scope, *pos, e, n),
        Stmt::AllocAtomic(pos, _, e) => look_value(spot, scope, INTEGER, *pos, e),
        Stmt::New(pos, _, name, inits) => look_made(
            spot,
            scope,
            *pos,
            tables.structure(name),
            inits.as_slice(),
        ),
        Stmt::Free(pos, x) => look_use(spot, scope, Want::Block, *pos, x),
        Stmt::FreeArray(pos, x) => look_use(spot, scope, Want::Array, *pos, x),
        Stmt::AtomicRead(pos, _, c) => look_atomic(spot, scope, *pos, c),
        Stmt::AtomicWrite(pos, c, e) => look_write(spot, scope, *pos, c, e),
        Stmt::Cas(pos, _, c, old, new) => look_cas(spot, scope, *pos, c, old, new),
        _ => look_real(s, tables, spot, last, scope),
    }
}

/// Whether it is a ghost statement.
pub(crate) fn is_plain_ghost<'a>(s: &'a Stmt, tables: &Tables<'a>, scope: &Scope<'a>) -> bool
    ensures { result ≡ spec.is_plain_ghost (known_of tables.now) (plain_stmt s.now) scope.now }
{
    match s {
        Stmt::Load(_, _, _, is_ghost) => *is_ghost,
        Stmt::Store(_, cell, _) => is_ghost_cell(scope, cell),
        Stmt::Call(_, _, f, _) => is_ghost_fun(tables.function(f)),
        Stmt::GLet(..) | Stmt::GAlloc(..) | Stmt::NewInv(..) => true,
        Stmt::Fold(..) | Stmt::Unfold(..) => true,
        Stmt::Share(..) | Stmt::Gather(..) | Stmt::Split(..) | Stmt::Join(..) => true,
        Stmt::Focus(..) | Stmt::Unfocus(..) | Stmt::Assert(..) => true,
        _ => false,
    }
}

fn is_ghost_fun(f: Option<Callee<'_>>) -> bool
    ensures { result ≡ spec.is_ghost_fun (placed f.entry) }
{
    match f {
        None => false,
        Some(f) => f.decl.is_ghost,
    }
}

/// The sort of the result of a function.
fn result_in(f: Option<Callee<'_>>) -> Option<Kind<'_>>
    ensures { held.sorts result ≡ spec.result_in (placed f.entry) }
{
    match f {
        None => None,
        Some(f) => match &f.decl.result {
            None => None,
            Some(b) => Some(read_as(&b.sort)),
        },
    }
}

/// The result of a call is in scope from now on.
fn bind_result<'a>(
    scope: &mut Scope<'a>,
    name: Option<&'a Name>,
    kind: Option<Kind<'a>>,
) -> Result<(), Memory>
    ensures { OnOk result (scope.new ≡ spec.bind_result (lent name.entry) (held.sorts kind.entry) scope.old) }
{
    match name {
        None => Ok(()),
        Some(x) => scope.bind(x, Class::Real, kind),
    }
}

/// What a load binds.
fn bind_load<'a>(
    scope: &mut Scope<'a>,
    tables: &Tables<'a>,
    is_ghost: bool,
    name: &'a Name,
    cell: &CellExpr,
) -> Result<(), Memory>
    ensures { OnOk result (scope.new ≡ spec.bind_load (known_of tables.now) is_ghost name.now (plain_cell cell.now) scope.old) }
{
    if is_ghost {
        scope.bind(name, Class::Ghost, Some(Kind::Int))
    } else {
        let kind = kind_of_content(content_of(tables, CellUse::Plain, scope, cell));
        scope.bind(name, Class::Real, kind)
    }
}

/// The name that such a statement binds is in scope from now on.
pub(crate) fn bind_plain<'a>(
    s: &'a Stmt,
    tables: &Tables<'a>,
    scope: &mut Scope<'a>,
) -> Result<(), Memory>
    ensures { OnOk result (scope.new ≡ spec.bound_by (known_of tables.now) (plain_stmt s.now) scope.old) }
{
    match s {
        Stmt::Let(_, x, e) => {
            let kind = kind_of_own(sort_of(scope, e));
            scope.bind(x, Class::Real, kind)
        }
        Stmt::Load(_, x, cell, is_ghost) => bind_load(scope, tables, *is_ghost, x, cell),
        Stmt::Alloc(_, x, e) => {
            let kind = pointer_to(sort_of(scope, e));
            scope.bind(x, Class::Real, kind)
        }
        Stmt::AllocArray(_, x, _, _) => scope.bind(x, Class::Real, Some(Kind::RefI64)),
        Stmt::AllocAtomic(_, x, _) => scope.bind(x, Class::Real, Some(Kind::Atomic)),
        Stmt::New(_, x, name, _) => scope.bind(x, Class::Real, Some(Kind::RefStruct(name))),
        Stmt::AtomicRead(_, x, _) => scope.bind(x, Class::Real, Some(Kind::Int)),
        Stmt::Cas(_, x, _, _, _) => scope.bind(x, Class::Real, Some(Kind::Bool)),
        Stmt::NewLock(_, x, _) => scope.bind(x, Class::Real, Some(Kind::Lock)),
        Stmt::Read(_, x) => scope.bind(x, Class::Real, Some(Kind::Int)),
        Stmt::Call(_, x, f, _) => bind_result(scope, x.as_ref(), result_in(tables.function(f))),
        Stmt::LetMut(_, x, e) => {
            let kind = pointer_to(sort_of(scope, e));
            scope.bind(x, Class::Real, kind)
        }
        Stmt::GLet(_, x, e) => {
            let kind = kind_of_own(sort_of(scope, e));
            scope.bind(x, Class::Ghost, kind)
        }
        Stmt::GAlloc(_, x, _) => scope.bind(x, Class::Ghost, Some(Kind::Gref)),
        Stmt::NewInv(_, x, _) => scope.bind(x, Class::Ghost, Some(Kind::Iname)),
        _ => Ok(()),
    }
}
