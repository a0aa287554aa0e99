//! Statements without blocks.

ghost use Rattle.std.specs.Prelude.{◌≡◌};
ghost use Rattle.pl_syntax.specs.Plain.{plain_cell, plain_expr, plain_key};
ghost use Rattle.pl_syntax.specs.Breaches.{least};
ghost use Rattle.pl_types.specs.Held as held;
ghost use Rattle.pl_syntax.specs.StmtRules as spec;
ghost use Rattle.pl_types.specs.Tables.{known_of};

use crate::breach::{at, earlier};
use crate::cells::{Content, content_of, look_cell, want_of};
use crate::exprs::{INTEGER, Own, Want, leaves, named, wanted};
use crate::kinds::Kind;
use crate::scopes::Scope;
use crate::spots;
use crate::tables::Tables;
use pl_base::{Name, Pos};
use pl_syntax::{Breach, CellExpr, CellUse, Expr, Key, Mode, Rule, Spot};

/// An expression of real code.
pub(crate) fn real(scope: &Scope<'_>, want: Want<'_>, e: &Expr) -> Option<Breach>
    ensures { result ≡ least (spec.real scope.now (held.want want.entry) (plain_expr e.now)) }
{
    wanted(Mode::Real, scope, want, e)
}

/// An expression that is evaluated in ghost code.
pub(crate) fn evaluated(scope: &Scope<'_>, want: Want<'_>, e: &Expr) -> Option<Breach>
    ensures { result ≡ least (spec.ghost scope.now (held.want want.entry) (plain_expr e.now)) }
{
    wanted(Mode::Ghost, scope, want, e)
}

/// An expression of contracts that stands in no proposition.
pub(crate) fn read(scope: &Scope<'_>, want: Want<'_>, e: &Expr) -> Option<Breach>
    ensures { result ≡ least (spec.read scope.now (held.want want.entry) (plain_expr e.now)) }
{
    wanted(Mode::Read, scope, want, e)
}

/// A name that real code uses.
pub(crate) fn real_name(scope: &Scope<'_>, want: Want<'_>, pos: Pos, name: &Name) -> Option<Breach>
    ensures { result ≡ least (spec.real_name scope.now (held.want want.entry) pos name.now) }
{
    named(Mode::Real, want, pos, scope.look(name))
}

/// A name that isn't evaluated.
pub(crate) fn read_name(scope: &Scope<'_>, want: Want<'_>, pos: Pos, name: &Name) -> Option<Breach>
    ensures { result ≡ least (spec.read_name scope.now (held.want want.entry) pos name.now) }
{
    named(Mode::Read, want, pos, scope.look(name))
}

/// A load or a store of real code.
fn real_cell<'a>(
    tables: &Tables<'a>,
    scope: &Scope<'a>,
    pos: Pos,
    cell: &CellExpr,
) -> Option<Breach>
    ensures { result ≡ least (spec.real_cell (known_of tables.now) scope.now pos (plain_cell cell.now)) }
{
    look_cell(Mode::Real, CellUse::Plain, tables, scope, pos, cell)
}

/// A ghost load or a store to a ghost cell.
fn ghost_cell<'a>(
    tables: &Tables<'a>,
    scope: &Scope<'a>,
    pos: Pos,
    cell: &CellExpr,
) -> Option<Breach>
    ensures { result ≡ least (spec.ghost_cell (known_of tables.now) scope.now pos (plain_cell cell.now)) }
{
    look_cell(Mode::Ghost, CellUse::Ghost, tables, scope, pos, cell)
}

/// `let x = !c;`, or with `ghost`.
#[tactic(auto, using(crate::proofs::Leasts::least_append))]
pub(crate) fn look_load<'a>(
    tables: &Tables<'a>,
    spot: Spot,
    scope: &Scope<'a>,
    pos: Pos,
    cell: &CellExpr,
    is_ghost: bool,
) -> Option<Breach>
    ensures { result ≡ least (spec.load_breaches (known_of tables.now) spot scope.now pos (plain_cell cell.now) is_ghost) }
{
    if is_ghost {
        ghost_cell(tables, scope, pos, cell)
    } else {
        earlier(spots::real(spot, pos), real_cell(tables, scope, pos, cell))
    }
}

/// `c := e;`, of a ghost cell or another one.
#[tactic(auto, using(crate::proofs::Leasts::least_append))]
pub(crate) fn look_store<'a>(
    tables: &Tables<'a>,
    spot: Spot,
    scope: &Scope<'a>,
    pos: Pos,
    cell: &CellExpr,
    e: &Expr,
    is_ghost: bool,
) -> Option<Breach>
    ensures { result ≡ least (spec.store_breaches (known_of tables.now) spot scope.now pos (plain_cell cell.now) (plain_expr e.now) is_ghost) }
{
    if is_ghost {
        let found = ghost_cell(tables, scope, pos, cell);
        earlier(found, evaluated(scope, INTEGER, e))
    } else {
        let found = earlier(spots::real(spot, pos), real_cell(tables, scope, pos, cell));
        let want = want_of(content_of(tables, CellUse::Plain, scope, cell));
        earlier(found, real(scope, want, e))
    }
}

/// `return e;`, with the sort of the result where it may stand.
pub(crate) fn look_return(
    scope: &Scope<'_>,
    pos: Pos,
    last: Option<Kind<'_>>,
    e: &Expr,
) -> Option<Breach>
    ensures { result ≡ least (spec.return_breaches scope.now pos (held.sorts last.entry) (plain_expr e.now)) }
{
    match last {
        None => earlier(at(Rule::IllTyped, pos), leaves(Mode::Prop, scope, e)),
        Some(kind) => real(scope, Want::Sorted(kind), e),
    }
}

/// A slice between two bounds.
#[tactic(auto, using(crate::proofs::Leasts::least_append))]
pub(crate) fn look_range(scope: &Scope<'_>, a: &Expr, lo: &Expr, hi: &Expr) -> Option<Breach>
    ensures { result ≡ least (spec.range_breaches scope.now (plain_expr a.now) (plain_expr lo.now) (plain_expr hi.now)) }
{
    let base = read(scope, Want::Array, a);
    let low = read(scope, INTEGER, lo);
    earlier(earlier(base, low), read(scope, INTEGER, hi))
}

/// What is shared or gathered.
pub(crate) fn look_key<'a>(
    tables: &Tables<'a>,
    scope: &Scope<'a>,
    pos: Pos,
    key: &Key,
) -> Option<Breach>
    ensures { result ≡ least (spec.key_breaches (known_of tables.now) scope.now pos (plain_key key.now)) }
{
    match key {
        Key::Cell(cell) => look_cell(Mode::Read, CellUse::Key, tables, scope, pos, cell),
        Key::Slice(a, lo, hi) => look_range(scope, a, lo, hi),
    }
}

/// The sort of what a name is bound to.
pub(crate) fn kind_of_own(own: Own<'_>) -> Option<Kind<'_>>
    ensures { held.sorts result ≡ spec.sort_of_own (held.own own.entry) }
{
    match own {
        Own::Of(kind) => Some(kind),
        _ => None,
    }
}

pub(crate) fn kind_of_content(content: Content<'_>) -> Option<Kind<'_>>
    ensures { held.sorts result ≡ spec.sort_of_content (held.content content.entry) }
{
    match content {
        Content::Of(kind) => Some(kind),
        _ => None,
    }
}

/// A pointer to a cell that holds it.
pub(crate) fn pointer_to(own: Own<'_>) -> Option<Kind<'static>>
    ensures { held.sorts result ≡ spec.pointer_to (held.own own.entry) }
{
    match own {
        Own::Of(Kind::Int) => Some(Kind::RefI64),
        Own::Of(Kind::Bool) => Some(Kind::RefBool),
        _ => None,
    }
}

/// A condition is ghost in ghost functions, and where both arms have ghost statements alone.
pub(crate) fn condition(spot: Spot, arms: bool) -> Mode
    ensures { result ≡ spec.condition spot arms }
{
    if spot.is_ghost || arms {
        Mode::Ghost
    } else {
        Mode::Real
    }
}
