//! Cells.

ghost use Rattle.std.specs.Prelude.{◌≡◌};
ghost use Rattle.pl_syntax.specs.Plain.{plain_cell};
ghost use Rattle.pl_syntax.specs.Breaches.{least};
ghost use Rattle.pl_types.specs.Held as held;
ghost use Rattle.pl_syntax.specs.PropRules as spec;
ghost use Rattle.pl_types.specs.Tables.{known_of};

use crate::breach::{earlier, unless};
use crate::exprs::{INTEGER, Own, Want, own_name, use_found, wanted};
use crate::kinds::Kind;
use crate::scopes::Scope;
use crate::tables::Tables;
use pl_base::{Name, Pos};
use pl_syntax::{Breach, CellExpr, CellUse, Mode, Rule};

/// What a cell holds.
#[derive(Clone, Copy)]
pub(crate) enum Content<'a> {
    /// What isn't known, since its base was refused before.
    Unknown,
    /// Nothing, since its base has no such cell.
    Wrong,
    Of(Kind<'a>),
}

/// The sort of the cells to which a `ref` points.
fn element(kind: Kind<'_>) -> Option<Kind<'static>>
    ensures { held.sorts result ≡ spec.element (held.sort kind.entry) }
{
    match kind {
        Kind::RefI64 => Some(Kind::Int),
        Kind::RefBool => Some(Kind::Bool),
        _ => None,
    }
}

/// In propositions the one cell of a block may be atomic or a ghost cell too.
fn asserted(kind: Kind<'_>) -> Option<Kind<'static>>
    ensures { held.sorts result ≡ spec.asserted (held.sort kind.entry) }
{
    match kind {
        Kind::Atomic | Kind::Gref => Some(Kind::Int),
        _ => element(kind),
    }
}

/// A lock is shared and gathered like a cell.
fn shared(kind: Kind<'_>) -> Option<Kind<'static>>
    ensures { held.sorts result ≡ spec.shared (held.sort kind.entry) }
{
    match kind {
        Kind::Lock => Some(Kind::Int),
        _ => asserted(kind),
    }
}

fn ghost_content(kind: Kind<'_>) -> Option<Kind<'static>>
    ensures { held.sorts result ≡ spec.ghost (held.sort kind.entry) }
{
    match kind {
        Kind::Gref => Some(Kind::Int),
        _ => None,
    }
}

/// The sort of what the one cell of a block holds.
fn whole_content(cell_use: CellUse, kind: Kind<'_>) -> Option<Kind<'static>>
    ensures { held.sorts result ≡ spec.whole_content cell_use (held.sort kind.entry) }
{
    match cell_use {
        CellUse::Plain => element(kind),
        CellUse::Ghost => ghost_content(kind),
        CellUse::Asserted => asserted(kind),
        CellUse::Key => shared(kind),
    }
}

/// The same of an array's element and of a structure's field; a ghost cell is neither.
fn real_content(cell_use: CellUse, kind: Option<Kind<'_>>) -> Option<Kind<'_>>
    ensures { held.sorts result ≡ spec.real_content cell_use (held.sorts kind.entry) }
{
    match cell_use {
        CellUse::Ghost => None,
        _ => kind,
    }
}

/// The sort of a field of the structure to which a pointer points.
fn field_content<'a>(tables: &Tables<'a>, field: &Name, kind: Kind<'_>) -> Option<Kind<'a>>
    ensures { held.sorts result ≡ spec.field_content (known_of tables.now) field.now (held.sort kind.entry) }
{
    match kind {
        Kind::RefStruct(name) => tables.field_sort(name, field),
        _ => None,
    }
}

/// What the cell holds whose base has that sort.
fn content_at<'a>(
    tables: &Tables<'a>,
    cell_use: CellUse,
    cell: &CellExpr,
    kind: Kind<'_>,
) -> Option<Kind<'a>>
    ensures { held.sorts result ≡ spec.content_at (known_of tables.now) cell_use (plain_cell cell.now) (held.sort kind.entry) }
{
    match cell {
        CellExpr::Whole(_) => whole_content(cell_use, kind),
        CellExpr::At(..) => real_content(cell_use, element(kind)),
        CellExpr::Field(_, field) => real_content(cell_use, field_content(tables, field, kind)),
    }
}

fn content_by<'a>(
    tables: &Tables<'a>,
    cell_use: CellUse,
    cell: &CellExpr,
    own: Own<'_>,
) -> Content<'a>
    ensures { held.content result ≡ spec.content_by (known_of tables.now) cell_use (plain_cell cell.now) (held.own own.entry) }
{
    match own {
        Own::Of(kind) => match content_at(tables, cell_use, cell, kind) {
            None => Content::Wrong,
            Some(content) => Content::Of(content),
        },
        _ => Content::Unknown,
    }
}

/// The name of its base.
fn base_of(cell: &CellExpr) -> &Name
    ensures { result.now ≡ spec.base_of (plain_cell cell.now) }
{
    match cell {
        CellExpr::Whole(base) => base,
        CellExpr::At(base, _) => base,
        CellExpr::Field(base, _) => base,
    }
}

/// What a cell holds.
pub(crate) fn content_of<'a>(
    tables: &Tables<'a>,
    cell_use: CellUse,
    scope: &Scope<'a>,
    cell: &CellExpr,
) -> Content<'a>
    ensures { held.content result ≡ spec.content_of (known_of tables.now) cell_use scope.now (plain_cell cell.now) }
{
    content_by(tables, cell_use, cell, own_name(scope.look(base_of(cell))))
}

fn is_right(content: Content<'_>) -> bool
    ensures { result ≡ spec.is_right (held.content content.entry) }
{
    match content {
        Content::Wrong => false,
        _ => true,
    }
}

/// What is wanted of a value for that cell.
pub(crate) fn want_of(content: Content<'_>) -> Want<'_>
    ensures { held.want result ≡ spec.want_of (held.content content.entry) }
{
    match content {
        Content::Of(kind) => Want::Sorted(kind),
        _ => Want::Any,
    }
}

/// What is wrong with an index, and a field that no structure has.
fn inner_found(
    mode: Mode,
    tables: &Tables<'_>,
    scope: &Scope<'_>,
    pos: Pos,
    cell: &CellExpr,
) -> Option<Breach>
    ensures { result ≡ least (spec.inner_breaches mode (known_of tables.now) scope.now pos (plain_cell cell.now)) }
{
    match cell {
        CellExpr::Whole(_) => None,
        CellExpr::At(_, index) => wanted(mode, scope, INTEGER, index),
        CellExpr::Field(_, field) => unless(tables.has_field(field), Rule::Unknown, pos),
    }
}

/// A cell, at the place of the node round it.
#[tactic(auto, using(crate::proofs::Leasts::least_append))]
pub(crate) fn look_cell<'a>(
    mode: Mode,
    cell_use: CellUse,
    tables: &Tables<'a>,
    scope: &Scope<'a>,
    pos: Pos,
    cell: &CellExpr,
) -> Option<Breach>
    ensures { result ≡ least (spec.cell_breaches mode cell_use (known_of tables.now) scope.now pos (plain_cell cell.now)) }
{
    let name = use_found(mode, pos, scope.look(base_of(cell)));
    let right = is_right(content_of(tables, cell_use, scope, cell));
    let base = earlier(name, unless(right, Rule::IllTyped, pos));
    earlier(base, inner_found(mode, tables, scope, pos, cell))
}

/// Whether a name is a ghost reference.
pub(crate) fn is_gref(own: Own<'_>) -> bool
    ensures { result ≡ spec.is_gref (held.own own.entry) }
{
    matches!(own, Own::Of(Kind::Gref))
}

/// Whether a cell is a ghost cell.
pub(crate) fn is_ghost_cell(scope: &Scope<'_>, cell: &CellExpr) -> bool
    ensures { result ≡ spec.is_ghost_cell scope.now (plain_cell cell.now) }
{
    match cell {
        CellExpr::Whole(base) => is_gref(own_name(scope.look(base))),
        _ => false,
    }
}
