//! Sorts and names in cells.

ghost use Rattle.std.specs.Prelude.{◌≡◌, ◌+◌, ◌<◌, ◌^◌, length, map, option_and_then};
ghost use Rattle.c_syntax.specs.declared.kind.CType.TheVariants as kind;
ghost use Rattle.c_syntax.specs.Rules.{element, type_of_member};
ghost use Rattle.c_forms.specs.Plain.{plain_cell};
ghost use Rattle.c_forms.specs.Text.{cell_text, local_text};
ghost use Rattle.c_forms.specs.Tree as t;
ghost use Rattle.c_rules.specs.Kinds.{type, types};
ghost use Rattle.c_rules.specs.Least.{least};
ghost use Rattle.c_rules.specs.Locals.{scope_of};
ghost use Rattle.c_rules.specs.Sorts as spec;
ghost use Rattle.c_rules.specs.Tables.{known_of, members_lent};
ghost use Rattle.c_rules.specs.Lines.{member_of};

use crate::exprs::{is_type, kind_at, unless_some, wanted};
use crate::kinds::{Kind, kind_of};
use crate::lengths::{local_end, name_end};
use crate::locals::Locals;
use crate::places::{earlier, unless};
use crate::tables::Tables;
use c_forms::{Cell, Local, Member};
use pl_base::Name;

/// What a cell is seen to be.
#[derive(Clone, Copy)]
pub(crate) struct CellLooked<'a> {
    /// Where it ends.
    pub end: u32,
    /// The type of what it holds.
    pub held: Option<Kind<'a>>,
    /// Where the name in it begins by which its type is known.
    pub named: u32,
    /// The first breach in it.
    pub least: Option<u32>,
}

/// What is found of a local of which that type is wanted.
pub(crate) fn local_wanted(locals: &Locals<'_>, at: u32, x: &Local, want: Kind<'_>) -> Option<u32>
    ensures { result ≡ least (spec.local_wanted (scope_of locals.now.slots.items).bound (type want.entry) at x.now) }
{
    unless(is_type(want, kind_at(locals, x)), at)
}

/// What a cell holds to which a pointer points.
fn element<'a>(kind: Option<Kind<'_>>) -> Option<Kind<'a>>
    ensures { types result ≡ option_and_then element (types kind.entry) }
{
    match kind {
        Some(Kind::PtrI64) => Some(Kind::I64),
        Some(Kind::PtrBool) => Some(Kind::Bool),
        _ => None,
    }
}

/// The type of the member of that name.
fn type_of_member<'a>(members: &'a [Member], name: &Name) -> Option<Kind<'a>>
    ensures { types result ≡ type_of_member (map member_of members.now) name.now }
{
    for member in members {
        if name.same(&member.name) {
            return Some(kind_of(&member.kind));
        }
    }
    None
}

/// The members of the structure to which a pointer points.
fn members_at<'a>(tables: &Tables<'a>, kind: Option<Kind<'a>>) -> Option<&'a [Member]>
    ensures { members_lent result ≡ option_and_then (known_of tables.now).structs (option_and_then spec.pointed (types kind.entry)) }
{
    match kind {
        Some(Kind::PtrStruct(name)) => tables.members(name),
        _ => None,
    }
}

/// A cell that is a member of a structure.
fn field<'a>(
    tables: &Tables<'a>,
    locals: &Locals<'a>,
    at: u32,
    base: &Local,
    member: &Name,
) -> CellLooked<'a>
    requires { at + length (cell_text (t.Field base.now member.now)) < 2 ^ 32 }
    ensures end { result.end ≡ at + length (cell_text (t.Field base.now member.now)) }
    ensures held { types result.held ≡ spec.held (known_of tables.now).structs (scope_of locals.now.slots.items).bound (t.Field base.now member.now) }
    ensures named { result.named ≡ spec.named_at at (t.Field base.now member.now) }
    ensures least { result.least ≡ least (spec.cell_breaches (known_of tables.now).structs (scope_of locals.now.slots.items).bound at (t.Field base.now member.now)) }
{
    let named = local_end(at, base) + 2;
    let end = name_end(named, 2, member);
    match members_at(tables, kind_at(locals, base)) {
        None => CellLooked {
            end,
            held: None,
            named,
            least: Some(at),
        },
        Some(members) => {
            let held = type_of_member(members, member);
            CellLooked {
                end,
                held,
                named,
                least: unless_some(held, named),
            }
        }
    }
}

/// What a cell is that begins at `at`.
#[tactic(auto, using(crate::proofs::Leasts::least_append))]
pub(crate) fn look_cell<'a>(
    tables: &Tables<'a>,
    locals: &Locals<'a>,
    at: u32,
    c: &Cell,
) -> CellLooked<'a>
    requires { at + length (cell_text (plain_cell c.now)) < 2 ^ 32 }
    ensures end { result.end ≡ at + length (cell_text (plain_cell c.now)) }
    ensures held { types result.held ≡ spec.held (known_of tables.now).structs (scope_of locals.now.slots.items).bound (plain_cell c.now) }
    ensures named { result.named ≡ spec.named_at at (plain_cell c.now) }
    ensures least { result.least ≡ least (spec.cell_breaches (known_of tables.now).structs (scope_of locals.now.slots.items).bound at (plain_cell c.now)) }
{
    match c {
        Cell::Whole(base) => {
            let held = element(kind_at(locals, base));
            CellLooked {
                end: local_end(at + 1, base),
                held,
                named: at + 1,
                least: unless_some(held, at + 1),
            }
        }
        Cell::At(base, index) => {
            let held = element(kind_at(locals, base));
            let inner = wanted(locals, local_end(at, base) + 1, index, Kind::I64);
            CellLooked {
                end: inner.end + 1,
                held,
                named: at,
                least: earlier(unless_some(held, at), inner.least),
            }
        }
        Cell::Field(base, member) => field(tables, locals, at, base, member),
    }
}
