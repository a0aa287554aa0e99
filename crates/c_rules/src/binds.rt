//! The lines that bind a local.

ghost use Rattle.std.specs.Prelude.{◌≡◌, ◌+◌, ◌<◌, ◌^◌, ◌++◌, List, length, codes};
ghost use Rattle.c_syntax.specs.Text.{type_text, struct_name};
ghost use Rattle.c_forms.specs.Plain.{plain_expr, plain_cell, plain_right};
ghost use Rattle.c_forms.specs.Text.{cell_text, expr_text, local_text, maker_text, right_text};
ghost use Rattle.c_forms.specs.Tree as t;
ghost use Rattle.c_rules.specs.Kinds.{type, types};
ghost use Rattle.c_rules.specs.Least.{least};
ghost use Rattle.c_rules.specs.Lines as spec;
ghost use Rattle.c_rules.specs.Locals.{scope_of};
ghost use Rattle.c_rules.specs.Sorts.{unless_some};
ghost use Rattle.c_rules.specs.Tables.{known_of, members_lent};

use crate::calls::call;
use crate::cells::{local_wanted, look_cell};
use crate::exprs::{Part, number_of, wanted};
use crate::kinds::{Kind, kind_of, same_type};
use crate::lengths::{local_end, name_end, type_end};
use crate::locals::Locals;
use crate::places::{earlier, unless};
use crate::tables::Tables;
use c_forms::{Cell, Expr, Local, Maker, Member, Right};
use c_syntax::CType;
use pl_base::Name;

/// A breach there, unless the structure is declared.
pub(crate) fn unless_members(members: Option<&[Member]>, at: u32) -> Option<u32>
    ensures { result ≡ least (unless_some (members_lent members.entry) at) }
{
    match members {
        None => Some(at),
        Some(_) => None,
    }
}

/// What is found of a type in front of a name.
pub(crate) fn type_found(tables: &Tables<'_>, at: u32, kind: &CType) -> Option<u32>
    requires { at + length (type_text kind.now) < 2 ^ 32 }
    ensures { result ≡ least (spec.type_breaches (known_of tables.now).structs at kind.now) }
{
    match kind {
        CType::PtrStruct(name) => unless_members(tables.members(name), at + 7),
        _ => None,
    }
}

/// What is found of the type of a name that begins at `at`.
pub(crate) fn value_found(at: u32, kind: Kind<'_>) -> Option<u32>
    ensures { result ≡ least (spec.value_breaches at (type kind.entry)) }
{
    unless(!same_type(kind, Kind::Void), at)
}

/// What is found of a binder whose type begins at `at` and whose name begins at `name`.
#[tactic(auto, using(crate::proofs::Leasts::least_append))]
fn binder_found(
    tables: &Tables<'_>,
    locals: &Locals<'_>,
    at: u32,
    kind: &CType,
    name: u32,
    x: &Local,
) -> Option<u32>
    requires { at + length (type_text kind.now) < 2 ^ 32 }
    ensures { name ≡ at + length (type_text kind.now) → result ≡ least (spec.binder_breaches (known_of tables.now).structs (scope_of locals.now.slots.items).next at kind.now x.now) }
{
    let value = value_found(name, kind_of(kind));
    let number = unless(number_of(&x.number) as usize == locals.count() + 1, name);
    earlier(earlier(type_found(tables, at, kind), value), number)
}

fn maker_len(maker: Maker) -> u32
    ensures { result ≡ length (maker_text maker) }
{
    match maker {
        Maker::I64 => 10,
        Maker::Bool => 11,
        Maker::Atomic => 13,
    }
}

fn made(maker: Maker) -> Kind<'static>
    ensures { type result ≡ spec.made maker }
{
    match maker {
        Maker::I64 => Kind::PtrI64,
        Maker::Bool => Kind::PtrBool,
        Maker::Atomic => Kind::PtrAtomic,
    }
}

fn given(maker: Maker) -> Kind<'static>
    ensures { type result ≡ spec.given maker }
{
    match maker {
        Maker::I64 | Maker::Atomic => Kind::I64,
        Maker::Bool => Kind::Bool,
    }
}

#[tactic(auto, using(crate::proofs::Leasts::least_append))]
fn new_block(
    locals: &Locals<'_>,
    kind: Kind<'_>,
    name: u32,
    at: u32,
    maker: Maker,
    e: &Expr,
) -> Part
    requires { at + length (right_text (t.New maker (plain_expr e.now))) < 2 ^ 32 }
    ensures end { result.end ≡ at + length (right_text (t.New maker (plain_expr e.now))) }
    ensures least { result.least ≡ least (spec.made_breaches (scope_of locals.now.slots.items).bound (type kind.entry) name at maker (plain_expr e.now)) }
{
    let inner = wanted(locals, at + maker_len(maker), e, given(maker));
    Part {
        end: inner.end + 1,
        least: earlier(unless(same_type(kind, made(maker)), name), inner.least),
    }
}

#[tactic(auto, using(crate::proofs::Leasts::least_append))]
fn new_array(
    locals: &Locals<'_>,
    kind: Kind<'_>,
    name: u32,
    at: u32,
    e: &Expr,
    count: &Expr,
) -> Part
    requires { at + length (right_text (t.Array (plain_expr e.now) (plain_expr count.now))) < 2 ^ 32 }
    ensures end { result.end ≡ at + length (right_text (t.Array (plain_expr e.now) (plain_expr count.now))) }
    ensures least { result.least ≡ least (spec.array_breaches (scope_of locals.now.slots.items).bound (type kind.entry) name at (plain_expr e.now) (plain_expr count.now)) }
{
    let first = wanted(locals, at + 8, e, Kind::I64);
    let second = wanted(locals, first.end + 2, count, Kind::I64);
    let bound = unless(same_type(kind, Kind::PtrI64), name);
    Part {
        end: second.end + 1,
        least: earlier(earlier(bound, first.least), second.least),
    }
}

/// What is found of a pointer to a block of that structure.
fn pointer_found(s: &Name, kind: Kind<'_>, name: u32, at: u32) -> Option<u32>
    ensures { result ≡ least (spec.pointer_breaches s.now (type kind.entry) name at) }
{
    match kind {
        Kind::PtrStruct(t) => unless(t.same(s), at),
        _ => Some(name),
    }
}

#[tactic(auto, using(crate::proofs::Leasts::least_append))]
fn new_struct(tables: &Tables<'_>, kind: Kind<'_>, name: u32, at: u32, s: &Name) -> Part
    requires { at + length (right_text (t.Structure s.now)) < 2 ^ 32 }
    ensures end { result.end ≡ at + length (right_text (t.Structure s.now)) }
    ensures least { result.least ≡ least (spec.structure_breaches (known_of tables.now).structs (type kind.entry) name at s.now) }
{
    let place = at + 20;
    Part {
        end: name_end(place, 2, s) + 2,
        least: earlier(
            pointer_found(s, kind, name, place),
            unless_members(tables.members(s), place),
        ),
    }
}

fn agrees(want: Kind<'_>, held: Option<Kind<'_>>) -> bool
    ensures { result ≡ spec.agrees (type want.entry) (types held.entry) }
{
    match held {
        None => true,
        Some(held) => same_type(held, want),
    }
}

/// A load that begins at `at`.
#[tactic(auto, using(crate::proofs::Leasts::least_append))]
fn load<'a>(tables: &Tables<'a>, locals: &Locals<'a>, kind: Kind<'_>, at: u32, c: &Cell) -> Part
    requires { at + length (cell_text (plain_cell c.now)) < 2 ^ 32 }
    ensures end { result.end ≡ at + length (cell_text (plain_cell c.now)) }
    ensures least { result.least ≡ least (spec.load_breaches (known_of tables.now).structs (scope_of locals.now.slots.items).bound (type kind.entry) at (plain_cell c.now)) }
{
    let cell = look_cell(tables, locals, at, c);
    Part {
        end: cell.end,
        least: earlier(cell.least, unless(agrees(kind, cell.held), cell.named)),
    }
}

#[tactic(auto, using(crate::proofs::Leasts::least_append))]
fn atomic_load(locals: &Locals<'_>, kind: Kind<'_>, name: u32, at: u32, base: &Local) -> Part
    requires { at + length (right_text (t.AtomicLoad base.now)) < 2 ^ 32 }
    ensures end { result.end ≡ at + length (right_text (t.AtomicLoad base.now)) }
    ensures least { result.least ≡ least (spec.atomic_breaches (scope_of locals.now.slots.items).bound (type kind.entry) name at base.now) }
{
    let place = at + 12;
    let bound = unless(same_type(kind, Kind::I64), name);
    Part {
        end: local_end(place, base) + 1,
        least: earlier(bound, local_wanted(locals, place, base, Kind::PtrAtomic)),
    }
}

#[tactic(auto, using(crate::proofs::Leasts::least_append))]
fn swap(
    locals: &Locals<'_>,
    kind: Kind<'_>,
    name: u32,
    at: u32,
    base: &Local,
    old: &Expr,
    new: &Expr,
) -> Part
    requires { at + length (right_text (t.Cas base.now (plain_expr old.now) (plain_expr new.now))) < 2 ^ 32 }
    ensures end { result.end ≡ at + length (right_text (t.Cas base.now (plain_expr old.now) (plain_expr new.now))) }
    ensures least { result.least ≡ least (spec.swap_breaches (scope_of locals.now.slots.items).bound (type kind.entry) name at base.now (plain_expr old.now) (plain_expr new.now)) }
{
    let place = at + 6;
    let bound = unless(same_type(kind, Kind::Bool), name);
    let pointer = local_wanted(locals, place, base, Kind::PtrAtomic);
    let first = wanted(locals, local_end(place, base) + 2, old, Kind::I64);
    let second = wanted(locals, first.end + 2, new, Kind::I64);
    Part {
        end: second.end + 1,
        least: earlier(earlier(earlier(bound, pointer), first.least), second.least),
    }
}

/// What stands behind a `=` and begins at `at`, where the name that is bound begins at `name`.
fn look_right<'a>(
    tables: &Tables<'a>,
    locals: &Locals<'a>,
    kind: Kind<'_>,
    name: u32,
    at: u32,
    right: &Right,
) -> Part
    requires { at + length (right_text (plain_right right.now)) < 2 ^ 32 }
    ensures end { result.end ≡ at + length (right_text (plain_right right.now)) }
    ensures least { result.least ≡ least (spec.right_breaches (known_of tables.now) (scope_of locals.now.slots.items).bound (type kind.entry) name at (plain_right right.now)) }
{
    match right {
        Right::Value(e) => wanted(locals, at, e, kind),
        Right::Load(c) => load(tables, locals, kind, at, c),
        Right::New(maker, e) => new_block(locals, kind, name, at, *maker, e),
        Right::Array(e, count) => new_array(locals, kind, name, at, e, count),
        Right::Struct(s) => new_struct(tables, kind, name, at, s),
        Right::Lock => Part {
            end: at + 12,
            least: unless(same_type(kind, Kind::PtrLock), name),
        },
        Right::Call(f, args) => call(tables, locals, at, f, args.as_slice(), kind),
        Right::AtomicLoad(base) => atomic_load(locals, kind, name, at, base),
        Right::Read => Part {
            end: at + 8,
            least: unless(same_type(kind, Kind::I64), name),
        },
        Right::Cas(base, old, new) => swap(locals, kind, name, at, base, old, new),
    }
}

/// A line that binds a local, without its blanks and its end: it begins at `at`.
#[tactic(auto, using(crate::proofs::Leasts::least_append))]
pub(crate) fn look_bind<'a>(
    tables: &Tables<'a>,
    locals: &Locals<'a>,
    at: u32,
    kind: &CType,
    x: &Local,
    right: &Right,
) -> Part
    requires { at + length (type_text kind.now ++ (local_text x.now ++ (codes " = " ++ right_text (plain_right right.now)))) < 2 ^ 32 }
    ensures end { result.end ≡ at + length (type_text kind.now ++ (local_text x.now ++ (codes " = " ++ right_text (plain_right right.now)))) }
    ensures least { result.least ≡ least (spec.bind_breaches (known_of tables.now) (scope_of locals.now.slots.items) at kind.now x.now (plain_right right.now)) }
{
    let name = type_end(at, kind);
    let begin = local_end(name, x) + 3;
    let part = look_right(tables, locals, kind_of(kind), name, begin, right);
    Part {
        end: part.end,
        least: earlier(binder_found(tables, locals, at, kind, name, x), part.least),
    }
}

/// A line of a loop's head, without its blanks and its end: it begins at `at`.
#[tactic(auto, using(crate::proofs::Leasts::least_append))]
pub(crate) fn look_load<'a>(
    tables: &Tables<'a>,
    locals: &Locals<'a>,
    at: u32,
    kind: &CType,
    x: &Local,
    cell: &Cell,
) -> Part
    requires { at + length (type_text kind.now ++ (local_text x.now ++ (codes " = " ++ cell_text (plain_cell cell.now)))) < 2 ^ 32 }
    ensures end { result.end ≡ at + length (type_text kind.now ++ (local_text x.now ++ (codes " = " ++ cell_text (plain_cell cell.now)))) }
    ensures least { result.least ≡ least (spec.bind_breaches (known_of tables.now) (scope_of locals.now.slots.items) at kind.now x.now (t.Load (plain_cell cell.now))) }
{
    let name = type_end(at, kind);
    let begin = local_end(name, x) + 3;
    let part = load(tables, locals, kind_of(kind), begin, cell);
    Part {
        end: part.end,
        least: earlier(binder_found(tables, locals, at, kind, name, x), part.least),
    }
}
