//! Lines that are one statement.

ghost use Rattle.std.specs.Prelude.{◌≡◌, ◌+◌, ◌<◌, ◌^◌, ◌∷◌, [], length, map, flat_map, codes, IfOk, OnOk, MatchOption, None};
ghost use Rattle.c_syntax.specs.Text.{indent, line, type_text};
ghost use Rattle.c_forms.specs.Plain.{plain_cell, plain_expr, plain_load, plain_right, plain_par, plain_stmt, plain_stmts};
ghost use Rattle.c_forms.specs.Text.{cell_text, expr_text, load_text, local_text, stmt_text, stmts_text};
ghost use Rattle.c_forms.specs.Tree as t;
ghost use Rattle.c_rules.specs.Kinds.{type, types};
ghost use Rattle.c_rules.specs.Least.{least, earlier};
ghost use Rattle.c_rules.specs.Lines as spec;
ghost use Rattle.c_rules.specs.Locals.{scope_of, Grows};
ghost use Rattle.c_syntax.specs.Rules.{is_same};
ghost use Rattle.c_rules.specs.Sorts.{local_of, local_wanted, unless, wanted};
ghost use Rattle.c_rules.specs.Sorts.{kind_at as spec_kind_at};
ghost use Rattle.c_syntax.specs.declared.kind.CType.TheVariants as kind;
ghost use Rattle.c_rules.specs.States.{state_of, value_of, waiting_of, waits};
ghost use Rattle.c_rules.specs.Tables.{known_of, members_lent};
ghost use Rattle.c_rules.specs.Lines.{member_of};

use crate::binds::{look_bind, look_load};
use crate::calls::{argument, call};
use crate::cells::{local_wanted, look_cell};
use crate::exprs::{Part, fitting, kind_at, look, number_of, wanted};
use crate::kinds::{Kind, is_pointer, kind_of};
use crate::lengths::{brace_begin, brace_end, indented, local_end, name_end, type_end};
use crate::locals::{Binder, Locals};
use crate::places::{earlier, unless};
use crate::tables::Tables;
use crate::threads::thread_lines;
use c_forms::{Cell, Expr, Load, Local, Member, Par, Right, Stmt};
use c_syntax::CType;
use pl_base::{Memory, Name};

/// A local whose structure's first values are still to come.
#[derive(Clone, Copy)]
pub(crate) struct Waiting<'a> {
    /// Where its name stands.
    pub name: u32,
    pub local: &'a Local,
    pub kind: Kind<'a>,
    /// The members that are left.
    pub members: &'a [Member],
}

/// A line: where it ends, the first breach in it, and what waits behind it.
#[derive(Clone, Copy)]
pub(crate) struct Line<'a> {
    pub end: u32,
    pub least: Option<u32>,
    pub waiting: Option<Waiting<'a>>,
}

/// The first value of a member, as a line gives it.
#[derive(Clone, Copy)]
pub struct FirstValue<'a> {
    pub base: &'a Local,
    pub member: &'a Name,
    pub value: &'a Expr,
}

/// Whether two locals have one name and one number.
fn same_local(x: &Local, y: &Local) -> bool
    ensures { result ≡ is_same (local_of x.now) (local_of y.now) }
{
    x.name.same(&y.name) && number_of(&x.number) == number_of(&y.number)
}

/// The first value of a member of that local, if the line is one.
pub fn value_line<'a>(x: &Local, s: &'a Stmt) -> Option<FirstValue<'a>>
    ensures { value_of result ≡ spec.value_line x.now (plain_stmt s.now) }
{
    match s {
        Stmt::Store(Cell::Field(base, member), value) => {
            if same_local(base, x) {
                Some(FirstValue {
                    base,
                    member,
                    value,
                })
            } else {
                None
            }
        }
        _ => None,
    }
}

/// The first of the members that are left, and the others.
pub fn next_member<'a>(members: &'a [Member]) -> Option<(&'a Member, &'a [Member])>
    ensures { MatchOption result (members.now ≡ []) (λ p. members.now ≡ p.0.now ∷ p.1.now) }
{
    match members {
        [member, rest @ ..] => Some((member, rest)),
        [] => None,
    }
}

/// Binds the next local.
#[tactic(auto, using(crate::proofs::Scopes::push_is, crate::proofs::Scopes::grows_push))]
pub(crate) fn bind_local<'a>(
    locals: &mut Locals<'a>,
    name: &'a Name,
    kind: Kind<'a>,
) -> Result<(), Memory>
    ensures scope { OnOk result (scope_of locals.new.slots.items ≡ spec.bind (scope_of locals.old.slots.items) name.now (type kind.entry)) }
    ensures grows { OnOk result (Grows locals.old.slots.items locals.new.slots.items) }
{
    locals.bind(Binder { name, kind })?;
    Ok(())
}

/// The local is bound at once, unless members are left.
fn awaiting<'a>(locals: &mut Locals<'a>, wait: Waiting<'a>) -> Result<Option<Waiting<'a>>, Memory>
    ensures state { IfOk result (λ w. state_of locals.new.slots.items w ≡ spec.awaiting (scope_of locals.old.slots.items) (waiting_of wait.entry) (map member_of wait.entry.members.now)) }
    ensures grows { IfOk result (λ w. Grows locals.old.slots.items locals.new.slots.items) }
{
    match next_member(wait.members) {
        None => {
            bind_local(locals, &wait.local.name, wait.kind)?;
            Ok(None)
        }
        Some(_) => Ok(Some(wait)),
    }
}

/// A cell gets a value, in text that begins at `at`.
#[tactic(auto, using(crate::proofs::Leasts::least_append))]
fn store<'a>(tables: &Tables<'a>, locals: &Locals<'a>, at: u32, c: &Cell, e: &Expr) -> Part
    requires { at + length (cell_text (plain_cell c.now)) + 3 + length (expr_text (plain_expr e.now)) < 2 ^ 32 }
    ensures end { result.end ≡ at + length (cell_text (plain_cell c.now)) + 3 + length (expr_text (plain_expr e.now)) }
    ensures least { result.least ≡ least (spec.store_breaches (known_of tables.now) (scope_of locals.now.slots.items).bound at (plain_cell c.now) (plain_expr e.now)) }
{
    let cell = look_cell(tables, locals, at, c);
    let value = argument(locals, cell.end + 3, e, cell.held);
    Part {
        end: value.end,
        least: earlier(cell.least, value.least),
    }
}

fn is_freed(kind: Option<Kind<'_>>) -> bool
    ensures { result ≡ spec.is_freed (types kind.entry) }
{
    match kind {
        None => false,
        Some(kind) => is_pointer(kind),
    }
}

/// A line where nothing waits behind it.
pub(crate) fn plain_line<'a>(end: u32, least: Option<u32>) -> Line<'a>
    ensures end { result.end ≡ end }
    ensures least { result.least ≡ least }
    ensures waiting { result.waiting ≡ None }
{
    Line {
        end,
        least,
        waiting: None,
    }
}

/// `c = e;`
pub(crate) fn store_line<'a, 'b>(
    tables: &Tables<'a>,
    locals: &Locals<'a>,
    level: u32,
    at: u32,
    c: &Cell,
    e: &Expr,
) -> Line<'b>
    requires { at + length (stmt_text level (t.Store (plain_cell c.now) (plain_expr e.now))) < 2 ^ 32 }
    ensures end { result.end ≡ at + length (stmt_text level (t.Store (plain_cell c.now) (plain_expr e.now))) }
    ensures least { result.least ≡ least (spec.store_breaches (known_of tables.now) (scope_of locals.now.slots.items).bound (at + length (indent level)) (plain_cell c.now) (plain_expr e.now)) }
    ensures waiting { result.waiting ≡ None }
{
    let part = store(tables, locals, indented(at, level), c, e);
    plain_line(part.end + 2, part.least)
}

/// `free(x);`
pub(crate) fn free_line<'b>(locals: &Locals<'_>, level: u32, at: u32, base: &Local) -> Line<'b>
    requires { at + length (stmt_text level (t.Free base.now)) < 2 ^ 32 }
    ensures end { result.end ≡ at + length (stmt_text level (t.Free base.now)) }
    ensures least { result.least ≡ least (unless (spec.is_freed (spec_kind_at (scope_of locals.now.slots.items).bound base.now)) (at + length (indent level) + 5)) }
    ensures waiting { result.waiting ≡ None }
{
    let place = indented(at, level) + 5;
    plain_line(
        local_end(place, base) + 3,
        unless(is_freed(kind_at(locals, base)), place),
    )
}

/// `atomic_store(a, e);`
#[tactic(auto, using(crate::proofs::Leasts::least_append))]
pub(crate) fn atomic_store_line<'b>(
    locals: &Locals<'_>,
    level: u32,
    at: u32,
    base: &Local,
    e: &Expr,
) -> Line<'b>
    requires { at + length (stmt_text level (t.AtomicStore base.now (plain_expr e.now))) < 2 ^ 32 }
    ensures end { result.end ≡ at + length (stmt_text level (t.AtomicStore base.now (plain_expr e.now))) }
    ensures least { result.least ≡ least (spec.atomic_store_breaches (scope_of locals.now.slots.items).bound (at + length (indent level)) base.now (plain_expr e.now)) }
    ensures waiting { result.waiting ≡ None }
{
    let place = indented(at, level) + 13;
    let pointer = local_wanted(locals, place, base, Kind::PtrAtomic);
    let value = wanted(locals, local_end(place, base) + 2, e, Kind::I64);
    plain_line(value.end + 3, earlier(pointer, value.least))
}

/// `p_acquire(l);`
pub(crate) fn acquire_line<'b>(locals: &Locals<'_>, level: u32, at: u32, lock: &Local) -> Line<'b>
    requires { at + length (stmt_text level (t.Acquire lock.now)) < 2 ^ 32 }
    ensures end { result.end ≡ at + length (stmt_text level (t.Acquire lock.now)) }
    ensures least { result.least ≡ least (local_wanted (scope_of locals.now.slots.items).bound kind.PtrLock (at + length (indent level) + 10) lock.now) }
    ensures waiting { result.waiting ≡ None }
{
    let place = indented(at, level) + 10;
    plain_line(
        local_end(place, lock) + 3,
        local_wanted(locals, place, lock, Kind::PtrLock),
    )
}

/// `p_release(l);`
pub(crate) fn release_line<'b>(locals: &Locals<'_>, level: u32, at: u32, lock: &Local) -> Line<'b>
    requires { at + length (stmt_text level (t.Release lock.now)) < 2 ^ 32 }
    ensures end { result.end ≡ at + length (stmt_text level (t.Release lock.now)) }
    ensures least { result.least ≡ least (local_wanted (scope_of locals.now.slots.items).bound kind.PtrLock (at + length (indent level) + 10) lock.now) }
    ensures waiting { result.waiting ≡ None }
{
    let place = indented(at, level) + 10;
    plain_line(
        local_end(place, lock) + 3,
        local_wanted(locals, place, lock, Kind::PtrLock),
    )
}

/// `p_print(e);`
pub(crate) fn print_line<'b>(locals: &Locals<'_>, level: u32, at: u32, e: &Expr) -> Line<'b>
    requires { at + length (stmt_text level (t.Print (plain_expr e.now))) < 2 ^ 32 }
    ensures end { result.end ≡ at + length (stmt_text level (t.Print (plain_expr e.now))) }
    ensures least { result.least ≡ least (wanted (scope_of locals.now.slots.items).bound kind.I64 (at + length (indent level) + 8) (plain_expr e.now)) }
    ensures waiting { result.waiting ≡ None }
{
    let part = wanted(locals, indented(at, level) + 8, e, Kind::I64);
    plain_line(part.end + 3, part.least)
}

/// `f_f(args);`
pub(crate) fn call_line<'b>(
    tables: &Tables<'_>,
    locals: &Locals<'_>,
    level: u32,
    at: u32,
    f: &Name,
    args: &[Expr],
) -> Line<'b>
    requires { at + length (stmt_text level (t.CallStmt f.now (map plain_expr args.now))) < 2 ^ 32 }
    ensures end { result.end ≡ at + length (stmt_text level (t.CallStmt f.now (map plain_expr args.now))) }
    ensures least { result.least ≡ least (spec.call_breaches (known_of tables.now).heads (scope_of locals.now.slots.items).bound kind.Void (at + length (indent level)) f.now (map plain_expr args.now)) }
    ensures waiting { result.waiting ≡ None }
{
    let part = call(tables, locals, indented(at, level), f, args, Kind::Void);
    plain_line(part.end + 2, part.least)
}

/// `return e;`, of which that type is wanted where it may stand.
pub(crate) fn return_line<'b>(
    locals: &Locals<'_>,
    level: u32,
    at: u32,
    last: Option<Kind<'_>>,
    e: &Expr,
) -> Line<'b>
    requires { at + length (stmt_text level (t.Return (plain_expr e.now))) < 2 ^ 32 }
    ensures end { result.end ≡ at + length (stmt_text level (t.Return (plain_expr e.now))) }
    ensures least { result.least ≡ least (spec.return_breaches (scope_of locals.now.slots.items).bound (types last.entry) (at + length (indent level) + 7) (plain_expr e.now)) }
    ensures waiting { result.waiting ≡ None }
{
    let place = indented(at, level) + 7;
    match last {
        None => plain_line(look(locals, place, e).end + 2, Some(place)),
        Some(want) => {
            let part = fitting(locals, place, e, want);
            plain_line(part.end + 2, part.least)
        }
    }
}

/// The bracketed lines of a `par`.
pub(crate) fn par_line<'b>(
    tables: &Tables<'_>,
    locals: &Locals<'_>,
    level: u32,
    at: u32,
    p: &Par,
) -> Line<'b>
    requires { at + length (stmt_text level (t.Par (plain_par p.now))) < 2 ^ 32 }
    ensures end { result.end ≡ at + length (stmt_text level (t.Par (plain_par p.now))) }
    ensures least { result.least ≡ least (spec.par_breaches (known_of tables.now) (scope_of locals.now.slots.items).bound (level + 1) (at + length (line level (codes "{" ∷ []))) (plain_par p.now)) }
    ensures waiting { result.waiting ≡ None }
{
    let part = thread_lines(tables, locals, level + 1, brace_begin(at, level), p);
    plain_line(brace_end(part.end, level), part.least)
}

/// A first value for the member that waits.
#[tactic(auto, using(crate::proofs::Leasts::least_append))]
pub(crate) fn first_value<'a>(
    locals: &mut Locals<'a>,
    wait: Waiting<'a>,
    member: &Member,
    level: u32,
    at: u32,
    v: FirstValue<'_>,
) -> Result<Line<'a>, Memory>
    requires { at + length (stmt_text level (t.Store (t.Field v.base.now v.member.now) (plain_expr v.value.now))) < 2 ^ 32 }
    ensures end { IfOk result (λ line. line.end ≡ at + length (stmt_text level (t.Store (t.Field v.entry.base.now v.entry.member.now) (plain_expr v.entry.value.now)))) }
    ensures least { IfOk result (λ line. line.least ≡ least (spec.value_places (scope_of locals.old.slots.items).bound (member_of member.now) (at + length (indent level)) (record { base = v.entry.base.now; member = v.entry.member.now; value = plain_expr v.entry.value.now }))) }
    ensures state { IfOk result (λ line. state_of locals.new.slots.items line.waiting ≡ spec.awaiting (scope_of locals.old.slots.items) (waiting_of wait.entry) (map member_of wait.entry.members.now)) }
    ensures grows { IfOk result (λ line. Grows locals.old.slots.items locals.new.slots.items) }
{
    let place = local_end(indented(at, level), v.base) + 2;
    let begin = name_end(place, 2, v.member) + 3;
    let value = fitting(locals, begin, v.value, kind_of(&member.kind));
    let least = earlier(unless(v.member.same(&member.name), place), value.least);
    let waiting = awaiting(locals, wait)?;
    Ok(Line {
        end: value.end + 2,
        least,
        waiting,
    })
}

/// What waits behind a line that binds a local.
fn behind_bind<'a>(
    tables: &Tables<'a>,
    locals: &mut Locals<'a>,
    name: u32,
    kind: Kind<'a>,
    x: &'a Local,
    right: &Right,
) -> Result<Option<Waiting<'a>>, Memory>
    ensures state { IfOk result (λ w. state_of locals.new.slots.items w ≡ spec.behind_bind (known_of tables.now) (scope_of locals.old.slots.items) name (type kind.entry) x.now (plain_right right.now)) }
    ensures grows { IfOk result (λ w. Grows locals.old.slots.items locals.new.slots.items) }
{
    match right {
        Right::Struct(s) => {
            let members = members_or_none(tables.members(s));
            let wait = Waiting {
                name,
                local: x,
                kind,
                members,
            };
            awaiting(locals, wait)
        }
        _ => {
            bind_local(locals, &x.name, kind)?;
            Ok(None)
        }
    }
}

fn members_or_none<'a>(members: Option<&'a [Member]>) -> &'a [Member]
    ensures { map member_of result.now ≡ spec.members_or_none (members_lent members.entry) }
{
    match members {
        None => &[],
        Some(members) => members,
    }
}

/// The line `T x = right;`.
pub(crate) fn bind_line<'a>(
    tables: &Tables<'a>,
    locals: &mut Locals<'a>,
    level: u32,
    at: u32,
    kind: &'a CType,
    x: &'a Local,
    right: &'a Right,
) -> Result<Line<'a>, Memory>
    requires { at + length (stmt_text level (t.Bind kind.now x.now (plain_right right.now))) < 2 ^ 32 }
    ensures end { IfOk result (λ line. line.end ≡ at + length (stmt_text level (t.Bind kind.now x.now (plain_right right.now)))) }
    ensures least { IfOk result (λ line. line.least ≡ least (spec.bind_breaches (known_of tables.now) (scope_of locals.old.slots.items) (at + length (indent level)) kind.now x.now (plain_right right.now))) }
    ensures state { IfOk result (λ line. state_of locals.new.slots.items line.waiting ≡ spec.behind_bind (known_of tables.now) (scope_of locals.old.slots.items) (at + length (indent level) + length (type_text kind.now)) kind.now x.now (plain_right right.now)) }
    ensures grows { IfOk result (λ line. Grows locals.old.slots.items locals.new.slots.items) }
{
    let begin = indented(at, level);
    let part = look_bind(tables, locals, begin, kind, x, right);
    let waiting = behind_bind(
        tables,
        locals,
        type_end(begin, kind),
        kind_of(kind),
        x,
        right,
    )?;
    Ok(Line {
        end: part.end + 2,
        least: part.least,
        waiting,
    })
}

/// The loads in the head of a loop.
#[tactic(auto, using(crate::proofs::Leasts::least_append))]
pub(crate) fn look_loads<'a>(
    tables: &Tables<'a>,
    locals: &mut Locals<'a>,
    level: u32,
    at: u32,
    list: &'a [Load],
) -> Result<Part, Memory>
    requires { at + length (flat_map (load_text level) (map plain_load list.now)) < 2 ^ 32 }
    ensures end { IfOk result (λ part. part.end ≡ at + length (flat_map (load_text level) (map plain_load list.now))) }
    ensures least { IfOk result (λ part. part.least ≡ least (spec.loads_breaches (known_of tables.now) (scope_of locals.old.slots.items) level at (map plain_load list.now))) }
    ensures scope { IfOk result (λ part. scope_of locals.new.slots.items ≡ spec.bind_loads (scope_of locals.old.slots.items) (map plain_load list.now)) }
    ensures grows { IfOk result (λ part. Grows locals.old.slots.items locals.new.slots.items) }
{
    let mut part = Part {
        end: at,
        least: None,
    };
    for l in list {
        let next = look_load(
            tables,
            locals,
            indented(part.end, level),
            &l.kind,
            &l.local,
            &l.cell,
        );
        bind_local(locals, &l.local.name, kind_of(&l.kind))?;
        part = Part {
            end: next.end + 2,
            least: earlier(part.least, next.least),
        };
    }
    Ok(part)
}
