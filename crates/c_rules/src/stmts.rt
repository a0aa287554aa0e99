//! Statements.

ghost use Rattle.std.specs.Prelude.{◌≡◌, ◌≢◌, ◌+◌, ◌<◌, ◌^◌, ◌∷◌, [], length, map, codes, IfOk, None};
ghost use Rattle.c_syntax.specs.Text.{indent, line};
ghost use Rattle.c_syntax.specs.declared.kind.CType.TheVariants as kind;
ghost use Rattle.c_forms.specs.Plain.{plain_expr, plain_load, plain_stmt, plain_stmts};
ghost use Rattle.c_forms.specs.Text.{expr_text, stmt_text, stmts_text};
ghost use Rattle.c_forms.specs.Tree as t;
ghost use Rattle.c_rules.specs.Kinds.{type, types};
ghost use Rattle.c_rules.specs.Least.{least};
ghost use Rattle.c_rules.specs.Lines as spec;
ghost use Rattle.c_rules.specs.Locals.{scope_of, Grows};
ghost use Rattle.c_rules.specs.Sorts.{wanted};
ghost use Rattle.c_rules.specs.States.{state_of, waits};
ghost use Rattle.c_rules.specs.Tables.{known_of};

use crate::exprs::{Part, wanted};
use crate::kinds::Kind;
use crate::lengths::{brace_end, else_begin, indented, while_begin};
use crate::locals::Locals;
use crate::one_line::{
    Line, Waiting, acquire_line, atomic_store_line, bind_line, bind_local, call_line, first_value,
    free_line, look_loads, next_member, par_line, plain_line, print_line, release_line,
    return_line, store_line, value_line,
};
use crate::places::earlier;
use crate::tables::Tables;
use c_forms::{Expr, Stmt};
use pl_base::Memory;

/// The first line of an `if`.
fn look_test(locals: &Locals<'_>, level: u32, at: u32, e: &Expr) -> Part
    requires { at + length (line level (codes "if (" ∷ expr_text (plain_expr e.now) ∷ codes ") {" ∷ [])) < 2 ^ 32 }
    ensures end { result.end ≡ at + length (line level (codes "if (" ∷ expr_text (plain_expr e.now) ∷ codes ") {" ∷ [])) }
    ensures least { result.least ≡ least (wanted (scope_of locals.now.slots.items).bound kind.Bool (at + length (indent level) + 4) (plain_expr e.now)) }
{
    let part = wanted(locals, indented(at, level) + 4, e, Kind::Bool);
    Part {
        end: part.end + 4,
        least: part.least,
    }
}

/// The lines that end a loop where its test fails.
#[tactic(auto, using(crate::proofs::Drops::indent_length))]
fn look_loop_test(locals: &Locals<'_>, level: u32, at: u32, e: &Expr) -> Part
    requires { at + length (spec.test_text level (plain_expr e.now)) < 2 ^ 32 }
    ensures end { result.end ≡ at + length (spec.test_text level (plain_expr e.now)) }
    ensures least { result.least ≡ least (wanted (scope_of locals.now.slots.items).bound kind.Bool (at + length (indent level) + 5) (plain_expr e.now)) }
{
    let part = wanted(locals, indented(at, level) + 5, e, Kind::Bool);
    Part {
        end: brace_end(indented(part.end + 4, level + 1) + 7, level),
        least: part.least,
    }
}

/// A line where something waits that isn't its first value: what waits is bound.
#[cycle(stmts)]
#[tactic(auto, using(crate::proofs::Scopes::grows_on))]
fn broken_line<'a>(
    tables: &Tables<'a>,
    locals: &mut Locals<'a>,
    wait: Waiting<'a>,
    last: Option<Kind<'a>>,
    level: u32,
    at: u32,
    s: &'a Stmt,
) -> Result<Line<'a>, Memory>
    requires { at + length (stmt_text level (plain_stmt s.now)) < 2 ^ 32 }
    ensures end { IfOk result (λ line. line.end ≡ at + length (stmt_text level (plain_stmt s.now))) }
    ensures least { IfOk result (λ line. line.least ≡ least (spec.broken wait.entry.name (spec.stmt_found (known_of tables.now) (types last.entry) level at (plain_stmt s.now) (spec.bind (scope_of locals.old.slots.items) wait.entry.local.now.name (type wait.entry.kind)))).places) }
    ensures state { IfOk result (λ line. state_of locals.new.slots.items line.waiting ≡ (spec.broken wait.entry.name (spec.stmt_found (known_of tables.now) (types last.entry) level at (plain_stmt s.now) (spec.bind (scope_of locals.old.slots.items) wait.entry.local.now.name (type wait.entry.kind)))).state) }
    ensures grows { IfOk result (λ line. Grows locals.old.slots.items locals.new.slots.items) }
{
    bind_local(locals, &wait.local.name, wait.kind)?;
    let line = look_stmt(tables, locals, last, level, at, s)?;
    Ok(Line {
        end: line.end,
        least: earlier(Some(wait.name), line.least),
        waiting: line.waiting,
    })
}

/// A line.
#[cycle(stmts)]
fn look_line<'a>(
    tables: &Tables<'a>,
    locals: &mut Locals<'a>,
    waiting: Option<Waiting<'a>>,
    last: Option<Kind<'a>>,
    level: u32,
    at: u32,
    s: &'a Stmt,
) -> Result<Line<'a>, Memory>
    requires { at + length (stmt_text level (plain_stmt s.now)) < 2 ^ 32 }
    ensures end { IfOk result (λ line. line.end ≡ at + length (stmt_text level (plain_stmt s.now))) }
    ensures least { IfOk result (λ line. line.least ≡ least (spec.line_found (spec.stmt_found (known_of tables.now) (types last.entry) level at (plain_stmt s.now)) (scope_of locals.old.slots.items) (waits waiting.entry) (at + length (indent level)) (plain_stmt s.now)).places) }
    ensures state { IfOk result (λ line. state_of locals.new.slots.items line.waiting ≡ (spec.line_found (spec.stmt_found (known_of tables.now) (types last.entry) level at (plain_stmt s.now)) (scope_of locals.old.slots.items) (waits waiting.entry) (at + length (indent level)) (plain_stmt s.now)).state) }
    ensures grows { IfOk result (λ line. Grows locals.old.slots.items locals.new.slots.items) }
{
    let Some(wait) = waiting else {
        return look_stmt(tables, locals, last, level, at, s);
    };
    match next_member(wait.members) {
        None => broken_line(tables, locals, wait, last, level, at, s),
        Some((member, rest)) => match value_line(wait.local, s) {
            None => broken_line(tables, locals, wait, last, level, at, s),
            Some(value) => {
                let left = Waiting {
                    members: rest,
                    ..wait
                };
                first_value(locals, left, member, level, at, value)
            }
        },
    }
}

/// A block: what it binds ends with it.
#[cycle(stmts)]
#[tactic(auto, using(crate::proofs::Scopes::close_is, crate::proofs::Scopes::grows_close, crate::proofs::Scopes::grows_length))]
fn look_block<'a>(
    tables: &Tables<'a>,
    locals: &mut Locals<'a>,
    level: u32,
    at: u32,
    list: &'a [Stmt],
) -> Result<Part, Memory>
    requires { at + length (stmts_text level (plain_stmts list.now)) < 2 ^ 32 }
    ensures end { IfOk result (λ part. part.end ≡ at + length (stmts_text level (plain_stmts list.now))) }
    ensures least { IfOk result (λ part. part.least ≡ least (spec.stmts_found (known_of tables.now) None level at (plain_stmts list.now) (spec.settled (scope_of locals.old.slots.items))).places) }
    ensures scope { IfOk result (λ part. scope_of locals.new.slots.items ≡ spec.ended (scope_of locals.old.slots.items) (spec.stmts_found (known_of tables.now) None level at (plain_stmts list.now) (spec.settled (scope_of locals.old.slots.items))).state) }
    ensures grows { IfOk result (λ part. Grows locals.old.slots.items locals.new.slots.items) }
{
    let mark = locals.count();
    let part = look_stmts(tables, locals, None, level, at, list)?;
    locals.close(mark);
    Ok(part)
}

/// A breach at the name of what waits.
fn left_waiting(waiting: Option<Waiting<'_>>) -> Option<u32>
    ensures { result ≡ least (spec.left_waiting (waits waiting.entry)) }
{
    match waiting {
        None => None,
        Some(wait) => Some(wait.name),
    }
}

/// What a `return` is wanted to give as the i-th of so many statements.
fn wanted_at<'a>(i: usize, count: usize, last: Option<Kind<'a>>) -> Option<Kind<'a>>
    ensures last { i + 1 ≡ count → types result ≡ types last.entry }
    ensures before { i + 1 ≢ count → types result ≡ None }
{
    if count > i && count - i == 1 {
        last
    } else {
        None
    }
}

/// Statements in a row, where nothing waits at first.
#[cycle(stmts)]
#[tactic(auto, using(crate::proofs::Leasts::least_append))]
pub(crate) fn look_stmts<'a>(
    tables: &Tables<'a>,
    locals: &mut Locals<'a>,
    last: Option<Kind<'a>>,
    level: u32,
    at: u32,
    list: &'a [Stmt],
) -> Result<Part, Memory>
    requires { at + length (stmts_text level (plain_stmts list.now)) < 2 ^ 32 }
    ensures end { IfOk result (λ part. part.end ≡ at + length (stmts_text level (plain_stmts list.now))) }
    ensures least { IfOk result (λ part. part.least ≡ least (spec.stmts_found (known_of tables.now) (types last.entry) level at (plain_stmts list.now) (spec.settled (scope_of locals.old.slots.items))).places) }
    ensures scope { IfOk result (λ part. scope_of locals.new.slots.items ≡ (spec.stmts_found (known_of tables.now) (types last.entry) level at (plain_stmts list.now) (spec.settled (scope_of locals.old.slots.items))).state.scope) }
    ensures grows { IfOk result (λ part. Grows locals.old.slots.items locals.new.slots.items) }
{
    let mut line = Line {
        end: at,
        least: None,
        waiting: None,
    };
    for (i, s) in list.iter().enumerate() {
        let wants = wanted_at(i, list.len(), last);
        let next = look_line(tables, locals, line.waiting, wants, level, line.end, s)?;
        line = Line {
            end: next.end,
            least: earlier(line.least, next.least),
            waiting: next.waiting,
        };
    }
    Ok(Part {
        end: line.end,
        least: earlier(line.least, left_waiting(line.waiting)),
    })
}

/// A statement, where nothing waits.
#[cycle(stmts)]
#[tactic(auto, using(crate::proofs::Leasts::least_append, crate::proofs::Scopes::grows_same, crate::proofs::Scopes::close_is, crate::proofs::Scopes::grows_on, crate::proofs::Scopes::grows_close, crate::proofs::Scopes::grows_length))]
fn look_stmt<'a>(
    tables: &Tables<'a>,
    locals: &mut Locals<'a>,
    last: Option<Kind<'a>>,
    level: u32,
    at: u32,
    s: &'a Stmt,
) -> Result<Line<'a>, Memory>
    requires { at + length (stmt_text level (plain_stmt s.now)) < 2 ^ 32 }
    ensures end { IfOk result (λ line. line.end ≡ at + length (stmt_text level (plain_stmt s.now))) }
    ensures least { IfOk result (λ line. line.least ≡ least (spec.stmt_found (known_of tables.now) (types last.entry) level at (plain_stmt s.now) (scope_of locals.old.slots.items)).places) }
    ensures state { IfOk result (λ line. state_of locals.new.slots.items line.waiting ≡ (spec.stmt_found (known_of tables.now) (types last.entry) level at (plain_stmt s.now) (scope_of locals.old.slots.items)).state) }
    ensures grows { IfOk result (λ line. Grows locals.old.slots.items locals.new.slots.items) }
{
    match s {
        Stmt::Bind(kind, x, right) => bind_line(tables, locals, level, at, kind, x, right),
        Stmt::Store(c, e) => Ok(store_line(tables, locals, level, at, c, e)),
        Stmt::Free(base) => Ok(free_line(locals, level, at, base)),
        Stmt::AtomicStore(base, e) => Ok(atomic_store_line(locals, level, at, base, e)),
        Stmt::Acquire(lock) => Ok(acquire_line(locals, level, at, lock)),
        Stmt::Release(lock) => Ok(release_line(locals, level, at, lock)),
        Stmt::Print(e) => Ok(print_line(locals, level, at, e)),
        Stmt::Call(f, args) => Ok(call_line(tables, locals, level, at, f, args.as_slice())),
        Stmt::Par(p) => Ok(par_line(tables, locals, level, at, p)),
        Stmt::If(e, first, second) => {
            let test = look_test(locals, level, at, e);
            let one = look_block(tables, locals, level + 1, test.end, first.as_slice())?;
            let begin = else_begin(one.end, level);
            let two = look_block(tables, locals, level + 1, begin, second.as_slice())?;
            let least = earlier(earlier(test.least, one.least), two.least);
            Ok(plain_line(brace_end(two.end, level), least))
        }
        Stmt::While(loads, e, body) => {
            let mark = locals.count();
            let begin = while_begin(at, level);
            let heads = look_loads(tables, locals, level + 1, begin, loads.as_slice())?;
            let test = look_loop_test(locals, level + 1, heads.end, e);
            let rest = look_stmts(tables, locals, None, level + 1, test.end, body.as_slice())?;
            locals.close(mark);
            let least = earlier(earlier(heads.least, test.least), rest.least);
            Ok(plain_line(brace_end(rest.end, level), least))
        }
        Stmt::Return(e) => Ok(return_line(locals, level, at, last, e)),
    }
}
