//! Statements with blocks.

ghost use Rattle.std.specs.Prelude.{◌≡◌, ◌==◌, ◌&&◌, ◌||◌, if◌then◌else◌, IfOk, None, true, false};
ghost use Rattle.std.specs.Option.{option_map};
ghost use Rattle.pl_syntax.specs.Plain.{plain_block, plain_expr, plain_prop, plain_stmt, plain_stmts};
ghost use Rattle.pl_syntax.specs.declared.expr.Sort.TheVariants as sort;
ghost use Rattle.pl_syntax.specs.Breaches.{earlier, least};
ghost use Rattle.pl_syntax.specs.ExprRules as x;
ghost use Rattle.pl_types.specs.Held as held;
ghost use Rattle.pl_syntax.specs.PropRules as props;
ghost use Rattle.pl_syntax.specs.declared.rules.Role.TheVariants as role;
ghost use Rattle.pl_syntax.specs.StmtRules as spec;
ghost use Rattle.pl_types.specs.Tables.{known_of};

use crate::actions::{block_has_action, second_actions_in};
use crate::binders::{bind_all, look_binders};
use crate::breach::{earlier, unless};
use crate::exprs::{TRUTH, Want, wanted};
use crate::kinds::Kind;
use crate::permissions::same_atom;
use crate::plains::{bind_plain, is_plain_ghost, look_plain};
use crate::props::{look_after, look_prop};
use crate::scopes::Scope;
use crate::simple::{condition, read_name, real};
use crate::spots;
use crate::tables::Tables;
use pl_base::{Memory, Name, Pos};
use pl_syntax::{Binder, Breach, Expr, Inside, Prop, Role, Rule, Spot, Stmt, Stmts};
use std::alloc::Global;

/// What statements are seen to be: the first breach in them, and whether all of them are ghost.
#[derive(Clone, Copy)]
pub(crate) struct Looked {
    pub found: Option<Breach>,
    pub is_ghost: bool,
}

/// Blocks of real functions have an atomic action.
fn acts(spot: Spot, body: &Stmts) -> bool
    ensures { result ≡ (spot.is_ghost || spec.has_action_block (plain_block body.now)) }
{
    spot.is_ghost || block_has_action(body)
}

/// What a block that opens an invariant must have.
#[tactic(auto, using(crate::proofs::Leasts::least_append))]
fn look_opened(spot: Spot, scope: &Scope<'_>, pos: Pos, name: &Name, body: &Stmts) -> Option<Breach>
    ensures { result ≡ least (spec.block_breaches spot scope.now pos name.now (plain_block body.now)) }
{
    let number = read_name(scope, Want::Sorted(Kind::Iname), pos, name);
    let opening = earlier(number, spots::opening(spot, pos));
    let action = earlier(opening, unless(acts(spot, body), Rule::Opening, pos));
    earlier(action, second_actions_in(body))
}

/// A statement that has no block and no proposition.
fn look_rest<'a>(
    s: &'a Stmt,
    tables: &Tables<'a>,
    spot: Spot,
    last: Option<Kind<'a>>,
    scope: &mut Scope<'a>,
) -> Result<Looked, Memory>
    ensures found { IfOk result (λ r. r.found ≡ least (spec.plain_breaches (known_of tables.now) spot (held.sorts last.entry) scope.old (plain_stmt s.now))) }
    ensures ghosts { IfOk result (λ r. r.is_ghost ≡ spec.is_plain_ghost (known_of tables.now) (plain_stmt s.now) scope.old) }
    ensures scope { IfOk result (λ r. scope.new ≡ spec.bound_by (known_of tables.now) (plain_stmt s.now) scope.old) }
{
    let found = look_plain(s, tables, spot, last, scope);
    let is_ghost = is_plain_ghost(s, tables, scope);
    bind_plain(s, tables, scope)?;
    Ok(Looked { found, is_ghost })
}

/// A statement that isn't ghost.
fn executed(found: Option<Breach>) -> Looked
    ensures found { result.found ≡ found }
    ensures ghosts { result.is_ghost ≡ false }
{
    Looked {
        found,
        is_ghost: false,
    }
}

/// A ghost statement.
fn not_executed(found: Option<Breach>) -> Looked
    ensures found { result.found ≡ found }
    ensures ghosts { result.is_ghost ≡ true }
{
    Looked {
        found,
        is_ghost: true,
    }
}

/// An `if` whose arms were looked at.
fn look_choice<'a>(
    e: &Expr,
    one: Looked,
    two: Looked,
    after: Option<&'a Prop>,
    alloc: Global,
    tables: &Tables<'a>,
    spot: Spot,
    scope: &mut Scope<'a>,
) -> Result<Looked, Memory>
    ensures found { IfOk result (λ r. r.found ≡ earlier (earlier (earlier (least (x.wanted (spec.condition spot (one.is_ghost && two.is_ghost)) scope.old (x.sorted sort.Bool) (plain_expr e.now))) one.found) two.found)
        (least (props.after_breaches (known_of tables.now) scope.old (option_map plain_prop (held.lent after.entry))))) }
    ensures ghosts { IfOk result (λ r. r.is_ghost ≡ (one.is_ghost && two.is_ghost)) }
    ensures scope { IfOk result (λ r. scope.new ≡ scope.old) }
{
    let is_ghost = both(one.is_ghost, two.is_ghost);
    let test = wanted(condition(spot, is_ghost), scope, TRUTH, e);
    let behind = look_after(after, alloc, tables, scope)?;
    let found = earlier(earlier(earlier(test, one.found), two.found), behind);
    Ok(Looked { found, is_ghost })
}

fn both(a: bool, b: bool) -> bool
    ensures { result ≡ (a && b) }
{
    a && b
}

/// An atom that is rewritten as another.
#[tactic(auto, using(crate::proofs::Leasts::least_append))]
fn look_rewrite<'a>(
    pos: Pos,
    a: &'a Prop,
    b: &'a Prop,
    alloc: Global,
    tables: &Tables<'a>,
    scope: &mut Scope<'a>,
) -> Result<Looked, Memory>
    ensures found { IfOk result (λ r. r.found ≡ least (spec.rewrite_breaches (known_of tables.now) scope.old pos (plain_prop a.now) (plain_prop b.now))) }
    ensures ghosts { IfOk result (λ r. r.is_ghost ≡ true) }
    ensures scope { IfOk result (λ r. scope.new ≡ scope.old) }
{
    let same = unless(same_atom(scope, a, b), Rule::IllTyped, pos);
    let one = look_prop(a, alloc, tables, scope)?;
    let two = look_prop(b, alloc, tables, scope)?;
    Ok(not_executed(earlier(earlier(same, one), two)))
}

/// An `assert` that gives names to what it finds.
#[tactic(auto, using(crate::proofs::Leasts::least_append))]
fn look_named<'a>(
    list: &'a [Binder],
    p: &'a Prop,
    alloc: Global,
    tables: &Tables<'a>,
    scope: &mut Scope<'a>,
) -> Result<Looked, Memory>
    ensures found { IfOk result (λ r. r.found ≡ least (props.exists_breaches (known_of tables.now) scope.old list.now (plain_prop p.now))) }
    ensures ghosts { IfOk result (λ r. r.is_ghost ≡ true) }
    ensures scope { IfOk result (λ r. scope.new ≡ props.bind_all role.Bound list.now scope.old) }
{
    let binders = look_binders(alloc, tables, Role::Bound, list)?;
    bind_all(scope, Role::Bound, list)?;
    let found = look_prop(p, alloc, tables, scope)?;
    Ok(not_executed(earlier(binders, found)))
}

/// A statement.
#[cycle(stmts)]
#[tactic(auto, using(crate::proofs::Leasts::least_append, crate::proofs::ScopeLaws::left_loop, crate::proofs::ScopeLaws::marked_loop))]
fn look_stmt<'a>(
    s: &'a Stmt,
    alloc: Global,
    tables: &Tables<'a>,
    spot: Spot,
    last: Option<Kind<'a>>,
    scope: &mut Scope<'a>,
) -> Result<Looked, Memory>
    ensures found { IfOk result (λ r. r.found ≡ least (spec.stmt_breaches (known_of tables.now) spot (held.sorts last.entry) scope.old (plain_stmt s.now))) }
    ensures ghosts { IfOk result (λ r. r.is_ghost ≡ spec.is_ghost (known_of tables.now) (plain_stmt s.now) scope.old) }
    ensures scope { IfOk result (λ r. scope.new ≡ spec.behind (known_of tables.now) (plain_stmt s.now) scope.old) }
{
    match s {
        Stmt::If(_, e, first, second, after) => {
            let one = look_arm(first, alloc, tables, spots::under(spot), scope)?;
            match second {
                None => {
                    let two = not_executed(None);
                    look_choice(e, one, two, after.as_ref(), alloc, tables, spot, scope)
                }
                Some(block) => {
                    let two = look_arm(block, alloc, tables, spots::under(spot), scope)?;
                    look_choice(e, one, two, after.as_ref(), alloc, tables, spot, scope)
                }
            }
        }
        Stmt::While(pos, loads, e, kept, body) => {
            let mark = scope.mark();
            let head = look_stmts(
                loads.as_slice(),
                alloc,
                tables,
                spots::under(spot),
                None,
                scope,
            )?;
            let test = real(scope, TRUTH, e);
            let inner = look_block(body, alloc, tables, spots::under(spot), scope)?;
            scope.leave(mark);
            let again = look_prop(kept, alloc, tables, scope)?;
            let before = earlier(earlier(spots::real(spot, *pos), head.found), test);
            Ok(executed(earlier(earlier(before, again), inner.found)))
        }
        Stmt::With(pos, name, body, after) => {
            let opened = look_opened(spot, scope, *pos, name, body);
            let inner = look_block(
                body,
                alloc,
                tables,
                spots::move_to(spot, Inside::Direct),
                scope,
            )?;
            let behind = look_after(after.as_ref(), alloc, tables, scope)?;
            Ok(executed(earlier(earlier(opened, inner.found), behind)))
        }
        Stmt::Rewrite(pos, a, b) => look_rewrite(*pos, a, b, alloc, tables, scope),
        Stmt::WithAssert(_, list, p) => look_named(list.as_slice(), p, alloc, tables, scope),
        Stmt::Drop(_, p) => Ok(not_executed(look_prop(p, alloc, tables, scope)?)),
        _ => look_rest(s, tables, spot, last, scope),
    }
}

/// A block, whose names stay in scope.
#[cycle(stmts)]
fn look_block<'a>(
    block: &'a Stmts,
    alloc: Global,
    tables: &Tables<'a>,
    spot: Spot,
    scope: &mut Scope<'a>,
) -> Result<Looked, Memory>
    ensures found { IfOk result (λ r. r.found ≡ least (spec.braced_breaches (known_of tables.now) spot scope.old (plain_block block.now))) }
    ensures ghosts { IfOk result (λ r. r.is_ghost ≡ spec.is_ghost_block (known_of tables.now) (plain_block block.now) scope.old) }
    ensures scope { IfOk result (λ r. scope.new ≡ spec.behind_block (known_of tables.now) (plain_block block.now) scope.old) }
{
    look_stmts(block.list.as_slice(), alloc, tables, spot, None, scope)
}

/// An arm, whose names are in scope in it alone.
#[cycle(stmts)]
#[tactic(auto, using(crate::proofs::ScopeLaws::left_all, crate::proofs::ScopeLaws::marked_all))]
fn look_arm<'a>(
    block: &'a Stmts,
    alloc: Global,
    tables: &Tables<'a>,
    spot: Spot,
    scope: &mut Scope<'a>,
) -> Result<Looked, Memory>
    ensures found { IfOk result (λ r. r.found ≡ least (spec.braced_breaches (known_of tables.now) spot scope.old (plain_block block.now))) }
    ensures ghosts { IfOk result (λ r. r.is_ghost ≡ spec.is_ghost_block (known_of tables.now) (plain_block block.now) scope.old) }
    ensures scope { IfOk result (λ r. scope.new ≡ scope.old) }
{
    let mark = scope.mark();
    let looked = look_stmts(block.list.as_slice(), alloc, tables, spot, None, scope)?;
    scope.leave(mark);
    Ok(looked)
}

/// The sort of the result at the last place of a list.
fn at_end(last: Option<Kind<'_>>, left: usize) -> Option<Kind<'_>>
    ensures { held.sorts result ≡ (if left == 1 then held.sorts last.entry else None) }
{
    if left == 1 { last } else { None }
}

/// What is seen of statements, and of those behind them.
fn joined(before: Looked, next: Looked) -> Looked
    ensures found { result.found ≡ earlier before.found next.found }
    ensures ghosts { result.is_ghost ≡ (before.is_ghost && next.is_ghost) }
{
    Looked {
        found: earlier(before.found, next.found),
        is_ghost: both(before.is_ghost, next.is_ghost),
    }
}

/// Statements in a row, with the sort of the result where they are the body of a function that has one.
#[cycle(stmts)]
pub(crate) fn look_stmts<'a>(
    list: &'a [Stmt],
    alloc: Global,
    tables: &Tables<'a>,
    spot: Spot,
    last: Option<Kind<'a>>,
    scope: &mut Scope<'a>,
) -> Result<Looked, Memory>
    ensures found { IfOk result (λ r. r.found ≡ least (spec.stmts_breaches (known_of tables.now) spot (held.sorts last.entry) scope.old (plain_stmts list.now))) }
    ensures ghosts { IfOk result (λ r. r.is_ghost ≡ spec.are_ghost (known_of tables.now) (plain_stmts list.now) scope.old) }
    ensures scope { IfOk result (λ r. scope.new ≡ spec.behind_all (known_of tables.now) (plain_stmts list.now) scope.old) }
{
    let mut looked = Looked {
        found: None,
        is_ghost: true,
    };
    for (i, s) in list.iter().enumerate() {
        let here = at_end(last, list.len() - i);
        let next = look_stmt(s, alloc, tables, spot, here, scope)?;
        looked = joined(looked, next);
    }
    Ok(looked)
}
