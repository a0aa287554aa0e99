//! Atomic actions in blocks that open an invariant.

ghost use Rattle.std.specs.Prelude.{◌≡◌, ◌||◌, false};
ghost use Rattle.std.specs.Option.{is_some};
ghost use Rattle.pl_syntax.specs.Plain.{plain_block, plain_stmt, plain_stmts};
ghost use Rattle.pl_syntax.specs.Breaches.{least};
ghost use Rattle.pl_syntax.specs.StmtRules as spec;

use crate::breach::{earlier, unless};
use pl_base::Pos;
use pl_syntax::{Breach, Rule, Stmt, Stmts};

/// The place of an atomic action.
fn action_place(s: &Stmt) -> Option<Pos>
    ensures { result ≡ spec.action_place (plain_stmt s.now) }
{
    match s {
        Stmt::AtomicRead(pos, ..) => Some(*pos),
        Stmt::AtomicWrite(pos, ..) => Some(*pos),
        Stmt::Cas(pos, ..) => Some(*pos),
        _ => None,
    }
}

/// Whether there is an atomic action in a statement: itself, in an arm or in a block.
#[cycle(actions)]
fn has_action(s: &Stmt) -> bool
    ensures { result ≡ spec.has_action (plain_stmt s.now) }
{
    match s {
        Stmt::AtomicRead(..) | Stmt::AtomicWrite(..) | Stmt::Cas(..) => true,
        Stmt::If(_, _, first, second, _) => {
            let one = block_has_action(first);
            let two = match second {
                None => false,
                Some(block) => block_has_action(block),
            };
            one || two
        }
        Stmt::With(_, _, body, _) => block_has_action(body),
        _ => false,
    }
}

/// Whether there is an atomic action in a block.
#[cycle(actions)]
pub(crate) fn block_has_action(block: &Stmts) -> bool
    ensures { result ≡ spec.has_action_block (plain_block block.now) }
{
    have_action(block.list.as_slice())
}

#[cycle(actions)]
fn have_action(list: &[Stmt]) -> bool
    ensures { result ≡ spec.have_action (plain_stmts list.now) }
{
    for s in list {
        if has_action(s) {
            return true;
        }
    }
    false
}

/// An action behind another one.
fn second_action(before: bool, place: Option<Pos>) -> Option<Breach>
    ensures { result ≡ least (spec.second_action before place) }
{
    match place {
        None => None,
        Some(pos) => unless(!before, Rule::Opening, pos),
    }
}

/// Whether there was an action, this statement included.
fn acted(before: bool, place: Option<Pos>) -> bool
    ensures { result ≡ (before || is_some place) }
{
    before || place.is_some()
}

/// The first of the atomic actions in a list behind its first one.
fn second_actions(list: &[Stmt]) -> Option<Breach>
    ensures { result ≡ least (spec.second_actions false (plain_stmts list.now)) }
{
    let mut found = None;
    let mut before = false;
    for s in list {
        let place = action_place(s);
        found = earlier(found, second_action(before, place));
        before = acted(before, place);
    }
    found
}

/// The same of a block.
pub(crate) fn second_actions_in(block: &Stmts) -> Option<Breach>
    ensures { result ≡ least (spec.second_actions_in (plain_block block.now)) }
{
    second_actions(block.list.as_slice())
}
