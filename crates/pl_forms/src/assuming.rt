ghost use Rattle.std.specs.Prelude.{◌≡◌, ℕ, ℤ, negsuc, ◌≤◌, length, Some, None, true, IfOk, OnOk, not, if◌then◌else◌};
ghost use Rattle.std.specs.Option.{option_copied};
ghost use Rattle.std.specs.List.{All};
ghost use Rattle.pl_forms.specs.Forms.{IsForm, Answers};
ghost use Rattle.pl_forms.specs.Facts.{IsFact, IsGuard, MeetsAll};
ghost use Rattle.pl_forms.specs.Goals.{goal_of, IsGoal, Says, Plain};
ghost use Rattle.pl_forms.specs.Assuming.{less_one, one_less, turned, with_fact, with_form, with_truth, with_opposite, assumed, Assumes, KeepsMet, KeepsWithin};

use crate::fact::{Fact, Facts, Shape, copy_guard, copy_label};
use crate::form::{Form, TermError};
use crate::goal::Goal;
use pl_base::{Items, Memory, Name};
use std::alloc::Global;
use std::mem;

// A list of facts gets no more than these.
const MOST_FACTS: usize = 1024;

/// The facts that a duty, or its negation, adds to those that are known; none is added to 1,024 facts.
///
/// Of a comparison it is that comparison or its opposite; of both of two, the facts of both; of the negation of one of two,
/// those of both negations; under a guard, the facts with that guard. Nothing is added for one of two, for the negation of
/// both or of a guarded duty, or for a guarded duty under a guard.
pub fn assume(
    alloc: Global,
    goal: &Goal,
    holds: bool,
    label: Option<&Name>,
    facts: &mut Facts,
) -> Result<(), TermError>
    requires goal { IsGoal (goal_of goal.now) }
    requires facts { All IsFact facts.old.list }
    requires few { length facts.old.list ≤ 1024 }
    ensures exact { Assumes result facts.new.list (assumed facts.old.list (option_copied label.entry) None (goal_of goal.now) holds) }
    // What is assumed follows.
    ensures law { OnOk result (KeepsMet facts.old.list facts.new.list (goal_of goal.now) holds) }
    ensures forms { OnOk result (All IsFact facts.new.list) }
    ensures few { OnOk result (length facts.new.list ≤ 1024) }
    ensures atoms { OnOk result (KeepsWithin facts.old.list facts.new.list (goal_of goal.now)) }
{
    let mark = Mark {
        label: own_label(alloc, label)?,
        guard: None,
    };
    let list = mem::replace(&mut facts.list, Items::of(Vec::new(alloc)));
    let mut list = list.into_vec();
    let outcome = add_assumed(alloc, &mut list, &mark, goal, holds);
    facts.list = Items::of(list);
    outcome
}

/// .. each with a guard and without a label.
pub fn assume_under(
    alloc: Global,
    guard: &Form,
    goal: &Goal,
    holds: bool,
    facts: &mut Facts,
) -> Result<(), TermError>
    requires guard { IsForm guard.now }
    requires goal { IsGoal (goal_of goal.now) }
    requires facts { All IsFact facts.old.list }
    requires few { length facts.old.list ≤ 1024 }
    ensures exact { Assumes result facts.new.list (assumed facts.old.list None (Some guard.now) (goal_of goal.now) holds) }
    ensures forms { OnOk result (All IsFact facts.new.list) }
    ensures few { OnOk result (length facts.new.list ≤ 1024) }
{
    let mark = Mark {
        label: None,
        guard: Some(guard.copy(alloc)?),
    };
    let list = mem::replace(&mut facts.list, Items::of(Vec::new(alloc)));
    let mut list = list.into_vec();
    let outcome = add_assumed(alloc, &mut list, &mark, goal, holds);
    facts.list = Items::of(list);
    outcome
}

// What each fact gets that is added.
#[derive(Debug, Drop)]
struct Mark {
    label: Option<Name>,
    guard: Option<Form>,
}

// The label of new facts.
fn own_label(alloc: Global, label: Option<&Name>) -> Result<Option<Name>, Memory>
    ensures { IfOk result (λ l. l ≡ option_copied label.entry) }
{
    match label {
        None => Ok(None),
        Some(name) => Ok(Some(Name::of(alloc, name.text())?)),
    }
}

fn add_assumed(
    alloc: Global,
    facts: &mut Vec<Fact>,
    mark: &Mark,
    goal: &Goal,
    holds: bool,
) -> Result<(), TermError>
    requires { IsGoal (goal_of goal.now) }
    ensures { Assumes result facts.new.items (assumed facts.old.items mark.now.label mark.now.guard (goal_of goal.now) holds) }
{
    match goal {
        Goal::Truth(form, truth) => add_truth(alloc, facts, mark, form, turned(holds, *truth)),
        Goal::Plain(shape, form) => add_compared(alloc, facts, mark, *shape, form, holds),
        Goal::Both(first, second) => {
            if !holds {
                return Ok(());
            }
            add_assumed(alloc, facts, mark, first, true)?;
            add_assumed(alloc, facts, mark, second, true)
        }
        Goal::Either(first, second) => {
            if holds {
                return Ok(());
            }
            add_assumed(alloc, facts, mark, first, false)?;
            add_assumed(alloc, facts, mark, second, false)
        }
        Goal::When(condition, inner) => {
            if !holds || mark.guard.is_some() {
                return Ok(());
            }
            let under = guarded(alloc, mark, condition)?;
            add_assumed(alloc, facts, &under, inner, true)
        }
    }
}

fn guarded(alloc: Global, mark: &Mark, guard: &Form) -> Result<Mark, Memory>
    ensures label { IfOk result (λ m. m.label ≡ mark.now.label) }
    ensures guard { IfOk result (λ m. m.guard ≡ Some guard.now) }
{
    Ok(Mark {
        label: copy_label(alloc, &mark.label)?,
        guard: Some(guard.copy(alloc)?),
    })
}

fn turned(holds: bool, truth: bool) -> bool
    ensures { result ≡ turned holds truth }
{
    if holds { truth } else { !truth }
}

// A boolean is 1, or 0.
fn add_truth(
    alloc: Global,
    facts: &mut Vec<Fact>,
    mark: &Mark,
    form: &Form,
    truth: bool,
) -> Result<(), TermError>
    requires { IsForm form.now }
    ensures { Assumes result facts.new.items (with_truth facts.old.items mark.now.label mark.now.guard form.now truth) }
{
    if truth {
        let one = Form::of_constant(alloc, 1);
        let less = Form::add_multiple(alloc, form, -1, &one)?;
        Ok(add_fact(alloc, facts, mark, Shape::Zero, less)?)
    } else {
        Ok(add_fact(alloc, facts, mark, Shape::Zero, form.copy(alloc)?)?)
    }
}

// A comparison, or its opposite.
fn add_compared(
    alloc: Global,
    facts: &mut Vec<Fact>,
    mark: &Mark,
    shape: Shape,
    form: &Form,
    holds: bool,
) -> Result<(), TermError>
    requires { IsForm form.now }
    ensures { Assumes result facts.new.items (assumed facts.old.items mark.now.label mark.now.guard (Plain shape form.now) holds) }
{
    if holds {
        return Ok(add_fact(alloc, facts, mark, shape, form.copy(alloc)?)?);
    }
    add_opposite(alloc, facts, mark, shape, form)
}

fn add_opposite(
    alloc: Global,
    facts: &mut Vec<Fact>,
    mark: &Mark,
    shape: Shape,
    form: &Form,
) -> Result<(), TermError>
    requires { IsForm form.now }
    ensures { Assumes result facts.new.items (with_opposite facts.old.items mark.now.label mark.now.guard shape form.now) }
{
    match shape {
        Shape::Zero => Ok(add_fact(alloc, facts, mark, Shape::Differs, form.copy(alloc)?)?),
        Shape::Differs => Ok(add_fact(alloc, facts, mark, Shape::Zero, form.copy(alloc)?)?),
        Shape::Below => {
            let one = Form::of_constant(alloc, 1);
            let negated = Form::add_multiple(alloc, &one, -1, form)?;
            Ok(add_fact(alloc, facts, mark, Shape::Below, negated)?)
        }
    }
}

// One more fact, unless there are as many as there may be.
fn add_fact(
    alloc: Global,
    facts: &mut Vec<Fact>,
    mark: &Mark,
    shape: Shape,
    form: Form,
) -> Result<(), Memory>
    ensures { IfOk result (λ _. facts.new.items ≡ with_fact facts.old.items (record { label = mark.now.label; guard = mark.now.guard; shape = shape; form = form })) }
{
    if facts.len() >= MOST_FACTS {
        return Ok(());
    }
    facts.push(Fact {
        label: copy_label(alloc, &mark.label)?,
        guard: copy_guard(alloc, &mark.guard)?,
        shape,
        form,
    })?;
    Ok(())
}
