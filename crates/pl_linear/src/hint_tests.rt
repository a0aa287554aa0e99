ghost use Rattle.std.specs.Prelude.{◌≡◌, ◌≤◌, ◌^◌, false, length, unsigned_abs, IfOk};
ghost use Rattle.std.specs.List.{All};
ghost use Rattle.pl_forms.specs.Forms.{IsForm, is_zero};
ghost use Rattle.pl_forms.specs.Facts.{IsFact};
ghost use Rattle.pl_forms.specs.Places.{Within, AllWithin};
ghost use Rattle.pl_forms.specs.Goals.{goal_of, IsGoal, GoalWithin};

use super::*;
use pl_base::{Items, Memory, Name};
use pl_forms::{Fact, Facts, Form, Goal, Part, Shape, TermError};
use std::alloc::Global;
use std::test::*;

// x and y so many times, and a constant.
fn sum(alloc: Global, x: i64, y: i64, constant: i128) -> Result<Form, Memory>
    requires x { (is_zero x ≡ false) × (unsigned_abs x ≤ 2 ^ 40) }
    requires y { (is_zero y ≡ false) × (unsigned_abs y ≤ 2 ^ 40) }
    requires constant { unsigned_abs constant ≤ 2 ^ 80 }
    ensures form { IfOk result (λ f. IsForm f) }
    ensures within { IfOk result (λ f. Within 3 f) }
{
    let first = Part { coeff: x, atom: 0 };
    let second = Part { coeff: y, atom: 1 };
    let parts = vec![in alloc; first, second]?;
    Ok(Form {
        parts: Items::of(parts),
        constant,
    })
}

// What is said of a form, under a label.
fn fact(alloc: Global, label: &str, shape: Shape, form: Form) -> Result<Fact, Memory>
    requires form { IsForm form }
    requires within { Within 3 form }
    ensures fact { IfOk result (λ f. IsFact f) }
    ensures within { IfOk result (λ f. Within 3 f.form) }
{
    Ok(Fact {
        label: Some(Name::of(alloc, label)?),
        guard: None,
        shape,
        form,
    })
}

fn two(alloc: Global, first: Fact, second: Fact) -> Result<Facts, Memory>
    requires first { IsFact first }
    requires second { IsFact second }
    requires first_within { Within 3 first.form }
    requires second_within { Within 3 second.form }
    ensures facts { IfOk result (λ f. All IsFact f.list) }
    ensures few { IfOk result (λ f. length f.list ≤ 1024) }
    ensures within { IfOk result (λ f. AllWithin 3 f.list) }
{
    let list = vec![in alloc; first, second]?;
    Ok(Facts {
        list: Items::of(list),
    })
}

// A term; of the negated goal where the label is empty.
fn term(alloc: Global, times: u128, label: &str) -> Result<HintTerm, Memory> {
    if label.is_empty() {
        return Ok(HintTerm { times, label: None });
    }
    Ok(HintTerm {
        times,
        label: Some(Name::of(alloc, label)?),
    })
}

#[derive(Clone, Copy, Debug, PartialEq, Eq)]
enum Told {
    Done,
    Undone,
    Multiplier(u128),
    Terms(u32),
}

// What becomes of the duty that a form has this shape.
fn answer(
    alloc: Global,
    hint: &[HintTerm],
    facts: &Facts,
    shape: Shape,
    form: Form,
) -> Result<Told, TermError>
    requires facts { All IsFact facts.now.list }
    requires few { length facts.now.list ≤ 1024 }
    requires within { AllWithin 3 facts.now.list }
    requires form { IsForm form }
    requires form_within { Within 3 form }
{
    let goal = Goal::Plain(shape, form);
    match by_hint(alloc, hint, facts, &goal, 2)? {
        Hinted::Done(_) => Ok(Told::Done),
        Hinted::Undone => Ok(Told::Undone),
        Hinted::Multiplier(times) => Ok(Told::Multiplier(times)),
        Hinted::Terms(count) => Ok(Told::Terms(count)),
    }
}

// That a form is at most 0.
fn below(form: Form) -> Goal
    requires form { IsForm form }
    requires within { Within 3 form }
    ensures goal { IsGoal (goal_of result) }
    ensures within { GoalWithin 3 (goal_of result) }
{
    Goal::Plain(Shape::Below, form)
}

// a: x + y <= 4 and b: x - 2 * y <= 1
fn bounds(alloc: Global) -> Result<Facts, Memory>
    ensures facts { IfOk result (λ f. All IsFact f.list) }
    ensures few { IfOk result (λ f. length f.list ≤ 1024) }
    ensures within { IfOk result (λ f. AllWithin 3 f.list) }
{
    let first = fact(alloc, "a", Shape::Below, sum(alloc, 1, 1, -4)?)?;
    let second = fact(alloc, "b", Shape::Below, sum(alloc, 1, -2, -1)?)?;
    two(alloc, first, second)
}

#[test]
fn multiples_of_facts_add_to_a_constant(rt: HostRuntime) -> Result<(), Fail> {
    // 2 * x - y <= 5 by 1*a + 1*b, and by 2*a + 2*b + 2*goal, and not by fewer
    let alloc = rt.alloc();
    let facts = bounds(alloc)?;
    let once = vec![in alloc; term(alloc, 1, "a")?, term(alloc, 1, "b")?]?;
    let goal = sum(alloc, 2, -1, -5)?;
    assert_eq!(rt;
        answer(alloc, &once, &facts, Shape::Below, goal)?,
        Told::Done
    );
    let twice = vec![in alloc;
        term(alloc, 2, "a")?,
        term(alloc, 2, "b")?,
        term(alloc, 2, "")?,
    ]?;
    let goal = sum(alloc, 2, -1, -5)?;
    assert_eq!(rt;
        answer(alloc, &twice, &facts, Shape::Below, goal)?,
        Told::Done
    );
    let fewer = vec![in alloc; term(alloc, 1, "a")?, term(alloc, 0, "b")?]?;
    let goal = sum(alloc, 2, -1, -5)?;
    assert_eq!(rt;
        answer(alloc, &fewer, &facts, Shape::Below, goal)?,
        Told::Undone
    );
    Ok(())
}

#[test]
fn a_label_is_that_of_the_newest_fact(rt: HostRuntime) -> Result<(), Fail> {
    // h: x + y <= 5 and h: x + y <= 9 leave x + y <= 5 undone by 1*h
    let alloc = rt.alloc();
    let first = fact(alloc, "h", Shape::Below, sum(alloc, 1, 1, -5)?)?;
    let second = fact(alloc, "h", Shape::Below, sum(alloc, 1, 1, -9)?)?;
    let facts = two(alloc, first, second)?;
    let hint = vec![in alloc; term(alloc, 1, "h")?]?;
    let goal = sum(alloc, 1, 1, -5)?;
    assert_eq!(rt;
        answer(alloc, &hint, &facts, Shape::Below, goal)?,
        Told::Undone
    );
    let goal = sum(alloc, 1, 1, -9)?;
    assert_eq!(rt;
        answer(alloc, &hint, &facts, Shape::Below, goal)?,
        Told::Done
    );
    // a label that no fact has, 0 times
    let other = vec![in alloc; term(alloc, 1, "h")?, term(alloc, 0, "i")?]?;
    let goal = sum(alloc, 1, 1, -9)?;
    assert_eq!(rt;
        answer(alloc, &other, &facts, Shape::Below, goal)?,
        Told::Undone
    );
    Ok(())
}

#[test]
fn a_multiplier_has_a_limit(rt: HostRuntime) -> Result<(), Fail> {
    // also where the hint can't serve the duty
    let alloc = rt.alloc();
    let facts = bounds(alloc)?;
    let past = vec![in alloc; term(alloc, 1_048_577, "a")?]?;
    let goal = sum(alloc, 1, 1, -3)?;
    let is = answer(alloc, &past, &facts, Shape::Zero, goal)?;
    assert_eq!(rt; is, Told::Multiplier(1_048_577));
    let most = vec![in alloc; term(alloc, 1_048_576, "a")?, term(alloc, 1_048_576, "")?]?;
    let goal = sum(alloc, 1, 1, -4)?;
    assert_eq!(rt;
        answer(alloc, &most, &facts, Shape::Below, goal)?,
        Told::Done
    );
    Ok(())
}

#[test]
fn labels_have_a_limit(rt: HostRuntime) -> Result<(), Fail> {
    let alloc = rt.alloc();
    let facts = bounds(alloc)?;
    let mut hint = Vec::new(alloc);
    for _ in 0..4_096 {
        hint.push(term(alloc, 0, "a")?)?;
    }
    hint.push(term(alloc, 1, "")?)?;
    let goal = sum(alloc, 1, 1, -4)?;
    assert_eq!(rt;
        answer(alloc, &hint, &facts, Shape::Below, goal)?,
        Told::Undone
    );
    hint.push(term(alloc, 1, "a")?)?;
    let goal = sum(alloc, 1, 1, -4)?;
    assert_eq!(rt;
        answer(alloc, &hint, &facts, Shape::Below, goal)?,
        Told::Terms(4_097)
    );
    Ok(())
}

#[test]
fn what_is_decided_is_confirmed(rt: HostRuntime) -> Result<(), Fail> {
    // x + y <= 5 by x + y <= 4; no groups are no witness
    let alloc = rt.alloc();
    let facts = bounds(alloc)?;
    let goal = below(sum(alloc, 1, 1, -5)?);
    let Decided::Done(groups) = decide(alloc, &facts, &goal)? else {
        return Err("undone")?;
    };
    let groups = groups.as_slice();
    assert_eq!(rt; groups.len(), 1);
    assert_eq!(rt; confirms(alloc, groups, &facts, &goal, 2)?, Some(1));
    assert_eq!(rt; confirms(alloc, &groups[..0], &facts, &goal, 2)?, None);
    Ok(())
}
