ghost use Rattle.std.specs.Prelude.{◌≡◌, ◌≤◌, ◌^◌, [], length, unsigned_abs, IfOk};
ghost use Rattle.std.specs.List.{All};
ghost use Rattle.pl_forms.specs.Forms.{IsForm};
ghost use Rattle.pl_forms.specs.Facts.{IsFact};
ghost use Rattle.pl_forms.specs.Goals.{goal_of, IsGoal};

use super::*;
use pl_base::{Items, Memory};
use pl_forms::{Facts, Form, Goal, Group, Shape, TermError, assume};
use std::alloc::Global;
use std::test::*;

const LEAST: i128 = -9_223_372_036_854_775_808;

const GREATEST: i128 = 9_223_372_036_854_775_807;

// x, y and z so many times, and a constant.
fn sum(alloc: Global, x: i128, y: i128, z: i128, constant: i128) -> Result<Form, TermError>
    requires { unsigned_abs constant ≤ 2 ^ 80 }
    ensures { IfOk result (λ f. IsForm f) }
{
    let first = Form::scale(alloc, x, &Form::of_atom(alloc, 0)?)?;
    let second = Form::scale(alloc, y, &Form::of_atom(alloc, 1)?)?;
    let third = Form::scale(alloc, z, &Form::of_atom(alloc, 2)?)?;
    let both = Form::add(alloc, &first, &second)?;
    let all = Form::add(alloc, &both, &third)?;
    Form::add(alloc, &all, &Form::of_constant(alloc, constant))
}

fn plain(shape: Shape, form: Form) -> Goal
    requires { IsForm form }
    ensures { IsGoal (goal_of result) }
{
    Goal::Plain(shape, form)
}

fn both(alloc: Global, one: Goal, other: Goal) -> Result<Goal, Memory>
    requires one { IsGoal (goal_of one) }
    requires other { IsGoal (goal_of other) }
    ensures { IfOk result (λ g. IsGoal (goal_of g)) }
{
    Ok(Goal::Both(Box::new(alloc, one)?, Box::new(alloc, other)?))
}

fn either(alloc: Global, one: Goal, other: Goal) -> Result<Goal, Memory>
    requires one { IsGoal (goal_of one) }
    requires other { IsGoal (goal_of other) }
    ensures { IfOk result (λ g. IsGoal (goal_of g)) }
{
    Ok(Goal::Either(Box::new(alloc, one)?, Box::new(alloc, other)?))
}

fn when(alloc: Global, guard: Form, inner: Goal) -> Result<Goal, Memory>
    requires guard { IsForm guard }
    requires inner { IsGoal (goal_of inner) }
    ensures { IfOk result (λ g. IsGoal (goal_of g)) }
{
    Ok(Goal::When(guard, Box::new(alloc, inner)?))
}

// No facts.
fn nothing(alloc: Global) -> Facts
    ensures { result.list ≡ [] }
{
    Facts {
        list: Items::of(Vec::new(alloc)),
    }
}

// .. and this duty.
fn knowing(alloc: Global, facts: Facts, goal: &Goal) -> Result<Facts, TermError>
    requires facts { All IsFact facts.list }
    requires goal { IsGoal (goal_of goal.now) }
    requires few { length facts.list ≤ 1024 }
    ensures facts { IfOk result (λ f. All IsFact f.list) }
    ensures few { IfOk result (λ f. length f.list ≤ 1024) }
{
    let mut facts = facts;
    assume(alloc, goal, true, None, &mut facts)?;
    Ok(facts)
}

// x is at least `low` and at most the opposite of `minus_high`.
fn range(alloc: Global, low: i128, minus_high: i128) -> Result<Facts, TermError>
    requires low { unsigned_abs low ≤ 2 ^ 64 }
    requires high { unsigned_abs minus_high ≤ 2 ^ 64 }
    ensures facts { IfOk result (λ f. All IsFact f.list) }
    ensures few { IfOk result (λ f. length f.list ≤ 1024) }
{
    let from = plain(Shape::Below, sum(alloc, -1, 0, 0, low)?);
    let to = plain(Shape::Below, sum(alloc, 1, 0, 0, minus_high)?);
    knowing(alloc, nothing(alloc), &both(alloc, from, to)?)
}

// Whether a duty is undone, and each node is so many times x, y and z and has this value.
fn is_undone(decided: &Decided, nodes: &[[i128; 4]]) -> bool {
    let Decided::Undone(point) = decided else {
        return false;
    };
    let point = point.as_slice();
    if point.len() != nodes.len() {
        return false;
    }
    for i in 0..point.len() {
        if !is_node(&point[i], nodes[i]) {
            return false;
        }
    }
    true
}

fn is_node(entry: &NodeValue, node: [i128; 4]) -> bool {
    let [x, y, z, value] = node;
    times(&entry.node, 0) == x
        && times(&entry.node, 1) == y
        && times(&entry.node, 2) == z
        && entry.value == value
}

fn times(form: &Form, atom: u32) -> i128 {
    for part in form.parts.as_slice() {
        if part.atom == atom {
            return i128::from(part.coeff);
        }
    }
    0
}

// How a duty is shown to be done.
#[derive(Clone, Copy, Debug, PartialEq, Eq)]
enum Way {
    Undone,
    Equations,
    Certificate,
    Constant,
    Disequality(u32),
    Several,
}

fn how(decided: &Decided) -> Way {
    let Decided::Done(groups) = decided else {
        return Way::Undone;
    };
    match groups.as_slice() {
        [only] => how_shown(only),
        _ => Way::Several,
    }
}

fn how_shown(group: &Group) -> Way {
    match group {
        Group::Eqs(_) => Way::Equations,
        Group::Cert(_) => Way::Certificate,
        Group::Constant(_) => Way::Constant,
        Group::Differs(place, _) => Way::Disequality(*place),
        _ => Way::Several,
    }
}

#[test]
fn a_sum_passes_its_range_at_its_end(rt: HostRuntime) -> Result<(), Fail> {
    // x + 1 <= 9223372036854775807 fails at x = 9223372036854775807, and not where x is less
    let alloc = rt.alloc();
    let goal = plain(Shape::Below, sum(alloc, 1, 0, 0, 1 - GREATEST)?);
    let any = range(alloc, LEAST, -GREATEST)?;
    assert!(rt; is_undone(&decide(alloc, &any, &goal)?, &[[1, 0, 0, GREATEST]]));
    let less = range(alloc, LEAST, 1 - GREATEST)?;
    assert_eq!(rt; how(&decide(alloc, &less, &goal)?), Way::Certificate);
    Ok(())
}

#[test]
fn the_first_part_that_is_undone_has_its_point(rt: HostRuntime) -> Result<(), Fail> {
    let alloc = rt.alloc();
    let none = nothing(alloc);
    // x <= 3 && x <= 4 fails at x = 4: the second doesn't assume the first
    let first = plain(Shape::Below, sum(alloc, 1, 0, 0, -3)?);
    let second = plain(Shape::Below, sum(alloc, 1, 0, 0, -4)?);
    let goal = both(alloc, first, second)?;
    assert!(rt; is_undone(&decide(alloc, &none, &goal)?, &[[1, 0, 0, 4]]));
    // x <= y fails at x = 0, y = -1
    let less = plain(Shape::Below, sum(alloc, 1, -1, 0, 0)?);
    assert!(rt;
        is_undone(
            &decide(alloc, &none, &less)?,
            &[[1, 0, 0, 0], [0, 1, 0, -1]]
        )
    );
    // 2 * x + 2 * y <= 7 fails at x + y = 4
    let twice = plain(Shape::Below, sum(alloc, 2, 2, 0, -7)?);
    assert!(rt; is_undone(&decide(alloc, &none, &twice)?, &[[1, 1, 0, 4]]));
    Ok(())
}

#[test]
fn an_equality_is_two_parts(rt: HostRuntime) -> Result<(), Fail> {
    // x <= 3 leaves x == 3 undone at x = 0
    let alloc = rt.alloc();
    let low = plain(Shape::Below, sum(alloc, 1, 0, 0, -3)?);
    let facts = knowing(alloc, nothing(alloc), &low)?;
    let goal = plain(Shape::Zero, sum(alloc, 1, 0, 0, -3)?);
    assert!(rt; is_undone(&decide(alloc, &facts, &goal)?, &[[1, 0, 0, 0]]));
    // 3 <= x too
    let high = plain(Shape::Below, sum(alloc, -1, 0, 0, 3)?);
    let facts = knowing(alloc, facts, &high)?;
    assert_eq!(rt; how(&decide(alloc, &facts, &goal)?), Way::Several);
    let facts = knowing(alloc, facts, &goal)?;
    assert_eq!(rt; how(&decide(alloc, &facts, &goal)?), Way::Equations);
    Ok(())
}

#[test]
fn what_needs_a_hint_isnt_found(rt: HostRuntime) -> Result<(), Fail> {
    // x + y <= 4 and x - 2 * y <= 1 leave 3 * x <= 9 undone at x = 4
    let alloc = rt.alloc();
    let one = plain(Shape::Below, sum(alloc, 1, 1, 0, -4)?);
    let other = plain(Shape::Below, sum(alloc, 1, -2, 0, -1)?);
    let facts = knowing(alloc, nothing(alloc), &both(alloc, one, other)?)?;
    let goal = plain(Shape::Below, sum(alloc, 3, 0, 0, -9)?);
    assert!(rt; is_undone(&decide(alloc, &facts, &goal)?, &[[1, 0, 0, 4]]));
    Ok(())
}

#[test]
fn a_remainder_by_seven_may_be_negative(rt: HostRuntime) -> Result<(), Fail> {
    // z is x less 7 times the quotient y, between -6 and 6: 0 <= z fails at x - 7 * y = -1
    let alloc = rt.alloc();
    let is = plain(Shape::Zero, sum(alloc, -1, 7, 1, 0)?);
    let low = plain(Shape::Below, sum(alloc, -1, 7, 0, -6)?);
    let high = plain(Shape::Below, sum(alloc, 1, -7, 0, -6)?);
    let facts = knowing(alloc, nothing(alloc), &both(alloc, low, high)?)?;
    let facts = knowing(alloc, facts, &is)?;
    let goal = plain(Shape::Below, sum(alloc, 0, 0, -1, 0)?);
    assert!(rt; is_undone(&decide(alloc, &facts, &goal)?, &[[1, -7, 0, -1]]));
    Ok(())
}

#[test]
fn a_disequality_is_done_in_three_ways(rt: HostRuntime) -> Result<(), Fail> {
    let alloc = rt.alloc();
    let apart = plain(Shape::Differs, sum(alloc, 1, -1, 0, 0)?);
    let facts = knowing(alloc, nothing(alloc), &apart)?;
    // x != y gives y != x, and, where x is 5, 5 != y and x != y
    let turned = plain(Shape::Differs, sum(alloc, -1, 1, 0, 0)?);
    assert_eq!(rt; how(&decide(alloc, &facts, &turned)?), Way::Disequality(0));
    let five = plain(Shape::Zero, sum(alloc, 1, 0, 0, -5)?);
    let facts = knowing(alloc, facts, &five)?;
    assert_eq!(rt; how(&decide(alloc, &facts, &apart)?), Way::Disequality(0));
    let reduced = plain(Shape::Differs, sum(alloc, 0, -1, 0, 5)?);
    assert_eq!(rt; how(&decide(alloc, &facts, &reduced)?), Way::Disequality(0));
    // x != 0 then, as 5 is a constant
    let some = plain(Shape::Differs, sum(alloc, 1, 0, 0, 0)?);
    assert_eq!(rt; how(&decide(alloc, &facts, &some)?), Way::Constant);
    Ok(())
}

#[test]
fn a_disequality_is_undone_without_nodes(rt: HostRuntime) -> Result<(), Fail> {
    let alloc = rt.alloc();
    // 1 <= x gives x != 0, and 0 <= x doesn't
    let some = plain(Shape::Differs, sum(alloc, 1, 0, 0, 0)?);
    assert_eq!(rt;
        how(&decide(alloc, &range(alloc, 1, -9)?, &some)?),
        Way::Certificate
    );
    assert!(rt; is_undone(&decide(alloc, &range(alloc, 0, -9)?, &some)?, &[]));
    // -1 != -1
    let nought = plain(Shape::Differs, sum(alloc, 0, 0, 0, 0)?);
    assert!(rt; is_undone(&decide(alloc, &nothing(alloc), &nought)?, &[]));
    Ok(())
}

#[test]
fn one_of_two_assumes_the_negation_of_the_first(rt: HostRuntime) -> Result<(), Fail> {
    let alloc = rt.alloc();
    // x == 4 || x != 4 where x is from 3 to 5
    let four = plain(Shape::Zero, sum(alloc, 1, 0, 0, -4)?);
    let other = plain(Shape::Differs, sum(alloc, 1, 0, 0, -4)?);
    let goal = either(alloc, four, other)?;
    let facts = range(alloc, 3, -5)?;
    assert_eq!(rt; how(&decide(alloc, &facts, &goal)?), Way::Disequality(2));
    // -9223372036854775807 <= x || y != -1 has no point
    let high = plain(Shape::Below, sum(alloc, -1, 0, 0, -GREATEST)?);
    let apart = plain(Shape::Differs, sum(alloc, 0, 1, 0, 1)?);
    let goal = either(alloc, high, apart)?;
    assert!(rt; is_undone(&decide(alloc, &nothing(alloc), &goal)?, &[]));
    Ok(())
}

#[test]
fn a_guard_is_assumed(rt: HostRuntime) -> Result<(), Fail> {
    let alloc = rt.alloc();
    // y ==> x <= 3 gives y ==> x <= 4, and not x <= 4
    let three = plain(Shape::Below, sum(alloc, 1, 0, 0, -3)?);
    let known = when(alloc, sum(alloc, 0, 1, 0, 0)?, three)?;
    let facts = knowing(alloc, nothing(alloc), &known)?;
    let four = plain(Shape::Below, sum(alloc, 1, 0, 0, -4)?);
    assert!(rt; is_undone(&decide(alloc, &facts, &four)?, &[[1, 0, 0, 5]]));
    let goal = when(alloc, sum(alloc, 0, 1, 0, 0)?, four)?;
    assert_eq!(rt; how(&decide(alloc, &facts, &goal)?), Way::Certificate);
    Ok(())
}

#[test]
fn a_boolean_is_one(rt: HostRuntime) -> Result<(), Fail> {
    // b from 0 to 1 isn't known to be 1, at b = 0; where it is 1, not b fails at b = 1
    let alloc = rt.alloc();
    let b = Goal::Truth(sum(alloc, 1, 0, 0, 0)?, true);
    let facts = range(alloc, 0, -1)?;
    assert!(rt; is_undone(&decide(alloc, &facts, &b)?, &[[1, 0, 0, 0]]));
    let facts = knowing(alloc, facts, &b)?;
    assert_eq!(rt; how(&decide(alloc, &facts, &b)?), Way::Equations);
    let opposite = Goal::Truth(sum(alloc, 1, 0, 0, 0)?, false);
    assert!(rt; !matches!(decide(alloc, &facts, &opposite)?, Decided::Done(_)));
    Ok(())
}

#[test]
fn a_fact_passes_its_limit_as_it_is_reduced(rt: HostRuntime) -> Result<(), Fail> {
    // x == 1099511627776 * y and z == 2 * x
    let alloc = rt.alloc();
    let one = plain(Shape::Zero, sum(alloc, 1, -1_099_511_627_776, 0, 0)?);
    let other = plain(Shape::Zero, sum(alloc, -2, 0, 1, 0)?);
    let facts = knowing(alloc, nothing(alloc), &both(alloc, one, other)?)?;
    let goal = plain(Shape::Below, sum(alloc, 0, 0, 0, 0)?);
    let decided = decide(alloc, &facts, &goal);
    assert!(rt; matches!(decided, Err(TermError::TooLarge(2_199_023_255_552))));
    Ok(())
}
