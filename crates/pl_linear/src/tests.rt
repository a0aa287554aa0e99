ghost use Rattle.std.specs.Prelude.{◌≡◌, ◌≤◌, ◌^◌, [], length, unsigned_abs, IfOk};
ghost use Rattle.std.specs.List.{All};
ghost use Rattle.pl_forms.specs.Forms.{IsForm};
ghost use Rattle.pl_forms.specs.Facts.{IsFact};
ghost use Rattle.pl_forms.specs.Places.{Within, AllWithin};

use super::*;
use pl_base::{Items, Memory};
use pl_forms::{Cert, CertItem, EqTerm, Eqs, Fact, Facts, Form, Part, Shape, TermError};
use std::alloc::Global;
use std::test::*;

// The one fact that a form of atom 0 is 0.
fn equation(alloc: Global, form: Form) -> Result<Facts, Memory>
    requires form { IsForm form }
    requires within { Within 2 form }
    ensures facts { IfOk result (λ f. All IsFact f.list) }
    ensures within { IfOk result (λ f. AllWithin 2 f.list) }
    ensures few { IfOk result (λ f. length f.list ≤ 1024) }
{
    let fact = Fact {
        label: None,
        guard: None,
        shape: Shape::Zero,
        form,
    };
    let list = vec![in alloc; fact]?;
    Ok(Facts {
        list: Items::of(list),
    })
}

// The negated goal, to which so many times the equation is added.
fn negated_goal(alloc: Global, times: i64) -> Result<Cert, Memory> {
    let eqs = vec![in alloc; EqTerm { times, fact: 0 }]?;
    let item = CertItem {
        times: 1,
        fact: None,
        back: false,
        eqs: Items::of(eqs),
    };
    let items = vec![in alloc; item]?;
    Ok(Cert {
        items: Items::of(items),
    })
}

#[test]
fn an_equation_closes_the_goal(rt: HostRuntime) -> Result<(), Fail> {
    // 1 - x and once x is 1
    let alloc = rt.alloc();
    let facts = equation(alloc, Form::of_atom(alloc, 0)?)?;
    let goal = Form::of_atom(alloc, 0)?;
    let eqs = Eqs::of(alloc, &facts)?;
    let once = negated_goal(alloc, 1)?;
    let twice = negated_goal(alloc, 2)?;
    assert!(rt; checks(alloc, &once, &eqs, &facts, &goal, 1)?);
    assert!(rt; !checks(alloc, &twice, &eqs, &facts, &goal, 1)?);
    Ok(())
}

#[test]
fn a_difference_has_two_ends(rt: HostRuntime) -> Result<(), Fail> {
    let alloc = rt.alloc();
    let one = Part { coeff: 1, atom: 3 };
    let other = Part { coeff: -1, atom: 5 };
    let ends = ends_of(alloc, &[one, other])?;
    assert_eq!(rt; ends.to.as_slice(), [one].as_slice());
    let from = Part { coeff: 1, atom: 5 };
    assert_eq!(rt; ends.from.as_slice(), [from].as_slice());
    Ok(())
}

// A multiple of atom 0, a multiple of atom 1, and a constant.
fn sum(alloc: Global, one: i128, other: i128, constant: i128) -> Result<Form, TermError>
    requires { unsigned_abs constant ≤ 2 ^ 80 }
    ensures { IfOk result (λ f. IsForm f) }
{
    let first = Form::scale(alloc, one, &Form::of_atom(alloc, 0)?)?;
    let second = Form::scale(alloc, other, &Form::of_atom(alloc, 1)?)?;
    let both = Form::add(alloc, &first, &second)?;
    Form::add(alloc, &both, &Form::of_constant(alloc, constant))
}

// No facts.
fn nothing(alloc: Global) -> Facts
    ensures { result.list ≡ [] }
{
    Facts {
        list: Items::of(Vec::new(alloc)),
    }
}

// One fact without a guard.
fn known(alloc: Global, shape: Shape, form: Form) -> Result<Facts, Memory>
    requires { IsForm form }
    ensures facts { IfOk result (λ f. All IsFact f.list) }
    ensures few { IfOk result (λ f. length f.list ≤ 1024) }
{
    let fact = Fact {
        label: None,
        guard: None,
        shape,
        form,
    };
    let list = vec![in alloc; fact]?;
    Ok(Facts {
        list: Items::of(list),
    })
}

#[test]
fn a_sum_is_one_node(rt: HostRuntime) -> Result<(), Fail> {
    // 2 * x + 2 * y <= 7 fails at x + y = 4
    let alloc = rt.alloc();
    let goal = sum(alloc, 2, 2, -7)?;
    let Found::Point(point) = find(alloc, &nothing(alloc), &goal)? else {
        return Err("a certificate")?;
    };
    let values = point.as_slice();
    assert_eq!(rt; values.len(), 2);
    assert_eq!(rt; values[0].value, 0);
    assert_eq!(rt; values[1].node.parts.as_slice().len(), 2);
    assert_eq!(rt; values[1].value, 4);
    Ok(())
}

#[test]
fn a_difference_is_two_nodes(rt: HostRuntime) -> Result<(), Fail> {
    // x <= y fails at x = 0, y = -1
    let alloc = rt.alloc();
    let goal = sum(alloc, 1, -1, 0)?;
    let Found::Point(point) = find(alloc, &nothing(alloc), &goal)? else {
        return Err("a certificate")?;
    };
    let values = point.as_slice();
    assert_eq!(rt; values.len(), 3);
    let y = Part { coeff: 1, atom: 1 };
    assert_eq!(rt; values[1].node.parts.as_slice(), [y].as_slice());
    assert_eq!(rt; values[1].value, -1);
    let x = Part { coeff: 1, atom: 0 };
    assert_eq!(rt; values[2].node.parts.as_slice(), [x].as_slice());
    assert_eq!(rt; values[2].value, 0);
    Ok(())
}

#[test]
fn a_weaker_bound_follows(rt: HostRuntime) -> Result<(), Fail> {
    // x <= 3 gives x <= 4
    let alloc = rt.alloc();
    let facts = known(alloc, Shape::Below, sum(alloc, 1, 0, -3)?)?;
    let found = find(alloc, &facts, &sum(alloc, 1, 0, -4)?)?;
    let Found::Cert(cert) = found else {
        return Err("a point")?;
    };
    assert_eq!(rt; cert.items.as_slice().len(), 2);
    Ok(())
}

#[test]
fn an_equation_without_a_solution_gives_all(rt: HostRuntime) -> Result<(), Fail> {
    // 3 * x - 3 * y == 1 holds of no whole numbers
    let alloc = rt.alloc();
    let facts = known(alloc, Shape::Zero, sum(alloc, 3, -3, -1)?)?;
    let found = find(alloc, &facts, &sum(alloc, 0, 0, 1)?)?;
    assert!(rt; matches!(found, Found::Cert(_)));
    Ok(())
}

#[test]
fn the_negated_goal_passes_its_limit(rt: HostRuntime) -> Result<(), Fail> {
    // 0 <= 2^80
    let alloc = rt.alloc();
    let goal = sum(alloc, 0, 0, -1_208_925_819_614_629_174_706_176)?;
    let found = find(alloc, &nothing(alloc), &goal);
    assert!(rt;
        matches!(
            found,
            Err(TermError::TooLarge(1_208_925_819_614_629_174_706_177))
        )
    );
    Ok(())
}
