ghost use Rattle.std.specs.Prelude.{◌≡◌, length, IfOk};
ghost use Rattle.std.specs.List.{All};
ghost use Rattle.pl_forms.specs.Forms.{IsForm};
ghost use Rattle.pl_forms.specs.Facts.{IsFact};

use super::*;
use pl_base::{Items, Memory};
use std::alloc::Global;
use std::test::*;

// A multiple of one atom and a multiple of another.
fn two(alloc: Global, times: i128, one: u32, more: i128, other: u32) -> Result<Form, TermError>
    ensures { IfOk result (λ f. IsForm f) }
{
    let first = Form::scale(alloc, times, &Form::of_atom(alloc, one)?)?;
    let second = Form::scale(alloc, more, &Form::of_atom(alloc, other)?)?;
    Form::add(alloc, &first, &second)
}

fn equation(form: Form) -> Fact
    requires { IsForm form }
    ensures { IsFact result }
{
    Fact {
        label: None,
        guard: None,
        shape: Shape::Zero,
        form,
    }
}

fn equations(alloc: Global, one: Form, other: Form) -> Result<Facts, Memory>
    requires one { IsForm one }
    requires other { IsForm other }
    ensures facts { IfOk result (λ f. All IsFact f.list) }
    ensures few { IfOk result (λ f. length f.list ≡ 2) }
{
    let list = vec![in alloc; equation(one), equation(other)]?;
    Ok(Facts {
        list: Items::of(list),
    })
}

#[test]
fn a_constant_passes_its_limit(rt: HostRuntime) -> Result<(), Fail> {
    let one = Form::of_constant(rt.alloc(), 1_208_925_819_614_629_174_706_176);
    let other = Form::of_constant(rt.alloc(), 1);
    let sum = Form::add(rt.alloc(), &one, &other);
    assert!(rt;
        matches!(
            sum,
            Err(TermError::TooLarge(1_208_925_819_614_629_174_706_177))
        )
    );
    Ok(())
}

#[test]
fn a_solved_form_passes_its_limit(rt: HostRuntime) -> Result<(), Fail> {
    let alloc = rt.alloc();
    let first = two(alloc, 1, 0, -1_099_511_627_776, 1)?;
    let second = two(alloc, -2, 0, 1, 2)?;
    let solved = Eqs::of(alloc, &equations(alloc, first, second)?);
    assert!(rt; matches!(solved, Err(TermError::TooLarge(2_199_023_255_552))));
    Ok(())
}

#[test]
fn the_newest_atom_goes_first(rt: HostRuntime) -> Result<(), Fail> {
    let alloc = rt.alloc();
    let same = two(alloc, 1, 0, -1, 1)?;
    let three = Form::add(
        alloc,
        &Form::of_atom(alloc, 1)?,
        &Form::of_constant(alloc, -3),
    )?;
    let eqs = Eqs::of(alloc, &equations(alloc, same, three)?)?;
    let sum = eqs.reduce(alloc, &two(alloc, 1, 0, 1, 1)?)?;
    let solved = eqs.solved.as_slice();
    assert_eq!(rt; solved.len(), 2);
    assert_eq!(rt; solved[0].atom, 1);
    assert_eq!(rt; solved[1].atom, 0);
    assert_eq!(rt; sum.constant, 6);
    Ok(())
}

#[test]
fn half_a_unit_is_rounded_up(rt: HostRuntime) {
    // 7 - 2x - 2y is at most 0
    let mut row = [7, -2, -2];
    tighten(&mut row);
    assert_eq!(rt; row, [4, -1, -1]);
}
