ghost use Rattle.std.specs.Prelude.{◌≡◌, ℤ, pos, ◌≤◌, ◌^◌, ◌++◌, unsigned_abs, IfOk, Ok};
ghost use Rattle.pl_forms.specs.Forms.{IsForm};
ghost use Rattle.pl_forms.specs.Equations.{AreSolutions, coeff_of, opposite, reduced};
ghost use Rattle.pl_forms.specs.Terms.{difference, some_term, step_between, between, Leads};

use crate::equation::{Solution, multiple_of, remove_one, removing_small};
use crate::fact::EqTerm;
use crate::form::{Form, TermError};
use pl_base::Items;
use std::alloc::{AllocError, Global};

/// The multiples of solved equations that lead one form to another, where both reduce to the same form, or to the opposite of
/// the other, where they reduce to opposite ones; in the order of solving.
pub fn terms_between(
    alloc: Global,
    solutions: &[Solution],
    one: &Form,
    other: &Form,
    same: bool,
) -> Result<Items<EqTerm>, TermError>
    requires solutions { AreSolutions solutions.now }
    requires one { IsForm one.now }
    requires other { IsForm other.now }
    ensures exact { Leads result (reduced solutions.now one.now) (reduced solutions.now other.now) (between solutions.now same one.now other.now) }
{
    let mut terms = Vec::new(alloc);
    let mut first = one.copy(alloc)?;
    let mut second = other.copy(alloc)?;
    for solution in solutions {
        push_between(&mut terms, solution, same, &first, &second)?;
        first = remove_one(alloc, first, solution)?;
        second = remove_one(alloc, second, solution)?;
    }
    Ok(Items::of(terms))
}

// One more multiple, unless it is 0.
fn push_between(
    terms: &mut Vec<EqTerm>,
    solution: &Solution,
    same: bool,
    one: &Form,
    other: &Form,
) -> Result<(), AllocError>
    requires one { IsForm one.now }
    requires other { IsForm other.now }
    ensures { IfOk result (λ _. terms.new.items ≡ terms.old.items ++ step_between solution.now same one.now other.now) }
{
    let first = removing(solution, one);
    let second = removing(solution, other);
    push_some(terms, difference(same, first, second), solution.fact)
}

// How often a solved form is added to remove its atom.
fn removing(solution: &Solution, form: &Form) -> i64
    requires { IsForm form.now }
    ensures is { result ≡ opposite solution.now.minus (coeff_of solution.now.atom form.now.parts) }
    ensures size { unsigned_abs result ≤ 2 ^ 40 }
{
    let coeff = multiple_of(form.parts.as_slice(), solution.atom);
    removing_small(solution.minus, coeff)
}

fn difference(same: bool, one: i64, other: i64) -> i64
    requires one { unsigned_abs one ≤ 2 ^ 40 }
    requires other { unsigned_abs other ≤ 2 ^ 40 }
    ensures { result ≡ difference same one other }
{
    if same { one - other } else { one + other }
}

fn push_some(terms: &mut Vec<EqTerm>, times: i64, fact: u32) -> Result<(), AllocError>
    ensures { IfOk result (λ _. terms.new.items ≡ terms.old.items ++ some_term times fact) }
{
    if times != 0 {
        terms.push(EqTerm { times, fact })?;
    }
    Ok(())
}
