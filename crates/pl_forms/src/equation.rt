ghost use Rattle.std.specs.Prelude.{◌≡◌, ◌≢◌, ℕ, ℤ, pos, neg_ℤ, ◌≤◌, ◌^◌, ◌++◌, unsigned_abs, if◌then◌else◌, IfOk};
ghost use Rattle.std.specs.List.{All};
ghost use Rattle.pl_forms.specs.Forms.{IsForm, Answers, value};
ghost use Rattle.pl_forms.specs.Facts.{IsGuard};
ghost use Rattle.pl_forms.specs.Places.{Within, AllSolvedWithin};
ghost use Rattle.pl_forms.specs.Equations.{AreSolutions, MeetsSolved, coeff_of, opposite, remove, reduced, is_one, counted, Tells};
ghost use Rattle.pl_forms.specs.Terms.{removal, terms, Reduces};

use crate::fact::EqTerm;
use crate::form::{Form, Part, TermError};
use pl_base::Items;
use std::alloc::{AllocError, Global};

/// An equation that was solved for an atom whose multiple in it is 1 or -1.
#[derive(Debug, Drop)]
pub struct Solution {
    /// The place of the equation in the list of facts.
    pub fact: u32,
    pub atom: u32,
    /// The equation's form, reduced by the equations solved before it.
    pub form: Form,
    /// The multiple is -1.
    pub minus: bool,
}

/// The solved equations among facts, in the order of solving.
#[derive(Debug, Drop)]
pub struct Eqs {
    pub solved: Items<Solution>,
}

/// A form reduced by solved equations, in the order of solving: each adds the multiple of its form that removes its atom.
pub fn reduce(alloc: Global, solutions: &[Solution], form: &Form) -> Result<Form, TermError>
    requires solutions { AreSolutions solutions.now }
    requires form { IsForm form.now }
    ensures exact { Answers result (reduced solutions.now form.now) }
    ensures value { IfOk result (λ f. (v : ℕ → ℤ) → MeetsSolved v solutions.now → value v f ≡ value v form.now) }
    ensures form { IfOk result (λ f. IsForm f) }
    ensures atoms { IfOk result (λ f. (n : ℕ) → AllSolvedWithin n solutions.now → Within n form.now → Within n f) }
{
    reduce_all(alloc, solutions, form)
}

fn reduce_all(alloc: Global, solutions: &[Solution], form: &Form) -> Result<Form, TermError>
    requires solutions { AreSolutions solutions.now }
    requires form { IsForm form.now }
    ensures { Answers result (reduced solutions.now form.now) }
{
    let mut now = form.copy(alloc)?;
    for solution in solutions {
        now = remove_one(alloc, now, solution)?;
    }
    Ok(now)
}

// The form without the atom of a solved equation.
pub(crate) fn remove_one(alloc: Global, form: Form, solution: &Solution) -> Result<Form, TermError>
    requires form { IsForm form }
    requires solution { IsForm solution.now.form }
    ensures exact { Answers result (remove solution.now form) }
    ensures form { IfOk result (λ f. IsForm f) }
{
    let coeff = multiple_of(form.parts.as_slice(), solution.atom);
    if coeff == 0 {
        return Ok(form);
    }
    Form::add_multiple(
        alloc,
        &form,
        removing(solution.minus, coeff),
        &solution.form,
    )
}

// The multiple of an atom; 0 where no part has it.
pub(crate) fn multiple_of(parts: &[Part], atom: u32) -> i64
    ensures { result ≡ coeff_of atom parts.now }
{
    for part in parts {
        if part.atom == atom {
            return part.coeff;
        }
    }
    0
}

// How often a solved form is added to remove its atom.
fn removing(minus: bool, coeff: i64) -> i128
    ensures { result ≡ opposite minus coeff }
{
    if minus {
        i128::from(coeff)
    } else {
        -i128::from(coeff)
    }
}

/// A reduced form, and the multiples of solved equations that were added to reduce it.
#[derive(Debug, Drop)]
pub struct Reduced {
    pub form: Form,
    pub terms: Items<EqTerm>,
}

/// A form reduced by solved equations, and which multiples of their forms were added, in the order of solving.
pub fn reduce_with(alloc: Global, solutions: &[Solution], form: &Form) -> Result<Reduced, TermError>
    requires solutions { AreSolutions solutions.now }
    requires form { IsForm form.now }
    ensures exact { Reduces result (reduced solutions.now form.now) (terms solutions.now form.now) }
    ensures form { IfOk result (λ r. IsForm r.form) }
    ensures sizes { IfOk result (λ r. All (λ t. unsigned_abs t.times ≤ 2 ^ 40) r.terms) }
    ensures atoms { IfOk result (λ r. (n : ℕ) → AllSolvedWithin n solutions.now → Within n form.now → Within n r.form) }
{
    remove_all(alloc, solutions, form)
}

fn remove_all(alloc: Global, solutions: &[Solution], form: &Form) -> Result<Reduced, TermError>
    requires solutions { AreSolutions solutions.now }
    requires form { IsForm form.now }
    ensures exact { Reduces result (reduced solutions.now form.now) (terms solutions.now form.now) }
    ensures form { IfOk result (λ r. IsForm r.form) }
{
    let mut now = form.copy(alloc)?;
    let mut terms = Vec::new(alloc);
    for solution in solutions {
        push_removal(&mut terms, &now, solution)?;
        now = remove_one(alloc, now, solution)?;
    }
    Ok(Reduced {
        form: now,
        terms: Items::of(terms),
    })
}

// One more multiple, that which removes the atom of a solved equation; none where the form doesn't have it.
fn push_removal(terms: &mut Vec<EqTerm>, form: &Form, solution: &Solution) -> Result<(), AllocError>
    requires form { IsForm form.now }
    ensures { IfOk result (λ _. terms.new.items ≡ terms.old.items ++ removal solution.now form.now) }
{
    let coeff = multiple_of(form.parts.as_slice(), solution.atom);
    if coeff != 0 {
        terms.push(EqTerm {
            times: removing_small(solution.minus, coeff),
            fact: solution.fact,
        })?;
    }
    Ok(())
}

pub(crate) fn removing_small(minus: bool, coeff: i64) -> i64
    requires { unsigned_abs coeff ≤ 2 ^ 40 }
    ensures { result ≡ opposite minus coeff }
{
    if minus { coeff } else { -coeff }
}

/// Whether a fact with this guard counts: it has none, or one that reduces to 1.
pub fn counts(
    alloc: Global,
    solutions: &[Solution],
    guard: &Option<Form>,
) -> Result<bool, TermError>
    requires solutions { AreSolutions solutions.now }
    requires guard { IsGuard guard.now }
    ensures { Tells result (counted solutions.now guard.now) }
{
    match guard {
        None => Ok(true),
        Some(form) => {
            let reduced = reduce_all(alloc, solutions, form)?;
            Ok(is_one_form(&reduced))
        }
    }
}

fn is_one_form(form: &Form) -> bool
    ensures { result ≡ is_one form.now }
{
    form.parts.as_slice().is_empty() && form.constant == 1
}
