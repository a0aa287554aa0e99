ghost use Rattle.std.specs.Prelude.{◌≡◌, ℕ, ℤ, ◌≤◌, ◌++◌, None, IfOk, length};
ghost use Rattle.std.specs.Option.{option_to_list};
ghost use Rattle.std.specs.List.{All};
ghost use Rattle.pl_forms.specs.Forms.{IsForm, Answers, value};
ghost use Rattle.pl_forms.specs.Facts.{IsFact};
ghost use Rattle.pl_forms.specs.declared.fact.Shape.TheVariants.{Zero};
ghost use Rattle.pl_forms.specs.Equations.{AreSolutions, AreNamed, MeetsSolved, Follow, reduced};
ghost use Rattle.pl_forms.specs.Places.{Within, AllWithin, AllSolvedWithin};
ghost use Rattle.pl_forms.specs.Solving.{newest, solved_for, is_solved, look_shape, look, pass, solved, Solves, Lists, Looked};

use crate::equation::{Eqs, Solution, counts, reduce};
use crate::fact::{Fact, Facts, Shape};
use crate::form::{Form, Part, TermError};
use pl_base::Items;
use std::alloc::{AllocError, Global};

impl Eqs {
    /// The equations among the facts, solved in the order of the list.
    ///
    /// An equation that counts is reduced by those solved before and solved for the newest atom whose multiple is 1 or -1.
    /// The list is begun again until a pass solves none.
    pub fn of(alloc: Global, facts: &Facts) -> Result<Eqs, TermError>
        requires facts { All IsFact facts.now.list }
        requires few { length facts.now.list ≤ 1024 }
        ensures exact { Solves result (solved facts.now.list) }
        ensures forms { IfOk result (λ eqs. AreSolutions eqs.solved) }
        ensures follow { IfOk result (λ eqs. Follow eqs.solved facts.now.list) }
        ensures once { IfOk result (λ eqs. AreNamed eqs.solved) }
        ensures atoms { IfOk result (λ eqs. (n : ℕ) → AllWithin n facts.now.list → AllSolvedWithin n eqs.solved) }
    {
        solve_all(alloc, facts.list.as_slice())
    }

    /// A form reduced by them.
    pub fn reduce(&self, alloc: Global, form: &Form) -> Result<Form, TermError>
        requires solved { AreSolutions self.now.solved }
        requires form { IsForm form.now }
        ensures exact { Answers result (reduced self.now.solved form.now) }
        ensures value { IfOk result (λ f. (v : ℕ → ℤ) → MeetsSolved v self.now.solved → value v f ≡ value v form.now) }
        ensures form { IfOk result (λ f. IsForm f) }
        ensures atoms { IfOk result (λ f. (n : ℕ) → AllSolvedWithin n self.now.solved → Within n form.now → Within n f) }
    {
        reduce(alloc, self.solved.as_slice(), form)
    }
}

fn solve_all(alloc: Global, facts: &[Fact]) -> Result<Eqs, TermError>
    requires facts { All IsFact facts.now }
    requires few { length facts.now ≤ 1024 }
    ensures { Solves result (solved facts.now) }
{
    let list = all_passes(alloc, facts)?;
    Ok(Eqs {
        solved: Items::of(list),
    })
}

// Passes over the facts, until one solves none.
fn all_passes(alloc: Global, facts: &[Fact]) -> Result<Vec<Solution>, TermError>
    requires facts { All IsFact facts.now }
    requires few { length facts.now ≤ 1024 }
    ensures { Lists result (solved facts.now) }
{
    let mut solutions = Vec::new(alloc);
    let mut left = facts.len() + 1;
    while left > 0 {
        let before = solutions.len();
        one_pass(alloc, &mut solutions, facts)?;
        if solutions.len() == before {
            return Ok(solutions);
        }
        left -= 1;
    }
    Ok(solutions)
}

// Looks at each fact in order.
fn one_pass(alloc: Global, solutions: &mut Vec<Solution>, facts: &[Fact]) -> Result<(), TermError>
    requires solutions { AreSolutions solutions.old.items }
    requires facts { All IsFact facts.now }
    requires few { length facts.now ≤ 1024 }
    ensures exact { Looked result solutions.new.items (pass 0 facts.now solutions.old.items) }
    ensures forms { IfOk result (λ _. AreSolutions solutions.new.items) }
{
    for i in 0..facts.len() {
        look_at(alloc, solutions, i as u32, &facts[i])?;
    }
    Ok(())
}

// Looks at the fact at a place: an equation that counts is reduced and, where it has such an atom, solved.
fn look_at(
    alloc: Global,
    solutions: &mut Vec<Solution>,
    place: u32,
    fact: &Fact,
) -> Result<(), TermError>
    requires solutions { AreSolutions solutions.old.items }
    requires fact { IsFact fact.now }
    ensures exact { Looked result solutions.new.items (look solutions.old.items place fact.now) }
    ensures forms { IfOk result (λ _. AreSolutions solutions.new.items) }
{
    look_by_shape(alloc, solutions, place, fact)
}

fn look_by_shape(
    alloc: Global,
    solutions: &mut Vec<Solution>,
    place: u32,
    fact: &Fact,
) -> Result<(), TermError>
    requires solutions { AreSolutions solutions.old.items }
    requires fact { IsFact fact.now }
    ensures { Looked result solutions.new.items (look solutions.old.items place fact.now) }
{
    match fact.shape {
        Shape::Zero => look_at_equation(alloc, solutions, place, fact),
        Shape::Below => Ok(()),
        Shape::Differs => Ok(()),
    }
}

fn look_at_equation(
    alloc: Global,
    solutions: &mut Vec<Solution>,
    place: u32,
    fact: &Fact,
) -> Result<(), TermError>
    requires solutions { AreSolutions solutions.old.items }
    requires fact { IsFact fact.now }
    ensures { Looked result solutions.new.items (look_shape Zero solutions.old.items place fact.now) }
{
    if has_solved(solutions, place) {
        return Ok(());
    }
    if !counts(alloc, solutions, &fact.guard)? {
        return Ok(());
    }
    let form = reduce(alloc, solutions, &fact.form)?;
    add_solution(solutions, place, form)?;
    Ok(())
}

// Whether the equation at a place was solved before.
fn has_solved(solutions: &[Solution], place: u32) -> bool
    ensures { result ≡ is_solved place solutions.now }
{
    for solution in solutions {
        if solution.fact == place {
            return true;
        }
    }
    false
}

// The equation at a place is solved for its newest atom with the multiple 1 or -1, if it has one.
fn add_solution(solutions: &mut Vec<Solution>, place: u32, form: Form) -> Result<(), AllocError>
    ensures { IfOk result (λ _. solutions.new.items ≡ solutions.old.items ++ option_to_list (solved_for place form (newest None form.parts))) }
{
    match newest_unit(form.parts.as_slice()) {
        None => Ok(()),
        Some(part) => {
            solutions.push(Solution {
                fact: place,
                atom: part.atom,
                minus: part.coeff == -1,
                form,
            })?;
            Ok(())
        }
    }
}

// The last part whose multiple is 1 or -1.
fn newest_unit(parts: &[Part]) -> Option<Part>
    ensures { result ≡ newest None parts.now }
{
    let mut best = None;
    for part in parts {
        if part.coeff == 1 || part.coeff == -1 {
            best = Some(*part);
        }
    }
    best
}
