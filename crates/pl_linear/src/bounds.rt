// The inequalities that count, reduced and tightened, each with the item of a certificate that gives it.
ghost use Rattle.std.specs.Prelude.{◌≡◌, ℕ, ◌≤◌, ◌^◌, List, [], ◌++◌, pos, neg_ℤ, map, length, unsigned_abs, false, IfOk};
ghost use Rattle.std.specs.List.{All};
ghost use Rattle.pl_forms.specs.Forms.{IsForm, Small};
ghost use Rattle.pl_forms.specs.Facts.{IsFact};
ghost use Rattle.pl_forms.specs.Equations.{AreSolutions, AreNamed, counted};
ghost use Rattle.pl_forms.specs.Tightening.{tight_form};
ghost use Rattle.pl_linear.specs.Duty.{opposite_form, look, look_all, when_counted, negation, asked};
ghost use Rattle.pl_linear.specs.Bounds.{minus_term, back_once, bounds_of, forms_of, GivenBy, KeepsGiven, AreGiven, IsGiven, Bounded, Extended, BoundIs};

use crate::ends::opposite_of;
use pl_base::{Items, Memory};
use pl_forms::{
    CertItem, EqTerm, Fact, Form, Reduced, Shape, Solution, TermError, counts, reduce_with,
    tighten_form,
};
use std::alloc::{AllocError, Global};

/// An inequality, and the item of a certificate that gives it.
#[derive(Debug, Drop)]
pub struct Bound {
    pub form: Form,
    pub item: CertItem,
}

// The inequalities of all facts that count, and the negated goal.
pub fn bounds(
    alloc: Global,
    eqs: &[Solution],
    facts: &[Fact],
    goal: &Form,
) -> Result<Vec<Bound>, TermError>
    requires eqs { AreSolutions eqs.now }
    requires named { AreNamed eqs.now }
    requires facts { All IsFact facts.now }
    requires goal { IsForm goal.now }
    requires few { length facts.now ≤ 1024 }
    ensures exact { Bounded result (asked eqs.now facts.now goal.now) }
    ensures given { IfOk result (λ v. AreGiven eqs.now facts.now goal.now v.items) }
{
    let mut out = fact_bounds(alloc, eqs, facts)?;
    let last = negated_goal(alloc, eqs, goal)?;
    out.push(last)?;
    Ok(out)
}

// The inequalities of all facts that count.
fn fact_bounds(alloc: Global, eqs: &[Solution], facts: &[Fact]) -> Result<Vec<Bound>, TermError>
    requires eqs { AreSolutions eqs.now }
    requires named { AreNamed eqs.now }
    requires facts { All IsFact facts.now }
    requires few { length facts.now ≤ 1024 }
    ensures exact { Bounded result (look_all eqs.now [] facts.now) }
    ensures given { IfOk result (λ v. GivenBy eqs.now facts.now v.items) }
{
    let mut out = Vec::new(alloc);
    for i in 0..facts.len() {
        add_fact(alloc, &mut out, eqs, i as u32, &facts[i])?;
    }
    Ok(out)
}

// The inequalities of the fact at a place; a disequality has none, whether it counts or not.
fn add_fact(
    alloc: Global,
    out: &mut Vec<Bound>,
    eqs: &[Solution],
    place: u32,
    fact: &Fact,
) -> Result<(), TermError>
    requires eqs { AreSolutions eqs.now }
    requires named { AreNamed eqs.now }
    requires fact { IsFact fact.now }
    ensures exact { Extended result out.new.items (look eqs.now (forms_of out.old.items) fact.now.shape fact.now) }
    ensures given { IfOk result (λ _. KeepsGiven eqs.now place fact.now out.old.items out.new.items) }
{
    match fact.shape {
        Shape::Zero => add_counted(alloc, out, eqs, place, fact),
        Shape::Below => add_counted(alloc, out, eqs, place, fact),
        Shape::Differs => Ok(()),
    }
}

// .. of one that counts.
fn add_counted(
    alloc: Global,
    out: &mut Vec<Bound>,
    eqs: &[Solution],
    place: u32,
    fact: &Fact,
) -> Result<(), TermError>
    requires eqs { AreSolutions eqs.now }
    requires named { AreNamed eqs.now }
    requires fact { IsFact fact.now }
    ensures exact { Extended result out.new.items (when_counted eqs.now (forms_of out.old.items) fact.now.shape fact.now.form (counted eqs.now fact.now.guard)) }
    ensures given { IfOk result (λ _. KeepsGiven eqs.now place fact.now out.old.items out.new.items) }
{
    if !counts(alloc, eqs, &fact.guard)? {
        return Ok(());
    }
    let reduced = reduce_with(alloc, eqs, &fact.form)?;
    add_reduced(alloc, out, place, fact.shape, reduced)?;
    Ok(())
}

// .. of which this is the reduced form.
fn add_reduced(
    alloc: Global,
    out: &mut Vec<Bound>,
    place: u32,
    shape: Shape,
    reduced: Reduced,
) -> Result<(), Memory>
    requires form { IsForm reduced.form }
    requires sizes { All (λ t. unsigned_abs t.times ≤ 2 ^ 40) reduced.terms }
    ensures { IfOk result (λ _. out.new.items ≡ out.old.items ++ bounds_of shape place reduced.form reduced.terms) }
{
    let Reduced { form, terms } = reduced;
    match shape {
        Shape::Zero => {
            let reverse = backward(alloc, place, &form, terms.as_slice())?;
            out.push(forward(alloc, Some(place), &form, terms)?)?;
            out.push(reverse)?;
            Ok(())
        }
        Shape::Below => {
            out.push(forward(alloc, Some(place), &form, terms)?)?;
            Ok(())
        }
        Shape::Differs => Ok(()),
    }
}

// A reduced form that is at most 0, and its item.
fn forward(
    alloc: Global,
    fact: Option<u32>,
    form: &Form,
    terms: Items<EqTerm>,
) -> Result<Bound, Memory>
    requires { IsForm form.now }
    ensures { IfOk result (λ b. b ≡ record { form = tight_form form.now; item = record { times = pos 1; fact = fact; back = false; eqs = terms } }) }
{
    Ok(Bound {
        form: tighten_form(alloc, form)?,
        item: CertItem {
            times: 1,
            fact,
            back: false,
            eqs: terms,
        },
    })
}

// A reduced form that is at least 0, and the item of its reverse.
fn backward(alloc: Global, place: u32, form: &Form, terms: &[EqTerm]) -> Result<Bound, Memory>
    requires form { IsForm form.now }
    requires sizes { All (λ t. unsigned_abs t.times ≤ 2 ^ 40) terms.now }
    ensures { IfOk result (λ b. b ≡ record { form = tight_form (opposite_form form.now); item = back_once place terms.now }) }
{
    let opposite = opposite_of(alloc, form)?;
    let eqs = opposite_terms(alloc, terms)?;
    Ok(Bound {
        form: tighten_form(alloc, &opposite)?,
        item: CertItem {
            times: 1,
            fact: Some(place),
            back: true,
            eqs: Items::of(eqs),
        },
    })
}

fn opposite_terms(alloc: Global, terms: &[EqTerm]) -> Result<Vec<EqTerm>, AllocError>
    requires { All (λ t. unsigned_abs t.times ≤ 2 ^ 40) terms.now }
    ensures { IfOk result (λ v. v.items ≡ map minus_term terms.now) }
{
    let mut out = Vec::new(alloc);
    for term in terms {
        out.push(opposite_term(*term))?;
    }
    Ok(out)
}

fn opposite_term(term: EqTerm) -> EqTerm
    requires { unsigned_abs term.times ≤ 2 ^ 40 }
    ensures { result ≡ minus_term term }
{
    EqTerm {
        times: -term.times,
        fact: term.fact,
    }
}

// The negated goal.
fn negated_goal(alloc: Global, eqs: &[Solution], goal: &Form) -> Result<Bound, TermError>
    requires eqs { AreSolutions eqs.now }
    requires named { AreNamed eqs.now }
    requires goal { IsForm goal.now }
    ensures exact { BoundIs result (negation eqs.now goal.now) }
    ensures given { IfOk result (λ b. (facts : List Fact) → IsGiven eqs.now facts goal.now b) }
{
    let one = Form::of_constant(alloc, 1);
    let negated = Form::add_multiple(alloc, &one, -1, goal)?;
    let reduced = reduce_with(alloc, eqs, &negated)?;
    let Reduced { form, terms } = reduced;
    Ok(forward(alloc, None, &form, terms)?)
}
