ghost use Rattle.std.specs.Prelude.{◌≡◌, ◌≤◌, ◌<◌, ◌+◌, ◌^◌, ℕ, ℤ, pos, negsuc, [], true, replicate, length, slice_get, None, Some, Ok, IfOk, IfSome};
ghost use Rattle.std.specs.List.{All};
ghost use Rattle.pl_forms.specs.Forms.{IsForm};
ghost use Rattle.pl_forms.specs.Facts.{IsFact, MeetsAll};
ghost use Rattle.pl_forms.specs.Equations.{AreSolutions, Follow};
ghost use Rattle.pl_forms.specs.Places.{Within, AllWithin, AllSolvedWithin};
ghost use Rattle.pl_forms.specs.Goals.{goal_of, IsGoal, GoalWithin, Says};
ghost use Rattle.pl_forms.specs.Rows.{Added, then_more, form_times};
ghost use Rattle.pl_forms.specs.Solving.{solved};
ghost use Rattle.pl_linear.specs.Certificates.{all_zero, add_eqs};
ghost use Rattle.pl_linear.specs.Decisions.{with_zero};
ghost use Rattle.pl_linear.specs.Witnesses.{is_strict, all_strict, row_with, is_none, is_other, is_some_constant, row_beside, shows_below, shows_zero, is_known, known_at, shows_apart, behind, below_at, both_at, equal_at, absurd_by, apart_by, apart_at, plain_at, truth_at, witness, Confirms};

use crate::certificate::{add_all, checks, does_count};
use crate::deciding::with_zero;
use crate::ends::opposite_of;
use pl_base::Memory;
use pl_forms::{
    CertItem, EqTerm, Eqs, Fact, Facts, Form, Goal, Group, Shape, Solution, TermError, add_form,
    assume,
};
use std::alloc::{AllocError, Global};

/// How many of the groups are a witness of a duty; none where no first groups are one.
///
/// A part `t <= 0` has a certificate, `t == 0` multiples of solved equations that add to its opposite, or two certificates,
/// and `t != 0` multiples that lead to a constant other than 0 or, up to sign, to a disequality that counts, or a certificate of
/// `1 <= 0` where `t == 0` is known too. The parts' groups stand in order.
pub fn confirms(
    alloc: Global,
    groups: &[Group],
    facts: &Facts,
    goal: &Goal,
    atoms: u32,
) -> Result<Option<u32>, TermError>
    requires groups { length groups.now < 2 ^ 32 }
    requires facts { All IsFact facts.now.list }
    requires few { length facts.now.list ≤ 1024 }
    requires goal { IsGoal (goal_of goal.now) }
    requires fact_atoms { AllWithin (atoms + 1) facts.now.list }
    requires goal_atoms { GoalWithin (atoms + 1) (goal_of goal.now) }
    ensures exact { Confirms result (witness facts.now.list atoms (goal_of goal.now) groups.now 0) }
    // What is confirmed is so at all whole numbers that meet the facts.
    ensures law { IfOk result (λ n. IfSome n (λ _. (v : ℕ → ℤ) → MeetsAll v facts.now.list → Says v (goal_of goal.now) true)) }
{
    confirm(alloc, groups, 0, facts, goal, atoms)
}

// The place behind a witness of a duty that begins at a place.
fn confirm(
    alloc: Global,
    groups: &[Group],
    at: u32,
    facts: &Facts,
    goal: &Goal,
    atoms: u32,
) -> Result<Option<u32>, TermError>
    requires groups { length groups.now < 2 ^ 32 }
    requires facts { All IsFact facts.now.list }
    requires few { length facts.now.list ≤ 1024 }
    requires goal { IsGoal (goal_of goal.now) }
    requires fact_atoms { AllWithin (atoms + 1) facts.now.list }
    requires goal_atoms { GoalWithin (atoms + 1) (goal_of goal.now) }
    ensures { Confirms result (witness facts.now.list atoms (goal_of goal.now) groups.now at) }
{
    match goal {
        Goal::Truth(form, truth) => confirm_truth(alloc, groups, at, facts, form, *truth, atoms),
        Goal::Plain(shape, form) => confirm_plain(alloc, groups, at, facts, *shape, form, atoms),
        Goal::Both(first, second) => match confirm(alloc, groups, at, facts, first, atoms)? {
            None => Ok(None),
            Some(next) => confirm(alloc, groups, next, facts, second, atoms),
        },
        Goal::Either(first, second) => {
            let mut longer = facts.copy(alloc)?;
            assume(alloc, first, false, None, &mut longer)?;
            confirm(alloc, groups, at, &longer, second, atoms)
        }
        Goal::When(guard, inner) => {
            let mut longer = facts.copy(alloc)?;
            let condition = Goal::Truth(guard.copy(alloc)?, true);
            assume(alloc, &condition, true, None, &mut longer)?;
            confirm(alloc, groups, at, &longer, inner, atoms)
        }
    }
}

// A boolean is 1, or 0.
fn confirm_truth(
    alloc: Global,
    groups: &[Group],
    at: u32,
    facts: &Facts,
    form: &Form,
    truth: bool,
    atoms: u32,
) -> Result<Option<u32>, TermError>
    requires groups { length groups.now < 2 ^ 32 }
    requires facts { All IsFact facts.now.list }
    requires few { length facts.now.list ≤ 1024 }
    requires form { IsForm form.now }
    requires fact_atoms { AllWithin (atoms + 1) facts.now.list }
    requires form_atoms { Within (atoms + 1) form.now }
    ensures { Confirms result (truth_at facts.now.list atoms form.now truth groups.now at) }
{
    if !truth {
        return confirm_plain(alloc, groups, at, facts, Shape::Zero, form, atoms);
    }
    let one = Form::of_constant(alloc, 1);
    let less = Form::add_multiple(alloc, form, -1, &one)?;
    confirm_plain(alloc, groups, at, facts, Shape::Zero, &less, atoms)
}

// A comparison, by the facts' own equations.
fn confirm_plain(
    alloc: Global,
    groups: &[Group],
    at: u32,
    facts: &Facts,
    shape: Shape,
    form: &Form,
    atoms: u32,
) -> Result<Option<u32>, TermError>
    requires groups { length groups.now < 2 ^ 32 }
    requires facts { All IsFact facts.now.list }
    requires few { length facts.now.list ≤ 1024 }
    requires form { IsForm form.now }
    requires fact_atoms { AllWithin (atoms + 1) facts.now.list }
    requires form_atoms { Within (atoms + 1) form.now }
    ensures { Confirms result (plain_at facts.now.list atoms shape form.now groups.now at) }
{
    let eqs = Eqs::of(alloc, facts)?;
    match shape {
        Shape::Zero => Ok(confirm_equal(alloc, groups, at, &eqs, facts, form, atoms)?),
        Shape::Below => Ok(confirm_below(alloc, groups, at, &eqs, facts, form, atoms)?),
        Shape::Differs => confirm_apart(alloc, groups, at, &eqs, facts, form, atoms),
    }
}

fn confirm_below(
    alloc: Global,
    groups: &[Group],
    at: u32,
    eqs: &Eqs,
    facts: &Facts,
    form: &Form,
    atoms: u32,
) -> Result<Option<u32>, Memory>
    requires groups { length groups.now < 2 ^ 32 }
    requires eqs { AreSolutions eqs.now.solved }
    requires facts { All IsFact facts.now.list }
    requires follow { Follow eqs.now.solved facts.now.list }
    requires eqs_atoms { AllSolvedWithin (atoms + 1) eqs.now.solved }
    requires fact_atoms { AllWithin (atoms + 1) facts.now.list }
    requires form_atoms { Within (atoms + 1) form.now }
    ensures { IfOk result (λ o. o ≡ below_at eqs.now.solved facts.now.list atoms form.now (slice_get groups.now at) at) }
{
    match groups.get(at as usize) {
        None => Ok(None),
        Some(group) => {
            let shown = shows_below(alloc, group, eqs, facts, form, atoms)?;
            Ok(behind(shown, at))
        }
    }
}

// A certificate, each of whose items has its multiples of equations in the order of solving.
fn shows_below(
    alloc: Global,
    group: &Group,
    eqs: &Eqs,
    facts: &Facts,
    form: &Form,
    atoms: u32,
) -> Result<bool, Memory>
    requires eqs { AreSolutions eqs.now.solved }
    requires facts { All IsFact facts.now.list }
    requires follow { Follow eqs.now.solved facts.now.list }
    requires eqs_atoms { AllSolvedWithin (atoms + 1) eqs.now.solved }
    requires fact_atoms { AllWithin (atoms + 1) facts.now.list }
    requires form_atoms { Within (atoms + 1) form.now }
    ensures { IfOk result (λ b. b ≡ shows_below eqs.now.solved facts.now.list atoms form.now group.now) }
{
    match group {
        Group::Cert(cert) => {
            if !all_strict(eqs.solved.as_slice(), cert.items.as_slice()) {
                return Ok(false);
            }
            checks(alloc, cert, eqs, facts, form, atoms)
        }
        _ => Ok(false),
    }
}

fn all_strict(eqs: &[Solution], items: &[CertItem]) -> bool
    ensures { result ≡ all_strict eqs.now items.now }
{
    for item in items {
        if !is_strict(eqs, item.eqs.as_slice()) {
            return false;
        }
    }
    true
}

// Whether multiples stand in the order of solving, each equation at most once and never 0 times.
fn is_strict(eqs: &[Solution], terms: &[EqTerm]) -> bool
    ensures { result ≡ is_strict eqs.now terms.now }
{
    let mut next = 0;
    for eq in eqs {
        if next >= terms.len() {
            return true;
        }
        if eq.fact == terms[next].fact {
            if terms[next].times == 0 {
                return false;
            }
            next += 1;
        }
    }
    next == terms.len()
}

// One group, or two certificates.
fn confirm_equal(
    alloc: Global,
    groups: &[Group],
    at: u32,
    eqs: &Eqs,
    facts: &Facts,
    form: &Form,
    atoms: u32,
) -> Result<Option<u32>, Memory>
    requires groups { length groups.now < 2 ^ 32 }
    requires eqs { AreSolutions eqs.now.solved }
    requires facts { All IsFact facts.now.list }
    requires follow { Follow eqs.now.solved facts.now.list }
    requires form { IsForm form.now }
    requires eqs_atoms { AllSolvedWithin (atoms + 1) eqs.now.solved }
    requires fact_atoms { AllWithin (atoms + 1) facts.now.list }
    requires form_atoms { Within (atoms + 1) form.now }
    ensures { IfOk result (λ o. o ≡ equal_at eqs.now.solved facts.now.list atoms form.now groups.now (slice_get groups.now at) at) }
{
    match groups.get(at as usize) {
        None => Ok(None),
        Some(group) => {
            if shows_zero(alloc, group, eqs.solved.as_slice(), form, atoms)? {
                Ok(Some(at + 1))
            } else {
                confirm_both(alloc, groups, at, eqs, facts, form, atoms)
            }
        }
    }
}

// Two certificates.
fn confirm_both(
    alloc: Global,
    groups: &[Group],
    at: u32,
    eqs: &Eqs,
    facts: &Facts,
    form: &Form,
    atoms: u32,
) -> Result<Option<u32>, Memory>
    requires groups { length groups.now < 2 ^ 32 }
    requires eqs { AreSolutions eqs.now.solved }
    requires facts { All IsFact facts.now.list }
    requires follow { Follow eqs.now.solved facts.now.list }
    requires form { IsForm form.now }
    requires eqs_atoms { AllSolvedWithin (atoms + 1) eqs.now.solved }
    requires fact_atoms { AllWithin (atoms + 1) facts.now.list }
    requires form_atoms { Within (atoms + 1) form.now }
    ensures { IfOk result (λ o. o ≡ both_at eqs.now.solved facts.now.list atoms form.now groups.now at) }
{
    match confirm_below(alloc, groups, at, eqs, facts, form, atoms)? {
        None => Ok(None),
        Some(next) => {
            let opposite = opposite_of(alloc, form)?;
            confirm_below(alloc, groups, next, eqs, facts, &opposite, atoms)
        }
    }
}

fn shows_zero(
    alloc: Global,
    group: &Group,
    eqs: &[Solution],
    form: &Form,
    atoms: u32,
) -> Result<bool, Memory>
    requires eqs_atoms { AllSolvedWithin (atoms + 1) eqs.now }
    requires form_atoms { Within (atoms + 1) form.now }
    ensures { IfOk result (λ b. b ≡ shows_zero eqs.now atoms form.now group.now) }
{
    match group {
        Group::Eqs(terms) => {
            if !is_strict(eqs, terms.as_slice()) {
                return Ok(false);
            }
            leads_to_zero(alloc, eqs, form, terms.as_slice(), atoms)
        }
        _ => Ok(false),
    }
}

// A form and multiples of solved equations are added.
fn add_with(row: &mut [i128], eqs: &[Solution], form: &Form, terms: &[EqTerm]) -> bool
    requires some { 0 < length row.old }
    requires eqs_atoms { AllSolvedWithin (length row.old) eqs.now }
    requires form_atoms { Within (length row.old) form.now }
    ensures { Added result row.new (then_more (form_times (pos 1) form.now row.old) (λ d. add_eqs eqs.now terms.now d)) }
{
    add_form(row, 1, form) && add_all(row, terms, eqs)
}

fn is_nought(row: &[i128]) -> bool
    ensures { result ≡ all_zero row.now }
{
    for c in row {
        if *c != 0 {
            return false;
        }
    }
    true
}

fn confirm_apart(
    alloc: Global,
    groups: &[Group],
    at: u32,
    eqs: &Eqs,
    facts: &Facts,
    form: &Form,
    atoms: u32,
) -> Result<Option<u32>, TermError>
    requires groups { length groups.now < 2 ^ 32 }
    requires eqs { AreSolutions eqs.now.solved }
    requires facts { All IsFact facts.now.list }
    requires few { length facts.now.list ≤ 1024 }
    requires form { IsForm form.now }
    requires eqs_atoms { AllSolvedWithin (atoms + 1) eqs.now.solved }
    requires fact_atoms { AllWithin (atoms + 1) facts.now.list }
    requires form_atoms { Within (atoms + 1) form.now }
    ensures { Confirms result (apart_at eqs.now.solved facts.now.list atoms form.now (slice_get groups.now at) at) }
{
    match groups.get(at as usize) {
        None => Ok(None),
        Some(group) => confirm_apart_by(alloc, group, at, eqs, facts, form, atoms),
    }
}

// By one group.
fn confirm_apart_by(
    alloc: Global,
    group: &Group,
    at: u32,
    eqs: &Eqs,
    facts: &Facts,
    form: &Form,
    atoms: u32,
) -> Result<Option<u32>, TermError>
    requires at { at + 1 < 2 ^ 32 }
    requires eqs { AreSolutions eqs.now.solved }
    requires facts { All IsFact facts.now.list }
    requires few { length facts.now.list ≤ 1024 }
    requires form { IsForm form.now }
    requires eqs_atoms { AllSolvedWithin (atoms + 1) eqs.now.solved }
    requires fact_atoms { AllWithin (atoms + 1) facts.now.list }
    requires form_atoms { Within (atoms + 1) form.now }
    ensures { Confirms result (apart_by eqs.now.solved facts.now.list atoms form.now group.now at) }
{
    match group {
        Group::Cert(_) => {
            let longer = with_zero(alloc, facts, form)?;
            confirm_absurd(alloc, group, at, &longer, atoms)
        }
        _ => {
            let list = facts.list.as_slice();
            let shown = shows_apart(alloc, group, eqs.solved.as_slice(), list, form, atoms)?;
            Ok(behind(shown, at))
        }
    }
}

fn behind(shown: bool, at: u32) -> Option<u32>
    requires { at + 1 < 2 ^ 32 }
    ensures { result ≡ behind shown at }
{
    if shown { Some(at + 1) } else { None }
}

// A certificate of `1 <= 0`.
fn confirm_absurd(
    alloc: Global,
    group: &Group,
    at: u32,
    facts: &Facts,
    atoms: u32,
) -> Result<Option<u32>, TermError>
    requires at { at + 1 < 2 ^ 32 }
    requires facts { All IsFact facts.now.list }
    requires few { length facts.now.list ≤ 1024 }
    requires fact_atoms { AllWithin (atoms + 1) facts.now.list }
    ensures { Confirms result (absurd_by (solved facts.now.list) facts.now.list atoms group.now at) }
{
    let eqs = Eqs::of(alloc, facts)?;
    let one = Form::of_constant(alloc, 1);
    let shown = shows_below(alloc, group, &eqs, facts, &one, atoms)?;
    Ok(behind(shown, at))
}

fn shows_apart(
    alloc: Global,
    group: &Group,
    eqs: &[Solution],
    facts: &[Fact],
    form: &Form,
    atoms: u32,
) -> Result<bool, Memory>
    requires eqs { AreSolutions eqs.now }
    requires facts { All IsFact facts.now }
    requires eqs_atoms { AllSolvedWithin (atoms + 1) eqs.now }
    requires fact_atoms { AllWithin (atoms + 1) facts.now }
    requires form_atoms { Within (atoms + 1) form.now }
    ensures { IfOk result (λ b. b ≡ shows_apart eqs.now facts.now atoms form.now group.now) }
{
    match group {
        Group::Constant(terms) => {
            if !is_strict(eqs, terms.as_slice()) {
                return Ok(false);
            }
            leads_to_constant(alloc, eqs, form, terms.as_slice(), atoms)
        }
        Group::Differs(place, terms) => {
            if !is_strict(eqs, terms.as_slice()) {
                return Ok(false);
            }
            match facts.get(*place as usize) {
                None => Ok(false),
                Some(fact) => leads_to_fact(alloc, eqs, form, terms.as_slice(), fact, atoms),
            }
        }
        _ => Ok(false),
    }
}

fn zero_row(alloc: Global, atoms: u32) -> Result<Vec<i128>, AllocError>
    ensures is { IfOk result (λ v. v.items ≡ replicate (atoms + 1) (pos 0)) }
    ensures long { IfOk result (λ v. length v.items ≡ atoms + 1) }
{
    vec![in alloc; 0; atoms as usize + 1]
}

fn leads_to_zero(
    alloc: Global,
    eqs: &[Solution],
    form: &Form,
    terms: &[EqTerm],
    atoms: u32,
) -> Result<bool, Memory>
    requires eqs_atoms { AllSolvedWithin (atoms + 1) eqs.now }
    requires form_atoms { Within (atoms + 1) form.now }
    ensures { IfOk result (λ b. b ≡ is_none (row_with eqs.now atoms form.now terms.now)) }
{
    let mut row = zero_row(alloc, atoms)?;
    if !add_with(&mut row, eqs, form, terms) {
        return Ok(false);
    }
    Ok(is_nought(&row))
}

fn leads_to_constant(
    alloc: Global,
    eqs: &[Solution],
    form: &Form,
    terms: &[EqTerm],
    atoms: u32,
) -> Result<bool, Memory>
    requires eqs_atoms { AllSolvedWithin (atoms + 1) eqs.now }
    requires form_atoms { Within (atoms + 1) form.now }
    ensures { IfOk result (λ b. b ≡ is_some_constant (row_with eqs.now atoms form.now terms.now)) }
{
    let mut row = zero_row(alloc, atoms)?;
    if !add_with(&mut row, eqs, form, terms) {
        return Ok(false);
    }
    Ok(is_other(&row))
}

// A constant other than 0.
fn is_other(row: &[i128]) -> bool
    ensures { result ≡ is_other row.now }
{
    match row {
        [] => false,
        [constant, rest @ ..] => *constant != 0 && is_nought(rest),
    }
}

// A disequality that counts, or its opposite.
fn leads_to_fact(
    alloc: Global,
    eqs: &[Solution],
    form: &Form,
    terms: &[EqTerm],
    fact: &Fact,
    atoms: u32,
) -> Result<bool, Memory>
    requires eqs { AreSolutions eqs.now }
    requires fact { IsFact fact.now }
    requires eqs_atoms { AllSolvedWithin (atoms + 1) eqs.now }
    requires fact_atoms { Within (atoms + 1) fact.now.form }
    requires form_atoms { Within (atoms + 1) form.now }
    ensures { IfOk result (λ b. b ≡ is_known eqs.now atoms form.now terms.now fact.now.shape fact.now) }
{
    match fact.shape {
        Shape::Zero => Ok(false),
        Shape::Below => Ok(false),
        Shape::Differs => {
            if !does_count(alloc, fact, eqs)? {
                return Ok(false);
            }
            if leads_to(alloc, eqs, form, terms, -1, &fact.form, atoms)? {
                return Ok(true);
            }
            leads_to(alloc, eqs, form, terms, 1, &fact.form, atoms)
        }
    }
}

// Nothing is left where so often another form is added.
fn leads_to(
    alloc: Global,
    eqs: &[Solution],
    form: &Form,
    terms: &[EqTerm],
    times: i128,
    other: &Form,
    atoms: u32,
) -> Result<bool, Memory>
    requires eqs_atoms { AllSolvedWithin (atoms + 1) eqs.now }
    requires form_atoms { Within (atoms + 1) form.now }
    requires other_atoms { Within (atoms + 1) other.now }
    ensures { IfOk result (λ b. b ≡ is_none (row_beside eqs.now atoms form.now terms.now times other.now)) }
{
    let mut row = zero_row(alloc, atoms)?;
    if !add_with(&mut row, eqs, form, terms) {
        return Ok(false);
    }
    if !add_form(&mut row, times, other) {
        return Ok(false);
    }
    Ok(is_nought(&row))
}
