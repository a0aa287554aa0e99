// Hints of assertions.
ghost use Rattle.std.specs.Prelude.{◌≡◌, ℕ, ℤ, pos, ◌+◌, ◌*◌, ◌≤◌, ◌<◌, ◌^◌, None, [], ◌∷◌, ◌++◌, true, replicate, length, Ok, IfOk};
ghost use Rattle.std.specs.List.{All};
ghost use Rattle.pl_forms.specs.Forms.{IsForm};
ghost use Rattle.pl_forms.specs.Facts.{IsFact, MeetsAll};
ghost use Rattle.pl_forms.specs.Equations.{AreSolutions, Follow, reduced};
ghost use Rattle.pl_forms.specs.Places.{Within, AllWithin, AllSolvedWithin};
ghost use Rattle.pl_forms.specs.Tightening.{common};
ghost use Rattle.pl_forms.specs.Goals.{goal_of, IsGoal, GoalWithin, Says};
ghost use Rattle.pl_forms.specs.Rows.{Added};
ghost use Rattle.pl_linear.specs.Certificates.{closing};
ghost use Rattle.pl_linear.specs.Hints.{past, has_label, newest, is_known, are_known, writes_goal, with_goal, fact_term, goal_term, at_least_one, with_shape, with_place, with_term, all_written, own_row, add_own, add_all_own, items_of, HintDone, told, judged, by_labels, by_negated, by_solved, hinted, Hints, Listed, Writes, IfShown, IsShownBy};
ghost use Rattle.pl_linear.specs.HintRule.{by_rule};

use crate::certificate::{add_all, checks, closes, fill, start};
use crate::finding::copy_item;
use pl_base::{Items, Memory, Name};
use pl_forms::{
    Cert, CertItem, EqTerm, Eqs, Fact, Facts, Form, Goal, Reduced, Shape, Solution, TermError,
    add_form, add_row, common_divisor, counts, reduce_with,
};
use std::alloc::{AllocError, Global};

const MOST_TIMES: u128 = 1_048_576;

const MOST_LABELS: u32 = 4_096;

/// A term of a hint: so often the newest fact with a label, or the negated goal where there is no label.
#[derive(Debug, Drop)]
pub struct HintTerm {
    pub times: u128,
    pub label: Option<Name>,
}

/// What becomes of a duty by a hint.
#[derive(Debug, Drop)]
pub enum Hinted {
    /// It is done, and this shows it.
    Done(Cert),
    /// The terms don't show it.
    Undone,
    /// This multiplier is past its limit.
    Multiplier(u128),
    /// So many terms with a label are past their limit.
    Terms(u32),
}

/// How often a term is written, and its item of a certificate.
#[derive(Debug, Drop)]
pub struct Written {
    pub times: i64,
    pub item: CertItem,
}

/// What becomes of a duty by a hint: nothing is searched.
///
/// It is done where the written multiples of the newest facts with those labels, which are inequalities that count, each reduced
/// and tightened, and of the negated goal, which is reduced alone, add to a positive constant. Where no multiple of the negated
/// goal is written, one is added. A hint serves a duty `t <= 0` alone. The limits come first, term by term.
pub fn by_hint(
    alloc: Global,
    hint: &[HintTerm],
    facts: &Facts,
    goal: &Goal,
    atoms: u32,
) -> Result<Hinted, TermError>
    requires facts { All IsFact facts.now.list }
    requires few { length facts.now.list ≤ 1024 }
    requires goal { IsGoal (goal_of goal.now) }
    requires fact_atoms { AllWithin (atoms + 1) facts.now.list }
    requires goal_atoms { GoalWithin (atoms + 1) (goal_of goal.now) }
    ensures exact { Hints result (hinted facts.now.list atoms (goal_of goal.now) hint.now) }
    // A hint of at most 2^24 terms is done exactly where its own sum is a positive constant.
    ensures rule { length hint.now ≤ 2 ^ 24 → Hints result (by_rule facts.now.list atoms (goal_of goal.now) hint.now) }
    ensures certificate { IfOk result (λ h. IfShown h (IsShownBy facts.now.list atoms (goal_of goal.now))) }
    // What a hint shows is so at all whole numbers that meet the facts.
    ensures law { IfOk result (λ h. IfShown h (λ _. (v : ℕ → ℤ) → MeetsAll v facts.now.list → Says v (goal_of goal.now) true)) }
{
    outcome(alloc, hint, facts, goal, atoms)
}

fn outcome(
    alloc: Global,
    hint: &[HintTerm],
    facts: &Facts,
    goal: &Goal,
    atoms: u32,
) -> Result<Hinted, TermError>
    requires facts { All IsFact facts.now.list }
    requires few { length facts.now.list ≤ 1024 }
    requires goal { IsGoal (goal_of goal.now) }
    requires fact_atoms { AllWithin (atoms + 1) facts.now.list }
    requires goal_atoms { GoalWithin (atoms + 1) (goal_of goal.now) }
    ensures { Hints result (hinted facts.now.list atoms (goal_of goal.now) hint.now) }
{
    if let Some(limit) = past_limit(hint) {
        return Ok(limit);
    }
    match goal {
        Goal::Plain(Shape::Below, form) => by_labels(alloc, hint, facts, form, atoms),
        _ => Ok(Hinted::Undone),
    }
}

// The first limit that is passed.
fn past_limit(hint: &[HintTerm]) -> Option<Hinted>
    ensures { result ≡ past hint.now 0 }
{
    let mut labels: u32 = 0;
    for term in hint {
        if term.times > MOST_TIMES {
            return Some(Hinted::Multiplier(term.times));
        }
        if term.label.is_some() {
            if labels == MOST_LABELS {
                return Some(Hinted::Terms(4_097));
            }
            labels += 1;
        }
    }
    None
}

// .. where each label is that of a fact.
fn by_labels(
    alloc: Global,
    hint: &[HintTerm],
    facts: &Facts,
    form: &Form,
    atoms: u32,
) -> Result<Hinted, TermError>
    requires times { All (λ t. t.times ≤ 2 ^ 20) hint.now }
    requires facts { All IsFact facts.now.list }
    requires few { length facts.now.list ≤ 1024 }
    requires form { IsForm form.now }
    requires fact_atoms { AllWithin (atoms + 1) facts.now.list }
    requires form_atoms { Within (atoms + 1) form.now }
    ensures { Hints result (by_labels (are_known facts.now.list hint.now) facts.now.list atoms form.now hint.now) }
{
    if !are_known(facts.list.as_slice(), hint) {
        return Ok(Hinted::Undone);
    }
    let eqs = Eqs::of(alloc, facts)?;
    by_solved(alloc, hint, &eqs, facts, form, atoms)
}

fn are_known(facts: &[Fact], hint: &[HintTerm]) -> bool
    requires { length facts.now ≤ 1024 }
    ensures { result ≡ are_known facts.now hint.now }
{
    for term in hint {
        if !is_known(facts, &term.label) {
            return false;
        }
    }
    true
}

fn is_known(facts: &[Fact], label: &Option<Name>) -> bool
    requires { length facts.now ≤ 1024 }
    ensures { result ≡ is_known facts.now label.now }
{
    match label {
        None => true,
        Some(name) => match newest(name, facts) {
            None => false,
            Some(_) => true,
        },
    }
}

// The place of the newest fact with a label.
fn newest(name: &Name, facts: &[Fact]) -> Option<u32>
    requires { length facts.now ≤ 1024 }
    ensures { result ≡ newest name.now 0 facts.now None }
{
    let mut found = None;
    for i in 0..facts.len() {
        if has_label(name, &facts[i].label) {
            found = Some(i as u32);
        }
    }
    found
}

fn has_label(name: &Name, label: &Option<Name>) -> bool
    ensures { result ≡ has_label name.now label.now }
{
    match label {
        None => false,
        Some(own) => own.same(name),
    }
}

// .. by the solved equations.
fn by_solved(
    alloc: Global,
    hint: &[HintTerm],
    eqs: &Eqs,
    facts: &Facts,
    form: &Form,
    atoms: u32,
) -> Result<Hinted, TermError>
    requires times { All (λ t. t.times ≤ 2 ^ 20) hint.now }
    requires eqs { AreSolutions eqs.now.solved }
    requires facts { All IsFact facts.now.list }
    requires few { length facts.now.list ≤ 1024 }
    requires follow { Follow eqs.now.solved facts.now.list }
    requires form { IsForm form.now }
    requires eqs_atoms { AllSolvedWithin (atoms + 1) eqs.now.solved }
    requires fact_atoms { AllWithin (atoms + 1) facts.now.list }
    requires form_atoms { Within (atoms + 1) form.now }
    ensures { Hints result (by_solved (Ok eqs.now.solved) facts.now.list atoms form.now hint.now) }
{
    let solved = eqs.solved.as_slice();
    let one = Form::of_constant(alloc, 1);
    let negated = Form::add_multiple(alloc, &one, -1, form)?;
    let reduced = reduce_with(alloc, solved, &negated)?;
    match all_written(alloc, hint, solved, facts.list.as_slice(), &reduced)? {
        None => Ok(Hinted::Undone),
        Some(written) => Ok(judge(alloc, &written, eqs, facts, form, atoms)?),
    }
}

// All terms, and the negated goal where it isn't written.
fn all_written(
    alloc: Global,
    hint: &[HintTerm],
    eqs: &[Solution],
    facts: &[Fact],
    negated: &Reduced,
) -> Result<Option<Vec<Written>>, TermError>
    requires times { All (λ t. t.times ≤ 2 ^ 20) hint.now }
    requires eqs { AreSolutions eqs.now }
    requires facts { All IsFact facts.now }
    requires few { length facts.now ≤ 1024 }
    requires negated { IsForm negated.now.form }
    ensures { Listed result (all_written eqs.now facts.now (common 0 negated.now.form.parts) negated.now.terms hint.now) }
{
    let divisor = common_divisor(negated.form.parts.as_slice());
    let mut out = Vec::new(alloc);
    for term in hint {
        if !write(
            alloc,
            &mut out,
            term,
            eqs,
            facts,
            divisor,
            negated.terms.as_slice(),
        )? {
            return Ok(None);
        }
    }
    if !writes_goal(hint) {
        out.push(goal_term(alloc, 1, divisor, negated.terms.as_slice())?)?;
    }
    Ok(Some(out))
}

fn writes_goal(hint: &[HintTerm]) -> bool
    ensures { result ≡ writes_goal hint.now }
{
    for term in hint {
        if term.label.is_none() {
            return true;
        }
    }
    false
}

// One term; one with multiplier 0 adds nothing.
fn write(
    alloc: Global,
    out: &mut Vec<Written>,
    term: &HintTerm,
    eqs: &[Solution],
    facts: &[Fact],
    divisor: u128,
    terms: &[EqTerm],
) -> Result<bool, TermError>
    requires times { term.now.times ≤ 2 ^ 20 }
    requires eqs { AreSolutions eqs.now }
    requires facts { All IsFact facts.now }
    requires few { length facts.now ≤ 1024 }
    requires divisor { divisor ≤ 2 ^ 40 }
    ensures { Writes result out.new.items (with_term eqs.now facts.now divisor terms.now out.old.items term.now) }
{
    if term.times == 0 {
        return Ok(true);
    }
    match &term.label {
        None => {
            out.push(goal_term(alloc, term.times, divisor, terms)?)?;
            Ok(true)
        }
        Some(name) => write_fact(alloc, out, newest(name, facts), term.times, eqs, facts),
    }
}

// A multiple of the negated goal, which a certificate has tightened.
fn goal_term(
    alloc: Global,
    times: u128,
    divisor: u128,
    terms: &[EqTerm],
) -> Result<Written, AllocError>
    requires times { times ≤ 2 ^ 20 }
    requires divisor { divisor ≤ 2 ^ 40 }
    ensures { IfOk result (λ w. w ≡ goal_term times divisor terms.now) }
{
    let mut eqs = Vec::new(alloc);
    eqs.extend_from_slice(terms)?;
    Ok(Written {
        times: times as i64,
        item: CertItem {
            times: so_often(times, divisor),
            fact: None,
            back: false,
            eqs: Items::of(eqs),
        },
    })
}

fn so_often(times: u128, divisor: u128) -> i64
    requires times { times ≤ 2 ^ 20 }
    requires divisor { divisor ≤ 2 ^ 40 }
    ensures { result ≡ pos (times * at_least_one divisor) }
{
    if divisor > 1 {
        (times as i64) * (divisor as i64)
    } else {
        times as i64
    }
}

// A multiple of the fact at a place, if that is an inequality that counts.
fn write_fact(
    alloc: Global,
    out: &mut Vec<Written>,
    place: Option<u32>,
    times: u128,
    eqs: &[Solution],
    facts: &[Fact],
) -> Result<bool, TermError>
    requires times { times ≤ 2 ^ 20 }
    requires eqs { AreSolutions eqs.now }
    requires facts { All IsFact facts.now }
    ensures { Writes result out.new.items (with_place eqs.now facts.now out.old.items times place) }
{
    match place {
        None => Ok(false),
        Some(place) => match facts.get(place as usize) {
            None => Ok(false),
            Some(fact) => write_counted(alloc, out, place, times, eqs, fact),
        },
    }
}

fn write_counted(
    alloc: Global,
    out: &mut Vec<Written>,
    place: u32,
    times: u128,
    eqs: &[Solution],
    fact: &Fact,
) -> Result<bool, TermError>
    requires times { times ≤ 2 ^ 20 }
    requires eqs { AreSolutions eqs.now }
    requires fact { IsFact fact.now }
    ensures { Writes result out.new.items (with_shape fact.now.shape eqs.now out.old.items times place fact.now) }
{
    match fact.shape {
        Shape::Zero => Ok(false),
        Shape::Differs => Ok(false),
        Shape::Below => {
            if !counts(alloc, eqs, &fact.guard)? {
                return Ok(false);
            }
            let reduced = reduce_with(alloc, eqs, &fact.form)?;
            let Reduced { form: _, terms } = reduced;
            out.push(fact_term(times, place, terms))?;
            Ok(true)
        }
    }
}

fn fact_term(times: u128, place: u32, terms: Items<EqTerm>) -> Written
    requires times { times ≤ 2 ^ 20 }
    ensures { result ≡ fact_term times place terms }
{
    Written {
        times: times as i64,
        item: CertItem {
            times: times as i64,
            fact: Some(place),
            back: false,
            eqs: terms,
        },
    }
}

// The terms add to a positive constant, and their items are a certificate.
fn judge(
    alloc: Global,
    written: &[Written],
    eqs: &Eqs,
    facts: &Facts,
    form: &Form,
    atoms: u32,
) -> Result<Hinted, Memory>
    requires eqs { AreSolutions eqs.now.solved }
    requires facts { All IsFact facts.now.list }
    requires follow { Follow eqs.now.solved facts.now.list }
    requires eqs_atoms { AllSolvedWithin (atoms + 1) eqs.now.solved }
    requires fact_atoms { AllWithin (atoms + 1) facts.now.list }
    requires form_atoms { Within (atoms + 1) form.now }
    ensures { IfOk result (λ h. h ≡ told (HintDone eqs.now.solved facts.now.list atoms form.now written.now) (items_of written.now)) }
{
    let solved = eqs.solved.as_slice();
    if !adds_up(alloc, written, solved, facts.list.as_slice(), form, atoms)? {
        return Ok(Hinted::Undone);
    }
    let cert = cert_of(alloc, written)?;
    if !checks(alloc, &cert, eqs, facts, form, atoms)? {
        return Ok(Hinted::Undone);
    }
    Ok(Hinted::Done(cert))
}

fn cert_of(alloc: Global, written: &[Written]) -> Result<Cert, AllocError>
    ensures { IfOk result (λ c. c.items ≡ items_of written.now) }
{
    let mut items = Vec::new(alloc);
    for entry in written {
        let item = copy_item(alloc, &entry.item)?;
        items.push(item)?;
    }
    Ok(Cert {
        items: Items::of(items),
    })
}

fn adds_up(
    alloc: Global,
    written: &[Written],
    eqs: &[Solution],
    facts: &[Fact],
    goal: &Form,
    atoms: u32,
) -> Result<bool, Memory>
    requires eqs { AreSolutions eqs.now }
    requires facts { All IsFact facts.now }
    requires eqs_atoms { AllSolvedWithin (atoms + 1) eqs.now }
    requires fact_atoms { AllWithin (atoms + 1) facts.now }
    requires goal_atoms { Within (atoms + 1) goal.now }
    ensures { IfOk result (λ b. b ≡ closing (add_all_own eqs.now facts.now goal.now written.now (replicate (atoms + 1) (pos 0)))) }
{
    let mut total = vec![in alloc; 0; atoms as usize + 1]?;
    for entry in written {
        if !add_own(alloc, &mut total, entry, eqs, facts, goal)? {
            return Ok(false);
        }
    }
    Ok(closes(&total))
}

// So often a term is added to the total.
fn add_own(
    alloc: Global,
    total: &mut [i128],
    entry: &Written,
    eqs: &[Solution],
    facts: &[Fact],
    goal: &Form,
) -> Result<bool, Memory>
    requires some { 0 < length total.old }
    requires eqs { AreSolutions eqs.now }
    requires facts { All IsFact facts.now }
    requires eqs_atoms { AllSolvedWithin (length total.old) eqs.now }
    requires fact_atoms { AllWithin (length total.old) facts.now }
    requires goal_atoms { Within (length total.old) goal.now }
    ensures { IfOk result (λ b. Added b total.new (add_own eqs.now facts.now goal.now entry.now total.old)) }
{
    let mut row = start(alloc, entry.item.fact, total.len())?;
    if !own_row(alloc, &mut row, &entry.item, eqs, facts, goal)? {
        return Ok(false);
    }
    Ok(add_row(total, i128::from(entry.times), &row))
}

// A fact reduced and tightened, or the negated goal reduced.
fn own_row(
    alloc: Global,
    row: &mut [i128],
    item: &CertItem,
    eqs: &[Solution],
    facts: &[Fact],
    goal: &Form,
) -> Result<bool, Memory>
    requires some { 0 < length row.old }
    requires eqs { AreSolutions eqs.now }
    requires facts { All IsFact facts.now }
    requires eqs_atoms { AllSolvedWithin (length row.old) eqs.now }
    requires fact_atoms { AllWithin (length row.old) facts.now }
    requires goal_atoms { Within (length row.old) goal.now }
    ensures { IfOk result (λ b. Added b row.new (own_row eqs.now facts.now goal.now item.now.fact item.now row.old)) }
{
    match item.fact {
        Some(_) => fill(alloc, row, item, eqs, facts, goal),
        None => Ok(add_form(row, -1, goal) && add_all(row, item.eqs.as_slice(), eqs)),
    }
}
