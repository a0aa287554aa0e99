ghost use Rattle.std.specs.Prelude.{◌≡◌, ℕ, ℤ, pos, ◌+◌, ◌<◌, ◌≤◌, ◌^◌, length, true, ◌≤ℤ◌, slice_get, IfOk};
ghost use Rattle.std.specs.List.{All};
ghost use Rattle.pl_forms.specs.Rows.{Added};
ghost use Rattle.pl_forms.specs.Forms.{value, IsForm};
ghost use Rattle.pl_forms.specs.Facts.{IsFact, MeetsAll};
ghost use Rattle.pl_forms.specs.Equations.{AreSolutions, Follow, named};
ghost use Rattle.pl_forms.specs.Places.{Within, AllWithin, AllSolvedWithin};
ghost use Rattle.pl_linear.specs.Certificates.{is_counted, add_shape, add_fact, item_base, add_eqs, eq_times, item_row, finished, small, start_row, is_closed, add_one, is_certificate};

use pl_base::Memory;
use pl_forms::{
    Cert, CertItem, EqTerm, Eqs, Fact, Facts, Form, Shape, Solution, TermError, add_form, add_row,
    counts, tighten,
};
use std::alloc::{AllocError, Global};

/// Whether a certificate shows that the goal is at most 0 where the facts hold.
///
/// Each item is a fact that counts, the reverse of an equation that counts, or the negated goal, to which multiples of solved
/// equations are added, and which is then tightened. The items, each as often as it says, add to a positive constant; no number
/// on the way passes 2^126 in size.
pub fn checks(
    alloc: Global,
    cert: &Cert,
    eqs: &Eqs,
    facts: &Facts,
    goal: &Form,
    atoms: u32,
) -> Result<bool, Memory>
    requires eqs { AreSolutions eqs.now.solved }
    requires facts { All IsFact facts.now.list }
    requires follow { Follow eqs.now.solved facts.now.list }
    requires eqs_atoms { AllSolvedWithin (atoms + 1) eqs.now.solved }
    requires fact_atoms { AllWithin (atoms + 1) facts.now.list }
    requires goal_atoms { Within (atoms + 1) goal.now }
    ensures exact { IfOk result (λ b. b ≡ is_certificate eqs.now.solved facts.now.list goal.now cert.now.items atoms) }
    // Yes means that no whole numbers meet the facts and the negated goal.
    ensures law { IfOk result (λ b. b ≡ true → (v : ℕ → ℤ) → MeetsAll v facts.now.list → value v goal.now ≤ℤ pos 0) }
{
    let solved = eqs.solved.as_slice();
    add_up(alloc, cert, solved, facts.list.as_slice(), goal, atoms)
}

fn add_up(
    alloc: Global,
    cert: &Cert,
    eqs: &[Solution],
    facts: &[Fact],
    goal: &Form,
    atoms: u32,
) -> Result<bool, Memory>
    requires eqs { AreSolutions eqs.now }
    requires facts { All IsFact facts.now }
    requires eqs_atoms { AllSolvedWithin (atoms + 1) eqs.now }
    requires fact_atoms { AllWithin (atoms + 1) facts.now }
    requires goal_atoms { Within (atoms + 1) goal.now }
    ensures { IfOk result (λ b. b ≡ is_certificate eqs.now facts.now goal.now cert.now.items atoms) }
{
    let mut total = vec![in alloc; 0; atoms as usize + 1]?;
    for item in cert.items.as_slice() {
        if !add_item(alloc, &mut total, item, eqs, facts, goal)? {
            return Ok(false);
        }
    }
    Ok(closes(&total))
}

// A multiple of an item is added to the total.
fn add_item(
    alloc: Global,
    total: &mut [i128],
    item: &CertItem,
    eqs: &[Solution],
    facts: &[Fact],
    goal: &Form,
) -> Result<bool, Memory>
    requires some { 0 < length total.old }
    requires eqs { AreSolutions eqs.now }
    requires facts { All IsFact facts.now }
    requires eqs_atoms { AllSolvedWithin (length total.old) eqs.now }
    requires fact_atoms { AllWithin (length total.old) facts.now }
    requires goal_atoms { Within (length total.old) goal.now }
    ensures { IfOk result (λ b. Added b total.new (add_one eqs.now facts.now goal.now item.now total.old)) }
{
    if item.times < 1 {
        return Ok(false);
    }
    let mut row = start(alloc, item.fact, total.len())?;
    if !fill(alloc, &mut row, item, eqs, facts, goal)? {
        return Ok(false);
    }
    Ok(add_row(total, i128::from(item.times), &row))
}

// What a row begins with: the negated goal is 1 less the goal.
pub(crate) fn start(alloc: Global, fact: Option<u32>, len: usize) -> Result<Vec<i128>, AllocError>
    requires { 0 < len }
    ensures is { IfOk result (λ v. v.items ≡ start_row fact len) }
    ensures long { IfOk result (λ v. length v.items ≡ len) }
{
    let mut row = vec![in alloc; 0; len]?;
    if fact.is_none() {
        row[0] = 1;
    }
    Ok(row)
}

// The row of an item, tightened.
pub(crate) fn fill(
    alloc: Global,
    row: &mut [i128],
    item: &CertItem,
    eqs: &[Solution],
    facts: &[Fact],
    goal: &Form,
) -> Result<bool, Memory>
    requires some { 0 < length row.old }
    requires eqs { AreSolutions eqs.now }
    requires facts { All IsFact facts.now }
    requires eqs_atoms { AllSolvedWithin (length row.old) eqs.now }
    requires fact_atoms { AllWithin (length row.old) facts.now }
    requires goal_atoms { Within (length row.old) goal.now }
    ensures { IfOk result (λ b. Added b row.new (item_row eqs.now facts.now goal.now item.now row.old)) }
{
    if !base(alloc, row, item, eqs, facts, goal)? {
        return Ok(false);
    }
    Ok(finish(row, item.eqs.as_slice(), eqs))
}

// The multiples of the equations are added, and the row is tightened.
fn finish(row: &mut [i128], terms: &[EqTerm], eqs: &[Solution]) -> bool
    requires some { 0 < length row.old }
    requires eqs_atoms { AllSolvedWithin (length row.old) eqs.now }
    ensures { Added result row.new (finished eqs.now terms.now row.old) }
{
    if add_all(row, terms, eqs) && few(row) {
        tighten(row);
        return true;
    }
    false
}

// The fact of an item, or the negated goal.
fn base(
    alloc: Global,
    row: &mut [i128],
    item: &CertItem,
    eqs: &[Solution],
    facts: &[Fact],
    goal: &Form,
) -> Result<bool, Memory>
    requires some { 0 < length row.old }
    requires eqs { AreSolutions eqs.now }
    requires facts { All IsFact facts.now }
    requires fact_atoms { AllWithin (length row.old) facts.now }
    requires goal_atoms { Within (length row.old) goal.now }
    ensures { IfOk result (λ b. Added b row.new (item_base eqs.now facts.now goal.now item.now.fact item.now.back row.old)) }
{
    match item.fact {
        None => Ok(!item.back && add_form(row, -1, goal)),
        Some(i) => match facts.get(i as usize) {
            Some(fact) => base_fact(alloc, row, fact, item.back, eqs),
            None => Ok(false),
        },
    }
}

// A fact that counts, or its reverse.
fn base_fact(
    alloc: Global,
    row: &mut [i128],
    fact: &Fact,
    back: bool,
    eqs: &[Solution],
) -> Result<bool, Memory>
    requires some { 0 < length row.old }
    requires eqs { AreSolutions eqs.now }
    requires fact { IsFact fact.now }
    requires atoms { Within (length row.old) fact.now.form }
    ensures { IfOk result (λ b. Added b row.new (add_fact eqs.now back fact.now row.old)) }
{
    Ok(does_count(alloc, fact, eqs)? && add_shaped(row, fact, back))
}

// Whether a fact counts; where its guard passes a limit it doesn't.
pub(crate) fn does_count(alloc: Global, fact: &Fact, eqs: &[Solution]) -> Result<bool, Memory>
    requires eqs { AreSolutions eqs.now }
    requires fact { IsFact fact.now }
    ensures { IfOk result (λ b. b ≡ is_counted eqs.now fact.now) }
{
    match counts(alloc, eqs, &fact.guard) {
        Ok(yes) => Ok(yes),
        Err(TermError::TooLarge(_)) => Ok(false),
        Err(TermError::Memory) => Err(Memory),
    }
}

fn add_shaped(row: &mut [i128], fact: &Fact, back: bool) -> bool
    requires some { 0 < length row.old }
    requires atoms { Within (length row.old) fact.now.form }
    ensures { Added result row.new (add_shape fact.now.shape back fact.now.form row.old) }
{
    match fact.shape {
        Shape::Zero => add_form(row, if back { -1 } else { 1 }, &fact.form),
        Shape::Below => !back && add_form(row, 1, &fact.form),
        Shape::Differs => false,
    }
}

// The multiples of the equations.
pub(crate) fn add_all(row: &mut [i128], terms: &[EqTerm], eqs: &[Solution]) -> bool
    requires some { 0 < length row.old }
    requires eqs_atoms { AllSolvedWithin (length row.old) eqs.now }
    ensures { Added result row.new (add_eqs eqs.now terms.now row.old) }
{
    for term in terms {
        if !add_term(row, *term, eqs) {
            return false;
        }
    }
    true
}

// A multiple of the solved form of the equation that a term names.
fn add_term(row: &mut [i128], term: EqTerm, eqs: &[Solution]) -> bool
    requires some { 0 < length row.old }
    requires eqs_atoms { AllSolvedWithin (length row.old) eqs.now }
    ensures { Added result row.new (eq_times (named term.fact eqs.now) term.times row.old) }
{
    match eqs.get(place_of(eqs, term.fact)) {
        Some(eq) => add_form(row, i128::from(term.times), &eq.form),
        None => false,
    }
}

// Where the solved equation of a fact stands; past the end where there is none.
fn place_of(eqs: &[Solution], fact: u32) -> usize
    ensures { named fact eqs.now ≡ slice_get eqs.now result }
{
    for i in 0..eqs.len() {
        if eqs[i].fact == fact {
            return i;
        }
    }
    eqs.len()
}

// Whether no number passes its limit.
fn few(row: &[i128]) -> bool
    ensures { result ≡ small row.now }
{
    for c in row {
        if c.unsigned_abs() > 1 << 126 {
            return false;
        }
    }
    true
}

// Whether a row is a positive constant.
pub(crate) fn closes(total: &[i128]) -> bool
    ensures { result ≡ is_closed total.now }
{
    if total.is_empty() || total[0] <= 0 {
        return false;
    }
    for i in 1..total.len() {
        if total[i] != 0 {
            return false;
        }
    }
    true
}
