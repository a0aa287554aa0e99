ghost use Rattle.std.specs.Prelude.{◌≡◌, ℕ, ◌≤◌, List, ◌++◌, ◌∷◌, [], true, length, Ok, Some, None, IfOk, IfErr};
ghost use Rattle.std.specs.List.{All};
ghost use Rattle.pl_forms.specs.Forms.{IsForm};
ghost use Rattle.pl_forms.specs.Facts.{IsFact};
ghost use Rattle.pl_forms.specs.Equations.{AreSolutions, AreNamed, reduced};
ghost use Rattle.pl_forms.specs.Places.{Within, AllWithin};
ghost use Rattle.pl_forms.specs.Solving.{solved};
ghost use Rattle.pl_forms.specs.declared.form.TermError.TheVariants.{Memory as WantsMemory};
ghost use Rattle.pl_forms.specs.declared.equation.Solution.{Solution};
ghost use Rattle.pl_forms.specs.Goals.{goal_of, IsGoal, Truth, Plain};
ghost use Rattle.pl_forms.specs.Assuming.{assumed, one_form};
ghost use Rattle.pl_linear.specs.Duty.{asked, asked_by, opposite_form};
ghost use Rattle.pl_linear.specs.Decisions.{is_nought, is_apart, differing, with_zero, Then, Becomes, IsEqual, IsApart, IsPlain, OfTruth, Leads, Decides, joined, done};
ghost use Rattle.pl_linear.specs.Witnesses.{IsWitness, IfDone, IsOfBelow, IsOfEqual, IsOfApart};

use crate::below::{alone, decide_below};
use crate::differing::{Match, differing};
use crate::ends::opposite_of;
use crate::found::Decided;
use pl_base::{Items, Memory};
use pl_forms::{
    Eqs, Fact, Facts, Form, Goal, Group, Reduced, Shape, TermError, assume, reduce_with,
    terms_between,
};
use std::alloc::{AllocError, Global};

/// Whether a duty is done, with the groups that show it, and else the point of its first part that isn't.
///
/// Of both of two the first is decided and then the second. One of two is the second where the negation of the first is known
/// too, and a guarded duty is the duty where its guard is known to be 1; the equations of the longer list are solved anew.
/// `TooLarge` comes exactly where a form on the way passes its limit.
pub fn decide(alloc: Global, facts: &Facts, goal: &Goal) -> Result<Decided, TermError>
    requires facts { All IsFact facts.now.list }
    requires goal { IsGoal (goal_of goal.now) }
    requires few { length facts.now.list ≤ 1024 }
    ensures exact { Decides result (Leads facts.now.list (goal_of goal.now)) }
    // The groups are a witness that `confirms` accepts.
    ensures witness { IfOk result (λ d. IfDone d (IsWitness facts.now.list (goal_of goal.now))) }
{
    match goal {
        Goal::Truth(form, truth) => decide_truth(alloc, facts, form, *truth),
        Goal::Plain(shape, form) => decide_plain(alloc, facts, *shape, form),
        Goal::Both(first, second) => match decide(alloc, facts, first) {
            Err(error) => Err(error),
            Ok(Decided::Undone(point)) => Ok(Decided::Undone(point)),
            Ok(Decided::Done(groups)) => {
                let rest = decide(alloc, facts, second)?;
                Ok(join(groups, rest)?)
            }
        },
        Goal::Either(first, second) => {
            let mut longer = facts.copy(alloc)?;
            assume(alloc, first, false, None, &mut longer)?;
            decide(alloc, &longer, second)
        }
        Goal::When(guard, inner) => {
            let mut longer = facts.copy(alloc)?;
            let condition = Goal::Truth(guard.copy(alloc)?, true);
            assume(alloc, &condition, true, None, &mut longer)?;
            decide(alloc, &longer, inner)
        }
    }
}

// Groups before those of a duty that is done too.
fn join(groups: Items<Group>, rest: Decided) -> Result<Decided, AllocError>
    ensures { IfOk result (λ d. d ≡ joined groups rest) }
{
    match rest {
        Decided::Undone(point) => Ok(Decided::Undone(point)),
        Decided::Done(more) => {
            let mut all = groups.into_vec();
            let mut more = more.into_vec();
            all.append(&mut more)?;
            Ok(Decided::Done(Items::of(all)))
        }
    }
}

// A boolean is 1, or 0.
fn decide_truth(
    alloc: Global,
    facts: &Facts,
    form: &Form,
    truth: bool,
) -> Result<Decided, TermError>
    requires facts { All IsFact facts.now.list }
    requires form { IsForm form.now }
    requires few { length facts.now.list ≤ 1024 }
    ensures exact { Decides result (OfTruth facts.now.list form.now truth) }
    ensures witness { IfOk result (λ d. IfDone d (IsWitness facts.now.list (Truth form.now truth))) }
{
    if !truth {
        return decide_plain(alloc, facts, Shape::Zero, form);
    }
    let one = Form::of_constant(alloc, 1);
    let less = Form::add_multiple(alloc, form, -1, &one)?;
    decide_plain(alloc, facts, Shape::Zero, &less)
}

// A comparison, by the facts' own equations.
fn decide_plain(
    alloc: Global,
    facts: &Facts,
    shape: Shape,
    form: &Form,
) -> Result<Decided, TermError>
    requires facts { All IsFact facts.now.list }
    requires form { IsForm form.now }
    requires few { length facts.now.list ≤ 1024 }
    ensures exact { Decides result (IsPlain facts.now.list shape form.now) }
    ensures witness { IfOk result (λ d. IfDone d (IsWitness facts.now.list (Plain shape form.now))) }
{
    let eqs = Eqs::of(alloc, facts)?;
    match shape {
        Shape::Zero => decide_equal(alloc, &eqs, facts, form),
        Shape::Below => decide_below(alloc, &eqs, facts, form),
        Shape::Differs => decide_apart(alloc, &eqs, facts, form),
    }
}

// `form == 0`: it reduces to 0, or it is `form <= 0` and then that its opposite is at most 0.
fn decide_equal(alloc: Global, eqs: &Eqs, facts: &Facts, form: &Form) -> Result<Decided, TermError>
    requires eqs { AreSolutions eqs.now.solved }
    requires named { AreNamed eqs.now.solved }
    requires facts { All IsFact facts.now.list }
    requires form { IsForm form.now }
    requires few { length facts.now.list ≤ 1024 }
    ensures exact { Decides result (IsEqual eqs.now.solved facts.now.list form.now) }
    ensures witness { IfOk result (λ d. IfDone d (IsOfEqual eqs.now.solved facts.now.list form.now)) }
{
    let reduced = reduce_with(alloc, eqs.solved.as_slice(), form)?;
    if is_nought(&reduced.form) {
        let Reduced { form: _, terms } = reduced;
        return Ok(alone(alloc, Group::Eqs(terms))?);
    }
    decide_both_sides(alloc, eqs, facts, form)
}

fn is_nought(form: &Form) -> bool
    ensures { result ≡ is_nought form.now }
{
    form.parts.as_slice().is_empty() && form.constant == 0
}

fn decide_both_sides(
    alloc: Global,
    eqs: &Eqs,
    facts: &Facts,
    form: &Form,
) -> Result<Decided, TermError>
    requires eqs { AreSolutions eqs.now.solved }
    requires named { AreNamed eqs.now.solved }
    requires facts { All IsFact facts.now.list }
    requires form { IsForm form.now }
    requires few { length facts.now.list ≤ 1024 }
    ensures exact { Decides result (Then (Becomes (asked eqs.now.solved facts.now.list form.now)) (Becomes (asked eqs.now.solved facts.now.list (opposite_form form.now)))) }
    ensures witness { IfOk result (λ d. IfDone d (IsOfEqual eqs.now.solved facts.now.list form.now)) }
{
    match decide_below(alloc, eqs, facts, form) {
        Err(error) => Err(error),
        Ok(Decided::Undone(point)) => Ok(Decided::Undone(point)),
        Ok(Decided::Done(groups)) => {
            let opposite = opposite_of(alloc, form)?;
            let rest = decide_below(alloc, eqs, facts, &opposite)?;
            Ok(join(groups, rest)?)
        }
    }
}

// `form != 0`: it reduces to a constant other than 0, or to the form of a disequality that counts, up to sign; or it is the
// duty `1 <= 0` where `form == 0` is known too.
fn decide_apart(alloc: Global, eqs: &Eqs, facts: &Facts, form: &Form) -> Result<Decided, TermError>
    requires eqs { AreSolutions eqs.now.solved }
    requires named { AreNamed eqs.now.solved }
    requires facts { All IsFact facts.now.list }
    requires form { IsForm form.now }
    requires few { length facts.now.list ≤ 1024 }
    ensures exact { Decides result (IsApart eqs.now.solved facts.now.list form.now) }
    ensures witness { IfOk result (λ d. IfDone d (IsOfApart eqs.now.solved facts.now.list form.now)) }
{
    let reduced = reduce_with(alloc, eqs.solved.as_slice(), form)?;
    if is_apart(&reduced.form) {
        let Reduced { form: _, terms } = reduced;
        return Ok(alone(alloc, Group::Constant(terms))?);
    }
    match differing(
        alloc,
        eqs.solved.as_slice(),
        &reduced.form,
        facts.list.as_slice(),
    )? {
        Some(found) => by_disequality(alloc, eqs, facts, form, &reduced.form, found),
        None => decide_absurd(alloc, facts, form),
    }
}

fn is_apart(form: &Form) -> bool
    ensures { result ≡ is_apart form.now }
{
    form.parts.as_slice().is_empty() && form.constant != 0
}

// Done, by a disequality that was found.
fn by_disequality(
    alloc: Global,
    eqs: &Eqs,
    facts: &Facts,
    form: &Form,
    reduct: &Form,
    found: Match,
) -> Result<Decided, TermError>
    requires eqs { AreSolutions eqs.now.solved }
    requires named { AreNamed eqs.now.solved }
    requires facts { All IsFact facts.now.list }
    requires form { IsForm form.now }
    requires reduct { reduced eqs.now.solved form.now ≡ Ok reduct.now }
    requires found { differing eqs.now.solved reduct.now 0 facts.now.list ≡ Ok (Some found) }
    ensures exact { Decides result (λ o. o ≡ done) }
    ensures witness { IfOk result (λ d. IfDone d (IsOfApart eqs.now.solved facts.now.list form.now)) }
{
    let list = facts.list.as_slice();
    let place = found.place as usize;
    match terms_between(
        alloc,
        eqs.solved.as_slice(),
        form,
        &list[place].form,
        found.same,
    ) {
        Err(error) => Err(error),
        Ok(terms) => Ok(alone(alloc, Group::Differs(found.place, terms))?),
    }
}

// The duty `1 <= 0` where a form is known to be 0.
fn decide_absurd(alloc: Global, facts: &Facts, form: &Form) -> Result<Decided, TermError>
    requires facts { All IsFact facts.now.list }
    requires form { IsForm form.now }
    requires few { length facts.now.list ≤ 1024 }
    ensures exact { Decides result (Becomes (asked_by (solved (with_zero facts.now.list form.now)) (with_zero facts.now.list form.now) one_form)) }
    ensures witness { IfOk result (λ d. IfDone d (λ gs. (eqs : List Solution) → IsOfApart eqs facts.now.list form.now gs)) }
{
    let longer = with_zero(alloc, facts, form)?;
    let eqs = Eqs::of(alloc, &longer)?;
    decide_below(alloc, &eqs, &longer, &Form::of_constant(alloc, 1))
}

// The facts, and that a form is 0.
pub(crate) fn with_zero(alloc: Global, facts: &Facts, form: &Form) -> Result<Facts, TermError>
    requires facts { All IsFact facts.now.list }
    requires form { IsForm form.now }
    requires few { length facts.now.list ≤ 1024 }
    ensures is { IfOk result (λ f. f.list ≡ with_zero facts.now.list form.now) }
    ensures facts { IfOk result (λ f. All IsFact f.list) }
    ensures few { IfOk result (λ f. length f.list ≤ 1024) }
    ensures atoms { IfOk result (λ f. (n : ℕ) → AllWithin n facts.now.list → Within n form.now → AllWithin n f.list) }
    ensures memory { IfErr result (λ e. e ≡ WantsMemory) }
{
    let mut longer = facts.copy(alloc)?;
    let zero = Goal::Plain(Shape::Zero, form.copy(alloc)?);
    assume(alloc, &zero, true, None, &mut longer)?;
    Ok(longer)
}
