// Disequalities that are known.
ghost use Rattle.std.specs.Prelude.{◌≡◌, ◌≤◌, length, IfOk};
ghost use Rattle.std.specs.List.{All};
ghost use Rattle.pl_forms.specs.Forms.{IsForm};
ghost use Rattle.pl_forms.specs.Facts.{IsFact};
ghost use Rattle.pl_forms.specs.Equations.{AreSolutions, counted};
ghost use Rattle.pl_linear.specs.Decisions.{same_form, sign_of, sign_shape, sign_counted, differing};
ghost use Rattle.pl_linear.specs.Differing.{Signs, Matches};

use crate::ends::opposite_of;
use crate::nodes::is_same;
use pl_base::Memory;
use pl_forms::{Fact, Form, Shape, Solution, TermError, counts, reduce};
use std::alloc::Global;

/// A disequality, by its place among the facts, and whether its reduced form is the one that was looked for or its opposite.
#[derive(Clone, Copy, Debug, PartialEq, Eq)]
pub struct Match {
    pub place: u32,
    pub same: bool,
}

// The first disequality that counts whose reduced form is this one, or its opposite.
pub fn differing(
    alloc: Global,
    eqs: &[Solution],
    reduct: &Form,
    facts: &[Fact],
) -> Result<Option<Match>, TermError>
    requires eqs { AreSolutions eqs.now }
    requires facts { All IsFact facts.now }
    requires few { length facts.now ≤ 1024 }
    ensures { Matches result (differing eqs.now reduct.now 0 facts.now) }
{
    for i in 0..facts.len() {
        if let Some(same) = sign_in(alloc, eqs, reduct, &facts[i])? {
            return Ok(Some(Match {
                place: i as u32,
                same,
            }));
        }
    }
    Ok(None)
}

fn sign_in(
    alloc: Global,
    eqs: &[Solution],
    reduct: &Form,
    fact: &Fact,
) -> Result<Option<bool>, TermError>
    requires eqs { AreSolutions eqs.now }
    requires fact { IsFact fact.now }
    ensures { Signs result (sign_shape fact.now.shape eqs.now reduct.now fact.now) }
{
    match fact.shape {
        Shape::Zero => Ok(None),
        Shape::Below => Ok(None),
        Shape::Differs => sign_counted(alloc, eqs, reduct, fact),
    }
}

fn sign_counted(
    alloc: Global,
    eqs: &[Solution],
    reduct: &Form,
    fact: &Fact,
) -> Result<Option<bool>, TermError>
    requires eqs { AreSolutions eqs.now }
    requires fact { IsFact fact.now }
    ensures { Signs result (sign_counted eqs.now reduct.now fact.now.form (counted eqs.now fact.now.guard)) }
{
    if !counts(alloc, eqs, &fact.guard)? {
        return Ok(None);
    }
    let form = reduce(alloc, eqs, &fact.form)?;
    Ok(sign_of(alloc, reduct, &form)?)
}

// Whether a form is another, or its opposite.
fn sign_of(alloc: Global, one: &Form, other: &Form) -> Result<Option<bool>, Memory>
    requires { IsForm other.now }
    ensures { IfOk result (λ s. s ≡ sign_of one.now other.now) }
{
    if is_same_form(one, other) {
        return Ok(Some(true));
    }
    let opposite = opposite_of(alloc, other)?;
    if is_same_form(one, &opposite) {
        return Ok(Some(false));
    }
    Ok(None)
}

fn is_same_form(one: &Form, other: &Form) -> bool
    ensures { result ≡ same_form one.now other.now }
{
    one.constant == other.constant && is_same(one.parts.as_slice(), other.parts.as_slice())
}
