ghost use Rattle.std.specs.Prelude.{◌≡◌, ℕ, ℤ, neg_ℤ, ◌-ℤ◌, ◌≤◌, ◌^◌, unsigned_abs, map, ◌∷◌, [], IfOk};
ghost use Rattle.pl_forms.specs.Forms.{IsForm, Small, parts_value};
ghost use Rattle.pl_linear.specs.Duty.{opposite_form};
ghost use Rattle.pl_linear.specs.Ends.{minus, split};

use pl_base::{Items, Memory};
use pl_forms::{Form, Part};
use std::alloc::Global;

/// Two sums of atoms, of which each is zero, an atom or a sum whose first multiple is positive.
#[derive(Debug, Drop)]
pub struct Ends {
    pub to: Items<Part>,
    pub from: Items<Part>,
}

/// The sums whose difference parts are: of a difference of two atoms the two, and otherwise zero and the sum itself, or its
/// opposite where its first multiple is negative.
pub fn ends_of(alloc: Global, parts: &[Part]) -> Result<Ends, Memory>
    requires { Small parts.now }
    ensures exact { IfOk result (λ e. e ≡ split parts.now) }
    ensures value { IfOk result (λ e. (v : ℕ → ℤ) → parts_value v parts.now ≡ parts_value v e.to -ℤ parts_value v e.from) }
{
    split_parts(alloc, parts)
}

fn split_parts(alloc: Global, parts: &[Part]) -> Result<Ends, Memory>
    requires { Small parts.now }
    ensures { IfOk result (λ e. e ≡ split parts.now) }
{
    if parts.len() == 2 && parts[0].coeff == 1 && parts[1].coeff == -1 {
        return two(alloc, parts[0], opposite(parts[1]));
    }
    if parts.len() == 2 && parts[0].coeff == -1 && parts[1].coeff == 1 {
        return two(alloc, parts[1], opposite(parts[0]));
    }
    if parts.is_empty() || parts[0].coeff > 0 {
        return to_only(alloc, parts);
    }
    let from = opposites(alloc, parts)?;
    Ok(Ends {
        to: Items::of(Vec::new(alloc)),
        from: Items::of(from),
    })
}

fn two(alloc: Global, to: Part, from: Part) -> Result<Ends, Memory>
    ensures { IfOk result (λ e. e ≡ record { to = to ∷ []; from = from ∷ [] }) }
{
    Ok(Ends {
        to: Items::of(vec![in alloc; to]?),
        from: Items::of(vec![in alloc; from]?),
    })
}

fn to_only(alloc: Global, parts: &[Part]) -> Result<Ends, Memory>
    ensures { IfOk result (λ e. e ≡ record { to = parts.now; from = [] }) }
{
    let mut to = Vec::new(alloc);
    to.extend_from_slice(parts)?;
    Ok(Ends {
        to: Items::of(to),
        from: Items::of(Vec::new(alloc)),
    })
}

/// The opposite of a form.
pub(crate) fn opposite_of(alloc: Global, form: &Form) -> Result<Form, Memory>
    requires { IsForm form.now }
    ensures is { IfOk result (λ f. f ≡ opposite_form form.now) }
    ensures form { IfOk result (λ f. IsForm f) }
{
    let parts = opposites(alloc, form.parts.as_slice())?;
    Ok(Form {
        parts: Items::of(parts),
        constant: opposite_constant(form.constant),
    })
}

fn opposite_constant(constant: i128) -> i128
    requires { unsigned_abs constant ≤ 2 ^ 80 }
    ensures { result ≡ neg_ℤ constant }
{
    -constant
}

fn opposites(alloc: Global, parts: &[Part]) -> Result<Vec<Part>, Memory>
    requires { Small parts.now }
    ensures { IfOk result (λ v. v.items ≡ map minus parts.now) }
{
    let mut out = Vec::new(alloc);
    for part in parts {
        out.push(opposite(*part))?;
    }
    Ok(out)
}

fn opposite(part: Part) -> Part
    requires { unsigned_abs part.coeff ≤ 2 ^ 40 }
    ensures { result ≡ minus part }
{
    Part {
        coeff: -part.coeff,
        atom: part.atom,
    }
}
