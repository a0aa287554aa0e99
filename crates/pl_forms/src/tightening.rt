ghost use Rattle.std.specs.Prelude.{◌≡◌, ℤ, pos, ◌<◌, ◌≤◌, ◌^◌, unsigned_abs, int_div, map, IfOk};
ghost use Rattle.pl_forms.specs.Forms.{IsForm, Small};
ghost use Rattle.pl_forms.specs.Tightening.{common, divided, tight_form_by, tight_form};

use crate::form::{Form, Part};
use crate::row::{ceiling, greatest};
use pl_base::{Items, Memory};
use std::alloc::{AllocError, Global};

/// A form divided by the greatest common divisor of its multiples, its constant rounded up; without atoms it stays as it is.
pub fn tighten_form(alloc: Global, form: &Form) -> Result<Form, Memory>
    requires { IsForm form.now }
    ensures exact { IfOk result (λ f. f ≡ tight_form form.now) }
    ensures form { IfOk result (λ f. IsForm f) }
{
    let divisor = common_divisor(form.parts.as_slice());
    tighten_by(alloc, form, divisor)
}

/// The greatest common divisor of the multiples; 0 where there are no parts.
pub fn common_divisor(parts: &[Part]) -> u128
    ensures { result ≡ common 0 parts.now }
{
    let mut g = 0;
    for part in parts {
        g = greatest(u128::from(part.coeff.unsigned_abs()), g);
    }
    g
}

fn tighten_by(alloc: Global, form: &Form, divisor: u128) -> Result<Form, Memory>
    requires form { IsForm form.now }
    requires divisor { divisor ≤ 2 ^ 40 }
    ensures { IfOk result (λ f. f ≡ tight_form_by divisor form.now) }
{
    if divisor <= 1 {
        return form.copy(alloc);
    }
    let parts = quotients(alloc, form.parts.as_slice(), divisor)?;
    Ok(Form {
        parts: Items::of(parts),
        constant: ceiling(form.constant, divisor),
    })
}

fn quotients(alloc: Global, parts: &[Part], divisor: u128) -> Result<Vec<Part>, AllocError>
    requires parts { Small parts.now }
    requires divisor { (0 < divisor) × (divisor ≤ 2 ^ 40) }
    ensures { IfOk result (λ v. v.items ≡ map (divided divisor) parts.now) }
{
    let mut out = Vec::new(alloc);
    for part in parts {
        out.push(quotient_of(*part, divisor))?;
    }
    Ok(out)
}

fn quotient_of(part: Part, divisor: u128) -> Part
    requires part { unsigned_abs part.coeff ≤ 2 ^ 40 }
    requires divisor { (0 < divisor) × (divisor ≤ 2 ^ 40) }
    ensures { result ≡ divided divisor part }
{
    Part {
        coeff: part.coeff / (divisor as i64),
        atom: part.atom,
    }
}
