ghost use Rattle.std.specs.Prelude.{◌≡◌, ◌≢◌, ℕ, ℤ, pos, ◌+ℤ◌, ◌*ℤ◌, ◌≤◌, ◌^◌, [], ◌∷◌, map, unsigned_abs, IfOk, None};
ghost use Rattle.pl_forms.specs.Forms.{IsForm, Small, merge, put_part, value, Answers, limited_by};
ghost use Rattle.pl_forms.specs.Steps.{times_part, plus, difference, Put, Merged};

use crate::form::{Form, LARGEST_CONSTANT, LARGEST_MULTIPLE, LARGEST_NAMED, Part, TermError};
use pl_base::Items;
use std::alloc::Global;

impl Form {
    /// The sum of a form and a multiple of another. Only the sum is held to the limits, and not the multiple.
    pub fn add_multiple(
        alloc: Global,
        one: &Form,
        times: i128,
        other: &Form,
    ) -> Result<Form, TermError>
        requires one { IsForm one.now }
        requires other { IsForm other.now }
        requires some { times ≢ pos 0 }
        requires times { unsigned_abs times ≤ 2 ^ 40 }
        ensures exact { Answers result (plus one.now times other.now) }
        ensures value { IfOk result (λ f. (v : ℕ → ℤ) → value v f ≡ value v one.now +ℤ (times *ℤ value v other.now)) }
        ensures form { IfOk result (λ f. IsForm f) }
    {
        sum_of(alloc, one, times, other)
    }

    /// A form less another, and a number more. Only the whole is held to the limits.
    pub fn difference(
        alloc: Global,
        one: &Form,
        other: &Form,
        more: i128,
    ) -> Result<Form, TermError>
        requires one { IsForm one.now }
        requires other { IsForm other.now }
        requires more { unsigned_abs more ≤ 1 }
        ensures exact { Answers result (difference one.now other.now more) }
        ensures form { IfOk result (λ f. IsForm f) }
    {
        difference_of(alloc, one, other, more)
    }
}

fn difference_of(alloc: Global, one: &Form, other: &Form, more: i128) -> Result<Form, TermError>
    requires one { IsForm one.now }
    requires other { IsForm other.now }
    requires more { unsigned_abs more ≤ 1 }
    ensures { Answers result (difference one.now other.now more) }
{
    let parts = merged_with(alloc, one.parts.as_slice(), -1, other.parts.as_slice())?;
    let negated = constant_product(-1, other.constant);
    with_constant(parts, constant_total(one.constant, negated, more))
}

fn sum_of(alloc: Global, one: &Form, times: i128, other: &Form) -> Result<Form, TermError>
    requires one { IsForm one.now }
    requires other { IsForm other.now }
    requires times { unsigned_abs times ≤ 2 ^ 40 }
    ensures { Answers result (plus one.now times other.now) }
{
    let parts = merged_with(alloc, one.parts.as_slice(), times, other.parts.as_slice())?;
    let more = constant_product(times, other.constant);
    with_constant(parts, constant_sum(one.constant, more))
}

// The parts of one and the multiples of the other's, in the order of their atoms, unless a sum passes its limit.
fn merged_with(
    alloc: Global,
    one: &[Part],
    times: i128,
    other: &[Part],
) -> Result<Vec<Part>, TermError>
    requires one { Small one.now }
    requires other { Small other.now }
    requires times { unsigned_abs times ≤ 2 ^ 40 }
    ensures { Merged result (merge one.now (map (times_part times) other.now)) }
{
    let mut out = Vec::new(alloc);
    let mut i = 0;
    let mut j = 0;
    while i < one.len() && j < other.len() {
        let a = one[i];
        let b = other[j];
        if a.atom < b.atom {
            out.push(a)?;
            i += 1;
        } else if b.atom < a.atom {
            push_times(&mut out, times, b)?;
            j += 1;
        } else {
            put_sum(&mut out, a, times, b)?;
            i += 1;
            j += 1;
        }
    }
    out.extend_from_slice(&one[i..])?;
    push_all(&mut out, times, &other[j..])?;
    Ok(out)
}

fn product(times: i128, coeff: i64) -> i128
    requires times { unsigned_abs times ≤ 2 ^ 40 }
    requires coeff { unsigned_abs coeff ≤ 2 ^ 40 }
    ensures is { result ≡ times *ℤ coeff }
    ensures size { unsigned_abs result ≤ 2 ^ 80 }
{
    times * i128::from(coeff)
}

fn sum(coeff: i64, more: i128) -> i128
    requires coeff { unsigned_abs coeff ≤ 2 ^ 40 }
    requires more { unsigned_abs more ≤ 2 ^ 80 }
    ensures is { result ≡ coeff +ℤ more }
    ensures size { unsigned_abs result ≤ 2 ^ 81 }
{
    i128::from(coeff) + more
}

// One more part, the multiple of another, unless it passes its limit.
fn push_times(out: &mut Vec<Part>, times: i128, part: Part) -> Result<(), TermError>
    requires part { unsigned_abs part.coeff ≤ 2 ^ 40 }
    requires times { unsigned_abs times ≤ 2 ^ 40 }
    ensures { Put result out.old.items out.new.items (times_part times part ∷ []) }
{
    push(out, part.atom, product(times, part.coeff))
}

// One more part, the sum of one and the multiple of another with the same atom, unless it is 0 or passes its limit.
fn put_sum(out: &mut Vec<Part>, one: Part, times: i128, other: Part) -> Result<(), TermError>
    requires one { unsigned_abs one.coeff ≤ 2 ^ 40 }
    requires other { unsigned_abs other.coeff ≤ 2 ^ 40 }
    requires times { unsigned_abs times ≤ 2 ^ 40 }
    ensures { Put result out.old.items out.new.items (put_part one.atom (one.coeff +ℤ (times *ℤ other.coeff)) []) }
{
    put(out, one.atom, sum(one.coeff, product(times, other.coeff)))
}

// One more part, unless it passes its limit.
fn push(out: &mut Vec<Part>, atom: u32, coeff: i128) -> Result<(), TermError>
    ensures { Put result out.old.items out.new.items (record { coeff = coeff; atom = atom } ∷ []) }
{
    let size = coeff.unsigned_abs();
    if size > LARGEST_MULTIPLE {
        return Err(TermError::TooLarge(size));
    }
    out.push(Part {
        coeff: coeff as i64,
        atom,
    })?;
    Ok(())
}

// One more part, unless it is 0 or passes its limit.
fn put(out: &mut Vec<Part>, atom: u32, coeff: i128) -> Result<(), TermError>
    ensures { Put result out.old.items out.new.items (put_part atom coeff []) }
{
    if coeff == 0 {
        return Ok(());
    }
    push(out, atom, coeff)
}

// The multiples of the parts, unless one passes its limit.
fn push_all(out: &mut Vec<Part>, times: i128, parts: &[Part]) -> Result<(), TermError>
    requires parts { Small parts.now }
    requires times { unsigned_abs times ≤ 2 ^ 40 }
    ensures { Put result out.old.items out.new.items (map (times_part times) parts.now) }
{
    for i in 0..parts.len() {
        push_times(out, times, parts[i])?;
    }
    Ok(())
}

fn constant_product(times: i128, constant: i128) -> i128
    requires times { unsigned_abs times ≤ 2 ^ 40 }
    requires constant { unsigned_abs constant ≤ 2 ^ 80 }
    ensures is { result ≡ times *ℤ constant }
    ensures size { unsigned_abs result ≤ 2 ^ 120 }
{
    times * constant
}

fn constant_sum(constant: i128, more: i128) -> i128
    requires constant { unsigned_abs constant ≤ 2 ^ 80 }
    requires more { unsigned_abs more ≤ 2 ^ 120 }
    ensures { result ≡ constant +ℤ more }
{
    constant + more
}

fn constant_total(constant: i128, negated: i128, more: i128) -> i128
    requires constant { unsigned_abs constant ≤ 2 ^ 80 }
    requires negated { unsigned_abs negated ≤ 2 ^ 120 }
    requires more { unsigned_abs more ≤ 1 }
    ensures { result ≡ (constant +ℤ negated) +ℤ more }
{
    constant + negated + more
}

// The form with these parts, unless its constant passes the limit.
fn with_constant(parts: Vec<Part>, constant: i128) -> Result<Form, TermError>
    ensures { result ≡ limited_by None parts.items constant }
{
    let size = constant.unsigned_abs();
    if size > LARGEST_CONSTANT {
        return Err(TermError::TooLarge(size.min(LARGEST_NAMED)));
    }
    Ok(Form {
        parts: Items::of(parts),
        constant,
    })
}
