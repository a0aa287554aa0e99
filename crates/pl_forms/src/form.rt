ghost use Rattle.std.specs.Prelude.{◌≡◌, ℕ, ◌≤◌, ◌^◌, ℤ, ◌+ℤ◌, ◌*ℤ◌, ◌++◌, [], unsigned_abs, IfOk};
ghost use Rattle.pl_forms.specs.Forms.{IsForm, Small, atom_form, merge, limited, sum, Answers, put_part, value, scaled, limited_constant, limited_part, all_limited, Multiplied};

use pl_base::{Items, Memory};
use std::alloc::{AllocError, AllocFailed, Global};

// What a multiple and a constant may be at most, and the greatest size that is named.
pub(crate) const LARGEST_MULTIPLE: u128 = 1 << 40;

pub(crate) const LARGEST_CONSTANT: u128 = 1 << 80;

pub(crate) const LARGEST_NAMED: u128 = (1 << 127) - 1;

/// A whole multiple of an atom.
#[derive(Clone, Copy, Debug, PartialEq, Eq)]
pub struct Part {
    pub coeff: i64,
    pub atom: u32,
}

/// The sum of the parts and the constant.
///
/// The atoms ascend, no multiple is 0 or passes 2^40 in size, and the constant doesn't pass 2^80.
#[derive(Debug, Drop)]
pub struct Form {
    pub parts: Items<Part>,
    pub constant: i128,
}

/// Why there is no form.
#[derive(Clone, Copy, Debug, PartialEq, Eq)]
pub enum TermError {
    /// A number passes its limit: its size, or 2^127 - 1 where that is greater.
    TooLarge(u128),
    Memory,
}

impl From<AllocError> for TermError {
    ghost use Rattle.std.specs.Prelude.{◌≡◌};
    ghost use Rattle.pl_forms.specs.declared.form.TermError.TheVariants.{Memory};

    ghost from_gives = { λ _ e. e ≡ Memory };

    fn from(_: AllocError) -> TermError {
        TermError::Memory
    }
}

impl<T: Drop> From<AllocFailed<T>> for TermError {
    ghost use Rattle.std.specs.Prelude.{◌≡◌};
    ghost use Rattle.pl_forms.specs.declared.form.TermError.TheVariants.{Memory};

    ghost from_gives = { λ _ e. e ≡ Memory };

    fn from(_: AllocFailed<T>) -> TermError {
        TermError::Memory
    }
}

impl From<Memory> for TermError {
    ghost use Rattle.std.specs.Prelude.{◌≡◌};
    ghost use Rattle.pl_forms.specs.declared.form.TermError.TheVariants.{Memory as WantsMemory};

    ghost from_gives = { λ _ e. e ≡ WantsMemory };

    fn from(_: Memory) -> TermError {
        TermError::Memory
    }
}

impl Form {
    /// The form of a constant.
    pub fn of_constant(alloc: Global, constant: i128) -> Form
        requires { unsigned_abs constant ≤ 2 ^ 80 }
        ensures is { result ≡ record { parts = []; constant = constant } }
        ensures form { IsForm result }
    {
        Form {
            parts: Items::of(Vec::new(alloc)),
            constant,
        }
    }

    /// The form of an atom.
    pub fn of_atom(alloc: Global, atom: u32) -> Result<Form, Memory>
        ensures is { IfOk result (λ f. f ≡ atom_form atom) }
        ensures form { IfOk result (λ f. IsForm f) }
    {
        let parts = vec![in alloc; Part { coeff: 1, atom }]?;
        Ok(Form {
            parts: Items::of(parts),
            constant: 0,
        })
    }

    pub fn copy(&self, alloc: Global) -> Result<Form, Memory>
        ensures { IfOk result (λ f. f ≡ self.now) }
    {
        let mut parts = Vec::new(alloc);
        parts.extend_from_slice(self.parts.as_slice())?;
        Ok(Form {
            parts: Items::of(parts),
            constant: self.constant,
        })
    }

    /// The sum of two forms.
    pub fn add(alloc: Global, one: &Form, other: &Form) -> Result<Form, TermError>
        requires one { IsForm one.now }
        requires other { IsForm other.now }
        ensures exact { Answers result (sum one.now other.now) }
        ensures value { IfOk result (λ f. (v : ℕ → ℤ) → value v f ≡ value v one.now +ℤ value v other.now) }
        ensures form { IfOk result (λ f. IsForm f) }
    {
        let parts = merged(alloc, one.parts.as_slice(), other.parts.as_slice())?;
        limit(parts, one.constant + other.constant)
    }

    /// A multiple of a form.
    pub fn scale(alloc: Global, times: i128, form: &Form) -> Result<Form, TermError>
        requires { IsForm form.now }
        ensures exact { Answers result (scaled times form.now) }
        ensures value { IfOk result (λ f. (v : ℕ → ℤ) → value v f ≡ times *ℤ value v form.now) }
        ensures form { IfOk result (λ f. IsForm f) }
    {
        scale_form(alloc, times, form)
    }
}

fn scale_form(alloc: Global, times: i128, form: &Form) -> Result<Form, TermError>
    ensures { Answers result (scaled times form.now) }
{
    if times == 0 {
        return Ok(Form {
            parts: Items::of(Vec::new(alloc)),
            constant: 0,
        });
    }
    let parts = multiplied(alloc, times, form.parts.as_slice())?;
    let constant = constant_times(times, form.constant)?;
    Ok(Form {
        parts: Items::of(parts),
        constant,
    })
}

// Each part times a number, unless a size passes its limit.
fn multiplied(alloc: Global, times: i128, parts: &[Part]) -> Result<Vec<Part>, TermError>
    ensures { Multiplied result (all_limited times parts.now) }
{
    let mut out = Vec::new(alloc);
    for part in parts {
        let made = multiple(times, *part)?;
        out.push(made)?;
    }
    Ok(out)
}

// A part times a number, unless its size passes the limit.
fn multiple(times: i128, part: Part) -> Result<Part, TermError>
    ensures { result ≡ limited_part times part }
{
    match times.checked_mul(i128::from(part.coeff)) {
        Some(product) => {
            let size = product.unsigned_abs();
            if size > LARGEST_MULTIPLE {
                return Err(TermError::TooLarge(size.min(LARGEST_NAMED)));
            }
            Ok(Part {
                coeff: product as i64,
                atom: part.atom,
            })
        }
        None => Err(TermError::TooLarge(LARGEST_NAMED)),
    }
}

// The constant times a number, unless its size passes its limit.
fn constant_times(times: i128, constant: i128) -> Result<i128, TermError>
    ensures { result ≡ limited_constant (times *ℤ constant) }
{
    match times.checked_mul(constant) {
        Some(product) => {
            let size = product.unsigned_abs();
            if size > LARGEST_CONSTANT {
                return Err(TermError::TooLarge(size.min(LARGEST_NAMED)));
            }
            Ok(product)
        }
        None => Err(TermError::TooLarge(LARGEST_NAMED)),
    }
}

// The parts of both, in the order of their atoms.
fn merged(alloc: Global, one: &[Part], other: &[Part]) -> Result<Vec<Part>, AllocError>
    requires one { Small one.now }
    requires other { Small other.now }
    ensures { IfOk result (λ v. v.items ≡ merge one.now other.now) }
{
    let mut out = Vec::new(alloc);
    let mut i = 0;
    let mut j = 0;
    while i < one.len() && j < other.len() {
        let a = one[i];
        let b = other[j];
        if a.atom < b.atom {
            out.push(a)?;
            i += 1;
        } else if b.atom < a.atom {
            out.push(b)?;
            j += 1;
        } else {
            put(&mut out, a.atom, a.coeff + b.coeff)?;
            i += 1;
            j += 1;
        }
    }
    out.extend_from_slice(&one[i..])?;
    out.extend_from_slice(&other[j..])?;
    Ok(out)
}

// One more part, unless its multiple is 0.
fn put(out: &mut Vec<Part>, atom: u32, coeff: i64) -> Result<(), AllocError>
    ensures { IfOk result (λ _. out.new.items ≡ out.old.items ++ put_part atom coeff []) }
{
    if coeff != 0 {
        out.push(Part { coeff, atom })?;
    }
    Ok(())
}

// The form, unless a size passes its limit.
fn limit(parts: Vec<Part>, constant: i128) -> Result<Form, TermError>
    ensures { result ≡ limited parts.items constant }
{
    for part in &parts {
        let size = part.coeff.unsigned_abs();
        if u128::from(size) > LARGEST_MULTIPLE {
            return Err(TermError::TooLarge(u128::from(size)));
        }
    }
    let size = constant.unsigned_abs();
    if size > LARGEST_CONSTANT {
        return Err(TermError::TooLarge(size.min(LARGEST_NAMED)));
    }
    Ok(Form {
        parts: Items::of(parts),
        constant,
    })
}
