ghost use Rattle.std.specs.Prelude.{◌≡◌, ℕ, ℤ, pos, ◌+ℤ◌, ◌*ℤ◌, ◌<ℤ◌, int_div, unsigned_abs, map, drop, ◌^◌, ◌+◌, ◌<◌, ◌≤◌, ◌≢◌, length, Option};
ghost use Rattle.std.specs.List.{All};
ghost use Rattle.pl_forms.specs.Places.{Within};
ghost use Rattle.pl_forms.specs.Rows.{made, put_times, scatter, form_times, add_rows, Added, gcd, gcd_from, ceil_div, tight, at};

use crate::form::{Form, Part};

fn product(a: i128, b: i128) -> Option<i128>
    ensures { result ≡ made (a *ℤ b) }
{
    match a.checked_mul(b) {
        Some(p) => if p.unsigned_abs() <= 1 << 126 {
            Some(p)
        } else {
            None
        },
        None => None,
    }
}

fn sum(a: i128, b: i128) -> Option<i128>
    ensures { result ≡ made (a +ℤ b) }
{
    match a.checked_add(b) {
        Some(p) => if p.unsigned_abs() <= 1 << 126 {
            Some(p)
        } else {
            None
        },
        None => None,
    }
}

// A multiple of a number is added at a place of a row.
fn put(row: &mut [i128], place: usize, times: i128, coeff: i128) -> bool
    requires { place < length row.old }
    ensures { Added result row.new (put_times times coeff place row.old) }
{
    match product(times, coeff) {
        Some(p) => match sum(row[place], p) {
            Some(s) => {
                row[place] = s;
                true
            }
            None => false,
        },
        None => false,
    }
}

// A multiple of the parts is added to a row, where no number passes its limit.
fn add_times(row: &mut [i128], times: i128, parts: &[Part]) -> bool
    requires { All (λ p. p.atom + 1 < length row.old) parts.now }
    ensures { Added result row.new (scatter times parts.now row.old) }
{
    for part in parts {
        if !put(row, part.atom as usize + 1, times, i128::from(part.coeff)) {
            return false;
        }
    }
    true
}

/// A multiple of a form is added to a row, where no number passes its limit.
pub fn add_form(row: &mut [i128], times: i128, form: &Form) -> bool
    requires some { 0 < length row.old }
    requires atoms { Within (length row.old) form.now }
    ensures { Added result row.new (form_times times form.now row.old) }
{
    put(row, 0, times, form.constant) && add_times(row, times, form.parts.as_slice())
}

/// A multiple of a row is added to another.
pub fn add_row(total: &mut [i128], times: i128, row: &[i128]) -> bool
    requires { length row.now ≡ length total.old }
    ensures { Added result total.new (add_rows times 0 row.now total.old) }
{
    for i in 0..row.len() {
        if !put(total, i, times, row[i]) {
            return false;
        }
    }
    true
}

pub(crate) fn greatest(one: u128, other: u128) -> u128
    ensures { result ≡ gcd one other }
{
    let mut a = one;
    let mut b = other;
    while b != 0 {
        let rest = a % b;
        a = b;
        b = rest;
    }
    a
}

// The greatest common divisor of the multiples in a row.
fn common(row: &[i128]) -> u128
    ensures { result ≡ gcd_from 0 (drop 1 row.now) }
{
    let mut g = 0;
    for i in 1..row.len() {
        g = greatest(row[i].unsigned_abs(), g);
    }
    g
}

pub(crate) fn ceiling(k: i128, g: u128) -> i128
    requires some { 0 < g }
    requires divisor { g ≤ 2 ^ 126 }
    requires size { unsigned_abs k ≤ 2 ^ 126 }
    ensures { result ≡ ceil_div k g }
{
    let size = k.unsigned_abs();
    if k >= 0 {
        ((size + (g - 1)) / g) as i128
    } else {
        -((size / g) as i128)
    }
}

fn quotient(c: i128, g: u128) -> i128
    requires { (0 < g) × (g ≤ 2 ^ 126) }
    ensures { result ≡ int_div c (pos g) }
{
    c / (g as i128)
}

fn divide(row: &mut [i128], g: u128)
    requires { (0 < g) × (g ≤ 2 ^ 126) }
    ensures { row.new ≡ map (λ c. int_div c (pos g)) row.old }
{
    for i in 0..row.len() {
        row[i] = quotient(row[i], g);
    }
}

/// Divides the multiples by their greatest common divisor, and rounds the constant up.
pub fn tighten(row: &mut [i128])
    requires some { 0 < length row.old }
    requires sizes { All (λ c. unsigned_abs c ≤ 2 ^ 126) row.old }
    ensures { row.new ≡ tight row.old }
{
    let g = common(row);
    if g > 1 {
        let constant = ceiling(row[0], g);
        divide(row, g);
        row[0] = constant;
    }
}
