ghost use Rattle.std.specs.Prelude.{◌≡◌, ℕ, ◌+◌, ◌*◌, ◌<◌, ◌≤◌, ◌↔◌, MatchOption, MatchResult, IfOk, IfSome, IsOk};
ghost use Rattle.std.specs.Int.{IsGcd};
ghost use Rattle.std.specs.Ordering.{nat_cmp};
ghost use Rattle.std.specs.declared.cmp.Ordering.TheVariants.{Equal};
ghost use Rattle.pl_base.specs.Fraction.{IsFraction, IsPart, IsReduced, IsHalf, IsSum, IsSumAnswer, IsTooFine, finest, permission_of};
ghost use Rattle.pl_base.specs.Permission.{PermissionAdds};

use std::cmp::Ordering;
use std::marker::Model;

/// The greatest denominator of a permission.
const FINEST: u64 = 1_048_576;

/// A permission, which contracts see as the pair of its numbers in lowest terms.
#[derive(Clone, Copy, Debug)]
pub struct Perm {
    num: u32,
    den: u32,
}

impl Model for Perm {
    ghost use Rattle.std.specs.Prelude.{ℕ};
    ghost use Rattle.pl_base.specs.Fraction.{IsFraction};

    ghost Value = { ℕ × ℕ };

    ghost view = { λ p. (p.num, p.den) };

    ghost inverse = { λ v. record { num = v.0; den = v.1 } };

    ghost invariant = { λ p. IsFraction p.num p.den };
}

/// The denominator in lowest terms, which passes 1,048,576.
#[derive(Clone, Copy, Debug, PartialEq, Eq)]
pub struct TooFine {
    pub den: u64,
}

/// Why two permissions have no sum: it passes 1, or its denominator in lowest terms passes 1,048,576.
#[derive(Clone, Copy, Debug, PartialEq, Eq)]
pub enum SumError {
    Over,
    TooFine(u64),
}

impl Perm {
    /// `num / den`; none where `num` is 0, `num` passes `den`, or `den` passes 1,048,576.
    pub fn new(num: u32, den: u32) -> Option<Perm>
        ensures exact { MatchOption result (IsPart num den → ⊥) (λ p. IsPart num den × IsReduced num den p) }
        ensures fraction { IfSome result (λ p. IsFraction p.0 p.1) }
    {
        if num == 0 || num > den || u64::from(den) > FINEST {
            return None;
        }
        reduced(u64::from(num), u64::from(den)).ok()
    }

    pub fn num(self) -> u32
        ensures value { result ≡ self.0 }
        ensures fraction { IsFraction self.0 self.1 }
    {
        self.num
    }

    pub fn den(self) -> u32
        ensures value { result ≡ self.1 }
        ensures fraction { IsFraction self.0 self.1 }
    {
        self.den
    }

    /// Half of it. `TooFine` has the denominator of the half in lowest terms.
    pub fn half(self) -> Result<Perm, TooFine>
        ensures fraction { IfOk result (λ r. IsFraction r.0 r.1) }
        ensures exact { MatchResult result (IsHalf self) (λ e. IsTooFine self.0 (2 * self.1) e.den) }
        ensures adds { IfOk result (λ r. (whole : IsPart self.0 self.1) → (part : IsPart r.0 r.1)
            → PermissionAdds (permission_of r part) (permission_of r part) (permission_of self whole)) }
    {
        reduced(u64::from(self.num), 2 * u64::from(self.den))
    }

    /// The sum of two. `Over` where it passes 1; else `TooFine` has the denominator of the sum in lowest terms.
    pub fn plus(self, other: Perm) -> Result<Perm, SumError>
        ensures fraction { IfOk result (λ r. IsFraction r.0 r.1) }
        ensures exact { IsSumAnswer self other result }
        ensures adds { IfOk result (λ r. (one : IsPart self.0 self.1) → (two : IsPart other.0 other.1) → (both : IsPart r.0 r.1)
            → PermissionAdds (permission_of self one) (permission_of other two) (permission_of r both)) }
    {
        let num = u64::from(self.num) * u64::from(other.den)
            + u64::from(other.num) * u64::from(self.den);
        let den = u64::from(self.den) * u64::from(other.den);
        if num > den {
            return Err(SumError::Over);
        }
        match reduced(num, den) {
            Ok(sum) => Ok(sum),
            Err(fine) => Err(SumError::TooFine(fine.den)),
        }
    }

    /// The order of two as numbers.
    pub fn compare(self, other: Perm) -> Ordering
        ensures order { result ≡ nat_cmp (self.0 * other.1) (other.0 * self.1) }
        ensures same { (result ≡ Equal) ↔ (self ≡ other) }
    {
        let one = u64::from(self.num) * u64::from(other.den);
        let two = u64::from(other.num) * u64::from(self.den);
        one.cmp(&two)
    }
}

/// `num / den` in lowest terms.
fn reduced(num: u64, den: u64) -> Result<Perm, TooFine>
    requires some { 0 < num }
    requires within { num ≤ den }
    ensures fraction { IfOk result (λ r. IsFraction r.0 r.1) }
    ensures exact { MatchResult result (IsReduced num den) (λ e. IsTooFine num den e.den) }
    ensures fits { den ≤ finest → IsOk result }
{
    let common = greatest_common(num, den);
    let (num, den) = (num / common, den / common);
    if den > FINEST {
        return Err(TooFine { den });
    }
    Ok(Perm {
        num: num as u32,
        den: den as u32,
    })
}

fn greatest_common(a: u64, b: u64) -> u64
    ensures { IsGcd a b result }
{
    if b == 0 { a } else { greatest_common(b, a % b) }
}
