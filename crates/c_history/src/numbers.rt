//! Decimal numbers of 64 bits.

ghost use Rattle.std.specs.Prelude.{◌≡◌, ◌+◌, ◌-◌, ◌*◌, ◌<◌, ◌≤◌, IfOk, IsTrue, SomeIff, Ok};
ghost use Rattle.pl_readers.specs.Bytes as spec;
ghost use Rattle.pl_readers.specs.Given.{Gives};

use pl_readers::{ReadError, refused};

/// A decimal number below the limit, and what stands behind it.
#[tactic(auto, unfolding(pl_readers::specs::Bytes::number))]
pub(crate) fn number(bytes: &[u8], limit: u64) -> Result<(u64, &[u8]), ReadError>
    requires { 10 ≤ limit }
    ensures value { Gives (λ x. (x.0, x.1.now)) result (spec.number limit bytes.now) }
    ensures below { IfOk result (λ x. x.0 < limit) }
{
    match bytes {
        [first, rest @ ..] if first.is_ascii_digit() => Ok(digits(
            rest,
            limit,
            u64::from(*first - b'0'),
        )),
        _ => Err(refused(bytes)),
    }
}

#[tactic(auto, unfolding(pl_readers::specs::Bytes::digits))]
fn digits(bytes: &[u8], limit: u64, value: u64) -> (u64, &[u8])
    requires { value < limit }
    ensures value { spec.digits limit value bytes.now ≡ Ok (result.0, result.1.now) }
    ensures below { result.0 < limit }
{
    match bytes {
        [] => (value, bytes),
        [first, rest @ ..] => match grown(*first, limit, value) {
            None => (value, bytes),
            Some(more) => digits(rest, limit, more),
        },
    }
}

/// The number with one more digit, where that is one below the limit and has no zero in front.
fn grown(byte: u8, limit: u64, value: u64) -> Option<u64>
    ensures { SomeIff result (IsTrue (spec.grows limit value byte)) (value * 10 + (byte - 48)) }
{
    if value == 0 || !byte.is_ascii_digit() {
        return None;
    }
    let grown = value.checked_mul(10)?.checked_add(u64::from(byte - b'0'))?;
    if grown < limit { Some(grown) } else { None }
}
