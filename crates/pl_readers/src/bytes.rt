//! Readers of bytes: words and decimal numbers.

ghost use Rattle.std.specs.Prelude.{◌≡◌, ◌+◌, ◌-◌, ◌*◌, ◌<◌, ◌≤◌, false, length, IfOk, IsTrue, SomeIff, Ok};
ghost use Rattle.pl_readers.specs.Bytes as spec;
ghost use Rattle.pl_readers.specs.Given.{Gives};
ghost use Rattle.pl_readers.specs.Reader as read;
ghost use Rattle.std.specs.Char.{is_ascii_digit};

use crate::error::{ReadError, refused};

/// Whether the next byte is this one.
pub fn begins(bytes: &[u8], byte: u8) -> bool
    ensures { result ≡ read.begins (spec.is byte) bytes.now }
{
    match bytes {
        [] => false,
        [first, ..] => *first == byte,
    }
}

/// Whether the next byte is a decimal digit.
pub fn begins_number(bytes: &[u8]) -> bool
    ensures { result ≡ read.begins is_ascii_digit bytes.now }
{
    match bytes {
        [] => false,
        [first, ..] => first.is_ascii_digit(),
    }
}

/// What stands behind this word.
#[tactic(auto, unfolding(crate::specs::Bytes::word))]
pub fn word<'a>(bytes: &'a [u8], text: &[u8]) -> Result<&'a [u8], ReadError>
    ensures { Gives (λ rest. (tt, rest.now)) result (spec.word text.now bytes.now) }
{
    match text {
        [] => Ok(bytes),
        [byte, more @ ..] => match bytes {
            [first, rest @ ..] if *first == *byte => word(rest, more),
            _ => Err(refused(bytes)),
        },
    }
}

/// A decimal number below the limit, and what stands behind it.
#[tactic(auto, unfolding(crate::specs::Bytes::number))]
pub fn number(bytes: &[u8], limit: u128) -> Result<(u128, &[u8]), ReadError>
    requires { 10 ≤ limit }
    ensures value { Gives (λ x. (x.0, x.1.now)) result (spec.number limit bytes.now) }
    ensures below { IfOk result (λ x. x.0 < limit) }
{
    match bytes {
        [first, rest @ ..] if first.is_ascii_digit() => Ok(digits(
            rest,
            limit,
            u128::from(*first - b'0'),
        )),
        _ => Err(refused(bytes)),
    }
}

#[tactic(auto, unfolding(crate::specs::Bytes::digits))]
fn digits(bytes: &[u8], limit: u128, value: u128) -> (u128, &[u8])
    requires { value < limit }
    ensures value { spec.digits limit value bytes.now ≡ Ok (result.0, result.1.now) }
    ensures below { result.0 < limit }
{
    match bytes {
        [] => (value, bytes),
        [first, rest @ ..] => match grown(*first, limit, value) {
            None => (value, bytes),
            Some(more) => digits(rest, limit, more),
        },
    }
}

/// The number with one more digit, where that is one below the limit and has no zero in front.
fn grown(byte: u8, limit: u128, value: u128) -> Option<u128>
    ensures { SomeIff result (IsTrue (spec.grows limit value byte)) (value * 10 + (byte - 48)) }
{
    if value == 0 || !byte.is_ascii_digit() {
        return None;
    }
    let grown = value.checked_mul(10)?.checked_add(u128::from(byte - b'0'))?;
    if grown < limit { Some(grown) } else { None }
}
