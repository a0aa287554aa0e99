//! The parts of a line: numbers, values and cells.

ghost use Rattle.std.specs.Prelude.{◌≡◌, ◌<◌, ◌≤◌, ◌+◌, ◌-◌, ◌^◌, ◌∷◌, [], IfOk, IfSome, IsTrue, SomeIff, Ok, codes, length};
ghost use Rattle.std.specs.Char.{is_ascii_digit};
ghost use Rattle.pl_readers.specs.Bytes as spec;
ghost use Rattle.pl_readers.specs.Given.{Gives};
ghost use Rattle.c_history.specs.Readers as read;

use crate::numbers::number;
use pl_readers::bytes::{begins, begins_number, word};
use pl_readers::{ReadError, refused};
use pl_resource::{Cell, Value};

const U32_LIMIT: u64 = 1 << 32;

const I64_LIMIT: u64 = 1 << 63;

fn digit(byte: u8) -> Option<u32>
    ensures { SomeIff result (IsTrue (is_ascii_digit byte)) (byte - 48) }
{
    if byte.is_ascii_digit() {
        Some(u32::from(byte - b'0'))
    } else {
        None
    }
}

/// The number that a digit is where no digit stands behind it.
#[tactic(auto, using(crate::proofs::SmallNumbers::lone_read))]
fn lone_digit(byte: u8, rest: &[u8]) -> Option<u32>
    ensures { IfSome result (λ n. read.unsigned (byte ∷ rest.now) ≡ Ok (n, rest.now)) }
{
    if begins_number(rest) {
        return None;
    }
    digit(byte)
}

/// A number of one digit, as most in a history are, and what stands behind it.
fn small(bytes: &[u8]) -> Option<(u32, &[u8])>
    ensures { IfSome result (λ x. read.unsigned bytes.now ≡ Ok (x.0, x.1.now)) }
{
    match bytes {
        [] => None,
        [first, rest @ ..] => lone_digit(*first, rest).map(|n| (n, rest)),
    }
}

/// A number of 32 bits, and what stands behind it.
#[tactic(auto, unfolding(crate::specs::Readers::unsigned))]
pub(crate) fn unsigned(bytes: &[u8]) -> Result<(u32, &[u8]), ReadError>
    ensures { Gives (λ x. (x.0, x.1.now)) result (read.unsigned bytes.now) }
{
    if let Some(found) = small(bytes) {
        return Ok(found);
    }
    let (n, rest) = number(bytes, U32_LIMIT)?;
    Ok((n as u32, rest))
}

/// What stands behind this byte. A line has seven such places, for which `word` is too slow.
#[tactic(auto, unfolding(pl_readers::specs::Bytes::word))]
pub(crate) fn byte(bytes: &[u8], wanted: u8) -> Result<&[u8], ReadError>
    ensures { Gives (λ rest. (tt, rest.now)) result (spec.word (wanted ∷ []) bytes.now) }
{
    match bytes {
        [first, rest @ ..] if *first == wanted => Ok(rest),
        _ => Err(refused(bytes)),
    }
}

/// A number of 32 bits behind a byte.
pub(crate) fn marked(bytes: &[u8], mark: u8) -> Result<(u32, &[u8]), ReadError>
    ensures { Gives (λ x. (x.0, x.1.now)) result (read.numbered (mark ∷ []) bytes.now) }
{
    unsigned(byte(bytes, mark)?)
}

/// A number of 32 bits behind a word.
pub(crate) fn numbered<'a>(bytes: &'a [u8], before: &[u8]) -> Result<(u32, &'a [u8]), ReadError>
    ensures { Gives (λ x. (x.0, x.1.now)) result (read.numbered before.now bytes.now) }
{
    unsigned(word(bytes, before)?)
}

fn negated(size: u64, rest: &[u8]) -> Result<(i64, &[u8]), ReadError>
    requires { size < 2 ^ 63 + 1 }
    ensures { Gives (λ x. (x.0, x.1.now)) result (read.negated size rest.now) }
{
    if size == 0 {
        return Err(refused(rest));
    }
    Ok((-1 - (size - 1) as i64, rest))
}

/// A number of 64 bits, with a minus in front where it is below 0.
#[tactic(auto, unfolding(crate::specs::Readers::signed))]
pub(crate) fn signed(bytes: &[u8]) -> Result<(i64, &[u8]), ReadError>
    ensures { Gives (λ x. (x.0, x.1.now)) result (read.signed bytes.now) }
{
    if begins(bytes, b'-') {
        let rest = byte(bytes, b'-')?;
        let (size, rest) = number(rest, I64_LIMIT + 1)?;
        return negated(size, rest);
    }
    let (n, rest) = number(bytes, I64_LIMIT)?;
    Ok((n as i64, rest))
}

#[tactic(auto, unfolding(crate::specs::Readers::truth))]
pub(crate) fn truth(bytes: &[u8]) -> Result<(bool, &[u8]), ReadError>
    ensures { Gives (λ x. (x.0, x.1.now)) result (read.truth bytes.now) }
{
    if begins(bytes, b't') {
        return Ok((true, word(bytes, b"true")?));
    }
    Ok((false, word(bytes, b"false")?))
}

#[tactic(auto, unfolding(crate::specs::Readers::cell))]
pub(crate) fn cell(bytes: &[u8]) -> Result<(Cell, &[u8]), ReadError>
    ensures { Gives (λ x. (x.0, x.1.now)) result (read.cell bytes.now) }
{
    let (block, rest) = marked(bytes, b'b')?;
    let (index, rest) = marked(rest, b'.')?;
    let (field, rest) = marked(rest, b'.')?;
    let cell = Cell {
        block,
        index,
        field,
    };
    Ok((cell, rest))
}

#[tactic(auto, unfolding(crate::specs::Readers::value_of))]
pub(crate) fn value(bytes: &[u8]) -> Result<(Value, &[u8]), ReadError>
    ensures { Gives (λ x. (x.0, x.1.now)) result (read.value_of bytes.now) }
{
    if begins(bytes, b'b') {
        let (block, rest) = marked(bytes, b'b')?;
        return Ok((Value::Block(block), rest));
    }
    if begins(bytes, b'k') {
        let (lock, rest) = marked(bytes, b'k')?;
        return Ok((Value::Lock(lock), rest));
    }
    if begins(bytes, b'n') {
        return Ok((Value::Null, word(bytes, b"null")?));
    }
    if begins(bytes, b't') || begins(bytes, b'f') {
        let (b, rest) = truth(bytes)?;
        return Ok((Value::Truth(b), rest));
    }
    let (n, rest) = signed(bytes)?;
    Ok((Value::Int(n), rest))
}
