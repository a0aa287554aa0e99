//! Numbers, locals and types.

ghost use Rattle.std.specs.Prelude.{◌≡◌, ◌^◌, ◌<◌, ◌≤◌, ◌+◌, ◌*◌, ◌-◌, IfOk, SomeIff, List, length, Ok};
ghost use Rattle.std.specs.Char.{is_ascii_digit};
ghost use Rattle.std.specs.List.{prefix_len};
ghost use Rattle.pl_readers.specs.Bytes.{value_from};
ghost use Rattle.pl_readers.specs.Given.{Gives};
ghost use Rattle.c_forms.specs.ExprReaders as spec;

use crate::names::{name, name_line};
use crate::word::{Local, Number};
use c_syntax::CType;
use pl_base::Items;
use pl_readers::bytes::{begins, word};
use pl_readers::{ReadError, refused};
use std::alloc::Global;

fn digits_len(bytes: &[u8]) -> usize
    ensures value { result ≡ prefix_len is_ascii_digit bytes.now }
    ensures within { result ≤ length bytes.now }
{
    bytes.iter().take_while(|c| c.is_ascii_digit()).count()
}

/// Decimal digits without a leading zero, and what stands behind them.
#[tactic(auto, unfolding(crate::specs::ExprReaders::numeral))]
fn numeral(bytes: &[u8]) -> Result<(&[u8], &[u8]), ReadError>
    ensures { Gives (λ x. (x.0.now, x.1.now)) result (spec.numeral bytes.now) }
{
    match bytes {
        [b'0', rest @ ..] => Ok((b"0", rest)),
        [first, ..] if first.is_ascii_digit() => Ok(bytes.split_at(digits_len(bytes))),
        _ => Err(refused(bytes)),
    }
}

/// The number that digits spell, where it is a `u32`.
fn small(digits: &[u8]) -> Option<u32>
    ensures { SomeIff result (value_from 0 digits.now < 2 ^ 32) (value_from 0 digits.now) }
{
    let mut value: u32 = 0;
    for digit in digits {
        value = grown(value, *digit)?;
    }
    Some(value)
}

/// A number with one more digit, where it is a `u32`.
fn grown(value: u32, digit: u8) -> Option<u32>
    ensures { SomeIff result (value * 10 + (digit - 48) < 2 ^ 32) (value * 10 + (digit - 48)) }
{
    value
        .checked_mul(10)?
        .checked_add(u32::from(digit.saturating_sub(b'0')))
}

/// A number.
#[tactic(auto, unfolding(crate::specs::ExprReaders::decimal_number))]
pub fn decimal_number(alloc: Global, bytes: &[u8]) -> Result<(Number, &[u8]), ReadError>
    ensures { Gives (λ x. (x.0, x.1.now)) result (spec.decimal_number bytes.now) }
{
    let (digits, rest) = numeral(bytes)?;
    match small(digits) {
        Some(value) => Ok((Number::Small(value), rest)),
        None => Ok((Number::Long(Items::of(digits.to_vec(alloc)?)), rest)),
    }
}

/// A local behind its `v_`.
#[tactic(auto, unfolding(crate::specs::ExprReaders::local_tail))]
pub fn local_tail(alloc: Global, bytes: &[u8]) -> Result<(Local, &[u8]), ReadError>
    ensures { Gives (λ x. (x.0, x.1.now)) result (spec.local_tail bytes.now) }
{
    let (name, rest) = name_line(alloc, bytes)?;
    let (number, rest) = decimal_number(alloc, rest)?;
    Ok((Local { name, number }, rest))
}

/// A local.
#[tactic(auto, unfolding(crate::specs::ExprReaders::local))]
pub fn local(alloc: Global, bytes: &[u8]) -> Result<(Local, &[u8]), ReadError>
    ensures { Gives (λ x. (x.0, x.1.now)) result (spec.local bytes.now) }
{
    let rest = word(bytes, b"v_")?;
    local_tail(alloc, rest)
}

/// `int64_t` or a pointer to one, behind the `i`.
#[tactic(auto, unfolding(crate::specs::ExprReaders::i64_tail))]
pub fn i64_tail(bytes: &[u8]) -> Result<(CType, &[u8]), ReadError>
    ensures { Gives (λ x. (x.0, x.1.now)) result (spec.i64_tail bytes.now) }
{
    let rest = word(bytes, b"nt64_t ")?;
    if begins(rest, b'*') {
        let rest = word(rest, b"*")?;
        return Ok((CType::PtrI64, rest));
    }
    Ok((CType::I64, rest))
}

/// `bool` or a pointer to one.
#[tactic(auto, unfolding(crate::specs::ExprReaders::bool_type))]
pub fn bool_type(bytes: &[u8]) -> Result<(CType, &[u8]), ReadError>
    ensures { Gives (λ x. (x.0, x.1.now)) result (spec.bool_type bytes.now) }
{
    let rest = word(bytes, b"bool ")?;
    if begins(rest, b'*') {
        let rest = word(rest, b"*")?;
        return Ok((CType::PtrBool, rest));
    }
    Ok((CType::Bool, rest))
}

/// A pointer to a structure or a lock.
#[tactic(auto, unfolding(crate::specs::ExprReaders::struct_type))]
pub fn struct_type(alloc: Global, bytes: &[u8]) -> Result<(CType, &[u8]), ReadError>
    ensures { Gives (λ x. (x.0, x.1.now)) result (spec.struct_type bytes.now) }
{
    let rest = word(bytes, b"struct ")?;
    if begins(rest, b's') {
        let rest = word(rest, b"s_")?;
        let (structure, rest) = name(alloc, rest)?;
        let rest = word(rest, b" *")?;
        return Ok((CType::PtrStruct(structure), rest));
    }
    let rest = word(rest, b"p_lock *")?;
    Ok((CType::PtrLock, rest))
}

/// A type but `void`, `int64_t` and pointers to that.
#[tactic(auto, unfolding(crate::specs::ExprReaders::other_type))]
pub fn other_type(alloc: Global, bytes: &[u8]) -> Result<(CType, &[u8]), ReadError>
    ensures { Gives (λ x. (x.0, x.1.now)) result (spec.other_type bytes.now) }
{
    if begins(bytes, b'b') {
        return bool_type(bytes);
    }
    if begins(bytes, b'p') {
        let rest = word(bytes, b"p_atomic *")?;
        return Ok((CType::PtrAtomic, rest));
    }
    struct_type(alloc, bytes)
}

/// A type but `void`.
#[tactic(auto, unfolding(crate::specs::ExprReaders::shown_type))]
pub fn shown_type(alloc: Global, bytes: &[u8]) -> Result<(CType, &[u8]), ReadError>
    ensures { Gives (λ x. (x.0, x.1.now)) result (spec.shown_type bytes.now) }
{
    if begins(bytes, b'i') {
        let rest = word(bytes, b"i")?;
        return i64_tail(rest);
    }
    other_type(alloc, bytes)
}

/// A type.
#[tactic(auto, unfolding(crate::specs::ExprReaders::any_type))]
pub fn any_type(alloc: Global, bytes: &[u8]) -> Result<(CType, &[u8]), ReadError>
    ensures { Gives (λ x. (x.0, x.1.now)) result (spec.any_type bytes.now) }
{
    if begins(bytes, b'v') {
        let rest = word(bytes, b"void ")?;
        return Ok((CType::Void, rest));
    }
    shown_type(alloc, bytes)
}
