// The numbers of an input.
ghost use Rattle.std.specs.Prelude.{◌≡◌, ◌≤◌, ◌<◌, ◌+◌, ◌^◌, ◌++◌, ◌∷◌, [], true, OnOk, MatchOption, length};
ghost use Rattle.std.specs.List.{list_all, prefix_len};
ghost use Rattle.pl_base.specs.Tokens as spelling;
ghost use Rattle.pl_top.specs.Input as text;

use pl_base::Memory;
use std::alloc::Global;

/// Why an input has no numbers.
#[derive(Clone, Copy, PartialEq, Eq, Debug)]
pub enum InputError {
    /// The first line that is refused, from 1.
    Line(u32),
    Memory,
}

impl From<Memory> for InputError {
    ghost use Rattle.std.specs.Prelude.{◌≡◌};
    ghost use Rattle.pl_top.specs.declared.input.InputError.TheVariants.{Memory};

    ghost from_gives = { λ _ e. e ≡ Memory };

    fn from(_: Memory) -> InputError {
        InputError::Memory
    }
}

// The largest number without its sign.
const LARGEST: u64 = 1 << 63;

fn is_digit(byte: u8) -> bool
    ensures { result ≡ spelling.is_digit byte }
{
    byte.is_ascii_digit()
}

fn all_digits(bytes: &[u8]) -> bool
    ensures { result ≡ list_all spelling.is_digit bytes.now }
{
    bytes.iter().all(|byte| is_digit(*byte))
}

fn are_digits(bytes: &[u8]) -> bool
    ensures { result ≡ text.are_digits bytes.now }
{
    1 <= bytes.len() && bytes.len() <= 19 && all_digits(bytes)
}

/// The number that digits spell, unless it is too large.
fn value_of(digits: &[u8]) -> Option<u64>
    requires { list_all spelling.is_digit digits.now ≡ true }
    ensures { MatchOption result (2 ^ 63 < spelling.digits_onto 0 digits.now) (λ n. (spelling.digits_onto 0 digits.now ≡ n) × (n ≤ 2 ^ 63)) }
{
    let mut value: u64 = 0;
    for byte in digits {
        let digit = u64::from(byte.saturating_sub(b'0'));
        if value > (LARGEST - digit) / 10 {
            return None;
        }
        value = value * 10 + digit;
    }
    Some(value)
}

/// A number of digits, if it has 64 bits with its sign.
fn above(digits: &[u8]) -> Option<i64>
    requires { list_all spelling.is_digit digits.now ≡ true }
    ensures { result ≡ text.above (spelling.digits_onto 0 digits.now) }
{
    let value = value_of(digits)?;
    if value < 1 << 63 {
        Some(value as i64)
    } else {
        None
    }
}

fn below(digits: &[u8]) -> Option<i64>
    requires { list_all spelling.is_digit digits.now ≡ true }
    ensures { result ≡ text.below (spelling.digits_onto 0 digits.now) }
{
    let value = value_of(digits)?;
    if value == 0 {
        Some(0)
    } else {
        Some(-1 - (value - 1) as i64)
    }
}

/// The number of a line.
fn number_of(line: &[u8]) -> Option<i64>
    ensures { result ≡ text.number_of line.now }
{
    match line {
        [] => None,
        [b'-', digits @ ..] => {
            if are_digits(digits) {
                below(digits)
            } else {
                None
            }
        }
        [_, ..] => { if are_digits(line) { above(line) } else { None } }
    }
}

fn line_len(bytes: &[u8]) -> usize
    ensures value { result ≡ prefix_len text.is_inside bytes.now }
    ensures within { result ≤ length bytes.now }
{
    bytes.iter().take_while(|byte| **byte != b'\n').count()
}

/// The first line, and what stands behind its end.
fn first_line(bytes: &[u8]) -> (&[u8], &[u8])
    requires { 0 < length bytes.now }
    ensures lines { text.lines_of bytes.now ≡ result.0.now ∷ text.lines_of result.1.now }
    ensures shorter { length result.1.now < length bytes.now }
{
    let at = line_len(bytes);
    let (line, rest) = bytes.split_at(at);
    match rest {
        [] => (line, rest),
        [_, behind @ ..] => (line, behind),
    }
}

fn push(numbers: &mut Vec<i64>, number: i64) -> Result<(), Memory>
    ensures { OnOk result (numbers.new.items ≡ numbers.old.items ++ number ∷ []) }
{
    numbers.push(number)?;
    Ok(())
}

/// The numbers of an input.
///
/// # Errors
///
/// The first line that is refused, and want of memory.
pub fn read_numbers(alloc: Global, bytes: &[u8]) -> Result<Vec<i64>, InputError>
    requires { length bytes.now ≤ 1048576 }
    ensures { text.Tells (λ v. v.items) result (text.input_of bytes.now) }
{
    let mut numbers = Vec::new(alloc);
    let mut rest = bytes;
    let mut line = 1;
    while !rest.is_empty() {
        let (first, behind) = first_line(rest);
        let Some(number) = number_of(first) else {
            return Err(InputError::Line(line));
        };
        push(&mut numbers, number)?;
        rest = behind;
        line += 1;
    }
    Ok(numbers)
}
