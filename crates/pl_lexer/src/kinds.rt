//! What a lexeme stands for.

ghost use Rattle.std.specs.Prelude.{◌≡◌, ◌↔◌, ◌⊎◌, ◌+◌, ◌*◌, ◌^◌, ◌<◌, ◌≤◌, pos, length, IsTrue, SomeIff, MatchOption, sum_by, encode_utf8_all};
ghost use Rattle.std.specs.Char.{is_ascii_digit};
ghost use Rattle.pl_base.specs.Mangling.{mangled_char};
ghost use Rattle.pl_readers.specs.Bytes.{value_from};
ghost use Rattle.pl_readers.specs.Reader as read;
ghost use Rattle.pl_lexer.specs.Answers.{KindAnswers};
ghost use Rattle.pl_lexer.specs.Tokens as spec;

use crate::error::LexError;
use crate::scan::is_blank;
use crate::signs::sign_number;
use crate::tokens::Kind;
use pl_base::{Name, Pos};
use std::alloc::Global;

/// The most characters of a name.
const MOST_CHARACTERS: usize = 40;

/// The most bytes of a name once mangled.
const MOST_MANGLED: usize = 50;

/// The kind of the token that a lexeme at a place stands for: none where it is a blank or a comment. `spelling` is the
/// lexeme in UTF-8.
pub fn kind_of(
    alloc: Global,
    at: Pos,
    lexeme: &[char],
    spelling: &str,
) -> Result<Option<Kind>, LexError>
    requires { spelling.now ≡ encode_utf8_all lexeme.now }
    ensures { KindAnswers result at lexeme.now }
{
    if is_gap(lexeme) {
        Ok(None)
    } else if begins_number(lexeme) {
        match value(lexeme) {
            Some(value) => Ok(Some(Kind::Number(value))),
            None => Err(LexError::LongNumber(at)),
        }
    } else if let Some(number) = sign_number(lexeme, spelling) {
        Ok(Some(Kind::Sign(number)))
    } else if is_long_name(lexeme) {
        Err(LexError::LongName(at))
    } else {
        Ok(Some(Kind::Word(Name::of(alloc, spelling)?)))
    }
}

/// Whether a lexeme is a blank or a comment.
fn is_gap(lexeme: &[char]) -> bool
    ensures { result ≡ spec.is_gap lexeme.now }
{
    match lexeme {
        [] => false,
        ['/', '/', ..] => true,
        [c, ..] => is_blank(*c),
    }
}

fn begins_number(lexeme: &[char]) -> bool
    ensures { result ≡ read.begins is_ascii_digit lexeme.now }
{
    match lexeme {
        [] => false,
        [c, ..] => c.is_ascii_digit(),
    }
}

/// The number that decimal digits spell, where it is below 2^127.
fn value(digits: &[char]) -> Option<i128>
    ensures { MatchOption result (2 ^ 127 ≤ value_from 0 digits.now) (λ v. v ≡ pos (value_from 0 digits.now)) }
{
    let mut value: u128 = 0;
    for c in digits {
        value = grown(value, (*c as u32).saturating_sub('0' as u32))?;
    }
    Some(value as i128)
}

/// A number with one more digit, where it stays below 2^127.
fn grown(value: u128, digit: u32) -> Option<u128>
    ensures { SomeIff result (value * 10 + digit < 2 ^ 127) (value * 10 + digit) }
{
    let grown = value.checked_mul(10)?.checked_add(u128::from(digit))?;
    if grown < 1 << 127 { Some(grown) } else { None }
}

fn is_long_name(name: &[char]) -> bool
    ensures { IsTrue result ↔ ((40 < length name.now) ⊎ (50 < spec.mangled_len name.now)) }
{
    name.len() > MOST_CHARACTERS || mangled_len(name) > MOST_MANGLED
}

/// How many bytes a name of so few characters has once mangled.
fn mangled_len(name: &[char]) -> usize
    requires { length name.now ≤ 40 }
    ensures { result ≡ sum_by (λ c. length (mangled_char c)) name.now }
{
    name.iter().map(|c| mangled_char_len(*c)).sum()
}

fn mangled_char_len(c: char) -> usize
    ensures value { result ≡ length (mangled_char c) }
    ensures within { result ≤ 8 }
{
    match c {
        '_' => 2,
        c if c.is_ascii_alphanumeric() => 1,
        _ => 8,
    }
}
