//! Names, read from their mangled text.

ghost use Rattle.std.specs.Prelude.{◌≡◌, ◌+◌, ◌*◌, ◌^◌, ◌<◌, ◌≤◌, suc, true, IfOk, IfSome, SomeIff, IsTrue, List, [], string_bytes, is_some, position, length};
ghost use Rattle.std.specs.Str.{bytes_eq};
ghost use Rattle.pl_lexer.specs.Lexemes as lexemes;
ghost use Rattle.pl_readers.specs.Given.{Gives};
ghost use Rattle.c_forms.specs.Names as spec;
ghost use Rattle.std.specs.Char.{is_ascii_alphanumeric, is_ascii_alphabetic};
ghost use Rattle.pl_readers.specs.Given.{Sees};

use pl_base::Name;
use pl_readers::bytes::{begins, word};
use pl_readers::{ReadError, refused};
use std::alloc::Global;
use unicode_ident::{is_xid_continue, is_xid_start};

/// The words of the source language, which are no names.
const WORDS: [&str; 71] = [
    "struct",
    "pred",
    "ghost",
    "fn",
    "opens",
    "requires",
    "returns",
    "ensures",
    "decreases",
    "let",
    "mut",
    "if",
    "else",
    "while",
    "invariant",
    "with",
    "with_invariants",
    "assert",
    "by",
    "return",
    "par",
    "not",
    "true",
    "false",
    "null",
    "emp",
    "pure",
    "exists",
    "slice",
    "block",
    "lock_alive",
    "lock_held",
    "inv",
    "fold",
    "unfold",
    "rewrite",
    "as",
    "share",
    "gather",
    "split",
    "join",
    "at",
    "focus",
    "unfocus",
    "drop_",
    "alloc",
    "alloc_array",
    "alloc_atomic",
    "new",
    "free",
    "free_array",
    "new_lock",
    "acquire",
    "release",
    "free_lock",
    "read",
    "print",
    "atomic_read",
    "atomic_write",
    "cas",
    "galloc",
    "new_invariant",
    "i64",
    "bool",
    "ref",
    "atomic",
    "lock",
    "int",
    "perm",
    "gref",
    "iname",
];

fn place_in(list: &[&str], spelling: &str) -> Option<usize>
    ensures { result ≡ position (λ s. bytes_eq (s.now) spelling.now) list.now }
{
    list.iter().position(|word| *word == spelling)
}

#[tactic(auto, unfolding(crate::specs::Names::is_word))]
fn is_word(spelling: &str) -> bool
    ensures { result ≡ spec.is_word spelling.now }
{
    place_in(&WORDS, spelling).is_some()
}

/// Whether a character that is no ASCII one may stand in a name.
fn fits(in_front: bool, code: u32) -> bool
    ensures { result ≡ spec.fits in_front code }
{
    match char::from_u32(code) {
        None => false,
        Some(c) => code >= 128
            && if in_front {
                is_xid_start(c) || c == '_'
            } else {
                is_xid_continue(c)
            },
    }
}

/// Whether one of the `count` characters from `code` on may stand in a name.
#[tactic(auto, unfolding(crate::specs::Names::some_fits))]
fn some_fits(in_front: bool, code: u32, count: u32) -> bool
    requires { code + count ≤ 0x1000_0000 }
    ensures { result ≡ spec.some_fits in_front code count }
{
    let mut at = code;
    let mut left = count;
    'codes: while left > 0 {
        if fits(in_front, at) {
            return true;
        }
        at += 1;
        left -= 1;
    }
    false
}

/// The value of a lower hexadecimal digit.
fn hex_value(byte: u8) -> Option<u32>
    ensures value { SomeIff result (IsTrue (spec.is_hex byte)) (spec.hex_value byte) }
    ensures within { IfSome result (λ v. v < 16) }
{
    match byte {
        b'0'..=b'9' => Some(u32::from(byte - b'0')),
        b'a'..=b'f' => Some(u32::from(byte - b'a') + 10),
        _ => None,
    }
}

fn power_of_16(exponent: u32) -> u32
    requires { exponent < 6 }
    ensures { result ≡ 16 ^ exponent }
{
    match exponent {
        0 => 1,
        1 => 0x10,
        2 => 0x100,
        3 => 0x1000,
        4 => 0x1_0000,
        _ => 0x10_0000,
    }
}

/// The hexadecimal digits `value` and one more, where `left` digits later a character that fits can stand.
fn hex_of(in_front: bool, left: u32, value: u32, byte: u8) -> Option<u32>
    requires few { left < 6 }
    requires room { (value + 1) * 16 ^ (left + 1) ≤ 0x100_0000 }
    ensures value { result ≡ spec.hex_of in_front left value byte }
    ensures within { IfSome result (λ w. (w + 1) * 16 ^ left ≤ 0x100_0000) }
{
    let digit = hex_value(byte)?;
    let value = value * 16 + digit;
    let count = power_of_16(left);
    if some_fits(in_front, value * count, count) {
        Some(value)
    } else {
        None
    }
}

/// As many digits more behind those of `value`.
#[tactic(auto, unfolding(crate::specs::Names::hexes))]
fn hexes(in_front: bool, left: u32, value: u32, bytes: &[u8]) -> Result<(u32, &[u8]), ReadError>
    requires few { left ≤ 6 }
    requires room { (value + 1) * 16 ^ left ≤ 0x100_0000 }
    ensures { Gives (λ x. (x.0, x.1.now)) result (spec.hexes in_front left value bytes.now) }
{
    if left == 0 {
        return Ok((value, bytes));
    }
    match bytes {
        [byte, rest @ ..] => match hex_of(in_front, left - 1, value, *byte) {
            Some(value) => hexes(in_front, left - 1, value, rest),
            None => Err(refused(bytes)),
        },
        [] => Err(refused(bytes)),
    }
}

/// The escape of a character that is no ASCII one, behind its `_`.
fn escape(in_front: bool, bytes: &[u8]) -> Result<(char, &[u8]), ReadError>
    ensures { Gives (λ x. (x.0, x.1.now)) result (spec.escape in_front bytes.now) }
{
    let rest = word(bytes, b"u")?;
    let (code, rest) = hexes(in_front, 6, 0, rest)?;
    match char::from_u32(code) {
        Some(c) => Ok((c, rest)),
        None => Err(refused(rest)),
    }
}

/// An ASCII letter or digit at the front of the bytes.
fn plain(bytes: &[u8]) -> Option<(u8, &[u8])>
    ensures value { Sees is_ascii_alphanumeric (spec.plain_of is_ascii_alphanumeric) (λ x. (x.0, x.1.now)) result bytes.now }
    ensures low { IfSome result (λ x. x.0 < 128) }
{
    match bytes {
        [byte, rest @ ..] if byte.is_ascii_alphanumeric() => Some((*byte, rest)),
        _ => None,
    }
}

/// Further characters of a name, at most `count` and in at most `room` bytes; they are put behind `name`.
#[tactic(auto, unfolding(crate::specs::Names::more))]
fn more<'a>(
    name: &mut String,
    count: u32,
    room: u32,
    bytes: &'a [u8],
) -> Result<&'a [u8], ReadError>
    ensures { Gives (λ rest. (string_bytes name.new, rest.now)) result (spec.more count room (string_bytes name.old) bytes.now) }
{
    if count == 0 {
        return Ok(bytes);
    }
    if room >= 1 {
        if let Some((byte, rest)) = plain(bytes) {
            name.push(byte as char)?;
            return more(name, count - 1, room - 1, rest);
        }
    }
    if room >= 2 && begins(bytes, b'_') {
        let rest = word(bytes, b"_")?;
        if room >= 8 && begins(rest, b'u') {
            let (c, rest) = escape(false, rest)?;
            name.push(c)?;
            return more(name, count - 1, room - 8, rest);
        }
        let rest = word(rest, b"_")?;
        name.push('_')?;
        return more(name, count - 1, room - 2, rest);
    }
    Ok(bytes)
}

/// The same with one `_` behind them.
#[tactic(auto, unfolding(crate::specs::Names::more_line))]
fn more_line<'a>(
    name: &mut String,
    count: u32,
    room: u32,
    bytes: &'a [u8],
) -> Result<&'a [u8], ReadError>
    ensures { Gives (λ rest. (string_bytes name.new, rest.now)) result (spec.more_line count room (string_bytes name.old) bytes.now) }
{
    if count == 0 {
        let rest = word(bytes, b"_")?;
        return Ok(rest);
    }
    if room >= 1 {
        if let Some((byte, rest)) = plain(bytes) {
            name.push(byte as char)?;
            return more_line(name, count - 1, room - 1, rest);
        }
    }
    let rest = word(bytes, b"_")?;
    if begins(rest, b'u') {
        if room >= 8 {
            let (c, rest) = escape(false, rest)?;
            name.push(c)?;
            return more_line(name, count - 1, room - 8, rest);
        }
        return Ok(rest);
    }
    if room >= 2 && begins(rest, b'_') {
        let rest = word(rest, b"_")?;
        name.push('_')?;
        return more_line(name, count - 1, room - 2, rest);
    }
    Ok(rest)
}

/// An ASCII letter at the front of the bytes.
fn letter(bytes: &[u8]) -> Option<(u8, &[u8])>
    ensures value { Sees is_ascii_alphabetic (spec.plain_of is_ascii_alphabetic) (λ x. (x.0, x.1.now)) result bytes.now }
    ensures low { IfSome result (λ x. x.0 < 128) }
{
    match bytes {
        [byte, rest @ ..] if byte.is_ascii_alphabetic() => Some((*byte, rest)),
        _ => None,
    }
}

/// The first character of a name, which is put behind `name`, and how many bytes are left for others.
#[tactic(auto, unfolding(crate::specs::Names::first))]
fn first<'a>(name: &mut String, bytes: &'a [u8]) -> Result<(u32, &'a [u8]), ReadError>
    ensures { Gives (λ x. ((x.0, string_bytes name.new), x.1.now)) result (spec.first (string_bytes name.old) bytes.now) }
{
    if let Some((byte, rest)) = letter(bytes) {
        name.push(byte as char)?;
        return Ok((49, rest));
    }
    let rest = word(bytes, b"_")?;
    if begins(rest, b'u') {
        let (c, rest) = escape(true, rest)?;
        name.push(c)?;
        return Ok((42, rest));
    }
    let rest = word(rest, b"_")?;
    name.push('_')?;
    Ok((48, rest))
}

/// A name.
#[tactic(auto, unfolding(crate::specs::Names::name))]
pub fn name(alloc: Global, bytes: &[u8]) -> Result<(Name, &[u8]), ReadError>
    ensures { Gives (λ x. (x.0, x.1.now)) result (spec.name bytes.now) }
{
    let mut text = String::new(alloc);
    let (room, rest) = first(&mut text, bytes)?;
    let rest = more(&mut text, 39, room, rest)?;
    if is_word(text.as_str()) {
        return Err(refused(rest));
    }
    Ok((Name::of(alloc, text.as_str())?, rest))
}

/// A name and the `_` behind it.
#[tactic(auto, unfolding(crate::specs::Names::name_line))]
pub fn name_line(alloc: Global, bytes: &[u8]) -> Result<(Name, &[u8]), ReadError>
    ensures { Gives (λ x. (x.0, x.1.now)) result (spec.name_line bytes.now) }
{
    let mut text = String::new(alloc);
    let (room, rest) = first(&mut text, bytes)?;
    let rest = more_line(&mut text, 39, room, rest)?;
    if is_word(text.as_str()) {
        return Err(refused(rest));
    }
    Ok((Name::of(alloc, text.as_str())?, rest))
}
