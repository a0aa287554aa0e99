//! The signs by their numbers.

ghost use Rattle.std.specs.Prelude.{◌≡◌, ◌<◌, ◌+◌, length, position, option_map, IfSome, encode_utf8_all};
ghost use Rattle.std.specs.Str.{bytes_eq};
ghost use Rattle.pl_readers.specs.Reader as read;
ghost use Rattle.pl_base.specs.Tokens.{words};
ghost use Rattle.pl_lexer.specs.Lexemes.{is_start, symbols};
ghost use Rattle.pl_lexer.specs.Tokens as spec;

use crate::scan::is_start;

/// The symbols, in the order of their numbers.
const SYMBOLS: [&str; 30] = [
    "(", ")", "{", "}", "[", "]", ",", ";", ":", ".", "#", "=", ":=", "|->", "**", "+", "-", "*",
    "/", "%", "<", "<=", ">", ">=", "==", "!=", "&&", "||", "==>", "!",
];

/// The words of the language, whose numbers follow.
const WORDS: [&str; 71] = [
    "struct",
    "pred",
    "ghost",
    "fn",
    "opens",
    "requires",
    "returns",
    "ensures",
    "decreases",
    "let",
    "mut",
    "if",
    "else",
    "while",
    "invariant",
    "with",
    "with_invariants",
    "assert",
    "by",
    "return",
    "par",
    "not",
    "true",
    "false",
    "null",
    "emp",
    "pure",
    "exists",
    "slice",
    "block",
    "lock_alive",
    "lock_held",
    "inv",
    "fold",
    "unfold",
    "rewrite",
    "as",
    "share",
    "gather",
    "split",
    "join",
    "at",
    "focus",
    "unfocus",
    "drop_",
    "alloc",
    "alloc_array",
    "alloc_atomic",
    "new",
    "free",
    "free_array",
    "new_lock",
    "acquire",
    "release",
    "free_lock",
    "read",
    "print",
    "atomic_read",
    "atomic_write",
    "cas",
    "galloc",
    "new_invariant",
    "i64",
    "bool",
    "ref",
    "atomic",
    "lock",
    "int",
    "perm",
    "gref",
    "iname",
];

fn place_in(list: &[&str], spelling: &str) -> Option<usize>
    ensures value { result ≡ position (λ s. bytes_eq (s.now) spelling.now) list.now }
    ensures within { IfSome result (λ place. place < length list.now) }
{
    list.iter().position(|sign| *sign == spelling)
}

fn symbol_number(spelling: &str) -> Option<u8>
    ensures { result ≡ position (λ s. bytes_eq s spelling.now) symbols }
{
    match place_in(&SYMBOLS, spelling) {
        Some(place) => Some(place as u8),
        None => None,
    }
}

fn word_number(spelling: &str) -> Option<u8>
    ensures { result ≡ option_map (λ place. 30 + place) (position (λ s. bytes_eq s spelling.now) words) }
{
    match place_in(&WORDS, spelling) {
        Some(place) => Some(30 + place as u8),
        None => None,
    }
}

/// The number of the sign that characters spell.
pub fn sign_number(lexeme: &[char], spelling: &str) -> Option<u8>
    requires { spelling.now ≡ encode_utf8_all lexeme.now }
    ensures { result ≡ spec.sign_number spelling.now }
{
    if begins_identifier(lexeme) {
        word_number(spelling)
    } else {
        symbol_number(spelling)
    }
}

fn begins_identifier(lexeme: &[char]) -> bool
    ensures { result ≡ read.begins is_start lexeme.now }
{
    match lexeme {
        [] => false,
        [first, ..] => is_start(*first),
    }
}
