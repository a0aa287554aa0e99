//! How long the longest lexeme at the front of a text is.

ghost use Rattle.std.specs.Prelude.{◌≡◌, ◌≤◌, not, length};
ghost use Rattle.std.specs.Char.{is_ascii_digit};
ghost use Rattle.std.specs.List.{prefix_len};
ghost use Rattle.pl_lexer.specs.Lexemes as lexemes;
ghost use Rattle.pl_lexer.specs.Scan as spec;

use unicode_ident::{is_xid_continue, is_xid_start};

pub fn is_blank(c: char) -> bool
    ensures { result ≡ lexemes.is_blank c }
{
    matches!(c, ' ' | '\t' | '\r' | '\n')
}

/// Whether an identifier may begin with the character.
pub fn is_start(c: char) -> bool
    ensures { result ≡ lexemes.is_start c }
{
    is_xid_start(c) || c == '_'
}

fn identifier_len(text: &[char]) -> usize
    ensures value { result ≡ prefix_len lexemes.is_more text.now }
    ensures within { result ≤ length text.now }
{
    text.iter().take_while(|c| is_xid_continue(**c)).count()
}

fn digits_len(text: &[char]) -> usize
    ensures value { result ≡ prefix_len is_ascii_digit text.now }
    ensures within { result ≤ length text.now }
{
    text.iter().take_while(|c| c.is_ascii_digit()).count()
}

fn line_len(text: &[char]) -> usize
    ensures value { result ≡ prefix_len (λ c. not (lexemes.is_lf c)) text.now }
    ensures within { result ≤ length text.now }
{
    text.iter().take_while(|c| **c != '\n').count()
}

fn begins_long_symbol(text: &[char]) -> bool
    ensures { result ≡ spec.begins_symbol 3 text.now }
{
    matches!(text, ['=', '=', '>', ..] | ['|', '-', '>', ..])
}

fn begins_double_symbol(text: &[char]) -> bool
    ensures { result ≡ spec.begins_symbol 2 text.now }
{
    matches!(
        text,
        [':' | '<' | '>' | '=' | '!', '=', ..] | ['*', '*', ..] | ['&', '&', ..] | ['|', '|', ..]
    )
}

fn begins_single_symbol(text: &[char]) -> bool
    ensures { result ≡ spec.begins_symbol 1 text.now }
{
    matches!(
        text,
        [
            '(' | ')'
                | '{'
                | '}'
                | '['
                | ']'
                | ','
                | ';'
                | ':'
                | '.'
                | '#'
                | '='
                | '+'
                | '-'
                | '*'
                | '/'
                | '%'
                | '<'
                | '>'
                | '!',
            ..
        ]
    )
}

#[tactic(auto, unfolding(crate::specs::Scan::symbol_len))]
fn symbol_len(text: &[char]) -> usize
    ensures { result ≡ spec.symbol_len text.now }
{
    if begins_long_symbol(text) {
        3
    } else if begins_double_symbol(text) {
        2
    } else if begins_single_symbol(text) {
        1
    } else {
        0
    }
}

/// How many characters the longest lexeme at the front has, or 0 where none begins there.
#[tactic(auto, unfolding(crate::specs::Scan::lexeme_len))]
pub fn lexeme_len(text: &[char]) -> usize
    ensures { result ≡ spec.lexeme_len text.now }
{
    match text {
        [] => 0,
        [c, more @ ..] => {
            if is_blank(*c) {
                1
            } else if is_start(*c) {
                1 + identifier_len(more)
            } else if c.is_ascii_digit() {
                1 + digits_len(more)
            } else if *c == '/' && matches!(more, ['/', ..]) {
                1 + line_len(more)
            } else {
                symbol_len(text)
            }
        }
    }
}
