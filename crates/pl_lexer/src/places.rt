//! Places.

ghost use Rattle.std.specs.Prelude.{◌≡◌, ◌+◌, ◌<◌, ◌≤◌, ◌^◌, length, encode_utf8, encode_utf8_all};
ghost use Rattle.pl_lexer.specs.Tokens as spec;

use pl_base::Pos;

/// The place of the first character of a file.
pub const START: Pos = Pos {
    line: 1,
    col: 1,
    byte: 0,
};

/// The place behind a character at `p`.
fn step(p: Pos, c: char) -> Pos
    requires line { p.line + 1 < 2 ^ 32 }
    requires col { p.col + 1 < 2 ^ 32 }
    requires byte { p.byte + length (encode_utf8 c) < 2 ^ 32 }
    ensures { result ≡ spec.step p c }
{
    if c == '\n' {
        Pos {
            line: p.line + 1,
            col: 1,
            byte: p.byte + 1,
        }
    } else {
        Pos {
            line: p.line,
            col: p.col + 1,
            byte: p.byte + c.len_utf8() as u32,
        }
    }
}

/// The place behind a text at `p`.
pub fn moved(p: Pos, text: &[char]) -> Pos
    requires line { p.line + length text.now < 2 ^ 32 }
    requires col { p.col + length text.now < 2 ^ 32 }
    requires byte { p.byte + length (encode_utf8_all text.now) < 2 ^ 32 }
    ensures value { result ≡ spec.moved p text.now }
    ensures line_max { result.line ≤ p.line + length text.now }
    ensures col_max { result.col ≤ p.col + length text.now }
    ensures byte { result.byte ≡ p.byte + length (encode_utf8_all text.now) }
{
    let mut at = p;
    for c in text {
        at = step(at, *c);
    }
    at
}
