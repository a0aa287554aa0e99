ghost use Rattle.std.specs.Prelude.{◌≡◌, ◌↔◌, IsTrue, IfOk, OnOk, string_bytes, List, ℕ, ◌++◌, ◌%◌};
ghost use Rattle.std.specs.Char.{digit_char};
ghost use Rattle.std.specs.Str.{bytes_eq, chars, IsUtf8};
ghost use Rattle.pl_base.specs.Mangling.{mangled, mangled_char};

use crate::pos::Memory;
use std::alloc::Global;
use std::marker::Model;

/// A name, which contracts see as its bytes in UTF-8.
#[derive(Debug, Drop)]
pub struct Name {
    text: String,
}

impl Model for Name {
    ghost use Rattle.std.specs.Prelude.{List, ℕ, string_bytes};

    ghost Value = { List ℕ };

    ghost view = { λ n. string_bytes n.text };
}

impl Name {
    /// The name with this text.
    pub fn of(alloc: Global, text: &str) -> Result<Name, Memory>
        ensures { IfOk result (λ name. name ≡ text.now) }
    {
        Ok(Name {
            text: String::from_str(alloc, text)?,
        })
    }

    /// Whether two names have the same bytes.
    pub fn same(&self, other: &Name) -> bool
        ensures test { result ≡ bytes_eq self.now other.now }
        ensures meaning { IsTrue result ↔ (self.now ≡ other.now) }
    {
        self.text.as_str() == other.text.as_str()
    }

    pub fn text(&self) -> &str
        ensures { result.now ≡ self.now }
    {
        self.text.as_str()
    }

    pub fn bytes(&self) -> &[u8]
        ensures { result.now ≡ self.now }
    {
        self.text.as_bytes()
    }

    /// Its text in C: ASCII letters and digits stay, `_` becomes `__`, and any other character becomes `_u` and the six
    /// lower hexadecimal digits of its code point.
    pub fn mangled(&self, alloc: Global) -> Result<Vec<u8>, Memory>
        ensures text { IfOk result (λ text. text.items ≡ mangled (chars self.now)) }
        ensures apart { IfOk result (λ text. (other : List ℕ) → IsUtf8 other → mangled (chars other) ≡ text.items → other ≡ self.now) }
    {
        let mut text = Vec::new(alloc);
        for c in self.text.chars() {
            push_mangled(&mut text, c)?;
        }
        Ok(text)
    }
}

fn push_mangled(text: &mut Vec<u8>, c: char) -> Result<(), Memory>
    ensures { OnOk result (text.new.items ≡ text.old.items ++ mangled_char c) }
{
    if c.is_ascii_alphanumeric() {
        text.push(c as u8)?;
    } else if c == '_' {
        text.extend_from_slice(b"__")?;
    } else {
        let code = c as u32;
        let digits = [
            hex_digit(code >> 20),
            hex_digit(code >> 16),
            hex_digit(code >> 12),
            hex_digit(code >> 8),
            hex_digit(code >> 4),
            hex_digit(code),
        ];
        text.extend_from_slice(b"_u")?;
        text.extend_from_slice(&digits)?;
    }
    Ok(())
}

/// The lowest hexadecimal digit of a number.
fn hex_digit(n: u32) -> u8
    ensures { result ≡ digit_char (n % 16) }
{
    let digit = (n % 16) as u8;
    if digit < 10 {
        b'0' + digit
    } else {
        b'a' + (digit - 10)
    }
}
