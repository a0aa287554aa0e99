ghost use Rattle.std.specs.Prelude.{◌≡◌, ◌<◌, ◌^◌, length, slice_get, Some};

use pl_base::{Name, Pos};
use std::marker::Model;

/// What a token is.
#[derive(Debug, Drop)]
pub enum Kind {
    /// A name: an identifier that is no word of the language.
    Word(Name),
    /// A number, at least 0.
    Number(i128),
    /// A symbol or a word of the language, by its number in the list of signs.
    Sign(u8),
    /// The end of the file.
    End,
}

/// A token and the place of its first character.
#[derive(Debug, Drop)]
pub struct Token {
    pub pos: Pos,
    pub kind: Kind,
}

/// The tokens of a file, which contracts see as their list.
#[derive(Debug, Drop)]
pub struct Tokens {
    list: Vec<Token>,
}

impl Model for Tokens {
    ghost use Rattle.std.specs.Prelude.{List, length, ◌<◌, ◌^◌};
    ghost use Rattle.pl_lexer.specs.declared.tokens.Token.{Token};

    ghost Value = { List Token };

    ghost view = { λ t. t.list.items };

    ghost invariant = { λ t. length t.list.items < 2 ^ 32 };
}

impl Tokens {
    /// A list of tokens. It takes no memory.
    pub(crate) fn of(list: Vec<Token>) -> Tokens
        requires { length list.items < 2 ^ 32 }
        ensures { result ≡ list.items }
    {
        Tokens { list }
    }

    /// How many tokens there are, the end among them.
    pub fn len(&self) -> u32
        ensures { result ≡ length self.now }
    {
        self.list.len() as u32
    }

    /// All tokens.
    pub fn as_slice(&self) -> &[Token]
        ensures { result.now ≡ self.now }
    {
        self.list.as_slice()
    }

    /// The token at `k`.
    pub fn at(&self, k: u32) -> &Token
        requires { k < length self.now }
        ensures { slice_get self.now k ≡ Some result.now }
    {
        &self.list[k as usize]
    }
}
