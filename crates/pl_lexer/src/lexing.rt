//! The tokens of a text.

ghost use Rattle.std.specs.Prelude.{◌≡◌, ◌≢◌, ◌<◌, ◌-◌, ◌^◌, length, List, IfOk, IfErr, Ok, Err, true, encode_utf8_all};
ghost use Rattle.pl_lexer.specs.declared.error.LexError.{LexError};
ghost use Rattle.pl_lexer.specs.declared.error.LexError.TheVariants.{Memory};
ghost use Rattle.pl_lexer.specs.declared.tokens.Token.{Token};
ghost use Rattle.std.specs.Str.{all_scalars, chars, IsUtf8};
ghost use Rattle.pl_lexer.specs.Tokens as spec;

use crate::error::LexError;
use crate::kinds::kind_of;
use crate::places::{START, moved};
use crate::scan::lexeme_len;
use crate::tokens::{Kind, Token, Tokens};
use std::alloc::{AllocError, Global};

/// The tokens of a file's bytes, with the end as the last: the text is cut into the longest lexemes, and each is a token
/// that is no blank and no comment. Bytes that are no UTF-8 are refused before all else, and then the first place at which
/// no lexeme begins, a number passes 2^127 - 1, or a name has more than 40 characters or 50 bytes once mangled.
pub fn lex(alloc: Global, bytes: &[u8]) -> Result<Tokens, LexError>
    requires { length bytes.now < 2 ^ 32 - 1 }
    ensures tokens { IfOk result (spec.IsLexed bytes.now) }
    ensures refusal { IfErr result (spec.IsRefusal bytes.now) }
    ensures all_tokens { (tokens : List Token) →
        spec.IsLexed bytes.now tokens → spec.IsButForMemory result (Ok tokens) }
    ensures all_refusals { (error : LexError) → error ≢ Memory →
        spec.IsRefusal bytes.now error → spec.IsButForMemory result (Err error) }
{
    match std::str::from_utf8(bytes) {
        Err(error) => Err(LexError::BadUtf8(error.valid_up_to() as u32)),
        Ok(text) => {
            let characters = characters_of(alloc, text)?;
            lex_text(alloc, text, characters.as_slice())
        }
    }
}

fn characters_of(alloc: Global, text: &str) -> Result<Vec<char>, AllocError>
    ensures { IfOk result (λ v. v.items ≡ chars text.now) }
{
    text.chars().collect(alloc)
}

/// The tokens of a text and its characters.
fn lex_text(alloc: Global, text: &str, characters: &[char]) -> Result<Tokens, LexError>
    requires spelled { text.now ≡ encode_utf8_all characters.now }
    requires scalars { all_scalars characters.now ≡ true }
    requires short { length text.now < 2 ^ 32 - 1 }
    ensures tokens { IfOk result (spec.IsCutInto characters.now) }
    ensures refusal { IfErr result (spec.IsRefusedAt characters.now) }
{
    let mut tokens = Vec::new(alloc);
    let mut at = START;
    let mut rest = characters;
    'lexemes: while !rest.is_empty() {
        let len = lexeme_len(rest);
        if len == 0 {
            return Err(LexError::BadChar(at));
        }
        let (lexeme, behind) = rest.split_at(len);
        let after = moved(at, lexeme);
        let spelling = &text[at.byte as usize..after.byte as usize];
        if let Some(kind) = kind_of(alloc, at, lexeme, spelling)? {
            tokens.push(Token { pos: at, kind })?;
        }
        at = after;
        rest = behind;
    }
    tokens.push(Token {
        pos: at,
        kind: Kind::End,
    })?;
    Ok(Tokens::of(tokens))
}
