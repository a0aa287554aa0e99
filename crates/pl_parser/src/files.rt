//! Declarations one behind the other, and files.

ghost use Rattle.std.specs.Prelude.{◌≡◌, ◌≤◌, ◌&&◌, nat_lt, map, length, IfOk, Ok};
ghost use Rattle.pl_readers.specs.Given.{Gives};
ghost use Rattle.pl_readers.specs.Reader.{begins, ended, many, one, whole};
ghost use Rattle.pl_syntax.specs.Plain.{plain_decl, plain_program};
ghost use Rattle.pl_grammar.specs.FileGrammar as spec;
ghost use Rattle.pl_grammar.specs.FileReaders as read;
ghost use Rattle.pl_grammar.specs.Signs.{token_in};

use crate::decls::declaration;
use pl_base::Items;
use pl_grammar::begins;
use pl_lexer::{Kind, Token};
use pl_readers::{ReadError, refused};
use pl_syntax::{Decl, Program};
use std::alloc::Global;

/// Whether the next token begins a declaration.
pub fn begins_declaration(tokens: &[Token]) -> bool
    ensures { result ≡ begins (token_in read.declaration_firsts) tokens.now }
{
    begins(tokens, &[30, 31, 32, 33])
}

/// Whether another declaration may stand here and does.
fn goes_on(room: usize, tokens: &[Token]) -> bool
    ensures { result ≡ nat_lt 0 room && begins (token_in read.declaration_firsts) tokens.now }
{
    room > 0 && begins_declaration(tokens)
}

/// `{ struct | pred | func }`, at most `limit` of them.
pub fn declarations(
    alloc: Global,
    depth: u32,
    limit: usize,
    tokens: &[Token],
) -> Result<(Items<Decl>, &[Token]), ReadError>
    ensures { Gives (λ x. (map plain_decl x.0, x.1.now)) result (many limit (token_in read.declaration_firsts) (read.declaration depth) tokens.now) }
{
    let mut all = Vec::new(alloc);
    let mut rest = tokens;
    let mut room = limit;
    'turns: while goes_on(room, rest) {
        let (item, after) = declaration(alloc, depth, rest)?;
        all.push(item)?;
        rest = after;
        room -= 1;
    }
    Ok((Items::of(all), rest))
}

/// The end of the file, with nothing behind it.
fn end(tokens: &[Token]) -> Result<(), ReadError>
    ensures { Gives (λ _. tt {0}) result (whole (one spec.end_of) tokens.now) }
{
    match tokens {
        [] => Err(refused(tokens)),
        [t, rest @ ..] => match t.kind {
            Kind::End => nothing(rest),
            _ => Err(refused(tokens)),
        },
    }
}

/// No token.
fn nothing(tokens: &[Token]) -> Result<(), ReadError>
    ensures { Gives (λ _. tt {0}) result (ended (tt {0}) tokens.now) }
{
    if tokens.is_empty() {
        Ok(())
    } else {
        Err(refused(tokens))
    }
}

/// All of the tokens, as a file of at most `limit` declarations.
#[tactic(auto, unfolding(pl_grammar::specs::FileReaders::file_within))]
pub fn file(alloc: Global, depth: u32, limit: usize, tokens: &[Token]) -> Result<Program, ReadError>
    ensures { Gives plain_program result (whole (read.file_within limit depth) tokens.now) }
{
    let (decls, rest) = declarations(alloc, depth, limit, tokens)?;
    end(rest)?;
    Ok(Program { decls })
}
