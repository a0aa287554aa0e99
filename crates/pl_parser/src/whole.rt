//! The program of all tokens, or where and why they are none.

ghost use Rattle.std.specs.Prelude.{◌≡◌, ◌≤◌, ◌<◌, ◌-◌, ◌∷◌, ◌++◌, [], length, drop, List, IfOk, IfErr, true, Ok, Err, Some, None};
ghost use Rattle.pl_lexer.specs.declared.tokens.Token.{Token};
ghost use Rattle.pl_readers.specs.Language.{IsViable};
ghost use Rattle.pl_readers.specs.Reader.{begins, whole};
ghost use Rattle.pl_syntax.specs.Tree as tree;
ghost use Rattle.pl_parser.specs.Answer as answer;
ghost use Rattle.pl_grammar.specs.Refusals as spec;
ghost use Rattle.pl_grammar.specs.FileGrammar.{File};
ghost use Rattle.pl_grammar.specs.FileReaders as read;
ghost use Rattle.pl_grammar.specs.FileReaders.{declaration_firsts};
ghost use Rattle.pl_grammar.specs.Signs.{token_in, sign};
ghost use Rattle.pl_parser.specs.Steps as steps;

use crate::error::ParseError;
use crate::files::{begins_declaration, declarations, file};
use pl_base::{Memory, Name, Pos};
use pl_grammar::{begins, begins_number};
use pl_lexer::{Kind, Token, Tokens};
use pl_readers::{ReadError, Stop};
use pl_syntax::Program;
use std::alloc::{AllocError, Global};

/// How many levels may be open.
const LEVELS: u32 = 64;

/// How many declarations a file may have.
const DECLARATIONS: usize = 4096;

/// The place of the next token, or the start where there is none.
fn place(tokens: &[Token]) -> Pos
    ensures { result ≡ spec.place_of_first tokens.now }
{
    match tokens {
        [] => Pos {
            line: 1,
            col: 1,
            byte: 0,
        },
        [t, ..] => t.pos,
    }
}

/// The place of the token at `k`.
fn place_at(tokens: &[Token], k: usize) -> Pos
    requires { k ≤ length tokens.now }
    ensures { result ≡ spec.place_at tokens.now k }
{
    let (_, rest) = tokens.split_at(k);
    place(rest)
}

fn copied_kind(alloc: Global, kind: &Kind) -> Result<Kind, Memory>
    ensures { IfOk result (λ k. k ≡ kind.now) }
{
    match kind {
        Kind::Word(name) => Ok(Kind::Word(Name::of(alloc, name.text())?)),
        Kind::Number(n) => Ok(Kind::Number(*n)),
        Kind::Sign(n) => Ok(Kind::Sign(*n)),
        Kind::End => Ok(Kind::End),
    }
}

fn copied(alloc: Global, token: &Token) -> Result<Token, Memory>
    ensures { IfOk result (λ t. t ≡ token.now) }
{
    let kind = copied_kind(alloc, &token.kind)?;
    Ok(Token {
        pos: token.pos,
        kind,
    })
}

fn all_copied(alloc: Global, tokens: &[Token]) -> Result<Vec<Token>, Memory>
    ensures { IfOk result (λ v. v.items ≡ tokens.now) }
{
    let mut all = Vec::new(alloc);
    for token in tokens {
        all.push(copied(alloc, token)?)?;
    }
    Ok(all)
}

/// The kind of a code's token.
fn kind_of(alloc: Global, code: u8) -> Result<Kind, Memory>
    ensures { IfOk result (λ k. k ≡ spec.kind_of_code code) }
{
    match code {
        255 => Ok(Kind::Word(Name::of(alloc, "x")?)),
        254 => Ok(Kind::Number(1_048_576)),
        253 => Ok(Kind::End),
        _ => Ok(Kind::Sign(code)),
    }
}

/// The token of a code.
fn token_of(alloc: Global, code: u8) -> Result<Token, Memory>
    ensures { IfOk result (λ t. t ≡ spec.token_of_code code) }
{
    let kind = kind_of(alloc, code)?;
    let pos = Pos {
        line: 1,
        col: 1,
        byte: 0,
    };
    Ok(Token { pos, kind })
}

/// Where a file of so many levels stops in the tokens, if it does.
fn stop_of(alloc: Global, depth: u32, tokens: &[Token]) -> Result<Option<Stop>, Memory>
    ensures { IfOk result (λ s. steps.StopsAt (whole (read.file depth) tokens.now) s) }
{
    match file(alloc, depth, tokens.len(), tokens) {
        Ok(_) => Ok(None),
        Err(ReadError::Stop(stop)) => Ok(Some(stop)),
        Err(ReadError::Memory) => Err(Memory),
    }
}

/// Whether the last token was taken, with more levels at the most, where reading stopped there if it did.
fn takes_last(stop: Option<Stop>) -> bool
    ensures { result ≡ steps.takes_last stop }
{
    match stop {
        None => true,
        Some(stop) => stop.left == 0 || stop.is_deep,
    }
}

/// Whether some file goes on with `before` and then the token of a code.
fn goes_on_with(alloc: Global, before: &[Token], code: u8) -> Result<bool, Memory>
    requires { IsViable (File 66) before.now }
    ensures { IfOk result (λ b. steps.Tells b (spec.GoesOnWith before.now code)) }
{
    let mut text = all_copied(alloc, before)?;
    text.push(token_of(alloc, code)?)?;
    let stop = stop_of(alloc, LEVELS + 2, text.as_slice())?;
    Ok(takes_last(stop))
}

fn following(code: u8) -> u8
    requires { code < 255 }
    ensures { result ≡ steps.following code }
{
    if code == 100 { 253 } else { code + 1 }
}

/// The least code that was expected.
fn expected(alloc: Global, before: &[Token]) -> Result<u8, Memory>
    requires { IsViable (File 66) before.now }
    ensures least { IfOk result (spec.IsLeastCode before.now) }
    ensures code { IfOk result (λ n. spec.IsCode n × (n ≤ 255)) }
{
    let mut code: u8 = 0;
    'codes: while code < 255 {
        if goes_on_with(alloc, before, code)? {
            return Ok(code);
        }
        code = following(code);
    }
    Ok(code)
}

/// How many of the tokens stand before the rest, where another declaration begins there.
fn another_at(tokens: &[Token], rest: &[Token]) -> Option<usize>
    requires { length rest.now ≤ length tokens.now }
    ensures { result ≡ steps.if_any (begins (token_in declaration_firsts) rest.now) (length tokens.now - length rest.now) }
{
    if begins_declaration(rest) {
        Some(tokens.len() - rest.len())
    } else {
        None
    }
}

/// How many tokens stand before a 4,097th declaration, if there is one.
fn another(alloc: Global, tokens: &[Token]) -> Result<Option<usize>, Memory>
    ensures { IfOk result (steps.AnotherAt tokens.now) }
{
    match declarations(alloc, LEVELS, DECLARATIONS, tokens) {
        Ok((_, rest)) => Ok(another_at(tokens, rest)),
        Err(ReadError::Stop(_)) => Ok(None),
        Err(ReadError::Memory) => Err(Memory),
    }
}

/// Whether the last token needs a level more, where reading stopped there if it did.
fn wants_level(stop: Option<Stop>) -> bool
    ensures { result ≡ steps.wants_level stop }
{
    match stop {
        None => false,
        Some(stop) => stop.is_deep && stop.left == 1,
    }
}

/// Whether a name behind these tokens needs a level more.
fn name_wants_level(alloc: Global, before: &[Token]) -> Result<bool, Memory>
    ensures { IfOk result (λ b. steps.Tells b (answer.StopsBehind (before.now ++ spec.token_of_code 255 ∷ []) (length before.now) true)) }
{
    let mut text = all_copied(alloc, before)?;
    text.push(token_of(alloc, 255)?)?;
    let stop = stop_of(alloc, LEVELS, text.as_slice())?;
    Ok(wants_level(stop))
}

/// Whether the token at `k` is a minus right before no number, whose operand would need a level more.
fn is_last_minus(alloc: Global, tokens: &[Token], k: usize) -> Result<bool, Memory>
    requires { k < length tokens.now }
    ensures { IfOk result (λ b. steps.Tells b (answer.IsDeepMinus tokens.now k)) }
{
    let (_, minus) = tokens.split_at(k);
    let (before, behind) = tokens.split_at(k + 1);
    if !begins(minus, &[16]) {
        return Ok(false);
    }
    if begins_number(behind) {
        return Ok(false);
    }
    name_wants_level(alloc, before)
}

/// Whether right before the token at `k` stands such a minus.
fn minus_before(alloc: Global, tokens: &[Token], k: usize) -> Result<bool, Memory>
    requires { k ≤ length tokens.now }
    ensures { IfOk result (λ b. steps.Tells b (answer.EndsInDeepMinus tokens.now k)) }
{
    if k == 0 {
        return Ok(false);
    }
    is_last_minus(alloc, tokens, k - 1)
}

/// Why the tokens are no program, where reading them stopped and no 4,097th declaration begins.
fn refusal_within(alloc: Global, tokens: &[Token], stop: Stop) -> Result<ParseError, Memory>
    requires stops { whole (read.file_within 4096 64) tokens.now ≡ Err stop }
    requires few { spec.NotFull tokens.now }
    ensures { IfOk result (answer.IsRefusal tokens.now) }
{
    let k = tokens.len() - stop.left;
    let is_minus = minus_before(alloc, tokens, k)?;
    if is_minus {
        return Ok(ParseError::Deep(place_at(tokens, k - 1)));
    }
    if stop.is_deep {
        return Ok(ParseError::Deep(place_at(tokens, k)));
    }
    let (before, _) = tokens.split_at(k);
    let code = expected(alloc, before)?;
    Ok(ParseError::Syntax(place_at(tokens, k), code))
}

/// Why the tokens are no program, where reading them stopped.
fn refusal(alloc: Global, tokens: &[Token], stop: Stop) -> Result<ParseError, Memory>
    requires { whole (read.file_within 4096 64) tokens.now ≡ Err stop }
    ensures { IfOk result (answer.IsRefusal tokens.now) }
{
    match another(alloc, tokens)? {
        Some(k) => Ok(ParseError::TooMany(place_at(tokens, k))),
        None => refusal_within(alloc, tokens, stop),
    }
}

/// The program of a file's tokens. A refusal names the first token with which no file of the grammar goes on, or that needs
/// a 65th level, or that begins a 4,097th declaration.
pub fn parse(alloc: Global, tokens: &Tokens) -> Result<Program, ParseError>
    ensures program { IfOk result (answer.IsParsed tokens.now) }
    ensures refusal { IfErr result (answer.IsRefusal tokens.now) }
    ensures all_programs { (p : tree.Program) → File 64 p tokens.now → length p.decls ≤ 4096 → answer.IsButForMemory p result }
{
    let all = tokens.as_slice();
    match file(alloc, LEVELS, DECLARATIONS, all) {
        Ok(program) => Ok(program),
        Err(ReadError::Memory) => Err(ParseError::Memory),
        Err(ReadError::Stop(stop)) => Err(refusal(alloc, all, stop)?),
    }
}
