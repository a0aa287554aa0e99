//! Statements with blocks. A block is read where a level is left for its brace.

ghost use Rattle.std.specs.Prelude.{◌≡◌, ◌<◌, ◌≤◌, [], map, length, IfOk, Ok};
ghost use Rattle.std.specs.Option.{option_map};
ghost use Rattle.pl_readers.specs.Given.{Gives};
ghost use Rattle.pl_readers.specs.Reader.{begins, repeat};
ghost use Rattle.pl_syntax.specs.Plain.{plain_prop, plain_stmt, plain_block, otherwise};
ghost use Rattle.pl_grammar.specs.Signs.{token_in};
ghost use Rattle.pl_grammar.specs.StatementReaders as read;

use crate::lets::load_rule;
use crate::simple::simple_statement;
use pl_base::Items;
use pl_grammar::{begins, name, no_brace, sign, value, whole_prop};
use pl_lexer::{Kind, Token};
use pl_readers::ReadError;
use pl_syntax::{Prop, Stmt, Stmts};
use std::alloc::Global;

/// `[ "ensures" prop ";" ]`
#[tactic(auto, unfolding(pl_grammar::specs::StatementReaders::statement_ensures))]
fn statement_ensures(
    alloc: Global,
    depth: u32,
    tokens: &[Token],
) -> Result<(Option<Prop>, &[Token]), ReadError>
    ensures value { Gives (λ x. (option_map plain_prop x.0, x.1.now)) result (read.statement_ensures depth tokens.now) }
    ensures less { IfOk result (λ x. length x.1.now ≤ length tokens.now) }
{
    if !begins(tokens, &[37]) {
        return Ok((None, tokens));
    }
    let (_, rest) = sign(tokens, 37)?;
    let (p, rest) = whole_prop(alloc, depth, 0, rest)?;
    let (_, rest) = sign(rest, 7)?;
    Ok((Some(p), rest))
}

/// `{ "let" NAME "=" "!" cell ";" }`
fn loads(alloc: Global, depth: u32, tokens: &[Token]) -> Result<(Items<Stmt>, &[Token]), ReadError>
    ensures value { Gives (λ x. (map plain_stmt x.0, x.1.now)) result (read.loads depth tokens.now) }
    ensures less { IfOk result (λ x. length x.1.now ≤ length tokens.now) }
{
    let mut all = Vec::new(alloc);
    let mut rest = tokens;
    'turns: while begins(rest, &[39]) {
        let (item, after) = load_rule(alloc, depth, rest)?;
        all.push(item)?;
        rest = after;
    }
    Ok((Items::of(all), rest))
}

/// Whether the next token begins a statement.
fn begins_statement(tokens: &[Token]) -> bool
    ensures { result ≡ begins (token_in read.statement_firsts) tokens.now }
{
    match tokens {
        [] => false,
        [t, ..] => matches!(
            t.kind,
            Kind::Word(_)
                | Kind::Sign(
                    39 | 41 | 43 | 45..=47 | 49 | 50 | 63..=65 | 67..=70 | 72..=74 | 79 | 80
                        | 82..=84 | 86 | 88
                )
        ),
    }
}

/// `[ "else" block ]`
#[cycle(statement)]
#[tactic(auto, unfolding(pl_grammar::specs::StatementReaders::else_of))]
fn second_block(
    alloc: Global,
    depth: u32,
    tokens: &[Token],
) -> Result<(Option<Stmts>, &[Token]), ReadError>
    ensures value { Gives (λ x. (otherwise (option_map plain_block x.0), x.1.now)) result (read.else_of (read.block depth) tokens.now) }
    ensures less { IfOk result (λ x. length x.1.now ≤ length tokens.now) }
{
    if !begins(tokens, &[42]) {
        return Ok((None, tokens));
    }
    let (_, rest) = sign(tokens, 42)?;
    let (second, rest) = block(alloc, depth, rest)?;
    Ok((Some(second), rest))
}

/// `"if" "(" expr ")" block [ "else" block ] [ "ensures" prop ";" ]`
#[cycle(statement)]
#[tactic(auto, unfolding(pl_grammar::specs::StatementReaders::if_rule))]
fn if_rule(alloc: Global, depth: u32, tokens: &[Token]) -> Result<(Stmt, &[Token]), ReadError>
    ensures value { Gives (λ x. (plain_stmt x.0, x.1.now)) result (read.if_rule depth (read.block depth) tokens.now) }
    ensures less { IfOk result (λ x. length x.1.now < length tokens.now) }
{
    let (start, rest) = sign(tokens, 41)?;
    let (_, rest) = sign(rest, 0)?;
    let (e, rest) = value(alloc, depth, 0, rest)?;
    let (_, rest) = sign(rest, 1)?;
    let (first, rest) = block(alloc, depth, rest)?;
    let (second, rest) = second_block(alloc, depth, rest)?;
    let (after, rest) = statement_ensures(alloc, depth, rest)?;
    Ok((Stmt::If(start, e, first, second, after), rest))
}

/// `"while" "(" { load } expr ")" "invariant" prop block`
#[cycle(statement)]
#[tactic(auto, unfolding(pl_grammar::specs::StatementReaders::while_rule))]
fn while_rule(alloc: Global, depth: u32, tokens: &[Token]) -> Result<(Stmt, &[Token]), ReadError>
    ensures value { Gives (λ x. (plain_stmt x.0, x.1.now)) result (read.while_rule depth (read.block depth) tokens.now) }
    ensures less { IfOk result (λ x. length x.1.now < length tokens.now) }
{
    let (start, rest) = sign(tokens, 43)?;
    let (_, rest) = sign(rest, 0)?;
    let (loaded, rest) = loads(alloc, depth, rest)?;
    let (e, rest) = value(alloc, depth, 0, rest)?;
    let (_, rest) = sign(rest, 1)?;
    let (_, rest) = sign(rest, 44)?;
    let (kept, rest) = whole_prop(alloc, depth, 0, rest)?;
    let (body, rest) = block(alloc, depth, rest)?;
    Ok((Stmt::While(start, loaded, e, kept, body), rest))
}

/// `"with_invariants" NAME block [ "ensures" prop ";" ]`
#[cycle(statement)]
#[tactic(auto, unfolding(pl_grammar::specs::StatementReaders::with_rule))]
fn with_rule(alloc: Global, depth: u32, tokens: &[Token]) -> Result<(Stmt, &[Token]), ReadError>
    ensures value { Gives (λ x. (plain_stmt x.0, x.1.now)) result (read.with_rule depth (read.block depth) tokens.now) }
    ensures less { IfOk result (λ x. length x.1.now < length tokens.now) }
{
    let (start, rest) = sign(tokens, 46)?;
    let (i, rest) = name(alloc, rest)?;
    let (body, rest) = block(alloc, depth, rest)?;
    let (after, rest) = statement_ensures(alloc, depth, rest)?;
    Ok((Stmt::With(start, i.1, body, after), rest))
}

/// A statement.
#[cycle(statement)]
#[tactic(auto, unfolding(pl_grammar::specs::StatementReaders::statement))]
fn statement(alloc: Global, depth: u32, tokens: &[Token]) -> Result<(Stmt, &[Token]), ReadError>
    ensures value { Gives (λ x. (plain_stmt x.0, x.1.now)) result (read.statement depth (read.block depth) tokens.now) }
    ensures less { IfOk result (λ x. length x.1.now < length tokens.now) }
{
    if begins(tokens, &[41]) {
        if_rule(alloc, depth, tokens)
    } else if begins(tokens, &[43]) {
        while_rule(alloc, depth, tokens)
    } else if begins(tokens, &[46]) {
        with_rule(alloc, depth, tokens)
    } else {
        simple_statement(alloc, depth, tokens)
    }
}

/// `{ statement }`
#[cycle(statement)]
fn statements(
    alloc: Global,
    depth: u32,
    tokens: &[Token],
) -> Result<(Items<Stmt>, &[Token]), ReadError>
    ensures value { Gives (λ x. (map plain_stmt x.0, x.1.now)) result (repeat (token_in read.statement_firsts) (read.statement depth (read.block depth)) tokens.now) }
    ensures less { IfOk result (λ x. length x.1.now ≤ length tokens.now) }
{
    let mut all = Vec::new(alloc);
    let mut rest = tokens;
    'turns: while begins_statement(rest) {
        let (item, after) = statement(alloc, depth, rest)?;
        all.push(item)?;
        rest = after;
    }
    Ok((Items::of(all), rest))
}

/// `"{" { statement } "}"`, with so many levels behind the brace.
#[cycle(statement)]
#[tactic(auto, unfolding(pl_grammar::specs::StatementReaders::block_of))]
fn block_of(alloc: Global, depth: u32, tokens: &[Token]) -> Result<(Stmts, &[Token]), ReadError>
    ensures value { Gives (λ x. (plain_block x.0, x.1.now)) result (read.block_of depth (read.block depth) tokens.now) }
    ensures less { IfOk result (λ x. length x.1.now < length tokens.now) }
{
    let (_, rest) = sign(tokens, 2)?;
    let (list, rest) = statements(alloc, depth, rest)?;
    let (close, rest) = sign(rest, 3)?;
    Ok((Stmts { list, close }, rest))
}

/// `"{" { statement } "}"`, for which a level has to be left.
#[cycle(statement)]
pub fn block(alloc: Global, depth: u32, tokens: &[Token]) -> Result<(Stmts, &[Token]), ReadError>
    ensures value { Gives (λ x. (plain_block x.0, x.1.now)) result (read.block depth tokens.now) }
    ensures less { IfOk result (λ x. length x.1.now < length tokens.now) }
{
    if depth == 0 {
        return Err(no_brace(tokens));
    }
    block_of(alloc, depth - 1, tokens)
}
