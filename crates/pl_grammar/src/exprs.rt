//! Expressions. `depth` levels may be open in the innermost bracket, argument, clause or statement, and `used` of them are.

ghost use Rattle.std.specs.Prelude.{◌≡◌, ◌<◌, ◌≤◌, ◌+◌, ◌-◌, length, IfOk, Ok};
ghost use Rattle.pl_readers.specs.Given.{Gives, Fails};
ghost use Rattle.pl_grammar.specs.Grammar as spec;
ghost use Rattle.pl_grammar.specs.Readers as read;
ghost use Rattle.pl_grammar.specs.Parts.{plain_part};

use crate::part::{Part, join};
use crate::tokens::{
    begins, begins_number, begins_other, conjunction, disjunction, implication, literal, negative,
    plus, relation, sign, times, word,
};
use pl_lexer::Token;
use pl_readers::{ReadError, refused, too_deep};
use pl_syntax::Expr;
use std::alloc::Global;

/// `or [ "==>" or ]`
#[cycle(expr)]
#[tactic(auto, unfolding(crate::specs::Readers::expr_of))]
pub fn expression(
    alloc: Global,
    depth: u32,
    used: u32,
    tokens: &[Token],
) -> Result<(Part, &[Token]), ReadError>
    requires { used ≤ depth }
    ensures value { Gives (λ x. (plain_part x.0, x.1.now)) result (read.expr_of depth (read.unary depth) used tokens.now) }
    ensures less { IfOk result (λ x. length x.1.now < length tokens.now) }
    ensures keeps { IfOk result (λ x. x.0.used ≤ depth) }
{
    let (left, rest) = disjoined(alloc, depth, used, tokens)?;
    implied(alloc, depth, left, rest)
}

/// At most one more operand behind `left`.
#[cycle(expr)]
#[tactic(auto, unfolding(crate::specs::Readers::optional, crate::specs::Readers::or_of))]
fn implied(
    alloc: Global,
    depth: u32,
    left: Part,
    tokens: &[Token],
) -> Result<(Part, &[Token]), ReadError>
    requires { left.used ≤ depth }
    ensures value { Gives (λ x. (plain_part x.0, x.1.now)) result (read.optional spec.implication (read.or_of depth (read.unary depth)) depth (plain_part left) tokens.now) }
    ensures less { IfOk result (λ x. length x.1.now ≤ length tokens.now) }
    ensures keeps { IfOk result (λ x. x.0.used ≤ depth) }
{
    let Some((op, after)) = implication(tokens) else {
        return Ok((left, tokens));
    };
    if left.used >= depth {
        return Err(too_deep(tokens));
    }
    let (right, after) = disjoined(alloc, depth, left.used + 1, after)?;
    Ok((join(alloc, left, op, right)?, after))
}

/// `and { "||" and }`
#[cycle(expr)]
#[tactic(auto, unfolding(crate::specs::Readers::or_of))]
fn disjoined(
    alloc: Global,
    depth: u32,
    used: u32,
    tokens: &[Token],
) -> Result<(Part, &[Token]), ReadError>
    requires { used ≤ depth }
    ensures value { Gives (λ x. (plain_part x.0, x.1.now)) result (read.or_of depth (read.unary depth) used tokens.now) }
    ensures less { IfOk result (λ x. length x.1.now < length tokens.now) }
    ensures keeps { IfOk result (λ x. x.0.used ≤ depth) }
{
    let (left, rest) = conjoined(alloc, depth, used, tokens)?;
    more_conjoined(alloc, depth, depth, left, rest)
}

/// Further operands behind `left`, at most `count` of them.
#[cycle(expr)]
#[tactic(auto, unfolding(crate::specs::Readers::chain, crate::specs::Readers::and_of))]
fn more_conjoined(
    alloc: Global,
    depth: u32,
    count: u32,
    left: Part,
    tokens: &[Token],
) -> Result<(Part, &[Token]), ReadError>
    requires { left.used ≤ depth }
    ensures value { Gives (λ x. (plain_part x.0, x.1.now)) result (read.chain spec.disjunction (read.and_of depth (read.unary depth)) depth count (plain_part left) tokens.now) }
    ensures less { IfOk result (λ x. length x.1.now ≤ length tokens.now) }
    ensures keeps { IfOk result (λ x. x.0.used ≤ depth) }
{
    let Some((op, after)) = disjunction(tokens) else {
        return Ok((left, tokens));
    };
    if count == 0 || left.used >= depth {
        return Err(too_deep(tokens));
    }
    let (right, after) = conjoined(alloc, depth, left.used + 1, after)?;
    let left = join(alloc, left, op, right)?;
    more_conjoined(alloc, depth, count - 1, left, after)
}

/// `cmp { "&&" cmp }`
#[cycle(expr)]
#[tactic(auto, unfolding(crate::specs::Readers::and_of))]
fn conjoined(
    alloc: Global,
    depth: u32,
    used: u32,
    tokens: &[Token],
) -> Result<(Part, &[Token]), ReadError>
    requires { used ≤ depth }
    ensures value { Gives (λ x. (plain_part x.0, x.1.now)) result (read.and_of depth (read.unary depth) used tokens.now) }
    ensures less { IfOk result (λ x. length x.1.now < length tokens.now) }
    ensures keeps { IfOk result (λ x. x.0.used ≤ depth) }
{
    let (left, rest) = compared(alloc, depth, used, tokens)?;
    more_compared(alloc, depth, depth, left, rest)
}

/// Further operands behind `left`, at most `count` of them.
#[cycle(expr)]
#[tactic(auto, unfolding(crate::specs::Readers::chain, crate::specs::Readers::compare_of))]
fn more_compared(
    alloc: Global,
    depth: u32,
    count: u32,
    left: Part,
    tokens: &[Token],
) -> Result<(Part, &[Token]), ReadError>
    requires { left.used ≤ depth }
    ensures value { Gives (λ x. (plain_part x.0, x.1.now)) result (read.chain spec.conjunction (read.compare_of depth (read.unary depth)) depth count (plain_part left) tokens.now) }
    ensures less { IfOk result (λ x. length x.1.now ≤ length tokens.now) }
    ensures keeps { IfOk result (λ x. x.0.used ≤ depth) }
{
    let Some((op, after)) = conjunction(tokens) else {
        return Ok((left, tokens));
    };
    if count == 0 || left.used >= depth {
        return Err(too_deep(tokens));
    }
    let (right, after) = compared(alloc, depth, left.used + 1, after)?;
    let left = join(alloc, left, op, right)?;
    more_compared(alloc, depth, count - 1, left, after)
}

/// `sum [ relation sum ]`
#[cycle(expr)]
#[tactic(auto, unfolding(crate::specs::Readers::compare_of))]
fn compared(
    alloc: Global,
    depth: u32,
    used: u32,
    tokens: &[Token],
) -> Result<(Part, &[Token]), ReadError>
    requires { used ≤ depth }
    ensures value { Gives (λ x. (plain_part x.0, x.1.now)) result (read.compare_of depth (read.unary depth) used tokens.now) }
    ensures less { IfOk result (λ x. length x.1.now < length tokens.now) }
    ensures keeps { IfOk result (λ x. x.0.used ≤ depth) }
{
    let (left, rest) = sum(alloc, depth, used, tokens)?;
    related(alloc, depth, left, rest)
}

/// At most one more operand behind `left`.
#[cycle(expr)]
#[tactic(auto, unfolding(crate::specs::Readers::optional, crate::specs::Readers::sum_of))]
fn related(
    alloc: Global,
    depth: u32,
    left: Part,
    tokens: &[Token],
) -> Result<(Part, &[Token]), ReadError>
    requires { left.used ≤ depth }
    ensures value { Gives (λ x. (plain_part x.0, x.1.now)) result (read.optional spec.relation (read.sum_of depth (read.unary depth)) depth (plain_part left) tokens.now) }
    ensures less { IfOk result (λ x. length x.1.now ≤ length tokens.now) }
    ensures keeps { IfOk result (λ x. x.0.used ≤ depth) }
{
    let Some((op, after)) = relation(tokens) else {
        return Ok((left, tokens));
    };
    if left.used >= depth {
        return Err(too_deep(tokens));
    }
    let (right, after) = sum(alloc, depth, left.used + 1, after)?;
    Ok((join(alloc, left, op, right)?, after))
}

/// `term { ("+" | "-") term }`
#[cycle(expr)]
#[tactic(auto, unfolding(crate::specs::Readers::sum_of))]
pub fn sum(
    alloc: Global,
    depth: u32,
    used: u32,
    tokens: &[Token],
) -> Result<(Part, &[Token]), ReadError>
    requires { used ≤ depth }
    ensures value { Gives (λ x. (plain_part x.0, x.1.now)) result (read.sum_of depth (read.unary depth) used tokens.now) }
    ensures less { IfOk result (λ x. length x.1.now < length tokens.now) }
    ensures keeps { IfOk result (λ x. x.0.used ≤ depth) }
{
    let (left, rest) = term(alloc, depth, used, tokens)?;
    more_terms(alloc, depth, depth, left, rest)
}

/// Further operands behind `left`, at most `count` of them.
#[cycle(expr)]
#[tactic(auto, unfolding(crate::specs::Readers::chain, crate::specs::Readers::term_of))]
fn more_terms(
    alloc: Global,
    depth: u32,
    count: u32,
    left: Part,
    tokens: &[Token],
) -> Result<(Part, &[Token]), ReadError>
    requires { left.used ≤ depth }
    ensures value { Gives (λ x. (plain_part x.0, x.1.now)) result (read.chain spec.plus (read.term_of depth (read.unary depth)) depth count (plain_part left) tokens.now) }
    ensures less { IfOk result (λ x. length x.1.now ≤ length tokens.now) }
    ensures keeps { IfOk result (λ x. x.0.used ≤ depth) }
{
    let Some((op, after)) = plus(tokens) else {
        return Ok((left, tokens));
    };
    if count == 0 || left.used >= depth {
        return Err(too_deep(tokens));
    }
    let (right, after) = term(alloc, depth, left.used + 1, after)?;
    let left = join(alloc, left, op, right)?;
    more_terms(alloc, depth, count - 1, left, after)
}

/// `unary { ("*" | "/" | "%") unary }`
#[cycle(expr)]
#[tactic(auto, unfolding(crate::specs::Readers::term_of))]
fn term(
    alloc: Global,
    depth: u32,
    used: u32,
    tokens: &[Token],
) -> Result<(Part, &[Token]), ReadError>
    requires { used ≤ depth }
    ensures value { Gives (λ x. (plain_part x.0, x.1.now)) result (read.term_of depth (read.unary depth) used tokens.now) }
    ensures less { IfOk result (λ x. length x.1.now < length tokens.now) }
    ensures keeps { IfOk result (λ x. x.0.used ≤ depth) }
{
    let (left, rest) = unary(alloc, depth, used, tokens)?;
    more_unaries(alloc, depth, depth, left, rest)
}

/// Further operands behind `left`, at most `count` of them.
#[cycle(expr)]
#[tactic(auto, unfolding(crate::specs::Readers::chain, crate::specs::Readers::unary_of))]
fn more_unaries(
    alloc: Global,
    depth: u32,
    count: u32,
    left: Part,
    tokens: &[Token],
) -> Result<(Part, &[Token]), ReadError>
    requires { left.used ≤ depth }
    ensures value { Gives (λ x. (plain_part x.0, x.1.now)) result (read.chain spec.times (read.unary depth) depth count (plain_part left) tokens.now) }
    ensures less { IfOk result (λ x. length x.1.now ≤ length tokens.now) }
    ensures keeps { IfOk result (λ x. x.0.used ≤ depth) }
{
    let Some((op, after)) = times(tokens) else {
        return Ok((left, tokens));
    };
    if count == 0 || left.used >= depth {
        return Err(too_deep(tokens));
    }
    let (right, after) = unary(alloc, depth, left.used + 1, after)?;
    let left = join(alloc, left, op, right)?;
    more_unaries(alloc, depth, count - 1, left, after)
}

/// `NUMBER | other`
#[cycle(expr)]
#[tactic(auto, unfolding(crate::specs::Readers::unary_of))]
fn unary(
    alloc: Global,
    depth: u32,
    used: u32,
    tokens: &[Token],
) -> Result<(Part, &[Token]), ReadError>
    requires { used ≤ depth }
    ensures value { Gives (λ x. (plain_part x.0, x.1.now)) result (read.unary depth used tokens.now) }
    ensures less { IfOk result (λ x. length x.1.now < length tokens.now) }
    ensures keeps { IfOk result (λ x. x.0.used ≤ depth) }
{
    if begins_number(tokens) {
        literal(used, tokens)
    } else {
        other(alloc, depth, used, tokens)
    }
}

/// An operand that begins with no number.
#[cycle(expr)]
#[tactic(auto, unfolding(crate::specs::Readers::other, crate::specs::Readers::minus))]
fn other(
    alloc: Global,
    depth: u32,
    used: u32,
    tokens: &[Token],
) -> Result<(Part, &[Token]), ReadError>
    requires { used ≤ depth }
    ensures value { Gives (λ x. (plain_part x.0, x.1.now)) result (read.other depth used tokens.now) }
    ensures less { IfOk result (λ x. length x.1.now < length tokens.now) }
    ensures keeps { IfOk result (λ x. x.0.used ≤ depth) }
{
    if begins(tokens, &[16]) {
        return minus(alloc, depth, used, tokens);
    }
    if !begins(tokens, &[51, 0]) {
        return word(alloc, used, tokens);
    }
    if depth == 0 || used >= depth {
        return Err(too_deep(tokens));
    }
    if begins(tokens, &[51]) {
        not(alloc, depth, used, tokens)
    } else {
        group(alloc, depth, used, tokens)
    }
}

/// `"-" NUMBER | "-" other`, where a minus right before a number is part of it.
#[cycle(expr)]
#[tactic(auto, unfolding(crate::specs::Readers::minus, crate::specs::Readers::behind_minus))]
fn minus(
    alloc: Global,
    depth: u32,
    used: u32,
    tokens: &[Token],
) -> Result<(Part, &[Token]), ReadError>
    requires { used ≤ depth }
    ensures value { Gives (λ x. (plain_part x.0, x.1.now)) result (read.minus depth used tokens.now) }
    ensures less { IfOk result (λ x. length x.1.now < length tokens.now) }
    ensures keeps { IfOk result (λ x. x.0.used ≤ depth) }
{
    let (first, rest) = sign(tokens, 16)?;
    if begins_number(rest) {
        return negative(first, used, rest);
    }
    if depth == 0 || used >= depth {
        return Err(no_operand(rest));
    }
    let (inner, rest) = other(alloc, depth - 1, used, rest)?;
    let tree = Expr::Neg(first, Box::new(alloc, inner.tree)?);
    let used = inner.used + 1;
    Ok((Part { first, tree, used }, rest))
}

/// The refusal of the operand of a minus for which no level is left.
fn no_operand(tokens: &[Token]) -> ReadError
    ensures { Fails result (read.no_operand tokens.now) }
{
    if begins_other(tokens) {
        too_deep(tokens)
    } else {
        refused(tokens)
    }
}

/// `"not" unary`, where a level is left.
#[cycle(expr)]
#[tactic(auto, unfolding(crate::specs::Readers::not_of))]
fn not(
    alloc: Global,
    depth: u32,
    used: u32,
    tokens: &[Token],
) -> Result<(Part, &[Token]), ReadError>
    requires { used < depth }
    ensures value { Gives (λ x. (plain_part x.0, x.1.now)) result (read.not_of (read.other (depth - 1)) used tokens.now) }
    ensures less { IfOk result (λ x. length x.1.now < length tokens.now) }
    ensures keeps { IfOk result (λ x. x.0.used ≤ depth) }
{
    let (first, rest) = sign(tokens, 51)?;
    let (inner, rest) = unary(alloc, depth - 1, used, rest)?;
    let tree = Expr::Not(first, Box::new(alloc, inner.tree)?);
    let used = inner.used + 1;
    Ok((Part { first, tree, used }, rest))
}

/// `"(" expr ")"`, where a level is left.
#[cycle(expr)]
#[tactic(auto, unfolding(crate::specs::Readers::group_of))]
fn group(
    alloc: Global,
    depth: u32,
    used: u32,
    tokens: &[Token],
) -> Result<(Part, &[Token]), ReadError>
    requires { used < depth }
    ensures value { Gives (λ x. (plain_part x.0, x.1.now)) result (read.group_of (depth - 1) (read.other (depth - 1)) used tokens.now) }
    ensures less { IfOk result (λ x. length x.1.now < length tokens.now) }
    ensures keeps { IfOk result (λ x. x.0.used ≤ depth) }
{
    let (first, rest) = sign(tokens, 0)?;
    let (inner, rest) = expression(alloc, depth - 1, used, rest)?;
    let (_, rest) = sign(rest, 1)?;
    let tree = inner.tree;
    Ok((Part { first, tree, used }, rest))
}
