//! Propositions. `depth` levels may be open in the innermost bracket or clause, and `used` of them are.

ghost use Rattle.std.specs.Prelude.{◌≡◌, ◌<◌, ◌≤◌, ◌+◌, ◌-◌, length, IfOk, Ok};
ghost use Rattle.pl_readers.specs.Given.{Gives};
ghost use Rattle.pl_syntax.specs.Plain.{plain_prop};
ghost use Rattle.pl_grammar.specs.Parts.{plain_prop_part};
ghost use Rattle.pl_grammar.specs.PropReaders as read;

use crate::atoms::atom;
use crate::part::PropPart;
use crate::terms::binders;
use crate::tokens::{begins, sign};
use pl_lexer::Token;
use pl_readers::{ReadError, too_deep};
use pl_syntax::{Class, Prop};
use std::alloc::Global;

/// `atom [ "**" prop ] | "exists" bind { "," bind } "." prop`
#[cycle(prop)]
pub fn prop(
    alloc: Global,
    depth: u32,
    used: u32,
    tokens: &[Token],
) -> Result<(PropPart, &[Token]), ReadError>
    requires { used ≤ depth }
    ensures value { Gives (λ x. (plain_prop_part x.0, x.1.now)) result (read.prop depth used tokens.now) }
    ensures less { IfOk result (λ x. length x.1.now < length tokens.now) }
    ensures keeps { IfOk result (λ x. x.0.used ≤ depth) }
{
    if begins(tokens, &[57]) {
        exists_part(alloc, depth, used, tokens)
    } else {
        parts(alloc, depth, used, tokens)
    }
}

/// A proposition that doesn't begin with `exists`.
#[cycle(prop)]
#[tactic(auto, unfolding(crate::specs::PropReaders::parts))]
fn parts(
    alloc: Global,
    depth: u32,
    used: u32,
    tokens: &[Token],
) -> Result<(PropPart, &[Token]), ReadError>
    requires { used ≤ depth }
    ensures value { Gives (λ x. (plain_prop_part x.0, x.1.now)) result (read.parts depth used tokens.now) }
    ensures less { IfOk result (λ x. length x.1.now < length tokens.now) }
    ensures keeps { IfOk result (λ x. x.0.used ≤ depth) }
{
    let (first, rest) = first_part(alloc, depth, used, tokens)?;
    more_parts(alloc, depth, first, rest)
}

/// A proposition that begins with `exists`, for which a level has to be left.
#[cycle(prop)]
fn exists_part(
    alloc: Global,
    depth: u32,
    used: u32,
    tokens: &[Token],
) -> Result<(PropPart, &[Token]), ReadError>
    requires { used ≤ depth }
    ensures value { Gives (λ x. (plain_prop_part x.0, x.1.now)) result (read.exists_part depth used tokens.now) }
    ensures less { IfOk result (λ x. length x.1.now < length tokens.now) }
    ensures keeps { IfOk result (λ x. x.0.used ≤ depth) }
{
    if used >= depth {
        return Err(too_deep(tokens));
    }
    exists_of(alloc, depth, used, tokens)
}

/// `"exists" bind { "," bind } "." prop`, where a level is left.
#[cycle(prop)]
#[tactic(auto, unfolding(crate::specs::PropReaders::exists_of))]
fn exists_of(
    alloc: Global,
    depth: u32,
    used: u32,
    tokens: &[Token],
) -> Result<(PropPart, &[Token]), ReadError>
    requires { used < depth }
    ensures value { Gives (λ x. (plain_prop_part x.0, x.1.now)) result (read.exists_of (read.prop (depth - 1)) used tokens.now) }
    ensures less { IfOk result (λ x. length x.1.now < length tokens.now) }
    ensures keeps { IfOk result (λ x. x.0.used ≤ depth) }
{
    let (p, rest) = sign(tokens, 57)?;
    let (bs, rest) = binders(alloc, Class::Logical, rest)?;
    let (_, rest) = sign(rest, 9)?;
    let (q, rest) = prop(alloc, depth - 1, used, rest)?;
    let tree = Prop::Exists(p, bs, Box::new(alloc, q.tree)?);
    let used = q.used + 1;
    Ok((PropPart { tree, used }, rest))
}

/// An atom, or a proposition in brackets.
#[cycle(prop)]
fn first_part(
    alloc: Global,
    depth: u32,
    used: u32,
    tokens: &[Token],
) -> Result<(PropPart, &[Token]), ReadError>
    requires { used ≤ depth }
    ensures value { Gives (λ x. (plain_prop_part x.0, x.1.now)) result (read.first_part depth used tokens.now) }
    ensures less { IfOk result (λ x. length x.1.now < length tokens.now) }
    ensures keeps { IfOk result (λ x. x.0.used ≤ depth) }
{
    if !begins(tokens, &[0]) {
        return atom(alloc, depth, used, tokens);
    }
    if used >= depth {
        return Err(too_deep(tokens));
    }
    enclosed_of(alloc, depth, used, tokens)
}

/// `"(" prop ")"`, where a level is left.
#[cycle(prop)]
#[tactic(auto, unfolding(crate::specs::PropReaders::enclosed_of))]
fn enclosed_of(
    alloc: Global,
    depth: u32,
    used: u32,
    tokens: &[Token],
) -> Result<(PropPart, &[Token]), ReadError>
    requires { used < depth }
    ensures value { Gives (λ x. (plain_prop_part x.0, x.1.now)) result (read.enclosed_of (read.prop (depth - 1)) used tokens.now) }
    ensures less { IfOk result (λ x. length x.1.now < length tokens.now) }
    ensures keeps { IfOk result (λ x. x.0.used ≤ depth) }
{
    let (_, rest) = sign(tokens, 0)?;
    let (q, rest) = prop(alloc, depth - 1, used, rest)?;
    let (_, rest) = sign(rest, 1)?;
    let tree = q.tree;
    Ok((PropPart { tree, used }, rest))
}

/// `[ "**" prop ]`, behind a first part.
#[cycle(prop)]
fn more_parts(
    alloc: Global,
    depth: u32,
    first: PropPart,
    tokens: &[Token],
) -> Result<(PropPart, &[Token]), ReadError>
    requires { first.used ≤ depth }
    ensures value { Gives (λ x. (plain_prop_part x.0, x.1.now)) result (read.more_parts depth (plain_prop_part first) tokens.now) }
    ensures less { IfOk result (λ x. length x.1.now ≤ length tokens.now) }
    ensures keeps { IfOk result (λ x. x.0.used ≤ depth) }
{
    if !begins(tokens, &[14]) {
        return Ok((first, tokens));
    }
    if first.used >= depth {
        return Err(too_deep(tokens));
    }
    star_of(alloc, depth, first, tokens)
}

/// `"**" prop` behind a first part, where a level is left.
#[cycle(prop)]
#[tactic(auto, unfolding(crate::specs::PropReaders::star_of))]
fn star_of(
    alloc: Global,
    depth: u32,
    first: PropPart,
    tokens: &[Token],
) -> Result<(PropPart, &[Token]), ReadError>
    requires { first.used < depth }
    ensures value { Gives (λ x. (plain_prop_part x.0, x.1.now)) result (read.star_of (read.prop (depth - 1)) (plain_prop_part first) tokens.now) }
    ensures less { IfOk result (λ x. length x.1.now < length tokens.now) }
    ensures keeps { IfOk result (λ x. x.0.used ≤ depth) }
{
    let (_, rest) = sign(tokens, 14)?;
    let (q, rest) = prop(alloc, depth - 1, first.used, rest)?;
    let used = q.used + 1;
    let tree = Prop::Star(Box::new(alloc, first.tree)?, Box::new(alloc, q.tree)?);
    Ok((PropPart { tree, used }, rest))
}

/// A proposition whose levels end with it.
#[tactic(auto, unfolding(crate::specs::PropReaders::whole_prop))]
pub fn whole_prop(
    alloc: Global,
    depth: u32,
    used: u32,
    tokens: &[Token],
) -> Result<(Prop, &[Token]), ReadError>
    requires { used ≤ depth }
    ensures value { Gives (λ x. (plain_prop x.0, x.1.now)) result (read.whole_prop depth used tokens.now) }
    ensures less { IfOk result (λ x. length x.1.now < length tokens.now) }
{
    let (p, rest) = prop(alloc, depth, used, tokens)?;
    Ok((p.tree, rest))
}
