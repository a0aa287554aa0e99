//! Permissions.

ghost use Rattle.std.specs.Prelude.{◌≡◌, ◌<◌, ◌≤◌, ◌+◌, ◌-◌, [], ◌∷◌, map, length, IfOk, Ok, Some};
ghost use Rattle.std.specs.Option.{option_map};
ghost use Rattle.pl_readers.specs.Given.{Gives, Fails};
ghost use Rattle.pl_readers.specs.Reader.{onto, one, repeat};
ghost use Rattle.pl_grammar.specs.PropReaders as read;
ghost use Rattle.std.specs.Prelude.{◌==◌};
ghost use Rattle.pl_base.specs.Fraction.{IsPart, IsFraction};
ghost use Rattle.pl_grammar.specs.PropGrammar as spec;

use crate::tokens::{begins, begins_number, name, number, sign};
use pl_base::{Name, Perm, Pos};
use pl_lexer::Token;
use pl_readers::{ReadError, refused};
use pl_syntax::PermExpr;
use std::alloc::Global;

/// The greatest number in a permission.
const FINEST: i128 = 1_048_576;

/// `n / d` in lowest terms.
fn part(n: u32, d: u32) -> Perm
    requires { IsPart n d }
    ensures value { result ≡ spec.lowest n d }
    ensures fraction { IsFraction result.0 result.1 }
{
    match Perm::new(n, d) {
        Some(part) => part,
        None => unreachable!(),
    }
}

/// A number from 1 to 1,048,576, with its place.
fn numerator(tokens: &[Token]) -> Result<((Pos, u32), &[Token]), ReadError>
    ensures value { Gives (λ x. (x.0, x.1.now)) result (one spec.numerator_of tokens.now) }
    ensures less { IfOk result (λ x. length x.1.now < length tokens.now) }
    ensures within { IfOk result (λ x. IsPart x.0.1 spec.finest) }
{
    let ((pos, n), rest) = number(tokens)?;
    if n < 1 || n > FINEST {
        return Err(refused(tokens));
    }
    Ok(((pos, n as u32), rest))
}

/// A number from the numerator to 1,048,576.
fn denominator(n: u32, tokens: &[Token]) -> Result<(u32, &[Token]), ReadError>
    requires { IsPart n spec.finest }
    ensures value { Gives (λ x. (x.0, x.1.now)) result (one (spec.denominator_of n) tokens.now) }
    ensures less { IfOk result (λ x. length x.1.now < length tokens.now) }
    ensures within { IfOk result (λ x. IsPart n x.0) }
{
    let ((_, d), rest) = number(tokens)?;
    if d < i128::from(n) || d > FINEST {
        return Err(refused(tokens));
    }
    Ok((d as u32, rest))
}

/// `[ "*" NAME ]`
#[tactic(auto, unfolding(crate::specs::PropReaders::factor))]
fn factor(alloc: Global, tokens: &[Token]) -> Result<(Option<Name>, &[Token]), ReadError>
    ensures value { Gives (λ x. (x.0, x.1.now)) result (read.factor tokens.now) }
    ensures less { IfOk result (λ x. length x.1.now ≤ length tokens.now) }
{
    if !begins(tokens, &[17]) {
        return Ok((None, tokens));
    }
    let (_, rest) = sign(tokens, 17)?;
    let (f, rest) = name(alloc, rest)?;
    Ok((Some(f.1), rest))
}

/// `"/" NUMBER [ "*" NAME ]`, behind a numerator.
#[tactic(auto, unfolding(crate::specs::PropReaders::fraction_at))]
fn fraction_at(
    alloc: Global,
    n: (Pos, u32),
    tokens: &[Token],
) -> Result<(PermExpr, &[Token]), ReadError>
    requires { IsPart n.1 spec.finest }
    ensures value { Gives (λ x. (x.0, x.1.now)) result (read.fraction_at n tokens.now) }
    ensures less { IfOk result (λ x. length x.1.now < length tokens.now) }
{
    let (_, rest) = sign(tokens, 18)?;
    let (d, rest) = denominator(n.1, rest)?;
    let (var, rest) = factor(alloc, rest)?;
    let part = part(n.1, d);
    Ok((
        PermExpr {
            pos: n.0,
            part,
            var,
        },
        rest,
    ))
}

/// `[ "/" NUMBER ] [ "*" NAME ]`, behind a numerator; one other than 1 has a denominator.
#[tactic(auto, unfolding(crate::specs::PropReaders::behind_numerator))]
fn behind_numerator(
    alloc: Global,
    n: (Pos, u32),
    tokens: &[Token],
) -> Result<(PermExpr, &[Token]), ReadError>
    requires { IsPart n.1 spec.finest }
    ensures value { Gives (λ x. (x.0, x.1.now)) result (read.behind_numerator (n.1 == 1) n tokens.now) }
    ensures less { IfOk result (λ x. length x.1.now ≤ length tokens.now) }
{
    if n.1 != 1 {
        return fraction_at(alloc, n, tokens);
    }
    if begins(tokens, &[18]) {
        return fraction_at(alloc, n, tokens);
    }
    let (var, rest) = factor(alloc, tokens)?;
    let part = part(1, 1);
    Ok((
        PermExpr {
            pos: n.0,
            part,
            var,
        },
        rest,
    ))
}

/// `NUMBER [ "/" NUMBER ] [ "*" NAME ] | NAME`
#[tactic(auto, unfolding(crate::specs::PropReaders::permission))]
pub fn permission(alloc: Global, tokens: &[Token]) -> Result<(PermExpr, &[Token]), ReadError>
    ensures value { Gives (λ x. (x.0, x.1.now)) result (read.permission tokens.now) }
    ensures less { IfOk result (λ x. length x.1.now < length tokens.now) }
{
    if begins_number(tokens) {
        let (n, rest) = numerator(tokens)?;
        return behind_numerator(alloc, n, rest);
    }
    let (f, rest) = name(alloc, tokens)?;
    let part = part(1, 1);
    let var = Some(f.1);
    Ok((
        PermExpr {
            pos: f.0,
            part,
            var,
        },
        rest,
    ))
}

/// A missing permission, in an atom at a place.
pub fn whole_at(pos: Pos) -> PermExpr
    ensures { result ≡ spec.whole_at pos }
{
    let part = part(1, 1);
    PermExpr {
        pos,
        part,
        var: None,
    }
}
