//! The next token.

ghost use Rattle.std.specs.Prelude.{◌≡◌, ◌<◌, [], length, IfOk, Some};
ghost use Rattle.pl_readers.specs.Given.{Gives, Sees};
ghost use Rattle.pl_readers.specs.declared.error.ReadError.TheVariants as errors;
ghost use Rattle.pl_readers.specs.Reader as read;
ghost use Rattle.pl_grammar.specs.Signs.{Set, is_in, token_in, signs, place_of, name_of, number_of, entry_of, signs_of};
ghost use Rattle.pl_grammar.specs.Signs as sets;
ghost use Rattle.pl_grammar.specs.Grammar as spec;
ghost use Rattle.pl_grammar.specs.Parts.{plain_part};
ghost use Rattle.pl_grammar.specs.Readers.{others};
ghost use Rattle.pl_grammar.specs.PropReaders.{test};

use crate::part::Part;
use pl_base::{Name, Pos};
use pl_lexer::{Kind, Token};
use pl_readers::{ReadError, refused, too_deep};
use pl_syntax::{BinOp, Expr};
use std::alloc::Global;

/// Whether the next token is one of these signs.
pub fn begins(tokens: &[Token], list: &[u8]) -> bool
    ensures { result ≡ read.begins (token_in (signs list.now)) tokens.now }
{
    match tokens {
        [] => false,
        [t, ..] => match t.kind {
            Kind::Sign(sign) => is_in(list, sign),
            _ => false,
        },
    }
}

fn is_in(list: &[u8], sign: u8) -> bool
    ensures { result ≡ is_in list.now sign }
{
    match list {
        [] => false,
        [first, rest @ ..] => sign == *first || is_in(rest, sign),
    }
}

pub fn begins_number(tokens: &[Token]) -> bool
    ensures { result ≡ read.begins (token_in sets.number) tokens.now }
{
    match tokens {
        [] => false,
        [t, ..] => matches!(t.kind, Kind::Number(_)),
    }
}

pub fn begins_name(tokens: &[Token]) -> bool
    ensures { result ≡ read.begins (token_in sets.name) tokens.now }
{
    match tokens {
        [] => false,
        [t, ..] => matches!(t.kind, Kind::Word(_)),
    }
}

/// Whether the next token begins an operand that is no number.
pub fn begins_other(tokens: &[Token]) -> bool
    ensures { result ≡ read.begins (token_in others) tokens.now }
{
    match tokens {
        [] => false,
        [t, ..] => matches!(
            t.kind,
            Kind::Word(_) | Kind::Sign(0 | 16 | 51 | 52 | 53 | 54)
        ),
    }
}

/// The refusal of a token where a brace is wanted for which no level is left.
pub fn no_brace(tokens: &[Token]) -> ReadError
    ensures { result ≡ errors.Stop (record { is_deep = read.begins (token_in (sets.sign 2)) tokens.now; left = length tokens.now }) }
{
    if begins(tokens, &[2]) {
        too_deep(tokens)
    } else {
        refused(tokens)
    }
}

/// This sign.
pub fn sign(tokens: &[Token], number: u8) -> Result<(Pos, &[Token]), ReadError>
    ensures value { Gives (λ x. (x.0, x.1.now)) result (read.one (place_of number) tokens.now) }
    ensures less { IfOk result (λ x. length x.1.now < length tokens.now) }
{
    match tokens {
        [t, rest @ ..] => match t.kind {
            Kind::Sign(n) if n == number => Ok((t.pos, rest)),
            _ => Err(refused(tokens)),
        },
        [] => Err(refused(tokens)),
    }
}

/// A name, with its place.
pub fn name(alloc: Global, tokens: &[Token]) -> Result<((Pos, Name), &[Token]), ReadError>
    ensures value { Gives (λ x. (x.0, x.1.now)) result (read.one name_of tokens.now) }
    ensures less { IfOk result (λ x. length x.1.now < length tokens.now) }
{
    match tokens {
        [t, rest @ ..] => match &t.kind {
            Kind::Word(name) => Ok(((t.pos, Name::of(alloc, name.text())?), rest)),
            _ => Err(refused(tokens)),
        },
        [] => Err(refused(tokens)),
    }
}

/// A number, with its place.
pub fn number(tokens: &[Token]) -> Result<((Pos, i128), &[Token]), ReadError>
    ensures value { Gives (λ x. (x.0, x.1.now)) result (read.one number_of tokens.now) }
    ensures less { IfOk result (λ x. length x.1.now < length tokens.now) }
{
    match tokens {
        [t, rest @ ..] => match t.kind {
            Kind::Number(n) => Ok(((t.pos, n), rest)),
            _ => Err(refused(tokens)),
        },
        [] => Err(refused(tokens)),
    }
}

/// A number as an expression.
pub fn literal(used: u32, tokens: &[Token]) -> Result<(Part, &[Token]), ReadError>
    ensures value { Gives (λ x. (plain_part x.0, x.1.now)) result (read.one (spec.literal_of used) tokens.now) }
    ensures less { IfOk result (λ x. length x.1.now < length tokens.now) }
    ensures keeps { IfOk result (λ x. x.0.used ≡ used) }
{
    let ((first, n), rest) = number(tokens)?;
    let tree = Expr::Int(first, n);
    Ok((Part { first, tree, used }, rest))
}

/// A number behind a minus, whose place is given, as an expression.
pub fn negative(first: Pos, used: u32, tokens: &[Token]) -> Result<(Part, &[Token]), ReadError>
    ensures value { Gives (λ x. (plain_part x.0, x.1.now)) result (read.one (spec.negative_of used first) tokens.now) }
    ensures less { IfOk result (λ x. length x.1.now < length tokens.now) }
    ensures keeps { IfOk result (λ x. x.0.used ≡ used) }
{
    let ((_, n), rest) = number(tokens)?;
    if n < 0 {
        return Err(refused(tokens));
    }
    let tree = Expr::Int(first, -n);
    Ok((Part { first, tree, used }, rest))
}

/// A truth value, null or a name as an expression.
pub fn word(alloc: Global, used: u32, tokens: &[Token]) -> Result<(Part, &[Token]), ReadError>
    ensures value { Gives (λ x. (plain_part x.0, x.1.now)) result (read.one (spec.word_of used) tokens.now) }
    ensures less { IfOk result (λ x. length x.1.now < length tokens.now) }
    ensures keeps { IfOk result (λ x. x.0.used ≡ used) }
{
    let [t, rest @ ..] = tokens else {
        return Err(refused(tokens));
    };
    let first = t.pos;
    let tree = match &t.kind {
        Kind::Word(name) => Expr::Var(first, Name::of(alloc, name.text())?),
        Kind::Sign(52) => Expr::Truth(first, true),
        Kind::Sign(53) => Expr::Truth(first, false),
        Kind::Sign(54) => Expr::Null(first),
        _ => return Err(refused(tokens)),
    };
    Ok((Part { first, tree, used }, rest))
}

/// `*`, `/` or `%`
pub fn times(tokens: &[Token]) -> Option<(BinOp, &[Token])>
    ensures { Sees (token_in (signs_of spec.times)) (entry_of spec.times) (λ x. (x.0, x.1.now)) result tokens.now }
{
    match tokens {
        [t, rest @ ..] => match t.kind {
            Kind::Sign(17) => Some((BinOp::Mul, rest)),
            Kind::Sign(18) => Some((BinOp::Div, rest)),
            Kind::Sign(19) => Some((BinOp::Rem, rest)),
            _ => None,
        },
        [] => None,
    }
}

/// `+` or `-`
pub fn plus(tokens: &[Token]) -> Option<(BinOp, &[Token])>
    ensures { Sees (token_in (signs_of spec.plus)) (entry_of spec.plus) (λ x. (x.0, x.1.now)) result tokens.now }
{
    match tokens {
        [t, rest @ ..] => match t.kind {
            Kind::Sign(15) => Some((BinOp::Add, rest)),
            Kind::Sign(16) => Some((BinOp::Sub, rest)),
            _ => None,
        },
        [] => None,
    }
}

/// A relation of two numbers or of two values.
pub fn relation(tokens: &[Token]) -> Option<(BinOp, &[Token])>
    ensures { Sees (token_in (signs_of spec.relation)) (entry_of spec.relation) (λ x. (x.0, x.1.now)) result tokens.now }
{
    match tokens {
        [t, rest @ ..] => match t.kind {
            Kind::Sign(20) => Some((BinOp::Lt, rest)),
            Kind::Sign(21) => Some((BinOp::Le, rest)),
            Kind::Sign(22) => Some((BinOp::Gt, rest)),
            Kind::Sign(23) => Some((BinOp::Ge, rest)),
            Kind::Sign(24) => Some((BinOp::Eq, rest)),
            Kind::Sign(25) => Some((BinOp::Ne, rest)),
            _ => None,
        },
        [] => None,
    }
}

/// `&&`
pub fn conjunction(tokens: &[Token]) -> Option<(BinOp, &[Token])>
    ensures { Sees (token_in (signs_of spec.conjunction)) (entry_of spec.conjunction) (λ x. (x.0, x.1.now)) result tokens.now }
{
    match tokens {
        [t, rest @ ..] => match t.kind {
            Kind::Sign(26) => Some((BinOp::And, rest)),
            _ => None,
        },
        [] => None,
    }
}

/// `||`
pub fn disjunction(tokens: &[Token]) -> Option<(BinOp, &[Token])>
    ensures { Sees (token_in (signs_of spec.disjunction)) (entry_of spec.disjunction) (λ x. (x.0, x.1.now)) result tokens.now }
{
    match tokens {
        [t, rest @ ..] => match t.kind {
            Kind::Sign(27) => Some((BinOp::Or, rest)),
            _ => None,
        },
        [] => None,
    }
}

/// `==>`
pub fn implication(tokens: &[Token]) -> Option<(BinOp, &[Token])>
    ensures { Sees (token_in (signs_of spec.implication)) (entry_of spec.implication) (λ x. (x.0, x.1.now)) result tokens.now }
{
    match tokens {
        [t, rest @ ..] => match t.kind {
            Kind::Sign(28) => Some((BinOp::Implies, rest)),
            _ => None,
        },
        [] => None,
    }
}

/// Whether the next token is a name and the one behind it this sign.
pub fn begins_label(tokens: &[Token], number: u8) -> bool
    ensures { result ≡ test sets.name (sets.sign number) tokens.now }
{
    match tokens {
        [first, second, ..] => {
            matches!(first.kind, Kind::Word(_))
                && matches!(second.kind, Kind::Sign(n) if n == number)
        }
        _ => false,
    }
}
