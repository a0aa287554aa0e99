//! Breaches by kind and place.

ghost use Rattle.std.specs.Prelude.{◌≡◌, Some};
ghost use Rattle.pl_syntax.specs.Breaches as spec;

use pl_base::Pos;
use pl_syntax::{Breach, Rule};

/// Rules on names come before all others.
fn group(rule: Rule) -> u8
    ensures { result ≡ spec.group rule }
{
    match rule {
        Rule::Unknown | Rule::Twice => 0,
        _ => 1,
    }
}

/// The order of several breaches at one place.
fn rank(rule: Rule) -> u8
    ensures { result ≡ spec.rank rule }
{
    match rule {
        Rule::Unknown => 0,
        Rule::Twice => 1,
        Rule::GhostFlow => 2,
        Rule::IllTyped => 3,
        Rule::Opening => 4,
        Rule::Measure => 5,
    }
}

/// The lesser number goes first; between equal ones the rest decides.
fn precedes(m: u32, n: u32, rest: bool) -> bool
    ensures { result ≡ spec.precedes m n rest }
{
    m < n || (m == n && rest)
}

/// By names and other rules, then by place, then by kind.
fn comes_before(a: Breach, b: Breach) -> bool
    ensures { result ≡ spec.comes_before a b }
{
    let by_kind = precedes(u32::from(rank(a.rule)), u32::from(rank(b.rule)), false);
    let by_place = precedes(a.pos.byte, b.pos.byte, by_kind);
    precedes(u32::from(group(a.rule)), u32::from(group(b.rule)), by_place)
}

/// The one that comes first, where there are any.
pub(crate) fn earlier(a: Option<Breach>, b: Option<Breach>) -> Option<Breach>
    ensures { result ≡ spec.earlier a b }
{
    match a {
        None => b,
        Some(one) => match b {
            None => Some(one),
            Some(other) => {
                if comes_before(other, one) {
                    Some(other)
                } else {
                    Some(one)
                }
            }
        },
    }
}

/// The one, or where it isn't there the other.
pub(crate) fn first(a: Option<Breach>, b: Option<Breach>) -> Option<Breach>
    ensures { result ≡ spec.first a b }
{
    match a {
        None => b,
        Some(one) => Some(one),
    }
}

/// A breach of that kind there.
pub(crate) fn at(rule: Rule, pos: Pos) -> Option<Breach>
    ensures { result ≡ Some (spec.at rule pos) }
{
    Some(Breach { rule, pos })
}

/// A breach of that kind there, unless the test holds.
pub(crate) fn unless(test: bool, rule: Rule, pos: Pos) -> Option<Breach>
    ensures { result ≡ spec.least (spec.unless test rule pos) }
{
    if test { None } else { at(rule, pos) }
}
