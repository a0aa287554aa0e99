//! Where statements stand.

ghost use Rattle.std.specs.Prelude.{◌≡◌};
ghost use Rattle.pl_syntax.specs.Breaches.{least};
ghost use Rattle.pl_syntax.specs.StmtRules as spec;

use crate::breach::{earlier, unless};
use pl_base::Pos;
use pl_syntax::{Breach, Inside, Rule, Spot};

fn is_outside(inside: Inside) -> bool
    ensures { result ≡ spec.is_outside inside }
{
    matches!(inside, Inside::Outside)
}

fn nested(inside: Inside) -> Inside
    ensures { result ≡ spec.nested inside }
{
    match inside {
        Inside::Outside => Inside::Outside,
        _ => Inside::Nested,
    }
}

/// A real statement stands in no ghost function and in no block.
#[tactic(auto, using(crate::proofs::Leasts::least_append))]
pub(crate) fn real(spot: Spot, pos: Pos) -> Option<Breach>
    ensures { result ≡ least (spec.real_breaches spot pos) }
{
    earlier(
        unless(!spot.is_ghost, Rule::IllTyped, pos),
        outside(spot, pos),
    )
}

/// An atomic action may stand in a block, but not under an `if` of it.
#[tactic(auto, using(crate::proofs::Leasts::least_append))]
pub(crate) fn action(spot: Spot, pos: Pos) -> Option<Breach>
    ensures { result ≡ least (spec.action_breaches spot pos) }
{
    let nested = matches!(spot.inside, Inside::Nested);
    earlier(
        unless(!spot.is_ghost, Rule::IllTyped, pos),
        unless(!nested, Rule::Opening, pos),
    )
}

/// What stands in no block.
pub(crate) fn outside(spot: Spot, pos: Pos) -> Option<Breach>
    ensures { result ≡ least (spec.outside_breaches spot pos) }
{
    unless(is_outside(spot.inside), Rule::Opening, pos)
}

/// An invariant is opened in real functions and in marked ghost ones, and in no block.
#[tactic(auto, using(crate::proofs::Leasts::least_append))]
pub(crate) fn opening(spot: Spot, pos: Pos) -> Option<Breach>
    ensures { result ≡ least (spec.opening_breaches spot pos) }
{
    earlier(
        outside(spot, pos),
        unless(!spot.is_ghost || spot.opens, Rule::Opening, pos),
    )
}

/// Whether a function there calls the ghost function at that place with an end.
pub(crate) fn may_call(spot: Spot, place: usize) -> bool
    ensures { result ≡ spec.may_call spot place }
{
    place < spot.place || (place == spot.place && spot.measured)
}

pub(crate) fn move_to(spot: Spot, inside: Inside) -> Spot
    ensures { result ≡ spec.move_to inside spot }
{
    Spot {
        place: spot.place,
        is_ghost: spot.is_ghost,
        opens: spot.opens,
        measured: spot.measured,
        inside,
    }
}

/// In an arm or a loop.
pub(crate) fn under(spot: Spot) -> Spot
    ensures { result ≡ spec.under spot }
{
    move_to(spot, nested(spot.inside))
}
