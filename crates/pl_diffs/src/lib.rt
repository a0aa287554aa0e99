//! Numbers that meet bounds on their differences, or a cycle which shows that none do.
#![tactic(auto)]

ghost use Rattle.std.specs.Prelude.{◌≡◌, ◌↔◌, ◌<◌, ◌≤◌, ◌^◌, pos, ◌≤ℤ◌, length, unsigned_abs, All, IfOk};
ghost use Rattle.pl_diffs.specs.Differences.{Meets, NoneMeets, IsNegativeCycle, AreDistances, IsGreatest, at};
ghost use Rattle.pl_diffs.specs.Outcome.{IsCycle, IfCycle, IfPotentials};

mod rounds;
mod walk;

use crate::rounds::settle;
use pl_base::{Items, Memory};
use std::alloc::Global;

/// A bound on a difference: the number of node `to` minus that of node `from` is at most `most`.
#[derive(Clone, Copy, Debug, PartialEq, Eq)]
pub struct Edge {
    pub from: u32,
    pub to: u32,
    pub most: i128,
}

/// What the bounds come to.
#[derive(Debug, Drop)]
pub enum Solved {
    /// The places in the list of edges that form a closed path with a negative sum, in order.
    Cycle(Items<u32>),
    /// A number for each node.
    Potentials(Items<i128>),
}

/// Numbers for the nodes that meet all edges, or a cycle which shows that there are none.
///
/// The numbers are the distances from an added root with an edge of weight 0 to each node, found by
/// the method of Bellman and Ford (Cormen, Leiserson, Rivest and Stein, Introduction to Algorithms,
/// third edition, section 24.4). It takes at most as many rounds over the edges as the least power of
/// two that is not below `nodes`.
/// `Memory` comes only for want of memory.
pub fn solve(alloc: Global, nodes: u32, edges: &[Edge]) -> Result<Solved, Memory>
    requires nodes { nodes ≤ 4096 }
    requires edges { length edges.now ≤ 4096 }
    requires froms { All (λ e. e.from < nodes) edges.now }
    requires tos { All (λ e. e.to < nodes) edges.now }
    requires sizes { All (λ e. unsigned_abs e.most ≤ 2 ^ 81) edges.now }

    // A cycle comes exactly where no numbers meet all edges.
    ensures unsolvable { IfOk result (λ s. IsCycle s ↔ NoneMeets edges.now) }
    ensures cycle { IfOk result (λ s. IfCycle s (IsNegativeCycle edges.now)) }
    ensures short { IfOk result (λ s. IfCycle s (λ places. length places ≤ nodes)) }

    ensures distances { IfOk result (λ s. IfPotentials s (AreDistances edges.now nodes)) }
    ensures meets { IfOk result (λ s. IfPotentials s (λ d. Meets edges.now (at d))) }
    ensures at_most_zero { IfOk result (λ s. IfPotentials s (All (λ x. x ≤ℤ pos 0))) }
    ensures greatest { IfOk result (λ s. IfPotentials s (IsGreatest edges.now nodes)) }
    ensures bounded { IfOk result (λ s. IfPotentials s (All (λ x. unsigned_abs x ≤ 2 ^ 106))) }
{
    let mut dist = vec![in alloc; 0; nodes as usize]?;
    let mut parent = vec![in alloc; None; nodes as usize]?;
    match settle(alloc, edges, &mut dist, &mut parent)? {
        Some(cycle) => Ok(Solved::Cycle(Items::of(cycle))),
        None => Ok(Solved::Potentials(Items::of(dist))),
    }
}

#[cfg(test)]
mod tests;
