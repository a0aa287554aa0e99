// Rounds over the edges, until nothing changes or the parents close a cycle.
ghost use Rattle.std.specs.Prelude.{◌≡◌, ◌<◌, ◌≤◌, ◌+◌, ◌*◌, ◌^◌, pos, ◌+ℤ◌, ◌≤ℤ◌, length, unsigned_abs, All, IfOk};
ghost use Rattle.pl_diffs.specs.Differences.{at};
ghost use Rattle.pl_diffs.specs.Rounds.{Ends, Ranked, Round, Rounds, Settled, Shorter, Low};

use crate::Edge;
use crate::walk::cycle_from;
use pl_base::Memory;
use std::alloc::Global;

// The distance of the edge's end by way of this edge, if that is less.
fn shorter(dist: &[i128], e: Edge) -> Option<i128>
    requires from { e.from < length dist.now }
    requires to { e.to < length dist.now }
    requires size { unsigned_abs e.most ≤ 2 ^ 81 }
    requires high { at dist.now e.from ≤ℤ pos 0 }
    requires low { pos 0 ≤ℤ (at dist.now e.from +ℤ pos (2 ^ 26 * 2 ^ 81)) }
    ensures { Shorter result (at dist.now e.from +ℤ e.most) (at dist.now e.to) }
{
    let next = dist[e.from as usize] + e.most;
    if next < dist[e.to as usize] {
        Some(next)
    } else {
        None
    }
}

// Takes each edge once, and says which node's distance fell last.
fn relax(edges: &[Edge], dist: &mut [i128], parent: &mut [Option<u32>]) -> Option<u32>
    requires ends { Ends edges.now (length dist.old) }
    requires froms { All (λ e. e.from < length dist.old) edges.now }
    requires tos { All (λ e. e.to < length dist.old) edges.now }
    requires sizes { All (λ e. unsigned_abs e.most ≤ 2 ^ 81) edges.now }
    requires ranked { Ranked edges.now (length dist.old) dist.old parent.old }
    requires low { Low (2 ^ 25) dist.old }
    requires lengths { length parent.old ≡ length dist.old }
    ensures { Round edges.now (length dist.old) dist.old dist.new parent.new (length edges.now) result }
{
    let mut last = None;
    for (i, e) in edges.iter().enumerate() {
        if let Some(next) = shorter(dist, *e) {
            dist[e.to as usize] = next;
            parent[e.to as usize] = Some(i as u32);
            last = Some(e.to);
        }
    }
    last
}

// Takes rounds until one changes nothing, or a walk back along the parents finds a cycle.
// It walks after round 1, 2, 4 and so on: a cycle is found at most twice as late as by a walk after
// each round, and the walks cost next to nothing.
pub fn settle(
    alloc: Global,
    edges: &[Edge],
    dist: &mut [i128],
    parent: &mut [Option<u32>],
) -> Result<Option<Vec<u32>>, Memory>
    requires ends { Ends edges.now (length dist.old) }
    requires froms { All (λ e. e.from < length dist.old) edges.now }
    requires tos { All (λ e. e.to < length dist.old) edges.now }
    requires sizes { All (λ e. unsigned_abs e.most ≤ 2 ^ 81) edges.now }
    requires start { Rounds edges.now (length dist.old) dist.old parent.old 0 }
    ensures { IfOk result (λ o. Settled edges.now (length dist.old) dist.new o) }
{
    let mut round: u32 = 0;
    let mut walk_at: u32 = 1;
    while let Some(last) = relax(edges, dist, parent) {
        round += 1;
        if round == walk_at {
            if let Some(cycle) = cycle_from(alloc, edges, parent, last)? {
                return Ok(Some(cycle));
            }
            walk_at *= 2;
        }
    }
    Ok(None)
}
