// The walk back along the parents.
ghost use Rattle.std.specs.Prelude.{◌≡◌, ◌<◌, ◌≤◌, length, drop, reverse, IfOk};
ghost use Rattle.pl_diffs.specs.Rounds.{Ends};
ghost use Rattle.pl_diffs.specs.Walk.{AreEdges, WalkedBack};

use crate::Edge;
use std::alloc::{AllocError, Global};

// The edges of a trail from a place on, in the order in which they lead.
fn in_order(alloc: Global, trail: &[u32], start: usize) -> Result<Vec<u32>, AllocError>
    requires { start ≤ length trail.now }
    ensures { IfOk result (λ v. v.items ≡ reverse (drop start trail.now)) }
{
    trail[start..].iter().rev().copied().collect(alloc)
}

// Walks back along the parents, to a node that was passed before or to one without a parent.
pub fn cycle_from(
    alloc: Global,
    edges: &[Edge],
    parent: &[Option<u32>],
    last: u32,
) -> Result<Option<Vec<u32>>, AllocError>
    requires ends { Ends edges.now (length parent.now) }
    requires last { last < length parent.now }
    requires parents { AreEdges edges.now parent.now }
    ensures { IfOk result (λ o. WalkedBack edges.now parent.now last o) }
{
    let mut place: Vec<Option<usize>> = vec![in alloc; None; parent.len()]?;
    let mut trail: Vec<u32> = Vec::new(alloc);
    let mut node = last as usize;
    while let Some(i) = parent[node] {
        if let Some(start) = place[node] {
            return Ok(Some(in_order(alloc, &trail, start)?));
        }
        place[node] = Some(trail.len());
        trail.push(i)?;
        node = edges[i as usize].from as usize;
    }
    Ok(None)
}
