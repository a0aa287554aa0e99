ghost use Rattle.std.specs.Prelude.{◌≡◌};

use super::*;
use std::test::*;

fn edge(from: u32, to: u32, most: i128) -> Edge
    ensures { result ≡ record { from = from; to = to; most = most } }
{
    Edge { from, to, most }
}

#[test]
fn distances_are_least(rt: HostRuntime) -> Result<(), Fail> {
    let edges = [edge(0, 1, -2), edge(1, 2, 1), edge(3, 2, -3), edge(2, 0, 4)];
    let Solved::Potentials(distances) = solve(rt.alloc(), 4, &edges)? else {
        return Err("a cycle")?;
    };
    assert_eq!(rt; distances.as_slice(), [0, -2, -3, 0].as_slice());
    Ok(())
}

#[test]
fn a_cycle_is_found(rt: HostRuntime) -> Result<(), Fail> {
    let edges = [edge(0, 1, 5), edge(1, 2, -4), edge(0, 2, -1), edge(2, 1, 3)];
    let Solved::Cycle(places) = solve(rt.alloc(), 3, &edges)? else {
        return Err("numbers")?;
    };
    let found = places.as_slice();
    assert!(rt; found == [1, 3].as_slice() || found == [3, 1].as_slice());
    Ok(())
}
