ghost use Rattle.std.specs.Prelude.{◌≡◌, ◌*◌, ◌%◌, ◌^◌};

use super::*;
use pl_base::{Gate, Memory, NullGate};
use std::process::Abort;
use std::sync::Wait;
use std::sync::atomic::{AtomicBool, AtomicU64, Ordering};
use std::test::*;
use std::thread;
use std::thread::Threads;

struct Squares;

impl Work for Squares {
    type Out = u32;

    ghost gives = { λ s item out. out ≡ item * item % 2 ^ 32 };

    fn one(&self, item: u32) -> Result<u32, Memory> {
        Ok(item.wrapping_mul(item))
    }
}

/// A work that wants memory for one item.
struct WantsAt(u32);

impl Work for WantsAt {
    type Out = u32;

    ghost gives = { λ s item out. out ≡ item };

    fn one(&self, item: u32) -> Result<u32, Memory> {
        if item == self.0 {
            return Err(Memory);
        }
        Ok(item)
    }
}

/// A gate that holds each of two workers, when it has done one item, until the other has done one too.
#[derive(Drop)]
struct MeetGate {
    done: [AtomicU64; 2],
    late: AtomicBool,
}

impl Gate for MeetGate {
    fn before(&self, worker: u32, done: u64) {
        if worker > 1 {
            return;
        }
        self.done[worker as usize].store(done, Ordering::SeqCst);
        if done == 1 {
            for _ in 0..10_000_000 {
                if self.done[1 - worker as usize].load(Ordering::SeqCst) >= 1 {
                    return;
                }
                thread::yield_now();
            }
            self.late.store(true, Ordering::SeqCst);
        }
    }
}

/// A gate that counts the claims of each worker, and tells whether a worker's counts went other than 0, 1, 2, ..
#[derive(Drop)]
struct CountGate {
    claims: [AtomicU64; 2],
    other: AtomicBool,
}

impl Gate for CountGate {
    fn before(&self, worker: u32, done: u64) {
        if worker > 1 {
            self.other.store(true, Ordering::SeqCst);
            return;
        }
        let before = self.claims[worker as usize].fetch_add(1, Ordering::SeqCst);
        if before != done {
            self.other.store(true, Ordering::SeqCst);
        }
    }
}

fn are_squares(results: &[u32]) -> bool {
    let mut item: u32 = 0;
    for result in results {
        if *result != item.wrapping_mul(item) {
            return false;
        }
        item = item.wrapping_add(1);
    }
    true
}

#[test]
fn results_stand_in_order(rt: HostRuntime) -> Result<(), Fail> {
    for workers in [1, 2, 64] {
        for items in [0, 1, 4096] {
            let results = run_claims(&rt, rt.alloc(), workers, items, &Squares, &NullGate)?;
            assert_eq!(rt; results.len(), items as usize);
            assert!(rt; are_squares(&results));
        }
    }
    Ok(())
}

#[test]
fn two_workers_meet(rt: HostRuntime) -> Result<(), Fail> {
    let gate = MeetGate {
        done: [AtomicU64::new(0), AtomicU64::new(0)],
        late: AtomicBool::new(false),
    };
    let results = run_claims(&rt, rt.alloc(), 2, 2, &Squares, &gate)?;
    assert!(rt; !gate.late.load(Ordering::SeqCst));
    assert_eq!(rt; results.as_slice(), [0, 1].as_slice());
    Ok(())
}

#[test]
fn a_gate_sees_each_claim(rt: HostRuntime) -> Result<(), Fail> {
    let gate = CountGate {
        claims: [AtomicU64::new(0), AtomicU64::new(0)],
        other: AtomicBool::new(false),
    };
    let results = run_claims(&rt, rt.alloc(), 2, 100, &Squares, &gate)?;
    assert_eq!(rt; results.len(), 100);
    assert!(rt; !gate.other.load(Ordering::SeqCst));
    let claims = gate.claims[0]
        .load(Ordering::SeqCst)
        .wrapping_add(gate.claims[1].load(Ordering::SeqCst));
    assert_eq!(rt; claims, 102);
    Ok(())
}

#[test]
fn want_of_memory_is_answered(rt: HostRuntime) -> Result<(), Fail> {
    assert!(rt; run_claims(&rt, rt.alloc(), 2, 9, &WantsAt(8), &NullGate).is_err());
    assert!(rt; run_claims(&rt, rt.alloc(), 2, 9, &WantsAt(9), &NullGate).is_ok());
    Ok(())
}
