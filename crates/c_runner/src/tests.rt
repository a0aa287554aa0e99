use super::*;
use c_meaning::{Action, Event};
use c_syntax::{CCell, CExpr, CFun, COp, CParam, CProgram, CStmt, CType, Local};
use pl_base::{Gate, Items, Memory, Name, NullGate};
use pl_resource::{Cell, Fault, Value};
use std::alloc::Global;
use std::process::Abort;
use std::sync::Wait;
use std::sync::atomic::{AtomicBool, AtomicU64, Ordering};
use std::test::*;
use std::thread;
use std::thread::Threads;

const WORKERS: [u32; 4] = [1, 2, 3, 64];

fn local(alloc: Global, number: u32) -> Result<Local, Memory> {
    Ok(Local {
        name: Name::of(alloc, "x")?,
        number,
    })
}

fn whole(alloc: Global, number: u32) -> Result<CCell, Memory> {
    Ok(CCell::Whole(local(alloc, number)?))
}

fn list<T: Drop, const N: usize>(alloc: Global, items: [T; N]) -> Result<Items<T>, Memory> {
    Ok(Items::of(Vec::from_array(alloc, items)?))
}

fn function(
    alloc: Global,
    name: &str,
    params: Items<CParam>,
    body: Items<CStmt>,
) -> Result<CFun, Memory> {
    Ok(CFun {
        name: Name::of(alloc, name)?,
        result: CType::Void,
        params,
        body,
    })
}

fn main_of(alloc: Global, body: Items<CStmt>) -> Result<CFun, Memory> {
    function(alloc, "main", Items::of(Vec::new(alloc)), body)
}

fn program<const N: usize>(alloc: Global, funs: [CFun; N]) -> Result<CProgram, Memory> {
    Ok(CProgram {
        structs: Items::of(Vec::new(alloc)),
        funs: list(alloc, funs)?,
    })
}

fn one_pointer(alloc: Global) -> Result<Items<CParam>, Memory> {
    list(
        alloc,
        [CParam {
            local: local(alloc, 1)?,
            kind: CType::PtrI64,
        }],
    )
}

fn new(alloc: Global, number: u32, n: i64) -> Result<CStmt, Memory> {
    Ok(CStmt::New(CType::PtrI64, local(alloc, number)?, CExpr::Int(n)))
}

// Two calls with local 1 as their only argument, in two threads.
fn both_with_pointer(alloc: Global, f: &str, g: &str) -> Result<CStmt, Memory> {
    Ok(CStmt::Par(
        Name::of(alloc, f)?,
        list(alloc, [CExpr::Var(local(alloc, 1)?)])?,
        Name::of(alloc, g)?,
        list(alloc, [CExpr::Var(local(alloc, 1)?)])?,
    ))
}

const CELL: Cell = Cell {
    block: 0,
    index: 0,
    field: 0,
};

fn did(ran: &Ran, wanted: &[(u32, Action)]) -> bool {
    let events = ran.history.events.as_slice();
    events.len() == wanted.len()
        && events.iter().zip(wanted.iter()).all(|(event, (tid, action))| event.tid == *tid
            && event.action == *action)
}

fn count(ran: &Ran, action: Action) -> usize {
    ran.history
        .events
        .as_slice()
        .iter()
        .filter(|event| event.action == action)
        .count()
}

// A cell is made, loaded, printed and freed.
fn one_cell(alloc: Global) -> Result<CProgram, Memory> {
    let body = list(
        alloc,
        [
            new(alloc, 1, 5)?,
            CStmt::Load(CType::I64, local(alloc, 2)?, whole(alloc, 1)?),
            CStmt::Print(CExpr::Var(local(alloc, 2)?)),
            CStmt::Free(local(alloc, 1)?),
        ],
    )?;
    program(alloc, [main_of(alloc, body)?])
}

#[test]
fn one_thread_for_any_number_of_workers(rt: HostRuntime) -> Result<(), Fail> {
    let alloc = rt.alloc();
    let program = one_cell(alloc)?;
    let wanted = [
        (0, Action::Alloc(0, 1)),
        (0, Action::Load(CELL, Value::Int(5))),
        (0, Action::Print(5)),
        (0, Action::Free(0)),
        (0, Action::Return),
    ];
    for workers in WORKERS {
        let ran = run_threads(&rt, alloc, &program, &[], 100, workers, &NullGate)?;
        assert_eq!(rt; ran.end, RunEnd::Ended);
        assert!(rt; did(&ran, &wanted));
        let bounded = run_threads(&rt, alloc, &program, &[], 1, workers, &NullGate)?;
        assert_eq!(rt; bounded.end, RunEnd::StepBound);
        assert!(rt; did(&bounded, &wanted[..1]));
    }
    Ok(())
}

// Two threads load one cell and print what it holds.
fn two_readers(alloc: Global) -> Result<CProgram, Memory> {
    let show = list(
        alloc,
        [
            CStmt::Load(CType::I64, local(alloc, 2)?, whole(alloc, 1)?),
            CStmt::Print(CExpr::Var(local(alloc, 2)?)),
        ],
    )?;
    let body = list(
        alloc,
        [
            new(alloc, 1, 7)?,
            both_with_pointer(alloc, "show", "show")?,
            CStmt::Free(local(alloc, 1)?),
        ],
    )?;
    let show = function(alloc, "show", one_pointer(alloc)?, show)?;
    program(alloc, [show, main_of(alloc, body)?])
}

#[test]
fn two_readers_of_one_cell(rt: HostRuntime) -> Result<(), Fail> {
    let alloc = rt.alloc();
    let program = two_readers(alloc)?;
    for workers in WORKERS {
        let ran = run_threads(&rt, alloc, &program, &[], 100, workers, &NullGate)?;
        assert_eq!(rt; ran.end, RunEnd::Ended);
        assert_eq!(rt; ran.history.events.as_slice().len(), 12);
        assert_eq!(rt; count(&ran, Action::Print(7)), 2);
    }
    let ran = run_threads(&rt, alloc, &program, &[], 100, 1, &NullGate)?;
    let wanted = [
        (0, Action::Alloc(0, 1)),
        (0, Action::Fork(1)),
        (1, Action::Load(CELL, Value::Int(7))),
        (0, Action::Call(0)),
        (1, Action::Print(7)),
        (0, Action::Load(CELL, Value::Int(7))),
        (1, Action::Return),
        (0, Action::Print(7)),
        (0, Action::Return),
        (0, Action::Join(1)),
        (0, Action::Free(0)),
        (0, Action::Return),
    ];
    assert!(rt; did(&ran, &wanted));
    Ok(())
}

#[test]
fn a_lock_that_is_taken_twice(rt: HostRuntime) -> Result<(), Fail> {
    let alloc = rt.alloc();
    let body = list(
        alloc,
        [
            CStmt::NewLock(local(alloc, 1)?),
            CStmt::Acquire(local(alloc, 1)?),
            CStmt::Acquire(local(alloc, 1)?),
            CStmt::Release(local(alloc, 1)?),
            CStmt::Free(local(alloc, 1)?),
        ],
    )?;
    let program = program(alloc, [main_of(alloc, body)?])?;
    for workers in WORKERS {
        let ran = run_threads(&rt, alloc, &program, &[], 100, workers, &NullGate)?;
        assert_eq!(rt; ran.end, RunEnd::Deadlock);
        assert!(rt; did(&ran, &[(0, Action::NewLock(0)), (0, Action::Acquire(0))]));
    }
    Ok(())
}

#[test]
fn two_stores_race(rt: HostRuntime) -> Result<(), Fail> {
    let alloc = rt.alloc();
    let first = list(
        alloc,
        [
            CStmt::Print(CExpr::Int(1)),
            CStmt::Store(whole(alloc, 1)?, CExpr::Int(1)),
        ],
    )?;
    let second = list(alloc, [CStmt::Store(whole(alloc, 1)?, CExpr::Int(2))])?;
    let body = list(
        alloc,
        [
            new(alloc, 1, 0)?,
            both_with_pointer(alloc, "a", "b")?,
            CStmt::Free(local(alloc, 1)?),
        ],
    )?;
    let a = function(alloc, "a", one_pointer(alloc)?, first)?;
    let b = function(alloc, "b", one_pointer(alloc)?, second)?;
    let program = program(alloc, [a, b, main_of(alloc, body)?])?;
    let ran = run_threads(&rt, alloc, &program, &[], 100, 1, &NullGate)?;
    assert_eq!(rt; ran.end, RunEnd::Race(0, 1, CELL));
    let wanted = [
        (0, Action::Alloc(0, 1)),
        (0, Action::Fork(1)),
        (1, Action::Print(1)),
        (0, Action::Call(1)),
    ];
    assert!(rt; did(&ran, &wanted));
    Ok(())
}

#[test]
fn a_zero_divisor(rt: HostRuntime) -> Result<(), Fail> {
    let alloc = rt.alloc();
    let quotient = CExpr::Bin(
        COp::Div,
        Box::new(alloc, CExpr::Int(1))?,
        Box::new(alloc, CExpr::Int(0))?,
    );
    let body = list(alloc, [CStmt::Print(quotient)])?;
    let program = program(alloc, [main_of(alloc, body)?])?;
    for workers in WORKERS {
        let ran = run_threads(&rt, alloc, &program, &[], 100, workers, &NullGate)?;
        assert_eq!(rt; ran.end, RunEnd::CFault(0, Fault::ZeroDivisor));
        assert!(rt; did(&ran, &[]));
    }
    Ok(())
}

#[test]
fn threads_without_end(rt: HostRuntime) -> Result<(), Fail> {
    let alloc = rt.alloc();
    let none = Items::of(Vec::new(alloc));
    let split = CStmt::Par(
        Name::of(alloc, "f")?,
        Items::of(Vec::new(alloc)),
        Name::of(alloc, "f")?,
        Items::of(Vec::new(alloc)),
    );
    let call = CStmt::Call(Name::of(alloc, "f")?, Items::of(Vec::new(alloc)));
    let f = function(alloc, "f", none, list(alloc, [split])?)?;
    let program = program(alloc, [f, main_of(alloc, list(alloc, [call])?)?])?;
    for workers in WORKERS {
        let ran = run_threads(&rt, alloc, &program, &[], 10000, workers, &NullGate)?;
        assert_eq!(rt; ran.end, RunEnd::ThreadLimit);
        assert_eq!(rt; count(&ran, Action::Fork(1023)), 1);
        assert_eq!(rt; count(&ran, Action::Fork(1024)), 0);
    }
    Ok(())
}

const TURNS: u32 = 10_000_000;

/// Holds worker 0 after 2 events until worker 1 has recorded 1, and worker 1 then until worker 0 has recorded 3.
#[derive(Drop)]
struct MeetGate {
    done: [AtomicU64; 2],
    /// Whether the other worker didn't come, or a count was left out.
    failed: AtomicBool,
}

impl MeetGate {
    fn hold(&self, other: usize, until: u64) {
        for _ in 0..TURNS {
            if self.count(other) >= until {
                return;
            }
            thread::yield_now();
        }
        self.failed.store(true, Ordering::SeqCst);
    }

    fn count(&self, worker: usize) -> u64 {
        match self.done.get(worker) {
            Some(done) => done.load(Ordering::SeqCst),
            None => 0,
        }
    }
}

impl Gate for MeetGate {
    fn before(&self, worker: u32, done: u64) {
        let before = self.count(worker as usize);
        if before != done && before.wrapping_add(1) != done {
            self.failed.store(true, Ordering::SeqCst);
        }
        if let Some(count) = self.done.get(worker as usize) {
            count.store(done, Ordering::SeqCst);
        }
        if worker == 0 && done == 2 {
            self.hold(1, 1);
        }
        if worker == 1 && done == 1 {
            self.hold(0, 3);
        }
    }
}

#[test]
fn two_workers_meet(rt: HostRuntime) -> Result<(), Fail> {
    let alloc = rt.alloc();
    let program = two_readers(alloc)?;
    let gate = MeetGate {
        done: [AtomicU64::new(0), AtomicU64::new(0)],
        failed: AtomicBool::new(false),
    };
    let ran = run_threads(&rt, alloc, &program, &[], 100, 2, &gate)?;
    assert!(rt; !gate.failed.load(Ordering::SeqCst));
    assert_eq!(rt; gate.count(0), 9);
    assert_eq!(rt; gate.count(1), 3);
    assert_eq!(rt; ran.end, RunEnd::Ended);
    Ok(())
}
