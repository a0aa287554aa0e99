ghost use Rattle.std.specs.Prelude.{◌<◌, length};

use super::*;
use c_syntax::{
    CCell, CExpr, CFun, CInit, CMember, COp, CParam, CProgram, CStmt, CStruct, CType, Local,
};
use pl_base::{Items, Memory, Name};
use pl_resource::{Cell, Fault, Value};
use std::alloc::Global;
use std::test::*;

fn crosses<T: Send + Sync>(_value: &T) {}

fn local(alloc: Global, number: u32) -> Result<Local, Memory> {
    Ok(Local {
        name: Name::of(alloc, "x")?,
        number,
    })
}

fn var(alloc: Global, number: u32) -> Result<CExpr, Memory> {
    Ok(CExpr::Var(local(alloc, number)?))
}

fn int(n: i64) -> CExpr {
    CExpr::Int(n)
}

fn bin(alloc: Global, op: COp, a: CExpr, b: CExpr) -> Result<CExpr, Memory> {
    Ok(CExpr::Bin(op, Box::new(alloc, a)?, Box::new(alloc, b)?))
}

fn list<T: Drop, const N: usize>(alloc: Global, items: [T; N]) -> Result<Items<T>, Memory> {
    Ok(Items::of(Vec::from_array(alloc, items)?))
}

fn function(
    alloc: Global,
    name: &str,
    params: Items<CParam>,
    body: Items<CStmt>,
) -> Result<CFun, Memory> {
    Ok(CFun {
        name: Name::of(alloc, name)?,
        result: CType::Void,
        params,
        body,
    })
}

// A program of `main` alone.
fn program(alloc: Global, body: Items<CStmt>) -> Result<CProgram, Memory> {
    let main = function(alloc, "main", Items::of(Vec::new(alloc)), body)?;
    Ok(CProgram {
        structs: Items::of(Vec::new(alloc)),
        funs: list(alloc, [main])?,
    })
}

// The state after these threads, one after another, have done these actions; none where one does another or may not.
fn after(
    alloc: Global,
    program: &CProgram,
    input: &[i64],
    events: &[(u32, Action)],
) -> Result<Option<CState>, Memory>
    requires { length events.now < 1000 }
{
    let mut state = CState::start(alloc, program, input)?;
    for event in events {
        let (tid, action) = *event;
        if tid >= state.threads() || !state.enabled(tid) {
            return Ok(None);
        }
        state.make_room(program, tid)?;
        if state.step(program, tid) != (Event { tid, action }) {
            return Ok(None);
        }
    }
    Ok(Some(state))
}

// What thread 0 stands before, once it has done all that it may.
fn ends(alloc: Global, program: &CProgram) -> Result<Next, Memory> {
    let mut state = CState::start(alloc, program, &[])?;
    for _event in 0..64u32 {
        if state.threads() == 0 || !state.enabled(0) {
            break;
        }
        state.make_room(program, 0)?;
        state.step(program, 0);
    }
    Ok(before(&state, 0))
}

// What a thread stands before; one that isn't there has ended.
fn before(state: &CState, tid: u32) -> Next {
    if tid < state.threads() {
        state.next_action(tid)
    } else {
        Next::Ended
    }
}

fn may(state: &CState, tid: u32) -> bool {
    tid < state.threads() && state.enabled(tid)
}

fn cell(block: u32) -> Cell {
    Cell {
        block,
        index: 0,
        field: 0,
    }
}

#[test]
fn a_program_is_stepped_to_its_end(rt: HostRuntime) -> Result<(), Fail> {
    let alloc = rt.alloc();
    let body = list(
        alloc,
        [
            CStmt::New(CType::PtrI64, local(alloc, 1)?, int(5)),
            CStmt::Load(CType::I64, local(alloc, 2)?, CCell::Whole(local(alloc, 1)?)),
            CStmt::Print(var(alloc, 2)?),
            CStmt::Free(local(alloc, 1)?),
        ],
    )?;
    let program = program(alloc, body)?;
    let events = [
        (0, Action::Alloc(0, 1)),
        (0, Action::Load(cell(0), Value::Int(5))),
        (0, Action::Print(5)),
        (0, Action::Free(0)),
        (0, Action::Return),
    ];
    let state = after(alloc, &program, &[], &events)?.expect(&rt, "these events");
    crosses(&state);
    assert_eq!(rt; state.outputs(), [5].as_slice());
    assert_eq!(rt; before(&state, 0), Next::Ended);
    Ok(())
}

// Two threads that store in one cell, the first after a print.
fn racing(alloc: Global) -> Result<CProgram, Memory> {
    let first = list(
        alloc,
        [
            CStmt::Print(int(1)),
            CStmt::Store(CCell::Whole(local(alloc, 1)?), int(1)),
        ],
    )?;
    let second = list(
        alloc,
        [CStmt::Store(CCell::Whole(local(alloc, 1)?), int(2))],
    )?;
    let body = list(
        alloc,
        [
            CStmt::New(CType::PtrI64, local(alloc, 1)?, int(0)),
            CStmt::Par(
                Name::of(alloc, "a")?,
                list(alloc, [var(alloc, 1)?])?,
                Name::of(alloc, "b")?,
                list(alloc, [var(alloc, 1)?])?,
            ),
            CStmt::Free(local(alloc, 1)?),
        ],
    )?;
    let a = function(alloc, "a", one_pointer(alloc)?, first)?;
    let b = function(alloc, "b", one_pointer(alloc)?, second)?;
    let main = function(alloc, "main", Items::of(Vec::new(alloc)), body)?;
    Ok(CProgram {
        structs: Items::of(Vec::new(alloc)),
        funs: list(alloc, [a, b, main])?,
    })
}

fn one_pointer(alloc: Global) -> Result<Items<CParam>, Memory> {
    list(
        alloc,
        [CParam {
            local: local(alloc, 1)?,
            kind: CType::PtrI64,
        }],
    )
}

#[test]
fn two_threads_stand_before_stores_of_one_cell(rt: HostRuntime) -> Result<(), Fail> {
    let alloc = rt.alloc();
    let program = racing(alloc)?;
    let events = [
        (0, Action::Alloc(0, 1)),
        (0, Action::Fork(1)),
        (0, Action::Call(1)),
        (1, Action::Print(1)),
    ];
    let state = after(alloc, &program, &[], &events)?.expect(&rt, "these events");
    for tid in 0..2 {
        let Next::Act(touch) = before(&state, tid) else {
            panic!(rt; "thread {tid} has an action");
        };
        assert_eq!(rt; touch.cell, Some(cell(0)));
        assert!(rt; touch.writes && !touch.atomic);
    }
    Ok(())
}

#[test]
fn a_join_waits_for_its_child(rt: HostRuntime) -> Result<(), Fail> {
    let alloc = rt.alloc();
    let program = racing(alloc)?;
    let events = [
        (0, Action::Alloc(0, 1)),
        (0, Action::Fork(1)),
        (0, Action::Call(1)),
        (0, Action::Store(cell(0), Value::Int(2))),
        (0, Action::Return),
        (1, Action::Print(1)),
        (1, Action::Store(cell(0), Value::Int(1))),
        (1, Action::Return),
        (0, Action::Join(1)),
        (0, Action::Free(0)),
        (0, Action::Return),
    ];
    let waiting = after(alloc, &program, &[], &events[..5])?.expect(&rt, "the first events");
    assert!(rt; !may(&waiting, 0) && may(&waiting, 1));
    let state = after(alloc, &program, &[], &events)?.expect(&rt, "these events");
    assert_eq!(rt; before(&state, 0), Next::Ended);
    Ok(())
}

#[test]
fn a_loop_turns_at_its_head(rt: HostRuntime) -> Result<(), Fail> {
    let alloc = rt.alloc();
    let test = bin(alloc, COp::Lt, var(alloc, 2)?, int(2))?;
    let next = bin(alloc, COp::Add, var(alloc, 2)?, int(1))?;
    let body = list(
        alloc,
        [
            CStmt::New(CType::PtrI64, local(alloc, 1)?, int(0)),
            CStmt::While(
                list(
                    alloc,
                    [CStmt::Load(CType::I64, local(alloc, 2)?, CCell::Whole(local(alloc, 1)?))],
                )?,
                test,
                list(alloc, [CStmt::Store(CCell::Whole(local(alloc, 1)?), next)])?,
            ),
        ],
    )?;
    let program = program(alloc, body)?;
    let events = [
        (0, Action::Alloc(0, 1)),
        (0, Action::Turn),
        (0, Action::Load(cell(0), Value::Int(0))),
        (0, Action::Store(cell(0), Value::Int(1))),
        (0, Action::Turn),
        (0, Action::Load(cell(0), Value::Int(1))),
        (0, Action::Store(cell(0), Value::Int(2))),
        (0, Action::Turn),
        (0, Action::Load(cell(0), Value::Int(2))),
        (0, Action::Return),
    ];
    assert!(rt; after(alloc, &program, &[], &events)?.is_some());
    Ok(())
}

fn faults(alloc: Global, body: Items<CStmt>) -> Result<Next, Memory> {
    ends(alloc, &program(alloc, body)?)
}

#[test]
fn each_fault_comes(rt: HostRuntime) -> Result<(), Fail> {
    let alloc = rt.alloc();
    let zero = bin(alloc, COp::Div, int(1), int(0))?;
    let next = faults(alloc, list(alloc, [CStmt::Print(zero)])?)?;
    assert_eq!(rt; next, Next::Fault(Fault::ZeroDivisor));
    let least = bin(alloc, COp::Rem, int(i64::MIN), int(-1))?;
    let next = faults(alloc, list(alloc, [CStmt::Print(least)])?)?;
    assert_eq!(rt; next, Next::Fault(Fault::Overflow));
    let null = CStmt::Let(CType::PtrI64, local(alloc, 1)?, CExpr::Null);
    let next = faults(alloc, list(alloc, [null, CStmt::Free(local(alloc, 1)?)])?)?;
    assert_eq!(rt; next, Next::Fault(Fault::Null));
    let made = CStmt::New(CType::PtrI64, local(alloc, 1)?, int(0));
    let next = faults(
        alloc,
        list(
            alloc,
            [
                made,
                CStmt::Free(local(alloc, 1)?),
                CStmt::Free(local(alloc, 1)?),
            ],
        )?,
    )?;
    assert_eq!(rt; next, Next::Fault(Fault::Dead));
    let made = CStmt::New(CType::PtrI64, local(alloc, 1)?, int(0));
    let far = CStmt::Store(CCell::At(local(alloc, 1)?, int(5)), int(1));
    let next = faults(alloc, list(alloc, [made, far])?)?;
    assert_eq!(rt; next, Next::Fault(Fault::Outside));
    let made = CStmt::NewLock(local(alloc, 1)?);
    let next = faults(
        alloc,
        list(alloc, [made, CStmt::Release(local(alloc, 1)?)])?,
    )?;
    assert_eq!(rt; next, Next::Fault(Fault::LockFree));
    let made = CStmt::NewLock(local(alloc, 1)?);
    let held = CStmt::Acquire(local(alloc, 1)?);
    let ended = CStmt::Free(local(alloc, 1)?);
    let next = faults(
        alloc,
        list(alloc, [made, held, ended, CStmt::Acquire(local(alloc, 1)?)])?,
    )?;
    assert_eq!(rt; next, Next::Fault(Fault::LockFreed));
    Ok(())
}

#[test]
fn fields_calls_swaps_and_reads(rt: HostRuntime) -> Result<(), Fail> {
    let alloc = rt.alloc();
    let node = CStruct {
        name: Name::of(alloc, "node")?,
        members: list(
            alloc,
            [
                CMember {
                    name: Name::of(alloc, "val")?,
                    kind: CType::I64,
                },
                CMember {
                    name: Name::of(alloc, "on")?,
                    kind: CType::Bool,
                },
            ],
        )?,
    };
    let inits = list(
        alloc,
        [
            CInit {
                name: Name::of(alloc, "val")?,
                value: int(3),
            },
            CInit {
                name: Name::of(alloc, "on")?,
                value: CExpr::Truth(true),
            },
        ],
    )?;
    let more = list(
        alloc,
        [CStmt::Return(bin(alloc, COp::Add, var(alloc, 1)?, int(1))?)],
    )?;
    let param = CParam {
        local: local(alloc, 1)?,
        kind: CType::I64,
    };
    let body = list(
        alloc,
        [
            CStmt::NewStruct(local(alloc, 1)?, Name::of(alloc, "node")?, inits),
            CStmt::Load(
                CType::Bool,
                local(alloc, 2)?,
                CCell::Field(local(alloc, 1)?, Name::of(alloc, "on")?),
            ),
            CStmt::NewAtomic(local(alloc, 3)?, int(4)),
            CStmt::Cas(local(alloc, 4)?, local(alloc, 3)?, int(5), int(6)),
            CStmt::Read(local(alloc, 5)?),
            CStmt::CallLet(
                CType::I64,
                local(alloc, 6)?,
                Name::of(alloc, "more")?,
                list(alloc, [var(alloc, 5)?])?,
            ),
            CStmt::Print(var(alloc, 6)?),
            CStmt::Read(local(alloc, 7)?),
        ],
    )?;
    let program = CProgram {
        structs: list(alloc, [node])?,
        funs: list(
            alloc,
            [
                function(alloc, "main", Items::of(Vec::new(alloc)), body)?,
                function(alloc, "more", list(alloc, [param])?, more)?,
            ],
        )?,
    };
    let on = Cell {
        block: 0,
        index: 0,
        field: 1,
    };
    let events = [
        (0, Action::Alloc(0, 1)),
        (0, Action::Load(on, Value::Truth(true))),
        (0, Action::Alloc(1, 1)),
        (0, Action::Cas(cell(1), 4, false)),
        (0, Action::Read(7)),
        (0, Action::Call(1)),
        (0, Action::Return),
        (0, Action::Print(8)),
        (0, Action::Read(0)),
        (0, Action::Return),
    ];
    assert!(rt; after(alloc, &program, &[7], &events)?.is_some());
    Ok(())
}
