ghost use Rattle.std.specs.Prelude.{◌<◌, length};

use super::*;
use c_meaning::{Action, Event, History};
use c_syntax::{CCell, CExpr, CFun, CParam, CProgram, CStmt, CType, Local};
use pl_base::{Items, Memory, Name};
use pl_resource::{Cell, Value};
use std::alloc::Global;
use std::test::*;

fn local(alloc: Global, number: u32) -> Result<Local, Memory> {
    Ok(Local {
        name: Name::of(alloc, "x")?,
        number,
    })
}

fn list<T: Drop, const N: usize>(alloc: Global, items: [T; N]) -> Result<Items<T>, Memory> {
    Ok(Items::of(Vec::from_array(alloc, items)?))
}

fn function(
    alloc: Global,
    name: &str,
    params: Items<CParam>,
    body: Items<CStmt>,
) -> Result<CFun, Memory> {
    Ok(CFun {
        name: Name::of(alloc, name)?,
        result: CType::Void,
        params,
        body,
    })
}

// A cell is made with 5, loaded, printed and freed.
fn one_cell(alloc: Global) -> Result<CProgram, Memory> {
    let body = list(
        alloc,
        [
            CStmt::New(CType::PtrI64, local(alloc, 1)?, CExpr::Int(5)),
            CStmt::Load(CType::I64, local(alloc, 2)?, CCell::Whole(local(alloc, 1)?)),
            CStmt::Print(CExpr::Var(local(alloc, 2)?)),
            CStmt::Free(local(alloc, 1)?),
        ],
    )?;
    let main = function(alloc, "main", Items::of(Vec::new(alloc)), body)?;
    Ok(CProgram {
        structs: Items::of(Vec::new(alloc)),
        funs: list(alloc, [main])?,
    })
}

// Two threads store in one cell, the first after a print.
fn two_stores(alloc: Global) -> Result<CProgram, Memory> {
    let first = list(
        alloc,
        [
            CStmt::Print(CExpr::Int(1)),
            CStmt::Store(CCell::Whole(local(alloc, 1)?), CExpr::Int(1)),
        ],
    )?;
    let second = list(
        alloc,
        [CStmt::Store(CCell::Whole(local(alloc, 1)?), CExpr::Int(2))],
    )?;
    let body = list(
        alloc,
        [
            CStmt::New(CType::PtrI64, local(alloc, 1)?, CExpr::Int(0)),
            CStmt::Par(
                Name::of(alloc, "a")?,
                list(alloc, [CExpr::Var(local(alloc, 1)?)])?,
                Name::of(alloc, "b")?,
                list(alloc, [CExpr::Var(local(alloc, 1)?)])?,
            ),
            CStmt::Free(local(alloc, 1)?),
        ],
    )?;
    Ok(CProgram {
        structs: Items::of(Vec::new(alloc)),
        funs: list(
            alloc,
            [
                function(alloc, "a", one_pointer(alloc)?, first)?,
                function(alloc, "b", one_pointer(alloc)?, second)?,
                function(alloc, "main", Items::of(Vec::new(alloc)), body)?,
            ],
        )?,
    })
}

fn one_pointer(alloc: Global) -> Result<Items<CParam>, Memory> {
    list(
        alloc,
        [CParam {
            local: local(alloc, 1)?,
            kind: CType::PtrI64,
        }],
    )
}

fn event(tid: u32, action: Action) -> Event {
    Event { tid, action }
}

fn cell(block: u32, index: u32, field: u32) -> Cell {
    Cell {
        block,
        index,
        field,
    }
}

const FIRST: &str =
    "pulse-history 1\n0 alloc b0 1\n0 load b0.0.0 5\n0 print 5\n0 free b0\n0 return\nend 5\n";

// The line that is refused; 0 where none is.
fn refused_line(alloc: Global, text: &str) -> Result<u32, Memory>
    requires { length text.now < 1000 }
{
    match read_history(alloc, text.as_bytes()) {
        Ok(_) => Ok(0),
        Err(HistoryError::BadHistory(line)) => Ok(line),
        Err(HistoryError::Memory) => Err(Memory),
    }
}

#[test]
fn a_history_is_read_and_written(rt: HostRuntime) -> Result<(), Fail> {
    let alloc = rt.alloc();
    let text = FIRST.as_bytes();
    let history = read_history(alloc, text)?;
    let events = history.events.as_slice();
    assert_eq!(rt; events.len(), 5);
    assert_eq!(rt; events[0], event(0, Action::Alloc(0, 1)));
    assert_eq!(rt;
        events[1],
        event(0, Action::Load(cell(0, 0, 0), Value::Int(5)))
    );
    assert_eq!(rt; events[4], event(0, Action::Return));
    assert_eq!(rt; write_history(alloc, &history)?.as_slice(), text);
    Ok(())
}

#[test]
fn each_line_is_written_and_read(rt: HostRuntime) -> Result<(), Fail> {
    let alloc = rt.alloc();
    let cases = [
        (
            event(0, Action::Load(cell(0, 1, 2), Value::Truth(true))),
            "0 load b0.1.2 true",
        ),
        (
            event(1, Action::Store(cell(3, 0, 0), Value::Null)),
            "1 store b3.0.0 null",
        ),
        (
            event(2, Action::Store(cell(3, 0, 0), Value::Block(7))),
            "2 store b3.0.0 b7",
        ),
        (
            event(2, Action::Load(cell(3, 0, 0), Value::Lock(4))),
            "2 load b3.0.0 k4",
        ),
        (
            event(0, Action::Cas(cell(1, 0, 0), -4, false)),
            "0 cas b1.0.0 -4 false",
        ),
        (event(0, Action::Alloc(9, 1048576)), "0 alloc b9 1048576"),
        (event(0, Action::Free(9)), "0 free b9"),
        (event(0, Action::NewLock(2)), "0 newlock k2"),
        (event(0, Action::Acquire(2)), "0 acquire k2"),
        (event(0, Action::Release(2)), "0 release k2"),
        (event(0, Action::FreeLock(2)), "0 freelock k2"),
        (event(0, Action::Fork(4294967295)), "0 fork 4294967295"),
        (event(0, Action::Join(1)), "0 join 1"),
        (
            event(0, Action::Print(i64::MIN)),
            "0 print -9223372036854775808",
        ),
        (
            event(0, Action::Read(i64::MAX)),
            "0 read 9223372036854775807",
        ),
        (event(0, Action::Turn), "0 turn"),
        (event(0, Action::Call(3)), "0 call 3"),
        (event(4294967295, Action::Return), "4294967295 return"),
    ];
    for (event, line) in cases {
        assert_eq!(rt; event_line(alloc, &event)?.as_slice(), line.as_bytes());
        let text = format!(in alloc; "pulse-history 1\n{line}\nend 1\n")?;
        assert!(rt; text.len() < 1000);
        let history = read_history(alloc, text.as_bytes())?;
        assert_eq!(rt; history.events.as_slice(), [event].as_slice());
    }
    Ok(())
}

#[test]
fn the_first_wrong_line_is_named(rt: HostRuntime) -> Result<(), Fail> {
    let alloc = rt.alloc();
    let cases = [
        ("", 1),
        ("pulse-history 1", 1),
        ("pulse-history 2\nend 0\n", 1),
        ("pulse-history 1\r\nend 0\n", 1),
        ("pulse-history 1\n", 2),
        ("pulse-history 1\nend 1\n", 2),
        ("pulse-history 1\nend 0", 2),
        ("pulse-history 1\nend 00\n", 2),
        ("pulse-history 1\nend 0\n\n", 3),
        ("pulse-history 1\nend 0\n0 turn\n", 3),
        ("pulse-history 1\n0 turn\nend 0\n", 3),
        ("pulse-history 1\n0 turn\nen", 3),
        ("pulse-history 1\n0 turn\n", 3),
        ("pulse-history 1\n0 turn", 2),
        ("pulse-history 1\n00 turn\nend 1\n", 2),
        ("pulse-history 1\n0  turn\nend 1\n", 2),
        ("pulse-history 1\n0 turn \nend 1\n", 2),
        ("pulse-history 1\n0 print 05\nend 1\n", 2),
        ("pulse-history 1\n0 print +5\nend 1\n", 2),
        ("pulse-history 1\n0 print -0\nend 1\n", 2),
        ("pulse-history 1\n0 print 9223372036854775808\nend 1\n", 2),
        ("pulse-history 1\n0 print -9223372036854775809\nend 1\n", 2),
        ("pulse-history 1\n0 join 4294967296\nend 1\n", 2),
        ("pulse-history 1\n0 turn\n0 load b0.0 5\nend 2\n", 3),
        ("pulse-history 1\n0 turned\nend 1\n", 2),
        ("pulse-history 1\n0 load b0.0.0 k7\nend 1\n", 0),
        ("pulse-history 1\nend 0\n", 0),
    ];
    for (text, line) in cases {
        assert!(rt; text.len() < 1000);
        assert_eq!(rt; refused_line(alloc, text)?, line, "{text}");
    }
    let cut = FIRST.as_bytes();
    assert!(rt;
        matches!(
            read_history(alloc, &cut[..cut.len() - 4]),
            Err(HistoryError::BadHistory(7))
        )
    );
    Ok(())
}

// What the replay of these events answers.
fn replayed(
    alloc: Global,
    program: &CProgram,
    input: &[i64],
    events: &[Event],
) -> Result<Replayed, Memory>
    requires { length events.now < 1000 }
{
    let history = History {
        events: Items::of(Vec::from_slice(alloc, events)?),
    };
    replay(alloc, program, input, &history)
}

#[test]
fn one_thread_is_followed(rt: HostRuntime) -> Result<(), Fail> {
    let alloc = rt.alloc();
    let program = one_cell(alloc)?;
    let load = event(0, Action::Load(cell(0, 0, 0), Value::Int(5)));
    let mut events = [
        event(0, Action::Alloc(0, 1)),
        load,
        event(0, Action::Print(5)),
        event(0, Action::Free(0)),
        event(0, Action::Return),
    ];
    assert_eq!(rt; replayed(alloc, &program, &[], &events)?, Replayed::Follows);
    assert_eq!(rt;
        replayed(alloc, &program, &[], &events[..2])?,
        Replayed::Follows
    );
    let again = event(0, Action::Return);
    let past = [events[0], load, events[2], events[3], again, again];
    assert_eq!(rt;
        replayed(alloc, &program, &[], &past)?,
        Replayed::Differs(5, None, again)
    );
    let other = event(1, Action::Turn);
    assert_eq!(rt;
        replayed(alloc, &program, &[], &[other])?,
        Replayed::Differs(0, None, other)
    );
    events[1] = event(0, Action::Load(cell(0, 0, 0), Value::Int(6)));
    let differs = Replayed::Differs(1, Some(load), events[1]);
    assert_eq!(rt; replayed(alloc, &program, &[], &events)?, differs);
    Ok(())
}

#[test]
fn two_threads_are_followed(rt: HostRuntime) -> Result<(), Fail> {
    let alloc = rt.alloc();
    let program = two_stores(alloc)?;
    let at = cell(0, 0, 0);
    let events = [
        event(0, Action::Alloc(0, 1)),
        event(0, Action::Fork(1)),
        event(0, Action::Call(1)),
        event(1, Action::Print(1)),
        event(1, Action::Store(at, Value::Int(1))),
        event(0, Action::Store(at, Value::Int(2))),
        event(0, Action::Return),
        event(1, Action::Return),
        event(0, Action::Join(1)),
        event(0, Action::Free(0)),
        event(0, Action::Return),
    ];
    assert_eq!(rt; replayed(alloc, &program, &[], &events)?, Replayed::Follows);
    let join = event(0, Action::Join(1));
    let waits = [events[0], events[1], events[2], events[5], events[6], join];
    assert_eq!(rt;
        replayed(alloc, &program, &[], &waits)?,
        Replayed::Differs(5, None, join)
    );
    let mixed = event(1, Action::Call(1));
    let wrong = [events[0], events[1], mixed];
    assert_eq!(rt;
        replayed(alloc, &program, &[], &wrong)?,
        Replayed::Differs(2, Some(events[3]), mixed)
    );
    Ok(())
}

#[test]
fn what_is_read_comes_from_the_input(rt: HostRuntime) -> Result<(), Fail> {
    let alloc = rt.alloc();
    let body = list(alloc, [CStmt::Read(local(alloc, 1)?)])?;
    let main = function(alloc, "main", Items::of(Vec::new(alloc)), body)?;
    let program = CProgram {
        structs: Items::of(Vec::new(alloc)),
        funs: list(alloc, [main])?,
    };
    let seven = event(0, Action::Read(7));
    let zero = event(0, Action::Read(0));
    assert_eq!(rt;
        replayed(alloc, &program, &[7], &[seven])?,
        Replayed::Follows
    );
    assert_eq!(rt; replayed(alloc, &program, &[], &[zero])?, Replayed::Follows);
    assert_eq!(rt;
        replayed(alloc, &program, &[7], &[zero])?,
        Replayed::Differs(0, Some(seven), zero)
    );
    one_replay();
    one_reading();
    Ok(())
}
