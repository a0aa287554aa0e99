use super::*;
use pl_base::{Items, Memory, Name};
use std::process::Abort;
use std::test::Fail;

fn crosses<T: Send + Sync>(_value: &T) {}

fn cell(block: u32, index: u32, field: u32) -> Cell {
    Cell {
        block,
        index,
        field,
    }
}

#[test]
fn cells_of_arrays_and_structs(rt: HostRuntime) -> Result<(), Fail> {
    let mut heap = Heap::new(rt.alloc());
    assert_eq!(rt; heap.make(false, &[Value::Int(0)], 3), Ok(0));
    assert_eq!(rt; heap.make(false, &[Value::Int(3), Value::Null], 1), Ok(1));
    for (at, value, want) in [
        (cell(0, 1, 0), Value::Int(8), Ok(())),
        (cell(0, 3, 0), Value::Int(8), Err(Fault::Outside)),
        (cell(0, 0, 1), Value::Int(8), Err(Fault::Outside)),
        (cell(0, 3, 0), Value::Null, Err(Fault::Outside)),
        (cell(0, 0, 0), Value::Truth(true), Err(Fault::Kind)),
        (cell(1, 0, 1), Value::Block(0), Ok(())),
        (cell(1, 0, 1), Value::Lock(0), Err(Fault::Kind)),
        (cell(2, 0, 0), Value::Int(8), Err(Fault::Dead)),
    ] {
        assert_eq!(rt; heap.store(at, false, value), want);
    }
    for (at, atomic, want) in [
        (cell(0, 0, 0), false, Ok(Value::Int(0))),
        (cell(0, 1, 0), false, Ok(Value::Int(8))),
        (cell(0, 2, 0), false, Ok(Value::Int(0))),
        (cell(1, 0, 0), false, Ok(Value::Int(3))),
        (cell(1, 0, 1), false, Ok(Value::Block(0))),
        (cell(1, 0, 2), false, Err(Fault::Outside)),
        (cell(1, 0, 0), true, Err(Fault::Kind)),
    ] {
        assert_eq!(rt; heap.load(at, atomic), want);
    }
    crosses(&heap);
    crosses(&cell(0, 0, 0));
    crosses(&Value::Null);
    crosses(&Fault::Dead);
    Ok(())
}

#[test]
fn a_freed_block_is_dead_for_good(rt: HostRuntime) -> Result<(), Fail> {
    let mut heap = Heap::new(rt.alloc());
    assert_eq!(rt; heap.make(false, &[Value::Int(1)], 1), Ok(0));
    assert_eq!(rt; heap.free(0), Ok(()));
    assert_eq!(rt; heap.free(0), Err(Fault::Dead));
    assert_eq!(rt; heap.make(false, &[Value::Int(2)], 1), Ok(1));
    assert_eq!(rt; heap.load(cell(0, 0, 0), false), Err(Fault::Dead));
    assert_eq!(rt; heap.load(cell(0, 9, 9), true), Err(Fault::Dead));
    assert_eq!(rt; heap.load(cell(1, 0, 0), false), Ok(Value::Int(2)));
    assert_eq!(rt; heap.free(2), Err(Fault::Dead));
    Ok(())
}

#[test]
fn compare_and_swap(rt: HostRuntime) -> Result<(), Fail> {
    let mut heap = Heap::new(rt.alloc());
    assert_eq!(rt; heap.make(true, &[Value::Int(5)], 1), Ok(0));
    assert_eq!(rt; heap.make(false, &[Value::Int(5)], 1), Ok(1));
    assert_eq!(rt; heap.cas(cell(0, 0, 0), 5, 7), Ok((5, true)));
    assert_eq!(rt; heap.cas(cell(0, 0, 0), 5, 9), Ok((7, false)));
    assert_eq!(rt; heap.load(cell(0, 0, 0), true), Ok(Value::Int(7)));
    assert_eq!(rt; heap.cas(cell(1, 0, 0), 5, 7), Err(Fault::Kind));
    assert_eq!(rt; heap.cas(cell(0, 1, 0), 7, 8), Err(Fault::Outside));
    assert_eq!(rt; heap.cas(cell(2, 0, 0), 7, 8), Err(Fault::Dead));
    Ok(())
}

// That the answers of `make` and `push` are `Ok` is proved.
#[test]
fn room_is_kept(rt: HostRuntime) -> Result<(), Fail> {
    let mut heap = Heap::new(rt.alloc());
    let first = [Value::Int(0), Value::Null];
    heap.room(2, 3)?;
    let _ = heap.free(0);
    let _ = heap.store(cell(0, 0, 0), false, Value::Int(1));
    let Ok(block) = heap.make(false, &first, 3) else {
        unreachable!();
    };
    assert_eq!(rt; heap.load(cell(block, 2, 1), false), Ok(Value::Null));
    let mut locks = LockTable::new(rt.alloc());
    locks.room()?;
    let Ok(lock) = locks.push(None) else {
        unreachable!();
    };
    assert_eq!(rt; locks.is_free(lock), Ok(true));
    Ok(())
}

#[test]
fn ghost_cells(rt: HostRuntime) -> Result<(), Fail> {
    let mut ghosts = GhostHeap::new(rt.alloc());
    assert_eq!(rt; ghosts.push(1), Ok(0));
    assert_eq!(rt; ghosts.push(i128::MAX), Ok(1));
    assert_eq!(rt; ghosts.set(0, i128::MIN), Ok(()));
    assert_eq!(rt; ghosts.set(2, 0), Err(Fault::GhostMissing));
    assert_eq!(rt; ghosts.get(0), Ok(i128::MIN));
    assert_eq!(rt; ghosts.get(1), Ok(i128::MAX));
    assert_eq!(rt; ghosts.get(2), Err(Fault::GhostMissing));
    crosses(&ghosts);
    crosses(&GValue::Int(0));
    Ok(())
}

fn entry(rt: &impl AllocGlobal) -> Result<Entry, Memory> {
    let alloc = rt.alloc();
    let mut args = Vec::new(alloc);
    args.push(GValue::Cell(0))?;
    Ok(Entry {
        pred: Name::of(alloc, "p")?,
        args: Items::of(args),
    })
}

#[test]
fn locks(rt: HostRuntime) -> Result<(), Fail> {
    let mut locks = LockTable::new(rt.alloc());
    let made = locks.push(Some(entry(&rt)?));
    assert_eq!(rt; made, Ok(0));
    assert_eq!(rt; locks.push(None), Ok(1));
    assert_eq!(rt; locks.set(0, false), Err(Fault::LockFree));
    assert_eq!(rt; locks.end(0), Err(Fault::LockFree));
    assert_eq!(rt; locks.is_free(0), Ok(true));
    assert_eq!(rt; locks.set(0, true), Ok(()));
    assert_eq!(rt; locks.is_free(0), Ok(false));
    assert_eq!(rt; locks.is_free(1), Ok(true));
    assert_eq!(rt; locks.set(0, false), Ok(()));
    assert_eq!(rt; locks.set(0, true), Ok(()));
    assert_eq!(rt; locks.end(0), Ok(()));
    assert_eq!(rt; locks.is_free(0), Err(Fault::LockFreed));
    assert_eq!(rt; locks.set(0, true), Err(Fault::LockFreed));
    assert_eq!(rt; locks.set(0, false), Err(Fault::LockFreed));
    assert_eq!(rt; locks.end(0), Err(Fault::LockFreed));
    crosses(&locks);
    Ok(())
}

#[test]
fn invariants(rt: HostRuntime) -> Result<(), Fail> {
    let mut invs = InvTable::new(rt.alloc());
    assert_eq!(rt; invs.push(entry(&rt)?), Ok(0));
    assert_eq!(rt; invs.push(entry(&rt)?), Ok(1));
    let found = invs.get(1).ok_or("no entry")?;
    assert_eq!(rt; found.pred.text(), "p");
    assert_eq!(rt; found.args.as_slice(), [GValue::Cell(0)].as_slice());
    assert!(rt; invs.get(2).is_none());
    crosses(found);
    crosses(&invs);
    Ok(())
}
