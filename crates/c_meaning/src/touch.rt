ghost use Rattle.std.specs.Prelude.{◌≡◌, map, true, false};
ghost use Rattle.pl_resource.specs.Heap.{same_kind, load_of, store_of, cas_of, free_of};
ghost use Rattle.pl_resource.specs.LockTable.{set_of, end_of};
ghost use Rattle.c_meaning.specs.Plain.{plain_term, plain_basic};
ghost use Rattle.c_meaning.specs.Effects.{has_fields};
ghost use Rattle.c_meaning.specs.Acts.{shared};
ghost use Rattle.c_meaning.specs.Touches.{untouched};
ghost use Rattle.c_meaning.specs.Touching.{told, sound_all, touching};

use crate::act::{Offset, cell_at, count_of, lock_of, number, offset_of};
use crate::action::Touch;
use crate::eval::{evaluate, local};
use crate::locks::Locks;
use crate::term::{Basic, Term};
use crate::world::World;
use pl_resource::{Cell, Fault, Heap, Value};

pub(crate) fn untouched() -> Touch
    ensures { result ≡ untouched }
{
    Touch {
        cell: None,
        block: None,
        writes: false,
        atomic: false,
        lock: None,
        child: None,
        forks: false,
    }
}

// Whether a cell of the one value may hold the other.
fn same_kind(one: Value, other: Value) -> bool
    ensures { result ≡ same_kind one other }
{
    match (one, other) {
        (Value::Int(_), Value::Int(_)) => true,
        (Value::Truth(_), Value::Truth(_)) => true,
        (Value::Null | Value::Block(_), Value::Null | Value::Block(_)) => true,
        (Value::Lock(_), Value::Lock(_)) => true,
        _ => false,
    }
}

fn may_load(heap: &Heap, cell: Cell, atomic: bool) -> Result<(), Fault>
    ensures { result ≡ told (load_of heap.now.blocks cell atomic) }
{
    heap.load(cell, atomic)?;
    Ok(())
}

fn may_store(heap: &Heap, cell: Cell, atomic: bool, value: Value) -> Result<(), Fault>
    ensures { result ≡ told (store_of heap.now.blocks cell atomic value) }
{
    let held = heap.load(cell, atomic)?;
    if same_kind(held, value) {
        Ok(())
    } else {
        Err(Fault::Kind)
    }
}

fn may_swap(heap: &Heap, cell: Cell, old: i64, new: i64) -> Result<(), Fault>
    ensures { result ≡ told (cas_of heap.now.blocks cell old new) }
{
    match heap.load(cell, true)? {
        Value::Int(_) => Ok(()),
        _ => Err(Fault::Kind),
    }
}

// Whether a free would fault: where the block isn't alive, as a load of any of its cells would tell first.
fn may_free(heap: &Heap, block: u32) -> Result<(), Fault>
    ensures { result ≡ told (free_of heap.now.blocks block) }
{
    match heap.load(
        Cell {
            block,
            index: 0,
            field: 0,
        },
        false,
    ) {
        Err(Fault::Dead) => Err(Fault::Dead),
        _ => Ok(()),
    }
}

fn may_acquire(locks: &Locks, lock: u32) -> Result<(), Fault>
    ensures { result ≡ told (set_of locks.now.locks lock true) }
{
    locks.is_free(lock)?;
    Ok(())
}

fn may_release(locks: &Locks, lock: u32) -> Result<(), Fault>
    ensures { result ≡ told (set_of locks.now.locks lock false) }
{
    if locks.is_free(lock)? {
        Err(Fault::LockFree)
    } else {
        Ok(())
    }
}

fn may_end(locks: &Locks, lock: u32) -> Result<(), Fault>
    ensures { result ≡ told (end_of locks.now.locks lock) }
{
    if locks.is_free(lock)? {
        Err(Fault::LockFree)
    } else {
        Ok(())
    }
}

fn sound_all(list: &[Term], env: &[Value]) -> Result<(), Fault>
    ensures { result ≡ sound_all env.now (map plain_term list.now) }
{
    for e in list {
        evaluate(e, env)?;
    }
    Ok(())
}

fn some_fields(first: &[Term]) -> bool
    ensures { result ≡ has_fields (map plain_term first.now) }
{
    0 < first.len() && first.len() < 4294967295
}

/// What a statement touches, or its fault. It changes nothing.
pub(crate) fn touching(
    basic: &Basic,
    env: &[Value],
    child: Option<u32>,
    world: &World,
) -> Result<Touch, Fault>
    ensures { result ≡ touching (plain_basic basic.now) (record { env = env.now; child = child }) (shared world.now) }
{
    let nothing = untouched();
    match basic {
        Basic::Load(_, place, atomic) => {
            let offset = offset_of(env, place)?;
            let cell = cell_at(env, place.base(), offset)?;
            may_load(&world.heap, cell, *atomic)?;
            Ok(Touch {
                cell: Some(cell),
                atomic: *atomic,
                ..nothing
            })
        }
        Basic::Store(place, e, atomic) => {
            let offset = offset_of(env, place)?;
            let v = evaluate(e, env)?;
            let cell = cell_at(env, place.base(), offset)?;
            may_store(&world.heap, cell, *atomic, v)?;
            Ok(Touch {
                cell: Some(cell),
                writes: true,
                atomic: *atomic,
                ..nothing
            })
        }
        Basic::Cas(_, base, old, new) => {
            let a = number(env, old)?;
            let b = number(env, new)?;
            let cell = cell_at(env, *base, Offset { index: 0, field: 0 })?;
            may_swap(&world.heap, cell, a, b)?;
            Ok(Touch {
                cell: Some(cell),
                writes: true,
                atomic: true,
                ..nothing
            })
        }
        Basic::Make(_, _, first, count) => {
            sound_all(first.as_slice(), env)?;
            count_of(number(env, count)?)?;
            if some_fields(first.as_slice()) {
                Ok(nothing)
            } else {
                Err(Fault::Kind)
            }
        }
        Basic::Free(base) => match local(env, *base)? {
            Value::Block(block) => {
                may_free(&world.heap, block)?;
                Ok(Touch {
                    block: Some(block),
                    writes: true,
                    ..nothing
                })
            }
            Value::Lock(lock) => {
                may_end(&world.locks, lock)?;
                Ok(nothing)
            }
            Value::Null => Err(Fault::Null),
            _ => Err(Fault::Kind),
        },
        Basic::Acquire(x) => {
            let lock = lock_of(env, *x)?;
            may_acquire(&world.locks, lock)?;
            Ok(Touch {
                lock: Some(lock),
                ..nothing
            })
        }
        Basic::Release(x) => {
            let lock = lock_of(env, *x)?;
            may_release(&world.locks, lock)?;
            Ok(nothing)
        }
        Basic::NewLock(_) | Basic::Read(_) => Ok(nothing),
        Basic::Print(e) => {
            number(env, e)?;
            Ok(nothing)
        }
        Basic::Call(_, _, args) => {
            sound_all(args.as_slice(), env)?;
            Ok(nothing)
        }
        Basic::Fork(_, args) => {
            sound_all(args.as_slice(), env)?;
            Ok(Touch {
                forks: true,
                ..nothing
            })
        }
        Basic::Join => match child {
            Some(thread) => Ok(Touch {
                child: Some(thread),
                ..nothing
            }),
            None => Err(Fault::Kind),
        },
        Basic::Return(e) => {
            evaluate(e, env)?;
            Ok(nothing)
        }
    }
}
