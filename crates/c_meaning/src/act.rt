ghost use Rattle.std.specs.Prelude.{◌≡◌, ◌+◌, ◌≤◌, ◌<◌, ◌-◌, ◌^◌, [], OnOk, length, map, vec_len, vec_capacity};
ghost use Rattle.pl_resource.specs.Faults.{leaves};
ghost use Rattle.c_meaning.specs.Plain.{plain_term, plain_place, plain_basic};
ghost use Rattle.c_meaning.specs.Values.{eval_onto, arguments};
ghost use Rattle.c_meaning.specs.Effects.{index_of, offset_of, base_of, block_at, cell_at, number_of, eval_number, count_of, has_fields, lock_of_local, effect_of};
ghost use Rattle.c_meaning.specs.Acts.{shared, acted};
ghost use Rattle.c_meaning.specs.Rooms.{BlockRoom};

use crate::action::Action;
use crate::eval::{evaluate, local};
use crate::frame::bind;
use crate::term::{Basic, Place, Term};
use crate::world::{World, take};
use pl_base::Items;
use pl_resource::{Cell, Fault, Value};

/// Where a thread goes from an event.
#[derive(Clone, Copy, PartialEq, Eq, Debug)]
pub(crate) enum Turn {
    Past,
    /// Into a function, whose result goes into that local.
    Call(Option<u32>),
    Fork,
    Return(Option<Value>),
}

/// Where a cell stands in its block.
#[derive(Clone, Copy, PartialEq, Eq, Debug)]
pub(crate) struct Offset {
    pub(crate) index: u32,
    pub(crate) field: u32,
}

fn index_of(value: Value) -> Result<u32, Fault>
    ensures { result ≡ index_of value }
{
    match value {
        Value::Int(n) => match u32::try_from(n) {
            Ok(index) => Ok(index),
            Err(_) => Ok(u32::MAX),
        },
        _ => Err(Fault::Kind),
    }
}

/// Where a cell stands in its block.
pub(crate) fn offset_of(env: &[Value], place: &Place) -> Result<Offset, Fault>
    ensures { result ≡ offset_of env.now (plain_place place.now) }
{
    match place {
        Place::Whole(_) => Ok(Offset { index: 0, field: 0 }),
        Place::At(_, index) => {
            let index = index_of(evaluate(index, env)?)?;
            Ok(Offset { index, field: 0 })
        }
        Place::Field(_, field) => Ok(Offset {
            index: 0,
            field: *field,
        }),
    }
}

impl Place {
    pub(crate) fn base(&self) -> u32
        ensures { result ≡ base_of (plain_place self.now) }
    {
        match self {
            Place::Whole(base) | Place::At(base, _) | Place::Field(base, _) => *base,
        }
    }
}

fn block_at(value: Value) -> Result<u32, Fault>
    ensures { result ≡ block_at value }
{
    match value {
        Value::Block(b) => Ok(b),
        Value::Null => Err(Fault::Null),
        _ => Err(Fault::Kind),
    }
}

/// The cell at that place in the block to which the base points.
pub(crate) fn cell_at(env: &[Value], base: u32, place: Offset) -> Result<Cell, Fault>
    ensures { result ≡ cell_at env.now base place }
{
    let block = block_at(local(env, base)?)?;
    Ok(Cell {
        block,
        index: place.index,
        field: place.field,
    })
}

fn number_of(value: Value) -> Result<i64, Fault>
    ensures { result ≡ number_of value }
{
    match value {
        Value::Int(n) => Ok(n),
        _ => Err(Fault::Kind),
    }
}

pub(crate) fn number(env: &[Value], e: &Term) -> Result<i64, Fault>
    ensures { result ≡ eval_number env.now (plain_term e.now) }
{
    number_of(evaluate(e, env)?)
}

/// How many elements a block gets.
pub(crate) fn count_of(n: i64) -> Result<u32, Fault>
    ensures { result ≡ count_of n }
{
    match u32::try_from(n) {
        Ok(count) => {
            if 0 < count && count < 1048577 {
                Ok(count)
            } else {
                Err(Fault::Outside)
            }
        }
        Err(_) => Err(Fault::Outside),
    }
}

/// The lock that a local holds.
pub(crate) fn lock_of(env: &[Value], x: u32) -> Result<u32, Fault>
    ensures { result ≡ lock_of_local env.now x }
{
    match local(env, x)? {
        Value::Lock(k) => Ok(k),
        _ => Err(Fault::Kind),
    }
}

/// The values of expressions, in order, behind those that are there.
pub(crate) fn evaluate_onto(
    list: &[Term],
    env: &[Value],
    values: &mut Vec<Value>,
) -> Result<(), Fault>
    requires { vec_len values.old + length list.now ≤ vec_capacity values.old }
    ensures values { leaves result values.new.items ≡ eval_onto values.old.items env.now (map plain_term list.now) }
    ensures len { OnOk result (vec_len values.new ≡ vec_len values.old + length list.now) }
{
    for e in list {
        values.push_reserved(evaluate(e, env)?);
    }
    Ok(())
}

/// The arguments of a call as the callee's locals, from 1 on.
pub(crate) fn pass(args: &[Term], env: &[Value], locals: &mut Vec<Value>) -> Result<(), Fault>
    ensures locals { leaves result locals.new.items ≡ arguments env.now (map plain_term args.now) 1 locals.old.items }
    ensures len { vec_len locals.new ≡ vec_len locals.old }
{
    let mut x = 1;
    for e in args {
        let v = evaluate(e, env)?;
        bind(locals, x, v);
        x += 1;
    }
    Ok(())
}

/// What a statement does. `next` is the number of the next thread, and `locals` are those of the function that is
/// called, before its arguments are in them.
pub(crate) fn act(
    basic: &Basic,
    env: &mut Vec<Value>,
    child: &mut Option<u32>,
    world: &mut World,
    locals: &mut Vec<Value>,
    next: u32,
) -> Result<(Action, Turn), Fault>
    requires block { BlockRoom env.old.items (plain_basic basic.now) world.old }
    requires blocks { length world.old.heap.blocks < 2 ^ 32 - 1 }
    requires locks { length world.old.locks.locks < 2 ^ 32 - 1 }
    ensures { acted result (record { env = env.new.items; child = child.new }) (shared world.new) locals.new.items ≡ effect_of next locals.old.items (plain_basic basic.now) (record { env = env.old.items; child = child.old }) (shared world.old) }
{
    match basic {
        Basic::Load(x, place, atomic) => {
            let offset = offset_of(env, place)?;
            let cell = cell_at(env, place.base(), offset)?;
            let v = world.heap.load(cell, *atomic)?;
            bind(env, *x as usize, v);
            Ok((Action::Load(cell, v), Turn::Past))
        }
        Basic::Store(place, e, atomic) => {
            let offset = offset_of(env, place)?;
            let v = evaluate(e, env)?;
            let cell = cell_at(env, place.base(), offset)?;
            world.heap.store(cell, *atomic, v)?;
            Ok((Action::Store(cell, v), Turn::Past))
        }
        Basic::Cas(x, base, old, new) => {
            let a = number(env, old)?;
            let b = number(env, new)?;
            let cell = cell_at(env, *base, Offset { index: 0, field: 0 })?;
            let (seen, done) = world.heap.cas(cell, a, b)?;
            bind(env, *x as usize, Value::Truth(done));
            Ok((Action::Cas(cell, seen, done), Turn::Past))
        }
        Basic::Make(x, atomic, first, count) => {
            world.first.clear();
            evaluate_onto(first.as_slice(), env, &mut world.first)?;
            let count = count_of(number(env, count)?)?;
            if !has_fields(&world.first) {
                return Err(Fault::Kind);
            }
            let Ok(block) = world.heap.make(*atomic, &world.first, count) else {
                unreachable!();
            };
            bind(env, *x as usize, Value::Block(block));
            Ok((Action::Alloc(block, count), Turn::Past))
        }
        Basic::Free(base) => match local(env, *base)? {
            Value::Block(block) => {
                world.heap.free(block)?;
                Ok((Action::Free(block), Turn::Past))
            }
            Value::Lock(lock) => {
                world.locks.end(lock)?;
                Ok((Action::FreeLock(lock), Turn::Past))
            }
            Value::Null => Err(Fault::Null),
            _ => Err(Fault::Kind),
        },
        Basic::NewLock(x) => {
            let lock = world.locks.push();
            bind(env, *x as usize, Value::Lock(lock));
            Ok((Action::NewLock(lock), Turn::Past))
        }
        Basic::Acquire(x) => {
            let lock = lock_of(env, *x)?;
            world.locks.acquire(lock)?;
            Ok((Action::Acquire(lock), Turn::Past))
        }
        Basic::Release(x) => {
            let lock = lock_of(env, *x)?;
            world.locks.release(lock)?;
            Ok((Action::Release(lock), Turn::Past))
        }
        Basic::Read(x) => {
            let n = take(&world.input, &mut world.at);
            bind(env, *x as usize, Value::Int(n));
            Ok((Action::Read(n), Turn::Past))
        }
        Basic::Print(e) => {
            let n = number(env, e)?;
            world.outputs.push_reserved(n);
            Ok((Action::Print(n), Turn::Past))
        }
        Basic::Join => match *child {
            Some(thread) => Ok((Action::Join(thread), Turn::Past)),
            None => Err(Fault::Kind),
        },
        Basic::Call(into, f, args) => {
            pass(args.as_slice(), env, locals)?;
            Ok((Action::Call(*f), Turn::Call(*into)))
        }
        Basic::Fork(_, args) => {
            pass(args.as_slice(), env, locals)?;
            *child = Some(next);
            Ok((Action::Fork(next), Turn::Fork))
        }
        Basic::Return(e) => {
            let v = evaluate(e, env)?;
            Ok((Action::Return, Turn::Return(Some(v))))
        }
    }
}

fn has_fields(first: &[Value]) -> bool
    ensures { result ≡ has_fields first.now }
{
    0 < first.len() && first.len() < 4294967295
}
