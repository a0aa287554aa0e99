ghost use Rattle.std.specs.Prelude.{◌≡◌, IfOk, map, IfSome, IfNone, None, ◌<◌, ◌≤◌, ◌+◌, ◌*◌, [], ◌∷◌, ◌++◌, Some, true, false, length, vec_len, vec_capacity, drop, slice_get, slice_set};
ghost use Rattle.c_meaning.specs.Local.{settle, rested, local, ran, size};
ghost use Rattle.c_meaning.specs.Blocks.{IsTable, ops_at, left, fits, move_of, moves, spots_after, env_after, Kept, next, again, first, enters};

use crate::code::{Block, Op};
use crate::eval::evaluate;
use pl_resource::Value;

/// A place in a block: before the operation of that number, or in a loop before the test.
#[derive(Clone, Copy, PartialEq, Eq, Debug)]
pub(crate) struct Spot {
    pub(crate) block: u32,
    pub(crate) at: u32,
    pub(crate) checks: bool,
}

/// What a thread does by itself.
#[derive(Clone, Copy, PartialEq, Eq, Debug)]
pub(crate) enum Move {
    Stay,
    Next,
    Bind(u32, Value),
    Enter(u32),
    Loop(u32),
}

/// The operations of a block.
pub(crate) fn ops_of_block(code: &[Block], block: u32) -> &[Op]
    ensures { result.now ≡ ops_at code.now block }
{
    match code.get(block as usize) {
        Some(b) => b.ops.as_slice(),
        None => &[],
    }
}

/// The operation at a place.
pub(crate) fn op_at(code: &[Block], spot: Spot) -> Option<&Op>
    ensures some { IfSome result (λ o. slice_get (ops_at code.now spot.block) spot.at ≡ Some o.now) }
    ensures none { IfNone result (slice_get (ops_at code.now spot.block) spot.at ≡ None) }
{
    ops_of_block(code, spot.block).get(spot.at as usize)
}

fn choose(op: &Op, checks: bool, env: &[Value]) -> Move
    ensures { result ≡ move_of checks op.now env.now }
{
    match op {
        Op::Let(x, e) => match evaluate(e, env) {
            Ok(v) => Move::Bind(*x, v),
            Err(_) => Move::Stay,
        },
        Op::If(e, a, b) => match evaluate(e, env) {
            Ok(Value::Truth(true)) => Move::Enter(*a),
            Ok(Value::Truth(false)) => Move::Enter(*b),
            _ => Move::Stay,
        },
        Op::While(_, e, body) => {
            if !checks {
                return Move::Stay;
            }
            match evaluate(e, env) {
                Ok(Value::Truth(true)) => Move::Loop(*body),
                Ok(Value::Truth(false)) => Move::Next,
                _ => Move::Stay,
            }
        }
        _ => Move::Stay,
    }
}

pub(crate) fn after(spot: Spot) -> Spot
    requires { spot.at < 4294967295 }
    ensures { result ≡ next spot }
{
    Spot {
        block: spot.block,
        at: spot.at + 1,
        checks: false,
    }
}

pub(crate) fn first_of(block: u32) -> Spot
    ensures { result ≡ first block }
{
    Spot {
        block,
        at: 0,
        checks: false,
    }
}

/// Binds a local; one that has no place is not bound.
pub(crate) fn bind(env: &mut Vec<Value>, x: usize, value: Value)
    ensures items { env.new.items ≡ slice_set env.old.items x value }
    ensures len { vec_len env.new ≡ vec_len env.old }
{
    if x < env.len() {
        env[x] = value;
    }
}

fn apply(what: Move, spot: Spot, spots: &mut Vec<Spot>, env: &mut Vec<Value>)
    requires at { spot.at < 4294967295 }
    requires room { vec_len spots.old + enters what ≤ vec_capacity spots.old }
    ensures spots { spots.new.items ≡ spots_after what spots.old.items spot }
    ensures env { env.new.items ≡ env_after what env.old.items }
    ensures capacity { vec_capacity spots.new ≡ vec_capacity spots.old }
{
    match what {
        Move::Stay => spots.push_reserved(spot),
        Move::Next => spots.push_reserved(after(spot)),
        Move::Bind(x, v) => {
            bind(env, x as usize, v);
            spots.push_reserved(after(spot));
        }
        Move::Enter(block) => {
            spots.push_reserved(after(spot));
            spots.push_reserved(first_of(block));
        }
        Move::Loop(block) => {
            spots.push_reserved(Spot {
                block: spot.block,
                at: spot.at,
                checks: false,
            });
            spots.push_reserved(first_of(block));
        }
    }
}

impl Move {
    fn moves(&self) -> bool
        ensures { result ≡ moves self.now }
    {
        !matches!(self, Move::Stay)
    }
}

/// Runs the statements that need no event.
pub(crate) fn run_local(code: &[Block], spots: &mut Vec<Spot>, env: &mut Vec<Value>)
    requires table { IsTable code.now }
    requires fits { fits code.now 0 (vec_capacity spots.old) spots.old.items }
    ensures stands { rested (settle (left code.now spots.old.items) env.old.items) ≡ (env.new.items, left code.now spots.new.items) }
    ensures fits { fits code.now 0 (vec_capacity spots.new) spots.new.items }
    ensures capacity { vec_capacity spots.new ≡ vec_capacity spots.old }
{
    'places: loop {
        let Some(spot) = spots.pop() else {
            return;
        };
        let Some(op) = op_at(code, spot) else {
            continue;
        };
        let what = choose(op, spot.checks, env.as_slice());
        apply(what, spot, spots, env);
        if !what.moves() {
            return;
        }
    }
}
