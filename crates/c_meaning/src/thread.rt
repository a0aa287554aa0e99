ghost use Rattle.std.specs.Prelude.{◌≡◌, List, Err, slice_get, ◌≤◌, ◌<◌, ◌-◌, ◌^◌, [], IfSome, IfNone, OnOk, IfOk, None, Some, length, vec_len, vec_capacity};
ghost use Rattle.c_meaning.specs.declared.code.Block.{Block};
ghost use Rattle.c_meaning.specs.Plain.{plain_term, plain_basic};
ghost use Rattle.c_meaning.specs.Tree.{end};
ghost use Rattle.c_meaning.specs.Values.{eval};
ghost use Rattle.c_meaning.specs.Local.{nest};
ghost use Rattle.c_meaning.specs.Blocks.{IsTable, left, fits, ops_at};
ghost use Rattle.c_meaning.specs.Acts.{shared, turn_of};
ghost use Rattle.c_meaning.specs.Events.{callee, function_numbered, begun, event_in, faulted, received, resumed, forked};
ghost use Rattle.c_meaning.specs.Machine.{IsCode, functions_shown, shown_or_none, frame_shown, frames_shown, FrameFits, AllFit, ForkFits, AtOp, Taken, stepped, strode, strides, returned, turned, BlockRoomAt, Places, PlacesFor, IsSpare, CallsNext, MakesRoom, moved_of, advanced, depth_of, fork_shown};

use crate::act::{Turn, act};
use crate::action::Action;
use crate::code::{Block, Op};
use crate::eval::evaluate;
use crate::frame::{Spot, after, bind, first_of, op_at, run_local};
use crate::term::{Basic, Term};
use crate::world::World;
use pl_resource::{Fault, Value};
use std::alloc::Global;
use std::mem;

/// A function: its block, how many places its locals need, and how deep its blocks lie.
#[derive(Clone, Copy, PartialEq, Eq, Debug)]
pub(crate) struct Function {
    pub(crate) body: u32,
    pub(crate) slots: u32,
    pub(crate) depth: u32,
}

/// A call that isn't over. The innermost of its places stands last.
#[derive(Drop)]
pub(crate) struct Frame {
    pub(crate) spots: Vec<Spot>,
    pub(crate) env: Vec<Value>,
    /// The local of the caller that gets the result.
    pub(crate) into: Option<u32>,
    /// The thread that it forked last.
    pub(crate) child: Option<u32>,
}

impl Basic {
    // The function that is called.
    pub(crate) fn callee(&self) -> Option<u32>
        ensures { result ≡ callee (plain_basic self.now) }
    {
        match self {
            Basic::Call(_, f, _) | Basic::Fork(f, _) => Some(*f),
            _ => None,
        }
    }
}

fn spot_at(spots: &[Spot], n: usize) -> Option<Spot>
    ensures { result ≡ slice_get spots.now n }
{
    match spots.get(n) {
        Some(spot) => Some(*spot),
        None => None,
    }
}

/// The operation before which a frame stands, and whether it stands before a loop's test.
pub(crate) fn current<'a>(code: &'a [Block], spots: &[Spot]) -> Option<(bool, &'a Op)>
    requires { IsTable code.now }
    ensures some { IfSome result (λ r. AtOp code.now (left code.now spots.now) r.0 r.1.now) }
    ensures none { IfNone result (left code.now spots.now ≡ end) }
{
    let mut n = spots.len();
    while n > 0 {
        n -= 1;
        let Some(spot) = spot_at(spots, n) else {
            unreachable!();
        };
        if let Some(op) = op_at(code, spot) {
            return Some((spot.checks, op));
        }
    }
    None
}

pub(crate) fn function_at(functions: &[Function], f: Option<u32>) -> Option<Function>
    ensures shown { (T : List Block) → shown_or_none T result ≡ function_numbered (functions_shown T functions.now) f }
    ensures deep { (T : List Block) → IsCode T functions.now → nest (shown_or_none T result).body ≤ depth_of result }
    ensures none { f ≡ None → result ≡ None }
{
    match f {
        None => None,
        Some(k) => match functions.get(k as usize) {
            None => None,
            Some(function) => Some(*function),
        },
    }
}

// Takes out the place before an operation; those that stand at the ends of their blocks go.
fn take_place<'a>(code: &'a [Block], spots: &mut Vec<Spot>) -> Option<(Spot, &'a Op)>
    requires fits { fits code.now 0 (vec_capacity spots.old) spots.old.items }
    ensures some { IfSome result (λ r. Taken code.now (vec_capacity spots.old) spots.old.items spots.new.items r.0 (ops_at code.now r.0.block) r.1.now) }
    ensures none { IfNone result ((left code.now spots.old.items ≡ end) × (spots.new.items ≡ [])) }
    ensures capacity { vec_capacity spots.new ≡ vec_capacity spots.old }
{
    'places: loop {
        let Some(spot) = spots.pop() else {
            return None;
        };
        if let Some(op) = op_at(code, spot) {
            return Some((spot, op));
        }
    }
}

// The fault of a let or a test that is left.
pub(crate) fn stuck(e: &Term, env: &[Value]) -> Fault
    ensures { Err result ≡ faulted (eval env.now (plain_term e.now)) }
{
    match evaluate(e, env) {
        Err(fault) => fault,
        Ok(_) => Fault::Kind,
    }
}

/// The event of a frame, up to the local statements behind it. `locals` are those of the function that is called.
fn event(
    code: &[Block],
    spots: &mut Vec<Spot>,
    env: &mut Vec<Value>,
    child: &mut Option<u32>,
    world: &mut World,
    locals: &mut Vec<Value>,
    next: u32,
) -> Result<(Action, Turn), Fault>
    requires table { IsTable code.now }
    requires fits { fits code.now 0 (vec_capacity spots.old) spots.old.items }
    requires block { BlockRoomAt env.old.items (left code.now spots.old.items) world.old }
    requires blocks { length world.old.heap.blocks < 2 ^ 32 - 1 }
    requires locks { length world.old.locks.locks < 2 ^ 32 - 1 }
    ensures steps { stepped result (record { env = env.new.items; child = child.new }) (shared world.new) locals.new.items (left code.now spots.new.items) ≡ event_in next locals.old.items (left code.now spots.old.items) (record { env = env.old.items; child = child.old }) (shared world.old) }
    ensures fits { OnOk result (fits code.now 0 (vec_capacity spots.new) spots.new.items) }
    ensures capacity { vec_capacity spots.new ≡ vec_capacity spots.old }
{
    let Some((spot, op)) = take_place(code, spots) else {
        return Ok((Action::Return, Turn::Return(None)));
    };
    match op {
        Op::Do(basic) => {
            match act(basic, env, child, world, locals, next) {
                Err(fault) => Err(fault),
                Ok(done) => {
                    spots.push_reserved(after(spot));
                    Ok(done)
                }
            }
        }
        Op::While(loads, e, _) => {
            if spot.checks {
                return Err(stuck(e, env));
            }
            spots.push_reserved(Spot {
                block: spot.block,
                at: spot.at,
                checks: true,
            });
            spots.push_reserved(first_of(*loads));
            Ok((Action::Turn, Turn::Past))
        }
        Op::Let(_, e) => Err(stuck(e, env)),
        Op::If(e, _, _) => Err(stuck(e, env)),
    }
}

// The place before a function's first statement.
fn enter(code: &[Block], function: Option<Function>, spots: Vec<Spot>) -> Vec<Spot>
    requires table { IsTable code.now }
    requires empty { spots.items ≡ [] }
    requires places { Places code.now function (vec_capacity spots) }
    ensures left { left code.now result.items ≡ (shown_or_none code.now function).body }
    ensures fits { fits code.now 0 (vec_capacity result) result.items }
{
    let mut spots = spots;
    match function {
        None => spots,
        Some(f) => {
            spots.push_reserved(first_of(f.body));
            spots
        }
    }
}

// A function's frame, with its arguments in its locals.
pub(crate) fn begin(
    code: &[Block],
    function: Option<Function>,
    spare: Frame,
    into: Option<u32>,
) -> Frame
    requires table { IsTable code.now }
    requires empty { spare.spots.items ≡ [] }
    requires places { Places code.now function (vec_capacity spare.spots) }
    ensures shown { frame_shown code.now result ≡ begun (shown_or_none code.now function) spare.env.items into }
    ensures fits { FrameFits code.now result }
{
    let Frame { spots, mut env, .. } = spare;
    let mut spots = enter(code, function, spots);
    run_local(code, &mut spots, &mut env);
    Frame {
        spots,
        env,
        into,
        child: None,
    }
}

// A caller's local gets the result.
fn receive(env: &mut Vec<Value>, into: Option<u32>, answer: Option<Value>)
    ensures { env.new.items ≡ received env.old.items into answer }
{
    if let Some(x) = into {
        if let Some(value) = answer {
            bind(env, x as usize, value);
        }
    }
}

// The innermost frame goes on, if there is one.
fn resume(code: &[Block], frames: &mut Vec<Frame>, into: Option<u32>, answer: Option<Value>)
    requires table { IsTable code.now }
    requires fits { AllFit code.now frames.old.items }
    ensures shown { frames_shown code.now frames.new.items ≡ resumed into answer (frames_shown code.now frames.old.items) }
    ensures fits { AllFit code.now frames.new.items }
{
    let Some(frame) = frames.last_mut() else {
        return;
    };
    receive(&mut frame.env, into, answer);
    run_local(code, &mut frame.spots, &mut frame.env);
}

// The innermost frame goes, and its caller goes on.
fn give_back(code: &[Block], frames: &mut Vec<Frame>, answer: Option<Value>)
    requires table { IsTable code.now }
    requires fits { AllFit code.now frames.old.items }
    ensures shown { frames_shown code.now frames.new.items ≡ returned answer (frames_shown code.now frames.old.items) }
    ensures fits { AllFit code.now frames.new.items }
{
    let Some(frame) = frames.pop() else {
        return;
    };
    resume(code, frames, frame.into, answer);
}

// The event of the innermost frame, up to the local statements behind it.
fn stride(
    code: &[Block],
    frames: &mut Vec<Frame>,
    world: &mut World,
    locals: &mut Vec<Value>,
    next: u32,
) -> Result<(Action, Turn), Fault>
    requires table { IsTable code.now }
    requires fits { AllFit code.now frames.old.items }
    requires room { MakesRoom (frames_shown code.now frames.old.items) world.old }
    requires blocks { length world.old.heap.blocks < 2 ^ 32 - 1 }
    requires locks { length world.old.locks.locks < 2 ^ 32 - 1 }
    ensures steps { strode result (frames_shown code.now frames.new.items) (shared world.new) locals.new.items ≡ strides next locals.old.items (frames_shown code.now frames.old.items) (shared world.old) }
    ensures fits { OnOk result (AllFit code.now frames.new.items) }
    ensures len { vec_len frames.new ≡ vec_len frames.old }
    ensures capacity { vec_capacity frames.new ≡ vec_capacity frames.old }
{
    let Some(frame) = frames.last_mut() else {
        return Err(Fault::Kind);
    };
    event(
        code,
        &mut frame.spots,
        &mut frame.env,
        &mut frame.child,
        world,
        locals,
        next,
    )
}

/// A frame with no memory.
pub(crate) fn empty_frame(alloc: Global) -> Frame
    ensures spots { result.spots.items ≡ [] }
    ensures env { result.env.items ≡ [] }
{
    Frame {
        spots: Vec::new(alloc),
        env: Vec::new(alloc),
        into: None,
        child: None,
    }
}

// The frame of the function of that number, which takes the spare one.
fn begin_called(
    alloc: Global,
    code: &[Block],
    functions: &[Function],
    callee: Option<u32>,
    spare: &mut Frame,
    into: Option<u32>,
) -> Frame
    requires code { IsCode code.now functions.now }
    requires empty { spare.old.spots.items ≡ [] }
    requires places { PlacesFor callee (function_numbered (functions_shown code.now functions.now) callee) (vec_capacity spare.old.spots) }
    ensures shown { frame_shown code.now result ≡ begun (function_numbered (functions_shown code.now functions.now) callee) spare.old.env.items into }
    ensures fits { FrameFits code.now result }
    ensures empty { spare.new.spots.items ≡ [] }
{
    let function = function_at(functions, callee);
    let taken = mem::replace(spare, empty_frame(alloc));
    begin(code, function, taken, into)
}

// Where a thread goes from an event of its innermost frame: the answer is the first frame of the thread that it starts.
fn turn_to(
    alloc: Global,
    code: &[Block],
    functions: &[Function],
    callee: Option<u32>,
    frames: &mut Vec<Frame>,
    spare: &mut Frame,
    turn: Turn,
) -> Option<Frame>
    requires code { IsCode code.now functions.now }
    requires fits { AllFit code.now frames.old.items }
    requires empty { spare.old.spots.items ≡ [] }
    requires places { PlacesFor callee (function_numbered (functions_shown code.now functions.now) callee) (vec_capacity spare.old.spots) }
    requires room { vec_len frames.old < vec_capacity frames.old }
    ensures frames { frames_shown code.now frames.new.items ≡ turned (function_numbered (functions_shown code.now functions.now) callee) (turn_of spare.old.env.items turn) (frames_shown code.now frames.old.items) }
    ensures fork { fork_shown code.now result ≡ forked (function_numbered (functions_shown code.now functions.now) callee) (turn_of spare.old.env.items turn) }
    ensures fits { AllFit code.now frames.new.items }
    ensures child { ForkFits code.now result }
    ensures empty { spare.new.spots.items ≡ [] }
{
    match turn {
        Turn::Past => {
            resume(code, frames, None, None);
            None
        }
        Turn::Call(into) => {
            frames.push_reserved(begin_called(alloc, code, functions, callee, spare, into));
            None
        }
        Turn::Fork => {
            resume(code, frames, None, None);
            Some(begin_called(alloc, code, functions, callee, spare, None))
        }
        Turn::Return(value) => {
            give_back(code, frames, value);
            None
        }
    }
}

/// The next event of a thread with these frames, which calls the function of that number. `spare` is a frame for it.
pub(crate) fn advance(
    alloc: Global,
    code: &[Block],
    functions: &[Function],
    callee: Option<u32>,
    frames: &mut Vec<Frame>,
    spare: &mut Frame,
    world: &mut World,
    next: u32,
) -> Result<(Action, Option<Frame>), Fault>
    requires code { IsCode code.now functions.now }
    requires fits { AllFit code.now frames.old.items }
    requires calls { CallsNext callee (frames_shown code.now frames.old.items) }
    requires makes { MakesRoom (frames_shown code.now frames.old.items) world.old }
    requires spare { IsSpare callee (function_numbered (functions_shown code.now functions.now) callee) spare.old }
    requires frames { vec_len frames.old < vec_capacity frames.old }
    requires blocks { length world.old.heap.blocks < 2 ^ 32 - 1 }
    requires locks { length world.old.locks.locks < 2 ^ 32 - 1 }
    ensures moves { advanced code.now result (frames_shown code.now frames.new.items) (shared world.new) ≡ moved_of (functions_shown code.now functions.now) next (frames_shown code.now frames.old.items) (shared world.old) }
    ensures fits { OnOk result (AllFit code.now frames.new.items) }
    ensures fork { IfOk result (λ r. ForkFits code.now r.1) }
    ensures empty { spare.new.spots.items ≡ [] }
{
    match stride(code, frames, world, &mut spare.env, next) {
        Err(fault) => Err(fault),
        Ok((action, turn)) => {
            let forked = turn_to(alloc, code, functions, callee, frames, spare, turn);
            Ok((action, forked))
        }
    }
}
