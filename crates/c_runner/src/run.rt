// Workers, one a thread where a thread can be started.
ghost use Rattle.std.specs.Prelude.{◌≡◌, ◌<◌, ◌≤◌, IfOk, length};
ghost use Rattle.c_syntax.specs.Plain.{plain_program};
ghost use Rattle.c_runner.specs.Runs.{IsRun, IsRuled};

use crate::machine::{Attempt, Machine, Naming, Part};
use crate::run_end::RunEnd;
use c_meaning::History;
use c_syntax::CProgram;
use pl_base::{Gate, Memory};
use std::alloc::Global;
use std::marker::Brand;
use std::sync::ledger::Blank;
use std::sync::{Condvar, Mutex, Wait};
use std::thread;
use std::thread::Threads;

/// A run: its end, and the history of its events.
#[derive(Debug, Drop)]
pub struct Ran {
    pub end: RunEnd,
    pub history: History,
}

// A part for each worker, one for the caller, and more.
const PARTS: u64 = 128;

/// The machine, what sleeping workers wait on, and how many workers there are.
#[derive(Drop)]
struct Shared<J: Naming> {
    machine: Mutex<Machine<J>>,
    changed: Condvar,
    bound: u32,
    workers: u32,
    ghost limit: { bound ≡ J.bound },
    ghost some: { 0 < workers },
}

/// Runs a program on an input by so many workers until an end holds, which is looked for at the start and after every event.
///
/// Thread t is stepped by worker t mod `workers`. A worker calls `gate.before` outside every lock before each attempt at an
/// event, with its own number and the count of events that it has recorded. Where no thread can be started for a worker,
/// the caller is that worker too.
///
/// With one worker each event is one of the least enabled thread above the last stepped, or else of the least enabled one.
///
/// # Errors
///
/// [`Memory`].
pub fn run_threads<R: Threads + Wait + Sync, G: Gate>(
    rt: &R,
    alloc: Global,
    program: &CProgram,
    input: &[i64],
    bound: u32,
    workers: u32,
    gate: &G,
) -> Result<Ran, Memory>
    requires bound { (1 ≤ bound) × (bound ≤ 4000000) }
    requires workers { (1 ≤ workers) × (workers ≤ 64) }
    ensures run { IfOk result (λ r. IsRun (plain_program program.now) input.now bound r.history.events r.end) }
    ensures within { IfOk result (λ r. length r.history.events ≤ bound) }
    ensures one_worker { IfOk result (λ r. workers ≡ 1 → IsRuled (plain_program program.now) input.now bound r.history.events) }
{
    run_named::<Brand, R, G>(
        rt,
        alloc,
        program,
        input,
        bound,
        workers,
        gate,
        Blank::new(PARTS),
    )
}

fn run_named<J: Naming + Send + Sync, R: Threads + Wait + Sync, G: Gate>(
    rt: &R,
    alloc: Global,
    program: &CProgram,
    input: &[i64],
    bound: u32,
    workers: u32,
    gate: &G,
    blank: Blank,
) -> Result<Ran, Memory>
    requires name { blank.name ≡ J.name }
    requires parts { (blank.parts ≡ J.parts) × (blank.parts ≡ 128) }
    requires run { (plain_program program.now ≡ J.program) × (input.now ≡ J.input) × (bound ≡ J.bound) }
    requires few { bound ≤ 4000000 }
    requires workers { 0 < workers }
    ensures run { IfOk result (λ r. IsRun J.program J.input J.bound r.history.events r.end) }
    ensures within { IfOk result (λ r. length r.history.events ≤ J.bound) }
    ensures one_worker { IfOk result (λ r. workers ≡ 1 → IsRuled J.program J.input J.bound r.history.events) }
{
    let (mut machine, mut part) = Machine::<J>::start(alloc, program, input, bound, blank, PARTS)?;
    if workers == 1 {
        let end = machine.finish(program, bound, &mut part, gate)?;
        return Ok(Ran {
            end,
            history: machine.into_history(),
        });
    }
    let shared = Shared {
        machine: Mutex::new(machine),
        changed: Condvar::new(),
        bound,
        workers,
    };
    run_crew(rt, alloc, &shared, program, gate, part);
    let Shared { machine, .. } = shared;
    let machine = machine.into_inner();
    // The workers stop before an end only for want of memory.
    let Some(end) = machine.end() else {
        return Err(Memory);
    };
    Ok(Ran {
        end,
        history: machine.into_history(),
    })
}

// Starts the other workers, and is worker 0.
fn run_crew<'x, J: Naming + Send + Sync, R: Threads + Wait + Sync, G: Gate>(
    rt: &'x R,
    alloc: Global,
    shared: &'x Shared<J>,
    program: &'x CProgram,
    gate: &'x G,
    part: Part<J>,
)
    requires { plain_program program.now ≡ J.program }
{
    thread::scope(
        thread::scope_env(),
        rt,
        move |scope|
            requires { plain_program program.now ≡ J.program }
        {
            let mut refused = Vec::new(alloc);
            for worker in 1..shared.workers {
                let started = scope.spawn(
                    move ||
                        requires { plain_program program.now ≡ J.program }
                    { work(rt, shared, program, gate, worker) },
                );
                if started.is_err() {
                    take_over(rt, shared, worker, &mut refused);
                }
            }
            if refused.is_empty() {
                serve(rt, shared, program, gate, part);
            } else {
                serve_all(rt, shared, program, gate, part, refused);
            }
        },
    )
}

// The caller is this worker too.
fn take_over<J: Naming>(
    rt: &impl Wait,
    shared: &Shared<J>,
    worker: u32,
    refused: &mut Vec<Part<J>>,
) {
    let dealt = shared.machine.lock(rt).deal(worker);
    let kept = match dealt {
        Some(part) => refused.push(part).is_ok(),
        None => false,
    };
    if !kept {
        give_up(rt, shared);
    }
}

// The run stops, for want of memory.
fn give_up<J: Naming>(rt: &impl Wait, shared: &Shared<J>) {
    shared.machine.lock(rt).give_up();
    shared.changed.notify_all();
}

// A worker of a thread of its own.
fn work<J: Naming, R: Wait, G: Gate>(
    rt: &R,
    shared: &Shared<J>,
    program: &CProgram,
    gate: &G,
    worker: u32,
)
    requires { plain_program program.now ≡ J.program }
{
    let dealt = shared.machine.lock(rt).deal(worker);
    match dealt {
        Some(part) => serve(rt, shared, program, gate, part),
        None => give_up(rt, shared),
    }
}

// Makes attempts until the run is over.
fn serve<J: Naming, R: Wait, G: Gate>(
    rt: &R,
    shared: &Shared<J>,
    program: &CProgram,
    gate: &G,
    mut part: Part<J>,
)
    requires { plain_program program.now ≡ J.program }
{
    for _ in rt.forever() {
        if attempt(rt, shared, program, gate, &mut part, true) == Attempt::Over {
            break;
        }
    }
}

// The same as one worker and as those whose threads were refused.
fn serve_all<J: Naming, R: Wait, G: Gate>(
    rt: &R,
    shared: &Shared<J>,
    program: &CProgram,
    gate: &G,
    mut part: Part<J>,
    mut refused: Vec<Part<J>>,
)
    requires { plain_program program.now ≡ J.program }
{
    for _ in rt.forever() {
        let mut came = attempt(rt, shared, program, gate, &mut part, false);
        for other in refused.iter_mut() {
            came = came.or(attempt(rt, shared, program, gate, other, false));
        }
        match came {
            Attempt::Stepped => {}
            Attempt::Idle => thread::yield_now(),
            Attempt::Over => break,
        }
    }
}

// Passes the gate, and makes one attempt under the lock. Where there is nothing to do it sleeps, if it may, until there may be.
fn attempt<J: Naming, R: Wait, G: Gate>(
    rt: &R,
    shared: &Shared<J>,
    program: &CProgram,
    gate: &G,
    part: &mut Part<J>,
    sleeps: bool,
) -> Attempt
    requires { plain_program program.now ≡ J.program }
{
    gate.before(part.worker(), part.done());
    let mut machine = shared.machine.lock(rt);
    let came = machine.attempt(program, shared.bound, shared.workers, part);
    if machine.wakes(shared.workers) {
        shared.changed.notify_all();
    }
    if sleeps && came == Attempt::Idle {
        machine.sleep(part.worker());
        let _machine = shared.changed.wait(rt, machine);
    }
    came
}
