ghost use Rattle.std.specs.Prelude.{◌≡◌, ◌≤◌, ◌<◌, ◌-◌, ◌^◌, ◌++◌, ◌∷◌, [], IsTrue, IfOk, IfSome, IfNone, OnSome, OnOk, OnErr, Ok, not, ◌&&◌, false, Some, None, length, map, true, slice_get, suc, vec_len, vec_capacity};
ghost use Rattle.c_syntax.specs.Plain.{plain_program};
ghost use Rattle.c_meaning.specs.Steps.{Step, start_of};
ghost use Rattle.c_meaning.specs.Acts.{shared};
ghost use Rattle.c_meaning.specs.Events.{begun, blank, function_numbered, callee_at, event_of, next_of, next_by, is_ended, atomic_at, event_of_frame, is_enabled, lock_ready, child_ready, own_of};
ghost use Rattle.c_meaning.specs.Resolve.{functions_of};
ghost use Rattle.c_meaning.specs.Waits.{acts, waits_for, waits_at};
ghost use Rattle.std.specs.Prelude.{ℕ, List};
ghost use Rattle.c_meaning.specs.Tree as tree;
ghost use Rattle.c_meaning.specs.Blocks.{IsTable};
ghost use Rattle.c_meaning.specs.Machine.{frame_shown, frames_shown, functions_shown, shown_or_none, depth_of, IsCode, IsSpare, BlockRoomAt, CallsNext, MakesRoom};
ghost use Rattle.c_meaning.specs.Plain.{plain_basic};
ghost use Rattle.c_meaning.specs.Rooms.{BlockRoom};
ghost use Rattle.c_meaning.specs.Plain.{plain_term};
ghost use Rattle.c_meaning.specs.Effects.{eval_number, count_of};
ghost use Rattle.pl_resource.specs.Faults.{chain};
ghost use Rattle.pl_resource.specs.Heap.{IsFields};
ghost use Rattle.c_meaning.specs.declared.code.Block.{Block};
ghost use Rattle.c_meaning.specs.States.{shown, runs, IsFor, IsLast, frames_at, HasRoom, FramesRoom, ThreadAdded, ThreadsFit, thread_shown};

use crate::act::{count_of, lock_of, number};
use crate::action::{Action, Event, Next};
use crate::code::{Block, Op};
use crate::load::load;
use crate::locks::Locks;
use crate::resolve::function_place;
use crate::term::{Basic, Term};
use crate::thread::{Frame, Function, advance, begin, current, empty_frame, function_at, stuck};
use crate::touch::{touching, untouched};
use crate::world::World;
use c_syntax::CProgram;
use pl_base::{Memory, Name};
use pl_resource::{Fault, Heap, Value};
use std::alloc::Global;
use std::marker::Model;
use std::mem;

/// The frames of a thread, the innermost last; none where it has ended.
#[derive(Drop)]
pub(crate) struct Thread {
    pub(crate) frames: Vec<Frame>,
}

/// What a thread stands before: whether it has ended or waits there, and the number of the function that it calls.
#[derive(Clone, Copy)]
struct Ahead {
    waits: bool,
    callee: Option<u32>,
}

/// A C program in its run: what its threads share, and their calls that aren't over. It shows a state, and tells for
/// which thread's next event it has room.
#[derive(Drop)]
pub struct CState {
    alloc: Global,
    blocks: Vec<Block>,
    functions: Vec<Function>,
    threads: Vec<Thread>,
    world: World,
    ready: Option<u32>,
    /// The number of the function that the next event calls.
    callee: Option<u32>,
    /// A frame for that function.
    spare: Frame,
    /// Empty: the frames of the next thread.
    frames: Vec<Frame>,
}

impl Model for CState {
    ghost use Rattle.std.specs.Prelude.{◌≡◌, ◌≤◌, ◌<◌, ◌^◌, [], length, slice_get, vec_len, vec_capacity};
    ghost use Rattle.std.specs.Option.{ForSome};
    ghost use Rattle.c_meaning.specs.Machine.{IsCode, functions_shown};
    ghost use Rattle.c_meaning.specs.States.{Held, ThreadsFit, HasRoom};
    ghost use Rattle.std.specs.Coded.{codes};
    ghost use Rattle.c_meaning.specs.contracts.term.Term as term;

    ghost Value = { Held };

    ghost coded = { Prim.hlevel (codes, term.the_row.coded) };

    ghost view = { λ c. record { code = c.blocks.items; functions = c.functions.items; threads = c.threads.items; world = c.world; ready = c.ready } };

    ghost invariant = { λ c. record {
      code : IsCode c.blocks.items c.functions.items;
      fits : ThreadsFit c.blocks.items c.threads.items;
      few : length c.threads.items < 2 ^ 32;
      room : ForSome c.ready (λ t. HasRoom c.blocks.items (functions_shown c.blocks.items c.functions.items) (slice_get c.threads.items t) c.world c.callee c.spare);
      empty : c.frames.items ≡ [];
      spare : c.spare.spots.items ≡ [];
      thread : ForSome c.ready (λ t. (vec_len c.threads < vec_capacity c.threads) × (1 ≤ vec_capacity c.frames));
    } };
}

impl CState {
    /// The state before the first event: one thread, in `main`.
    pub fn start(alloc: Global, program: &CProgram, input: &[i64]) -> Result<CState, Memory>
        ensures state { IfOk result (λ c. shown c ≡ start_of (plain_program program.now) input.now) }
        ensures program { IfOk result (λ c. IsFor (plain_program program.now) c) }
        ensures room { IfOk result (λ c. c.ready ≡ None) }
    {
        let mut blocks = Vec::new(alloc);
        let functions = load(alloc, program, &mut blocks)?;
        let name = Name::of(alloc, "main")?;
        let main = function_place(program.funs.as_slice(), &name)?;
        let threads = first_thread(alloc, blocks.as_slice(), functions.as_slice(), main)?;
        Ok(CState {
            alloc,
            blocks,
            functions,
            threads,
            world: first_world(alloc, input)?,
            ready: None,
            callee: None,
            spare: empty_frame(alloc),
            frames: Vec::new(alloc),
        })
    }

    /// How many threads were made.
    pub fn threads(&self) -> u32
        ensures { result ≡ length (shown self.now).threads }
    {
        self.threads.len() as u32
    }

    /// What was printed.
    pub fn outputs(&self) -> &[i64]
        ensures { result.now ≡ (shown self.now).world.outputs }
    {
        self.world.outputs.as_slice()
    }

    /// Makes room for the next event of a thread. A refusal leaves room for none.
    pub fn make_room(&mut self, program: &CProgram, tid: u32) -> Result<(), Memory>
        requires thread { tid < length (shown self.old).threads }
        requires program { IsFor (plain_program program.now) self.old }
        ensures same { shown self.new ≡ shown self.old }
        ensures program { IsFor (plain_program program.now) self.new }
        ensures ok { OnOk result (self.new.ready ≡ Some tid) }
        ensures refused { OnErr result (self.new.ready ≡ None) }
    {
        self.look_ahead(tid)?;
        Ok(())
    }

    // Makes room for the next event of a thread. The answer is whether it has ended or waits; a refusal leaves room for none.
    fn look_ahead(&mut self, tid: u32) -> Result<bool, Memory>
        requires { tid < length (shown self.old).threads }
        ensures same { shown self.new ≡ shown self.old }
        ensures runs { runs self.new ≡ runs self.old }
        ensures ok { OnOk result (self.new.ready ≡ Some tid) }
        ensures refused { OnErr result (self.new.ready ≡ None) }
        ensures waits { IfOk result (λ waits. is_enabled (runs self.old) (shown self.old) tid ≡ (not waits && acts (next_of (runs self.old) (shown self.old) tid))) }
    {
        self.ready = None;
        let ahead = prepare_thread(
            self.alloc,
            self.blocks.as_slice(),
            self.functions.as_slice(),
            &mut self.threads,
            tid as usize,
            &mut self.world,
            &mut self.spare,
            &mut self.frames,
        )?;
        self.callee = ahead.callee;
        self.ready = Some(tid);
        Ok(ahead.waits)
    }

    /// The next event of a thread. It takes no memory.
    pub fn step(&mut self, program: &CProgram, tid: u32) -> Event
        requires thread { tid < length (shown self.old).threads }
        requires program { IsFor (plain_program program.now) self.old }
        requires enabled { is_enabled (runs self.old) (shown self.old) tid ≡ true }
        requires room { self.old.ready ≡ Some tid }
        requires blocks { length (shown self.old).world.blocks < 2 ^ 32 - 1 }
        requires locks { length (shown self.old).world.locks < 2 ^ 32 - 1 }
        requires threads { length (shown self.old).threads < 2 ^ 32 - 1 }
        ensures event { Step (plain_program program.now) (shown self.old) tid result (shown self.new) }
        ensures program { IsFor (plain_program program.now) self.new }
        ensures used { self.new.ready ≡ None }
        ensures blocks { length (shown self.new).world.blocks ≤ suc (length (shown self.old).world.blocks) }
        ensures locks { length (shown self.new).world.locks ≤ suc (length (shown self.old).world.locks) }
        ensures threads { length (shown self.new).threads ≤ suc (length (shown self.old).threads) }
    {
        let Some(event) = self.go_on(tid) else {
            unreachable!();
        };
        event
    }

    /// The next event of a thread, if it may do one. None comes where there is no such thread, and where it has ended, waits or
    /// stands before a fault; of a state behind None no more is known than its program. `Memory` comes only for want of memory.
    pub fn attempt(&mut self, program: &CProgram, tid: u32) -> Result<Option<Event>, Memory>
        requires program { IsFor (plain_program program.now) self.old }
        requires blocks { length (shown self.old).world.blocks < 2 ^ 32 - 1 }
        requires locks { length (shown self.old).world.locks < 2 ^ 32 - 1 }
        requires threads { length (shown self.old).threads < 2 ^ 32 - 1 }
        ensures event { IfOk result (λ r. IfSome r (λ event. Step (plain_program program.now) (shown self.old) tid event (shown self.new))) }
        ensures none { IfOk result (λ r. IfNone r (is_enabled (functions_of (plain_program program.now)) (shown self.old) tid ≡ false)) }
        ensures program { OnOk result (IsFor (plain_program program.now) self.new) }
        ensures blocks { IfOk result (λ r. OnSome r (length (shown self.new).world.blocks ≤ suc (length (shown self.old).world.blocks))) }
        ensures locks { IfOk result (λ r. OnSome r (length (shown self.new).world.locks ≤ suc (length (shown self.old).world.locks))) }
        ensures threads { IfOk result (λ r. OnSome r (length (shown self.new).threads ≤ suc (length (shown self.old).threads))) }
    {
        if tid >= self.threads() || self.look_ahead(tid)? {
            return Ok(None);
        }
        Ok(self.go_on(tid))
    }

    // The next event of a thread that waits for nothing. None comes before a fault, and then the threads are gone.
    fn go_on(&mut self, tid: u32) -> Option<Event>
        requires thread { tid < length (shown self.old).threads }
        requires room { self.old.ready ≡ Some tid }
        requires blocks { length (shown self.old).world.blocks < 2 ^ 32 - 1 }
        requires locks { length (shown self.old).world.locks < 2 ^ 32 - 1 }
        requires threads { length (shown self.old).threads < 2 ^ 32 - 1 }
        ensures thread { IfSome result (λ event. event.tid ≡ tid) }
        ensures does { IfSome result (λ event. event_of (runs self.old) (shown self.old) tid ≡ Some (Ok (event.action, shown self.new))) }
        ensures none { IfNone result (is_enabled (runs self.old) (shown self.old) tid ≡ false) }
        ensures runs { runs self.new ≡ runs self.old }
        ensures used { self.new.ready ≡ None }
        ensures blocks { OnSome result (length (shown self.new).world.blocks ≤ suc (length (shown self.old).world.blocks)) }
        ensures locks { OnSome result (length (shown self.new).world.locks ≤ suc (length (shown self.old).world.locks)) }
        ensures threads { OnSome result (length (shown self.new).threads ≤ suc (length (shown self.old).threads)) }
    {
        self.ready = None;
        match advance_thread(
            self.alloc,
            self.blocks.as_slice(),
            self.functions.as_slice(),
            self.callee,
            &mut self.threads,
            tid as usize,
            &mut self.world,
            &mut self.spare,
            &mut self.frames,
        ) {
            Ok(action) => Some(Event { tid, action }),
            Err(_) => {
                self.threads.clear();
                None
            }
        }
    }

    /// What a thread stands before: an action with what this touches, a fault, or its end.
    pub fn next_action(&self, tid: u32) -> Next
        requires { tid < length (shown self.now).threads }
        ensures { result ≡ next_of (runs self.now) (shown self.now) tid }
    {
        match last_frame(frames_of(self.threads.as_slice(), tid as usize)) {
            None => Next::Ended,
            Some(frame) => next_of_frame(self.blocks.as_slice(), frame, &self.world),
        }
    }

    /// Whether a thread has ended.
    pub fn has_ended(&self, tid: u32) -> bool
        requires { tid < length (shown self.now).threads }
        ensures { result ≡ is_ended (next_of (runs self.now) (shown self.now) tid) }
    {
        match last_frame(frames_of(self.threads.as_slice(), tid as usize)) {
            None => true,
            Some(_) => false,
        }
    }

    /// Whether a thread may do its next action: its next is an action, a lock that it wants is free, and a thread that it
    /// joins has ended.
    pub fn enabled(&self, tid: u32) -> bool
        requires { tid < length (shown self.now).threads }
        ensures { result ≡ is_enabled (runs self.now) (shown self.now) tid }
    {
        match self.next_action(tid) {
            Next::Act(touch) => {
                lock_ready(&self.world, touch.lock)
                    && child_ready(self.threads.as_slice(), touch.child)
            }
            _ => false,
        }
    }
}

// Whether a lock is free, where one is wanted.
fn lock_ready(world: &World, lock: Option<u32>) -> bool
    ensures { result ≡ lock_ready (shared world.now).locks lock }
{
    match lock {
        None => true,
        Some(k) => match world.locks.is_free(k) {
            Ok(free) => free,
            Err(_) => false,
        },
    }
}

// Whether a thread has ended, where one is joined.
fn child_ready(threads: &[Thread], child: Option<u32>) -> bool
    ensures { (T : List Block) → result ≡ child_ready (map (thread_shown T) threads.now) child }
{
    match child {
        None => true,
        Some(t) => match threads.get(t as usize) {
            Some(thread) => thread.frames.is_empty(),
            None => false,
        },
    }
}

// Whether a statement waits for a lock or another thread.
fn waits_for(basic: &Basic, frame: &Frame, threads: &[Thread], world: &World) -> bool
    ensures { (T : List Block) → result ≡ waits_for (plain_basic basic.now) (own_of (frame_shown T frame.now)) (record { world = shared world.now; threads = map (thread_shown T) threads.now }) }
{
    match basic {
        Basic::Acquire(x) => match lock_of(frame.env.as_slice(), *x) {
            Ok(lock) => !lock_ready(world, Some(lock)),
            Err(_) => false,
        },
        Basic::Join => !child_ready(threads, frame.child),
        _ => false,
    }
}

// What a frame stands before.
fn next_of_frame(code: &[Block], frame: &Frame, world: &World) -> Next
    requires { IsTable code.now }
    ensures { (F : List tree.Function) (n : ℕ) → result ≡ next_by (atomic_at (frame_shown code.now frame.now).left) (event_of_frame F n (frame_shown code.now frame.now) (shared world.now)) }
{
    let env = frame.env.as_slice();
    match current(code, frame.spots.as_slice()) {
        None => Next::Act(untouched()),
        Some((_, Op::Do(basic))) => match touching(basic, env, frame.child, world) {
            Ok(touch) => Next::Act(touch),
            Err(fault) => Next::Fault(fault),
        },
        Some((false, Op::While(_, _, _))) => Next::Act(untouched()),
        Some((true, Op::While(_, e, _))) => Next::Fault(stuck(e, env)),
        Some((_, Op::Let(_, e))) => Next::Fault(stuck(e, env)),
        Some((_, Op::If(e, _, _))) => Next::Fault(stuck(e, env)),
    }
}

fn first_world(alloc: Global, input: &[i64]) -> Result<World, Memory>
    ensures { IfOk result (λ w. shared w ≡ record { blocks = []; locks = []; input = input.now; outputs = [] }) }
{
    let mut numbers = Vec::new(alloc);
    numbers.extend_from_slice(input)?;
    Ok(World {
        heap: Heap::new(alloc),
        locks: Locks::new(alloc),
        input: numbers,
        at: 0,
        outputs: Vec::new(alloc),
        first: Vec::new(alloc),
    })
}

// The thread that runs `main`.
fn first_thread(
    alloc: Global,
    code: &[Block],
    functions: &[Function],
    main: u32,
) -> Result<Vec<Thread>, Memory>
    requires { IsCode code.now functions.now }
    ensures shown { IfOk result (λ ts. map (thread_shown code.now) ts.items ≡ (begun (function_numbered (functions_shown code.now functions.now) (Some main)) (blank (function_numbered (functions_shown code.now functions.now) (Some main))) None ∷ []) ∷ []) }
    ensures fits { IfOk result (λ ts. ThreadsFit code.now ts.items) }
    ensures one { IfOk result (λ ts. length ts.items ≡ 1) }
{
    let function = function_at(functions, Some(main));
    let spare = spare_frame(alloc, function)?;
    let mut frames = Vec::with_capacity(alloc, 1)?;
    let mut threads = Vec::with_capacity(alloc, 1)?;
    frames.push_reserved(begin(code, function, spare, None));
    threads.push_reserved(Thread { frames });
    Ok(threads)
}

// The frames of a thread, the innermost last.
fn frames_of(threads: &[Thread], t: usize) -> &[Frame]
    ensures { result.now ≡ frames_at (slice_get threads.now t) }
{
    match threads.get(t) {
        Some(thread) => thread.frames.as_slice(),
        None => &[],
    }
}

fn last_frame(frames: &[Frame]) -> Option<&Frame>
    ensures some { IfSome result (λ f. IsLast frames.now f.now) }
    ensures none { IfNone result (frames.now ≡ []) }
{
    match frames {
        [] => None,
        [_before @ .., frame] => Some(frame),
    }
}

// Adds the thread that an event has started, if it has. Its frames come into `first`.
fn add_thread(
    alloc: Global,
    threads: &mut Vec<Thread>,
    first: &mut Vec<Frame>,
    frame: Option<Frame>,
)
    requires room { vec_len threads.old < vec_capacity threads.old }
    requires empty { first.old.items ≡ [] }
    requires place { 1 ≤ vec_capacity first.old }
    ensures added { ThreadAdded threads.old.items threads.new.items frame }
    ensures empty { first.new.items ≡ [] }
{
    match frame {
        None => {}
        Some(frame) => {
            let mut frames = mem::replace(first, Vec::new(alloc));
            frames.push_reserved(frame);
            threads.push_reserved(Thread { frames });
        }
    }
}

// A frame with room for a function, before its arguments are in it.
fn spare_frame(alloc: Global, function: Option<Function>) -> Result<Frame, Memory>
    ensures empty { IfOk result (λ f. f.spots.items ≡ []) }
    ensures places { IfOk result (λ f. suc (depth_of function) ≤ vec_capacity f.spots) }
    ensures blank { IfOk result (λ f. (T : List Block) → f.env.items ≡ blank (shown_or_none T function)) }
{
    let (depth, slots) = match function {
        None => (0, 0),
        Some(f) => (f.depth, f.slots),
    };
    Ok(Frame {
        spots: Vec::with_capacity(alloc, depth as usize + 1)?,
        env: vec![in alloc; Value::Null; slots as usize]?,
        into: None,
        child: None,
    })
}

// Makes a spare frame one for the function of that number, if one is called.
fn make_spare(
    alloc: Global,
    functions: &[Function],
    callee: Option<u32>,
    spare: &mut Frame,
) -> Result<(), Memory>
    requires { spare.old.spots.items ≡ [] }
    ensures spare { OnOk result ((T : List Block) → IsCode T functions.now → IsSpare callee (function_numbered (functions_shown T functions.now) callee) spare.new) }
    ensures empty { spare.new.spots.items ≡ [] }
{
    match callee {
        None => Ok(()),
        Some(k) => {
            *spare = spare_frame(alloc, function_at(functions, Some(k)))?;
            Ok(())
        }
    }
}

// Room for what a statement makes or prints, if it does.
fn basic_room(basic: &Basic, env: &[Value], world: &mut World) -> Result<(), Memory>
    ensures same { shared world.new ≡ shared world.old }
    ensures room { OnOk result (BlockRoom env.now (plain_basic basic.now) world.new) }
{
    match basic {
        Basic::Make(_, _, first, count) => make_block_room(env, first.as_slice(), count, world),
        Basic::NewLock(_) => world.locks.room(),
        Basic::Print(_) => {
            world.outputs.reserve(1)?;
            Ok(())
        }
        _ => Ok(()),
    }
}

// Room for what a frame makes or prints next, if it does: the answer is what it stands before.
fn block_room(
    code: &[Block],
    frame: &Frame,
    threads: &[Thread],
    world: &mut World,
) -> Result<Ahead, Memory>
    requires { IsTable code.now }
    ensures same { shared world.new ≡ shared world.old }
    ensures room { OnOk result (BlockRoomAt frame.now.env.items (frame_shown code.now frame.now).left world.new) }
    ensures callee { IfOk result (λ ahead. ahead.callee ≡ callee_at (frame_shown code.now frame.now).left) }
    ensures waits { IfOk result (λ ahead. ahead.waits ≡ waits_at (frame_shown code.now frame.now).left (own_of (frame_shown code.now frame.now)) (record { world = shared world.old; threads = map (thread_shown code.now) threads.now })) }
{
    match current(code, frame.spots.as_slice()) {
        Some((_, Op::Do(basic))) => {
            basic_room(basic, frame.env.as_slice(), world)?;
            Ok(Ahead {
                waits: waits_for(basic, frame, threads, world),
                callee: basic.callee(),
            })
        }
        _ => Ok(Ahead {
            waits: false,
            callee: None,
        }),
    }
}

fn make_block_room(
    env: &[Value],
    first: &[Term],
    count: &Term,
    world: &mut World,
) -> Result<(), Memory>
    ensures same { shared world.new ≡ shared world.old }
    ensures first { OnOk result (length first.now ≤ vec_capacity world.new.first) }
    ensures block { OnOk result ((n : ℕ) → chain (eval_number env.now (plain_term count.now)) count_of ≡ Ok n → IsFields (length first.now) → world.new.heap.room ≡ Some (length first.now, n)) }
{
    world.first.clear();
    world.first.reserve(first.len())?;
    if first.is_empty() || first.len() >= 4294967295 {
        return Ok(());
    }
    match number(env, count) {
        Err(_) => Ok(()),
        Ok(n) => match count_of(n) {
            Err(_) => Ok(()),
            Ok(count) => world.heap.room(first.len() as u32, count),
        },
    }
}

// Room for what a thread makes or prints next, if it does: the answer is what it stands before.
fn thread_room(
    code: &[Block],
    threads: &[Thread],
    t: usize,
    world: &mut World,
) -> Result<Ahead, Memory>
    requires { IsTable code.now }
    ensures same { shared world.new ≡ shared world.old }
    ensures room { OnOk result (MakesRoom (frames_shown code.now (frames_at (slice_get threads.now t))) world.new) }
    ensures callee { IfOk result (λ ahead. CallsNext ahead.callee (frames_shown code.now (frames_at (slice_get threads.now t)))) }
    ensures waits { IfOk result (λ ahead. (F : List tree.Function) → is_enabled F (record { world = shared world.old; threads = map (thread_shown code.now) threads.now }) t ≡ (not ahead.waits && acts (next_of F (record { world = shared world.old; threads = map (thread_shown code.now) threads.now }) t))) }
{
    match last_frame(frames_of(threads, t)) {
        None => Ok(Ahead {
            waits: true,
            callee: None,
        }),
        Some(frame) => block_room(code, frame, threads, world),
    }
}

// Room for one more.
fn reserve_one<T>(list: &mut Vec<T>) -> Result<(), Memory>
    ensures items { list.new.items ≡ list.old.items }
    ensures room { OnOk result (vec_len list.new < vec_capacity list.new) }
{
    if list.len() < list.capacity() {
        return Ok(());
    }
    list.reserve(1)?;
    Ok(())
}

// Room for one more frame of a thread.
fn frame_room(threads: &mut Vec<Thread>, t: usize) -> Result<(), Memory>
    requires { t < length threads.old.items }
    ensures shown { (T : List Block) → map (thread_shown T) threads.new.items ≡ map (thread_shown T) threads.old.items }
    ensures fits { (T : List Block) → ThreadsFit T threads.old.items → ThreadsFit T threads.new.items }
    ensures frames { frames_at (slice_get threads.new.items t) ≡ frames_at (slice_get threads.old.items t) }
    ensures len { length threads.new.items ≡ length threads.old.items }
    ensures room { OnOk result (FramesRoom (slice_get threads.new.items t)) }
{
    reserve_one(&mut threads[t].frames)
}

// Room for the next event of a thread: the answer is what it stands before, and for the function that it calls the spare frame is
// made. The frames of a thread that it starts come into `first`.
fn prepare_thread(
    alloc: Global,
    code: &[Block],
    functions: &[Function],
    threads: &mut Vec<Thread>,
    t: usize,
    world: &mut World,
    spare: &mut Frame,
    first: &mut Vec<Frame>,
) -> Result<Ahead, Memory>
    requires code { IsCode code.now functions.now }
    requires there { t < length threads.old.items }
    requires spare { spare.old.spots.items ≡ [] }
    requires empty { first.old.items ≡ [] }
    ensures shown { map (thread_shown code.now) threads.new.items ≡ map (thread_shown code.now) threads.old.items }
    ensures fits { ThreadsFit code.now threads.old.items → ThreadsFit code.now threads.new.items }
    ensures len { length threads.new.items ≡ length threads.old.items }
    ensures world { shared world.new ≡ shared world.old }
    ensures room { IfOk result (λ ahead. HasRoom code.now (functions_shown code.now functions.now) (slice_get threads.new.items t) world.new ahead.callee spare.new) }
    ensures thread { OnOk result ((vec_len threads.new < vec_capacity threads.new) × (1 ≤ vec_capacity first.new)) }
    ensures spare { spare.new.spots.items ≡ [] }
    ensures empty { first.new.items ≡ [] }
    ensures waits { IfOk result (λ ahead. (F : List tree.Function) → is_enabled F (record { world = shared world.old; threads = map (thread_shown code.now) threads.old.items }) t ≡ (not ahead.waits && acts (next_of F (record { world = shared world.old; threads = map (thread_shown code.now) threads.old.items }) t))) }
{
    let ahead = thread_room(code, threads.as_slice(), t, world)?;
    make_spare(alloc, functions, ahead.callee, spare)?;
    frame_room(threads, t)?;
    reserve_one(threads)?;
    reserve_one(first)?;
    Ok(ahead)
}

// The event of a thread.
fn advance_thread(
    alloc: Global,
    code: &[Block],
    functions: &[Function],
    callee: Option<u32>,
    threads: &mut Vec<Thread>,
    t: usize,
    world: &mut World,
    spare: &mut Frame,
    first: &mut Vec<Frame>,
) -> Result<Action, Fault>
    requires code { IsCode code.now functions.now }
    requires fits { ThreadsFit code.now threads.old.items }
    requires there { t < length threads.old.items }
    requires few { length threads.old.items < 2 ^ 32 - 1 }
    requires room { HasRoom code.now (functions_shown code.now functions.now) (slice_get threads.old.items t) world.old callee spare.old }
    requires thread { vec_len threads.old < vec_capacity threads.old }
    requires empty { first.old.items ≡ [] }
    requires place { 1 ≤ vec_capacity first.old }
    requires blocks { length world.old.heap.blocks < 2 ^ 32 - 1 }
    requires locks { length world.old.locks.locks < 2 ^ 32 - 1 }
    ensures does { IfOk result (λ action. event_of (functions_shown code.now functions.now) (record { world = shared world.old; threads = map (thread_shown code.now) threads.old.items }) t ≡ Some (Ok (action, record { world = shared world.new; threads = map (thread_shown code.now) threads.new.items }))) }
    ensures faults { OnErr result (is_enabled (functions_shown code.now functions.now) (record { world = shared world.old; threads = map (thread_shown code.now) threads.old.items }) t ≡ true → ⊥) }
    ensures fits { OnOk result (ThreadsFit code.now threads.new.items) }
    ensures few { OnOk result (length threads.new.items ≤ suc (length threads.old.items)) }
    ensures empty { first.new.items ≡ [] }
    ensures spare { spare.new.spots.items ≡ [] }
    ensures blocks { OnOk result (length world.new.heap.blocks ≤ suc (length world.old.heap.blocks)) }
    ensures locks { OnOk result (length world.new.locks.locks ≤ suc (length world.old.locks.locks)) }
{
    let next = threads.len() as u32;
    match advance(
        alloc,
        code,
        functions,
        callee,
        &mut threads[t].frames,
        spare,
        world,
        next,
    ) {
        Err(fault) => Err(fault),
        Ok((action, forked)) => {
            add_thread(alloc, threads, first, forked);
            Ok(action)
        }
    }
}
