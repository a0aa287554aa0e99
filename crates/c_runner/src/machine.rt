// What lies under the lock.
ghost use Rattle.std.specs.Prelude.{◌≡◌, ◌<◌, ◌≤◌, ◌+◌, ◌^◌, [], ◌∷◌, ◌++◌, ℕ, ℤ, List, Some, None, true, IfOk, OnOk, OnErr, IfSome, IfNone, length, vec_len, vec_capacity, false};
ghost use Rattle.c_syntax.specs.Tree.{Program};
ghost use Rattle.c_syntax.specs.Plain.{plain_program};
ghost use Rattle.c_meaning.specs.declared.action.Event.{Event};
ghost use Rattle.c_meaning.specs.Resolve.{functions_of};
ghost use Rattle.c_meaning.specs.Events.{State, is_enabled};
ghost use Rattle.c_meaning.specs.States.{shown, runs};
ghost use Rattle.c_meaning.specs.Steps.{Step, Replay, start_of};
ghost use Rattle.c_runner.specs.Numbers.{IsNext, mine};
ghost use Rattle.c_runner.specs.Ends.{EndOf};
ghost use Rattle.c_runner.specs.Runs.{GoesOn};
ghost use Rattle.c_runner.specs.Kept.{IsOpen, FirstEnd, GoesByRule, AtMostOne, seen};

use crate::outlook::Outlook;
use crate::run_end::RunEnd;
use c_meaning::{CState, Event, History};
use c_syntax::CProgram;
use pl_base::{Gate, Items, Memory};
use std::alloc::Global;
use std::marker::{Brand, Model};
use std::sync::ledger::{Blank, Book, Ledger, Share};

/// Which run it is: the program, the input, the bound, and the ledger of the workers' shares.
pub(crate) trait Naming: Ledger {
    ghost program: { Program };

    ghost input: { List ℤ };

    ghost bound: { ℕ };
}

impl Naming for Brand {
    ghost program = { record { structs = []; funs = [] } };

    ghost input = { [] };

    ghost bound = { 0 };
}

/// A worker's number, and how many events it has recorded.
#[derive(Drop)]
pub(crate) struct Part<J: Naming> {
    worker: u32,
    done: u64,
    share: Share<J>,
    ghost counted: { share.amount ≡ done },
    ghost backed: { 0 < share.parts },
}

impl<J: Naming> Part<J> {
    pub(crate) fn worker(&self) -> u32
        ensures { result ≡ self.now.worker }
    {
        self.worker
    }

    pub(crate) fn done(&self) -> u64
        ensures { result ≡ self.now.done }
    {
        self.done
    }
}

/// A state with the history that led to it, which is as long as the workers' shares together.
#[derive(Drop)]
pub(crate) struct Machine<J: Naming> {
    state: CState,
    history: Vec<Event>,
    outlook: Outlook,
    book: Book<J>,
    undealt: Share<J>,
    parts_left: u64,
    /// The number behind the last stepped thread.
    from: u32,
    failed: bool,
    /// The workers that sleep, a bit for each.
    asleep: u64,
}

impl<J: Naming> Model for Machine<J> {
    ghost use Rattle.std.specs.Prelude.{◌≡◌, ◌<◌, ◌≤◌, ℕ, List, length, vec_len, vec_capacity};
    ghost use Rattle.c_meaning.specs.declared.action.Event.{Event};
    ghost use Rattle.c_meaning.specs.Resolve.{functions_of};
    ghost use Rattle.c_meaning.specs.States.{Held, shown, IsFor};
    ghost use Rattle.c_meaning.specs.contracts.term.Term as term;
    ghost use Rattle.std.specs.Coded.{codes};
    ghost use Rattle.c_runner.specs.Kept.{IsKept, Sees};

    ghost Value = { Held × List Event × ℕ };

    ghost coded = { Prim.hlevel (codes, term.the_row.coded) };

    ghost view = { λ m. (m.state, m.history.items, m.from) };

    ghost invariant = { λ m. record {
      program : IsFor J.program m.state;
      kept : IsKept J.program J.input J.bound (shown m.state) m.history.items (vec_capacity m.history);
      shares : length m.history.items ≡ m.book.total;
      undealt : m.undealt.parts ≡ m.parts_left;
      sees : Sees (functions_of J.program) J.bound (shown m.state) (length m.history.items) m.outlook.unfinished.items m.outlook.enabled.items m.outlook.end;
    } };
}

impl<J: Naming> Machine<J> {
    /// The machine before its first event, with room for as many as the bound, and the part of worker 0.
    pub(crate) fn start(
        alloc: Global,
        program: &CProgram,
        input: &[i64],
        bound: u32,
        blank: Blank,
        parts: u64,
    ) -> Result<(Machine<J>, Part<J>), Memory>
        requires name { blank.name ≡ J.name }
        requires parts { (blank.parts ≡ J.parts) × (parts ≡ J.parts) × (1 < parts) }
        requires run { (plain_program program.now ≡ J.program) × (input.now ≡ J.input) × (bound ≡ J.bound) }
        requires few { bound ≤ 4000000 }
        ensures { IfOk result (λ r. seen r.0 ≡ (start_of J.program J.input, [], 0)) }
    {
        let (book, mut undealt) = blank.open::<J>();
        let share = undealt.split_off(1, 0);
        let part = Part {
            worker: 0,
            done: 0,
            share,
        };
        let state = CState::start(alloc, program, input)?;
        let outlook = Outlook::start(alloc, &state, bound)?;
        let machine = Machine {
            state,
            history: Vec::with_capacity(alloc, bound as usize)?,
            outlook,
            book,
            undealt,
            parts_left: parts - 1,
            from: 0,
            failed: false,
            asleep: 0,
        };
        Ok((machine, part))
    }

    /// A worker's part, as long as there is one left.
    pub(crate) fn deal(&mut self, worker: u32) -> Option<Part<J>>
        ensures { seen self.new ≡ seen self.old }
    {
        if self.parts_left < 2 {
            return None;
        }
        self.parts_left -= 1;
        let share = self.undealt.split_off(1, 0);
        Some(Part {
            worker,
            done: 0,
            share,
        })
    }

    /// Records the next event of a thread. A refusal leaves all as it was.
    fn step(
        &mut self,
        program: &CProgram,
        bound: u32,
        part: &mut Part<J>,
        tid: u32,
    ) -> Result<(), Memory>
        requires run { (plain_program program.now ≡ J.program) × (bound ≡ J.bound) }
        requires enabled { is_enabled (functions_of J.program) (shown self.old.0) tid ≡ true }
        requires unended { IsOpen J.program J.bound (shown self.old.0) (length self.old.1) }
        ensures ok { OnOk result ((e : Event) × (e.tid ≡ tid) × Step J.program (shown self.old.0) tid e (shown self.new.0) × (self.new.1 ≡ self.old.1 ++ e ∷ []) × (self.new.2 ≡ tid + 1) × (part.new.done ≡ part.old.done + 1)) }
        ensures err { OnErr result ((seen self.new ≡ seen self.old) × (part.new.done ≡ part.old.done)) }
        ensures worker { part.new.worker ≡ part.old.worker }
    {
        let threads = self.state.threads();
        self.outlook.reserve()?;
        self.state.make_room(program, tid)?;
        let Part { share, done, .. } = part;
        self.book.audit(share);
        let event = self.state.step(program, tid);
        self.history.push_reserved(event);
        self.book.add(share, 1);
        *done += 1;
        self.from = tid + 1;
        let ended = self.state.has_ended(tid);
        let made = threads < self.state.threads();
        self.outlook.follow(ended, tid, made, threads);
        self.outlook
            .renew(&self.state, bound, self.history.len(), tid, threads);
        Ok(())
    }

    /// The run stops, for want of memory.
    pub(crate) fn give_up(&mut self)
        ensures { seen self.new ≡ seen self.old }
    {
        self.failed = true;
    }

    /// The first end that holds in the state.
    pub(crate) fn end(&self) -> Option<RunEnd>
        ensures { FirstEnd J.program J.bound (shown self.now.0) (length self.now.1) result }
    {
        self.outlook.end
    }

    // The next thread of a worker.
    fn pick(&self, worker: u32, workers: u32) -> Option<u32>
        requires { 0 < workers }
        ensures some { IfSome result (IsNext (mine worker workers (is_enabled (functions_of J.program) (shown self.now.0))) self.now.2) }
        ensures none { IfNone result ((k : ℕ) → mine worker workers (is_enabled (functions_of J.program) (shown self.now.0)) k ≡ false) }
    {
        self.outlook.next_of(self.from, worker, workers)
    }

    /// Goes on by the rule for one worker until an end holds.
    pub(crate) fn finish<G: Gate>(
        &mut self,
        program: &CProgram,
        bound: u32,
        part: &mut Part<J>,
        gate: &G,
    ) -> Result<RunEnd, Memory>
        requires run { (plain_program program.now ≡ J.program) × (bound ≡ J.bound) }
        ensures end { IfOk result (EndOf J.program J.bound (shown self.new.0) (length self.new.1)) }
        ensures rule { OnOk result (GoesByRule J.program J.bound (seen self.old) (seen self.new)) }
    {
        'events: loop {
            if let Some(end) = self.end() {
                return Ok(end);
            }
            let Some(tid) = self.pick(0, 1) else {
                unreachable!();
            };
            gate.before(part.worker(), part.done());
            self.step(program, bound, part, tid)?;
        }
    }

    /// The history, once no worker is left.
    pub(crate) fn into_history(self) -> History
        ensures same { result.events ≡ self.1 }
        ensures replays { Replay J.program J.input result.events (shown self.0) }
        ensures goes { GoesOn J.program J.bound (start_of J.program J.input) 0 result.events (shown self.0) }
        ensures within { length result.events ≤ J.bound }
    {
        let Machine { history, .. } = self;
        History {
            events: Items::of(history),
        }
    }

    /// One attempt of a worker at an event.
    pub(crate) fn attempt(
        &mut self,
        program: &CProgram,
        bound: u32,
        workers: u32,
        part: &mut Part<J>,
    ) -> Attempt
        requires run { (plain_program program.now ≡ J.program) × (bound ≡ J.bound) }
        requires workers { 0 < workers }
        ensures one { AtMostOne workers part.old.worker self.old.1 self.new.1 }
        ensures stepped { result ≡ Attempt.Stepped → part.new.done ≡ part.old.done + 1 }
        ensures worker { part.new.worker ≡ part.old.worker }
    {
        if self.failed || self.end().is_some() {
            return Attempt::Over;
        }
        let Some(tid) = self.pick(part.worker, workers) else {
            return Attempt::Idle;
        };
        match self.step(program, bound, part, tid) {
            Ok(()) => Attempt::Stepped,
            Err(Memory) => {
                self.failed = true;
                Attempt::Over
            }
        }
    }

    /// The worker sleeps until it is woken.
    pub(crate) fn sleep(&mut self, worker: u32)
        ensures { seen self.new ≡ seen self.old }
    {
        self.asleep |= bit(worker);
    }

    /// Whether sleeping workers are to be woken: the run is over, or a thread of one is enabled. They then sleep no more.
    pub(crate) fn wakes(&mut self, workers: u32) -> bool
        requires { 0 < workers }
        ensures kept { seen self.new ≡ seen self.old }
    {
        if self.asleep == 0 {
            return false;
        }
        let over = self.failed || self.outlook.end.is_some();
        let wakes = over || has_enabled(&self.outlook.enabled, workers, self.asleep);
        if wakes {
            self.asleep = 0;
        }
        wakes
    }
}

// The bit of a worker.
fn bit(worker: u32) -> u64 {
    1 << (worker % 64)
}

fn has_enabled(enabled: &[u32], workers: u32, asleep: u64) -> bool
    requires { 0 < workers }
{
    for t in enabled {
        if asleep & bit(*t % workers) != 0 {
            return true;
        }
    }
    false
}

/// What came of an attempt.
#[derive(Clone, Copy, PartialEq, Eq, Debug)]
pub(crate) enum Attempt {
    Stepped,
    Idle,
    Over,
}

impl Attempt {
    /// What came of this attempt and another.
    pub(crate) fn or(self, other: Attempt) -> Attempt {
        match (self, other) {
            (Attempt::Over, _) | (_, Attempt::Over) => Attempt::Over,
            (Attempt::Stepped, _) | (_, Attempt::Stepped) => Attempt::Stepped,
            _ => Attempt::Idle,
        }
    }
}
