// What the threads of a state stand before, kept from event to event.
ghost use Rattle.std.specs.Prelude.{◌≡◌, ◌<◌, ◌≤◌, ◌+◌, ◌∷◌, [], ◌^◌, All, OnOk, OnErr, IfOk, IfSome, IsTrue, if◌then◌else◌, length, vec_len, vec_capacity, map, filter};
ghost use Rattle.c_meaning.specs.Events.{next_of, is_enabled};
ghost use Rattle.c_meaning.specs.States.{shown, runs};
ghost use Rattle.c_runner.specs.Numbers.{Are, first_among, next_among, without, followed};
ghost use Rattle.c_runner.specs.Standings.{stands, has_moved, AreQuiet, end_among};
ghost use Rattle.c_runner.specs.Kept.{is_live};

use crate::run_end::RunEnd;
use crate::standing::{Standing, end_alone, end_with, has_moved, race_moved};
use c_meaning::{CState, Next};
use pl_base::Memory;
use std::alloc::Global;

/// The threads of a state that haven't ended, those of them that are enabled, and the first end that holds.
#[derive(Drop)]
pub(crate) struct Outlook {
    pub(crate) unfinished: Vec<u32>,
    pub(crate) enabled: Vec<u32>,
    pub(crate) end: Option<RunEnd>,
    /// What the unfinished threads stand before. It is made anew for each state.
    standings: Vec<Standing>,
    /// Those of them that moved in the last event.
    moved: Vec<Standing>,
}

impl Outlook {
    /// That of the state before the first event.
    pub(crate) fn start(alloc: Global, state: &CState, bound: u32) -> Result<Outlook, Memory>
        requires main { length (shown state.now).threads ≡ 1 }
        requires live { Are (is_live (shown state.now)) 0 (0 ∷ []) }
        ensures unfinished { IfOk result (λ o. o.unfinished.items ≡ 0 ∷ []) }
        ensures enabled { IfOk result (λ o. o.enabled.items ≡ filter (is_enabled (runs state.now) (shown state.now)) o.unfinished.items) }
        ensures end { IfOk result (λ o. o.end ≡ end_among (map (stands (next_of (runs state.now) (shown state.now))) o.unfinished.items) o.enabled.items bound 0) }
    {
        let mut outlook = Outlook {
            unfinished: vec![in alloc; 0]?,
            enabled: Vec::with_capacity(alloc, 1)?,
            end: None,
            standings: Vec::with_capacity(alloc, 1)?,
            moved: Vec::with_capacity(alloc, 1)?,
        };
        outlook.renew(state, bound, 0, 0, 0);
        Ok(outlook)
    }

    /// Makes room for one more thread.
    pub(crate) fn reserve(&mut self) -> Result<(), Memory>
        ensures unfinished { self.new.unfinished.items ≡ self.old.unfinished.items }
        ensures enabled { self.new.enabled.items ≡ self.old.enabled.items }
        ensures end { self.new.end ≡ self.old.end }
        ensures more { OnOk result (vec_len self.new.unfinished < vec_capacity self.new.unfinished) }
        ensures room { OnOk result ((vec_len self.new.unfinished < vec_capacity self.new.enabled) × (vec_len self.new.unfinished < vec_capacity self.new.standings) × (vec_len self.new.unfinished < vec_capacity self.new.moved)) }
    {
        if self.has_room() {
            return Ok(());
        }
        self.standings.clear();
        self.moved.clear();
        self.unfinished.reserve(1)?;
        let count = self.unfinished.len();
        self.enabled.reserve(count + 1)?;
        self.standings.reserve(count + 1)?;
        self.moved.reserve(count + 1)?;
        Ok(())
    }

    // Whether there is room for one more thread.
    fn has_room(&self) -> bool
        ensures more { IsTrue result → vec_len self.now.unfinished < vec_capacity self.now.unfinished }
        ensures room { IsTrue result → (vec_len self.now.unfinished < vec_capacity self.now.enabled) × (vec_len self.now.unfinished < vec_capacity self.now.standings) × (vec_len self.now.unfinished < vec_capacity self.now.moved) }
    {
        let count = self.unfinished.len();
        count < self.unfinished.capacity()
            && count < self.enabled.capacity()
            && count < self.standings.capacity()
            && count < self.moved.capacity()
    }

    /// After an event, where its thread has ended or not, and where it has made a thread or not.
    pub(crate) fn follow(&mut self, ended: bool, stepped: u32, made: bool, thread: u32)
        requires more { vec_len self.old.unfinished < vec_capacity self.old.unfinished }
        ensures unfinished { self.new.unfinished.items ≡ followed ended stepped made thread self.old.unfinished.items }
        ensures few { vec_len self.new.unfinished ≤ vec_len self.old.unfinished + 1 }
        ensures enabled { vec_capacity self.new.enabled ≡ vec_capacity self.old.enabled }
        ensures standings { vec_capacity self.new.standings ≡ vec_capacity self.old.standings }
        ensures moved { vec_capacity self.new.moved ≡ vec_capacity self.old.moved }
    {
        if made {
            self.unfinished.push_reserved(thread);
        }
        if ended {
            leave_out(&mut self.unfinished, stepped);
        }
    }

    /// Looks at the state anew, whose unfinished threads are known, after an event of a thread before which there were `made` threads.
    pub(crate) fn renew(
        &mut self,
        state: &CState,
        bound: u32,
        count: usize,
        stepped: u32,
        made: u32,
    )
        requires threads { All (λ t. t < length (shown state.now).threads) self.old.unfinished.items }
        requires live { Are (is_live (shown state.now)) 0 self.old.unfinished.items }
        requires quiet { AreQuiet (next_of (runs state.now) (shown state.now)) stepped made }
        requires room { (vec_len self.old.unfinished ≤ vec_capacity self.old.enabled) × (vec_len self.old.unfinished ≤ vec_capacity self.old.standings) × (vec_len self.old.unfinished ≤ vec_capacity self.old.moved) }
        ensures unfinished { self.new.unfinished ≡ self.old.unfinished }
        ensures enabled { self.new.enabled.items ≡ filter (is_enabled (runs state.now) (shown state.now)) self.new.unfinished.items }
        ensures end { self.new.end ≡ end_among (map (stands (next_of (runs state.now) (shown state.now))) self.new.unfinished.items) self.new.enabled.items bound count }
    {
        match alone(self.unfinished.as_slice()) {
            Some(t) => self.end = look_alone(state, t, &mut self.enabled, bound, count),
            None => self.renew_all(state, bound, count, stepped, made),
        }
    }

    // The same, for any number of threads.
    fn renew_all(&mut self, state: &CState, bound: u32, count: usize, stepped: u32, made: u32)
        requires threads { All (λ t. t < length (shown state.now).threads) self.old.unfinished.items }
        requires live { Are (is_live (shown state.now)) 0 self.old.unfinished.items }
        requires quiet { AreQuiet (next_of (runs state.now) (shown state.now)) stepped made }
        requires room { (vec_len self.old.unfinished ≤ vec_capacity self.old.enabled) × (vec_len self.old.unfinished ≤ vec_capacity self.old.standings) × (vec_len self.old.unfinished ≤ vec_capacity self.old.moved) }
        ensures unfinished { self.new.unfinished ≡ self.old.unfinished }
        ensures enabled { self.new.enabled.items ≡ filter (is_enabled (runs state.now) (shown state.now)) self.new.unfinished.items }
        ensures end { self.new.end ≡ end_among (map (stands (next_of (runs state.now) (shown state.now))) self.new.unfinished.items) self.new.enabled.items bound count }
    {
        look(
            state,
            self.unfinished.as_slice(),
            &mut self.standings,
            &mut self.enabled,
        );
        keep_moved(stepped, made, &self.standings, &mut self.moved);
        let race = race_moved(stepped, made, &self.moved, &self.standings);
        self.end = end_with(race, &self.standings, &self.enabled, bound, count);
    }

    /// The first enabled thread of a worker from that number on, else its first one.
    pub(crate) fn next_of(&self, from: u32, worker: u32, workers: u32) -> Option<u32>
        requires { 0 < workers }
        ensures { result ≡ next_among self.now.enabled.items from worker workers }
    {
        match first_among(&self.enabled, from, worker, workers) {
            Some(t) => Some(t),
            None => first_among(&self.enabled, 0, worker, workers),
        }
    }
}

fn leave_out(threads: &mut Vec<u32>, thread: u32)
    ensures left { threads.new.items ≡ without thread threads.old.items }
    ensures few { vec_len threads.new ≤ vec_len threads.old }
{
    threads.retain(|t| *t != thread);
}

fn first_among(threads: &[u32], from: u32, worker: u32, workers: u32) -> Option<u32>
    requires { 0 < workers }
    ensures { result ≡ first_among threads.now from worker workers }
{
    for t in threads {
        if from <= *t && *t % workers == worker {
            return Some(*t);
        }
    }
    None
}

// What each of these threads stands before, and those that are enabled.
fn look(state: &CState, threads: &[u32], standings: &mut Vec<Standing>, enabled: &mut Vec<u32>)
    requires threads { All (λ t. t < length (shown state.now).threads) threads.now }
    requires standings { length threads.now ≤ vec_capacity standings.old }
    requires enabled { length threads.now ≤ vec_capacity enabled.old }
    ensures standings { standings.new.items ≡ map (stands (next_of (runs state.now) (shown state.now))) threads.now }
    ensures enabled { enabled.new.items ≡ filter (is_enabled (runs state.now) (shown state.now)) threads.now }
{
    standings.clear();
    enabled.clear();
    for t in threads {
        let next = state.next_action(*t);
        if is_enabled(state, *t, &next) {
            enabled.push_reserved(*t);
        }
        standings.push_reserved(Standing { tid: *t, next });
    }
}

// The thread that is alone, if one is.
fn alone(threads: &[u32]) -> Option<u32>
    ensures { IfSome result (λ t. threads.now ≡ t ∷ []) }
{
    match threads {
        [t] => Some(*t),
        _ => None,
    }
}

// The first end that holds where one thread is unfinished. One thread alone doesn't race.
fn look_alone(
    state: &CState,
    t: u32,
    enabled: &mut Vec<u32>,
    bound: u32,
    count: usize,
) -> Option<RunEnd>
    requires thread { t < length (shown state.now).threads }
    requires room { 1 ≤ vec_capacity enabled.old }
    ensures enabled { enabled.new.items ≡ filter (is_enabled (runs state.now) (shown state.now)) (t ∷ []) }
    ensures end { result ≡ end_among (map (stands (next_of (runs state.now) (shown state.now))) (t ∷ [])) enabled.new.items bound count }
{
    let next = state.next_action(t);
    let goes = is_enabled(state, t, &next);
    put_alone(enabled, t, goes);
    end_alone(t, &next, goes, bound, count)
}

// This thread alone, or none.
fn put_alone(enabled: &mut Vec<u32>, t: u32, goes: bool)
    requires { 1 ≤ vec_capacity enabled.old }
    ensures { enabled.new.items ≡ (if goes then t ∷ [] else []) }
{
    enabled.clear();
    if goes {
        enabled.push_reserved(t);
    }
}

// Those that moved in the event.
fn keep_moved(stepped: u32, made: u32, standings: &[Standing], moved: &mut Vec<Standing>)
    requires { length standings.now ≤ vec_capacity moved.old }
    ensures { moved.new.items ≡ filter (has_moved stepped made) standings.now }
{
    moved.clear();
    for a in standings {
        if has_moved(stepped, made, a) {
            moved.push_reserved(*a);
        }
    }
}

// An action that waits for no lock and no thread is enabled.
fn is_enabled(state: &CState, t: u32, next: &Next) -> bool
    requires thread { t < length (shown state.now).threads }
    requires next { next.now ≡ next_of (runs state.now) (shown state.now) t }
    ensures { result ≡ is_enabled (runs state.now) (shown state.now) t }
{
    match next {
        Next::Act(touch) => { (touch.lock.is_none() && touch.child.is_none()) || state.enabled(t) }
        _ => false,
    }
}
