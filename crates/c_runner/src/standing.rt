// What threads stand before, and what follows from it.
ghost use Rattle.std.specs.Prelude.{◌≡◌, false, None, Some, [], ◌∷◌, nat_le, if◌then◌else◌};
ghost use Rattle.c_meaning.specs.Steps.{race_of, race_by, conflict, same_cell};
ghost use Rattle.c_runner.specs.declared.run_end.RunEnd.TheVariants.{StepBound};
ghost use Rattle.c_runner.specs.Standings.{touches, is_fork, race_with, race_behind, has_moved, race_moved, fault_among, forks_among, end_with};

use crate::run_end::RunEnd;
use c_meaning::{Next, Touch};
use pl_resource::{Cell, Fault};

/// A thread that hasn't ended, and what it stands before.
#[derive(Clone, Copy, PartialEq, Eq, Debug)]
pub(crate) struct Standing {
    pub(crate) tid: u32,
    pub(crate) next: Next,
}

fn same_cell(a: Cell, b: Cell) -> bool
    ensures { result ≡ same_cell a b }
{
    a.block == b.block && a.index == b.index && a.field == b.field
}

fn conflict(s: &Touch, t: &Touch) -> bool
    ensures { result ≡ conflict s.now t.now }
{
    (s.writes || t.writes) && !(s.atomic && t.atomic)
}

// The cell at which two actions race (C11 5.1.2.4).
fn race_by(s: &Touch, t: &Touch) -> Option<Cell>
    ensures { result ≡ race_by s.now t.now s.now.cell t.now.cell s.now.block t.now.block }
{
    match (s.cell, t.cell, s.block, t.block) {
        (Some(a), Some(b), _, _) => {
            if conflict(s, t) && same_cell(a, b) {
                Some(a)
            } else {
                None
            }
        }
        (Some(a), None, _, Some(k)) => if a.block == k { Some(a) } else { None },
        (None, Some(b), Some(k), _) => if b.block == k { Some(b) } else { None },
        (None, None, Some(j), Some(k)) => {
            if j == k {
                Some(Cell {
                    block: j,
                    index: 0,
                    field: 0,
                })
            } else {
                None
            }
        }
        _ => None,
    }
}

fn race_of(a: &Next, b: &Next) -> Option<Cell>
    ensures { result ≡ race_of a.now b.now }
{
    match (a, b) {
        (Next::Act(s), Next::Act(t)) => race_by(s, t),
        _ => None,
    }
}

fn touches(next: &Next) -> bool
    ensures { result ≡ touches next.now }
{
    match next {
        Next::Act(touch) => touch.cell.is_some() || touch.block.is_some(),
        _ => false,
    }
}

fn is_fork(next: &Next) -> bool
    ensures { result ≡ is_fork next.now }
{
    match next {
        Next::Act(touch) => touch.forks,
        _ => false,
    }
}

// The first of these that races with a thread.
fn race_with(a: &Standing, others: &[Standing]) -> Option<(u32, u32, Cell)>
    ensures { result ≡ race_with a.now others.now }
{
    for b in others {
        if let Some(cell) = race_of(&a.next, &b.next) {
            return Some((a.tid, b.tid, cell));
        }
    }
    None
}

fn race_if_touching(a: &Standing, others: &[Standing]) -> Option<(u32, u32, Cell)>
    ensures { result ≡ race_with a.now others.now }
{
    if touches(&a.next) {
        race_with(a, others)
    } else {
        None
    }
}

// The first of these behind a thread that races with it.
fn race_behind(a: &Standing, others: &[Standing]) -> Option<(u32, u32, Cell)>
    ensures { result ≡ race_behind a.now others.now }
{
    for b in others {
        if a.tid < b.tid {
            if let Some(cell) = race_of(&a.next, &b.next) {
                return Some((a.tid, b.tid, cell));
            }
        }
    }
    None
}

/// Whether a thread has moved in an event: it was stepped, or made.
pub(crate) fn has_moved(stepped: u32, made: u32, a: &Standing) -> bool
    ensures { result ≡ has_moved stepped made a.now }
{
    a.tid == stepped || made <= a.tid
}

// The first thread that races with this one, behind it: of those that follow, or of those that have moved.
fn race_from(
    stepped: u32,
    made: u32,
    moved: &[Standing],
    a: &Standing,
    others: &[Standing],
) -> Option<(u32, u32, Cell)>
    ensures { result ≡ (if has_moved stepped made a.now then race_with a.now others.now else race_behind a.now moved.now) }
{
    if has_moved(stepped, made, a) {
        race_if_touching(a, others)
    } else {
        race_behind(a, moved)
    }
}

/// The first pair that races. A thread that hasn't moved is compared with those that have alone.
pub(crate) fn race_moved(
    stepped: u32,
    made: u32,
    moved: &[Standing],
    standings: &[Standing],
) -> Option<(u32, u32, Cell)>
    ensures { result ≡ race_moved stepped made moved.now standings.now }
{
    for i in 0..standings.len() {
        if let Some(found) = race_from(stepped, made, moved, &standings[i], &standings[i + 1..]) {
            return Some(found);
        }
    }
    None
}

fn fault_among(standings: &[Standing]) -> Option<(u32, Fault)>
    ensures { result ≡ fault_among standings.now }
{
    for a in standings {
        if let Next::Fault(fault) = a.next {
            return Some((a.tid, fault));
        }
    }
    None
}

fn forks_among(standings: &[Standing]) -> bool
    ensures { result ≡ forks_among standings.now }
{
    for a in standings {
        if is_fork(&a.next) {
            return true;
        }
    }
    false
}

// The end by how many events there are, if it holds.
fn bound_end(bound: u32, count: usize) -> Option<RunEnd>
    ensures { result ≡ (if nat_le bound count then Some StepBound else None) }
{
    if bound as usize <= count {
        return Some(RunEnd::StepBound);
    }
    None
}

/// The first end that holds, by the first race, by what the threads that haven't ended stand before, by those that are enabled, and
/// by how many events there are.
pub(crate) fn end_with(
    race: Option<(u32, u32, Cell)>,
    standings: &[Standing],
    enabled: &[u32],
    bound: u32,
    count: usize,
) -> Option<RunEnd>
    ensures { result ≡ end_with race standings.now enabled.now bound count }
{
    if standings.is_empty() {
        return Some(RunEnd::Ended);
    }
    if let Some((s, t, cell)) = race {
        return Some(RunEnd::Race(s, t, cell));
    }
    if let Some((t, fault)) = fault_among(standings) {
        return Some(RunEnd::CFault(t, fault));
    }
    if enabled.is_empty() {
        return Some(RunEnd::Deadlock);
    }
    if 1024 <= standings.len() && forks_among(standings) {
        return Some(RunEnd::ThreadLimit);
    }
    bound_end(bound, count)
}

/// The same where one thread hasn't ended, which is enabled or not.
pub(crate) fn end_alone(
    tid: u32,
    next: &Next,
    enabled: bool,
    bound: u32,
    count: usize,
) -> Option<RunEnd>
    ensures { result ≡ end_with None (record { tid = tid; next = next.now } ∷ []) (if enabled then tid ∷ [] else []) bound count }
{
    if let Next::Fault(fault) = next {
        return Some(RunEnd::CFault(tid, *fault));
    }
    if !enabled {
        return Some(RunEnd::Deadlock);
    }
    bound_end(bound, count)
}
