// Lines about runs and replays.
ghost use Rattle.std.specs.Prelude.{◌≡◌, ◌++◌, IfOk, OnOk, codes};
ghost use Rattle.pl_report.specs.Lines as text;

use crate::words::fault_words;
use pl_base::{Items, Memory};
use pl_resource::{Cell, Fault};
use std::alloc::Global;

// `WORDS after N events`
fn after_events(alloc: Global, words: &[u8], events: u32) -> Result<Vec<u8>, Memory>
    ensures { IfOk result (λ line. line.items ≡ text.after_events words.now events) }
{
    let mut line = Vec::from_slice(alloc, words)?;
    let count = format!(in alloc; " after {events} events\n")?.into_bytes();
    line.extend_from_slice(count.as_slice())?;
    Ok(line)
}

/// `deadlock after N events`
pub fn deadlock_line(alloc: Global, events: u32) -> Result<Vec<u8>, Memory>
    ensures { IfOk result (λ line. line.items ≡ text.after_events (codes "deadlock") events) }
{
    after_events(alloc, b"deadlock", events)
}

/// `bound after N events`
pub fn bound_line(alloc: Global, events: u32) -> Result<Vec<u8>, Memory>
    ensures { IfOk result (λ line. line.items ≡ text.after_events (codes "bound") events) }
{
    after_events(alloc, b"bound", events)
}

// `race of S and T at CELL`
fn race_text(alloc: Global, s: u32, t: u32, cell: Cell) -> Result<Vec<u8>, Memory>
    ensures { IfOk result (λ words. words.items ≡ text.race_text s t cell) }
{
    let (block, index, field) = (cell.block, cell.index, cell.field);
    let mut words = format!(in alloc; "race of {s} and {t} at ")?.into_bytes();
    let place = format!(in alloc; "b{block}.{index}.{field}")?.into_bytes();
    words.extend_from_slice(place.as_slice())?;
    Ok(words)
}

/// `race of S and T at CELL after N events`
pub fn race_line(alloc: Global, s: u32, t: u32, cell: Cell, events: u32) -> Result<Vec<u8>, Memory>
    ensures { IfOk result (λ line. line.items ≡ text.after_events (text.race_text s t cell) events) }
{
    let words = race_text(alloc, s, t, cell)?;
    after_events(alloc, words.as_slice(), events)
}

// `fault of T: WORDS`
fn fault_text(alloc: Global, thread: u32, fault: Fault) -> Result<Vec<u8>, Memory>
    requires { text.HasWords fault }
    ensures { IfOk result (λ words. words.items ≡ text.fault_text thread fault) }
{
    let words = fault_words(fault);
    Ok(format!(in alloc; "fault of {thread}: {words}")?.into_bytes())
}

/// `fault of T: WORDS after N events`
pub fn fault_line(alloc: Global, thread: u32, fault: Fault, events: u32) -> Result<Vec<u8>, Memory>
    requires { text.HasWords fault }
    ensures { IfOk result (λ line. line.items ≡ text.after_events (text.fault_text thread fault) events) }
{
    let words = fault_text(alloc, thread, fault)?;
    after_events(alloc, words.as_slice(), events)
}

fn put_expected(line: &mut Vec<u8>, expected: &Option<Items<u8>>) -> Result<(), Memory>
    ensures { OnOk result (line.new.items ≡ line.old.items ++ text.expected_text expected.now) }
{
    match expected {
        None => line.extend_from_slice(b"nothing")?,
        Some(event) => line.extend_from_slice(event.as_slice())?,
    }
    Ok(())
}

/// `differs at K: expected E, found F`
pub fn differs_line(
    alloc: Global,
    k: u32,
    expected: &Option<Items<u8>>,
    found: &[u8],
) -> Result<Vec<u8>, Memory>
    ensures { IfOk result (λ line. line.items ≡ text.differs_line k expected.now found.now) }
{
    let mut line = format!(in alloc; "differs at {k}: expected ")?.into_bytes();
    put_expected(&mut line, expected)?;
    line.extend_from_slice(b", found ")?;
    line.extend_from_slice(found)?;
    line.push(b'\n')?;
    Ok(line)
}
