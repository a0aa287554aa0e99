//! Histories.

ghost use Rattle.std.specs.Prelude.{◌≡◌, ◌<◌, ◌-◌, ◌^◌, IfOk, IfErr, length};
ghost use Rattle.pl_readers.specs.Given.{Gives};
ghost use Rattle.c_meaning.specs.declared.action.History.{History};
ghost use Rattle.c_history.specs.Text.{history_text};
ghost use Rattle.c_history.specs.Bounds.{IsWithin};
ghost use Rattle.c_history.specs.Lines.{error_at, IfBadHistory, IsReadAs, IsRefusedLine, IsTextOf};
ghost use Rattle.c_history.specs.Readers as read;

use crate::actions::action;
use crate::error::HistoryError;
use crate::fields::{byte, numbered, unsigned};
use c_meaning::{Event, History};
use pl_base::{Items, Memory};
use pl_readers::bytes::word;
use pl_readers::{ReadError, refused};
use std::alloc::Global;

/// The line of an event, and what stands behind it.
#[tactic(auto, unfolding(crate::specs::Readers::line))]
fn line(bytes: &[u8]) -> Result<(Event, &[u8]), ReadError>
    ensures { Gives (λ x. (x.0, x.1.now)) result (read.line bytes.now) }
{
    let (tid, rest) = unsigned(bytes)?;
    let (action, rest) = action(byte(rest, b' ')?)?;
    Ok((Event { tid, action }, byte(rest, b'\n')?))
}

/// The events of all lines from here on that are lines of events, and what stands behind them.
fn events(alloc: Global, bytes: &[u8]) -> Result<(Vec<Event>, &[u8]), Memory>
    ensures { IfOk result (λ x. read.AreLines bytes.now x.0.items x.1.now) }
{
    let mut events = Vec::new(alloc);
    let mut rest = bytes;
    'lines: loop {
        match line(rest) {
            Ok((event, after)) => {
                events.push(event)?;
                rest = after;
            }
            Err(ReadError::Stop(_)) => return Ok((events, rest)),
            Err(ReadError::Memory) => return Err(Memory),
        }
    }
}

/// What stands behind the last line.
#[tactic(auto, unfolding(crate::specs::Readers::last))]
fn last(bytes: &[u8], count: u32) -> Result<&[u8], ReadError>
    ensures { Gives (λ x. (tt, x.now)) result (read.last count bytes.now) }
{
    let (n, rest) = numbered(bytes, b"end ")?;
    if n == count {
        word(rest, b"\n")
    } else {
        Err(refused(rest))
    }
}

fn at_line(error: ReadError, line: u32) -> HistoryError
    ensures { result ≡ error_at error line }
{
    match error {
        ReadError::Memory => HistoryError::Memory,
        ReadError::Stop(_) => HistoryError::BadHistory(line),
    }
}

/// The history of which the bytes are the text. `BadHistory` names the first line, from 1, that no history has; a last
/// line with another count, one that isn't ended by LF, and one that is missing count. `Memory` comes only for want of memory.
pub fn read_history(alloc: Global, bytes: &[u8]) -> Result<History, HistoryError>
    requires { length bytes.now < 2 ^ 32 - 1 }
    ensures within { IfOk result IsWithin }
    ensures text { IfOk result (λ h. bytes.now ≡ history_text h) }
    ensures refused { IfErr result (λ e. IfBadHistory e (IsRefusedLine bytes.now)) }
    ensures exact { (h : History) → IsTextOf h bytes.now → IsReadAs result h }
{
    let rest = match word(bytes, b"pulse-history 1\n") {
        Ok(rest) => rest,
        Err(error) => return Err(at_line(error, 1)),
    };
    let (events, rest) = events(alloc, rest)?;
    let count = events.len() as u32;
    let rest = match last(rest, count) {
        Ok(rest) => rest,
        Err(error) => return Err(at_line(error, count + 2)),
    };
    if !rest.is_empty() {
        return Err(HistoryError::BadHistory(count + 3));
    }
    Ok(History {
        events: Items::of(events),
    })
}
