// The lines that are printed: those of refusals, and those that are none.
ghost use Rattle.std.specs.Prelude.{◌≡◌, ◌++◌, IfOk, codes, option_map};
ghost use Rattle.c_history.specs.Text.{event_text};
ghost use Rattle.pl_report.specs.Lines.{line_text, placed, IsLine};
ghost use Rattle.pl_report.specs.declared.refusal.Refusal.TheVariants as r;
ghost use Rattle.pl_top.specs.Lines as text;
ghost use Rattle.pl_top.specs.Judging.{IsReason};

use c_history::event_line;
use c_meaning::Event;
use c_runner::RunEnd;
use pl_base::{Items, Memory, Pos};
use pl_files::FileError;
use pl_report::{Refusal, line_of};
use pl_walk::Duty;
use std::alloc::Global;

/// `accepted`
pub fn accepted() -> &'static [u8]
    ensures { result.now ≡ text.accepted }
{
    b"accepted\n"
}

// `LINE:COLUMN: WORDS`
fn placed(alloc: Global, pos: Pos, words: &str) -> Result<Vec<u8>, Memory>
    ensures { IfOk result (λ line. line.items ≡ placed pos words.now) }
{
    let (at, column) = (pos.line, pos.col);
    let mut line = format!(in alloc; "{at}:{column}: {words}")?.into_bytes();
    line.push(b'\n')?;
    Ok(line)
}

/// `LINE:COLUMN: not built`
pub fn not_built_line(alloc: Global, pos: Pos) -> Result<Vec<u8>, Memory>
    ensures { IfOk result (λ line. line.items ≡ text.not_built_line pos) }
{
    placed(alloc, pos, "not built")
}

/// A number that was printed.
pub fn number_line(alloc: Global, number: i64) -> Result<Vec<u8>, Memory>
    ensures { IfOk result (λ line. line.items ≡ text.number_line number) }
{
    Ok(format!(in alloc; "{number}\n")?.into_bytes())
}

/// `follows N events`
pub fn follows_line(alloc: Global, events: u32) -> Result<Vec<u8>, Memory>
    ensures { IfOk result (λ line. line.items ≡ text.follows_line events) }
{
    Ok(format!(in alloc; "follows {events} events\n")?.into_bytes())
}

// More declarations than may be.
fn too_many(alloc: Global, pos: Pos) -> Result<Refusal, Memory>
    ensures { IfOk result (λ refusal. refusal ≡ r.Limit pos (codes "declarations") 4097) }
{
    let kind = Vec::from_slice(alloc, b"declarations")?;
    Ok(Refusal::Limit(pos, Items::of(kind), 4097))
}

// Why a file isn't read, as a refusal.
fn file_refusal(alloc: Global, error: &FileError) -> Result<Refusal, Memory>
    ensures reason { IfOk result (λ _. IsReason error.now) }
    ensures line { IfOk result (λ refusal. line_text refusal ≡ text.file_line error.now) }
    ensures has { IfOk result IsLine }
{
    match error {
        FileError::BadUtf8(byte) => Ok(Refusal::BadUtf8(*byte)),
        FileError::BadChar(pos) => Ok(Refusal::BadChar(*pos)),
        FileError::LongNumber(pos) => Ok(Refusal::LongNumber(*pos)),
        FileError::LongName(pos) => Ok(Refusal::LongName(*pos)),
        FileError::Syntax(pos) => Ok(Refusal::Syntax(*pos)),
        FileError::Deep(pos) => Ok(Refusal::Deep(*pos)),
        FileError::TooMany(pos) => too_many(alloc, *pos),
        FileError::Unknown(pos) => Ok(Refusal::Unknown(*pos)),
        FileError::Twice(pos) => Ok(Refusal::Twice(*pos)),
        FileError::IllTyped(pos) => Ok(Refusal::IllTyped(*pos)),
        FileError::GhostFlow(pos) => Ok(Refusal::GhostFlow(*pos)),
        FileError::Opening(pos) => Ok(Refusal::Opening(*pos)),
        FileError::Measure(pos) => Ok(Refusal::Measure(*pos)),
        FileError::NoMain => Ok(Refusal::NoMain),
        FileError::Memory => Err(Memory),
    }
}

/// Why a file isn't read.
///
/// # Errors
///
/// Want of memory, also where that is why.
pub fn file_line(alloc: Global, error: &FileError) -> Result<Vec<u8>, Memory>
    ensures reason { IfOk result (λ _. IsReason error.now) }
    ensures line { IfOk result (λ line. line.items ≡ text.file_line error.now) }
{
    let refusal = file_refusal(alloc, error)?;
    line_of(alloc, &refusal)
}

// A duty that is left undone, as a refusal.
fn duty_refusal(pos: Pos, duty: Duty) -> Refusal
    ensures line { line_text result ≡ text.duty_line pos duty }
    ensures has { IsLine result }
{
    match duty {
        Duty::Missing(words) => Refusal::Missing(pos, words),
        Duty::Leftover(words) => Refusal::Leftover(pos, words),
    }
}

/// `LINE:COLUMN: missing TEXT` or `LINE:COLUMN: leftover TEXT`
pub fn duty_line(alloc: Global, pos: Pos, duty: Duty) -> Result<Vec<u8>, Memory>
    ensures { IfOk result (λ line. line.items ≡ text.duty_line pos duty) }
{
    let refusal = duty_refusal(pos, duty);
    line_of(alloc, &refusal)
}

/// The line of an end after so many events: none where the run came to its end.
pub fn end_line(alloc: Global, end: RunEnd, events: u32) -> Result<Vec<u8>, Memory>
    requires { text.HasLine end }
    ensures { IfOk result (λ line. line.items ≡ text.end_line events end) }
{
    match end {
        RunEnd::Ended => Ok(Vec::new(alloc)),
        RunEnd::Race(s, t, cell) => line_of(alloc, &Refusal::Race(s, t, cell, events)),
        RunEnd::CFault(thread, fault) => {
            line_of(alloc, &Refusal::Faulted(thread, fault, events))
        }
        RunEnd::Deadlock => line_of(alloc, &Refusal::Deadlock(events)),
        RunEnd::ThreadLimit => line_of(alloc, &Refusal::LimitThreads),
        RunEnd::StepBound => line_of(alloc, &Refusal::Bound(events)),
    }
}

// The text of an event, if there is one.
fn expected_text(alloc: Global, expected: &Option<Event>) -> Result<Option<Items<u8>>, Memory>
    ensures { IfOk result (λ words. words ≡ option_map event_text expected.now) }
{
    match expected {
        None => Ok(None),
        Some(event) => Ok(Some(Items::of(event_line(alloc, event)?))),
    }
}

/// `differs at K: expected E, found F`
pub fn differs_line(
    alloc: Global,
    k: u32,
    expected: &Option<Event>,
    found: &Event,
) -> Result<Vec<u8>, Memory>
    ensures { IfOk result (λ line. line.items ≡ text.differs_line k expected.now found.now) }
{
    let expected = expected_text(alloc, expected)?;
    let found = Items::of(event_line(alloc, found)?);
    line_of(alloc, &Refusal::Differs(k, expected, found))
}
