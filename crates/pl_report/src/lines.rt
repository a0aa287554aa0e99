// The line of a refusal.
ghost use Rattle.std.specs.Prelude.{◌≡◌, ◌++◌, IfOk};
ghost use Rattle.pl_report.specs.Lines as text;

use crate::places::{limit_line, placed, placed_text, undone_line};
use crate::refusal::Refusal;
use crate::runs::{bound_line, deadlock_line, differs_line, fault_line, race_line};
use crate::words::kind_word;
use pl_base::Memory;
use pl_words::UsageKind;
use std::alloc::Global;

// `usage: KIND at PLACE`
fn usage_line(alloc: Global, kind: UsageKind, place: u32) -> Result<Vec<u8>, Memory>
    ensures { IfOk result (λ line. line.items ≡ text.usage_line kind place) }
{
    let kind = kind_word(kind);
    Ok(format!(in alloc; "usage: {kind} at {place}\n")?.into_bytes())
}

// A line of words alone.
fn plain_line(alloc: Global, words: &[u8]) -> Result<Vec<u8>, Memory>
    ensures { IfOk result (λ line. line.items ≡ text.plain_line words.now) }
{
    let mut line = Vec::from_slice(alloc, words)?;
    line.push(b'\n')?;
    Ok(line)
}

// `WORDS N`
fn numbered_line(alloc: Global, words: &str, number: u64) -> Result<Vec<u8>, Memory>
    ensures { IfOk result (λ line. line.items ≡ text.numbered_line words.now number) }
{
    Ok(format!(in alloc; "{words} {number}\n")?.into_bytes())
}

// `proof node N breaks RULE`
fn node_line(alloc: Global, node: u32, rule: &[u8]) -> Result<Vec<u8>, Memory>
    ensures { IfOk result (λ line. line.items ≡ text.node_line node rule.now) }
{
    let mut line = format!(in alloc; "proof node {node} breaks ")?.into_bytes();
    line.extend_from_slice(rule)?;
    line.push(b'\n')?;
    Ok(line)
}

/// The line of a refusal, with the end of the line.
///
/// # Errors
///
/// Want of memory.
pub fn line_of(alloc: Global, refusal: &Refusal) -> Result<Vec<u8>, Memory>
    requires { text.IsLine refusal.now }
    ensures { IfOk result (λ line. line.items ≡ text.line_text refusal.now) }
{
    match refusal {
        Refusal::Usage(kind, place) => usage_line(alloc, *kind, *place),
        Refusal::NoMain => plain_line(alloc, b"no main"),
        Refusal::BadUtf8(byte) => numbered_line(alloc, "bad UTF-8 at", u64::from(*byte)),
        Refusal::BadChar(pos) => placed(alloc, *pos, "bad character"),
        Refusal::LongNumber(pos) => placed(alloc, *pos, "long number"),
        Refusal::LongName(pos) => placed(alloc, *pos, "long name"),
        Refusal::Syntax(pos) => placed(alloc, *pos, "syntax"),
        Refusal::Deep(pos) => placed(alloc, *pos, "deep"),
        Refusal::Unknown(pos) => placed(alloc, *pos, "unknown name"),
        Refusal::Twice(pos) => placed(alloc, *pos, "name twice"),
        Refusal::IllTyped(pos) => placed(alloc, *pos, "ill typed"),
        Refusal::GhostFlow(pos) => placed(alloc, *pos, "ghost flow"),
        Refusal::Opening(pos) => placed(alloc, *pos, "opening"),
        Refusal::Measure(pos) => placed(alloc, *pos, "measure"),
        Refusal::Missing(pos, text) => placed_text(alloc, *pos, "missing ", text.as_slice()),
        Refusal::Undone(pos, text, at) => {
            undone_line(alloc, *pos, text.as_slice(), at.as_slice())
        }
        Refusal::Leftover(pos, text) => placed_text(alloc, *pos, "leftover ", text.as_slice()),
        Refusal::Undecided(pos, text) => placed_text(alloc, *pos, "undecided ", text.as_slice()),
        Refusal::Unsolved(pos, name) => {
            placed_text(alloc, *pos, "unsolved ", name.text().as_bytes())
        }
        Refusal::Permission(pos, name) => {
            placed_text(alloc, *pos, "permission ", name.text().as_bytes())
        }
        Refusal::Limit(pos, kind, size) => limit_line(alloc, *pos, kind.as_slice(), *size),
        Refusal::LimitFile(size) => numbered_line(alloc, "limit file", *size),
        Refusal::LimitInput(size) => numbered_line(alloc, "limit input", *size),
        Refusal::LimitThreads => plain_line(alloc, b"limit threads 1024"),
        Refusal::LimitGhost => plain_line(alloc, b"limit ghost number"),
        Refusal::CByte(byte) => numbered_line(alloc, "C byte", u64::from(*byte)),
        Refusal::ProofByte(byte) => numbered_line(alloc, "proof byte", u64::from(*byte)),
        Refusal::HistoryLine(line) => numbered_line(alloc, "history line", u64::from(*line)),
        Refusal::InputLine(line) => numbered_line(alloc, "input line", u64::from(*line)),
        Refusal::ProofNode(node, rule) => node_line(alloc, *node, rule.as_slice()),
        Refusal::Differs(k, expected, found) => {
            differs_line(alloc, *k, expected, found.as_slice())
        }
        Refusal::Deadlock(events) => deadlock_line(alloc, *events),
        Refusal::Bound(events) => bound_line(alloc, *events),
        Refusal::Race(s, t, cell, events) => race_line(alloc, *s, *t, *cell, *events),
        Refusal::Faulted(thread, fault, events) => fault_line(alloc, *thread, *fault, *events),
    }
}
