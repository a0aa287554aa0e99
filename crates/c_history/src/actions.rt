//! Actions.

ghost use Rattle.std.specs.Prelude.{◌≡◌, ◌≤◌, codes, length, take, drop};
ghost use Rattle.pl_readers.specs.Given.{Gives};
ghost use Rattle.c_history.specs.Readers as read;

use crate::fields::{byte, cell, marked, numbered, signed, truth, value};
use crate::verbs::{Verb, verb_of};
use c_meaning::Action;
use pl_readers::{ReadError, refused};
use pl_resource::{Cell, Value};

/// A cell and a value.
#[tactic(auto, unfolding(crate::specs::Readers::access))]
fn access(bytes: &[u8]) -> Result<(Cell, Value, &[u8]), ReadError>
    ensures { Gives (λ x. ((x.0, x.1), x.2.now)) result (read.access bytes.now) }
{
    let (cell, rest) = cell(byte(bytes, b' ')?)?;
    let (value, rest) = value(byte(rest, b' ')?)?;
    Ok((cell, value, rest))
}

/// The cell of a compare-and-swap, the number that it saw, and whether it stored.
#[tactic(auto, unfolding(crate::specs::Readers::swap))]
fn swap(bytes: &[u8]) -> Result<(Cell, i64, bool, &[u8]), ReadError>
    ensures { Gives (λ x. ((x.0, (x.1, x.2)), x.3.now)) result (read.swap bytes.now) }
{
    let (cell, rest) = cell(byte(bytes, b' ')?)?;
    let (seen, rest) = signed(byte(rest, b' ')?)?;
    let (stored, rest) = truth(byte(rest, b' ')?)?;
    Ok((cell, seen, stored, rest))
}

/// A block, and the count of its elements.
#[tactic(auto, unfolding(crate::specs::Readers::made))]
fn made(bytes: &[u8]) -> Result<(u32, u32, &[u8]), ReadError>
    ensures { Gives (λ x. ((x.0, x.1), x.2.now)) result (read.made bytes.now) }
{
    let (block, rest) = numbered(bytes, b" b")?;
    let (count, rest) = marked(rest, b' ')?;
    Ok((block, count, rest))
}

/// A number of 64 bits behind a blank.
fn spaced(bytes: &[u8]) -> Result<(i64, &[u8]), ReadError>
    ensures { Gives (λ x. (x.0, x.1.now)) result (read.behind (codes " ") read.signed bytes.now) }
{
    signed(byte(bytes, b' ')?)
}

/// What stands behind a verb.
#[tactic(auto, unfolding(crate::specs::Readers::arguments))]
fn arguments(verb: Verb, rest: &[u8]) -> Result<(Action, &[u8]), ReadError>
    ensures { Gives (λ x. (x.0, x.1.now)) result (read.arguments verb rest.now) }
{
    match verb {
        Verb::Load => access(rest).map(|(cell, value, rest)| (Action::Load(cell, value), rest)),
        Verb::Store => access(rest).map(|(cell, value, rest)| (Action::Store(cell, value), rest)),
        Verb::Cas => swap(rest).map(|(cell, seen, stored, rest)| (
            Action::Cas(cell, seen, stored),
            rest,
        )),
        Verb::Alloc => made(rest).map(|(block, count, rest)| (Action::Alloc(block, count), rest)),
        Verb::Free => numbered(rest, b" b").map(|(block, rest)| (Action::Free(block), rest)),
        Verb::NewLock => numbered(rest, b" k").map(|(lock, rest)| (Action::NewLock(lock), rest)),
        Verb::Acquire => numbered(rest, b" k").map(|(lock, rest)| (Action::Acquire(lock), rest)),
        Verb::Release => numbered(rest, b" k").map(|(lock, rest)| (Action::Release(lock), rest)),
        Verb::FreeLock => numbered(rest, b" k").map(|(lock, rest)| (Action::FreeLock(lock), rest)),
        Verb::Fork => marked(rest, b' ').map(|(child, rest)| (Action::Fork(child), rest)),
        Verb::Join => marked(rest, b' ').map(|(child, rest)| (Action::Join(child), rest)),
        Verb::Print => spaced(rest).map(|(n, rest)| (Action::Print(n), rest)),
        Verb::Read => spaced(rest).map(|(n, rest)| (Action::Read(n), rest)),
        Verb::Turn => Ok((Action::Turn, rest)),
        Verb::Call => marked(rest, b' ').map(|(function, rest)| (Action::Call(function), rest)),
        Verb::Return => Ok((Action::Return, rest)),
    }
}

/// How many lower letters stand in front.
fn letters(bytes: &[u8]) -> usize
    ensures value { result ≡ read.verb_len bytes.now }
    ensures within { result ≤ length bytes.now }
{
    bytes.iter().take_while(|b| b.is_ascii_lowercase()).count()
}

fn spelled(word: &[u8]) -> Option<Verb>
    ensures { result ≡ read.verb_of word.now }
{
    match str::from_utf8(word) {
        Ok(text) => verb_of(text),
        Err(_) => None,
    }
}

/// The verb that a word is. The four of a loop's events are most of a long history, and no text is made of them.
#[tactic(auto, unfolding(crate::specs::Readers::verb_of))]
fn verb(word: &[u8]) -> Option<Verb>
    ensures { result ≡ read.verb_of word.now }
{
    match word {
        b"turn" => Some(Verb::Turn),
        b"load" => Some(Verb::Load),
        b"store" => Some(Verb::Store),
        b"call" => Some(Verb::Call),
        _ => spelled(word),
    }
}

/// An action, and what stands behind it.
#[tactic(auto, unfolding(crate::specs::Readers::action))]
pub(crate) fn action(bytes: &[u8]) -> Result<(Action, &[u8]), ReadError>
    ensures { Gives (λ x. (x.0, x.1.now)) result (read.action bytes.now) }
{
    let (word, rest) = bytes.split_at(letters(bytes));
    match verb(word) {
        Some(verb) => arguments(verb, rest),
        None => Err(refused(rest)),
    }
}
