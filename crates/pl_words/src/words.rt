// The command of all the words.
ghost use Rattle.std.specs.Prelude.{IfOk, map, string_bytes};
ghost use Rattle.pl_words.specs.Words as rule;
ghost use Rattle.pl_words.specs.Words.{Tells};
ghost use Rattle.pl_words.specs.Ranges.{IsInRange};

use crate::command::{Command, UsageKind, WordError};
use crate::making::made;
use crate::reading::{NOTHING, is_dashed, option_word, plain_word, refused};
use crate::table::{Verb, verb_named};
use std::alloc::Global;

/// The command that the words behind its own give.
fn behind(alloc: Global, verb: Verb, words: &[String]) -> Result<Command, WordError>
    ensures { Tells result (rule.from verb 1 rule.nothing (map string_bytes words.now)) }
{
    let row = verb.row();
    let mut read = NOTHING;
    // Each word that is taken fills a field of its own, so no place is above 14.
    let mut place = 1;
    let mut rest = words;
    while let [word, after @ ..] = rest {
        let word = word.as_str();
        if is_dashed(word) {
            match after {
                [] => {
                    read = option_word(row, place, read, word, None)?;
                    place += 1;
                    rest = after;
                }
                [value, more @ ..] => {
                    read = option_word(row, place, read, word, Some(value.as_str()))?;
                    place += 2;
                    rest = more;
                }
            }
        } else {
            read = plain_word(row.plain, place, read, word)?;
            place += 1;
            rest = after;
        }
    }
    made(alloc, verb, place, read)
}

/// The command that the words give, or the first wrong word.
///
/// The first word names the command: `check F [--jobs N]`, `emit F -o C`, `prove F -o D`, `verify F D`, `fmt F`,
/// `ghost F`, `run C [--steps N] [--workers W] [--history H]`, `replay C H`,
/// `go F -o C [--steps N] [--workers W] [--history H]`, `bench K` or `races C H`. An option takes the next word as its
/// value, and may stand before, between or behind the file words. Words are looked at from left to right.
///
/// # Errors
///
/// [`WordError::Usage`] says why the first wrong word is refused, and its place from 0. Of several reasons at one word
/// the first in the order of [`UsageKind`] is told.
pub fn read_words(alloc: Global, words: &[String]) -> Result<Command, WordError>
    ensures told { Tells result (rule.command_of (map string_bytes words.now)) }
    ensures in_range { IfOk result IsInRange }
{
    match words {
        [] => refused(UsageKind::NoCommand, 0),
        [first, rest @ ..] => match verb_named(first.as_str()) {
            Some(verb) => behind(alloc, verb, rest),
            None => refused(UsageKind::UnknownCommand, 0),
        },
    }
}
