// The command at the end of the words.
ghost use Rattle.std.specs.Prelude.{◌≡◌, IfOk};
ghost use Rattle.std.specs.Option.{option_copied};
ghost use Rattle.pl_words.specs.Words as rule;
ghost use Rattle.pl_words.specs.Words.{Tells};
ghost use Rattle.pl_words.specs.Steps.{TellsText, said_of};

use crate::command::{Command, RunOpts, UsageKind, WordError};
use crate::reading::{Read, refused};
use crate::table::Verb;
use pl_base::{Memory, Name};
use std::alloc::Global;

const DEFAULT_STEPS: u32 = 1_000_000;

const DEFAULT_WORKERS: u32 = 2;

const DEFAULT_JOBS: u32 = 1;

/// A text that a command needs.
fn needed<'a>(place: u32, text: Option<&'a str>) -> Result<&'a str, WordError>
    ensures { TellsText result (rule.needed place (option_copied text.entry)) }
{
    match text {
        Some(text) => Ok(text),
        None => refused(UsageKind::MissingWord, place),
    }
}

fn needed_count(place: u32, count: Option<u32>) -> Result<u32, WordError>
    ensures { result ≡ rule.needed place count }
{
    match count {
        Some(count) => Ok(count),
        None => refused(UsageKind::MissingWord, place),
    }
}

fn run_of(alloc: Global, read: Read<'_>) -> Result<RunOpts, Memory>
    ensures { IfOk result (λ run. run ≡ rule.run_of (said_of read.entry)) }
{
    let history = match read.history {
        Some(file) => Some(Name::of(alloc, file)?),
        None => None,
    };
    Ok(RunOpts {
        steps: read.steps.unwrap_or(DEFAULT_STEPS),
        workers: read.workers.unwrap_or(DEFAULT_WORKERS),
        history,
    })
}

fn file(alloc: Global, place: u32, read: Read<'_>) -> Result<Name, WordError>
    ensures { Tells result (rule.needed place (said_of read.entry).first) }
{
    let file = needed(place, read.first)?;
    Ok(Name::of(alloc, file)?)
}

fn two_files(alloc: Global, place: u32, read: Read<'_>) -> Result<(Name, Name), WordError>
    ensures { Tells result (rule.both place (said_of read.entry).first (said_of read.entry).second) }
{
    let file = needed(place, read.first)?;
    let other = needed(place, read.second)?;
    Ok((Name::of(alloc, file)?, Name::of(alloc, other)?))
}

fn file_and_output(alloc: Global, place: u32, read: Read<'_>) -> Result<(Name, Name), WordError>
    ensures { Tells result (rule.both place (said_of read.entry).first (said_of read.entry).output) }
{
    let file = needed(place, read.first)?;
    let output = needed(place, read.output)?;
    Ok((Name::of(alloc, file)?, Name::of(alloc, output)?))
}

/// The command, at the end of so many words.
pub fn made(alloc: Global, verb: Verb, place: u32, read: Read<'_>) -> Result<Command, WordError>
    ensures { Tells result (rule.made verb place (said_of read.entry)) }
{
    match verb {
        Verb::Check => {
            let source = file(alloc, place, read)?;
            Ok(Command::Check(source, read.jobs.unwrap_or(DEFAULT_JOBS)))
        }
        Verb::Emit => {
            let (source, output) = file_and_output(alloc, place, read)?;
            Ok(Command::Emit(source, output))
        }
        Verb::Prove => {
            let (source, output) = file_and_output(alloc, place, read)?;
            Ok(Command::Prove(source, output))
        }
        Verb::Verify => {
            let (source, proof) = two_files(alloc, place, read)?;
            Ok(Command::Verify(source, proof))
        }
        Verb::Fmt => Ok(Command::Fmt(file(alloc, place, read)?)),
        Verb::Ghost => Ok(Command::Ghost(file(alloc, place, read)?)),
        Verb::Run => {
            let text = file(alloc, place, read)?;
            Ok(Command::Run(text, run_of(alloc, read)?))
        }
        Verb::Replay => {
            let (text, history) = two_files(alloc, place, read)?;
            Ok(Command::Replay(text, history))
        }
        Verb::Go => {
            let (source, output) = file_and_output(alloc, place, read)?;
            Ok(Command::Go(source, output, run_of(alloc, read)?))
        }
        Verb::Bench => Ok(Command::Bench(needed_count(place, read.count)?)),
        Verb::Races => {
            let (text, history) = two_files(alloc, place, read)?;
            Ok(Command::Races(text, history))
        }
    }
}
