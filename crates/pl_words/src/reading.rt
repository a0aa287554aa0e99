// The steps of the reader: a plain word, and an option with its value.
ghost use Rattle.std.specs.Prelude.{◌≡◌, ◌+◌, ◌<◌, IfOk, Err, Option, map, option_map, string_bytes};
ghost use Rattle.std.specs.Option.{option_copied};
ghost use Rattle.pl_words.specs.Words as rule;
ghost use Rattle.pl_words.specs.Table as table;
ghost use Rattle.pl_words.specs.Steps.{TellsRead, TellsText, said_of, taken};

use crate::command::{UsageKind, WordError};
use crate::numbers::number_of;
use crate::table::{Opt, Plain, Row, option_named};

const MOST_STEPS: u32 = 4_000_000;

const MOST_WORKERS: u32 = 64;

const MOST_JOBS: u32 = 64;

const MOST_COUNT: u32 = 1_000;

/// What the words behind the command said so far.
#[derive(Clone, Copy)]
pub struct Read<'a> {
    pub first: Option<&'a str>,
    pub second: Option<&'a str>,
    pub count: Option<u32>,
    pub output: Option<&'a str>,
    pub steps: Option<u32>,
    pub workers: Option<u32>,
    pub history: Option<&'a str>,
    pub jobs: Option<u32>,
}

/// What is read before the first word.
pub const NOTHING: Read<'static> = Read {
    first: None,
    second: None,
    count: None,
    output: None,
    steps: None,
    workers: None,
    history: None,
    jobs: None,
};

pub fn refused<T>(kind: UsageKind, place: u32) -> Result<T, WordError>
    ensures { result ≡ rule.refused kind place }
{
    Err(WordError::Usage(kind, place))
}

/// Whether a word begins with `-`.
pub fn is_dashed(word: &str) -> bool
    ensures { result ≡ rule.is_dashed word.now }
{
    word.as_bytes().first() == Some(&b'-')
}

fn number_at(place: u32, most: u32, word: &str) -> Result<u32, WordError>
    ensures { result ≡ rule.number_at place most word.now }
{
    match number_of(most, word) {
        Some(number) => Ok(number),
        None => refused(UsageKind::BadNumber, place),
    }
}

/// What was read with one word more that is no option.
pub fn plain_word<'a>(
    plain: Plain,
    place: u32,
    read: Read<'a>,
    word: &'a str,
) -> Result<Read<'a>, WordError>
    ensures told { TellsRead result (rule.plain_word plain place (said_of read.entry) word.now) }
    ensures counted { IfOk result (λ r. taken (said_of r) ≡ taken (said_of read.entry) + 1) }
{
    match plain {
        Plain::File => {
            if read.first.is_some() {
                return refused(UsageKind::ExtraWord, place);
            }
            let first = Some(word);
            Ok(Read { first, ..read })
        }
        Plain::TwoFiles => {
            if read.second.is_some() {
                return refused(UsageKind::ExtraWord, place);
            }
            if read.first.is_some() {
                let second = Some(word);
                Ok(Read { second, ..read })
            } else {
                let first = Some(word);
                Ok(Read { first, ..read })
            }
        }
        Plain::Count => {
            if read.count.is_some() {
                return refused(UsageKind::ExtraWord, place);
            }
            let count = Some(number_at(place, MOST_COUNT, word)?);
            Ok(Read { count, ..read })
        }
    }
}

fn allowed(row: Row, place: u32, word: &str) -> Result<Opt, WordError>
    ensures { result ≡ rule.allowed row place (table.option_named word.now) }
{
    match option_named(word) {
        Some(option) if row.has(option) => Ok(option),
        _ => refused(UsageKind::UnknownOption, place),
    }
}

fn value_word<'a>(place: u32, behind: Option<&'a str>) -> Result<&'a str, WordError>
    ensures { TellsText result (rule.value_word place (option_copied behind.entry)) }
{
    match behind {
        Some(value) if !is_dashed(value) => Ok(value),
        _ => refused(UsageKind::MissingValue, place),
    }
}

fn text_once<'a>(place: u32, before: Option<&'a str>, value: &'a str) -> Result<&'a str, WordError>
    ensures { TellsText result (rule.text_once place (option_copied before.entry) value.now) }
{
    if before.is_some() {
        return refused(UsageKind::Repeated, place);
    }
    Ok(value)
}

fn number_once(place: u32, most: u32, before: Option<u32>, value: &str) -> Result<u32, WordError>
    requires { place < 100 }
    ensures { result ≡ rule.number_once place most before value.now }
{
    if before.is_some() {
        return refused(UsageKind::Repeated, place);
    }
    number_at(place + 1, most, value)
}

fn option_value<'a>(
    option: Opt,
    place: u32,
    read: Read<'a>,
    value: &'a str,
) -> Result<Read<'a>, WordError>
    requires { place < 100 }
    ensures told { TellsRead result (rule.option_value option place (said_of read.entry) value.now) }
    ensures counted { IfOk result (λ r. taken (said_of r) ≡ taken (said_of read.entry) + 2) }
{
    match option {
        Opt::Output => {
            let output = Some(text_once(place, read.output, value)?);
            Ok(Read { output, ..read })
        }
        Opt::Steps => {
            let steps = Some(number_once(place, MOST_STEPS, read.steps, value)?);
            Ok(Read { steps, ..read })
        }
        Opt::Workers => {
            let workers = Some(number_once(place, MOST_WORKERS, read.workers, value)?);
            Ok(Read { workers, ..read })
        }
        Opt::History => {
            let history = Some(text_once(place, read.history, value)?);
            Ok(Read { history, ..read })
        }
        Opt::Jobs => {
            let jobs = Some(number_once(place, MOST_JOBS, read.jobs, value)?);
            Ok(Read { jobs, ..read })
        }
    }
}

/// What was read with one option more, which takes the word behind it.
pub fn option_word<'a>(
    row: Row,
    place: u32,
    read: Read<'a>,
    word: &str,
    behind: Option<&'a str>,
) -> Result<Read<'a>, WordError>
    requires { place < 100 }
    ensures told { TellsRead result (rule.option_word row place (said_of read.entry) word.now (option_copied behind.entry)) }
    ensures counted { IfOk result (λ r. taken (said_of r) ≡ taken (said_of read.entry) + 2) }
{
    let option = allowed(row, place, word)?;
    let value = value_word(place, behind)?;
    option_value(option, place, read, value)
}
