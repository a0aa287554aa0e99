// What words ask for, and why they are refused.
use pl_base::{Memory, Name};

/// What is asked for. Files are named as they were written.
#[derive(Debug, Drop)]
pub enum Command {
    /// Check a source file, with so many jobs at a time, from 1 to 64.
    Check(Name, u32),
    /// Write the C text of a source file to an output file.
    Emit(Name, Name),
    /// Write the proof of a source file to an output file.
    Prove(Name, Name),
    /// Check a source file against a proof file.
    Verify(Name, Name),
    /// Print the canonical text of a source file.
    Fmt(Name),
    /// Run a source file with what the checker alone needs kept.
    Ghost(Name),
    /// Run a file of C text.
    Run(Name, RunOpts),
    /// Replay a history on a file of C text: first the C text, then the history.
    Replay(Name, Name),
    /// Write the C text of a source file to an output file, and run it.
    Go(Name, Name, RunOpts),
    /// Check and run the generated program of that number, from 1 to 1,000.
    Bench(u32),
    /// Look for races in a history of a file of C text: first the C text, then the history.
    Races(Name, Name),
}

/// How a program is run.
#[derive(Debug, Drop)]
pub struct RunOpts {
    /// The greatest number of steps, from 1 to 4,000,000.
    pub steps: u32,
    /// How many workers run it, from 1 to 64.
    pub workers: u32,
    /// The file that the history goes to, if any.
    pub history: Option<Name>,
}

/// Why words are refused.
#[derive(Clone, Copy, Debug, PartialEq, Eq)]
pub enum UsageKind {
    /// There are no words.
    NoCommand,
    /// The first word is no command.
    UnknownCommand,
    /// A word begins with `-` and is no option of the command.
    UnknownOption,
    /// No word stands behind an option, or one that begins with `-`.
    MissingValue,
    /// An option was written before.
    Repeated,
    /// A word is no number, or not one in its range.
    BadNumber,
    /// There is one word too many.
    ExtraWord,
    /// A word that the command needs is missing.
    MissingWord,
}

/// Why there is no command.
#[derive(Clone, Copy, Debug, PartialEq, Eq)]
pub enum WordError {
    /// The first wrong word, by its place from 0. An option without a value stands at the option's place, and what is
    /// missing behind the last word.
    Usage(UsageKind, u32),
    /// Memory ran out.
    Memory,
}

impl From<Memory> for WordError {
    ghost use Rattle.std.specs.Prelude.{◌≡◌};
    ghost use Rattle.pl_words.specs.declared.command.WordError.TheVariants.{Memory};

    ghost from_gives = { λ _ e. e ≡ Memory };

    fn from(_: Memory) -> WordError {
        WordError::Memory
    }
}
