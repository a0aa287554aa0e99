// The table of the commands and the options.
ghost use Rattle.std.specs.Prelude.{◌≡◌};
ghost use Rattle.pl_words.specs.Table as rule;

/// A command without its words.
#[derive(Clone, Copy)]
pub enum Verb {
    Check,
    Emit,
    Prove,
    Verify,
    Fmt,
    Ghost,
    Run,
    Replay,
    Go,
    Bench,
    Races,
}

/// An option of the command line.
#[derive(Clone, Copy)]
pub enum Opt {
    Output,
    Steps,
    Workers,
    History,
    Jobs,
}

/// The words of a command that are no options.
#[derive(Clone, Copy)]
pub enum Plain {
    File,
    TwoFiles,
    /// One number, from 1 to 1,000.
    Count,
}

/// What stands behind a command.
#[derive(Clone, Copy)]
pub struct Row {
    pub plain: Plain,
    /// Whether it has `-o`, which it needs then.
    pub output: bool,
    pub jobs: bool,
    /// Whether it has `--steps`, `--workers` and `--history`.
    pub run: bool,
}

pub fn verb_named(word: &str) -> Option<Verb>
    ensures { result ≡ rule.verb_named word.now }
{
    match word {
        "check" => Some(Verb::Check),
        "emit" => Some(Verb::Emit),
        "prove" => Some(Verb::Prove),
        "verify" => Some(Verb::Verify),
        "fmt" => Some(Verb::Fmt),
        "ghost" => Some(Verb::Ghost),
        "run" => Some(Verb::Run),
        "replay" => Some(Verb::Replay),
        "go" => Some(Verb::Go),
        "bench" => Some(Verb::Bench),
        "races" => Some(Verb::Races),
        _ => None,
    }
}

pub fn option_named(word: &str) -> Option<Opt>
    ensures { result ≡ rule.option_named word.now }
{
    match word {
        "-o" => Some(Opt::Output),
        "--steps" => Some(Opt::Steps),
        "--workers" => Some(Opt::Workers),
        "--history" => Some(Opt::History),
        "--jobs" => Some(Opt::Jobs),
        _ => None,
    }
}

const FILE: Row = Row {
    plain: Plain::File,
    output: false,
    jobs: false,
    run: false,
};

const TWO_FILES: Row = Row {
    plain: Plain::TwoFiles,
    ..FILE
};

impl Verb {
    pub fn row(self) -> Row
        ensures { result ≡ rule.row_of self }
    {
        match self {
            Verb::Check => Row { jobs: true, ..FILE },
            Verb::Emit | Verb::Prove => Row {
                output: true,
                ..FILE
            },
            Verb::Fmt | Verb::Ghost => FILE,
            Verb::Run => Row { run: true, ..FILE },
            Verb::Go => Row {
                output: true,
                run: true,
                ..FILE
            },
            Verb::Bench => Row {
                plain: Plain::Count,
                ..FILE
            },
            Verb::Verify | Verb::Replay | Verb::Races => TWO_FILES,
        }
    }
}

impl Row {
    pub fn has(self, option: Opt) -> bool
        ensures { result ≡ rule.has self option }
    {
        match option {
            Opt::Output => self.output,
            Opt::Jobs => self.jobs,
            Opt::Steps | Opt::Workers | Opt::History => self.run,
        }
    }
}
