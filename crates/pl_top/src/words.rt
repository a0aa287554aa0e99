// The words of the command line.
ghost use Rattle.std.specs.Prelude.{◌≡◌, map, string_bytes, IfOk};
ghost use Rattle.pl_words.specs.Words.{Tells};
ghost use Rattle.pl_words.specs.Ranges.{IsInRange};
ghost use Rattle.pl_top.specs.Words as rule;

use pl_words::{Command, UsageKind, WordError, read_words};
use std::alloc::Global;

fn is_built(word: &str) -> bool
    ensures { result ≡ rule.is_built word.now }
{
    word == "check"
        || word == "emit"
        || word == "run"
        || word == "replay"
        || word == "go"
        || word == "fmt"
}

/// The command that the words give, or the first wrong word. The commands `check F [--jobs N]`, `emit F -o C`,
/// `fmt F`, `run C [--steps N] [--workers W] [--history H]`, `replay C H` and
/// `go F -o C [--steps N] [--workers W] [--history H]` are built.
pub fn read_command(alloc: Global, words: &[String]) -> Result<Command, WordError>
    ensures told { Tells result (rule.asked_of (map string_bytes words.now)) }
    ensures in_range { IfOk result IsInRange }
    ensures built { IfOk result rule.IsBuilt }
{
    match words {
        [] => Err(WordError::Usage(UsageKind::NoCommand, 0)),
        [first, ..] => {
            if is_built(first.as_str()) {
                read_words(alloc, words)
            } else {
                Err(WordError::Usage(UsageKind::UnknownCommand, 0))
            }
        }
    }
}
