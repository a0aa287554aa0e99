// Laws of commands, each the contract of a function that does nothing.
ghost use Rattle.std.specs.Prelude.{◌≡◌, ℕ, ℤ, List, Some, Ok, length};
ghost use Rattle.c_syntax.specs.Tree.{Program};
ghost use Rattle.c_syntax.specs.Text.{program_text};
ghost use Rattle.c_syntax.specs.Fragment.{IsText};
ghost use Rattle.c_history.specs.Text.{history_text};
ghost use Rattle.pl_lexer.specs.Proper.{IsName};
ghost use Rattle.pl_words.specs.declared.command.RunOpts.{RunOpts};
ghost use Rattle.pl_top.specs.Input.{input_of};
ghost use Rattle.pl_top.specs.Lines.{follows_line};
ghost use Rattle.pl_top.specs.Judging.{Outcome, says, IsEmitted, IsSafeEnd, Ran, ran, JudgesRun, JudgesReplay};

use pl_syntax::straight_laws;

/// `run` reads the C that `emit` and `go` put: it runs that program, and the end is neither a fault nor a race.
pub fn emitted_laws()
    ensures { (bytes input : List ℕ) (opts : RunOpts) (program : Program) (numbers : List ℤ) (o : Outcome) →
        IsEmitted bytes program → input_of input ≡ Ok numbers → JudgesRun (program_text program) opts input o →
        (r : Ran program numbers opts) × IsSafeEnd r.ends × (o ≡ ran r) }
{
    straight_laws();
}

/// `replay` follows the history that a run put, on the same text of C and the same input.
pub fn stored_laws()
    ensures { (bytes input name : List ℕ) (opts : RunOpts) (program : Program) (numbers : List ℤ) (r : Ran program numbers opts) (o : Outcome) →
        opts.history ≡ Some name → IsText IsName bytes program → input_of input ≡ Ok numbers →
        JudgesReplay bytes (history_text (record { events = r.events })) input o → o ≡ says 0 (follows_line (length r.events)) }
{}
