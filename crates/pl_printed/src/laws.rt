//! The laws of printing, each the contract of a function that does nothing.

ghost use Rattle.std.specs.Prelude.{◌≡◌, ℕ, List};
ghost use Rattle.pl_lexer.specs.declared.tokens.Token.{Token};
ghost use Rattle.pl_lexer.specs.Tokens.{IsLexed};
ghost use Rattle.pl_syntax.specs.Tree.{Program};
ghost use Rattle.pl_grammar.specs.FileGrammar.{File};
ghost use Rattle.pl_print.specs.ProgramText.{program_text};
ghost use Rattle.pl_printed.specs.Bare.{bare_program};
ghost use Rattle.pl_printed.specs.Levels.{Fits};
ghost use Rattle.pl_printed.specs.Printable.{IsPrintable};

/// The canonical text of a program that can be printed, and whose text opens at most 64 levels, lexes and parses to the same
/// program but for places.
pub fn printed_is_read()
    ensures { (p : Program) → IsPrintable p → Fits 64 p → (tokens : List Token) × (q : Program) × IsLexed (program_text p) tokens × File 64 q tokens × (bare_program q ≡ bare_program p) }
{}

/// Whatever is read of that text is the same program but for places.
pub fn printed_is_read_once()
    ensures { (p : Program) (tokens : List Token) (q : Program) → IsPrintable p → Fits 64 p → IsLexed (program_text p) tokens → File 64 q tokens → bare_program q ≡ bare_program p }
{}

/// Each program that was read can be printed.
pub fn read_is_printable()
    ensures { (bytes : List ℕ) (tokens : List Token) (p : Program) → IsLexed bytes tokens → File 64 p tokens → IsPrintable p }
{}

/// Programs that differ in places alone are printed alike. So what is printed, read and printed again is the same text.
pub fn places_are_not_printed()
    ensures { (p q : Program) → bare_program q ≡ bare_program p → program_text q ≡ program_text p }
{}
