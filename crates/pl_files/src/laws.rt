//! The laws of files, each the contract of a function that does nothing.

ghost use Rattle.std.specs.Prelude.{◌≡◌, ℕ, List};
ghost use Rattle.std.specs.List.{AllByRecursion};
ghost use Rattle.pl_syntax.specs.Tree.{Program};
ghost use Rattle.pl_lexer.specs.Proper.{IsName};
ghost use Rattle.pl_files.specs.Files.{IsFile};
ghost use Rattle.pl_files.specs.Names.{program_names};

/// Bytes are a file of one program.
pub fn files_are_one()
    ensures { (bytes : List ℕ) (p q : Program) → IsFile bytes p → IsFile bytes q → p ≡ q }
{}

/// The names of a file's statements are identifiers within the limits and no words of the language.
pub fn names_are_proper()
    ensures { (bytes : List ℕ) (p : Program) → IsFile bytes p → AllByRecursion IsName (program_names p) }
{}
