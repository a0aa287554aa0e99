//! The laws of the grammar and of its reader, each the contract of a function that does nothing.

ghost use Rattle.std.specs.Prelude.{◌≡◌, ℕ, ◌≤◌, ◌<◌, ◌-◌, ◌∷◌, ◌++◌, [], true, false, List, length, Ok, Err};
ghost use Rattle.pl_lexer.specs.declared.tokens.Token.{Token};
ghost use Rattle.pl_readers.specs.declared.error.Stop.{Stop};
ghost use Rattle.pl_readers.specs.Language.{IsViable};
ghost use Rattle.pl_readers.specs.Reader.{whole};
ghost use Rattle.pl_syntax.specs.Tree.{Program};
ghost use Rattle.pl_grammar.specs.FileGrammar.{File};
ghost use Rattle.pl_grammar.specs.FileReaders.{file, file_within};
ghost use Rattle.pl_grammar.specs.Refusals.{IsFirstRefused, NeedsMore, HasFew, NotFull, GoesOnWith, token_of_code};

/// The reader of files takes exactly the tokens of each file, so these have one program; it refuses the first token with
/// which no file goes on, or one with which none goes on at 64 levels.
pub fn files_are_read()
    ensures found { (tokens : List Token) (p : Program) → whole (file 64) tokens ≡ Ok p → File 64 p tokens }
    ensures only { (tokens : List Token) (p : Program) → File 64 p tokens → whole (file 64) tokens ≡ Ok p }
    ensures refused { (tokens : List Token) (s : Stop) → whole (file 64) tokens ≡ Err s → s.is_deep ≡ false → IsFirstRefused tokens (length tokens - s.left) }
    ensures deep { (tokens : List Token) (s : Stop) → whole (file 64) tokens ≡ Err s → s.is_deep ≡ true → NeedsMore tokens (length tokens - s.left) }
{}

/// The reader of files of at most 4,096 declarations takes exactly these.
pub fn bounded_files_are_read()
    ensures found { (tokens : List Token) (p : Program) → whole (file_within 4096 64) tokens ≡ Ok p → File 64 p tokens × (length p.decls ≤ 4096) }
    ensures only { (tokens : List Token) (p : Program) → File 64 p tokens → length p.decls ≤ 4096 → whole (file_within 4096 64) tokens ≡ Ok p }
    ensures refused { (tokens : List Token) → NotFull tokens → whole (file 64) tokens ≡ whole (file_within 4096 64) tokens }
    ensures few { (tokens : List Token) → NotFull tokens → HasFew tokens }
{}

/// Some file goes on with these tokens and one more exactly where reading them all at 66 levels takes them, or stops behind
/// them or at a level too many.
pub fn reading_on_tells()
    ensures all { (before : List Token) (code : ℕ) (p : Program) → whole (file 66) (before ++ token_of_code code ∷ []) ≡ Ok p → GoesOnWith before code }
    ensures end { (before : List Token) (code : ℕ) (s : Stop) → whole (file 66) (before ++ token_of_code code ∷ []) ≡ Err s → s.left ≡ 0 → GoesOnWith before code }
    ensures deep { (before : List Token) (code : ℕ) (s : Stop) → whole (file 66) (before ++ token_of_code code ∷ []) ≡ Err s → IsViable (File 66) before → s.is_deep ≡ true → GoesOnWith before code }
    ensures none { (before : List Token) (code : ℕ) (s : Stop) → whole (file 66) (before ++ token_of_code code ∷ []) ≡ Err s → IsViable (File 66) before → s.is_deep ≡ false → 0 < s.left → GoesOnWith before code → ⊥ }
{}
