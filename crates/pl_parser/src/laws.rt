//! The laws of refusals, each the contract of a function that does nothing.

ghost use Rattle.std.specs.Prelude.{◌≡◌, ◌≢◌, ℕ, ◌+◌, ◌<◌, ◌++◌, Bool, List, length, take};
ghost use Rattle.pl_lexer.specs.declared.tokens.Token.{Token};
ghost use Rattle.pl_syntax.specs.declared.program.Program as code;
ghost use Rattle.pl_parser.specs.declared.error.ParseError.{ParseError};
ghost use Rattle.pl_parser.specs.declared.error.ParseError.TheVariants.{Memory};
ghost use Rattle.pl_parser.specs.Answer.{IsParsed, IsRefusal, StopsBehind};

/// Want of memory aside, tokens have one refusal at the most, and those of a program have none.
pub fn refusals_are_one()
    ensures one { (tokens : List Token) (e f : ParseError) → IsRefusal tokens e → IsRefusal tokens f → e ≢ Memory → f ≢ Memory → e ≡ f }
    ensures parsed { (tokens : List Token) (p : code.Program) (e : ParseError) → IsParsed tokens p → IsRefusal tokens e → e ≡ Memory }
{}

/// The reader of files stops at a token whatever stands behind it, and it is the first at which it stops so.
pub fn stops_come_first()
    ensures same { (tokens more : List Token) (k : ℕ) (b : Bool) → StopsBehind tokens k b → k < length tokens → StopsBehind (take (k + 1) tokens ++ more) k b }
    ensures first { (tokens more : List Token) (k j : ℕ) (a b : Bool) → StopsBehind tokens k a → j < k → StopsBehind (take (j + 1) tokens ++ more) j b → ⊥ }
{}
