//! The laws of tokens, each the contract of a function that does nothing.

ghost use Rattle.pl_lexer.specs.declared.tokens.Kind.TheVariants.{Word, Number, Sign, End};
ghost use Rattle.pl_lexer.specs.declared.tokens.Token.{Token};
ghost use Rattle.pl_lexer.specs.Lexemes.{signs, IsBlank, IsNumber};
ghost use Rattle.pl_lexer.specs.Printing.{AreApart, kinds_of};
ghost use Rattle.pl_lexer.specs.Proper.{IsName, AreProper};
ghost use Rattle.pl_lexer.specs.Tokens.{sign_number, kind_of, all_tokens, AreTokens, IsLexed};
ghost use Rattle.pl_readers.specs.Bytes.{value_from};
ghost use Rattle.std.specs.List.{concat};
ghost use Rattle.std.specs.Prelude.{◌≡◌, ◌++◌, ℕ, pos, List, [], ◌∷◌, map, Contains, Some, None, encode_utf8_all};
ghost use Rattle.std.specs.Str.{chars};

/// Bytes have one list of tokens, and what lexing finds within the limits is that list.
pub fn tokens_are_one()
    ensures one { (bytes : List ℕ) (ts us : List Token) → AreTokens bytes ts → AreTokens bytes us → ts ≡ us }
    ensures found { (bytes : List ℕ) (ts : List Token) → IsLexed bytes ts → AreTokens bytes ts }
{}

/// Names are identifiers within the limits and no words, numbers are below 2^127, and signs are in the list.
pub fn tokens_are_proper()
    ensures { (bytes : List ℕ) (ts : List Token) → IsLexed bytes ts → AreProper ts }
{}

/// Pieces each of which ends where the next begins are lexed as what they stand for.
pub fn pieces_are_found()
    ensures tokens { (ls : List (List ℕ)) → AreApart ls → IsLexed (encode_utf8_all (concat ls)) (all_tokens ls) }
    ensures kinds { (ls : List (List ℕ)) → map (λ t. t.kind) (all_tokens ls) ≡ kinds_of ls ++ End ∷ [] }
{}

/// What pieces stand for.
pub fn pieces_stand_for()
    ensures blank { (l : List ℕ) → IsBlank l → kind_of l ≡ None }
    ensures sign { (l : List ℕ) (n : ℕ) → Contains signs l → sign_number l ≡ Some n → kind_of l ≡ Some (Sign n) }
    ensures name { (bytes : List ℕ) → IsName bytes → kind_of (chars bytes) ≡ Some (Word bytes) }
    ensures number { (l : List ℕ) → IsNumber l → kind_of l ≡ Some (Number (pos (value_from 0 l))) }
{}
