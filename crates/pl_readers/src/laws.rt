//! The laws of readers, each the contract of a function that does nothing. A format gives its languages and readers as
//! ghost members, and each law speaks of any formats.

ghost use Rattle.std.specs.Prelude.{◌≡◌, ℕ, ◌+◌, ◌-◌, ◌≤◌, ◌<◌, ◌++◌, suc, Bool, true, false, List, [], ◌∷◌, length, Option, Result, Ok, Err};
ghost use Rattle.pl_readers.specs.declared.error.Stop.{Stop};
ghost use Rattle.pl_readers.specs.Bytes.{Word, word, Number, number};
ghost use Rattle.pl_readers.specs.Language.{Language, One, Then, Either, Nothing, Void, Mapped, Many, HasText, Starts, IsViable};
ghost use Rattle.pl_readers.specs.Reader.{Reader, begins, one, next, either, nothing, mapped, refuse, deep, repeat, whole, onto};
ghost use Rattle.pl_readers.specs.Reads.{Ends, Reads, Refused, RefusedAt, Agrees};
ghost use Rattle.std.specs.Char.{is_ascii_digit};

/// A language over symbols of type `S`, the same with one level more, and a reader.
pub trait Format<S, A> {
    ghost texts: { A → List S → Type 0 };

    ghost wider: { A → List S → Type 0 };

    ghost reader: { List S → Result (A × List S) Stop };
}

/// A format for what stands behind a value of type `A`.
pub trait FormatBehind<S, A, B> {
    ghost texts: { A → B → List S → Type 0 };

    ghost wider: { A → B → List S → Type 0 };

    ghost reader: { A → List S → Result (B × List S) Stop };
}

/// A format at each number of levels.
pub trait LeveledFormat<S, A> {
    ghost texts: { ℕ → A → List S → Type 0 };

    ghost reader: { ℕ → List S → Result (A × List S) Stop };
}

/// One symbol is read.
pub fn one_reads<S, A>()
    ensures { (f : S → Option A) (goes : S → Bool) → HasText (One f) →
        Reads (One f) (One f) goes (one f) }
{}

/// Nothing is read.
pub fn nothing_reads<S, A>()
    ensures { (d : A) (goes : S → Bool) → Reads (Nothing d) (Nothing d) goes (nothing d) }
{}

/// Where only one level more has a text, each symbol is refused.
pub fn refuse_reads<S, A, P: Format<S, A>>()
    ensures { (goes : S → Bool) → HasText P.wider → Reads Void P.wider goes refuse }
{}

/// A word is read.
pub fn word_reads()
    ensures { (s : List ℕ) (goes : ℕ → Bool) → Reads (Word s) (Word s) goes (word s) }
{}

/// A number below a limit is read.
pub fn number_reads()
    ensures { (limit : ℕ) → 10 ≤ limit → Reads (Number limit) (Number limit) is_ascii_digit (number limit) }
{}

/// A value is changed.
pub fn mapped_reads<S, A, B, P: Format<S, A>>()
    ensures { (f : A → B) (goes : S → Bool) → Reads P.texts P.wider goes P.reader →
        Reads (Mapped f P.texts) (Mapped f P.wider) goes (mapped f P.reader) }
{}

/// One text is read behind another, where what may follow the first does not go on with it.
pub fn then_reads<S, A, B, P: Format<S, A>, Q: FormatBehind<S, A, B>>()
    ensures { (goes then_goes : S → Bool) →
        Reads P.texts P.wider goes P.reader →
        ((a : A) → Reads (Q.texts a) (Q.wider a) then_goes (Q.reader a)) →
        ((a : A) → HasText (Q.wider a)) →
        ((a : A) (b : B) (back rest : List S) → Q.texts a b back → Ends then_goes rest → Ends goes (back ++ rest)) →
        Reads (Then P.texts Q.texts) (Then P.wider Q.wider) then_goes (next P.reader Q.reader) }
{}

/// One of two is read, where the next symbol tells which.
pub fn either_reads<S, A, P: Format<S, A>, Q: Format<S, A>>()
    ensures { (test goes : S → Bool) →
        Reads P.texts P.wider goes P.reader →
        Reads Q.texts Q.wider goes Q.reader →
        Starts test P.texts →
        ((a : A) (text rest : List S) → Q.texts a text → Ends goes rest → begins test (text ++ rest) ≡ false) →
        Reads (Either P.texts Q.texts) (Either P.wider Q.wider) goes (either test P.reader Q.reader) }
{}

/// One of two is refused as a level too many, and the other read.
pub fn deep_reads<S, A, P: Format<S, A>, Q: Format<S, A>>()
    ensures { (test goes : S → Bool) →
        Reads Q.texts Q.wider goes Q.reader →
        HasText Q.wider →
        ((y : S) → test y ≡ true → IsViable P.wider (y ∷ [])) →
        ((a : A) (text rest : List S) → Q.texts a text → Ends goes rest → begins test (text ++ rest) ≡ false) →
        Reads Q.texts (Either P.wider Q.wider) goes (either test deep Q.reader) }
{}

/// Any number is read, as long as the next symbol tells that one more comes.
pub fn repeat_reads<S, A, P: Format<S, A>>()
    ensures { (test goes ends : S → Bool) →
        Reads P.texts P.wider goes P.reader →
        Starts test P.texts →
        ((x : S) → ends x ≡ false → test x ≡ false) →
        ((x : S) → ends x ≡ false → goes x ≡ false) →
        ((x : S) → test x ≡ true → goes x ≡ false) →
        Reads (Many P.texts) (Many P.wider) ends (repeat test P.reader) }
{}

/// Fewer symbols may follow, or more texts stand one level higher.
pub fn looser_reads<S, A, P: Format<S, A>, Q: Format<S, A>>()
    ensures before { (goes more : S → Bool) →
        ((x : S) → more x ≡ false → goes x ≡ false) →
        Reads P.texts P.wider goes P.reader →
        Reads P.texts P.wider more P.reader }
    ensures wider { (goes : S → Bool) →
        ((a : A) (text : List S) → P.wider a text → Q.wider a text) →
        Reads P.texts P.wider goes P.reader →
        Reads P.texts Q.wider goes P.reader }
{}

/// All of the symbols are read exactly where they are a text, and else refused at the first with which no text goes on.
pub fn whole_reads<S, A, P: Format<S, A>>()
    ensures found { (goes : S → Bool) (xs : List S) (a : A) → Reads P.texts P.wider goes P.reader →
        whole P.reader xs ≡ Ok a → P.texts a xs }
    ensures only { (goes : S → Bool) (xs : List S) (a : A) → Reads P.texts P.wider goes P.reader →
        P.texts a xs → whole P.reader xs ≡ Ok a }
    ensures refused { (goes : S → Bool) (xs : List S) (s : Stop) → Reads P.texts P.wider goes P.reader →
        whole P.reader xs ≡ Err s → RefusedAt P.texts P.wider xs (length xs - s.left) s.is_deep }
{}

/// A reader with one level more answers alike, part by part.
pub fn parts_agree<
    S,
    A,
    B,
    P: Format<S, A>,
    P2: Format<S, A>,
    Q: FormatBehind<S, A, B>,
    Q2: FormatBehind<S, A, B>,
>()
    ensures mapped { (f : A → B) → Agrees P.reader P2.reader →
        Agrees (mapped f P.reader) (mapped f P2.reader) }
    ensures next { Agrees P.reader P2.reader → ((a : A) → Agrees (Q.reader a) (Q2.reader a)) →
        Agrees (next P.reader Q.reader) (next P2.reader Q2.reader) }
    ensures repeat { (test goes : S → Bool) →
        Reads P.texts P.wider goes P.reader → Starts test P.texts →
        Reads P2.texts P2.wider goes P2.reader → Starts test P2.texts →
        Agrees P.reader P2.reader → Agrees (repeat test P.reader) (repeat test P2.reader) }
{}

/// The same of a choice.
pub fn choices_agree<S, A, P: Format<S, A>, P2: Format<S, A>, Q: Format<S, A>, Q2: Format<S, A>>()
    ensures either { (test : S → Bool) → Agrees P.reader P2.reader → Agrees Q.reader Q2.reader →
        Agrees (either test P.reader Q.reader) (either test P2.reader Q2.reader) }
    ensures deep { (test : S → Bool) → Agrees Q.reader Q2.reader →
        Agrees (either test deep Q.reader) (either test P.reader Q2.reader) }
{}

/// A refusal that is not for a level too many is one at every number of levels.
pub fn whole_none<S, A, P: LeveledFormat<S, A>>()
    ensures { (goes : S → Bool) →
        ((n : ℕ) → Reads (P.texts n) (P.texts (suc n)) goes (P.reader n)) →
        ((n : ℕ) → Agrees (P.reader n) (P.reader (suc n))) →
        (n m : ℕ) (xs : List S) (s : Stop) → whole (P.reader n) xs ≡ Err s → s.is_deep ≡ false →
        RefusedAt (P.texts m) (P.texts (suc n)) xs (length xs - s.left) false }
{}

/// One turn of a loop that reads items one behind the other, with `front` read before.
pub fn loop_turns<S, A, P: Format<S, A>>()
    ensures begins { (R : List S → Result (List A × List S) Stop) (xs : List S) → onto [] R xs ≡ R xs }
    ensures goes { (test goes : S → Bool) → Reads P.texts P.wider goes P.reader → Starts test P.texts →
        (front : List A) (a : A) (rest after : List S) → begins test rest ≡ true →
        P.reader rest ≡ Ok (a, after) →
        onto front (repeat test P.reader) rest ≡ onto (front ++ a ∷ []) (repeat test P.reader) after }
    ensures stops { (test goes : S → Bool) → Reads P.texts P.wider goes P.reader → Starts test P.texts →
        (front : List A) (rest : List S) (s : Stop) → begins test rest ≡ true → P.reader rest ≡ Err s →
        onto front (repeat test P.reader) rest ≡ Err s }
    ensures ends { (test goes : S → Bool) → Reads P.texts P.wider goes P.reader → Starts test P.texts →
        (front : List A) (rest : List S) → begins test rest ≡ false →
        onto front (repeat test P.reader) rest ≡ Ok (front, rest) }
{}

/// Whether a text goes on with its last symbol is seen by reading it.
pub fn last_symbol<S, A, P: LeveledFormat<S, A>>()
    ensures wants_more { (goes : S → Bool) →
        ((n : ℕ) → Reads (P.texts n) (P.texts (suc n)) goes (P.reader n)) →
        (n : ℕ) (xs : List S) (s : Stop) → whole (P.reader n) xs ≡ Err s → s.left ≡ 0 → IsViable (P.texts (suc n)) xs }
    ensures is_whole { (goes : S → Bool) →
        ((n : ℕ) → Reads (P.texts n) (P.texts (suc n)) goes (P.reader n)) →
        (n : ℕ) (xs : List S) (a : A) → whole (P.reader n) xs ≡ Ok a → IsViable (P.texts n) xs }
    ensures is_deep { (goes : S → Bool) →
        ((n : ℕ) → Reads (P.texts n) (P.texts (suc n)) goes (P.reader n)) →
        (n : ℕ) (xs : List S) (s : Stop) → whole (P.reader n) xs ≡ Err s → s.is_deep ≡ true → s.left ≡ 1 →
        IsViable (P.texts (suc n)) xs }
    ensures is_refused { (goes : S → Bool) →
        ((n : ℕ) → Reads (P.texts n) (P.texts (suc n)) goes (P.reader n)) →
        ((n : ℕ) → Agrees (P.reader n) (P.reader (suc n))) →
        (n m : ℕ) (xs : List S) (s : Stop) → whole (P.reader n) xs ≡ Err s → s.is_deep ≡ false → s.left ≡ 1 →
        0 < length xs → IsViable (P.texts m) xs → ⊥ }
{}
