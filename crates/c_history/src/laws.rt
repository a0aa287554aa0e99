//! Laws of histories and of their replay, each the contract of a function that does nothing.

ghost use Rattle.std.specs.Prelude.{◌≡◌, ℕ, ℤ, List};
ghost use Rattle.c_syntax.specs.Tree.{Program};
ghost use Rattle.c_meaning.specs.Events.{State};
ghost use Rattle.c_meaning.specs.Steps.{Replay};
ghost use Rattle.c_meaning.specs.declared.action.Event.{Event};
ghost use Rattle.c_meaning.specs.declared.action.History.{History};
ghost use Rattle.c_history.specs.Replays.{Tells};
ghost use Rattle.c_history.specs.declared.replaying.Replayed.{Replayed};
ghost use Rattle.c_history.specs.Lines.{IsTextOf, IsRefusedLine};

/// A replay leads to one state, and has one answer.
pub fn one_replay()
    ensures state { (p : Program) (input : List ℤ) (events : List Event) (one two : State) →
        Replay p input events one → Replay p input events two → one ≡ two }
    ensures answer { (p : Program) (input : List ℤ) (events : List Event) (one two : Replayed) →
        Tells p input events one → Tells p input events two → one ≡ two }
{}

/// A text is that of one history, and one line of a text is the first that no history has.
pub fn one_reading()
    ensures history { (bytes : List ℕ) (one two : History) → IsTextOf one bytes → IsTextOf two bytes → one ≡ two }
    ensures line { (bytes : List ℕ) (one two : ℕ) → IsRefusedLine bytes one → IsRefusedLine bytes two → one ≡ two }
    ensures apart { (bytes : List ℕ) (h : History) (n : ℕ) → IsTextOf h bytes → IsRefusedLine bytes n → ⊥ }
{}
