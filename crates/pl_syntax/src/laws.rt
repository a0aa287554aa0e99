ghost use Rattle.std.specs.Prelude.{◌≡◌, None};
ghost use Rattle.pl_syntax.specs.Tree.{Program};
ghost use Rattle.pl_syntax.specs.Typing.{IsTyped};
ghost use Rattle.pl_syntax.specs.Straight.{IsStraight};
ghost use Rattle.pl_syntax.specs.Unbuilt.{first_unbuilt};

/// The laws of straight programs: a program that keeps all rules and has no form that the checker doesn't handle yet is
/// straight, and a straight program is such a one.
pub fn straight_laws()
    ensures straight { (p : Program) → IsTyped p → first_unbuilt p ≡ None → IsStraight p }
    ensures typed { (p : Program) → IsStraight p → IsTyped p }
    ensures built { (p : Program) → IsStraight p → first_unbuilt p ≡ None }
{}
