ghost use Rattle.std.specs.Prelude.{◌≡◌};
ghost use Rattle.pl_base.specs.declared.pos.Pos.{Pos};
ghost use Rattle.pl_syntax.specs.Tree.{FunDecl};
ghost use Rattle.pl_walk.specs.declared.walk.Duty.{Duty};
ghost use Rattle.pl_deriv.specs.Derivations.{Derives};
ghost use Rattle.pl_walk.specs.Walk.{Undone, AllDone};

/// The laws of the walk: where no duty of a function is left undone it derives; else one duty is the first that is left
/// undone.
pub fn walk_laws()
    ensures derives { (f : FunDecl) → AllDone f → Derives f }
    ensures exclusive { (f : FunDecl) (place : Pos) (duty : Duty) → AllDone f → Undone f place duty → ⊥ }
    ensures once { (f : FunDecl) (p q : Pos) (d e : Duty) → Undone f p d → Undone f q e → (p ≡ q) × (d ≡ e) }
{}
