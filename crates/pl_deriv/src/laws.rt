ghost use Rattle.std.specs.Prelude.{◌≡◌, List, ◌++◌, ◌∷◌, []};
ghost use Rattle.pl_base.specs.declared.pos.Pos.{Pos};
ghost use Rattle.pl_syntax.specs.Tree.{Name, Expr, Stmt, Alloc, Free, FunDecl, list_of};
ghost use Rattle.pl_terms.specs.Table.{Known};
ghost use Rattle.pl_deriv.specs.Derivations.{Rules, Derives};

/// The laws of derivations: those of two lists of statements join and part; and neither a cell that is never freed nor a
/// free of what was never allocated derives.
pub fn derivation_laws()
    ensures joined { (s t u : Known) (xs ys : List Stmt) → Rules s xs t → Rules t ys u → Rules s (xs ++ ys) u }
    ensures parted { (s u : Known) (xs ys : List Stmt) → Rules s (xs ++ ys) u → (t : Known) × Rules s xs t × Rules t ys u }
    ensures no_leak { (f : FunDecl) (place : Pos) (x : Name) (e : Expr) → list_of f.body ≡ Alloc place x e ∷ [] → Derives f → ⊥ }
    ensures no_free { (f : FunDecl) (place : Pos) (x : Name) → list_of f.body ≡ Free place x ∷ [] → Derives f → ⊥ }
{}
