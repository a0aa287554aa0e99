ghost use Rattle.std.specs.Prelude.{List, ◌++◌, ◌∷◌};
ghost use Rattle.pl_syntax.specs.Resource.{Resource, Adds};
ghost use Rattle.pl_terms.specs.Terms.{Atom, Values, Extends, AllHold, Taken};

/// The laws of atoms: what holds still holds where more variables have values; two lists that hold of two parts hold
/// together of their sum; and any atom of a list may be taken out of it, with its part.
pub fn atom_laws()
    ensures keeps { (vs us : Values) (atoms : List Atom) (x : Resource) → Extends vs us → AllHold vs atoms x → AllHold us atoms x }
    ensures both { (vs : Values) (xs ys : List Atom) (y z x : Resource) → Adds y z x → AllHold vs xs y → AllHold vs ys z → AllHold vs (xs ++ ys) x }
    ensures taken { (vs : Values) (front back : List Atom) (a : Atom) (x : Resource) → AllHold vs (front ++ a ∷ back) x → Taken vs a (front ++ back) x }
{}
