//! Laws of duties, each the contract of a function that does nothing.

ghost use Rattle.std.specs.Prelude.{◌≡◌, ℕ, ℤ, true, List};
ghost use Rattle.pl_forms.specs.declared.fact.Fact.{Fact};
ghost use Rattle.pl_forms.specs.Facts.{MeetsAll};
ghost use Rattle.pl_forms.specs.Goals.{Goal, Says};
ghost use Rattle.pl_linear.specs.Decisions.{Leads, done};

/// A duty that is done is so at all whole numbers for the atoms that meet the facts.
pub fn duty_laws()
    ensures sound { (facts : List Fact) (goal : Goal) → Leads facts goal done →
        (v : ℕ → ℤ) → MeetsAll v facts → Says v goal true }
{}
