ghost use Rattle.pl_normal.specs.Meaning.{NormalLaw, ConditionLaw};

/// The laws of forms and conditions: where what was made before is in order it is so after; and numbers for the atoms that
/// agree with the values of the names can be had for the new atoms too, so that the form has the number of the expression's
/// value, and the duty, or its negation, is so exactly where the condition, or its negation, is true.
pub fn normal_laws()
    ensures forms { NormalLaw }
    ensures conditions { ConditionLaw }
{}
