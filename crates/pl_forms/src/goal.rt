use crate::fact::{Cert, EqTerm, Shape};
use crate::form::Form;
use pl_base::{Items, Name, Perm};

/// What is to be shown: a duty.
#[derive(Debug, Drop)]
pub enum Goal {
    /// The boolean of this form is 1, or 0 where the truth is false.
    Truth(Form, bool),
    /// A comparison of a form with 0.
    Plain(Shape, Form),
    /// Both of two.
    Both(Box<Goal>, Box<Goal>),
    /// The second, where the negation of the first is assumed.
    Either(Box<Goal>, Box<Goal>),
    /// A duty where this form is 1.
    When(Form, Box<Goal>),
}

/// A group of a proof: what one choice of a rule was.
#[derive(Debug, Drop)]
pub enum Group {
    /// The place of an atom.
    Place(u32),
    /// Multiples of solved equations that add to the opposite of a form.
    Eqs(Items<EqTerm>),
    /// A form is at most 0 by this certificate.
    Cert(Cert),
    /// A form and these multiples add to a constant other than 0.
    Constant(Items<EqTerm>),
    /// A form and these multiples add to the form of the disequality at this place, or to its opposite.
    Differs(u32, Items<EqTerm>),
    /// A permission.
    Part(Perm, Option<Name>),
    /// The first arm of a condition, or the second.
    Arm(bool),
    /// The sign of a remainder isn't known.
    Stay,
}
