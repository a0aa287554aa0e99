use pl_base::Items;
use pl_forms::{Cert, Form, Group};

/// A node, which is a sum of atoms, and its number.
#[derive(Debug, Drop)]
pub struct NodeValue {
    pub node: Form,
    pub value: i128,
}

/// What is found for a duty `t <= 0`.
#[derive(Debug, Drop)]
pub enum Found {
    /// It is done, and this shows it.
    Cert(Cert),
    /// It isn't: these numbers for the nodes meet all inequalities that count and the negated goal.
    Point(Items<NodeValue>),
}

/// What is decided of a duty.
#[derive(Debug, Drop)]
pub enum Decided {
    /// It is done, and these groups show it.
    Done(Items<Group>),
    /// It isn't: the point of its first part that isn't done, at the nodes of that part.
    Undone(Items<NodeValue>),
}
