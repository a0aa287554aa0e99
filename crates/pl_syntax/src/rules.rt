//! What the sort rules speak of: kinds of breaches, and where expressions, cells, binders and statements stand.

use pl_base::Pos;

/// A kind of rule.
#[derive(Clone, Copy, Debug, PartialEq, Eq)]
pub enum Rule {
    Unknown,
    Twice,
    GhostFlow,
    IllTyped,
    Opening,
    Measure,
}

/// A place at which a rule is broken.
#[derive(Clone, Copy, Debug)]
pub struct Breach {
    pub rule: Rule,
    pub pos: Pos,
}

/// Where an expression stands.
#[derive(Clone, Copy)]
pub enum Mode {
    /// In code that runs.
    Real,
    /// In ghost code, where it is evaluated.
    Ghost,
    /// In ghost code or a contract, where it isn't evaluated.
    Read,
    /// In a proposition.
    Prop,
}

/// How a cell is used.
#[derive(Clone, Copy)]
pub enum CellUse {
    /// It is loaded or stored by real code.
    Plain,
    /// It is loaded or stored by ghost code.
    Ghost,
    /// It stands in a proposition.
    Asserted,
    /// It is shared or gathered.
    Key,
}

/// What a list of binders is.
#[derive(Clone, Copy)]
pub enum Role {
    /// The parameters of a function.
    Parameter,
    /// The fields of a structure, or a result.
    Field,
    /// The parameters of a predicate, or the names of `exists` or `with`.
    Bound,
}

/// Where a statement stands by the blocks that open an invariant.
#[derive(Clone, Copy)]
pub enum Inside {
    Outside,
    /// In such a block itself.
    Direct,
    /// In an arm or a loop in such a block.
    Nested,
}

/// Where a statement stands.
#[derive(Clone, Copy)]
pub struct Spot {
    /// The place of its function among all declarations.
    pub place: usize,
    /// Whether the function is ghost.
    pub is_ghost: bool,
    /// Whether it is marked to open invariants.
    pub opens: bool,
    /// Whether it has a measure.
    pub measured: bool,
    pub inside: Inside,
}
