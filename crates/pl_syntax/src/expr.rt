use pl_base::{Items, Name, Perm, Pos};

/// Which variables a name is one of: real ones, ghost ones, or logical ones of contracts.
#[derive(Clone, Copy, Debug, PartialEq, Eq)]
pub enum Class {
    Real,
    Ghost,
    Logical,
}

/// The sort of a name.
#[derive(Debug, Drop)]
pub enum Sort {
    /// A number of 64 bits, with its sign.
    I64,
    Bool,
    /// A pointer to cells that hold an `i64`.
    RefI64,
    /// A pointer to cells that hold a `bool`.
    RefBool,
    /// A pointer to the structure of that name.
    RefStruct(Name),
    /// A pointer to an atomic cell that holds an `i64`.
    Atomic,
    Lock,
    /// A whole number, of ghost code and contracts.
    Int,
    /// A permission, of logical names.
    Perm,
    /// A reference to a ghost cell.
    Gref,
    /// The name of an invariant.
    Iname,
}

/// What binds a name: a field, a parameter, a result or a bound variable. Its place is its name's.
#[derive(Debug, Drop)]
pub struct Binder {
    pub pos: Pos,
    pub class: Class,
    pub name: Name,
    pub sort: Sort,
}

/// A binary operator: of numbers, of comparison, or of truth values.
#[derive(Clone, Copy, Debug, PartialEq, Eq)]
pub enum BinOp {
    Add,
    Sub,
    Mul,
    Div,
    Rem,
    Lt,
    Le,
    Gt,
    Ge,
    Eq,
    Ne,
    And,
    Or,
    Implies,
}

/// An expression. Each begins with its place, the first token's of its text.
#[derive(Debug, Drop)]
pub enum Expr {
    Int(Pos, i128),
    Truth(Pos, bool),
    Null(Pos),
    Var(Pos, Name),
    Neg(Pos, Box<Expr>),
    Not(Pos, Box<Expr>),
    Bin(Pos, BinOp, Box<Expr>, Box<Expr>),
}

/// A permission: a part, times a variable where there is one.
#[derive(Debug, Drop)]
pub struct PermExpr {
    pub pos: Pos,
    pub part: Perm,
    pub var: Option<Name>,
}

/// A cell, by the name of its base.
#[derive(Debug, Drop)]
pub enum CellExpr {
    /// The one cell of a block: `r`
    Whole(Name),
    /// An element of an array: `a[i]`
    At(Name, Expr),
    /// A field of a structure: `p.f`
    Field(Name, Name),
}

/// A predicate with its arguments.
#[derive(Debug, Drop)]
pub struct Instance {
    pub pos: Pos,
    pub pred: Name,
    pub args: Items<Expr>,
}
