use crate::kind::Local;
use pl_base::Name;

/// A binary operator: of numbers, of comparison, or of truth values.
#[derive(Clone, Copy, Debug, PartialEq, Eq)]
pub enum COp {
    Add,
    Sub,
    Mul,
    Div,
    Rem,
    Lt,
    Le,
    Gt,
    Ge,
    Eq,
    Ne,
    And,
    Or,
}

/// An expression without effects.
#[derive(Debug, Drop)]
pub enum CExpr {
    Int(i64),
    Truth(bool),
    Null,
    Var(Local),
    Neg(Box<CExpr>),
    Not(Box<CExpr>),
    Bin(COp, Box<CExpr>, Box<CExpr>),
}

/// A cell of a block, by the local that points to the block.
#[derive(Debug, Drop)]
pub enum CCell {
    /// `*r`
    Whole(Local),
    /// `a[i]`
    At(Local, CExpr),
    /// `p->m_f`
    Field(Local, Name),
}
