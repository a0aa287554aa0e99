use c_syntax::COp;
use pl_base::{Items, Name};

/// A decimal number without a leading zero, of any length.
#[derive(Debug, Drop)]
pub enum Number {
    Small(u32),
    /// The digits of a number that is no `u32`.
    Long(Items<u8>),
}

/// A local as it is written, `v_r_1`: the name in the source whose mangling is written, and the number.
#[derive(Debug, Drop)]
pub struct Local {
    pub name: Name,
    pub number: Number,
}

/// An expression as it is written.
#[derive(Debug, Drop)]
pub enum Expr {
    /// `INT64_C(5)`, `(-INT64_C(7))` or `(-INT64_C(9223372036854775807) - INT64_C(1))`
    Int(i64),
    Truth(bool),
    Null,
    Var(Local),
    Neg(Box<Expr>),
    Not(Box<Expr>),
    Bin(COp, Box<Expr>, Box<Expr>),
}

/// A cell as it is written.
#[derive(Debug, Drop)]
pub enum Cell {
    /// `*r`
    Whole(Local),
    /// `a[i]`; the index is boxed, since most cells have none.
    At(Local, Box<Expr>),
    /// `p->m_f`
    Field(Local, Name),
}
