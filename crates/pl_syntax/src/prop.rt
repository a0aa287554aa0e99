use crate::expr::{Binder, CellExpr, Expr, Instance, PermExpr};
use pl_base::{Items, Name, Pos};

/// A proposition about resources. All but stars and instances begin with their place.
#[derive(Debug, Drop)]
pub enum Prop {
    /// `emp`
    Emp(Pos),
    /// `pure(e)` or `pure(h: e)`
    Pure(Pos, Option<Name>, Expr),
    /// `P ** Q`
    Star(Box<Prop>, Box<Prop>),
    /// `exists x: s, .. . P`
    Exists(Pos, Items<Binder>, Box<Prop>),
    /// `c |->{q} e`
    Points(Pos, CellExpr, PermExpr, Expr),
    /// `slice(a, lo, hi, q)`
    Slice(Pos, Expr, Expr, Expr, PermExpr),
    /// `block(a, n)`
    Block(Pos, Expr, Expr),
    /// `lock_alive(l, q, I)`
    Alive(Pos, Expr, PermExpr, Instance),
    /// `lock_held(l)`
    Held(Pos, Expr),
    /// `inv(i, I)`
    Inv(Pos, Expr, Instance),
    /// `P(args)`
    App(Instance),
}

/// The body of a predicate.
#[derive(Debug, Drop)]
pub enum Body {
    Plain(Prop),
    /// `if (e) { P } else { Q }`
    Cond(Expr, Prop, Prop),
}
