use crate::expr::{Binder, CellExpr, Expr, Instance};
use crate::prop::Prop;
use pl_base::{Items, Name, Pos};

/// The first value of a structure's field.
#[derive(Debug, Drop)]
pub struct Init {
    pub name: Name,
    pub value: Expr,
}

/// What is shared or gathered. A lock is a whole cell.
#[derive(Debug, Drop)]
pub enum Key {
    Cell(CellExpr),
    /// `slice(a, lo, hi)`
    Slice(Expr, Expr, Expr),
}

/// A fact by its label, times a number.
#[derive(Debug, Drop)]
pub struct HintTerm {
    pub times: i128,
    pub label: Name,
}

/// The facts that an assertion follows from.
#[derive(Debug, Drop)]
pub struct Hint {
    pub terms: Items<HintTerm>,
}

/// The statements of a block, and the place of its closing brace.
#[cycle(tree)]
#[derive(Debug, Drop)]
pub struct Stmts {
    pub list: Items<Stmt>,
    pub close: Pos,
}

/// A statement. Each begins with its place, the first token's.
#[cycle(tree)]
#[derive(Debug, Drop)]
pub enum Stmt {
    /// `let x = e;`
    Let(Pos, Name, Expr),
    /// `let x = !c;`, with true for `let ghost x = !c;`
    Load(Pos, Name, CellExpr, bool),
    /// `c := e;`
    Store(Pos, CellExpr, Expr),
    /// `let x = alloc(e);`
    Alloc(Pos, Name, Expr),
    /// `let x = alloc_array(e, n);`
    AllocArray(Pos, Name, Expr, Expr),
    /// `let x = alloc_atomic(e);`
    AllocAtomic(Pos, Name, Expr),
    /// `let x = new S { f: e, .. };`
    New(Pos, Name, Name, Items<Init>),
    /// `free(x);`
    Free(Pos, Name),
    /// `free_array(x);`
    FreeArray(Pos, Name),
    /// `let x = atomic_read(c);`
    AtomicRead(Pos, Name, Name),
    /// `atomic_write(c, e);`
    AtomicWrite(Pos, Name, Expr),
    /// `let x = cas(c, d, e);`
    Cas(Pos, Name, Name, Expr, Expr),
    /// `let l = new_lock(I);`
    NewLock(Pos, Name, Instance),
    /// `acquire(l);`
    Acquire(Pos, Name),
    /// `release(l);`
    Release(Pos, Name),
    /// `free_lock(l);`
    FreeLock(Pos, Name),
    /// `let x = read();`
    Read(Pos, Name),
    /// `print(e);`
    Print(Pos, Expr),
    /// `f(args);` or `let x = f(args);`
    Call(Pos, Option<Name>, Name, Items<Expr>),
    /// `par f(args), g(args);`
    Par(Pos, Name, Items<Expr>, Name, Items<Expr>),
    /// `if (e) { .. } else { .. } ensures P;`
    If(Pos, Expr, Stmts, Option<Stmts>, Option<Prop>),
    /// `while (let x = !c; e) invariant P { .. }`, with the loads first
    While(Pos, Items<Stmt>, Expr, Prop, Stmts),
    /// `let mut x = e;`
    LetMut(Pos, Name, Expr),
    /// `return e;`
    Return(Pos, Expr),
    /// `with_invariants i { .. } ensures P;`
    With(Pos, Name, Stmts, Option<Prop>),
    /// `let ghost x = e;`
    GLet(Pos, Name, Expr),
    /// `let ghost g = galloc(e);`
    GAlloc(Pos, Name, Expr),
    /// `let ghost i = new_invariant(I);`
    NewInv(Pos, Name, Instance),
    /// `fold I;`
    Fold(Pos, Instance),
    /// `unfold I;`
    Unfold(Pos, Instance),
    /// `rewrite A as B;`
    Rewrite(Pos, Prop, Prop),
    /// `share k;`
    Share(Pos, Key),
    /// `gather k;`
    Gather(Pos, Key),
    /// `split slice(a, lo, hi) at m;`
    Split(Pos, Expr, Expr, Expr, Expr),
    /// `join slice(a, lo, m, hi);`
    Join(Pos, Expr, Expr, Expr, Expr),
    /// `focus a[i];`
    Focus(Pos, Name, Expr),
    /// `unfocus a[i];`
    Unfocus(Pos, Name, Expr),
    /// `assert h: e by cert;`
    Assert(Pos, Option<Name>, Expr, Option<Hint>),
    /// `with x: s, .. . assert P;`
    WithAssert(Pos, Items<Binder>, Prop),
    /// `drop_ P;`
    Drop(Pos, Prop),
}
