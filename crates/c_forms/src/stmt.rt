use crate::word::{Cell, Expr, Local, Number};
use c_syntax::CType;
use pl_base::{Items, Name};

/// What makes a block of one cell.
#[derive(Clone, Copy, Debug, PartialEq, Eq)]
pub enum Maker {
    /// `p_new_i64`
    I64,
    /// `p_new_bool`
    Bool,
    /// `p_new_atomic`
    Atomic,
}

/// What stands behind the `=` of a line that binds a local.
#[derive(Debug, Drop)]
pub enum Right {
    Value(Expr),
    Load(Cell),
    /// `p_new_i64(e)` and its like
    New(Maker, Expr),
    /// `p_array(e, n)`
    Array(Expr, Box<Expr>),
    /// `p_get(sizeof(struct s_S))`
    Struct(Name),
    /// `p_lock_new()`
    Lock,
    /// `f_f(args)`
    Call(Name, Items<Expr>),
    /// `atomic_load(a)`, where the type is `int64_t`
    AtomicLoad(Local),
    /// `p_read()`, where the type is `int64_t`
    Read,
    /// `p_cas(a, d, e)`, where the type is `bool`
    Cas(Local, Box<Expr>, Box<Expr>),
}

/// A line in the head of a loop: `T x = c;`
#[derive(Debug, Drop)]
pub struct Load {
    pub kind: CType,
    pub local: Local,
    pub cell: Cell,
}

/// A line that hands an argument over to a thread: `q->a_1 = e;`
#[derive(Debug, Drop)]
pub struct Argument {
    pub number: Number,
    pub value: Expr,
}

/// The bracketed lines of a `par`.
#[derive(Debug, Drop)]
pub struct Par {
    /// The name in `struct a_f *q = ..`.
    pub structure: Name,
    /// The name in `.. = p_get(sizeof(struct a_f));`.
    pub size: Name,
    pub arguments: Items<Argument>,
    /// The name in `thrd_t t = p_fork(t_f, q);`.
    pub starter: Name,
    /// The function that this thread calls.
    pub other: Name,
    pub others: Items<Expr>,
}

/// A statement as it is written. The lines of a structure's first values are stores.
#[derive(Debug, Drop)]
pub enum Stmt {
    /// `T x = right;`
    Bind(CType, Local, Box<Right>),
    /// `c = e;`
    Store(Cell, Expr),
    /// `free(x);`
    Free(Local),
    /// `atomic_store(a, e);`
    AtomicStore(Local, Expr),
    /// `p_acquire(l);`
    Acquire(Local),
    /// `p_release(l);`
    Release(Local),
    /// `p_print(e);`
    Print(Expr),
    /// `f_f(args);`
    Call(Name, Items<Expr>),
    Par(Box<Par>),
    /// `if (e) {`, the first arm, `} else {`, the second, `}`
    If(Expr, Items<Stmt>, Items<Stmt>),
    /// `while (1) {`, the loads, a `break` where the test fails, the body, `}`
    While(Items<Load>, Expr, Items<Stmt>),
    /// `return e;`
    Return(Expr),
}
