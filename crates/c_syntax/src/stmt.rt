use crate::expr::{CCell, CExpr};
use crate::kind::{CType, Local};
use pl_base::{Items, Name};

/// A statement. The first local is the one that it binds, if it binds one, and a type is that local's.
#[derive(Debug, Drop)]
pub enum CStmt {
    /// `T x = e;`
    Let(CType, Local, CExpr),
    /// `T x = c;`
    Load(CType, Local, CCell),
    /// `c = e;`
    Store(CCell, CExpr),
    /// `T x = p_new_i64(e);` or `T x = p_new_bool(e);`
    New(CType, Local, CExpr),
    /// `T x = p_array(e, n);` with the first values and then the length
    NewArray(CType, Local, CExpr, CExpr),
    /// `p_atomic *x = p_new_atomic(e);`
    NewAtomic(Local, CExpr),
    /// `struct s_S *x = p_get(sizeof(struct s_S));` and a line for the first value of each member
    NewStruct(Local, Name, Items<CInit>),
    /// `free(x);`
    Free(Local),
    /// `int64_t x = atomic_load(c);`
    AtomicLoad(Local, Local),
    /// `atomic_store(c, e);`
    AtomicStore(Local, CExpr),
    /// `bool x = p_cas(c, d, e);` with the expected and then the new value
    Cas(Local, Local, CExpr, CExpr),
    /// `struct p_lock *l = p_lock_new();`
    NewLock(Local),
    /// `p_acquire(l);`
    Acquire(Local),
    /// `p_release(l);`
    Release(Local),
    /// `int64_t x = p_read();`
    Read(Local),
    /// `p_print(e);`
    Print(CExpr),
    /// `f_f(args);`
    Call(Name, Items<CExpr>),
    /// `T x = f_f(args);`
    CallLet(CType, Local, Name, Items<CExpr>),
    /// A thread runs the first call, this one runs the second, and then joins the thread.
    Par(Name, Items<CExpr>, Name, Items<CExpr>),
    /// `if (e) {`, the first arm, `} else {`, the second, `}`
    If(CExpr, Items<CStmt>, Items<CStmt>),
    /// `while (1) {`, the loads, a `break` where the test fails, the body, `}`
    While(Items<CStmt>, CExpr, Items<CStmt>),
    /// `return e;`
    Return(CExpr),
}

/// The first value of a structure's member.
#[derive(Debug, Drop)]
pub struct CInit {
    pub name: Name,
    pub value: CExpr,
}
