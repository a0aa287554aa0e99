use crate::stmt::Stmt;
use crate::word::{Local, Number};
use c_syntax::CType;
use pl_base::{Items, Name};

/// A member of a structure: `T m_f;`
#[derive(Debug, Drop)]
pub struct Member {
    pub kind: CType,
    pub name: Name,
}

/// A structure, with one member at least.
#[derive(Debug, Drop)]
pub struct Struct {
    pub name: Name,
    pub members: Items<Member>,
}

/// A parameter: `T x`
#[derive(Debug, Drop)]
pub struct Param {
    pub kind: CType,
    pub local: Local,
}

/// A function's result, name and parameters.
#[derive(Debug, Drop)]
pub struct Head {
    pub result: CType,
    pub name: Name,
    pub params: Items<Param>,
}

/// A member for an argument of a thread's first call: `T a_k;`
#[derive(Debug, Drop)]
pub struct Slot {
    pub kind: CType,
    pub number: Number,
}

/// The structure of the arguments of a thread's first call, and the function with which the thread begins.
#[derive(Debug, Drop)]
pub struct Starter {
    /// The name in `struct a_f {`.
    pub structure: Name,
    /// The members behind `char a_0;`.
    pub slots: Items<Slot>,
    /// The name in `static int t_f(void *p) {`.
    pub name: Name,
    /// The name in `struct a_f *q = p;`.
    pub pointer: Name,
    /// The name in `struct a_f c = *q;`.
    pub copy: Name,
    /// The function that it calls.
    pub function: Name,
    /// The numbers of `c.a_1, c.a_2, ..`.
    pub arguments: Items<Number>,
}

/// A function.
#[derive(Debug, Drop)]
pub struct Fun {
    pub head: Head,
    pub body: Items<Stmt>,
}

/// What a text has behind the prelude and in front of its fixed `main`, group by group.
#[derive(Debug, Drop)]
pub struct Source {
    pub structs: Items<Struct>,
    pub prototypes: Items<Head>,
    pub starters: Items<Starter>,
    pub funs: Items<Fun>,
}
