use crate::kind::{CType, Local};
use crate::stmt::CStmt;
use pl_base::{Items, Name};

/// A member of a structure.
#[derive(Debug, Drop)]
pub struct CMember {
    pub name: Name,
    pub kind: CType,
}

/// A parameter of a function.
#[derive(Debug, Drop)]
pub struct CParam {
    pub local: Local,
    pub kind: CType,
}

/// A structure.
#[derive(Debug, Drop)]
pub struct CStruct {
    pub name: Name,
    pub members: Items<CMember>,
}

/// A function.
#[derive(Debug, Drop)]
pub struct CFun {
    pub name: Name,
    pub result: CType,
    pub params: Items<CParam>,
    pub body: Items<CStmt>,
}

/// A program: its structures and its functions, in their order.
#[derive(Debug, Drop)]
pub struct CProgram {
    pub structs: Items<CStruct>,
    pub funs: Items<CFun>,
}
