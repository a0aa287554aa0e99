use pl_base::Name;

/// A type of C.
#[derive(Debug, Drop)]
pub enum CType {
    Void,
    /// `int64_t` (C11 7.20.1.1)
    I64,
    /// `bool` (C11 7.18)
    Bool,
    PtrI64,
    PtrBool,
    /// A pointer to the structure of that name.
    PtrStruct(Name),
    /// A pointer to an atomic `int64_t` (C11 6.7.2.4).
    PtrAtomic,
    /// A pointer to a spin lock.
    PtrLock,
}

/// A local of a function: its name in the source and the number of its binder, from 1.
#[derive(Debug, Drop)]
pub struct Local {
    pub name: Name,
    pub number: u32,
}
