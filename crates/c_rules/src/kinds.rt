//! Types of C as they are passed, and whether two are the same.

ghost use Rattle.std.specs.Prelude.{◌≡◌};
ghost use Rattle.c_rules.specs.Kinds as spec;

use c_syntax::CType;
use pl_base::Name;

/// A type of C that is borrowed, or that no text has.
#[derive(Clone, Copy)]
pub(crate) enum Kind<'a> {
    Void,
    I64,
    Bool,
    PtrI64,
    PtrBool,
    PtrStruct(&'a Name),
    PtrAtomic,
    PtrLock,
}

/// A written type.
pub(crate) fn kind_of(written: &CType) -> Kind<'_>
    ensures { spec.type result ≡ written.now }
{
    match written {
        CType::Void => Kind::Void,
        CType::I64 => Kind::I64,
        CType::Bool => Kind::Bool,
        CType::PtrI64 => Kind::PtrI64,
        CType::PtrBool => Kind::PtrBool,
        CType::PtrStruct(name) => Kind::PtrStruct(name),
        CType::PtrAtomic => Kind::PtrAtomic,
        CType::PtrLock => Kind::PtrLock,
    }
}

/// Whether two types are the same.
pub(crate) fn same_type(a: Kind<'_>, b: Kind<'_>) -> bool
    ensures { result ≡ spec.same_type (spec.type a.entry) (spec.type b.entry) }
{
    match (a, b) {
        (Kind::Void, Kind::Void) => true,
        (Kind::I64, Kind::I64) => true,
        (Kind::Bool, Kind::Bool) => true,
        (Kind::PtrI64, Kind::PtrI64) => true,
        (Kind::PtrBool, Kind::PtrBool) => true,
        (Kind::PtrStruct(x), Kind::PtrStruct(y)) => x.same(y),
        (Kind::PtrAtomic, Kind::PtrAtomic) => true,
        (Kind::PtrLock, Kind::PtrLock) => true,
        _ => false,
    }
}

/// Whether a pointer of that type may be null.
pub(crate) fn is_nullable(kind: Kind<'_>) -> bool
    ensures { result ≡ spec.is_nullable (spec.type kind.entry) }
{
    matches!(kind, Kind::PtrI64 | Kind::PtrBool | Kind::PtrStruct(_))
}

/// Whether it is a pointer to a block or a lock.
pub(crate) fn is_pointer(kind: Kind<'_>) -> bool
    ensures { result ≡ spec.is_pointer (spec.type kind.entry) }
{
    !matches!(kind, Kind::Void | Kind::I64 | Kind::Bool)
}
