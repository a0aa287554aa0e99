//! Sorts as they are passed.

ghost use Rattle.std.specs.Prelude.{◌≡◌};
ghost use Rattle.pl_types.specs.Held as held;
ghost use Rattle.pl_syntax.specs.Scopes as spec;

use pl_base::Name;
use pl_syntax::Sort;

/// A sort as contracts read it, with the name of its structure borrowed.
#[derive(Clone, Copy)]
pub(crate) enum Kind<'a> {
    Bool,
    RefI64,
    RefBool,
    RefStruct(&'a Name),
    Atomic,
    Lock,
    Int,
    Perm,
    Gref,
    Iname,
}

/// A written sort, with i64 as int.
pub(crate) fn read_as(sort: &Sort) -> Kind<'_>
    ensures { held.sort result ≡ spec.read_as sort.now }
{
    match sort {
        Sort::I64 | Sort::Int => Kind::Int,
        Sort::Bool => Kind::Bool,
        Sort::RefI64 => Kind::RefI64,
        Sort::RefBool => Kind::RefBool,
        Sort::RefStruct(name) => Kind::RefStruct(name),
        Sort::Atomic => Kind::Atomic,
        Sort::Lock => Kind::Lock,
        Sort::Perm => Kind::Perm,
        Sort::Gref => Kind::Gref,
        Sort::Iname => Kind::Iname,
    }
}

pub(crate) fn same_sort(a: Kind<'_>, b: Kind<'_>) -> bool
    ensures { result ≡ spec.same_sort (held.sort a.entry) (held.sort b.entry) }
{
    match (a, b) {
        (Kind::Bool, Kind::Bool) => true,
        (Kind::RefI64, Kind::RefI64) => true,
        (Kind::RefBool, Kind::RefBool) => true,
        (Kind::RefStruct(s), Kind::RefStruct(t)) => s.same(t),
        (Kind::Atomic, Kind::Atomic) => true,
        (Kind::Lock, Kind::Lock) => true,
        (Kind::Int, Kind::Int) => true,
        (Kind::Perm, Kind::Perm) => true,
        (Kind::Gref, Kind::Gref) => true,
        (Kind::Iname, Kind::Iname) => true,
        _ => false,
    }
}

/// Whether it is a `ref` sort.
pub(crate) fn is_ref(kind: Kind<'_>) -> bool
    ensures { result ≡ spec.is_ref (held.sort kind.entry) }
{
    matches!(kind, Kind::RefI64 | Kind::RefBool | Kind::RefStruct(_))
}
