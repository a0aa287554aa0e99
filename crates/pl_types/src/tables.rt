//! What a file declares, by name.

ghost use Rattle.std.specs.Prelude.{◌≡◌, codes};
ghost use Rattle.pl_types.specs.Held.{lent, sorts};
ghost use Rattle.pl_syntax.specs.Known.{sort_in};
ghost use Rattle.pl_syntax.specs.PropRules.{field_of};
ghost use Rattle.pl_types.specs.Tables.{known_of, placed};

use crate::kinds::{Kind, read_as};
use crate::seen::Seen;
use pl_base::Name;
use pl_syntax::{Binder, FunDecl};
use std::collections::HashMap;

/// A function, and its place among all declarations.
#[derive(Clone, Copy)]
pub(crate) struct Callee<'a> {
    pub place: usize,
    pub decl: &'a FunDecl,
}

/// The fields of structures, the parameters of predicates, the functions, and the names of all fields.
#[derive(Drop)]
pub(crate) struct Tables<'a> {
    pub structs: HashMap<&'a str, &'a [Binder]>,
    pub preds: HashMap<&'a str, &'a [Binder]>,
    pub funs: HashMap<&'a str, Callee<'a>>,
    pub fields: Seen<'a>,
}

/// The sort of the first of these binders that has that name.
pub(crate) fn sort_in<'a>(name: &Name, list: &'a [Binder]) -> Option<Kind<'a>>
    ensures { sorts result ≡ sort_in name.now list.now }
{
    for b in list {
        if name.same(&b.name) {
            return Some(read_as(&b.sort));
        }
    }
    None
}

impl<'a> Tables<'a> {
    pub fn structure(&self, name: &Name) -> Option<&'a [Binder]>
        ensures { lent result ≡ (known_of self.now).structs name.now }
    {
        self.structs.get(name.text()).copied()
    }

    pub fn predicate(&self, name: &Name) -> Option<&'a [Binder]>
        ensures { lent result ≡ (known_of self.now).preds name.now }
    {
        self.preds.get(name.text()).copied()
    }

    pub fn function(&self, name: &Name) -> Option<Callee<'a>>
        ensures { placed result ≡ (known_of self.now).funs name.now }
    {
        self.funs.get(name.text()).copied()
    }

    /// The function `main`.
    pub fn main(&self) -> Option<Callee<'a>>
        ensures { placed result ≡ (known_of self.now).funs (codes "main") }
    {
        self.funs.get("main").copied()
    }

    /// Whether some structure has that field.
    pub fn has_field(&self, name: &Name) -> bool
        ensures { result ≡ (known_of self.now).has_field name.now }
    {
        self.fields.has(name)
    }

    /// The sort of a field of a structure.
    pub fn field_sort(&self, structure: &Name, field: &Name) -> Option<Kind<'a>>
        ensures { sorts result ≡ field_of field.now ((known_of self.now).structs structure.now) }
    {
        match self.structure(structure) {
            None => None,
            Some(fields) => sort_in(field, fields),
        }
    }
}
