//! What the whole text declares, by name.

ghost use Rattle.std.specs.Prelude.{◌≡◌};

use crate::seen::Seen;
use c_forms::{Head, Member};
use pl_base::Name;
use std::collections::HashMap;

/// The structures and functions of a text by name, and the functions that lack what a thread needs that begins with a
/// call of them.
#[derive(Drop)]
pub(crate) struct Tables<'a> {
    pub structs: HashMap<&'a str, &'a [Member]>,
    pub heads: HashMap<&'a str, &'a Head>,
    pub missing: Seen<'a>,
}

impl<'a> Tables<'a> {
    ghost use Rattle.std.specs.Prelude.{codes};
    ghost use Rattle.std.specs.Option.{is_some};
    ghost use Rattle.c_rules.specs.Tables.{known_of, members_lent, head_lent};

    /// The members of the structure of that name.
    pub fn members(&self, name: &Name) -> Option<&'a [Member]>
        ensures { members_lent result ≡ (known_of self.now).structs name.now }
    {
        self.structs.get(name.text()).copied()
    }

    /// The head of the function of that name.
    pub fn head(&self, name: &Name) -> Option<&'a Head>
        ensures { head_lent result ≡ (known_of self.now).heads name.now }
    {
        self.heads.get(name.text()).copied()
    }

    /// Whether the function of that name lacks what a thread needs that begins with a call of it.
    pub fn is_missing(&self, name: &Name) -> bool
        ensures { result ≡ (known_of self.now).missing name.now }
    {
        self.missing.has(name)
    }
    /// Whether there is a function `main`.
    pub fn has_main(&self) -> bool
        ensures { result ≡ is_some ((known_of self.now).heads (codes "main")) }
    {
        self.heads.get("main").is_some()
    }
}
