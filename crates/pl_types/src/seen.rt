//! The names that were bound in a list, or declared.

use pl_base::{Memory, Name};
use std::alloc::Global;
use std::collections::HashMap;

/// The names so far.
#[derive(Drop)]
pub(crate) struct Seen<'a> {
    names: HashMap<&'a str, ()>,
}

impl<'a> Seen<'a> {
    ghost use Rattle.std.specs.Prelude.{◌≡◌, OnOk};
    ghost use Rattle.pl_syntax.specs.Known.{nothing, put};
    ghost use Rattle.pl_types.specs.Tables.{taken_in};

    pub fn new(alloc: Global) -> Seen<'a>
        ensures { taken_in result ≡ nothing }
    {
        Seen {
            names: HashMap::new(alloc),
        }
    }

    pub fn has(&self, name: &Name) -> bool
        ensures { result ≡ taken_in self.now name.now }
    {
        self.names.get(name.text()).is_some()
    }

    pub fn put(&mut self, name: &'a Name) -> Result<(), Memory>
        ensures { OnOk result (taken_in self.new ≡ put name.now (taken_in self.old)) }
    {
        self.names.insert(name.text(), ())?;
        Ok(())
    }
}
