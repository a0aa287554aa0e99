//! Numbers of names.

use pl_base::{Memory, Name};
use std::alloc::Global;
use std::collections::HashMap;

/// A number for each of some names.
#[derive(Drop)]
pub(crate) struct Numbers<'a> {
    newest: HashMap<&'a str, usize>,
}

impl<'a> Numbers<'a> {
    ghost use Rattle.std.specs.Prelude.{◌≡◌, OnOk, OnErr, Some, IsSome};
    ghost use Rattle.pl_types.specs.Slots.{numbers_in, no_numbers, set};

    pub fn new(alloc: Global) -> Numbers<'a>
        ensures { numbers_in result ≡ no_numbers }
    {
        Numbers {
            newest: HashMap::new(alloc),
        }
    }

    pub fn get(&self, name: &Name) -> Option<usize>
        ensures { result ≡ numbers_in self.now name.now }
    {
        self.newest.get(name.text()).copied()
    }

    /// The name has this number from now on.
    pub fn put(&mut self, name: &'a Name, number: usize) -> Result<(), Memory>
        ensures put { OnOk result (numbers_in self.new ≡ set name.now (Some number) (numbers_in self.old)) }
        ensures kept { OnErr result (numbers_in self.new ≡ numbers_in self.old) }
    {
        self.newest.insert(name.text(), number)?;
        Ok(())
    }

    /// A name that has a number has that one from now on, or none. It takes no memory.
    pub fn restore(&mut self, name: &Name, number: Option<usize>)
        requires { IsSome (numbers_in self.old name.now) }
        ensures { numbers_in self.new ≡ set name.now number (numbers_in self.old) }
    {
        match number {
            None => {
                self.newest.remove(name.text());
            }
            Some(number) => {
                if let Some(slot) = self.newest.get_mut(name.text()) {
                    *slot = number;
                }
            }
        }
    }
}
