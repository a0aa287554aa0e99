//! The locals that are bound.

ghost use Rattle.std.specs.Prelude.{◌≡◌, ◌∷◌, [], ◌≤◌, ◌++◌, length, OnOk, Some};

use crate::kinds::Kind;
use pl_base::{Memory, Name};
use std::alloc::Global;

/// A local that is bound. Its number is one more than its place among all binders of its function.
#[derive(Clone, Copy)]
pub(crate) struct Binder<'a> {
    pub name: &'a Name,
    pub kind: Kind<'a>,
}

/// The binders of a function so far by number, with nothing where a block has ended.
#[derive(Drop)]
pub(crate) struct Locals<'a> {
    pub slots: Vec<Option<Binder<'a>>>,
}

impl<'a> Locals<'a> {
    ghost use Rattle.c_rules.specs.Locals.{look, closed};
    ghost use Rattle.c_rules.specs.Kinds.{types};

    pub fn new(alloc: Global) -> Locals<'a>
        ensures { result.slots.items ≡ [] }
    {
        Locals {
            slots: Vec::new(alloc),
        }
    }

    /// How many locals were bound.
    pub fn count(&self) -> usize
        ensures { result ≡ length self.now.slots.items }
    {
        self.slots.len()
    }

    /// The type of the local with that name and number.
    pub fn kind_of(&self, name: &Name, number: u32) -> Option<Kind<'a>>
        ensures { types result ≡ look self.now.slots.items name.now number }
    {
        if number == 0 {
            return None;
        }
        match self.slots.get(number as usize - 1) {
            None => None,
            Some(slot) => match slot {
                None => None,
                Some(binder) => {
                    if name.same(binder.name) {
                        Some(binder.kind)
                    } else {
                        None
                    }
                }
            },
        }
    }

    /// Binds the next local.
    pub fn bind(&mut self, binder: Binder<'a>) -> Result<(), Memory>
        ensures { OnOk result (self.new.slots.items ≡ self.old.slots.items ++ (Some binder.entry ∷ [])) }
    {
        self.slots.push(Some(binder))?;
        Ok(())
    }

    /// Unbinds the locals from the k-th on.
    pub fn close(&mut self, k: usize)
        requires { k ≤ length self.old.slots.items }
        ensures { self.new.slots.items ≡ closed k self.old.slots.items }
    {
        let ended = &mut self.slots.as_mut_slice()[k..];
        ended.fill(None);
    }
}
