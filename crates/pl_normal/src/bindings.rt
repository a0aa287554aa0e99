//! The names that are bound, the oldest first.

ghost use Rattle.std.specs.Prelude.{◌≡◌, ◌∷◌, ◌++◌, [], take, length, OnOk};

use crate::scope::Binding;
use pl_base::Memory;
use std::alloc::Global;
use std::marker::Model;

/// Names with their forms, no more than a `u32` counts.
#[derive(Drop)]
pub(crate) struct Bindings {
    list: Vec<Binding>,
}

impl Model for Bindings {
    ghost use Rattle.std.specs.Prelude.{◌≤◌, List, length};
    ghost use Rattle.pl_normal.specs.declared.scope.Binding.{Binding};

    ghost Value = { List Binding };

    ghost view = { λ b. b.list.items };

    ghost invariant = { λ b. length b.list.items ≤ 4294967295 };
}

impl Bindings {
    pub(crate) fn none(alloc: Global) -> Bindings
        ensures { result ≡ [] }
    {
        Bindings {
            list: Vec::new(alloc),
        }
    }

    pub(crate) fn push(&mut self, binding: Binding) -> Result<(), Memory>
        ensures { OnOk result (self.new ≡ self.old ++ binding ∷ []) }
    {
        if self.list.len() >= u32::MAX as usize {
            return Err(Memory);
        }
        self.list.push(binding)?;
        Ok(())
    }

    pub(crate) fn as_slice(&self) -> &[Binding]
        ensures { result.now ≡ self.now }
    {
        self.list.as_slice()
    }

    pub(crate) fn count(&self) -> u32
        ensures { result ≡ length self.now }
    {
        self.list.len() as u32
    }

    // Only the oldest names.
    pub(crate) fn keep(&mut self, count: u32)
        ensures { self.new ≡ take count self.old }
    {
        self.list.truncate(count as usize);
    }
}
