ghost use Rattle.std.specs.Prelude.{◌≡◌, ◌<◌, ◌-◌, ◌^◌, [], ◌∷◌, ◌++◌, IfOk, OnOk, OnErr, length, slice_get};
ghost use Rattle.std.specs.Option.{option_copied};

use crate::value::Entry;
use pl_base::Memory;
use std::alloc::Global;
use std::marker::Model;

/// The invariants that were made, by their numbers. Contracts see the list of their entries.
#[derive(Drop)]
pub struct InvTable {
    entries: Vec<Entry>,
}

impl Model for InvTable {
    ghost use Rattle.std.specs.Prelude.{List};
    ghost use Rattle.pl_resource.specs.declared.value.Entry.{Entry};

    ghost Value = { List Entry };

    ghost view = { λ t. t.entries.items };
}

impl InvTable {
    /// No invariant. It takes no memory.
    pub fn new(alloc: Global) -> InvTable
        ensures { result ≡ [] }
    {
        InvTable {
            entries: Vec::new(alloc),
        }
    }

    /// Makes an invariant and tells its number. Numbers count from 0 and never come again.
    pub fn push(&mut self, entry: Entry) -> Result<u32, Memory>
        requires { length self.old < 2 ^ 32 - 1 }
        ensures number { IfOk result (λ number. number ≡ length self.old) }
        ensures entry { OnOk result (self.new ≡ self.old ++ entry ∷ []) }
        ensures refused { OnErr result (self.new ≡ self.old) }
    {
        let number = self.entries.len() as u32;
        self.entries.push(entry)?;
        Ok(number)
    }

    /// The entry of an invariant; `None` exactly where no invariant of that number was made.
    pub fn get(&self, i: u32) -> Option<&Entry>
        ensures { option_copied result ≡ slice_get self.now i }
    {
        self.entries.get(i as usize)
    }
}
