//! The names in scope.

ghost use Rattle.std.specs.Prelude.{◌≡◌, ◌≤◌, ◌-◌, ◌∷◌, ◌++◌, [], length, drop, reverse, Some, if◌then◌else◌, is_ok, OnOk};
ghost use Rattle.pl_types.specs.Held.{bounds, sorts};
ghost use Rattle.pl_types.specs.Slots.{numbers_in, set, Tied};
ghost use Rattle.pl_syntax.specs.Scopes as spec;

use crate::kinds::Kind;
use crate::numbers::Numbers;
use pl_base::{Memory, Name};
use pl_syntax::Class;
use std::alloc::Global;
use std::marker::Model;

/// A name in scope. It has no sort where what it was bound to was refused.
#[derive(Clone, Copy)]
pub(crate) struct Binding<'a> {
    pub name: &'a Name,
    pub class: Class,
    pub sort: Option<Kind<'a>>,
}

/// A binder, and the number of the older one of its name, which it hides. The oldest binder has the number 0.
#[derive(Clone, Copy)]
struct Slot<'a> {
    binding: Binding<'a>,
    hides: Option<usize>,
}

/// The names in scope, which contracts see as a list, the newest first.
#[derive(Drop)]
pub(crate) struct Scope<'a> {
    slots: Vec<Slot<'a>>,
    /// The number of the newest binder of each name.
    newest: Numbers<'a>,
}

impl<'a> Model for Scope<'a> {
    ghost use Rattle.std.specs.Prelude.{List, reverse, map};
    ghost use Rattle.pl_types.specs.Slots.{held, numbers_in, Tied};
    ghost use Rattle.pl_syntax.specs.Scopes.{Bound};

    ghost Value = { List Bound };

    ghost view = { λ s. map held (reverse s.slots.items) };

    ghost invariant = { λ s. Tied (reverse s.slots.items) (numbers_in s.newest) };
}

/// One slot more, or all stay as they were.
fn add<'a>(
    slots: &mut Vec<Slot<'a>>,
    newest: &mut Numbers<'a>,
    slot: Slot<'a>,
) -> Result<(), Memory>
    ensures slots { slots.new.items ≡ (if is_ok result then slots.old.items ++ (slot.entry ∷ []) else slots.old.items) }
    ensures newest { numbers_in newest.new ≡ (if is_ok result then set slot.entry.binding.name.now (Some (length slots.old.items)) (numbers_in newest.old) else numbers_in newest.old) }
{
    let number = slots.len();
    slots.push(slot)?;
    match newest.put(slot.binding.name, number) {
        Ok(()) => Ok(()),
        Err(Memory) => {
            slots.pop();
            Err(Memory)
        }
    }
}

/// The newest binder is in scope no longer.
fn remove_last<'a>(slots: &mut Vec<Slot<'a>>, newest: &mut Numbers<'a>)
    requires { Tied (reverse slots.old.items) (numbers_in newest.old) }
    ensures slots { reverse slots.new.items ≡ drop 1 (reverse slots.old.items) }
    ensures tied { Tied (reverse slots.new.items) (numbers_in newest.new) }
{
    if let Some(slot) = slots.pop() {
        newest.restore(slot.binding.name, slot.hides);
    }
}

impl<'a> Scope<'a> {
    pub fn new(alloc: Global) -> Scope<'a>
        ensures { result ≡ [] }
    {
        Scope {
            slots: Vec::new(alloc),
            newest: Numbers::new(alloc),
        }
    }

    /// The newest binder of a name.
    pub fn look(&self, name: &Name) -> Option<Binding<'a>>
        ensures { bounds result ≡ spec.look name.now self.now }
    {
        match self.newest.get(name) {
            Some(number) => Some(self.slots[number].binding),
            None => None,
        }
    }

    /// One name more.
    pub fn bind(
        &mut self,
        name: &'a Name,
        class: Class,
        sort: Option<Kind<'a>>,
    ) -> Result<(), Memory>
        ensures { OnOk result (self.new ≡ spec.bind name.now class (sorts sort.entry) self.old) }
    {
        let slot = Slot {
            binding: Binding { name, class, sort },
            hides: self.newest.get(name),
        };
        add(&mut self.slots, &mut self.newest, slot)
    }

    /// How many names are in scope.
    pub fn mark(&self) -> usize
        ensures { result ≡ length self.now }
    {
        self.slots.len()
    }

    /// The newest name is in scope no longer.
    fn leave_one(&mut self)
        ensures { self.new ≡ drop 1 self.old }
    {
        remove_last(&mut self.slots, &mut self.newest);
    }

    /// The names that were bound since a mark are in scope no longer.
    pub fn leave(&mut self, mark: usize)
        requires { mark ≤ length self.old }
        ensures { self.new ≡ drop (length self.old - mark) self.old }
    {
        while self.mark() > mark {
            self.leave_one();
        }
    }
}
