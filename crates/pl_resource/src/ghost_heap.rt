ghost use Rattle.std.specs.Prelude.{◌≡◌, ◌<◌, ◌-◌, ◌^◌, [], ◌∷◌, ◌++◌, IfOk, OnOk, OnErr, length};
ghost use Rattle.pl_resource.specs.Faults.{leaves};
ghost use Rattle.pl_resource.specs.GhostHeap.{get_of, set_of};

use crate::value::Fault;
use pl_base::Memory;
use std::alloc::Global;
use std::marker::Model;

/// The ghost cells that were made, by their numbers. Contracts see the list of what they hold.
#[derive(Drop)]
pub struct GhostHeap {
    cells: Vec<i128>,
}

impl Model for GhostHeap {
    ghost use Rattle.std.specs.Prelude.{List, ℤ};

    ghost Value = { List ℤ };

    ghost view = { λ h. h.cells.items };
}

impl GhostHeap {
    /// No cell. It takes no memory.
    pub fn new(alloc: Global) -> GhostHeap
        ensures { result ≡ [] }
    {
        GhostHeap {
            cells: Vec::new(alloc),
        }
    }

    /// Makes a cell and tells its number. Numbers count from 0 and never come again.
    pub fn push(&mut self, value: i128) -> Result<u32, Memory>
        requires { length self.old < 2 ^ 32 - 1 }
        ensures number { IfOk result (λ number. number ≡ length self.old) }
        ensures cell { OnOk result (self.new ≡ self.old ++ value ∷ []) }
        ensures refused { OnErr result (self.new ≡ self.old) }
    {
        let number = self.cells.len() as u32;
        self.cells.push(value)?;
        Ok(number)
    }

    /// What a cell holds. It faults `GhostMissing` exactly where no such cell was made.
    pub fn get(&self, g: u32) -> Result<i128, Fault>
        ensures { result ≡ get_of self.now g }
    {
        match self.cells.get(g as usize) {
            Some(value) => Ok(*value),
            None => Err(Fault::GhostMissing),
        }
    }

    /// Writes a cell. It faults `GhostMissing` exactly where no such cell was made.
    pub fn set(&mut self, g: u32, value: i128) -> Result<(), Fault>
        ensures result { leaves result self.new ≡ set_of self.old g value }
        ensures refused { OnErr result (self.new ≡ self.old) }
    {
        let number = g as usize;
        if number >= self.cells.len() {
            return Err(Fault::GhostMissing);
        }
        self.cells[number] = value;
        Ok(())
    }
}
